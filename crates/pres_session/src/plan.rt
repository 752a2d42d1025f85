//! What a session owes at its end.

/// A plan: which rows a session owes at its end, by the tree and the moment of the end.
pub trait Pays {
    ghost use Rattle.std.specs.Prelude.{ℕ, List};
    ghost use Rattle.pres_tree.specs.Rows.{Rows};
    ghost use Rattle.pres_tree.specs.declared.scalar.Scalar.{Scalar};
    ghost use Rattle.pres_write.specs.declared.basic.Basic.{Basic};

    ghost owed: { Self → Rows Scalar → ℕ → List Basic };
}

/// The plan that owes nothing.
#[derive(Drop)]
pub struct NoPlan;

impl Pays for NoPlan {
    ghost use Rattle.std.specs.Prelude.{[]};

    ghost owed = { λ plan tree moment. [] };
}
