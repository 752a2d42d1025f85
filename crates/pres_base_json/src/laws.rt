//! A law of bodies.

ghost use Rattle.std.specs.Prelude.{ℕ, List};
ghost use Rattle.pres_base.specs.declared.parts.BaseParts.{BaseParts};
ghost use Rattle.pres_base_json.specs.Checks.{BodyIsRead};

/// A text is read as a base exactly where it is the body of a checkpoint of that base.
pub fn bodies_are_read()
    ensures { (batches moment : ℕ) (text : List ℕ) (base : BaseParts)
        → BodyIsRead batches moment text base }
{}
