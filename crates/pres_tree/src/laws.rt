//! Laws of the tree after writes, for the crates that keep logs of writes.

ghost use Rattle.std.specs.Prelude.{List};
ghost use Rattle.pres_tree.specs.Paths.{Path};
ghost use Rattle.pres_tree.specs.Rows.{Rows, IsValue, Fits};
ghost use Rattle.pres_tree.specs.Writes.{Write, LastWriteDecides, TreeGrows, StaysValue};
ghost use Rattle.pres_tree.specs.declared.scalar.Scalar.{Scalar};

/// What a tree holds at a place after a list of writes is what the last write that overwrites the
/// place put there: the rows that the program computes say the same.
pub fn last_write_decides()
    ensures { (writes : List (Write Scalar)) (x : Path) → LastWriteDecides writes x }
{}

/// To write on a tree is to go on with the writes that left it.
pub fn tree_grows()
    ensures { (writes more : List (Write Scalar)) → TreeGrows writes more }
{}

/// A value that may stand at its path leaves a value.
pub fn writes_keep_values()
    ensures { (path : Path) (value tree : Rows Scalar) → StaysValue path value tree }
{}
