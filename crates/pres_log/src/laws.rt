//! Laws of logs, for the crates that go on with one.

ghost use Rattle.std.specs.Prelude.{◌≡◌, ◌++◌, ◌∷◌, [], List, max};
ghost use Rattle.pres_write.specs.Basics.{applied};
ghost use Rattle.pres_log.specs.Logs.{Log, entries, last_moment, writes, tree};
ghost use Rattle.pres_log.specs.declared.entry.Batch.{Batch};
ghost use Rattle.pres_log.specs.declared.entry.Entry.{Entry};

/// One more batch appends its entries to those before it.
pub fn batches_add_entries()
    ensures { (log : Log) (batch : Batch)
        → entries (log ++ batch ∷ []) ≡ entries log ++ batch.entries }
{}

/// The greatest moment after a batch more is the later of the one before it and its own.
pub fn moments_go_on()
    ensures { (log : Log) (batch : Batch)
        → last_moment (log ++ batch ∷ []) ≡ max (last_moment log) batch.moment }
{}

/// The tree after further entries is the tree before them, after their writes.
pub fn trees_go_on()
    ensures { (es more : List Entry) → tree (es ++ more) ≡ applied (tree es) (writes more) }
{}
