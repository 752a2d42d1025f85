//! Laws of answers that are kept apart from the rest of a base, as contracts of functions without
//! bodies.

ghost use Rattle.std.specs.Prelude.{ℕ, List};
ghost use Rattle.pres_retry.specs.Tables.{Table};
ghost use Rattle.pres_base.specs.Bases.{IsBase};
ghost use Rattle.pres_base.specs.declared.parts.BaseParts.{BaseParts};
ghost use Rattle.pres_base.specs.AnswersApart.{RestIsBase, AllAboveZero, NoTablesAddNone, PartsJoin, TablesMakeBase, TablesGrow, WrittenTablesMakeBase};

/// What is left of a base where answers are left out is a base.
pub fn rests_are_bases()
    ensures { (number : ℕ) (base : BaseParts) → IsBase base → RestIsBase number base }
{}

/// No tables add no answers.
pub fn no_tables_add_none()
    ensures { (base : BaseParts) → NoTablesAddNone base }
{}

/// Each answer of a base was made after number 0.
pub fn all_are_above_zero()
    ensures { (base : BaseParts) → AllAboveZero base }
{}

/// A base's answers up to a number, put before those after it, make the base.
pub fn parts_join()
    ensures { (number : ℕ) (base : BaseParts) → PartsJoin number base }
{}

/// Tables that have the answers of a base make the base, with the rest of it.
pub fn tables_make_bases()
    ensures { (tables : List Table) (base : BaseParts) → TablesMakeBase tables base }
{}

/// To the tables of an earlier base those are added that have what a later one answered since: then
/// all have the later one's.
pub fn tables_grow()
    ensures { (tables more : List Table) (earlier later : BaseParts)
        → TablesGrow tables more earlier later }
{}

/// The tables that are written for one base after the other make the last one, with the rest of it.
pub fn written_tables_make_bases()
    ensures { (first : BaseParts) (later : List BaseParts) → WrittenTablesMakeBase first later }
{}
