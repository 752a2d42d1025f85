//! How tables are found: their format, and the number of the last row.

ghost use Rattle.std.specs.Prelude.{◌≡◌, ◌⊎◌, ◌+◌, ◌≤◌, [], false, IfOk, IfErr, OnOk, OnErr};
ghost use Rattle.sqlite.specs.Held.{state};
ghost use Rattle.sqlite.specs.State.{HasCleanDisk, IsUnchanged, Survives};
ghost use Rattle.sqlite.specs.View.{doubt};
ghost use Rattle.pres_batch_rows.specs.TableStates.{IsOfFormatOne, IsOurs, IsLeft};
ghost use Rattle.pres_batch_rows.specs.TableOpening.{format_fault, HasFormat, LacksFormat, IsFound, OpensAs, FailsToOpen, OpeningLeaves, last_in};
ghost use Rattle.pres_batch_rows.specs.TableCreation.{making_fault};
ghost use Rattle.pres_batch_rows.specs.Migrations.{IsMigrated, HoldsFormatTwo, Migrates, FailsToMigrate};
ghost use Rattle.pres_batch_rows.specs.RowContents.{AreBelow, rows_in, shown_rows};

use crate::last::{last_in_two, last_number};
use crate::make::making_fault;
use crate::migrate::migrate;
use crate::row::whole_at;
use pres_faults::SavedFault;
use sqlite::{Alter, Connection, Error};

// The refusal for a fault in reading the format.
fn format_fault(error: Error) -> SavedFault
    ensures { result ≡ format_fault error }
{
    match error {
        Error::SqlInputError(_) | Error::QueryReturnedNoRows => SavedFault::NotOurs,
        _ => SavedFault::from(error),
    }
}

// Reads the format, which must be 1 or 2.
fn read_format<S: Alter>(connection: &mut Connection<S>) -> Result<u64, SavedFault>
    ensures ok { HasCleanDisk (state S.Store connection.new) → IfOk result (λ format.
        HasFormat format (state S.Store connection.old) (state S.Store connection.new)) }
    ensures named { IfOk result (λ format. (format ≡ 1) ⊎ (format ≡ 2)) }
    ensures err { HasCleanDisk (state S.Store connection.new)
        → IfErr result
        (LacksFormat (state S.Store connection.old) (state S.Store connection.new)) }
    ensures same { HasCleanDisk (state S.Store connection.new)
        → OnOk result
        (IsUnchanged (state S.Store connection.old) (state S.Store connection.new)) }
    ensures left { HasCleanDisk (state S.Store connection.new)
        → connection.old.in_transaction ≡ false
        → IsLeft (state S.Store connection.old) (state S.Store connection.new) }
    ensures mode { connection.old.in_transaction ≡ false
        → connection.new.in_transaction ≡ false }
    ensures crash { Survives (state S.Store connection.old) (state S.Store connection.new)
        (λ _. ⊥) }
    ensures clean { doubt (state S.Store connection.old).is_clean
        ≤ doubt (state S.Store connection.new).is_clean }
{
    // it ensures that what is shown was committed, where no transaction is open
    let _alone = connection.is_autocommit();
    let row = match connection.query_row("SELECT value FROM meta WHERE name = 'format'", &[]) {
        Ok(row) => row,
        Err(error) => return Err(format_fault(error)),
    };
    let Some(format) = whole_at(&row, 0) else {
        return Err(SavedFault::Version);
    };
    if format == 1 || format == 2 {
        Ok(format)
    } else {
        Err(SavedFault::Version)
    }
}

// Brings the tables of format 1 to format 2, and gives the number of the last row.
fn upgrade<S: Alter>(connection: &mut Connection<S>) -> Result<u64, SavedFault>
    requires { connection.old.in_transaction ≡ false }
    ensures ok { HasCleanDisk (state S.Store connection.new)
        → IsOfFormatOne (state S.Store connection.old).now
        → IfOk result (λ n.
        IsMigrated (state S.Store connection.old) (state S.Store connection.new)
        × (n ≡ last_in [] (shown_rows (state S.Store connection.old)))
        × AreBelow (n + 1) (rows_in (state S.Store connection.old))) }
    ensures migrates { HasCleanDisk (state S.Store connection.new)
        → OnOk result ((later : _)
        × IsUnchanged (state S.Store connection.old) (state S.Store later)
        × Migrates S.Store later (state S.Store connection.new)) }
    ensures err { HasCleanDisk (state S.Store connection.new)
        → IfErr result (λ e. ((later : _)
        × IsUnchanged (state S.Store connection.old) (state S.Store later)
        × (why : _) × FailsToMigrate S.Store later why × (e ≡ making_fault why))
        ⊎ ((e ≡ SavedFault.Memory) ⊎ (e ≡ SavedFault.Database))) }
    ensures left { HasCleanDisk (state S.Store connection.new)
        → OnErr result (IsLeft (state S.Store connection.old) (state S.Store connection.new)) }
    ensures mode { connection.new.in_transaction ≡ false }
    ensures crash { Survives (state S.Store connection.old) (state S.Store connection.new)
        (λ db. IsOfFormatOne (state S.Store connection.old).now
        → HoldsFormatTwo (state S.Store connection.old) db) }
{
    let last = last_number(connection)?;
    match migrate(connection) {
        Ok(()) => Ok(last.unwrap_or(0)),
        Err(error) => Err(making_fault(error)),
    }
}

// Reads the format and the number of the last row, and brings tables of format 1 to format 2.
pub(crate) fn find<S: Alter>(connection: &mut Connection<S>) -> Result<u64, SavedFault>
    requires { connection.old.in_transaction ≡ false }
    ensures found { HasCleanDisk (state S.Store connection.new)
        → IsOurs (state S.Store connection.old).now
        → IfOk result
        (IsFound (state S.Store connection.old) (state S.Store connection.new)) }
    ensures opens { HasCleanDisk (state S.Store connection.new)
        → OnOk result (OpensAs S.Store connection.old (state S.Store connection.new)) }
    ensures err { HasCleanDisk (state S.Store connection.new)
        → IfErr result (FailsToOpen S.Store connection.old) }
    ensures left { HasCleanDisk (state S.Store connection.new)
        → OnErr result (IsLeft (state S.Store connection.old) (state S.Store connection.new)) }
    ensures crash { Survives (state S.Store connection.old) (state S.Store connection.new)
        (OpeningLeaves S.Store connection.old) }
    ensures clean { doubt (state S.Store connection.old).is_clean
        ≤ doubt (state S.Store connection.new).is_clean }
{
    let format = read_format(connection)?;
    if format == 1 {
        upgrade(connection)
    } else {
        last_in_two(connection)
    }
}
