//! What runs of saved rows share: a run is a text of lines, each a step and, after ` => `, its
//! expected result.

use pres_faults::SavedFault;
use sqlite::{Alter, Connection};
use std::alloc::Global;
use std::process::Abort;

pub(crate) fn said(rt: &impl Abort, alloc: Global, word: &str) -> String {
    String::from_str(alloc, word).expect(rt, "memory")
}

// The name of the refusal, with the number of a bad row.
pub(crate) fn refused(rt: &impl Abort, alloc: Global, fault: SavedFault) -> String {
    let name = fault.name();
    let text = match &fault {
        SavedFault::BadRow(number) => format!(in alloc; "{name} {number}"),
        _ => String::from_str(alloc, name),
    };
    text.expect(rt, "memory")
}

// The connection after another program's statement, which has the database for itself.
pub(crate) fn run_sql<S: Alter + Drop>(
    rt: &impl Abort,
    alloc: Global,
    mut connection: Connection<S>,
    statement: &str,
) -> (Connection<S>, String) {
    let word = match connection.execute(statement, &[]) {
        Ok(_) => "run",
        Err(_) => "not run",
    };
    (connection, said(rt, alloc, word))
}

/// What a step says has to be this.
pub(crate) fn expect_said(rt: &impl Abort, step: &str, said: String, wanted: &str) {
    assert_eq!(rt; said.as_str(), wanted, "at {step}");
}

/// The text has to be this one.
pub(crate) fn expect_text(rt: &impl Abort, said: String, wanted: &str) {
    assert_eq!(rt; said.as_str(), wanted);
}
