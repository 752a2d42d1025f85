//! A hub's start over rows of which no server is made.

ghost use Rattle.std.specs.Prelude.{◌≡◌, ◌^◌};
ghost use Rattle.pres_saved.specs.SqlKeepers.{IsReady};

use crate::tests::turns::listed;
use crate::tests::words::{expect_text, run_sql};
use pres_hub::{Core, Keeper, NoBell};
use pres_keeper::{Premise, Supposed};
use pres_saved::SqlKeeper;
use pres_server::Moment;
use sqlite::{Alter, Connection};
use std::alloc::Global;
use std::marker::Brand;
use std::process::Abort;
use std::sync::ledger::{Blank, Ledger};

// What a hub's start answers, and what the batches of the keeper are that it gives back.
fn started_with<L: Ledger, K: Keeper + Drop, R: Abort>(
    rt: &R,
    alloc: Global,
    blank: Blank,
    keeper: K,
) -> String
    requires name { blank.name ≡ L.name }
    requires parts { blank.parts ≡ L.parts }
    requires whole { blank.parts ≡ 2 ^ 53 }
    requires ready { K.ready keeper }
{
    let refused = match Core::<L, K, NoBell>::start(alloc, blank, keeper, Moment::at(0)) {
        Ok(_) => panic!(rt; "it was started"),
        Err(refused) => refused,
    };
    let (fault, mut keeper) = refused;
    let said = fault.to_string(alloc).expect(rt, "memory");
    drop(fault);
    let batches = listed(rt, alloc, &mut keeper);
    drop(keeper);
    format!(in alloc; "{said}, {batches}").expect(rt, "memory")
}

// The same with a ledger.
fn started<K: Keeper + Drop, R: Abort>(rt: &R, alloc: Global, keeper: K) -> String
    requires { K.ready keeper }
{
    started_with::<Brand, K, R>(rt, alloc, Blank::new(1 << 53), keeper)
}

// Rows whose third one may not follow the first two, and whose fourth one is no batch.
const ROWS: &str =
    r#"INSERT INTO batch(k, moment, body) VALUES(1, 1000, '[{"e":"open","s":["alice",1,1]}]')
INSERT INTO batch(k, moment, body) VALUES(2, 1000, '[{"e":"open","s":["bob",1,1]}]')
INSERT INTO batch(k, moment, body) VALUES(3, 1000, '[{"e":"open","s":["alice",1,1]}]')
INSERT INTO batch(k, moment, body) VALUES(4, 1000, '[')"#;

// The connection after the tables were made.
fn with_tables<S: Alter + Drop>(
    rt: &impl Abort,
    alloc: Global,
    connection: Connection<S>,
) -> Connection<S> {
    if !connection.is_autocommit() {
        panic!(rt; "a transaction is open");
    }
    match SqlKeeper::create(alloc, connection) {
        Ok(keeper) => keeper.into_connection(),
        Err((fault, _)) => panic!(rt; "{fault}"),
    }
}

// The connection after the rows were added.
fn with_rows<S: Alter + Drop>(
    rt: &impl Abort,
    alloc: Global,
    connection: Connection<S>,
    rows: &str,
) -> Connection<S> {
    let mut connection = with_tables(rt, alloc, connection);
    for row in rows.lines() {
        let (inserted, word) = run_sql(rt, alloc, connection, row);
        expect_text(rt, word, "run");
        connection = inserted;
    }
    connection
}

// What a hub's start over the keeper answers, which is ready where the premise holds.
fn supposing<P: Premise, S: Alter + Drop, R: Abort>(
    rt: &R,
    alloc: Global,
    keeper: SqlKeeper<S>,
) -> String
    requires ready { P.holds → IsReady S.Store keeper }
{
    started(rt, alloc, Supposed::<SqlKeeper<S>, P>::new(keeper))
}

// What a hub's start over the database answers. That the tables which are found are those of the
// statements is taken for granted.
fn started_over<S: Alter + Drop, R: Abort>(
    rt: &R,
    alloc: Global,
    connection: Connection<S>,
) -> String {
    if !connection.is_autocommit() {
        panic!(rt; "a transaction is open");
    }
    match SqlKeeper::open(alloc, connection) {
        Ok(keeper) => supposing::<Brand, S, R>(rt, alloc, keeper),
        Err((fault, _)) => panic!(rt; "{fault}"),
    }
}

// The start reads row by row, and stops at the first that it can't take, whatever comes after it.
#[test]
fn a_start_over_bad_rows_says_which(rt: HostRuntime) {
    let connection = Connection::open_in_memory(rt.alloc()).expect(&rt, "a database");
    let connection = with_rows(&rt, rt.alloc(), connection, ROWS);
    let said = started_over(&rt, rt.alloc(), connection);
    expect_text(&rt, said, "row 3 is bad, BadRow 4");
}
