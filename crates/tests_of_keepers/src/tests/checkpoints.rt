//! Checkpoints of an engine over a keeper in memory: the server's base takes the place of the batches.

use crate::tests::groups::{ADDED, HELLOS, MORE, REPLIES, WELCOMES, WRITES, WRITTEN, opened, said};
use crate::tests::refusing::{Refusing, log_text, tree_text};
use crate::tests::turns::root_text;
use crate::tests::words::expect_text;
use pres_keeper::{Engine, Keeper, MemKeeper, Supposed};
use std::alloc::Global;
use std::marker::Brand;
use std::process::Abort;

// What the engine answers where a checkpoint is asked for with this rise.
fn checkpointed<K: Keeper + Drop, R: Abort>(
    rt: &R,
    alloc: Global,
    engine: &mut Engine<K>,
    rise: u64,
) -> String {
    let text = match engine.checkpoint(rise) {
        Ok(Some(number)) => format!(in alloc; "{number}"),
        Ok(None) => String::from_str(alloc, "not due"),
        Err(fault) => format!(in alloc; "refused: {fault}"),
    };
    text.expect(rt, "memory")
}

// How many entries the keeper's base has, and in how many batches.
fn base_text<K: Keeper>(rt: &impl Abort, alloc: Global, keeper: &mut K) -> String {
    let text = match keeper.base().expect(rt, "a base") {
        Some(base) => {
            let parts = base.into_parts();
            let (number, batches) = (parts.number.get(), parts.batches.get());
            drop(parts);
            format!(in alloc; "{number} entries in {batches} batches")
        }
        None => String::from_str(alloc, "none"),
    };
    text.expect(rt, "memory")
}

// An engine of two clients that came and wrote: four entries, each in a batch of its own.
fn four<K: Keeper + Drop, R: Abort>(rt: &R, alloc: Global, keeper: K) -> Engine<K>
    requires { K.ready keeper }
{
    let mut engine = opened(rt, keeper);
    expect_text(rt, said(rt, alloc, &mut engine, HELLOS), WELCOMES);
    expect_text(rt, said(rt, alloc, &mut engine, WRITES), REPLIES);
    engine
}

// What alice is told of the writes that come after the checkpoint: her messages are counted on.
const MORE_REPLIES: &str =
    r#"{"done":5,"m":"reply","n":2,"out":"wrote","q":2,"r":2,"s":["alice",1,1],"z":5}
{"done":6,"m":"reply","n":3,"out":"wrote","q":3,"r":3,"s":["alice",1,1],"z":6}
"#;

// Alice's first write once more, and what was answered before the checkpoint.
const AGAIN: &str =
    r#"{"m":"op","n":1,"op":{"op":"set","path":"/n","value":1},"q":4,"s":["alice",1,1]}"#;

const AGAIN_REPLY: &str =
    r#"{"done":3,"m":"reply","n":1,"out":"wrote","q":4,"r":4,"s":["alice",1,1],"z":7}
"#;

// A checkpoint of the keeper's four entries, a new start, and turns that go on from it.
fn check_base<K: Keeper + Drop, R: Abort>(rt: &R, alloc: Global, keeper: K)
    requires { K.ready keeper }
{
    let mut engine = four(rt, alloc, keeper);
    expect_text(rt, checkpointed(rt, alloc, &mut engine, 4), "4");
    let mut engine = opened(rt, engine.into_keeper());
    assert_eq!(rt; engine.number(), 4);
    let server = engine.server().expect(rt, "a server");
    expect_text(rt, root_text(rt, alloc, server), r#"{"n":2}"#);
    expect_text(rt, said(rt, alloc, &mut engine, MORE), MORE_REPLIES);
    expect_text(rt, said(rt, alloc, &mut engine, AGAIN), AGAIN_REPLY);
    let mut keeper = engine.into_keeper();
    let log = log_text(rt, alloc, &mut keeper);
    assert!(rt; log.starts_with(ADDED));
    let base = base_text(rt, alloc, &mut keeper);
    expect_text(rt, base, "4 entries in 4 batches");
    expect_text(rt, tree_text(rt, alloc, &mut keeper), "null");
}

#[test]
fn a_base_takes_the_place_of_the_batches(rt: HostRuntime) {
    check_base(&rt, rt.alloc(), MemKeeper::new(rt.alloc()));
}

#[test]
fn a_supposed_keeper_keeps_a_base(rt: HostRuntime) {
    let keeper = Supposed::<MemKeeper, Brand>::new(MemKeeper::new(rt.alloc()));
    check_base(&rt, rt.alloc(), keeper);
}

#[test]
fn a_checkpoint_waits_for_its_rise(rt: HostRuntime) {
    let alloc = rt.alloc();
    let mut engine = four(&rt, alloc, MemKeeper::new(alloc));
    expect_text(&rt, checkpointed(&rt, alloc, &mut engine, 5), "not due");
    let mut keeper = engine.into_keeper();
    expect_text(&rt, base_text(&rt, alloc, &mut keeper), "none");
    expect_text(&rt, log_text(&rt, alloc, &mut keeper), WRITTEN);
    let mut engine = opened(&rt, keeper);
    expect_text(&rt, checkpointed(&rt, alloc, &mut engine, 4), "4");
    expect_text(&rt, checkpointed(&rt, alloc, &mut engine, 1), "not due");
    expect_text(&rt, checkpointed(&rt, alloc, &mut engine, 0), "4");
    // a new start counts from the base that it finds
    let mut engine = opened(&rt, engine.into_keeper());
    expect_text(&rt, checkpointed(&rt, alloc, &mut engine, 1), "not due");
    expect_text(&rt, said(&rt, alloc, &mut engine, MORE), MORE_REPLIES);
    expect_text(&rt, checkpointed(&rt, alloc, &mut engine, 3), "not due");
    expect_text(&rt, checkpointed(&rt, alloc, &mut engine, 2), "6");
}

#[test]
fn a_checkpoint_that_is_refused_leaves_all(rt: HostRuntime) {
    let alloc = rt.alloc();
    // the two hellos and the writes are three commits
    let mut engine = four(&rt, alloc, Refusing::at(alloc, &[3]));
    let refusal = "refused: the database failed";
    expect_text(&rt, checkpointed(&rt, alloc, &mut engine, 4), refusal);
    assert_eq!(&rt; engine.number(), 4);
    let mut keeper = engine.into_keeper();
    expect_text(&rt, base_text(&rt, alloc, &mut keeper), "none");
    expect_text(&rt, log_text(&rt, alloc, &mut keeper), WRITTEN);
    let mut engine = opened(&rt, keeper);
    expect_text(&rt, checkpointed(&rt, alloc, &mut engine, 4), "4");
    expect_text(&rt, said(&rt, alloc, &mut engine, MORE), MORE_REPLIES);
    let mut keeper = engine.into_keeper();
    expect_text(&rt, log_text(&rt, alloc, &mut keeper), ADDED);
}
