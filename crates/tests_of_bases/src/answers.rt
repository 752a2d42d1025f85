//! A client's answers whose numbers lie near, far and below the first, over the end of a shelf.

use pres_ids::Number;
use pres_retry::{Answers, KeptRef, Verdict};
use pres_write::Kept;
use std::alloc::Global;
use std::process::Abort;

// How many writes there are: more than a shelf holds.
const WRITES: u64 = 2_500;

// Each hundredth is stale.
fn is_stale(n: u64) -> bool {
    n % 100 == 0
}

// At which number of the server write `n` was done: they rise slowly, then by much, and fall at last.
fn done_at(n: u64) -> u64 {
    if n <= 500 {
        n * 3
    } else if n <= 1_500 {
        n * 1_000
    } else if n <= 2_400 {
        n << 33
    } else {
        n
    }
}

fn answers(rt: &impl Abort, alloc: Global) -> Answers {
    let mut made = Answers::new(alloc);
    for n in 1..=WRITES {
        let kept = if is_stale(n) {
            Kept::Stale(None)
        } else {
            Kept::Wrote
        };
        let next = made.count().next().expect(rt, "a number");
        let done = Number::new(done_at(n)).expect(rt, "a number");
        made.push(alloc, next, done, kept).expect(rt, "memory");
    }
    made
}

fn has_each(rt: &impl Abort, answers: &Answers) -> bool {
    let mut have = answers.count().get() == WRITES;
    for n in 1..=WRITES {
        let number = Number::new(n).expect(rt, "a number");
        have = have
            && match answers.find(number) {
                Verdict::Again(answer) => {
                    answer.done.get() == done_at(n)
                        && match answer.kept {
                            KeptRef::Wrote => !is_stale(n),
                            KeptRef::Stale(held) => is_stale(n) && held.is_none(),
                        }
                }
                Verdict::New | Verdict::Gap => false,
            };
    }
    have
}

#[test]
fn each_answer_is_found(rt: HostRuntime) {
    assert!(&rt; has_each(&rt, &answers(&rt, rt.alloc())));
}

#[test]
fn a_copy_has_each_answer(rt: HostRuntime) {
    let alloc = rt.alloc();
    let copy = answers(&rt, alloc).copy(alloc).expect(&rt, "memory");
    assert!(&rt; has_each(&rt, &copy));
}
