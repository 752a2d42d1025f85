//! When a checkpoint is due.

ghost use Rattle.std.specs.Prelude.{◌≡◌, ◌≤◌, ◌*◌, ◌/◌, max};

// The fewest entries from one checkpoint to the next, while a server goes on.
const LEAST_RISE: u64 = 10_000;

// A checkpoint writes what has grown with all entries, so the next one waits for a share of them: what
// checkpoints write stays within a constant factor of what batches write.
const SHARE: u64 = 10;

/// By how much the number of the last entry has to rise from one checkpoint to the next, where it is
/// this.
pub(crate) fn due_rise(number: u64) -> u64
    ensures { result ≡ max 10000 (number / 10) }
{
    LEAST_RISE.max(number / SHARE)
}
