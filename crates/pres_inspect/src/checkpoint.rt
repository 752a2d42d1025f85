//! What is told of the checkpoint at which a history begins.

ghost use Rattle.std.specs.Prelude.{◌≡◌};
ghost use Rattle.pres_keeper.specs.Keepers.{base_sum};
ghost use Rattle.pres_inspect.specs.Copies.{checkpoint_in};

use pres_base::Base;
use pres_ids::Count;
use pres_write::Moment;

/// How many entries and batches come before a checkpoint, and the greatest of their moments.
#[derive(Clone, Copy)]
pub struct Checkpoint {
    pub number: Count,
    pub batches: Count,
    pub moment: Moment,
}

impl Checkpoint {
    /// That of a base, none where no entry comes before it.
    pub fn of(base: &Option<Base>) -> Option<Checkpoint>
        ensures { result ≡ checkpoint_in (base_sum base.now) }
    {
        let Some(base) = base else {
            return None;
        };
        let parts = base.parts();
        if parts.number.get() > 0 {
            Some(Checkpoint {
                number: parts.number,
                batches: parts.batches,
                moment: parts.moment,
            })
        } else {
            None
        }
    }
}
