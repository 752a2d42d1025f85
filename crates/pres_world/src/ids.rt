//! Lists of client ids.

ghost use Rattle.std.specs.Prelude.{◌↔◌, IsTrue};
ghost use Rattle.pres_world.specs.Distinct.{AreDistinct};

use pres_server::ClientId;

/// Whether no client id stands twice. It takes no memory; its time grows with the square of the
/// length.
#[tactic(auto, using(crate::proofs::Twice::first_again, crate::proofs::Twice::first_once, crate::proofs::Twice::none_twice))]
pub fn distinct(ids: &[ClientId]) -> bool
    ensures { IsTrue result ↔ AreDistinct ids.now }
{
    let mut rest = ids;
    while let Some((first, others)) = rest.split_first() {
        if others.contains(first) {
            return false;
        }
        rest = others;
    }
    true
}
