//! A law of histories that were saved.

ghost use Rattle.pres_server.specs.Sums.{Sum};
ghost use Rattle.pres_server.specs.Histories.{History};
ghost use Rattle.pres_saved.specs.WrittenHistories.{WrittenIsWhole};

/// A legal log leads to the base of a file that nobody else wrote, and that log with the batches
/// since is legal.
pub fn written_histories_are_whole()
    ensures { (history : History) (sum : Sum) → WrittenIsWhole history sum }
{}
