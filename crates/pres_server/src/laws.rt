//! What the contracts of this crate imply, as contracts of functions without bodies.

ghost use Rattle.pres_ids.specs.Ids.{ClientId};
ghost use Rattle.pres_base.specs.declared.parts.BaseParts.{BaseParts};
ghost use Rattle.pres_server.specs.AnswersStay.{HistoryKeepsAnswers, HistorySplitsAnswers, BaseKeepsAnswers};
ghost use Rattle.pres_server.specs.BaseSums.{BaseHasSum, BaseIsKept};
ghost use Rattle.pres_server.specs.Histories.{History};
ghost use Rattle.pres_server.specs.Sums.{Sum};

/// What holds of every server's sum holds of the sum of a base.
pub fn bases_have_sums()
    ensures sum { (base : BaseParts) → BaseHasSum base }
    ensures kept { (base : BaseParts) → BaseIsKept base }
{}

/// Where a history leads to a sum, the answers of its base stay, and each later one was made by an
/// entry since. So those of the sum that were made up to the base's number are the base's.
pub fn answers_stay()
    ensures stay { (history : History) (sum : Sum) (client : ClientId)
        → HistoryKeepsAnswers history sum client }
    ensures split { (history : History) (sum : Sum) (client : ClientId)
        → HistorySplitsAnswers history sum client }
    ensures bases { (history : History) (earlier later : BaseParts)
        → BaseKeepsAnswers history earlier later }
{}
