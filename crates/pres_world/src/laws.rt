//! Laws of worlds.

ghost use Rattle.std.specs.Prelude.{List};
ghost use Rattle.pres_ids.specs.Ids.{ClientId};
ghost use Rattle.pres_log.specs.Logs.{Log};
ghost use Rattle.pres_history.specs.LegalLog.{IsLegal};
ghost use Rattle.pres_world.specs.Orderly.{CancelsStand, EndsStand, SessionsStand, WritesStand};
ghost use Rattle.pres_world.specs.Safe.{Occurrence, StaysSafe};
ghost use Rattle.pres_world.specs.ServerSides.{ServerSideState, ResumesItsHistory};
ghost use Rattle.pres_world.specs.Unseen.{CheckpointsAreUnseen};
ghost use Rattle.pres_world.specs.Worlds.{World};
ghost use Rattle.pres_world.specs.declared.event.Event.{Event};

/// In a legal log each write of a client stands once, in the order of the writes' numbers; the
/// entries of a client stand in the order of its sessions; each session ends once, with all that is
/// due, before any entry of a later session of its client; and what was cancelled before is not in
/// the plan that the end carries out.
pub fn legal_logs_are_orderly()
    ensures writes { (log : Log) → IsLegal log → WritesStand log }
    ensures sessions { (log : Log) → IsLegal log → SessionsStand log }
    ensures ends { (log : Log) → IsLegal log → EndsStand log }
    ensures cancels { (log : Log) → IsLegal log → CancelsStand log }
{}

/// Whatever happens to a new world, it is safe: what clients show is true, so that two of them
/// agree; each write whose reply a client took stands in the history, once, where the reply says,
/// and with the outcome that it says; each action for a session's end that was acknowledged stands
/// there; and what was cancelled is in no plan that an end carries out.
pub fn worlds_stay_safe()
    ensures { (ids : List ClientId) (occurrences : List Occurrence) (v : World)
        → StaysSafe ids occurrences v }
{}

/// A server that is made from the base that was kept last and from the batches after it is that of
/// all batches that were ever committed.
pub fn servers_resume_their_history()
    ensures { (w : ServerSideState) → ResumesItsHistory w }
{}

/// Checkpoints are never seen: events with checkpoints among them make the world that they make
/// without these, but for the base that is kept.
pub fn checkpoints_are_unseen()
    ensures { (ids : List ClientId) (events : List Event) (v : World)
        → CheckpointsAreUnseen ids events v }
{}
