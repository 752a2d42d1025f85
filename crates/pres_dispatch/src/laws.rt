//! The law of dispatchers whose keeper keeps a whole log.

ghost use Rattle.pres_log.specs.Logs.{Log};
ghost use Rattle.pres_server.specs.Sums.{Sum};
ghost use Rattle.pres_ring.specs.Lines.{Lines};
ghost use Rattle.pres_dispatch.specs.Dispatches.{Histories};
ghost use Rattle.pres_dispatch.specs.Laws.{WholeLogStands};

/// Where the histories that explain a server and its lines are those of a whole log, that log is
/// legal and leads to the server's sum, and what was put on each line is what it sends to that
/// line's session.
pub fn whole_log_stands()
    ensures { (before log : Log) (histories : Histories) (sum : Sum) (lines : Lines)
        → WholeLogStands before log histories sum lines }
{}
