//! Laws of a server's log and of its sum, for crates that keep a log, or hold a sum in its place.

ghost use Rattle.std.specs.Prelude.{ℕ, List};
ghost use Rattle.pres_ids.specs.declared.id.SessionId.{SessionId};
ghost use Rattle.pres_tree.specs.Paths.{Path};
ghost use Rattle.pres_log.specs.Logs.{Log};
ghost use Rattle.pres_log.specs.declared.entry.Batch.{Batch};
ghost use Rattle.pres_log.specs.declared.entry.Entry.{Entry};
ghost use Rattle.pres_server.specs.declared.input.Input.{Input};
ghost use Rattle.pres_server.specs.Sums.{Sum};
ghost use Rattle.pres_server.specs.SumStates.{SumState};
ghost use Rattle.pres_server.specs.Histories.{History};
ghost use Rattle.pres_history.specs.ServerStates.{ServerState};
ghost use Rattle.pres_history.specs.Laws.{TurnIsLegal, LegalIsSound, StreamSteps, StreamGrows, EndsAreDue, StreamTells, ViewsAreTrue, ListensByOns};
ghost use Rattle.pres_history.specs.SumLaws.{LegalSumSays, LegalReadersSay, SameHeard, LegalByTheSum, SumsDecide, WholeIsLegal, ReachedStays};
ghost use Rattle.pres_base.specs.declared.parts.BaseParts.{BaseParts};
ghost use Rattle.pres_history.specs.BaseLaws.{BaseGoesOn, BaseDecides};
ghost use Rattle.pres_history.specs.HistoryLaws.{TurnFollows, HistoryHolds, HistoryGrows, LegalIsHistory, HistoryIsLegal, ReachedHasLog};

// ---- of logs

/// A turn on a legal log leaves a legal log.
pub fn turns_are_legal()
    ensures { (state : ServerState) (input : Input) (now : ℕ) → TurnIsLegal state input now }
{}

/// After a legal log a client has at most one open session, and its last one is its newest.
pub fn legal_logs_are_sound()
    ensures { (log : Log) → LegalIsSound log }
{}

/// An entry adds to the stream of an open session what it sends to it, numbered on.
pub fn streams_step()
    ensures { (session : SessionId) (es : List Entry) (e : Entry) → StreamSteps session es e }
{}

/// Later entries take nothing from a stream and change nothing in it.
pub fn streams_grow()
    ensures { (session : SessionId) (es later : List Entry) → StreamGrows session es later }
{}

/// What an ended session wrote was due by its puts and cancels, on the tree before its end, at the
/// moment of the end.
pub fn ends_are_due()
    ensures { (earlier later : Log) (batch : Batch) → EndsAreDue earlier batch later }
{}

/// The value that a message of a stream tells of a path is the value there after as many entries as
/// its number says.
pub fn streams_tell_the_tree()
    ensures { (session : SessionId) (path : Path) (es : List Entry)
        → StreamTells session path es }
{}

/// From the Snap that answers an On, with no later Off of its path, what is seen of the path after
/// any beginning of the rest of the stream is the value at the number of its last message.
pub fn views_are_true()
    ensures { (session : SessionId) (q : ℕ) (path : Path) (before later : List Entry)
        → ViewsAreTrue session q path before later }
{}

/// A session listens to a path exactly where its own entries have an On of it with no later Off of
/// it.
pub fn ons_last_until_their_offs()
    ensures { (session : SessionId) (path : Path) (es : List Entry)
        → ListensByOns session path es }
{}

// ---- of sums and histories

/// What the sum of a legal log says is what the log says: of each client, session and path. By it
/// the same batches may follow, each turn makes the same, and a batch answers the same.
pub fn sums_say()
    ensures { (log : Log) → LegalSumSays log }
{}

/// What the readers of a server say by the sum of a legal log is what the log says: which sessions
/// are open, how many of their messages were accepted, and what became of each write.
pub fn readers_say()
    ensures { (log : Log) → LegalReadersSay log }
{}

/// A server that is made from the sum of a legal log has heard of its clients as one that is made
/// from the log.
pub fn resumed_as_the_log()
    ensures { (log : Log) → SameHeard log }
{}

/// A log is legal exactly where its batches follow, one after another, from the empty log's sum.
pub fn legal_by_the_sum()
    ensures { (log : Log) → LegalByTheSum log }
{}

/// After two legal logs with equal sums the same batches may follow, the same turns are made and
/// the same is answered, and the sums stay equal.
pub fn sums_decide()
    ensures { (a b : Log) → SumsDecide a b }
{}

/// Where a legal log has a sum, and later batches follow from that sum, the log with these appended
/// is legal, and its sum is the one that they lead to.
pub fn whole_is_legal()
    ensures { (log : Log) (base : Sum) (later : Log) → WholeIsLegal log base later }
{}

/// Batches that follow from a sum that some legal log has lead to a sum that some legal log has.
pub fn reached_sums_stay_reached()
    ensures { (base : Sum) (later : Log) → ReachedStays base later }
{}

/// What a turn makes, by a sum of which all holds that holds of every server's, may follow.
pub fn turns_follow()
    ensures { (state : SumState) (input : Input) (now : ℕ) → TurnFollows state input now }
{}

/// What holds of every server's sum holds of the sum that a history leads to.
pub fn histories_lead_to_sums()
    ensures { (history : History) (sum : Sum) → HistoryHolds history sum }
{}

/// A history goes on by each batch that may follow, and what it answered by the batch's answers.
pub fn histories_grow()
    ensures { (history : History) (sum : Sum) (batch : Batch) → HistoryGrows history sum batch }
{}

/// A legal log is a history that begins at nothing, leads to the log's sum, and answered what the
/// log says.
pub fn legal_logs_are_histories()
    ensures { (log : Log) → LegalIsHistory log }
{}

/// Of a server that began at nothing there is a legal log whose sum is the server's: a history that
/// begins at nothing is one.
pub fn histories_are_legal_logs()
    ensures { (history : History) (sum : Sum) → HistoryIsLegal history sum }
{}

/// Of a server that began at the sum of a legal log there is a legal log whose sum is the server's.
/// It ends in the batches since.
pub fn reached_histories_have_logs()
    ensures { (history : History) (sum : Sum) → ReachedHasLog history sum }
{}

/// A server that is made from a legal log's base, and from batches that may follow it, is the one
/// that is made from the whole log.
pub fn bases_go_on()
    ensures { (base : BaseParts) (before later : Log) → BaseGoesOn base before later }
{}

/// After two legal logs with one base the same comes next.
pub fn bases_decide()
    ensures { (base : BaseParts) (a b : Log) → BaseDecides base a b }
{}
