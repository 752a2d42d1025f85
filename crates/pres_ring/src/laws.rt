//! Laws of transcripts, for code that puts the answers of batches on rings, and of what turns make.

ghost use Rattle.std.specs.Prelude.{List, ℕ};
ghost use Rattle.pres_ids.specs.declared.id.SessionId.{SessionId};
ghost use Rattle.pres_ids.specs.Ids.{ClientId};
ghost use Rattle.pres_tree.specs.Paths.{Path};
ghost use Rattle.pres_wire.specs.declared.down.Down.{Down};
ghost use Rattle.pres_wire.specs.declared.up.Up.{Up};
ghost use Rattle.pres_log.specs.declared.entry.Batch.{Batch};
ghost use Rattle.pres_log.specs.declared.entry.Entry.{Entry};
ghost use Rattle.pres_log.specs.Logs.{Log};
ghost use Rattle.pres_server.specs.declared.input.Input.{Input};
ghost use Rattle.pres_history.specs.ServerStates.{ServerState};
ghost use Rattle.pres_server.specs.Sums.{Sum};
ghost use Rattle.pres_server.specs.SumStates.{SumState};
ghost use Rattle.pres_server.specs.Histories.{History};
ghost use Rattle.pres_ring.specs.Laws.{AnswersExtendTranscripts, OthersAreSilent, GoneIsLast, GoneTells, OpenAfter, HelloIsWelcomed, HelloIsNotQuiet, OnlyHelloOpens, AcceptsOne, AcceptedAdds, AcceptedIsFew, NextIsNotQuiet, MadeIsNext, LostEnds, SlowEnds, RestartEnds};
ghost use Rattle.pres_ring.specs.LawsByTheSum.{AnswersExtendTranscriptsIn, OpenBegins, AnswersBegin, OthersAreSilentIn, TranscriptsBegin, FirstIsWelcome, GoneIsLastIn, GoneTellsIn, OpenAfterIn, OpenWasOpened, OpenedOnce, HelloIsWelcomedIn, HelloIsNotQuietBy, OnlyHelloOpensBy, AcceptsOneBy, AcceptedSinceAdds, AcceptedSinceIsFew, NextIsNotQuietBy, MadeIsNextBy, LostEndsBy, SlowEndsBy, RestartEndsBy, LegalTranscripts, ReachedTranscripts, LegalBegins, ReachedBegins};
ghost use Rattle.pres_ring.specs.TakenMessages.{TakenInOrder, TakenTellsTheTree};

/// A batch extends a session's transcript by those of its answers that are for the session. The
/// first is its Welcome, where the batch opens it.
pub fn answers_extend_transcripts()
    ensures { (session : SessionId) (log : Log) (batch : Batch)
        → AnswersExtendTranscripts session log batch }
{}

/// No answer of a batch is for a session that isn't open before it, and that it doesn't open.
pub fn others_are_silent()
    ensures { (session : SessionId) (log : Log) (batch : Batch)
        → OthersAreSilent session log batch }
{}

/// Nothing follows Gone: a beginning of a transcript that holds it is the whole transcript,
/// whatever entries come later.
pub fn gone_is_last()
    ensures { (session : SessionId) (xs : List Down) (es later : List Entry)
        → GoneIsLast session xs es later }
{}

/// A batch's answers tell a session that it is gone exactly where the batch ends it.
pub fn gone_tells()
    ensures { (session : SessionId) (log : Log) (batch : Batch) → GoneTells session log batch }
{}

/// A session is open after a batch where it was and the batch's answers hold no Gone for it, or
/// where the batch opens it.
pub fn open_after()
    ensures { (session : SessionId) (log : Log) (batch : Batch) → OpenAfter session log batch }
{}

/// A Hello that makes anything opens a session whose transcript was empty. It is answered by the
/// Welcome, which is the last answer and the only one for its session.
pub fn hello_is_welcomed()
    ensures { (state : ServerState) (session : SessionId) (now : ℕ) (es : List Entry)
        → HelloIsWelcomed state session now es }
{}

/// A Hello isn't passed over.
pub fn hello_is_not_quiet()
    ensures { (state : ServerState) (session : SessionId) (now : ℕ)
        → HelloIsNotQuiet state session now }
{}

/// What an input makes opens a session exactly where it is the Hello of that session.
pub fn only_hello_opens()
    ensures { (session : SessionId) (state : ServerState) (input : Input) (now : ℕ) (es : List Entry)
        → OnlyHelloOpens session state input now es }
{}

/// What an input makes stands for one message where it is one, and else for none.
pub fn accepts_one()
    ensures { (state : ServerState) (input : Input) (now : ℕ) (es : List Entry)
        → AcceptsOne state input now es }
{}

/// The messages of two lists of entries are those of the first and those of the second.
pub fn accepted_adds()
    ensures { (xs ys : List Entry) → AcceptedAdds xs ys }
{}

/// There are no more accepted messages than entries.
pub fn accepted_is_few()
    ensures { (es : List Entry) → AcceptedIsFew es }
{}

/// The next message of a session isn't passed over.
pub fn next_is_not_quiet()
    ensures { (state : ServerState) (message : Up) (now : ℕ) → NextIsNotQuiet state message now }
{}

/// A message but a Hello that makes anything is the next one of an open session.
pub fn made_is_next()
    ensures { (state : ServerState) (message : Up) (now : ℕ) (es : List Entry)
        → MadeIsNext state message now es }
{}

/// An open session whose connection is lost is ended by one entry, unless that is refused.
pub fn lost_ends()
    ensures { (state : ServerState) (session : SessionId) (now : ℕ) → LostEnds state session now }
{}

/// An open session that is too slow is ended by one entry, unless that is refused.
pub fn slow_ends()
    ensures { (state : ServerState) (session : SessionId) (now : ℕ) → SlowEnds state session now }
{}

/// A restart ends the open session of a client that has one by one entry, unless that is refused.
pub fn restart_ends()
    ensures { (state : ServerState) (client : ClientId) (now : ℕ) → RestartEnds state client now }
{}

// ---- by a server's sum, and by a history that leads to it

/// A batch extends a session's transcript in a history by those of its answers that are for the
/// session.
pub fn answers_extend_transcripts_in()
    ensures { (session : SessionId) (history : History) (sum : Sum) (batch : Batch)
        → AnswersExtendTranscriptsIn session history sum batch }
{}

/// What was sent to an open session since a base at which none was open begins a transcript of it.
pub fn open_begins()
    ensures { (session : SessionId) (history : History) (sum : Sum)
        → OpenBegins session history sum }
{}

/// What was sent to an open session since a base at which none was open begins a transcript of it
/// with what a batch answers to it.
pub fn answers_begin()
    ensures { (session : SessionId) (history : History) (sum : Sum) (batch : Batch)
        → AnswersBegin session history sum batch }
{}

/// No answer of a batch is for a session that isn't open in the sum before it, and that it doesn't
/// open.
pub fn others_are_silent_in()
    ensures { (session : SessionId) (sum : Sum) (batch : Batch)
        → OthersAreSilentIn session sum batch }
{}

/// Where no session is open at a history's base, the transcript of each that was opened since
/// begins with its Welcome, and that of any other is empty.
pub fn transcripts_begin()
    ensures { (session : SessionId) (history : History) (sum : Sum)
        → TranscriptsBegin session history sum }
{}

/// What begins a session's transcript in a history starts with the Welcome of that session.
pub fn first_is_welcome()
    ensures { (session : SessionId) (message : Down) (more : List Down)
        → FirstIsWelcome session message more }
{}

/// What begins a session's transcript in a history is its Welcome, and then messages that are
/// numbered from 1.
pub fn taken_in_order()
    ensures { (session : SessionId) (told : List Down) → TakenInOrder session told }
{}

/// The value that a message tells of a path, where it begins a session's transcript in a history, is
/// the value there when the server's number was the message's.
pub fn taken_tells_the_tree()
    ensures { (session : SessionId) (path : Path) (told : List Down)
        → TakenTellsTheTree session path told }
{}

/// Nothing follows Gone: a beginning of a transcript that holds it is the whole transcript,
/// whatever batches come later.
pub fn gone_is_last_in()
    ensures { (session : SessionId) (told : List Down) (history : History) (sum : Sum) (later : Log)
        → GoneIsLastIn session told history sum later }
{}

/// A batch's answers tell a session that it is gone exactly where the batch ends it, by the sum
/// before it.
pub fn gone_tells_in()
    ensures { (session : SessionId) (sum : Sum) (batch : Batch) → GoneTellsIn session sum batch }
{}

/// A session is open in the sum after a batch where it was and the batch's answers hold no Gone for
/// it, or where the batch opens it.
pub fn open_after_in()
    ensures { (session : SessionId) (sum : Sum) (batch : Batch) → OpenAfterIn session sum batch }
{}

/// Where no session is open at a history's base, each that is open in the sum that it leads to was
/// opened since.
pub fn open_was_opened()
    ensures { (session : SessionId) (history : History) (sum : Sum)
        → OpenWasOpened session history sum }
{}

/// Where no session is open at a history's base, one that was opened since isn't opened again.
pub fn opened_once()
    ensures { (session : SessionId) (history : History) (sum : Sum) (later : Log)
        → OpenedOnce session history sum later }
{}

/// A Hello that makes anything opens a session whose transcript in the history was empty. It is
/// answered by the Welcome, which is the last answer and the only one for its session.
pub fn hello_is_welcomed_in()
    ensures { (history : History) (state : SumState) (session : SessionId) (now : ℕ)
        (es : List Entry) → HelloIsWelcomedIn history state session now es }
{}

/// By the sum a Hello isn't passed over.
pub fn hello_is_not_quiet_by()
    ensures { (state : SumState) (session : SessionId) (now : ℕ)
        → HelloIsNotQuietBy state session now }
{}

/// What an input makes by the sum opens a session exactly where it is the Hello of that session.
pub fn only_hello_opens_by()
    ensures { (session : SessionId) (state : SumState) (input : Input) (now : ℕ) (es : List Entry)
        → OnlyHelloOpensBy session state input now es }
{}

/// What an input makes by the sum stands for one message where it is one, and else for none.
pub fn accepts_one_by()
    ensures { (state : SumState) (input : Input) (now : ℕ) (es : List Entry)
        → AcceptsOneBy state input now es }
{}

/// A batch adds its messages to those that were accepted since a history's base.
pub fn accepted_since_adds()
    ensures { (history : History) (batch : Batch) → AcceptedSinceAdds history batch }
{}

/// The messages that were accepted since a history's base are no more than the entries since.
pub fn accepted_since_is_few()
    ensures { (history : History) (sum : Sum) → AcceptedSinceIsFew history sum }
{}

/// By the sum the next message of an open session isn't passed over.
pub fn next_is_not_quiet_by()
    ensures { (state : SumState) (message : Up) (now : ℕ) → NextIsNotQuietBy state message now }
{}

/// By the sum a message but a Hello that makes anything is the next one of an open session.
pub fn made_is_next_by()
    ensures { (state : SumState) (message : Up) (now : ℕ) (es : List Entry)
        → MadeIsNextBy state message now es }
{}

/// By the sum an open session whose connection is lost is ended by one entry, unless that is
/// refused.
pub fn lost_ends_by()
    ensures { (state : SumState) (session : SessionId) (now : ℕ) → LostEndsBy state session now }
{}

/// By the sum an open session that is too slow is ended by one entry, unless that is refused.
pub fn slow_ends_by()
    ensures { (state : SumState) (session : SessionId) (now : ℕ) → SlowEndsBy state session now }
{}

/// By the sum a restart ends the open session of a client that has one by one entry, unless that is
/// refused.
pub fn restart_ends_by()
    ensures { (state : SumState) (client : ClientId) (now : ℕ) → RestartEndsBy state client now }
{}

/// What a legal log sends to a session is what its history sends to it.
pub fn legal_transcripts()
    ensures { (session : SessionId) (log : Log) → LegalTranscripts session log }
{}

/// Where a legal log has the sum at which a history begins, that log with the history's batches
/// sends to a session what the log sends, and then what the history sends.
pub fn reached_transcripts()
    ensures { (session : SessionId) (before : Log) (history : History) (sum : Sum)
        → ReachedTranscripts session before history sum }
{}

/// What begins a session's transcript in a legal log begins its transcript in a history.
pub fn legal_begins()
    ensures { (session : SessionId) (told : List Down) → LegalBegins session told }
{}

/// What begins a session's transcript in a history whose base some legal log has begins its
/// transcript in a legal log.
pub fn reached_begins()
    ensures { (session : SessionId) (told : List Down) → ReachedBegins session told }
{}
