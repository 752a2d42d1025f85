//! Laws of clients, over every list of what may happen to one.

ghost use Rattle.pres_client.specs.Notices.{CallsNote, MessagesNote};
ghost use Rattle.pres_client.specs.Views.{ViewsHold};
ghost use Rattle.pres_client.specs.Sends.{SendsHold, StepSends};

/// After any steps the view of a path follows from the messages that count for it: the number of
/// the last one, and the last value received.
pub fn views_hold()
    ensures { ViewsHold }
{}

/// After any steps the messages without an answer are those of the session's list that come after
/// the answered ones.
pub fn sends_hold()
    ensures { SendsHold }
{}

/// What a step sends is a Hello or a Beat of its session, or stands in the session's list.
pub fn steps_send()
    ensures { StepSends }
{}

/// What a client notes of values is what it shows: after each call and each message, a value that
/// was noted is the view of its path, at the view's number.
pub fn notes_are_shown()
    ensures calls { CallsNote }
    ensures messages { MessagesNote }
{}
