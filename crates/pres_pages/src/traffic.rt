//! The metrics of messages.

ghost use Rattle.std.specs.Prelude.{◌≡◌, string_bytes, IfOk};
ghost use Rattle.pres_pages.specs.Pages.{answers_text, first_codes_text, last_codes_text, refusals_sample, refusals_text, sent_sample, sent_text, told_text, traffic_text};

use crate::counts::{Counts, RefusalCounts, SentCounts};
use crate::metrics::{head_text, labelled_text, metric_text};
use std::alloc::{AllocError, Global};

// A sample of the messages of a kind that were sent.
fn sent_sample(alloc: Global, kind: &str, value: u64) -> Result<String, AllocError>
    ensures { IfOk result (λ text. string_bytes text ≡ sent_sample kind.now value) }
{
    labelled_text(alloc, "presence_messages_out_total", "kind", kind, value)
}

// A sample of the refusals with a code.
fn refusals_sample(alloc: Global, code: &str, value: u64) -> Result<String, AllocError>
    ensures { IfOk result (λ text. string_bytes text ≡ refusals_sample code.now value) }
{
    labelled_text(alloc, "presence_refusals_total", "code", code, value)
}

// The messages that were sent, by their kind.
fn sent_text(alloc: Global, sent: &SentCounts) -> Result<String, AllocError>
    ensures { IfOk result (λ text. string_bytes text ≡ sent_text sent.now) }
{
    let about = "Messages to clients since the start, by kind.";
    let head = head_text(alloc, "presence_messages_out_total", about, "counter")?;
    let answers = answers_text(alloc, sent)?;
    let told = told_text(alloc, sent)?;
    format!(in alloc; "{head}{answers}{told}")
}

// Those that answer a message of a session.
fn answers_text(alloc: Global, sent: &SentCounts) -> Result<String, AllocError>
    ensures { IfOk result (λ text. string_bytes text ≡ answers_text sent.now) }
{
    let reply = sent_sample(alloc, "reply", sent.reply)?;
    let armed = sent_sample(alloc, "armed", sent.armed)?;
    let snap = sent_sample(alloc, "snap", sent.snap)?;
    let off_done = sent_sample(alloc, "offdone", sent.off_done)?;
    let denied = sent_sample(alloc, "denied", sent.denied)?;
    format!(in alloc; "{reply}{armed}{snap}{off_done}{denied}")
}

// All others.
fn told_text(alloc: Global, sent: &SentCounts) -> Result<String, AllocError>
    ensures { IfOk result (λ text. string_bytes text ≡ told_text sent.now) }
{
    let welcome = sent_sample(alloc, "welcome", sent.welcome)?;
    let push = sent_sample(alloc, "push", sent.push)?;
    let gone = sent_sample(alloc, "gone", sent.gone)?;
    let fault = sent_sample(alloc, "fault", sent.fault)?;
    format!(in alloc; "{welcome}{push}{gone}{fault}")
}

// The messages that were refused, by the code of the Fault.
fn refusals_text(alloc: Global, refusals: &RefusalCounts) -> Result<String, AllocError>
    ensures { IfOk result (λ text. string_bytes text ≡ refusals_text refusals.now) }
{
    let about = "Messages that were refused since the start, by the code of the Fault.";
    let head = head_text(alloc, "presence_refusals_total", about, "counter")?;
    let first = first_codes_text(alloc, refusals)?;
    let last = last_codes_text(alloc, refusals)?;
    format!(in alloc; "{head}{first}{last}")
}

// The codes 1 to 4.
fn first_codes_text(alloc: Global, refusals: &RefusalCounts) -> Result<String, AllocError>
    ensures { IfOk result (λ text. string_bytes text ≡ first_codes_text refusals.now) }
{
    let bad = refusals_sample(alloc, "1", refusals.bad)?;
    let old = refusals_sample(alloc, "2", refusals.old)?;
    let session = refusals_sample(alloc, "3", refusals.session)?;
    let order = refusals_sample(alloc, "4", refusals.order)?;
    format!(in alloc; "{bad}{old}{session}{order}")
}

// The codes 5 to 8.
fn last_codes_text(alloc: Global, refusals: &RefusalCounts) -> Result<String, AllocError>
    ensures { IfOk result (λ text. string_bytes text ≡ last_codes_text refusals.now) }
{
    let full = refusals_sample(alloc, "5", refusals.full)?;
    let busy = refusals_sample(alloc, "6", refusals.busy)?;
    let spent = refusals_sample(alloc, "7", refusals.spent)?;
    let down = refusals_sample(alloc, "8", refusals.down)?;
    format!(in alloc; "{full}{busy}{spent}{down}")
}

/// What was counted of messages.
pub(crate) fn traffic_text(alloc: Global, counts: &Counts) -> Result<String, AllocError>
    ensures { IfOk result (λ text. string_bytes text ≡ traffic_text counts.now) }
{
    let received = metric_text(
        alloc,
        "presence_messages_in_total",
        "Messages that came from clients since the start.",
        "counter",
        counts.received,
    )?;
    let sent = sent_text(alloc, &counts.sent)?;
    let refusals = refusals_text(alloc, &counts.refusals)?;
    format!(in alloc; "{received}{sent}{refusals}")
}
