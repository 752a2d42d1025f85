//! The answer to a request for a page.

ghost use Rattle.std.specs.Prelude.{◌≡◌, codes, string_bytes, IfOk};
ghost use Rattle.pres_pages.specs.Pages.{answer_text, health_status, health_text, metrics_text};

use crate::counts::Counts;
use crate::metrics::metrics_text;
use crate::request::Page;
use std::alloc::{AllocError, Global};

/// The answer of HTTP/1.1 with the page of a server that is well, or isn't, and has counted this. The
/// status of Health is 200 if it is well, and else 503.
pub fn page_answer(
    alloc: Global,
    page: Page,
    is_well: bool,
    counts: &Counts,
) -> Result<String, AllocError>
    ensures health { page ≡ Page.Health → IfOk result (λ text. string_bytes text
        ≡ answer_text (health_status is_well) (codes "application/json") (health_text counts.now)) }
    ensures metrics { page ≡ Page.Metrics → IfOk result (λ text. string_bytes text
        ≡ answer_text (codes "200 OK") (codes "text/plain; version=0.0.4") (metrics_text is_well counts.now)) }
{
    match page {
        Page::Health => {
            let body = health_text(alloc, counts)?;
            answer_text(
                alloc,
                health_status(is_well),
                "application/json",
                body.as_str(),
            )
        }
        Page::Metrics => {
            let body = metrics_text(alloc, is_well, counts)?;
            answer_text(alloc, "200 OK", "text/plain; version=0.0.4", body.as_str())
        }
    }
}

// An answer with this status and a body of this type.
fn answer_text(alloc: Global, status: &str, kind: &str, body: &str) -> Result<String, AllocError>
    ensures { IfOk result (λ text. string_bytes text
        ≡ answer_text status.now kind.now body.now) }
{
    let length = body.len();
    format!(in alloc;
        "HTTP/1.1 {status}\r\nContent-Type: {kind}\r\nContent-Length: {length}\r\nConnection: close\r\n\r\n{body}"
    )
}

// 200 while commits are taken, and else 503.
fn health_status(is_well: bool) -> &'static str
    ensures { result.now ≡ health_status is_well }
{
    if is_well {
        "200 OK"
    } else {
        "503 Service Unavailable"
    }
}

// The number of the last entry, and how many sessions are open.
fn health_text(alloc: Global, counts: &Counts) -> Result<String, AllocError>
    ensures { IfOk result (λ text. string_bytes text ≡ health_text counts.now) }
{
    let number = counts.number;
    let sessions = counts.open_sessions;
    format!(in alloc; "{{\"number\":{number},\"open_sessions\":{sessions}}}\n")
}
