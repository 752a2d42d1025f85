//! Which page a request asks for.

ghost use Rattle.std.specs.Prelude.{◌≡◌, ◌≤◌, ℕ, List, length, Some, IfSome};
ghost use Rattle.httparse.specs.Grammar.{ReadsRequest, RequestHead};
ghost use Rattle.pres_pages.specs.Pages.{page_for};

use httparse::Status;
use httparse::spans::{EMPTY_HEADER_SPAN, parse_request};

// The most lines of a request's head.
const MOST_FIELDS: usize = 64;

/// A page.
#[derive(Clone, Copy, Debug, PartialEq, Eq)]
pub enum Page {
    /// Whether commits are taken, the number of the last entry, and how many sessions are open.
    Health,
    /// What was counted, in Prometheus' text format.
    Metrics,
}

/// The page that the request asks for whose head these bytes begin with, of at most 64 lines.
pub fn page_asked(request: &[u8]) -> Option<Page>
    ensures found { (head : RequestHead) (rest : List ℕ) → ReadsRequest request.now head rest
        → length head.fields ≤ 64 → result ≡ page_for head.method head.target }
    ensures asked { IfSome result (λ page. (head : RequestHead) × (rest : List ℕ)
        × ReadsRequest request.now head rest
        × (page_for head.method head.target ≡ Some page)) }
{
    let mut fields = [EMPTY_HEADER_SPAN; MOST_FIELDS];
    match parse_request(request, &mut fields) {
        Ok(Status::Complete(head)) => page_for(head.method.of(request), head.path.of(request)),
        _ => None,
    }
}

// The page of a request of this method and this target.
fn page_for(method: &[u8], target: &[u8]) -> Option<Page>
    ensures { result ≡ page_for method.now target.now }
{
    if method != b"GET".as_slice() {
        return None;
    }
    if target == b"/health".as_slice() {
        return Some(Page::Health);
    }
    if target == b"/metrics".as_slice() {
        return Some(Page::Metrics);
    }
    None
}
