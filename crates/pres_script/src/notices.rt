//! How a client's notices are printed.

ghost use Rattle.std.specs.Prelude.{◌≡◌, IfOk, option_map, string_bytes};
ghost use Rattle.pres_script.specs.NoticeTexts.{place_text, words_of, value_in, notice_text, line_of};

use pres_client::Notice;
use pres_tree::{Path, Tree, TreeJson};
use pres_wire::Number;
use std::alloc::{AllocError, Global};

/// The line that a client's notice prints as, with its line end: a word, the notice's contents, and
/// the JSON of the value that it shows.
pub fn notice_line(alloc: Global, notice: &Notice) -> Result<Vec<u8>, AllocError>
    ensures { IfOk result (λ line. line.items ≡ line_of (notice_text notice.now)) }
{
    let mut line = words_of(alloc, notice)?.into_bytes();
    if let Some(value) = value_in(notice) {
        value.print(alloc, &mut line)?;
    }
    line.push(b'\n')?;
    Ok(line)
}

// The notice's text before its value.
fn words_of(alloc: Global, notice: &Notice) -> Result<String, AllocError>
    ensures { IfOk result (λ text. string_bytes text ≡ words_of notice.now) }
{
    match notice {
        Notice::Done { request, number } => { format!(in alloc; "done {request} {}", number.get()) }
        Notice::Ask {
            request,
            attempt,
            ..
        } => { format!(in alloc; "ask {request} {attempt} ") }
        Notice::TooManyTries { request } => format!(in alloc; "toomany {request}"),
        Notice::Aborted { request } => format!(in alloc; "aborted {request}"),
        Notice::Armed { request } => format!(in alloc; "armed {request}"),
        Notice::ActionLost { request } => format!(in alloc; "lost {request}"),
        Notice::Value { path, number, .. } => place_text(alloc, path, *number),
        Notice::Connected(is_open) => format!(in alloc; "connected {is_open}"),
        Notice::Denied { request, why } => format!(in alloc; "denied {request} {}", why.number()),
        Notice::Faulted(code) => format!(in alloc; "faulted {}", code.number()),
    }
}

// Where a value stands, and at which number.
fn place_text(alloc: Global, path: &Path, number: Number) -> Result<String, AllocError>
    ensures { IfOk result (λ text. string_bytes text ≡ place_text path.now number) }
{
    let path = path.text(alloc)?;
    format!(in alloc; "value {path} {} ", number.get())
}

// The value that the notice shows.
fn value_in(notice: &Notice) -> Option<&Tree>
    ensures { option_map (λ value. value.now) result ≡ value_in notice.now }
{
    match notice {
        Notice::Ask { value, .. } | Notice::Value { value, .. } => Some(value),
        _ => None,
    }
}
