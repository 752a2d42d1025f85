//! The lines of a client's calls.

ghost use Rattle.std.specs.Prelude.{◌≡◌, List, IfOk, option_map};
ghost use Rattle.std.specs.Char.{is_ascii_digit};
ghost use Rattle.std.specs.List.{list_all};
ghost use Rattle.serde_json.specs.Read.{read};
ghost use Rattle.serde_json.specs.View.{members_view, view};
ghost use Rattle.pres_tree.specs.Paths.{Path};
ghost use Rattle.pres_tree.specs.Rows.{Rows};
ghost use Rattle.pres_write.specs.declared.draft.DraftLeaf.{DraftLeaf};
ghost use Rattle.pres_wire.specs.Fields.{path_in};
ghost use Rattle.pres_script.specs.declared.lines.LineFault.TheVariants as unread;
ghost use Rattle.pres_script.specs.LineReads.{IsPart, IsRead, IsWhole, of_fault};
ghost use Rattle.pres_script.specs.Lines.{ParsedLine, as_parsed, draft_in, draft_read, places_in, places_of, places_read, whole_in, with_json, answering, waiting, path_line, given_line, bare_line, line_in};

use crate::line::Line;
use pres_client::{Answer, Call};
use pres_tree::{Path, TreeFault};
use pres_write::{Draft, DraftJson};
use serde_json::{Map, Value};
use std::alloc::{AllocError, AllocFailed, Global};

// The greatest number of messages that a line waits for.
const MOST_WAIT: u64 = 1_000;

// Why a line names no call.
#[derive(Clone, Copy, Drop)]
enum LineFault {
    // It is none of the lines.
    Bad,
    // Its JSON or its path is refused.
    Refused,
    // An allocation was refused.
    Memory,
}

impl From<AllocError> for LineFault {
    ghost use Rattle.std.specs.Prelude.{◌≡◌};

    ghost from_gives = { λ _ e. e ≡ unread.Memory };

    fn from(_refused: AllocError) -> LineFault {
        LineFault::Memory
    }
}

impl<T: Drop> From<AllocFailed<T>> for LineFault {
    ghost use Rattle.std.specs.Prelude.{◌≡◌};

    ghost from_gives = { λ _ e. e ≡ unread.Memory };

    fn from(_refused: AllocFailed<T>) -> LineFault {
        LineFault::Memory
    }
}

/// What the line says: none where it is no line of a client.
pub fn line_of(alloc: Global, text: &str) -> Result<Option<Line>, AllocError>
    ensures { IfOk result (λ line. option_map as_parsed line ≡ line_in text.now) }
{
    match read_line(alloc, text) {
        Ok(line) => Ok(Some(line)),
        Err(LineFault::Refused) => Ok(Some(Line::Refused)),
        Err(LineFault::Bad) => Ok(None),
        Err(LineFault::Memory) => Err(AllocError),
    }
}

fn read_line(alloc: Global, text: &str) -> Result<Line, LineFault>
    ensures { IsRead as_parsed (line_in text.now) result }
{
    match text.split_once(' ') {
        Some((word, given)) => line_with(alloc, word, given),
        None => bare_line(text),
    }
}

// The line of a word that is given nothing.
fn bare_line(word: &str) -> Result<Line, LineFault>
    ensures { IsRead as_parsed (bare_line word.now) result }
{
    match word {
        "online" => Ok(Line::Call(Call::GoOnline)),
        "offline" => Ok(Line::Call(Call::GoOffline)),
        "lost" => Ok(Line::Call(Call::Lost)),
        "beat" => Ok(Line::Call(Call::Beat)),
        "resend" => Ok(Line::Call(Call::Resend)),
        _ => Err(LineFault::Bad),
    }
}

// The line of a word with what it is given.
fn line_with(alloc: Global, word: &str, given: &str) -> Result<Line, LineFault>
    ensures { IsRead as_parsed (given_line word.now given.now) result }
{
    match word {
        "wait" => waiting(given),
        "set" => {
            let (path, draft) = placed(alloc, given)?;
            Ok(Line::Call(Call::Set(path, draft)))
        }
        "od-set" => {
            let (path, draft) = placed(alloc, given)?;
            Ok(Line::Call(Call::OnDisconnectSet(path, draft)))
        }
        "update" => {
            let (path, places) = all_placed(alloc, given)?;
            Ok(Line::Call(Call::Update(path, places)))
        }
        "od-update" => {
            let (path, places) = all_placed(alloc, given)?;
            Ok(Line::Call(Call::OnDisconnectUpdate(path, places)))
        }
        "answer" => answering(alloc, given),
        "abort" => Ok(Line::Call(Call::Answer(whole(given)?, Answer::Abort))),
        _ => at_path(alloc, word, given),
    }
}

// The line of a word with a path alone.
fn at_path(alloc: Global, word: &str, path: &str) -> Result<Line, LineFault>
    ensures { IsRead as_parsed (path_line word.now path.now) result }
{
    let call = match word {
        "remove" => Call::Remove(path_of(alloc, path)?),
        "transact" => Call::Transact(path_of(alloc, path)?),
        "od-remove" => Call::OnDisconnectRemove(path_of(alloc, path)?),
        "od-cancel" => Call::OnDisconnectCancel(path_of(alloc, path)?),
        "listen" => Call::Listen(path_of(alloc, path)?),
        "unlisten" => Call::Unlisten(path_of(alloc, path)?),
        _ => return Err(LineFault::Bad),
    };
    Ok(Line::Call(call))
}

// A wait for this many messages.
fn waiting(count: &str) -> Result<Line, LineFault>
    ensures { IsRead as_parsed (waiting count.now) result }
{
    let count = whole(count)?;
    if count == 0 || count > MOST_WAIT {
        return Err(LineFault::Bad);
    }
    Ok(Line::Wait(count))
}

// The answer to a transaction that asks: its request, and the JSON of the new value.
fn answering(alloc: Global, given: &str) -> Result<Line, LineFault>
    ensures { IsRead as_parsed (answering given.now) result }
{
    let (request, json) = given.split_once(' ').ok_or(LineFault::Bad)?;
    let request = whole(request)?;
    let answer = Answer::New(draft_of(alloc, json)?);
    Ok(Line::Call(Call::Answer(request, answer)))
}

/// A whole number below 2^64, in decimal digits alone: none where the text is none.
pub fn number_of(text: &str) -> Option<u64>
    ensures { result ≡ whole_in text.now }
{
    whole(text).ok()
}

// Whether each character is a decimal digit.
fn has_digits_alone(text: &str) -> bool
    ensures { result ≡ list_all is_ascii_digit text.now }
{
    text.bytes().all(|byte| byte.is_ascii_digit())
}

// A whole number, in decimal digits alone.
fn whole(text: &str) -> Result<u64, LineFault>
    ensures { IsWhole (whole_in text.now) result }
{
    if !has_digits_alone(text) {
        return Err(LineFault::Bad);
    }
    match text.parse::<u64>() {
        Ok(number) => Ok(number),
        Err(_) => Err(LineFault::Bad),
    }
}

fn path_of(alloc: Global, text: &str) -> Result<Path, LineFault>
    ensures { IsPart (λ path. path) (path_in text.now) result }
{
    match Path::parse(alloc, text) {
        Ok(path) => Ok(path),
        Err(fault) => Err(unread_of(fault)),
    }
}

// Why a refusal by the tree names no call.
fn unread_of(fault: TreeFault) -> LineFault
    ensures { result ≡ of_fault fault }
{
    match fault {
        TreeFault::Memory => LineFault::Memory,
        _ => LineFault::Refused,
    }
}

// The value of a JSON text.
fn json_of(alloc: Global, text: &str) -> Result<Value, LineFault>
    ensures { IsPart view (read text.now) result }
{
    match Value::from_str(alloc, text) {
        Ok(value) => Ok(value),
        Err(error) => Err(if error.is_memory() {
            LineFault::Memory
        } else {
            LineFault::Refused
        }),
    }
}

// The draft that a JSON value is.
fn draft_in(alloc: Global, value: &Value) -> Result<Draft, LineFault>
    ensures { IsPart (λ draft. draft) (draft_in (view value.now)) result }
{
    match Draft::from_value(alloc, value) {
        Ok(draft) => Ok(draft),
        Err(fault) => Err(unread_of(fault)),
    }
}

// The draft of a JSON text.
fn draft_of(alloc: Global, text: &str) -> Result<Draft, LineFault>
    ensures { IsPart (λ draft. draft) (draft_read text.now) result }
{
    let value = json_of(alloc, text)?;
    draft_in(alloc, &value)
}

// A path, and the draft at it.
fn placed(alloc: Global, given: &str) -> Result<(Path, Draft), LineFault>
    ensures { (says : Path → Rows DraftLeaf → ParsedLine)
        → IsRead (λ p. says p.0 p.1) (with_json draft_read says given.now) result }
{
    let (path, json) = given.split_once(' ').ok_or(LineFault::Bad)?;
    let path = path_of(alloc, path)?;
    let draft = draft_of(alloc, json)?;
    Ok((path, draft))
}

// The drafts of a JSON text, an object of them.
fn drafts_of(alloc: Global, text: &str) -> Result<Vec<(Path, Draft)>, LineFault>
    ensures { IsPart (λ places. places.items) (places_read text.now) result }
{
    let value = json_of(alloc, text)?;
    places_in(alloc, &value)
}

// A path, and drafts at places below it: a JSON object of theirs.
fn all_placed(alloc: Global, given: &str) -> Result<(Path, Vec<(Path, Draft)>), LineFault>
    ensures { (says : Path → List (Path × Rows DraftLeaf) → ParsedLine)
        → IsRead (λ p. says p.0 p.1.items) (with_json places_read says given.now) result }
{
    let (path, json) = given.split_once(' ').ok_or(LineFault::Bad)?;
    let path = path_of(alloc, path)?;
    let places = drafts_of(alloc, json)?;
    Ok((path, places))
}

// The drafts of an object.
fn places_in(alloc: Global, value: &Value) -> Result<Vec<(Path, Draft)>, LineFault>
    ensures { IsPart (λ places. places.items) (places_in (view value.now)) result }
{
    match value {
        Value::Object(members) => places_of(alloc, members),
        _ => Err(LineFault::Refused),
    }
}

// The drafts of an object's members, each at the path that is its name.
fn places_of(alloc: Global, members: &Map<String, Value>) -> Result<Vec<(Path, Draft)>, LineFault>
    ensures { IsPart (λ places. places.items)
        (places_of (members_view members.now.entries)) result }
{
    let mut places = Vec::new(alloc);
    for (name, value) in members.iter() {
        let place = path_of(alloc, name.as_str())?;
        let draft = draft_in(alloc, value)?;
        places.push((place, draft))?;
    }
    Ok(places)
}
