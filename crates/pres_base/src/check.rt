//! Which parts are those of a base.

ghost use Rattle.std.specs.Prelude.{◌≡◌, ◌↔◌, ◌≤◌, ◌+◌, ◌-◌, ◌^◌, IsTrue, All, Some, length, map, nat_le};
ghost use Rattle.std.specs.List.{list_any, list_all};
ghost use Rattle.std.specs.List.Sorted.{IsStrictlySortedBy};
ghost use Rattle.std.specs.Ordering.{is_lt};
ghost use Rattle.pres_tree.specs.Paths.{path_cmp};
ghost use Rattle.pres_ids.specs.Ids.{client_cmp, stamp_of};
ghost use Rattle.pres_plan.specs.Plans.{IsPlan, row_cmp, covers, matters, puts_above, plan_of};
ghost use Rattle.pres_fan.specs.Listeners.{most_paths};
ghost use Rattle.pres_base.specs.Bases.{are_done, last_in, most_sessions, IsOpenPart, IsBase};
ghost use Rattle.pres_base.specs.InternalRows.{none_covered};

use crate::parts::{BaseParts, ClientPart, SessionPart};
use pres_fan::MOST_PATHS;
use pres_ids::{ClientId, Count, SessionId, Stamp};
use pres_plan::{MOST_ROWS, PlanRow};
use pres_retry::Answers;
use pres_tree::Path;

/// At most this many sessions may be open at a time.
pub const MOST_SESSIONS: u64 = 1024;

/// 2^52 - 1: the number of the last entry and the open sessions together stay at or below it, so
/// that each session can end, and no count of messages passes 2^53 - 1.
pub const MOST_NUMBERS: u64 = (1 << 52) - 1;

// Whether each write was done after the one before it, and none after the number.
fn are_done(answers: &Answers, number: Count) -> bool
    ensures { result ≡ are_done 0 number answers.now }
{
    let mut before = 0;
    for answer in answers.iter() {
        let done = answer.done.get();
        if done <= before || done > number.get() {
            return false;
        }
        before = done;
    }
    true
}

// Whether each client's writes were done one after another.
fn are_answered(clients: &[ClientPart], number: Count) -> bool
    ensures { IsTrue result ↔ All (λ c. IsTrue (are_done 0 number c.rows)) clients.now }
{
    clients.iter().all(|client| are_done(&client.rows, number))
}

// Whether the first stands before the second.
fn is_client_before(first: &ClientPart, second: &ClientPart) -> bool
    ensures { result ≡ is_lt (client_cmp first.now.id second.now.id) }
{
    first.id < second.id
}

// Whether the first stands before the second.
fn is_session_before(first: &SessionPart, second: &SessionPart) -> bool
    ensures { result ≡ is_lt (client_cmp first.now.session.client second.now.session.client) }
{
    first.session.client < second.session.client
}

// Whether the first stands before the second.
fn is_path_before(first: &Path, second: &Path) -> bool
    ensures { result ≡ is_lt (path_cmp first.now second.now) }
{
    first < second
}

// Whether the first stands before the second.
fn is_row_before(first: &PlanRow, second: &PlanRow) -> bool
    ensures { result ≡ is_lt (row_cmp first.now second.now) }
{
    first.q < second.q || (first.q == second.q && first.action.path() < second.action.path())
}

// Whether the later row is at the path of the other one or above it.
fn covers(later: &PlanRow, row: &PlanRow) -> bool
    ensures { result ≡ covers later.now row.now }
{
    later.action.path().is_prefix_of(row.action.path())
}

// Whether one of the later rows covers the row.
fn is_covered(row: &PlanRow, later: &[PlanRow]) -> bool
    ensures { result ≡ list_any (λ l. covers l row.now) later.now }
{
    later.iter().any(|other| covers(other, row))
}

// Whether none of the rows is at the path of a later one or below it.
fn none_covered(rows: &[PlanRow]) -> bool
    ensures { result ≡ none_covered rows.now }
{
    let mut rest = rows;
    while let Some((row, later)) = rest.split_first() {
        if is_covered(row, later) {
            return false;
        }
        rest = later;
    }
    true
}

// Whether the row puts a draft above the path.
fn puts_above(path: &Path, row: &PlanRow) -> bool
    ensures { result ≡ puts_above path.now row.now }
{
    let above = row.action.path();
    row.action.is_put() && above.is_prefix_of(path) && !path.is_prefix_of(above)
}

// Whether one of the rows puts a draft above the path.
fn has_put_above(path: &Path, rows: &[PlanRow]) -> bool
    ensures { result ≡ list_any (puts_above path.now) rows.now }
{
    rows.iter().any(|row| puts_above(path, row))
}

// Whether the row puts a draft, or one of the rows does above its path.
fn matters(rows: &[PlanRow], row: &PlanRow) -> bool
    ensures { result ≡ matters rows.now row.now }
{
    row.action.is_put() || has_put_above(row.action.path(), rows)
}

// Whether each row puts a draft, or has one that does above its path.
fn each_matters(rows: &[PlanRow]) -> bool
    ensures { result ≡ list_all (matters rows.now) rows.now }
{
    rows.iter().all(|row| matters(rows, row))
}

// Whether the rows stand in the order of their messages, and those of one message in path order.
fn are_rows_in_order(rows: &[PlanRow]) -> bool
    ensures { IsTrue result ↔ IsStrictlySortedBy row_cmp rows.now }
{
    rows.is_sorted_by(is_row_before)
}

// Whether the rows stand for themselves: none is covered, and each matters.
fn is_whole(rows: &[PlanRow]) -> bool
    ensures { IsTrue result ↔ (plan_of rows.now ≡ rows.now) }
{
    none_covered(rows) && each_matters(rows)
}

// Whether the rows are a plan.
fn is_plan(rows: &[PlanRow]) -> bool
    ensures { IsTrue result ↔ IsPlan rows.now }
{
    rows.len() <= MOST_ROWS && are_rows_in_order(rows) && is_whole(rows)
}

// Whether each row was asked for by message `q` or one before it.
fn are_asked(rows: &[PlanRow], q: Count) -> bool
    ensures { IsTrue result ↔ All (λ row. row.q ≤ q) rows.now }
{
    rows.iter().all(|row| row.q.get() <= q.get())
}

// Whether the places stand in path order, each once.
fn are_places_in_order(places: &[Path]) -> bool
    ensures { IsTrue result ↔ IsStrictlySortedBy path_cmp places.now }
{
    places.is_sorted_by(is_path_before)
}

// Whether the places of a session are few, and stand in order.
fn are_places(places: &[Path]) -> bool
    ensures { IsTrue result
        ↔ (IsStrictlySortedBy path_cmp places.now × (length places.now ≤ most_paths)) }
{
    places.len() <= MOST_PATHS && are_places_in_order(places)
}

// Whether it may be an open session after this many entries.
fn is_open_part(session: &SessionPart, number: Count) -> bool
    ensures { IsTrue result ↔ IsOpenPart number session.now }
{
    let plan = session.plan.as_slice();
    are_places(session.listens.as_slice())
        && is_plan(plan)
        && are_asked(plan, session.q)
        && session.q.get() <= number.get()
        && session.r.get() <= 2 * number.get()
}

// The stamp of the client's last session.
fn last_in(client: &ClientId, clients: &[ClientPart]) -> Option<Stamp>
    requires { IsStrictlySortedBy client_cmp (map (λ c. c.id) clients.now) }
    ensures { result ≡ last_in client.now clients.now }
{
    let Ok(at) = clients.binary_search_by(|part| part.id.cmp(client)) else {
        return None;
    };
    Some(clients[at].last)
}

// Whether the session is its client's last one.
fn is_last(session: &SessionId, clients: &[ClientPart]) -> bool
    requires { IsStrictlySortedBy client_cmp (map (λ c. c.id) clients.now) }
    ensures { IsTrue result
        ↔ (last_in session.now.client clients.now ≡ Some (stamp_of session.now)) }
{
    match last_in(&session.client, clients) {
        Some(last) => last == session.stamp(),
        None => false,
    }
}

// Whether clients stand in byte order, each once.
fn are_clients_in_order(clients: &[ClientPart]) -> bool
    ensures { IsTrue result ↔ IsStrictlySortedBy client_cmp (map (λ c. c.id) clients.now) }
{
    clients.is_sorted_by(is_client_before)
}

// Whether sessions stand in byte order of their clients, each client once.
fn are_sessions_in_order(sessions: &[SessionPart]) -> bool
    ensures { IsTrue result
        ↔ IsStrictlySortedBy client_cmp (map (λ s. s.session.client) sessions.now) }
{
    sessions.is_sorted_by(is_session_before)
}

// Whether each client stands after the one before it, and its writes were done one after another.
fn are_clients(clients: &[ClientPart], number: Count) -> bool
    ensures { IsTrue result
        ↔ (IsStrictlySortedBy client_cmp (map (λ c. c.id) clients.now)
        × All (λ c. IsTrue (are_done 0 number c.rows)) clients.now) }
{
    are_clients_in_order(clients) && are_answered(clients, number)
}

// Whether each session is its client's last one.
fn are_last(sessions: &[SessionPart], clients: &[ClientPart]) -> bool
    requires { IsStrictlySortedBy client_cmp (map (λ c. c.id) clients.now) }
    ensures { IsTrue result ↔ All (λ s. last_in s.session.client clients.now
        ≡ Some (stamp_of s.session)) sessions.now }
{
    sessions.iter().all(|part| is_last(&part.session, clients))
}

// Whether each may be an open session after this many entries.
fn are_open(sessions: &[SessionPart], number: Count) -> bool
    ensures { IsTrue result ↔ All (IsOpenPart number) sessions.now }
{
    sessions.iter().all(|part| is_open_part(part, number))
}

// Whether the numbers fit each other.
fn are_numbers(parts: &BaseParts) -> bool
    ensures { IsTrue result ↔ ((length parts.now.sessions ≤ most_sessions)
        × (parts.now.batches ≤ parts.now.number)
        × (parts.now.number + length parts.now.sessions ≤ 2 ^ 52 - 1)) }
{
    let number = parts.number.get();
    let open = parts.sessions.as_slice().len() as u64;
    open <= MOST_SESSIONS && parts.batches.get() <= number && number + open <= MOST_NUMBERS
}

/// Whether the parts are those of a base. It takes no memory.
pub(crate) fn is_base(parts: &BaseParts) -> bool
    ensures { IsTrue result ↔ IsBase parts.now }
{
    // it ensures that the moment is in range
    let _ = parts.moment.millis();
    let clients = parts.clients.as_slice();
    let sessions = parts.sessions.as_slice();
    are_numbers(parts)
        && are_clients(clients, parts.number)
        && are_sessions_in_order(sessions)
        && are_last(sessions, clients)
        && are_open(sessions, parts.number)
}
