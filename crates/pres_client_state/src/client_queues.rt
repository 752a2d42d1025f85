//! What waits for an answer, and what waits to be handed out.

ghost use Rattle.std.specs.Prelude.{◌≡◌, ◌+◌, ◌-◌, ◌++◌, ◌∷◌, ◌≤◌, [], length, drop, filter, IfOk, OnOk, OnErr, List, Some, true};
ghost use Rattle.std.specs.List.{list_any, filter_map};
ghost use Rattle.pres_ids.specs.Numbers.{greatest_number};
ghost use Rattle.pres_client_state.specs.Queues.{is_write, is_on, messages, count_writes};
ghost use Rattle.pres_client_state.specs.Queues.{farewell, lost_action};
ghost use Rattle.pres_client_state.specs.ClientQueues.{HasRoom, MayNumber};
ghost use Rattle.pres_client_state.specs.declared.queued.Queued.{Queued as Message};

use crate::notice::{Notice, alone};
use crate::queued::{Queued, number};
use pres_tree::Path;
use pres_wire::{Code, SessionId, Up};
use std::alloc::{AllocError, Global};
use std::collections::VecDeque;
use std::marker::Model;

/// The messages that wait for their answers, oldest first, the messages that wait to be sent, and
/// the notices that wait to be read. Contracts see the three lists, and the room that each has for
/// more.
#[derive(Drop)]
pub struct ClientQueues {
    alloc: Global,
    queue: VecDeque<Queued>,
    sends: Vec<Up>,
    notices: Vec<Notice>,
}

impl Model for ClientQueues {
    ghost use Rattle.std.specs.Prelude.{◌-◌, length};
    ghost use Rattle.std.specs.Vec.{vec_len, vec_capacity};
    ghost use Rattle.std.specs.VecDeque.{deque_len, deque_capacity};
    ghost use Rattle.pres_client_state.specs.ClientQueues.{QueuesState};

    ghost Value = { QueuesState };

    ghost view = { λ m. record {
      queue = m.queue.items;
      sends = m.sends.items;
      notices = m.notices.items;
      queue_room = deque_capacity m.queue - deque_len m.queue;
      sends_room = vec_capacity m.sends - vec_len m.sends;
      notices_room = vec_capacity m.notices - vec_len m.notices;
    } };
}

/// The list of this message alone.
pub fn sole(alloc: Global, message: Up) -> Result<Vec<Up>, AllocError>
    ensures { IfOk result (λ v. v.items ≡ message ∷ []) }
{
    let mut sends = Vec::new(alloc);
    sends.push(message)?;
    Ok(sends)
}

// Adds the messages with their numbers, from `from_q` and `from_n` on.
fn add_messages(
    sends: &mut Vec<Up>,
    alloc: Global,
    session: &SessionId,
    from_q: u64,
    from_n: u64,
    queue: &VecDeque<Queued>,
) -> Result<(), AllocError>
    requires q { MayNumber from_q (length queue.now.items) }
    requires n { MayNumber from_n (count_writes queue.now.items) }
    ensures { OnOk result (sends.new.items
        ≡ sends.old.items ++ messages session.now from_q from_n queue.now.items) }
{
    let mut q = from_q;
    let mut n = from_n;
    for queued in queue.iter() {
        sends.push(queued.message(alloc, session, number(q), n)?)?;
        q += 1;
        n = queued.next_write(n);
    }
    Ok(())
}

// The messages of both with their numbers, from 1 and `n` on.
fn all_messages(
    alloc: Global,
    session: &SessionId,
    n: u64,
    first: &VecDeque<Queued>,
    rest: &VecDeque<Queued>,
) -> Result<Vec<Up>, AllocError>
    requires q { length first.now.items + length rest.now.items ≤ greatest_number }
    requires n { MayNumber n (count_writes (first.now.items ++ rest.now.items)) }
    requires first { count_writes first.now.items ≡ 0 }
    ensures { IfOk result (λ v. v.items
        ≡ messages session.now 1 n (first.now.items ++ rest.now.items)) }
{
    let mut sends = Vec::new(alloc);
    add_messages(&mut sends, alloc, session, 1, n, first)?;
    let q = 1 + first.len() as u64;
    add_messages(&mut sends, alloc, session, q, n, rest)?;
    Ok(sends)
}

// Adds a notice for each of the messages that are actions for the end of a session, or cancels.
fn add_lost(notices: &mut Vec<Notice>, queue: &VecDeque<Queued>) -> Result<(), AllocError>
    ensures { OnOk result (notices.new.items
        ≡ notices.old.items ++ filter_map lost_action queue.now.items) }
{
    for queued in queue.iter() {
        if let Some(request) = queued.action() {
            notices.push(Notice::ActionLost { request })?;
        }
    }
    Ok(())
}

impl ClientQueues {
    /// Nothing waits.
    pub fn new(alloc: Global) -> ClientQueues
        ensures queue { result.queue ≡ [] }
        ensures sends { result.sends ≡ [] }
        ensures notices { result.notices ≡ [] }
    {
        ClientQueues {
            alloc,
            queue: VecDeque::new(alloc),
            sends: Vec::new(alloc),
            notices: Vec::new(alloc),
        }
    }

    /// Makes room for this many more of each.
    pub fn reserve(&mut self, queue: usize, sends: usize, notices: usize) -> Result<(), AllocError>
        ensures queue { self.new.queue ≡ self.old.queue }
        ensures sends { self.new.sends ≡ self.old.sends }
        ensures notices { self.new.notices ≡ self.old.notices }
        ensures room { OnOk result (HasRoom self.new queue sends notices) }
    {
        self.queue.reserve(queue)?;
        self.sends.reserve(sends)?;
        self.notices.reserve(notices)
    }

    /// A message waits for its answer, and these wait too, in room that was made for them.
    pub fn put(&mut self, queued: Queued, sends: Vec<Up>, notices: Vec<Notice>)
        requires { HasRoom self.old 1 (length sends.items) (length notices.items) }
        ensures queue { self.new.queue ≡ self.old.queue ++ queued ∷ [] }
        ensures sends { self.new.sends ≡ self.old.sends ++ sends.items }
        ensures notices { self.new.notices ≡ self.old.notices ++ notices.items }
    {
        self.queue.push_back_reserved(queued);
        self.put_out(sends, notices);
    }

    /// The messages and notices wait, in room that was made for them.
    pub fn put_out(&mut self, mut sends: Vec<Up>, mut notices: Vec<Notice>)
        requires sends { length sends.items ≤ self.old.sends_room }
        requires notices { length notices.items ≤ self.old.notices_room }
        ensures queue { self.new.queue ≡ self.old.queue }
        ensures sends { self.new.sends ≡ self.old.sends ++ sends.items }
        ensures notices { self.new.notices ≡ self.old.notices ++ notices.items }
        ensures room { self.new.queue_room ≡ self.old.queue_room }
    {
        let _sent = self.sends.append(&mut sends);
        let _noted = self.notices.append(&mut notices);
    }

    /// The messages and notices wait: all of them, or none where memory is refused.
    pub fn add(&mut self, sends: Vec<Up>, notices: Vec<Notice>) -> Result<(), AllocError>
        ensures queue { self.new.queue ≡ self.old.queue }
        ensures sends { OnOk result (self.new.sends ≡ self.old.sends ++ sends.items) }
        ensures notices { OnOk result (self.new.notices ≡ self.old.notices ++ notices.items) }
        ensures no_sends { OnErr result (self.new.sends ≡ self.old.sends) }
        ensures no_notices { OnErr result (self.new.notices ≡ self.old.notices) }
    {
        self.reserve(0, sends.len(), notices.len())?;
        self.put_out(sends, notices);
        Ok(())
    }

    /// A message waits for its answer, and these go out: all of them, or none where memory is
    /// refused.
    pub fn push(&mut self, queued: Queued, sends: Vec<Up>) -> Result<(), AllocError>
        ensures notices { self.new.notices ≡ self.old.notices }
        ensures queue { OnOk result (self.new.queue ≡ self.old.queue ++ queued ∷ []) }
        ensures sends { OnOk result (self.new.sends ≡ self.old.sends ++ sends.items) }
        ensures no_queue { OnErr result (self.new.queue ≡ self.old.queue) }
        ensures no_sends { OnErr result (self.new.sends ≡ self.old.sends) }
    {
        let Ok(()) = self.reserve(1, sends.len(), 0) else {
            drop(queued);
            return Err(AllocError);
        };
        self.put(queued, sends, Vec::new(self.alloc));
        Ok(())
    }

    /// How many messages wait for an answer.
    pub fn waiting(&self) -> usize
        ensures { result ≡ length self.now.queue }
    {
        self.queue.len()
    }

    /// The messages that wait for their answers, oldest first.
    pub fn queue(&self) -> &VecDeque<Queued>
        ensures { result.now.items ≡ self.now.queue }
    {
        &self.queue
    }

    /// The oldest of them leaves.
    pub fn pop(&mut self) -> Option<Queued>
        ensures head { (m : Message) → (rest : List Message) → self.old.queue ≡ m ∷ rest → result ≡ Some m }
        ensures queue { self.new.queue ≡ drop 1 self.old.queue }
        ensures sends { self.new.sends ≡ self.old.sends }
        ensures notices { self.new.notices ≡ self.old.notices }
        ensures sends_room { self.new.sends_room ≡ self.old.sends_room }
        ensures notices_room { self.new.notices_room ≡ self.old.notices_room }
    {
        self.queue.pop_front()
    }

    /// Only the writes wait on.
    pub fn keep_writes(&mut self)
        ensures queue { self.new.queue ≡ filter is_write self.old.queue }
        ensures sends { self.new.sends ≡ self.old.sends }
        ensures notices { self.new.notices ≡ self.old.notices }
    {
        self.queue.retain(|queued| queued.is_write());
    }

    /// Whether a message after the oldest listens to the path.
    pub fn listens_later(&self, path: &Path) -> bool
        ensures { result ≡ list_any (is_on path.now) (drop 1 self.now.queue) }
    {
        self.queue.iter().skip(1).any(|queued| queued.is_on(path))
    }

    /// The notices of a session that is left, with the fault that ends it.
    pub fn farewell(&self, fault: Option<Code>) -> Result<Vec<Notice>, AllocError>
        ensures { IfOk result (λ v. v.items ≡ farewell fault self.now.queue) }
    {
        let mut notices = Vec::new(self.alloc);
        notices.push(Notice::Connected(false))?;
        add_lost(&mut notices, &self.queue)?;
        if let Some(code) = fault {
            notices.push(Notice::Faulted(code))?;
        }
        Ok(notices)
    }

    /// The messages that wait for their answers, with their numbers, of which these are the first.
    pub fn messages(&self, session: &SessionId, q: u64, n: u64) -> Result<Vec<Up>, AllocError>
        requires q { MayNumber q (length self.now.queue) }
        requires n { MayNumber n (count_writes self.now.queue) }
        ensures { IfOk result (λ v. v.items ≡ messages session.now q n self.now.queue) }
    {
        let mut sends = Vec::new(self.alloc);
        add_messages(&mut sends, self.alloc, session, q, n, &self.queue)?;
        Ok(sends)
    }

    /// The session is open: these messages go before those that wait, and all go out, the write
    /// that has waited longest as number `n`. It does all of it, or nothing if memory is refused.
    pub fn open(
        &mut self,
        session: &SessionId,
        n: u64,
        mut first: VecDeque<Queued>,
    ) -> Result<(), AllocError>
        requires q { length first.items + length self.old.queue ≤ greatest_number }
        requires n { MayNumber n (count_writes (first.items ++ self.old.queue)) }
        requires first { count_writes first.items ≡ 0 }
        ensures queue { OnOk result (self.new.queue ≡ first.items ++ self.old.queue) }
        ensures sends { OnOk result (self.new.sends
            ≡ self.old.sends ++ messages session.now 1 n (first.items ++ self.old.queue)) }
        ensures notices { OnOk result
            (self.new.notices ≡ self.old.notices ++ Notice.Connected true ∷ []) }
        ensures no_queue { OnErr result (self.new.queue ≡ self.old.queue) }
        ensures no_sends { OnErr result (self.new.sends ≡ self.old.sends) }
        ensures no_notices { OnErr result (self.new.notices ≡ self.old.notices) }
    {
        first.reserve(self.queue.len())?;
        let sends = all_messages(self.alloc, session, n, &first, &self.queue)?;
        let notices = alone(self.alloc, Notice::Connected(true))?;
        self.reserve(0, sends.len(), notices.len())?;
        let _joined = first.append(&mut self.queue);
        self.queue = first;
        self.put_out(sends, notices);
        Ok(())
    }

    /// Takes the messages that were not handed out yet.
    pub fn take_sends(&mut self) -> Vec<Up>
        ensures given { result.items ≡ self.old.sends }
        ensures sends { self.new.sends ≡ [] }
        ensures queue { self.new.queue ≡ self.old.queue }
        ensures notices { self.new.notices ≡ self.old.notices }
    {
        std::mem::replace(&mut self.sends, Vec::new(self.alloc))
    }

    /// Takes the notices that were not read yet.
    pub fn take_notices(&mut self) -> Vec<Notice>
        ensures given { result.items ≡ self.old.notices }
        ensures notices { self.new.notices ≡ [] }
        ensures queue { self.new.queue ≡ self.old.queue }
        ensures sends { self.new.sends ≡ self.old.sends }
    {
        std::mem::replace(&mut self.notices, Vec::new(self.alloc))
    }
}
