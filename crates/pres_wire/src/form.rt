//! The JSON objects of messages, made field by field.

ghost use Rattle.std.specs.Prelude.{◌≡◌, IfOk, Some, codes};
ghost use Rattle.serde_json.specs.Data.{object, string, no_members, put as with_member};
ghost use Rattle.serde_json.specs.View.{view, members_view};
ghost use Rattle.pres_ids.specs.Forms.{whole, session_json, message_number, session_of};

use pres_ids::{Number, SessionId, session_value};
use serde_json::{Map, Value};
use std::alloc::{AllocError, Global};

/// The fields of a JSON object so far. A field is put in whatever the order.
#[derive(Drop)]
pub struct MessageForm {
    pub members: Map<String, Value>,
}

impl MessageForm {
    /// No fields. It takes no memory.
    pub fn new(alloc: Global) -> MessageForm
        ensures { members_view result.members.entries ≡ no_members }
    {
        MessageForm {
            members: Map::new(alloc),
        }
    }

    /// With the value under the name.
    pub fn value(self, alloc: Global, name: &str, value: Value) -> Result<MessageForm, AllocError>
        ensures { IfOk result (λ made. members_view made.members.entries
            ≡ with_member name.now (view value) (members_view self.members.entries)) }
    {
        let MessageForm { mut members } = self;
        serde_json::put(&mut members, alloc, name, value)?;
        Ok(MessageForm { members })
    }

    /// With the number under the name.
    pub fn number(
        self,
        alloc: Global,
        name: &str,
        number: Number,
    ) -> Result<MessageForm, AllocError>
        ensures fields { IfOk result (λ made. members_view made.members.entries
            ≡ with_member name.now (whole number) (members_view self.members.entries)) }
        ensures reads_back { message_number (whole number) ≡ Some number }
    {
        self.value(alloc, name, Value::from(number.get()))
    }

    /// The object of the fields.
    pub fn object(self) -> Value
        ensures { view result ≡ object (members_view self.members.entries) }
    {
        Value::Object(self.members)
    }

    // The object of the fields, with the word of the message.
    pub(crate) fn done(self, alloc: Global, word: &str) -> Result<Value, AllocError>
        ensures { IfOk result (λ made. view made
            ≡ object (with_member (codes "m") (string word.now)
            (members_view self.members.entries))) }
    {
        let word = Value::try_from_str(alloc, word)?;
        let form = self.value(alloc, "m", word)?;
        Ok(form.object())
    }

    // The object of the fields, with the word and the session of the message.
    pub(crate) fn message(
        self,
        alloc: Global,
        word: &str,
        session: &SessionId,
    ) -> Result<Value, AllocError>
        ensures json { IfOk result (λ made. view made
            ≡ object (with_member (codes "m") (string word.now)
            (with_member (codes "s") (session_json session.now)
            (members_view self.members.entries)))) }
        ensures reads_back { IfOk result (λ _.
            session_of (session_json session.now) ≡ Some session.now) }
    {
        let session = session_value(alloc, session)?;
        let form = self.value(alloc, "s", session)?;
        form.done(alloc, word)
    }

    // The object of the fields, with the word, the session and the numbers of a message that a
    // session is sent.
    pub(crate) fn sent(
        self,
        alloc: Global,
        word: &str,
        session: &SessionId,
        r: Number,
        z: Number,
    ) -> Result<Value, AllocError>
        ensures json { IfOk result (λ made. view made
            ≡ object (with_member (codes "m") (string word.now)
            (with_member (codes "s") (session_json session.now)
            (with_member (codes "r") (whole r)
            (with_member (codes "z") (whole z) (members_view self.members.entries)))))) }
        ensures session { IfOk result (λ _.
            session_of (session_json session.now) ≡ Some session.now) }
        ensures r { IfOk result (λ _. message_number (whole r) ≡ Some r) }
        ensures z { IfOk result (λ _. message_number (whole z) ≡ Some z) }
    {
        let form = self.number(alloc, "z", z)?;
        let form = form.number(alloc, "r", r)?;
        form.message(alloc, word, session)
    }
}
