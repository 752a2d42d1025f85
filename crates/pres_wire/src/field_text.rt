//! Fields of JSON objects, written at once: for messages, and for other JSON that has the same.

ghost use Rattle.std.specs.Prelude.{◌≡◌, ◌++◌, ◌∷◌, [], Some, codes, OnOk};
ghost use Rattle.json.specs.Token.{key, string};
ghost use Rattle.pres_tree.specs.JsonPrinting.{tokens_of, IsPlain};
ghost use Rattle.pres_ids.specs.Forms.{whole, session_json, message_number, session_of};

use json::Writer;
use pres_ids::{Number, SessionId, write_number, write_session};
use std::alloc::AllocError;

/// Writes the number under the name.
pub fn number_field(out: &mut Writer, name: &str, number: Number) -> Result<(), AllocError>
    ensures ok { OnOk result
        (out.new.tokens ≡ out.old.tokens ++ key name.now ∷ tokens_of (whole number)) }
    ensures before { out.new.before ≡ out.old.before }
    ensures plain { OnOk result (IsPlain (whole number)) }
    ensures reads_back { message_number (whole number) ≡ Some number }
{
    out.key(name)?;
    write_number(number, out)
}

/// Writes the text under the name.
pub fn text_field(out: &mut Writer, name: &str, text: &str) -> Result<(), AllocError>
    ensures ok { OnOk result
        (out.new.tokens ≡ out.old.tokens ++ key name.now ∷ string text.now ∷ []) }
    ensures before { out.new.before ≡ out.old.before }
{
    out.key(name)?;
    out.string(text)
}

/// Writes the session under its name.
pub fn session_field(out: &mut Writer, session: &SessionId) -> Result<(), AllocError>
    ensures ok { OnOk result
        (out.new.tokens ≡ out.old.tokens ++ key (codes "s") ∷ tokens_of (session_json session.now)) }
    ensures before { out.new.before ≡ out.old.before }
    ensures plain { OnOk result (IsPlain (session_json session.now)) }
    ensures reads_back { OnOk result (session_of (session_json session.now) ≡ Some session.now) }
{
    out.key("s")?;
    write_session(session, out)
}
