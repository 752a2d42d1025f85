//! Drafts: values whose leaves may be placeholders.

ghost use Rattle.std.specs.Prelude.{◌≡◌, ◌++◌, ◌⊎◌, [], false, ℕ, IfOk, OnOk, MatchResult, codes, option_copied};
ghost use Rattle.serde_json.specs.View.{view};
ghost use Rattle.pres_tree.specs.JsonPrinting.{IsPlain, tokens_of};
ghost use Rattle.pres_tree.specs.JsonReading.{leaf, bad};
ghost use Rattle.pres_tree.specs.Rows.{Rows, rows_in, value_at};
ghost use Rattle.pres_tree.specs.Scalars.{scalar_printing, scalar_reading};
ghost use Rattle.pres_tree.specs.declared.fault.TreeFault.TheVariants.{Memory};
ghost use Rattle.pres_write.specs.Drafts.{alone, increment_by, increment_reading, is_timestamp, server_value, slot_printing};
ghost use Rattle.pres_write.specs.Settling.{moved_by, settled, settled_slot};

use crate::moment::Moment;
use json::Writer;
use pres_tree::{
    Change, ChangeOn, Leaf, LeafForm, Nested, Path, PrintedForm, Scalar, ScalarForm, Tree,
    TreeFault,
};
use serde_json::{Value, json};
use std::alloc::{AllocError, Global};

// The name that only placeholders have, as in Firebase Realtime Database's server values.
const PLACEHOLDER: &str = ".sv";

// The name of a placeholder's number.
const INCREMENT: &str = "increment";

// The members of a placeholder, and of an increment.
const ALONE: usize = 1;

/// A scalar, or a placeholder for what the server makes of it.
#[derive(Drop)]
pub enum DraftLeaf {
    Fixed(Scalar),
    /// `{".sv":"timestamp"}`: the server's time.
    Timestamp,
    /// `{".sv":{"increment":2}}`: the sum with the whole number that the place holds.
    Increment(i64),
}

/// A value that may hold placeholders.
pub type Draft = Nested<DraftLeaf>;

// Whether the value is the word for the moment.
fn is_timestamp(value: &Value) -> bool
    ensures { result ≡ is_timestamp (view value.now) }
{
    match value {
        Value::String(text) => text.as_str() == "timestamp",
        _ => false,
    }
}

// The increment of a JSON value: a whole number.
fn read_number(alloc: Global, by: &Value) -> Result<DraftLeaf, TreeFault>
    ensures { MatchResult result
        (λ made. increment_by (scalar_reading (view by.now)) ≡ leaf made)
        (λ e. (e ≡ Memory) ⊎ (increment_by (scalar_reading (view by.now)) ≡ bad e)) }
{
    match by {
        Value::Number(_) => match ScalarForm::read(alloc, by)? {
            Scalar::Int(by) => Ok(DraftLeaf::Increment(by)),
            Scalar::Bool(_) => Err(TreeFault::Placeholder),
            Scalar::Text(_) => Err(TreeFault::Placeholder),
        },
        _ => Err(TreeFault::Placeholder),
    }
}

// The increment of an object that has it alone. Placeholder comes before what its number is
// refused for.
fn read_increment(alloc: Global, value: &Value) -> Result<DraftLeaf, TreeFault>
    ensures { MatchResult result
        (λ made. increment_reading (view value.now) ≡ leaf made)
        (λ e. (e ≡ Memory) ⊎ (increment_reading (view value.now) ≡ bad e)) }
{
    match value {
        Value::Object(members) => {
            if members.len() != ALONE {
                return Err(TreeFault::Placeholder);
            }
            match value.get(INCREMENT) {
                Some(by) => read_number(alloc, by),
                None => Err(TreeFault::Placeholder),
            }
        }
        _ => Err(TreeFault::Placeholder),
    }
}

// What a placeholder has under its name: the word for the moment, or an increment.
fn read_server_value(alloc: Global, value: &Value) -> Result<DraftLeaf, TreeFault>
    ensures { MatchResult result
        (λ made. server_value (view value.now) ≡ leaf made)
        (λ e. (e ≡ Memory) ⊎ (server_value (view value.now) ≡ bad e)) }
{
    if is_timestamp(value) {
        return Ok(DraftLeaf::Timestamp);
    }
    read_increment(alloc, value)
}

// The JSON value that stands for the moment.
fn timestamp(alloc: Global) -> Result<Value, AllocError>
    ensures { IfOk result (λ made. view made ≡ slot_printing DraftLeaf.Timestamp) }
{
    json!(in alloc; {".sv": "timestamp"})
}

// Writes the JSON value that stands for the moment.
fn write_timestamp(out: &mut Writer) -> Result<(), AllocError>
    ensures ok { OnOk result
        (out.new.tokens ≡ out.old.tokens ++ tokens_of (slot_printing DraftLeaf.Timestamp)) }
    ensures before { out.new.before ≡ out.old.before }
{
    out.begin_object()?;
    out.key(PLACEHOLDER)?;
    out.string("timestamp")?;
    out.end_object()
}

// The JSON value of an increment.
fn increment(alloc: Global, by: i64) -> Result<Value, AllocError>
    ensures { IfOk result (λ made. view made ≡ slot_printing (DraftLeaf.Increment by)) }
{
    json!(in alloc; {".sv": {"increment": by}})
}

// Writes the object that has an increment alone.
fn write_number(by: &Scalar, out: &mut Writer) -> Result<(), AllocError>
    ensures ok { OnOk result
        (out.new.tokens ≡ out.old.tokens ++ tokens_of (alone (codes "increment") (scalar_printing by.now))) }
    ensures before { out.new.before ≡ out.old.before }
    ensures plain { OnOk result (IsPlain (scalar_printing by.now)) }
{
    out.begin_object()?;
    out.key(INCREMENT)?;
    ScalarForm::write(by, out)?;
    out.end_object()
}

// Writes the JSON value of an increment.
fn write_increment(by: &Scalar, out: &mut Writer) -> Result<(), AllocError>
    ensures ok { OnOk result (out.new.tokens
        ≡ out.old.tokens
        ++ tokens_of (alone (codes ".sv") (alone (codes "increment") (scalar_printing by.now)))) }
    ensures before { out.new.before ≡ out.old.before }
    ensures plain { OnOk result
        (IsPlain (alone (codes ".sv") (alone (codes "increment") (scalar_printing by.now)))) }
{
    out.begin_object()?;
    out.key(PLACEHOLDER)?;
    write_number(by, out)?;
    out.end_object()
}

impl Leaf for DraftLeaf {
    fn copy(&self, alloc: Global) -> Result<DraftLeaf, AllocError> {
        match self {
            DraftLeaf::Fixed(scalar) => Ok(DraftLeaf::Fixed(scalar.copy(alloc)?)),
            DraftLeaf::Timestamp => Ok(DraftLeaf::Timestamp),
            DraftLeaf::Increment(by) => Ok(DraftLeaf::Increment(*by)),
        }
    }

    fn equal(&self, other: &DraftLeaf) -> bool {
        match (self, other) {
            (DraftLeaf::Fixed(scalar), DraftLeaf::Fixed(other)) => scalar.equal(other),
            (DraftLeaf::Timestamp, DraftLeaf::Timestamp) => true,
            (DraftLeaf::Increment(by), DraftLeaf::Increment(other)) => by == other,
            _ => false,
        }
    }
}

/// The form of drafts: scalars are themselves, and a placeholder is an object of one member.
pub struct DraftLeafForm {}

impl LeafForm<DraftLeaf> for DraftLeafForm {
    ghost use Rattle.pres_write.specs.Drafts.{slot_reading};

    ghost reading = { slot_reading };

    fn is_leaf(value: &Value) -> bool {
        match value {
            Value::Object(_) => value.get(PLACEHOLDER).is_some(),
            _ => ScalarForm::is_leaf(value),
        }
    }

    fn read(alloc: Global, value: &Value) -> Result<DraftLeaf, TreeFault> {
        match value {
            Value::Object(members) => match value.get(PLACEHOLDER) {
                Some(held) => {
                    if members.len() == ALONE {
                        read_server_value(alloc, held)
                    } else {
                        Err(TreeFault::Placeholder)
                    }
                }
                None => unreachable!(),
            },
            _ => Ok(DraftLeaf::Fixed(ScalarForm::read(alloc, value)?)),
        }
    }
}

impl PrintedForm<DraftLeaf> for DraftLeafForm {
    ghost use Rattle.pres_write.specs.Drafts.{slot_printing};

    ghost printing = { slot_printing };

    fn print(alloc: Global, slot: &DraftLeaf) -> Result<Value, AllocError> {
        match slot {
            DraftLeaf::Fixed(scalar) => ScalarForm::print(alloc, scalar),
            DraftLeaf::Timestamp => timestamp(alloc),
            DraftLeaf::Increment(by) => increment(alloc, *by),
        }
    }

    fn write(slot: &DraftLeaf, out: &mut Writer) -> Result<(), AllocError> {
        match slot {
            DraftLeaf::Fixed(scalar) => ScalarForm::write(scalar, out),
            DraftLeaf::Timestamp => write_timestamp(out),
            DraftLeaf::Increment(by) => write_increment(&Scalar::Int(*by), out),
        }
    }

    ghost use Rattle.std.specs.Prelude.{refl};
    ghost use Rattle.pres_write.specs.Placeholders.{keys_are_no_placeholder};

    ghost null_is_branch = { refl };

    ghost object_is_branch = { keys_are_no_placeholder };
}

/// The form of values without placeholders.
pub struct FixedForm {}

impl LeafForm<Scalar> for FixedForm {
    ghost use Rattle.pres_write.specs.Drafts.{fixed_reading};

    ghost reading = { fixed_reading };

    fn is_leaf(value: &Value) -> bool {
        match value {
            Value::Object(_) => value.get(PLACEHOLDER).is_some(),
            _ => ScalarForm::is_leaf(value),
        }
    }

    fn read(alloc: Global, value: &Value) -> Result<Scalar, TreeFault> {
        match value {
            Value::Object(_) => Err(TreeFault::Placeholder),
            _ => ScalarForm::read(alloc, value),
        }
    }
}

// The sum with the whole number that is held; the increment alone where none is held.
fn moved_by(by: i64, held: Option<&Scalar>) -> i64
    ensures { result ≡ moved_by by (option_copied held.entry) }
{
    match held {
        Some(Scalar::Int(number)) => number.saturating_add(by),
        _ => by,
    }
}

// Timestamps become the moment, increments the sum with what their places hold.
#[derive(Drop)]
struct Settling {
    moment: Moment,
}

impl Settling {
    // What the leaf becomes.
    fn settled(
        &self,
        alloc: Global,
        slot: &DraftLeaf,
        held: Option<&Scalar>,
    ) -> Result<Scalar, AllocError>
        ensures { IfOk result (λ made.
            made ≡ settled_slot self.now.moment (option_copied held.entry) slot.now) }
    {
        match slot {
            DraftLeaf::Fixed(scalar) => scalar.copy(alloc),
            DraftLeaf::Timestamp => Ok(Scalar::Int(self.moment.millis() as i64)),
            DraftLeaf::Increment(by) => Ok(Scalar::Int(moved_by(*by, held))),
        }
    }
}

// Where nothing is held.
impl Change<DraftLeaf, Scalar> for Settling {
    ghost use Rattle.std.specs.Prelude.{None};
    ghost use Rattle.pres_write.specs.Settling.{settled_slot};

    ghost makes = { λ how slot. settled_slot how.moment None slot };

    fn change(&self, alloc: Global, slot: &DraftLeaf) -> Result<Scalar, AllocError> {
        self.settled(alloc, slot, None)
    }

    fn change_owned(&self, slot: DraftLeaf) -> Scalar {
        match slot {
            DraftLeaf::Fixed(scalar) => scalar,
            DraftLeaf::Timestamp => Scalar::Int(self.moment.millis() as i64),
            DraftLeaf::Increment(by) => Scalar::Int(by),
        }
    }
}

impl ChangeOn<DraftLeaf, Scalar> for Settling {
    ghost use Rattle.std.specs.Prelude.{refl};
    ghost use Rattle.pres_write.specs.Settling.{settled_slot};

    ghost makes_on = { λ how held slot. settled_slot how.moment held slot };

    fn looks(&self, slot: &DraftLeaf) -> bool {
        matches!(slot, DraftLeaf::Increment(_))
    }

    fn change_on(
        &self,
        alloc: Global,
        slot: &DraftLeaf,
        held: &Scalar,
    ) -> Result<Scalar, AllocError> {
        self.settled(alloc, slot, Some(held))
    }

    ghost alone = { λ how slot. refl };
}

/// Whether it matters to the draft what stands at its place: it has an increment. It takes no
/// memory.
pub fn looks(draft: &Draft, moment: Moment) -> bool
    ensures { result ≡ false → (held : Rows Scalar)
        → settled held moment draft.now ≡ settled [] moment draft.now }
{
    draft.looks::<Scalar, Settling>(&Settling { moment })
}

/// The value of the draft at the moment, where this stands at its place. Made in one walk.
pub fn settle(
    alloc: Global,
    draft: &Draft,
    held: Option<&Tree>,
    moment: Moment,
) -> Result<Tree, AllocError>
    ensures { IfOk result (λ t.
        t ≡ settled (rows_in (option_copied held.entry)) moment draft.now) }
{
    let how = Settling { moment };
    match held {
        Some(held) => draft.changed_on(alloc, held, &how),
        None => draft.changed(alloc, &how),
    }
}

// The same of a draft that isn't needed any more, where nothing stands at its place: its keys and
// scalars are moved.
fn settle_owned(alloc: Global, draft: Draft, moment: Moment) -> Result<Tree, AllocError>
    ensures { IfOk result (λ t. t ≡ settled [] moment draft) }
{
    draft.into_changed(alloc, &Settling { moment })
}

// What the draft reads of the tree at the path, where it has an increment.
fn held_for<'a>(tree: &'a Tree, path: &Path, draft: &Draft, moment: Moment) -> Option<&'a Tree>
    ensures { settled (rows_in (option_copied result)) moment draft.now
        ≡ settled (value_at path.now tree.now) moment draft.now }
{
    if looks(draft, moment) {
        tree.at(path)
    } else {
        None
    }
}

// The value of the draft at the path, resolved on the tree at the moment.
pub(crate) fn settle_at(
    alloc: Global,
    draft: &Draft,
    tree: &Tree,
    path: &Path,
    moment: Moment,
) -> Result<Tree, AllocError>
    ensures { IfOk result (λ t. t ≡ settled (value_at path.now tree.now) moment draft.now) }
{
    settle(alloc, draft, held_for(tree, path, draft, moment), moment)
}

// The same of a draft that isn't needed any more, which is moved.
pub(crate) fn settle_at_owned(
    alloc: Global,
    draft: Draft,
    tree: &Tree,
    path: &Path,
    moment: Moment,
) -> Result<Tree, AllocError>
    ensures { IfOk result (λ t. t ≡ settled (value_at path.now tree.now) moment draft) }
{
    match held_for(tree, path, &draft, moment) {
        Some(held) => {
            let made = settle(alloc, &draft, Some(held), moment);
            drop(draft);
            made
        }
        None => settle_owned(alloc, draft, moment),
    }
}
