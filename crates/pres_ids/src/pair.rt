//! Lists of two items.

ghost use Rattle.std.specs.Prelude.{◌≡◌, MatchOption, Some, None};
ghost use Rattle.serde_json.specs.View.{view};
ghost use Rattle.pres_ids.specs.Forms.{pair_of};

use serde_json::Value;

/// The two items of a JSON list of two, none of another value.
pub fn pair_of(value: &Value) -> Option<(&Value, &Value)>
    ensures { MatchOption result
        (pair_of (view value.now) ≡ None)
        (λ pair. pair_of (view value.now) ≡ Some (view pair.0.now, view pair.1.now)) }
{
    let items = value.as_array()?;
    let [first, second] = items.as_slice() else {
        return None;
    };
    Some((first, second))
}
