//! JSON values, each written as a line, and members of objects.

ghost use Rattle.std.specs.Prelude.{◌≡◌, ◌++◌, option_map, false, IfOk, OnOk, MatchOption};
ghost use Rattle.serde_json.specs.Data.{number, string, unsigned, put as with_member};
ghost use Rattle.serde_json.specs.View.{view, members_view};
ghost use Rattle.serde_json.specs.Written.{has_float};
ghost use Rattle.refspec_json.specs.Objects.{line_of, text_or_null as text_data, number_or_null as number_data};

use serde_json::{Map, Value, put};
use std::alloc::{AllocError, Global};

/// Appends a value and a newline.
pub fn write_value(alloc: Global, out: &mut Vec<u8>, value: &Value) -> Result<(), AllocError>
    ensures { OnOk result (has_float (view value.now) ≡ false
        → out.new.items ≡ out.old.items ++ line_of (view value.now)) }
{
    let text = value.to_vec(alloc)?;
    out.extend_from_slice(text.as_slice())?;
    out.push(b'\n')?;
    Ok(())
}

/// A text as a JSON string, or null for `None`.
pub fn text_or_null(alloc: Global, text: Option<&str>) -> Result<Value, AllocError>
    ensures { IfOk result (λ v. view v ≡ text_data (option_map (λ t. t.now) text.entry)) }
{
    match text {
        None => Ok(Value::Null),
        Some(text) => Value::try_from_str(alloc, text),
    }
}

/// A number, or null for `None`.
pub fn number_or_null(number: Option<usize>) -> Value
    ensures { view result ≡ number_data number }
{
    match number {
        None => Value::Null,
        Some(number) => Value::from(number),
    }
}

/// Sets a member to a text.
pub fn set_text(
    alloc: Global,
    members: &mut Map<String, Value>,
    key: &str,
    text: &str,
) -> Result<(), AllocError>
    ensures { OnOk result (members_view members.new.entries
        ≡ with_member key.now (string text.now) (members_view members.old.entries)) }
{
    put(members, alloc, key, Value::try_from_str(alloc, text)?)
}

/// Sets a member to a text, if it isn't `None`.
pub fn set_text_if(
    alloc: Global,
    members: &mut Map<String, Value>,
    key: &str,
    text: Option<&str>,
) -> Result<(), AllocError>
    ensures { OnOk result (MatchOption text.entry
        (members_view members.new.entries ≡ members_view members.old.entries)
        (λ t. members_view members.new.entries
        ≡ with_member key.now (string t.now) (members_view members.old.entries))) }
{
    match text {
        None => Ok(()),
        Some(text) => set_text(alloc, members, key, text),
    }
}

/// Sets a member to a number, if it isn't `None`.
pub fn set_number_if(
    alloc: Global,
    members: &mut Map<String, Value>,
    key: &str,
    count: Option<usize>,
) -> Result<(), AllocError>
    ensures { OnOk result (MatchOption count
        (members_view members.new.entries ≡ members_view members.old.entries)
        (λ n. members_view members.new.entries
        ≡ with_member key.now (number (unsigned n)) (members_view members.old.entries))) }
{
    match count {
        None => Ok(()),
        Some(count) => put(members, alloc, key, Value::from(count)),
    }
}
