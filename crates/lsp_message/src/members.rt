//! The members of a JSON object, moved out of it one by one, so that no text is copied.

ghost use Rattle.std.specs.Prelude.{◌≡◌, ℕ, List, false, option_map, string_bytes};
ghost use Rattle.std.specs.Str.{bytes_eq};
ghost use Rattle.serde_json.specs.Find.{get_member};
ghost use Rattle.serde_json.specs.View.{view, items_view, members_view};
ghost use Rattle.lsp_message.specs.Values.{member_at, text_in, members_in, array_in};

use serde_json::{Map, Value};

/// Takes the member of this name out of an object, if there is one. The other members stay.
pub(crate) fn take(members: &mut Map<String, Value>, name: &str) -> Option<Value>
    ensures value { option_map view result
        ≡ get_member name.now (members_view members.old.entries) }
    ensures others { (q : List ℕ) → bytes_eq name.now q ≡ false
        → get_member q (members_view members.new.entries)
        ≡ get_member q (members_view members.old.entries) }
{
    members.remove(name)
}

/// Returns the text of a string; `None` for any other value.
pub(crate) fn text(value: Option<Value>) -> Option<String>
    ensures { option_map string_bytes result ≡ text_in (option_map view value) }
{
    match value {
        Some(Value::String(text)) => Some(text),
        _ => None,
    }
}

/// Returns the members of an object; `None` for any other value.
pub(crate) fn object(value: Option<Value>) -> Option<Map<String, Value>>
    ensures { option_map (λ m. members_view m.entries) result ≡ members_in (option_map view value) }
{
    match value? {
        Value::Object(members) => Some(members),
        _ => None,
    }
}

/// Returns the items of an array; `None` for any other value.
pub(crate) fn array(value: Option<Value>) -> Option<Vec<Value>>
    ensures { option_map (λ v. items_view v.items) result ≡ array_in (option_map view value) }
{
    match value? {
        Value::Array(items) => Some(items),
        _ => None,
    }
}

/// Returns the member of this name, moved out of an object; `None` for any other value.
pub(crate) fn member(value: Option<Value>, name: &str) -> Option<Value>
    ensures { option_map view result ≡ member_at name.now (option_map view value) }
{
    take(&mut object(value)?, name)
}

/// Returns a reference to the member of this name.
pub(crate) fn find<'v>(members: &'v Map<String, Value>, name: &str) -> Option<&'v Value>
    ensures { option_map (λ v. view v.now) result
        ≡ get_member name.now (members_view members.now.entries) }
{
    members.get(name)
}
