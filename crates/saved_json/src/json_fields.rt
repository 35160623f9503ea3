//! Whether the fields of a record hold what they should. A field is told by how many the record has, its position
//! among them, and its name.
//!
//! Definitions: `JsonFields`.

ghost use Rattle.std.specs.Prelude.{◌≡◌, Some, None, IfSome, IsTrue, option_map};
ghost use Rattle.json.specs.Json.{boolean};
ghost use Rattle.json.specs.Value.{value_view, members_view};
ghost use Rattle.saved_json.specs.JsonFields.{field, natural, the_only, values_named, whole};

use json::Value;

/// Whether a field holds this number, written in full.
pub fn holds_number(
    json: &Value<'_>,
    count: usize,
    position: usize,
    name: &str,
    number: u64,
) -> bool
    ensures { IsTrue result → field count position name.now (value_view json.now) ≡ Some (natural number) }
{
    let Some(Value::Number(text)) = field(json, count, position, name) else {
        return false;
    };
    let mut digits = itoa::Buffer::new();
    *text == digits.format(number)
}

/// Whether a field holds this number.
pub fn holds_natural(
    json: &Value<'_>,
    count: usize,
    position: usize,
    name: &str,
    number: u16,
) -> bool
    ensures { IsTrue result → field count position name.now (value_view json.now) ≡ Some (natural number) }
{
    holds_number(json, count, position, name, u64::from(number))
}

/// Whether a field holds this number, which may have a minus sign.
pub fn holds_whole(json: &Value<'_>, count: usize, position: usize, name: &str, number: i32) -> bool
    ensures { IsTrue result → field count position name.now (value_view json.now) ≡ Some (whole number) }
{
    let mut digits = itoa::Buffer::new();
    match field(json, count, position, name) {
        Some(Value::Number(text)) => *text == digits.format(number),
        _ => false,
    }
}

/// Whether a field holds this truth.
pub fn holds_boolean(
    json: &Value<'_>,
    count: usize,
    position: usize,
    name: &str,
    truth: bool,
) -> bool
    ensures { IsTrue result → field count position name.now (value_view json.now) ≡ Some (boolean truth) }
{
    match field(json, count, position, name) {
        Some(Value::Bool(found)) => *found == truth,
        _ => false,
    }
}

/// The value of a field.
pub fn field<'v, 'a>(
    json: &'v Value<'a>,
    count: usize,
    position: usize,
    name: &str,
) -> Option<&'v Value<'a>>
    ensures { IfSome result (λ value.
        field count position name.now (value_view json.now) ≡ Some (value_view value.now)) }
{
    match json {
        Value::Object(members) => only_named(members.as_slice(), name),
        Value::Array(items) if items.len() == count => json.at(position),
        _ => None,
    }
}

/// The value of the only member of that name.
fn only_named<'v, 'a>(members: &'v [(&'a str, Value<'a>)], name: &str) -> Option<&'v Value<'a>>
    ensures { IfSome result (λ value.
        the_only (values_named name.now (members_view members.now)) ≡ Some (value_view value.now)) }
{
    let mut only = None;
    for member in members {
        if member.0 == name {
            if only.is_some() {
                return None;
            }
            only = Some(&member.1);
        }
    }
    only
}
