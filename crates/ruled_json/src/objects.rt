//! Flat records: the members of an object inside come in its place.

ghost use Rattle.std.specs.Prelude.{◌≡◌, ◌++◌, All, IfOk, OnOk, map};
ghost use Rattle.json.specs.Print.{print};
ghost use Rattle.json.specs.Tree.{HasNumbers, MembersHaveNumbers, json_tokens};
ghost use Rattle.json.specs.Value.{members_view, value_view};
ghost use Rattle.ruled_json.specs.Rows.{flat_member, flat_members, flat_record, joined};

use bumpalo::Bump;
use json::{Value, to_vec};
use std::alloc::{AllocError, Global};

// A text behind another one.
fn joined_text<'n>(
    alloc: Global,
    texts: &'n Bump,
    front: &str,
    text: &str,
) -> Result<&'n str, AllocError>
    ensures { IfOk result (λ joined. joined.now ≡ front.now ++ text.now) }
{
    if front.is_empty() {
        return texts.try_alloc_str(text);
    }
    let mut joined = String::from_str(alloc, front)?;
    joined.push_str(text)?;
    texts.try_alloc_str(joined.as_str())
}

// The text of a value.
fn text_of<'n>(alloc: Global, texts: &'n Bump, value: &Value<'_>) -> Result<&'n str, AllocError>
    requires { HasNumbers (value_view value.now) }
    ensures { IfOk result (λ text. text.now ≡ print (json_tokens (value_view value.now))) }
{
    let bytes = to_vec(alloc, value)?;
    texts.try_alloc_str(unsafe { str::from_utf8_unchecked(&bytes) })
}

// Appends the member of this name, or the members that come in its place.
#[cycle(flat)]
fn push_flat<'n>(
    alloc: Global,
    texts: &'n Bump,
    name: &'n str,
    value: &Value<'_>,
    flat: &mut Vec<(&'n str, Value<'n>)>,
) -> Result<(), AllocError>
    requires numbers { HasNumbers (value_view value.now) }
    ensures { OnOk result (members_view flat.new.items ≡ joined (members_view flat.old.items) (flat_member name.now (value_view value.now))) }
{
    let leaf = match value {
        Value::Object(members) => {
            let front = joined_text(alloc, texts, name, ".")?;
            return push_each(alloc, texts, front, members.as_slice(), flat);
        }
        Value::Array(_) => Value::String(text_of(alloc, texts, value)?),
        Value::Null => Value::Null,
        Value::Bool(truth) => Value::Bool(*truth),
        Value::Number(text) => Value::Number(texts.try_alloc_str(text)?),
        Value::String(text) => Value::String(texts.try_alloc_str(text)?),
    };
    flat.push((name, leaf))?;
    Ok(())
}

// Appends the flat members of an object, each behind this text.
#[cycle(flat)]
fn push_each<'n>(
    alloc: Global,
    texts: &'n Bump,
    front: &str,
    members: &[(&str, Value<'_>)],
    flat: &mut Vec<(&'n str, Value<'n>)>,
) -> Result<(), AllocError>
    requires numbers { MembersHaveNumbers (members_view members.now) }
    ensures { OnOk result (members_view flat.new.items ≡ joined (members_view flat.old.items) (flat_members front.now (members_view members.now))) }
{
    for member in members {
        let name = joined_text(alloc, texts, front, member.0)?;
        push_flat(alloc, texts, name, &member.1, flat)?;
    }
    Ok(())
}

/// A flat record, whose texts are in this arena.
#[tactic(auto, using(crate::proofs::Flat::of_no_object))]
pub(crate) fn flat_record<'n>(
    alloc: Global,
    texts: &'n Bump,
    value: &Value<'_>,
) -> Result<Value<'n>, AllocError>
    requires numbers { HasNumbers (value_view value.now) }
    ensures { IfOk result (λ flat. value_view flat ≡ flat_record (value_view value.now)) }
{
    let mut flat = Vec::new(alloc);
    let Value::Object(members) = value else {
        return Ok(Value::Object(flat));
    };
    push_each(alloc, texts, "", members.as_slice(), &mut flat)?;
    Ok(Value::Object(flat))
}

/// The flat records of these, whose texts are in this arena.
#[tactic(auto, using(crate::proofs::Views::each_has_numbers, crate::proofs::Flat::next_value))]
pub(crate) fn flat_records<'n>(
    alloc: Global,
    texts: &'n Bump,
    records: &[Value<'_>],
) -> Result<Vec<Value<'n>>, AllocError>
    requires numbers { All HasNumbers (map value_view records.now) }
    ensures { IfOk result (λ flat. map value_view flat.items ≡ map flat_record (map value_view records.now)) }
{
    let mut flat = Vec::new(alloc);
    for record in records {
        flat.push(flat_record(alloc, texts, record)?)?;
    }
    Ok(flat)
}
