//! Rows of one value.

ghost use Rattle.std.specs.Prelude.{◌≡◌, All, Err, IsUtf8, Some, [], fold, map, option_map, string_bytes, IfOk, OnErr};
ghost use Rattle.csv.specs.Records.{fields_of};
ghost use Rattle.json.specs.Json.{document};
ghost use Rattle.json.specs.Tree.{HasNumbers};
ghost use Rattle.json.specs.Value.{value_view};
ghost use Rattle.ruled_json.specs.Faults.{Tells, but_near, first_fault, is_value, record_fault, rows_fault, text_fault, value_fault};
ghost use Rattle.ruled_json.specs.Rows.{columns_of, member_at, records_in, rows_of, rules_of, shown_record, table_of};
ghost use Rattle.ruled_json.specs.declared.fault.JsonFault.TheVariants.{Syntax};
ghost use Rattle.ruled_json.specs.declared.fault.Place.TheVariants.{Near};

use crate::fault::{JsonFault, Place};
use crate::member_names::{MemberNames, MemberRules};
use crate::objects::flat_records;
use crate::walk::offset_of_bad;
use bumpalo::Bump;
use json::{Error, Scratch, Value, is_valid};
use ruled_row::TextRow;
use std::alloc::{AllocError, Global};
use std::slice;

/// The value that a text is, or what is wrong with the text.
#[tactic(auto, using(crate::proofs::Views::not_utf8, crate::proofs::Views::not_json, crate::proofs::Views::is_json))]
pub(crate) fn value_of<'a>(
    alloc: Global,
    scratch: &'a mut Scratch,
    bytes: &'a [u8],
    place: Place,
) -> Result<Value<'a>, JsonFault>
    ensures value { IfOk result (λ value. document bytes.now ≡ Some (value_view value)) }
    ensures numbers { IfOk result (λ value. HasNumbers (value_view value)) }
    ensures fault { Tells (text_fault (but_near place) bytes.now) result }
{
    let text = match str::from_utf8(bytes) {
        Ok(text) => text,
        Err(error) => {
            return Err(JsonFault::Encoding(place.at(bytes, error.valid_up_to())));
        }
    };
    match Value::parse(alloc, text, scratch) {
        Ok(value) => Ok(value),
        Err(Error::Invalid) => {
            let offset = offset_of_bad(alloc, text);
            Err(JsonFault::Syntax(place.at(bytes, offset)))
        }
        Err(_) => Err(JsonFault::Memory),
    }
}

/// Whether bytes are one JSON value. Allocates only if they are UTF-8.
#[tactic(auto, using(crate::proofs::Views::no_text, crate::proofs::Views::text_is_value))]
pub fn is_value(alloc: Global, bytes: &[u8]) -> Result<bool, AllocError>
    ensures value { IfOk result (λ is. is ≡ is_value bytes.now) }
    ensures refused { OnErr result (IsUtf8 bytes.now) }
{
    match str::from_utf8(bytes) {
        Ok(text) => is_valid(text, &mut Scratch::new(alloc)),
        Err(_) => Ok(false),
    }
}

/// Whether a value is a record.
pub(crate) fn check_record(value: &Value<'_>, place: Place) -> Result<(), JsonFault>
    ensures { Tells (record_fault (but_near place) (value_view value.now)) result }
{
    match value {
        Value::Object(_) => Ok(()),
        _ => Err(JsonFault::NoObject(place)),
    }
}

// Whether all of these values are records.
fn check_records(values: &[Value<'_>]) -> Result<(), JsonFault>
    ensures { Tells (first_fault 1 (map value_view values.now)) result }
{
    for (at, value) in values.iter().enumerate() {
        check_record(value, Place::Record(at + 1))?;
    }
    Ok(())
}

// The member of a value at this path.
fn member_at<'v, 'a>(value: &'v Value<'a>, path: &[String]) -> Option<&'v Value<'a>>
    ensures { option_map (λ v. value_view v.now) result ≡ member_at (map string_bytes path.now) (value_view value.now) }
{
    match path {
        [] => Some(value),
        [name, behind @ ..] => member_at(value.get(name.as_str())?, behind),
    }
}

// The records of a value.
fn records_in<'v, 'a>(value: &'v Value<'a>) -> Result<&'v [Value<'a>], JsonFault>
    ensures records { IfOk result (λ records. map value_view records.now ≡ records_in (value_view value.now)) }
    ensures fault { Tells (value_fault (value_view value.now)) result }
{
    match value {
        Value::Array(values) => {
            check_records(values)?;
            Ok(values.as_slice())
        }
        Value::Object(_) => Ok(slice::from_ref(value)),
        _ => Err(JsonFault::NoRecords),
    }
}

// The columns of records.
fn columns_of(alloc: Global, records: &[Value<'_>]) -> Result<MemberNames, AllocError>
    ensures { IfOk result (λ columns. map string_bytes columns.names.keys ≡ columns_of (map value_view records.now)) }
{
    let mut columns = MemberNames::new(alloc);
    for record in records {
        columns.add_record(alloc, record)?;
    }
    Ok(columns)
}

// The rows of records, with this text for null.
#[tactic(auto, using(crate::proofs::Views::each_has_numbers))]
fn table_of(alloc: Global, null: &str, records: &[Value<'_>]) -> Result<Vec<TextRow>, AllocError>
    requires numbers { All HasNumbers (map value_view records.now) }
    ensures { IfOk result (λ rows. map fields_of rows.items ≡ table_of null.now (map value_view records.now)) }
{
    let columns = columns_of(alloc, records)?;
    let mut rows = Vec::new(alloc);
    if columns.is_empty() {
        return Ok(rows);
    }
    rows.push(columns.header(alloc)?)?;
    for record in records {
        rows.push(columns.row(alloc, null, record)?)?;
    }
    Ok(rows)
}

// The rows of records, flat if so asked, with this text for null.
fn shown_table(
    alloc: Global,
    rules: &MemberRules,
    records: &[Value<'_>],
) -> Result<Vec<TextRow>, AllocError>
    requires numbers { All HasNumbers (map value_view records.now) }
    ensures { IfOk result (λ rows. map fields_of rows.items ≡ table_of (string_bytes rules.now.null) (map (shown_record rules.now.is_flat) (map value_view records.now))) }
{
    let null = rules.null.as_str();
    if rules.is_flat {
        let texts = Bump::new(alloc);
        let flat = flat_records(alloc, &texts, records)?;
        return table_of(alloc, null, &flat);
    }
    table_of(alloc, null, records)
}

// The rows of a value, with these rules.
#[tactic(auto, using(crate::proofs::Views::those_have_numbers))]
fn rows_in(alloc: Global, rules: &MemberRules, value: &Value<'_>) -> Result<Vec<TextRow>, JsonFault>
    requires numbers { HasNumbers (value_view value.now) }
    ensures rows { IfOk result (λ rows. map fields_of rows.items ≡ table_of (string_bytes rules.now.null) (map (shown_record rules.now.is_flat) (records_in (value_view value.now)))) }
    ensures fault { Tells (value_fault (value_view value.now)) result }
{
    let records = records_in(value)?;
    let rows = shown_table(alloc, rules, records)?;
    Ok(rows)
}

/// The rows of a member of a JSON value: a header, and a row for each record. The records are the
/// objects of an array, or one object alone.
///
/// Each name of the path is that of a member of the one before; without a name the value itself has
/// the records. The columns are the names of all members of records, in the order in which they first
/// appear. A cell is the text of a string, a number as written, `true` or `false`, or an array or an
/// object as JSON without spaces. It has the text of the rules for `null`, and is empty if the record
/// lacks the member. Of
/// members with one name the last one counts, also in the path. If no record has a member, there are
/// no rows.
///
/// If records are flat, the members of an object inside come in its place, at any depth, each behind
/// the object's name and a dot, and names are compared afterwards.
///
/// The fault is that of the text, else that there is no member at the path, else that of this
/// member, else that of the first record that isn't an object. The only other fault is out of memory,
/// which no bytes need.
pub fn read_rows(
    alloc: Global,
    rules: &MemberRules,
    bytes: &[u8],
) -> Result<Vec<TextRow>, JsonFault>
    ensures rows { IfOk result (λ rows. map fields_of rows.items ≡ rows_of (rules_of rules.now) bytes.now) }
    ensures fault { Tells (rows_fault (map string_bytes rules.now.path.items) bytes.now) result }
    ensures nothing { bytes.now ≡ [] → result ≡ Err (Syntax (Near 1)) }
{
    if bytes.is_empty() {
        return Err(JsonFault::Syntax(Place::Near(1)));
    }
    let mut scratch = Scratch::new(alloc);
    let value = value_of(alloc, &mut scratch, bytes, Place::Near(0))?;
    match member_at(&value, &rules.path) {
        Some(member) => rows_in(alloc, rules, member),
        None => Err(JsonFault::NoMember),
    }
}
