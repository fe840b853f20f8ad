//! The statements that fill a table with rows.

ghost use Rattle.std.specs.Prelude.{◌≡◌, ◌<◌, ◌+◌, ◌^◌, ◌++◌, [], slice_index_or, map, option_map, string_bytes, true, IfOk, OnOk};
ghost use Rattle.csv.specs.Records.{fields_of};
ghost use Rattle.ruled_sql.specs.Filled as spec;

use crate::number::is_number;
use ruled_row::TextRow;
use std::alloc::{AllocError, Global};

// A number, or nothing.
fn may_be_number(text: Option<&str>) -> bool
    ensures { result ≡ spec.may_be_number (option_map (λ it. it.now) text.entry) }
{
    match text {
        Some(text) => text.is_empty() || is_number(text),
        None => true,
    }
}

// Whether the fields at this place are numbers, where they aren't empty.
fn are_numbers(records: &[TextRow], place: usize) -> bool
    ensures { result ≡ spec.are_numbers (map fields_of records.now) place }
{
    for fields in records {
        if !may_be_number(fields.get(place)) {
            return false;
        }
    }
    true
}

/// A field of a row, or an empty text where there is none.
#[tactic(auto, using(crate::proofs::Filling::field_missing, crate::proofs::Filling::field_there))]
pub(crate) fn field_at(fields: &TextRow, place: usize) -> &str
    ensures { result.now ≡ slice_index_or (fields_of fields.now) place [] }
{
    match fields.get(place) {
        Some(field) => field,
        None => "",
    }
}

// Appends a character of a name in quotes.
fn push_quoted(c: char, text: &mut String) -> Result<(), AllocError>
    ensures { OnOk result (string_bytes text.new ≡ string_bytes text.old ++ spec.quote_of c) }
{
    match c {
        '"' => text.push_str("\"\""),
        _ => text.push(c),
    }
}

// The characters of a name in quotes.
fn doubled(alloc: Global, name: &str) -> Result<String, AllocError>
    ensures { IfOk result (λ text. string_bytes text ≡ spec.doubled name.now) }
{
    let mut text = String::new(alloc);
    for c in name.chars() {
        push_quoted(c, &mut text)?;
    }
    Ok(text)
}

// A name as SQL reads it.
pub(crate) fn quoted(alloc: Global, name: &str) -> Result<String, AllocError>
    ensures { IfOk result (λ text. string_bytes text ≡ spec.quoted name.now) }
{
    format!(in alloc; "\"{}\"", doubled(alloc, name)?)
}

// The name of the column at a place.
fn column_name(alloc: Global, names: &TextRow, place: usize) -> Result<String, AllocError>
    requires { place + 1 < 2 ^ 64 }
    ensures { IfOk result (λ text. string_bytes text ≡ spec.column_name (fields_of names.now) place) }
{
    let name = field_at(names, place);
    if name.is_empty() {
        return format!(in alloc; "column{}", place + 1);
    }
    String::from_str(alloc, name)
}

// The name of the column at a place, and the type of its values.
fn column_text(
    alloc: Global,
    names: &TextRow,
    records: &[TextRow],
    place: usize,
) -> Result<String, AllocError>
    requires { place + 1 < 2 ^ 64 }
    ensures { IfOk result (λ text. string_bytes text ≡ spec.column_text (fields_of names.now) (map fields_of records.now) place) }
{
    let name = column_name(alloc, names, place)?;
    let kind = if are_numbers(records, place) {
        "NUMERIC"
    } else {
        "TEXT"
    };
    format!(in alloc; "{} {kind}", quoted(alloc, name.as_str())?)
}

/// The columns of a table.
pub(crate) fn columns_text(
    alloc: Global,
    names: &TextRow,
    records: &[TextRow],
) -> Result<String, AllocError>
    ensures { IfOk result (λ text. string_bytes text ≡ spec.columns_text (fields_of names.now) (map fields_of records.now)) }
{
    let mut columns = Vec::new(alloc);
    for place in 0..names.len() {
        let column = column_text(alloc, names, records, place)?;
        columns.push(column)?;
    }
    columns.join(alloc, ", ")
}

/// The statement that makes an empty table of these columns.
pub(crate) fn create_text(alloc: Global, table: &str, columns: &str) -> Result<String, AllocError>
    ensures { IfOk result (λ text. string_bytes text ≡ spec.create_text table.now columns.now) }
{
    format!(in alloc; "CREATE TABLE {} ({columns})", quoted(alloc, table)?)
}

/// The statement that puts a row of so many values into a table.
pub(crate) fn insert_text(alloc: Global, table: &str, count: usize) -> Result<String, AllocError>
    ensures { IfOk result (λ text. string_bytes text ≡ spec.insert_text table.now count) }
{
    let others = "?, ".repeat(alloc, count.saturating_sub(1))?;
    format!(in alloc; "INSERT INTO {} VALUES ({others}?)", quoted(alloc, table)?)
}

/// The statement that changes no row.
pub(crate) fn settle_text(alloc: Global, table: &str) -> Result<String, AllocError>
    ensures { IfOk result (λ text. string_bytes text ≡ spec.settle_text table.now) }
{
    format!(in alloc; "DELETE FROM {} WHERE 0", quoted(alloc, table)?)
}
