//! The rows of a table, of the rows that an input holds.

ghost use Rattle.std.specs.Prelude.{◌≡◌, ◌≤◌, ◌∷◌, [], count_by, length, nat_lt, map, max, slice_index_or, string_bytes, IfOk, IfSome, ◌<◌};
ghost use Rattle.csv.specs.Records.{fields_of};
ghost use Rattle.ruled_table.specs.Arranged as spec;
ghost use Rattle.ruled_table.specs.Tables.{Tells};

use crate::columns::{field_at, first_meant};
use crate::options::{Options, Sort};
use crate::order::sorted;
use crate::view::ViewFault;
use ruled_row::TextRow;
use std::alloc::{AllocError, Global};

// The greater one of a number and of how many fields a row has.
fn longer(longest: usize, fields: &TextRow) -> usize
    ensures { result ≡ max longest (length (fields_of fields.now)) }
{
    let count = fields.len();
    if longest < count { count } else { longest }
}

// How many fields the longest row has.
fn longest(rows: &[TextRow]) -> usize
    ensures { result ≡ spec.longest (map fields_of rows.now) }
{
    let mut longest = 0;
    for fields in rows {
        longest = longer(longest, fields);
    }
    longest
}

// So many fields of a row, of which those behind its last one are empty.
fn padded_to(alloc: Global, columns: usize, fields: &TextRow) -> Result<TextRow, AllocError>
    ensures { IfOk result (λ padded. fields_of padded ≡ spec.padded_to columns (fields_of fields.now)) }
{
    let mut padded = TextRow::new(alloc);
    for place in 0..columns {
        padded.push_field(field_at(fields, place))?;
    }
    Ok(padded)
}

// The rows of an input below its header, if it has one.
fn below_header<'a>(options: &Options, rows: &'a [TextRow]) -> &'a [TextRow]
    ensures { result.now ≡ spec.below_header options.now rows.now }
{
    match rows {
        [_, records @ ..] if options.has_header && options.names.is_empty() => records,
        _ => rows,
    }
}

// How many rows have fewer fields than this.
fn count_shorter(columns: usize, rows: &[TextRow]) -> usize
    ensures { result ≡ count_by (λ fields. nat_lt (length (fields_of fields)) columns) rows.now }
{
    rows.iter().filter(|fields| fields.len() < columns).count()
}

/// How many rows of an input, which are below its header, have fewer fields than there are columns: fields of the longest
/// row, or names. It is 0 where such rows aren't padded.
pub fn padded_rows(options: &Options, rows: &[TextRow]) -> usize
    ensures { result ≡ spec.padded_rows options.now (map fields_of rows.now) }
{
    if !options.is_padded {
        return 0;
    }
    let columns = longest(rows).max(options.names.len());
    count_shorter(columns, below_header(options, rows))
}

/// Rows of which row 0 has as many fields as the longest row. Only memory can fail.
pub fn padded(alloc: Global, rows: Vec<TextRow>) -> Result<Vec<TextRow>, AllocError>
    ensures { IfOk result (λ padded. map fields_of padded.items ≡ spec.padded (map fields_of rows.items)) }
{
    if rows.is_empty() {
        return Ok(rows);
    }
    let header = padded_to(alloc, longest(&rows), &rows[0])?;
    let mut padded = rows;
    padded[0] = header;
    Ok(padded)
}

// The text of this name, or none.
fn name_at(names: &[String], place: usize) -> &str
    ensures { result.now ≡ slice_index_or (map string_bytes names.now) place [] }
{
    match names.get(place) {
        Some(name) => name.as_str(),
        None => "",
    }
}

// A row of these names, and of empty ones up to so many columns.
fn row_of_names(alloc: Global, columns: usize, names: &[String]) -> Result<TextRow, AllocError>
    ensures { IfOk result (λ row. fields_of row ≡ spec.padded_to columns (map string_bytes names.now)) }
{
    let mut row = TextRow::new(alloc);
    for place in 0..columns {
        row.push_field(name_at(names, place))?;
    }
    Ok(row)
}

// How many columns names have in front of rows.
fn columns_named(names: &[String], rows: &[TextRow]) -> usize
    ensures { result ≡ spec.columns_named (map string_bytes names.now) (map fields_of rows.now) }
{
    match rows {
        [first, ..] => longer(names.len(), first),
        [] => names.len(),
    }
}

/// Rows with these names above them, if there are names, and empty ones above further columns of row 0. Only memory can
/// fail.
pub fn named(
    alloc: Global,
    names: &[String],
    rows: Vec<TextRow>,
) -> Result<Vec<TextRow>, AllocError>
    ensures { IfOk result (λ named. map fields_of named.items ≡ spec.named (map string_bytes names.now) (map fields_of rows.items)) }
{
    if names.is_empty() {
        return Ok(rows);
    }
    let header = row_of_names(alloc, columns_named(names, &rows), names)?;
    let mut named = rows;
    named.insert(0, header)?;
    Ok(named)
}

// Rows of one length, as far as row 0 has it.
fn even(alloc: Global, options: &Options, rows: Vec<TextRow>) -> Result<Vec<TextRow>, AllocError>
    ensures { IfOk result (λ even. map fields_of even.items ≡ spec.even options.now (map fields_of rows.items)) }
{
    if options.is_padded {
        return padded(alloc, rows);
    }
    Ok(rows)
}

// The number of a row, or the sign of a header.
fn label_of(alloc: Global, number: usize) -> Result<String, AllocError>
    ensures { IfOk result (λ label. string_bytes label ≡ spec.label_of number) }
{
    if number == 0 {
        return String::from_str(alloc, "#");
    }
    format!(in alloc; "{number}")
}

// A row with its number in front.
fn with_number(alloc: Global, number: usize, fields: &TextRow) -> Result<TextRow, AllocError>
    ensures { IfOk result (λ row. fields_of row ≡ spec.label_of number ∷ fields_of fields.now) }
{
    let mut row = TextRow::new(alloc);
    row.push_field(label_of(alloc, number)?.as_str())?;
    for place in 0..fields.len() {
        row.push_field(field_at(fields, place))?;
    }
    Ok(row)
}

// Rows with their numbers in front, of which the first row has this one.
fn numbered_from(alloc: Global, first: usize, rows: &[TextRow]) -> Result<Vec<TextRow>, AllocError>
    requires { first ≤ 1 }
    ensures { IfOk result (λ numbered. map fields_of numbered.items ≡ spec.numbered_from first (map fields_of rows.now)) }
{
    let mut numbered = Vec::with_capacity(alloc, rows.len())?;
    for row in 0..rows.len() {
        numbered.push(with_number(alloc, first + row, &rows[row])?)?;
    }
    Ok(numbered)
}

// Rows with their numbers in front, if they have any.
fn numbered(
    alloc: Global,
    options: &Options,
    rows: Vec<TextRow>,
) -> Result<Vec<TextRow>, AllocError>
    ensures { IfOk result (λ numbered. map fields_of numbered.items ≡ spec.numbered options.now (map fields_of rows.items)) }
{
    if options.is_numbered {
        return numbered_from(alloc, if options.has_header { 0 } else { 1 }, &rows);
    }
    Ok(rows)
}

// Rows above which names are, of one length.
fn leveled(alloc: Global, options: &Options, rows: Vec<TextRow>) -> Result<Vec<TextRow>, AllocError>
    ensures { IfOk result (λ leveled. map fields_of leveled.items ≡ spec.leveled options.now (map fields_of rows.items)) }
{
    let rows = named(alloc, &options.names, rows)?;
    even(alloc, options, rows)
}

// The column that sorts rows, or the fault that row 0 has none. Where there are no rows, none does.
fn sort_column(alloc: Global, sort: &Sort, rows: &[TextRow]) -> Result<Option<usize>, ViewFault>
    ensures column { IfOk result (λ column. column ≡ spec.sort_column sort.now (map fields_of rows.now)) }
    ensures some { IfOk result (λ column. IfSome column (λ _. 0 < length rows.now)) }
    ensures fault { Tells (spec.missing_column sort.now (map fields_of rows.now)) result }
{
    match rows {
        [] => Ok(None),
        [header, ..] => match first_meant(alloc, header, sort.column.as_str())? {
            Some(column) => Ok(Some(column)),
            None => Err(ViewFault::Sort),
        },
    }
}

// Rows sorted by a column, if they are.
fn sorted_by_word(
    alloc: Global,
    options: &Options,
    rows: Vec<TextRow>,
) -> Result<Vec<TextRow>, ViewFault>
    ensures rows { IfOk result (λ sorted. map fields_of sorted.items ≡ spec.sorted_by_word options.now options.now.sort (map fields_of rows.items)) }
    ensures fault { Tells (spec.sort_fault_by options.now.sort (map fields_of rows.items)) result }
{
    let Some(sort) = &options.sort else {
        return Ok(rows);
    };
    match sort_column(alloc, sort, &rows)? {
        Some(column) => Ok(sorted(alloc, options, sort.is_descending, column, rows)?),
        None => Ok(rows),
    }
}

/// The rows of a table, of the rows that an input holds.
pub(crate) fn arranged(
    alloc: Global,
    options: &Options,
    rows: Vec<TextRow>,
) -> Result<Vec<TextRow>, ViewFault>
    ensures rows { IfOk result (λ arranged. map fields_of arranged.items ≡ spec.arranged options.now (map fields_of rows.items)) }
    ensures fault { Tells (spec.sort_fault options.now (map fields_of rows.items)) result }
{
    let rows = leveled(alloc, options, rows)?;
    let rows = sorted_by_word(alloc, options, rows)?;
    Ok(numbered(alloc, options, rows)?)
}
