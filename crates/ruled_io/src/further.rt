//! Several inputs, whose rows are one table.

ghost use Rattle.std.specs.Prelude.{◌≡◌, map, IfOk, OnOk};
ghost use Rattle.std.specs.Cmp.Lexicographic.{pointwise};
ghost use Rattle.std.specs.Str.{bytes_eq};
ghost use Rattle.csv.specs.Records.{fields_of};
ghost use Rattle.ruled_io.specs.Faults.{Tells};
ghost use Rattle.ruled_io.specs.Input as spec;
ghost use Rattle.ruled_io.specs.Stream.{beneath};

use crate::fault::{FurtherFault, InputFault};
use crate::input::rows_in;
use crate::request::FurtherInput;
use ruled_json::MemberRules;
use ruled_row::TextRow;
use ruled_table::Options;
use std::alloc::{AllocError, Global};

// Whether two rows have the same fields.
fn are_alike(row: &TextRow, other: &TextRow) -> bool
    ensures { result ≡ pointwise bytes_eq (fields_of row.now) (fields_of other.now) }
{
    if row.len() != other.len() {
        return false;
    }
    for place in 0..row.len() {
        if row.get(place) != other.get(place) {
            return false;
        }
    }
    true
}

// Why rows don't belong below these, if they don't.
fn misfit(
    options: &Options,
    is_ragged: bool,
    above: &[TextRow],
    rows: &[TextRow],
) -> Option<FurtherFault>
    ensures { result ≡ spec.misfit options.now is_ragged (map fields_of above.now) (map fields_of rows.now) }
{
    let (first, row) = match (above, rows) {
        ([first, ..], [row, ..]) => (first, row),
        _ => return None,
    };
    if !names_columns(options) {
        let fits = is_ragged || first.len() == row.len();
        return if fits {
            None
        } else {
            Some(FurtherFault::Length)
        };
    }
    if are_alike(first, row) {
        return None;
    }
    Some(FurtherFault::Header)
}

// Whether row 0 of each input names the columns.
fn names_columns(options: &Options) -> bool
    ensures { result ≡ spec.names_columns options.now }
{
    options.has_header && options.names.is_empty()
}

// The rows that a further input holds, whose number is this, or why there are none.
fn rows_held(alloc: Global, number: usize, input: &FurtherInput) -> Result<Vec<TextRow>, InputFault>
    ensures rows { IfOk result (λ rows. map fields_of rows.items ≡ spec.rows_held input.now) }
    ensures fault { Tells (spec.fault_held number input.now) result }
{
    let source = &input.source;
    if source.is_database(&input.bytes) {
        let fault = FurtherFault::Database;
        return Err(InputFault::Further {
            input: number,
            fault,
        });
    }
    let plain = MemberRules::new(alloc);
    let members = source.members_or(&plain);
    match rows_in(alloc, source.known(), members, &input.bytes) {
        Ok(rows) => Ok(rows),
        Err(fault) => Err(fault.of_further(number)),
    }
}

// Appends rows, but for row 0 if it names the columns and rows are above it.
fn append(
    options: &Options,
    all: &mut Vec<TextRow>,
    mut rows: Vec<TextRow>,
) -> Result<(), AllocError>
    ensures { OnOk result (map fields_of all.new.items ≡ beneath options.now (map fields_of all.old.items) (map fields_of rows.items)) }
{
    if names_columns(options) && !all.is_empty() && !rows.is_empty() {
        let _ = rows.remove(0);
    }
    all.append(&mut rows)
}

/// The rows of all inputs, of which the first has these rows.
pub(crate) fn joined(
    alloc: Global,
    options: &Options,
    further: &[FurtherInput],
    rows: Vec<TextRow>,
) -> Result<Vec<TextRow>, InputFault>
    ensures rows { IfOk result (λ all. map fields_of all.items ≡ spec.joined options.now further.now (map fields_of rows.items)) }
    ensures fault { Tells (spec.further_fault options.now further.now (map fields_of rows.items)) result }
{
    let mut all = rows;
    for (number, input) in further.iter().enumerate() {
        let rows = rows_held(alloc, number, input)?;
        if let Some(fault) = misfit(options, input.source.is_ragged(), &all, &rows) {
            return Err(InputFault::Further {
                input: number,
                fault,
            });
        }
        append(options, &mut all, rows)?;
    }
    Ok(all)
}
