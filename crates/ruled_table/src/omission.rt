//! The columns in the middle of a table that are left out because a line has no room for them.

ghost use Rattle.std.specs.Prelude.{◌≡◌, ◌<◌, ◌≤◌, None, length, vec_len, string_bytes, IfOk};
ghost use Rattle.ruled_table.specs.Columns.{texts_of};
ghost use Rattle.ruled_table.specs.Layouts as spec;

use crate::bounds::Bounds;
use crate::columns::told_of;
use crate::lent_rows::LentRows;
use crate::options::Options;
use crate::ranges::widest_text;
use crate::table::look_config;
use pg_config::SpannedConfig;
use std::alloc::{AllocError, Global};

// The width within which columns are left out, if they are.
fn omitting_width(options: &Options) -> Option<u32>
    ensures { result ≡ spec.omitting_width options.now }
{
    let is_for_all = options.sides.len() <= 1 && options.bounds.limits.len() <= 1;
    if options.is_omitting && is_for_all {
        options.bounds.width
    } else {
        None
    }
}

// The most terminal columns that the texts of a column need to be shown.
fn most_needed(bounds: &Bounds) -> u8
    ensures { result ≡ spec.most_needed bounds.now }
{
    match told_of(&bounds.limits, 0) {
        Some(limit) if limit < 12 => limit as u8,
        _ => 12,
    }
}

// The terminal columns that the texts of a column need, at most so many.
fn needed_width(rows: LentRows<'_>, most: u8, column: usize) -> u8
    ensures { result ≡ spec.needed_width most (texts_of rows.entry) column }
{
    widest_text(rows, column).min(most as usize) as u8
}

// The terminal columns that the texts of each column need.
fn needed_widths(alloc: Global, rows: LentRows<'_>, most: u8) -> Result<Vec<u8>, AllocError>
    ensures { IfOk result (λ widths. widths.items ≡ spec.needed_widths most (texts_of rows.entry) (length rows.entry.places.now)) }
{
    let mut widths = Vec::with_capacity(alloc, rows.places.len())?;
    for column in 0..rows.places.len() {
        widths.push(needed_width(rows, most, column))?;
    }
    Ok(widths)
}

// The column that is shown after so many: the first one, the last one, the second one, and so on.
fn turn(columns: usize, shown: usize) -> usize
    requires { shown < columns }
    ensures same { result ≡ spec.turn columns shown }
    ensures inside { result < columns }
{
    if shown.is_multiple_of(2) {
        shown / 2
    } else {
        columns - 1 - shown / 2
    }
}

// How many columns fit in a line beside so many columns of `…`, at most so many.
fn fitting(config: &SpannedConfig, widths: &[u8], total: u32, signs: usize, most: usize) -> usize
    requires signs { signs ≤ 1 }
    requires most { most ≤ length widths.now }
    ensures { result ≡ spec.fitting config.now widths.now total signs most }
{
    let mut line = 0usize;
    for shown in 0..most {
        line += widths[turn(widths.len(), shown)] as usize + 2;
        let beside = config.count_vertical(shown + 1 + signs);
        if (line + 3 * signs).saturating_add(beside) > total as usize {
            return shown;
        }
    }
    most
}

// How many columns of these widths are shown within a total: all that fit, and at least one.
fn shown_within(config: &SpannedConfig, widths: &[u8], total: u32) -> usize
    ensures { result ≡ spec.shown_within config.now widths.now total }
{
    let columns = widths.len();
    if fitting(config, widths, total, 0, columns) == columns {
        return columns;
    }
    fitting(config, widths, total, 1, columns.saturating_sub(1)).max(1)
}

/// How many columns of these rows are shown.
pub(crate) fn shown_columns(
    alloc: Global,
    options: &Options,
    rows: LentRows<'_>,
) -> Result<usize, AllocError>
    ensures { IfOk result (λ shown. shown ≡ spec.shown_columns options.now (texts_of rows.entry) (length rows.entry.places.now)) }
{
    let Some(total) = omitting_width(options) else {
        return Ok(rows.places.len());
    };
    let widths = needed_widths(alloc, rows, most_needed(&options.bounds))?;
    let config = look_config(alloc, options.look)?;
    Ok(shown_within(&config, &widths, total))
}

/// Leaves out the places in the middle, so that so many stay, and one of `…` is between them.
pub(crate) fn abridge(places: &mut Vec<Option<usize>>, shown: usize)
    requires { shown < vec_len places.old }
    ensures { places.new.items ≡ spec.abridged shown None places.old.items }
{
    let (front, end) = (shown - shown / 2, places.len() - shown / 2);
    places[front] = None;
    places.drain(front + 1..end);
}

/// The line below a table of which so many columns are shown, and a line feed.
pub(crate) fn note_of(alloc: Global, columns: usize, shown: usize) -> Result<String, AllocError>
    ensures { IfOk result (λ note. string_bytes note ≡ spec.note_of columns shown) }
{
    format!(in alloc; "{columns} columns, {shown} shown\n")
}
