//! How narrow and how wide columns may be.

ghost use Rattle.std.specs.Prelude.{◌≡◌, ◌<◌, ◌^◌, ℕ, [], length, map, max, slice_index, slice_index_or, true, IfOk};
ghost use Rattle.std.specs.List.{range_with_len};
ghost use Rattle.csv.specs.Records.{fields_of, text_of};
ghost use Rattle.pg_layout.specs.Records.{columns_of};
ghost use Rattle.pg_layout.specs.Text.{text_width_of};
ghost use Rattle.ruled_table.specs.Columns.{fields_at, texts_of};
ghost use Rattle.ruled_table.specs.Bounds as spec;
ghost use Rattle.ruled_table.specs.Sides.{AreSided};

use crate::bounds::limit_of;
use crate::columns::{drawn_at, told_of};
use crate::lent_rows::{LentRows, text_in};
use crate::options::Options;
use crate::sides::{is_numeric_by_side, lent_body};
use pg_config::SpannedConfig;
use pg_fit::{ColumnRange, letters_width, narrow};
use pg_layout::{Records, get_text_width};
use ruled_row::TextRow;
use std::alloc::{AllocError, Global};

/// How many terminal columns a text takes. Most texts have letters alone, whose width is found by one walk. Out of line,
/// since most texts of a column aren't measured.
#[inline(never)]
#[tactic(auto, using(crate::proofs::LentTexts::letters_found))]
pub(crate) fn text_width(text: &str) -> usize
    ensures { result ≡ text_width_of text.now }
{
    match letters_width(text) {
        Some(width) => width,
        None => get_text_width(text),
    }
}

/// The greater of a width and that of a text, which isn't measured if it has no more bytes: no text takes more terminal
/// columns than bytes.
#[inline(always)]
#[tactic(auto, using(crate::proofs::LentTexts::columns_by_bytes))]
pub(crate) fn raised_to(width: usize, text: &str) -> usize
    ensures { result ≡ max width (text_width_of text.now) }
{
    if text.len() <= width {
        return width;
    }
    text_width(text).max(width)
}

/// How many terminal columns the widest text of a column takes.
pub(crate) fn widest_text(rows: LentRows<'_>, column: usize) -> usize
    ensures { result ≡ spec.widest_text (texts_of rows.entry) column }
{
    let mut width = 0usize;
    for fields in rows.records {
        width = raised_to(width, text_in(fields, rows.places, column));
    }
    width
}

// Raises the widths of columns to those of the texts of a row.
fn raise_to_row(fields: &TextRow, places: &[Option<usize>], widths: &mut [usize])
    requires { length widths.old ≡ length places.now }
    ensures same { length widths.new ≡ length widths.old }
    ensures raised { (k : ℕ) → k < length places.now → slice_index widths.new k ≡ max (slice_index widths.old k) (text_width_of (slice_index_or (fields_at places.now (fields_of fields.now)) k [])) }
    ensures counted { length (text_of fields.now) < 2 ^ 63 }
{
    // Shows that memory holds the text of the row.
    let _text = fields.text();
    for column in 0..places.len() {
        widths[column] = raised_to(widths[column], drawn_at(fields, places[column]));
    }
}

// Raises widths of 0 to those of the widest text of each column.
fn raise_to_rows(rows: LentRows<'_>, widths: &mut [usize])
    requires many { length widths.old ≡ columns_of (texts_of rows) }
    requires zeros { (k : ℕ) → slice_index widths.old k ≡ 0 }
    ensures same { length widths.new ≡ length widths.old }
    ensures widths { widths.new ≡ map (spec.widest_text (texts_of rows.entry)) (range_with_len 0 (columns_of (texts_of rows.entry))) }
    ensures counted { spec.are_counted rows.entry.records.now ≡ true }
{
    for fields in rows.records {
        raise_to_row(fields, rows.places, widths);
    }
}

/// How many terminal columns the widest text of each column takes. Each record is read once.
pub(crate) fn widest_texts(alloc: Global, rows: LentRows<'_>) -> Result<Vec<usize>, AllocError>
    ensures widths { IfOk result (λ widths. widths.items ≡ map (spec.widest_text (texts_of rows.entry)) (range_with_len 0 (columns_of (texts_of rows.entry)))) }
    ensures counted { IfOk result (λ _. spec.are_counted rows.entry.records.now ≡ true) }
{
    let mut widths = vec![in alloc; 0; rows.count_columns()]?;
    raise_to_rows(rows, &mut widths);
    Ok(widths)
}

// How narrow a column may get before columns of numbers are cut, and how wide it is with enough room.
fn range_of(
    options: &Options,
    config: &SpannedConfig,
    fields: LentRows<'_>,
    rows: LentRows<'_>,
    column: usize,
) -> ColumnRange
    requires { AreSided options.now config.now (texts_of fields) }
    ensures { result ≡ spec.range_of options.now (texts_of fields.entry) (texts_of rows.entry) column }
{
    let limit = limit_of(told_of(&options.bounds.limits, column));
    let natural = widest_text(rows, column).saturating_add(2).min(limit);
    if !is_numeric_by_side(options, config, fields, column) {
        return ColumnRange {
            least: natural.min(4),
            natural,
        };
    }
    let body = lent_body(options, rows);
    ColumnRange {
        least: natural.min(widest_text(body, column).saturating_add(2)),
        natural,
    }
}

/// The greatest widths of the columns of these rows, which show these fields, so that those of numbers are narrowed last.
pub(crate) fn kept_limits(
    alloc: Global,
    options: &Options,
    config: &SpannedConfig,
    fields: LentRows<'_>,
    rows: LentRows<'_>,
) -> Result<Vec<usize>, AllocError>
    requires { AreSided options.now config.now (texts_of fields) }
    ensures { IfOk result (λ limits. limits.items ≡ spec.kept_limits options.now (texts_of fields.entry) (texts_of rows.entry) config.now) }
{
    let columns = rows.count_columns();
    let mut ranges = Vec::with_capacity(alloc, columns)?;
    for column in 0..columns {
        ranges.push(range_of(options, config, fields, rows, column))?;
    }
    let room = options
        .bounds
        .width()
        .saturating_sub(config.count_vertical(columns));
    narrow(alloc, room, &ranges)
}
