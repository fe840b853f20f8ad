//! The look of a table whose first rows are known, and the texts of the others within its columns.

ghost use Rattle.std.specs.Cow.{cow_str_bytes};
ghost use Rattle.std.specs.Prelude.{◌≡◌, ◌<◌, ◌≤◌, ◌+◌, ◌-◌, ◌^◌, ℕ, max, length, slice_index, slice_index_or, string_bytes, sum_by, true, None, IfOk, IfSome};
ghost use Rattle.std.specs.List.{range_with_len};
ghost use Rattle.pg_table.specs.Overflowing.{beside_columns, limit_of};
ghost use Rattle.pg_layout.specs.Text.{text_width_of};
ghost use Rattle.pg_fit.specs.Wrapping.{wrapped};
ghost use Rattle.pg_table.specs.Numbers.{is_number};
ghost use Rattle.ruled_table.specs.Tables.{Tells, totals_of};
ghost use Rattle.ruled_table.specs.Columns.{texts_of};
ghost use Rattle.ruled_table.specs.Sides.{AreSided};
ghost use Rattle.ruled_table.specs.Widths as spec;

use crate::bounds::Bounds;
use crate::lent_rows::{LentRows, text_in};
use crate::options::Options;
use crate::ranges::{kept_limits, text_width, widest_texts};
use crate::table::{line_in, set_line_below, sided_config};
use crate::view::{ViewFault, fault_in};
use pg_config::SpannedConfig;
use pg_fit::{Breaking, cut, is_printable, least_width, wrap};
use pg_layout::{ConstantDimension, ExactRecords, NoColors, Records, get_text_width};
use pg_table::numbers::is_number;
use pg_table::{NaturalTable, Overflow, TableFault};
use std::alloc::{AllocError, Global};
use std::borrow::CowStr;

/// The look of the table whose first rows are these: a header alone has no line below it.
pub fn first_config(
    alloc: Global,
    options: &Options,
    rows: LentRows<'_>,
) -> Result<SpannedConfig, AllocError>
    ensures { IfOk result (λ config. config ≡ spec.first_config options.now (texts_of rows.entry)) }
{
    let mut config = sided_config(alloc, options, rows)?;
    let (count, columns) = (rows.count_rows(), rows.count_columns());
    set_line_below(&mut config, line_in(options), count, columns)?;
    Ok(config)
}

// Adds a space at each side of texts to the widths of their columns, unless one then exceeds `usize::MAX`.
fn add_spaces(widths: &mut [usize]) -> bool
    ensures same { length widths.new ≡ length widths.old }
    ensures spaced { result ≡ true → (k : ℕ) → k < length widths.old → slice_index widths.new k ≡ slice_index widths.old k + 2 }
    ensures counted { result ≡ true → (k : ℕ) → k < length widths.old → slice_index widths.old k + 2 < 2 ^ 64 }
{
    for k in 0..widths.len() {
        match widths[k].checked_add(2) {
            Some(width) => widths[k] = width,
            None => return false,
        }
    }
    true
}

// The greatest width of a column.
fn limit_at(limits: &[usize], column: usize) -> usize
    ensures { result ≡ limit_of limits.now column }
{
    limits.get(column).copied().unwrap_or(usize::MAX)
}

// How wide so many columns may be together in a line.
fn room_in(config: &SpannedConfig, total: usize, columns: usize) -> usize
    requires { columns < usize.MAX }
    ensures { result ≡ total - beside_columns config.now columns }
{
    let margin = config.get_margin();
    total
        .saturating_sub(config.count_vertical(columns))
        .saturating_sub(margin.left.size)
        .saturating_sub(margin.right.size)
}

// The natural widths of the columns of these records, or `None` if they have none or one exceeds `usize::MAX`. Each text
// is measured once.
fn spaced_widths(alloc: Global, records: LentRows<'_>) -> Result<Option<Vec<usize>>, AllocError>
    ensures { IfOk result (λ found. IfSome found (λ widths. spec.AreSpaced records.entry widths.items)) }
{
    let mut widths = widest_texts(alloc, records)?;
    if records.count_columns() > 0 && add_spaces(&mut widths) {
        return Ok(Some(widths));
    }
    Ok(None)
}

// The natural sizes of a table of these records: the widths of its columns. Rows have no heights here, since each is as
// high as its highest cell when it is drawn.
fn natural_sizes(
    alloc: Global,
    config: &SpannedConfig,
    records: LentRows<'_>,
) -> Result<ConstantDimension, TableFault>
    requires { spec.HasSpaces config.now }
    ensures widths { IfOk result (λ sizes. sizes.0.items ≡ spec.natural_widths config.now (texts_of records.entry)) }
    ensures fault { spec.TellsTable (spec.natural_fault config.now (texts_of records.entry)) result }
{
    let found = spaced_widths(alloc, records)?;
    match found {
        Some(widths) => Ok(ConstantDimension(widths, Vec::new(alloc))),
        None => NaturalTable::new(records, config, &NoColors).natural_dimension(alloc),
    }
}

// The greater of a width and that of a text that is wrapped in so many columns, or `None` if a character has no room there.
// A text isn't wrapped if no line of it can be wider than the width.
fn raised_to_wrapped(
    alloc: Global,
    breaking: Breaking,
    room: usize,
    width: usize,
    text: &str,
) -> Result<Option<usize>, AllocError>
    requires { width ≤ room }
    ensures width { IfOk result (λ found. IfSome found (λ wider. wider ≡ max width (text_width_of (wrapped breaking room text.now)))) }
    ensures room { IfOk result (λ found. IfSome found (λ wider. wider ≤ room)) }
    ensures fits { IfOk result (λ found. IfSome found (λ wider. spec.HasRoom breaking room text.now)) }
{
    if text.len() <= width {
        return Ok(Some(width));
    }
    let own = text_width(text);
    if own <= room {
        return Ok(Some(own.max(width)));
    }
    if least_width(text, breaking) > room {
        return Ok(None);
    }
    if width == room {
        return Ok(Some(width));
    }
    let lines = wrap(alloc, text, room, breaking)?;
    Ok(Some(get_text_width(&lines).max(width)))
}

// How wide a column of a natural width is within a limit: as wide, or, if that is more, as its texts are that are wrapped
// within it, with a space at each side. It is `None` if a character has no room there.
fn wrapped_width(
    alloc: Global,
    breaking: Breaking,
    limit: usize,
    rows: LentRows<'_>,
    column: usize,
    natural: usize,
) -> Result<Option<usize>, AllocError>
    ensures { IfOk result (λ found. IfSome found (λ width. spec.IsLowered breaking limit (texts_of rows.entry) column natural width)) }
{
    if natural <= limit {
        return Ok(Some(natural));
    }
    if limit < 2 {
        return Ok(None);
    }
    let room = limit - 2;
    let mut width = 0;
    for fields in rows.records {
        let text = text_in(fields, rows.places, column);
        let found = raised_to_wrapped(alloc, breaking, room, width, text)?;
        match found {
            Some(wider) => width = wider,
            None => return Ok(None),
        }
    }
    Ok(Some(width + 2))
}

// Lowers the widths of the columns that are wider than their limits to those of their texts, wrapped within these. It is
// false if a character has no room there, or if the columns, each as wide as its limit allows, don't fit in the room.
fn wrap_columns(
    alloc: Global,
    breaking: Breaking,
    room: usize,
    limits: &[usize],
    rows: LentRows<'_>,
    widths: &mut [usize],
) -> Result<bool, AllocError>
    ensures same { length widths.new ≡ length widths.old }
    ensures fits { IfOk result (λ done. done ≡ true → sum_by (spec.lowered widths.old limits.now) (range_with_len 0 (length widths.old)) ≤ room) }
    ensures lowered { IfOk result (λ done. done ≡ true
        → (k : ℕ) → k < length widths.old → spec.IsLowered breaking (limit_of limits.now k) (texts_of rows.entry) k (slice_index widths.old k) (slice_index widths.new k)) }
{
    let mut left = room;
    for column in 0..widths.len() {
        let limit = limit_at(limits, column);
        let natural = widths[column];
        let lowered = natural.min(limit);
        if lowered > left {
            return Ok(false);
        }
        left -= lowered;
        let found = wrapped_width(alloc, breaking, limit, rows, column, natural)?;
        match found {
            Some(width) => widths[column] = width,
            None => return Ok(false),
        }
    }
    Ok(true)
}

// The widths of a table of these records within a total width and limits, if its texts are wrapped and each character of
// them has room there.
fn wrapped_widths(
    alloc: Global,
    bounds: &Bounds,
    config: &SpannedConfig,
    limits: &[usize],
    records: LentRows<'_>,
) -> Result<Option<Vec<usize>>, AllocError>
    requires { spec.HasSpaces config.now }
    ensures widths { IfOk result (λ found. IfSome found (λ widths. (λ column. slice_index_or widths.items column 0) ≡ spec.widths_within bounds.now limits.now config.now (texts_of records.entry))) }
    ensures fault { IfOk result (λ found. IfSome found (λ widths. spec.fault_within bounds.now limits.now config.now (texts_of records.entry) ≡ None)) }
{
    let Overflow::Wrap(breaking) = bounds.overflow else {
        return Ok(None);
    };
    let found = spaced_widths(alloc, records)?;
    let Some(mut widths) = found else {
        return Ok(None);
    };
    let room = room_in(config, bounds.width(), widths.len());
    let are_wrapped = wrap_columns(alloc, breaking, room, limits, records, &mut widths)?;
    if !are_wrapped {
        return Ok(None);
    }
    Ok(Some(widths))
}

// The sizes of a table of these records, which show these fields, within the bounds that are set. Where each column has
// room for its characters, its texts are wrapped only until one is as wide as it may be.
fn fitted_sizes(
    alloc: Global,
    options: &Options,
    config: &SpannedConfig,
    fields: LentRows<'_>,
    records: LentRows<'_>,
) -> Result<ConstantDimension, TableFault>
    requires spaces { spec.HasSpaces config.now }
    requires sided { AreSided options.now config.now (texts_of fields) }
    ensures fault { spec.TellsTable (spec.fitted_fault options.now config.now (texts_of fields.entry) (texts_of records.entry)) result }
    ensures widths { IfOk result (λ sizes. spec.widths_in sizes ≡ spec.fitted_widths options.now config.now (texts_of fields.entry) (texts_of records.entry)) }
{
    let bounds = &options.bounds;
    let limits = kept_limits(alloc, options, config, fields, records)?;
    let found = wrapped_widths(alloc, bounds, config, &limits, records)?;
    if let Some(widths) = found {
        return Ok(ConstantDimension(widths, Vec::new(alloc)));
    }
    let table = NaturalTable::new(records, config, &NoColors);
    let fitted = table.within_limits(alloc, bounds.width(), &limits, bounds.overflow)?;
    fitted.natural_dimension(alloc)
}

// The sizes of a table of these records, which show these fields, within its bounds.
fn sizes_of(
    alloc: Global,
    options: &Options,
    config: &SpannedConfig,
    fields: LentRows<'_>,
    records: LentRows<'_>,
) -> Result<ConstantDimension, TableFault>
    requires spaces { spec.HasSpaces config.now }
    requires sided { AreSided options.now config.now (texts_of fields) }
    ensures widths { IfOk result (λ sizes. spec.widths_in sizes ≡ spec.widths_of options.now config.now (texts_of fields.entry) (texts_of records.entry)) }
    ensures fault { spec.TellsTable (spec.widths_fault options.now config.now (texts_of fields.entry) (texts_of records.entry)) result }
{
    if options.bounds.are_told() {
        return fitted_sizes(alloc, options, config, fields, records);
    }
    natural_sizes(alloc, config, records)
}

/// The sizes that a table of these rows, which show these fields, has within the bounds.
pub fn sizes_of_rows(
    alloc: Global,
    options: &Options,
    config: &SpannedConfig,
    fields: LentRows<'_>,
    rows: LentRows<'_>,
) -> Result<ConstantDimension, ViewFault>
    requires spaces { spec.HasSpaces config.now }
    requires sided { AreSided options.now config.now (texts_of fields) }
    ensures widths { IfOk result (λ sizes. spec.widths_in sizes ≡ spec.widths_of options.now config.now (texts_of fields.entry) (texts_of rows.entry)) }
    ensures fault { Tells (totals_of (spec.widths_fault options.now config.now (texts_of fields.entry) (texts_of rows.entry))) result }
{
    sizes_of(alloc, options, config, fields, rows).map_err(fault_in)
}

// A text, unchanged if it takes at most so many columns, else cut to them.
fn narrowed(alloc: Global, width: usize, text: String) -> Result<String, AllocError>
    ensures { IfOk result (λ narrow. string_bytes narrow ≡ spec.narrowed width (string_bytes text)) }
{
    if get_text_width(&text) <= width {
        return Ok(text);
    }
    cut(alloc, &text, width, "…")
}

// A text, wrapped in so many columns, and cut to them where a character of it has no room there. Each of printable ASCII
// has room, so the lines of such a text aren't measured.
#[tactic(auto, using(crate::proofs::Tables::broken_printable))]
fn broken(alloc: Global, breaking: Breaking, width: usize, text: &str) -> Result<String, AllocError>
    ensures { IfOk result (λ broken. string_bytes broken ≡ spec.narrowed width (wrapped breaking width text.now)) }
{
    let lines = wrap(alloc, text, width, breaking)?;
    if width > 0 && is_printable(text.as_bytes()) {
        return Ok(lines);
    }
    narrowed(alloc, width, lines)
}

// Whether a text is a number. Most others begin with a letter, by which they are found.
#[tactic(auto, using(crate::proofs::LentTexts::no_number_by_letter))]
fn is_figure(text: &str) -> bool
    ensures { result ≡ is_number text.now }
{
    match text.as_bytes() {
        [first, ..] if first.is_ascii_alphabetic() => false,
        _ => is_number(text),
    }
}

// A text that takes more columns, wrapped, or cut. A number is cut, so that nobody takes its first line for all of it;
// of spaces behind it those without room go first.
fn overflowed(
    alloc: Global,
    overflow: Overflow<'_>,
    width: usize,
    text: &str,
) -> Result<String, AllocError>
    ensures { IfOk result (λ shown. string_bytes shown ≡ spec.overflowed overflow.entry width text.now) }
{
    let bare = text.trim_end();
    if is_figure(bare) {
        if get_text_width(bare) <= width {
            return cut(alloc, text, width, "");
        }
        return cut(alloc, text, width, "…");
    }
    match overflow {
        Overflow::Wrap(breaking) => broken(alloc, breaking, width, text),
        Overflow::Cut(tail) => cut(alloc, text, width, tail),
    }
}

/// A text within so many columns: lent unchanged if it takes no more, else wrapped, or cut, as a number always is.
pub(crate) fn lent_within<'a>(
    alloc: Global,
    overflow: Overflow<'_>,
    width: usize,
    text: CowStr<'a>,
) -> Result<CowStr<'a>, AllocError>
    ensures { IfOk result (λ shown. cow_str_bytes shown ≡ spec.text_within overflow.entry width (cow_str_bytes text.entry)) }
{
    if get_text_width(text.as_str()) <= width {
        return Ok(text);
    }
    let shown = overflowed(alloc, overflow, width, text.as_str())?;
    Ok(CowStr::Owned(shown))
}

/// How many columns the texts of a column may take; a space is at each side.
pub fn room_of(widths: &ConstantDimension, column: usize) -> usize
    ensures { result ≡ spec.room_of (spec.widths_in widths.now) column }
{
    widths.0.get(column).copied().unwrap_or(0).saturating_sub(2)
}
