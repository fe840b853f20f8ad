//! The alignment of columns.

ghost use Rattle.std.specs.Prelude.{◌≡◌, [], slice_index_or, OnOk};
ghost use Rattle.std.specs.List.{list_all};
ghost use Rattle.csv.specs.Records.{fields_of};
ghost use Rattle.pg_layout.specs.Records.{columns_of};
ghost use Rattle.ruled_table.specs.Columns.{fields_at, texts_of};
ghost use Rattle.ruled_table.specs.Sides as spec;

use crate::columns::told_of;
use crate::lent_rows::{LentRows, text_in};
use crate::options::{Options, Side};
use pg_config::SpannedConfig;
use pg_layout::{AlignmentHorizontal, Entity, Position, Records};
use pg_table::numbers::is_number_or_blank;
use ruled_row::TextRow;
use std::alloc::AllocError;

/// The text `⋮`, in place of those of rows that are left out.
pub(crate) const GAP: &str = "⋮";

/// Whether a text counts as blank, since it is listed.
pub(crate) fn is_missing(options: &Options, text: &str) -> bool
    ensures { result ≡ spec.is_missing options.now text.now }
{
    options.missing.iter().any(|word| text == word.as_str())
}

/// Whether a text is a number, blank, `⋮`, or counts as blank.
pub(crate) fn is_numeric_text(options: &Options, text: &str) -> bool
    ensures { result ≡ spec.is_numeric_text options.now text.now }
{
    is_number_or_blank(text) || text == GAP || is_missing(options, text)
}

// Whether the text of a row in this column is one.
fn has_number(options: &Options, fields: &TextRow, places: &[Option<usize>], column: usize) -> bool
    ensures { result ≡ spec.is_numeric_text options.now (slice_index_or (fields_at places.now (fields_of fields.now)) column []) }
{
    is_numeric_text(options, text_in(fields, places, column))
}

// Whether each row has a number in the column, or a text that counts as blank.
fn have_numbers(
    options: &Options,
    records: &[TextRow],
    places: &[Option<usize>],
    column: usize,
) -> bool
    ensures { result ≡ list_all (λ fields. spec.is_numeric_text options.now (slice_index_or (fields_at places.now (fields_of fields)) column [])) records.now }
{
    records
        .iter()
        .all(|fields| has_number(options, fields, places, column))
}

/// Whether each text of the column is a number, or counts as blank.
#[tactic(auto, using(crate::proofs::LentTexts::numbered_rows))]
pub(crate) fn is_numeric(options: &Options, rows: LentRows<'_>, column: usize) -> bool
    ensures { result ≡ spec.is_numeric options.now (texts_of rows.entry) column }
{
    have_numbers(options, rows.records, rows.places, column)
}

/// The records below a header.
pub(crate) fn body_of(has_header: bool, records: &[TextRow]) -> &[TextRow]
    ensures { result.now ≡ spec.body_of has_header records.now }
{
    match records {
        [_, body @ ..] if has_header => body,
        _ => records,
    }
}

/// The rows below a header.
pub(crate) fn lent_body<'a>(options: &Options, rows: LentRows<'a>) -> LentRows<'a>
    ensures { texts_of result ≡ spec.body_of options.now.has_header (texts_of rows.entry) }
{
    LentRows {
        records: body_of(options.has_header, rows.records),
        places: rows.places,
    }
}

/// Whether each text of a column below a header is a number, or counts as blank. The side of the column tells that, unless
/// it is set.
pub(crate) fn is_numeric_by_side(
    options: &Options,
    config: &SpannedConfig,
    rows: LentRows<'_>,
    column: usize,
) -> bool
    requires { spec.AreSided options.now config.now (texts_of rows) }
    ensures { result ≡ spec.is_numeric options.now (spec.body_of options.now.has_header (texts_of rows.entry)) column }
{
    match told_of(&options.sides, column) {
        None | Some(Side::Point) if column < rows.count_columns() => {
            let side = config.get_alignment_horizontal(Position::new(0, column));
            matches!(side, AlignmentHorizontal::Right)
        }
        _ => is_numeric(options, lent_body(options, rows), column),
    }
}

// The side of a column.
fn side_of(options: &Options, rows: LentRows<'_>, column: usize) -> AlignmentHorizontal
    ensures { result ≡ spec.side_of options.now (texts_of rows.entry) column }
{
    let body = lent_body(options, rows);
    match told_of(&options.sides, column) {
        Some(Side::To(side)) => side,
        _ if is_numeric(options, body, column) => AlignmentHorizontal::Right,
        _ => AlignmentHorizontal::Left,
    }
}

// Sets the side of a column.
fn set_side(
    config: &mut SpannedConfig,
    column: usize,
    side: AlignmentHorizontal,
) -> Result<(), AllocError>
    ensures { OnOk result (config.new ≡ record config.old { alignment_horizontal = spec.with_side column side config.old.alignment_horizontal }) }
{
    match side {
        AlignmentHorizontal::Left => Ok(()),
        _ => config.set_alignment_horizontal(Entity::Column(column), side),
    }
}

/// Sets the side of each column of these rows: the one that is set for it, else right for numbers
/// and left for others.
pub(crate) fn set_sides(
    config: &mut SpannedConfig,
    options: &Options,
    rows: LentRows<'_>,
) -> Result<(), AllocError>
    ensures { OnOk result (config.new ≡ spec.sided options.now (texts_of rows.entry) config.old) }
{
    for column in 0..rows.count_columns() {
        set_side(config, column, side_of(options, rows, column))?;
    }
    Ok(())
}
