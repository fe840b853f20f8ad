//! Numbers whose points are below one another: spaces are behind those that end sooner.

ghost use Rattle.std.specs.Prelude.{◌≡◌, [], length, map, position, slice_index_or, string_bytes, IfOk};
ghost use Rattle.std.specs.List.{list_any, range_with_len};
ghost use Rattle.csv.specs.Records.{fields_of};
ghost use Rattle.ruled_table.specs.Columns.{texts_of};
ghost use Rattle.ruled_table.specs.Sides as spec;
ghost use Rattle.ruled_table.specs.Sides.{RestsAgree, SpacesArePadding, SpacesTakeAsMuchRoom};

use crate::columns::{field_at, told_of};
use crate::lent_rows::{LentRows, text_in};
use crate::options::{Options, Side};
use crate::sides::{is_numeric, lent_body};
use pg_table::numbers::{Extent, lacking, own_extent};
use ruled_row::TextRow;
use std::alloc::{AllocError, Global};

const NO_EXTENT: Extent = Extent { whole: 0, rest: 0 };

// The extent of the numbers of a column.
fn extent_of(rows: LentRows<'_>, column: usize) -> Extent
    ensures { result ≡ spec.extent_of (texts_of rows.entry) column }
{
    let (mut whole, mut rest) = (0usize, 0usize);
    for fields in rows.records {
        let here = own_extent(text_in(fields, rows.places, column));
        whole = here.whole.max(whole);
        rest = here.rest.max(rest);
    }
    Extent { whole, rest }
}

// Whether a side is that of points.
fn is_point(side: Option<Side>) -> bool
    ensures { result ≡ spec.is_point side }
{
    matches!(side, Some(Side::Point))
}

// Whether points are below one another in a column: it is so aligned, and has numbers.
fn is_pointed(options: &Options, rows: LentRows<'_>, column: usize) -> bool
    ensures { result ≡ spec.is_pointed options.now (texts_of rows.entry) column }
{
    let body = lent_body(options, rows);
    is_point(told_of(&options.sides, column)) && is_numeric(options, body, column)
}

// Whether a column shows this field.
fn shows(field: usize, place: Option<usize>) -> bool
    ensures { result ≡ spec.shows field place }
{
    match place {
        Some(place) => place == field,
        None => false,
    }
}

// The first column that shows a field.
fn column_showing(places: &[Option<usize>], field: usize) -> Option<usize>
    ensures { result ≡ position (spec.shows field) places.now }
{
    places.iter().position(|place| shows(field, *place))
}

// The extent of a field, by that column.
fn field_extent(options: &Options, rows: LentRows<'_>, field: usize) -> Extent
    ensures { result ≡ spec.field_extent options.now rows.entry.places.now (texts_of rows.entry) field }
{
    match column_showing(rows.places, field) {
        Some(column) if is_pointed(options, rows, column) => extent_of(rows, column),
        _ => NO_EXTENT,
    }
}

/// How many fields the first row has.
pub(crate) fn fields_in(rows: &[TextRow]) -> usize
    ensures { result ≡ length (slice_index_or (map fields_of rows.now) 0 []) }
{
    match rows {
        [fields, ..] => fields.len(),
        [] => 0,
    }
}

// Whether a column is aligned by points.
fn has_points(options: &Options) -> bool
    ensures { result ≡ list_any spec.is_point options.now.sides.items }
{
    options.sides.iter().any(|side| is_point(*side))
}

// The extent of each of so many fields.
fn each_extent(
    alloc: Global,
    options: &Options,
    rows: LentRows<'_>,
    fields: usize,
) -> Result<Vec<Extent>, AllocError>
    ensures { IfOk result (λ extents. extents.items ≡ map (spec.field_extent options.now rows.entry.places.now (texts_of rows.entry)) (range_with_len 0 fields)) }
{
    (0..fields)
        .map(|field| field_extent(options, rows, field))
        .collect(alloc)
}

/// The extent of each field, or of none if no column is aligned by points.
pub(crate) fn extents_of(
    alloc: Global,
    options: &Options,
    rows: LentRows<'_>,
) -> Result<Vec<Extent>, AllocError>
    ensures { IfOk result (λ extents. extents.items
        ≡ spec.extents_of options.now rows.entry.places.now (texts_of rows.entry) (length (slice_index_or (map fields_of rows.entry.records.now) 0 []))) }
{
    if has_points(options) {
        return each_extent(alloc, options, rows, fields_in(rows.records));
    }
    Ok(Vec::new(alloc))
}

// The extent of a field.
fn extent_at(extents: &[Extent], field: usize) -> Extent
    ensures { result ≡ spec.extent_at extents.now field }
{
    match extents.get(field) {
        Some(extent) => *extent,
        None => NO_EXTENT,
    }
}

// As many digits as a number of this extent takes, at least one.
fn widest_number(alloc: Global, extent: Extent) -> Result<String, AllocError>
    ensures { IfOk result (λ text. string_bytes text ≡ spec.widest_number extent) }
{
    let whole = "0".repeat(alloc, extent.whole.max(1usize.saturating_sub(extent.rest)))?;
    let rest = "0".repeat(alloc, extent.rest)?;
    format!(in alloc; "{whole}{rest}")
}

/// A row of the widest number of each field, or of one digit.
pub(crate) fn ruler_of(
    alloc: Global,
    extents: &[Extent],
    fields: usize,
) -> Result<TextRow, AllocError>
    ensures { IfOk result (λ ruler. fields_of ruler ≡ spec.ruler_of extents.now fields) }
{
    let mut ruler = TextRow::new(alloc);
    for field in 0..fields {
        let text = widest_number(alloc, extent_at(extents, field))?;
        ruler.push_field(text.as_str())?;
    }
    Ok(ruler)
}

// A number with the spaces behind it that its rest lacks, or any other text.
fn pointed(alloc: Global, rest: usize, text: &str) -> Result<String, AllocError>
    ensures { IfOk result (λ shown. string_bytes shown ≡ spec.pointed rest text.now) }
{
    let spaces = " ".repeat(alloc, lacking(rest, text))?;
    format!(in alloc; "{text}{spaces}")
}

/// A record with spaces behind its numbers, so that their points are below one another.
pub(crate) fn pointed_record(
    alloc: Global,
    extents: &[Extent],
    fields: &TextRow,
) -> Result<TextRow, AllocError>
    ensures { IfOk result (λ made. fields_of made ≡ spec.pointed_fields extents.now (fields_of fields.now)) }
{
    let mut made = TextRow::new(alloc);
    for field in 0..fields.len() {
        let rest = extent_at(extents, field).rest;
        let text = pointed(alloc, rest, field_at(fields, field))?;
        made.push_field(text.as_str())?;
    }
    Ok(made)
}

/// Spaces behind numbers put their points below one another as the padding of
/// [`with_points_aligned`](pg_table::Table::with_points_aligned) does: as many as the number has columns
/// less behind its point, so its cell has the same lines, and room at the same sizes.
#[tactic(auto, using(crate::proofs::PointedTexts::rests_agree, crate::proofs::PointedTexts::spaces_are_padding, crate::proofs::PointedTexts::spaces_take_as_much_room))]
pub fn points_look_alike()
    ensures rest { RestsAgree }
    ensures lines { SpacesArePadding }
    ensures room { SpacesTakeAsMuchRoom }
{}
