//! Whether the rectangles of cells with a span fit a table.

ghost use Rattle.std.specs.Prelude.{◌≡◌, ◌+◌, ◌^◌, ◌<◌, ◌≤◌, None, MatchOption, nat_le, is_some, true};
ghost use Rattle.std.specs.List.{list_all};
ghost use Rattle.pg_layout.specs.Keys.{by_columns};
ghost use Rattle.pg_layout.specs.Places.{Each, IsAscending};
ghost use Rattle.pg_layout.specs.Position.{at};
ghost use Rattle.pg_config.specs.Spans.{if_above};
ghost use Rattle.pg_picture.specs.Inside.{columns_or_one, HasEnd, is_past, columns_apart, rows_apart, apart_right, apart_at};
ghost use Rattle.pg_picture.specs.Fits.{all_apart, span_fits, span_fits_columns, spans_fit, spans_fit_columns};

use pg_config::{Span, SpannedConfig, Spans};
use pg_layout::Position;
use std::alloc::Allocator;

/// Whether every rectangle of a cell with a span has at least one row and one column, ends inside
/// a table of so many rows and columns, and shares no place with another one.
///
/// It searches once in each column of a rectangle in which another one begins. Allocates nothing.
#[tactic(auto, unfolding(crate::specs::Fits::spans_fit), using(crate::proofs::OwnersOfPlaces::have_ends))]
pub fn spans_fit<A: Allocator>(config: &SpannedConfig<A>, rows: usize, columns: usize) -> bool
    ensures { result ≡ spans_fit config.now.spans rows columns }
{
    let spans = config.spans();
    all_fit(spans, rows, columns) && all_apart(spans)
}

/// Whether every rectangle of a cell with a span has at least one row and one column, ends within
/// so many columns, and shares no place with another one. Allocates nothing.
#[tactic(auto, unfolding(crate::specs::Fits::spans_fit_columns), using(crate::proofs::OwnersOfPlaces::have_ends_columns))]
pub fn spans_fit_columns<A: Allocator>(config: &SpannedConfig<A>, columns: usize) -> bool
    ensures { result ≡ spans_fit_columns config.now.spans columns }
{
    let spans = config.spans();
    all_fit_columns(spans, columns) && all_apart(spans)
}

fn all_fit<A: Allocator>(spans: &Spans<A>, rows: usize, columns: usize) -> bool
    ensures { result ≡ list_all (span_fits rows columns) spans.now }
{
    spans.iter().all(|(corner, size)| span_fits((*corner, *size), rows, columns))
}

fn all_fit_columns<A: Allocator>(spans: &Spans<A>, columns: usize) -> bool
    ensures { result ≡ list_all (span_fits_columns columns) spans.now }
{
    spans.iter().all(|(corner, size)| span_fits_columns((*corner, *size), columns))
}

// Ends of rectangles may exceed `usize::MAX`, so they aren't computed.
fn span_fits(span: Span, rows: usize, columns: usize) -> bool
    ensures { result ≡ span_fits rows columns span }
{
    span_fits_columns(span, columns) && ends_within(span.0.row, span.1.rows, rows)
}

fn span_fits_columns(span: Span, columns: usize) -> bool
    ensures { result ≡ span_fits_columns columns span }
{
    0 < span.1.rows && 0 < span.1.columns && ends_within(span.0.col, span.1.columns, columns)
}

fn ends_within(first: usize, count: usize, last: usize) -> bool
    ensures { result ≡ nat_le (first + count) last }
{
    first <= last && count <= last - first
}

fn all_apart<A: Allocator>(spans: &Spans<A>) -> bool
    requires ascending { IsAscending by_columns spans.now }
    requires ends { Each HasEnd spans.now }
    ensures { result ≡ all_apart spans.now }
{
    columns_apart(spans) && rows_apart(spans)
}

fn columns_apart<A: Allocator>(spans: &Spans<A>) -> bool
    ensures { result ≡ columns_apart None spans.now }
{
    let mut above = None;
    for (corner, size) in spans.iter() {
        let span = (*corner, *size);
        if !is_past(above, span) {
            return false;
        }
        above = Some(span);
    }
    true
}

fn is_past(above: Option<Span>, span: Span) -> bool
    ensures { result ≡ is_past above span }
{
    match above {
        Some(above) => above.0.col != span.0.col
            || ends_within(above.0.row, above.1.rows, span.0.row),
        None => true,
    }
}

fn rows_apart<A: Allocator>(spans: &Spans<A>) -> bool
    requires ascending { IsAscending by_columns spans.now }
    requires ends { Each HasEnd spans.now }
    requires columns { columns_apart None spans.now ≡ true }
    ensures { result ≡ rows_apart spans.now }
{
    for (corner, size) in spans.iter() {
        if !is_apart((*corner, *size), spans) {
            return false;
        }
    }
    true
}

// Whether a rectangle shares no place with those to its right, by a search in each of its columns in which
// one begins.
fn is_apart<A: Allocator>(span: Span, spans: &Spans<A>) -> bool
    requires end { HasEnd span }
    requires ascending { IsAscending by_columns spans.now }
    requires ends { Each HasEnd spans.now }
    requires columns { columns_apart None spans.now ≡ true }
    ensures { result ≡ list_all (apart_right span) spans.now }
{
    let end = span.0.col + span.1.columns;
    let mut from = span.0.col + 1;
    while let Some(column) = next_column(spans, from, end) {
        if !is_apart_at(span, spans, column) {
            return false;
        }
        from = column + 1;
    }
    true
}

fn next_column<A: Allocator>(spans: &Spans<A>, from: usize, end: usize) -> Option<usize>
    requires { IsAscending by_columns spans.now }
    ensures { MatchOption result
        (Each (λ t. from ≤ t.0.col → end ≤ t.0.col) spans.now)
        (λ column. (from ≤ column) × (column < end) × Each (λ t. from ≤ t.0.col → column ≤ t.0.col) spans.now) }
{
    if end <= from {
        return None;
    }
    match spans.next_from(Position { row: 0, col: from }) {
        Some(next) if next.0.col < end => Some(next.0.col),
        _ => None,
    }
}

fn is_apart_at<A: Allocator>(span: Span, spans: &Spans<A>, column: usize) -> bool
    requires ascending { IsAscending by_columns spans.now }
    requires column { column + 1 < 2 ^ 64 }
    ensures { result ≡ apart_at spans.now span column }
{
    match spans.last_before(place_below(span, column)) {
        Some(last) => last.0.col != column || ends_within(last.0.row, last.1.rows, span.0.row),
        None => true,
    }
}

// The place of the column below the end of the rectangle; if its row exceeds `usize::MAX`, the
// first one of the next column.
fn place_below(span: Span, column: usize) -> Position
    requires { column + 1 < 2 ^ 64 }
    ensures above { span.0.row + span.1.rows < 2 ^ 64 → result ≡ at (span.0.row + span.1.rows) column }
    ensures column { 2 ^ 64 ≤ span.0.row + span.1.rows → result ≡ at 0 (column + 1) }
{
    match span.0.row.checked_add(span.1.rows) {
        Some(row) => Position::new(row, column),
        None => Position::new(0, column + 1),
    }
}

/// How many columns the rectangle has that a search found ([`SpannedConfig::left_span`]); 1 if it
/// found none.
///
/// Allocates nothing.
pub fn columns_of(span: Option<Span>) -> usize
    ensures { result ≡ columns_or_one span }
{
    match span {
        None => 1,
        Some(span) => span.1.columns,
    }
}

/// Whether a search found a rectangle that begins above a row.
///
/// Allocates nothing.
pub fn begins_above(span: Option<Span>, row: usize) -> bool
    ensures { result ≡ is_some (if_above row span) }
{
    match span {
        Some(span) => span.0.row < row,
        None => false,
    }
}
