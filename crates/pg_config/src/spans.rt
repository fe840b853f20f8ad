//! The rectangles of cells that span rows or columns.

ghost use Rattle.std.specs.Prelude.{◌≡◌, ◌==◌, ◌≤◌, false, [], List, Some, length, OnOk, OnErr, IsOk, IsSome};
ghost use Rattle.std.specs.List.{list_any};
ghost use Rattle.std.specs.Map.Iter.{ShowsInOrder, deref_pair};
ghost use Rattle.pg_layout.specs.declared.position.ColumnPlace.{ColumnPlace};
ghost use Rattle.pg_layout.specs.Keys.{by_columns, column_place};
ghost use Rattle.pg_layout.specs.Places.{IsAscending, value_at, before, between, last_before, next_from};
ghost use Rattle.pg_config.specs.declared.spans.SpanSize.{SpanSize};
ghost use Rattle.pg_config.specs.Spans.{Span, span_size, size_of, with_size, with_column_span, with_row_span, has_column_spans, has_row_spans};
ghost use Rattle.pg_config.specs.Spans.{in_span, if_left, left_span, is_covered_by_column, is_covered_by_row, is_covered_by_both};
ghost use Rattle.pg_config.specs.Inside.{is_covered_from, is_covered_from_left};

use crate::extent::Extent;
use pg_layout::{ColumnPlace, Places, Position};
use std::alloc::{AllocError, Allocator, Global};
use std::collections::btree_map::Iter;
use std::marker::Model;

/// How many rows and columns the rectangle of a cell with a span takes.
#[derive(Debug, Clone, Copy, PartialEq, Eq)]
pub struct SpanSize {
    /// How many rows.
    pub rows: usize,
    /// How many columns.
    pub columns: usize,
}

/// A cell with a span: its place, and the size of its rectangle.
// An entry of `Places` as it stands there: a struct of both would need the words of lists once more.
pub type Span = (ColumnPlace, SpanSize);

/// The rectangles of the cells with a span, in the order of their columns and then rows.
#[derive(Debug, Drop)]
pub struct Spans<A: Allocator = Global> {
    // Column by column, so that one search finds the rectangle whose left column is at a place.
    sizes: Places<ColumnPlace, SpanSize, A>,
    // It has their places, and in their left columns all rows that they cover.
    extent: Extent,
}

impl<A: Allocator> Model for Spans<A> {
    ghost use Rattle.std.specs.Prelude.{List};
    ghost use Rattle.pg_layout.specs.Places.{Each};
    ghost use Rattle.pg_config.specs.Spans.{Span};
    ghost use Rattle.pg_config.specs.Inside.{HasSpan};

    ghost Value = { List Span };

    ghost view = { λ s. s.sizes };

    ghost invariant = { λ s. Each (HasSpan s.extent) s.sizes };
}

impl<A: Allocator> Spans<A> {
    /// No spans. Allocates nothing.
    pub(crate) fn new(alloc: A) -> Spans<A>
        ensures { result ≡ [] }
    {
        Spans {
            sizes: Places::new(alloc),
            extent: Extent::none(),
        }
    }

    /// All rectangles, in their order: for each its place and its size.
    pub fn iter(&self) -> Iter<'_, ColumnPlace, SpanSize>
        ensures all { result ≡ self.now }
        ensures runs { ShowsInOrder (deref_pair {K = ColumnPlace} {X = SpanSize}) }
        ensures ascending { IsAscending by_columns self.now }
    {
        self.sizes.iter()
    }

    // Shows a proof that the places ascend. It does nothing when it runs.
    #[inline(always)]
    pub(crate) fn stand_in_order(&self)
        ensures { IsAscending by_columns self.now }
    {
        self.sizes.stand_in_order()
    }

    /// Whether no cell has a span.
    #[inline(always)]
    pub fn is_empty(&self) -> bool
        ensures { result ≡ (length self.now == 0) }
    {
        self.sizes.is_empty()
    }

    /// The first rectangle in their order that begins at this place or after it.
    pub fn next_from(&self, pos: Position) -> Option<Span>
        ensures { result ≡ next_from by_columns (column_place pos) self.now }
    {
        let (place, size) = self.sizes.next_from(ColumnPlace::of(pos))?;
        Some((place, *size))
    }

    /// The last rectangle in their order that begins before this place.
    pub fn last_before(&self, pos: Position) -> Option<Span>
        ensures { result ≡ last_before by_columns (column_place pos) self.now }
    {
        let (place, size) = self.sizes.last_before(ColumnPlace::of(pos))?;
        Some((place, *size))
    }

    /// How many rows and columns the rectangle of a place has.
    #[inline(always)]
    #[tactic(auto, unfolding(crate::specs::Spans::size_of))]
    pub(crate) fn size(&self, pos: Position) -> SpanSize
        ensures { result ≡ size_of self.now pos }
    {
        if self.extent.holds(pos) {
            return self.find_size(pos);
        }
        SpanSize {
            rows: 1,
            columns: 1,
        }
    }

    // The size of the span at a place, or 1 by 1, found by a search of the spans.
    #[tactic(auto, unfolding(crate::specs::Spans::size_of))]
    fn find_size(&self, pos: Position) -> SpanSize
        ensures { result ≡ size_of self.now pos }
    {
        match self.sizes.get(ColumnPlace::of(pos)) {
            Some(size) => *size,
            None => SpanSize {
                rows: 1,
                columns: 1,
            },
        }
    }

    #[tactic(auto, unfolding(crate::specs::Spans::with_size))]
    fn set_size(&mut self, pos: Position, size: SpanSize) -> Result<(), AllocError>
    where
        A: Clone,
        ensures ok { OnOk result (self.new ≡ with_size pos size self.old) }
        ensures err { OnErr result (self.new ≡ self.old) }
        ensures again { IsSome (value_at by_columns (column_place pos) self.old) → IsOk result }
        ensures one { size ≡ span_size 1 1 → IsOk result }
    {
        let place = ColumnPlace::of(pos);
        if size.rows == 1 && size.columns == 1 {
            self.sizes.remove(place);
            if self.sizes.is_empty() {
                self.extent = Extent::none();
            }
            return Ok(());
        }
        self.sizes.set(place, size)?;
        let last = pos.row.saturating_add(size.rows.saturating_sub(1));
        self.extent = self.extent.with_rows(pos.row, last, pos.col);
        Ok(())
    }

    /// Makes the rectangle of a place so many columns wide. If memory is refused, nothing changes.
    #[tactic(auto, unfolding(crate::specs::Spans::with_column_span, crate::specs::Spans::rect_rows))]
    pub(crate) fn set_columns(&mut self, pos: Position, columns: usize) -> Result<(), AllocError>
    where
        A: Clone,
        ensures ok { OnOk result (self.new ≡ with_column_span pos columns self.old) }
        ensures err { OnErr result (self.new ≡ self.old) }
        ensures again { IsSome (value_at by_columns (column_place pos) self.old) → IsOk result }
        ensures one { columns ≡ 1 → IsOk result }
    {
        let rows = self.size(pos).rows;
        self.set_size(pos, SpanSize { rows, columns })
    }

    /// Makes the rectangle of a place so many rows high. If memory is refused, nothing changes.
    #[tactic(auto, unfolding(crate::specs::Spans::with_row_span, crate::specs::Spans::rect_columns))]
    pub(crate) fn set_rows(&mut self, pos: Position, rows: usize) -> Result<(), AllocError>
    where
        A: Clone,
        ensures ok { OnOk result (self.new ≡ with_row_span pos rows self.old) }
        ensures err { OnErr result (self.new ≡ self.old) }
        ensures again { IsSome (value_at by_columns (column_place pos) self.old) → IsOk result }
        ensures one { rows ≡ 1 → IsOk result }
    {
        let columns = self.size(pos).columns;
        self.set_size(pos, SpanSize { rows, columns })
    }

    /// Whether a span of columns is kept.
    #[tactic(auto, unfolding(crate::specs::Spans::has_column_spans))]
    pub(crate) fn has_columns(&self) -> bool
        ensures { result ≡ has_column_spans self.now }
    {
        let mut spans = self.sizes.iter();
        spans.any(|(_, size)| size.columns != 1)
    }

    /// Whether a span of rows is kept.
    #[tactic(auto, unfolding(crate::specs::Spans::has_row_spans))]
    pub(crate) fn has_rows(&self) -> bool
        ensures { result ≡ has_row_spans self.now }
    {
        let mut spans = self.sizes.iter();
        spans.any(|(_, size)| size.rows != 1)
    }

    /// The rectangle that holds a place and has its left column there, found by one search.
    #[inline(always)]
    pub(crate) fn left_span(&self, pos: Position) -> Option<Span>
        ensures { result ≡ left_span self.now pos.row pos.col }
    {
        if self.extent.holds(pos) {
            return self.find_left_span(pos);
        }
        None
    }

    // The span that holds a place and begins left of it in its row, found by a search of the spans.
    fn find_left_span(&self, pos: Position) -> Option<Span>
        ensures { result ≡ left_span self.now pos.row pos.col }
    {
        let (place, size) = self.sizes.last_up_to(ColumnPlace::of(pos))?;
        if_left(pos, (place, *size))
    }

    /// Whether a rectangle that begins in the same row covers the place. Looks once into each column
    /// left of it in which one begins.
    #[tactic(auto, unfolding(crate::specs::Spans::is_covered_by_column), using(crate::proofs::Rulesets::covered))]
    pub(crate) fn is_covered_by_column(&self, pos: Position) -> bool
        ensures { result ≡ is_covered_by_column self.now pos }
    {
        self.is_covered_from_left(pos, pos.row, pos.row)
    }

    /// Whether a rectangle that begins in the same column covers the place. Looks only at those that
    /// begin above it there.
    #[tactic(auto, unfolding(crate::specs::Spans::is_covered_by_row), using(crate::proofs::Rulesets::covered))]
    pub(crate) fn is_covered_by_row(&self, pos: Position) -> bool
        ensures { result ≡ is_covered_by_row self.now pos }
    {
        0 < pos.row && self.is_covered_from(pos, pos.col, 0, pos.row - 1)
    }

    /// Whether a rectangle that begins above and left of the place covers it. Looks at all of these.
    #[tactic(auto, unfolding(crate::specs::Spans::is_covered_by_both), using(crate::proofs::Rulesets::covered))]
    pub(crate) fn is_covered_by_both(&self, pos: Position) -> bool
        ensures { result ≡ is_covered_by_both self.now pos }
    {
        0 < pos.row && self.is_covered_from_left(pos, 0, pos.row - 1)
    }

    fn is_covered_from_left(&self, pos: Position, first: usize, last: usize) -> bool
        requires { first ≤ last }
        ensures { result ≡ is_covered_from_left self.now pos first last }
    {
        // Shows that they are in order.
        let _rectangles = self.iter();
        let mut column = pos.col;
        while let Some(span) = self.last_before(Position {
            row: 0,
            col: column,
        }) {
            column = span.0.col;
            if self.is_covered_from(pos, column, first, last) {
                return true;
            }
        }
        false
    }

    #[tactic(auto, using(crate::proofs::Rulesets::covered))]
    fn is_covered_from(&self, pos: Position, column: usize, first: usize, last: usize) -> bool
        requires { first ≤ last }
        ensures { result ≡ is_covered_from self.now pos column first last }
    {
        let from = ColumnPlace {
            col: column,
            row: first,
        };
        let to = ColumnPlace {
            col: column,
            row: last,
        };
        self.is_covered_between(pos, from, to)
    }

    // Whether one of the spans from a place on and up to another covers a place.
    fn is_covered_between(&self, pos: Position, from: ColumnPlace, to: ColumnPlace) -> bool
        requires { before by_columns to from ≡ false }
        ensures { result ≡ list_any (in_span pos.row pos.col) (between by_columns from to self.now) }
    {
        let mut spans = self.sizes.between(from, to);
        spans.any(|(place, size)| in_span(pos, (*place, *size)))
    }
}

fn if_left(pos: Position, span: Span) -> Option<Span>
    ensures { result ≡ if_left pos.row pos.col (Some span) }
{
    let begins_here = span.0.col == pos.col;
    if begins_here && in_span(pos, span) {
        Some(span)
    } else {
        None
    }
}

// The ends of the rectangle may pass the greatest number, so they aren't computed.
fn in_span(pos: Position, span: Span) -> bool
    ensures { result ≡ in_span pos.row pos.col span }
{
    let (place, size) = span;
    place.row <= pos.row
        && pos.row - place.row < size.rows
        && place.col <= pos.col
        && pos.col - place.col < size.columns
}
