//! Cells that span rows or columns.

ghost use Rattle.std.specs.Prelude.{◌≡◌, OnOk, OnErr, IsOk, IsSome};
ghost use Rattle.pg_layout.specs.Keys.{by_columns, column_place};
ghost use Rattle.pg_layout.specs.Places.{IsAscending, value_at};
ghost use Rattle.pg_config.specs.Spans.{rect_rows, rect_columns, with_column_span, with_row_span, get_column_span, get_row_span, has_column_spans};
ghost use Rattle.pg_config.specs.Spans.{has_row_spans, left_span, span_above, is_visible, is_covered_by_column, is_covered_by_row, is_covered_by_both};

use crate::spanned::SpannedConfig;
use crate::spans::{Span, Spans};
use pg_layout::Position;
use std::alloc::{AllocError, Allocator};

impl<A: Allocator> SpannedConfig<A> {
    /// Makes a cell span so many columns, including its own; 1 removes the span. Allocates only for
    /// a cell without a span.
    ///
    /// It doesn't test whether the spans fit a table (`pg_picture::fits::spans_fit`).
    pub fn set_column_span(&mut self, pos: Position, columns: usize) -> Result<(), AllocError>
    where
        A: Clone,
        ensures ok { OnOk result (self.new ≡ record self.old { spans = with_column_span pos columns self.old.spans }) }
        ensures err { OnErr result (self.new ≡ self.old) }
        ensures again { IsSome (value_at by_columns (column_place pos) self.old.spans) → IsOk result }
        ensures one { columns ≡ 1 → IsOk result }
    {
        self.spans.set_columns(pos, columns)
    }

    /// Makes a cell span so many rows, including its own; 1 removes the span. Allocates only for a
    /// cell without a span.
    pub fn set_row_span(&mut self, pos: Position, rows: usize) -> Result<(), AllocError>
    where
        A: Clone,
        ensures ok { OnOk result (self.new ≡ record self.old { spans = with_row_span pos rows self.old.spans }) }
        ensures err { OnErr result (self.new ≡ self.old) }
        ensures again { IsSome (value_at by_columns (column_place pos) self.old.spans) → IsOk result }
        ensures one { rows ≡ 1 → IsOk result }
    {
        self.spans.set_rows(pos, rows)
    }

    /// How many columns a cell spans, if that was set.
    #[tactic(auto, unfolding(crate::specs::Spans::get_column_span))]
    pub fn get_column_span(&self, pos: Position) -> Option<usize>
        ensures { result ≡ get_column_span self.now.spans pos }
    {
        let columns = self.rect_columns(pos);
        if columns == 1 { None } else { Some(columns) }
    }

    /// How many rows a cell spans, if that was set.
    #[tactic(auto, unfolding(crate::specs::Spans::get_row_span))]
    pub fn get_row_span(&self, pos: Position) -> Option<usize>
        ensures { result ≡ get_row_span self.now.spans pos }
    {
        let rows = self.rect_rows(pos);
        if rows == 1 { None } else { Some(rows) }
    }

    /// How many columns the rectangle of a place has: its span, or 1.
    pub fn rect_columns(&self, pos: Position) -> usize
        ensures { result ≡ rect_columns self.now.spans pos }
    {
        self.rect_size(pos).1
    }

    /// How many rows the rectangle of a place has: its span, or 1.
    pub fn rect_rows(&self, pos: Position) -> usize
        ensures { result ≡ rect_rows self.now.spans pos }
    {
        self.rect_size(pos).0
    }

    /// How many rows and columns the rectangle of a place has, by one search for both.
    #[tactic(auto, unfolding(crate::specs::Spans::rect_rows, crate::specs::Spans::rect_columns))]
    pub fn rect_size(&self, pos: Position) -> (usize, usize)
        ensures rows { result.0 ≡ rect_rows self.now.spans pos }
        ensures columns { result.1 ≡ rect_columns self.now.spans pos }
    {
        let size = self.spans.size(pos);
        (size.rows, size.columns)
    }

    /// The rectangles of all cells with a span, in the order of their columns and then rows.
    pub fn spans(&self) -> &Spans<A>
        ensures all { result.now ≡ self.now.spans }
        ensures ascending { IsAscending by_columns self.now.spans }
    {
        // Shows that they are in order.
        self.spans.stand_in_order();
        &self.spans
    }

    /// The rectangle that holds a place and has its left column there, found by one search in the
    /// order of the spans. If no rectangles share a place, it is the place's own, if the place is
    /// in its owner's left column.
    #[inline(always)]
    pub fn left_span(&self, pos: Position) -> Option<Span>
        ensures { result ≡ left_span self.now.spans pos.row pos.col }
    {
        self.spans.left_span(pos)
    }

    /// The rectangle that [`SpannedConfig::left_span`] finds, if it begins above the place.
    pub fn span_above(&self, pos: Position) -> Option<Span>
        ensures { result ≡ span_above self.now.spans pos.row pos.col }
    {
        let span = self.left_span(pos)?;
        if span.0.row < pos.row {
            Some(span)
        } else {
            None
        }
    }

    /// Whether a cell spans columns.
    pub fn has_column_spans(&self) -> bool
        ensures { result ≡ has_column_spans self.now.spans }
    {
        self.spans.has_columns()
    }

    /// Whether a cell spans rows.
    pub fn has_row_spans(&self) -> bool
        ensures { result ≡ has_row_spans self.now.spans }
    {
        self.spans.has_rows()
    }

    /// Whether no other cell's rectangle covers the place.
    #[tactic(auto, unfolding(crate::specs::Spans::is_visible))]
    pub fn is_cell_visible(&self, pos: Position) -> bool
        ensures { result ≡ is_visible self.now.spans pos }
    {
        let is_covered = self.is_cell_covered_by_column_span(pos)
            || self.is_cell_covered_by_row_span(pos)
            || self.is_cell_covered_by_both_spans(pos);
        !is_covered
    }

    /// Whether the rectangle of a cell in the same row covers the place.
    pub fn is_cell_covered_by_column_span(&self, pos: Position) -> bool
        ensures { result ≡ is_covered_by_column self.now.spans pos }
    {
        self.spans.is_covered_by_column(pos)
    }

    /// Whether the rectangle of a cell in the same column covers the place.
    pub fn is_cell_covered_by_row_span(&self, pos: Position) -> bool
        ensures { result ≡ is_covered_by_row self.now.spans pos }
    {
        self.spans.is_covered_by_row(pos)
    }

    /// Whether the rectangle of a cell above and left of the place covers it.
    pub fn is_cell_covered_by_both_spans(&self, pos: Position) -> bool
        ensures { result ≡ is_covered_by_both self.now.spans pos }
    {
        self.spans.is_covered_by_both(pos)
    }
}
