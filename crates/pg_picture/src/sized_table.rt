//! A test of each cell of a table, row by row.

ghost use Rattle.std.specs.Prelude.{◌≡◌, ◌<◌, Bool, true, ℕ, length};
ghost use Rattle.pg_layout.specs.Records.{text_at};
ghost use Rattle.pg_layout.specs.Text.{Text};
ghost use Rattle.pg_config.specs.Spans.{is_left, left_span, size_of};
ghost use Rattle.pg_picture.specs.Fits.{spans_fit, totals_fit};
ghost use Rattle.pg_picture.specs.Pieces.{Style, style_at};
ghost use Rattle.pg_picture.specs.Inside.{first_failed, owner_passes, row_places, places_from};
ghost use Rattle.pg_picture.specs.Sizes.{table_of};
ghost use Rattle.pg_picture.specs.Table.{rect_width, rect_height};

use crate::fits::{begins_above, columns_of, height_of_rows, width_of_columns};
use pg_config::{Span, SpanSize, SpannedConfig};
use pg_layout::{Dimension, ExactRecords, PeekableRecords, Position, Records};
use std::alloc::Allocator;

/// A test of a cell: of its text, in a rectangle of so many columns and lines.
pub(crate) trait CellTest {
    ghost test: { Style → Text → ℕ → ℕ → Bool };

    fn passes<A: Allocator>(
        text: &str,
        config: &SpannedConfig<A>,
        pos: Position,
        width: usize,
        height: usize,
    ) -> bool
        ensures { result ≡ Self.test (style_at config.now pos) text.now width height };
}

/// A table without colours whose spans fit, and whose totals are below 2^64: each rectangle has a
/// size.
#[derive(Drop)]
pub(crate) struct SizedTable<'t, R: Records, A: Allocator, D: Dimension> {
    pub(crate) records: &'t R,
    pub(crate) config: &'t SpannedConfig<A>,
    pub(crate) dimension: &'t D,
    ghost spans: { spans_fit config.now.spans (length (R.texts records.now)) (R.columns records.now) ≡ true },
    ghost totals: { totals_fit (table_of config.now (D.width dimension.now) (D.height dimension.now) (R.texts records.now) (R.columns records.now)) ≡ true },
}

impl<'t, R, A, D> SizedTable<'t, R, A, D>
where
    R: Records + PeekableRecords + ExactRecords,
    A: Allocator,
    D: Dimension,
{
    /// The first cell, row by row, that fails.
    pub(crate) fn first_failing<T: CellTest>(&self) -> Option<Position>
        ensures { result
            ≡ first_failed (owner_passes T.test (table_of self.now.config.now (D.width self.now.dimension.now) (D.height self.now.dimension.now) (R.texts self.now.records.now)
            (R.columns self.now.records.now))) (places_from (length (R.texts self.now.records.now)) (R.columns self.now.records.now) 0) }
    {
        for row in 0..self.records.count_rows() {
            if let Some(failing) = self.failing_in_row::<T>(row) {
                return Some(failing);
            }
        }
        None
    }

    fn failing_in_row<T: CellTest>(&self, row: usize) -> Option<Position>
        requires { row < length (R.texts self.now.records.now) }
        ensures { result
            ≡ first_failed (owner_passes T.test (table_of self.now.config.now (D.width self.now.dimension.now) (D.height self.now.dimension.now) (R.texts self.now.records.now)
            (R.columns self.now.records.now))) (row_places (R.columns self.now.records.now) row 0) }
    {
        // Shows that the spans are in order.
        let _spans = self.config.spans();
        let columns = self.records.count_columns();
        let mut column = 0;
        while column < columns {
            let pos = Position::new(row, column);
            let span = self.config.left_span(pos);
            if !self.owner_passes::<T>(pos, span) {
                return Some(pos);
            }
            column += columns_of(span);
        }
        None
    }

    fn owner_passes<T: CellTest>(&self, pos: Position, span: Option<Span>) -> bool
        requires row { pos.row < length (R.texts self.now.records.now) }
        requires column { pos.col < R.columns self.now.records.now }
        requires left { is_left self.now.config.now.spans pos.row pos.col ≡ true }
        requires span { span ≡ left_span self.now.config.now.spans pos.row pos.col }
        ensures { result
            ≡ owner_passes T.test (table_of self.now.config.now (D.width self.now.dimension.now) (D.height self.now.dimension.now) (R.texts self.now.records.now)
            (R.columns self.now.records.now)) pos }
    {
        // Shows that the spans are in order.
        let _spans = self.config.spans();
        match span {
            // A cell of its own is in its column and its row.
            None => T::passes(
                self.records.get_text(pos),
                self.config,
                pos,
                self.dimension.get_width(pos.col),
                self.dimension.get_height(pos.row),
            ),
            Some(found) => begins_above(span, pos.row) || self.rectangle_passes::<T>(pos, found.1),
        }
    }

    fn rectangle_passes<T: CellTest>(&self, pos: Position, size: SpanSize) -> bool
        requires row { pos.row < length (R.texts self.now.records.now) }
        requires column { pos.col < R.columns self.now.records.now }
        requires size { size_of self.now.config.now.spans pos ≡ size }
        ensures { result
            ≡ T.test (style_at self.now.config.now pos) (text_at (R.texts self.now.records.now) pos)
            (rect_width (table_of self.now.config.now (D.width self.now.dimension.now) (D.height self.now.dimension.now) (R.texts self.now.records.now)
            (R.columns self.now.records.now)) pos) (rect_height (table_of self.now.config.now (D.width self.now.dimension.now) (D.height self.now.dimension.now)
            (R.texts self.now.records.now) (R.columns self.now.records.now)) pos) }
    {
        let columns = self.records.count_columns();
        let width = width_of_columns(self.config, self.dimension, pos, size.columns, columns);
        let height = height_of_rows(self.config, self.dimension, pos, size.rows);
        match (width, height) {
            (Some(width), Some(height)) => {
                T::passes(self.records.get_text(pos), self.config, pos, width, height)
            }
            // Rectangles inside a table are no larger than its totals.
            _ => false,
        }
    }
}
