//! Whether a row shows each line of its texts.

ghost use Rattle.std.specs.Prelude.{◌≡◌, ◌↔◌, ◌<◌, ◌||◌, true, not, map, length, Err};
ghost use Rattle.pg_layout.specs.Position.{is_at};
ghost use Rattle.pg_config.specs.Spans.{owner, is_left, left_span, rect_rows};
ghost use Rattle.pg_picture.specs.Fits.{spans_fit_columns};
ghost use Rattle.pg_picture.specs.Pieces.{style_at};
ghost use Rattle.pg_picture.specs.Shown.{cell_shows_all};
ghost use Rattle.pg_picture.specs.Sizes.{height_of_rect};
ghost use Rattle.pg_stream.specs.Conditions.{HasRoom, HaveRoom, RowFits};
ghost use Rattle.pg_stream.specs.Printers.{printing};
ghost use Rattle.pg_stream.specs.ShownRows.{unshown_in_row, unless_in_row};

use crate::printer::{Frame, RowPrinter};
use pg_config::Span;
use pg_layout::{Colors, Dimension, Position};
use pg_picture::fits::{begins_above, columns_of, height_of_rows};
use pg_picture::shown::cell_shows_all;
use std::alloc::Allocator;
use std::convert::AsStr;

/// Why a row isn't printed whole.
#[derive(Debug, Clone, Copy, PartialEq, Eq)]
pub enum RowUnshown {
    /// The row doesn't fit below those above it.
    Misfit,
    /// The cell in this column isn't high enough for its lines below its top padding.
    Lines(usize),
}

impl<'a, S: AsStr, D: Dimension, C: Colors, B: Allocator, A: Allocator> RowPrinter<
    'a,
    S,
    D,
    C,
    B,
    A,
> {
    /// Whether these cells can be printed as the next row, as the last one or not, and each of
    /// their lines is shown. The error is `Misfit` if [`RowPrinter::fits`] returns false, else the
    /// first column whose cell isn't high enough for its lines. A cell that continues below counts
    /// its lines there. Allocates nothing.
    pub fn shows_all(&self, cells: &[S], is_last: bool) -> Result<(), RowUnshown>
        ensures misfit { (result ≡ Err RowUnshown.Misfit) ↔ ¬ (RowFits (printing D.width D.height C.color self.now) (map S.text cells.now) is_last) }
        ensures exact { RowFits (printing D.width D.height C.color self.now) (map S.text cells.now) is_last
            → result ≡ unless_in_row (unshown_in_row (printing D.width D.height C.color self.now).table (printing D.width D.height C.color self.now).rows (map S.text cells.now)) }
    {
        if !self.fits(cells, is_last) {
            return Err(RowUnshown::Misfit);
        }
        match self.frame.first_unshown(self.progress.rows, cells) {
            Some(pos) => Err(RowUnshown::Lines(pos.col)),
            None => Ok(()),
        }
    }
}

impl<'a, D: Dimension, C: Colors, B: Allocator> Frame<'a, D, C, B> {
    ghost use Rattle.pg_picture.specs.Grids.{bare_table};
    ghost use Rattle.pg_stream.specs.ShownRows.{row_cell_shows_all};

    fn first_unshown<S: AsStr>(&self, row: usize, cells: &[S]) -> Option<Position>
        requires whole { length cells.now ≡ self.now.sheet.columns }
        requires spans { spans_fit_columns self.now.sheet.config.now.spans self.now.sheet.columns ≡ true }
        requires rooms { HaveRoom (bare_table D.width D.height C.color self.now.sheet) row (map S.text cells.now) }
        ensures { result ≡ unshown_in_row (bare_table D.width D.height C.color self.now.sheet) row (map S.text cells.now) }
    {
        // Shows that the spans are in order.
        let _spans = self.sheet.config.spans();
        let mut column = 0;
        while column < self.sheet.columns {
            let pos = Position::new(row, column);
            let span = self.sheet.config.left_span(pos);
            if !self.shows_all_if_own(span, cells[column].as_str(), pos) {
                return Some(pos);
            }
            column += columns_of(span);
        }
        None
    }

    fn shows_all_if_own(&self, span: Option<Span>, text: &str, pos: Position) -> bool
        requires spans { spans_fit_columns self.now.sheet.config.now.spans self.now.sheet.columns ≡ true }
        requires left { is_left self.now.sheet.config.now.spans pos.row pos.col ≡ true }
        requires span { span ≡ left_span self.now.sheet.config.now.spans pos.row pos.col }
        requires room { is_at (owner self.now.sheet.config.now.spans pos.row pos.col) pos.row pos.col ≡ true → HasRoom (bare_table D.width D.height C.color self.now.sheet) pos text.now }
        ensures { result
            ≡ (not (is_at (owner self.now.sheet.config.now.spans pos.row pos.col) pos.row pos.col)
            || cell_shows_all (style_at self.now.sheet.config.now pos) text.now (height_of_rect self.now.sheet.config.now (D.height self.now.sheet.dimension.now) pos)) }
    {
        // Shows that the spans are in order.
        let _spans = self.sheet.config.spans();
        begins_above(span, pos.row) || self.shows_all(text, pos)
    }

    fn shows_all(&self, text: &str, pos: Position) -> bool
        requires some { 0 < rect_rows self.now.sheet.config.now.spans pos }
        requires room { HasRoom (bare_table D.width D.height C.color self.now.sheet) pos text.now }
        ensures { result ≡ cell_shows_all (style_at self.now.sheet.config.now pos) text.now (height_of_rect self.now.sheet.config.now (D.height self.now.sheet.dimension.now) pos) }
    {
        match height_of_rows(
            self.sheet.config,
            self.sheet.dimension,
            pos,
            self.sheet.config.rect_rows(pos),
        ) {
            Some(height) => cell_shows_all(text, self.sheet.config, pos, height),
            // A cell with room has a height below 2^64.
            None => false,
        }
    }
}
