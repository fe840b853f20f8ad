//! Whether a row can be printed next.

ghost use Rattle.std.specs.Prelude.{◌≡◌, ◌+◌, ◌^◌, ◌<◌, ◌≤◌, ◌↔◌, ◌-◌, ◌==◌, true, false, nat_lt, [], map, length, is_some, IfSome, IsSome, IsTrue};
ghost use Rattle.pg_layout.specs.Position.{is_at};
ghost use Rattle.pg_config.specs.Spans.{owner, rect_rows, rect_columns, is_left, left_span};
ghost use Rattle.pg_picture.specs.Fits.{cell_fits, spans_fit, spans_fit_columns};
ghost use Rattle.pg_picture.specs.Inside.{IsOfKind};
ghost use Rattle.pg_picture.specs.Grids.{bare_table};
ghost use Rattle.pg_picture.specs.Marks.{marks_of_row};
ghost use Rattle.pg_picture.specs.Pieces.{style_at};
ghost use Rattle.pg_stream.specs.Conditions.{HasRoom, HaveRoom, RowFits};
ghost use Rattle.pg_stream.specs.Printers.{printing, now_of};
ghost use Rattle.pg_stream.specs.Inside.{IsSoundAt, AreOfKind, separator_height};

use crate::printer::{Frame, Progress, RowPrinter};
use pg_config::{Span, SpannedConfig};
use pg_layout::{Colors, Dimension, Position};
use pg_picture::TextKind;
use pg_picture::fits::{
    begins_above, cell_fits, columns_of, height_of_rows, kind_if_fits, spans_fit, width_of_columns,
};
use std::alloc::Allocator;
use std::convert::AsStr;

impl<'a, S: AsStr, D: Dimension, C: Colors, B: Allocator, A: Allocator> RowPrinter<
    'a,
    S,
    D,
    C,
    B,
    A,
> {
    /// Whether these cells can be printed as the next row, as the last one or not: the precondition
    /// of [`RowPrinter::row`], as a test.
    ///
    /// There is a cell for each column; no last row is printed, nor as many rows as are known, and
    /// the row is declared the last if it is that; the spans end with a last row; each cell that
    /// begins here has room for its text; and the lines can be counted. Allocates nothing.
    pub fn fits(&self, cells: &[S], is_last: bool) -> bool
        ensures { IsTrue result ↔ RowFits (printing D.width D.height C.color self.now) (map S.text cells.now) is_last }
    {
        self.progress
            .kind_if_fits(&self.frame, cells, is_last)
            .is_some()
    }
}

impl<S: AsStr, A: Allocator> Progress<'_, S, A> {
    // If the row fits, the kind of its texts: a row of plain ones is read only once.
    #[inline(always)]
    pub(crate) fn kind_if_fits<X, D, C, B>(
        &self,
        frame: &Frame<'_, D, C, B>,
        cells: &[X],
        is_last: bool,
    ) -> Option<TextKind>
    where
        X: AsStr,
        D: Dimension,
        C: Colors,
        B: Allocator,
        requires sound { IsSoundAt (bare_table D.width D.height C.color frame.now.sheet) frame.now self.now }
        ensures fits { IsSome result ↔ RowFits (now_of (bare_table D.width D.height C.color frame.now.sheet) frame.now.hint self.now) (map X.text cells.now) is_last }
        ensures kind { IfSome result (λ kind. AreOfKind kind frame.now.sheet.columns (map X.text cells.now)) }
    {
        if self.is_next(frame, cells.len(), is_last)
            && ends_spans(frame.sheet.config, self.rows, frame.sheet.columns, is_last)
            && frame.counts_lines(self.rows, self.lines)
        {
            return frame.kind_if_room(self.rows, cells);
        }
        None
    }

    fn is_next<D, C, B: Allocator>(
        &self,
        frame: &Frame<'_, D, C, B>,
        cells: usize,
        is_last: bool,
    ) -> bool
        ensures { IsTrue result ↔ (cells ≡ frame.now.sheet.columns) × (self.now.is_ended ≡ false) × (self.now.rows < 2 ^ 64 - 2)
            × IfSome frame.now.hint (λ rows. (self.now.rows < rows) × (is_last ≡ ((self.now.rows + 1) == rows))) }
    {
        cells == frame.sheet.columns
            && !self.is_ended
            && self.rows < usize::MAX - 1
            && agrees(frame.hint, self.rows, is_last)
    }
}

fn agrees(hint: Option<usize>, row: usize, is_last: bool) -> bool
    requires { row < usize.MAX }
    ensures { IsTrue result ↔ IfSome hint (λ rows. (row < rows) × (is_last ≡ ((row + 1) == rows))) }
{
    match hint {
        Some(rows) => row < rows && is_last == (row + 1 == rows),
        None => true,
    }
}

#[inline(always)]
fn ends_spans<B: Allocator>(
    config: &SpannedConfig<B>,
    row: usize,
    columns: usize,
    is_last: bool,
) -> bool
    requires { row < usize.MAX }
    ensures { IsTrue result ↔ (is_last ≡ true → spans_fit config.now.spans (row + 1) columns ≡ true) }
{
    !is_last || spans_fit(config, row + 1, columns)
}

impl<'a, D: Dimension, C: Colors, B: Allocator> Frame<'a, D, C, B> {
    ghost use Rattle.pg_picture.specs.Grids.{bare_table};

    // If a cell spans others, no text is known to be plain.
    #[inline(always)]
    fn kind_if_room<S: AsStr>(&self, row: usize, cells: &[S]) -> Option<TextKind>
        requires row { row + 1 < 2 ^ 64 }
        requires whole { length cells.now ≡ self.now.sheet.columns }
        requires spans { spans_fit_columns self.now.sheet.config.now.spans self.now.sheet.columns ≡ true }
        ensures room { IsSome result ↔ HaveRoom (bare_table D.width D.height C.color self.now.sheet) row (map S.text cells.now) }
        ensures kind { IfSome result (λ kind. AreOfKind kind self.now.sheet.columns (map S.text cells.now)) }
    {
        if self.sheet.config.spans().is_empty() {
            return self.kind_if_room_alone(row, cells);
        }
        if self.have_room(row, cells) {
            return Some(TextKind::Any);
        }
        None
    }

    // If no cell spans others, each is as wide as its column and as high as the row.
    #[inline(always)]
    fn kind_if_room_alone<S: AsStr>(&self, row: usize, cells: &[S]) -> Option<TextKind>
        requires row { row + 1 < 2 ^ 64 }
        requires alone { self.now.sheet.config.now.spans ≡ [] }
        requires whole { length cells.now ≡ self.now.sheet.columns }
        ensures room { IsSome result ↔ HaveRoom (bare_table D.width D.height C.color self.now.sheet) row (map S.text cells.now) }
        ensures kind { IfSome result (λ kind. AreOfKind kind self.now.sheet.columns (map S.text cells.now)) }
    {
        let height = self.sheet.dimension.get_height(row);
        let mut common = TextKind::Plain;
        for column in 0..self.sheet.columns {
            let pos = Position::new(row, column);
            let width = self.sheet.dimension.get_width(column);
            let text = cells[column].as_str();
            let Some(kind) = self.kind_if_cell_fits(text, pos, width, height) else {
                return None;
            };
            common = common.and(kind);
        }
        Some(common)
    }

    fn have_room<S: AsStr>(&self, row: usize, cells: &[S]) -> bool
        requires row { row + 1 < 2 ^ 64 }
        requires whole { length cells.now ≡ self.now.sheet.columns }
        requires spans { spans_fit_columns self.now.sheet.config.now.spans self.now.sheet.columns ≡ true }
        ensures { IsTrue result ↔ HaveRoom (bare_table D.width D.height C.color self.now.sheet) row (map S.text cells.now) }
    {
        // Shows that the spans are in order.
        let _spans = self.sheet.config.spans();
        let mut column = 0;
        while column < self.sheet.columns {
            let pos = Position::new(row, column);
            let span = self.sheet.config.left_span(pos);
            if !self.has_room_if_own(span, cells[column].as_str(), pos) {
                return false;
            }
            column += columns_of(span);
        }
        true
    }

    fn has_room_if_own(&self, span: Option<Span>, text: &str, pos: Position) -> bool
        requires spans { spans_fit_columns self.now.sheet.config.now.spans self.now.sheet.columns ≡ true }
        requires column { pos.col < self.now.sheet.columns }
        requires left { is_left self.now.sheet.config.now.spans pos.row pos.col ≡ true }
        requires span { span ≡ left_span self.now.sheet.config.now.spans pos.row pos.col }
        ensures { IsTrue result ↔ (is_at (owner self.now.sheet.config.now.spans pos.row pos.col) pos.row pos.col ≡ true → HasRoom (bare_table D.width D.height C.color self.now.sheet) pos text.now) }
    {
        // Shows that the spans are in order.
        let _spans = self.sheet.config.spans();
        begins_above(span, pos.row) || self.has_room(text, pos)
    }

    fn has_room(&self, text: &str, pos: Position) -> bool
        requires rows { 0 < rect_rows self.now.sheet.config.now.spans pos }
        requires columns { 0 < rect_columns self.now.sheet.config.now.spans pos }
        requires inside { pos.col + rect_columns self.now.sheet.config.now.spans pos ≤ self.now.sheet.columns }
        ensures { IsTrue result ↔ HasRoom (bare_table D.width D.height C.color self.now.sheet) pos text.now }
    {
        let (rows, columns) = self.sheet.config.rect_size(pos);
        let width = width_of_columns(
            self.sheet.config,
            self.sheet.dimension,
            pos,
            columns,
            self.sheet.columns,
        );
        let height = height_of_rows(self.sheet.config, self.sheet.dimension, pos, rows);
        match (width, height) {
            (Some(width), Some(height)) => self
                .kind_if_cell_fits(text, pos, width, height)
                .is_some(),
            _ => false,
        }
    }

    #[inline(always)]
    fn kind_if_cell_fits(
        &self,
        text: &str,
        pos: Position,
        width: usize,
        height: usize,
    ) -> Option<TextKind>
        ensures room { is_some result ≡ cell_fits (style_at self.now.sheet.config.now pos) text.now width height }
        ensures kind { IfSome result (λ kind. IsOfKind kind text.now) }
    {
        if let Some(style) = &self.sheet.all {
            return kind_if_fits(text, style, width, height);
        }
        if cell_fits(text, self.sheet.config, pos, width, height) {
            return Some(TextKind::Any);
        }
        None
    }

    // The separator is looked up only if the lines might be too many to count.
    fn counts_lines(&self, row: usize, lines: usize) -> bool
        requires { row < usize.MAX }
        ensures { result ≡ nat_lt (lines + length (marks_of_row self.now.sheet.config.now (D.height self.now.sheet.dimension.now) row)) (2 ^ 64) }
    {
        let height = self.sheet.dimension.get_height(row);
        match lines.checked_add(height) {
            Some(next) => next < usize::MAX || self.separator_lines(row) == 0,
            None => false,
        }
    }

    #[tactic(auto, unfolding(crate::specs::Inside::separator_height))]
    fn separator_lines(&self, row: usize) -> usize
        requires { row < usize.MAX }
        ensures { result ≡ separator_height self.now.sheet.config.now row }
    {
        usize::from(self.sheet.config.has_horizontal(row, row + 1))
    }
}
