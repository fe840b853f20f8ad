//! Separators, which show the lines of the open cells that go through them.

ghost use Rattle.std.specs.Prelude.{◌≡◌, ◌+◌, ◌≤◌, nat_lt, max, map, flat_map, slice_index_or, IfOk, IfSome, OnOk, None};
ghost use Rattle.std.specs.List.{range_with_len};
ghost use Rattle.pg_config.specs.Spans.{rect_columns};
ghost use Rattle.pg_layout.specs.Position.{at};
ghost use Rattle.pg_picture.specs.Appending.{Appends};
ghost use Rattle.pg_picture.specs.Pieces.{separator_text};
ghost use Rattle.pg_picture.specs.Inside.{items_after, last_color};
ghost use Rattle.pg_stream.specs.Inside.{column_end, reach, cell_items, open_separator_part, open_separator, above_text, below_text, IsSeparator, IsBetween, MaySeparate, draw_cell, separator_height};
ghost use Rattle.pg_stream.specs.Placed.{AllOpen};

use crate::draw::{OpenCells, OpenLine, StreamedTable};
use pg_layout::{ANSIBuf, Colors, Dimension, Position};
use pg_picture::{Run, SeparatorKeeper, TableMarker, push_text};
use std::alloc::{AllocError, Allocator};
use std::convert::AsStr;

impl<'f, T, D, C, B> StreamedTable<'f, T, D, C, B>
where
    T: TableMarker,
    D: Dimension,
    C: Colors,
    B: Allocator,
{
    #[inline(always)]
    pub(crate) fn push_above<S: AsStr + Drop, A: Allocator, W: Allocator>(
        self,
        opened: &mut OpenCells<S, A>,
        kept: &mut SeparatorKeeper<'_>,
        buf: &mut String<W>,
        index: usize,
        row: usize,
    ) -> Result<usize, AllocError>
        requires may { MaySeparate T.table row index opened.old kept.old }
        ensures appends { Appends buf.old buf.new result (above_text T.table self.entry.pen.sheet.now.height opened.old row index) }
        ensures index { IfOk result (λ next. next ≡ index + separator_height T.table.config row) }
        ensures drawn { OnOk result (opened.new ≡ map (draw_cell (separator_height T.table.config row)) opened.old) }
        ensures kept { IfSome kept.new.text (IsSeparator T.table) }
    {
        if !self.pen.has_horizontal(row, row + 1) {
            return Ok(index);
        }
        self.pen.push_line_start(buf, index)?;
        let line = OpenLine {
            table: self,
            opened: &*opened,
        };
        line.push_kept_separator(kept, buf, row)?;
        self.pen.push_line_end(buf, index)?;
        opened.draw_line();
        Ok(index + 1)
    }

    pub(crate) fn end_past<S: AsStr + Drop, A: Allocator>(
        self,
        opened: &OpenCells<S, A>,
        column: usize,
        end: usize,
    ) -> usize
        requires { AllOpen (λ x cell. x + rect_columns T.table.config.spans (at cell.begun x) ≤ T.table.columns) opened.now }
        ensures { result ≡ max end (column_end T.table.config.spans (slice_index_or opened.now column None) column) }
    {
        let Some(cell) = opened.open_at(column) else {
            return end;
        };
        // Shows that the columns are a number.
        let _columns = self.pen.columns();
        end.max(column + self.rect_columns(Position::new(cell.begun(), column)))
    }
}

impl<'f, 'o, T, S, D, C, B, A> OpenLine<'f, 'o, T, S, D, C, B, A>
where
    T: TableMarker,
    S: AsStr + Drop,
    D: Dimension,
    C: Colors,
    B: Allocator,
    A: Allocator,
{
    pub(crate) fn push_below<W: Allocator>(
        &self,
        buf: &mut String<W>,
        index: usize,
        rows: usize,
    ) -> Result<(), AllocError>
        ensures { Appends buf.old buf.new result (below_text T.table self.now.table.pen.sheet.now.height self.now.opened.now rows index) }
    {
        if !self.table.pen.has_horizontal(rows, rows) {
            return Ok(());
        }
        self.table.pen.push_line_start(buf, index)?;
        self.push_separator(buf, rows, rows)?;
        self.table.pen.push_line_end(buf, index)
    }

    // If the separators above all rows but the first are equal, one is drawn, and the others are
    // copies of it.
    #[inline(never)]
    fn push_kept_separator<W: Allocator>(
        &self,
        kept: &mut SeparatorKeeper<'_>,
        buf: &mut String<W>,
        row: usize,
    ) -> Result<(), AllocError>
        requires { IsBetween T.table row self.now.opened.now kept.old }
        ensures appends { Appends buf.old buf.new result (separator_text (open_separator T.table (row + 1) self.now.opened.now row)) }
        ensures kept { IfSome kept.new.text (IsSeparator T.table) }
    {
        if row == 0 {
            return self.push_separator(buf, row, row + 1);
        }
        if let Some(text) = kept.text() {
            return push_text(buf, text);
        }
        let from = buf.len();
        self.push_separator(buf, row, row + 1)?;
        if self.table.pen.has_equal_separators() {
            kept.keep(buf, from);
        }
        Ok(())
    }

    fn push_separator<W: Allocator>(
        &self,
        buf: &mut String<W>,
        row: usize,
        rows: usize,
    ) -> Result<(), AllocError>
        ensures { Appends buf.old buf.new result (separator_text (open_separator T.table rows self.now.opened.now row)) }
    {
        let run = self.push_columns(Run::new(), buf, row, rows)?;
        let last = Position::new(row, self.table.pen.columns());
        let run = self.table.pen.push_crossing(run, buf, last, rows)?;
        run.close(buf)
    }

    fn push_columns<W: Allocator>(
        &self,
        mut run: Run<'f, ANSIBuf<B>>,
        buf: &mut String<W>,
        row: usize,
        rows: usize,
    ) -> Result<Run<'f, ANSIBuf<B>>, AllocError>
        ensures appends { Appends buf.old buf.new result (items_after run.entry (flat_map (open_separator_part T.table rows self.now.opened.now row) (range_with_len 0 T.table.columns))) }
        ensures color { IfOk result (λ after. after ≡ last_color run.entry (flat_map (open_separator_part T.table rows self.now.opened.now row) (range_with_len 0 T.table.columns))) }
    {
        let mut end = 0;
        for column in 0..self.table.pen.columns() {
            let pos = Position::new(row, column);
            run = self.push_column(run, buf, pos, rows, column < end)?;
            end = self.table.end_past(self.opened, column, end);
        }
        Ok(run)
    }

    fn push_column<W: Allocator>(
        &self,
        run: Run<'f, ANSIBuf<B>>,
        buf: &mut String<W>,
        pos: Position,
        rows: usize,
        is_inside: bool,
    ) -> Result<Run<'f, ANSIBuf<B>>, AllocError>
        requires inside { is_inside ≡ nat_lt pos.col (reach T.table.config.spans self.now.opened.now pos.col) }
        ensures appends { Appends buf.old buf.new result (items_after run.entry (open_separator_part T.table rows self.now.opened.now pos.row pos.col)) }
        ensures color { IfOk result (λ after. after ≡ last_color run.entry (open_separator_part T.table rows self.now.opened.now pos.row pos.col)) }
    {
        if is_inside {
            return Ok(run);
        }
        let run = self.table.pen.push_crossing(run, buf, pos, rows)?;
        self.push_item(run, buf, pos, rows)
    }

    fn push_item<W: Allocator>(
        &self,
        run: Run<'f, ANSIBuf<B>>,
        buf: &mut String<W>,
        pos: Position,
        rows: usize,
    ) -> Result<Run<'f, ANSIBuf<B>>, AllocError>
        ensures appends { Appends buf.old buf.new result (items_after run.entry (cell_items T.table rows (slice_index_or self.now.opened.now pos.col None) pos.row pos.col)) }
        ensures color { IfOk result (λ after. after ≡ last_color run.entry (cell_items T.table rows (slice_index_or self.now.opened.now pos.col None) pos.row pos.col)) }
    {
        let Some(cell) = self.opened.open_at(pos.col) else {
            return self.table.pen.push_border(run, buf, pos, rows);
        };
        let run = run.close_for_block(buf)?;
        self.push_cell_line(buf, cell, pos.col)?;
        Ok(run)
    }
}
