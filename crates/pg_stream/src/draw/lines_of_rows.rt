//! The lines of rows, which show the next lines of the open cells.

ghost use Rattle.std.specs.Prelude.{◌≡◌, ◌<◌, map, OnOk};
ghost use Rattle.pg_picture.specs.Appending.{Appends};
ghost use Rattle.pg_picture.specs.Pieces.{written};
ghost use Rattle.pg_stream.specs.Inside.{open_part, open_line, line_at, open_lines, draw_cell, MayDraw};

use crate::draw::{OpenCells, OpenLine, StreamedTable};
use pg_layout::{Colors, Dimension, Position};
use pg_picture::TableMarker;
use std::alloc::{AllocError, Allocator};
use std::convert::AsStr;

impl<'f, T, D, C, B> StreamedTable<'f, T, D, C, B>
where
    T: TableMarker,
    D: Dimension,
    C: Colors,
    B: Allocator,
{
    pub(crate) fn push_lines<S: AsStr + Drop, A: Allocator, W: Allocator>(
        self,
        opened: &mut OpenCells<S, A>,
        buf: &mut String<W>,
        index: usize,
        row: usize,
    ) -> Result<(), AllocError>
        requires may { MayDraw T.table opened.old index (T.table.height row) }
        ensures appends { Appends buf.old buf.new result (open_lines T.table self.entry.pen.sheet.now.height opened.old row index (T.table.height row)) }
        ensures drawn { OnOk result (opened.new ≡ map (draw_cell (T.table.height row)) opened.old) }
    {
        for line in 0..self.pen.height_of(row) {
            let shown = OpenLine {
                table: self,
                opened: &*opened,
            };
            shown.push_body_line(buf, index + line, row, line)?;
            opened.draw_line();
        }
        Ok(())
    }
}

impl<'f, 'o, T, S, D, C, B, A> OpenLine<'f, 'o, T, S, D, C, B, A>
where
    T: TableMarker,
    S: AsStr + Drop,
    D: Dimension,
    C: Colors,
    B: Allocator,
    A: Allocator,
{
    fn push_body_line<W: Allocator>(
        &self,
        buf: &mut String<W>,
        index: usize,
        row: usize,
        line: usize,
    ) -> Result<(), AllocError>
        requires { line < T.table.height row }
        ensures { Appends buf.old buf.new result (line_at T.table.config self.now.table.pen.sheet.now.height index (written (open_line T.table self.now.opened.now row line))) }
    {
        self.table.pen.push_line_start(buf, index)?;
        self.push_line_of_row(buf, row, line)?;
        self.table.pen.push_line_end(buf, index)
    }

    fn push_line_of_row<W: Allocator>(
        &self,
        buf: &mut String<W>,
        row: usize,
        line: usize,
    ) -> Result<(), AllocError>
        requires { line < T.table.height row }
        ensures { Appends buf.old buf.new result (written (open_line T.table self.now.opened.now row line)) }
    {
        for column in 0..self.table.pen.columns() {
            self.push_part(buf, Position::new(row, column), line)?;
        }
        self.table
            .pen
            .push_vertical(buf, Position::new(row, self.table.pen.columns()), line)
    }

    fn push_part<W: Allocator>(
        &self,
        buf: &mut String<W>,
        pos: Position,
        line: usize,
    ) -> Result<(), AllocError>
        requires { line < T.table.height pos.row }
        ensures { Appends buf.old buf.new result (written (open_part T.table self.now.opened.now pos.row line pos.col)) }
    {
        let Some(cell) = self.opened.open_at(pos.col) else {
            return Ok(());
        };
        self.table.pen.push_vertical(buf, pos, line)?;
        self.push_cell_line(buf, cell, pos.col)
    }
}
