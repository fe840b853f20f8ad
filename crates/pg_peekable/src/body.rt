//! The lines of the body, one below the other.

ghost use Rattle.std.specs.Prelude.{◌≡◌, ◌≤◌, ◌+◌, [], ◌∷◌, length, map, IfOk};
ghost use Rattle.std.specs.List.{range_with_len};
ghost use Rattle.pg_config.specs.Config.{has_horizontal};
ghost use Rattle.pg_picture.specs.Appending.{Appends};
ghost use Rattle.pg_picture.specs.Inside.{body_text};
ghost use Rattle.pg_picture.specs.Marks.{sep, line as line_mark, only_if, marks_of_row, marks_above};
ghost use Rattle.pg_picture.specs.Table.{Known, table_body};
ghost use Rattle.pg_peekable.specs.Inside.{HasRow, HasRoom};

use crate::kept::KeptCells;
use crate::lines::{LineOfRow, Separator};
use crate::looked_up_table::LookedUpTable;
use pg_layout::{Colors, Dimension, PeekableRecords};
use pg_picture::TableMarker;
use std::alloc::{AllocError, Allocator};
use std::marker::PhantomData;

impl<'g, T, R, D, C, B> LookedUpTable<'g, T, R, D, C, B>
where
    T: TableMarker,
    R: PeekableRecords,
    D: Dimension,
    C: Colors,
    B: Allocator,
{
    pub(super) fn push_body<A: Allocator>(
        &self,
        buf: &mut String<A>,
        kept: &mut KeptCells<'_, T>,
    ) -> Result<(), AllocError>
        ensures { Appends buf.old buf.new result (body_text Known T.table T.table.config.margin.top.size 0 (table_body T.table)) }
    {
        let mut index = 0;
        for row in 0..self.rows {
            index = self.push_row(buf, kept, row, index)?;
        }
        self.push_last(buf, kept, index)
    }

    fn push_row<A: Allocator>(
        &self,
        buf: &mut String<A>,
        kept: &mut KeptCells<'_, T>,
        row: usize,
        index: usize,
    ) -> Result<usize, AllocError>
        requires row { HasRow T.table row index }
        ensures lines { Appends buf.old buf.new result (body_text Known T.table T.table.config.margin.top.size index (marks_of_row T.table.config T.table.height row)) }
        ensures index { IfOk result (λ next. next ≡ index + length (marks_of_row T.table.config T.table.height row)) }
    {
        let next = self.push_above(buf, kept, row, index)?;
        self.push_lines(buf, kept, row, next)
    }

    fn push_above<A: Allocator>(
        &self,
        buf: &mut String<A>,
        kept: &mut KeptCells<'_, T>,
        row: usize,
        index: usize,
    ) -> Result<usize, AllocError>
        requires room { index + length (only_if (has_horizontal T.table.config row T.table.rows) (sep row)) ≤ length (table_body T.table) }
        ensures lines { Appends buf.old buf.new result (body_text Known T.table T.table.config.margin.top.size index (only_if (has_horizontal T.table.config row T.table.rows) (sep row))) }
        ensures index { IfOk result (λ next. next ≡ index + length (only_if (has_horizontal T.table.config row T.table.rows) (sep row))) }
    {
        if !self.has_separator(row) {
            return Ok(index);
        }
        let separator = Separator {
            row,
            of: PhantomData,
        };
        self.push_separator_line(buf, kept, &separator, index)?;
        Ok(index + 1)
    }

    fn push_last<A: Allocator>(
        &self,
        buf: &mut String<A>,
        kept: &mut KeptCells<'_, T>,
        index: usize,
    ) -> Result<(), AllocError>
        requires room { index + length (only_if (has_horizontal T.table.config T.table.rows T.table.rows) (sep T.table.rows)) ≤ length (table_body T.table) }
        ensures { Appends buf.old buf.new result (body_text Known T.table T.table.config.margin.top.size index (only_if (has_horizontal T.table.config T.table.rows T.table.rows) (sep T.table.rows))) }
    {
        self.push_above(buf, kept, self.rows, index)?;
        Ok(())
    }

    fn push_lines<A: Allocator>(
        &self,
        buf: &mut String<A>,
        kept: &mut KeptCells<'_, T>,
        row: usize,
        index: usize,
    ) -> Result<usize, AllocError>
        requires room { HasRoom T.table row index (T.table.height row) }
        ensures lines { Appends buf.old buf.new result (body_text Known T.table T.table.config.margin.top.size index (map (line_mark row) (range_with_len 0 (T.table.height row)))) }
        ensures index { IfOk result (λ next. next ≡ index + T.table.height row) }
    {
        let height = self.pen().height_of(row);
        for number in 0..height {
            let line = LineOfRow {
                row,
                height,
                number,
                of: PhantomData,
            };
            self.push_line(buf, kept, &line, index + number)?;
        }
        Ok(index + height)
    }

    fn push_line<A: Allocator>(
        &self,
        buf: &mut String<A>,
        kept: &mut KeptCells<'_, T>,
        line: &LineOfRow<T>,
        index: usize,
    ) -> Result<(), AllocError>
        ensures { Appends buf.old buf.new result (body_text Known T.table T.table.config.margin.top.size index (line_mark line.now.row line.now.number ∷ [])) }
    {
        let pen = self.pen();
        pen.push_line_start(buf, index)?;
        self.push_line_of_row(buf, kept, line)?;
        pen.push_line_end(buf, index)
    }

    fn push_separator_line<A: Allocator>(
        &self,
        buf: &mut String<A>,
        kept: &mut KeptCells<'_, T>,
        separator: &Separator<T>,
        index: usize,
    ) -> Result<(), AllocError>
        ensures { Appends buf.old buf.new result (body_text Known T.table T.table.config.margin.top.size index (sep separator.now.row ∷ [])) }
    {
        let pen = self.pen();
        pen.push_line_start(buf, index)?;
        self.push_separator(buf, kept, separator)?;
        pen.push_line_end(buf, index)
    }
}
