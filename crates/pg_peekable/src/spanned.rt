//! Rows and separators of tables in which cells span rows or columns.

ghost use Rattle.std.specs.Prelude.{◌≡◌, ◌<◌, ◌-◌, ◌++◌, [], ◌∷◌, Some, IfOk, flat_map, cond};
ghost use Rattle.std.specs.List.{range_with_len};
ghost use Rattle.pg_config.specs.Config.{has_horizontal};
ghost use Rattle.pg_config.specs.Spans.{corner, left_span, span_above};
ghost use Rattle.pg_layout.specs.Position.{at};
ghost use Rattle.pg_picture.specs.Appending.{Appends};
ghost use Rattle.pg_picture.specs.Pieces.{written, block};
ghost use Rattle.pg_picture.specs.Inside.{items_after, last_color, rows_height};
ghost use Rattle.pg_picture.specs.Marks.{sep, line as line_mark};
ghost use Rattle.pg_picture.specs.Table.{row_part, separator_part, vertical, block_at, rect_width, rect_height, crossing_at, line_of_cell};
ghost use Rattle.pg_peekable.specs.Inside.{BeginsHere, BeginsAbove, IsOwnerOf, OwnsRow, IsRowFrom};

use crate::kept::{KeptCells, KeptRectangle};
use crate::lines::{LineOfRow, Separator};
use crate::looked_up_table::LookedUpTable;
use crate::rectangle::Rectangle;
use pg_config::Span;
use pg_layout::{ANSIBuf, Colors, Dimension, PeekableRecords, Position};
use pg_picture::fits::{columns_of, height_of_rows, width_of_columns};
use pg_picture::{Run, TableMarker};
use std::alloc::{AllocError, Allocator};
use std::marker::PhantomData;

impl<'g, T, R, D, C, B> LookedUpTable<'g, T, R, D, C, B>
where
    T: TableMarker,
    R: PeekableRecords,
    D: Dimension,
    C: Colors,
    B: Allocator,
{
    pub(super) fn push_spanned_parts<A: Allocator>(
        &self,
        buf: &mut String<A>,
        kept: &mut KeptCells<'_, T>,
        line: &LineOfRow<T>,
    ) -> Result<(), AllocError>
        ensures { Appends buf.old buf.new result (written (flat_map (row_part T.table line.now.row line.now.number) (range_with_len 0 T.table.columns))) }
    {
        let mut column = 0;
        while column < self.sheet.columns {
            let span = self.left_span(Position::new(line.row, column));
            self.push_spanned_part(buf, kept, line, column, span)?;
            column += columns_of(span);
        }
        Ok(())
    }

    fn push_spanned_part<A: Allocator>(
        &self,
        buf: &mut String<A>,
        kept: &mut KeptCells<'_, T>,
        line: &LineOfRow<T>,
        column: usize,
        span: Option<Span>,
    ) -> Result<(), AllocError>
        requires begins { BeginsHere T.table line.now.row column span }
        ensures { Appends buf.old buf.new result (written (row_part T.table line.now.row line.now.number column)) }
    {
        match span {
            None => self.push_part(buf, kept, line, column),
            Some(span) => self.push_rectangle_part(buf, kept, line, column, span),
        }
    }

    fn push_rectangle_part<A: Allocator>(
        &self,
        buf: &mut String<A>,
        kept: &mut KeptCells<'_, T>,
        line: &LineOfRow<T>,
        column: usize,
        span: Span,
    ) -> Result<(), AllocError>
        requires span { left_span T.table.config.spans line.now.row column ≡ Some span }
        ensures { Appends buf.old buf.new result (written (vertical T.table line.now.row line.now.number column) ++ written (block_at T.table (corner span) (line_mark line.now.row line.now.number))) }
    {
        self.push_vertical(buf, line, column)?;
        let rectangle = self.rectangle_at(kept, span, line.row);
        self.push_rectangle(buf, kept, rectangle, rectangle.above + line.number)
    }

    pub(super) fn push_spanned_columns<'s, A: Allocator>(
        &'s self,
        mut run: Run<'s, ANSIBuf<B>>,
        buf: &mut String<A>,
        kept: &mut KeptCells<'_, T>,
        separator: &Separator<T>,
    ) -> Result<Run<'s, ANSIBuf<B>>, AllocError>
        ensures appends { Appends buf.old buf.new result (items_after run.entry (flat_map (separator_part T.table separator.now.row) (range_with_len 0 T.table.columns))) }
        ensures color { IfOk result (λ after. after ≡ last_color run.entry (flat_map (separator_part T.table separator.now.row) (range_with_len 0 T.table.columns))) }
    {
        let mut column = 0;
        while column < self.sheet.columns {
            let span = self.span_above(Position::new(separator.row, column));
            run = self.push_spanned_column(run, buf, kept, separator, column, span)?;
            column += columns_of(span);
        }
        Ok(run)
    }

    fn push_spanned_column<'s, A: Allocator>(
        &'s self,
        run: Run<'s, ANSIBuf<B>>,
        buf: &mut String<A>,
        kept: &mut KeptCells<'_, T>,
        separator: &Separator<T>,
        column: usize,
        span: Option<Span>,
    ) -> Result<Run<'s, ANSIBuf<B>>, AllocError>
        requires begins { BeginsAbove T.table separator.now.row column span }
        ensures appends { Appends buf.old buf.new result (items_after run.entry (separator_part T.table separator.now.row column)) }
        ensures color { IfOk result (λ after. after ≡ last_color run.entry (separator_part T.table separator.now.row column)) }
    {
        match span {
            None => self.push_column(run, buf, Position::new(separator.row, column)),
            Some(span) => self.push_block(run, buf, kept, separator, column, span),
        }
    }

    fn push_block<'s, A: Allocator>(
        &'s self,
        run: Run<'s, ANSIBuf<B>>,
        buf: &mut String<A>,
        kept: &mut KeptCells<'_, T>,
        separator: &Separator<T>,
        column: usize,
        span: Span,
    ) -> Result<Run<'s, ANSIBuf<B>>, AllocError>
        requires span { span_above T.table.config.spans separator.now.row column ≡ Some span }
        ensures appends { Appends buf.old buf.new result (items_after run.entry (crossing_at T.table.config T.table.rows T.table.columns (at separator.now.row column)
            ++ block (block_at T.table (corner span) (sep separator.now.row)) ∷ [])) }
        ensures color { IfOk result (λ after. after
            ≡ last_color run.entry (crossing_at T.table.config T.table.rows T.table.columns (at separator.now.row column) ++ block (block_at T.table (corner span) (sep separator.now.row)) ∷ [])) }
    {
        let pos = Position::new(separator.row, column);
        let run = self.push_crossing(run, buf, pos)?;
        let run = run.close_for_block(buf)?;
        let rectangle = self.rectangle_at(kept, span, separator.row);
        self.push_rectangle(buf, kept, rectangle, rectangle.above - 1)?;
        Ok(run)
    }

    fn rectangle_at(&self, kept: &mut KeptCells<'_, T>, span: Span, row: usize) -> KeptRectangle<T>
        requires owner { OwnsRow T.table span row }
        ensures corner { result.rectangle.corner ≡ corner span }
        ensures row { result.row ≡ row }
    {
        let before = match kept.rectangle(corner_of(span), row) {
            Some(before) => before,
            None => self.rectangle_of(span),
        };
        let rectangle = KeptRectangle {
            rectangle: before.rectangle,
            row,
            above: self.lines_above(before, row),
            of: PhantomData,
        };
        kept.keep_rectangle(rectangle);
        rectangle
    }

    fn rectangle_of(&self, span: Span) -> KeptRectangle<T>
        requires owner { IsOwnerOf T.table span }
        ensures corner { result.rectangle.corner ≡ corner span }
        ensures row { result.row ≡ span.0.row }
    {
        let (corner, sheet) = (corner_of(span), &self.sheet);
        let width = width_of_columns(
            sheet.config,
            sheet.dimension,
            corner,
            span.1.columns,
            sheet.columns,
        )
        .unwrap();
        let height = height_of_rows(sheet.config, sheet.dimension, corner, span.1.rows).unwrap();
        KeptRectangle {
            rectangle: Rectangle {
                corner,
                width,
                height,
            },
            row: corner.row,
            above: 0,
            of: PhantomData,
        }
    }

    // How many lines of a rectangle are above a row, if it is known how many are above an earlier
    // one. Each row comes with the separator below it.
    fn lines_above(&self, known: KeptRectangle<T>, row: usize) -> usize
        requires row { IsRowFrom T.table known.row row }
        ensures { result ≡ rows_height T.table known.rectangle.corner.row (row - known.rectangle.corner.row) }
    {
        let mut lines = known.above;
        for above in known.row..row {
            lines += self.pen().height_of(above) + self.separators_at(above + 1);
        }
        lines
    }

    fn separators_at(&self, row: usize) -> usize
        ensures { result ≡ cond (has_horizontal T.table.config row T.table.rows) 1 0 }
    {
        if self.has_separator(row) { 1 } else { 0 }
    }

    fn push_rectangle<A: Allocator>(
        &self,
        buf: &mut String<A>,
        kept: &mut KeptCells<'_, T>,
        its: KeptRectangle<T>,
        number: usize,
    ) -> Result<(), AllocError>
        requires number { number < rect_height T.table its.rectangle.corner }
        ensures { Appends buf.old buf.new result (written (line_of_cell T.table its.rectangle.corner (rect_width T.table its.rectangle.corner) (rect_height T.table its.rectangle.corner) number)) }
    {
        self.push_cell(buf, kept, its.rectangle, number)
    }
}

fn corner_of(span: Span) -> Position
    ensures { result ≡ corner span }
{
    Position::new(span.0.row, span.0.col)
}
