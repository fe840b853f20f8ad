//! The lines of rows.

ghost use Rattle.std.specs.Prelude.{◌++◌, flat_map};
ghost use Rattle.std.specs.List.{range_with_len};
ghost use Rattle.pg_picture.specs.Appending.{Appends};
ghost use Rattle.pg_picture.specs.Pieces.{written};
ghost use Rattle.pg_picture.specs.Plain.{cell_line};
ghost use Rattle.pg_picture.specs.Table.{row_part, line_of_row, vertical, line_of_cell};
ghost use Rattle.pg_peekable.specs.Inside.{IsReading, IsCellLine, rectangle_at};
ghost use Rattle.std.proofs.Props.{props};

use crate::kept::{KeptCells, Reading};
use crate::lines::LineOfRow;
use crate::looked_up_table::LookedUpTable;
use crate::rectangle::Rectangle;
use pg_layout::{Colors, Dimension, PeekableRecords, Position};
use pg_picture::{PlacedLine, SingleCell, TableMarker, TextKind};
use std::alloc::{AllocError, Allocator};
use std::marker::PhantomData;

/// A line of a cell, which has room for its text: the cell's rectangle, and the number of the line.
#[derive(Drop)]
struct CellLine<T: TableMarker> {
    rectangle: Rectangle,
    number: usize,
    of: PhantomData<T>,
    ghost is: { IsCellLine T.table rectangle number } by { Prim.hlevel props },
}

impl<'g, T, R, D, C, B> LookedUpTable<'g, T, R, D, C, B>
where
    T: TableMarker,
    R: PeekableRecords,
    D: Dimension,
    C: Colors,
    B: Allocator,
{
    pub(super) fn push_line_of_row<A: Allocator>(
        &self,
        buf: &mut String<A>,
        kept: &mut KeptCells<'_, T>,
        line: &LineOfRow<T>,
    ) -> Result<(), AllocError>
        ensures { Appends buf.old buf.new result (written (line_of_row T.table line.now.row line.now.number)) }
    {
        self.push_parts(buf, kept, line)?;
        self.push_end(buf, line)
    }

    fn push_parts<A: Allocator>(
        &self,
        buf: &mut String<A>,
        kept: &mut KeptCells<'_, T>,
        line: &LineOfRow<T>,
    ) -> Result<(), AllocError>
        ensures { Appends buf.old buf.new result (written (flat_map (row_part T.table line.now.row line.now.number) (range_with_len 0 T.table.columns))) }
    {
        if self.is_spanned {
            return self.push_spanned_parts(buf, kept, line);
        }
        for column in 0..self.sheet.columns {
            self.push_part(buf, kept, line, column)?;
        }
        Ok(())
    }

    #[inline(always)]
    pub(super) fn push_part<A: Allocator>(
        &self,
        buf: &mut String<A>,
        kept: &mut KeptCells<'_, T>,
        line: &LineOfRow<T>,
        column: usize,
    ) -> Result<(), AllocError>
        requires cell { IsCellLine T.table (rectangle_at T.table line.now.row column) line.now.number }
        ensures { Appends buf.old buf.new result (written (vertical T.table line.now.row line.now.number column) ++ written (cell_line T.table line.now.row column line.now.number)) }
    {
        let rectangle = Rectangle {
            corner: Position::new(line.row, column),
            width: self.pen().width_of(column),
            height: line.height,
        };
        self.push_vertical(buf, line, column)?;
        self.push_cell(buf, kept, rectangle, line.number)
    }

    fn push_end<A: Allocator>(
        &self,
        buf: &mut String<A>,
        line: &LineOfRow<T>,
    ) -> Result<(), AllocError>
        ensures { Appends buf.old buf.new result (written (row_part T.table line.now.row line.now.number T.table.columns)) }
    {
        self.push_vertical(buf, line, self.sheet.columns)
    }

    #[inline(always)]
    pub(super) fn push_vertical<A: Allocator>(
        &self,
        buf: &mut String<A>,
        line: &LineOfRow<T>,
        column: usize,
    ) -> Result<(), AllocError>
        ensures { Appends buf.old buf.new result (written (vertical T.table line.now.row line.now.number column)) }
    {
        let pos = Position::new(line.row, column);
        self.pen().push_vertical(buf, pos, line.number)
    }

    #[inline(always)]
    pub(super) fn push_cell<A: Allocator>(
        &self,
        buf: &mut String<A>,
        kept: &mut KeptCells<'_, T>,
        rectangle: Rectangle,
        number: usize,
    ) -> Result<(), AllocError>
        requires cell { IsCellLine T.table rectangle number }
        ensures { Appends buf.old buf.new result (written (line_of_cell T.table rectangle.corner rectangle.width rectangle.height number)) }
    {
        if rectangle.height == 1 {
            let cell: SingleCell<'_, T> = SingleCell {
                pos: rectangle.corner,
                width: rectangle.width,
                text: self.text_of(rectangle.corner),
                kind: TextKind::Any,
                of: PhantomData,
            };
            return self.pen().push_single(buf, cell);
        }
        let line = CellLine {
            rectangle,
            number,
            of: PhantomData,
        };
        self.push_tall_cell(buf, kept, line)
    }

    // A line of a cell that has more. Its text is read on from its last line if that is kept.
    fn push_tall_cell<A: Allocator>(
        &self,
        buf: &mut String<A>,
        kept: &mut KeptCells<'_, T>,
        line: CellLine<T>,
    ) -> Result<(), AllocError>
        ensures { Appends buf.old buf.new result (written (line_of_cell T.table line.rectangle.corner line.rectangle.width line.rectangle.height line.number)) }
    {
        let text = self.text_of(line.rectangle.corner);
        let mut reading = self.reading_of(kept, &line);
        let place = reading.place;
        let shown = reading.line_if(text, place.text_line_at(line.number));
        kept.keep_reading(line.rectangle, reading);
        let placed: PlacedLine<'_, T> = PlacedLine {
            pos: line.rectangle.corner,
            width: line.rectangle.width,
            place,
            number: line.number,
            text: shown,
            of: PhantomData,
        };
        self.pen().push_placed_line(buf, placed)
    }

    // How far the text of a line's cell was read: as far as is kept, or not at all.
    fn reading_of(&self, kept: &KeptCells<'_, T>, line: &CellLine<T>) -> Reading
        ensures { IsReading T.table line.now.rectangle result }
    {
        match kept.reading(line.rectangle) {
            Some(reading) => reading,
            None => {
                let Rectangle {
                    corner,
                    width,
                    height,
                } = line.rectangle;
                let text = self.text_of(corner);
                Reading::new(self.pen().place_of(text, corner, width, height))
            }
        }
    }
}
