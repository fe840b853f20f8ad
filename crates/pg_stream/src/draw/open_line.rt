//! A line that is drawn: the table, and the cells that are open there.

ghost use Rattle.std.specs.Prelude.{◌≡◌, slice_index_or, None, Some};
ghost use Rattle.pg_picture.specs.Appending.{Appends};
ghost use Rattle.pg_picture.specs.Pieces.{written};
ghost use Rattle.pg_stream.specs.Inside.{AreDrawn, slot_block};
ghost use Rattle.pg_stream.specs.Placed.{slot_of};
ghost use Rattle.std.proofs.Props.{props};

use crate::draw::{OpenCell, OpenCells, StreamedTable};
use pg_layout::{Colors, Dimension, Position};
use pg_picture::{PlacedLine, TableMarker};
use std::alloc::{AllocError, Allocator};
use std::convert::AsStr;
use std::marker::PhantomData;

/// A line of a row or a separator: the table that is printed, and the cells that are open there, each of
/// which shows its next line.
#[derive(Drop)]
pub(crate) struct OpenLine<
    'f,
    'o,
    T: TableMarker,
    S: AsStr,
    D: Dimension,
    C: Colors,
    B: Allocator,
    A: Allocator,
> {
    pub(crate) table: StreamedTable<'f, T, D, C, B>,
    pub(crate) opened: &'o OpenCells<S, A>,
    ghost are_drawn: { AreDrawn T.table opened.now } by { Prim.hlevel props },
}

impl<'f, 'o, T, S, D, C, B, A> OpenLine<'f, 'o, T, S, D, C, B, A>
where
    T: TableMarker,
    S: AsStr + Drop,
    D: Dimension,
    C: Colors,
    B: Allocator,
    A: Allocator,
{
    pub(crate) fn push_cell_line<W: Allocator>(
        &self,
        buf: &mut String<W>,
        cell: &OpenCell<S>,
        column: usize,
    ) -> Result<(), AllocError>
        requires cell { slice_index_or self.now.opened.now column None ≡ Some cell.now }
        ensures { Appends buf.old buf.new result (written (slot_block T.table (slot_of (Some cell.now)) column)) }
    {
        let line: PlacedLine<'_, T> = PlacedLine {
            pos: Position::new(cell.begun(), column),
            width: cell.width(),
            place: cell.place(),
            number: cell.drawn(),
            text: cell.line(),
            of: PhantomData,
        };
        self.table.pen.push_placed_line(buf, line)
    }
}
