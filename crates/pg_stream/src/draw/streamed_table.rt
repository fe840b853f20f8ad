//! A table that is printed: what all functions take that draw a part of it.

ghost use Rattle.std.specs.Prelude.{◌≡◌, ⊤};
ghost use Rattle.pg_config.specs.Spans.{rect_rows, rect_columns};
ghost use Rattle.pg_picture.specs.Appending.{Appends};
ghost use Rattle.pg_stream.specs.Inside.{top_text, MayBegin, new_cell};

use crate::draw::OpenCell;
use pg_layout::{Colors, Dimension, Position};
use pg_picture::fits::{height_of_rows, width_of_columns};
use pg_picture::{Pen, TableMarker};
use std::alloc::{AllocError, Allocator};
use std::convert::AsStr;

/// A table that is printed.
pub(crate) struct StreamedTable<'f, T: TableMarker, D: Dimension, C: Colors, B: Allocator> {
    pub(crate) pen: Pen<'f, T, D, C, B>,
}

impl<'f, T: TableMarker, D: Dimension, C: Colors, B: Allocator> Clone
    for StreamedTable<'f, T, D, C, B> {
    ghost is_clone = { λ x y. y ≡ x };

    ghost is_infallible = { λ _. ⊤ };

    fn clone(&self) -> Result<Self, AllocError> {
        Ok(*self)
    }
}

impl<'f, T: TableMarker, D: Dimension, C: Colors, B: Allocator> Copy
    for StreamedTable<'f, T, D, C, B> {}

impl<'f, T, D, C, B> StreamedTable<'f, T, D, C, B>
where
    T: TableMarker,
    D: Dimension,
    C: Colors,
    B: Allocator,
{
    #[inline(always)]
    pub(crate) fn rect_rows(self, pos: Position) -> usize
        ensures { result ≡ rect_rows T.table.config.spans pos }
    {
        self.pen.sheet.config.rect_rows(pos)
    }

    #[inline(always)]
    pub(crate) fn rect_size(self, pos: Position) -> (usize, usize)
        ensures rows { result.0 ≡ rect_rows T.table.config.spans pos }
        ensures columns { result.1 ≡ rect_columns T.table.config.spans pos }
    {
        self.pen.sheet.config.rect_size(pos)
    }

    #[inline(always)]
    pub(crate) fn rect_columns(self, pos: Position) -> usize
        ensures { result ≡ rect_columns T.table.config.spans pos }
    {
        self.pen.sheet.config.rect_columns(pos)
    }

    pub(crate) fn push_top<W: Allocator>(
        self,
        buf: &mut String<W>,
        rows: usize,
    ) -> Result<(), AllocError>
        ensures { Appends buf.old buf.new result (top_text T.table.config self.entry.pen.sheet.now.width rows) }
    {
        if rows > 0 {
            return Ok(());
        }
        self.pen.push_top(buf)
    }

    pub(crate) fn begin_cell<S: AsStr>(
        self,
        value: S,
        pos: Position,
        rows: usize,
        columns: usize,
    ) -> OpenCell<S>
        requires rows { rows ≡ rect_rows T.table.config.spans pos }
        requires columns { columns ≡ rect_columns T.table.config.spans pos }
        requires may { MayBegin T.table pos (S.text value) }
        ensures { result ≡ new_cell T.table pos (S.text value) }
    {
        let sheet = self.pen.sheet;
        let width = width_of_columns(
            sheet.config,
            sheet.dimension,
            pos,
            columns,
            sheet.columns,
        ).unwrap();
        let height = height_of_rows(sheet.config, sheet.dimension, pos, rows).unwrap();
        let place = self.pen.place_of(value.as_str(), pos, width, height);
        OpenCell::new(value, pos.row, width, place)
    }
}
