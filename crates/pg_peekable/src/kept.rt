//! What is kept of cells from one of their lines to the next, so that it isn't worked out again.

ghost use Rattle.std.specs.Prelude.{◌≡◌, ⊤, ◌≤◌, ◌<◌, ℕ, List, IfSome, drop, length, slice_index_or, string_bytes, [], None};
ghost use Rattle.pg_layout.specs.LineCursor.{StandsIn, line_number};
ghost use Rattle.pg_layout.specs.Text.{lines_of};
ghost use Rattle.pg_picture.specs.Inside.{line_if};
ghost use Rattle.pg_peekable.specs.Inside.{Reads, IsReading, IsKept, IsRectangle, IsSeparator, AllSlots};
ghost use Rattle.std.proofs.Props.{props};

use crate::rectangle::Rectangle;
use pg_layout::{LineCursor, Position};
use pg_picture::{CellPlace, SeparatorKeeper, TableMarker};
use std::alloc::{AllocError, Allocator};
use std::marker::PhantomData;

/// The place of a text's lines in their cell, and how far the text was read.
#[derive(Debug, Clone, Copy)]
pub(super) struct Reading {
    pub(super) place: CellPlace,
    // The number of the line at the cursor.
    next: usize,
    cursor: LineCursor,
}

impl Reading {
    pub(super) fn new(place: CellPlace) -> Reading
        ensures place { result.place ≡ place }
        ensures reads { (text : List ℕ) → Reads result text }
    {
        Reading {
            place,
            next: 0,
            cursor: LineCursor::new(),
        }
    }

    // The line of this number, or an empty one. It is found at once if it is the next one.
    pub(super) fn line_if<'t>(&mut self, text: &'t str, line: Option<usize>) -> &'t str
        requires reads { Reads self.old text.now }
        requires there { IfSome line (λ k. k < length (lines_of text.now)) }
        ensures line { result.now ≡ line_if text.now line }
        ensures reads { Reads self.new text.now }
        ensures place { self.new.place ≡ self.old.place }
    {
        match line {
            Some(line) => self.line(text, line),
            None => "",
        }
    }

    fn line<'t>(&mut self, text: &'t str, line: usize) -> &'t str
        requires reads { Reads self.old text.now }
        requires there { line < length (lines_of text.now) }
        ensures line { result.now ≡ slice_index_or (lines_of text.now) line [] }
        ensures reads { Reads self.new text.now }
        ensures place { self.new.place ≡ self.old.place }
    {
        let mut cursor = self.cursor_at(text, line);
        let found = cursor.next_line(text).unwrap_or("");
        self.cursor = cursor;
        self.next = line + 1;
        found
    }

    // A cursor at the line of this number: this one, moved on, or a new one for an earlier line.
    fn cursor_at(&self, text: &str, line: usize) -> LineCursor
        requires reads { Reads self.now text.now }
        requires there { line < length (lines_of text.now) }
        ensures stands { StandsIn result text.now }
        ensures number { line_number result text.now ≡ line }
    {
        if line < self.next {
            return moved(LineCursor::new(), text, 0, line);
        }
        moved(self.cursor, text, self.next, line)
    }
}

fn moved(mut cursor: LineCursor, text: &str, from: usize, to: usize) -> LineCursor
    requires stands { StandsIn cursor text.now }
    requires from { line_number cursor text.now ≡ from }
    requires order { from ≤ to }
    requires there { to < length (lines_of text.now) }
    ensures stands { StandsIn result text.now }
    ensures number { line_number result text.now ≡ to }
{
    for _ in from..to {
        let _line = cursor.next_line(text);
    }
    cursor
}

/// A cell whose text was read as far as its last line needed.
#[derive(Debug, Clone, Copy)]
pub(super) struct KeptCell {
    rectangle: Rectangle,
    reading: Reading,
}

/// The rectangle of a cell, and how many of its lines are above a row.
pub(super) struct KeptRectangle<T: TableMarker> {
    pub(super) rectangle: Rectangle,
    pub(super) row: usize,
    pub(super) above: usize,
    pub(super) of: PhantomData<T>,
    ghost is: { IsRectangle T.table rectangle row above } by { Prim.hlevel props },
}

impl<T: TableMarker> Clone for KeptRectangle<T> {
    ghost is_clone = { λ rectangle clone. clone ≡ rectangle };

    ghost is_infallible = { λ _. ⊤ };

    fn clone(&self) -> Result<Self, AllocError> {
        Ok(*self)
    }
}

impl<T: TableMarker> Copy for KeptRectangle<T> {}

/// No slot of so many columns holds anything.
pub(super) fn no_slots<T: Copy, const COLUMNS: usize>() -> [Option<T>; COLUMNS]
    ensures { (column : ℕ) → slice_index_or result column None ≡ None }
{
    [None; COLUMNS]
}

/// What is kept of the cells of a table whose left column has a slot, at most one for each column,
/// and the text of a separator between two rows, if all of these are equal.
#[derive(Drop)]
pub(super) struct KeptCells<'k, T: TableMarker> {
    cells: &'k mut [Option<KeptCell>],
    rectangles: &'k mut [Option<KeptRectangle<T>>],
    separator: SeparatorKeeper<'k>,
    of: PhantomData<T>,
    ghost are_cells: { AllSlots (IsKept T.table) cells.now } by { Prim.hlevel props },
    ghost is_separator: { IfSome separator.text (IsSeparator T.table) } by { Prim.hlevel props },
}

impl<'k, T: TableMarker> KeptCells<'k, T> {
    // Nothing is kept in these slots, which are as many as there are columns of which it may be,
    // and in the room of the separator.
    #[inline(always)]
    pub(super) fn new(
        cells: &'k mut [Option<KeptCell>],
        rectangles: &'k mut [Option<KeptRectangle<T>>],
        separator: &'k mut [u8],
    ) -> KeptCells<'k, T>
        requires cells { (column : ℕ) → slice_index_or cells.old column None ≡ None }
    {
        KeptCells {
            cells,
            rectangles,
            separator: SeparatorKeeper::new(separator),
            of: PhantomData,
        }
    }

    pub(super) fn reading(&self, rectangle: Rectangle) -> Option<Reading>
        ensures { IfSome result (IsReading T.table rectangle) }
    {
        if rectangle.corner.col >= self.cells.len() {
            return None;
        }
        let cell = self.cells[rectangle.corner.col]?;
        if cell.rectangle == rectangle {
            Some(cell.reading)
        } else {
            None
        }
    }

    pub(super) fn keep_reading(&mut self, rectangle: Rectangle, reading: Reading)
        requires reading { IsReading T.table rectangle reading }
    {
        if rectangle.corner.col < self.cells.len() {
            self.cells[rectangle.corner.col] = Some(KeptCell { rectangle, reading });
        }
    }

    pub(super) fn rectangle(&self, corner: Position, row: usize) -> Option<KeptRectangle<T>>
        ensures of { IfSome result (λ kept. (kept.rectangle.corner ≡ corner) × (kept.row ≤ row)) }
    {
        if corner.col >= self.rectangles.len() {
            return None;
        }
        let kept = self.rectangles[corner.col]?;
        if kept.rectangle.corner == corner && kept.row <= row {
            Some(kept)
        } else {
            None
        }
    }

    pub(super) fn keep_rectangle(&mut self, kept: KeptRectangle<T>) {
        let column = kept.rectangle.corner.col;
        if column < self.rectangles.len() {
            self.rectangles[column] = Some(kept);
        }
    }

    #[inline(always)]
    pub(super) fn separator(&self) -> Option<&str>
        ensures { IfSome result (λ text. IsSeparator T.table text.now) }
    {
        self.separator.text()
    }

    #[inline(always)]
    pub(super) fn keep_separator<A: Allocator>(&mut self, buf: &String<A>, from: usize)
        requires text { IsSeparator T.table (drop from (string_bytes buf.now)) }
    {
        self.separator.keep(buf, from);
    }
}
