//! How far a table is printed, and what its next rows and its end append.

ghost use Rattle.std.specs.Prelude.{◌≡◌, ◌⊎◌, ◌+◌, ◌<◌, ◌^◌, ◌∷◌, ◌&&◌, ◌==◌, not, List, None, true, length, map, IsOk, OnOk};
ghost use Rattle.std.specs.Iterator.{IsFinite};
ghost use Rattle.pg_layout.specs.Records.{AlwaysGives, Gives};
ghost use Rattle.pg_layout.specs.Text.{Text};
ghost use Rattle.pg_picture.specs.Appending.{Appends};
ghost use Rattle.pg_stream.specs.Conditions.{AreRowsFrom, RowFits, RowsFit};
ghost use Rattle.pg_stream.specs.Inside.{IsSoundAt, AreOfKind};
ghost use Rattle.pg_stream.specs.Printers.{now_of};
ghost use Rattle.pg_stream.specs.Printing.{row_text, rows_text, finish_text, after_row};
ghost use Rattle.pg_picture.specs.Grids.{bare_table};
ghost use Rattle.pg_stream.specs.Streams.{AppendsIf};

use crate::draw::{OpenCells, OpenLine, StreamedTable};
use crate::fault::StreamFault;
use crate::printer::Frame;
use pg_layout::{Colors, Dimension};
use pg_picture::{Pen, SEPARATOR_ROOM, SeparatorKeeper, TableMarker, TextKind};
use std::alloc::{AllocError, Allocator, Global};
use std::convert::AsStr;
use std::marker::PhantomData;
use std::slice::Iter;
use std::vec::IntoIter;

/// What a row changes of a printer: the cells that continue below, the text of the separators above
/// all rows but the first, if it is kept, how many rows and lines of the body are printed, and
/// whether the last row is among them.
pub(crate) struct Progress<'k, S: AsStr, A: Allocator = Global> {
    pub(crate) cells: OpenCells<S, A>,
    pub(crate) kept: SeparatorKeeper<'k>,
    pub(crate) rows: usize,
    pub(crate) lines: usize,
    pub(crate) is_ended: bool,
}

impl<'k, S: AsStr + Drop, A: Allocator> Drop for Progress<'k, S, A> {
    fn drop(self) {
        let Progress {
            cells,
            kept: _,
            rows: _,
            lines: _,
            is_ended: _,
        } = self;
        drop(cells);
    }
}

impl<S: AsStr + Drop, A: Allocator> Progress<'_, S, A> {
    #[inline(always)]
    pub(crate) fn push_row<'f, T, D, C, B, I, W>(
        &mut self,
        frame: &'f Frame<'f, D, C, B>,
        cells: I,
        kind: TextKind,
        is_last: bool,
        buf: &mut String<W>,
    ) -> Result<(), AllocError>
    where
        T: TableMarker,
        D: Dimension,
        C: Colors,
        B: Allocator,
        I: Iterator<Item = S>,
        W: Allocator,
        requires is { bare_table D.width D.height C.color frame.now.sheet ≡ T.table }
        requires can { I.can_next cells × IsFinite (I.remaining cells) }
        requires sound { IsSoundAt T.table frame.now self.old }
        requires fits { (texts : List Text) × AlwaysGives (λ x y. S.text x ≡ y) I.next_gives cells texts
            × RowFits (now_of T.table frame.now.hint self.old) texts is_last × AreOfKind kind T.table.columns texts }
        ensures sound { OnOk result (IsSoundAt T.table frame.now self.new) }
        ensures appends { (texts : List Text) → AlwaysGives (λ x y. S.text x ≡ y) I.next_gives cells texts
            → Appends buf.old buf.new result (row_text (now_of T.table frame.now.hint self.old) texts is_last) }
        ensures after { (texts : List Text) → AlwaysGives (λ x y. S.text x ≡ y) I.next_gives cells texts
            → OnOk result (now_of T.table frame.now.hint self.new ≡ after_row (now_of T.table frame.now.hint self.old) texts is_last) }
    {
        if frame.is_single(self.rows) {
            return self.push_single::<T, D, C, B, S, I, W>(frame, cells, kind, is_last, buf);
        }
        let table: StreamedTable<'_, T, D, C, B> = StreamedTable {
            pen: Pen {
                sheet: &frame.sheet,
                is_colored: true,
                of: PhantomData,
            },
        };
        let height = table.pen.height_of(self.rows);
        table.push_top(buf, self.rows)?;
        let next = table.push_above(&mut self.cells, &mut self.kept, buf, self.lines, self.rows)?;
        let below = next + height;
        table.begin(&mut self.cells, cells, self.rows);
        table.push_lines(&mut self.cells, buf, next, self.rows)?;
        table.close(&mut self.cells, self.rows);
        self.end_row(below, is_last);
        Ok(())
    }

    #[inline(always)]
    pub(crate) fn try_row<'f, T, D, C, B, V, W>(
        &mut self,
        frame: &'f Frame<'f, D, C, B>,
        cells: Vec<S, V>,
        is_last: bool,
        buf: &mut String<W>,
    ) -> Result<(), StreamFault>
    where
        T: TableMarker,
        D: Dimension,
        C: Colors,
        B: Allocator,
        V: Allocator,
        W: Allocator,
        requires is { bare_table D.width D.height C.color frame.now.sheet ≡ T.table }
        requires sound { IsSoundAt T.table frame.now self.old }
        ensures sound { OnOk result (IsSoundAt T.table frame.now self.new) }
        ensures prints { AppendsIf (RowFits (now_of T.table frame.now.hint self.old) (map S.text cells.items) is_last) self.old.rows
            (row_text (now_of T.table frame.now.hint self.old) (map S.text cells.items) is_last) buf.old buf.new result }
        ensures after { OnOk result (now_of T.table frame.now.hint self.new ≡ after_row (now_of T.table frame.now.hint self.old) (map S.text cells.items) is_last) }
    {
        let Some(kind) = self.kind_if_fits(frame, &cells, is_last) else {
            return Err(StreamFault::Row(self.rows));
        };
        self.push_cells::<T, D, C, B, V, W>(frame, cells, kind, is_last, buf)?;
        Ok(())
    }

    // If the cells of a row are drawn as they come, they are only lent: then nothing of them is
    // moved.
    #[inline(always)]
    pub(crate) fn push_cells<'f, T, D, C, B, V, W>(
        &mut self,
        frame: &'f Frame<'f, D, C, B>,
        cells: Vec<S, V>,
        kind: TextKind,
        is_last: bool,
        buf: &mut String<W>,
    ) -> Result<(), AllocError>
    where
        T: TableMarker,
        D: Dimension,
        C: Colors,
        B: Allocator,
        V: Allocator,
        W: Allocator,
        requires is { bare_table D.width D.height C.color frame.now.sheet ≡ T.table }
        requires sound { IsSoundAt T.table frame.now self.old }
        requires fits { RowFits (now_of T.table frame.now.hint self.old) (map S.text cells.items) is_last }
        requires kind { AreOfKind kind T.table.columns (map S.text cells.items) }
        ensures sound { OnOk result (IsSoundAt T.table frame.now self.new) }
        ensures appends { Appends buf.old buf.new result (row_text (now_of T.table frame.now.hint self.old) (map S.text cells.items) is_last) }
        ensures after { OnOk result (now_of T.table frame.now.hint self.new ≡ after_row (now_of T.table frame.now.hint self.old) (map S.text cells.items) is_last) }
    {
        if frame.is_single(self.rows) {
            return self.push_single::<T, D, C, B, &S, Iter<'_, S>, W>(
                frame,
                cells.iter(),
                kind,
                is_last,
                buf,
            );
        }
        let cells = cells.into_iter();
        self.push_row::<T, D, C, B, IntoIter<S, V>, W>(frame, cells, kind, is_last, buf)
    }

    pub(crate) fn with_room<'r>(self, room: &'r mut [u8]) -> Progress<'r, S, A>
        ensures { result ≡ record self.entry { kept = record { text = None; room = length room.old } } }
    {
        let Progress {
            cells,
            kept: _,
            rows,
            lines,
            is_ended,
        } = self;
        Progress {
            cells,
            kept: SeparatorKeeper::new(room),
            rows,
            lines,
            is_ended,
        }
    }

    #[inline(always)]
    pub(crate) fn end_row(&mut self, lines: usize, is_last: bool)
        requires { self.old.rows + 1 < 2 ^ 64 }
        ensures { self.new ≡ record self.old { rows = self.old.rows + 1; lines = lines; is_ended = is_last } }
    {
        self.rows += 1;
        self.lines = lines;
        self.is_ended = is_last;
    }

    pub(crate) fn push_end<'f, T, D, C, B, W>(
        &self,
        frame: &'f Frame<'f, D, C, B>,
        buf: &mut String<W>,
    ) -> Result<(), AllocError>
    where
        T: TableMarker,
        D: Dimension,
        C: Colors,
        B: Allocator,
        W: Allocator,
        requires is { bare_table D.width D.height C.color frame.now.sheet ≡ T.table }
        requires sound { IsSoundAt T.table frame.now self.now }
        requires ended { (self.now.rows ≡ 0) ⊎ (self.now.is_ended ≡ true) }
        ensures appends { Appends buf.old buf.new result (finish_text (now_of T.table frame.now.hint self.now)) }
        ensures empty { self.now.rows ≡ 0 → IsOk result × (buf.new ≡ buf.old) }
    {
        if self.rows == 0 {
            return Ok(());
        }
        let table: StreamedTable<'_, T, D, C, B> = StreamedTable {
            pen: Pen {
                sheet: &frame.sheet,
                is_colored: true,
                of: PhantomData,
            },
        };
        let line = OpenLine {
            table,
            opened: &self.cells,
        };
        line.push_below(buf, self.lines, self.rows)?;
        let has_last = table.pen.has_horizontal(self.rows, self.rows);
        let is_first = frame.sheet.begins_with_body;
        table
            .pen
            .push_bottom(buf, is_bare(is_first, self.lines, has_last))
    }

    pub(crate) fn push_rows<'f, T, D, C, B, Cells, Rows, W>(
        self,
        frame: &'f Frame<'f, D, C, B>,
        first: Cells,
        rows: Rows,
        buf: &mut String<W>,
    ) -> Result<(), AllocError>
    where
        T: TableMarker,
        D: Dimension,
        C: Colors,
        B: Allocator,
        Cells: Iterator<Item = S>,
        Rows: Iterator<Item = Cells>,
        W: Allocator,
        requires is { bare_table D.width D.height C.color frame.now.sheet ≡ T.table }
        requires rows { Rows.can_next rows × IsFinite (Rows.remaining rows) }
        requires sound { IsSoundAt T.table frame.now self }
        requires given { (cells : List Text) × (texts : List (List Text))
            × AreRowsFrom (Gives (λ x y. S.text x ≡ y) Cells.can_next Cells.next_gives Cells.remaining) Rows.next_gives first rows cells texts
            × RowsFit (now_of T.table frame.now.hint self) (cells ∷ texts) }
        ensures { (cells : List Text) (texts : List (List Text))
            → AreRowsFrom (Gives (λ x y. S.text x ≡ y) Cells.can_next Cells.next_gives Cells.remaining) Rows.next_gives first rows cells texts
            → Appends buf.old buf.new result (rows_text (now_of T.table frame.now.hint self.entry) (cells ∷ texts)) }
    {
        let mut room = [0; SEPARATOR_ROOM];
        let mut progress = self.with_room(&mut room);
        let mut row = first;
        for next in rows {
            progress.push_row::<T, D, C, B, Cells, W>(frame, row, TextKind::Any, false, buf)?;
            row = next;
        }
        progress.push_row::<T, D, C, B, Cells, W>(frame, row, TextKind::Any, true, buf)?;
        progress.push_end::<T, D, C, B, W>(frame, buf)
    }
}

// Whether no line is above the bottom margin: none of the top margin, of the rows, or of the last
// separator.
fn is_bare(is_first: bool, lines: usize, has_last: bool) -> bool
    ensures { result ≡ ((is_first && (lines == 0)) && not has_last) }
{
    is_first && lines == 0 && !has_last
}
