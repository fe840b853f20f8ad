//! What happens to the open cells in one row: its cells begin, and those that end with it leave.

ghost use Rattle.std.specs.Prelude.{◌≡◌, ◌+◌, ◌<◌, ◌≤◌, ◌^◌, ◌&&◌, ℕ, List, not, nat_lt, true, length, is_some, max, slice_index_or, slice_set, IfSome, None};
ghost use Rattle.std.specs.Iterator.{IsFinite};
ghost use Rattle.pg_config.specs.Spans.{owner, rect_columns};
ghost use Rattle.pg_layout.specs.Position.{at, is_at};
ghost use Rattle.pg_layout.specs.Records.{AlwaysGives};
ghost use Rattle.pg_layout.specs.Text.{Text};
ghost use Rattle.pg_picture.specs.Fits.{spans_fit_columns};
ghost use Rattle.pg_stream.specs.Conditions.{HaveRoom};
ghost use Rattle.pg_stream.specs.Inside.{column_end, IsOwnerAbove, MayBegin, begin_cell, cells_begun, is_done, close_cell, cells_closed};
ghost use Rattle.pg_stream.specs.Placed.{AllOpen};

use crate::draw::{OpenCells, StreamedTable};
use pg_layout::{Colors, Dimension, Position};
use pg_picture::TableMarker;
use std::alloc::Allocator;
use std::convert::AsStr;

impl<'f, T, D, C, B> StreamedTable<'f, T, D, C, B>
where
    T: TableMarker,
    D: Dimension,
    C: Colors,
    B: Allocator,
{
    pub(crate) fn begin<S: AsStr + Drop, A: Allocator, I: Iterator<Item = S>>(
        self,
        opened: &mut OpenCells<S, A>,
        mut cells: I,
        row: usize,
    )
        requires columns { T.table.columns ≡ length opened.old }
        requires spans { spans_fit_columns T.table.config.spans T.table.columns ≡ true }
        requires above { (x : ℕ) → x < T.table.columns → IsOwnerAbove T.table.config.spans row x (slice_index_or opened.old x None) }
        requires can { I.can_next cells × IsFinite (I.remaining cells) }
        requires given { (texts : List Text) × AlwaysGives (λ x y. S.text x ≡ y) I.next_gives cells texts × length texts ≡ T.table.columns × HaveRoom T.table row texts }
        ensures { (texts : List Text) → AlwaysGives (λ x y. S.text x ≡ y) I.next_gives cells texts → opened.new ≡ cells_begun T.table row texts opened.old }
    {
        let mut end = 0;
        for column in 0..self.pen.columns() {
            let Some(value) = cells.next() else {
                return;
            };
            end = self.begin_one(opened, value, row, column, end);
        }
    }

    fn begin_one<S: AsStr + Drop, A: Allocator>(
        self,
        opened: &mut OpenCells<S, A>,
        value: S,
        row: usize,
        column: usize,
        end: usize,
    ) -> usize
        requires column { column < length opened.old }
        requires own { (not (nat_lt column end) && not (is_some (slice_index_or opened.old column None))) ≡ is_at (owner T.table.config.spans row column) row column }
        requires may { is_at (owner T.table.config.spans row column) row column ≡ true → MayBegin T.table (at row column) (S.text value) }
        requires inside { AllOpen (λ x cell. x + rect_columns T.table.config.spans (at cell.begun x) ≤ T.table.columns) opened.old }
        ensures begun { opened.new ≡ slice_set opened.old column (begin_cell T.table row (S.text value) column (slice_index_or opened.old column None)) }
        ensures end { result ≡ max end (column_end T.table.config.spans (slice_index_or opened.new column None) column) }
    {
        if is_free(opened, column, end) {
            let pos = Position::new(row, column);
            let (rows, columns) = self.rect_size(pos);
            opened.put(column, self.begin_cell(value, pos, rows, columns));
            // Shows that the columns of the table are a number.
            let _columns = self.pen.columns();
            return end.max(column + columns);
        }
        self.end_past(opened, column, end)
    }

    pub(crate) fn close<S: AsStr + Drop, A: Allocator>(
        self,
        opened: &mut OpenCells<S, A>,
        row: usize,
    )
        requires columns { T.table.columns ≡ length opened.old }
        requires row { row + 1 < 2 ^ 64 }
        requires begun { AllOpen (λ x cell. cell.begun ≤ row) opened.old }
        ensures { opened.new ≡ cells_closed T.table.config.spans row opened.old }
    {
        for column in 0..self.pen.columns() {
            self.close_one(opened, column, row);
        }
    }

    fn close_one<S: AsStr + Drop, A: Allocator>(
        self,
        opened: &mut OpenCells<S, A>,
        column: usize,
        row: usize,
    )
        requires column { column < length opened.old }
        requires row { row + 1 < 2 ^ 64 }
        requires begun { IfSome (slice_index_or opened.old column None) (λ cell. cell.begun ≤ row) }
        ensures { opened.new ≡ slice_set opened.old column (close_cell T.table.config.spans row column (slice_index_or opened.old column None)) }
    {
        if self.is_done(opened, column, row) {
            opened.clear(column);
            return;
        }
    }

    fn is_done<S: AsStr + Drop, A: Allocator>(
        self,
        opened: &OpenCells<S, A>,
        column: usize,
        row: usize,
    ) -> bool
        requires row { row + 1 < 2 ^ 64 }
        requires begun { IfSome (slice_index_or opened.now column None) (λ cell. cell.begun ≤ row) }
        ensures { result ≡ is_done T.table.config.spans row column (slice_index_or opened.now column None) }
    {
        let Some(cell) = opened.open_at(column) else {
            return false;
        };
        let begun = cell.begun();
        self.rect_rows(Position::new(begun, column)) <= row + 1 - begun
    }
}

fn is_free<S: AsStr + Drop, A: Allocator>(
    opened: &OpenCells<S, A>,
    column: usize,
    end: usize,
) -> bool
    ensures { result ≡ (not (nat_lt column end) && not (is_some (slice_index_or opened.now column None))) }
{
    column >= end && opened.open_at(column).is_none()
}
