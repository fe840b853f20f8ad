//! Rows of cells: what a table is read from.

ghost use Rattle.std.specs.Prelude.{◌≡◌, ◌<◌, ℕ, [], length, slice_index_or, All, IfSome, Option, ⊤};
ghost use Rattle.pg_layout.specs.Text.{lines_of, width_of, text_width_of};
ghost use Rattle.pg_layout.specs.Records.{Table, Gives, text_at};

use crate::position::Position;
use std::convert::AsStr;

/// Rows of cells that can be read once, from the first to the last.
///
/// Their texts are a list of rows, each with as many texts as there are columns.
pub trait Records {
    /// A cell, which lends its text.
    type Cell: AsStr + Drop;

    /// The cells of a row, from the first to the last.
    type Columns: Iterator<Item = Self::Cell>;

    /// The rows, from the first to the last.
    type Rows: Iterator<Item = Self::Columns>;

    /// The texts of the cells, row by row.
    ghost texts: { Self → Table };

    /// How many cells each row has.
    ghost columns: { Self → ℕ };

    /// How many rows there are, if that is known.
    ghost hint: { Self → Option ℕ };

    /// What must hold before the records are read. Nothing for records in memory; for records of an
    /// iterator, that the iterator gives their texts.
    ghost is_readable: { Self → Type 0 } = { λ _. ⊤ };

    /// The rows: an iterator that gives one iterator for each row, in order, and ends. Each of them
    /// gives the cells of its row, in order, and ends.
    ///
    /// Precondition: the records are readable (`is_readable`). Records in memory always are. For
    /// [`IterRecords`](crate::IterRecords) there is no test: prove what
    /// [`IterRecords::new`](crate::IterRecords::new) says.
    fn iter_rows(self) -> Self::Rows
        requires { is_readable self }
        ensures { Gives
            (Gives (λ x y. Self.Cell.text x ≡ y) Self.Columns.can_next Self.Columns.next_gives Self.Columns.remaining)
            Self.Rows.can_next Self.Rows.next_gives Self.Rows.remaining result (texts self) };

    /// How many cells each row has.
    fn count_columns(&self) -> usize
        ensures value { result ≡ columns self.now }
        ensures even { is_readable self.now → All (λ row. length row ≡ result) (texts self.now) };

    /// How many rows there are, if that is known.
    fn hint_count_rows(&self) -> Option<usize>
        ensures value { result ≡ hint self.now }
        ensures exact { is_readable self.now → IfSome result (λ rows. rows ≡ length (texts self.now)) };
}

/// Rows of cells that know how many rows there are.
pub trait ExactRecords: Records {
    /// How many rows there are.
    fn count_rows(&self) -> usize
        ensures { result ≡ length (Self.texts self.now) };
}

/// Rows of cells that can be read at any place.
///
/// Preconditions: the place lies in the table, whose numbers of rows and columns
/// [`ExactRecords::count_rows`] and [`Records::count_columns`] return, and the line is one of the
/// text's, which [`PeekableRecords::count_lines`] counts.
pub trait PeekableRecords: Records {
    /// The text at a place in the table: its row is below `count_rows`, and its column below
    /// `count_columns`.
    fn get_text(&self, pos: Position) -> &str
        requires row { pos.row < length (Self.texts self.now) }
        requires column { pos.col < Self.columns self.now }
        ensures { result.now ≡ text_at (Self.texts self.now) pos };

    /// A line of the text at a place in the table, counted from 0. The row is below `count_rows`, the
    /// column below `count_columns`, and the line below `count_lines` of the place.
    fn get_line(&self, pos: Position, line: usize) -> &str
        requires row { pos.row < length (Self.texts self.now) }
        requires column { pos.col < Self.columns self.now }
        requires line { line < length (lines_of (text_at (Self.texts self.now) pos)) }
        ensures { result.now ≡ slice_index_or (lines_of (text_at (Self.texts self.now) pos)) line [] };

    /// How many lines the text at a place in the table has. The row is below `count_rows`, and the
    /// column below `count_columns`.
    fn count_lines(&self, pos: Position) -> usize
        requires row { pos.row < length (Self.texts self.now) }
        requires column { pos.col < Self.columns self.now }
        ensures { result ≡ length (lines_of (text_at (Self.texts self.now) pos)) };

    /// How many terminal columns a line of the text at a place in the table takes. The row is below
    /// `count_rows`, the column below `count_columns`, and the line below `count_lines` of the place.
    fn get_line_width(&self, pos: Position, line: usize) -> usize
        requires row { pos.row < length (Self.texts self.now) }
        requires column { pos.col < Self.columns self.now }
        requires line { line < length (lines_of (text_at (Self.texts self.now) pos)) }
        ensures { result ≡ width_of (slice_index_or (lines_of (text_at (Self.texts self.now) pos)) line []) };

    /// How many terminal columns the widest line of the text at a place in the table takes. The row
    /// is below `count_rows`, and the column below `count_columns`.
    fn get_width(&self, pos: Position) -> usize
        requires row { pos.row < length (Self.texts self.now) }
        requires column { pos.col < Self.columns self.now }
        ensures { result ≡ text_width_of (text_at (Self.texts self.now) pos) };
}
