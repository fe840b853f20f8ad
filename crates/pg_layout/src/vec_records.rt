//! Rows of cells in memory.

ghost use Rattle.std.specs.Prelude.{◌≡◌, ◌==◌, ◌<◌, ◌||◌, ◌++◌, ◌∷◌, if◌then◌else◌, ℕ, not, [], List, slice_index_or};
ghost use Rattle.std.specs.Prelude.{map, length, position, Some, None, Err, MatchOption, IfOk, OnErr, OnOk, option_map};
ghost use Rattle.std.specs.Result.{result_err};
ghost use Rattle.std.specs.Iterator.{YieldsFirstBy, item_count, at_most};
ghost use Rattle.std.specs.Vec.{vec_len};
ghost use Rattle.std.specs.Vec.Iter.{into_iter_items, into_iter_len, into_iter_steps};
ghost use Rattle.pg_layout.specs.Records.{cell_of, columns_of, push_fault_text, ragged_row, records_fault_text, text_at, with_cell};
ghost use Rattle.pg_layout.specs.Text.{lines_of};
ghost use Rattle.pg_layout.specs.declared.vec_records.PushFault.TheVariants as push_fault;
ghost use Rattle.pg_layout.specs.declared.vec_records.RecordsFault.TheVariants.{Ragged};

use crate::position::Position;
use crate::records::{ExactRecords, PeekableRecords, Records};
use crate::text::{count_lines, get_line, get_line_width, get_text_width};
use std::alloc::{AllocFailed, Allocator, Global};
use std::convert::AsStr;
use std::error::Error;
use std::marker::Model;
use std::vec::IntoIter;
use std::{fmt, mem};

/// The cells of a row in memory, as their texts.
#[derive(Debug, Drop)]
pub struct VecColumns<'a, T> {
    cells: &'a [T],
}

impl<'a, T: AsStr> Iterator for VecColumns<'a, T> {
    type Item = &'a str;

    ghost next_gives = { YieldsFirstBy (λ x. x.now) (λ s. map T.text s.cells.now) };

    ghost remaining = { item_count (λ s. map T.text s.cells.now) };

    fn next(&mut self) -> Option<&'a str> {
        let (first, rest) = self.cells.split_first()?;
        self.cells = rest;
        Some(first.as_str())
    }
}

/// The rows of records in memory.
#[derive(Debug, Drop)]
pub struct VecRows<'a, T, A: Allocator = Global> {
    rows: &'a [Vec<T, A>],
}

impl<'a, T: AsStr, A: Allocator> Iterator for VecRows<'a, T, A> {
    type Item = VecColumns<'a, T>;

    ghost next_gives = { YieldsFirstBy (λ c. map T.text c.cells.now) (λ s. map (λ row. map T.text row.items) s.rows.now) };

    ghost remaining = { item_count (λ s. map (λ row. map T.text row.items) s.rows.now) };

    fn next(&mut self) -> Option<VecColumns<'a, T>> {
        let (first, rest) = self.rows.split_first()?;
        self.rows = rest;
        Some(VecColumns {
            cells: first.as_slice(),
        })
    }
}

/// The cells of a row in memory, given themselves.
#[derive(Debug)]
pub struct OwnedColumns<T, A: Allocator = Global> {
    cells: IntoIter<T, A>,
}

// Written out, like that of the rows, so that it is proved here, once for all cells, and not by
// each program that drops cells.
impl<T: Drop, A: Allocator> Drop for OwnedColumns<T, A> {
    fn drop(self) {
        let OwnedColumns { cells } = self;
        drop(cells);
    }
}

impl<T: Drop, A: Allocator> Iterator for OwnedColumns<T, A> {
    type Item = T;

    ghost next_gives = { λ s r t. into_iter_steps s.cells r t.cells };

    ghost remaining = { λ s. at_most (into_iter_len s.cells) };

    fn next(&mut self) -> Option<T> {
        self.cells.next()
    }
}

/// The rows of records in memory, given themselves.
#[derive(Debug)]
pub struct OwnedRows<T, A: Allocator = Global> {
    rows: IntoIter<Vec<T, A>, A>,
}

impl<T: Drop, A: Allocator> Drop for OwnedRows<T, A> {
    fn drop(self) {
        let OwnedRows { rows } = self;
        drop(rows);
    }
}

impl<T: Drop, A: Allocator> Iterator for OwnedRows<T, A> {
    type Item = OwnedColumns<T, A>;

    ghost next_gives = { λ s r t. MatchOption r (into_iter_steps s.rows None t.rows)
        (λ row. (cells : _) × into_iter_steps s.rows (Some cells) t.rows × ((into_iter_items row.cells ≡ cells.items) × (into_iter_len row.cells ≡ vec_len cells))) };

    ghost remaining = { λ s. at_most (into_iter_len s.rows) };

    fn next(&mut self) -> Option<OwnedColumns<T, A>> {
        match self.rows.next() {
            Some(row) => Some(OwnedColumns {
                cells: row.into_iter(),
            }),
            None => None,
        }
    }
}

/// Why rows can't be records.
#[derive(Debug, Clone, Copy, PartialEq, Eq)]
pub enum RecordsFault {
    /// This row, counted from 0, is the first whose length differs from that of row 0.
    Ragged(usize),
}

/// Writes which row has another length than row 0.
impl fmt::Display for RecordsFault {
    ghost output = { λ fault. Some (records_fault_text fault) };

    fn fmt<W: fmt::Write>(&self, f: &mut fmt::Formatter<W>) -> fmt::Result {
        let RecordsFault::Ragged(row) = self;
        write!(f, "row {row} has another length than row 0")
    }
}

impl Error for RecordsFault {}

/// Why a row isn't added to records.
#[derive(Debug, Clone, Copy, PartialEq, Eq)]
pub enum PushFault {
    /// The row would have this number, counted from 0, and has another length than row 0.
    Ragged(usize),
    /// Out of memory.
    Memory,
}

impl<T: Drop> From<AllocFailed<T>> for PushFault {
    ghost from_gives = { λ _ fault. fault ≡ push_fault.Memory };

    fn from(_error: AllocFailed<T>) -> PushFault {
        PushFault::Memory
    }
}

/// Writes which row has another length than row 0, or that memory is out.
impl fmt::Display for PushFault {
    ghost output = { λ fault. Some (push_fault_text fault) };

    fn fmt<W: fmt::Write>(&self, f: &mut fmt::Formatter<W>) -> fmt::Result {
        match self {
            PushFault::Ragged(row) => write!(f, "{}", RecordsFault::Ragged(*row)),
            PushFault::Memory => write!(f, "out of memory"),
        }
    }
}

impl Error for PushFault {}

/// Rows of cells in memory, all of one length.
///
/// Pass the records themselves to a printer if nothing else needs them: the printer then owns them,
/// so it can be kept and returned, and a streaming one drops each cell once it is drawn. Pass
/// `&VecRecords` if they are read again. Neither copies a cell.
#[derive(Debug)]
pub struct VecRecords<T, A: Allocator = Global> {
    rows: Vec<Vec<T, A>, A>,
}

// Written out, so that a caller's proof has one call when it drops records. A derived drop is
// unfolded there down to the rows, at each `?`.
impl<T: Drop, A: Allocator> Drop for VecRecords<T, A> {
    fn drop(self) {
        let VecRecords { rows } = self;
        drop(rows);
    }
}

impl<T, A: Allocator> Model for VecRecords<T, A> {
    ghost use Rattle.std.specs.Prelude.{◌≡◌, List, map, None};
    ghost use Rattle.pg_layout.specs.Records.{ragged_row};

    ghost Value = { List (List T) };

    ghost view = { λ r. map (λ row. row.items) r.rows.items };

    ghost invariant = { λ r. ragged_row (map (λ row. row.items) r.rows.items) ≡ None };
}

impl<T: AsStr + Drop, A: Allocator> VecRecords<T, A> {
    /// The records with these rows, as they are, or an error if they aren't all of one length.
    ///
    /// Allocates nothing. Refused rows are dropped.
    pub fn new(rows: Vec<Vec<T, A>, A>) -> Result<VecRecords<T, A>, RecordsFault>
        ensures rows { IfOk result (λ records. records ≡ map (λ row. row.items) rows.items) }
        ensures exact { result_err result ≡ option_map Ragged (ragged_row (map (λ row. row.items) rows.items)) }
    {
        match find_ragged(&rows) {
            Some(row) => Err(RecordsFault::Ragged(row)),
            None => Ok(VecRecords { rows }),
        }
    }
}

impl<T: Drop, A: Allocator> VecRecords<T, A> {
    /// Adds a row below the others. The error is `Ragged` with its number if there is a row 0 of
    /// another length, else `Memory`. After an error the records are unchanged, and the row is
    /// dropped. The first row of records without rows may have any length.
    pub fn push_row(&mut self, row: Vec<T, A>) -> Result<(), PushFault>
        ensures ok { OnOk result (self.new ≡ self.old ++ row.items ∷ []) }
        ensures err { OnErr result (self.new ≡ self.old) }
        ensures ragged { (number : ℕ) → ragged_row (self.old ++ row.items ∷ []) ≡ Some number → result ≡ Err (push_fault.Ragged number) }
        ensures memory { (fault : PushFault) → ragged_row (self.old ++ row.items ∷ []) ≡ None → result ≡ Err fault → fault ≡ push_fault.Memory }
    {
        match find_ragged_below(&self.rows, row.len()) {
            Some(number) => Err(PushFault::Ragged(number)),
            None => {
                self.rows.push(row)?;
                Ok(())
            }
        }
    }
}

impl<T: Drop, A: Allocator> VecRecords<T, A> {
    /// Puts a cell in the place of another, which it returns. Outside of the records nothing changes,
    /// and the cell is dropped.
    pub fn replace(&mut self, pos: Position, cell: T) -> Option<T>
        ensures cells { self.new ≡ with_cell pos cell self.old }
        ensures former { result ≡ cell_of pos self.old }
    {
        if pos.row < self.rows.len() && pos.col < self.rows[pos.row].len() {
            return Some(mem::replace(&mut self.rows[pos.row][pos.col], cell));
        }
        None
    }
}

impl<T: AsStr, A: Allocator> VecRecords<T, A> {
    fn text_at(&self, pos: Position) -> &str
        requires row { pos.row < length (map (λ row. map T.text row) self.now) }
        requires column { pos.col < columns_of self.now }
        ensures { result.now ≡ text_at (map (λ row. map T.text row) self.now) pos }
    {
        self.rows[pos.row][pos.col].as_str()
    }
}

// The length of the first row, or 0 if there are no rows.
fn first_length<T, A: Allocator>(rows: &[Vec<T, A>]) -> usize
    ensures { result ≡ columns_of (map (λ row. row.items) rows.now) }
{
    match rows.first() {
        Some(row) => row.len(),
        None => 0,
    }
}

// The first row whose length is not this.
fn find_other_length<T, A: Allocator>(rows: &[Vec<T, A>], columns: usize) -> Option<usize>
    ensures { result ≡ position (λ row. not (length row.items == columns)) rows.now }
{
    rows.iter().position(|row| row.len() != columns)
}

// The first row whose length differs from that of the first.
fn find_ragged<T, A: Allocator>(rows: &[Vec<T, A>]) -> Option<usize>
    ensures { result ≡ ragged_row (map (λ row. row.items) rows.now) }
{
    find_other_length(rows, first_length(rows))
}

// The number of a row of so many cells below these, if there is a first row of another length.
fn find_ragged_below<T, A: Allocator>(rows: &[Vec<T, A>], cells: usize) -> Option<usize>
    ensures { result ≡ (if (length rows.now == 0) || (cells == columns_of (map (λ row. row.items) rows.now)) then None else Some (length rows.now)) }
{
    if rows.is_empty() || cells == first_length(rows) {
        None
    } else {
        Some(rows.len())
    }
}

impl<'a, T: AsStr, A: Allocator> Records for &'a VecRecords<T, A> {
    type Cell = &'a str;

    type Columns = VecColumns<'a, T>;

    type Rows = VecRows<'a, T, A>;

    ghost texts = { λ r. map (λ row. map T.text row) r.now };

    ghost columns = { λ r. columns_of r.now };

    ghost hint = { λ r. Some (length r.now) };

    fn iter_rows(self) -> VecRows<'a, T, A> {
        VecRows {
            rows: self.rows.as_slice(),
        }
    }

    fn count_columns(&self) -> usize {
        first_length(&self.rows)
    }

    fn hint_count_rows(&self) -> Option<usize> {
        Some(self.count_rows())
    }
}

impl<T: AsStr, A: Allocator> ExactRecords for &VecRecords<T, A> {
    fn count_rows(&self) -> usize {
        self.rows.len()
    }
}

impl<T: AsStr, A: Allocator> PeekableRecords for &VecRecords<T, A> {
    fn get_text(&self, pos: Position) -> &str {
        self.text_at(pos)
    }

    fn get_line(&self, pos: Position, line: usize) -> &str {
        get_line(self.text_at(pos), line)
    }

    fn count_lines(&self, pos: Position) -> usize {
        count_lines(self.text_at(pos))
    }

    fn get_line_width(&self, pos: Position, line: usize) -> usize {
        get_line_width(get_line(self.text_at(pos), line))
    }

    fn get_width(&self, pos: Position) -> usize {
        get_text_width(self.text_at(pos))
    }
}

/// Gives the cells themselves; everything else is as for lent records.
impl<T: AsStr + Drop, A: Allocator> Records for VecRecords<T, A> {
    type Cell = T;

    type Columns = OwnedColumns<T, A>;

    type Rows = OwnedRows<T, A>;

    ghost texts = { λ r. map (λ row. map T.text row) r };

    ghost columns = { λ r. columns_of r };

    ghost hint = { λ r. Some (length r) };

    fn iter_rows(self) -> OwnedRows<T, A> {
        let VecRecords { rows } = self;
        OwnedRows {
            rows: rows.into_iter(),
        }
    }

    fn count_columns(&self) -> usize {
        Records::count_columns(&self)
    }

    fn hint_count_rows(&self) -> Option<usize> {
        Records::hint_count_rows(&self)
    }
}

impl<T: AsStr + Drop, A: Allocator> ExactRecords for VecRecords<T, A> {
    fn count_rows(&self) -> usize {
        ExactRecords::count_rows(&self)
    }
}

impl<T: AsStr + Drop, A: Allocator> PeekableRecords for VecRecords<T, A> {
    fn get_text(&self, pos: Position) -> &str {
        self.text_at(pos)
    }

    fn get_line(&self, pos: Position, line: usize) -> &str {
        get_line(self.get_text(pos), line)
    }

    fn count_lines(&self, pos: Position) -> usize {
        PeekableRecords::count_lines(&self, pos)
    }

    fn get_line_width(&self, pos: Position, line: usize) -> usize {
        PeekableRecords::get_line_width(&self, pos, line)
    }

    fn get_width(&self, pos: Position) -> usize {
        PeekableRecords::get_width(&self, pos)
    }
}
