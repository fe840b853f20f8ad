//! What gives no hint of how much it gives: an iterator that isn't one of the library's, and records that don't give
//! their number of rows.

ghost use Rattle.std.specs.Prelude.{◌≡◌, None, ◌+◌, MatchOption};
ghost use Rattle.std.specs.Iterator.{at_most};

use pg_layout::{ExactRecords, PeekableRecords, Position, Records};

/// Records that don't give their number of rows.
///
/// A test of whether the table fits may count them, and look at their texts.
#[derive(Drop)]
pub struct Unhinted<R> {
    pub(crate) records: R,
}

impl<R> Unhinted<R> {
    /// These records, without the number of their rows.
    pub fn new(records: R) -> Unhinted<R>
        ensures { result.records ≡ records }
    {
        Unhinted { records }
    }
}

impl<R: Records> Records for Unhinted<R> {
    type Cell = R::Cell;

    type Columns = R::Columns;

    type Rows = R::Rows;

    ghost texts = { λ r. R.texts r.records };

    ghost columns = { λ r. R.columns r.records };

    ghost hint = { λ r. None };

    ghost is_readable = { λ r. R.is_readable r.records };

    fn iter_rows(self) -> R::Rows {
        self.records.iter_rows()
    }

    fn count_columns(&self) -> usize {
        self.records.count_columns()
    }

    fn hint_count_rows(&self) -> Option<usize> {
        None
    }
}

impl<R: ExactRecords> ExactRecords for Unhinted<R> {
    fn count_rows(&self) -> usize {
        self.records.count_rows()
    }
}

impl<R: PeekableRecords> PeekableRecords for Unhinted<R> {
    fn get_text(&self, pos: Position) -> &str {
        self.records.get_text(pos)
    }

    fn get_line(&self, pos: Position, line: usize) -> &str {
        self.records.get_line(pos, line)
    }

    fn count_lines(&self, pos: Position) -> usize {
        self.records.count_lines(pos)
    }

    fn get_line_width(&self, pos: Position, line: usize) -> usize {
        self.records.get_line_width(pos, line)
    }

    fn get_width(&self, pos: Position) -> usize {
        self.records.get_width(pos)
    }
}

/// An item that is given a number of times.
///
/// It says no more about its length than an iterator must: its size hint is `(0, None)`. It takes
/// the place of rows from elsewhere whose number nobody knows.
///
/// ```text
/// let mut rows = Repeated::new(["a", "b"], 2);
/// rows.next(); // Some(["a", "b"])
/// rows.next(); // Some(["a", "b"])
/// rows.next(); // None
/// ```
#[derive(Drop)]
pub struct Repeated<T> {
    /// What is given.
    pub item: T,
    /// How many times it is still to be given.
    pub left: usize,
}

impl<T: Copy> Repeated<T> {
    /// Gives `item` so many times.
    pub fn new(item: T, count: usize) -> Repeated<T>
        ensures item { result.item ≡ item }
        ensures left { result.left ≡ count }
    {
        Repeated { item, left: count }
    }
}

impl<T: Copy + Drop> Iterator for Repeated<T> {
    type Item = T;

    ghost next_gives = { λ s r t. MatchOption r (s.left ≡ 0) (λ item. (item ≡ s.item) × (t.item ≡ s.item) × (s.left ≡ t.left + 1)) };

    ghost remaining = { λ s. at_most s.left };

    fn next(&mut self) -> Option<T> {
        if self.left == 0 {
            return None;
        }
        self.left -= 1;
        Some(self.item)
    }
}
