//! Records with other texts at some places.

ghost use Rattle.std.specs.Prelude.{◌≡◌, ◌<◌, IfOk, OnOk, OnErr, Some, [], length};
ghost use Rattle.std.specs.Iterator.{YieldsFirstBy, item_count};
ghost use Rattle.pg_layout.specs.Keys.{by_place};
ghost use Rattle.pg_layout.specs.Places.{with_place};
ghost use Rattle.pg_layout.specs.Records.{text_at};
ghost use Rattle.pg_fit.specs.Overlaid.{Overlay, other_text, overlaid, rows_from, row_left};

use pg_layout::{
    ExactRecords, PeekableRecords, Places, Position, Records, count_lines, get_line,
    get_line_width, get_text_width,
};
use std::alloc::{AllocError, Allocator, Global};
use std::marker::Model;

/// Records with other texts at some places: those set for a place, of which the latest counts. Only
/// these take memory; a look-up searches among them.
///
/// Lend it to a printer: `&OverlaidRecords` is [`Records`], and can be read at any place. The records
/// below may be a reference themselves, so nothing is copied.
#[derive(Debug)]
pub struct OverlaidRecords<R, A: Allocator = Global> {
    records: R,
    others: Places<Position, String<A>, A>,
    // Whether the columns with this remainder have their own texts: in most of them no other one is
    // set, so that none is searched for their cells.
    own: [bool; 8],
}

// Written out, so that a caller's proof has one call when it drops the records.
impl<R: Drop, A: Allocator> Drop for OverlaidRecords<R, A> {
    fn drop(self) {
        let OverlaidRecords {
            records,
            others,
            own: _,
        } = self;
        drop(records);
        drop(others);
    }
}

impl<R, A: Allocator> Model for OverlaidRecords<R, A> {
    ghost use Rattle.std.specs.Prelude.{◌≡◌, ◌%◌, None, false, true, slice_index_or};
    ghost use Rattle.pg_layout.specs.Keys.{by_place};
    ghost use Rattle.pg_layout.specs.Places.{value_at};
    ghost use Rattle.pg_layout.specs.declared.position.Position.{Position};
    ghost use Rattle.pg_fit.specs.Overlaid.{Overlay};

    ghost Value = { Overlay R A };

    ghost view = { λ r. record { records = r.records; others = r.others } };

    ghost invariant = { λ r. (p : Position) → slice_index_or r.own (p.col % 8) false ≡ true → value_at by_place p r.others ≡ None };
}

impl<R, A: Allocator> OverlaidRecords<R, A> {
    /// The records with their own texts. Allocates nothing.
    pub fn new(alloc: A, records: R) -> OverlaidRecords<R, A>
        ensures { result ≡ record { records = records; others = [] } }
    {
        OverlaidRecords {
            records,
            others: Places::new(alloc),
            own: [true; 8],
        }
    }

    /// Sets another text for a place, in place of an earlier one. If memory is refused, nothing
    /// changes.
    #[tactic(auto, using(crate::proofs::OverlaidTexts::own_columns))]
    pub fn set(&mut self, pos: Position, text: String<A>) -> Result<(), AllocError>
    where
        A: Clone,
        ensures ok { OnOk result (self.new ≡ record self.old { others = with_place by_place pos text self.old.others }) }
        ensures err { OnErr result (self.new ≡ self.old) }
    {
        self.others.set(pos, text)?;
        self.own[pos.col % 8] = false;
        Ok(())
    }
}

impl<R: PeekableRecords + ExactRecords, A: Allocator> OverlaidRecords<R, A> {
    // How many rows there are, and how many columns.
    fn size(&self) -> (usize, usize)
        ensures { result ≡ (length (R.texts self.now.records), R.columns self.now.records) }
    {
        (self.records.count_rows(), self.records.count_columns())
    }

    #[tactic(auto, using(crate::proofs::OverlaidTexts::own_text))]
    fn other_text(&self, pos: Position) -> &str
        requires row { pos.row < length (R.texts self.now.records) }
        requires column { pos.col < R.columns self.now.records }
        ensures { result.now ≡ other_text self.now.others (R.texts self.now.records) pos }
    {
        if self.own[pos.col % 8] {
            return self.records.get_text(pos);
        }
        match self.others.get(pos) {
            Some(text) => text.as_str(),
            None => self.records.get_text(pos),
        }
    }

    fn text_at(&self, pos: Position) -> &str
        requires row { pos.row < length (overlaid R.texts R.columns self.now) }
        requires column { pos.col < R.columns self.now.records }
        ensures { result.now ≡ text_at (overlaid R.texts R.columns self.now) pos }
    {
        self.other_text(pos)
    }
}

/// The cells of a row, as their texts.
#[derive(Debug, Drop)]
pub struct OverlaidColumns<'a, R, A: Allocator = Global> {
    records: &'a OverlaidRecords<R, A>,
    row: usize,
    column: usize,
}

impl<'a, R: PeekableRecords + ExactRecords, A: Allocator> Iterator for OverlaidColumns<'a, R, A> {
    type Item = &'a str;

    ghost next_gives = { YieldsFirstBy (λ x. x.now) (λ s. row_left R.texts R.columns s.records.now s.row s.column) };

    ghost remaining = { item_count (λ s. row_left R.texts R.columns s.records.now s.row s.column) };

    fn next(&mut self) -> Option<&'a str> {
        let records = self.records;
        let (rows, columns) = records.size();
        if self.row >= rows || self.column >= columns {
            return None;
        }
        let pos = Position::new(self.row, self.column);
        self.column += 1;
        Some(records.other_text(pos))
    }
}

/// The rows.
#[derive(Debug, Drop)]
pub struct OverlaidRows<'a, R, A: Allocator = Global> {
    records: &'a OverlaidRecords<R, A>,
    row: usize,
}

impl<'a, R: PeekableRecords + ExactRecords, A: Allocator> Iterator for OverlaidRows<'a, R, A> {
    type Item = OverlaidColumns<'a, R, A>;

    ghost next_gives = { YieldsFirstBy (λ s. row_left R.texts R.columns s.records.now s.row s.column) (λ s. rows_from R.texts R.columns s.records.now s.row) };

    ghost remaining = { item_count (λ s. rows_from R.texts R.columns s.records.now s.row) };

    fn next(&mut self) -> Option<OverlaidColumns<'a, R, A>> {
        let (records, row) = (self.records, self.row);
        let (rows, _) = records.size();
        if row >= rows {
            return None;
        }
        self.row += 1;
        Some(OverlaidColumns {
            records,
            row,
            column: 0,
        })
    }
}

impl<'a, R: PeekableRecords + ExactRecords, A: Allocator> Records for &'a OverlaidRecords<R, A> {
    type Cell = &'a str;

    type Columns = OverlaidColumns<'a, R, A>;

    type Rows = OverlaidRows<'a, R, A>;

    ghost texts = { λ r. overlaid R.texts R.columns r.now };

    ghost columns = { λ r. R.columns r.now.records };

    ghost hint = { λ r. Some (length (R.texts r.now.records)) };

    fn iter_rows(self) -> OverlaidRows<'a, R, A> {
        OverlaidRows {
            records: self,
            row: 0,
        }
    }

    #[tactic(auto, using(crate::proofs::OverlaidTexts::overlaid_sizes))]
    fn count_columns(&self) -> usize {
        self.size().1
    }

    #[tactic(auto, using(crate::proofs::OverlaidTexts::overlaid_sizes))]
    fn hint_count_rows(&self) -> Option<usize> {
        Some(self.size().0)
    }
}

impl<R: PeekableRecords + ExactRecords, A: Allocator> ExactRecords for &OverlaidRecords<R, A> {
    #[tactic(auto, using(crate::proofs::OverlaidTexts::overlaid_sizes))]
    fn count_rows(&self) -> usize {
        self.size().0
    }
}

impl<R: PeekableRecords + ExactRecords, A: Allocator> PeekableRecords for &OverlaidRecords<R, A> {
    fn get_text(&self, pos: Position) -> &str {
        self.text_at(pos)
    }

    fn get_line(&self, pos: Position, line: usize) -> &str {
        get_line(self.text_at(pos), line)
    }

    fn count_lines(&self, pos: Position) -> usize {
        count_lines(self.text_at(pos))
    }

    fn get_line_width(&self, pos: Position, line: usize) -> usize {
        get_line_width(get_line(self.text_at(pos), line))
    }

    fn get_width(&self, pos: Position) -> usize {
        get_text_width(self.text_at(pos))
    }
}
