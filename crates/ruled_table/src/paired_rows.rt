//! A record field by field: rows of a field's name and its text. Both are lent, and nothing of them is copied.

ghost use Rattle.std.specs.Prelude.{◌≡◌, ◌<◌, length, Some};
ghost use Rattle.std.specs.Iterator.{YieldsFirstBy, item_count};
ghost use Rattle.pg_layout.specs.Records.{columns_of, text_at};
ghost use Rattle.ruled_table.specs.Columns.{pairs_in, texts_left};

use crate::columns::drawn_at;
use crate::lent_rows::text_in;
use pg_layout::{
    ExactRecords, PeekableRecords, Position, Records, count_lines, get_line, get_line_width,
    get_text_width,
};
use ruled_row::TextRow;

/// The remaining texts of a row: its name, and the text beside it.
#[derive(Drop)]
pub struct PairTexts<'a> {
    name: Option<&'a str>,
    text: Option<&'a str>,
}

impl<'a> Iterator for PairTexts<'a> {
    type Item = &'a str;

    ghost next_gives = { YieldsFirstBy (λ text. text.now) texts_left };

    ghost remaining = { item_count texts_left };

    fn next(&mut self) -> Option<&'a str> {
        match self.name.take() {
            Some(name) => Some(name),
            None => self.text.take(),
        }
    }
}

/// Rows of the names and the texts of a record's fields.
#[derive(Clone, Copy)]
pub struct PairedRows<'a> {
    /// The names.
    pub names: &'a TextRow,
    /// The record.
    pub fields: &'a TextRow,
    /// The place of each row's field in both; `None` in the row of `…`.
    pub places: &'a [Option<usize>],
}

/// The remaining rows.
#[derive(Drop)]
pub struct PairedRowsIter<'a> {
    rows: PairedRows<'a>,
}

impl<'a> Iterator for PairedRowsIter<'a> {
    type Item = PairTexts<'a>;

    ghost next_gives = { YieldsFirstBy texts_left (λ s. pairs_in s.rows) };

    ghost remaining = { item_count (λ s. pairs_in s.rows) };

    fn next(&mut self) -> Option<PairTexts<'a>> {
        let PairedRows {
            names,
            fields,
            places,
        } = self.rows;
        let (place, places) = places.split_first()?;
        self.rows = PairedRows {
            names,
            fields,
            places,
        };
        Some(PairTexts {
            name: Some(drawn_at(names, *place)),
            text: Some(drawn_at(fields, *place)),
        })
    }
}

impl<'a> PairedRows<'a> {
    // The text at a place in the table.
    fn text_at(&self, pos: Position) -> &'a str
        requires row { pos.row < length (pairs_in self.now) }
        requires column { pos.col < columns_of (pairs_in self.now) }
        ensures { result.now ≡ text_at (pairs_in self.now) pos }
    {
        if pos.col == 0 {
            return text_in(self.names, self.places, pos.row);
        }
        text_in(self.fields, self.places, pos.row)
    }
}

impl<'a> Records for PairedRows<'a> {
    type Cell = &'a str;

    type Columns = PairTexts<'a>;

    type Rows = PairedRowsIter<'a>;

    ghost texts = { pairs_in };

    ghost columns = { λ rows. columns_of (pairs_in rows) };

    ghost hint = { λ rows. Some (length rows.places.now) };

    fn iter_rows(self) -> PairedRowsIter<'a> {
        PairedRowsIter { rows: self }
    }

    fn count_columns(&self) -> usize {
        if self.places.is_empty() { 0 } else { 2 }
    }

    fn hint_count_rows(&self) -> Option<usize> {
        Some(self.places.len())
    }
}

impl<'a> ExactRecords for PairedRows<'a> {
    fn count_rows(&self) -> usize {
        self.places.len()
    }
}

impl<'a> PeekableRecords for PairedRows<'a> {
    fn get_text(&self, pos: Position) -> &str {
        self.text_at(pos)
    }

    fn get_line(&self, pos: Position, line: usize) -> &str {
        get_line(self.text_at(pos), line)
    }

    fn count_lines(&self, pos: Position) -> usize {
        count_lines(self.text_at(pos))
    }

    fn get_line_width(&self, pos: Position, line: usize) -> usize {
        get_line_width(get_line(self.text_at(pos), line))
    }

    fn get_width(&self, pos: Position) -> usize {
        get_text_width(self.text_at(pos))
    }
}
