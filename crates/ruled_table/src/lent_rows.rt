//! Rows whose texts are fields of records: these are lent, and nothing of them is copied.

ghost use Rattle.std.specs.Prelude.{◌≡◌, ◌<◌, [], length, map, slice_index_or, Some};
ghost use Rattle.std.specs.Iterator.{YieldsFirstBy, item_count};
ghost use Rattle.csv.specs.Records.{fields_of};
ghost use Rattle.pg_layout.specs.Records.{columns_of, text_at};
ghost use Rattle.ruled_table.specs.Columns.{fields_at, texts_of};

use crate::columns::drawn_at;
use pg_layout::{
    ExactRecords, PeekableRecords, Position, Records, count_lines, get_line, get_line_width,
    get_text_width,
};
use ruled_row::TextRow;

/// The text of a row in a column, if each has a place, or an empty text if there is none.
pub(crate) fn text_in<'a>(fields: &'a TextRow, places: &[Option<usize>], column: usize) -> &'a str
    ensures { result.now ≡ slice_index_or (fields_at places.now (fields_of fields.now)) column [] }
{
    match places.get(column) {
        Some(place) => drawn_at(fields, *place),
        None => "",
    }
}

/// The remaining texts of a row.
#[derive(Drop)]
pub struct LentColumns<'a> {
    fields: &'a TextRow,
    places: &'a [Option<usize>],
}

impl<'a> Iterator for LentColumns<'a> {
    type Item = &'a str;

    ghost next_gives = { YieldsFirstBy (λ text. text.now) (λ s. fields_at s.places.now (fields_of s.fields.now)) };

    ghost remaining = { item_count (λ s. fields_at s.places.now (fields_of s.fields.now)) };

    fn next(&mut self) -> Option<&'a str> {
        let (place, places) = self.places.split_first()?;
        self.places = places;
        Some(drawn_at(self.fields, *place))
    }
}

/// Records whose fields at some places are the texts of rows.
#[derive(Clone, Copy)]
pub struct LentRows<'a> {
    /// The records.
    pub records: &'a [TextRow],
    /// The place of each column's field in its record; `None` in the column of `…`.
    pub places: &'a [Option<usize>],
}

/// The remaining rows.
#[derive(Drop)]
pub struct LentRowsIter<'a> {
    rows: LentRows<'a>,
}

impl<'a> Iterator for LentRowsIter<'a> {
    type Item = LentColumns<'a>;

    ghost next_gives = { YieldsFirstBy (λ row. fields_at row.places.now (fields_of row.fields.now)) (λ s. texts_of s.rows) };

    ghost remaining = { item_count (λ s. texts_of s.rows) };

    fn next(&mut self) -> Option<LentColumns<'a>> {
        let LentRows { records, places } = self.rows;
        let (fields, records) = records.split_first()?;
        self.rows = LentRows { records, places };
        Some(LentColumns { fields, places })
    }
}

impl<'a> LentRows<'a> {
    // The text at a place in the table.
    fn text_at(&self, pos: Position) -> &'a str
        requires { pos.row < length (texts_of self.now) }
        ensures { result.now ≡ text_at (texts_of self.now) pos }
    {
        text_in(&self.records[pos.row], self.places, pos.col)
    }
}

impl<'a> Records for LentRows<'a> {
    type Cell = &'a str;

    type Columns = LentColumns<'a>;

    type Rows = LentRowsIter<'a>;

    ghost texts = { texts_of };

    ghost columns = { λ rows. columns_of (texts_of rows) };

    ghost hint = { λ rows. Some (length rows.records.now) };

    fn iter_rows(self) -> LentRowsIter<'a> {
        LentRowsIter { rows: self }
    }

    #[tactic(auto, using(crate::proofs::LentTexts::lent_columns))]
    fn count_columns(&self) -> usize {
        if self.records.is_empty() {
            0
        } else {
            self.places.len()
        }
    }

    fn hint_count_rows(&self) -> Option<usize> {
        Some(self.records.len())
    }
}

impl<'a> ExactRecords for LentRows<'a> {
    fn count_rows(&self) -> usize {
        self.records.len()
    }
}

impl<'a> PeekableRecords for LentRows<'a> {
    fn get_text(&self, pos: Position) -> &str {
        self.text_at(pos)
    }

    fn get_line(&self, pos: Position, line: usize) -> &str {
        get_line(self.text_at(pos), line)
    }

    fn count_lines(&self, pos: Position) -> usize {
        count_lines(self.text_at(pos))
    }

    fn get_line_width(&self, pos: Position, line: usize) -> usize {
        get_line_width(get_line(self.text_at(pos), line))
    }

    fn get_width(&self, pos: Position) -> usize {
        get_text_width(self.text_at(pos))
    }
}
