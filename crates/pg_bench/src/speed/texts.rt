//! What the cells of the tables say, in memory or made as it is asked for, and their sizes.

ghost use Rattle.std.specs.Prelude.{◌≡◌, ◌<◌, None, replicate, length};
ghost use Rattle.pg_layout.specs.Records.{text_at};

use crate::case::CaseFault;
use crate::speed::case::{Table, Words};
use pg_layout::{
    ConstantDimension, ExactRecords, PeekableRecords, Position, Records, VecRecords, count_lines,
    get_line, get_line_width, get_text_width,
};
use std::alloc::{AllocError, Global};
use std::iter::{RepeatN, repeat_n};

/// What each cell says where all say the same.
pub(crate) const SAME: &str = "abc";

/// The sizes of a table's columns and rows, in memory.
pub(crate) fn sizes(alloc: Global, table: &Table) -> Result<ConstantDimension, AllocError> {
    Ok(ConstantDimension(
        vec![in alloc; table.width; table.columns]?,
        vec![in alloc; table.height; table.rows]?,
    ))
}

/// The texts of a table.
pub(crate) fn records(alloc: Global, table: &Table) -> Result<VecRecords<String>, CaseFault> {
    let mut rows = Vec::new(alloc);
    for row in 0..table.rows {
        rows.push(texts_of_row(alloc, row, table)?)?;
    }
    VecRecords::new(rows).map_err(CaseFault::from)
}

fn texts_of_row(alloc: Global, row: usize, table: &Table) -> Result<Vec<String>, AllocError> {
    let mut texts = Vec::new(alloc);
    for column in 0..table.columns {
        let mut text = String::new(alloc);
        match table.words {
            Words::Letters => push_letters(&mut text, (row, column, 0), 10),
            Words::Lines => push_lines(&mut text, row, column),
            Words::Wide => push_wide(&mut text, row, column),
            Words::Long => push_long(&mut text, table.height),
            Words::Same => text.push_str(SAME),
        }?;
        texts.push(text)?;
    }
    Ok(texts)
}

// A size from 1 to `most` that varies from cell to cell and from line to line.
fn spread((row, column, line): (usize, usize, usize), most: usize) -> usize {
    if most == 0 || most > 100 {
        return 1;
    }
    1 + (7 * (row % most) + 3 * (column % most) + 5 * (line % most)) % most
}

// At most so many letters of the alphabet, of which the first one varies, too.
fn push_letters(
    text: &mut String,
    place: (usize, usize, usize),
    most: usize,
) -> Result<(), AllocError> {
    let first = place.0 % 26 + place.1 % 26 + place.2 % 26;
    for k in 0..spread(place, most) {
        let letter = (first % 26 + k % 26) % 26;
        text.push(char::from(b'a' + letter as u8))?;
    }
    Ok(())
}

// Three lines of a cell, each a word between spaces, or a space alone.
fn push_lines(text: &mut String, row: usize, column: usize) -> Result<(), AllocError> {
    let blank = match (row % 4 + column % 4) % 4 {
        1 => Some(0),
        3 => Some(2),
        _ => None,
    };
    for (line, spaces) in [(0, ""), (1, " "), (2, "  ")] {
        if line > 0 {
            text.push('\n')?;
        }
        if blank != Some(line) {
            text.push_str(spaces)?;
            push_letters(text, (row, column, line), 7)?;
        }
        text.push(' ')?;
    }
    Ok(())
}

// One to five characters of two columns each.
fn push_wide(text: &mut String, row: usize, column: usize) -> Result<(), AllocError> {
    for k in 0..spread((row, column, 0), 5) {
        let number = (31 * (row % 2000) + 17 * (column % 2000) + 7 * (k % 2000)) % 2000;
        let c = char::from_u32(0x4e00 + number as u32).unwrap_or('?');
        text.push(c)?;
    }
    Ok(())
}

// So many lines, one at least.
fn push_long(text: &mut String, lines: usize) -> Result<(), AllocError> {
    text.push_str(SAME)?;
    for _ in 1..lines {
        text.push('\n')?;
        text.push_str(SAME)?;
    }
    Ok(())
}

/// Records of so many rows and columns whose cells all say the same, and which don't say how many
/// rows there are. They take no memory.
#[derive(Clone, Copy)]
pub(crate) struct MadeRecords {
    pub(crate) text: &'static str,
    pub(crate) rows: usize,
    pub(crate) columns: usize,
}

impl MadeRecords {
    // The text at a place.
    fn text_at(&self, pos: Position) -> &str
        requires row { pos.row < length (replicate self.now.rows (replicate self.now.columns self.now.text.now)) }
        requires column { pos.col < self.now.columns }
        ensures { result.now ≡ text_at (replicate self.now.rows (replicate self.now.columns self.now.text.now)) pos }
    {
        self.text
    }
}

impl Records for MadeRecords {
    type Cell = &'static str;

    type Columns = RepeatN<&'static str>;

    type Rows = RepeatN<RepeatN<&'static str>>;

    ghost texts = { λ r. replicate r.rows (replicate r.columns r.text.now) };

    ghost columns = { λ r. r.columns };

    ghost hint = { λ r. None };

    fn iter_rows(self) -> RepeatN<RepeatN<&'static str>> {
        repeat_n(repeat_n(self.text, self.columns), self.rows)
    }

    fn count_columns(&self) -> usize {
        self.columns
    }

    fn hint_count_rows(&self) -> Option<usize> {
        None
    }
}

impl ExactRecords for MadeRecords {
    fn count_rows(&self) -> usize {
        self.rows
    }
}

impl PeekableRecords for MadeRecords {
    fn get_text(&self, pos: Position) -> &str {
        self.text_at(pos)
    }

    fn get_line(&self, pos: Position, line: usize) -> &str {
        get_line(self.text_at(pos), line)
    }

    fn count_lines(&self, pos: Position) -> usize {
        count_lines(self.text_at(pos))
    }

    fn get_line_width(&self, pos: Position, line: usize) -> usize {
        get_line_width(get_line(self.text_at(pos), line))
    }

    fn get_width(&self, pos: Position) -> usize {
        get_text_width(self.text_at(pos))
    }
}
