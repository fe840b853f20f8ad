//! The lines of a file of cases: how they are read, what each of them is, and why one isn't followed.
//!
//! In each line `␊` is a line feed, `␍` a carriage return, `␛` an escape and `␣` a space; `⟨ab×3⟩`
//! is `ababab`, and `⟨9b⟩` the character U+009B. A block of lines is followed once for each of
//! several values:
//!
//! - `* LINE` is a line of a block. The lines of a block are together; any other line, even an
//!   empty one, ends it. It is followed once for each value that the latest line `each` names. `; `
//!   separates values, and `, ` the parts of a value, which replace `$1` to `$6` in the block.
//! - `cross 0; 1` repeats the next blocks for each value together with each of these, whose parts
//!   come after those of the value.
//! - `repeat 1000` repeats the next blocks a thousand times.

use std::alloc::{AllocError, AllocFailed, Global};
use std::io::{self, Read};

// What a character of a line means.
fn meant(c: char) -> char {
    match c {
        '␊' => '\n',
        '␍' => '\r',
        '␛' => '\u{1b}',
        '␣' => ' ',
        _ => c,
    }
}

// Appends what is in brackets: a text, repeated as often as it says, or the character of a number.
fn push_bracket(alloc: Global, text: &mut String, inner: &str) -> Result<(), AllocError> {
    if let Some((again, count)) = inner.split_once('×') {
        let repeated = again.repeat(alloc, count.parse::<usize>().unwrap_or(0));
        return repeated.and_then(|again| text.push_str(&again));
    }
    match u32::from_str_radix(inner, 16).ok().and_then(char::from_u32) {
        Some(c) => text.push(c),
        None => text.push_str(inner),
    }
}

// What a line means.
fn meaning(alloc: Global, line: &str) -> Result<String, AllocError> {
    let line: String = line.chars().map(meant).collect(alloc)?;
    let mut text = String::new(alloc);
    for part in line.split('⟩') {
        let (front, inner) = part.split_once('⟨').unwrap_or((part, ""));
        text.push_str(front)?;
        push_bracket(alloc, &mut text, inner)?;
    }
    Ok(text)
}

/// The marks in a block for the parts of a value.
const MARKS: [&str; 6] = ["$1", "$2", "$3", "$4", "$5", "$6"];

/// What separates two values.
const BETWEEN: &str = "; ";

/// A line to be followed, and its number in the input, counted from 1.
pub type NumberedLine = (usize, String);

/// The lines to be followed, and the block that is being read.
#[derive(Drop)]
struct Unfolding<'a> {
    alloc: Global,
    // The values for which a block is repeated.
    values: String,
    // The lines of the block that is being read, without their stars.
    block: Vec<(usize, &'a str)>,
    lines: Vec<NumberedLine>,
}

impl<'a> Unfolding<'a> {
    // Takes the line of this number. One without a star ends the block before it.
    fn take(&mut self, number: usize, line: &'a str) -> Result<(), AllocError> {
        if let Some(line) = line.strip_prefix("* ") {
            return self.block.push((number, line)).map_err(AllocError::from);
        }
        self.end_block()?;
        let (word, rest) = line.split_once(' ').unwrap_or((line, ""));
        let values = match (word, rest.parse::<usize>()) {
            ("each", _) => String::from_str(self.alloc, rest),
            ("cross", _) => self.crossed(rest),
            ("repeat", Ok(count)) => BETWEEN.repeat(self.alloc, count.saturating_sub(1)),
            _ => return push_filled(self.alloc, &mut self.lines, (number, line), ""),
        };
        self.values = values?;
        Ok(())
    }

    // Each value together with each of these, whose parts come after its own.
    fn crossed(&self, others: &str) -> Result<String, AllocError> {
        let mut crossed = String::new(self.alloc);
        for value in self.values.split(BETWEEN) {
            for other in others.split(BETWEEN) {
                let between = if crossed.is_empty() { "" } else { BETWEEN };
                let both = format!(in self.alloc; "{between}{value}, {other}")?;
                crossed.push_str(&both)?;
            }
        }
        Ok(crossed)
    }

    // Adds the lines of the block, once for each value.
    fn end_block(&mut self) -> Result<(), AllocError> {
        for value in self.values.split(BETWEEN) {
            for line in &self.block {
                push_filled(self.alloc, &mut self.lines, *line, value)?;
            }
        }
        self.block.clear();
        Ok(())
    }
}

// Adds a line of a block for a value: `$1` is the first part of the value, and so on.
fn push_filled(
    alloc: Global,
    lines: &mut Vec<NumberedLine>,
    (number, line): (usize, &str),
    value: &str,
) -> Result<(), AllocError> {
    let mut text = String::from_str(alloc, line)?;
    for (mark, part) in MARKS.iter().zip(value.split(", ")) {
        text = text.replace(alloc, mark, part)?;
    }
    lines
        .push((number, meaning(alloc, &text)?))
        .map_err(AllocError::from)
}

/// The lines of an input to be followed: those of a block once for each value.
pub fn read_lines<R: Read + Drop>(alloc: Global, input: R) -> io::Result<Vec<NumberedLine>> {
    let text = io::read_to_string(alloc, input)?;
    lines_of(alloc, &text).map_err(io::Error::from)
}

// The lines of a text to be followed: those of a block once for each value.
fn lines_of(alloc: Global, text: &str) -> Result<Vec<NumberedLine>, AllocError> {
    let mut unfolding = Unfolding {
        alloc,
        values: String::new(alloc),
        block: Vec::new(alloc),
        lines: Vec::new(alloc),
    };
    for (i, line) in text.lines().enumerate() {
        unfolding.take(i.saturating_add(1), line)?;
    }
    unfolding.end_block()?;
    let Unfolding {
        alloc: _,
        values: _,
        block: _,
        lines,
    } = unfolding;
    Ok(lines)
}

/// A line of a file of sections, without its mark.
#[derive(Clone, Copy)]
pub enum Line<'a> {
    /// It is empty, or begins with `#`.
    Comment,
    /// A section of this name begins, as `: name` says.
    Section(&'a str),
    /// Another way of doing the same begins, as `or` says.
    Way,
    /// A row of texts, as `|a|b|`, here without its first bar.
    Row(&'a str),
    /// Any other line.
    Words(&'a str),
}

impl<'a> Line<'a> {
    /// What a line says.
    pub fn of(line: &'a str) -> Line<'a> {
        if line.is_empty() || line.starts_with('#') {
            return Line::Comment;
        }
        if line == "or" {
            return Line::Way;
        }
        if let Some(name) = line.strip_prefix(": ") {
            return Line::Section(name);
        }
        match line.strip_prefix('|') {
            Some(row) => Line::Row(row),
            None => Line::Words(line),
        }
    }
}

/// The texts of a row, which has a bar after each of them.
pub fn texts_of_row(alloc: Global, row: &str) -> Result<Vec<&str>, LineFault> {
    if row.is_empty() {
        return Ok(Vec::new(alloc));
    }
    let row = row.strip_suffix('|').ok_or(LineFault::Unknown)?;
    row.split('|').collect(alloc).map_err(LineFault::from)
}

/// Why a line isn't followed.
#[derive(Debug, Clone, Copy, PartialEq, Eq)]
pub enum LineFault {
    /// It has too few, too many or unknown words.
    Unknown,
    /// Out of memory.
    Memory,
}

impl From<AllocError> for LineFault {
    fn from(_error: AllocError) -> LineFault {
        LineFault::Memory
    }
}

impl<T: Drop> From<AllocFailed<T>> for LineFault {
    fn from(_error: AllocFailed<T>) -> LineFault {
        LineFault::Memory
    }
}
