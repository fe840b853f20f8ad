//! Texts that others wrote. A table within so many terminal columns has a row for each line of an input, with a tab
//! between two texts:
//!
//! ```text
//! ╭────┬──────────────────────────┬─────╮
//! │name│what it is                │where│
//! ```
//!
//! In a list of files the sizes that come with colours lose them, and long paths keep their ends:
//!
//! ```text
//! ╭──────┬──────────────────╮
//! │ 12 K │ …ide/src/main.rt │
//! ```

use crate::fault::Fault;
use pg_fit::{cut_front, visible, without_escapes};
use pg_layout::{AlignmentHorizontal, Borders, Sides};
use pg_table::{Breaking, Overflow, Table, TableFault};
use std::alloc::{AllocError, Global};
use std::io::BufRead;

/// The table of the rows within a width.
pub(crate) fn table_within<R: BufRead + Drop>(
    alloc: Global,
    input: R,
    width: usize,
) -> Result<String, Fault> {
    let rows = rows_of(alloc, input)?;
    picture(alloc, rows, width).map_err(Fault::from)
}

/// How many columns there are, by the argument, else by the variable `COLUMNS`, if it is a number
/// above 0; without limit if neither is.
pub(crate) fn width_of(argument: Option<&str>, columns: Option<&str>) -> usize {
    let width = argument.and_then(number_of);
    width.or(columns.and_then(number_of)).unwrap_or(usize::MAX)
}

// The number above 0 that a word writes.
fn number_of(word: &str) -> Option<usize> {
    match word.parse() {
        Ok(0) | Err(_) => None,
        Ok(number) => Some(number),
    }
}

// The rows of the input, with visible control characters.
fn rows_of<R: BufRead + Drop>(alloc: Global, input: R) -> Result<Vec<Vec<String>>, Fault> {
    let mut rows = Vec::new(alloc);
    for line in input.lines(alloc) {
        rows.push(row_of(alloc, &line?)?)?;
    }
    Ok(rows)
}

// The texts of a line.
fn row_of(alloc: Global, line: &str) -> Result<Vec<String>, AllocError> {
    let mut row = Vec::new(alloc);
    for text in line.split('\t') {
        row.push(visible(alloc, text)?)?;
    }
    Ok(row)
}

// The table of these rows within a width.
fn picture(alloc: Global, rows: Vec<Vec<String>>, width: usize) -> Result<String, TableFault> {
    let table = Table::new(alloc, rows)?.with_borders(Borders::rounded());
    let how = Overflow::Wrap(Breaking::BetweenWords);
    table.within(alloc, width, how)?.to_string(alloc)
}

// The sizes and paths that another program wrote for a terminal.
const FILES: [(&str, &str); 3] = [
    ("\u{1b}[1m12 K\u{1b}[0m", "crates/guide/src/main.rt"),
    ("\u{1b}[2m340\u{1b}[0m", "README.md"),
    (
        "\u{1b}[1m4 M\u{1b}[0m",
        "crates/pg_table/proofs/Layers.antt",
    ),
];

/// The files, each path within 16 terminal columns.
pub(crate) fn files(alloc: Global) -> Result<String, TableFault> {
    let mut rows = Vec::new(alloc);
    for (size, path) in FILES {
        let size = without_escapes(alloc, size)?;
        let path = cut_front(alloc, path, 16, "…")?;
        rows.push(vec![in alloc; size, path]?)?;
    }
    Table::new(alloc, rows)?
        .with_borders(Borders::rounded())
        .with_padding(Sides::spaces(1, 0))
        .with_column_alignment(0, AlignmentHorizontal::Right)?
        .to_string(alloc)
}
