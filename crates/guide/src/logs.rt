//! Logs. One is in colours by name: those of a column, of a row and of a cell, the latest one of which counts.
//! The other one grows: a row for each line of an input is written as soon as the line has come. A message
//! that is wider than its column is wrapped, and its row is as high as it needs.
//!
//! ```text
//! ╭───────┬──────────────────────────╮
//! │ 09:12 │ started                  │
//! ```
//!
//! Words are counted in the same way: a row for each line of an input, with its number of words. No call has a
//! precondition. The first line whose row doesn't fit ends it: the rows above it stay.

use crate::fault::Fault;
use crate::rows::records_of;
use pg_config::{EntityColors, SpannedConfig};
use pg_fit::{Breaking, Fitted, cut, row_height, visible, wrap_row};
use pg_layout::{AlignmentHorizontal, Borders, Color, Entity, EvenDimension, NoColors, Sides};
use pg_stream::{RowStream, SizedStream, StreamFault};
use pg_table::{NaturalTable, TableFault};
use std::alloc::{AllocError, Global};
use std::io::BufRead;

const LEVELS: &[&[&str]] = &[
    &["level", "text"],
    &["info", "ready"],
    &["error", "no room"],
];

/// A log whose levels have colours.
pub(crate) fn levels(alloc: Global) -> Result<String, TableFault> {
    let records = records_of(alloc, LEVELS)?;
    let colors = colors(alloc)?;
    let mut config = SpannedConfig::new(alloc);
    config.set_borders(Borders::psql());
    config.set_padding(Entity::Global, Sides::horizontal(1))?;
    NaturalTable::new(&records, &config, &colors).to_string(alloc)
}

// Levels in green, the headings bold, and one level in red.
fn colors(alloc: Global) -> Result<EntityColors, AllocError> {
    let mut colors = EntityColors::new(alloc);
    for (entity, color) in [
        (Entity::Column(0), Color::green()),
        (Entity::Row(0), Color::plain().bold()),
        (Entity::Cell(2, 0), Color::red()),
    ] {
        colors.set(entity, color.to_ansi(alloc)?)?;
    }
    Ok(colors)
}

/// How wide a time and a message are, in terminal columns.
const WIDTHS: [usize; 2] = [5, 24];

/// Prints the time and the message of each line.
pub(crate) fn print_log<R: BufRead + Drop>(
    rt: &impl Print,
    alloc: Global,
    input: R,
) -> Result<(), Fault> {
    let mut config = SpannedConfig::new(alloc);
    config.set_borders(Borders::rounded());
    config.set_padding(Entity::Global, Sides::horizontal(1))?;
    let dimension = EvenDimension {
        widths: vec![in alloc; WIDTHS[0] + 2, WIDTHS[1] + 2]?,
        height: 1,
    };
    let mut stream = SizedStream::new(alloc, &config, &dimension, &NoColors, 2)?;
    let mut buf = String::new(alloc);
    for line in input.lines(alloc) {
        let row = row_of(alloc, &line?)?;
        stream.push(row_height(&row), row, &mut buf)?;
        print!(rt; "{buf}")?;
        buf.clear();
    }
    stream.finish(&mut buf)?;
    println!(rt; "{buf}").map_err(Fault::from)
}

// The time of a message, up to the first space, and its words, wrapped.
fn row_of(alloc: Global, line: &str) -> Result<Vec<Fitted<String>>, AllocError> {
    let line = visible(alloc, line)?;
    let (time, words) = line.split_once(' ').unwrap_or(("", &line));
    let time = cut(alloc, time, WIDTHS[0], "…")?;
    let cells = vec![in alloc; time, words.to_string(alloc)?]?;
    wrap_row(alloc, cells, &WIDTHS, Breaking::BetweenWords)
}

/// Prints how many words each line has, and the line.
pub(crate) fn print_counts<R: BufRead + Drop>(
    rt: &impl Print,
    alloc: Global,
    input: R,
) -> Result<(), Fault> {
    let mut config = SpannedConfig::new(alloc);
    set_look(&mut config)?;
    let widths = vec![in alloc; 5, 20]?;
    let dimension = EvenDimension { widths, height: 1 };
    let mut stream = RowStream::new(alloc, &config, &dimension, &NoColors, 2, None)?;
    let mut buf = String::new(alloc);
    for line in input.lines(alloc) {
        let row = counted(alloc, line?)?;
        stream = stream.push(row, &mut buf).map_err(line_fault)?;
        print!(rt; "{buf}")?;
        buf.clear();
    }
    stream.finish(&mut buf).map_err(line_fault)?;
    println!(rt; "{buf}").map_err(Fault::from)
}

// The fault of a stream by the number of a line: row 0 is line 1.
fn line_fault(fault: StreamFault) -> Fault {
    match fault {
        StreamFault::Row(row) => Fault::Line(row.saturating_add(1)),
        other => Fault::Stream(other),
    }
}

// The number of a line's words, and the line.
fn counted(alloc: Global, line: String) -> Result<Vec<String>, AllocError> {
    let words = line.split_whitespace().count();
    let count = format!(in alloc; "{words}")?;
    Ok(vec![in alloc; count, line]?)
}

// Verticals, a space at each side of a text, and numbers on the right.
fn set_look(config: &mut SpannedConfig) -> Result<(), AllocError> {
    config.set_borders(Borders {
        left: Some('|'),
        vertical: Some('|'),
        right: Some('|'),
        ..Borders::empty()
    });
    config.set_padding(Entity::Global, Sides::horizontal(1))?;
    config.set_alignment_horizontal(Entity::Column(0), AlignmentHorizontal::Right)
}
