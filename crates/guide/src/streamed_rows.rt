//! Tables of articles and prices, whose rows come from a vector, from an iterator over it, from arrays
//! and from the parts of lines.
//!
//! It shows the calls that take all rows at once, or rows of any kind: rows that may be errors, by
//! [`print_lines`], and rows that are printed at once, each after the test that it fits, by
//! [`append_fitting`]. None of its functions needs a proof by hand, nor does [`append_rows`], whose
//! contract says what text it appends.

ghost use Rattle.std.specs.Prelude.{◌≡◌, ◌++◌, map, None, OnOk, string_bytes};
ghost use Rattle.pg_stream.specs.Printing.{printer, rows_text};

use crate::fault::Fault;
use crate::rows::rows_of;
use pg_config::SpannedConfig;
use pg_layout::{Borders, Colors, Dimension, Entity, EvenDimension, NoColors, Sides};
use pg_stream::{RowFault, RowPrinter, RowStream, RowsFault, StreamFault};
use std::alloc::{AllocError, AllocFailed, Global};

/// An article and its price.
const COLUMNS: usize = 2;

// Verticals, and a space at each side of a text.
fn set_look(config: &mut SpannedConfig) -> Result<(), AllocError> {
    config.set_borders(Borders {
        left: Some('|'),
        vertical: Some('|'),
        right: Some('|'),
        ..Borders::empty()
    });
    config.set_padding(Entity::Global, Sides::horizontal(1))
}

/// Appends the rows of a vector: after success, the text of all of them.
fn append_rows<D: Dimension, C: Colors>(
    alloc: Global,
    config: &SpannedConfig,
    dimension: &D,
    colors: &C,
    rows: Vec<Vec<&str>>,
    buf: &mut String,
) -> Result<(), StreamFault>
    ensures { OnOk result (string_bytes buf.new ≡ string_bytes buf.old
        ++ rows_text (printer config.now COLUMNS (D.width dimension.now) (D.height dimension.now) (C.color colors.now) None) (map (λ row. map (λ cell. cell.now) row.items) rows.entry.items)) }
{
    let stream = RowStream::new(alloc, config, dimension, colors, COLUMNS, None)?;
    stream.print_vec(rows, buf)
}

// Appends those of the rows that have a price.
fn append_priced(
    alloc: Global,
    config: &SpannedConfig,
    dimension: &EvenDimension,
    rows: Vec<Vec<&str>>,
    buf: &mut String,
) -> Result<(), StreamFault> {
    let stream = RowStream::new(alloc, config, dimension, &NoColors, COLUMNS, None)?;
    stream.print_all(rows.into_iter().filter(|row| row.len() == COLUMNS), buf)
}

// Appends a row of these cells, and one for each line, whose parts commas separate.
fn append_lines<'a>(
    alloc: Global,
    config: &SpannedConfig,
    dimension: &EvenDimension,
    first: [&'a str; COLUMNS],
    lines: &'a str,
    buf: &mut String,
) -> Result<(), StreamFault> {
    let stream = RowStream::new(alloc, config, dimension, &NoColors, COLUMNS, None)?;
    let mut stream = stream.push_from(alloc, first, buf)?;
    for line in lines.lines() {
        stream = stream.push_from(alloc, line.split(','), buf)?;
    }
    stream.finish(buf)
}

/// Why a line isn't a row.
#[derive(Drop)]
enum LineFault {
    /// No comma separates a price from the article.
    NoPrice,
    /// Out of memory for its cells.
    Memory,
}

impl<T: Drop> From<AllocFailed<T>> for LineFault {
    fn from(_error: AllocFailed<T>) -> LineFault {
        LineFault::Memory
    }
}

// The article and the price of a line.
fn cells_of<'a>(alloc: Global, line: &'a str) -> Result<Vec<&'a str>, LineFault> {
    match line.split_once(',') {
        Some((article, price)) => Ok(vec![in alloc; article, price]?),
        None => Err(LineFault::NoPrice),
    }
}

// Prints a row for each line, up to the first one that isn't a row.
fn print_lines(
    alloc: Global,
    config: &SpannedConfig,
    dimension: &EvenDimension,
    lines: &str,
    buf: &mut String,
) -> Result<(), RowsFault<LineFault>> {
    let stream = RowStream::new(alloc, config, dimension, &NoColors, COLUMNS, None)?;
    let mut rows = lines.lines().map(|line| cells_of(alloc, line));
    stream.print_results(&mut rows, buf)
}

// Appends a row for each line. A line without a price ends the list: the rows above it stay,
// except for the latest, and the list says why.
fn append_priced_lines(
    alloc: Global,
    config: &SpannedConfig,
    dimension: &EvenDimension,
    lines: &str,
    buf: &mut String,
) -> Result<(), StreamFault> {
    match print_lines(alloc, config, dimension, lines, buf) {
        Ok(()) => Ok(()),
        Err(RowsFault::Stream(fault)) => Err(fault),
        Err(RowsFault::Source(LineFault::Memory)) => Err(StreamFault::Memory),
        Err(RowsFault::Source(LineFault::NoPrice)) => {
            buf.push_str("\nno price").map_err(StreamFault::from)
        }
    }
}

// Appends those of the rows that fit, and below them the last one. A row that doesn't fit gives
// the printer back.
fn append_fitting<'a>(
    alloc: Global,
    config: &SpannedConfig,
    dimension: &EvenDimension,
    rows: Vec<Vec<&'a str>>,
    last: &[&'a str],
    buf: &mut String,
) -> Result<(), StreamFault> {
    let mut printer = RowPrinter::try_new(alloc, config, dimension, &NoColors, COLUMNS, None)?;
    for row in rows {
        printer = match printer.try_row(row, false, buf) {
            Ok(printer) => printer,
            Err(RowFault::Misfit(printer)) => printer,
            Err(RowFault::Memory) => return Err(StreamFault::Memory),
        };
    }
    append_last(printer, last.to_vec(alloc)?, buf)
}

// Appends the last row after a test of its own, and the line below it.
fn append_last(
    printer: RowPrinter<'_, &str, EvenDimension, NoColors>,
    cells: Vec<&str>,
    buf: &mut String,
) -> Result<(), StreamFault> {
    if !printer.fits(&cells, true) {
        return Err(StreamFault::Row(printer.rows()));
    }
    let printer = printer.row_of(cells, true, buf)?;
    printer.finish(buf).map_err(StreamFault::from)
}

const BAKERY: &[&[&str]] = &[&["bread", "2.10"], &["milk", "0.95"]];

const PRICED: &[&[&str]] = &[&["flour", "1.15"], &["sugar"], &["yeast", "0.70"]];

const TESTED: &[&[&str]] = &[
    &["honey", "4.75"],
    &["strawberries", "5.50"],
    &["plums", "2.20"],
];

// Appends lists: rows of vectors, of which one row has no price; rows of an array and of lines; lines
// of which one has no price; and rows of which one doesn't fit. Dashes are between two lists.
fn append_lists(
    alloc: Global,
    config: &SpannedConfig,
    dimension: &EvenDimension,
    buf: &mut String,
) -> Result<(), StreamFault> {
    let bakery = rows_of(alloc, BAKERY)?;
    append_rows(alloc, config, dimension, &NoColors, bakery, buf)?;
    buf.push_str("\n--\n")?;
    let priced = rows_of(alloc, PRICED)?;
    append_priced(alloc, config, dimension, priced, buf)?;
    buf.push_str("\n--\n")?;
    append_lines(
        alloc,
        config,
        dimension,
        ["oil", "6.00"],
        "eggs,3.10\nbeans,1.05",
        buf,
    )?;
    buf.push_str("\n--\n")?;
    append_priced_lines(alloc, config, dimension, "tea,2.40\njam,3.20\nfigs", buf)?;
    buf.push_str("\n--\n")?;
    let tested = rows_of(alloc, TESTED)?;
    append_fitting(alloc, config, dimension, tested, &["sum", "6.95"], buf)
}

/// All of them, separated by dashes.
pub(crate) fn lists(alloc: Global) -> Result<String, Fault> {
    let mut config = SpannedConfig::new(alloc);
    set_look(&mut config)?;
    let widths = vec![in alloc; 10, 8]?;
    let dimension = EvenDimension { widths, height: 1 };
    let mut buf = String::new(alloc);
    append_lists(alloc, &config, &dimension, &mut buf)?;
    Ok(buf)
}
