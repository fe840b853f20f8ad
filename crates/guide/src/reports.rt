//! Reports: a price list, an invoice and a bill, how tests ended, sales with the best ones in a frame, an order whose
//! items are a table in one of its cells, and what is in stock.
//!
//! ```text
//! │ north │     12 │     31 │      8 │
//! │       │        ┏━━━━━━━━┓        │
//! │ south │     40 ┃     57 ┃     22 │
//! ```
//!
//! The contracts of the price list say that all lines are equally wide: each function keeps the table's glyphs and
//! fills one column wide.
//!
//! No line goes through a cell that takes several columns, such as a heading, a total or a panel:
//! [`Table::with_span_crossings`] draws the crossings on its edge by the lines that meet there.
//!
//! A stock has a title above it and a word below, in existing lines. For rows that are wider than the screen, an
//! item has rows in place of columns, or each one is a block of keys and values. Rows of blocks are pushed one
//! after another. Keys are lent and headings are made, and both are cells of one table without a copy.

ghost use Rattle.std.specs.Prelude.{IfOk, string_bytes};
ghost use Rattle.pg_table.specs.Even.{IsEvenText, IsNarrowLook};

use crate::rows::rows_of;
use pg_config::SpannedConfig;
use pg_layout::{
    AlignmentHorizontal, Border, Borders, Color, Entity, HorizontalLine, Indent, Position, Sides,
};
use pg_table::{Table, TableFault};
use std::alloc::{AllocError, Global};
use std::borrow::CowStr;

const PRICES: &[&[&str]] = &[
    &["name", "quantity", "price"],
    &["apples", "12", "3.50"],
    &["rye bread\n(sliced)", "1", "14.20"],
];

/// The table of the prices, with a line below its header.
pub(crate) fn prices(alloc: Global) -> Result<String, TableFault>
    ensures even { IfOk result (λ text. IsEvenText (string_bytes text)) }
{
    framed(alloc)?
        .with_header_line(HorizontalLine::sharp())?
        .to_string(alloc)
}

// The prices between borders, numbers at the right.
fn framed(alloc: Global) -> Result<Table<&'static str>, TableFault>
    ensures narrow { IfOk result (λ table. IsNarrowLook table.config) }
{
    let table = Table::new(alloc, rows_of(alloc, PRICES)?)?
        .with_borders(Borders::sharp())
        .with_numbers_right()?;
    Ok(spaced(table))
}

// A space at both sides of each text.
fn spaced(table: Table<&'static str>) -> Table<&'static str>
    requires narrow { IsNarrowLook table.config }
    ensures narrow { IsNarrowLook result.config }
{
    let beside = Indent { size: 1, fill: ' ' };
    let above = Indent { size: 0, fill: ' ' };
    table.with_padding(Sides {
        left: beside,
        right: beside,
        top: above,
        bottom: above,
    })
}

const INVOICE: &[&[&str]] = &[
    &["Invoice 2041", "", "", ""],
    &["item", "quantity", "price", "amount"],
    &["tea", "2", "3.50", "7.00"],
    &["cups", "6", "1.25", "7.50"],
    &["total", "", "", "14.50"],
];

/// The invoice: words at the left; the heading takes all four columns, and the word beside the total three.
pub(crate) fn invoice(alloc: Global) -> Result<String, TableFault> {
    let mut table = Table::new(alloc, rows_of(alloc, INVOICE)?)?
        .with_borders(Borders::modern())
        .with_padding(Sides::spaces(1, 0))
        .with_alignment(AlignmentHorizontal::Right)
        .with_column_alignment(0, AlignmentHorizontal::Left)?
        .with_column_span(Position::new(0, 0), 4)?
        .with_column_span(Position::new(4, 0), 3)?;
    // The side of a single cell is set in the table's configuration.
    let heading = Entity::Cell(0, 0);
    table
        .config_mut()
        .set_alignment_horizontal(heading, AlignmentHorizontal::Center)?;
    table
        .with_span_crossings(alloc, Borders::modern())?
        .to_string(alloc)
}

const BILL: &[&[&str]] = &[
    &["Bill"],
    &["soup", "4.20"],
    &["rice", "6.50"],
    &["total", "10.70"],
];

/// A bill over two dishes.
pub(crate) fn bill(alloc: Global) -> Result<String, TableFault> {
    Table::padded(alloc, rows_of(alloc, BILL)?, "")?
        .with_borders(Borders::rounded())
        .with_padding(Sides::spaces(1, 0))
        .with_column_alignment(1, AlignmentHorizontal::Right)?
        .with_panel(0)?
        .with_row_line(1, HorizontalLine::sharp())?
        .with_foot_line(HorizontalLine::sharp())?
        .with_span_crossings(alloc, Borders::rounded())?
        .to_string(alloc)
}

const TESTS: &[&[&str]] = &[
    &["suite", "passed", "failed"],
    &["reader", "118", "0"],
    &["printer", "40", "2"],
    &["total", "158", "2"],
];

/// How tests ended. Suites are green, or red if a test failed.
pub(crate) fn tests(alloc: Global) -> Result<String, TableFault> {
    let mut table = numbers(alloc, TESTS)?
        .with_header_line(HorizontalLine::sharp())?
        .with_foot_line(HorizontalLine::sharp())?;
    for row in 1..table.count_rows() {
        let color = match table.text(Position::new(row, 2)) {
            Some("0") => Color::green(),
            _ => Color::red(),
        };
        table = table.with_color(alloc, Entity::Cell(row, 0), color)?;
    }
    table.to_string(alloc)
}

// A table whose numbers are at the right.
fn numbers(alloc: Global, texts: &[&[&'static str]]) -> Result<Table<&'static str>, TableFault> {
    Table::new(alloc, rows_of(alloc, texts)?)?
        .with_borders(Borders::rounded())
        .with_padding(Sides::spaces(1, 0))
        .with_numbers_right()
}

const SALES: &[&[&str]] = &[
    &["", "spring", "summer", "autumn"],
    &["north", "12", "31", "8"],
    &["south", "40", "57", "22"],
];

/// Sales by region: 30 and more are on yellow, and the best summer is in a frame.
pub(crate) fn sales(alloc: Global) -> Result<String, TableFault> {
    let best = Position::new(2, 2);
    let thick = Border::full('━', '━', '┃', '┃', '┏', '┓', '┗', '┛');
    let mut table = numbers(alloc, SALES)?.with_frame(best, best, thick)?;
    for row in 1..table.count_rows() {
        for column in 1..table.count_columns() {
            if is_hot(table.text(Position::new(row, column))) {
                let cell = Entity::Cell(row, column);
                table = table.with_ground(alloc, cell, Color::plain().on_yellow())?;
            }
        }
    }
    table.to_string(alloc)
}

// Whether a text is a number of 30 or more.
fn is_hot(text: Option<&str>) -> bool {
    match text.unwrap_or("").parse::<u32>() {
        Ok(number) => 30 <= number,
        Err(_) => false,
    }
}

// The items of an order.
const ITEMS: &[&[&str]] = &[&["tea", "2"], &["cups", "6"]];

/// An order, in a cell of which is the table of its items.
pub(crate) fn order(alloc: Global) -> Result<String, TableFault> {
    let items = Table::new(alloc, rows_of(alloc, ITEMS)?)?.to_string(alloc)?;
    let number = vec![in alloc; CowStr::Borrowed("order"), CowStr::Borrowed("7")]?;
    let items = vec![in alloc; CowStr::Borrowed("items"), CowStr::Owned(items)]?;
    Table::new(alloc, vec![in alloc; number, items]?)?
        .with_borders(Borders::rounded())
        .to_string(alloc)
}

const ITEM: &[&[&str]] = &[&["item", "in stock", "price"], &["tea", "12", "3.50"]];

/// An item, each of whose columns is a row.
pub(crate) fn item(alloc: Global) -> Result<String, TableFault> {
    let item = Table::new(alloc, rows_of(alloc, ITEM)?)?;
    item.transposed(alloc)?
        .with_borders(Borders::psql())
        .with_padding(Sides::spaces(1, 0))
        .to_string(alloc)
}

/// The stock with a title.
pub(crate) fn titled(alloc: Global) -> Result<String, TableFault> {
    let rows = rows_of(alloc, &[&["tea", "12"], &["rice, brown", "3"]])?;
    Table::new(alloc, rows)?
        .with_borders(Borders::rounded())
        .with_padding(Sides::spaces(1, 0))
        .with_title(alloc, 0, " Stock ", AlignmentHorizontal::Center)?
        .with_caption(alloc, " 2 items ", AlignmentHorizontal::Right)?
        .to_string(alloc)
}

// The items of a stock: name, how many there are, the price.
const STOCK: [[&str; 3]; 2] = [["tea", "12", "3.50"], ["rice, brown", "3", "14.20"]];

/// The table of the blocks.
pub(crate) fn blocks(alloc: Global) -> Result<String, TableFault> {
    let mut table = Table::new(alloc, Vec::new(alloc))?
        .with_borders(Borders::psql())
        .with_padding(Sides::spaces(1, 0));
    for (before, item) in STOCK.iter().enumerate() {
        push_block(alloc, &mut table, before.saturating_add(1), *item)?;
    }
    table.to_string(alloc)
}

// Adds a heading with the record's number, and below it a row for each key.
fn push_block(
    alloc: Global,
    table: &mut Table<CowStr<'static>>,
    number: usize,
    [name, count, price]: [&'static str; 3],
) -> Result<(), TableFault> {
    let row = table.count_rows();
    head(table.config_mut(), row)?;
    let heading = format!(in alloc; "RECORD {number}")?;
    table.push_row(vec![in alloc; CowStr::Owned(heading), CowStr::Borrowed("")]?)?;
    for (key, value) in [("item", name), ("in stock", count), ("price", price)] {
        table.push_row(vec![in alloc; CowStr::Borrowed(key), CowStr::Borrowed(value)]?)?;
    }
    Ok(())
}

// The heading in this row takes both columns, below a line without a crossing.
fn head(config: &mut SpannedConfig, row: usize) -> Result<(), AllocError> {
    let line = HorizontalLine {
        intersection: Some('-'),
        ..HorizontalLine::psql()
    };
    config.set_column_span(Position::new(row, 0), 2)?;
    config.set_row_line(row, 2, line)
}
