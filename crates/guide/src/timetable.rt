//! Timetables. One of lessons has spans and colours, and given sizes. In one of shifts a day is one cell; it is
//! also HTML and Markdown, and its lines fill 30 terminal columns:
//!
//! ```text
//! │Monday │early│Ada           │
//! │       ├─────┼──────────────┤
//! ```

use crate::fault::Fault;
use crate::rows::{records_of, rows_of};
use pg_config::SpannedConfig;
use pg_layout::{
    AlignmentHorizontal, AlignmentVertical, Border, Borders, Color, ColorsMap, ConstantDimension,
    Entity, Position, Sides,
};
use pg_peekable::{PeekableGrid, TablePrinter};
use pg_table::{Overflow, Table, TableFault};
use std::alloc::{AllocError, Global};

// The texts. Covered cells have one too, which isn't shown.
const LESSONS: &[&[&str]] = &[
    &["hour", "Monday", "Tuesday"],
    &["8-9", "algebra", "physics"],
    &["9-10", "history", ""],
    &["10-11", "sport", ""],
];

/// The lessons of two days, as a table.
pub(crate) fn week(alloc: Global) -> Result<String, Fault> {
    let records = records_of(alloc, LESSONS)?;
    let dimension = sizes(alloc)?;
    let colors = colors(alloc)?;
    let mut config = SpannedConfig::new(alloc);
    set_look(&mut config)?;
    set_spans(&mut config)?;
    let grid = PeekableGrid::new(records, &config, dimension, colors);
    grid.text(alloc).map_err(Fault::from)
}

// The widths of the columns, and the heights of the rows.
fn sizes(alloc: Global) -> Result<ConstantDimension, AllocError> {
    Ok(ConstantDimension(vec![in alloc; 7, 10, 10]?, vec![in alloc; 1; 4]?))
}

// A bold header, and green physics.
fn colors(alloc: Global) -> Result<ColorsMap, AllocError> {
    let (bold, green) = (Color::plain().bold(), Color::green());
    let mut colors = ColorsMap::new(alloc);
    for (row, column, color) in [(0, 0, bold), (0, 1, bold), (0, 2, bold), (1, 2, green)] {
        colors.set(Position::new(row, column), color.to_ansi(alloc)?)?;
    }
    Ok(colors)
}

// Double lines, a space at both sides of each text, and the hours at the right.
fn set_look(config: &mut SpannedConfig) -> Result<(), AllocError> {
    config.set_borders(Borders::extended());
    config.set_padding(Entity::Global, Sides::horizontal(1))?;
    config.set_alignment_horizontal(Entity::Column(0), AlignmentHorizontal::Right)
}

// Physics takes two hours, and sport is on both days. Each is centred in its cells, and no crossing
// points into them.
fn set_spans(config: &mut SpannedConfig) -> Result<(), AllocError> {
    config.set_row_span(Position::new(1, 2), 2)?;
    config.set_alignment_vertical(Entity::Cell(1, 2), AlignmentVertical::Center)?;
    let beside_physics = Border {
        top_left: Some('╣'),
        top_right: Some('║'),
        ..Border::empty()
    };
    config.set_border(Position::new(2, 2), beside_physics)?;
    config.set_column_span(Position::new(3, 1), 2)?;
    config.set_alignment_horizontal(Entity::Cell(3, 1), AlignmentHorizontal::Center)?;
    let round_sport = Border {
        top_left: Some('╩'),
        bottom_left: Some('═'),
        ..Border::empty()
    };
    config.set_border(Position::new(3, 2), round_sport)
}

const SHIFTS: &[&[&str]] = &[
    &["day", "shift", "who"],
    &["Monday", "early", "Ada"],
    &["Monday", "late", "Ben"],
    &["Tuesday", "early", "Cy & Di"],
];

/// The shifts as a table.
pub(crate) fn shifts_list(alloc: Global) -> Result<String, TableFault> {
    let shifts = shifts(alloc)?;
    shifts
        .filled(alloc, 30, 2, Overflow::Cut("…"))?
        .to_string(alloc)
}

/// The shifts as HTML.
pub(crate) fn shifts_page(alloc: Global) -> Result<String, TableFault> {
    Ok(shifts(alloc)?.to_html(alloc)?)
}

/// The shifts as Markdown.
pub(crate) fn shifts_notes(alloc: Global) -> Result<String, TableFault> {
    Ok(shifts(alloc)?.to_markdown(alloc)?)
}

// The table, in which each day is one cell.
fn shifts(alloc: Global) -> Result<Table<&'static str>, TableFault> {
    Table::new(alloc, rows_of(alloc, SHIFTS)?)?
        .with_borders(Borders::modern())
        .with_merged_column(0)?
        .with_span_crossings(alloc, Borders::modern())
}
