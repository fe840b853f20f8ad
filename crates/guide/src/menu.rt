//! Menus: a heading over both columns, crossings that follow it, and a title. The contracts state
//! the pictures.
//!
//! ```text
//! +- Lunch -+
//! |Monday   |
//! +----+----+
//! ```

ghost use Rattle.std.specs.Prelude.{◌≡◌, [], map, string_bytes, IfOk};
ghost use Rattle.pg_layout.specs.Looks.{ascii, modern};
ghost use Rattle.pg_layout.specs.Position.{at};
ghost use Rattle.pg_config.specs.Config.{default_config};
ghost use Rattle.pg_config.specs.Spans.{with_column_span};
ghost use Rattle.pg_picture.specs.Picture.{picture};
ghost use Rattle.pg_picture.specs.Table.{Known};
ghost use Rattle.pg_table.specs.OwnRows.{crossed, titled};
ghost use Rattle.pg_table.specs.Panels.{over_columns};
ghost use Rattle.pg_table.specs.Printing.{ascii_config, printed_table};

use crate::rows::rows_of;
use pg_config::SpannedConfig;
use pg_layout::{AlignmentHorizontal, Borders, Position};
use pg_table::{Table, TableFault};
use std::alloc::{AllocError, Global};

/// A menu for lunch.
pub(crate) fn lunch(alloc: Global) -> Result<String, TableFault> {
    let rows = rows_of(
        alloc,
        &[&["Monday", ""], &["soup", "4.20"], &["rice", "6.50"]],
    )?;
    menu(alloc, " Lunch ", rows)
}

// The menu of these rows: the first cell takes two columns.
fn menu(alloc: Global, title: &str, rows: Vec<Vec<&str>>) -> Result<String, TableFault>
    ensures { IfOk result (λ text. string_bytes text ≡ picture Known (printed_table (λ text. text.now)
        (titled 0 AlignmentHorizontal.Center title.now (λ text. text.now)
        (crossed ascii
        (over_columns (at 0 0) 2
        (record { rows = map (λ row. row.items) rows.entry.items; config = ascii_config; colors = [] })))))) }
{
    Table::new(alloc, rows)?
        .with_column_span(Position::new(0, 0), 2)?
        .with_span_crossings(alloc, Borders::ascii())?
        .with_title(alloc, 0, title, AlignmentHorizontal::Center)?
        .to_string(alloc)
}

/// A menu for dinner.
pub(crate) fn dinner(alloc: Global) -> Result<String, TableFault> {
    let rows = rows_of(alloc, &[&["Monday", ""], &["fish", "9.80"]])?;
    framed_menu(alloc, " Dinner ", rows)
}

// The menu of these rows between other borders.
fn framed_menu(alloc: Global, title: &str, rows: Vec<Vec<&str>>) -> Result<String, TableFault>
    ensures { IfOk result (λ text. string_bytes text ≡ picture Known (printed_table (λ text. text.now)
        (titled 0 AlignmentHorizontal.Center title.now (λ text. text.now)
        (crossed modern
        (record {
          rows = map (λ row. row.items) rows.entry.items;
          config = record default_config { borders = modern; spans = with_column_span (at 0 0) 2 [] };
          colors = [];
        }))))) }
{
    framed(alloc, rows)?
        .with_span_crossings(alloc, Borders::modern())?
        .with_title(alloc, 0, title, AlignmentHorizontal::Center)?
        .to_string(alloc)
}

// These rows in this look.
fn framed<'a>(alloc: Global, rows: Vec<Vec<&'a str>>) -> Result<Table<&'a str>, TableFault>
    ensures { IfOk result (λ table. table ≡ record {
      rows = map (λ row. row.items) rows.entry.items;
      config = record default_config { borders = modern; spans = with_column_span (at 0 0) 2 [] };
      colors = [];
    }) }
{
    let look = look(alloc)?;
    Ok(Table::new(alloc, rows)?.with_config(look))
}

// The first cell takes two columns.
fn look(alloc: Global) -> Result<SpannedConfig, AllocError>
    ensures { IfOk result (λ config. config ≡ record default_config { borders = modern; spans = with_column_span (at 0 0) 2 [] }) }
{
    let mut config = SpannedConfig::new(alloc);
    config.set_borders(Borders::modern());
    config.set_column_span(Position::new(0, 0), 2)?;
    Ok(config)
}

/// Both menus, beside each other.
pub(crate) fn menus(alloc: Global) -> Result<String, TableFault> {
    let menus = vec![in alloc; lunch(alloc)?, dinner(alloc)?]?;
    Table::beside(alloc, menus, 2)?.to_string(alloc)
}
