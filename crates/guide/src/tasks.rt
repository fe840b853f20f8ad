//! Tasks in columns of given widths. A compact list has one line for each row, and one look for all cells; in
//! the other table heights are worked out, so that no line of a text is lost.

use crate::fault::Fault;
use crate::rows::records_of;
use pg_compact::{CompactGrid, TablePrinter};
use pg_config::{CompactConfig, SpannedConfig};
use pg_grid::{PeekableGrid, WholePrinter};
use pg_layout::{Borders, EvenDimension, Indent, NoColors, Sides, VecRecords};
use pg_table::heights_for;
use std::alloc::{AllocError, Global};

// The tasks and their days. The second one has a line that isn't shown.
const TASKS: &[&[&str]] = &[
    &["water the roses", "today"],
    &["call Ada\n(about the tickets)", "Friday"],
    &["pay the rent", "Monday"],
];

/// What is to be done, as a list.
pub(crate) fn list(alloc: Global) -> Result<String, Fault> {
    let none = Indent::zero();
    let config = CompactConfig::new()
        .set_borders(Borders::rounded())
        .set_padding(Sides::horizontal(1))
        .set_margin(Sides::new(Indent::spaced(2), none, none, none));
    let records = records_of(alloc, TASKS)?;
    // Each row has one line, so a compact table reads no heights.
    let dimension = EvenDimension {
        widths: vec![in alloc; 17, 8]?,
        height: 1,
    };
    let grid = CompactGrid::new(records, &config, dimension, NoColors);
    grid.text(alloc).map_err(Fault::from)
}

/// What is to be bought, in columns of 7 and 10.
pub(crate) fn errands(alloc: Global) -> Result<String, Fault> {
    let records = records(alloc)?;
    let widths = vec![in alloc; 7, 10]?;
    let mut config = SpannedConfig::new(alloc);
    config.set_borders(Borders::rounded());
    let sizes = heights_for(alloc, &records, &config, widths)?;
    let mut text = String::new(alloc);
    PeekableGrid::new(&records, &config, &sizes, &NoColors).print_whole(&mut text)?;
    Ok(text)
}

// Rows that are written out have one length, so `unwrap` needs no test.
fn records(alloc: Global) -> Result<VecRecords<&'static str>, AllocError> {
    let market = vec![in alloc; "market", "bread\nmilk"]?;
    let post = vec![in alloc; "post", "stamps"]?;
    Ok(VecRecords::new(vec![in alloc; market, post]?).unwrap())
}
