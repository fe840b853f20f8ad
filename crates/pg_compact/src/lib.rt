//! The compact printer: it reads its records once, and shows the first line of each text.
#![tactic(auto)]

mod body;
mod grid;
mod printer;
mod row_edges;
mod rows;
mod separators;
mod short_text;
mod whole;

pub use crate::grid::CompactGrid;
pub use pg_picture::{TablePrinter, WholePrinter};
