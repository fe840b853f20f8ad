//! The streaming grid: all rows of its records, through the printer of rows.
#![tactic(auto)]

mod grid;
mod grid_with_memory;
mod whole;

pub use crate::grid::IterGrid;
pub use crate::grid_with_memory::GridWithMemory;
pub use pg_picture::{TablePrinter, WholePrinter};
