//! The looked-up printer: it reads its records at any place, and draws cells over rows and columns.
#![tactic(auto)]

mod body;
mod grid;
mod kept;
mod lines;
mod looked_up_table;
mod rectangle;
mod rows;
mod separators;
mod slots;
mod spanned;
mod whole;

pub use crate::grid::PeekableGrid;
pub use pg_picture::{TablePrinter, WholePrinter};
