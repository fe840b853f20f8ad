//! The rows that bytes of separated values hold, and what is wrong with bytes that hold none.
#![tactic(auto)]

mod dialect;
mod fault;
mod first_row;
mod lines;
mod reader;
mod scanner;
mod words;

pub use crate::dialect::{Dialect, Fields, RowRules};
pub use crate::fault::RowsFault;
pub use crate::first_row::{from_first_row, without_mark};
pub use crate::lines::lines_left_out_count;
pub use crate::reader::{RowReader, read_rows};
