//! Rows of texts, each in one allocation.
#![tactic(auto)]

mod buffer;
mod ends;
mod row;

pub use crate::buffer::RowBuffer;
pub use crate::row::TextRow;
