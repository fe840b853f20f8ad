//! The rows that JSON holds, and what is wrong with bytes that hold none.
#![tactic(auto)]

mod fault;
mod line_reader;
mod line_table;
mod lines;
mod member_names;
mod objects;
mod value;
mod walk;

pub use crate::fault::{JsonFault, Place};
pub use crate::line_reader::LineReader;
pub use crate::line_table::read_line_rows;
pub use crate::member_names::MemberRules;
pub use crate::value::{is_value, read_rows};
