//! What tests and programs of cases need: an allocator that refuses memory, readers and writers
//! that fail, files of cases, settings as lines of words, and a report.
//!
//! [`ledger`] says which calls fail, and has the loop over all failures of a call, [`refusing`] has
//! the allocator, and [`streams`] the readers and the writer; [`unhinted`] has an iterator and
//! records that don't give their number of rows.
//! [`lines`] reads a file of sections, [`settings`] applies a line to a configuration, and
//! [`report`] counts what is compared.
#![tactic(auto)]

pub mod ledger;
pub mod lines;
pub mod refusing;
pub mod report;
pub mod settings;
pub mod streams;
pub mod unhinted;

pub use crate::lines::{Line, LineFault, texts_of_row};
