//! Scripts: how one is read, and the table that it describes.
#![tactic(auto)]

mod cell_texts;
mod draft;
pub mod examples;
mod lines;
mod reading;
mod script;
mod statement;
mod words;

pub use crate::reading::parse_script;
pub use crate::script::{Script, ScriptFault};
pub use crate::statement::Size;
