//! A run of the command `ruled`: a request, a reader and two writers in, the table of the requested
//! rows out, at once or row by row. All that the command reads and writes passes here.
#![tactic(auto)]

mod at_once;
mod database;
mod decoded;
mod encoding;
mod fault;
mod formats;
mod further;
mod heads;
mod input;
mod laws;
mod lines;
mod output;
mod pieces;
mod program;
mod reader;
mod request;
mod stream;
mod window;

pub use crate::decoded::Decoded;
pub use crate::encoding::Encoding;
pub use crate::fault::{
    FurtherFault, InputFault, OneLine, Quoted, ReadFault, RunFault, StreamedFault,
};
pub use crate::formats::{Format, Kind, Known};
pub use crate::laws::both_ways_show_one_text;
pub use crate::output::Output;
pub use crate::pieces::Pieces;
pub use crate::program::{Ending, Remarks, run};
pub use crate::request::{FurtherInput, Log, Query, QueryTable, Request, Rows, Selection, Source};
pub use ruled_csv::{Dialect, Fields, RowRules};
pub use ruled_json::MemberRules;
