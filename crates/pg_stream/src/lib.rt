//! The streaming printers: they print a table row by row, and keep the cells that continue below
//! the last printed row.
#![tactic(auto)]

mod draw;
mod fault;
mod laws;
mod printer;
mod stream;

pub use crate::draw::OpenCells;
pub use crate::fault::{RowFault, RowsFault, StreamFault};
pub use crate::laws::{
    live_rows_make_the_picture, rows_count_their_lines, rows_make_the_picture,
    sized_rows_make_the_picture, tables_that_fit_may_be_printed,
};
pub use crate::printer::{RowPrinter, RowUnshown, printer_fits};
pub use crate::stream::{LiveStream, RowStream, SizedStream};
