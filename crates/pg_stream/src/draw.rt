//! What draws the lines of rows and separators, and the cells that are open there.

mod lines_of_rows;
mod open_cell;
mod open_cells;
mod open_line;
mod separators;
mod single_rows;
mod streamed_table;
mod turns;

pub(crate) use self::open_cell::OpenCell;
pub use self::open_cells::OpenCells;
pub(crate) use self::open_line::OpenLine;
pub(crate) use self::streamed_table::StreamedTable;
