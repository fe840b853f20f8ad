//! The conditions of a table, as tests that a caller can make.

ghost use Rattle.std.specs.Prelude.{Some};
ghost use Rattle.pg_picture.specs.Fits.{misfit_text};

mod compact;
mod rectangle;
mod room;
mod spans;
mod table;
mod totals;

pub use crate::fits::compact::{compact_fits, compact_full_width};
pub use crate::fits::rectangle::{height_of_rows, rect_height, rect_width, width_of_columns};
pub use crate::fits::room::{cell_fits, kind_if_fits};
pub use crate::fits::spans::{begins_above, columns_of, spans_fit, spans_fit_columns};
pub use crate::fits::table::table_fits;
pub use crate::fits::totals::{body_height, full_width, totals_fit};
use std::error::Error;
use std::fmt;

/// What doesn't fit in a table.
#[derive(Debug, Clone, Copy, PartialEq, Eq)]
pub enum Misfit {
    /// A span is 0, leaves the table, or shares a place with another one.
    Spans,
    /// A total isn't below 2^64, or there are too many rows or columns to count.
    Totals,
    /// The cell in this row and this column has no room for its text and its paddings.
    Room(usize, usize),
}

/// Writes `spans`, `totals`, or `room` with the row and the column.
impl fmt::Display for Misfit {
    ghost output = { λ misfit. Some (misfit_text misfit) };

    fn fmt<W: fmt::Write>(&self, f: &mut fmt::Formatter<W>) -> fmt::Result {
        match self {
            Misfit::Spans => write!(f, "spans"),
            Misfit::Totals => write!(f, "totals"),
            Misfit::Room(row, col) => write!(f, "room {row} {col}"),
        }
    }
}

impl Error for Misfit {}
