//! Whether a table shows each line of its texts, as tests that a caller can make.

ghost use Rattle.std.specs.Prelude.{◌≡◌, Some};
ghost use Rattle.pg_picture.specs.declared.shown.Unshown.{Unshown};
ghost use Rattle.pg_picture.specs.Shown.{unshown_text};

mod cell;
mod compact;
mod table;

use crate::fits::Misfit;
pub use crate::shown::cell::{cell_shows_all, count_shown_lines};
pub use crate::shown::compact::compact_shows_all;
pub use crate::shown::table::table_shows_all;
use std::error::Error;
use std::fmt;

/// Why a table doesn't show each line of its texts.
#[derive(Debug, Clone, Copy, PartialEq, Eq)]
pub enum Unshown {
    /// The table doesn't fit, so that nothing of it is shown.
    Misfit(Misfit),
    /// The cell in this row and this column isn't high enough for its lines below its top padding:
    /// its row is too low, or has no height.
    Lines(usize, usize),
}

impl From<Misfit> for Unshown {
    ghost from_gives = { λ misfit unshown. unshown ≡ Unshown.Misfit misfit };

    fn from(misfit: Misfit) -> Unshown {
        Unshown::Misfit(misfit)
    }
}

/// Writes what doesn't fit, or the row and the column of the cell.
impl fmt::Display for Unshown {
    ghost output = { λ unshown. Some (unshown_text unshown) };

    fn fmt<W: fmt::Write>(&self, f: &mut fmt::Formatter<W>) -> fmt::Result {
        match self {
            Unshown::Misfit(misfit) => write!(f, "does not fit: {misfit}"),
            Unshown::Lines(row, col) => write!(f, "lines are not shown: cell {row} {col}"),
        }
    }
}

impl Error for Unshown {}
