//! Rows and columns outside of which nothing lies.

ghost use Rattle.std.specs.Prelude.{◌≡◌};
ghost use Rattle.pg_config.specs.Inside.{no_extent, with_rows, in_extent};

use pg_layout::Position;

/// The first and last row and the first and last column of places that have something, so that a
/// place outside of them needs no search.
#[derive(Debug, Clone, Copy)]
pub(crate) struct Extent {
    first_row: usize,
    last_row: usize,
    first_column: usize,
    last_column: usize,
}

impl Extent {
    /// No place lies in it: each first one is after each last one, and yields to any.
    pub(crate) fn none() -> Extent
        ensures { result ≡ no_extent }
    {
        Extent {
            first_row: usize::MAX,
            last_row: 0,
            first_column: usize::MAX,
            last_column: 0,
        }
    }

    /// The smallest extent that includes these rows of a column, too.
    pub(crate) fn with_rows(self, first: usize, last: usize, column: usize) -> Extent
        ensures { result ≡ with_rows first last column self }
    {
        Extent {
            first_row: self.first_row.min(first),
            last_row: self.last_row.max(last),
            first_column: self.first_column.min(column),
            last_column: self.last_column.max(column),
        }
    }

    /// Whether the place lies in it.
    #[inline(always)]
    pub(crate) fn holds(self, pos: Position) -> bool
        ensures { result ≡ in_extent self pos }
    {
        self.first_row <= pos.row
            && pos.row <= self.last_row
            && self.first_column <= pos.col
            && pos.col <= self.last_column
    }
}
