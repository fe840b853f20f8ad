//! Tests whether a looked-up grid shows each line of its texts.

use crate::grid::PeekableGrid;
use pg_config::SpannedConfig;
use pg_layout::{Colors, Dimension, ExactRecords, PeekableRecords};
use pg_picture::WholePrinter;
use pg_picture::shown::{Unshown, table_shows_all};
use std::alloc::Allocator;

impl<'a, R, D, C, B> PeekableGrid<R, &'a SpannedConfig<B>, D, C>
where
    R: PeekableRecords + ExactRecords,
    D: Dimension,
    C: Colors,
    B: Allocator,
{
    ghost use Rattle.std.specs.Prelude.{◌≡◌, true, None, IsOk};
    ghost use Rattle.pg_picture.specs.Fits.{misfit_of};
    ghost use Rattle.pg_picture.specs.Shown.{unshown_of, unless_unshown};
    ghost use Rattle.pg_picture.specs.Table.{is_empty};
    ghost use Rattle.pg_peekable.specs.Grids.{printed_table};

    /// Whether the table fits, and shows each line of its texts. An error is the first misfit, as
    /// `fits` returns it; if there is none, it is the first cell that isn't high enough for its
    /// lines below its top padding. Rows without a height are 0 high. Allocates nothing. A table
    /// with no rows or no columns shows all.
    pub fn shows_all(&self) -> Result<(), Unshown>
        ensures exact { result ≡ unless_unshown (unshown_of (printed_table R.Records D.Dimension C.Colors self.now)) }
        ensures fits { IsOk result → misfit_of (printed_table R.Records D.Dimension C.Colors self.now) ≡ None }
        ensures empty { is_empty (printed_table R.Records D.Dimension C.Colors self.now) ≡ true → IsOk result }
    {
        table_shows_all(&self.records, self.config, &self.dimension)
    }
}

impl<'g, 'a, R, D, C, B> WholePrinter for &'g PeekableGrid<R, &'a SpannedConfig<B>, D, C>
where
    R: PeekableRecords + ExactRecords,
    D: Dimension,
    C: Colors,
    B: Allocator,
{
    ghost use Rattle.pg_picture.specs.Shown.{unshown_of};
    ghost use Rattle.pg_peekable.specs.Grids.{printed_table};

    ghost unshown = { λ it. unshown_of (printed_table R.Records D.Dimension C.Colors it.now) };

    fn shows_all(&self) -> Result<(), Unshown> {
        PeekableGrid::shows_all(*self)
    }
}
