//! Tests whether a streaming grid shows each line of its texts.

use crate::grid::IterGrid;
use pg_config::SpannedConfig;
use pg_layout::{Colors, Dimension, ExactRecords, PeekableRecords};
use pg_picture::shown::{Unshown, table_shows_all};
use std::alloc::Allocator;

impl<'a, R, D, C, B> IterGrid<R, D, &'a SpannedConfig<B>, C>
where
    R: PeekableRecords + ExactRecords + Drop,
    D: Dimension + Drop,
    C: Colors + Drop,
    B: Allocator,
{
    ghost use Rattle.std.specs.Prelude.{◌≡◌, true, None, IsOk};
    ghost use Rattle.pg_picture.specs.Fits.{misfit_of};
    ghost use Rattle.pg_picture.specs.Shown.{unshown_of, unless_unshown};
    ghost use Rattle.pg_picture.specs.Table.{is_empty};
    ghost use Rattle.pg_iter.specs.IterGrids.{streamed};

    /// Whether the table fits, and shows each line of its texts. An error is the first misfit, as
    /// `fits` returns it; if there is none, it is the first cell that isn't high enough for its
    /// lines below its top padding. Rows without a height are 0 high. Allocates nothing, and reads
    /// no rows. A table with no rows or no columns shows all.
    pub fn shows_all(&self) -> Result<(), Unshown>
        ensures exact { result ≡ unless_unshown (unshown_of (streamed R.Records D.Dimension C.Colors self.now)) }
        ensures fits { IsOk result → misfit_of (streamed R.Records D.Dimension C.Colors self.now) ≡ None }
        ensures empty { is_empty (streamed R.Records D.Dimension C.Colors self.now) ≡ true → IsOk result }
    {
        table_shows_all(&self.records, self.config, &self.dimension)
    }
}
