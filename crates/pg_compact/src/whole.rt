//! Tests whether a compact grid shows each line of its texts.

ghost use Rattle.std.specs.Prelude.{◌≡◌, ◌≤◌, true, IsOk};
ghost use Rattle.pg_picture.specs.Shown.{compact_unshown_of, unless_unshown};
ghost use Rattle.pg_compact.specs.CompactGrids.{compact_table, has_no_cells, CompactFits};

use crate::grid::CompactGrid;
use pg_config::CompactConfig;
use pg_layout::{Colors, Dimension, ExactRecords, PeekableRecords};
use pg_picture::WholePrinter;
use pg_picture::shown::{Unshown, compact_shows_all};

impl<'a, R, D, C> CompactGrid<R, D, &'a CompactConfig, C>
where
    R: PeekableRecords + ExactRecords + Drop,
    D: Dimension + Drop,
    C: Colors + Drop,
{
    /// Whether the columns fit, and each text has one line, which is all that a compact table shows
    /// of it. An error is the first misfit, as `fits` returns it; if there is none, it is the first
    /// cell whose text has more lines. Allocates nothing. A table with no rows or no columns shows
    /// all.
    pub fn shows_all(&self) -> Result<(), Unshown>
        ensures exact { result ≡ unless_unshown (compact_unshown_of (compact_table R.texts R.columns D.width C.color self.now)) }
        ensures fits { IsOk result → CompactFits (compact_table R.texts R.columns D.width C.color self.now) }
        ensures counted { (compact_table R.texts R.columns D.width C.color self.now).rows ≤ usize.MAX }
        ensures empty { has_no_cells (compact_table R.texts R.columns D.width C.color self.now) ≡ true → IsOk result }
    {
        // Shows that the rows can be counted.
        let _rows = self.records.count_rows();
        compact_shows_all(&self.records, self.config, &self.dimension)
    }
}

impl<'a, R, D, C> WholePrinter for CompactGrid<R, D, &'a CompactConfig, C>
where
    R: PeekableRecords + ExactRecords + Drop,
    D: Dimension + Drop,
    C: Colors + Drop,
{
    ghost unshown = { λ it. compact_unshown_of (compact_table R.texts R.columns D.width C.color it) };

    #[tactic(auto, using(crate::proofs::Rulesets::fitting_tables))]
    fn shows_all(&self) -> Result<(), Unshown> {
        CompactGrid::shows_all(self)
    }
}
