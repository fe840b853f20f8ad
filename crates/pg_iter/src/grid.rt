//! The streaming grid: it reads its records once, row by row, and draws cells over several rows.

use crate::grid_with_memory::GridWithMemory;
use pg_config::SpannedConfig;
use pg_layout::{Colors, Dimension, ExactRecords, PeekableRecords, Records};
use pg_picture::fits::{Misfit, table_fits};
use pg_stream::RowPrinter;
use std::alloc::{AllocError, Allocator};

/// A table printer over records that are read once, a dimension that gives the sizes of columns and
/// rows, and colours of cells.
///
/// The table is that of these parts. Each row is printed when the next one has come. Of the rows
/// above, only the cells that continue below are kept, at most one for each column.
#[derive(Debug, Clone, Copy, PartialEq, Eq, PartialOrd, Ord, Default, Hash, Drop)]
pub struct IterGrid<R, D, G, C> {
    pub(crate) records: R,
    pub(crate) config: G,
    pub(crate) dimension: D,
    colors: C,
}

impl<R, D, G, C> IterGrid<R, D, G, C> {
    ghost use Rattle.std.specs.Prelude.{◌≡◌};
    ghost use Rattle.pg_iter.specs.IterGrids.{iter_parts};

    /// A grid of these parts.
    pub fn new(records: R, config: G, dimension: D, colors: C) -> IterGrid<R, D, G, C>
        ensures { iter_parts result ≡ (records, config, dimension, colors) }
    {
        IterGrid {
            records,
            config,
            dimension,
            colors,
        }
    }

    /// The grid with the allocator for its open cells, which has the calls `print`, `text` and
    /// `print_whole`.
    pub fn with_memory<A>(self, alloc: A) -> GridWithMemory<IterGrid<R, D, G, C>, A>
        ensures { result.grid ≡ self }
    {
        GridWithMemory {
            grid: self,
            memory: alloc,
        }
    }
}

impl<'a, R, D, C, B> IterGrid<R, D, &'a SpannedConfig<B>, C>
where
    R: Records,
    D: Dimension + Drop,
    C: Colors + Drop,
    B: Allocator,
{
    ghost use Rattle.std.specs.Prelude.{◌≡◌, true, None, IsOk, IfOk, string_bytes};
    ghost use Rattle.pg_picture.specs.Appending.{AppendsOrNothing};
    ghost use Rattle.pg_picture.specs.Fits.{misfit_of};
    ghost use Rattle.pg_picture.specs.Straight.{IsStraight};
    ghost use Rattle.pg_picture.specs.Picture.{picture};
    ghost use Rattle.pg_picture.specs.Table.{is_empty};
    ghost use Rattle.pg_iter.specs.IterGrids.{MayBeRead, streamed, told};

    /// Appends the picture of the table. Its preconditions are that the table fits, and that its
    /// records are readable, as records in memory always are. For these [`IterGrid::fits`] is the
    /// test, and `print` of [`IterGrid::with_memory`] the call that makes it first. A table with no
    /// rows or no columns appends and allocates nothing.
    ///
    /// If each glyph and each fill takes one column, and no glyph of a column line is missing, all
    /// lines of the body are as wide as the table.
    ///
    /// If the records don't give their number of rows, side margins with an offset from the end are
    /// drawn whole: the end isn't known while rows still come.
    ///
    /// The rows are read once, and each is printed after the next one was requested. `alloc`
    /// provides the memory for open cells, in one piece for the whole table. The only error is out
    /// of memory: the buffer then has gained a beginning of the picture, or is unchanged if that
    /// piece was refused.
    #[tactic(auto, using(pg_picture::proofs::StraightColumns::is_straight))]
    pub fn build<A: Allocator, W: Allocator>(
        self,
        alloc: A,
        buf: &mut String<W>,
    ) -> Result<(), AllocError>
        requires readable { MayBeRead R.Records self }
        requires fits { misfit_of (streamed R.Records D.Dimension C.Colors self) ≡ None }
        ensures appends { AppendsOrNothing buf.old buf.new result (picture (told R.Records self.entry) (streamed R.Records D.Dimension C.Colors self.entry)) }
        ensures straight { IsStraight (streamed R.Records D.Dimension C.Colors self.entry) }
        ensures empty { is_empty (streamed R.Records D.Dimension C.Colors self.entry) ≡ true → IsOk result × (buf.new ≡ buf.old) }
    {
        let IterGrid {
            records,
            config,
            dimension,
            colors,
        } = self;
        let columns = records.count_columns();
        let hint = records.hint_count_rows();
        let mut rows = records.iter_rows();
        let Some(first) = rows.next() else {
            return Ok(());
        };
        if columns == 0 {
            return Ok(());
        }
        let printer = RowPrinter::new(alloc, config, &dimension, &colors, columns, hint)?;
        printer.print_rows(first, rows, buf)
    }

    /// The picture of the table as a text of its own, under the preconditions of `build`. For
    /// records in memory `text` of [`IterGrid::with_memory`] tests them first. The only error is
    /// out of memory; a table with no rows or no columns allocates nothing.
    pub fn to_string<A: Allocator + Copy>(self, alloc: A) -> Result<String<A>, AllocError>
        requires readable { MayBeRead R.Records self }
        requires fits { misfit_of (streamed R.Records D.Dimension C.Colors self) ≡ None }
        ensures text { IfOk result (λ text. string_bytes text ≡ picture (told R.Records self.entry) (streamed R.Records D.Dimension C.Colors self.entry)) }
        ensures empty { is_empty (streamed R.Records D.Dimension C.Colors self.entry) ≡ true → IsOk result }
    {
        let mut text = String::new(alloc);
        self.build(alloc, &mut text)?;
        Ok(text)
    }
}

impl<'a, R, D, C, B> IterGrid<R, D, &'a SpannedConfig<B>, C>
where
    R: PeekableRecords + ExactRecords + Drop,
    D: Dimension + Drop,
    C: Colors + Drop,
    B: Allocator,
{
    ghost use Rattle.std.specs.Prelude.{◌≡◌, true, None, IsOk};
    ghost use Rattle.pg_picture.specs.Fits.{misfit_of};
    ghost use Rattle.pg_picture.specs.Sizes.{unless_misfit};
    ghost use Rattle.pg_picture.specs.Table.{is_empty};
    ghost use Rattle.pg_iter.specs.IterGrids.{streamed};

    /// Whether the table fits: its spans, its totals, and in each cell the text's widest line, the
    /// side paddings and the top padding. Lines for which a row isn't high enough are no misfit:
    /// they are left out. The error is the first misfit (`pg_picture::fits::Misfit`). This is the
    /// precondition of `build` and `to_string` on the table's sizes, as a test. Allocates nothing,
    /// and reads no rows. A table with no rows or no columns fits.
    pub fn fits(&self) -> Result<(), Misfit>
        ensures exact { result ≡ unless_misfit (misfit_of (streamed R.Records D.Dimension C.Colors self.now)) }
        ensures fits { IsOk result → misfit_of (streamed R.Records D.Dimension C.Colors self.now) ≡ None }
        ensures empty { is_empty (streamed R.Records D.Dimension C.Colors self.now) ≡ true → IsOk result }
    {
        table_fits(&self.records, self.config, &self.dimension)
    }
}
