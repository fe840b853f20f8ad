//! The compact grid: it reads its records once, row by row, and shows the first line of each text.

ghost use Rattle.std.specs.Prelude.{◌≡◌, ◌≤◌, true, IsOk, IfOk, string_bytes};
ghost use Rattle.pg_picture.specs.Appending.{Appends};
ghost use Rattle.pg_picture.specs.Picture.{compact_picture};
ghost use Rattle.pg_picture.specs.Sizes.{unless_misfit};
ghost use Rattle.pg_compact.specs.CompactGrids.{compact_parts, compact_table, compact_misfit, has_no_cells, CompactFits, MayBeRead};

use crate::printer::CompactPrinter;
use crate::row_edges::RowEdges;
use pg_config::CompactConfig;
use pg_layout::{Colors, Dimension, ExactRecords, Records};
use pg_picture::TablePrinter;
use pg_picture::fits::{Misfit, compact_fits};
use std::alloc::{AllocError, Allocator};

/// A table printer over records that are read once, a dimension that gives the widths of columns,
/// and colours of cells.
///
/// Each cell shows the first line of its text, and each row has one text line. The heights of the
/// dimension aren't used, and there are no spans.
#[derive(Debug, Clone, Drop)]
pub struct CompactGrid<R, D, G, C> {
    pub(crate) records: R,
    pub(crate) dimension: D,
    pub(crate) config: G,
    colors: C,
}

impl<R, D, G, C> CompactGrid<R, D, G, C> {
    /// A grid of these parts.
    pub fn new(records: R, config: G, dimension: D, colors: C) -> CompactGrid<R, D, G, C>
        ensures parts { compact_parts result ≡ (records, dimension, config, colors) }
    {
        CompactGrid {
            records,
            dimension,
            config,
            colors,
        }
    }
}

impl<R, D, G, C: Drop> CompactGrid<R, D, G, C> {
    /// The grid with these colours in place of its own.
    pub fn with_colors<Colors>(self, colors: Colors) -> CompactGrid<R, D, G, Colors>
        ensures parts { compact_parts result ≡ ((compact_parts self).0, (compact_parts self).1, (compact_parts self).2, colors) }
    {
        CompactGrid::new(self.records, self.config, self.dimension, colors)
    }
}

impl<'a, R, D, C> CompactGrid<R, D, &'a CompactConfig, C>
where
    R: Records,
    D: Dimension + Drop,
    C: Colors + Drop,
{
    /// Appends the picture of the table. Preconditions: the records are readable, as records in
    /// memory always are, and have at most `usize::MAX` rows, and the columns fit if there are
    /// rows. For records that know their number of rows [`CompactGrid::fits`] is the test, and
    /// [`TablePrinter::print`] the call that makes it first. A table with no rows or no columns
    /// leaves the buffer unchanged.
    ///
    /// The rows are read once, each as it is printed. Allocates only for the buffer. An error comes
    /// only if the buffer's room is too small for the picture and memory is refused; the buffer
    /// then has gained a beginning of the picture.
    pub fn build<A: Allocator>(self, buf: &mut String<A>) -> Result<(), AllocError>
        requires readable { MayBeRead R.Records self }
        requires rows { (compact_table R.texts R.columns D.width C.color self).rows ≤ usize.MAX }
        requires fits { CompactFits (compact_table R.texts R.columns D.width C.color self) }
        ensures appends { Appends buf.old buf.new result (compact_picture (compact_table R.texts R.columns D.width C.color self.entry)) }
        ensures empty { has_no_cells (compact_table R.texts R.columns D.width C.color self.entry) ≡ true → IsOk result × (buf.new ≡ buf.old) }
    {
        let columns = self.records.count_columns();
        let printer = CompactPrinter {
            config: self.config,
            dimension: self.dimension,
            colors: self.colors,
            columns,
            edges: RowEdges::of(self.config),
        };
        printer.push_table(buf, self.records.iter_rows())
    }

    /// The picture of the table as a text of its own, under the preconditions of `build`. For
    /// records that know their number of rows `text` tests them first. The only error is out of
    /// memory; a table with no rows or no columns allocates nothing.
    pub fn to_string<A: Allocator>(self, alloc: A) -> Result<String<A>, AllocError>
        requires readable { MayBeRead R.Records self }
        requires rows { (compact_table R.texts R.columns D.width C.color self).rows ≤ usize.MAX }
        requires fits { CompactFits (compact_table R.texts R.columns D.width C.color self) }
        ensures text { IfOk result (λ text. string_bytes text ≡ compact_picture (compact_table R.texts R.columns D.width C.color self.entry)) }
        ensures empty { has_no_cells (compact_table R.texts R.columns D.width C.color self.entry) ≡ true → IsOk result }
    {
        let mut text = String::new(alloc);
        self.build(&mut text)?;
        Ok(text)
    }
}

impl<'a, R, D, C> CompactGrid<R, D, &'a CompactConfig, C>
where
    R: ExactRecords + Drop,
    D: Dimension + Drop,
    C: Colors + Drop,
{
    /// Whether the columns fit: the precondition of `build` and `to_string` on its sizes, as a
    /// test. The error is the first misfit (`pg_picture::fits::Misfit`). Allocates nothing, and
    /// reads no records, whose rows can be counted. A table with no rows or no columns fits.
    pub fn fits(&self) -> Result<(), Misfit>
        ensures exact { result ≡ unless_misfit (compact_misfit (compact_table R.texts R.columns D.width C.color self.now)) }
        ensures fits { IsOk result → CompactFits (compact_table R.texts R.columns D.width C.color self.now) }
        ensures counted { (compact_table R.texts R.columns D.width C.color self.now).rows ≤ usize.MAX }
        ensures empty { has_no_cells (compact_table R.texts R.columns D.width C.color self.now) ≡ true → IsOk result }
    {
        if self.records.count_rows() == 0 {
            return Ok(());
        }
        compact_fits(self.config, &self.dimension, self.records.count_columns())
    }
}

impl<'a, R, D, C> TablePrinter for CompactGrid<R, D, &'a CompactConfig, C>
where
    R: ExactRecords + Drop,
    D: Dimension + Drop,
    C: Colors + Drop,
{
    ghost picture = { λ it. compact_picture (compact_table R.texts R.columns D.width C.color it) };

    ghost misfit = { λ it. compact_misfit (compact_table R.texts R.columns D.width C.color it) };

    ghost is_empty = { λ it. has_no_cells (compact_table R.texts R.columns D.width C.color it) };

    ghost is_readable = { λ it. MayBeRead R.Records it };

    #[tactic(auto, using(crate::proofs::Rulesets::fitting_tables))]
    fn fits(&self) -> Result<(), Misfit> {
        CompactGrid::fits(self)
    }

    #[tactic(auto, using(crate::proofs::Rulesets::fitting_tables))]
    fn build<A: Allocator>(self, buf: &mut String<A>) -> Result<(), AllocError> {
        // Shows that the rows can be counted.
        let _rows = self.records.count_rows();
        CompactGrid::build(self, buf)
    }
}
