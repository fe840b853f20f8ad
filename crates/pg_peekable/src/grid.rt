//! The looked-up grid: it reads its records at any place.

use crate::looked_up_table::LookedUpTable;
use pg_config::SpannedConfig;
use pg_layout::{Colors, Dimension, ExactRecords, PeekableRecords};
use pg_picture::fits::{Misfit, body_height, full_width, table_fits};
use pg_picture::{Sheet, TableMarker, TablePrinter, push_bottom_margin, push_top_margin};
use std::alloc::{AllocError, Allocator};
use std::marker::{Brand, PhantomData};

/// A table printer over records that can be read at any place, a dimension that gives the sizes of
/// columns and rows, and colours of cells.
///
/// The table is that of these parts: the rows and columns of the records, the widths and heights of
/// the dimension, the settings of the configuration, and the colours.
#[derive(Debug, Clone, Drop)]
pub struct PeekableGrid<R, G, D, C> {
    pub(crate) records: R,
    pub(crate) config: G,
    pub(crate) dimension: D,
    pub(crate) colors: C,
}

impl<R, G, D, C> PeekableGrid<R, G, D, C> {
    ghost use Rattle.std.specs.Prelude.{◌≡◌};
    ghost use Rattle.pg_peekable.specs.Grids.{peekable_parts};

    /// A grid of these parts.
    pub fn new(records: R, config: G, dimension: D, colors: C) -> Self
        ensures { peekable_parts result ≡ (records, config, dimension, colors) }
    {
        PeekableGrid {
            records,
            config,
            dimension,
            colors,
        }
    }
}

impl<'a, R, D, C, B> PeekableGrid<R, &'a SpannedConfig<B>, D, C>
where
    R: PeekableRecords + ExactRecords,
    D: Dimension,
    C: Colors,
    B: Allocator,
{
    ghost use Rattle.std.specs.Prelude.{◌≡◌, true, None, IsOk, IfOk, string_bytes};
    ghost use Rattle.pg_picture.specs.Appending.{Appends};
    ghost use Rattle.pg_picture.specs.Fits.{misfit_of};
    ghost use Rattle.pg_picture.specs.Grids.{table_of_parts};
    ghost use Rattle.pg_picture.specs.Inside.{body_text};
    ghost use Rattle.pg_picture.specs.Pieces.{joined};
    ghost use Rattle.pg_picture.specs.Picture.{picture, picture_lines};
    ghost use Rattle.pg_picture.specs.Sizes.{unless_misfit};
    ghost use Rattle.pg_picture.specs.Straight.{IsStraight};
    ghost use Rattle.pg_picture.specs.Table.{Known, is_empty, table_body};
    ghost use Rattle.pg_peekable.specs.Grids.{printed_table};
    ghost use Rattle.pg_peekable.specs.Inside.{CanDraw, IsFull, IsShapeOf};

    /// Whether the table fits: its spans, its totals, and in each cell the text's widest line, the
    /// side paddings and the top padding. Lines for which a row isn't high enough are no misfit:
    /// they are left out. This is the precondition of `build` and `to_string`, as a test. The error
    /// is the first misfit (`pg_picture::fits::Misfit`). Allocates nothing. A table with no rows or
    /// no columns fits.
    pub fn fits(&self) -> Result<(), Misfit>
        ensures exact { result ≡ unless_misfit (misfit_of (printed_table R.Records D.Dimension C.Colors self.now)) }
        ensures fits { IsOk result → misfit_of (printed_table R.Records D.Dimension C.Colors self.now) ≡ None }
        ensures empty { is_empty (printed_table R.Records D.Dimension C.Colors self.now) ≡ true → IsOk result }
    {
        table_fits(&self.records, self.config, &self.dimension)
    }

    /// Appends the picture of the table. Precondition: the table fits. [`PeekableGrid::fits`] is
    /// the test, and [`TablePrinter::print`] the call that makes it first. A table with no rows or
    /// no columns leaves the buffer unchanged.
    ///
    /// If each glyph and each fill takes one column, and no glyph of a column line is missing, all
    /// lines of the body are as wide as the table.
    ///
    /// Allocates only for the buffer. An error comes only where the buffer's room is too small for
    /// the picture and it gets no more memory; the buffer then holds a beginning of the picture
    /// behind what it held before.
    #[tactic(auto, using(pg_picture::proofs::StraightColumns::is_straight))]
    pub fn build<A: Allocator>(&self, buf: &mut String<A>) -> Result<(), AllocError>
        requires fits { misfit_of (printed_table R.Records D.Dimension C.Colors self.now) ≡ None }
        ensures appends { Appends buf.old buf.new result (picture Known (printed_table R.Records D.Dimension C.Colors self.now)) }
        ensures straight { IsStraight (printed_table R.Records D.Dimension C.Colors self.now) }
        ensures empty { is_empty (printed_table R.Records D.Dimension C.Colors self.now) ≡ true → IsOk result × (buf.new ≡ buf.old) }
    {
        let rows = self.records.count_rows();
        let columns = self.records.count_columns();
        if rows == 0 || columns == 0 {
            return Ok(());
        }
        self.push_picture(buf, rows, columns)
    }

    /// The picture of the table as a text of its own, under the precondition of `build`; `text` is
    /// the call that tests it first. The only error is out of memory; a table with no rows or no
    /// columns allocates nothing.
    pub fn to_string<A: Allocator>(&self, alloc: A) -> Result<String<A>, AllocError>
        requires fits { misfit_of (printed_table R.Records D.Dimension C.Colors self.now) ≡ None }
        ensures text { IfOk result (λ text. string_bytes text ≡ picture Known (printed_table R.Records D.Dimension C.Colors self.now)) }
        ensures empty { is_empty (printed_table R.Records D.Dimension C.Colors self.now) ≡ true → IsOk result }
    {
        let mut text = String::new(alloc);
        self.build(&mut text)?;
        Ok(text)
    }

    fn push_picture<A: Allocator>(
        &self,
        buf: &mut String<A>,
        rows: usize,
        columns: usize,
    ) -> Result<(), AllocError>
        requires full { IsFull (printed_table R.Records D.Dimension C.Colors self.now) rows columns }
        ensures { Appends buf.old buf.new result (joined (picture_lines Known (printed_table R.Records D.Dimension C.Colors self.now))) }
    {
        // Shows that the spans are in order.
        let _spans = self.config.spans();
        let width = full_width(self.config, &self.dimension, columns).unwrap();
        let height = body_height(self.config, &self.dimension, rows).unwrap();
        let is_first = self.config.get_margin().top.size == 0;
        push_top_margin(buf, self.config, width)?;
        let sheet = Sheet::new(
            self.config,
            &self.dimension,
            &self.colors,
            columns,
            width,
            Some(height),
        );
        self.push_drawn::<Brand, A>(buf, sheet, rows)?;
        push_bottom_margin(buf, self.config, width, is_first && height == 0)
    }

    fn push_drawn<T: TableMarker, A: Allocator>(
        &self,
        buf: &mut String<A>,
        sheet: Sheet<'_, D, C, B>,
        rows: usize,
    ) -> Result<(), AllocError>
        requires is { table_of_parts R.texts R.columns D.width D.height C.color self.now.records sheet.config.now sheet.dimension.now sheet.colors.now ≡ T.table }
        requires shape { IsShapeOf T.table rows sheet.columns sheet.height }
        requires can { CanDraw T.table }
        ensures { Appends buf.old buf.new result (body_text Known T.table T.table.config.margin.top.size 0 (table_body T.table)) }
    {
        let table: LookedUpTable<'_, T, R, D, C, B> = LookedUpTable {
            records: &self.records,
            rows,
            is_colored: !sheet.colors.is_empty(),
            is_spanned: !sheet.config.spans().is_empty(),
            sheet,
            of: PhantomData,
        };
        table.push_kept_body(buf)
    }
}

/// It is only read while it prints.
impl<'g, 'a, R, D, C, B> TablePrinter for &'g PeekableGrid<R, &'a SpannedConfig<B>, D, C>
where
    R: PeekableRecords + ExactRecords,
    D: Dimension,
    C: Colors,
    B: Allocator,
{
    ghost use Rattle.pg_picture.specs.Fits.{misfit_of};
    ghost use Rattle.pg_picture.specs.Picture.{picture};
    ghost use Rattle.pg_picture.specs.Table.{Known, is_empty};
    ghost use Rattle.pg_peekable.specs.Grids.{printed_table};

    ghost picture = { λ it. picture Known (printed_table R.Records D.Dimension C.Colors it.now) };

    ghost misfit = { λ it. misfit_of (printed_table R.Records D.Dimension C.Colors it.now) };

    ghost is_empty = { λ it. is_empty (printed_table R.Records D.Dimension C.Colors it.now) };

    fn fits(&self) -> Result<(), Misfit> {
        PeekableGrid::fits(*self)
    }

    fn build<A: Allocator>(self, buf: &mut String<A>) -> Result<(), AllocError> {
        PeekableGrid::build(self, buf)
    }
}
