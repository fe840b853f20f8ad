//! Tables at their natural sizes, and sizes with given widths.

ghost use Rattle.std.specs.Prelude.{◌≡◌, [], IfOk, Some, None, Err};
ghost use Rattle.pg_table.specs.Printing.{natural_parts, sizes_fault};
ghost use Rattle.pg_table.specs.Natural.{natural_sizes};
ghost use Rattle.pg_table.specs.declared.sizes.Axis.TheVariants.{Rows};

use crate::fault::TableFault;
use crate::sizes::{Axis, NaturalSizes, plus};
use pg_config::SpannedConfig;
use pg_layout::{Colors, ConstantDimension, Dimension, ExactRecords, NoColors, PeekableRecords};
use pg_peekable::PeekableGrid;
use pg_picture::fits::{spans_fit, totals_fit};
use std::alloc::{AllocError, Allocator, Global};

/// A table over records that can be read at any place, at its natural sizes: each column as wide as
/// its widest cell, and each row as high as its highest one, paddings included. What a cell with a
/// span lacks beside smaller cells is shared out evenly over its columns and its rows. Nothing is
/// copied: records, settings and colours are lent.
///
/// ```text
/// NaturalTable::new(&records, &config, &NoColors).print(alloc, &mut buf)?;
/// ```
#[derive(Debug, Drop)]
pub struct NaturalTable<'a, R, C, B: Allocator = Global> {
    pub(crate) records: R,
    pub(crate) config: &'a SpannedConfig<B>,
    pub(crate) colors: &'a C,
    // The least widths of the columns of a fitted table that keeps spans; else none.
    pub(crate) widths: &'a [usize],
}

impl<'a, R, C, B: Allocator> NaturalTable<'a, R, C, B> {
    /// The table of these records, which may be a reference, with the settings of this
    /// configuration and these colours. Allocates nothing.
    pub fn new(records: R, config: &'a SpannedConfig<B>, colors: &'a C) -> NaturalTable<'a, R, C, B>
        ensures { natural_parts result ≡ (records, config.now, colors.now, []) }
    {
        NaturalTable {
            records,
            config,
            colors,
            widths: &[],
        }
    }
}

impl<'a, R, C, B> NaturalTable<'a, R, C, B>
where
    R: PeekableRecords + ExactRecords + Copy,
    C: Colors,
    B: Allocator,
{
    ghost use Rattle.std.specs.Prelude.{◌≡◌, ◌<◌, ◌++◌, [], length, true, false, Some, None, Err, IfOk, IsOk, OnOk, string_bytes};
    ghost use Rattle.pg_layout.specs.Keys.{by_columns};
    ghost use Rattle.pg_layout.specs.Places.{IsAscending};
    ghost use Rattle.pg_picture.specs.Appending.{Appends};
    ghost use Rattle.pg_picture.specs.Fits.{spans_fit, totals_fit, body_height, misfit_of};
    ghost use Rattle.pg_picture.specs.Straight.{IsStraight};
    ghost use Rattle.pg_picture.specs.Picture.{picture};
    ghost use Rattle.pg_picture.specs.Table.{Known, full_width, is_empty};
    ghost use Rattle.pg_picture.specs.Sizes.{if_fits};
    ghost use Rattle.pg_table.specs.Even.{IsEven};
    ghost use Rattle.pg_table.specs.Spanning.{keeps_spans};
    ghost use Rattle.pg_table.specs.Printing.{fault_of, is_spanned, printed_table_of, natural_parts, sizes_of, sizes_fault_of, CanFail, Prints};
    ghost use Rattle.pg_table.specs.declared.sizes.Axis.TheVariants.{Columns, Rows};

    /// The natural widths of the columns and the natural heights of the rows, in terminal columns
    /// and lines.
    ///
    /// The error is `Spans` exactly if the table has cells and its spans don't fit; else `Totals`
    /// exactly if one of the sizes, or the width or height of a shown cell, exceeds `usize::MAX`,
    /// even if memory is refused; else `Memory` if memory is refused.
    pub fn natural_dimension<A: Allocator + Copy>(
        &self,
        alloc: A,
    ) -> Result<ConstantDimension<A>, TableFault>
        ensures fault { (fault : TableFault) → sizes_fault_of R.texts R.columns (natural_parts self.now) ≡ Some fault → result ≡ Err fault }
        ensures memory { (fault : TableFault) → sizes_fault_of R.texts R.columns (natural_parts self.now) ≡ None → result ≡ Err fault → fault ≡ TableFault.Memory }
        ensures widths { IfOk result (λ d. d.0.items ≡ sizes_of R.texts R.columns Columns (natural_parts self.now)) }
        ensures heights { IfOk result (λ d. d.1.items ≡ sizes_of R.texts R.columns Rows (natural_parts self.now)) }
    {
        if self.is_empty() {
            return self.dimension_without_cells(alloc);
        }
        if !self.spans_fit() {
            return Err(TableFault::Spans);
        }
        match self.sizes().measured(alloc, self.widths) {
            Ok(Some(dimension)) => Ok(dimension),
            Ok(None) => Err(TableFault::Totals),
            Err(_) => Err(self.sizes_fault().unwrap_or(TableFault::Memory)),
        }
    }

    // Why the table has no natural sizes: its spans don't fit, or a size exceeds `usize::MAX`.
    // Allocates nothing.
    pub(crate) fn sizes_fault(&self) -> Option<TableFault>
        ensures { result ≡ sizes_fault_of R.texts R.columns (natural_parts self.now) }
    {
        let sizes = self.sizes();
        if self.is_empty() {
            return if sizes.fit() {
                None
            } else {
                Some(TableFault::Totals)
            };
        }
        if !self.spans_fit() {
            return Some(TableFault::Spans);
        }
        if sizes.cells_fit() {
            None
        } else {
            Some(TableFault::Totals)
        }
    }

    // The natural sizes of a table without cells.
    fn dimension_without_cells<A: Allocator + Copy>(
        &self,
        alloc: A,
    ) -> Result<ConstantDimension<A>, TableFault>
        requires { is_empty (printed_table_of R.texts R.columns C.color (natural_parts self.now)) ≡ true }
        ensures fault { (fault : TableFault) → sizes_fault_of R.texts R.columns (natural_parts self.now) ≡ Some fault → result ≡ Err fault }
        ensures memory { (fault : TableFault) → sizes_fault_of R.texts R.columns (natural_parts self.now) ≡ None → result ≡ Err fault → fault ≡ TableFault.Memory }
        ensures widths { IfOk result (λ d. d.0.items ≡ sizes_of R.texts R.columns Columns (natural_parts self.now)) }
        ensures heights { IfOk result (λ d. d.1.items ≡ sizes_of R.texts R.columns Rows (natural_parts self.now)) }
    {
        let sizes = self.sizes();
        if !sizes.fit() {
            return Err(TableFault::Totals);
        }
        let widths = sizes.list(alloc, Axis::Columns)?;
        let heights = sizes.list(alloc, Axis::Rows)?;
        Ok(ConstantDimension(widths, heights))
    }

    /// Whether the table can be printed at its natural sizes: its spans fit, and the natural sizes
    /// and the totals are at most `usize::MAX`. A table with no rows or no columns can, and
    /// allocates nothing.
    ///
    /// `alloc` provides the memory for the sizes. If it is refused, a table without spans still
    /// reports its totals, and `Memory` only after them; one with a span reports `Memory`.
    #[tactic(auto, using(crate::proofs::Faults::empty_faults))]
    pub fn fits<A: Allocator + Copy>(&self, alloc: A) -> Result<(), TableFault>
        ensures ok { IsOk result → fault_of (printed_table_of R.texts R.columns C.color (natural_parts self.now)) ≡ None }
        ensures fault { (fault : TableFault) → result ≡ Err fault → CanFail (printed_table_of R.texts R.columns C.color (natural_parts self.now)) fault }
        ensures empty { is_empty (printed_table_of R.texts R.columns C.color (natural_parts self.now)) ≡ true → IsOk result }
    {
        if !self.is_empty() {
            self.sized(alloc)?;
        }
        Ok(())
    }

    /// Appends the picture of the table at its natural sizes. A table with no rows or no columns
    /// appends and allocates nothing.
    ///
    /// The error is `Spans` if the spans don't fit, before anything is allocated; `Totals` if a
    /// natural size, the width of a line or the number of lines exceeds `usize::MAX`, even if
    /// memory is refused, if no span is kept. The buffer is then unchanged. `alloc` provides the
    /// memory for the sizes. If memory is refused, the error is `Memory`, and the buffer has gained
    /// a beginning of the picture.
    pub fn print<A: Allocator + Copy, W: Allocator>(
        &self,
        alloc: A,
        buf: &mut String<W>,
    ) -> Result<(), TableFault>
        ensures prints { Prints (is_spanned (printed_table_of R.texts R.columns C.color (natural_parts self.now)))
            (fault_of (printed_table_of R.texts R.columns C.color (natural_parts self.now))) buf.old buf.new result
            (picture Known (printed_table_of R.texts R.columns C.color (natural_parts self.now))) }
        ensures printed { OnOk result (string_bytes buf.new ≡ string_bytes buf.old ++ picture Known (printed_table_of R.texts R.columns C.color (natural_parts self.now))) }
        ensures empty { is_empty (printed_table_of R.texts R.columns C.color (natural_parts self.now)) ≡ true → IsOk result × (buf.new ≡ buf.old) }
        ensures straight { IsOk result → IsStraight (printed_table_of R.texts R.columns C.color (natural_parts self.now)) }
        ensures even { IsOk result → IsEven (printed_table_of R.texts R.columns C.color (natural_parts self.now)) }
    {
        if self.is_empty() {
            return Ok(());
        }
        let dimension = self.sized(alloc)?;
        self.push_sized(dimension, buf)?;
        Ok(())
    }

    /// The picture of the table at its natural sizes as a text of its own. Errors are those of
    /// [`NaturalTable::print`]. A table with no rows or no columns allocates nothing.
    pub fn to_string<A: Allocator + Copy>(&self, alloc: A) -> Result<String<A>, TableFault>
        ensures text { IfOk result (λ text. string_bytes text ≡ picture Known (printed_table_of R.texts R.columns C.color (natural_parts self.now))) }
        ensures ok { IsOk result → fault_of (printed_table_of R.texts R.columns C.color (natural_parts self.now)) ≡ None }
        ensures fault { (fault : TableFault) → result ≡ Err fault → CanFail (printed_table_of R.texts R.columns C.color (natural_parts self.now)) fault }
        ensures empty { is_empty (printed_table_of R.texts R.columns C.color (natural_parts self.now)) ≡ true → IsOk result }
    {
        let mut text = String::new(alloc);
        self.print(alloc, &mut text)?;
        Ok(text)
    }

    // The natural sizes of a table with cells that has no fault.
    pub(crate) fn sized<A: Allocator + Copy>(
        &self,
        alloc: A,
    ) -> Result<ConstantDimension<A>, TableFault>
        requires { is_empty (printed_table_of R.texts R.columns C.color (natural_parts self.now)) ≡ false }
        ensures widths { IfOk result (λ d. d.0.items ≡ sizes_of R.texts R.columns Columns (natural_parts self.now)) }
        ensures heights { IfOk result (λ d. d.1.items ≡ sizes_of R.texts R.columns Rows (natural_parts self.now)) }
        ensures ok { IsOk result → fault_of (printed_table_of R.texts R.columns C.color (natural_parts self.now)) ≡ None }
        ensures fault { (fault : TableFault) → result ≡ Err fault → CanFail (printed_table_of R.texts R.columns C.color (natural_parts self.now)) fault }
    {
        if !self.spans_fit() {
            return Err(TableFault::Spans);
        }
        match self.sizes().measured(alloc, self.widths) {
            Ok(Some(dimension)) => {
                let (rows, columns) = (self.records.count_rows(), self.records.count_columns());
                if totals_fit(self.config, &dimension, rows, columns) {
                    Ok(dimension)
                } else {
                    Err(TableFault::Totals)
                }
            }
            Ok(None) => Err(TableFault::Totals),
            Err(_) => Err(self.fault_without_memory()),
        }
    }

    // The error if memory is refused for the sizes of a table with cells whose spans fit.
    fn fault_without_memory(&self) -> TableFault
        requires some { is_empty (printed_table_of R.texts R.columns C.color (natural_parts self.now)) ≡ false }
        requires fit { spans_fit self.now.config.now.spans (length (R.texts self.now.records)) (R.columns self.now.records) ≡ true }
        ensures { CanFail (printed_table_of R.texts R.columns C.color (natural_parts self.now)) result }
    {
        if self.config.spans().is_empty() && !self.totals_fit() {
            TableFault::Totals
        } else {
            TableFault::Memory
        }
    }

    /// Whether its spans fit, which are in order.
    pub(crate) fn spans_fit(&self) -> bool
        ensures ascending { IsAscending by_columns self.now.config.now.spans }
        ensures fit { result ≡ spans_fit self.now.config.now.spans (length (R.texts self.now.records)) (R.columns self.now.records) }
    {
        // Shows that the spans are in order.
        let _spans = self.config.spans();
        let (rows, columns) = (self.records.count_rows(), self.records.count_columns());
        spans_fit(self.config, rows, columns)
    }

    // The natural sizes of its columns and rows.
    pub(crate) fn sizes(&self) -> NaturalSizes<'a, R, B>
        ensures records { result.records ≡ self.now.records }
        ensures config { result.config.now ≡ self.now.config.now }
    {
        NaturalSizes::new(self.records, self.config)
    }

    pub(crate) fn is_empty(&self) -> bool
        ensures { result ≡ is_empty (printed_table_of R.texts R.columns C.color (natural_parts self.now)) }
    {
        self.records.count_rows() == 0 || self.records.count_columns() == 0
    }

    /// Whether a table with cells keeps a span.
    pub(crate) fn keeps_spans(&self) -> bool
        ensures { result ≡ keeps_spans self.now.config.now (R.texts self.now.records) (R.columns self.now.records) }
    {
        !self.is_empty() && !self.config.spans().is_empty()
    }

    // Whether the rows and columns can be counted, and the totals of a table with cells and without a
    // span are at most `usize::MAX`.
    #[tactic(auto, unfolding(pg_picture::specs::Fits::totals_fit))]
    fn totals_fit(&self) -> bool
        requires some { is_empty (printed_table_of R.texts R.columns C.color (natural_parts self.now)) ≡ false }
        requires plain { self.now.config.now.spans ≡ [] }
        ensures { result ≡ totals_fit (printed_table_of R.texts R.columns C.color (natural_parts self.now)) }
    {
        self.records.count_rows() < usize::MAX
            && self.records.count_columns() < usize::MAX
            && self.full_width().is_some()
            && self.body_height().is_some()
    }

    // How many terminal columns a line has, its side margins among them, or `None` if they exceed
    // `usize::MAX`.
    fn full_width(&self) -> Option<usize>
        requires count { R.columns self.now.records < usize.MAX }
        requires some { is_empty (printed_table_of R.texts R.columns C.color (natural_parts self.now)) ≡ false }
        requires plain { self.now.config.now.spans ≡ [] }
        ensures { result ≡ if_fits (full_width (printed_table_of R.texts R.columns C.color (natural_parts self.now))) }
    {
        let margin = self.config.get_margin();
        let verticals = self.config.count_vertical(self.records.count_columns());
        let columns = plus(self.sizes().total(Axis::Columns), verticals);
        plus(plus(columns, margin.left.size), margin.right.size)
    }

    // How many lines the body has, or `None` if they exceed `usize::MAX`.
    fn body_height(&self) -> Option<usize>
        requires count { length (R.texts self.now.records) < usize.MAX }
        requires some { is_empty (printed_table_of R.texts R.columns C.color (natural_parts self.now)) ≡ false }
        requires plain { self.now.config.now.spans ≡ [] }
        ensures { result ≡ if_fits (body_height (printed_table_of R.texts R.columns C.color (natural_parts self.now))) }
    {
        let horizontals = self.config.count_horizontal(self.records.count_rows());
        plus(self.sizes().total(Axis::Rows), horizontals)
    }

    // Appends the picture of a table that fits, at these sizes.
    fn push_sized<A: Allocator, W: Allocator>(
        &self,
        dimension: ConstantDimension<A>,
        buf: &mut String<W>,
    ) -> Result<(), AllocError>
        requires widths { dimension.0.items ≡ sizes_of R.texts R.columns Columns (natural_parts self.now) }
        requires heights { dimension.1.items ≡ sizes_of R.texts R.columns Rows (natural_parts self.now) }
        requires fits { misfit_of (printed_table_of R.texts R.columns C.color (natural_parts self.now)) ≡ None }
        ensures { Appends buf.old buf.new result (picture Known (printed_table_of R.texts R.columns C.color (natural_parts self.now))) }
    {
        PeekableGrid::new(self.records, self.config, dimension, self.colors).build(buf)
    }
}

/// Sizes with these widths, and the natural heights of the rows of these records: a table that fits
/// them shows each line of its texts. Heights don't depend on widths, since no printer breaks a
/// text into lines: texts are wrapped beforehand.
///
/// ```text
/// let sizes = heights_for(alloc, &records, &config, vec![in alloc; 12, 40]?)?;
/// PeekableGrid::new(&records, &config, &sizes, &NoColors).print_whole(&mut buf)?;
/// ```
///
/// The errors are those of [`NaturalTable::natural_dimension`]: `Spans`; `Totals`, also if the
/// width or height of a cell exceeds `usize::MAX`; and `Memory`. `alloc` provides the memory for
/// the heights.
pub fn heights_for<R, B, A>(
    alloc: A,
    records: R,
    config: &SpannedConfig<B>,
    widths: Vec<usize, A>,
) -> Result<ConstantDimension<A>, TableFault>
where
    R: PeekableRecords + ExactRecords + Copy,
    B: Allocator,
    A: Allocator + Copy,
    ensures widths { IfOk result (λ d. d.0.items ≡ widths.items) }
    ensures heights { IfOk result (λ d. d.1.items ≡ natural_sizes Rows config.now (R.texts records) (R.columns records)) }
    ensures fault { (fault : TableFault) → sizes_fault config.now (R.texts records) (R.columns records) ≡ Some fault → result ≡ Err fault }
    ensures memory { (fault : TableFault) → sizes_fault config.now (R.texts records) (R.columns records) ≡ None → result ≡ Err fault → fault ≡ TableFault.Memory }
{
    let mut sizes = NaturalTable::new(records, config, &NoColors).natural_dimension(alloc)?;
    sizes.0 = widths;
    Ok(sizes)
}
