//! Tables whose lines fill a width.

ghost use Rattle.std.specs.Prelude.{◌≡◌, ◌+◌, ◌^◌, ◌<◌, ◌++◌, max, length, set, slice_index_or, true, false, None, Err, IfOk, IsOk, OnOk, string_bytes, ◌≤◌, [], Some};
ghost use Rattle.pg_picture.specs.Appending.{Appends};
ghost use Rattle.pg_picture.specs.Fits.{misfit_of};
ghost use Rattle.pg_picture.specs.Picture.{picture};
ghost use Rattle.pg_picture.specs.Straight.{IsStraight};
ghost use Rattle.pg_picture.specs.Table.{Known, full_width, is_empty};
ghost use Rattle.pg_table.specs.Even.{IsEven};
ghost use Rattle.pg_table.specs.Fitted.{at_sizes, filled, lacking, printed_filled_table, printed_fitted_table, sizes_fitted};
ghost use Rattle.pg_table.specs.Fitted.{filled_rows, HasPlainTail, fitted_rows, fit_fault_rows, least_width_rows, IsNarrowRows};
ghost use Rattle.pg_table.specs.Printing.{fault_of, is_spanned, CanFail, Prints, printed_table};
ghost use Rattle.pg_table.specs.declared.sizes.Axis.TheVariants.{Columns, Rows};
ghost use Rattle.pg_layout.specs.Records.{columns_of};

use crate::fault::TableFault;
use crate::fitted::FittedTable;
use crate::overflow::Overflow;
use crate::table::Table;
use pg_layout::{
    Colors, ColorsMap, ConstantDimension, ExactRecords, PeekableRecords, Records, VecRecords,
};
use pg_peekable::PeekableGrid;
use pg_picture::fits::full_width;
use std::alloc::{AllocError, Allocator, Global};
use std::convert::AsStr;

/// A fitted table of which one column takes what the lines lack of a width
/// ([`FittedTable::filled`]).
#[derive(Debug)]
pub struct FilledTable<'a, R, C, B: Allocator = Global, A: Allocator = Global> {
    fitted: FittedTable<'a, R, C, B, A>,
    width: usize,
    column: usize,
}

// Written out, so that a caller's proof has one call when it drops the table.
impl<'a, R: Drop, C, B: Allocator, A: Allocator> Drop for FilledTable<'a, R, C, B, A> {
    fn drop(self) {
        let FilledTable {
            fitted,
            width: _,
            column: _,
        } = self;
        drop(fitted);
    }
}

impl<'a, R, C, B, A> FittedTable<'a, R, C, B, A>
where
    R: PeekableRecords + ExactRecords,
    C: Colors,
    B: Allocator,
    A: Allocator,
{
    /// The table with lines of exactly so many terminal columns, including the side margins and the
    /// column lines, if they are narrower: one column, counted from 0, is as much wider. A table
    /// without this column, or without rows, stays as it is. Allocates nothing.
    pub fn filled(self, width: usize, column: usize) -> FilledTable<'a, R, C, B, A>
        ensures table { printed_filled_table R.texts R.columns C.color result ≡ filled width column (printed_fitted_table R.texts R.columns C.color self.entry) }
        ensures exact { is_empty (printed_fitted_table R.texts R.columns C.color self.entry) ≡ false → column < R.columns self.entry.records.records
            → full_width (printed_filled_table R.texts R.columns C.color result) ≡ max width (full_width (printed_fitted_table R.texts R.columns C.color self.entry)) }
    {
        FilledTable {
            fitted: self,
            width,
            column,
        }
    }

    // Whether the table has no cells.
    fn is_empty(&self) -> bool
        ensures { result ≡ is_empty (printed_fitted_table R.texts R.columns C.color self.now) }
    {
        self.natural().is_empty()
    }

    // The sizes of a table with cells that has no fault.
    fn sized<D: Allocator + Copy>(&self, alloc: D) -> Result<ConstantDimension<D>, TableFault>
        requires { is_empty (printed_fitted_table R.texts R.columns C.color self.now) ≡ false }
        ensures widths { IfOk result (λ d. d.0.items ≡ sizes_fitted R.texts R.columns Columns self.now) }
        ensures heights { IfOk result (λ d. d.1.items ≡ sizes_fitted R.texts R.columns Rows self.now) }
        ensures ok { IsOk result → fault_of (printed_fitted_table R.texts R.columns C.color self.now) ≡ None }
        ensures fault { (fault : TableFault) → result ≡ Err fault → CanFail (printed_fitted_table R.texts R.columns C.color self.now) fault }
    {
        self.natural().sized(alloc)
    }

    // What a line of a table with cells and these widths lacks of a width.
    fn lacking<D: Allocator>(&self, dimension: &ConstantDimension<D>, width: usize) -> usize
        requires some { is_empty (printed_fitted_table R.texts R.columns C.color self.now) ≡ false }
        requires widths { dimension.now.0.items ≡ sizes_fitted R.texts R.columns Columns self.now }
        requires fits { fault_of (printed_fitted_table R.texts R.columns C.color self.now) ≡ None }
        ensures { result ≡ lacking width (printed_fitted_table R.texts R.columns C.color self.now) }
    {
        match full_width(
            self.config,
            dimension,
            Records::count_columns(&&self.records),
        ) {
            Some(line) => width.saturating_sub(line),
            None => 0,
        }
    }

    // Appends the picture of the table at these sizes, at which it fits.
    fn push_at<D: Allocator, W: Allocator>(
        &self,
        dimension: &ConstantDimension<D>,
        buf: &mut String<W>,
    ) -> Result<(), AllocError>
        requires { misfit_of (at_sizes dimension.now (printed_fitted_table R.texts R.columns C.color self.now)) ≡ None }
        ensures { Appends buf.old buf.new result (picture Known (at_sizes dimension.now (printed_fitted_table R.texts R.columns C.color self.now))) }
    {
        PeekableGrid::new(&self.records, self.config, dimension, self.colors).build(buf)
    }
}

impl<'a, R, C, B, A> FilledTable<'a, R, C, B, A>
where
    R: PeekableRecords + ExactRecords,
    C: Colors,
    B: Allocator,
    A: Allocator,
{
    /// Appends the picture of the table. Errors are those of [`FittedTable::print`]. A table with
    /// no rows or no columns appends and allocates nothing.
    pub fn print<D: Allocator + Copy, W: Allocator>(
        &self,
        alloc: D,
        buf: &mut String<W>,
    ) -> Result<(), TableFault>
        ensures prints { Prints (is_spanned (printed_fitted_table R.texts R.columns C.color self.now.fitted))
            (fault_of (printed_fitted_table R.texts R.columns C.color self.now.fitted)) buf.old buf.new result
            (picture Known (printed_filled_table R.texts R.columns C.color self.now)) }
        ensures printed { OnOk result (string_bytes buf.new ≡ string_bytes buf.old ++ picture Known (printed_filled_table R.texts R.columns C.color self.now)) }
        ensures empty { is_empty (printed_filled_table R.texts R.columns C.color self.now) ≡ true → IsOk result × (buf.new ≡ buf.old) }
        ensures straight { IsOk result → IsStraight (printed_filled_table R.texts R.columns C.color self.now) }
        ensures even { IsOk result → IsEven (printed_filled_table R.texts R.columns C.color self.now) }
    {
        if self.fitted.is_empty() {
            return Ok(());
        }
        let dimension = self.sizes(alloc)?;
        self.push_sized(&dimension, buf)?;
        Ok(())
    }

    /// The picture of the table as a text of its own. Errors are those of [`FittedTable::print`]. A
    /// table with no rows or no columns allocates nothing.
    pub fn to_string<D: Allocator + Copy>(&self, alloc: D) -> Result<String<D>, TableFault>
        ensures text { IfOk result (λ text. string_bytes text ≡ picture Known (printed_filled_table R.texts R.columns C.color self.now)) }
        ensures even { IsOk result → IsEven (printed_filled_table R.texts R.columns C.color self.now) }
        ensures ok { IsOk result → fault_of (printed_fitted_table R.texts R.columns C.color self.now.fitted) ≡ None }
        ensures fault { (fault : TableFault) → result ≡ Err fault → CanFail (printed_fitted_table R.texts R.columns C.color self.now.fitted) fault }
        ensures empty { is_empty (printed_filled_table R.texts R.columns C.color self.now) ≡ true → IsOk result }
    {
        let mut text = String::new(alloc);
        self.print(alloc, &mut text)?;
        Ok(text)
    }

    // The sizes of a table with cells that has no fault.
    fn sizes<D: Allocator + Copy>(&self, alloc: D) -> Result<ConstantDimension<D>, TableFault>
        requires { is_empty (printed_fitted_table R.texts R.columns C.color self.now.fitted) ≡ false }
        ensures table { IfOk result (λ d. at_sizes d (printed_fitted_table R.texts R.columns C.color self.now.fitted) ≡ printed_filled_table R.texts R.columns C.color self.now) }
        ensures fits { IsOk result → misfit_of (printed_filled_table R.texts R.columns C.color self.now) ≡ None }
        ensures ok { IsOk result → fault_of (printed_fitted_table R.texts R.columns C.color self.now.fitted) ≡ None }
        ensures fault { (fault : TableFault) → result ≡ Err fault → CanFail (printed_fitted_table R.texts R.columns C.color self.now.fitted) fault }
    {
        let mut dimension = self.fitted.sized(alloc)?;
        let width = self.width;
        let more = self.fitted.lacking(&dimension, width);
        widen(&mut dimension.0, self.column, more);
        Ok(dimension)
    }

    // Appends the picture of the table, which fits, at its sizes.
    fn push_sized<D: Allocator, W: Allocator>(
        &self,
        dimension: &ConstantDimension<D>,
        buf: &mut String<W>,
    ) -> Result<(), AllocError>
        requires sizes { at_sizes dimension.now (printed_fitted_table R.texts R.columns C.color self.now.fitted) ≡ printed_filled_table R.texts R.columns C.color self.now }
        requires fits { misfit_of (printed_filled_table R.texts R.columns C.color self.now) ≡ None }
        ensures { Appends buf.old buf.new result (picture Known (printed_filled_table R.texts R.columns C.color self.now)) }
    {
        self.fitted.push_at(dimension, buf)
    }
}

// Makes one of these columns so much wider, if it is there.
#[tactic(auto, using(crate::proofs::Filled::nothing_more, crate::proofs::Filled::past_more))]
fn widen<A: Allocator>(widths: &mut Vec<usize, A>, column: usize, more: usize)
    requires { 0 < more → column < length widths.old.items → slice_index_or widths.old.items column 0 + more < 2 ^ 64 }
    ensures { widths.new.items ≡ set widths.old.items column (slice_index_or widths.old.items column 0 + more) }
{
    if more == 0 || widths.len() <= column {
        return;
    }
    widths[column] += more;
}

impl<T: AsStr + Drop, A: Allocator> Table<T, A> {
    /// The table with lines of exactly so many terminal columns, including the side margins and the
    /// column lines: [`Table::within`] this width, and if its lines are narrower, one column,
    /// counted from 0, is as much wider.
    ///
    /// The width is exact if the table has such a column and rows, the tail is printable ASCII and
    /// ellipses, and [`Table::least_width`] isn't greater. Errors are those of `within`.
    ///
    /// ```text
    /// table.filled(alloc, 60, 1, Overflow::Cut("…"))?.print(alloc, &mut buf)?;
    /// ```
    pub fn filled<B: Allocator + Copy>(
        &self,
        alloc: B,
        width: usize,
        column: usize,
        how: Overflow,
    ) -> Result<FilledTable<'_, &VecRecords<T, A>, ColorsMap<A>, A, B>, TableFault>
        ensures table { IfOk result (λ table. filled_rows T.text table ≡ filled width column (fitted_rows how.entry width [] T.text self.now)) }
        ensures exact { HasPlainTail how.entry → least_width_rows how.entry T.text self.now ≤ width → 0 < length self.now.rows → column < columns_of self.now.rows
            → IfOk result (λ table. full_width (filled_rows T.text table) ≡ width) }
        ensures fault { (fault : TableFault) → fit_fault_rows T.text self.now ≡ Some fault → result ≡ Err fault }
        ensures memory { (fault : TableFault) → fit_fault_rows T.text self.now ≡ None → result ≡ Err fault → fault ≡ TableFault.Memory }
        ensures empty { is_empty (printed_table T.text self.now) ≡ true → IsOk result }
        ensures narrow { fit_fault_rows T.text self.now ≡ None → self.now.config.spans ≡ [] → IsNarrowRows width [] T.text self.now → IsOk result }
    {
        Ok(self.within(alloc, width, how)?.filled(width, column))
    }
}
