//! A table within a width: its columns are narrowed to it, and texts wider than their column are
//! wrapped or cut.

use crate::fault::TableFault;
use crate::natural::NaturalTable;
use crate::overflow::{Overflow, Within};
use crate::sizes::plus;
use pg_config::SpannedConfig;
use pg_fit::{ColumnRange, OverlaidRecords};
use pg_layout::{Colors, ConstantDimension, ExactRecords, PeekableRecords};
use std::alloc::{Allocator, Global};

mod filling;

pub use crate::fitted::filling::FilledTable;

/// A table whose columns were narrowed ([`NaturalTable::within`]), at the natural sizes of its
/// texts, of which those that were too wide are wrapped or cut. If it keeps spans, its columns have
/// the narrowed widths. Only these widths and the new texts take memory: records, settings and
/// colours are lent.
#[derive(Debug)]
pub struct FittedTable<'a, R, C, B: Allocator = Global, A: Allocator = Global> {
    records: OverlaidRecords<R, A>,
    widths: Vec<usize, A>,
    config: &'a SpannedConfig<B>,
    colors: &'a C,
}

// Written out, so that a caller's proof has one call when it drops the table.
impl<'a, R: Drop, C, B: Allocator, A: Allocator> Drop for FittedTable<'a, R, C, B, A> {
    fn drop(self) {
        let FittedTable {
            records,
            widths,
            config: _,
            colors: _,
        } = self;
        drop((records, widths));
    }
}

impl<'a, R, C, B> NaturalTable<'a, R, C, B>
where
    R: PeekableRecords + ExactRecords + Copy,
    C: Colors,
    B: Allocator,
{
    ghost use Rattle.std.specs.Prelude.{◌≡◌, ◌⊎◌, ℕ, [], length, ◌<◌, ◌≤◌, ◌-◌, ◌^◌, max, nat_lt, true, false, Some, None, Err, IfOk, IsOk, OnOk, if◌then◌else◌};
    ghost use Rattle.pg_fit.specs.Overlaid.{other_text};
    ghost use Rattle.pg_picture.specs.Sizes.{if_fits};
    ghost use Rattle.pg_picture.specs.Table.{full_width, is_empty};
    ghost use Rattle.pg_table.specs.Fitted.{HasPlainTail, limit_of, printed_fitted_table, fitted_of, fit_fault_of, least_at, least_width_of, least_fault_of, IsNarrowOf};
    ghost use Rattle.pg_table.specs.Ranges.{ranged_of, ranged_least_of};
    ghost use Rattle.pg_table.specs.Spanning.{keeps_spans};
    ghost use Rattle.pg_table.specs.Inside.{IsFitted, plain_full_width};
    ghost use Rattle.pg_table.specs.Printing.{printed_table_of, natural_parts, sizes_fault_of};

    /// The width of a line, in terminal columns, if each column is as narrow as wrapping or cutting
    /// can make it, including the side margins and the column lines. A table without spans can't
    /// have a smaller width.
    ///
    /// The error is `Totals` if it exceeds `usize::MAX` or there are too many columns to count. A
    /// table with spans allocates for it: then the error is `Spans` if these don't fit, and
    /// `Memory` if memory is refused.
    pub fn least_width<A: Allocator + Copy>(
        &self,
        alloc: A,
        how: Overflow,
    ) -> Result<usize, TableFault>
        ensures width { IfOk result (λ width. width ≡ least_width_of how.entry R.texts R.columns (natural_parts self.now)) }
        ensures ok { IsOk result → least_fault_of how.entry R.texts R.columns (natural_parts self.now) ≡ None }
        ensures spans { least_fault_of how.entry R.texts R.columns (natural_parts self.now) ≡ Some TableFault.Spans → result ≡ Err TableFault.Spans }
        ensures fault { (fault : TableFault) → result ≡ Err fault → (least_fault_of how.entry R.texts R.columns (natural_parts self.now) ≡ Some fault)
            ⊎ ((fault ≡ TableFault.Memory) × (keeps_spans self.now.config.now (R.texts self.now.records) (R.columns self.now.records) ≡ true)) }
    {
        if self.keeps_spans() {
            return self.spanned_least_width(alloc, how);
        }
        self.plain_least_width(how).ok_or(TableFault::Totals)
    }

    // The width of a line of a table without spans if each column is as narrow as it can be, or
    // `None` if it exceeds `usize::MAX` or there are too many columns to count.
    fn plain_least_width(&self, how: Overflow) -> Option<usize>
        ensures { result
            ≡ (if nat_lt (R.columns self.now.records) (2 ^ 64 - 1) then if_fits (plain_full_width how.entry self.now.config.now (R.texts self.now.records) (R.columns self.now.records)) else None) }
    {
        let columns = self.records.count_columns();
        if columns == usize::MAX {
            return None;
        }
        let verticals = self.config.count_vertical(columns);
        let margin = self.config.get_margin();
        let inner = plus(self.sizes().least_total(how), verticals);
        plus(plus(inner, margin.left.size), margin.right.size)
    }

    /// The table within so many terminal columns, including the side margins and the column lines:
    /// if it is wider, columns are narrowed, the widest first ([`pg_fit::narrow`]), and texts wider
    /// than their column are wrapped or cut.
    ///
    /// Its lines are at most that wide, or as wide as [`NaturalTable::least_width`] returns, if the
    /// tail is printable ASCII and ellipses. If nothing is too wide and no span is kept, it draws
    /// the same table, and allocates nothing. Errors are those of [`NaturalTable::within_limits`].
    pub fn within<A: Allocator + Copy>(
        &self,
        alloc: A,
        width: usize,
        how: Overflow,
    ) -> Result<FittedTable<'a, R, C, B, A>, TableFault>
        ensures table { IfOk result (λ fitted. printed_fitted_table R.texts R.columns C.color fitted ≡ fitted_of how.entry width [] R.texts R.columns C.color (natural_parts self.now)) }
        ensures bound { HasPlainTail how.entry
            → IfOk result (λ fitted. full_width (printed_fitted_table R.texts R.columns C.color fitted) ≤ max width (least_width_of how.entry R.texts R.columns (natural_parts self.now))) }
        ensures fault { (fault : TableFault) → fit_fault_of R.texts R.columns (natural_parts self.now) ≡ Some fault → result ≡ Err fault }
        ensures memory { (fault : TableFault) → fit_fault_of R.texts R.columns (natural_parts self.now) ≡ None → result ≡ Err fault → fault ≡ TableFault.Memory }
        ensures empty { is_empty (printed_table_of R.texts R.columns C.color (natural_parts self.now)) ≡ true → IsOk result }
        ensures narrow { fit_fault_of R.texts R.columns (natural_parts self.now) ≡ None → self.now.config.now.spans ≡ []
            → IsNarrowOf width [] R.texts R.columns (natural_parts self.now) → IsOk result }
    {
        self.within_limits(alloc, width, &[], how)
    }

    /// [`NaturalTable::within`] with limits for the first columns, paddings included: `limits[0]`
    /// is the greatest width of column 0, `usize::MAX` is no limit, and columns after the last one
    /// have none. With a width of `usize::MAX` only the limits count.
    ///
    /// The error is `Totals`, before anything is allocated, if the natural width of a column
    /// exceeds `usize::MAX` or there are too many columns to count; and `Memory` if memory is
    /// refused, but not if nothing is too wide. A table without cells has neither error.
    ///
    /// If the table keeps spans, a cell is wrapped or cut to the width of its columns together, and
    /// the columns are drawn at their narrowed widths. Then `Spans` and `Totals` are those of
    /// [`NaturalTable::natural_dimension`], and widths take memory, too.
    pub fn within_limits<A: Allocator + Copy>(
        &self,
        alloc: A,
        width: usize,
        limits: &[usize],
        how: Overflow,
    ) -> Result<FittedTable<'a, R, C, B, A>, TableFault>
        ensures table { IfOk result (λ fitted. printed_fitted_table R.texts R.columns C.color fitted ≡ fitted_of how.entry width limits.now R.texts R.columns C.color (natural_parts self.now)) }
        ensures bound { HasPlainTail how.entry
            → IfOk result (λ fitted. full_width (printed_fitted_table R.texts R.columns C.color fitted) ≤ max width (least_width_of how.entry R.texts R.columns (natural_parts self.now))) }
        ensures limits { HasPlainTail how.entry
            → IfOk result (λ fitted. (k : ℕ) → k < R.columns self.now.records → (printed_fitted_table R.texts R.columns C.color fitted).width k
            ≤ max (least_at how.entry R.texts R.columns (natural_parts self.now) k) (limit_of limits.now k)) }
        ensures fault { (fault : TableFault) → fit_fault_of R.texts R.columns (natural_parts self.now) ≡ Some fault → result ≡ Err fault }
        ensures memory { (fault : TableFault) → fit_fault_of R.texts R.columns (natural_parts self.now) ≡ None → result ≡ Err fault → fault ≡ TableFault.Memory }
        ensures empty { is_empty (printed_table_of R.texts R.columns C.color (natural_parts self.now)) ≡ true → IsOk result }
        ensures narrow { fit_fault_of R.texts R.columns (natural_parts self.now) ≡ None → self.now.config.now.spans ≡ []
            → IsNarrowOf width limits.now R.texts R.columns (natural_parts self.now) → IsOk result }
    {
        let mut records = OverlaidRecords::new(alloc, self.records);
        let within = Within {
            total: width,
            limits,
            how,
        };
        let widths = self.fit(alloc, &within, &mut records)?;
        Ok(FittedTable {
            records,
            widths,
            config: self.config,
            colors: self.colors,
        })
    }

    /// [`NaturalTable::within`] with ranges for the first columns, paddings included: a column is
    /// narrowed no further than the `least` of its range, and at most as wide as the `natural` of
    /// it, unless its texts or its `least` need more. Columns after the last range may have any
    /// width.
    ///
    /// Its lines are at most that wide, or as wide as the least widths together, if the tail is
    /// printable ASCII and ellipses. Errors are those of [`NaturalTable::natural_dimension`]; a
    /// table without cells has none.
    pub fn within_columns<A: Allocator + Copy>(
        &self,
        alloc: A,
        width: usize,
        ranges: &[ColumnRange],
        how: Overflow,
    ) -> Result<FittedTable<'a, R, C, B, A>, TableFault>
        ensures table { IfOk result (λ fitted. printed_fitted_table R.texts R.columns C.color fitted ≡ ranged_of how.entry width ranges.now R.texts R.columns C.color (natural_parts self.now)) }
        ensures bound { HasPlainTail how.entry
            → IfOk result (λ fitted. full_width (printed_fitted_table R.texts R.columns C.color fitted) ≤ max width (ranged_least_of how.entry ranges.now R.texts R.columns (natural_parts self.now))) }
        ensures fault { (fault : TableFault) → is_empty (printed_table_of R.texts R.columns C.color (natural_parts self.now)) ≡ false
            → sizes_fault_of R.texts R.columns (natural_parts self.now) ≡ Some fault → result ≡ Err fault }
        ensures memory { (fault : TableFault) → sizes_fault_of R.texts R.columns (natural_parts self.now) ≡ None → result ≡ Err fault → fault ≡ TableFault.Memory }
        ensures empty { is_empty (printed_table_of R.texts R.columns C.color (natural_parts self.now)) ≡ true → IsOk result }
    {
        if self.is_empty() {
            return self.within(alloc, width, how);
        }
        let natural = NaturalTable::new(self.records, self.config, self.colors);
        let dimension = natural.natural_dimension(alloc)?;
        let widths = self
            .sizes()
            .ranged_widths(alloc, width, ranges, how, &dimension.0)?;
        self.within_limits(alloc, usize::MAX, &widths, how)
    }

    // Sets other texts for the cells whose texts are too wide for their columns, and returns the
    // columns' widths; of a table without spans nothing.
    fn fit<A: Allocator + Copy>(
        &self,
        alloc: A,
        within: &Within<'_>,
        records: &mut OverlaidRecords<R, A>,
    ) -> Result<Vec<usize, A>, TableFault>
        requires { records.old.others ≡ [] }
        ensures fault { (fault : TableFault) → fit_fault_of R.texts R.columns (natural_parts self.now) ≡ Some fault → result ≡ Err fault }
        ensures memory { (fault : TableFault) → fit_fault_of R.texts R.columns (natural_parts self.now) ≡ None → result ≡ Err fault → fault ≡ TableFault.Memory }
        ensures empty { is_empty (printed_table_of R.texts R.columns C.color (natural_parts self.now)) ≡ true → IsOk result }
        ensures narrow { fit_fault_of R.texts R.columns (natural_parts self.now) ≡ None → self.now.config.now.spans ≡ []
            → IsNarrowOf within.now.total within.now.limits.now R.texts R.columns (natural_parts self.now) → IsOk result }
        ensures records { records.new.records ≡ records.old.records }
        ensures fits { IfOk result
            (λ widths. IsFitted within.now.how within.now.total within.now.limits.now self.now.config.now (R.texts self.now.records) (R.columns self.now.records) widths.items
            (other_text records.new.others (R.texts self.now.records))) }
    {
        if self.keeps_spans() {
            return self.fit_spanned(alloc, within, records);
        }
        if self.is_empty() {
            return Ok(Vec::new(alloc));
        }
        match self.sizes().fit_texts(alloc, within, records) {
            Ok(()) => Ok(Vec::new(alloc)),
            Err(fault) => Err(fault),
        }
    }
}

impl<'a, R, C, B, A> FittedTable<'a, R, C, B, A>
where
    R: PeekableRecords + ExactRecords,
    C: Colors,
    B: Allocator,
    A: Allocator,
{
    ghost use Rattle.std.specs.Prelude.{◌≡◌, ◌++◌, true, Some, None, Err, IfOk, IsOk, OnOk, string_bytes};
    ghost use Rattle.pg_picture.specs.Picture.{picture};
    ghost use Rattle.pg_picture.specs.Straight.{IsStraight};
    ghost use Rattle.pg_picture.specs.Table.{Known, is_empty};
    ghost use Rattle.pg_fit.specs.Overlaid.{overlaid};
    ghost use Rattle.pg_table.specs.Fitted.{printed_fitted_table, sizes_fitted, sizes_fault_fitted};
    ghost use Rattle.pg_table.specs.Even.{IsEven, IsEvenText, IsNarrowLook};
    ghost use Rattle.pg_table.specs.Printing.{fault_of, is_spanned, CanFail, Prints};
    ghost use Rattle.pg_table.specs.declared.sizes.Axis.TheVariants.{Columns, Rows};

    // The table over the records with their fitted texts, at least as wide as its columns were
    // narrowed to if it keeps spans.
    fn natural(&self) -> NaturalTable<'_, &OverlaidRecords<R, A>, C, B>
        ensures records { result.records.now ≡ self.now.records }
        ensures config { result.config.now ≡ self.now.config.now }
        ensures colors { result.colors.now ≡ self.now.colors.now }
        ensures widths { result.widths.now ≡ self.now.widths.items }
    {
        NaturalTable {
            records: &self.records,
            config: self.config,
            colors: self.colors,
            widths: &self.widths,
        }
    }

    /// The widths of the columns and the heights of the rows with the fitted texts, in terminal
    /// columns and lines. Errors are those of [`NaturalTable::natural_dimension`].
    pub fn natural_dimension<D: Allocator + Copy>(
        &self,
        alloc: D,
    ) -> Result<ConstantDimension<D>, TableFault>
        ensures fault { (fault : TableFault) → sizes_fault_fitted R.texts R.columns self.now ≡ Some fault → result ≡ Err fault }
        ensures memory { (fault : TableFault) → sizes_fault_fitted R.texts R.columns self.now ≡ None → result ≡ Err fault → fault ≡ TableFault.Memory }
        ensures widths { IfOk result (λ d. d.0.items ≡ sizes_fitted R.texts R.columns Columns self.now) }
        ensures heights { IfOk result (λ d. d.1.items ≡ sizes_fitted R.texts R.columns Rows self.now) }
    {
        self.natural().natural_dimension(alloc)
    }

    /// Whether the table can be printed, like [`NaturalTable::fits`].
    pub fn fits<D: Allocator + Copy>(&self, alloc: D) -> Result<(), TableFault>
        ensures ok { IsOk result → fault_of (printed_fitted_table R.texts R.columns C.color self.now) ≡ None }
        ensures fault { (fault : TableFault) → result ≡ Err fault → CanFail (printed_fitted_table R.texts R.columns C.color self.now) fault }
        ensures empty { is_empty (printed_fitted_table R.texts R.columns C.color self.now) ≡ true → IsOk result }
    {
        self.natural().fits(alloc)
    }

    /// Appends the picture of the table. Errors are those of [`NaturalTable::print`]. A table with
    /// no rows or no columns appends and allocates nothing.
    pub fn print<D: Allocator + Copy, W: Allocator>(
        &self,
        alloc: D,
        buf: &mut String<W>,
    ) -> Result<(), TableFault>
        ensures prints { Prints (is_spanned (printed_fitted_table R.texts R.columns C.color self.now))
            (fault_of (printed_fitted_table R.texts R.columns C.color self.now)) buf.old buf.new result
            (picture Known (printed_fitted_table R.texts R.columns C.color self.now)) }
        ensures printed { OnOk result (string_bytes buf.new ≡ string_bytes buf.old ++ picture Known (printed_fitted_table R.texts R.columns C.color self.now)) }
        ensures empty { is_empty (printed_fitted_table R.texts R.columns C.color self.now) ≡ true → IsOk result × (buf.new ≡ buf.old) }
        ensures straight { IsOk result → IsStraight (printed_fitted_table R.texts R.columns C.color self.now) }
        ensures even { IsOk result → IsEven (printed_fitted_table R.texts R.columns C.color self.now) }
    {
        self.natural().print(alloc, buf)
    }

    /// The picture of the table as a text of its own. Errors are those of [`FittedTable::print`]. A
    /// table with no rows or no columns allocates nothing.
    pub fn to_string<D: Allocator + Copy>(&self, alloc: D) -> Result<String<D>, TableFault>
        ensures text { IfOk result (λ text. string_bytes text ≡ picture Known (printed_fitted_table R.texts R.columns C.color self.now)) }
        ensures even { IsNarrowLook self.now.config.now → IfOk result (λ text. IsEvenText (string_bytes text)) }
        ensures ok { IsOk result → fault_of (printed_fitted_table R.texts R.columns C.color self.now) ≡ None }
        ensures fault { (fault : TableFault) → result ≡ Err fault → CanFail (printed_fitted_table R.texts R.columns C.color self.now) fault }
        ensures empty { is_empty (printed_fitted_table R.texts R.columns C.color self.now) ≡ true → IsOk result }
    {
        self.natural().to_string(alloc)
    }
}
