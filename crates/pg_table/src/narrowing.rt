//! The widths of columns within limits, and the texts fitted to them.

ghost use Rattle.std.specs.Prelude.{◌^◌, ◌&&◌, nat_lt, Err, ◌≡◌, ◌<◌, ◌≤◌, ◌+◌, ◌-◌, ℕ, IfOk, IfSome, IsOk, OnOk, MatchOption, [], false, true, length, slice_index, sum_by};
ghost use Rattle.std.specs.Bool.{OnTrue};
ghost use Rattle.std.specs.List.{range_with_len};
ghost use Rattle.pg_layout.specs.Keys.{by_place};
ghost use Rattle.pg_layout.specs.Places.{same};
ghost use Rattle.pg_layout.specs.Position.{at};
ghost use Rattle.pg_picture.specs.Sizes.{if_fits};
ghost use Rattle.pg_fit.specs.Overlaid.{other_text};
ghost use Rattle.pg_table.specs.Natural.{paddings, all_fit};
ghost use Rattle.pg_table.specs.Fitted.{least_text_width, beside_columns, limit_of, column_ranges, IsNarrow};
ghost use Rattle.pg_table.specs.Ranges.{ranged, range_of};
ghost use Rattle.pg_table.specs.Inside.{text_of, rows_of, least_of, naturals_of, widths_of, AreWithin, fitted_to, HasRoomAt, FitsColumn, AreFittedBelow};
ghost use Rattle.pg_table.specs.declared.sizes.Axis.TheVariants.{Columns};

use crate::fault::TableFault;
use crate::overflow::{Overflow, Within};
use crate::sizes::{Axis, NaturalSizes, greater, plus, together};
use pg_config::SpannedConfig;
use pg_fit::{ColumnRange, OverlaidRecords, narrow};
use pg_layout::{ExactRecords, PeekableRecords, Position};
use std::alloc::{AllocError, Allocator};

/// The greatest width of a column, if the first columns have limits.
pub(crate) fn limit_of(limits: &[usize], column: usize) -> usize
    ensures { result ≡ limit_of limits.now column }
{
    limits.get(column).copied().unwrap_or(usize::MAX)
}

/// How narrow a column of this least and natural width may be, and how wide with enough room, if
/// the first columns have ranges.
pub(crate) fn ranged_column(
    ranges: &[ColumnRange],
    column: usize,
    least: usize,
    natural: usize,
) -> ColumnRange
    ensures { result ≡ ranged (range_of ranges.now column) least natural }
{
    let any = ColumnRange {
        least: 0,
        natural: usize::MAX,
    };
    let own = ranges.get(column).copied().unwrap_or(any);
    let range = ColumnRange {
        least: least.max(own.least.min(natural)),
        natural,
    };
    range.limited(own.natural)
}

/// What a total leaves to so many columns: it without their column lines and the side margins.
pub(crate) fn room_of<B: Allocator>(
    config: &SpannedConfig<B>,
    total: usize,
    columns: usize,
) -> usize
    requires { columns < usize.MAX }
    ensures { result ≡ total - beside_columns config.now columns }
{
    let margin = config.get_margin();
    total
        .saturating_sub(config.count_vertical(columns))
        .saturating_sub(margin.left.size)
        .saturating_sub(margin.right.size)
}

impl<'a, R: PeekableRecords + ExactRecords, B: Allocator> NaturalSizes<'a, R, B> {
    /// How wide a cell is at least, or `None` if it exceeds `usize::MAX`.
    pub(crate) fn least_cell(&self, how: Overflow, pos: Position) -> Option<usize>
        requires row { pos.row < rows_of R.texts R.columns self.now }
        requires column { pos.col < R.columns self.now.records }
        ensures { result ≡ if_fits (paddings Columns self.now.config.now pos + least_text_width how.entry self.now.config.now (text_of R.texts R.columns self.now) pos) }
    {
        let natural = self.text_size(Axis::Columns, pos);
        let least = natural.min(how.least_width(self.records.get_text(pos)));
        plus(self.paddings(Axis::Columns, pos), least)
    }

    // How wide a column is at least, or `None` if it exceeds `usize::MAX`.
    fn least_width(&self, how: Overflow, column: usize) -> Option<usize>
        requires { column < R.columns self.now.records }
        ensures { result ≡ if_fits (least_of R.texts R.columns self.now how.entry column) }
    {
        let mut width = self.paddings(Axis::Columns, Position::new(0, column));
        for row in 0..self.count_cells(Axis::Columns) {
            let cell = self.least_cell(how, Position::new(row, column));
            width = greater(width, cell);
        }
        width
    }

    /// How wide the columns are at least together, or `None` if it exceeds `usize::MAX`.
    pub(crate) fn least_total(&self, how: Overflow) -> Option<usize>
        ensures { result ≡ if_fits (sum_by (least_of R.texts R.columns self.now how.entry) (range_with_len 0 (R.columns self.now.records))) }
    {
        let mut sum = Some(0);
        for column in 0..self.count(Axis::Columns) {
            sum = together(sum, self.least_width(how, column));
        }
        sum
    }

    /// Whether the columns of a table without spans are within limits at their natural widths, or
    /// `None` if one of these exceeds `usize::MAX`. Allocates nothing.
    pub(crate) fn are_within(&self, total: usize, limits: &[usize]) -> Option<bool>
        requires count { R.columns self.now.records < usize.MAX }
        requires plain { self.now.config.now.spans ≡ [] }
        ensures fit { MatchOption result (all_fit (naturals_of R.texts R.columns self.now) ≡ false) (λ within. all_fit (naturals_of R.texts R.columns self.now) ≡ true) }
        ensures within { IfSome result (λ within. OnTrue within (AreWithin R.texts R.columns self.now total limits.now)) }
        ensures narrow { IsNarrow total limits.now self.now.config.now (R.texts self.now.records) (R.columns self.now.records) → IfSome result (λ within. within ≡ true) }
    {
        let columns = self.count(Axis::Columns);
        let mut left = room_of(self.config, total, columns);
        let mut within = true;
        for column in 0..columns {
            let natural = self.size(Axis::Columns, column)?;
            let fits = natural <= left.min(limit_of(limits, column));
            within = within && fits;
            left = left.saturating_sub(natural);
        }
        Some(within)
    }

    // How narrow the columns may be, and how wide they would be without limits.
    fn ranges<A: Allocator>(
        &self,
        alloc: A,
        within: &Within<'_>,
        naturals: &[usize],
    ) -> Result<Vec<ColumnRange, A>, AllocError>
        requires plain { self.now.config.now.spans ≡ [] }
        requires fit { all_fit (naturals_of R.texts R.columns self.now) ≡ true }
        requires naturals { naturals.now ≡ naturals_of R.texts R.columns self.now }
        ensures { IfOk result (λ ranges. ranges.items
            ≡ column_ranges within.now.how within.now.total within.now.limits.now self.now.config.now (R.texts self.now.records) (R.columns self.now.records)) }
    {
        let mut ranges = Vec::with_capacity(alloc, naturals.len())?;
        for (column, natural) in naturals.iter().enumerate() {
            let range = ColumnRange {
                least: self.least_width(within.how, column).unwrap_or(0),
                natural: *natural,
            };
            ranges.push(range.limited(limit_of(within.limits, column)))?;
        }
        Ok(ranges)
    }

    // The widths of the columns within limits.
    fn widths<A: Allocator + Copy>(
        &self,
        alloc: A,
        within: &Within<'_>,
        naturals: &[usize],
    ) -> Result<Vec<usize, A>, AllocError>
        requires count { R.columns self.now.records < usize.MAX }
        requires plain { self.now.config.now.spans ≡ [] }
        requires fit { all_fit (naturals_of R.texts R.columns self.now) ≡ true }
        requires naturals { naturals.now ≡ naturals_of R.texts R.columns self.now }
        ensures { IfOk result (λ widths. widths.items ≡ widths_of R.texts R.columns self.now within.now.how within.now.total within.now.limits.now) }
    {
        let ranges = self.ranges(alloc, within, naturals)?;
        let room = room_of(self.config, within.total, self.count(Axis::Columns));
        narrow(alloc, room, &ranges)
    }

    /// Sets another text for a cell whose text is too wide for so many columns.
    pub(crate) fn fit_cell<A: Allocator + Copy>(
        &self,
        alloc: A,
        how: Overflow,
        width: usize,
        pos: Position,
        fitted: &mut OverlaidRecords<R, A>,
    ) -> Result<(), AllocError>
        requires row { pos.row < rows_of R.texts R.columns self.now }
        requires column { pos.col < R.columns self.now.records }
        requires own { other_text fitted.old.others (R.texts self.now.records) pos ≡ text_of R.texts R.columns self.now pos }
        ensures records { fitted.new.records ≡ fitted.old.records }
        ensures here { OnOk result (other_text fitted.new.others (R.texts self.now.records) pos ≡ fitted_to how.entry self.now.config.now (text_of R.texts R.columns self.now) width pos) }
        ensures others { OnOk result ((q : Position) → same by_place pos q ≡ false
            → other_text fitted.new.others (R.texts self.now.records) q ≡ other_text fitted.old.others (R.texts self.now.records) q) }
        ensures room { OnOk result (HasRoomAt how.entry self.now.config.now (text_of R.texts R.columns self.now) width pos) }
    {
        let padding = self.padding(pos);
        let room = width
            .saturating_sub(padding.left.size)
            .saturating_sub(padding.right.size);
        if self.text_size(Axis::Columns, pos) > room {
            let text = how.fit(alloc, self.records.get_text(pos), room)?;
            fitted.set(pos, text)?;
        }
        Ok(())
    }

    // Sets other texts for the cells of a column whose texts are too wide for so many columns.
    fn fit_column<A: Allocator + Copy>(
        &self,
        alloc: A,
        how: Overflow,
        width: usize,
        column: usize,
        fitted: &mut OverlaidRecords<R, A>,
    ) -> Result<(), AllocError>
        requires column { column < R.columns self.now.records }
        requires own { (r : ℕ) → other_text fitted.old.others (R.texts self.now.records) (at r column) ≡ text_of R.texts R.columns self.now (at r column) }
        ensures records { fitted.new.records ≡ fitted.old.records }
        ensures fits { OnOk result
            (FitsColumn how.entry self.now.config.now (text_of R.texts R.columns self.now) (rows_of R.texts R.columns self.now) column width
            (other_text fitted.old.others (R.texts self.now.records)) (other_text fitted.new.others (R.texts self.now.records))) }
    {
        for row in 0..self.count_cells(Axis::Columns) {
            self.fit_cell(alloc, how, width, Position::new(row, column), fitted)?;
        }
        Ok(())
    }

    // Sets other texts for the cells whose texts are too wide for the widths that their columns get.
    fn fit_columns<A: Allocator + Copy>(
        &self,
        alloc: A,
        within: &Within<'_>,
        fitted: &mut OverlaidRecords<R, A>,
    ) -> Result<(), AllocError>
        requires count { R.columns self.now.records < usize.MAX }
        requires plain { self.now.config.now.spans ≡ [] }
        requires fit { all_fit (naturals_of R.texts R.columns self.now) ≡ true }
        requires own { fitted.old.others ≡ [] }
        ensures records { fitted.new.records ≡ fitted.old.records }
        ensures fits { OnOk result
            (AreFittedBelow within.now.how within.now.total within.now.limits.now self.now.config.now (R.texts self.now.records) (R.columns self.now.records)
            (R.columns self.now.records) (other_text fitted.new.others (R.texts self.now.records))) }
    {
        let naturals = self.list(alloc, Axis::Columns)?;
        let widths = self.widths(alloc, within, &naturals)?;
        for (column, width) in widths.iter().enumerate() {
            if *width < naturals[column] {
                self.fit_column(alloc, within.how, *width, column, fitted)?;
            }
        }
        Ok(())
    }

    /// Sets other texts for the cells of a table without spans whose texts are too wide for the
    /// widths of their columns within a total and limits. If the natural widths are within these,
    /// it allocates nothing.
    ///
    /// The error is `Totals`, before anything is allocated, if there are too many columns to count
    /// or a natural width exceeds `usize::MAX`.
    pub(crate) fn fit_texts<A: Allocator + Copy>(
        &self,
        alloc: A,
        within: &Within<'_>,
        fitted: &mut OverlaidRecords<R, A>,
    ) -> Result<(), TableFault>
        requires plain { self.now.config.now.spans ≡ [] }
        requires own { fitted.old.others ≡ [] }
        ensures totals { (nat_lt (R.columns self.now.records) (2 ^ 64 - 1) && all_fit (naturals_of R.texts R.columns self.now)) ≡ false → result ≡ Err TableFault.Totals }
        ensures memory { (nat_lt (R.columns self.now.records) (2 ^ 64 - 1) && all_fit (naturals_of R.texts R.columns self.now)) ≡ true
            → (fault : TableFault) → result ≡ Err fault → fault ≡ TableFault.Memory }
        ensures narrow { (nat_lt (R.columns self.now.records) (2 ^ 64 - 1) && all_fit (naturals_of R.texts R.columns self.now)) ≡ true
            → IsNarrow within.now.total within.now.limits.now self.now.config.now (R.texts self.now.records) (R.columns self.now.records)
            → IsOk result }
        ensures records { fitted.new.records ≡ fitted.old.records }
        ensures fits { OnOk result
            (AreFittedBelow within.now.how within.now.total within.now.limits.now self.now.config.now (R.texts self.now.records) (R.columns self.now.records)
            (R.columns self.now.records) (other_text fitted.new.others (R.texts self.now.records))) }
    {
        if self.count(Axis::Columns) == usize::MAX {
            return Err(TableFault::Totals);
        }
        let Some(are_within) = self.are_within(within.total, within.limits) else {
            return Err(TableFault::Totals);
        };
        if !are_within {
            self.fit_columns(alloc, within, fitted)?;
        }
        Ok(())
    }
}
