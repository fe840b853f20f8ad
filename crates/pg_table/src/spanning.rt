//! Tables that keep spans, within a width: texts are fitted to all columns of their cells.

ghost use Rattle.std.specs.Prelude.{◌≡◌, ◌==◌, ◌||◌, ◌⊎◌, ℕ, ◌+◌, ◌^◌, ◌-◌, ◌<◌, ◌≤◌, min, true, false, nat_lt, is_some, Some, None, Err, IfOk, IsOk, IfSome, OnOk, [], length, map, slice_index, if◌then◌else◌};
ghost use Rattle.std.specs.List.{range_with_len, list_all};
ghost use Rattle.pg_fit.specs.Overlaid.{other_text};
ghost use Rattle.pg_fit.specs.Narrowing.{limited};
ghost use Rattle.pg_layout.specs.Keys.{by_place};
ghost use Rattle.pg_layout.specs.Places.{same};
ghost use Rattle.pg_layout.specs.Position.{at};
ghost use Rattle.pg_layout.specs.Records.{text_at};
ghost use Rattle.pg_config.specs.Spans.{corner, is_visible};
ghost use Rattle.pg_picture.specs.Fits.{spans_fit, span_fits};
ghost use Rattle.pg_picture.specs.Sizes.{if_fits};
ghost use Rattle.pg_table.specs.Natural.{is_single, natural_sizes, cells_fit};
ghost use Rattle.pg_table.specs.Fitted.{fit_fault_of, least_fault_of, least_width_of};
ghost use Rattle.pg_table.specs.Overflowing.{limit_of};
ghost use Rattle.pg_table.specs.Printing.{natural_parts};
ghost use Rattle.pg_table.specs.Ranges.{ranged_widths};
ghost use Rattle.pg_table.specs.Spanning.{keeps_spans, singles_width, room_needed, least_cell_width, spanned_least_width, are_within, spanned_widths, cell_room, spanned_text};
ghost use Rattle.pg_table.specs.Inside.{IsHugeLeast, HasHugeLeast, HasRoomTogether, AreFittedTo, AreFittedTogether};
ghost use Rattle.pg_table.specs.declared.sizes.Axis.TheVariants.{Columns};

use crate::fault::TableFault;
use crate::narrowing::{limit_of, ranged_column, room_of};
use crate::natural::NaturalTable;
use crate::needs::{Need, widened};
use crate::overflow::{Overflow, Within};
use crate::sizes::{Axis, NaturalSizes};
use pg_config::{Span, SpannedConfig};
use pg_fit::{ColumnRange, OverlaidRecords, narrow};
use pg_layout::{Colors, ConstantDimension, ExactRecords, PeekableRecords, Position};
use pg_picture::fits::{full_width, rect_width};
use std::alloc::{AllocError, Allocator};
use std::mem;

fn are_within<B: Allocator>(
    config: &SpannedConfig<B>,
    total: usize,
    limits: &[usize],
    widths: &[usize],
) -> bool
    ensures { result ≡ are_within total limits.now config.now (length widths.now) widths.now }
{
    let mut left = room_of(config, total, widths.len());
    for (column, width) in widths.iter().enumerate() {
        if *width > left.min(limit_of(limits, column)) {
            return false;
        }
        left -= *width;
    }
    true
}

// How narrow columns may be, and how wide they would be without limits.
fn ranges_of<A: Allocator>(
    alloc: A,
    least: &[usize],
    naturals: &[usize],
    limits: &[usize],
) -> Result<Vec<ColumnRange, A>, AllocError>
    requires { length least.now ≡ length naturals.now }
    ensures { IfOk result (λ ranges. ranges.items
        ≡ map (λ k. limited (limit_of limits.now k) (record { least = slice_index least.now k; natural = slice_index naturals.now k })) (range_with_len 0 (length naturals.now))) }
{
    let mut ranges = Vec::with_capacity(alloc, naturals.len())?;
    for (column, natural) in naturals.iter().enumerate() {
        let range = ColumnRange {
            least: least[column],
            natural: *natural,
        };
        ranges.push(range.limited(limit_of(limits, column)))?;
    }
    Ok(ranges)
}

impl<'a, R: PeekableRecords + ExactRecords, B: Allocator> NaturalSizes<'a, R, B> {
    // What a cell without a span takes at least, and nothing for any other place; `None` if it
    // exceeds `usize::MAX`.
    fn least_single(&self, how: Overflow, pos: Position) -> Option<usize>
        requires fit { spans_fit self.now.config.now.spans (length (R.texts self.now.records)) (R.columns self.now.records) ≡ true }
        requires row { pos.row < length (R.texts self.now.records) }
        requires column { pos.col < R.columns self.now.records }
        ensures width { IfSome result (λ width. width
            ≡ (if is_single self.now.config.now.spans pos then least_cell_width how.entry self.now.config.now (text_at (R.texts self.now.records)) pos else 0)) }
        ensures huge { result ≡ None → IsHugeLeast how.entry self.now.config.now (R.texts self.now.records) (R.columns self.now.records) pos }
    {
        // Shows that the spans are in order.
        let _spans = self.config.spans();
        if !self.config.is_cell_visible(pos) {
            return Some(0);
        }
        if self.config.left_span(pos).is_some() {
            return Some(0);
        }
        self.least_cell(how, pos)
    }

    // How wide the cells of a column without a span are at least, or `None` if that exceeds
    // `usize::MAX`.
    fn least_by_singles(&self, how: Overflow, column: usize) -> Option<usize>
        requires fit { spans_fit self.now.config.now.spans (length (R.texts self.now.records)) (R.columns self.now.records) ≡ true }
        requires column { column < R.columns self.now.records }
        ensures width { IfSome result (λ width. width
            ≡ singles_width self.now.config.now (length (R.texts self.now.records)) (R.columns self.now.records)
            (least_cell_width how.entry self.now.config.now (text_at (R.texts self.now.records))) column) }
        ensures huge { result ≡ None → HasHugeLeast how.entry self.now.config.now (R.texts self.now.records) (R.columns self.now.records) }
    {
        let mut width: usize = 0;
        for row in 0..self.count(Axis::Rows) {
            width = width.max(self.least_single(how, Position::new(row, column))?);
        }
        Some(width)
    }

    // How wide the cells without a span of each column are at least, or `None` if that exceeds
    // `usize::MAX`.
    fn least_singles<A: Allocator>(
        &self,
        alloc: A,
        how: Overflow,
    ) -> Result<Option<Vec<usize, A>>, AllocError>
        requires { spans_fit self.now.config.now.spans (length (R.texts self.now.records)) (R.columns self.now.records) ≡ true }
        ensures widths { IfOk result (λ o. IfSome o (λ v. v.items
            ≡ map (singles_width self.now.config.now (length (R.texts self.now.records)) (R.columns self.now.records)
            (least_cell_width how.entry self.now.config.now (text_at (R.texts self.now.records)))) (range_with_len 0 (R.columns self.now.records)))) }
        ensures huge { IfOk result (λ o. o ≡ None → HasHugeLeast how.entry self.now.config.now (R.texts self.now.records) (R.columns self.now.records)) }
    {
        let mut widths = Vec::with_capacity(alloc, self.count(Axis::Columns))?;
        for column in 0..self.count(Axis::Columns) {
            match self.least_by_singles(how, column) {
                Some(width) => widths.push(width)?,
                None => return Ok(None),
            }
        }
        Ok(Some(widths))
    }

    // What a cell with a span needs at least of its columns, or `None` if its least width exceeds
    // `usize::MAX`.
    fn least_need(&self, how: Overflow, span: Span) -> Option<Need>
        requires { span_fits (length (R.texts self.now.records)) (R.columns self.now.records) span ≡ true }
        ensures need { IfSome result (λ need. need
            ≡ room_needed self.now.config.now (length (R.texts self.now.records)) (R.columns self.now.records)
            (least_cell_width how.entry self.now.config.now (text_at (R.texts self.now.records))) span) }
        ensures sized { is_some result ≡ nat_lt (least_cell_width how.entry self.now.config.now (text_at (R.texts self.now.records)) (corner span)) (2 ^ 64) }
    {
        let (place, size) = span;
        let width = self.least_cell(how, Position::new(place.row, place.col))?;
        let columns = self.records.count_columns();
        let verticals = self
            .config
            .count_verticals(place.col + 1, size.columns - 1, columns);
        Some(Need {
            first: place.col,
            count: size.columns,
            size: width.saturating_sub(verticals),
        })
    }

    // What each cell with a span needs at least of its columns, in the order of the spans, or
    // `None` where a least width exceeds `usize::MAX`.
    fn least_needs<A: Allocator>(
        &self,
        alloc: A,
        how: Overflow,
    ) -> Result<Option<Vec<Need, A>>, AllocError>
        requires { list_all (span_fits (length (R.texts self.now.records)) (R.columns self.now.records)) self.now.config.now.spans ≡ true }
        ensures needs { IfOk result (λ o. IfSome o (λ v. v.items
            ≡ map (room_needed self.now.config.now (length (R.texts self.now.records)) (R.columns self.now.records)
            (least_cell_width how.entry self.now.config.now (text_at (R.texts self.now.records)))) self.now.config.now.spans)) }
        ensures sized { IfOk result (λ o. is_some o
            ≡ list_all (λ s. nat_lt (least_cell_width how.entry self.now.config.now (text_at (R.texts self.now.records)) (corner s)) (2 ^ 64)) self.now.config.now.spans) }
    {
        let mut needs = Vec::new(alloc);
        for (place, size) in self.config.spans().iter() {
            match self.least_need(how, (*place, *size)) {
                Some(need) => needs.push(need)?,
                None => return Ok(None),
            }
        }
        Ok(Some(needs))
    }

    /// How wide each column is at least, or `None` where the least width of a cell exceeds
    /// `usize::MAX`.
    pub(crate) fn least_widths<A: Allocator + Copy>(
        &self,
        alloc: A,
        how: Overflow,
    ) -> Result<Option<Vec<usize, A>>, AllocError>
        requires { spans_fit self.now.config.now.spans (length (R.texts self.now.records)) (R.columns self.now.records) ≡ true }
        ensures widths { IfOk result (λ o. IfSome o (λ v. v.items
            ≡ map (spanned_least_width how.entry self.now.config.now (R.texts self.now.records) (R.columns self.now.records)) (range_with_len 0 (R.columns self.now.records)))) }
        ensures huge { IfOk result (λ o. o ≡ None → HasHugeLeast how.entry self.now.config.now (R.texts self.now.records) (R.columns self.now.records)) }
    {
        // Shows that the spans are in order.
        let _spans = self.config.spans();
        let Some(mut singles) = self.least_singles(alloc, how)? else {
            return Ok(None);
        };
        let Some(mut needs) = self.least_needs(alloc, how)? else {
            return Ok(None);
        };
        Ok(Some(widened(alloc, &mut singles, &mut needs)?))
    }

    /// The widths of the columns within a total and limits, given the natural ones.
    pub(crate) fn spanned_widths<A: Allocator + Copy>(
        &self,
        alloc: A,
        within: &Within<'_>,
        naturals: &[usize],
    ) -> Result<Vec<usize, A>, AllocError>
        requires fit { spans_fit self.now.config.now.spans (length (R.texts self.now.records)) (R.columns self.now.records) ≡ true }
        requires sized { cells_fit self.now.config.now (text_at (R.texts self.now.records)) (length (R.texts self.now.records)) (R.columns self.now.records) ≡ true }
        requires naturals { naturals.now ≡ natural_sizes Columns self.now.config.now (R.texts self.now.records) (R.columns self.now.records) }
        ensures { IfOk result (λ widths. widths.items
            ≡ spanned_widths within.now.how within.now.total within.now.limits.now self.now.config.now (R.texts self.now.records) (R.columns self.now.records)) }
    {
        if are_within(self.config, within.total, within.limits, naturals) {
            return Vec::from_slice(alloc, naturals);
        }
        match self.least_widths(alloc, within.how)? {
            Some(least) => {
                let ranges = ranges_of(alloc, &least, naturals, within.limits)?;
                let room = room_of(self.config, within.total, naturals.len());
                narrow(alloc, room, &ranges)
            }
            // The least width of no cell is greater than its natural one, which is a number.
            None => Vec::from_slice(alloc, naturals),
        }
    }

    /// The widths of the columns of a table with cells within a total, if the first columns have
    /// these ranges, given the natural ones.
    pub(crate) fn ranged_widths<A: Allocator + Copy>(
        &self,
        alloc: A,
        total: usize,
        ranges: &[ColumnRange],
        how: Overflow,
        naturals: &[usize],
    ) -> Result<Vec<usize, A>, AllocError>
        requires cells { ((length (R.texts self.now.records) == 0) || (R.columns self.now.records == 0)) ≡ false }
        requires fit { spans_fit self.now.config.now.spans (length (R.texts self.now.records)) (R.columns self.now.records) ≡ true }
        requires sized { cells_fit self.now.config.now (text_at (R.texts self.now.records)) (length (R.texts self.now.records)) (R.columns self.now.records) ≡ true }
        requires naturals { naturals.now ≡ natural_sizes Columns self.now.config.now (R.texts self.now.records) (R.columns self.now.records) }
        ensures counted { IsOk result → R.columns self.now.records < usize.MAX }
        ensures widths { IfOk result (λ widths. widths.items
            ≡ ranged_widths how.entry ranges.now self.now.config.now (R.texts self.now.records) (R.columns self.now.records) total) }
    {
        // The least width of no cell is greater than its natural one, which is a number.
        let Some(least) = self.least_widths(alloc, how)? else {
            return Vec::from_slice(alloc, naturals);
        };
        let mut made = Vec::with_capacity(alloc, naturals.len())?;
        for (column, natural) in naturals.iter().enumerate() {
            made.push(ranged_column(ranges, column, least[column], *natural))?;
        }
        let room = room_of(self.config, total, naturals.len());
        narrow(alloc, room, &made)
    }

    // Sets another text for a shown cell whose text is too wide for its columns.
    fn fit_shown<A: Allocator + Copy>(
        &self,
        alloc: A,
        how: Overflow,
        widths: &ConstantDimension<A>,
        pos: Position,
        fitted: &mut OverlaidRecords<R, A>,
    ) -> Result<(), AllocError>
        requires fit { spans_fit self.now.config.now.spans (length (R.texts self.now.records)) (R.columns self.now.records) ≡ true }
        requires sized { cells_fit self.now.config.now (text_at (R.texts self.now.records)) (length (R.texts self.now.records)) (R.columns self.now.records) ≡ true }
        requires row { pos.row < length (R.texts self.now.records) }
        requires column { pos.col < R.columns self.now.records }
        requires own { other_text fitted.old.others (R.texts self.now.records) pos ≡ text_at (R.texts self.now.records) pos }
        ensures records { fitted.new.records ≡ fitted.old.records }
        ensures here { OnOk result (other_text fitted.new.others (R.texts self.now.records) pos
            ≡ spanned_text how.entry widths.now.0.items self.now.config.now (R.texts self.now.records) (R.columns self.now.records) pos) }
        ensures others { OnOk result ((q : Position) → same by_place pos q ≡ false
            → other_text fitted.new.others (R.texts self.now.records) q ≡ other_text fitted.old.others (R.texts self.now.records) q) }
        ensures room { OnOk result (HasRoomTogether how.entry widths.now.0.items self.now.config.now (R.texts self.now.records) (R.columns self.now.records) pos) }
    {
        if !self.config.is_cell_visible(pos) {
            return Ok(());
        }
        let columns = self.records.count_columns();
        let room = rect_width(self.config, widths, pos, columns).unwrap_or(usize::MAX);
        self.fit_cell(alloc, how, room, pos, fitted)
    }

    // Sets other texts for the shown cells in a row whose texts are too wide for their columns.
    fn fit_row<A: Allocator + Copy>(
        &self,
        alloc: A,
        how: Overflow,
        widths: &ConstantDimension<A>,
        row: usize,
        fitted: &mut OverlaidRecords<R, A>,
    ) -> Result<(), AllocError>
        requires fit { spans_fit self.now.config.now.spans (length (R.texts self.now.records)) (R.columns self.now.records) ≡ true }
        requires sized { cells_fit self.now.config.now (text_at (R.texts self.now.records)) (length (R.texts self.now.records)) (R.columns self.now.records) ≡ true }
        requires row { row < length (R.texts self.now.records) }
        requires before { AreFittedTo how widths.now.0.items self.now.config.now (R.texts self.now.records) (R.columns self.now.records) row 0
            (other_text fitted.old.others (R.texts self.now.records)) }
        ensures records { fitted.new.records ≡ fitted.old.records }
        ensures fits { OnOk result
            (AreFittedTo how.entry widths.now.0.items self.now.config.now (R.texts self.now.records) (R.columns self.now.records) (row + 1) 0
            (other_text fitted.new.others (R.texts self.now.records))) }
    {
        for col in 0..self.count(Axis::Columns) {
            self.fit_shown(alloc, how, widths, Position::new(row, col), fitted)?;
        }
        Ok(())
    }

    /// Sets other texts for the shown cells whose texts are too wide for columns of these widths.
    pub(crate) fn fit_rows<A: Allocator + Copy>(
        &self,
        alloc: A,
        how: Overflow,
        widths: &ConstantDimension<A>,
        fitted: &mut OverlaidRecords<R, A>,
    ) -> Result<(), AllocError>
        requires fit { spans_fit self.now.config.now.spans (length (R.texts self.now.records)) (R.columns self.now.records) ≡ true }
        requires sized { cells_fit self.now.config.now (text_at (R.texts self.now.records)) (length (R.texts self.now.records)) (R.columns self.now.records) ≡ true }
        requires own { fitted.old.others ≡ [] }
        ensures records { fitted.new.records ≡ fitted.old.records }
        ensures fits { OnOk result
            (AreFittedTo how.entry widths.now.0.items self.now.config.now (R.texts self.now.records) (R.columns self.now.records) (length (R.texts self.now.records)) 0
            (other_text fitted.new.others (R.texts self.now.records))) }
    {
        for row in 0..self.count(Axis::Rows) {
            self.fit_row(alloc, how, widths, row, fitted)?;
        }
        Ok(())
    }
}

impl<'a, R, C, B> NaturalTable<'a, R, C, B>
where
    R: PeekableRecords + ExactRecords + Copy,
    C: Colors,
    B: Allocator,
{
    /// The least width of a line of a table with spans.
    pub(crate) fn spanned_least_width<A: Allocator + Copy>(
        &self,
        alloc: A,
        how: Overflow,
    ) -> Result<usize, TableFault>
        requires { keeps_spans self.now.config.now (R.texts self.now.records) (R.columns self.now.records) ≡ true }
        ensures width { IfOk result (λ width. width ≡ least_width_of how.entry R.texts R.columns (natural_parts self.now)) }
        ensures ok { IsOk result → least_fault_of how.entry R.texts R.columns (natural_parts self.now) ≡ None }
        ensures spans { least_fault_of how.entry R.texts R.columns (natural_parts self.now) ≡ Some TableFault.Spans → result ≡ Err TableFault.Spans }
        ensures fault { (fault : TableFault) → result ≡ Err fault → (least_fault_of how.entry R.texts R.columns (natural_parts self.now) ≡ Some fault) ⊎ (fault ≡ TableFault.Memory) }
    {
        if !self.spans_fit() {
            return Err(TableFault::Spans);
        }
        if self.records.count_columns() == usize::MAX {
            return Err(TableFault::Totals);
        }
        match self.sizes().least_widths(alloc, how)? {
            Some(widths) => {
                let widths = ConstantDimension(widths, Vec::new(alloc));
                full_width(self.config, &widths, self.records.count_columns()).ok_or(
                    TableFault::Totals,
                )
            }
            None => Err(TableFault::Totals),
        }
    }

    /// Sets other texts for the cells of a table with spans whose texts are too wide for their
    /// columns, and returns the columns' widths.
    pub(crate) fn fit_spanned<A: Allocator + Copy>(
        &self,
        alloc: A,
        within: &Within<'_>,
        records: &mut OverlaidRecords<R, A>,
    ) -> Result<Vec<usize, A>, TableFault>
        requires own { records.old.others ≡ [] }
        requires kept { keeps_spans self.now.config.now (R.texts self.now.records) (R.columns self.now.records) ≡ true }
        ensures fault { (fault : TableFault) → fit_fault_of R.texts R.columns (natural_parts self.now) ≡ Some fault → result ≡ Err fault }
        ensures memory { (fault : TableFault) → fit_fault_of R.texts R.columns (natural_parts self.now) ≡ None → result ≡ Err fault → fault ≡ TableFault.Memory }
        ensures records { records.new.records ≡ records.old.records }
        ensures fits { IfOk result
            (λ widths. AreFittedTogether within.now.how within.now.total within.now.limits.now self.now.config.now (R.texts self.now.records)
            (R.columns self.now.records) widths.items (other_text records.new.others (R.texts self.now.records))) }
    {
        // Shows that the spans are in order.
        let _spans = self.config.spans();
        let natural = NaturalTable::new(self.records, self.config, self.colors);
        let mut dimension = natural.natural_dimension(alloc)?;
        let sizes = self.sizes();
        dimension.0 = sizes.spanned_widths(alloc, within, &dimension.0)?;
        sizes.fit_rows(alloc, within.how, &dimension, records)?;
        Ok(mem::replace(&mut dimension.0, Vec::new(alloc)))
    }
}
