//! The natural sizes of columns and rows as lists, for which each text is read once.

ghost use Rattle.std.specs.Prelude.{◌≡◌, ℕ, ◌<◌, ◌≢◌, ◌&&◌, ◌||◌, not, nat_lt, max, true, None, is_none, is_some, length, slice_index, map, IfOk, IfSome};
ghost use Rattle.std.specs.List.{range_with_len, list_all};
ghost use Rattle.pg_layout.specs.Position.{at};
ghost use Rattle.pg_layout.specs.Records.{text_at};
ghost use Rattle.pg_config.specs.Spans.{corner, is_visible};
ghost use Rattle.pg_picture.specs.Fits.{span_fits, spans_fit};
ghost use Rattle.pg_picture.specs.Sizes.{if_fits};
ghost use Rattle.pg_table.specs.Natural.{all_fit, text_size, cell_size, single_size, is_single, is_sized, cells_fit, size_of_singles, need_of, natural_sizes};
ghost use Rattle.pg_table.specs.Inside.{count_of, cells_of, most, IsHuge, HasHugeIn, HasHuge, high, wide, with_room};
ghost use Rattle.pg_table.specs.Spanning.{widths_from};
ghost use Rattle.pg_table.specs.declared.sizes.Axis.TheVariants.{Columns, Rows};

use crate::needs::{Need, widened};
use crate::sizes::{Axis, NaturalSizes};
use pg_config::Span;
use pg_layout::{ConstantDimension, ExactRecords, PeekableRecords, Position};
use pg_picture::TextFacts;
use pg_picture::fits::columns_of;
use std::alloc::{AllocError, Allocator};

// Shows a proof that these sizes have 64 bits. It does nothing when it runs.
#[inline(always)]
fn are_numbers(sizes: &[usize])
    ensures { all_fit sizes.now ≡ true }
{}

// Shows that all widths and all heights have 64 bits.
#[inline(always)]
fn both_are_numbers<A: Allocator>(sizes: &ConstantDimension<A>)
    ensures widths { all_fit sizes.now.0.items ≡ true }
    ensures heights { all_fit sizes.now.1.items ≡ true }
{
    are_numbers(&sizes.0);
    are_numbers(&sizes.1);
}

// Raises sizes to at least these.
fn raise(sizes: &mut [usize], least: &[usize])
    ensures same { length sizes.new ≡ length sizes.old }
    ensures raised { (k : ℕ) → k < length sizes.old → slice_index sizes.new k ≡ max (slice_index least.now k) (slice_index sizes.old k) }
{
    for k in 0..sizes.len() {
        sizes[k] = sizes[k].max(least.get(k).copied().unwrap_or(0));
    }
}

impl<'a, R: PeekableRecords + ExactRecords, B: Allocator> NaturalSizes<'a, R, B> {
    // The width and the height of a cell, each `None` if it exceeds `usize::MAX`. Its text is read
    // once.
    #[inline(always)]
    fn measure(&self, pos: Position) -> (Option<usize>, Option<usize>)
        requires row { pos.row < length (R.texts self.now.records) }
        requires column { pos.col < R.columns self.now.records }
        ensures wide { result.0 ≡ if_fits (cell_size Columns self.now.config.now (text_at (R.texts self.now.records)) pos) }
        ensures high { result.1 ≡ if_fits (cell_size Rows self.now.config.now (text_at (R.texts self.now.records)) pos) }
    {
        let facts = TextFacts::of_records(&self.records, pos, self.formatting(pos));
        let wide = self.with_text(Axis::Columns, pos, facts.widest);
        let high = self.with_text(Axis::Rows, pos, facts.shown);
        (wide, high)
    }

    // Raises the width of a place's column, and the height, to those of its cell, if that is a cell
    // without a span.
    #[inline(always)]
    fn measure_place(
        &self,
        pos: Position,
        span: Option<Span>,
        height: usize,
        widths: &mut [usize],
    ) -> Option<usize>
        requires row { pos.row < length (R.texts self.now.records) }
        requires column { pos.col < R.columns self.now.records }
        requires same { length widths.old ≡ R.columns self.now.records }
        requires single { is_none span ≡ is_single self.now.config.now.spans pos }
        ensures same { length widths.new ≡ length widths.old }
        ensures height { IfSome result (λ h. h ≡ max height (single_size Rows self.now.config.now (text_at (R.texts self.now.records)) pos)) }
        ensures here { IfSome result (λ h. slice_index widths.new pos.col ≡ max (slice_index widths.old pos.col) (single_size Columns self.now.config.now (text_at (R.texts self.now.records)) pos)) }
        ensures others { (k : ℕ) → k ≢ pos.col → slice_index widths.new k ≡ slice_index widths.old k }
        ensures huge { result ≡ None → (is_single self.now.config.now.spans pos ≡ true) × IsHuge self.now.config.now (text_at (R.texts self.now.records)) pos }
    {
        if span.is_some() {
            return Some(height);
        }
        let (Some(wide), Some(high)) = self.measure(pos) else {
            return None;
        };
        widths[pos.col] = widths[pos.col].max(wide);
        Some(height.max(high))
    }

    // Raises the widths to those of the cells without a span in a row, and returns the greatest
    // height of these; `None` if a size exceeds `usize::MAX`. Goes from left column to left column.
    fn measure_row(&self, row: usize, widths: &mut [usize]) -> Option<usize>
        requires row { row < length (R.texts self.now.records) }
        requires fit { spans_fit self.now.config.now.spans (length (R.texts self.now.records)) (R.columns self.now.records) ≡ true }
        requires same { length widths.old ≡ R.columns self.now.records }
        ensures same { length widths.new ≡ length widths.old }
        ensures height { IfSome result (λ height. height ≡ most (high self.now.config.now (text_at (R.texts self.now.records)) row) (R.columns self.now.records)) }
        ensures widths { IfSome result (λ height. (k : ℕ) → k < R.columns self.now.records
            → slice_index widths.new k ≡ max (slice_index widths.old k) (wide self.now.config.now (text_at (R.texts self.now.records)) row k)) }
        ensures huge { result ≡ None → HasHugeIn self.now.config.now (text_at (R.texts self.now.records)) (R.columns self.now.records) row }
    {
        // Shows that the spans are in order.
        let _spans = self.config.spans();
        let columns = self.records.count_columns();
        let mut height: usize = 0;
        let mut col: usize = 0;
        while col < columns {
            let pos = Position::new(row, col);
            let span = self.config.left_span(pos);
            let higher = self.measure_place(pos, span, height, widths)?;
            height = higher;
            col += columns_of(span);
        }
        Some(height)
    }

    // Raises the widths to those of the cells without a span, and returns the heights of the rows
    // by them; `None` if a size exceeds `usize::MAX`.
    fn measure_rows<A: Allocator>(
        &self,
        alloc: A,
        widths: &mut [usize],
    ) -> Result<Option<Vec<usize, A>>, AllocError>
        requires fit { spans_fit self.now.config.now.spans (length (R.texts self.now.records)) (R.columns self.now.records) ≡ true }
        requires same { length widths.old ≡ R.columns self.now.records }
        requires zeros { (k : ℕ) → slice_index widths.old k ≡ 0 }
        ensures same { length widths.new ≡ length widths.old }
        ensures heights { IfOk result (λ o. IfSome o (λ v. v.items
            ≡ map (λ r. most (high self.now.config.now (text_at (R.texts self.now.records)) r) (R.columns self.now.records)) (range_with_len 0 (length (R.texts self.now.records))))) }
        ensures widths { IfOk result (λ o. IfSome o (λ v. widths.new
            ≡ map (λ c. most (λ r. wide self.now.config.now (text_at (R.texts self.now.records)) r c) (length (R.texts self.now.records))) (range_with_len 0 (R.columns self.now.records)))) }
        ensures huge { IfOk result (λ o. o ≡ None → HasHuge self.now.config.now (text_at (R.texts self.now.records)) (length (R.texts self.now.records)) (R.columns self.now.records)) }
    {
        let mut heights = Vec::with_capacity(alloc, self.records.count_rows())?;
        for row in 0..self.records.count_rows() {
            match self.measure_row(row, widths) {
                Some(height) => heights.push(height)?,
                None => return Ok(None),
            }
        }
        Ok(Some(heights))
    }

    // The sizes by the cells without a span; `None` if a size of one exceeds `usize::MAX`.
    fn singles<A: Allocator + Copy>(
        &self,
        alloc: A,
    ) -> Result<Option<ConstantDimension<A>>, AllocError>
        requires { spans_fit self.now.config.now.spans (length (R.texts self.now.records)) (R.columns self.now.records) ≡ true }
        ensures widths { IfOk result (λ o. IfSome o (λ d. d.0.items
            ≡ map (size_of_singles Columns self.now.config.now (text_at (R.texts self.now.records)) (length (R.texts self.now.records))) (range_with_len 0 (R.columns self.now.records)))) }
        ensures heights { IfOk result (λ o. IfSome o (λ d. d.1.items
            ≡ map (size_of_singles Rows self.now.config.now (text_at (R.texts self.now.records)) (R.columns self.now.records)) (range_with_len 0 (length (R.texts self.now.records))))) }
        ensures huge { IfOk result (λ o. o ≡ None → HasHuge self.now.config.now (text_at (R.texts self.now.records)) (length (R.texts self.now.records)) (R.columns self.now.records)) }
    {
        let mut widths = vec![in alloc; 0; self.records.count_columns()]?;
        match self.measure_rows(alloc, &mut widths)? {
            Some(heights) => Ok(Some(ConstantDimension(widths, heights))),
            None => Ok(None),
        }
    }

    // What a cell with a span needs of its columns and of its rows; `None` if its width or its
    // height exceeds `usize::MAX`.
    fn need(&self, span: Span) -> Option<(Need, Need)>
        requires { span_fits (length (R.texts self.now.records)) (R.columns self.now.records) span ≡ true }
        ensures columns { IfSome result (λ needs. needs.0 ≡ need_of Columns self.now.config.now (text_at (R.texts self.now.records)) (R.columns self.now.records) span) }
        ensures rows { IfSome result (λ needs. needs.1 ≡ need_of Rows self.now.config.now (text_at (R.texts self.now.records)) (length (R.texts self.now.records)) span) }
        ensures sized { is_some result ≡ is_sized self.now.config.now (text_at (R.texts self.now.records)) (corner span) }
    {
        let (place, size) = span;
        let (rows, columns) = (self.records.count_rows(), self.records.count_columns());
        let (Some(wide), Some(high)) = self.measure(Position::new(place.row, place.col)) else {
            return None;
        };
        let verticals = self
            .config
            .count_verticals(place.col + 1, size.columns - 1, columns);
        let horizontals = self
            .config
            .count_horizontals(place.row + 1, size.rows - 1, rows);
        let across = Need {
            first: place.col,
            count: size.columns,
            size: wide.saturating_sub(verticals),
        };
        let down = Need {
            first: place.row,
            count: size.rows,
            size: high.saturating_sub(horizontals),
        };
        Some((across, down))
    }

    // What each cell with a span needs of its columns and of its rows, in the order of the spans.
    fn needs<A: Allocator + Copy>(
        &self,
        alloc: A,
    ) -> Result<Option<(Vec<Need, A>, Vec<Need, A>)>, AllocError>
        requires { list_all (span_fits (length (R.texts self.now.records)) (R.columns self.now.records)) self.now.config.now.spans ≡ true }
        ensures columns { IfOk result (λ o. IfSome o (λ v. v.0.items
            ≡ map (need_of Columns self.now.config.now (text_at (R.texts self.now.records)) (R.columns self.now.records)) self.now.config.now.spans)) }
        ensures rows { IfOk result (λ o. IfSome o (λ v. v.1.items
            ≡ map (need_of Rows self.now.config.now (text_at (R.texts self.now.records)) (length (R.texts self.now.records))) self.now.config.now.spans)) }
        ensures sized { IfOk result (λ o. is_some o ≡ list_all (λ s. is_sized self.now.config.now (text_at (R.texts self.now.records)) (corner s)) self.now.config.now.spans) }
    {
        let mut across = Vec::new(alloc);
        let mut down = Vec::new(alloc);
        for (place, size) in self.config.spans().iter() {
            match self.need((*place, *size)) {
                Some(needs) => {
                    across.push(needs.0)?;
                    down.push(needs.1)?;
                }
                None => return Ok(None),
            }
        }
        Ok(Some((across, down)))
    }

    // The natural sizes of columns, or of rows, from those by cells without a span and from what the
    // others need.
    fn room<A: Allocator>(
        &self,
        alloc: A,
        axis: Axis,
        sizes: &mut [usize],
        needs: &mut [Need],
    ) -> Result<Vec<usize, A>, AllocError>
        requires fit { spans_fit self.now.config.now.spans (length (R.texts self.now.records)) (R.columns self.now.records) ≡ true }
        requires long { length sizes.old ≡ count_of R.texts R.columns self.now axis }
        requires needs { needs.old ≡ map (need_of axis self.now.config.now (text_at (R.texts self.now.records)) (count_of R.texts R.columns self.now axis)) self.now.config.now.spans }
        ensures { IfOk result (λ room. room.items ≡ with_room axis self.now.config.now (R.texts self.now.records) (R.columns self.now.records) sizes.old) }
    {
        widened(alloc, sizes, needs)
    }

    // The sizes from these, with room for cells with a span; `None` if a size of one exceeds
    // `usize::MAX`.
    fn with_spans<A: Allocator + Copy>(
        &self,
        alloc: A,
        mut singles: ConstantDimension<A>,
    ) -> Result<Option<ConstantDimension<A>>, AllocError>
        requires fit { spans_fit self.now.config.now.spans (length (R.texts self.now.records)) (R.columns self.now.records) ≡ true }
        requires widths { length singles.0.items ≡ R.columns self.now.records }
        requires heights { length singles.1.items ≡ length (R.texts self.now.records) }
        ensures widths { IfOk result (λ o. IfSome o (λ d. d.0.items ≡ with_room Columns self.now.config.now (R.texts self.now.records) (R.columns self.now.records) singles.0.items)) }
        ensures heights { IfOk result (λ o. IfSome o (λ d. d.1.items ≡ with_room Rows self.now.config.now (R.texts self.now.records) (R.columns self.now.records) singles.1.items)) }
        ensures sized { IfOk result (λ o. is_some o ≡ list_all (λ s. is_sized self.now.config.now (text_at (R.texts self.now.records)) (corner s)) self.now.config.now.spans) }
    {
        match self.needs(alloc)? {
            Some((mut across, mut down)) => {
                let wide = self.room(alloc, Axis::Columns, &mut singles.0, &mut across)?;
                let high = self.room(alloc, Axis::Rows, &mut singles.1, &mut down)?;
                Ok(Some(ConstantDimension(wide, high)))
            }
            None => Ok(None),
        }
    }

    /// The natural sizes of a table with cells whose spans fit, with columns that are at least so
    /// wide if it keeps spans; `None` if the width or the height of a shown cell exceeds
    /// `usize::MAX`. Each text is read once.
    pub(crate) fn measured<A: Allocator + Copy>(
        &self,
        alloc: A,
        least: &[usize],
    ) -> Result<Option<ConstantDimension<A>>, AllocError>
        requires rows { 0 < length (R.texts self.now.records) }
        requires columns { 0 < R.columns self.now.records }
        requires fit { spans_fit self.now.config.now.spans (length (R.texts self.now.records)) (R.columns self.now.records) ≡ true }
        ensures widths { IfOk result (λ o. IfSome o (λ d. d.0.items ≡ widths_from least.now self.now.config.now (R.texts self.now.records) (R.columns self.now.records))) }
        ensures heights { IfOk result (λ o. IfSome o (λ d. d.1.items ≡ natural_sizes Rows self.now.config.now (R.texts self.now.records) (R.columns self.now.records))) }
        ensures sized { IfOk result (λ o. is_some o ≡ cells_fit self.now.config.now (text_at (R.texts self.now.records)) (length (R.texts self.now.records)) (R.columns self.now.records)) }
    {
        match self.singles(alloc)? {
            Some(mut singles) => {
                both_are_numbers(&singles);
                if self.config.spans().is_empty() {
                    return Ok(Some(singles));
                }
                raise(&mut singles.0, least);
                self.with_spans(alloc, singles)
            }
            None => Ok(None),
        }
    }

    /// Whether the width and the height of each shown cell are at most `usize::MAX`. Allocates
    /// nothing.
    pub(crate) fn cells_fit(&self) -> bool
        ensures { result ≡ cells_fit self.now.config.now (text_at (R.texts self.now.records)) (length (R.texts self.now.records)) (R.columns self.now.records) }
    {
        for row in 0..self.records.count_rows() {
            if !self.row_fits(row) {
                return false;
            }
        }
        true
    }

    // Whether the width and the height of each shown cell in a row are at most `usize::MAX`.
    fn row_fits(&self, row: usize) -> bool
        requires { row < length (R.texts self.now.records) }
        ensures { result
            ≡ list_all (λ c. not (is_visible self.now.config.now.spans (at row c)) || is_sized self.now.config.now (text_at (R.texts self.now.records)) (at row c))
            (range_with_len 0 (R.columns self.now.records)) }
    {
        for col in 0..self.records.count_columns() {
            if !self.place_fits(Position::new(row, col)) {
                return false;
            }
        }
        true
    }

    // Whether a place's cell isn't shown, or its width and its height are at most `usize::MAX`.
    fn place_fits(&self, pos: Position) -> bool
        requires row { pos.row < length (R.texts self.now.records) }
        requires column { pos.col < R.columns self.now.records }
        ensures { result ≡ (not (is_visible self.now.config.now.spans pos) || is_sized self.now.config.now (text_at (R.texts self.now.records)) pos) }
    {
        if !self.config.is_cell_visible(pos) {
            return true;
        }
        let (wide, high) = self.measure(pos);
        wide.is_some() && high.is_some()
    }
}
