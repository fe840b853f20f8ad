//! The natural sizes of columns and rows.

ghost use Rattle.std.specs.Prelude.{◌≡◌, ℕ, ◌+◌, ◌<◌, IfOk, length, max, ◌&&◌, sum_by, true};
ghost use Rattle.std.specs.List.{range_with_len};
ghost use Rattle.std.specs.Option.{ForSome};
ghost use Rattle.pg_layout.specs.Records.{text_at};
ghost use Rattle.pg_config.specs.Cells.{style_of};
ghost use Rattle.pg_config.specs.Common.{IsStyleButAcross};
ghost use Rattle.pg_config.specs.Config.{get_formatting, get_padding};
ghost use Rattle.pg_picture.specs.Sizes.{if_fits};
ghost use Rattle.pg_table.specs.Natural.{paddings, text_size, cell_size, cell_at, all_fit};
ghost use Rattle.pg_table.specs.declared.sizes.Axis.TheVariants.{Columns, Rows};

use pg_config::{CellStyle, SpannedConfig};
use pg_layout::{ExactRecords, Formatting, Indent, PeekableRecords, Position, Sides};
use pg_picture::{TextFacts, text_width};
use std::alloc::{AllocError, Allocator};

/// A sum with a number more, or `None` if it exceeds `usize::MAX`.
#[inline(always)]
pub(crate) fn plus(sum: Option<usize>, more: usize) -> Option<usize>
    ensures { (n : ℕ) → sum ≡ if_fits n → result ≡ if_fits (n + more) }
{
    sum?.checked_add(more)
}

/// A sum with a size more, or `None` if one of them is or it exceeds `usize::MAX`.
#[inline(always)]
pub(crate) fn together(sum: Option<usize>, size: Option<usize>) -> Option<usize>
    ensures { (n m : ℕ) → sum ≡ if_fits n → size ≡ if_fits m → result ≡ if_fits (n + m) }
{
    match size {
        Some(size) => plus(sum, size),
        None => None,
    }
}

/// The greater of two sizes, or `None` if one of them is.
#[inline(always)]
pub(crate) fn greater(size: Option<usize>, other: Option<usize>) -> Option<usize>
    ensures { (n m : ℕ) → size ≡ if_fits n → other ≡ if_fits m → result ≡ if_fits (max n m) }
{
    match (size, other) {
        (Some(size), Some(other)) => Some(size.max(other)),
        _ => None,
    }
}

/// What has a natural size: columns have widths, and rows have heights. Contracts name it.
#[derive(Debug, Clone, Copy)]
pub enum Axis {
    /// The columns.
    Columns,
    /// The rows.
    Rows,
}

impl Axis {
    // Cell j of column k, or of row k.
    fn cell(self, k: usize, j: usize) -> Position
        ensures { result ≡ cell_at self k j }
    {
        match self {
            Axis::Columns => Position::new(j, k),
            Axis::Rows => Position::new(k, j),
        }
    }
}

/// The natural sizes of the columns and the rows of records, worked out at each question.
#[derive(Drop)]
pub(crate) struct NaturalSizes<'a, R, B: Allocator> {
    pub(crate) records: R,
    pub(crate) config: &'a SpannedConfig<B>,
    // The style that all cells have except for their alignments, if no other setting is for some of
    // them.
    all: Option<CellStyle<'a, B>>,
    ghost is_of_all: { ForSome all (λ style. IsStyleButAcross config.now (style_of style)) },
}

impl<'a, R: PeekableRecords + ExactRecords, B: Allocator> NaturalSizes<'a, R, B> {
    ghost use Rattle.pg_table.specs.Inside.{size_of, sizes_of, count_of, cells_of};

    /// The natural sizes of these records in a table with these settings.
    pub(crate) fn new(records: R, config: &'a SpannedConfig<B>) -> NaturalSizes<'a, R, B>
        ensures records { result.records ≡ records }
        ensures config { result.config.now ≡ config.now }
    {
        NaturalSizes {
            records,
            config,
            all: CellStyle::of_all_but_across(config),
        }
    }

    // How many columns there are, or rows.
    pub(crate) fn count(&self, axis: Axis) -> usize
        ensures { result ≡ count_of R.texts R.columns self.now axis }
    {
        match axis {
            Axis::Columns => self.records.count_columns(),
            Axis::Rows => self.records.count_rows(),
        }
    }

    // How many cells each of them has.
    pub(crate) fn count_cells(&self, axis: Axis) -> usize
        ensures { result ≡ cells_of R.texts R.columns self.now axis }
    {
        match axis {
            Axis::Columns => self.records.count_rows(),
            Axis::Rows => self.records.count_columns(),
        }
    }

    // The padding of a cell: that of all cells, or its own.
    #[inline(always)]
    pub(crate) fn padding(&self, pos: Position) -> Sides<Indent>
        ensures { result ≡ get_padding self.now.config.now pos }
    {
        match self.all {
            Some(style) => style.padding,
            None => self.config.get_padding(pos),
        }
    }

    // How its text is read, likewise.
    #[inline(always)]
    pub(crate) fn formatting(&self, pos: Position) -> Formatting
        ensures { result ≡ get_formatting self.now.config.now pos }
    {
        match self.all {
            Some(style) => style.formatting,
            None => self.config.get_formatting(pos),
        }
    }

    // What the paddings of a cell take, or `None` if it exceeds `usize::MAX`.
    #[inline(always)]
    pub(crate) fn paddings(&self, axis: Axis, pos: Position) -> Option<usize>
        ensures { result ≡ if_fits (paddings axis self.now.config.now pos) }
    {
        let padding = self.padding(pos);
        match axis {
            Axis::Columns => padding.left.size.checked_add(padding.right.size),
            Axis::Rows => padding.top.size.checked_add(padding.bottom.size),
        }
    }

    // What the text of a cell takes. Lines are looked at one by one where they are trimmed.
    #[inline(always)]
    pub(crate) fn text_size(&self, axis: Axis, pos: Position) -> usize
        requires row { pos.row < length (R.texts self.now.records) }
        requires column { pos.col < R.columns self.now.records }
        ensures { result ≡ text_size axis self.now.config.now (text_at (R.texts self.now.records)) pos }
    {
        let formatting = self.formatting(pos);
        match axis {
            Axis::Columns if formatting.horizontal_trim => {
                text_width(self.records.get_text(pos), true)
            }
            Axis::Columns => self.records.get_width(pos),
            Axis::Rows if formatting.vertical_trim => {
                TextFacts::of_records(&self.records, pos, formatting).shown
            }
            Axis::Rows => self.records.count_lines(pos),
        }
    }

    // The width of a cell whose text takes so many columns, or its height, or `None` if it exceeds
    // `usize::MAX`.
    #[inline(always)]
    pub(crate) fn with_text(&self, axis: Axis, pos: Position, text: usize) -> Option<usize>
        requires { text ≡ text_size axis self.now.config.now (text_at (R.texts self.now.records)) pos }
        ensures { result ≡ if_fits (cell_size axis self.now.config.now (text_at (R.texts self.now.records)) pos) }
    {
        plus(self.paddings(axis, pos), text)
    }

    // The natural size of a column or a row, or `None` if it exceeds `usize::MAX`.
    #[inline(always)]
    pub(crate) fn size(&self, axis: Axis, k: usize) -> Option<usize>
        requires { k < count_of R.texts R.columns self.now axis }
        ensures { result ≡ if_fits (size_of R.texts R.columns self.now axis k) }
    {
        let mut size = self.paddings(axis, axis.cell(k, 0));
        for j in 0..self.count_cells(axis) {
            let pos = axis.cell(k, j);
            let cell = self.with_text(axis, pos, self.text_size(axis, pos));
            size = greater(size, cell);
        }
        size
    }

    /// Whether all widths and all heights are at most `usize::MAX`. Allocates nothing.
    pub(crate) fn fit(&self) -> bool
        ensures { result ≡ (all_fit (sizes_of R.texts R.columns self.now Columns) && all_fit (sizes_of R.texts R.columns self.now Rows)) }
    {
        self.all_fit(Axis::Columns) && self.all_fit(Axis::Rows)
    }

    fn all_fit(&self, axis: Axis) -> bool
        ensures { result ≡ all_fit (sizes_of R.texts R.columns self.now axis) }
    {
        for k in 0..self.count(axis) {
            if self.size(axis, k).is_none() {
                return false;
            }
        }
        true
    }

    /// The sum of all sizes of columns, or of rows, or `None` if it exceeds `usize::MAX`. Allocates
    /// nothing.
    pub(crate) fn total(&self, axis: Axis) -> Option<usize>
        ensures { result ≡ if_fits (sum_by (size_of R.texts R.columns self.now axis) (range_with_len 0 (count_of R.texts R.columns self.now axis))) }
    {
        let mut sum = Some(0);
        for k in 0..self.count(axis) {
            sum = together(sum, self.size(axis, k));
        }
        sum
    }

    /// All sizes of columns, or of rows, to be looked up at once.
    pub(crate) fn list<A: Allocator>(
        &self,
        alloc: A,
        axis: Axis,
    ) -> Result<Vec<usize, A>, AllocError>
        requires { all_fit (sizes_of R.texts R.columns self.now axis) ≡ true }
        ensures { IfOk result (λ sizes. sizes.items ≡ sizes_of R.texts R.columns self.now axis) }
    {
        let mut sizes = Vec::with_capacity(alloc, self.count(axis))?;
        for k in 0..self.count(axis) {
            sizes.push(self.size(axis, k).unwrap_or(0))?;
        }
        Ok(sizes)
    }
}
