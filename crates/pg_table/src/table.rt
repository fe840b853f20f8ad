//! A table of texts of its own.

ghost use Rattle.std.specs.Prelude.{◌≡◌};
ghost use Rattle.pg_table.specs.Printing.{ascii_config};

use crate::fault::TableFault;
use crate::fitted::FittedTable;
use crate::natural::NaturalTable;
use crate::overflow::Overflow;
use pg_config::SpannedConfig;
use pg_fit::ColumnRange;
use pg_layout::{
    AlignmentHorizontal, Borders, ColorsMap, ConstantDimension, Entity, ExactRecords,
    HorizontalLine, Indent, Records, Sides, VecRecords,
};
use std::alloc::{AllocError, Allocator, Global};
use std::convert::AsStr;
use std::marker::Model;

mod colors;
mod html;
mod lines;
mod markdown;
mod merging;
mod rows;
mod settings;
mod spans;
mod title;
mod transposed;

/// Rows of texts, drawn at their natural sizes: each column as wide as its widest cell, and each
/// row as high as its highest one, paddings included. What a cell with a span lacks beside smaller
/// cells is shared out evenly over its columns and its rows.
///
/// By default it has ASCII borders, no paddings, and left-aligned texts. Each setting of
/// [`SpannedConfig`], including spans, can be set by [`Table::with_config`].
///
/// ```text
/// let rows = vec![in alloc; vec![in alloc; "a", "b"]?, vec![in alloc; "ccc", "d"]?]?;
/// let table = Table::new(alloc, rows)?.with_borders(Borders::rounded());
/// table.print(alloc, &mut buf)?;
/// ```
#[derive(Debug, Drop)]
pub struct Table<T, A: Allocator = Global> {
    records: VecRecords<T, A>,
    config: SpannedConfig<A>,
    // No type of the caller's: that would be one more type parameter for all who name a table.
    colors: ColorsMap<A>,
}

impl<T, A: Allocator> Model for Table<T, A> {
    ghost use Rattle.pg_table.specs.Printing.{Parts};

    ghost Value = { Parts T };

    ghost view = { λ t. record { rows = t.records; config = t.config; colors = t.colors } };
}

// The default settings of a table: ASCII borders. Allocates nothing.
fn ascii_config<A: Allocator + Copy>(alloc: A) -> SpannedConfig<A>
    ensures { result ≡ ascii_config }
{
    let mut config = SpannedConfig::new(alloc);
    config.set_borders(Borders::ascii());
    config
}

impl<T: AsStr + Drop, A: Allocator + Copy> Table<T, A> {
    ghost use Rattle.std.specs.Prelude.{◌≡◌, [], map, IfOk, option_map};
    ghost use Rattle.std.specs.Result.{result_err};
    ghost use Rattle.pg_layout.specs.Records.{ragged_row};
    ghost use Rattle.pg_table.specs.Even.{IsNarrowLook};

    /// A table of these rows. The only error is `Ragged` with the first row whose length differs
    /// from that of row 0.
    ///
    /// Allocates nothing: `alloc` is kept for later settings. Refused rows are dropped.
    #[tactic(auto, using(crate::proofs::StraightTables::narrow_settings))]
    pub fn new(alloc: A, rows: Vec<Vec<T, A>, A>) -> Result<Table<T, A>, TableFault>
        ensures parts { IfOk result (λ table. table ≡ record { rows = map (λ row. row.items) rows.items; config = ascii_config; colors = [] }) }
        ensures exact { result_err result ≡ option_map TableFault.Ragged (ragged_row (map (λ row. row.items) rows.items)) }
        ensures narrow { IfOk result (λ table. IsNarrowLook table.config) }
    {
        match VecRecords::new(rows) {
            Ok(records) => Ok(Table {
                records,
                config: ascii_config(alloc),
                colors: ColorsMap::new(alloc),
            }),
            Err(fault) => Err(fault.into()),
        }
    }
}

impl<T, A: Allocator> Table<T, A> {
    ghost use Rattle.std.specs.Prelude.{◌≡◌, true};
    ghost use Rattle.pg_config.specs.Settings.{with_setting};
    ghost use Rattle.pg_table.specs.Even.{IsNarrowLook, are_line_glyphs, are_line_fills};
    ghost use Rattle.pg_table.specs.OwnRows.{aligned};

    /// The table with this padding of all cells. Allocates nothing.
    pub fn with_padding(mut self, padding: Sides<Indent>) -> Table<T, A>
    where
        A: Clone,
        ensures table { result ≡ record self { config = record self.config { padding = with_setting Entity.Global padding self.config.padding } } }
        ensures narrow { IsNarrowLook self.config → are_line_fills padding ≡ true → IsNarrowLook result.config }
    {
        self.set_padding(padding);
        self
    }

    /// The table with the texts of all cells aligned like this. Allocates nothing.
    pub fn with_alignment(mut self, alignment: AlignmentHorizontal) -> Table<T, A>
    where
        A: Clone,
        ensures table { result ≡ aligned Entity.Global alignment self }
        ensures narrow { IsNarrowLook self.config → IsNarrowLook result.config }
    {
        self.set_alignment(alignment);
        self
    }

    /// The table with these borders, such as [`Borders::rounded`]. A line below its header stays.
    pub fn with_borders(mut self, borders: Borders<char>) -> Table<T, A>
        ensures table { result ≡ record self { config = record self.config { borders = borders } } }
        ensures narrow { IsNarrowLook self.config → are_line_glyphs borders ≡ true → IsNarrowLook result.config }
    {
        self.set_borders(borders);
        self
    }

    /// The table with all settings of this configuration, in place of its own: borders, paddings,
    /// alignments and a line below its header included.
    pub fn with_config(mut self, config: SpannedConfig<A>) -> Table<T, A>
        ensures table { result ≡ record self { config = config } }
        ensures narrow { IsNarrowLook config → IsNarrowLook result.config }
    {
        self.config = config;
        self
    }

    /// The table with these colours of cells, in place of all that it had.
    pub fn with_colors(mut self, colors: ColorsMap<A>) -> Table<T, A>
        ensures table { result ≡ record self { colors = colors } }
        ensures narrow { IsNarrowLook self.config → IsNarrowLook result.config }
    {
        self.colors = colors;
        self
    }
}

impl<T: AsStr + Drop, A: Allocator> Table<T, A> {
    ghost use Rattle.std.specs.Prelude.{ℕ, [], ◌<◌, ◌≤◌, ◌⊎◌, max, ◌≡◌, length, OnErr, ◌++◌, true, false, Some, None, Err, IfOk, IsOk, OnOk, string_bytes};
    ghost use Rattle.pg_layout.specs.Records.{columns_of};
    ghost use Rattle.pg_config.specs.Overrides.{has_glyph};
    ghost use Rattle.pg_picture.specs.Straight.{IsStraight};
    ghost use Rattle.pg_picture.specs.Picture.{picture};
    ghost use Rattle.pg_picture.specs.Table.{Known, full_width, is_empty};
    ghost use Rattle.pg_table.specs.Fitted.{HasPlainTail, limit_of, drawn_rows, fitted_rows, fit_fault_rows, keeps_spans_rows, least_at_rows, least_fault_rows, least_width_rows, IsNarrowRows};
    ghost use Rattle.pg_table.specs.Ranges.{ranged_rows, ranged_least_rows};
    ghost use Rattle.pg_table.specs.OwnRows.{headed, own_sizes, own_sizes_fault};
    ghost use Rattle.pg_table.specs.Even.{IsEven, IsEvenText, IsNarrowLook, is_of_line_glyphs};
    ghost use Rattle.pg_table.specs.Printing.{fault_of, is_spanned, printed_table, CanFail, Prints};
    ghost use Rattle.pg_table.specs.declared.sizes.Axis.TheVariants.{Columns, Rows};

    /// Draws a line between row 0 and row 1, and no other row line but those of the borders. A
    /// glyph that the line lacks stays unchanged; a table of fewer than two rows has no such line.
    ///
    /// Allocates for its places, one for each column and each column line. If memory is refused,
    /// nothing changes. With fewer than two rows, no columns, or a line without glyphs nothing is
    /// allocated.
    pub fn set_header_line(&mut self, line: HorizontalLine<char>) -> Result<(), AllocError>
    where
        A: Clone,
        ensures ok { OnOk result (self.new ≡ headed line self.old) }
        ensures err { OnErr result (self.new ≡ self.old) }
        ensures few { length self.old.rows < 2 → IsOk result }
        ensures nothing { has_glyph (columns_of self.old.rows) line ≡ false → IsOk result }
        ensures narrow { IsNarrowLook self.old.config → is_of_line_glyphs line ≡ true → IsNarrowLook self.new.config }
    {
        let (rows, columns) = self.size();
        if rows < 2 {
            return Ok(());
        }
        self.config.set_row_line(1, columns, line)
    }

    /// Draws a line between row 0 and row 1 of a table by value ([`Table::set_header_line`]). After
    /// an error the table is dropped.
    ///
    /// ```text
    /// let table = table.with_borders(Borders::psql()).with_header_line(HorizontalLine::psql())?;
    /// ```
    pub fn with_header_line(self, line: HorizontalLine<char>) -> Result<Table<T, A>, TableFault>
    where
        A: Clone,
        ensures ok { IfOk result (λ table. table ≡ headed line self) }
        ensures few { length self.rows < 2 → IsOk result }
        ensures nothing { has_glyph (columns_of self.rows) line ≡ false → IsOk result }
        ensures narrow { IsNarrowLook self.config → is_of_line_glyphs line ≡ true → IfOk result (λ table. IsNarrowLook table.config) }
        ensures memory { (fault : TableFault) → result ≡ Err fault → fault ≡ TableFault.Memory }
    {
        self.with_row_line(1, line)
    }

    /// The natural widths of the columns and the natural heights of the rows, in terminal columns
    /// and lines.
    ///
    /// The error is `Spans` exactly if the table has cells and its spans don't fit; else `Totals`
    /// exactly if one of the sizes, or the width or height of a shown cell, exceeds `usize::MAX`,
    /// even if memory is refused; else `Memory` if memory is refused.
    pub fn natural_dimension<B: Allocator + Copy>(
        &self,
        alloc: B,
    ) -> Result<ConstantDimension<B>, TableFault>
        ensures fault { (fault : TableFault) → own_sizes_fault T.text self.now ≡ Some fault → result ≡ Err fault }
        ensures memory { (fault : TableFault) → own_sizes_fault T.text self.now ≡ None → result ≡ Err fault → fault ≡ TableFault.Memory }
        ensures widths { IfOk result (λ d. d.0.items ≡ own_sizes Columns T.text self.now) }
        ensures heights { IfOk result (λ d. d.1.items ≡ own_sizes Rows T.text self.now) }
    {
        self.natural().natural_dimension(alloc)
    }

    /// Appends the picture of the table at its natural sizes. A table with no rows or no columns
    /// appends and allocates nothing.
    ///
    /// The error is `Spans` if the spans don't fit, before anything is allocated; `Totals` if a
    /// natural size, the width of a line or the number of lines exceeds `usize::MAX`, even if
    /// memory is refused, if no span is kept. The buffer is then unchanged. `alloc` provides the
    /// memory for the sizes. If memory is refused, the error is `Memory`, and the buffer has gained
    /// a beginning of the picture.
    pub fn print<B: Allocator + Copy, W: Allocator>(
        &self,
        alloc: B,
        buf: &mut String<W>,
    ) -> Result<(), TableFault>
        ensures prints { Prints (is_spanned (printed_table T.text self.now)) (fault_of (printed_table T.text self.now)) buf.old buf.new result (picture Known (printed_table T.text self.now)) }
        ensures printed { OnOk result (string_bytes buf.new ≡ string_bytes buf.old ++ picture Known (printed_table T.text self.now)) }
        ensures empty { is_empty (printed_table T.text self.now) ≡ true → IsOk result × (buf.new ≡ buf.old) }
        ensures straight { IsOk result → IsStraight (printed_table T.text self.now) }
        ensures even { IsOk result → IsEven (printed_table T.text self.now) }
    {
        self.natural().print(alloc, buf)
    }

    /// The picture of the table at its natural sizes as a text of its own. Errors are those of
    /// [`Table::print`]. A table with no rows or no columns allocates nothing.
    pub fn to_string<B: Allocator + Copy>(&self, alloc: B) -> Result<String<B>, TableFault>
        ensures text { IfOk result (λ text. string_bytes text ≡ picture Known (printed_table T.text self.now)) }
        ensures even { IsNarrowLook self.now.config → IfOk result (λ text. IsEvenText (string_bytes text)) }
        ensures ok { IsOk result → fault_of (printed_table T.text self.now) ≡ None }
        ensures fault { (fault : TableFault) → result ≡ Err fault → CanFail (printed_table T.text self.now) fault }
        ensures empty { is_empty (printed_table T.text self.now) ≡ true → IsOk result }
    {
        self.natural().to_string(alloc)
    }

    /// The width of a line, in terminal columns, if each column is as narrow as wrapping or cutting
    /// can make it. Errors are those of [`NaturalTable::least_width`]. Only a table with spans
    /// allocates for it.
    pub fn least_width<B: Allocator + Copy>(
        &self,
        alloc: B,
        how: Overflow,
    ) -> Result<usize, TableFault>
        ensures width { IfOk result (λ width. width ≡ least_width_rows how.entry T.text self.now) }
        ensures ok { IsOk result → least_fault_rows how.entry T.text self.now ≡ None }
        ensures spans { least_fault_rows how.entry T.text self.now ≡ Some TableFault.Spans → result ≡ Err TableFault.Spans }
        ensures fault { (fault : TableFault) → result ≡ Err fault → (least_fault_rows how.entry T.text self.now ≡ Some fault)
            ⊎ ((fault ≡ TableFault.Memory) × (keeps_spans_rows T.text self.now ≡ true)) }
    {
        self.natural().least_width(alloc, how)
    }

    /// The table within so many terminal columns, including the side margins and the column lines:
    /// if it is wider, columns are narrowed, the widest first, and texts wider than their column
    /// are wrapped or cut.
    ///
    /// Its lines are at most that wide, or as wide as [`Table::least_width`] returns, if the tail
    /// is printable ASCII and ellipses. If nothing is too wide and no span is kept, it draws the
    /// same table, and allocates nothing. Errors are those of [`NaturalTable::within_limits`].
    ///
    /// ```text
    /// let how = Overflow::Wrap(Breaking::BetweenWords);
    /// table.within(alloc, 80, how)?.print(alloc, &mut buf)?;
    /// ```
    pub fn within<B: Allocator + Copy>(
        &self,
        alloc: B,
        width: usize,
        how: Overflow,
    ) -> Result<FittedTable<'_, &VecRecords<T, A>, ColorsMap<A>, A, B>, TableFault>
        ensures table { IfOk result (λ fitted. drawn_rows T.text fitted ≡ fitted_rows how.entry width [] T.text self.now) }
        ensures bound { HasPlainTail how.entry → IfOk result (λ fitted. full_width (drawn_rows T.text fitted) ≤ max width (least_width_rows how.entry T.text self.now)) }
        ensures fault { (fault : TableFault) → fit_fault_rows T.text self.now ≡ Some fault → result ≡ Err fault }
        ensures memory { (fault : TableFault) → fit_fault_rows T.text self.now ≡ None → result ≡ Err fault → fault ≡ TableFault.Memory }
        ensures empty { is_empty (printed_table T.text self.now) ≡ true → IsOk result }
        ensures narrow { fit_fault_rows T.text self.now ≡ None → self.now.config.spans ≡ [] → IsNarrowRows width [] T.text self.now → IsOk result }
    {
        self.natural().within(alloc, width, how)
    }

    /// [`Table::within`] with limits for the first columns ([`NaturalTable::within_limits`]).
    pub fn within_limits<B: Allocator + Copy>(
        &self,
        alloc: B,
        width: usize,
        limits: &[usize],
        how: Overflow,
    ) -> Result<FittedTable<'_, &VecRecords<T, A>, ColorsMap<A>, A, B>, TableFault>
        ensures table { IfOk result (λ fitted. drawn_rows T.text fitted ≡ fitted_rows how.entry width limits.now T.text self.now) }
        ensures bound { HasPlainTail how.entry → IfOk result (λ fitted. full_width (drawn_rows T.text fitted) ≤ max width (least_width_rows how.entry T.text self.now)) }
        ensures limits { HasPlainTail how.entry → IfOk result (λ fitted. (k : ℕ) → k < columns_of self.now.rows
            → (drawn_rows T.text fitted).width k ≤ max (least_at_rows how.entry T.text self.now k) (limit_of limits.now k)) }
        ensures fault { (fault : TableFault) → fit_fault_rows T.text self.now ≡ Some fault → result ≡ Err fault }
        ensures memory { (fault : TableFault) → fit_fault_rows T.text self.now ≡ None → result ≡ Err fault → fault ≡ TableFault.Memory }
        ensures empty { is_empty (printed_table T.text self.now) ≡ true → IsOk result }
        ensures narrow { fit_fault_rows T.text self.now ≡ None → self.now.config.spans ≡ [] → IsNarrowRows width limits.now T.text self.now → IsOk result }
    {
        self.natural().within_limits(alloc, width, limits, how)
    }

    /// [`Table::within`] with ranges for the first columns ([`NaturalTable::within_columns`]).
    ///
    /// ```text
    /// // column 0 is never narrowed, column 1 is at most 20 wide and not narrowed below 8
    /// let whole = ColumnRange { least: usize::MAX, natural: usize::MAX };
    /// let ranges = [whole, ColumnRange { least: 8, natural: 20 }];
    /// table.within_columns(alloc, 80, &ranges, how)?.print(alloc, &mut buf)?;
    /// ```
    pub fn within_columns<B: Allocator + Copy>(
        &self,
        alloc: B,
        width: usize,
        ranges: &[ColumnRange],
        how: Overflow,
    ) -> Result<FittedTable<'_, &VecRecords<T, A>, ColorsMap<A>, A, B>, TableFault>
        ensures table { IfOk result (λ fitted. drawn_rows T.text fitted ≡ ranged_rows how.entry width ranges.now T.text self.now) }
        ensures bound { HasPlainTail how.entry → IfOk result (λ fitted. full_width (drawn_rows T.text fitted) ≤ max width (ranged_least_rows how.entry ranges.now T.text self.now)) }
        ensures fault { (fault : TableFault) → is_empty (printed_table T.text self.now) ≡ false → own_sizes_fault T.text self.now ≡ Some fault → result ≡ Err fault }
        ensures memory { (fault : TableFault) → own_sizes_fault T.text self.now ≡ None → result ≡ Err fault → fault ≡ TableFault.Memory }
        ensures empty { is_empty (printed_table T.text self.now) ≡ true → IsOk result }
    {
        self.natural().within_columns(alloc, width, ranges, how)
    }

    // Why the table has no natural sizes ([`Table::natural_dimension`]). Allocates nothing.
    fn sizes_fault(&self) -> Option<TableFault>
        ensures { result ≡ own_sizes_fault T.text self.now }
    {
        self.natural().sizes_fault()
    }

    // The table over its own records, settings and colours, which it lends.
    fn natural(&self) -> NaturalTable<'_, &VecRecords<T, A>, ColorsMap<A>, A>
        ensures records { result.records.now ≡ self.now.rows }
        ensures config { result.config.now ≡ self.now.config }
        ensures colors { result.colors.now ≡ self.now.colors }
        ensures widths { result.widths.now ≡ [] }
    {
        NaturalTable::new(&self.records, &self.config, &self.colors)
    }

    // How many rows and columns there are.
    fn size(&self) -> (usize, usize)
        ensures { result ≡ (length self.now.rows, columns_of self.now.rows) }
    {
        let records = &self.records;
        (records.count_rows(), records.count_columns())
    }
}

impl<T: Drop, A: Allocator> Table<T, A> {
    ghost use Rattle.std.specs.Prelude.{◌≡◌, Err, IfOk, IsOk};

    // The table by value after one of its setters, which is dropped if memory was refused.
    fn if_set(self, set: Result<(), AllocError>) -> Result<Table<T, A>, TableFault>
        ensures same { IfOk result (λ table. table ≡ self) }
        ensures set { IsOk result → IsOk set }
        ensures ok { IsOk set → IsOk result }
        ensures memory { (fault : TableFault) → result ≡ Err fault → fault ≡ TableFault.Memory }
    {
        match set {
            Ok(()) => Ok(self),
            Err(error) => Err(error.into()),
        }
    }
}
