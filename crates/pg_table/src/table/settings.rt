//! The settings of a table, and its setters by reference.

ghost use Rattle.std.specs.Borrow.{sem, Lends};
ghost use Rattle.std.specs.Prelude.{◌≡◌, ◌<◌, ◌≤◌, ℕ, if◌then◌else◌, false, true, length, Err, IfOk, IsOk, OnErr, OnOk};
ghost use Rattle.pg_config.specs.Config.{get_padding};
ghost use Rattle.pg_config.specs.Settings.{with_setting, HasRoom};
ghost use Rattle.pg_table.specs.Even.{IsNarrowLook, are_line_glyphs, are_line_fills};
ghost use Rattle.pg_config.specs.contracts.spanned.SpannedConfig.{the_row as config_row};
ghost use Rattle.pg_layout.specs.Position.{holds};
ghost use Rattle.pg_layout.specs.Records.{columns_of};
ghost use Rattle.pg_table.specs.OwnRows.{aligned, is_numeric, longest_rest, numbered, texts_of, widened_right, with_number_right, with_numbers_right, HasPointsAligned};
ghost use Rattle.pg_table.specs.contracts.table.Table.{the_row};

use crate::fault::TableFault;
use crate::numbers::{is_number_or_blank, lacking, own_extent};
use crate::table::Table;
use pg_config::SpannedConfig;
use pg_layout::{
    AlignmentHorizontal, Borders, ColorsMap, Entity, ExactRecords, Indent, PeekableRecords,
    Position, Sides,
};
use std::alloc::{AllocError, Allocator};
use std::convert::AsStr;

impl<T, A: Allocator> Table<T, A> {
    /// The settings of the table: borders, paddings, alignments, spans and everything but colours
    /// of cells.
    pub fn config(&self) -> &SpannedConfig<A>
        ensures { result.now ≡ self.now.config }
    {
        &self.config
    }

    /// The settings of the table, to change any of them. Allocates nothing itself, but the setter
    /// that you call may.
    ///
    /// ```text
    /// table.config_mut().set_row_span(Position::new(1, 0), 2)?;
    /// table.config_mut().set_padding(Entity::Row(0), Sides::spaces(1, 1))?;
    /// ```
    pub fn config_mut(&mut self) -> &mut SpannedConfig<A>
        ensures* writes_back { sem 𝓛 (Lends (the_row T.row A.row A.Allocator) (config_row A.row A.Allocator) self.entry result (λ config. record self.old { config = config })) }
        ensures config { result.now ≡ self.old.config }
    {
        &mut self.config
    }

    /// The colours of the cells.
    pub fn colors(&self) -> &ColorsMap<A>
        ensures { result.now ≡ self.now.colors }
    {
        &self.colors
    }

    /// Sets all settings of this configuration, in place of all that the table had
    /// ([`Table::with_config`]). Allocates nothing.
    pub fn set_config(&mut self, config: SpannedConfig<A>)
        ensures table { self.new ≡ record self.old { config = config } }
        ensures narrow { IsNarrowLook config → IsNarrowLook self.new.config }
    {
        self.config = config;
    }

    /// Sets the colours of the cells, in place of all that they had ([`Table::with_colors`]).
    /// Allocates nothing.
    pub fn set_colors(&mut self, colors: ColorsMap<A>)
        ensures table { self.new ≡ record self.old { colors = colors } }
        ensures narrow { IsNarrowLook self.old.config → IsNarrowLook self.new.config }
    {
        self.colors = colors;
    }

    /// Sets the borders of the table ([`Table::with_borders`]). Allocates nothing.
    #[tactic(auto, using(crate::proofs::StraightTables::narrow_settings))]
    pub fn set_borders(&mut self, borders: Borders<char>)
        ensures table { self.new ≡ record self.old { config = record self.old.config { borders = borders } } }
        ensures narrow { IsNarrowLook self.old.config → are_line_glyphs borders ≡ true → IsNarrowLook self.new.config }
    {
        self.config.set_borders(borders);
    }

    /// Sets the padding of all cells ([`Table::with_padding`]). Allocates nothing.
    pub fn set_padding(&mut self, padding: Sides<Indent>)
    where
        A: Clone,
        ensures table { self.new ≡ record self.old { config = record self.old.config { padding = with_setting Entity.Global padding self.old.config.padding } } }
        ensures narrow { IsNarrowLook self.old.config → are_line_fills padding ≡ true → IsNarrowLook self.new.config }
    {
        self.config.set_padding(Entity::Global, padding).unwrap();
    }

    /// Aligns the texts of all cells ([`Table::with_alignment`]). Allocates nothing.
    pub fn set_alignment(&mut self, alignment: AlignmentHorizontal)
    where
        A: Clone,
        ensures table { self.new ≡ aligned Entity.Global alignment self.old }
        ensures narrow { IsNarrowLook self.old.config → IsNarrowLook self.new.config }
    {
        self.config
            .set_alignment_horizontal(Entity::Global, alignment)
            .unwrap();
    }

    /// Aligns the texts of a column, counted from 0. The latest call for a cell counts, so a later
    /// [`Table::set_alignment`] overrides it; a column that the table doesn't have changes nothing
    /// that is drawn.
    ///
    /// Allocates for the column, unless it was aligned before. If memory is refused, nothing
    /// changes.
    pub fn set_column_alignment(
        &mut self,
        column: usize,
        alignment: AlignmentHorizontal,
    ) -> Result<(), AllocError>
    where
        A: Clone,
        ensures ok { OnOk result (self.new ≡ aligned (Entity.Column column) alignment self.old) }
        ensures err { OnErr result (self.new ≡ self.old) }
        ensures again { HasRoom (Entity.Column column) self.old.config.alignment_horizontal → IsOk result }
        ensures narrow { IsNarrowLook self.old.config → IsNarrowLook self.new.config }
    {
        self.config
            .set_alignment_horizontal(Entity::Column(column), alignment)
    }

    /// Aligns the texts of a column, in a table by value ([`Table::set_column_alignment`]). After
    /// an error the table is dropped.
    ///
    /// ```text
    /// let table = table.with_column_alignment(1, AlignmentHorizontal::Right)?;
    /// ```
    pub fn with_column_alignment(
        mut self,
        column: usize,
        alignment: AlignmentHorizontal,
    ) -> Result<Table<T, A>, TableFault>
    where
        T: Drop,
        A: Clone,
        ensures ok { IfOk result (λ table. table ≡ aligned (Entity.Column column) alignment self) }
        ensures memory { (fault : TableFault) → result ≡ Err fault → fault ≡ TableFault.Memory }
        ensures again { HasRoom (Entity.Column column) self.config.alignment_horizontal → IsOk result }
        ensures narrow { IsNarrowLook self.config → IfOk result (λ table. IsNarrowLook table.config) }
    {
        let set = self.set_column_alignment(column, alignment);
        self.if_set(set)
    }
}

impl<T: AsStr + Drop, A: Allocator> Table<T, A> {
    /// The table with its columns of numbers at the right: those whose texts below row 0 are numbers
    /// ([`is_number`](crate::numbers::is_number)) or blank.
    ///
    /// Allocates for each such column. After an error the table is dropped.
    ///
    /// ```text
    /// let table = table.with_numbers_right()?; // │ tea   │  3.50 │
    /// ```
    pub fn with_numbers_right(mut self) -> Result<Table<T, A>, TableFault>
    where
        A: Clone,
        ensures ok { IfOk result (λ table. table ≡ numbered T.text self) }
        ensures memory { (fault : TableFault) → result ≡ Err fault → fault ≡ TableFault.Memory }
        ensures nothing { ((column : ℕ) → column < columns_of self.rows → is_numeric (texts_of T.text self) column ≡ false) → IsOk result }
        ensures narrow { IsNarrowLook self.config → IfOk result (λ table. IsNarrowLook table.config) }
    {
        match align_numbers(&self.records, &mut self.config) {
            Ok(()) => Ok(self),
            Err(error) => Err(error.into()),
        }
    }

    /// The table with a column at the right whose numbers
    /// ([`is_number`](crate::numbers::is_number)) have their points below one another, from a row
    /// on: a number that ends sooner than others behind its point has so much more padding at its
    /// right. Other texts keep their padding. A column that isn't there changes nothing.
    ///
    /// A later padding of such a cell, of its row or column or of all cells takes the place of this one.
    /// Allocates for the column and for each cell whose padding grows. After an error the table is
    /// dropped.
    ///
    /// ```text
    /// let table = table.with_points_aligned(1, 2)?; // │ 12.5  │
    ///                                               // │  0.75 │
    /// ```
    pub fn with_points_aligned(
        mut self,
        from: usize,
        column: usize,
    ) -> Result<Table<T, A>, TableFault>
    where
        A: Clone,
        ensures points { column < columns_of self.rows → IfOk result (λ table. HasPointsAligned (texts_of T.text self) from column self.config table.config) }
        ensures others { IfOk result (λ table. table ≡ record self { config = table.config }) }
        ensures absent { columns_of self.rows ≤ column → IsOk result × IfOk result (λ table. table ≡ self) }
        ensures memory { (fault : TableFault) → result ≡ Err fault → fault ≡ TableFault.Memory }
        ensures narrow { IsNarrowLook self.config → IfOk result (λ table. IsNarrowLook table.config) }
    {
        if self.count_columns() <= column {
            return Ok(self);
        }
        match align_points(&self.records, &mut self.config, from, column) {
            Ok(()) => Ok(self),
            Err(error) => Err(error.into()),
        }
    }
}

// Aligns columns of numbers at the right, or some of them if memory is refused.
fn align_numbers<R: PeekableRecords + ExactRecords, A: Allocator + Clone>(
    records: &R,
    config: &mut SpannedConfig<A>,
) -> Result<(), AllocError>
    ensures ok { OnOk result (config.new ≡ record config.old { alignment_horizontal = with_numbers_right (R.texts records.now) (R.columns records.now) config.old.alignment_horizontal }) }
    ensures nothing { ((column : ℕ) → column < R.columns records.now → is_numeric (R.texts records.now) column ≡ false) → IsOk result }
{
    for column in 0..records.count_columns() {
        align_number(records, config, column)?;
    }
    Ok(())
}

// Aligns a column at the right if it is one of numbers.
fn align_number<R: PeekableRecords + ExactRecords, A: Allocator + Clone>(
    records: &R,
    config: &mut SpannedConfig<A>,
    column: usize,
) -> Result<(), AllocError>
    requires column { column < R.columns records.now }
    ensures ok { OnOk result (config.new ≡ record config.old { alignment_horizontal = with_number_right (R.texts records.now) config.old.alignment_horizontal column }) }
    ensures nothing { is_numeric (R.texts records.now) column ≡ false → IsOk result }
{
    if !is_numeric(records, column) {
        return Ok(());
    }
    config.set_alignment_horizontal(Entity::Column(column), AlignmentHorizontal::Right)
}

// Whether each text of a column below row 0 is a number, or blank.
fn is_numeric<R: PeekableRecords + ExactRecords>(records: &R, column: usize) -> bool
    requires column { column < R.columns records.now }
    ensures { result ≡ is_numeric (R.texts records.now) column }
{
    for row in 1..records.count_rows() {
        if !is_number_or_blank(records.get_text(Position::new(row, column))) {
            return false;
        }
    }
    true
}

// Puts a column at the right, and the points of its numbers below one another, or does a part of it if memory is refused.
fn align_points<R: PeekableRecords + ExactRecords, A: Allocator + Clone>(
    records: &R,
    config: &mut SpannedConfig<A>,
    from: usize,
    column: usize,
) -> Result<(), AllocError>
    requires column { column < R.columns records.now }
    ensures { OnOk result (HasPointsAligned (R.texts records.now) from column config.old config.new) }
{
    let rest = longest_rest(records, from, column);
    for row in from..records.count_rows() {
        let pos = Position::new(row, column);
        widen_right(config, pos, lacking(rest, records.get_text(pos)))?;
    }
    config.set_alignment_horizontal(Entity::Column(column), AlignmentHorizontal::Right)
}

// How many characters the numbers of a column take at most from their points on.
fn longest_rest<R: PeekableRecords + ExactRecords>(records: &R, from: usize, column: usize) -> usize
    requires column { column < R.columns records.now }
    ensures { result ≡ longest_rest (R.texts records.now) from column }
{
    let mut longest = 0usize;
    for row in from..records.count_rows() {
        let extent = own_extent(records.get_text(Position::new(row, column)));
        longest = longest.max(extent.rest);
    }
    longest
}

// Gives the padding of a cell so many columns more at its right.
fn widen_right<A: Allocator + Clone>(
    config: &mut SpannedConfig<A>,
    pos: Position,
    columns: usize,
) -> Result<(), AllocError>
    ensures padding { OnOk result ((p : Position) → get_padding config.new p ≡ (if holds (Entity.Cell pos.row pos.col) p then widened_right columns (get_padding config.old pos) else get_padding config.old p)) }
    ensures others { OnOk result (config.new ≡ record config.old { padding = config.new.padding }) }
{
    let mut padding = config.get_padding(pos);
    let before = padding.right.size;
    let size = before.saturating_add(columns);
    if size == before {
        return Ok(());
    }
    padding.right.size = size;
    config.set_padding(Entity::Cell(pos.row, pos.col), padding)
}
