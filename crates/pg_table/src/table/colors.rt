//! Colours of the cells of an entity, and grounds, which fill cells.

ghost use Rattle.std.specs.Prelude.{◌≡◌, ◌==◌, ◌&&◌, ◌+◌, min, nat_le, nat_lt, length, Some, Err, IfOk, OnOk};
ghost use Rattle.pg_layout.specs.declared.position.Position.{Position};
ghost use Rattle.pg_layout.specs.Position.{holds};
ghost use Rattle.pg_layout.specs.Terminal.{color_texts};
ghost use Rattle.pg_table.specs.Coloring.{AreColored, is_cell_of, is_cell_striped, is_inside, with_ground, with_stripe, with_stripes};
ghost use Rattle.pg_table.specs.Even.{IsNarrowLook};

use crate::fault::TableFault;
use crate::table::Table;
use crate::table::lines::line_behind;
use pg_config::SpannedConfig;
use pg_layout::{ANSIBuf, Color, ColorsMap, Entity, Position, Sides};
use std::alloc::{AllocError, Allocator};
use std::convert::AsStr;
use std::ops::Range;

impl<T: AsStr + Drop, A: Allocator + Copy> Table<T, A> {
    /// The table with the texts of an entity's cells in this colour, in place of any that they had:
    /// for each cell the latest call counts.
    ///
    /// Allocates for each cell. After an error the table is dropped.
    ///
    /// ```text
    /// let table = table.with_color(alloc, Entity::Row(0), Color::yellow().bold())?;
    /// ```
    pub fn with_color(
        mut self,
        alloc: A,
        entity: Entity,
        color: Color,
    ) -> Result<Table<T, A>, TableFault>
        ensures colors { IfOk result (λ table. AreColored (is_cell_of entity self.rows) (color_texts color) self.colors table.colors) }
        ensures others { IfOk result (λ table. table ≡ record self { colors = table.colors }) }
        ensures memory { (fault : TableFault) → result ≡ Err fault → fault ≡ TableFault.Memory }
        ensures narrow { IsNarrowLook self.config → IfOk result (λ table. IsNarrowLook table.config) }
    {
        let set = self.color_cells(alloc, entity, color);
        self.if_set(set)
    }

    /// The table with an entity's cells filled by this colour, mostly a background: their texts, the
    /// room beside them and their paddings. Lines between cells aren't filled.
    ///
    /// It replaces the colours that they had. Allocates for each cell. After an error the table is
    /// dropped.
    ///
    /// ```text
    /// let table = table.with_ground(alloc, Entity::Cell(2, 1), Color::plain().on_red())?;
    /// ```
    pub fn with_ground(
        mut self,
        alloc: A,
        entity: Entity,
        color: Color,
    ) -> Result<Table<T, A>, TableFault>
        ensures config { IfOk result (λ table. table.config ≡ with_ground entity (color_texts color) self.config) }
        ensures colors { IfOk result (λ table. AreColored (is_cell_of entity self.rows) (color_texts color) self.colors table.colors) }
        ensures rows { IfOk result (λ table. table.rows ≡ self.rows) }
        ensures memory { (fault : TableFault) → result ≡ Err fault → fault ≡ TableFault.Memory }
        ensures narrow { IsNarrowLook self.config → IfOk result (λ table. IsNarrowLook table.config) }
    {
        let set = self.lay_ground(alloc, entity, color);
        self.if_set(set)
    }

    /// The table with every `step`-th row filled by this colour, from row `first` on, as
    /// [`Table::with_ground`] fills it. A step of 0 is one of 1.
    ///
    /// ```text
    /// let table = table.with_stripes(alloc, 2, 2, Color::plain().on(Hue::Palette(236)))?;
    /// ```
    pub fn with_stripes(
        mut self,
        alloc: A,
        first: usize,
        step: usize,
        color: Color,
    ) -> Result<Table<T, A>, TableFault>
        ensures config { IfOk result (λ table. table.config ≡ with_stripes first step (color_texts color) (length self.rows) self.config) }
        ensures colors { IfOk result (λ table. AreColored (is_cell_striped first step self.rows) (color_texts color) self.colors table.colors) }
        ensures rows { IfOk result (λ table. table.rows ≡ self.rows) }
        ensures memory { (fault : TableFault) → result ≡ Err fault → fault ≡ TableFault.Memory }
        ensures narrow { IsNarrowLook self.config → IfOk result (λ table. IsNarrowLook table.config) }
    {
        let set = self.lay_stripes(alloc, first, step, color);
        self.if_set(set)
    }

    // Fills every `step`-th row, or some of them if memory is refused.
    fn lay_stripes(
        &mut self,
        alloc: A,
        first: usize,
        step: usize,
        color: Color,
    ) -> Result<(), AllocError>
        ensures config { OnOk result (self.new.config ≡ with_stripes first step (color_texts color) (length self.old.rows) self.old.config) }
        ensures colors { OnOk result (AreColored (is_cell_striped first step self.old.rows) (color_texts color) self.old.colors self.new.colors) }
        ensures rows { self.new.rows ≡ self.old.rows }
    {
        for row in 0..self.count_rows() {
            self.lay_stripe(alloc, first, step, row, color)?;
        }
        Ok(())
    }

    // Fills a row if it is one of every `step`-th, or a part of it if memory is refused.
    fn lay_stripe(
        &mut self,
        alloc: A,
        first: usize,
        step: usize,
        row: usize,
        color: Color,
    ) -> Result<(), AllocError>
        ensures config { OnOk result (self.new.config ≡ with_stripe first step (color_texts color) self.old.config row) }
        ensures colors { OnOk result (AreColored (λ p. (p.row == row) && is_cell_striped first step self.old.rows p) (color_texts color) self.old.colors self.new.colors) }
        ensures rows { self.new.rows ≡ self.old.rows }
    {
        if row < first || (row - first) % step.max(1) != 0 {
            return Ok(());
        }
        self.lay_ground(alloc, Entity::Row(row), color)
    }

    // Fills an entity's cells, or a part of them if memory is refused.
    fn lay_ground(&mut self, alloc: A, entity: Entity, color: Color) -> Result<(), AllocError>
        ensures config { OnOk result (self.new.config ≡ with_ground entity (color_texts color) self.old.config) }
        ensures colors { OnOk result (AreColored (is_cell_of entity self.old.rows) (color_texts color) self.old.colors self.new.colors) }
        ensures rows { self.new.rows ≡ self.old.rows }
    {
        set_ground(&mut self.config, alloc, entity, color)?;
        self.color_cells(alloc, entity, color)
    }

    // Colours the texts of an entity's cells, or of some of them if memory is refused.
    fn color_cells(&mut self, alloc: A, entity: Entity, color: Color) -> Result<(), AllocError>
        ensures colors { OnOk result (AreColored (is_cell_of entity self.old.rows) (color_texts color) self.old.colors self.new.colors) }
        ensures others { self.new ≡ record self.old { colors = self.new.colors } }
    {
        let (rows, columns) = self.size();
        let (rows, columns) = cells_of(entity, rows, columns);
        color_rows(alloc, &mut self.colors, &rows, &columns, color)
    }
}

// The rows and the columns of an entity's cells, of so many of both.
fn cells_of(entity: Entity, rows: usize, columns: usize) -> (Range<usize>, Range<usize>)
    ensures { (p : Position) → ((nat_le result.0.start p.row && nat_lt p.row result.0.end) && (nat_le result.1.start p.col && nat_lt p.col result.1.end))
        ≡ (holds entity p && is_inside rows columns p) }
{
    match entity {
        Entity::Global => (0..rows, 0..columns),
        Entity::Row(row) => (one_of(row, rows), 0..columns),
        Entity::Column(column) => (0..rows, one_of(column, columns)),
        Entity::Cell(row, column) => (one_of(row, rows), one_of(column, columns)),
    }
}

// One of so many rows or columns, if it is one of them.
fn one_of(place: usize, count: usize) -> Range<usize>
    ensures start { result.start ≡ place }
    ensures end { result.end ≡ min count (place + 1) }
{
    place..line_behind(place, count)
}

// Colours the cells of these rows and columns, or some of them if memory is refused.
fn color_rows<A: Allocator + Copy>(
    alloc: A,
    colors: &mut ColorsMap<A>,
    rows: &Range<usize>,
    columns: &Range<usize>,
    color: Color,
) -> Result<(), AllocError>
    ensures { OnOk result (AreColored (λ p. (nat_le rows.now.start p.row && nat_lt p.row rows.now.end) && (nat_le columns.now.start p.col && nat_lt p.col columns.now.end))
        (color_texts color) colors.old colors.new) }
{
    for row in rows.start..rows.end {
        color_row(alloc, colors, row, columns, color)?;
    }
    Ok(())
}

// Colours the cells of a row in these columns, or some of them if memory is refused.
fn color_row<A: Allocator + Copy>(
    alloc: A,
    colors: &mut ColorsMap<A>,
    row: usize,
    columns: &Range<usize>,
    color: Color,
) -> Result<(), AllocError>
    ensures { OnOk result (AreColored (λ p. (p.row == row) && (nat_le columns.now.start p.col && nat_lt p.col columns.now.end)) (color_texts color) colors.old colors.new) }
{
    for column in columns.start..columns.end {
        let texts = color.to_ansi(alloc)?;
        colors.set(Position::new(row, column), texts)?;
    }
    Ok(())
}

// Colours the paddings of an entity's cells and the room beside their texts, or some of that if memory is refused.
fn set_ground<A: Allocator + Copy>(
    config: &mut SpannedConfig<A>,
    alloc: A,
    entity: Entity,
    color: Color,
) -> Result<(), AllocError>
    ensures { OnOk result (config.new ≡ with_ground entity (color_texts color) config.old) }
{
    let sides = sides_of(alloc, color)?;
    config.set_padding_color(entity, sides)?;
    let beside = color.to_ansi(alloc)?;
    config.set_justification_color(entity, Some(beside))
}

// This colour at each side.
fn sides_of<A: Allocator + Copy>(
    alloc: A,
    color: Color,
) -> Result<Sides<Option<ANSIBuf<A>>>, AllocError>
    ensures { IfOk result (λ sides. sides ≡ record { left = Some (color_texts color); right = Some (color_texts color); top = Some (color_texts color); bottom = Some (color_texts color) }) }
{
    let left = color.to_ansi(alloc)?;
    let right = color.to_ansi(alloc)?;
    let top = color.to_ansi(alloc)?;
    let bottom = color.to_ansi(alloc)?;
    Ok(Sides::new(Some(left), Some(right), Some(top), Some(bottom)))
}
