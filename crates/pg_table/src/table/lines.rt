//! Lines between the rows or the columns of a table, and frames round its cells.

ghost use Rattle.std.specs.Prelude.{◌≡◌, ◌==◌, ◌&&◌, ◌<◌, ◌≤◌, ◌+◌, ◌⊎◌, false, true, min, nat_le, nat_lt, length, Err, IfOk, IsOk, OnErr, OnOk};
ghost use Rattle.pg_layout.specs.Records.{columns_of};
ghost use Rattle.pg_config.specs.Overrides.{has_glyph, with_border};
ghost use Rattle.pg_table.specs.Even.{IsNarrowLook, are_line_glyphs, is_of_line_glyphs};
ghost use Rattle.pg_table.specs.Inside.{along, borders_left_of, frame_border, is_on_line, place_on, IsDrawn};
ghost use Rattle.pg_table.specs.Panels.{footed, ruled, along_column, along_row, borders_round, column_borders, lacks_column, lacks_row, HasColumnLine};
ghost use Rattle.pg_table.specs.Panels.{frame_between, frame_borders, frame_corner, frame_crossing, frame_horizontal, frame_round, frame_vertical, IsFramed};

use crate::fault::TableFault;
use crate::sizes::Axis;
use crate::table::Table;
use pg_config::SpannedConfig;
use pg_layout::{Border, Borders, HorizontalLine, Position, Sides};
use std::alloc::{AllocError, Allocator};
use std::convert::AsStr;

impl<T: AsStr + Drop, A: Allocator> Table<T, A> {
    /// Draws a line above a row, counted from 0. A glyph that the line lacks stays unchanged. So
    /// does the frame: above row 0 and below the last row nothing changes.
    ///
    /// Allocates for its places, one for each column and each column line. If memory is refused,
    /// nothing changes. A line that changes nothing allocates nothing.
    ///
    /// ```text
    /// table.set_row_line(2, HorizontalLine::sharp())?; // ├──┼──┤
    /// ```
    pub fn set_row_line(&mut self, row: usize, line: HorizontalLine<char>) -> Result<(), AllocError>
    where
        A: Clone,
        ensures ok { OnOk result (self.new ≡ ruled row line self.old) }
        ensures err { OnErr result (self.new ≡ self.old) }
        ensures frame { (row ≡ 0) ⊎ (length self.old.rows ≤ row) → IsOk result }
        ensures nothing { has_glyph (columns_of self.old.rows) line ≡ false → IsOk result }
        ensures narrow { IsNarrowLook self.old.config → is_of_line_glyphs line ≡ true → IsNarrowLook self.new.config }
    {
        let (rows, columns) = self.size();
        if row == 0 || rows <= row {
            return Ok(());
        }
        self.config.set_row_line(row, columns, line)
    }

    /// The table with a line above a row ([`Table::set_row_line`]). After an error the table is
    /// dropped.
    pub fn with_row_line(
        mut self,
        row: usize,
        line: HorizontalLine<char>,
    ) -> Result<Table<T, A>, TableFault>
    where
        A: Clone,
        ensures ok { IfOk result (λ table. table ≡ ruled row line self) }
        ensures frame { (row ≡ 0) ⊎ (length self.rows ≤ row) → IsOk result }
        ensures nothing { has_glyph (columns_of self.rows) line ≡ false → IsOk result }
        ensures narrow { IsNarrowLook self.config → is_of_line_glyphs line ≡ true → IfOk result (λ table. IsNarrowLook table.config) }
        ensures memory { (fault : TableFault) → result ≡ Err fault → fault ≡ TableFault.Memory }
    {
        match self.set_row_line(row, line) {
            Ok(()) => Ok(self),
            Err(error) => Err(error.into()),
        }
    }

    /// Draws a line above the last row, such as a row of sums ([`Table::set_row_line`]). A table of
    /// fewer than two rows has no such line.
    pub fn set_foot_line(&mut self, line: HorizontalLine<char>) -> Result<(), AllocError>
    where
        A: Clone,
        ensures ok { OnOk result (self.new ≡ footed line self.old) }
        ensures err { OnErr result (self.new ≡ self.old) }
        ensures few { length self.old.rows < 2 → IsOk result }
        ensures nothing { has_glyph (columns_of self.old.rows) line ≡ false → IsOk result }
        ensures narrow { IsNarrowLook self.old.config → is_of_line_glyphs line ≡ true → IsNarrowLook self.new.config }
    {
        let last = self.count_rows().saturating_sub(1);
        self.set_row_line(last, line)
    }

    /// The table with a line above the last row ([`Table::set_foot_line`]). After an error the
    /// table is dropped.
    ///
    /// ```text
    /// let table = table.with_foot_line(HorizontalLine::sharp())?;
    /// ```
    pub fn with_foot_line(mut self, line: HorizontalLine<char>) -> Result<Table<T, A>, TableFault>
    where
        A: Clone,
        ensures ok { IfOk result (λ table. table ≡ footed line self) }
        ensures few { length self.rows < 2 → IsOk result }
        ensures nothing { has_glyph (columns_of self.rows) line ≡ false → IsOk result }
        ensures narrow { IsNarrowLook self.config → is_of_line_glyphs line ≡ true → IfOk result (λ table. IsNarrowLook table.config) }
        ensures memory { (fault : TableFault) → result ≡ Err fault → fault ≡ TableFault.Memory }
    {
        match self.set_foot_line(line) {
            Ok(()) => Ok(self),
            Err(error) => Err(error.into()),
        }
    }
}

impl<T: AsStr + Drop, A: Allocator> Table<T, A> {
    /// The table with a frame round the cells from one to another, both included, as far as it has
    /// them. A glyph that the border lacks stays unchanged.
    ///
    /// A side of the frame goes on where it crosses a line of the table. If it is a line that the
    /// table doesn't have, the lines that it crosses beyond the frame's corners go on, too: the
    /// outer lines of the table stay closed.
    ///
    /// Allocates for the frame's places. After an error the table is dropped.
    ///
    /// ```text
    /// let table = table.with_frame(Position::new(1, 1), Position::new(2, 2), border)?; // ┏━━┓
    /// ```
    pub fn with_frame(
        mut self,
        from: Position,
        to: Position,
        border: Border<char>,
    ) -> Result<Table<T, A>, TableFault>
    where
        A: Clone,
        ensures frame { IfOk result (λ table. IsFramed (frame_round from to border (length self.rows) (columns_of self.rows) self.config) self.config table.config) }
        ensures others { IfOk result (λ table. table ≡ record self { config = table.config }) }
        ensures memory { (fault : TableFault) → result ≡ Err fault → fault ≡ TableFault.Memory }
        ensures narrow { IsNarrowLook self.config → are_line_glyphs (frame_borders border) ≡ true → IfOk result (λ table. IsNarrowLook table.config) }
    {
        let (rows, columns) = self.size();
        let last = Position::new(line_behind(to.row, rows), line_behind(to.col, columns));
        let set = self.draw_frame(borders_round(border, from, last), from, last);
        self.if_set(set)
    }

    /// The table with a line left of a column, counted from 0: the `vertical` of these borders, and
    /// where it crosses a row line of the table their `intersection`, or at its ends
    /// `top_intersection` and `bottom_intersection`. A glyph that they lack stays unchanged, and so
    /// does each other line: left of column 0 and right of the last column nothing changes.
    ///
    /// Allocates for its places. After an error the table is dropped.
    ///
    /// ```text
    /// let table = table.with_column_line(1, Borders::modern())?;
    /// ```
    pub fn with_column_line(
        mut self,
        column: usize,
        borders: Borders<char>,
    ) -> Result<Table<T, A>, TableFault>
    where
        A: Clone,
        ensures line { IfOk result (λ table. HasColumnLine column borders (length self.rows) (columns_of self.rows) self.config table.config) }
        ensures others { IfOk result (λ table. table ≡ record self { config = table.config }) }
        ensures memory { (fault : TableFault) → result ≡ Err fault → fault ≡ TableFault.Memory }
        ensures narrow { IsNarrowLook self.config → are_line_glyphs (column_borders borders) ≡ true → IfOk result (λ table. IsNarrowLook table.config) }
    {
        let (rows, columns) = self.size();
        let line = columns.min(column);
        let (first, last) = (Position::new(0, line), Position::new(rows, line));
        let glyphs = borders_left_of(borders, column, &self.config, (rows, columns));
        let set = self.draw_frame(glyphs, first, last);
        self.if_set(set)
    }

    // Draws a frame between two crossings of the table, or a part of it if memory is refused.
    fn draw_frame(
        &mut self,
        glyphs: Borders<char>,
        first: Position,
        last: Position,
    ) -> Result<(), AllocError>
    where
        A: Clone,
        requires row { last.row ≤ length self.old.rows }
        requires column { last.col ≤ columns_of self.old.rows }
        ensures frame { OnOk result (IsFramed (frame_between glyphs first last (length self.old.rows) (columns_of self.old.rows) self.old.config) self.old.config self.new.config) }
        ensures others { self.new ≡ record self.old { config = self.new.config } }
    {
        let (rows, columns) = self.size();
        let frame = Frame::new(&self.config, glyphs, first, last, (rows, columns));
        frame.draw_line(&mut self.config, Axis::Rows, first.row, columns)?;
        frame.draw_line(&mut self.config, Axis::Rows, last.row, columns)?;
        frame.draw_line(&mut self.config, Axis::Columns, first.col, rows)?;
        frame.draw_line(&mut self.config, Axis::Columns, last.col, rows)
    }
}

// The line behind one of so many rows or columns; behind all that aren't there the last line.
pub(super) fn line_behind(place: usize, count: usize) -> usize
    ensures { result ≡ min count (place + 1) }
{
    count.min(place.saturating_add(1))
}

// The glyphs of a frame between two crossings, whose sides go on where they cross lines of the table; none round no cell.
fn borders_round(border: Border<char>, first: Position, last: Position) -> Borders<char>
    ensures { result ≡ borders_round border first last }
{
    if last.row <= first.row || last.col <= first.col {
        return Borders::empty();
    }
    Borders {
        top: border.top,
        top_left: border.top_left,
        top_right: border.top_right,
        top_intersection: border.top,
        bottom: border.bottom,
        bottom_left: border.bottom_left,
        bottom_right: border.bottom_right,
        bottom_intersection: border.bottom,
        left: border.left,
        left_intersection: border.left,
        right: border.right,
        right_intersection: border.right,
        ..Borders::empty()
    }
}

// The glyphs of a line left of a column, as the left side of a frame, whose ends are on lines that the table has; none for a line
// that isn't between two columns.
fn borders_left_of<A: Allocator>(
    borders: Borders<char>,
    column: usize,
    config: &SpannedConfig<A>,
    size: (usize, usize),
) -> Borders<char>
    ensures { result ≡ borders_left_of borders column size.0 size.1 config.now }
{
    let (rows, columns) = size;
    if column == 0 || columns <= column {
        return Borders::empty();
    }
    Borders {
        left: borders.vertical,
        left_intersection: borders.intersection,
        top_left: if config.has_horizontal(0, rows) {
            borders.top_intersection
        } else {
            None
        },
        bottom_left: if config.has_horizontal(rows, rows) {
            borders.bottom_intersection
        } else {
            None
        },
        ..Borders::empty()
    }
}

// A frame between two crossings of a table of so many rows and columns, and the lines that it adds
// to those of the table.
#[derive(Drop)]
struct Frame {
    glyphs: Borders<char>,
    first: Position,
    last: Position,
    rows: usize,
    columns: usize,
    adds: Sides<bool>,
}

impl Frame {
    // The frame with these glyphs.
    fn new<A: Allocator>(
        config: &SpannedConfig<A>,
        glyphs: Borders<char>,
        first: Position,
        last: Position,
        size: (usize, usize),
    ) -> Frame
        ensures { result ≡ frame_between glyphs first last size.0 size.1 config.now }
    {
        let (rows, columns) = size;
        let adds = Sides {
            left: glyphs.has_left() && lacks_column(config, first.col, columns),
            right: glyphs.has_right() && lacks_column(config, last.col, columns),
            top: glyphs.has_top() && lacks_row(config, first.row, rows),
            bottom: glyphs.has_bottom() && lacks_row(config, last.row, rows),
        };
        Frame {
            glyphs,
            first,
            last,
            rows,
            columns,
            adds,
        }
    }

    fn horizontal(&self, pos: Position) -> Option<char>
        ensures { result ≡ frame_horizontal self.now pos }
    {
        if pos.col < self.first.col || self.last.col <= pos.col {
            None
        } else if pos.row == self.first.row {
            self.glyphs.top
        } else if pos.row == self.last.row {
            self.glyphs.bottom
        } else {
            None
        }
    }

    fn vertical(&self, pos: Position) -> Option<char>
        ensures { result ≡ frame_vertical self.now pos }
    {
        if pos.row < self.first.row || self.last.row <= pos.row {
            None
        } else if pos.col == self.first.col {
            self.glyphs.left
        } else if pos.col == self.last.col {
            self.glyphs.right
        } else {
            None
        }
    }

    fn crossing<A: Allocator>(&self, config: &SpannedConfig<A>, pos: Position) -> Option<char>
        ensures { result ≡ frame_crossing self.now config.now pos }
    {
        if self.rows < pos.row || self.columns < pos.col {
            return None;
        }
        let on_row = pos.row == self.first.row || pos.row == self.last.row;
        let on_column = pos.col == self.first.col || pos.col == self.last.col;
        if on_row && on_column {
            self.corner(pos)
        } else if on_row && config.has_vertical(pos.col, self.columns) {
            self.along_row(config, pos)
        } else if on_column && config.has_horizontal(pos.row, self.rows) {
            self.along_column(config, pos)
        } else {
            None
        }
    }

    fn corner(&self, pos: Position) -> Option<char>
        ensures { result ≡ frame_corner self.now pos }
    {
        let glyphs = &self.glyphs;
        let (left, right) = if pos.row == self.first.row {
            (glyphs.top_left, glyphs.top_right)
        } else {
            (glyphs.bottom_left, glyphs.bottom_right)
        };
        if pos.col == self.first.col {
            left
        } else {
            right
        }
    }

    fn along_row<A: Allocator>(&self, config: &SpannedConfig<A>, pos: Position) -> Option<char>
        ensures { result ≡ along_row self.now config.now pos }
    {
        let (glyph, adds) = if pos.row == self.first.row {
            (self.glyphs.top_intersection, self.adds.top)
        } else {
            (self.glyphs.bottom_intersection, self.adds.bottom)
        };
        if self.first.col < pos.col && pos.col < self.last.col {
            glyph
        } else if adds {
            config.get_vertical(pos, self.columns)
        } else {
            None
        }
    }

    fn along_column<A: Allocator>(&self, config: &SpannedConfig<A>, pos: Position) -> Option<char>
        ensures { result ≡ along_column self.now config.now pos }
    {
        let (glyph, adds) = if pos.col == self.first.col {
            (self.glyphs.left_intersection, self.adds.left)
        } else {
            (self.glyphs.right_intersection, self.adds.right)
        };
        if self.first.row < pos.row && pos.row < self.last.row {
            glyph
        } else if adds {
            config.get_horizontal(pos, self.rows)
        } else {
            None
        }
    }

    // Draws the frame's glyphs at the crossing with these numbers, right of it and below it.
    fn draw<A: Allocator + Clone>(
        &self,
        config: &mut SpannedConfig<A>,
        pos: Position,
    ) -> Result<(), AllocError>
        ensures { OnOk result (config.new ≡ record config.old { overrides = with_border pos (frame_border self.now config.old pos) config.old.overrides }) }
    {
        let border = Border {
            top: self.horizontal(pos),
            left: self.vertical(pos),
            top_left: self.crossing(config, pos),
            ..Border::empty()
        };
        config.set_border(pos, border)
    }

    // Draws a row line or a column line, or a part of it if memory is refused.
    fn draw_line<A: Allocator + Clone>(
        &self,
        config: &mut SpannedConfig<A>,
        axis: Axis,
        line: usize,
        count: usize,
    ) -> Result<(), AllocError>
        ensures { OnOk result (IsDrawn self.now (λ p. is_on_line axis line p && nat_le (along axis p) count) config.old config.new) }
    {
        for place in 0..count {
            self.draw(config, place_on(axis, line, place))?;
        }
        self.draw(config, place_on(axis, line, count))
    }
}

fn place_on(axis: Axis, line: usize, place: usize) -> Position
    ensures { result ≡ place_on axis line place }
{
    match axis {
        Axis::Rows => Position::new(line, place),
        Axis::Columns => Position::new(place, line),
    }
}

// Whether a row line between two rows doesn't exist.
fn lacks_row<A: Allocator>(config: &SpannedConfig<A>, row: usize, rows: usize) -> bool
    ensures { result ≡ lacks_row config.now row rows }
{
    0 < row && row < rows && !config.has_horizontal(row, rows)
}

// Whether a column line between two columns doesn't exist.
fn lacks_column<A: Allocator>(config: &SpannedConfig<A>, column: usize, columns: usize) -> bool
    ensures { result ≡ lacks_column config.now column columns }
{
    0 < column && column < columns && !config.has_vertical(column, columns)
}
