//! The border lines: which exist, and their glyphs and colours.

ghost use Rattle.std.specs.Prelude.{◌≡◌, ◌<◌, ◌≤◌, ◌+◌, ◌^◌, true, false, count_by, option_map, OnOk, OnErr, IsOk};
ghost use Rattle.std.specs.List.{range_with_len};
ghost use Rattle.pg_layout.specs.Borders.{no_border, has_side, ends, horizontal_glyph, vertical_glyph, crossing_glyph};
ghost use Rattle.pg_config.specs.Overrides.{on_lines, with_border, has_glyph, with_row_line};
ghost use Rattle.pg_config.specs.Config.{missing_if, count_horizontal, count_vertical, has_horizontal, has_vertical, get_horizontal, get_vertical};
ghost use Rattle.pg_config.specs.Config.{get_intersection, get_horizontal_color, get_vertical_color, get_intersection_color, has_equal_row_lines, has_column_lines};
ghost use Rattle.pg_config.specs.Common.{inner_vertical};

use crate::spanned::SpannedConfig;
use crate::spanned::colors::set;
use pg_layout::{ANSIBuf, Border, Borders, HorizontalLine, Position};
use std::alloc::{AllocError, Allocator};

impl<A: Allocator> SpannedConfig<A> {
    /// Sets the glyphs of all border lines, replacing earlier ones. Overrides stay.
    pub fn set_borders(&mut self, borders: Borders<char>)
        ensures { self.new ≡ record self.old { borders = borders } }
    {
        self.borders = borders;
    }

    /// The glyphs of all border lines, without overrides.
    pub fn get_borders(&self) -> &Borders<char>
        ensures { result.now ≡ self.now.borders }
    {
        &self.borders
    }

    /// Sets the missing glyph: that of a place whose line exists but has no glyph there.
    pub fn set_borders_missing(&mut self, glyph: Option<char>)
        ensures { self.new ≡ record self.old { missing = glyph } }
    {
        self.missing = glyph;
    }

    /// The missing glyph: that of a place whose line exists but has no glyph there.
    pub fn get_borders_missing(&self) -> Option<char>
        ensures { result ≡ self.now.missing }
    {
        self.missing
    }

    /// Overrides the glyphs of the eight places round a cell by those that this border has. A glyph
    /// for a place after line `usize::MAX`, which no table has, is left out.
    ///
    /// If the border has no glyph for these places, nothing is allocated.
    pub fn set_border(&mut self, pos: Position, border: Border<char>) -> Result<(), AllocError>
    where
        A: Clone,
        ensures ok { OnOk result (self.new ≡ record self.old { overrides = with_border pos border self.old.overrides }) }
        ensures err { OnErr result (self.new ≡ self.old) }
        ensures nothing { on_lines pos border ≡ no_border → IsOk result }
    {
        self.overrides.set_border(pos, border)
    }

    /// Overrides the glyphs of one row line across a table of `columns` columns by those that this
    /// line has: its horizontals by `main`, the crossings at its ends by `left` and `right`, and
    /// those between by `intersection`. Without columns nothing changes.
    ///
    /// Row line 0 is above the first row, and row line `r` below row `r - 1`. Allocates even if all
    /// these places have a glyph: the old ones are kept until the new ones are set.
    pub fn set_row_line(
        &mut self,
        row: usize,
        columns: usize,
        line: HorizontalLine<char>,
    ) -> Result<(), AllocError>
    where
        A: Clone,
        ensures ok { OnOk result (self.new ≡ record self.old { overrides = with_row_line row columns line self.old.overrides }) }
        ensures err { OnErr result (self.new ≡ self.old) }
        ensures nothing { has_glyph columns line ≡ false → IsOk result }
    {
        self.overrides.set_row_line(row, columns, line)
    }

    /// Whether row line `row` of a table of `rows` rows exists.
    #[tactic(auto, unfolding(crate::specs::Config::has_horizontal, pg_layout::specs::Borders::has_side))]
    pub fn has_horizontal(&self, row: usize, rows: usize) -> bool
        ensures { result ≡ has_horizontal self.now row rows }
    {
        row == 0 && self.borders.has_top()
            || row == rows && self.borders.has_bottom()
            || 0 < row && row < rows && self.borders.has_horizontal()
            || self.overrides.has_row(row)
    }

    /// Whether column line `column` of a table of `columns` columns exists.
    #[tactic(auto, unfolding(crate::specs::Config::has_vertical, pg_layout::specs::Borders::has_side))]
    #[inline(always)]
    pub fn has_vertical(&self, column: usize, columns: usize) -> bool
        ensures { result ≡ has_vertical self.now column columns }
    {
        column == 0 && self.borders.has_left()
            || column == columns && self.borders.has_right()
            || 0 < column && column < columns && self.borders.has_vertical()
            || self.overrides.has_column(column)
    }

    /// Whether a column line exists, in a table of some number of columns. If none does, no
    /// vertical has a glyph.
    #[tactic(auto, unfolding(crate::specs::Config::has_column_lines))]
    pub fn has_column_lines(&self) -> bool
        ensures { result ≡ has_column_lines self.now }
    {
        self.borders.has_left()
            || self.borders.has_right()
            || self.borders.has_vertical()
            || self.overrides.sets_columns()
    }

    /// The glyph of a horizontal in a table of `rows` rows: an override, else the borders' glyph,
    /// else the missing glyph if the line exists.
    #[tactic(auto, unfolding(crate::specs::Config::get_horizontal))]
    pub fn get_horizontal(&self, pos: Position, rows: usize) -> Option<char>
        ensures { result ≡ get_horizontal self.now pos rows }
    {
        if let Some(glyph) = self.overrides.horizontal(pos) {
            return Some(*glyph);
        }
        if let Some(glyph) = horizontal_glyph(&self.borders, pos.row, rows) {
            return Some(*glyph);
        }
        self.missing_if(self.has_horizontal(pos.row, rows))
    }

    /// The glyph of a vertical in a table of `columns` columns: an override, else the borders'
    /// glyph, else the missing glyph if the line exists.
    #[tactic(auto, unfolding(crate::specs::Config::get_vertical))]
    #[inline(always)]
    pub fn get_vertical(&self, pos: Position, columns: usize) -> Option<char>
        ensures { result ≡ get_vertical self.now pos columns }
    {
        if let Some(glyph) = self.overrides.vertical(pos) {
            return Some(*glyph);
        }
        if let Some(glyph) = vertical_glyph(&self.borders, pos.col, columns) {
            return Some(*glyph);
        }
        self.missing_if(self.has_vertical(pos.col, columns))
    }

    /// The glyph that all verticals between two columns have; none where one of their places was set,
    /// or where they have a colour.
    #[tactic(auto, unfolding(crate::specs::Common::inner_vertical))]
    pub fn inner_vertical(&self) -> Option<char>
        ensures { result ≡ inner_vertical self.now }
    {
        let has_places = self.overrides.sets_verticals() || self.color_overrides.sets_verticals();
        if has_places || self.border_colors.vertical.is_some() {
            return None;
        }
        self.borders.vertical
    }

    /// The glyph of a crossing in a table of `size` rows and columns: an override, else the
    /// borders' glyph, else the missing glyph if both lines exist.
    #[tactic(auto, unfolding(crate::specs::Config::get_intersection))]
    pub fn get_intersection(&self, pos: Position, size: (usize, usize)) -> Option<char>
        ensures { result ≡ get_intersection self.now pos size.0 size.1 }
    {
        let (rows, columns) = size;
        if let Some(glyph) = self.overrides.crossing(pos) {
            return Some(*glyph);
        }
        if let Some(glyph) = crossing_glyph(&self.borders, pos, rows, columns) {
            return Some(*glyph);
        }
        let there = self.has_horizontal(pos.row, rows) && self.has_vertical(pos.col, columns);
        self.missing_if(there)
    }

    /// Whether all row lines between two rows are drawn alike if no cell spans rows or columns: no
    /// glyph and no colour of a horizontal or a crossing was set by its place.
    #[tactic(auto, unfolding(crate::specs::Config::has_equal_row_lines))]
    pub fn has_equal_row_lines(&self) -> bool
        ensures { result ≡ has_equal_row_lines self.now }
    {
        let has_overrides = self.overrides.sets_rows() || self.color_overrides.sets_rows();
        let has_offsets = self.horizontal_chars.is_set() || self.horizontal_colors.is_set();
        !has_overrides && !has_offsets
    }

    /// How many row lines of a table of `rows` rows exist. Precondition: `rows` is below
    /// `usize::MAX`.
    #[tactic(auto, unfolding(crate::specs::Config::count_horizontal))]
    pub fn count_horizontal(&self, rows: usize) -> usize
        requires { rows < usize.MAX }
        ensures { result ≡ count_horizontal self.now rows }
    {
        self.count_horizontals(0, rows + 1, rows)
    }

    /// How many column lines of a table of `columns` columns exist. Precondition: `columns` is
    /// below `usize::MAX`.
    #[tactic(auto, unfolding(crate::specs::Config::count_vertical))]
    pub fn count_vertical(&self, columns: usize) -> usize
        requires { columns < usize.MAX }
        ensures { result ≡ count_vertical self.now columns }
    {
        self.count_verticals(0, columns + 1, columns)
    }

    /// How many of `count` row lines from `first` on exist in a table of `rows` rows. Precondition:
    /// `first + count` is at most `usize::MAX`.
    pub fn count_horizontals(&self, first: usize, count: usize, rows: usize) -> usize
        requires { first + count ≤ usize.MAX }
        ensures { result ≡ count_by (λ r. has_horizontal self.now r rows) (range_with_len first count) }
    {
        let mut found: usize = 0;
        for step in 0..count {
            found += usize::from(self.has_horizontal(first + step, rows));
        }
        found
    }

    /// How many of `count` column lines from `first` on exist in a table of `columns` columns.
    /// Precondition: `first + count` is at most `usize::MAX`.
    pub fn count_verticals(&self, first: usize, count: usize, columns: usize) -> usize
        requires { first + count ≤ usize.MAX }
        ensures { result ≡ count_by (λ c. has_vertical self.now c columns) (range_with_len first count) }
    {
        let mut found: usize = 0;
        for step in 0..count {
            found += usize::from(self.has_vertical(first + step, columns));
        }
        found
    }

    #[inline(always)]
    fn missing_if(&self, there: bool) -> Option<char>
        ensures { result ≡ missing_if self.now there }
    {
        if there { self.missing } else { None }
    }

    /// Sets the colours of all border lines, replacing earlier ones. Overrides stay.
    pub fn set_borders_color(&mut self, colors: Borders<ANSIBuf<A>>)
        ensures { self.new ≡ record self.old { border_colors = colors; border_colored = true } }
    {
        set(&mut self.border_colors, colors);
        self.border_colored = true;
    }

    /// Overrides the colours of the eight places round a cell by those that this border has. A
    /// colour for a place after line `usize::MAX`, which no table has, is left out.
    ///
    /// If the border has no colour for these places, nothing is allocated.
    pub fn set_border_color(
        &mut self,
        pos: Position,
        border: Border<ANSIBuf<A>>,
    ) -> Result<(), AllocError>
    where
        A: Clone,
        ensures ok { OnOk result (self.new ≡ record self.old { color_overrides = with_border pos border self.old.color_overrides; border_colored = true }) }
        ensures err { OnErr result (self.new ≡ self.old) }
        ensures nothing { on_lines pos border ≡ no_border → IsOk result }
    {
        self.color_overrides.set_border(pos, border)?;
        self.border_colored = true;
        Ok(())
    }

    /// The colour of a horizontal in a table of `rows` rows: an override, else the borders' colour.
    #[tactic(auto, unfolding(crate::specs::Config::get_horizontal_color))]
    pub fn get_horizontal_color(&self, pos: Position, rows: usize) -> Option<&ANSIBuf<A>>
        ensures { option_map (λ x. x.now) result ≡ get_horizontal_color self.now pos rows }
    {
        if let Some(color) = self.color_overrides.horizontal(pos) {
            return Some(color);
        }
        horizontal_glyph(&self.border_colors, pos.row, rows)
    }

    /// The colour of a vertical in a table of `columns` columns: an override, else the borders'
    /// colour.
    #[tactic(auto, unfolding(crate::specs::Config::get_vertical_color))]
    #[inline(always)]
    pub fn get_vertical_color(&self, pos: Position, columns: usize) -> Option<&ANSIBuf<A>>
        ensures { option_map (λ x. x.now) result ≡ get_vertical_color self.now pos columns }
    {
        if let Some(color) = self.color_overrides.vertical(pos) {
            return Some(color);
        }
        vertical_glyph(&self.border_colors, pos.col, columns)
    }

    /// The colour of a crossing in a table of `size` rows and columns: an override, else the
    /// borders' colour.
    #[tactic(auto, unfolding(crate::specs::Config::get_intersection_color))]
    pub fn get_intersection_color(&self, pos: Position, size: (usize, usize)) -> Option<&ANSIBuf<A>>
        ensures { option_map (λ x. x.now) result ≡ get_intersection_color self.now pos size.0 size.1 }
    {
        if let Some(color) = self.color_overrides.crossing(pos) {
            return Some(color);
        }
        crossing_glyph(&self.border_colors, pos, size.0, size.1)
    }

    /// Whether a colour of border lines was set, even if it coloured none.
    pub fn has_border_colors(&self) -> bool
        ensures { result ≡ self.now.border_colored }
    {
        self.border_colored
    }
}

#[tactic(auto, unfolding(pg_layout::specs::Borders::horizontal_glyph))]
pub(crate) fn horizontal_glyph<G>(borders: &Borders<G>, row: usize, rows: usize) -> Option<&G>
    ensures { option_map (λ x. x.now) result ≡ horizontal_glyph borders.now row rows }
{
    if row == 0 {
        borders.top.as_ref()
    } else if row == rows {
        borders.bottom.as_ref()
    } else {
        borders.horizontal.as_ref()
    }
}

#[tactic(auto, unfolding(pg_layout::specs::Borders::vertical_glyph))]
#[inline(always)]
pub(crate) fn vertical_glyph<G>(borders: &Borders<G>, column: usize, columns: usize) -> Option<&G>
    ensures { option_map (λ x. x.now) result ≡ vertical_glyph borders.now column columns }
{
    if column == 0 {
        borders.left.as_ref()
    } else if column == columns {
        borders.right.as_ref()
    } else {
        borders.vertical.as_ref()
    }
}

#[tactic(auto, unfolding(pg_layout::specs::Borders::crossing_glyph))]
fn crossing_glyph<G>(borders: &Borders<G>, pos: Position, rows: usize, columns: usize) -> Option<&G>
    ensures { option_map (λ x. x.now) result ≡ crossing_glyph borders.now pos.row pos.col rows columns }
{
    let (left, middle, right) = if pos.row == 0 {
        (
            &borders.top_left,
            &borders.top_intersection,
            &borders.top_right,
        )
    } else if pos.row == rows {
        (
            &borders.bottom_left,
            &borders.bottom_intersection,
            &borders.bottom_right,
        )
    } else {
        (
            &borders.left_intersection,
            &borders.intersection,
            &borders.right_intersection,
        )
    };
    if pos.col == 0 {
        left.as_ref()
    } else if pos.col == columns {
        right.as_ref()
    } else {
        middle.as_ref()
    }
}
