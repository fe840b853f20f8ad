//! Characters over the glyphs of a row line, and their colours.

ghost use Rattle.std.specs.Prelude.{◌≡◌, ◌==◌, [], false, OnOk, OnErr, IsOk};
ghost use Rattle.pg_config.specs.Config.{has_horizontal};
ghost use Rattle.pg_config.specs.LineGlyphs.{with_line_color, with_line_glyphs};

use crate::line_glyphs::{over_columns, over_line};
use crate::spanned::SpannedConfig;
use pg_layout::{ANSIBuf, Dimension};
use std::alloc::{AllocError, Allocator};

impl<A: Allocator + Copy> SpannedConfig<A> {
    /// Puts characters over the glyphs of row line `row`, in a table of `size` rows and columns
    /// whose columns have these widths: side by side, the first of them at column `first` of the
    /// line, where 0 is the first glyph of column 0. So they cover horizontals and the crossings
    /// between two columns, and end with the last column.
    ///
    /// Each replaces one glyph, as in [`SpannedConfig::set_horizontal_char`], so a wider one makes
    /// its line longer. A row line that doesn't exist gets none. Later settings, such as other
    /// widths, move none of them.
    ///
    /// If memory is refused, nothing changes; without characters, or for a row line that doesn't
    /// exist, nothing is allocated.
    #[tactic(auto, unfolding(crate::specs::LineGlyphs::with_line_glyphs))]
    pub fn set_line_glyphs<D: Dimension>(
        &mut self,
        alloc: A,
        row: usize,
        size: (usize, usize),
        dimension: &D,
        first: usize,
        glyphs: &[char],
    ) -> Result<(), AllocError>
        ensures ok { OnOk result (self.new ≡ with_line_glyphs row size.0 size.1 (D.width dimension.now) first glyphs.now self.old) }
        ensures err { OnErr result (self.new ≡ self.old) }
        ensures nothing { glyphs.now ≡ [] → IsOk result }
        ensures absent { has_horizontal self.old row size.0 ≡ false → IsOk result }
    {
        let (rows, columns) = size;
        if glyphs.is_empty() || !self.has_horizontal(row, rows) {
            return Ok(());
        }
        let over = over_line(alloc, self, columns, dimension, first, glyphs)?;
        let mut glyphs = self.horizontal_chars.take_from_start(alloc);
        let done = self.overrides.set_over(&mut glyphs, row, over);
        glyphs.settle(done.is_ok());
        self.horizontal_chars.give_from_start(glyphs);
        done
    }

    /// Gives row line `row`, in a table of `size` rows and columns whose columns have these widths,
    /// this colour at `count` columns, the first of them column `first` of the line, as
    /// [`SpannedConfig::set_line_glyphs`] counts them: at horizontals and at the crossings between
    /// two columns. Columns behind the last one are left out, so that `usize::MAX` colours the rest of
    /// the line.
    ///
    /// If memory is refused, nothing changes; for no columns, or a row line that doesn't exist, nothing
    /// is allocated.
    #[tactic(auto, unfolding(crate::specs::LineGlyphs::with_line_color))]
    pub fn set_line_color<D: Dimension>(
        &mut self,
        alloc: A,
        row: usize,
        size: (usize, usize),
        dimension: &D,
        first: usize,
        count: usize,
        color: &ANSIBuf<A>,
    ) -> Result<(), AllocError>
        ensures ok { OnOk result (self.new ≡ with_line_color row size.0 size.1 (D.width dimension.now) first count color.now self.old) }
        ensures err { OnErr result (self.new ≡ self.old) }
        ensures nothing { count ≡ 0 → IsOk result }
        ensures absent { has_horizontal self.old row size.0 ≡ false → IsOk result }
    {
        let (rows, columns) = size;
        if count == 0 || !self.has_horizontal(row, rows) {
            return Ok(());
        }
        let over = over_columns(alloc, self, columns, dimension, first, count, color)?;
        let mut colors = self.horizontal_colors.take_from_start(alloc);
        let done = self.color_overrides.set_over(&mut colors, row, over);
        colors.settle(done.is_ok());
        self.horizontal_colors.give_from_start(colors);
        done?;
        self.border_colored = true;
        Ok(())
    }
}
