//! All colours of a configuration at once.

ghost use Rattle.std.specs.Prelude.{◌≡◌};
ghost use Rattle.pg_config.specs.Config.{without_colors};

use crate::offsets::Offsets;
use crate::overrides::Overrides;
use crate::settings::Settings;
use crate::spanned::{SpannedConfig, no_colors};
use pg_layout::Borders;
use std::alloc::Allocator;
use std::mem;

impl<A: Allocator + Copy> SpannedConfig<A> {
    /// Removes all colours, as if none had been set: those of borders, of single glyphs, of
    /// margins, paddings and justifications. Allocates nothing. The colours of cells are no part of
    /// a configuration; a grid without them has `NoColors`.
    pub fn clear_colors(&mut self, alloc: A)
        ensures { self.new ≡ without_colors self.old }
    {
        set(&mut self.border_colors, Borders::empty());
        set(&mut self.color_overrides, Overrides::new(alloc));
        self.border_colored = false;
        set(&mut self.horizontal_colors, Offsets::new(alloc));
        set(&mut self.vertical_colors, Offsets::new(alloc));
        set(&mut self.margin_color, no_colors());
        set(&mut self.cells.padding_color, Settings::new(alloc));
        set(&mut self.cells.justification_color, Settings::new(alloc));
    }
}

/// Sets a part to this value. A part that is assigned is dropped where it is, field by field; here that is one call.
pub(crate) fn set<T: Drop>(part: &mut T, value: T)
    ensures { part.new ≡ value }
{
    drop(mem::replace(part, value));
}
