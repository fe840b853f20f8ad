//! The margins of a table.

ghost use Rattle.std.specs.Prelude.{◌≡◌, option_map};

use crate::spanned::SpannedConfig;
use pg_layout::{ANSIBuf, Indent, Offset, Sides};
use std::alloc::Allocator;

impl<A: Allocator> SpannedConfig<A> {
    /// Sets the margins of the table.
    pub fn set_margin(&mut self, margin: Sides<Indent>)
        ensures { self.new ≡ record self.old { margin = margin } }
    {
        self.margin = margin;
    }

    /// The margins of the table.
    pub fn get_margin(&self) -> Sides<Indent>
        ensures { result ≡ self.now.margin }
    {
        self.margin
    }

    /// Sets from which place on each margin has its fill.
    pub fn set_margin_offset(&mut self, offset: Sides<Offset>)
        ensures { self.new ≡ record self.old { margin_offset = offset } }
    {
        self.margin_offset = offset;
    }

    /// From which place on each margin has its fill.
    pub fn get_margin_offset(&self) -> Sides<Offset>
        ensures { result ≡ self.now.margin_offset }
    {
        self.margin_offset
    }

    /// Sets the colours of the margins.
    pub fn set_margin_color(&mut self, color: Sides<Option<ANSIBuf<A>>>)
        ensures { self.new ≡ record self.old { margin_color = color } }
    {
        self.margin_color = color;
    }

    /// The colours of the margins.
    pub fn get_margin_color(&self) -> Sides<Option<&ANSIBuf<A>>>
        ensures left { option_map (λ c. c.now) result.left ≡ self.now.margin_color.left }
        ensures right { option_map (λ c. c.now) result.right ≡ self.now.margin_color.right }
        ensures top { option_map (λ c. c.now) result.top ≡ self.now.margin_color.top }
        ensures bottom { option_map (λ c. c.now) result.bottom ≡ self.now.margin_color.bottom }
    {
        Sides {
            left: self.margin_color.left.as_ref(),
            right: self.margin_color.right.as_ref(),
            top: self.margin_color.top.as_ref(),
            bottom: self.margin_color.bottom.as_ref(),
        }
    }
}
