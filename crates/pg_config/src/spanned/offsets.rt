//! Single glyphs of horizontals and verticals, and their colours.

ghost use Rattle.std.specs.Prelude.{◌≡◌, option_map, OnOk, OnErr, IsOk, IsSome};
ghost use Rattle.pg_config.specs.Offsets.{offset_at, with_offset, lookup_offset};
ghost use Rattle.pg_config.specs.Config.{is_overridden_horizontal, has_offset_chars};

use crate::spanned::SpannedConfig;
use pg_layout::{ANSIBuf, Offset, Position};
use std::alloc::{AllocError, Allocator};

impl<A: Allocator> SpannedConfig<A> {
    /// Sets one glyph of a horizontal, counted from its left or its right end.
    pub fn set_horizontal_char(
        &mut self,
        pos: Position,
        offset: Offset,
        glyph: char,
    ) -> Result<(), AllocError>
    where
        A: Clone,
        ensures ok { OnOk result (self.new ≡ record self.old { horizontal_chars = with_offset pos offset glyph self.old.horizontal_chars }) }
        ensures err { OnErr result (self.new ≡ self.old) }
        ensures again { IsSome (offset_at pos offset self.old.horizontal_chars) → IsOk result }
    {
        self.horizontal_chars.set(pos, offset, glyph)
    }

    /// The glyph that was set for glyph `i` of the `w` columns of a horizontal: counted from its
    /// start, else from its end. None if there is no such glyph.
    pub fn lookup_horizontal_char(&self, pos: Position, i: usize, w: usize) -> Option<char>
        ensures { result ≡ lookup_offset self.now.horizontal_chars pos i w }
    {
        self.horizontal_chars.lookup(pos, i, w).copied()
    }

    /// Sets the colour of one glyph of a horizontal, counted from its left or its right end.
    pub fn set_horizontal_color(
        &mut self,
        pos: Position,
        offset: Offset,
        color: ANSIBuf<A>,
    ) -> Result<(), AllocError>
    where
        A: Clone,
        ensures ok { OnOk result (self.new ≡ record self.old { horizontal_colors = with_offset pos offset color self.old.horizontal_colors }) }
        ensures err { OnErr result (self.new ≡ self.old) }
        ensures again { IsSome (offset_at pos offset self.old.horizontal_colors) → IsOk result }
    {
        self.horizontal_colors.set(pos, offset, color)
    }

    /// The colour that was set for glyph `i` of the `w` columns of a horizontal: counted from its
    /// start, else from its end. None if there is no such glyph.
    pub fn lookup_horizontal_color(&self, pos: Position, i: usize, w: usize) -> Option<&ANSIBuf<A>>
        ensures { option_map (λ x. x.now) result ≡ lookup_offset self.now.horizontal_colors pos i w }
    {
        self.horizontal_colors.lookup(pos, i, w)
    }

    /// Sets one glyph of a vertical, counted from its top or its bottom end.
    pub fn set_vertical_char(
        &mut self,
        pos: Position,
        offset: Offset,
        glyph: char,
    ) -> Result<(), AllocError>
    where
        A: Clone,
        ensures ok { OnOk result (self.new ≡ record self.old { vertical_chars = with_offset pos offset glyph self.old.vertical_chars }) }
        ensures err { OnErr result (self.new ≡ self.old) }
        ensures again { IsSome (offset_at pos offset self.old.vertical_chars) → IsOk result }
    {
        self.vertical_chars.set(pos, offset, glyph)
    }

    /// The glyph that was set for glyph `i` of the `w` lines of a vertical: counted from its start,
    /// else from its end. None if there is no such glyph.
    #[inline(always)]
    pub fn lookup_vertical_char(&self, pos: Position, i: usize, w: usize) -> Option<char>
        ensures { result ≡ lookup_offset self.now.vertical_chars pos i w }
    {
        self.vertical_chars.lookup(pos, i, w).copied()
    }

    /// Sets the colour of one glyph of a vertical, counted from its top or its bottom end.
    pub fn set_vertical_color(
        &mut self,
        pos: Position,
        offset: Offset,
        color: ANSIBuf<A>,
    ) -> Result<(), AllocError>
    where
        A: Clone,
        ensures ok { OnOk result (self.new ≡ record self.old { vertical_colors = with_offset pos offset color self.old.vertical_colors }) }
        ensures err { OnErr result (self.new ≡ self.old) }
        ensures again { IsSome (offset_at pos offset self.old.vertical_colors) → IsOk result }
    {
        self.vertical_colors.set(pos, offset, color)
    }

    /// The colour that was set for glyph `i` of the `w` lines of a vertical: counted from its
    /// start, else from its end. None if there is no such glyph.
    #[inline(always)]
    pub fn lookup_vertical_color(&self, pos: Position, i: usize, w: usize) -> Option<&ANSIBuf<A>>
        ensures { option_map (λ x. x.now) result ≡ lookup_offset self.now.vertical_colors pos i w }
    {
        self.vertical_colors.lookup(pos, i, w)
    }

    /// Whether a glyph or a colour was set for a part of this horizontal.
    #[tactic(auto, unfolding(crate::specs::Config::is_overridden_horizontal))]
    pub fn is_overridden_horizontal(&self, pos: Position) -> bool
        ensures { result ≡ is_overridden_horizontal self.now pos }
    {
        self.horizontal_chars.is_set_at(pos) || self.horizontal_colors.is_set_at(pos)
    }

    /// Whether a glyph or a colour was set for a part of some horizontal or vertical.
    #[tactic(auto, unfolding(crate::specs::Config::has_offset_chars))]
    pub fn has_offset_chars(&self) -> bool
        ensures { result ≡ has_offset_chars self.now }
    {
        self.horizontal_chars.is_set()
            || self.vertical_chars.is_set()
            || self.horizontal_colors.is_set()
            || self.vertical_colors.is_set()
    }
}
