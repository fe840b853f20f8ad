//! The parts of a compact separator, and the colour that is open while they are appended.

ghost use Rattle.std.specs.Prelude.{◌≡◌, Option, None, IfOk, option_map};
ghost use Rattle.pg_layout.specs.Colors.{Color, str_color};
ghost use Rattle.pg_picture.specs.Appending.{Appends};
ghost use Rattle.pg_picture.specs.CompactLines.{own_or, part_if, main_part};
ghost use Rattle.pg_picture.specs.Inside.{part_after, open_parts, open_color};
ghost use Rattle.pg_picture.specs.Pieces.{cut};

use crate::cut::{push_after_cut, push_cut};
use pg_layout::ANSIStr;
use std::alloc::{AllocError, Allocator};
use std::marker::Model;

/// The colour that is open at the end of a compact separator's parts so far.
///
/// Each call takes the run and returns it with the colour that is open then. After an error there
/// is no run, and the buffer has gained a beginning of what the call appends.
#[derive(Debug, Drop)]
pub struct CompactRun<'a> {
    open: Option<ANSIStr<'a>>,
}

impl<'a> Model for CompactRun<'a> {
    ghost Value = { Option Color };

    ghost view = { λ run. option_map str_color run.open };
}

impl<'a> CompactRun<'a> {
    /// No part, and no colour is open.
    pub fn new() -> CompactRun<'a>
        ensures { result ≡ None }
    {
        CompactRun { open: None }
    }

    /// Appends a part: a character `count` times, in its own colour; without one it has the colour
    /// that is open.
    #[inline(always)]
    pub(crate) fn part<A: Allocator>(
        self,
        buf: &mut String<A>,
        c: char,
        count: usize,
        color: Option<ANSIStr<'a>>,
    ) -> Result<CompactRun<'a>, AllocError>
        ensures appends { Appends buf.old buf.new result (part_after self.entry (c, count, option_map str_color color.entry)) }
        ensures color { IfOk result (λ run. run ≡ own_or (option_map str_color color.entry) self.entry) }
    {
        let open = color.or(self.open);
        push_after_cut(buf, self.open.as_ref(), c, count, open.as_ref())?;
        Ok(CompactRun { open })
    }

    /// Appends an end or a crossing, which is no part if no glyph is set.
    #[inline(always)]
    pub fn part_if<A: Allocator>(
        self,
        buf: &mut String<A>,
        glyph: Option<char>,
        color: Option<ANSIStr<'a>>,
    ) -> Result<CompactRun<'a>, AllocError>
        ensures appends { Appends buf.old buf.new result (open_parts self.entry (part_if glyph (option_map str_color color.entry))) }
        ensures color { IfOk result (λ run. run ≡ open_color self.entry (part_if glyph (option_map str_color color.entry))) }
    {
        match glyph {
            None => Ok(self),
            Some(glyph) => self.part(buf, glyph, 1, color),
        }
    }

    /// Appends the glyph of a column's horizontal, once for each of its `width` terminal columns;
    /// spaces if none is set. A column of width 0 has no part.
    #[inline(always)]
    pub fn main<A: Allocator>(
        self,
        buf: &mut String<A>,
        glyph: Option<char>,
        width: usize,
        color: Option<ANSIStr<'a>>,
    ) -> Result<CompactRun<'a>, AllocError>
        ensures appends { Appends buf.old buf.new result (open_parts self.entry (main_part glyph (option_map str_color color.entry) width)) }
        ensures color { IfOk result (λ run. run ≡ open_color self.entry (main_part glyph (option_map str_color color.entry) width)) }
    {
        if width == 0 {
            return Ok(self);
        }
        self.part(buf, glyph.unwrap_or(' '), width, color)
    }

    /// Closes the colour at the end of the line.
    #[inline(always)]
    pub fn close<A: Allocator>(self, buf: &mut String<A>) -> Result<(), AllocError>
        ensures { Appends buf.old buf.new result (cut self.entry None) }
    {
        let none: Option<&ANSIStr<'a>> = None;
        push_cut(buf, self.open.as_ref(), none)
    }
}
