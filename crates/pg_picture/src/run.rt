//! The items of a separator, and the colour that is open while they are appended.

ghost use Rattle.std.specs.Prelude.{◌≡◌, Option, Some, None, IfOk, replicate};
ghost use Rattle.pg_layout.specs.Colors.{Color, lent_color};
ghost use Rattle.pg_picture.specs.Appending.{Appends};
ghost use Rattle.pg_picture.specs.Pieces.{cut, glyph, spaces, item_text};
ghost use Rattle.pg_picture.specs.Inside.{item_after, items_after, last_color};

use crate::cut::{push_after_cut, push_cut, push_prefix, push_suffix};
use crate::fill::{push_char, push_repeated};
use crate::piece::push_fill;
use pg_layout::ANSIFmt;
use std::alloc::{AllocError, Allocator};
use std::marker::Model;

/// The colour that is open at the end of a separator's items so far.
///
/// Each call takes the run and returns it with the colour that is open then. After an error there
/// is no run, and the buffer has gained a beginning of what the call appends.
#[derive(Debug, Drop)]
pub struct Run<'a, C: ANSIFmt> {
    open: Option<&'a C>,
}

impl<'a, C: ANSIFmt> Model for Run<'a, C> {
    ghost Value = { Option Color };

    ghost view = { λ run. lent_color C.color_of run.open };
}

impl<'a, C: ANSIFmt> Run<'a, C> {
    /// No item, and no colour is open.
    pub fn new() -> Run<'a, C>
        ensures { result ≡ None }
    {
        Run { open: None }
    }

    /// Appends a glyph with a colour of its own, or with none.
    #[inline(always)]
    pub(crate) fn glyph<A: Allocator>(
        self,
        buf: &mut String<A>,
        c: char,
        color: Option<&'a C>,
    ) -> Result<Run<'a, C>, AllocError>
        ensures appends { Appends buf.old buf.new result (item_after self.entry (glyph c (lent_color C.color_of color.entry) None)) }
        ensures color { IfOk result (λ run. run ≡ lent_color C.color_of color.entry) }
    {
        push_cut(buf, self.open, color)?;
        push_char(buf, c)?;
        Ok(Run { open: color })
    }

    /// Appends a glyph with a colour of its own, or with none, inside an offset's colour if there
    /// is one.
    pub(crate) fn offset_glyph<F: ANSIFmt, A: Allocator>(
        self,
        buf: &mut String<A>,
        c: char,
        color: Option<&'a C>,
        offset: Option<&F>,
    ) -> Result<Run<'a, C>, AllocError>
        ensures appends { Appends buf.old buf.new result (item_after self.entry (glyph c (lent_color C.color_of color.entry) (lent_color F.color_of offset.entry))) }
        ensures color { IfOk result (λ run. run ≡ lent_color C.color_of color.entry) }
    {
        match offset {
            None => self.glyph(buf, c, color),
            Some(offset) => {
                push_cut(buf, self.open, color)?;
                push_offset_glyph(buf, c, color, offset)?;
                Ok(Run { open: color })
            }
        }
    }

    /// Appends `count` equal glyphs, with a colour of their own or with none; nothing changes for a
    /// count of 0.
    #[inline(always)]
    pub(crate) fn repeated_glyph<A: Allocator>(
        self,
        buf: &mut String<A>,
        c: char,
        count: usize,
        color: Option<&'a C>,
    ) -> Result<Run<'a, C>, AllocError>
        ensures appends { Appends buf.old buf.new result (items_after self.entry (replicate count (glyph c (lent_color C.color_of color.entry) None))) }
        ensures color { IfOk result (λ run. run ≡ last_color self.entry (replicate count (glyph c (lent_color C.color_of color.entry) None))) }
    {
        if count == 0 {
            return Ok(self);
        }
        push_after_cut(buf, self.open, c, count, color)?;
        Ok(Run { open: color })
    }

    /// Appends `count` spaces, in the colour that is open.
    #[inline(always)]
    #[tactic(auto, using(crate::proofs::Rulesets::texts_of_spaces))]
    pub(crate) fn spaces<A: Allocator>(
        self,
        buf: &mut String<A>,
        count: usize,
    ) -> Result<Run<'a, C>, AllocError>
        ensures appends { Appends buf.old buf.new result (item_after self.entry (spaces count)) }
        ensures color { IfOk result (λ run. run ≡ self.entry) }
    {
        push_repeated(buf, ' ', count)?;
        Ok(self)
    }

    /// Closes the colour, so that a cell's line can follow.
    pub fn close_for_block<A: Allocator>(
        self,
        buf: &mut String<A>,
    ) -> Result<Run<'a, C>, AllocError>
        ensures appends { Appends buf.old buf.new result (cut self.entry None) }
        ensures color { IfOk result (λ run. run ≡ None) }
    {
        self.close(buf)?;
        Ok(Run::new())
    }

    /// Closes the colour at the end of the line.
    #[inline(always)]
    pub fn close<A: Allocator>(self, buf: &mut String<A>) -> Result<(), AllocError>
        ensures { Appends buf.old buf.new result (cut self.entry None) }
    {
        let none: Option<&'a C> = None;
        push_cut(buf, self.open, none)
    }
}

// A glyph inside its own colour, which is closed round the offset's colour.
fn push_offset_glyph<C: ANSIFmt, F: ANSIFmt, A: Allocator>(
    buf: &mut String<A>,
    c: char,
    color: Option<&C>,
    offset: &F,
) -> Result<(), AllocError>
    ensures { Appends buf.old buf.new result (item_text (lent_color C.color_of color.entry) (glyph c (lent_color C.color_of color.entry) (Some (F.color_of offset.now)))) }
{
    push_suffix(buf, color)?;
    push_fill(buf, c, 1, Some(offset))?;
    push_prefix(buf, color)
}
