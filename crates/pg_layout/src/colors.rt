//! Colours: what is written before and after a coloured text, and which place has which.

ghost use Rattle.std.specs.Prelude.{◌≡◌, ◌==◌, ◌&&◌, length, Bool, true, IsTrue, IfOk, Option, None, option_map, [], string_bytes};
ghost use Rattle.pg_layout.specs.Colors.{Color, str_color, lent_color, same_color, color_eq, color_eq-equiv};
ghost use Rattle.std.specs.Cmp.{partial_equiv_from_equiv};
ghost use Rattle.pg_layout.specs.declared.position.Position.{Position};

use crate::position::Position;
use std::alloc::{AllocError, Allocator, Global};
use std::marker::Model;

/// What is written before a coloured text and after it.
///
/// Both texts depend on the value alone.
pub trait ANSIFmt {
    /// The colour that the value means.
    ghost color_of: { Self → Color };

    /// What is written before the text.
    fn prefix(&self) -> &str
        ensures { result.now ≡ (color_of self.now).prefix };

    /// What is written after the text.
    fn suffix(&self) -> &str
        ensures { result.now ≡ (color_of self.now).suffix };
}

impl<C: ANSIFmt> ANSIFmt for &C {
    ghost color_of = { λ c. C.color_of c.now };

    fn prefix(&self) -> &str {
        (**self).prefix()
    }

    fn suffix(&self) -> &str {
        (**self).suffix()
    }
}

/// A colour of two borrowed texts.
#[derive(Debug, Clone, Copy, PartialEq, Eq)]
pub struct ANSIStr<'a> {
    prefix: &'a str,
    suffix: &'a str,
}

impl<'a> ANSIStr<'a> {
    /// The colour with these two texts.
    pub fn new(prefix: &'a str, suffix: &'a str) -> ANSIStr<'a>
        ensures { str_color result ≡ record { prefix = prefix.now; suffix = suffix.now } }
    {
        ANSIStr { prefix, suffix }
    }

    /// Whether both texts are empty.
    pub fn is_empty(&self) -> bool
        ensures { result ≡ ((length (str_color self.now).prefix == 0) && (length (str_color self.now).suffix == 0)) }
    {
        self.prefix.is_empty() && self.suffix.is_empty()
    }
}

impl ANSIFmt for ANSIStr<'_> {
    ghost color_of = { str_color };

    fn prefix(&self) -> &str {
        self.prefix
    }

    fn suffix(&self) -> &str {
        self.suffix
    }
}

impl Default for ANSIStr<'_> {
    fn default() -> Self
        ensures { str_color result ≡ record { prefix = []; suffix = [] } }
    {
        ANSIStr::new("", "")
    }
}

/// A colour of two owned texts.
#[derive(Debug)]
pub struct ANSIBuf<A: Allocator = Global> {
    prefix: String<A>,
    suffix: String<A>,
}

// Written out, so that a caller's proof has one call when it drops a colour.
impl<A: Allocator> Drop for ANSIBuf<A> {
    fn drop(self) {
        let ANSIBuf { prefix, suffix } = self;
        drop((prefix, suffix));
    }
}

impl<A: Allocator> Model for ANSIBuf<A> {
    ghost use Rattle.pg_layout.specs.Colors.{Color};
    ghost use Rattle.std.specs.Prelude.{string_bytes};

    ghost Value = { Color };

    ghost view = { λ c. record { prefix = string_bytes c.prefix; suffix = string_bytes c.suffix } };
}

impl<A: Allocator + Copy> ANSIBuf<A> {
    /// The colour with copies of these two texts. The only error is out of memory.
    pub fn new(alloc: A, prefix: &str, suffix: &str) -> Result<ANSIBuf<A>, AllocError>
        ensures { IfOk result (λ c. c ≡ record { prefix = prefix.now; suffix = suffix.now }) }
    {
        let prefix = String::from_str(alloc, prefix)?;
        let suffix = String::from_str(alloc, suffix)?;
        Ok(ANSIBuf { prefix, suffix })
    }
}

impl<A: Allocator> ANSIBuf<A> {
    /// Whether both texts are empty.
    pub fn is_empty(&self) -> bool
        ensures { result ≡ ((length self.now.prefix == 0) && (length self.now.suffix == 0)) }
    {
        ANSIStr::new(self.prefix(), self.suffix()).is_empty()
    }
}

impl<A: Allocator> PartialEq for ANSIBuf<A> {
    ghost eq = { color_eq };

    ghost laws = { partial_equiv_from_equiv color_eq-equiv };

    fn eq(&self, other: &Self) -> bool {
        self.prefix == other.prefix && self.suffix == other.suffix
    }
}

impl<A: Allocator> Eq for ANSIBuf<A> {
    ghost laws = { color_eq-equiv };
}

impl<A: Allocator> ANSIFmt for ANSIBuf<A> {
    ghost color_of = { λ c. c };

    fn prefix(&self) -> &str {
        self.prefix.as_str()
    }

    fn suffix(&self) -> &str {
        self.suffix.as_str()
    }
}

/// Whether both are colours with the same two texts, or neither is a colour.
pub fn same_color<C: ANSIFmt, D: ANSIFmt>(first: Option<&C>, second: Option<&D>) -> bool
    ensures { result ≡ same_color (lent_color C.color_of first.entry) (lent_color D.color_of second.entry) }
{
    match (first, second) {
        (None, None) => true,
        (Some(one), Some(other)) => {
            one.prefix() == other.prefix() && one.suffix() == other.suffix()
        }
        _ => false,
    }
}

/// Which place of a table has which colour.
pub trait Colors {
    /// The type of the colours.
    type Color: ANSIFmt;

    /// The colour of each place, if it has one.
    ghost color: { Self → Position → Option Color };

    /// Whether it is known that no place has a colour.
    ghost is_colorless: { Self → Bool };

    /// The colour of a place, if it has one.
    fn get_color(&self, pos: Position) -> Option<&Self::Color>
        ensures { lent_color Self.Color.color_of result ≡ color self.now pos };

    /// Whether it is known that no place has a colour.
    fn is_empty(&self) -> bool
        ensures value { result ≡ is_colorless self.now }
        ensures nowhere { IsTrue result → (pos : Position) → color self.now pos ≡ None };
}

impl<C: Colors> Colors for &C {
    type Color = C::Color;

    ghost color = { λ c pos. C.color c.now pos };

    ghost is_colorless = { λ c. C.is_colorless c.now };

    fn get_color(&self, pos: Position) -> Option<&C::Color> {
        (**self).get_color(pos)
    }

    fn is_empty(&self) -> bool {
        (**self).is_empty()
    }
}

/// No place has a colour.
#[derive(Debug, Clone, Copy, PartialEq, Eq)]
pub struct NoColors;

impl Colors for NoColors {
    type Color = ANSIBuf<Global>;

    ghost color = { λ _ _. None };

    ghost is_colorless = { λ _. true };

    fn get_color(&self, _pos: Position) -> Option<&ANSIBuf<Global>> {
        None
    }

    fn is_empty(&self) -> bool {
        true
    }
}
