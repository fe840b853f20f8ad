//! What was set for single glyphs of a horizontal or a vertical.

ghost use Rattle.std.specs.Prelude.{◌≡◌, ◌<◌, [], option_map, OnOk, OnErr, IsOk, IsSome};
ghost use Rattle.pg_layout.specs.Places.{has_key};
ghost use Rattle.pg_config.specs.Offsets.{glyph_at, by_glyph, of_place, no_offsets, offset_at, with_offset, lookup_offset, is_offset_at, has_offsets};
ghost use Rattle.pg_config.specs.GlyphOrder.{glyph-order};
ghost use Rattle.pg_config.specs.Inside.{settled_at};

use crate::noted_places::NotedPlaces;
use pg_layout::{Key, Offset, Places, Position};
use std::alloc::{AllocError, Allocator, Global};
use std::marker::Model;
use std::mem;

/// A glyph of a horizontal or a vertical: the place of the line, and the glyph's number there.
#[derive(Debug, Clone, Copy, PartialEq, Eq, PartialOrd, Ord)]
pub struct GlyphPlace {
    pub pos: Position,
    pub number: usize,
}

/// Place by place.
impl Key for GlyphPlace {
    ghost order = { by_glyph };

    ghost orders = { glyph-order };
}

impl GlyphPlace {
    #[inline(always)]
    pub fn new(pos: Position, number: usize) -> GlyphPlace
        ensures { result ≡ glyph_at pos number }
    {
        GlyphPlace { pos, number }
    }
}

/// Values for glyphs of a horizontal or a vertical, by its place and the glyph's number from the
/// start or from the end.
#[derive(Debug, Drop)]
pub struct Offsets<V, A: Allocator = Global> {
    from_start: Places<GlyphPlace, V, A>,
    from_end: Places<GlyphPlace, V, A>,
}

impl<V, A: Allocator> Model for Offsets<V, A> {
    ghost use Rattle.pg_config.specs.Offsets.{Offsets as Parts};

    ghost Value = { Parts V };

    ghost view = { λ o. record { from_start = o.from_start; from_end = o.from_end } };
}

impl<V, A: Allocator + Copy> Offsets<V, A> {
    /// No value. Allocates nothing.
    pub fn new(alloc: A) -> Offsets<V, A>
        ensures { result ≡ no_offsets }
    {
        Offsets {
            from_start: Places::new(alloc),
            from_end: Places::new(alloc),
        }
    }
}

impl<V: Drop, A: Allocator + Copy> Offsets<V, A> {
    /// Takes out the values counted from the start, to change several of them at once.
    pub fn take_from_start(&mut self, alloc: A) -> NotedPlaces<GlyphPlace, V, A>
        ensures taken { result ≡ settled_at self.old.from_start }
        ensures left { self.new ≡ record self.old { from_start = [] } }
    {
        let taken = mem::replace(&mut self.from_start, Places::new(alloc));
        NotedPlaces::holding(alloc, taken)
    }

    /// Gives back values counted from the start, in place of all that there are.
    pub fn give_from_start(&mut self, values: NotedPlaces<GlyphPlace, V, A>)
        ensures { self.new ≡ record self.old { from_start = values.now } }
    {
        self.from_start = values.into_places();
    }
}

impl<V, A: Allocator> Offsets<V, A> {
    /// The value of glyph `i` of `w`: counted from the start, else from the end. None if there is
    /// no such glyph.
    #[tactic(auto, unfolding(crate::specs::Offsets::lookup_offset), using(crate::proofs::Lookups::only_if_is))]
    #[inline(always)]
    pub fn lookup(&self, pos: Position, i: usize, w: usize) -> Option<&V>
        ensures { option_map (λ x. x.now) result ≡ lookup_offset self.now pos i w }
    {
        if w <= i {
            return None;
        }
        if let Some(value) = self.from_start.get(GlyphPlace::new(pos, i)) {
            return Some(value);
        }
        self.from_end.get(GlyphPlace::new(pos, w - i - 1))
    }

    /// Whether a glyph of this place has a value.
    #[tactic(auto, unfolding(crate::specs::Offsets::is_offset_at))]
    pub fn is_set_at(&self, pos: Position) -> bool
        ensures { result ≡ is_offset_at self.now pos }
    {
        has_place(&self.from_start, pos) || has_place(&self.from_end, pos)
    }

    /// Whether some glyph has a value.
    #[tactic(auto, unfolding(crate::specs::Offsets::has_offsets))]
    pub fn is_set(&self) -> bool
        ensures { result ≡ has_offsets self.now }
    {
        !self.from_start.is_empty() || !self.from_end.is_empty()
    }
}

impl<V: Drop, A: Allocator> Offsets<V, A> {
    /// Sets the value of a glyph of this place. If memory is refused, nothing changes.
    #[tactic(auto, unfolding(crate::specs::Offsets::with_offset))]
    pub fn set(&mut self, pos: Position, offset: Offset, value: V) -> Result<(), AllocError>
    where
        A: Clone,
        ensures ok { OnOk result (self.new ≡ with_offset pos offset value self.old) }
        ensures err { OnErr result (self.new ≡ self.old) }
        ensures again { IsSome (offset_at pos offset self.old) → IsOk result }
    {
        match offset {
            Offset::Start(i) => self.from_start.set(GlyphPlace::new(pos, i), value),
            Offset::End(i) => self.from_end.set(GlyphPlace::new(pos, i), value),
        }
    }
}

// Whether a glyph of this place has a value.
#[inline(always)]
#[tactic(auto, using(crate::proofs::Rulesets::first_keys))]
fn has_place<V, A: Allocator>(glyphs: &Places<GlyphPlace, V, A>, pos: Position) -> bool
    ensures { result ≡ has_key (of_place pos) glyphs.now }
{
    // Shows that the places are in order.
    glyphs.stand_in_order();
    match glyphs.first_key_from(GlyphPlace { pos, number: 0 }) {
        Some(key) => key.pos == pos,
        None => false,
    }
}
