//! Colours that are set for places one by one.

ghost use Rattle.std.specs.Prelude.{◌≡◌, ◌==◌, [], List, None, length, IsOk, IsSome, OnErr, OnOk};
ghost use Rattle.pg_layout.specs.declared.position.Position.{Position};
ghost use Rattle.pg_layout.specs.Colors.{Color};
ghost use Rattle.pg_layout.specs.ColorsMap.{IsColored, color_at};
ghost use Rattle.pg_layout.specs.Keys.{by_place};
ghost use Rattle.pg_layout.specs.Places.{with_place};

use crate::colors::{ANSIBuf, Colors};
use crate::places::Places;
use crate::position::Position;
use std::alloc::{AllocError, Allocator, Global};
use std::marker::Model;

/// Colours that are set for places one by one: no place has one at first, and the latest colour of
/// a place counts.
#[derive(Debug)]
pub struct ColorsMap<A: Allocator = Global> {
    colors: Places<Position, ANSIBuf<A>, A>,
}

// Written out, so that a caller's proof has one call when it drops the colours. A derived drop is
// unfolded there down to the tree, at each `?`.
impl<A: Allocator> Drop for ColorsMap<A> {
    fn drop(self) {
        let ColorsMap { colors } = self;
        drop(colors);
    }
}

impl<A: Allocator> Model for ColorsMap<A> {
    ghost Value = { List (Position × Color) };

    ghost view = { λ m. m.colors };
}

impl<A: Allocator> ColorsMap<A> {
    /// No place has a colour. Allocates nothing.
    pub fn new(alloc: A) -> ColorsMap<A>
        ensures { result ≡ [] }
    {
        ColorsMap {
            colors: Places::new(alloc),
        }
    }

    /// Sets the colour of a place, in place of an old one.
    ///
    /// Allocates only if the place had no colour. If memory is refused, nothing changes.
    pub fn set(&mut self, pos: Position, color: ANSIBuf<A>) -> Result<(), AllocError>
    where
        A: Clone,
        ensures ok { OnOk result (self.new ≡ with_place by_place pos color self.old) }
        ensures latest { OnOk result (IsColored pos color self.old self.new) }
        ensures err { OnErr result (self.new ≡ self.old) }
        ensures old_place { IsSome (color_at pos self.old) → IsOk result }
    {
        self.colors.set(pos, color)
    }
}

impl<A: Allocator> Colors for ColorsMap<A> {
    type Color = ANSIBuf<A>;

    ghost color = { λ m pos. color_at pos m };

    ghost is_colorless = { λ m. length m == 0 };

    fn get_color(&self, pos: Position) -> Option<&ANSIBuf<A>> {
        self.colors.get(pos)
    }

    /// Whether no colour was set.
    fn is_empty(&self) -> bool {
        self.colors.is_empty()
    }
}
