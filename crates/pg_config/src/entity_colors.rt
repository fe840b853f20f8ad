//! Colours of cells by entity.

ghost use Rattle.std.specs.Prelude.{◌≡◌, not, OnOk, OnErr, IsOk};
ghost use Rattle.pg_config.specs.Settings.{no_settings, setting_of, with_setting, is_set, HasRoom};

use crate::settings::Settings;
use pg_layout::{ANSIBuf, Colors, Entity, Position};
use std::alloc::{AllocError, Allocator, Global};
use std::marker::Model;

/// Colours of cells: no cell has one at first, and the latest one whose entity holds a cell counts,
/// as for settings.
#[derive(Debug)]
pub struct EntityColors<A: Allocator = Global> {
    colors: Settings<ANSIBuf<A>, A>,
}

// Written out, so that a caller's proof has one call when it drops the colours.
impl<A: Allocator> Drop for EntityColors<A> {
    fn drop(self) {
        let EntityColors { colors } = self;
        drop(colors);
    }
}

impl<A: Allocator> Model for EntityColors<A> {
    ghost use Rattle.pg_layout.specs.Colors.{Color};
    ghost use Rattle.pg_config.specs.Settings.{Settings as Parts};

    ghost Value = { Parts Color };

    ghost view = { λ c. c.colors };
}

impl<A: Allocator + Copy> EntityColors<A> {
    /// No cell has a colour. Allocates nothing.
    pub fn new(alloc: A) -> EntityColors<A>
        ensures { result ≡ no_settings }
    {
        EntityColors {
            colors: Settings::new(alloc),
        }
    }

    /// Removes all colours, as for a text that doesn't go to a terminal. Allocates nothing.
    pub fn clear(&mut self, alloc: A)
        ensures { self.new ≡ no_settings }
    {
        *self = EntityColors::new(alloc);
    }
}

impl<A: Allocator> EntityColors<A> {
    /// Sets the colour of the cells of an entity. A colour of two empty texts is one, too: nothing
    /// is written round their texts, and [`Colors::get_color`] returns it.
    ///
    /// The error is out of memory, also if 2^64 - 1 colours were set since the last one for all
    /// cells; then nothing changes. A colour for all cells allocates nothing, nor does one for an
    /// entity that has one.
    pub fn set(&mut self, entity: Entity, color: ANSIBuf<A>) -> Result<(), AllocError>
    where
        A: Clone,
        ensures ok { OnOk result (self.new ≡ with_setting entity color self.old) }
        ensures err { OnErr result (self.new ≡ self.old) }
        ensures global { entity ≡ Entity.Global → IsOk result }
        ensures again { HasRoom entity self.old → IsOk result }
    {
        self.colors.set(entity, color)
    }
}

impl<A: Allocator> Colors for EntityColors<A> {
    type Color = ANSIBuf<A>;

    ghost color = { λ colors pos. setting_of colors pos };

    ghost is_colorless = { λ colors. not (is_set colors) };

    fn get_color(&self, pos: Position) -> Option<&ANSIBuf<A>> {
        self.colors.get(pos)
    }

    /// Whether no colour was set.
    #[tactic(auto, using(crate::proofs::Rulesets::unset))]
    fn is_empty(&self) -> bool {
        !self.colors.is_set()
    }
}
