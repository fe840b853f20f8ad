//! Settings by entity: a look-up takes at most three searches, and a setter one.

ghost use Rattle.std.specs.Prelude.{◌≡◌, ◌≢◌, ◌||◌, [], ℕ, suc, ◌<◌, ◌-◌, ◌^◌, Option, Some, None, option_map, OnOk, OnErr, IfOk, IsOk, IsSome};
ghost use Rattle.pg_layout.specs.Keys.{by_place};
ghost use Rattle.pg_layout.specs.Places.{value_at, with_place};
ghost use Rattle.pg_config.specs.Inside.{first_of, with_base};
ghost use Rattle.pg_config.specs.Settings.{no_settings, has_some, latest, value_or, setting_of, with_setting, HasRoom, is_set, is_for_all, is_by_column};

use crate::extent::Extent;
use pg_layout::{Entity, Key, Places, Position};
use std::alloc::{AllocError, Allocator, Global};
use std::marker::Model;

/// The settings of one kind: the latest one whose entity holds a place counts there.
///
/// At most one is kept for each row, column and cell. A setting that later ones cover remains,
/// unseen, until its entity or all places are set again.
#[derive(Debug, Drop)]
pub struct Settings<V, A: Allocator = Global> {
    base: Option<V>,
    // One, once a row, a column or a cell has a setting. It lies behind a pointer, since each function that
    // names a configuration is proved with all types that lie in it.
    named: Vec<NamedSettings<V, A>, A>,
}

impl<V, A: Allocator> Model for Settings<V, A> {
    ghost use Rattle.pg_config.specs.Inside.{first_of, with_base};
    ghost use Rattle.pg_config.specs.Settings.{Settings as Parts};

    ghost Value = { Parts V };

    ghost view = { λ s. with_base s.base (first_of s.named.items) };
}

impl<V, A: Allocator + Copy> Settings<V, A> {
    /// No setting. Allocates nothing.
    pub fn new(alloc: A) -> Settings<V, A>
        ensures { result ≡ no_settings }
    {
        Settings {
            base: None,
            named: Vec::new(alloc),
        }
    }
}

impl<V, A: Allocator> Settings<V, A> {
    /// The latest setting whose entity holds the place.
    #[inline(always)]
    pub fn get(&self, pos: Position) -> Option<&V>
        ensures { option_map (λ x. x.now) result ≡ setting_of self.now pos }
    {
        match self.named.as_slice() {
            [named, ..] => named.find(&self.base, pos),
            [] => self.base.as_ref(),
        }
    }

    // What was set for all places, last of all or before some of them.
    pub(crate) fn base(&self) -> Option<V>
    where
        V: Copy,
        ensures { result ≡ self.now.base }
    {
        self.base
    }

    #[inline(always)]
    pub(crate) fn is_for_all(&self) -> bool
        ensures { result ≡ is_for_all self.now }
    {
        match self.named.as_slice() {
            [named, ..] => named.is_empty(),
            [] => true,
        }
    }

    // Whether nothing was set for a row or a cell: then each place has the setting of its column.
    pub(crate) fn is_by_column(&self) -> bool
        ensures { result ≡ is_by_column self.now }
    {
        match self.named.as_slice() {
            [named, ..] => named.cells.is_empty() && named.rows.is_empty(),
            [] => true,
        }
    }

    /// Whether something was set.
    #[tactic(auto, unfolding(crate::specs::Settings::is_set))]
    pub fn is_set(&self) -> bool
        ensures { result ≡ is_set self.now }
    {
        match self.named.as_slice() {
            [named, ..] => named.is_set(self.base.is_some()),
            [] => self.base.is_some(),
        }
    }
}

impl<V: Drop, A: Allocator> Settings<V, A> {
    /// Sets a value for the places of an entity.
    ///
    /// The error is out of memory, also if 2^64 - 1 settings were made for rows, columns and cells
    /// since the last one for all places, so that no number is left; then nothing changes. A
    /// setting for all places deletes all others. It allocates nothing, nor does one for an entity
    /// that has one.
    #[tactic(auto, unfolding(crate::specs::Settings::with_setting))]
    pub fn set(&mut self, entity: Entity, value: V) -> Result<(), AllocError>
    where
        A: Clone,
        ensures ok { OnOk result (self.new ≡ with_setting entity value self.old) }
        ensures err { OnErr result (self.new ≡ self.old) }
        ensures global { entity ≡ Entity.Global → IsOk result }
        ensures again { HasRoom entity self.old → IsOk result }
    {
        if let Entity::Global = entity {
            self.base = Some(value);
            self.named.clear();
            return Ok(());
        }
        if self.named.is_empty() {
            return push_first(&mut self.named, entity, value);
        }
        self.named[0].set(entity, value)
    }
}

// Sets a value for the places of an entity, which are the first ones with a value.
fn push_first<V: Drop, A: Allocator + Clone>(
    named: &mut Vec<NamedSettings<V, A>, A>,
    entity: Entity,
    value: V,
) -> Result<(), AllocError>
    requires { named.old.items ≡ [] }
    ensures ok { OnOk result (first_of named.new.items ≡ with_base None (with_setting entity value no_settings)) }
    ensures err { OnErr result (named.new.items ≡ []) }
{
    let mut first = NamedSettings::new(named.allocator())?;
    first.set(entity, value)?;
    named.push(first)?;
    Ok(())
}

/// The settings of rows, columns and cells.
#[derive(Debug, Drop)]
pub(crate) struct NamedSettings<V, A: Allocator = Global> {
    rows: Places<usize, (usize, V), A>,
    columns: Places<usize, (usize, V), A>,
    cells: Places<Position, (usize, V), A>,
    // It includes all cells.
    extent: Extent,
    // The number of the next setting for a row, a column or a cell.
    next: usize,
}

impl<V, A: Allocator> Model for NamedSettings<V, A> {
    ghost use Rattle.std.specs.Prelude.{◌≡◌, None};
    ghost use Rattle.pg_layout.specs.Places.{Each};
    ghost use Rattle.pg_config.specs.Settings.{Settings as Parts, next_number};
    ghost use Rattle.pg_config.specs.Inside.{HasCell};

    ghost Value = { Parts V };

    ghost view = { λ s. record { base = None; rows = s.rows; columns = s.columns; cells = s.cells } };

    ghost invariant = { λ s. (s.next ≡ next_number (record { base = None; rows = s.rows; columns = s.columns; cells = s.cells })) × Each (HasCell s.extent) s.cells };
}

impl<V, A: Allocator> NamedSettings<V, A> {
    #[inline(always)]
    fn is_empty(&self) -> bool
        ensures { result ≡ is_for_all self.now }
    {
        self.cells.is_empty() && self.rows.is_empty() && self.columns.is_empty()
    }

    // Whether something was set, for all places or not.
    fn is_set(&self, is_based: bool) -> bool
        ensures { result ≡ ((is_based || has_some self.now.cells) || (has_some self.now.rows || has_some self.now.columns)) }
    {
        is_based || !self.cells.is_empty() || !self.rows.is_empty() || !self.columns.is_empty()
    }

    // The setting of a place, found by searches: the latest of those of its cell, its row and its column, or
    // that of all places.
    #[tactic(auto, unfolding(crate::specs::Settings::setting_of))]
    fn find<'a>(&'a self, base: &'a Option<V>, pos: Position) -> Option<&'a V>
        ensures { option_map (λ x. x.now) result ≡ setting_of (with_base base.now self.now) pos }
    {
        let line = latest(self.rows.get(pos.row), self.columns.get(pos.col));
        value_or(base, latest(self.of_cell(pos), line))
    }

    // That of the cell alone. Most places lie outside of the rows and columns where cells have one.
    #[inline(always)]
    fn of_cell(&self, pos: Position) -> Option<&(usize, V)>
        ensures { option_map (λ x. x.now) result ≡ value_at by_place pos self.now.cells }
    {
        if self.extent.holds(pos) {
            return self.cells.get(pos);
        }
        None
    }
}

impl<V: Drop, A: Allocator> NamedSettings<V, A> {
    // No setting, whose memory comes from there.
    fn new(alloc: &A) -> Result<NamedSettings<V, A>, AllocError>
    where
        A: Clone,
        ensures { IfOk result (λ s. s ≡ no_settings) }
    {
        let rows = alloc.clone()?;
        let columns = alloc.clone()?;
        let cells = alloc.clone()?;
        Ok(NamedSettings {
            rows: Places::new(rows),
            columns: Places::new(columns),
            cells: Places::new(cells),
            extent: Extent::none(),
            next: 0,
        })
    }

    // Sets a value for the places of an entity. One for all places only deletes all others.
    #[tactic(auto, unfolding(crate::specs::Settings::with_setting))]
    fn set(&mut self, entity: Entity, value: V) -> Result<(), AllocError>
    where
        A: Clone,
        ensures ok { OnOk result (self.new ≡ with_base None (with_setting entity value self.old)) }
        ensures err { OnErr result (self.new ≡ self.old) }
        ensures again { entity ≢ Entity.Global → HasRoom entity self.old → IsOk result }
    {
        match entity {
            Entity::Global => {
                self.rows.clear();
                self.columns.clear();
                self.cells.clear();
                self.extent = Extent::none();
                self.next = 0;
                Ok(())
            }
            Entity::Row(row) => set_next(&mut self.rows, &mut self.next, row, value),
            Entity::Column(col) => set_next(&mut self.columns, &mut self.next, col, value),
            Entity::Cell(row, col) => {
                let pos = Position { row, col };
                set_next(&mut self.cells, &mut self.next, pos, value)?;
                self.extent = self.extent.with_rows(row, row, col);
                Ok(())
            }
        }
    }
}

// Sets the value of the key with the next number, and increments the number.
fn set_next<K: Key, V: Drop, A: Allocator + Clone>(
    places: &mut Places<K, (usize, V), A>,
    next: &mut usize,
    key: K,
    value: V,
) -> Result<(), AllocError>
    ensures places { OnOk result (places.new ≡ with_place K.order key (next.old, value) places.old) }
    ensures next { OnOk result (next.new ≡ suc next.old) }
    ensures same_places { OnErr result (places.new ≡ places.old) }
    ensures same_next { OnErr result (next.new ≡ next.old) }
    ensures again { IsSome (value_at K.order key places.old) → next.old < 2 ^ 64 - 1 → IsOk result }
{
    let number = *next;
    let Some(after) = number.checked_add(1) else {
        return Err(AllocError);
    };
    places.set(key, (number, value))?;
    *next = after;
    Ok(())
}

fn latest<'a, V>(a: Option<&'a (usize, V)>, b: Option<&'a (usize, V)>) -> Option<&'a (usize, V)>
    ensures { option_map (λ x. x.now) result ≡ latest (option_map (λ x. x.now) a.entry) (option_map (λ x. x.now) b.entry) }
{
    match (a, b) {
        (None, _) => b,
        (_, None) => a,
        (Some(first), Some(second)) => { if first.0 < second.0 { b } else { a } }
    }
}

fn value_or<'a, V>(base: &'a Option<V>, setting: Option<&'a (usize, V)>) -> Option<&'a V>
    ensures { option_map (λ x. x.now) result ≡ value_or base.now (option_map (λ x. x.now) setting.entry) }
{
    match setting {
        Some(setting) => Some(&setting.1),
        None => base.as_ref(),
    }
}
