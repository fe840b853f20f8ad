//! Values by key whose latest changes can be undone.

ghost use Rattle.std.specs.Prelude.{◌≡◌, [], None, OnOk, OnErr, IsOk};
ghost use Rattle.pg_layout.specs.Places.{with_some};
ghost use Rattle.pg_config.specs.Inside.{settled, settled_at};

use pg_layout::{Key, Places};
use std::alloc::{AllocError, Allocator, Global};
use std::marker::Model;

/// Room for so many notes is kept for the next changes, enough for the border of a cell.
const KEPT_NOTES: usize = 8;

/// Values by key, with notes of what each changed key held before.
///
/// A setter of several values makes its changes one after another, and settles them at its end:
/// they stay, or, if memory was refused for one of them, all are undone. Undoing allocates nothing:
/// a key that gets back a value is there, and any other one is removed.
#[derive(Debug, Drop)]
pub struct NotedPlaces<K: Key, V, A: Allocator = Global> {
    places: Places<K, V, A>,
    // What a changed key held, the latest change last.
    held: Vec<(K, Option<V>), A>,
}

impl<K: Key, V, A: Allocator> Model for NotedPlaces<K, V, A> {
    ghost use Rattle.std.specs.Prelude.{List};
    ghost use Rattle.pg_config.specs.Inside.{Noted, taken_back, CanTakeBack};

    ghost Value = { Noted (List (K × V)) };

    ghost view = { λ p. record { now = p.places; before = taken_back K.order p.held.items p.places } };

    ghost invariant = { λ p. CanTakeBack K.order p.held.items p.places };
}

impl<K: Key, V, A: Allocator + Copy> NotedPlaces<K, V, A> {
    /// No entries. Allocates nothing.
    pub fn new(alloc: A) -> NotedPlaces<K, V, A>
        ensures { result ≡ settled_at [] }
    {
        NotedPlaces {
            places: Places::new(alloc),
            held: Vec::new(alloc),
        }
    }
}

impl<K: Key, V, A: Allocator> NotedPlaces<K, V, A> {
    /// These entries, of which no change is noted. Allocates nothing.
    pub fn holding(alloc: A, places: Places<K, V, A>) -> NotedPlaces<K, V, A>
        ensures { result ≡ settled_at places }
    {
        NotedPlaces {
            places,
            held: Vec::new(alloc),
        }
    }

    /// The current entries.
    pub fn into_places(self) -> Places<K, V, A>
    where
        V: Drop,
        ensures { result ≡ self.now }
    {
        let NotedPlaces { places, held } = self;
        drop(held);
        places
    }

    /// The current values.
    #[inline(always)]
    pub fn places(&self) -> &Places<K, V, A>
        ensures { result.now ≡ self.now.now }
    {
        &self.places
    }
}

impl<K: Key, V: Drop, A: Allocator + Clone> NotedPlaces<K, V, A> {
    /// Reserves room for the notes of so many changes. Nothing else changes, whether there is room
    /// or not.
    pub fn reserve(&mut self, changes: usize) -> Result<(), AllocError>
        ensures { self.new ≡ self.old }
    {
        self.held.reserve(changes)
    }

    /// Sets the value of the key, if there is one, and notes what it held.
    ///
    /// If memory is refused, for the note or for a new key, nothing changes.
    pub fn put(&mut self, key: K, value: Option<V>) -> Result<(), AllocError>
        ensures ok { OnOk result (self.new.now ≡ with_some K.order key value self.old.now) }
        ensures err { OnErr result (self.new ≡ self.old) }
        ensures before { self.new.before ≡ self.old.before }
        ensures nothing { value ≡ None → IsOk result }
    {
        let Some(value) = value else {
            return Ok(());
        };
        self.held.reserve(1)?;
        let held = self.places.exchange(key, Some(value))?;
        let noted = self.held.push((key, held));
        drop(noted);
        Ok(())
    }

    /// Keeps the changes, or undoes them, and forgets the notes. Allocates nothing.
    pub fn settle(&mut self, stays: bool)
        ensures { self.new ≡ settled stays self.old }
    {
        if !stays {
            self.take_back();
        }
        self.held.clear();
        if self.held.capacity() > KEPT_NOTES {
            self.held.shrink_to_fit();
        }
    }

    // Restores what each changed key held, the latest change first.
    fn take_back(&mut self)
        ensures { self.new ≡ settled_at self.old.before }
    {
        while let Some((key, held)) = self.held.pop() {
            let done = self.places.exchange(key, held);
            drop(done);
        }
    }
}
