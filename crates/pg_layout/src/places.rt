//! Values by key, in a tree.

ghost use Rattle.std.specs.Prelude.{◌≡◌, ◌==◌, false, [], List, Option, None, option_map, length, OnOk, OnErr, IfOk, IsOk, IsSome};
ghost use Rattle.std.specs.Map.Iter.{ShowsInOrder, deref_pair};
ghost use Rattle.pg_layout.specs.Places.{value_at, with_place, without_place, exchanged, last_up_to, last_before, next_from, between, before, IsAscending};

use crate::keys::Key;
use std::alloc::{AllocError, Allocator, Global};
use std::collections::BTreeMap;
use std::collections::btree_map::{Iter, Range};
use std::marker::Model;

/// Values by key, at most one for each key, in the order of the keys.
#[derive(Debug, Drop)]
pub struct Places<K: Key, V, A: Allocator = Global> {
    // A tree: in a list each value that is set out of order would move those after it.
    entries: BTreeMap<K, V, A>,
}

impl<K: Key, V, A: Allocator> Model for Places<K, V, A> {
    ghost Value = { List (K × V) };

    ghost view = { λ p. p.entries.entries };

    ghost invariant = { λ p. IsAscending K.order p.entries.entries };
}

impl<K: Key, V, A: Allocator> Places<K, V, A> {
    /// No entries. Allocates nothing.
    pub fn new(alloc: A) -> Places<K, V, A>
        ensures { result ≡ [] }
    {
        Places {
            entries: BTreeMap::new(alloc),
        }
    }

    /// All entries, in the order of their keys.
    pub fn iter(&self) -> Iter<'_, K, V>
        ensures all { result ≡ self.now }
        ensures runs { ShowsInOrder (deref_pair {K = K} {X = V}) }
        ensures ascending { IsAscending K.order self.now }
    {
        self.entries.iter()
    }

    /// Shows a proof that the keys ascend. It does nothing when it runs.
    #[inline(always)]
    pub fn stand_in_order(&self)
        ensures { IsAscending K.order self.now }
    {
        // Looking inside shows it.
        let _count = self.entries.len();
    }

    /// Whether there is no entry.
    #[inline(always)]
    pub fn is_empty(&self) -> bool
        ensures { result ≡ (length self.now == 0) }
    {
        self.entries.len() == 0
    }

    /// The value of this key.
    #[inline(always)]
    pub fn get(&self, key: K) -> Option<&V>
        ensures { option_map (λ x. x.now) result ≡ value_at K.order key self.now }
    {
        if self.is_empty() {
            return None;
        }
        self.find(key)
    }

    // The value of a key, found by a search of the entries.
    fn find(&self, key: K) -> Option<&V>
        ensures { option_map (λ x. x.now) result ≡ value_at K.order key self.now }
    {
        self.entries.get(&key)
    }

    /// The last entry whose key is at most this one.
    pub fn last_up_to(&self, key: K) -> Option<(K, &V)>
        ensures { option_map (λ e. (e.0, e.1.now)) result ≡ last_up_to K.order key self.now }
    {
        let mut entries = self.entries.range(..=key);
        match entries.next_back() {
            Some((key, value)) => Some((*key, value)),
            None => None,
        }
    }

    /// The last entry whose key is below this one.
    pub fn last_before(&self, key: K) -> Option<(K, &V)>
        ensures { option_map (λ e. (e.0, e.1.now)) result ≡ last_before K.order key self.now }
    {
        let mut entries = self.entries.range(..key);
        match entries.next_back() {
            Some((key, value)) => Some((*key, value)),
            None => None,
        }
    }

    /// The first entry whose key is at least this one.
    pub fn next_from(&self, key: K) -> Option<(K, &V)>
        ensures { option_map (λ e. (e.0, e.1.now)) result ≡ next_from K.order key self.now }
    {
        let mut entries = self.entries.range(key..);
        match entries.next() {
            Some((key, value)) => Some((*key, value)),
            None => None,
        }
    }

    /// The first key that is at least this one.
    #[inline(always)]
    pub fn first_key_from(&self, key: K) -> Option<K>
        ensures { result ≡ option_map (λ e. e.0) (next_from K.order key self.now) }
    {
        if self.is_empty() {
            return None;
        }
        self.find_key_from(key)
    }

    // The first key that is at least this one, found by a search of the entries. There is none
    // after the last one, which costs less to find.
    fn find_key_from(&self, key: K) -> Option<K>
        ensures { result ≡ option_map (λ e. e.0) (next_from K.order key self.now) }
    {
        let (last, _) = self.entries.last_key_value()?;
        if last.cmp(&key).is_lt() {
            return None;
        }
        let (found, _) = self.next_from(key)?;
        Some(found)
    }

    /// The entries whose keys lie between two keys, these included, in the order of their keys.
    ///
    /// Precondition: the second key isn't before the first one. Compare them first.
    pub fn between(&self, from: K, to: K) -> Range<'_, K, V>
        requires { before K.order to from ≡ false }
        ensures all { result ≡ between K.order from to self.now }
        ensures runs { ShowsInOrder (deref_pair {K = K} {X = V}) }
    {
        self.entries.range(from..=to)
    }
}

impl<K: Key, V: Drop, A: Allocator> Places<K, V, A> {
    /// Sets the value of a key, in place of an old one.
    ///
    /// Allocates only for a new key. If memory is refused, nothing changes.
    pub fn set(&mut self, key: K, value: V) -> Result<(), AllocError>
    where
        A: Clone,
        ensures ok { OnOk result (self.new ≡ with_place K.order key value self.old) }
        ensures err { OnErr result (self.new ≡ self.old) }
        ensures old_key { IsSome (value_at K.order key self.old) → IsOk result }
    {
        self.put(key, value)?;
        Ok(())
    }

    /// Removes the entry of this key.
    pub fn remove(&mut self, key: K)
        ensures { self.new ≡ without_place K.order key self.old }
    {
        drop(self.take(key));
    }

    /// Sets the value of a key, or removes its entry if there is none, and returns the value that
    /// it had. Exchanging it for the returned one undoes the call.
    ///
    /// Allocates only for the value of a new key. If memory is refused, nothing changes.
    pub fn exchange(&mut self, key: K, value: Option<V>) -> Result<Option<V>, AllocError>
    where
        A: Clone,
        ensures ok { OnOk result (self.new ≡ exchanged K.order key value self.old) }
        ensures old { IfOk result (λ old. old ≡ value_at K.order key self.old) }
        ensures back { IfOk result (λ old. exchanged K.order key old self.new ≡ self.old) }
        ensures err { OnErr result (self.new ≡ self.old) }
        ensures old_key { IsSome (value_at K.order key self.old) → IsOk result }
        ensures taken { value ≡ None → IsOk result }
    {
        match value {
            Some(value) => self.put(key, value),
            None => Ok(self.take(key)),
        }
    }

    /// Removes all entries.
    pub fn clear(&mut self)
        ensures { self.new ≡ [] }
    {
        self.entries.clear();
    }

    // Sets the value of a key, and returns the one that it had.
    fn put(&mut self, key: K, value: V) -> Result<Option<V>, AllocError>
    where
        A: Clone,
        ensures ok { OnOk result (self.new ≡ with_place K.order key value self.old) }
        ensures old { IfOk result (λ old. old ≡ value_at K.order key self.old) }
        ensures back { IfOk result (λ old. exchanged K.order key old self.new ≡ self.old) }
        ensures err { OnErr result (self.new ≡ self.old) }
        ensures old_key { IsSome (value_at K.order key self.old) → IsOk result }
    {
        Ok(self.entries.insert(key, value)?)
    }

    // Removes the entry of this key, and returns its value.
    fn take(&mut self, key: K) -> Option<V>
        ensures now { self.new ≡ without_place K.order key self.old }
        ensures old { result ≡ value_at K.order key self.old }
        ensures back { exchanged K.order key result self.new ≡ self.old }
    {
        self.entries.remove(&key)
    }
}
