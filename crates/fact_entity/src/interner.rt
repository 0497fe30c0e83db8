//! A table that holds each value once.

ghost use Rattle.std.specs.Prelude.{◌≡◌, ◌↔◌, ◌<◌, ◌≤◌, ◌++◌, ◌∷◌, [], ℕ, true, length, slice_get, option_copied, option_map, position, IfOk, IfSome, IfNone, OnOk, OnErr, MatchOption, Some, None, Err};
ghost use Rattle.std.specs.List.{position_or_len, IsDistinct};
ghost use Rattle.indexmap.specs.IndexSet.{insert_key};
ghost use Rattle.fact_entity.specs.Places.{IsInterned};

use crate::error::PushError;
use crate::key::{EntityRef, key_at};
use crate::map::MAX_ENTRIES;
use indexmap::IndexSet;
use std::alloc::Global;
use std::hash::Hash;
use std::marker::{Model, PhantomData};
use std::ops::Index;

/// A table of values that are distinct by `==`, in the order in which they came. Contracts see it as the list of its
/// values; a key is live where its number is below the length.
pub struct Interner<K: EntityRef, T: Eq + Hash> {
    values: IndexSet<T>,
    keys: PhantomData<K>,
}

impl<K: EntityRef, T: Eq + Hash> Model for Interner<K, T> {
    ghost use Rattle.std.specs.Prelude.{List, length, ◌≤◌};
    ghost use Rattle.indexmap.specs.IndexSet.{IsUnique, keys as keys_of};

    ghost Value = { List T };

    ghost view = { λ s. keys_of s.values };

    ghost invariant = { λ s. (length (keys_of s.values) ≤ 4294967295) × IsUnique T.eq s.values };
}

// Written out, it is proved here once, where a derived one is proved anew in each crate that ends a table.
impl<K: EntityRef, T: Drop + Eq + Hash> Drop for Interner<K, T> {
    fn drop(self) {
        let Interner { values, keys: _ } = self;
        drop(values);
    }
}

impl<K: EntityRef, T: Eq + Hash> Interner<K, T> {
    /// An empty table. It takes no memory until the first value is added.
    pub fn new(alloc: Global) -> Self
        ensures { result ≡ [] }
    {
        Interner {
            values: IndexSet::new(alloc),
            keys: PhantomData,
        }
    }

    /// The number of values.
    pub fn len(&self) -> usize
        ensures count { result ≡ length self.now }
        ensures fits { result ≤ 4294967295 }
        ensures distinct { IsDistinct T.eq self.now }
    {
        self.values.len()
    }

    /// The value of a key, or `None` where the key is not live.
    pub fn get(&self, k: K) -> Option<&T>
        ensures value { option_copied result ≡ slice_get self.now (K.number k) }
        ensures none { (result ≡ None) ↔ (length self.now ≤ K.number k) }
    {
        self.values.get_index(k.as_u32() as usize)
    }

    /// The key of the value that is equal to this one, or `None` where there is none.
    pub fn find(&self, value: &T) -> Option<K>
        ensures key { result ≡ option_map K.key (position (T.eq value.now) self.now) }
        ensures interned { IfSome result (λ k. IsInterned T.eq self.now self.now value.now (K.number k)) }
        ensures absent { IfNone result (position (T.eq value.now) self.now ≡ None) }
    {
        match self.values.get_index_of(value) {
            Some(place) => Some(key_at(place)),
            None => None,
        }
    }
}

impl<K: EntityRef, T: Eq + Hash + Drop> Interner<K, T> {
    /// Answers the key of the value that is equal to this one; where there is none, puts this one behind the last and
    /// answers its key. `TooLarge` comes exactly where the value is new and the table holds 4,294,967,295 values. The
    /// table is unchanged after a refusal.
    pub fn add(&mut self, value: T) -> Result<K, PushError>
        ensures interned { IfOk result (λ k. IsInterned T.eq self.old self.new value (K.number k)) }
        ensures distinct { IsDistinct T.eq self.new }
        ensures refused { OnErr result (self.new ≡ self.old) }
        ensures too_large { result ≡ Err PushError.TooLarge ↔ ((position (T.eq value) self.old ≡ None) × (length self.old ≡ 4294967295)) }
    {
        if self.values.len() == MAX_ENTRIES {
            return self.find(&value).ok_or(PushError::TooLarge);
        }
        let (place, _) = self.values.insert_full(value)?;
        Ok(key_at(place))
    }

    /// Puts a value that no value of the table is equal to behind the last one, and answers its key; else as
    /// [`Interner::add`].
    pub fn add_new(&mut self, value: T) -> Result<K, PushError>
        requires { position (T.eq value) self.old ≡ None }
        ensures interned { IfOk result (λ k. IsInterned T.eq self.old self.new value (K.number k)) }
        ensures key { IfOk result (λ k. K.number k ≡ length self.old) }
        ensures list { OnOk result (self.new ≡ self.old ++ value ∷ []) }
        ensures refused { OnErr result (self.new ≡ self.old) }
        ensures too_large { result ≡ Err PushError.TooLarge ↔ (length self.old ≡ 4294967295) }
    {
        self.add(value)
    }

    /// Takes the last value off, or answers `None` where there is none. Its key is then no longer live; the next new value
    /// gets it.
    pub fn pop(&mut self) -> Option<T>
        ensures { MatchOption result ((self.old ≡ []) × (self.new ≡ [])) (λ last. self.old ≡ self.new ++ last ∷ []) }
    {
        self.values.pop()
    }
}

impl<K: EntityRef, T: Eq + Hash> Index<K> for Interner<K, T> {
    type Output = T;

    ghost can_index = { λ m k. K.number k < length m };

    ghost index_gives = { λ m k value. slice_get m (K.number k) ≡ Some value };

    fn index(&self, k: K) -> &T {
        self.values.get_index(k.as_u32() as usize).unwrap()
    }
}
