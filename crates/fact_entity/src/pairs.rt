//! The entries of a table with their keys, one by one.

ghost use Rattle.std.specs.Prelude.{◌≡◌, ◌≤◌, length};
ghost use Rattle.std.specs.Iterator.{at_most};
ghost use Rattle.std.specs.Map.Iter.{TakesFirst};
ghost use Rattle.fact_entity.specs.Entries.{entries_from, shown};

use crate::key::{EntityRef, key_at};
use std::marker::{Model, PhantomData};
use std::slice;

/// The pairs of key and entry of a table, in order. Contracts see it as the list of the pairs that are left.
#[derive(Drop)]
pub struct Iter<'a, K: EntityRef, V> {
    entries: slice::Iter<'a, V>,
    number: usize,
    keys: PhantomData<K>,
}

impl<'a, K: EntityRef, V> Model for Iter<'a, K, V> {
    ghost use Rattle.std.specs.Prelude.{List, length, ◌+◌, ◌≤◌};
    ghost use Rattle.std.specs.Slice.Iter.{iter_rest};
    ghost use Rattle.fact_entity.specs.Entries.{entries_from};

    ghost Value = { List (K × V) };

    ghost view = { λ a. entries_from K.key a.number (iter_rest a.entries) };

    ghost invariant = { λ a. a.number + length (iter_rest a.entries) ≤ 4294967295 };
}

impl<'a, K: EntityRef, V> Iter<'a, K, V> {
    /// The pairs of a table of these entries.
    pub(crate) fn new(entries: &'a [V]) -> Self
        requires { length entries.now ≤ 4294967295 }
        ensures { result ≡ entries_from K.key 0 entries.now }
    {
        Iter {
            entries: entries.iter(),
            number: 0,
            keys: PhantomData,
        }
    }
}

impl<'a, K: EntityRef, V> Iterator for Iter<'a, K, V> {
    type Item = (K, &'a V);

    ghost next_gives = { TakesFirst shown };

    ghost remaining = { λ s. at_most (length s) };

    fn next(&mut self) -> Option<(K, &'a V)> {
        let entry = self.entries.next()?;
        let key = key_at(self.number);
        self.number += 1;
        Some((key, entry))
    }
}
