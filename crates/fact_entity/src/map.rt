//! A table whose entries have keys of a type of their own.

ghost use Rattle.std.specs.Prelude.{◌≡◌, ◌↔◌, ◌<◌, ◌≤◌, ◌++◌, ◌∷◌, [], ℕ, length, slice_get, option_copied, IfOk, OnOk, OnErr, Some, None, Err};
ghost use Rattle.std.specs.Option.{option_copied_mut};
ghost use Rattle.std.specs.Map.Iter.{ShowsInOrder};
ghost use Rattle.std.specs.Borrow.{sem};
ghost use Rattle.fact_entity.specs.Entries.{entries_from, shown};
ghost use Rattle.fact_entity.specs.Lending.{LendsEntry};

use crate::error::PushError;
use crate::key::{EntityRef, key_at};
use crate::pairs::Iter;
use std::alloc::Global;
use std::marker::{Model, PhantomData};
use std::ops::Index;

/// The most entries that a table may hold, so that the next key is a `u32` too.
pub(crate) const MAX_ENTRIES: usize = 4_294_967_295;

/// A table whose keys are the places of its entries, counted from 0. Contracts see it as the list of its entries; a key
/// is live where its number is below the length.
pub struct PrimaryMap<K: EntityRef, V> {
    entries: Vec<V>,
    keys: PhantomData<K>,
}

impl<K: EntityRef, V> Model for PrimaryMap<K, V> {
    ghost use Rattle.std.specs.Prelude.{List, length, ◌≤◌};

    ghost Value = { List V };

    ghost view = { λ m. m.entries.items };

    ghost invariant = { λ m. length m.entries.items ≤ 4294967295 };
}

// Written out, it is proved here once, where a derived one is proved anew in each crate that ends a table.
impl<K: EntityRef, V: Drop> Drop for PrimaryMap<K, V> {
    fn drop(self) {
        let PrimaryMap { entries, keys: _ } = self;
        drop(entries);
    }
}

impl<K: EntityRef, V> PrimaryMap<K, V> {
    /// An empty table. It takes no memory until the first entry is pushed.
    pub fn new(alloc: Global) -> Self
        ensures { result ≡ [] }
    {
        PrimaryMap {
            entries: Vec::new(alloc),
            keys: PhantomData,
        }
    }

    /// The number of entries.
    pub fn len(&self) -> usize
        ensures count { result ≡ length self.now }
        ensures fits { result ≤ 4294967295 }
    {
        self.entries.len()
    }

    /// The key that the next entry gets.
    pub fn next_key(&self) -> K
        ensures { result ≡ K.key (length self.now) }
    {
        key_at(self.entries.len())
    }

    /// The entry of a key, or `None` where the key is not live.
    pub fn get(&self, k: K) -> Option<&V>
        ensures value { option_copied result ≡ slice_get self.now (K.number k) }
        ensures none { (result ≡ None) ↔ (length self.now ≤ K.number k) }
    {
        self.entries.get(k.as_u32() as usize)
    }

    /// The entry of a key, to change it, or `None` where the key is not live.
    pub fn get_mut(&mut self, k: K) -> Option<&mut V>
        ensures* writes_back { sem 𝓛 (LendsEntry K.row V.row K.EntityRef self.entry (K.number k) result) }
        ensures value { option_copied_mut result ≡ slice_get self.old (K.number k) }
        ensures none { (result ≡ None) ↔ (length self.old ≤ K.number k) }
    {
        self.entries.get_mut(k.as_u32() as usize)
    }

    /// The pairs of key and entry, in order.
    pub fn iter(&self) -> Iter<'_, K, V>
        ensures pairs { result ≡ entries_from K.key 0 self.now }
        ensures count { length result ≡ length self.now }
        ensures fits { length self.now ≤ 4294967295 }
        ensures runs { ShowsInOrder (shown {K = K} {V = V}) }
    {
        Iter::new(self.entries.as_slice())
    }
}

impl<K: EntityRef, V: Drop> PrimaryMap<K, V> {
    /// Puts an entry behind the last one, and answers its key. `TooLarge` comes exactly where the table holds
    /// 4,294,967,295 entries. The table is unchanged after a refusal.
    pub fn push(&mut self, value: V) -> Result<K, PushError>
        ensures key { IfOk result (λ k. k ≡ K.key (length self.old)) }
        ensures named { IfOk result (λ k. slice_get self.new (K.number k) ≡ Some value) }
        ensures list { OnOk result (self.new ≡ self.old ++ value ∷ []) }
        ensures keeps { (i : ℕ) (x : V) → slice_get self.old i ≡ Some x → slice_get self.new i ≡ Some x }
        ensures refused { OnErr result (self.new ≡ self.old) }
        ensures too_large { result ≡ Err PushError.TooLarge ↔ (length self.old ≡ 4294967295) }
    {
        if self.entries.len() == MAX_ENTRIES {
            return Err(PushError::TooLarge);
        }
        let k = self.next_key();
        self.entries.push(value)?;
        Ok(k)
    }
}

impl<K: EntityRef, V> Index<K> for PrimaryMap<K, V> {
    type Output = V;

    ghost can_index = { λ m k. K.number k < length m };

    ghost index_gives = { λ m k value. slice_get m (K.number k) ≡ Some value };

    fn index(&self, k: K) -> &V {
        &self.entries[k.as_u32() as usize]
    }
}
