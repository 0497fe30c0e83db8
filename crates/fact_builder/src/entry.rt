//! Entries of the tables that hold each type once.

ghost use Rattle.std.specs.Prelude.{◌≡◌, ◌↔◌, ◌<◌, ◌++◌, ◌∷◌, [], List, true, length, position, slice_get, IsSome, IsOk, IfOk, IfErr, OnOk, OnErr, Err, Some, None};
ghost use Rattle.fact_entity.specs.Places.{IsInterned};
ghost use Rattle.fact_types.specs.Tables.{Tables};
ghost use Rattle.fact_builder.specs.Keeps.{Keeps};

use crate::known_types::KnownTypes;
use fact_entity::{EntityRef, Interner, OutOfMemory, PushError};
use std::hash::Hash;

/// The most entries that a table holds.
const MAX_ENTRIES: usize = 4_294_967_295;

/// A type that stands in its table once.
pub(crate) trait Entry: Sized + Eq + Hash + Drop {
    /// The index of an entry.
    type Index: EntityRef;

    // the entries of the table
    ghost entries: { Tables → List Self };

    // the tables with other entries in the place of these
    ghost with_entries: { Tables → List Self → Tables };

    // an entry's members are live, and it is laid out as they are
    ghost stands: { Tables → Self → Type 0 };

    /// An equal entry.
    fn copied(&self) -> Result<Self, OutOfMemory>
        ensures { IfOk result (λ copy. copy ≡ self.now) };

    /// Puts the entry behind the last one of the table, where there is room. The tables are unchanged after a refusal.
    fn push(self, types: &mut KnownTypes, index: Self::Index) -> Result<Self::Index, PushError>
        requires stands { stands types.old self }
        requires index { Self.Index.number index ≡ length (entries types.old) }
        requires room { length (entries types.old) < 4294967295 }
        ensures table { OnOk result (types.new ≡ with_entries types.old (entries types.old ++ self ∷ [])) }
        ensures refused { OnErr result (types.new ≡ types.old) }
        ensures keeps { Keeps types.old types.new }
        ensures cause { IfErr result (λ e. e ≡ PushError.OutOfMemory) };

    // what is put in the place of the entries is then read there
    ghost entries_of_with: { (t : Tables) (es : List Self) → entries (with_entries t es) ≡ es };

    ghost with_its_entries: { (t : Tables) → with_entries t (entries t) ≡ t };

    // equal entries are the same
    ghost exact: { (a b : Self) → Self.eq a b ≡ true → a ≡ b };
}

/// Answers the index of the entry that is equal to this one; where there is none, puts this one behind the last of its
/// table and of the entries that are found by their value.
pub(crate) fn add<T: Entry>(
    types: &mut KnownTypes,
    known: &mut Interner<T::Index, T>,
    entry: T,
) -> Result<T::Index, PushError>
    requires known { known.old ≡ T.entries types.old }
    requires stands { T.stands types.old entry }
    ensures known { known.new ≡ T.entries types.new }
    ensures interned { IfOk result (λ k. IsInterned T.eq (T.entries types.old) (T.entries types.new) entry (T.Index.number k)) }
    ensures entry { IfOk result (λ k. slice_get (T.entries types.new) (T.Index.number k) ≡ Some entry) }
    ensures rest { types.new ≡ T.with_entries types.old (T.entries types.new) }
    ensures refused { OnErr result (types.new ≡ types.old) }
    ensures keeps { Keeps types.old types.new }
    ensures found { IsSome (position (T.eq entry) (T.entries types.old)) → IsOk result }
    ensures too_large { result ≡ Err PushError.TooLarge ↔ ((position (T.eq entry) (T.entries types.old) ≡ None) × (length (T.entries types.old) ≡ 4294967295)) }
{
    if let Some(index) = known.find(&entry) {
        return Ok(index);
    }
    if known.len() == MAX_ENTRIES {
        return Err(PushError::TooLarge);
    }
    let index = known.add_new(entry.copied()?)?;
    if let Err(error) = entry.push(types, index) {
        known.pop();
        return Err(error);
    }
    Ok(index)
}
