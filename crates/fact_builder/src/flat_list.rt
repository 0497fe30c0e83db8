//! The flat types of one type in one width of memory.

ghost use Rattle.std.specs.Prelude.{◌≡◌, ◌<◌, ◌≤◌, ◌↔◌, ◌++◌, ◌∷◌, [], length, replicate, slice_get, IsTrue, true, false};
ghost use Rattle.fact_types.specs.FlatShapes.{joined, times, upto};
ghost use Rattle.fact_types.specs.declared.flats.FlatType.TheVariants as flat;
ghost use Rattle.fact_builder.specs.Joins.{joined_at, item};

use fact_types::{FlatType, MAX_FLAT_TYPES};
use std::marker::Model;

/// At most 16 flat types. Contracts see it as their list.
#[derive(Drop)]
pub(crate) struct FlatList {
    types: [FlatType; MAX_FLAT_TYPES],
    len: usize,
}

impl Model for FlatList {
    ghost use Rattle.std.specs.Prelude.{List, take, ◌≤◌};
    ghost use Rattle.fact_types.specs.declared.flats.FlatType.{FlatType};

    ghost Value = { List FlatType };

    ghost view = { λ f. take f.len f.types };

    ghost invariant = { λ f. f.len ≤ 16 };
}

impl FlatList {
    /// No flat types.
    pub(crate) fn new() -> FlatList
        ensures { result ≡ [] }
    {
        FlatList {
            types: [FlatType::I32; MAX_FLAT_TYPES],
            len: 0,
        }
    }

    /// So many words of 32 bits, or `None` above 16.
    pub(crate) fn words(count: usize) -> Option<FlatList>
        ensures { result ≡ upto 16 (replicate count flat.I32) }
    {
        if count > MAX_FLAT_TYPES {
            return None;
        }
        Some(FlatList {
            types: [FlatType::I32; MAX_FLAT_TYPES],
            len: count,
        })
    }

    /// The same flat types.
    pub(crate) fn copied(&self) -> FlatList
        ensures same { result ≡ self.now }
        ensures few { length self.now ≤ 16 }
    {
        FlatList {
            types: self.types,
            len: self.len,
        }
    }

    /// The flat types as a slice.
    pub(crate) fn as_slice(&self) -> &[FlatType]
        ensures types { result.now ≡ self.now }
        ensures few { length self.now ≤ 16 }
    {
        &self.types[..self.len]
    }

    /// Puts a flat type behind the last one, or answers false where there are 16.
    pub(crate) fn push(&mut self, ty: FlatType) -> bool
        ensures room { IsTrue result ↔ (length self.old < 16) }
        ensures taken { result ≡ true → self.new ≡ self.old ++ ty ∷ [] }
        ensures refused { result ≡ false → self.new ≡ self.old }
    {
        if self.len == MAX_FLAT_TYPES {
            return false;
        }
        self.types[self.len] = ty;
        self.len += 1;
        true
    }

    /// Puts a flat type, if there is one, behind the last one.
    fn push_any(&mut self, ty: Option<FlatType>)
        requires { length self.old < 16 }
        ensures { self.new ≡ self.old ++ item ty }
    {
        if let Some(ty) = ty {
            self.push(ty);
        }
    }

    /// These flat types and then others, or `None` above 16.
    pub(crate) fn followed_by(&self, others: &[FlatType]) -> Option<FlatList>
        ensures { result ≡ upto 16 (self.now ++ others.now) }
    {
        let mut all = self.copied();
        for ty in others {
            if !all.push(*ty) {
                return None;
            }
        }
        Some(all)
    }

    /// These flat types joined with others place by place.
    pub(crate) fn joined_with(&self, others: &FlatList) -> FlatList
        ensures { result ≡ joined self.now others.now }
    {
        let first = self.as_slice();
        let second = others.as_slice();
        let mut all = FlatList::new();
        for place in 0..MAX_FLAT_TYPES {
            all.push_any(join_at(type_at(first, place), type_at(second, place)));
        }
        all
    }

    /// These flat types so many times, or `None` above 16.
    pub(crate) fn repeated(&self, count: u32) -> Option<FlatList>
        ensures { result ≡ upto 16 (times count self.now) }
    {
        let mut all = FlatList::new();
        if self.len == 0 {
            return Some(all);
        }
        for _ in 0..count {
            all = self.followed_by(all.as_slice())?;
        }
        Some(all)
    }
}

/// The flat type at a place, if there is one.
fn type_at(types: &[FlatType], place: usize) -> Option<FlatType>
    ensures { result ≡ slice_get types.now place }
{
    types.get(place).copied()
}

/// What stands at a place of two joined lists of flat types.
fn join_at(first: Option<FlatType>, second: Option<FlatType>) -> Option<FlatType>
    ensures { result ≡ joined_at first second }
{
    match (first, second) {
        (Some(a), Some(b)) => {
            let mut ty = a;
            ty.join(b);
            Some(ty)
        }
        (Some(a), None) => Some(a),
        (None, other) => other,
    }
}
