//! The core function types of a component's modules, each once.

ghost use Rattle.std.specs.Prelude.{◌≡◌, ◌↔◌, ◌<◌, ◌≤◌, ℕ, [], length, position, slice_get, option_copied, IfOk, OnOk, OnErr, Some, None, Err};
ghost use Rattle.std.specs.List.{IsDistinct};
ghost use Rattle.fact_entity.specs.Places.{IsInterned};
ghost use Rattle.fact_wasm.specs.declared.types.FuncType.{FuncType};

use fact_entity::{Interner, ModuleInternedTypeIndex, PushError};
use fact_wasm::FuncType;
use std::alloc::Global;
use std::marker::Model;
use std::ops::Index;

/// Core function types that are distinct, by index. Contracts see it as their list.
pub struct ModuleTypes {
    types: Interner<ModuleInternedTypeIndex, FuncType>,
}

// Written out, it is proved here once, where a derived one is proved anew in each crate that ends such a value.
impl Drop for ModuleTypes {
    fn drop(self) {
        let ModuleTypes { types } = self;
        drop(types);
    }
}

impl Model for ModuleTypes {
    ghost use Rattle.std.specs.Prelude.{List};
    ghost use Rattle.fact_wasm.specs.declared.types.FuncType.{FuncType};

    ghost Value = { List FuncType };

    ghost view = { λ m. m.types };
}

impl ModuleTypes {
    /// The number of types.
    pub fn len(&self) -> usize
        ensures count { result ≡ length self.now }
        ensures fits { result ≤ 4294967295 }
        ensures distinct { IsDistinct ⟦<FuncType as PartialEq>⟧.eq self.now }
    {
        self.types.len()
    }

    /// The type of an index, or `None` where the index is not live.
    pub fn get(&self, index: ModuleInternedTypeIndex) -> Option<&FuncType>
        ensures value { option_copied result ≡ slice_get self.now index.number }
        ensures none { (result ≡ None) ↔ (length self.now ≤ index.number) }
    {
        self.types.get(index)
    }
}

impl Index<ModuleInternedTypeIndex> for ModuleTypes {
    type Output = FuncType;

    ghost can_index = { λ m i. i.number < length m };

    ghost index_gives = { λ m i ty. slice_get m i.number ≡ Some ty };

    fn index(&self, index: ModuleInternedTypeIndex) -> &FuncType {
        &self.types[index]
    }
}

/// Module types to which types are added. Contracts see it as their list.
#[derive(Drop)]
pub struct ModuleTypesBuilder {
    types: Interner<ModuleInternedTypeIndex, FuncType>,
}

impl Model for ModuleTypesBuilder {
    ghost use Rattle.std.specs.Prelude.{List};
    ghost use Rattle.fact_wasm.specs.declared.types.FuncType.{FuncType};

    ghost Value = { List FuncType };

    ghost view = { λ m. m.types };
}

impl ModuleTypesBuilder {
    /// No types. The number of the source that the types come from has no part in what they are. It takes no memory.
    pub fn new(alloc: Global, _source: u64) -> ModuleTypesBuilder
        ensures { result ≡ [] }
    {
        ModuleTypesBuilder {
            types: Interner::new(alloc),
        }
    }

    /// Answers the index of the type that is equal to this one; where there is none, puts this one behind the last and
    /// answers its index. `TooLarge` comes exactly where the type is new and there are 4,294,967,295. The types are
    /// unchanged after a refusal.
    pub fn intern(&mut self, ty: FuncType) -> Result<ModuleInternedTypeIndex, PushError>
        ensures interned { IfOk result (λ k. IsInterned ⟦<FuncType as PartialEq>⟧.eq self.old self.new ty k.number) }
        ensures distinct { IsDistinct ⟦<FuncType as PartialEq>⟧.eq self.new }
        ensures refused { OnErr result (self.new ≡ self.old) }
        ensures too_large { result ≡ Err PushError.TooLarge ↔ ((position (⟦<FuncType as PartialEq>⟧.eq ty) self.old ≡ None) × (length self.old ≡ 4294967295)) }
    {
        self.types.add(ty)
    }

    /// The types, with their indices.
    pub fn finish(self) -> ModuleTypes
        ensures { result ≡ self }
    {
        let ModuleTypesBuilder { types } = self;
        ModuleTypes { types }
    }

    /// The number of types.
    pub fn len(&self) -> usize
        ensures count { result ≡ length self.now }
        ensures fits { result ≤ 4294967295 }
        ensures distinct { IsDistinct ⟦<FuncType as PartialEq>⟧.eq self.now }
    {
        self.types.len()
    }

    /// The type of an index, or `None` where the index is not live.
    pub fn get(&self, index: ModuleInternedTypeIndex) -> Option<&FuncType>
        ensures value { option_copied result ≡ slice_get self.now index.number }
        ensures none { (result ≡ None) ↔ (length self.now ≤ index.number) }
    {
        self.types.get(index)
    }
}

impl Index<ModuleInternedTypeIndex> for ModuleTypesBuilder {
    type Output = FuncType;

    ghost can_index = { λ m i. i.number < length m };

    ghost index_gives = { λ m i ty. slice_get m i.number ≡ Some ty };

    fn index(&self, index: ModuleInternedTypeIndex) -> &FuncType {
        &self.types[index]
    }
}
