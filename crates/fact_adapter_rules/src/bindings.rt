//! Core items that are bound to values.

ghost use Rattle.std.specs.Prelude.{◌≡◌, [], ◌∷◌, ◌++◌, List, true, take, length, IfOk, OnErr, IsTrue, IsFalse};
ghost use Rattle.fact_types.specs.declared.outside.CoreDef.{CoreDef};
ghost use Rattle.fact_adapter_rules.specs.Bindings.{Covers, IsBoundToAnother};
ghost use Rattle.fact_adapter_rules.specs.Fronts.{IsFront};

use fact_types::{CoreDef, OutOfMemory};
use indexmap::IndexMap;
use std::alloc::Global;
use std::marker::Model;

/// The core items that were bound so far, each to one value. Contracts see it as the list of its pairs of item and value,
/// in the order in which the items were bound first.
#[derive(Drop)]
pub struct Bindings<V> {
    values: IndexMap<CoreDef, V>,
}

impl<V> Model for Bindings<V> {
    ghost use Rattle.std.specs.Prelude.{List};
    ghost use Rattle.fact_types.specs.declared.outside.CoreDef.{CoreDef};
    ghost use Rattle.indexmap.specs.IndexMap.{IsUnique};

    ghost Value = { List (CoreDef × V) };

    ghost view = { λ b. b.values.entries };

    ghost invariant = { λ b. IsUnique ⟦<CoreDef as PartialEq>⟧.eq b.values };
}

impl<V> Bindings<V> {
    /// Nothing is bound. It takes no memory until the first item is bound.
    pub fn new(alloc: Global) -> Bindings<V>
        ensures { result ≡ [] }
    {
        Bindings {
            values: IndexMap::new(alloc),
        }
    }

    /// The number of items that are bound.
    pub fn len(&self) -> usize
        ensures { result ≡ length self.now }
    {
        self.values.len()
    }
}

impl<V: Eq + Drop> Bindings<V> {
    /// Binds an item to a value. Answers whether it is bound to this value now, anew or as before; where it is bound to
    /// another one, and where there is no memory, nothing changes.
    pub fn bind(&mut self, def: CoreDef, value: V) -> Result<bool, OutOfMemory>
        // Values that are equal by `==` are the same.
        requires exact { (a b : V) → V.eq a b ≡ true → a ≡ b }
        ensures bound { IfOk result (λ is_bound. IsTrue is_bound → (xs : List (CoreDef × V)) → Covers self.old xs → Covers self.new (xs ++ (def, value) ∷ [])) }
        ensures another { IfOk result (λ is_bound. IsFalse is_bound → (xs : List (CoreDef × V)) → Covers self.old xs → IsBoundToAnother xs def value) }
        ensures kept { IfOk result (λ is_bound. IsFalse is_bound → self.new ≡ self.old) }
        ensures refused { OnErr result (self.new ≡ self.old) }
        ensures front { IsFront self.old self.new }
    {
        if let Some(bound) = self.values.get(&def) {
            return Ok(*bound == value);
        }
        self.values.insert(def, value)?;
        Ok(true)
    }

    /// Forgets all but the first so many items. A number past the last one changes nothing.
    pub fn truncate(&mut self, len: usize)
        ensures { self.new ≡ take len self.old }
    {
        self.values.truncate(len);
    }
}
