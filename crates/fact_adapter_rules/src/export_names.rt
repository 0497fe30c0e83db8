//! The names that the adapters so far export, each once.

ghost use Rattle.std.specs.Prelude.{◌≡◌, ◌≢◌, [], ◌∷◌, ◌++◌, take, length, AllPairs, Contains, IfOk, OnErr, IsTrue, IsFalse};
ghost use Rattle.fact_adapter_rules.specs.Fronts.{IsFront};

use fact_types::OutOfMemory;
use fact_wasm::Text;
use indexmap::IndexSet;
use std::alloc::Global;
use std::marker::Model;

/// The names that were exported so far, all distinct. Contracts see it as the list of their bytes, in order.
#[derive(Drop)]
pub struct ExportNames {
    names: IndexSet<Text>,
}

impl Model for ExportNames {
    ghost use Rattle.std.specs.Prelude.{List, ℕ, nat_eq};
    ghost use Rattle.std.specs.Cmp.Lexicographic.{pointwise};
    ghost use Rattle.indexmap.specs.IndexSet.{IsUnique};

    ghost Value = { List (List ℕ) };

    ghost view = { λ n. n.names.keys };

    ghost invariant = { λ n. IsUnique (pointwise nat_eq) n.names };
}

impl ExportNames {
    /// No name is exported. It takes no memory until the first name is added.
    pub fn new(alloc: Global) -> ExportNames
        ensures { result ≡ [] }
    {
        ExportNames {
            names: IndexSet::new(alloc),
        }
    }

    /// The number of names.
    pub fn len(&self) -> usize
        ensures { result ≡ length self.now }
    {
        self.names.len()
    }

    /// Adds a name behind the last one, and answers true; answers false where the name is there already. Nothing changes
    /// then, and where there is no memory.
    pub fn add(&mut self, name: Text) -> Result<bool, OutOfMemory>
        ensures added { IfOk result (λ is_new. IsTrue is_new → self.new ≡ self.old ++ name ∷ []) }
        ensures known { IfOk result (λ is_new. IsFalse is_new → Contains self.old name) }
        ensures kept { IfOk result (λ is_new. IsFalse is_new → self.new ≡ self.old) }
        ensures refused { OnErr result (self.new ≡ self.old) }
        ensures front { IsFront self.old self.new }
        ensures distinct { AllPairs (λ x y. x ≢ y) self.new }
    {
        Ok(self.names.insert(name)?)
    }

    /// Forgets all but the first so many names. A number past the last one changes nothing.
    pub fn truncate(&mut self, len: usize)
        ensures { self.new ≡ take len self.old }
    {
        self.names.truncate(len);
    }
}
