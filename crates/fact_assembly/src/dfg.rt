//! A user's own adapters, which no plan lists.

ghost use Rattle.std.specs.Prelude.{◌≡◌, ◌↔◌, ◌++◌, ◌∷◌, ◌<◌, [], Err, Some, length, slice_get, IfOk, OnErr, OnOk};
ghost use Rattle.fact_entity.specs.declared.error.PushError.TheVariants as push_error;
ghost use Rattle.fact_adapter_rules.specs.declared.adapter.Adapter.{Adapter};
ghost use Rattle.fact_assembly.specs.Adapted.{is_marked, with_mark};
ghost use Rattle.fact_assembly.specs.Collected.{taken_of};

use fact_adapter_rules::{Adapter, Candidate};
use fact_entity::{AdapterId, PrimaryMap, PushError};
use fact_wasm::Seq;
use std::alloc::Global;

/// The adapters of a component, and which of them are transparent to threads.
#[derive(Drop)]
pub struct ComponentDfg {
    pub adapters: PrimaryMap<AdapterId, Adapter>,
    pub transparent_adapters: Seq<AdapterId>,
}

impl ComponentDfg {
    /// No adapters. It takes no memory until the first one is added.
    pub fn new(alloc: Global) -> ComponentDfg
        ensures { result ≡ record { adapters = []; transparent_adapters = [] } }
    {
        ComponentDfg {
            adapters: PrimaryMap::new(alloc),
            transparent_adapters: Seq::new(alloc),
        }
    }

    /// Adds an adapter behind the last one, and answers its id, which is marked where the adapter is transparent. `TooLarge`
    /// comes exactly where there are 4,294,967,295 adapters. Nothing is changed after a refusal.
    pub fn add(&mut self, adapter: Adapter, transparent: bool) -> Result<AdapterId, PushError>
        ensures id { IfOk result (λ id. id.number ≡ length self.old.adapters) }
        ensures adapters { OnOk result (self.new.adapters ≡ self.old.adapters ++ adapter ∷ []) }
        ensures marks { IfOk result (λ id. self.new.transparent_adapters ≡ with_mark transparent id self.old.transparent_adapters) }
        ensures refused { OnErr result (self.new ≡ self.old) }
        ensures too_large { result ≡ Err push_error.TooLarge ↔ (length self.old.adapters ≡ 4294967295) }
    {
        if !transparent {
            return self.adapters.push(adapter);
        }
        if self.adapters.len() == MOST_ADAPTERS {
            drop(adapter);
            return Err(PushError::TooLarge);
        }
        if self
            .transparent_adapters
            .push(self.adapters.next_key())
            .is_err()
        {
            drop(adapter);
            return Err(PushError::OutOfMemory);
        }
        let added = self.adapters.push(adapter);
        if added.is_err() {
            self.transparent_adapters.pop();
        }
        added
    }

    /// The adapter of an id, which is live, with a name and its mark.
    pub(crate) fn candidate<'a>(&'a self, name: &'a str, id: AdapterId) -> Candidate<'a>
        requires { id.number < length self.now.adapters }
        ensures { (a : Adapter) → slice_get self.now.adapters id.number ≡ Some a
            → taken_of result ≡ record { name = name.now; transparent = is_marked id self.now.transparent_adapters; adapter = a } }
    {
        Candidate {
            name,
            transparent: self.transparent_adapters.as_slice().contains(&id),
            adapter: &self.adapters[id],
        }
    }
}

/// The most adapters of a component.
const MOST_ADAPTERS: usize = 4_294_967_295;
