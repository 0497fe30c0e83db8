//! What the adapters so far have bound and exported, and whether one more can be used beside them.

ghost use Rattle.std.specs.Prelude.{◌≡◌, ◌↔◌, List, [], IfOk, IsFalse, IsTrue, length, take};
ghost use Rattle.std.specs.List.{flat_map};
ghost use Rattle.fact_adapter_rules.specs.Bindings.{AreAllDifferent, AreConsistent, Covers};
ghost use Rattle.fact_adapter_rules.specs.Fronts.{IsFront};
ghost use Rattle.fact_builder.specs.Builder.{Builder};
ghost use Rattle.fact_types.specs.Adapters.{LinkedAdapter};
ghost use Rattle.fact_adapter_rules.specs.AdapterRules.{HasBadMemory, HasDuplicateName, HasImportConflict, export_names, adapter_memories, reallocs_of, uses_of, with};
ghost use Rattle.fact_adapter_rules.specs.Linked.{HasSides, IsLinked, NamesTypesOf};

use crate::adapter::Adapter;
use crate::memories::cannot_use_memory;
use crate::names::{add_all, names};
use crate::sides::Candidate;
use crate::uses::{Use, bind_all, is_callee_twice, memories, reallocs, uses};
use crate::{Bindings, ExportNames};
use fact_builder::ComponentTypesBuilder;
use fact_wasm::OutOfMemory;
use std::alloc::Global;

/// What the adapters so far have bound and exported.
#[derive(Drop)]
pub struct Bound {
    // The memories and the reallocs, each with the instance of the side that names it.
    pub(crate) memories: Bindings<u32>,
    pub(crate) reallocs: Bindings<u32>,
    pub(crate) uses: Bindings<Use>,
    pub(crate) names: ExportNames,
}

/// How much was bound and exported at some time.
#[derive(Clone, Copy)]
pub(crate) struct Lengths {
    pub(crate) memories: usize,
    pub(crate) reallocs: usize,
    pub(crate) uses: usize,
    pub(crate) names: usize,
}

impl Bound {
    /// How much is bound and exported now.
    pub(crate) fn lengths(&self) -> Lengths
        ensures { result ≡ record { memories = length self.now.memories; reallocs = length self.now.reallocs; uses = length self.now.uses; names = length self.now.names } }
    {
        Lengths {
            memories: self.memories.len(),
            reallocs: self.reallocs.len(),
            uses: self.uses.len(),
            names: self.names.len(),
        }
    }

    /// Forgets all that was bound and exported behind these lengths.
    pub(crate) fn truncate(&mut self, lengths: Lengths)
        ensures { self.new ≡ record {
          memories = take lengths.memories self.old.memories;
          reallocs = take lengths.reallocs self.old.reallocs;
          uses = take lengths.uses self.old.uses;
          names = take lengths.names self.old.names;
        } }
    {
        self.memories.truncate(lengths.memories);
        self.reallocs.truncate(lengths.reallocs);
        self.uses.truncate(lengths.uses);
        self.names.truncate(lengths.names);
    }
}

/// Whether a memory of an adapter is named under another instance too. Where not, its memories are bound.
fn shares_memory(
    alloc: Global,
    bound: &mut Bindings<u32>,
    adapter: &Adapter,
) -> Result<bool, OutOfMemory>
    ensures exact { IfOk result (λ found. (b : Builder) (before : List LinkedAdapter) (a : LinkedAdapter) → HasSides b adapter.now a
        → Covers bound.old (flat_map adapter_memories before) → (IsTrue found ↔ (AreConsistent (flat_map adapter_memories (with before a)) → ⊥))) }
    ensures bound { IfOk result (λ found. IsFalse found → (b : Builder) (before : List LinkedAdapter) (a : LinkedAdapter) → HasSides b adapter.now a
        → Covers bound.old (flat_map adapter_memories before) → Covers bound.new (flat_map adapter_memories (with before a))) }
    ensures front { IsFront bound.old bound.new }
{
    let pairs = memories(alloc, adapter)?;
    let fits = bind_all(bound, pairs)?;
    Ok(!fits)
}

/// Whether a realloc of an adapter is named under another instance too. Where not, its reallocs are bound.
fn shares_realloc(
    alloc: Global,
    bound: &mut Bindings<u32>,
    adapter: &Adapter,
) -> Result<bool, OutOfMemory>
    ensures exact { IfOk result (λ found. (b : Builder) (before : List LinkedAdapter) (a : LinkedAdapter) → HasSides b adapter.now a
        → Covers bound.old (flat_map reallocs_of before) → (IsTrue found ↔ (AreConsistent (flat_map reallocs_of (with before a)) → ⊥))) }
    ensures bound { IfOk result (λ found. IsFalse found → (b : Builder) (before : List LinkedAdapter) (a : LinkedAdapter) → HasSides b adapter.now a
        → Covers bound.old (flat_map reallocs_of before) → Covers bound.new (flat_map reallocs_of (with before a))) }
    ensures front { IsFront bound.old bound.new }
{
    let pairs = reallocs(alloc, adapter)?;
    let fits = bind_all(bound, pairs)?;
    Ok(!fits)
}

/// Whether a memory or a realloc of an adapter is missing, cannot be used, or is named under another instance too. Where
/// not, they are bound.
pub(crate) fn has_bad_memory(
    alloc: Global,
    builder: &ComponentTypesBuilder,
    bound_memories: &mut Bindings<u32>,
    bound_reallocs: &mut Bindings<u32>,
    adapter: &Adapter,
) -> Result<bool, OutOfMemory>
    requires { NamesTypesOf builder.now adapter.now }
    ensures exact { IfOk result (λ found. (before : List LinkedAdapter) (a : LinkedAdapter) → HasSides builder.now adapter.now a
        → Covers bound_memories.old (flat_map adapter_memories before) → Covers bound_reallocs.old (flat_map reallocs_of before) → (IsTrue found ↔ HasBadMemory before a)) }
    ensures memories { IfOk result (λ found. IsFalse found → (before : List LinkedAdapter) (a : LinkedAdapter) → HasSides builder.now adapter.now a
        → Covers bound_memories.old (flat_map adapter_memories before) → Covers bound_memories.new (flat_map adapter_memories (with before a))) }
    ensures reallocs { IfOk result (λ found. IsFalse found → (before : List LinkedAdapter) (a : LinkedAdapter) → HasSides builder.now adapter.now a
        → Covers bound_reallocs.old (flat_map reallocs_of before) → Covers bound_reallocs.new (flat_map reallocs_of (with before a))) }
    ensures memories_front { IsFront bound_memories.old bound_memories.new }
    ensures reallocs_front { IsFront bound_reallocs.old bound_reallocs.new }
{
    if cannot_use_memory(builder, adapter)? {
        return Ok(true);
    }
    if shares_memory(alloc, bound_memories, adapter)? {
        return Ok(true);
    }
    shares_realloc(alloc, bound_reallocs, adapter)
}

/// Whether an adapter uses a definition as two things, or as another one than those before. Where not, they are bound.
pub(crate) fn has_import_conflict(
    alloc: Global,
    builder: &ComponentTypesBuilder,
    bound: &mut Bindings<Use>,
    adapter: &Adapter,
) -> Result<bool, OutOfMemory>
    requires { NamesTypesOf builder.now adapter.now }
    ensures exact { IfOk result (λ found. (before : List LinkedAdapter) (a : LinkedAdapter) → HasSides builder.now adapter.now a
        → Covers bound.old (flat_map uses_of before) → (IsTrue found ↔ HasImportConflict before a)) }
    ensures bound { IfOk result (λ found. IsFalse found → (before : List LinkedAdapter) (a : LinkedAdapter) → HasSides builder.now adapter.now a
        → Covers bound.old (flat_map uses_of before) → Covers bound.new (flat_map uses_of (with before a))) }
    ensures front { IsFront bound.old bound.new }
{
    if is_callee_twice(adapter) {
        return Ok(true);
    }
    let pairs = uses(alloc, builder, adapter)?;
    let fits = bind_all(bound, pairs)?;
    Ok(!fits)
}

/// Whether an adapter exports a name that is exported already, or twice. Where not, its names are exported.
pub(crate) fn has_duplicate_name(
    alloc: Global,
    builder: &ComponentTypesBuilder,
    exported: &mut ExportNames,
    candidate: &Candidate<'_>,
) -> Result<bool, OutOfMemory>
    requires { NamesTypesOf builder.now candidate.now.adapter.now }
    ensures exact { IfOk result (λ found. (before : List LinkedAdapter) (a : LinkedAdapter) → IsLinked builder.now candidate.now a
        → exported.old ≡ flat_map export_names before → AreAllDifferent exported.old → (IsTrue found ↔ HasDuplicateName before a)) }
    ensures names { IfOk result (λ found. IsFalse found → (before : List LinkedAdapter) (a : LinkedAdapter) → IsLinked builder.now candidate.now a
        → exported.old ≡ flat_map export_names before → exported.new ≡ flat_map export_names (with before a)) }
    ensures distinct { IfOk result (λ found. IsFalse found → AreAllDifferent exported.old → AreAllDifferent exported.new) }
    ensures front { IsFront exported.old exported.new }
{
    let names = names(alloc, builder, candidate)?;
    let fits = add_all(exported, names)?;
    Ok(!fits)
}
