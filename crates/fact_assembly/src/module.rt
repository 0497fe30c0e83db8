//! A module to which adapters are added one after another.

ghost use Rattle.std.specs.Prelude.{◌≡◌, ◌↔◌, ◌++◌, ◌∷◌, ◌<◌, ◌≤◌, [], List, true, false, Err, length, IfErr, IfOk, IfSome, IsTrue, OnErr, OnOk};
ghost use Rattle.fact_wasm.specs.Ranges.{InRange};
ghost use Rattle.fact_binary.specs.Spelling.{Spells};
ghost use Rattle.fact_plan_types.specs.PlanTypes.{told};
ghost use Rattle.fact_plan_types.specs.declared.error.Place.TheVariants as place_at;
ghost use Rattle.fact_adapter_rules.specs.Linked.{IsLinked, NamesTypesOf};
ghost use Rattle.fact_assembly.specs.Adapted.{IsFaultlessFor, IsFirst, OfAdapter};
ghost use Rattle.fact_assembly.specs.Collected.{AreTaken, Extends, HasTaken, KeepsSettings, KeepsPromises, given_of, no_tree, result_tuple_of, taken_of};
ghost use Rattle.fact_types.specs.Adapters.{LinkedAdapter};
ghost use Rattle.fact_compound.specs.Entries.{tuple_of_results};
ghost use Rattle.fact_compound.specs.Helpers.{HelpersAreThere};
ghost use Rattle.fact_assembly.specs.Sound.{HasValidSides};
ghost use Rattle.fact_assembly.specs.Adding.{Adds};
ghost use Rattle.fact_assembly.specs.Faithful.{Promised, adapter_tunables};
ghost use Rattle.fact_emit.specs.ImportSection.{NamesImports};
ghost use Rattle.fact_compound.specs.Settings.{OnlySectionsChanged};
ghost use Rattle.fact_assembly.specs.ImportedData.{CanBeImported};
ghost use Rattle.fact_assembly.specs.Order.{IsOrdered};
ghost use Rattle.fact_assembly.specs.Taking.{IsFirstBehind, IsSoundBehind};

use crate::dfg::ComponentDfg;
use crate::importing::import_adapter;
use crate::taken::{TakenAdapter, copy_candidate};
use crate::typed::check_types;
use fact_adapter_rules::{AdapterChecks, Candidate, FuseError};
use fact_binary::encode;
use fact_builder::ComponentTypesBuilder;
use fact_compound::{ModuleState, compile};
use fact_emit::{Tunables, WasmFeatures};
use fact_entity::{AdapterId, EntityRef};
use fact_type_rules::FunctionTypes;
use fact_types::Import;
use fact_wasm::{OutOfMemory, Seq, WasmModule};
use std::alloc::{AllocError, Global};
use std::marker::Model;

/// A module to which adapters are added one after another, over the types of a builder. Contracts see it as the list of the
/// adapters that it took, its tree, what its imports are, and what it was made with.
pub struct Module<'a> {
    alloc: Global,
    types: FunctionTypes<'a>,
    checks: AdapterChecks<'a>,
    taken: Vec<TakenAdapter>,
    state: ModuleState<'a>,
    // False once a want of memory left the state in parts.
    whole: bool,
}

impl<'a> Model for Module<'a> {
    ghost use Rattle.fact_assembly.specs.Collected.{Collected, IsMade};
    ghost use Rattle.fact_emit.specs.States.{module_of};
    ghost use Rattle.fact_wasm.specs.contracts.instr.Instr as instr;
    ghost use Rattle.std.specs.Prelude.{◌≡◌};
    ghost use Rattle.std.specs.Coded.{codes};

    ghost Value = { Collected };

    ghost coded = { Prim.hlevel (codes, instr.the_row.coded) };

    ghost view = { λ m. record { builder = m.state.builder.now; tunables = m.state.tunables.now; features = m.state.features; taken = m.taken.items; tree = module_of m.state.sections; imports = m.state.sections.imports; whole = m.whole } };

    ghost invariant = { λ m. IsMade (record { builder = m.state.builder.now; tunables = m.state.tunables.now; features = m.state.features; taken = m.taken.items; tree = module_of m.state.sections; imports = m.state.sections.imports; whole = m.whole }) m.checks m.state.sections × (m.types ≡ m.state.builder.now) };
}

// It ends by a function of its own, so that crates that end one prove nothing of its parts.
impl Drop for Module<'_> {
    fn drop(self) {
        let Module {
            alloc: _,
            types,
            checks,
            taken,
            state,
            whole: _,
        } = self;
        drop(types);
        drop(checks);
        drop(taken);
        drop(state);
    }
}

/// Whether an error is a want of memory.
fn is_memory(error: FuseError) -> bool
    ensures { IsTrue result ↔ (error ≡ FuseError.OutOfMemory) }
{
    matches!(error, FuseError::OutOfMemory)
}

/// Imports what an adapter names, and adds its functions.
fn add_adapter(state: &mut ModuleState<'_>, candidate: &Candidate<'_>) -> Result<(), OutOfMemory>
    requires typed { NamesTypesOf state.old.builder.now candidate.now.adapter.now }
    requires importable { CanBeImported state.old.builder.now candidate.now state.old.sections }
    requires linked { (a : LinkedAdapter) × IsLinked state.old.builder.now candidate.now a }
    requires helpers { HelpersAreThere state.old.builder.now.tables state.old.tunables.now.debug_adapter_modules state.old.tunables.now.concurrency_support state.old.tunables.now.fuel state.old.sections }
    ensures added { OnOk result ((a : LinkedAdapter) → IsLinked state.old.builder.now candidate.now a → Adds state.old.builder.now.tables (adapter_tunables state.old.tunables.now state.old.features) (given_of state.old.builder.now state.old.tunables.now) state.old.sections state.new.sections a (tuple_of_results state.old.builder.now.tables candidate.now.adapter.now.lift_ty)) }
    ensures keeps { OnlySectionsChanged state.old state.new }
{
    let imported = import_adapter(&mut state.sections, state.builder, candidate)?;
    let compiled = compile(state, &imported);
    drop(imported);
    compiled
}

/// Adds an adapter to those that were taken.
fn push_taken(
    alloc: Global,
    taken: &mut Vec<TakenAdapter>,
    candidate: &Candidate<'_>,
) -> Result<(), OutOfMemory>
    ensures taken { OnOk result (taken.new.items ≡ taken.old.items ++ taken_of candidate.now ∷ []) }
    ensures refused { OnErr result (taken.new.items ≡ taken.old.items) }
{
    let copy = copy_candidate(alloc, candidate)?;
    match taken.push(copy) {
        Ok(()) => Ok(()),
        Err(copy) => {
            drop(copy);
            Err(AllocError)
        }
    }
}

/// Takes an adapter that is checked: adds its code, and a copy of it to those that were taken.
fn take_checked(
    alloc: Global,
    state: &mut ModuleState<'_>,
    taken: &mut Vec<TakenAdapter>,
    candidate: &Candidate<'_>,
) -> Result<(), OutOfMemory>
    requires typed { NamesTypesOf state.old.builder.now candidate.now.adapter.now }
    requires importable { CanBeImported state.old.builder.now candidate.now state.old.sections }
    requires linked { (a : LinkedAdapter) × IsLinked state.old.builder.now candidate.now a }
    requires helpers { HelpersAreThere state.old.builder.now.tables state.old.tunables.now.debug_adapter_modules state.old.tunables.now.concurrency_support state.old.tunables.now.fuel state.old.sections }
    ensures taken { OnOk result (taken.new.items ≡ taken.old.items ++ taken_of candidate.now ∷ []) }
    ensures emitted { OnOk result ((a : LinkedAdapter) → IsLinked state.old.builder.now candidate.now a → Adds state.old.builder.now.tables (adapter_tunables state.old.tunables.now state.old.features) (given_of state.old.builder.now state.old.tunables.now) state.old.sections state.new.sections a (tuple_of_results state.old.builder.now.tables candidate.now.adapter.now.lift_ty)) }
    ensures keeps { OnlySectionsChanged state.old state.new }
    ensures refused { OnErr result (taken.new.items ≡ taken.old.items) }
{
    add_adapter(state, candidate)?;
    push_taken(alloc, taken, candidate)
}

impl<'a> Module<'a> {
    /// A module without adapters, over the types of a builder. It takes no memory.
    pub fn new(
        alloc: Global,
        types: &'a ComponentTypesBuilder,
        tunables: &'a Tunables,
        features: WasmFeatures,
    ) -> Module<'a>
        requires fuel { 1 ≤ tunables.now.fuel }
        ensures { result ≡ record { builder = types.now; tunables = tunables.now; features = features; taken = []; tree = no_tree; imports = []; whole = true } }
    {
        types.reveal();
        Module {
            alloc,
            types: FunctionTypes::new(alloc, types),
            checks: AdapterChecks::new(alloc, types, tunables.concurrency_support),
            taken: Vec::new(alloc),
            state: ModuleState::new(alloc, types, tunables, features),
            whole: true,
        }
    }

    /// Takes an adapter, whose types are in the builder and have no fault, behind those that were taken, or tells its first
    /// fault, with its number as place. After a want of memory the module is whole no more. [`Module::adapt`] takes one whose
    /// types were not looked at.
    pub fn take(&mut self, number: u32, candidate: &Candidate<'_>) -> Result<(), FuseError>
        requires whole { self.old.whole ≡ true }
        requires typed { NamesTypesOf self.old.builder candidate.now.adapter.now }
        requires valid { (a : LinkedAdapter) → IsLinked self.old.builder candidate.now a → HasValidSides a }
        ensures keeps { KeepsSettings self.old self.new }
        ensures taken { OnOk result (HasTaken self.old self.new (taken_of candidate.now)) }
        ensures extends { OnOk result (Extends self.old self.new) }
        ensures sound { OnOk result (IsSoundBehind self.old candidate.now) }
        ensures lost { result ≡ Err FuseError.OutOfMemory → self.new.whole ≡ false }
        ensures refused { IfErr result (λ e. IfSome (told e) (λ x. (self.new ≡ self.old) × IsFirstBehind self.old candidate.now x.0 × (x.1 ≡ place_at.Adapter number))) }
    {
        self.state.builder.reveal();
        self.state.builder.component_types().reveal();
        if let Err(error) = self.checks.check(number, candidate) {
            if is_memory(error) {
                self.whole = false;
            }
            return Err(error);
        }
        match take_checked(self.alloc, &mut self.state, &mut self.taken, candidate) {
            Ok(()) => Ok(()),
            Err(_) => {
                self.whole = false;
                Err(FuseError::OutOfMemory)
            }
        }
    }

    /// Takes the adapter of an id, which is live, under a name, behind those that were taken, or tells its first fault behind
    /// them, with the id's number as place; the types are judged as they stand in the builder. After a refusal but
    /// `OutOfMemory` the module is as before; after `OutOfMemory` it is whole no more, and answers nothing else.
    pub fn adapt(
        &mut self,
        name: &str,
        component: &ComponentDfg,
        adapter: AdapterId,
    ) -> Result<(), FuseError>
        requires live { adapter.number < length component.now.adapters }
        ensures keeps { KeepsSettings self.old self.new }
        ensures taken { OnOk result (OfAdapter component.now adapter name.now (HasTaken self.old self.new)) }
        ensures extends { OnOk result (Extends self.old self.new) }
        ensures faultless { OnOk result (OfAdapter component.now adapter name.now (IsFaultlessFor self.old adapter.number)) }
        ensures refused { IfErr result (λ e. IfSome (told e) (λ x. (self.new ≡ self.old) × OfAdapter component.now adapter name.now (λ t. IsFirst self.old adapter.number t x.0) × (x.1 ≡ place_at.Adapter adapter.number))) }
        ensures lost { result ≡ Err FuseError.OutOfMemory → self.new.whole ≡ false }
        ensures spent { self.old.whole ≡ false → result ≡ Err FuseError.OutOfMemory }
    {
        if !self.whole {
            return Err(FuseError::OutOfMemory);
        }
        let candidate = component.candidate(name, adapter);
        let number = adapter.as_u32();
        if let Err(error) = check_types(
            self.state.builder,
            &mut self.types,
            number,
            candidate.adapter,
        ) {
            if is_memory(error) {
                self.whole = false;
            }
            return Err(error);
        }
        self.take(number, &candidate)
    }

    /// A copy of the module of the adapters so far. `OutOfMemory` is the one refusal; it comes for good once [`Module::adapt`]
    /// answered it.
    pub fn build(&mut self) -> Result<WasmModule, FuseError>
        ensures unchanged { self.new ≡ self.old }
        ensures built { IfOk result (λ m. m ≡ self.old.tree) }
        ensures promised { OnOk result (KeepsPromises self.old) }
        ensures memory { IfErr result (λ e. e ≡ FuseError.OutOfMemory) }
        ensures lost { self.old.whole ≡ false → result ≡ Err FuseError.OutOfMemory }
    {
        if !self.whole {
            return Err(FuseError::OutOfMemory);
        }
        Ok(self.state.sections.copy()?)
    }

    /// The bytes of the module of the adapters so far (core specification, "Binary Format"), as [`Module::build`].
    pub fn encode(&mut self) -> Result<Vec<u8>, FuseError>
        ensures unchanged { self.new ≡ self.old }
        ensures spelled { IfOk result (λ bytes. Spells bytes.items self.old.tree) }
        ensures promised { OnOk result (KeepsPromises self.old) }
        ensures memory { IfErr result (λ e. e ≡ FuseError.OutOfMemory) }
        ensures lost { self.old.whole ≡ false → result ≡ Err FuseError.OutOfMemory }
    {
        let module = self.build()?;
        let bytes = encode(self.alloc, &module);
        drop(module);
        Ok(bytes?)
    }

    /// The module, and what its imports are, where it is whole.
    pub fn into_parts(self) -> Result<(WasmModule, Seq<Import>), OutOfMemory>
        requires { self.whole ≡ true }
        ensures parts { IfOk result (λ parts. (parts.0 ≡ self.entry.tree) × (parts.1 ≡ self.entry.imports)) }
        ensures in_range { IfOk result (λ parts. InRange parts.0) }
        ensures promised { IfOk result (λ parts. (adapters : List LinkedAdapter) → AreTaken self.entry adapters → Promised parts.0 self.entry.imports self.entry.tunables self.entry.features adapters (result_tuple_of self.entry)) }
    {
        let Module {
            alloc: _,
            types,
            checks,
            taken,
            state,
            whole: _,
        } = self;
        drop(types);
        drop(checks);
        drop(taken);
        let ModuleState { sections, .. } = state;
        sections.into_parts()
    }

    /// What the imports so far are, in the order of the import section.
    pub fn imports(&self) -> &[Import]
        ensures imports { result.now ≡ self.now.imports }
        ensures named { self.now.whole ≡ true → (adapters : List LinkedAdapter) → AreTaken self.now adapters → NamesImports self.now.tree result.now adapters }
        ensures ordered { self.now.whole ≡ true → (adapters : List LinkedAdapter) → AreTaken self.now adapters → IsOrdered self.now.tree result.now adapters }
    {
        self.state.imports()
    }
}
