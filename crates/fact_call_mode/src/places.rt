//! Where a fused module imports what an adapter names, and the call of an adapter at these places.

ghost use Rattle.std.specs.Prelude.{◌≡◌, ◌<◌, ◌^◌, ℕ, All, IfOk, Some, false, length, option_map};
ghost use Rattle.fact_wasm.specs.declared.instr.FuncName.TheVariants as func_name;
ghost use Rattle.fact_types.specs.declared.import.Import.TheVariants as known;
ghost use Rattle.fact_types.specs.Adapters.{LinkedAdapter, Side, is_async, is_wide};
ghost use Rattle.fact_types.specs.Tables.{IsLive};
ghost use Rattle.fact_adapter_rules.specs.Linked.{HasSides, IsSideOf};
ghost use Rattle.fact_emit.specs.ImportSection.{imports_of, same_sort, sort_of};
ghost use Rattle.fact_emit.specs.PlacesOf.{place_among, same_import};
ghost use Rattle.fact_function_laws.specs.Names.{places_in};
ghost use Rattle.fact_assembly.specs.Exports.{exported_as};
ghost use Rattle.fact_host.specs.Contract.{AreTypesLive};
ghost use Rattle.fact_host.specs.Describes.{DescribesHostSide};
ghost use Rattle.fact_call_laws.specs.Carrying.{CallsAdapter};
ghost use Rattle.fact_call_mode.specs.Replies.{sort_of_kind};

use fact_abi::SideAbi;
use fact_adapter_rules::{Adapter, AdapterOptionsDfg};
use fact_host::{HostCall, HostSide};
use fact_module::{Fused, Import};
use fact_plan_types::PlanTypes;
use fact_types::{CoreDef, InterfaceType, MemoryOption, TypeFuncIndex};
use fact_wasm::{FuncName, ImportType, OutOfMemory, Seq, WasmModule};
use std::alloc::Global;

/// The kinds of imports, each of which is numbered apart.
#[derive(Clone, Copy)]
enum Kind {
    Function,
    Memory,
    Global,
}

fn is_of_kind(ty: &ImportType, kind: Kind) -> bool
    ensures { result ≡ same_sort (sort_of_kind kind) (sort_of ty.now) }
{
    match kind {
        Kind::Function => matches!(ty, ImportType::Func(_)),
        Kind::Memory => matches!(ty, ImportType::Memory { .. }),
        Kind::Global => matches!(ty, ImportType::Global { .. }),
    }
}

fn is_def(import: &Import, def: &CoreDef) -> bool
    ensures { result ≡ same_import (known.CoreDef def.now) import.now }
{
    match import {
        Import::CoreDef(other) => *def == *other,
        _ => false,
    }
}

/// The number of a core definition among the imports of a kind, or how many these are where it is none of them.
fn place_of(fused: &Fused, kind: Kind, def: &CoreDef) -> u32
    requires even { length fused.now.module.imports ≡ length fused.now.imports }
    requires few { length fused.now.module.imports < 2 ^ 32 }
    ensures { result ≡ place_among (known.CoreDef def.now) (imports_of (sort_of_kind kind) fused.now.module.imports fused.now.imports) }
{
    let known = fused.imports.as_slice();
    let mut number = 0;
    for (place, import) in fused.module.imports.as_slice().iter().enumerate() {
        if is_of_kind(&import.ty, kind) {
            if is_def(&known[place], def) {
                return number;
            }
            number += 1;
        }
    }
    number
}

/// The number of a memory that may be named, among the imported memories.
fn memory_place(fused: &Fused, memory: &Option<MemoryOption>) -> Option<u32>
    requires even { length fused.now.module.imports ≡ length fused.now.imports }
    requires few { length fused.now.module.imports < 2 ^ 32 }
    ensures { result ≡ option_map (λ m. (places_in fused.now.module fused.now.imports).memory m.def) memory.now }
{
    match memory {
        Some(memory) => Some(place_of(fused, Kind::Memory, &memory.def)),
        None => None,
    }
}

/// The number of a definition that may be named, among the imported functions.
fn function_place(fused: &Fused, def: &Option<CoreDef>) -> Option<u32>
    requires even { length fused.now.module.imports ≡ length fused.now.imports }
    requires few { length fused.now.module.imports < 2 ^ 32 }
    ensures { result ≡ option_map (λ d. (places_in fused.now.module fused.now.imports).function (known.CoreDef d)) def.now }
{
    match def {
        Some(def) => Some(place_of(fused, Kind::Function, def)),
        None => None,
    }
}

fn copied(alloc: Global, types: &[InterfaceType]) -> Result<Seq<InterfaceType>, OutOfMemory>
    ensures { IfOk result (λ copies. copies ≡ types.now) }
{
    let copies = Vec::from_slice(alloc, types)?;
    Ok(Seq::from_vec(copies))
}

fn is_memory64(memory: &Option<MemoryOption>) -> bool
    ensures { result ≡ is_wide memory.now }
{
    match memory {
        Some(memory) => memory.memory64,
        None => false,
    }
}

/// A side of an adapter, at the places of what it names.
fn host_side(
    alloc: Global,
    fused: &Fused,
    types: &PlanTypes,
    ty: TypeFuncIndex,
    options: &AdapterOptionsDfg,
) -> Result<HostSide, OutOfMemory>
    requires even { length fused.now.module.imports ≡ length fused.now.imports }
    requires few { length fused.now.module.imports < 2 ^ 32 }
    requires there { ty.number < length types.now.builder.tables.functions }
    ensures params_live { IfOk result (λ h. All (IsLive types.now.builder.tables) h.params) }
    ensures results_live { IfOk result (λ h. All (IsLive types.now.builder.tables) h.results) }
    ensures side { IfOk result (λ h. (s : Side) → IsSideOf types.now.builder ty options.now s → s.async_side ≡ false → DescribesHostSide types.now.builder.tables h (places_in fused.now.module fused.now.imports) s) }
{
    let params = copied(alloc, types.builder.params_of(ty))?;
    let results = copied(alloc, types.builder.results_of(ty))?;
    let flags = CoreDef::InstanceFlags(options.instance);
    Ok(HostSide {
        abi: SideAbi {
            memory64: is_memory64(&options.memory),
            encoding: options.string_encoding,
        },
        memory: memory_place(fused, &options.memory),
        realloc: function_place(fused, &options.realloc),
        flags: place_of(fused, Kind::Global, &flags),
        params,
        results,
    })
}

/// The number of the defined function that a module exports under a name.
pub(crate) fn func_named(module: &WasmModule, name: &str) -> u32
    requires { (k : ℕ) × (exported_as name.now «module».now.exports ≡ Some (func_name.Defined k)) }
    ensures { exported_as name.now «module».now.exports ≡ Some (func_name.Defined result) }
{
    for export in module.exports.as_slice() {
        if export.name.as_str() == name {
            match export.func {
                FuncName::Defined(number) => return number,
                FuncName::Import(_) => unreachable!(),
            }
        }
    }
    unreachable!()
}

/// The call of an adapter, whose function has this number.
pub(crate) fn host_call(
    alloc: Global,
    fused: &Fused,
    types: &PlanTypes,
    adapter: &Adapter,
    func: u32,
) -> Result<HostCall, OutOfMemory>
    requires even { length fused.now.module.imports ≡ length fused.now.imports }
    requires few { length fused.now.module.imports < 2 ^ 32 }
    requires linked { (a : LinkedAdapter) × HasSides types.now.builder adapter.now a }
    ensures live { IfOk result (λ c. AreTypesLive types.now.builder.tables c) }
    ensures calls { IfOk result (λ c. (a : LinkedAdapter) → HasSides types.now.builder adapter.now a → is_async a ≡ false → CallsAdapter fused.now.module fused.now.imports types.now.builder.tables c a func) }
{
    let lower = host_side(
        alloc,
        fused,
        types,
        adapter.lower_ty,
        &adapter.lower_options,
    )?;
    let lift = host_side(alloc, fused, types, adapter.lift_ty, &adapter.lift_options)?;
    Ok(HostCall {
        lower,
        lift,
        callee: place_of(fused, Kind::Function, &adapter.func),
        post_return: function_place(fused, &adapter.lift_options.post_return),
        func,
    })
}
