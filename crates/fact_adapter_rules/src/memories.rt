//! Memories and reallocs that the sides of an adapter need.

ghost use Rattle.std.specs.Prelude.{◌≡◌, ◌≢◌, ◌↔◌, ◌<◌, ◌⊎◌, List, [], All, None, IfOk, IsNone, IsTrue, length};
ghost use Rattle.fact_entity.specs.declared.id.Id.{Id};
ghost use Rattle.fact_entity.specs.declared.table.TypeFuncs.{TypeFuncs};
ghost use Rattle.fact_types.specs.Functions.{HasSignature, HaveShapes};
ghost use Rattle.fact_types.specs.Shapes.{Shape};
ghost use Rattle.fact_types.specs.Tables.{IsLive};
ghost use Rattle.fact_builder.specs.Builder.{Builder};
ghost use Rattle.fact_types.specs.PointerPairs.{any_pointer_pair};
ghost use Rattle.fact_adapter_rules.specs.declared.adapter.AdapterOptionsDfg.{AdapterOptionsDfg as Options};
ghost use Rattle.fact_adapter_rules.specs.AdapterRules.{CannotUseMemory, HasOddMemory, HoldsPointer, IsByPointer, IsOdd, LacksMemory, LiftLacksMemory, LiftNeedsMemory, LiftNeedsRealloc, LiftParamsByPointer, LiftResultsByPointer, LowerLacksMemory, LowerNeedsMemory, LowerNeedsRealloc, LowerParamsByPointer, LowerResultsByPointer};
ghost use Rattle.fact_types.specs.Adapters.{LinkedAdapter, Side};
ghost use Rattle.fact_adapter_rules.specs.Linked.{HasSides, IsSideOf, NamesTypesOf};

use crate::adapter::{Adapter, AdapterOptionsDfg};
use crate::sides::{is_wide, params_tuple, results_tuple};
use fact_builder::ComponentTypesBuilder;
use fact_types::{
    InterfaceType, MAX_FLAT_PARAMS, MAX_FLAT_RESULTS, MemoryOption, TypeFuncIndex,
    lift_results_limit, lower_limit,
};
use fact_wasm::OutOfMemory;

/// Whether live types are passed to a side through a pointer: they have more flat types than a limit.
fn is_by_pointer(
    builder: &ComponentTypesBuilder,
    options: &AdapterOptionsDfg,
    limit: usize,
    types: &[InterfaceType],
) -> Result<bool, OutOfMemory>
    requires { All (IsLive builder.now.tables) types.now }
    ensures { IfOk result (λ found. (ss : List Shape) → HaveShapes builder.now.tables types.now ss → (IsTrue found ↔ IsByPointer options.now.memory limit ss)) }
{
    let flat = builder.flatten_types(is_wide(options), limit, types)?;
    Ok(flat.is_none())
}

/// Whether a parameter of a live function is or holds a string, a list or a map.
fn takes_pointer(builder: &ComponentTypesBuilder, ty: TypeFuncIndex) -> bool
    requires { ty.number < length builder.now.tables.functions }
    ensures { (params results : List Shape) → HasSignature builder.now.tables ty params results → result ≡ any_pointer_pair params }
{
    builder.ty_contains_pointer_pair(&params_tuple(builder, ty))
}

/// Whether a result of a live function is or holds a string, a list or a map.
fn gives_pointer(builder: &ComponentTypesBuilder, ty: TypeFuncIndex) -> bool
    requires { ty.number < length builder.now.tables.functions }
    ensures { (params results : List Shape) → HasSignature builder.now.tables ty params results → result ≡ any_pointer_pair results }
{
    builder.ty_contains_pointer_pair(&results_tuple(builder, ty))
}

/// Whether a parameter or a result of a function is or holds a string, a list or a map.
fn holds_pointer(builder: &ComponentTypesBuilder, ty: TypeFuncIndex) -> bool
    requires { ty.number < length builder.now.tables.functions }
    ensures { (params results : List Shape) → HasSignature builder.now.tables ty params results → (IsTrue result ↔ (HoldsPointer params ⊎ HoldsPointer results)) }
{
    takes_pointer(builder, ty) || gives_pointer(builder, ty)
}

/// Whether the parameters of a function that is lowered stand behind a pointer.
fn lower_params_by_pointer(
    builder: &ComponentTypesBuilder,
    ty: TypeFuncIndex,
    options: &AdapterOptionsDfg,
) -> Result<bool, OutOfMemory>
    requires { ty.number < length builder.now.tables.functions }
    ensures { IfOk result (λ found. (s : Side) → IsSideOf builder.now ty options.now s → (IsTrue found ↔ LowerParamsByPointer s)) }
{
    is_by_pointer(
        builder,
        options,
        lower_limit(options.async_),
        builder.params_of(ty),
    )
}

/// Whether a live function has results.
fn has_results(builder: &ComponentTypesBuilder, ty: TypeFuncIndex) -> bool
    requires { ty.number < length builder.now.tables.functions }
    ensures { (params results : List Shape) → HasSignature builder.now.tables ty params results → (IsTrue result ↔ (results ≢ [])) }
{
    !builder.results_of(ty).is_empty()
}

/// Whether the results of a function that is lowered stand behind a pointer.
fn lower_results_by_pointer(
    builder: &ComponentTypesBuilder,
    ty: TypeFuncIndex,
    options: &AdapterOptionsDfg,
) -> Result<bool, OutOfMemory>
    requires { ty.number < length builder.now.tables.functions }
    ensures { IfOk result (λ found. (s : Side) → IsSideOf builder.now ty options.now s → (IsTrue found ↔ LowerResultsByPointer s)) }
{
    if options.async_ {
        return Ok(has_results(builder, ty));
    }
    is_by_pointer(builder, options, MAX_FLAT_RESULTS, builder.results_of(ty))
}

/// Whether the parameters of a function that is lifted stand behind a pointer.
fn lift_params_by_pointer(
    builder: &ComponentTypesBuilder,
    ty: TypeFuncIndex,
    options: &AdapterOptionsDfg,
) -> Result<bool, OutOfMemory>
    requires { ty.number < length builder.now.tables.functions }
    ensures { IfOk result (λ found. (s : Side) → IsSideOf builder.now ty options.now s → (IsTrue found ↔ LiftParamsByPointer s)) }
{
    is_by_pointer(builder, options, MAX_FLAT_PARAMS, builder.params_of(ty))
}

/// Whether the results of a function that is lifted stand behind a pointer.
fn lift_results_by_pointer(
    builder: &ComponentTypesBuilder,
    ty: TypeFuncIndex,
    options: &AdapterOptionsDfg,
) -> Result<bool, OutOfMemory>
    requires { ty.number < length builder.now.tables.functions }
    ensures { IfOk result (λ found. (s : Side) → IsSideOf builder.now ty options.now s → (IsTrue found ↔ LiftResultsByPointer s)) }
{
    is_by_pointer(
        builder,
        options,
        lift_results_limit(options.async_),
        builder.results_of(ty),
    )
}

/// Whether a side that lowers a function needs a memory.
fn lower_needs_memory(
    builder: &ComponentTypesBuilder,
    ty: TypeFuncIndex,
    options: &AdapterOptionsDfg,
) -> Result<bool, OutOfMemory>
    requires { ty.number < length builder.now.tables.functions }
    ensures { IfOk result (λ found. (s : Side) → IsSideOf builder.now ty options.now s → (IsTrue found ↔ LowerNeedsMemory s)) }
{
    if lower_params_by_pointer(builder, ty, options)? {
        return Ok(true);
    }
    if lower_results_by_pointer(builder, ty, options)? {
        return Ok(true);
    }
    Ok(holds_pointer(builder, ty))
}

/// Whether a side that lifts a function needs a memory.
fn lift_needs_memory(
    builder: &ComponentTypesBuilder,
    ty: TypeFuncIndex,
    options: &AdapterOptionsDfg,
) -> Result<bool, OutOfMemory>
    requires { ty.number < length builder.now.tables.functions }
    ensures { IfOk result (λ found. (s : Side) → IsSideOf builder.now ty options.now s → (IsTrue found ↔ LiftNeedsMemory s)) }
{
    if lift_params_by_pointer(builder, ty, options)? {
        return Ok(true);
    }
    if lift_results_by_pointer(builder, ty, options)? {
        return Ok(true);
    }
    Ok(holds_pointer(builder, ty))
}

/// Whether a side that lifts a function needs a realloc.
fn lift_needs_realloc(
    builder: &ComponentTypesBuilder,
    ty: TypeFuncIndex,
    options: &AdapterOptionsDfg,
) -> Result<bool, OutOfMemory>
    requires { ty.number < length builder.now.tables.functions }
    ensures { IfOk result (λ found. (s : Side) → IsSideOf builder.now ty options.now s → (IsTrue found ↔ LiftNeedsRealloc s)) }
{
    if lift_params_by_pointer(builder, ty, options)? {
        return Ok(true);
    }
    Ok(takes_pointer(builder, ty))
}

/// Whether a side that lowers a function needs a realloc.
fn lower_needs_realloc(builder: &ComponentTypesBuilder, ty: TypeFuncIndex) -> bool
    requires { ty.number < length builder.now.tables.functions }
    ensures { (o : Options) (s : Side) → IsSideOf builder.now ty o s → (IsTrue result ↔ LowerNeedsRealloc s) }
{
    gives_pointer(builder, ty)
}

/// Whether the side that lifts lacks a memory or a realloc that it needs.
fn lift_lacks_memory(
    builder: &ComponentTypesBuilder,
    ty: TypeFuncIndex,
    options: &AdapterOptionsDfg,
) -> Result<bool, OutOfMemory>
    requires { ty.number < length builder.now.tables.functions }
    ensures { IfOk result (λ found. (s : Side) → IsSideOf builder.now ty options.now s → (IsTrue found ↔ LiftLacksMemory s)) }
{
    let needs_memory = lift_needs_memory(builder, ty, options)?;
    if options.memory.is_none() && needs_memory {
        return Ok(true);
    }
    let needs_realloc = lift_needs_realloc(builder, ty, options)?;
    Ok(options.realloc.is_none() && needs_realloc)
}

/// Whether the side that lowers lacks a memory or a realloc that it needs.
fn lower_lacks_memory(
    builder: &ComponentTypesBuilder,
    ty: TypeFuncIndex,
    options: &AdapterOptionsDfg,
) -> Result<bool, OutOfMemory>
    requires { ty.number < length builder.now.tables.functions }
    ensures { IfOk result (λ found. (s : Side) → IsSideOf builder.now ty options.now s → (IsTrue found ↔ LowerLacksMemory s)) }
{
    let needs_memory = lower_needs_memory(builder, ty, options)?;
    if options.memory.is_none() && needs_memory {
        return Ok(true);
    }
    let needs_realloc = lower_needs_realloc(builder, ty);
    Ok(options.realloc.is_none() && needs_realloc)
}

/// Whether a memory is shared, or of another page size than 1 or 65,536 bytes.
fn is_odd(memory: &MemoryOption) -> bool
    ensures { IsTrue result ↔ IsOdd memory.now }
{
    memory.shared || (memory.page_size_log2 != 0 && memory.page_size_log2 != 16)
}

/// Whether a side has a realloc without a memory, or a memory that is odd.
fn has_odd_memory(options: &AdapterOptionsDfg) -> bool
    ensures { (b : Builder) (ty : Id TypeFuncs) (s : Side) → IsSideOf b ty options.now s → (IsTrue result ↔ HasOddMemory s) }
{
    match &options.memory {
        Some(memory) => is_odd(memory),
        None => options.realloc.is_some(),
    }
}

/// Whether a side lacks a memory or a realloc that it needs.
fn lacks_needed_memory(
    builder: &ComponentTypesBuilder,
    adapter: &Adapter,
) -> Result<bool, OutOfMemory>
    requires { NamesTypesOf builder.now adapter.now }
    ensures { IfOk result (λ found. (linked : LinkedAdapter) → HasSides builder.now adapter.now linked → (IsTrue found ↔ LacksMemory linked)) }
{
    if lift_lacks_memory(builder, adapter.lift_ty, &adapter.lift_options)? {
        return Ok(true);
    }
    lower_lacks_memory(builder, adapter.lower_ty, &adapter.lower_options)
}

/// Whether a side has a realloc without a memory, or a memory that is odd.
fn has_any_odd_memory(adapter: &Adapter) -> bool
    ensures { (b : Builder) (linked : LinkedAdapter) → HasSides b adapter.now linked → (IsTrue result ↔ (HasOddMemory linked.lift ⊎ HasOddMemory linked.lower)) }
{
    has_odd_memory(&adapter.lift_options) || has_odd_memory(&adapter.lower_options)
}

/// Whether a side lacks a memory or a realloc that it needs, or has one that it cannot use.
pub(crate) fn cannot_use_memory(
    builder: &ComponentTypesBuilder,
    adapter: &Adapter,
) -> Result<bool, OutOfMemory>
    requires { NamesTypesOf builder.now adapter.now }
    ensures { IfOk result (λ found. (linked : LinkedAdapter) → HasSides builder.now adapter.now linked → (IsTrue found ↔ CannotUseMemory linked)) }
{
    if lacks_needed_memory(builder, adapter)? {
        return Ok(true);
    }
    Ok(has_any_odd_memory(adapter))
}
