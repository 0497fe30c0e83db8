//! What is wrong with an adapter's types and numbers, over a builder whose types no plan has judged.

ghost use Rattle.std.specs.Prelude.{◌≡◌, ◌↔◌, ◌⊎◌, ◌<◌, ◌≤◌, IfErr, IfOk, IfSome, IsTrue, OnOk, length};
ghost use Rattle.fact_plan_types.specs.PlanTypes.{told};
ghost use Rattle.fact_plan_types.specs.TypeRules.{most_entries};
ghost use Rattle.fact_plan_types.specs.declared.error.Place.TheVariants as place_at;
ghost use Rattle.fact_adapter_rules.specs.AdapterRules.{most_instance};
ghost use Rattle.fact_types.specs.Adapters.{LinkedAdapter};
ghost use Rattle.fact_adapter_rules.specs.Linked.{HasSides, NamesTypesOf};
ghost use Rattle.fact_assembly.specs.Adapted.{IsBadFunctionType, IsLargeFunctionType};
ghost use Rattle.fact_assembly.specs.Typed.{HasSoundTypes, TypesHaveFirst};

use fact_adapter_rules::{Adapter, FuseError, MOST_INSTANCE, Place};
use fact_builder::ComponentTypesBuilder;
use fact_entity::EntityRef;
use fact_plan_types::MOST_ENTRIES;
use fact_type_rules::FunctionTypes;
use fact_types::{Lookup, TypeFuncIndex};
use fact_wasm::OutOfMemory;

/// Whether the function types and core types of an adapter are in a builder.
fn is_typed(builder: &ComponentTypesBuilder, adapter: &Adapter) -> bool
    ensures { IsTrue result ↔ NamesTypesOf builder.now adapter.now }
{
    let types = builder.component_types();
    let core_types = builder.module_types_builder();
    types.get(adapter.lift_ty).is_some()
        && types.get(adapter.lower_ty).is_some()
        && core_types.get(adapter.lift_options.core_type).is_some()
        && core_types.get(adapter.lower_options.core_type).is_some()
}

/// Whether the number of an adapter, or that of one of its instances, is too large.
fn has_large_number(number: u32, adapter: &Adapter) -> bool
    ensures { IsTrue result ↔ ((most_entries ≤ number) ⊎ ((most_instance < adapter.now.lift_options.instance.number) ⊎ (most_instance < adapter.now.lower_options.instance.number))) }
{
    number as usize >= MOST_ENTRIES
        || adapter.lift_options.instance.as_u32() > MOST_INSTANCE
        || adapter.lower_options.instance.as_u32() > MOST_INSTANCE
}

/// Whether a live function type is none, or a type in it is.
fn is_bad_type(
    builder: &ComponentTypesBuilder,
    types: &mut FunctionTypes<'_>,
    ty: TypeFuncIndex,
) -> Result<bool, OutOfMemory>
    requires same { types.old ≡ builder.now }
    requires live { ty.number < length builder.now.tables.functions }
    ensures same { types.new ≡ types.old }
    ensures exact { IfOk result (λ found. IsTrue found ↔ IsBadFunctionType builder.now ty) }
{
    builder.reveal();
    builder.component_types().reveal();
    types.is_bad(ty)
}

/// Whether a live function type is too large, or a type in it is.
fn is_large_type(
    builder: &ComponentTypesBuilder,
    types: &mut FunctionTypes<'_>,
    ty: TypeFuncIndex,
) -> Result<bool, OutOfMemory>
    requires same { types.old ≡ builder.now }
    requires live { ty.number < length builder.now.tables.functions }
    ensures same { types.new ≡ types.old }
    ensures exact { IfOk result (λ found. IsTrue found ↔ IsLargeFunctionType builder.now ty) }
{
    builder.reveal();
    builder.component_types().reveal();
    types.is_large(ty)
}

/// Whether the function type of a side is none, or a type in one is.
fn has_bad_type(
    builder: &ComponentTypesBuilder,
    types: &mut FunctionTypes<'_>,
    adapter: &Adapter,
) -> Result<bool, OutOfMemory>
    requires same { types.old ≡ builder.now }
    requires typed { NamesTypesOf builder.now adapter.now }
    ensures same { types.new ≡ types.old }
    ensures exact { IfOk result (λ found. IsTrue found ↔ (IsBadFunctionType builder.now adapter.now.lift_ty ⊎ IsBadFunctionType builder.now adapter.now.lower_ty)) }
{
    if is_bad_type(builder, types, adapter.lift_ty)? {
        return Ok(true);
    }
    is_bad_type(builder, types, adapter.lower_ty)
}

/// Whether the function type of a side is too large, or a type in one is.
fn has_large_type(
    builder: &ComponentTypesBuilder,
    types: &mut FunctionTypes<'_>,
    adapter: &Adapter,
) -> Result<bool, OutOfMemory>
    requires same { types.old ≡ builder.now }
    requires typed { NamesTypesOf builder.now adapter.now }
    ensures same { types.new ≡ types.old }
    ensures exact { IfOk result (λ found. IsTrue found ↔ (IsLargeFunctionType builder.now adapter.now.lift_ty ⊎ IsLargeFunctionType builder.now adapter.now.lower_ty)) }
{
    if is_large_type(builder, types, adapter.lift_ty)? {
        return Ok(true);
    }
    is_large_type(builder, types, adapter.lower_ty)
}

/// Does nothing: it says that all that a typed adapter names can be looked up.
fn reveal_sides(builder: &ComponentTypesBuilder, adapter: &Adapter)
    requires { NamesTypesOf builder.now adapter.now }
    ensures { (a : LinkedAdapter) × HasSides builder.now adapter.now a }
{
    builder.reveal();
    builder.component_types().reveal();
}

/// Tells the first fault of an adapter by its types or its numbers, with its number as place.
pub fn check_types(
    builder: &ComponentTypesBuilder,
    types: &mut FunctionTypes<'_>,
    number: u32,
    adapter: &Adapter,
) -> Result<(), FuseError>
    requires { types.old ≡ builder.now }
    ensures same { types.new ≡ types.old }
    ensures sound { OnOk result (HasSoundTypes builder.now number adapter.now) }
    ensures refused { IfErr result (λ e. IfSome (told e) (λ x. TypesHaveFirst builder.now number adapter.now x.0 × (x.1 ≡ place_at.Adapter number))) }
{
    let place = Place::Adapter(number);
    if !is_typed(builder, adapter) {
        return Err(FuseError::UnknownIndex(place));
    }
    reveal_sides(builder, adapter);
    if has_bad_type(builder, types, adapter)? {
        return Err(FuseError::BadType(place));
    }
    if has_large_number(number, adapter) || has_large_type(builder, types, adapter)? {
        return Err(FuseError::TooLarge(place));
    }
    Ok(())
}
