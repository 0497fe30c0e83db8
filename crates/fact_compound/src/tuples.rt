//! The moves of parameters and of results, as tuples, from one side to the other: in core values, or through an area of memory.

ghost use Rattle.std.specs.Prelude.{OnOk, ◌≡◌, ◌<◌, ◌≤◌, Bool, List, is_some, length};
ghost use Rattle.fact_types.specs.FlatShapes.{AreCounted};
ghost use Rattle.fact_types.specs.Functions.{HasSignature};
ghost use Rattle.fact_types.specs.Shapes.{Shape};
ghost use Rattle.fact_types.specs.Signatures.{flat_values, lift_results_limit as lift_results_limit_of, lower_limit as lower_limit_of};
ghost use Rattle.fact_types.specs.Tables.{IsLive, HasShape};
ghost use Rattle.fact_types.specs.Tuples.{tuple_of, tuple_members};
ghost use Rattle.fact_types.specs.declared.interface.InterfaceType.TheVariants as ty;
ghost use Rattle.fact_actions.specs.Adapters.{lowered_flats};
ghost use Rattle.fact_emit.specs.Places.{slots_of_locals, from_of, to_of};
ghost use Rattle.fact_emit.specs.declared.places.LinearMemory as linear;
ghost use Rattle.fact_emit.specs.Requests.{IsReallocImported};
ghost use Rattle.fact_emit.specs.StringPieces.{AreSidesImported};
ghost use Rattle.fact_compound.specs.Passing.{last_local, tuple_from, tuple_to};
ghost use Rattle.fact_compound.specs.Passed.{MovedParams, PassedParams, AskedTuple, CheckedTuple, MovedResults, params_sides as sides_of_params, results_sides as sides_of_results};

use crate::adapters::AdapterData;
use fact_builder::ComponentTypesBuilder;
use fact_emit::{
    Address, LinearMemory, SourcePlace, TargetPlace, TypedLocal, Writer, ask_area, check_area,
};
use fact_entity::{TypeFuncIndex, TypeTupleIndex};
use fact_kinds::Fuel;
use fact_translate::move_tuple;
use fact_types::{
    ComponentTypes, InterfaceType, MAX_FLAT_PARAMS, MAX_FLAT_RESULTS, lift_results_limit,
    lower_limit,
};
use fact_wasm::OutOfMemory;

/// The tuples of the parameters and of the results of a live function.
pub(crate) fn tuples_of(
    types: &ComponentTypes,
    func: TypeFuncIndex,
) -> (TypeTupleIndex, TypeTupleIndex)
    requires { func.number < length types.now.functions }
    ensures params_live { IsLive types.now (ty.Tuple result.0) }
    ensures results_live { IsLive types.now (ty.Tuple result.1) }
    ensures params { (ps rs : List Shape) → HasSignature types.now func ps rs → HasShape types.now (ty.Tuple result.0) (tuple_of ps) }
    ensures results { (ps rs : List Shape) → HasSignature types.now func ps rs → HasShape types.now (ty.Tuple result.1) (tuple_of rs) }
{
    types.reveal();
    let entry = &types[func];
    (entry.params, entry.results)
}

/// Whether the values of a live tuple are flat: there are at most so many core values of them, of at most 16.
pub(crate) fn are_flat_values(types: &ComponentTypes, tuple: TypeTupleIndex, limit: usize) -> bool
    requires live { IsLive types.now (ty.Tuple tuple) }
    requires small { limit ≤ 16 }
    ensures { (memory64 : Bool) (ss : List Shape) → HasShape types.now (ty.Tuple tuple) (tuple_of ss) → AreCounted (tuple_members ss) → result ≡ is_some (flat_values memory64 limit ss) }
{
    match types.canonical_abi(&InterfaceType::Tuple(tuple)).flat_count {
        Some(count) => count as usize <= limit,
        None => false,
    }
}

/// Whether the parameters of a live tuple are flat where a side takes them that lowers.
fn are_flat_params(types: &ComponentTypes, tuple: TypeTupleIndex, async_: bool) -> bool
    requires { IsLive types.now (ty.Tuple tuple) }
    ensures { (memory64 : Bool) (ss : List Shape) → HasShape types.now (ty.Tuple tuple) (tuple_of ss) → AreCounted (tuple_members ss) → result ≡ is_some (flat_values memory64 (lower_limit_of async_) ss) }
{
    are_flat_values(types, tuple, lower_limit(async_))
}

/// Whether the results of a live tuple are flat where a side gives them that lifts.
fn are_flat_given(types: &ComponentTypes, tuple: TypeTupleIndex, async_: bool) -> bool
    requires { IsLive types.now (ty.Tuple tuple) }
    ensures { (memory64 : Bool) (ss : List Shape) → HasShape types.now (ty.Tuple tuple) (tuple_of ss) → AreCounted (tuple_members ss) → result ≡ is_some (flat_values memory64 (lift_results_limit_of async_) ss) }
{
    are_flat_values(types, tuple, lift_results_limit(async_))
}

/// Whether the results of a live tuple are flat where a side gets them that lowers: an async one gets all of them behind a pointer.
pub(crate) fn are_flat_results(types: &ComponentTypes, tuple: TypeTupleIndex, async_: bool) -> bool
    requires { IsLive types.now (ty.Tuple tuple) }
    ensures { (memory64 : Bool) (ss : List Shape) → HasShape types.now (ty.Tuple tuple) (tuple_of ss) → AreCounted (tuple_members ss) → result ≡ is_some (lowered_flats async_ memory64 ss) }
{
    if async_ {
        types.reveal();
        types[tuple].types.as_slice().is_empty()
    } else {
        are_flat_values(types, tuple, MAX_FLAT_RESULTS)
    }
}

/// The last of some locals, or 0 where there is none.
fn last_of(locals: &[TypedLocal]) -> u32
    ensures { result ≡ last_local (slots_of_locals locals.now) }
{
    let count = locals.len();
    if count == 0 {
        0
    } else {
        locals[count - 1].local
    }
}

/// Moves parameters, behind the check of the area of the lower side and the request of one of the lift side, where they are not flat
/// there.
pub fn move_params(
    types: &ComponentTypes,
    builder: &ComponentTypesBuilder,
    w: &mut Writer,
    fuel: &mut Fuel,
    adapter: &AdapterData,
    debug: bool,
    concurrency: bool,
    params: &[TypedLocal],
    core: &[TypedLocal],
) -> Result<(), OutOfMemory>
    requires lower_live { adapter.now.lower.ty.number < length types.now.functions }
    requires lift_live { adapter.now.lift.ty.number < length types.now.functions }
    requires sides { AreSidesImported (sides_of_params adapter.now debug concurrency) w.old.sections }
    requires tables { builder.now.tables ≡ types.now }
    ensures { OnOk result (MovedParams types.now adapter.now debug concurrency (slots_of_locals params.now) (slots_of_locals core.now) fuel.old fuel.new w.old w.new) }
{
    let sides = adapter.params_sides(debug, concurrency);
    let (from, _) = tuples_of(types, adapter.lower.ty);
    let (to, _) = tuples_of(types, adapter.lift.ty);
    let source_flat = are_flat_params(types, from, adapter.lower.options.async_);
    let flat = are_flat_values(types, to, MAX_FLAT_PARAMS);
    let source = tuple_source(source_flat, params);
    let target = tuple_target(flat, core, core);
    check_tuple_area(types, w, sides.from, from, source_flat, last_of(params))?;
    ask_tuple_area(types, w, concurrency, sides.to, to, flat, last_of(core))?;
    move_tuple(types, builder, w, fuel, sides, from, to, source, target)?;
    Ok(())
}

/// Moves parameters, where they are not handed on as they are.
pub fn pass_params(
    types: &ComponentTypes,
    builder: &ComponentTypesBuilder,
    w: &mut Writer,
    fuel: &mut Fuel,
    adapter: &AdapterData,
    debug: bool,
    concurrency: bool,
    passed: bool,
    params: &[TypedLocal],
    core: &[TypedLocal],
) -> Result<(), OutOfMemory>
    requires lower_live { adapter.now.lower.ty.number < length types.now.functions }
    requires lift_live { adapter.now.lift.ty.number < length types.now.functions }
    requires sides { AreSidesImported (sides_of_params adapter.now debug concurrency) w.old.sections }
    requires tables { builder.now.tables ≡ types.now }
    ensures { OnOk result (PassedParams types.now adapter.now debug concurrency passed (slots_of_locals params.now) (slots_of_locals core.now) fuel.old fuel.new w.old w.new) }
{
    if !passed {
        move_params(
            types,
            builder,
            w,
            fuel,
            adapter,
            debug,
            concurrency,
            params,
            core,
        )?;
    }
    Ok(())
}

/// Checks the area that values are passed through, where they are not flat.
fn check_tuple_area(
    types: &ComponentTypes,
    w: &mut Writer,
    linear: LinearMemory,
    tuple: TypeTupleIndex,
    flat: bool,
    address: u32,
) -> Result<(), OutOfMemory>
    requires { IsLive types.now (ty.Tuple tuple) }
    ensures { OnOk result (CheckedTuple types.now tuple linear flat address w.old w.new) }
{
    let abi = types.canonical_abi(&InterfaceType::Tuple(tuple));
    if !flat {
        if linear.memory64 {
            check_area(w, linear, address, abi.size64, abi.align64)?;
        } else {
            check_area(w, linear, address, abi.size32, abi.align32)?;
        }
    }
    Ok(())
}

/// Asks for an area that values are passed through, where they are not flat, and puts its address into a local.
fn ask_tuple_area(
    types: &ComponentTypes,
    w: &mut Writer,
    concurrency: bool,
    linear: LinearMemory,
    tuple: TypeTupleIndex,
    flat: bool,
    address: u32,
) -> Result<(), OutOfMemory>
    requires live { IsLive types.now (ty.Tuple tuple) }
    requires realloc { IsReallocImported linear w.old.sections }
    ensures { OnOk result (AskedTuple types.now tuple concurrency linear flat address w.old w.new) }
{
    let abi = types.canonical_abi(&InterfaceType::Tuple(tuple));
    if !flat {
        if linear.memory64 {
            ask_area(w, concurrency, linear, address, abi.size64, abi.align64)?;
        } else {
            ask_area(w, concurrency, linear, address, abi.size32, abi.align32)?;
        }
    }
    Ok(())
}

/// Where the values of a tuple stand.
pub(crate) fn tuple_source<'a>(flat: bool, given: &'a [TypedLocal]) -> SourcePlace<'a>
    ensures { (m : linear.LinearMemory) → from_of m result ≡ tuple_from m flat (slots_of_locals given.now) }
{
    if flat {
        SourcePlace::Locals(given)
    } else {
        SourcePlace::Memory(Address {
            local: last_of(given),
            offset: 0,
        })
    }
}

/// Where the values of a tuple go.
pub(crate) fn tuple_target<'a>(
    flat: bool,
    results: &'a [TypedLocal],
    args: &[TypedLocal],
) -> TargetPlace<'a>
    ensures { (m : linear.LinearMemory) → to_of m result ≡ tuple_to m flat (slots_of_locals results.now) (slots_of_locals args.now) }
{
    if flat {
        TargetPlace::Locals(results)
    } else {
        TargetPlace::Memory(Address {
            local: last_of(args),
            offset: 0,
        })
    }
}

/// Moves results, behind the checks of the areas that they are passed through.
pub fn move_results(
    types: &ComponentTypes,
    builder: &ComponentTypesBuilder,
    w: &mut Writer,
    fuel: &mut Fuel,
    adapter: &AdapterData,
    debug: bool,
    concurrency: bool,
    given: &[TypedLocal],
    results: &[TypedLocal],
    args: &[TypedLocal],
) -> Result<(), OutOfMemory>
    requires lower_live { adapter.now.lower.ty.number < length types.now.functions }
    requires lift_live { adapter.now.lift.ty.number < length types.now.functions }
    requires sides { AreSidesImported (sides_of_results adapter.now debug concurrency) w.old.sections }
    requires tables { builder.now.tables ≡ types.now }
    ensures { OnOk result (MovedResults types.now adapter.now debug concurrency (slots_of_locals given.now) (slots_of_locals results.now) (slots_of_locals args.now) fuel.old fuel.new w.old w.new) }
{
    let sides = adapter.results_sides(debug, concurrency);
    let (_, from) = tuples_of(types, adapter.lift.ty);
    let (_, to) = tuples_of(types, adapter.lower.ty);
    let given_flat = are_flat_given(types, from, adapter.lift.options.async_);
    let flat = are_flat_results(types, to, adapter.lower.options.async_);
    let source = tuple_source(given_flat, given);
    let target = tuple_target(flat, results, args);
    check_tuple_area(types, w, sides.from, from, given_flat, last_of(given))?;
    check_tuple_area(types, w, sides.to, to, flat, last_of(args))?;
    move_tuple(types, builder, w, fuel, sides, from, to, source, target)?;
    Ok(())
}
