//! [`translate`], which moves a value of any type, and the moves of nodes: records, tuples, variants, options, results, lists, maps and lists of fixed length.
//! They call one another, as types stand within one another. Of a member, `part` is where it stands in the source, and `spot` where it goes.

ghost use Rattle.std.specs.Prelude.{IfOk, None, OnOk, ◌≡◌, length};
ghost use Rattle.fact_types.specs.declared.interface.InterfaceType.TheVariants as ty;
ghost use Rattle.fact_types.specs.Tables.{IsLive, IsLiveMember};
ghost use Rattle.fact_code_laws.specs.Places.{InMemory, ToMemory};
ghost use Rattle.fact_emit.specs.Handles.{handle_transfer as transfer_of};
ghost use Rattle.fact_emit.specs.Places.{from_of, to_of};
ghost use Rattle.fact_emit.specs.StringPieces.{AreSidesImported};
ghost use Rattle.fact_kinds.specs.Asks.{AreSidesTold};
ghost use Rattle.fact_kinds.specs.Moved.{MovedNode, MovedTuple, MovedInPlace, MovedValue, MovedMember, IsLiveFound};
ghost use Rattle.fact_kinds.specs.MovedFixed.{MovedElements};
ghost use Rattle.fact_translate.specs.MovedSums.{IsLiveNumbered, MovedSome, MovedPayload, MovedCase, WroteBodies, MovedSumBy, MovedSum};
ghost use Rattle.fact_kinds.specs.MemberPairs.{ArePairs, MovedPairs};
ghost use Rattle.fact_kinds.specs.Sums.{IsSumOf};

use fact_builder::ComponentTypesBuilder;
use fact_emit::{
    Address, Sides, SourcePlace, TargetPlace, Writer, handle_transfer, move_handle, put_cases,
    read_number,
};
use fact_entity::{
    TypeFixedLengthListIndex, TypeListIndex, TypeMapIndex, TypeOptionIndex, TypeRecordIndex,
    TypeResultIndex, TypeTupleIndex, TypeVariantIndex,
};
use fact_kinds::{
    Elements, FixedElements, Fuel, MemberPair, PairedCase, Sum, alignment, byte_count, byte_place,
    call_helper, check_places, close_fixed, close_list, cost, discriminant_number, entries,
    flat_length, free_fixed_locals, free_list_locals, move_leaf, next_place, nth_source,
    nth_target, open_fixed, open_list, option_sum, pair_fields, pair_members, payload_place,
    put_discriminant, put_left_over, result_sum, take_fixed_locals, take_list_locals, value_place,
    variant_sum,
};
use fact_types::{ComponentTypes, FieldPlace, InterfaceType, VariantInfo};
use fact_wasm::{Instr, OutOfMemory, Seq, ValType};

/// Moves a value of a live type to a place of a type that it can be moved to. Where that costs more than the fuel that is left, a helper moves
/// it, unless none of the fuel was taken yet.
#[cycle(moving)]
pub fn translate(
    types: &ComponentTypes,
    builder: &ComponentTypesBuilder,
    w: &mut Writer,
    fuel: &mut Fuel,
    sides: Sides,
    from: InterfaceType,
    to: InterfaceType,
    source: SourcePlace<'_>,
    target: TargetPlace<'_>,
) -> Result<(), OutOfMemory>
    requires from_live { IsLive types.now from }
    requires to_live { IsLive types.now to }
    requires sides { AreSidesImported sides w.old.sections }
    requires tables { builder.now.tables ≡ types.now }
    requires told { AreSidesTold sides }
    ensures { OnOk result (MovedValue types.now from to sides (from_of sides.from source.entry) (to_of sides.to target.entry) fuel.old fuel.new w.old w.new) }
{
    if fuel.covers(cost(types, from)) {
        translate_in_place(types, builder, w, fuel, sides, from, to, source, target)?;
    } else {
        call_helper(builder, w, sides, from, to, source, target)?;
    }
    Ok(())
}

/// Moves a value by code of this function, which takes its cost from the fuel, but for members that cost more than what is left.
#[cycle(moving)]
pub fn translate_in_place(
    types: &ComponentTypes,
    builder: &ComponentTypesBuilder,
    w: &mut Writer,
    fuel: &mut Fuel,
    sides: Sides,
    from: InterfaceType,
    to: InterfaceType,
    source: SourcePlace<'_>,
    target: TargetPlace<'_>,
) -> Result<(), OutOfMemory>
    requires from_live { IsLive types.now from }
    requires to_live { IsLive types.now to }
    requires sides { AreSidesImported sides w.old.sections }
    requires tables { builder.now.tables ≡ types.now }
    requires told { AreSidesTold sides }
    ensures { OnOk result (MovedInPlace types.now from to sides (from_of sides.from source.entry) (to_of sides.to target.entry) fuel.old fuel.new w.old w.new) }
{
    fuel.take(cost(types, from));
    check_places(types, w, sides, from, to, source, target)?;
    match handle_transfer(from, to) {
        Some(transfer) => move_handle(w, sides, transfer, source, target)?,
        None => move_node(types, builder, w, fuel, sides, from, to, source, target)?,
    }
    Ok(())
}

/// Moves a value that is no handle, behind the checks of its places.
#[cycle(moving)]
fn move_node(
    types: &ComponentTypes,
    builder: &ComponentTypesBuilder,
    w: &mut Writer,
    fuel: &mut Fuel,
    sides: Sides,
    from: InterfaceType,
    to: InterfaceType,
    source: SourcePlace<'_>,
    target: TargetPlace<'_>,
) -> Result<(), OutOfMemory>
    requires from_live { IsLive types.now from }
    requires to_live { IsLive types.now to }
    requires sides { AreSidesImported sides w.old.sections }
    requires tables { builder.now.tables ≡ types.now }
    requires told { AreSidesTold sides }
    requires no_handle { transfer_of from to ≡ None }
    ensures { OnOk result (MovedNode types.now from to sides (from_of sides.from source.entry) (to_of sides.to target.entry) fuel.old fuel.new w.old w.new) }
{
    match from {
        InterfaceType::Record(i) => match to {
            InterfaceType::Record(j) => move_record(
                types, builder, w, fuel, sides, i, j, source, target,
            )?,
            _ => w.put(Instr::Unreachable)?,
        },
        InterfaceType::Tuple(i) => match to {
            InterfaceType::Tuple(j) => move_tuple(
                types, builder, w, fuel, sides, i, j, source, target,
            )?,
            _ => w.put(Instr::Unreachable)?,
        },
        InterfaceType::Variant(i) => match to {
            InterfaceType::Variant(j) => move_variant(
                types, builder, w, fuel, sides, i, j, source, target,
            )?,
            _ => w.put(Instr::Unreachable)?,
        },
        InterfaceType::Option(i) => match to {
            InterfaceType::Option(j) => move_option(
                types, builder, w, fuel, sides, i, j, source, target,
            )?,
            _ => w.put(Instr::Unreachable)?,
        },
        InterfaceType::Result(i) => match to {
            InterfaceType::Result(j) => move_result(
                types, builder, w, fuel, sides, i, j, source, target,
            )?,
            _ => w.put(Instr::Unreachable)?,
        },
        InterfaceType::List(i) => match to {
            InterfaceType::List(j) => move_list(
                types, builder, w, fuel, sides, i, j, source, target,
            )?,
            _ => w.put(Instr::Unreachable)?,
        },
        InterfaceType::Map(i) => match to {
            InterfaceType::Map(j) => move_map(
                types, builder, w, fuel, sides, i, j, source, target,
            )?,
            _ => w.put(Instr::Unreachable)?,
        },
        InterfaceType::FixedLengthList(i) => match to {
            InterfaceType::FixedLengthList(j) => {
                move_fixed_list(types, builder, w, fuel, sides, i, j, source, target)?
            }
            _ => w.put(Instr::Unreachable)?,
        },
        _ => move_leaf(types, w, sides, from, to, source, target)?,
    }
    Ok(())
}

/// Moves the fields of a record in the order of its destination, each from the source field of its name.
#[cycle(moving)]
fn move_record(
    types: &ComponentTypes,
    builder: &ComponentTypesBuilder,
    w: &mut Writer,
    fuel: &mut Fuel,
    sides: Sides,
    from: TypeRecordIndex,
    to: TypeRecordIndex,
    source: SourcePlace<'_>,
    target: TargetPlace<'_>,
) -> Result<(), OutOfMemory>
    requires from_live { IsLive types.now (ty.Record from) }
    requires to_live { IsLive types.now (ty.Record to) }
    requires sides { AreSidesImported sides w.old.sections }
    requires tables { builder.now.tables ≡ types.now }
    requires told { AreSidesTold sides }
    ensures { OnOk result (MovedNode types.now (ty.Record from) (ty.Record to) sides (from_of sides.from source.entry) (to_of sides.to target.entry) fuel.old fuel.new w.old w.new) }
{
    let pairs = pair_fields(w.alloc, types, from, to)?;
    let whole = InterfaceType::Record(to);
    let slice = pairs.as_slice();
    let moved = move_pairs(types, builder, w, fuel, sides, whole, slice, source, target);
    drop(pairs);
    moved
}

/// Moves the members of a tuple, each from the source member of its place, without a check of the tuple's own places.
#[cycle(moving)]
pub fn move_tuple(
    types: &ComponentTypes,
    builder: &ComponentTypesBuilder,
    w: &mut Writer,
    fuel: &mut Fuel,
    sides: Sides,
    from: TypeTupleIndex,
    to: TypeTupleIndex,
    source: SourcePlace<'_>,
    target: TargetPlace<'_>,
) -> Result<(), OutOfMemory>
    requires from_live { IsLive types.now (ty.Tuple from) }
    requires to_live { IsLive types.now (ty.Tuple to) }
    requires sides { AreSidesImported sides w.old.sections }
    requires tables { builder.now.tables ≡ types.now }
    requires told { AreSidesTold sides }
    ensures { OnOk result (MovedTuple types.now (ty.Tuple from) (ty.Tuple to) sides (from_of sides.from source.entry) (to_of sides.to target.entry) fuel.old fuel.new w.old w.new) }
{
    let pairs = pair_members(w.alloc, types, from, to)?;
    let whole = InterfaceType::Tuple(to);
    let slice = pairs.as_slice();
    let moved = move_pairs(types, builder, w, fuel, sides, whole, slice, source, target);
    drop(pairs);
    moved
}

/// Moves the members of a record or a tuple in the order of its destination, each from the source member that was found for it.
#[cycle(moving)]
fn move_pairs(
    types: &ComponentTypes,
    builder: &ComponentTypesBuilder,
    w: &mut Writer,
    fuel: &mut Fuel,
    sides: Sides,
    whole: InterfaceType,
    pairs: &[MemberPair],
    source: SourcePlace<'_>,
    target: TargetPlace<'_>,
) -> Result<(), OutOfMemory>
    requires pairs { ArePairs types.now whole pairs.now }
    requires sides { AreSidesImported sides w.old.sections }
    requires tables { builder.now.tables ≡ types.now }
    requires told { AreSidesTold sides }
    ensures { OnOk result (MovedPairs types.now whole pairs.now sides (from_of sides.from source.entry) (to_of sides.to target.entry) fuel.old fuel.new w.old w.new) }
{
    let mut rest = target;
    let mut end: u32 = 0;
    for pair in pairs {
        let place = next_place(types.canonical_abi(&pair.ty), sides.to.memory64, &mut end);
        let count = flat_length(types, &pair.ty);
        let spot = rest.part(0, count, place);
        move_member(
            types, builder, w, fuel, sides, pair.found, pair.ty, source, spot,
        )?;
        rest = rest.past(count);
    }
    Ok(())
}

/// Moves the elements of a list to a new region.
#[cycle(moving)]
fn move_list(
    types: &ComponentTypes,
    builder: &ComponentTypesBuilder,
    w: &mut Writer,
    fuel: &mut Fuel,
    sides: Sides,
    from: TypeListIndex,
    to: TypeListIndex,
    source: SourcePlace<'_>,
    target: TargetPlace<'_>,
) -> Result<(), OutOfMemory>
    requires from_live { IsLive types.now (ty.List from) }
    requires to_live { IsLive types.now (ty.List to) }
    requires sides { AreSidesImported sides w.old.sections }
    requires tables { builder.now.tables ≡ types.now }
    requires told { AreSidesTold sides }
    ensures { OnOk result (MovedNode types.now (ty.List from) (ty.List to) sides (from_of sides.from source.entry) (to_of sides.to target.entry) fuel.old fuel.new w.old w.new) }
{
    types.reveal();
    let from_ty = types[from].element;
    let to_ty = types[to].element;
    let elements = Elements {
        from_size: byte_count(types, &from_ty, sides.from.memory64),
        from_align: alignment(types, &from_ty, sides.from.memory64),
        to_size: byte_count(types, &to_ty, sides.to.memory64),
        to_align: alignment(types, &to_ty, sides.to.memory64),
    };
    let locals = take_list_locals(w, sides)?;
    open_list(w, sides, elements, locals, source)?;
    let outer = w.begin();
    let part = SourcePlace::Memory(Address {
        local: locals.source,
        offset: 0,
    });
    let spot = TargetPlace::Memory(Address {
        local: locals.target,
        offset: 0,
    });
    translate(types, builder, w, fuel, sides, from_ty, to_ty, part, spot)?;
    close_list(w, sides, elements, locals, outer, target)?;
    free_list_locals(w, locals)?;
    Ok(())
}

/// Moves the entries of a map to a new region, each by its key and its value.
#[cycle(moving)]
fn move_map(
    types: &ComponentTypes,
    builder: &ComponentTypesBuilder,
    w: &mut Writer,
    fuel: &mut Fuel,
    sides: Sides,
    from: TypeMapIndex,
    to: TypeMapIndex,
    source: SourcePlace<'_>,
    target: TargetPlace<'_>,
) -> Result<(), OutOfMemory>
    requires from_live { IsLive types.now (ty.Map from) }
    requires to_live { IsLive types.now (ty.Map to) }
    requires sides { AreSidesImported sides w.old.sections }
    requires tables { builder.now.tables ≡ types.now }
    requires told { AreSidesTold sides }
    ensures { OnOk result (MovedNode types.now (ty.Map from) (ty.Map to) sides (from_of sides.from source.entry) (to_of sides.to target.entry) fuel.old fuel.new w.old w.new) }
{
    types.reveal();
    let from_map = &types[from];
    let to_map = &types[to];
    let elements = entries(sides, from_map, to_map);
    let locals = take_list_locals(w, sides)?;
    open_list(w, sides, elements, locals, source)?;
    let outer = w.begin();
    let key = SourcePlace::Memory(Address {
        local: locals.source,
        offset: 0,
    });
    let spot = TargetPlace::Memory(Address {
        local: locals.target,
        offset: 0,
    });
    let from_key = from_map.key;
    let to_key = to_map.key;
    translate(types, builder, w, fuel, sides, from_key, to_key, key, spot)?;
    let value = key.part(0, 0, value_place(from_map, sides.from.memory64));
    let value_spot = spot.part(0, 0, value_place(to_map, sides.to.memory64));
    let from_value = from_map.value;
    let to_value = to_map.value;
    translate(
        types, builder, w, fuel, sides, from_value, to_value, value, value_spot,
    )?;
    close_list(w, sides, elements, locals, outer, target)?;
    free_list_locals(w, locals)?;
    Ok(())
}

/// Moves the elements of a list of fixed length: from memory to memory by a loop, and else one by one.
#[cycle(moving)]
fn move_fixed_list(
    types: &ComponentTypes,
    builder: &ComponentTypesBuilder,
    w: &mut Writer,
    fuel: &mut Fuel,
    sides: Sides,
    from: TypeFixedLengthListIndex,
    to: TypeFixedLengthListIndex,
    source: SourcePlace<'_>,
    target: TargetPlace<'_>,
) -> Result<(), OutOfMemory>
    requires from_live { IsLive types.now (ty.FixedLengthList from) }
    requires to_live { IsLive types.now (ty.FixedLengthList to) }
    requires sides { AreSidesImported sides w.old.sections }
    requires tables { builder.now.tables ≡ types.now }
    requires told { AreSidesTold sides }
    ensures { OnOk result (MovedNode types.now (ty.FixedLengthList from) (ty.FixedLengthList to) sides (from_of sides.from source.entry) (to_of sides.to target.entry) fuel.old fuel.new w.old w.new) }
{
    types.reveal();
    let from_ty = types[from].element;
    let to_ty = types[to].element;
    let e = FixedElements {
        count: types[to].size,
        from_size: byte_count(types, &from_ty, sides.from.memory64),
        to_size: byte_count(types, &to_ty, sides.to.memory64),
    };
    match source {
        SourcePlace::Memory(at) => match target {
            TargetPlace::Memory(spot) => {
                move_by_loop(types, builder, w, fuel, sides, from_ty, to_ty, e, at, spot)?
            }
            TargetPlace::Locals(_) => {
                move_one_by_one(
                    types, builder, w, fuel, sides, from_ty, to_ty, e, source, target,
                )?
            }
        },
        SourcePlace::Locals(_) => {
            move_one_by_one(
                types, builder, w, fuel, sides, from_ty, to_ty, e, source, target,
            )?
        }
    }
    Ok(())
}

/// Moves elements from memory to memory, by a loop.
#[cycle(moving)]
fn move_by_loop(
    types: &ComponentTypes,
    builder: &ComponentTypesBuilder,
    w: &mut Writer,
    fuel: &mut Fuel,
    sides: Sides,
    from: InterfaceType,
    to: InterfaceType,
    e: FixedElements,
    source: Address,
    target: Address,
) -> Result<(), OutOfMemory>
    requires from_live { IsLive types.now from }
    requires to_live { IsLive types.now to }
    requires sides { AreSidesImported sides w.old.sections }
    requires tables { builder.now.tables ≡ types.now }
    requires told { AreSidesTold sides }
    ensures { OnOk result (MovedElements types.now from to e 1 sides (InMemory sides.from.memory source.local source.offset) (ToMemory sides.to.memory target.local target.offset) fuel.old fuel.new w.old w.new) }
{
    let locals = take_fixed_locals(w, sides)?;
    open_fixed(w, sides, e, locals, source, target)?;
    let outer = w.begin();
    let part = SourcePlace::Memory(Address {
        local: locals.source,
        offset: 0,
    });
    let spot = TargetPlace::Memory(Address {
        local: locals.target,
        offset: 0,
    });
    translate(types, builder, w, fuel, sides, from, to, part, spot)?;
    close_fixed(w, sides, e, locals, outer)?;
    free_fixed_locals(w, locals)?;
    Ok(())
}

/// Moves elements one by one, of which at least one place is in locals.
#[cycle(moving)]
fn move_one_by_one(
    types: &ComponentTypes,
    builder: &ComponentTypesBuilder,
    w: &mut Writer,
    fuel: &mut Fuel,
    sides: Sides,
    from: InterfaceType,
    to: InterfaceType,
    e: FixedElements,
    source: SourcePlace<'_>,
    target: TargetPlace<'_>,
) -> Result<(), OutOfMemory>
    requires from_live { IsLive types.now from }
    requires to_live { IsLive types.now to }
    requires sides { AreSidesImported sides w.old.sections }
    requires tables { builder.now.tables ≡ types.now }
    requires told { AreSidesTold sides }
    ensures { OnOk result (MovedElements types.now from to e e.count sides (from_of sides.from source.entry) (to_of sides.to target.entry) fuel.old fuel.new w.old w.new) }
{
    let from_flats = flat_length(types, &from);
    let to_flats = flat_length(types, &to);
    let mut rest = target;
    for n in 0..e.count {
        let part = nth_source(source, from_flats, e.from_size, n);
        let spot = nth_target(rest, to_flats, e.to_size, n);
        translate(types, builder, w, fuel, sides, from, to, part, spot)?;
        rest = rest.past(to_flats);
    }
    Ok(())
}

/// Moves a member to its spot, from the source member that was found for it.
#[cycle(moving)]
fn move_member(
    types: &ComponentTypes,
    builder: &ComponentTypesBuilder,
    w: &mut Writer,
    fuel: &mut Fuel,
    sides: Sides,
    found: Option<FieldPlace>,
    to: InterfaceType,
    source: SourcePlace<'_>,
    spot: TargetPlace<'_>,
) -> Result<(), OutOfMemory>
    requires from_live { IsLiveFound types.now found }
    requires to_live { IsLive types.now to }
    requires sides { AreSidesImported sides w.old.sections }
    requires tables { builder.now.tables ≡ types.now }
    requires told { AreSidesTold sides }
    ensures { OnOk result (MovedMember types.now found to sides (from_of sides.from source.entry) (to_of sides.to spot.entry) fuel.old fuel.new w.old w.new) }
{
    match found {
        Some(found) => {
            let skip = usize::from(found.flat_place.unwrap_or(0));
            let count = flat_length(types, &found.ty);
            let bytes = byte_place(found, sides.from.memory64);
            let part = source.part(skip, count, bytes);
            translate(types, builder, w, fuel, sides, found.ty, to, part, spot)?;
        }
        None => w.put(Instr::Unreachable)?,
    }
    Ok(())
}

/// Moves a variant, by its case.
#[cycle(moving)]
fn move_variant(
    types: &ComponentTypes,
    builder: &ComponentTypesBuilder,
    w: &mut Writer,
    fuel: &mut Fuel,
    sides: Sides,
    from: TypeVariantIndex,
    to: TypeVariantIndex,
    source: SourcePlace<'_>,
    target: TargetPlace<'_>,
) -> Result<(), OutOfMemory>
    requires from_live { IsLive types.now (ty.Variant from) }
    requires to_live { IsLive types.now (ty.Variant to) }
    requires sides { AreSidesImported sides w.old.sections }
    requires tables { builder.now.tables ≡ types.now }
    requires told { AreSidesTold sides }
    ensures { OnOk result (MovedNode types.now (ty.Variant from) (ty.Variant to) sides (from_of sides.from source.entry) (to_of sides.to target.entry) fuel.old fuel.new w.old w.new) }
{
    let sum = variant_sum(w.alloc, types, from, to)?;
    let from_type = InterfaceType::Variant(from);
    let to_type = InterfaceType::Variant(to);
    move_sum(
        types, builder, w, fuel, sides, from_type, to_type, &sum, source, target,
    )?;
    Ok(())
}

/// Moves an option, by its case.
#[cycle(moving)]
fn move_option(
    types: &ComponentTypes,
    builder: &ComponentTypesBuilder,
    w: &mut Writer,
    fuel: &mut Fuel,
    sides: Sides,
    from: TypeOptionIndex,
    to: TypeOptionIndex,
    source: SourcePlace<'_>,
    target: TargetPlace<'_>,
) -> Result<(), OutOfMemory>
    requires from_live { IsLive types.now (ty.Option from) }
    requires to_live { IsLive types.now (ty.Option to) }
    requires sides { AreSidesImported sides w.old.sections }
    requires tables { builder.now.tables ≡ types.now }
    requires told { AreSidesTold sides }
    ensures { OnOk result (MovedNode types.now (ty.Option from) (ty.Option to) sides (from_of sides.from source.entry) (to_of sides.to target.entry) fuel.old fuel.new w.old w.new) }
{
    let sum = option_sum(w.alloc, types, from, to)?;
    let from_type = InterfaceType::Option(from);
    let to_type = InterfaceType::Option(to);
    move_sum(
        types, builder, w, fuel, sides, from_type, to_type, &sum, source, target,
    )?;
    Ok(())
}

/// Moves a result, by its case.
#[cycle(moving)]
fn move_result(
    types: &ComponentTypes,
    builder: &ComponentTypesBuilder,
    w: &mut Writer,
    fuel: &mut Fuel,
    sides: Sides,
    from: TypeResultIndex,
    to: TypeResultIndex,
    source: SourcePlace<'_>,
    target: TargetPlace<'_>,
) -> Result<(), OutOfMemory>
    requires from_live { IsLive types.now (ty.Result from) }
    requires to_live { IsLive types.now (ty.Result to) }
    requires sides { AreSidesImported sides w.old.sections }
    requires tables { builder.now.tables ≡ types.now }
    requires told { AreSidesTold sides }
    ensures { OnOk result (MovedNode types.now (ty.Result from) (ty.Result to) sides (from_of sides.from source.entry) (to_of sides.to target.entry) fuel.old fuel.new w.old w.new) }
{
    let sum = result_sum(w.alloc, types, from, to)?;
    let from_type = InterfaceType::Result(from);
    let to_type = InterfaceType::Result(to);
    move_sum(
        types, builder, w, fuel, sides, from_type, to_type, &sum, source, target,
    )?;
    Ok(())
}

/// Moves a value of cases, by a local that holds its discriminant.
#[cycle(moving)]
fn move_sum(
    types: &ComponentTypes,
    builder: &ComponentTypesBuilder,
    w: &mut Writer,
    fuel: &mut Fuel,
    sides: Sides,
    from: InterfaceType,
    to: InterfaceType,
    sum: &Sum,
    source: SourcePlace<'_>,
    target: TargetPlace<'_>,
) -> Result<(), OutOfMemory>
    requires from_live { IsLive types.now from }
    requires to_live { IsLive types.now to }
    requires cases { IsSumOf types.now from to sum.now }
    requires sides { AreSidesImported sides w.old.sections }
    requires tables { builder.now.tables ≡ types.now }
    requires told { AreSidesTold sides }
    ensures { OnOk result (MovedSum types.now from to sides (from_of sides.from source.entry) (to_of sides.to target.entry) fuel.old fuel.new w.old w.new) }
{
    let local = w.take_local(ValType::I32)?;
    move_sum_by(
        types, builder, w, fuel, sides, from, to, sum, local, source, target,
    )?;
    w.free_local(local)?;
    Ok(())
}

/// Moves a value of cases: reads its discriminant to a local, and runs the code of its case, with a trap past the last one.
#[cycle(moving)]
fn move_sum_by(
    types: &ComponentTypes,
    builder: &ComponentTypesBuilder,
    w: &mut Writer,
    fuel: &mut Fuel,
    sides: Sides,
    from: InterfaceType,
    to: InterfaceType,
    sum: &Sum,
    local: u32,
    source: SourcePlace<'_>,
    target: TargetPlace<'_>,
) -> Result<(), OutOfMemory>
    requires from_live { IsLive types.now from }
    requires to_live { IsLive types.now to }
    requires cases { IsSumOf types.now from to sum.now }
    requires sides { AreSidesImported sides w.old.sections }
    requires tables { builder.now.tables ≡ types.now }
    requires told { AreSidesTold sides }
    ensures { OnOk result (MovedSumBy types.now from to local sides (from_of sides.from source.entry) (to_of sides.to target.entry) fuel.old fuel.new w.old w.new) }
{
    types.reveal();
    let size = discriminant_number(sum.from.size);
    read_number(w, sides.debug, sides.from, size, source)?;
    w.put(Instr::LocalSet(local))?;
    let bodies = case_bodies(
        types, builder, w, fuel, sides, from, to, sum, source, target,
    )?;
    put_cases(w, local, bodies)?;
    Ok(())
}

/// The code of each case, each in a buffer of its own.
#[cycle(moving)]
fn case_bodies(
    types: &ComponentTypes,
    builder: &ComponentTypesBuilder,
    w: &mut Writer,
    fuel: &mut Fuel,
    sides: Sides,
    from: InterfaceType,
    to: InterfaceType,
    sum: &Sum,
    source: SourcePlace<'_>,
    target: TargetPlace<'_>,
) -> Result<Vec<Seq<Instr>>, OutOfMemory>
    requires from_live { IsLive types.now from }
    requires to_live { IsLive types.now to }
    requires cases { IsSumOf types.now from to sum.now }
    requires sides { AreSidesImported sides w.old.sections }
    requires tables { builder.now.tables ≡ types.now }
    requires told { AreSidesTold sides }
    ensures { IfOk result (λ bodies. WroteBodies types.now from to sides (from_of sides.from source.entry) (to_of sides.to target.entry) (length sum.now.cases.items) bodies.items fuel.old fuel.new w.old w.new) }
{
    types.reveal();
    let mut bodies = Vec::new(w.alloc);
    for case in sum.cases.as_slice() {
        let outer = w.begin();
        let infos = (sum.from, sum.to);
        move_case(types, builder, w, fuel, sides, infos, *case, source, target)?;
        let body = w.end(outer);
        bodies.push(body)?;
    }
    Ok(bodies)
}

/// Moves a case: writes the number of the case of its name, moves its payload, and puts zeros into the slots that are left over.
#[cycle(moving)]
fn move_case(
    types: &ComponentTypes,
    builder: &ComponentTypesBuilder,
    w: &mut Writer,
    fuel: &mut Fuel,
    sides: Sides,
    infos: (VariantInfo, VariantInfo),
    case: PairedCase,
    source: SourcePlace<'_>,
    target: TargetPlace<'_>,
) -> Result<(), OutOfMemory>
    requires from_live { IsLiveMember types.now case.payload }
    requires to_live { IsLiveNumbered types.now case.found }
    requires sides { AreSidesImported sides w.old.sections }
    requires tables { builder.now.tables ≡ types.now }
    requires told { AreSidesTold sides }
    ensures { OnOk result (MovedCase types.now infos.0 infos.1 case sides (from_of sides.from source.entry) (to_of sides.to target.entry) fuel.old fuel.new w.old w.new) }
{
    match case.found {
        Some(found) => {
            let size = discriminant_number(infos.1.size);
            put_discriminant(w, sides.to, size, found.number, target)?;
            let from = case.payload;
            let to = found.payload;
            move_payload(
                types, builder, w, fuel, sides, infos, from, to, source, target,
            )?;
        }
        None => w.put(Instr::Unreachable)?,
    }
    Ok(())
}

/// Moves the payload of a case, behind its discriminant, and puts zeros into the slots that are left over.
#[cycle(moving)]
fn move_payload(
    types: &ComponentTypes,
    builder: &ComponentTypesBuilder,
    w: &mut Writer,
    fuel: &mut Fuel,
    sides: Sides,
    infos: (VariantInfo, VariantInfo),
    from: Option<InterfaceType>,
    to: Option<InterfaceType>,
    source: SourcePlace<'_>,
    target: TargetPlace<'_>,
) -> Result<(), OutOfMemory>
    requires from_live { IsLiveMember types.now from }
    requires to_live { IsLiveMember types.now to }
    requires sides { AreSidesImported sides w.old.sections }
    requires tables { builder.now.tables ≡ types.now }
    requires told { AreSidesTold sides }
    ensures { OnOk result (MovedPayload types.now infos.0 infos.1 from to sides (from_of sides.from source.entry) (to_of sides.to target.entry) fuel.old fuel.new w.old w.new) }
{
    match from {
        Some(from) => match to {
            Some(to) => move_some(
                types, builder, w, fuel, sides, infos, from, to, source, target,
            )?,
            None => w.put(Instr::Unreachable)?,
        },
        None => put_left_over(w, sides.to, target.past(1))?,
    }
    Ok(())
}

/// Moves a payload that is there.
#[cycle(moving)]
fn move_some(
    types: &ComponentTypes,
    builder: &ComponentTypesBuilder,
    w: &mut Writer,
    fuel: &mut Fuel,
    sides: Sides,
    infos: (VariantInfo, VariantInfo),
    from: InterfaceType,
    to: InterfaceType,
    source: SourcePlace<'_>,
    target: TargetPlace<'_>,
) -> Result<(), OutOfMemory>
    requires from_live { IsLive types.now from }
    requires to_live { IsLive types.now to }
    requires sides { AreSidesImported sides w.old.sections }
    requires tables { builder.now.tables ≡ types.now }
    requires told { AreSidesTold sides }
    ensures { OnOk result (MovedSome types.now infos.0 infos.1 from to sides (from_of sides.from source.entry) (to_of sides.to target.entry) fuel.old fuel.new w.old w.new) }
{
    let bytes = payload_place(infos.0, sides.from.memory64);
    let part = source.part(1, flat_length(types, &from), bytes);
    let rest = target.past(1);
    let count = flat_length(types, &to);
    let spot = rest.part(0, count, payload_place(infos.1, sides.to.memory64));
    translate(types, builder, w, fuel, sides, from, to, part, spot)?;
    put_left_over(w, sides.to, rest.past(count))?;
    Ok(())
}
