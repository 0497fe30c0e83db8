//! The parameters and the results of a function, as core values of a side (canonical ABI, "Lifting and Lowering Values").

ghost use Rattle.std.specs.Prelude.{◌≡◌, ◌+◌, ◌≤◌, ◌^◌, List, Some, map, max, IfOk};
ghost use Rattle.fact_types.specs.declared.flats.FlatType.{FlatType};
ghost use Rattle.fact_types.specs.FlatShapes.{flat_each};
ghost use Rattle.fact_types.specs.Functions.{HaveShapes};
ghost use Rattle.fact_types.specs.Layout.{aligned as next_aligned};
ghost use Rattle.fact_types.specs.Shapes.{Shape};
ghost use Rattle.fact_types.specs.Tuples.{tuple_of};
ghost use Rattle.fact_values.specs.Places.{extent_on, width_of};
ghost use Rattle.fact_lowering.specs.TupleSteps.{BehindLoweredOr, FlatLoweredOr, IsTupleLowerable, TakenOr, TupleLoweredOr};
ghost use Rattle.fact_lowering.specs.Lowered.{AreAllLive, CanStore, IsAside};

use crate::flats::{flat_all, flat_types};
use crate::lowering::{lower_value, pointer_of};
use crate::numbers::{core_value, number_of_core};
use crate::places::Lowering;
use crate::store::Store;
use crate::storing::store_members;
use fact_abi::Value;
use fact_machine::CoreValue;
use fact_types::InterfaceType;
use fact_wasm::{OutOfMemory, Seq};
use std::alloc::Global;

/// The next multiple of an alignment.
pub(crate) fn aligned(number: u128, align: u128) -> u128
    requires some { 1 ≤ align }
    requires low { number + align ≤ 2 ^ 127 }
    ensures value { result ≡ next_aligned number align }
    ensures few { result ≤ number + align }
{
    number + (align - number % align) % align
}

/// The greater of two numbers.
fn greater(a: u32, b: u32) -> u32
    ensures { result ≡ max a b }
{
    if a < b { b } else { a }
}

/// The size and the alignment of a tuple of live types, in bytes.
pub(crate) fn tuple_extent(to: &Lowering<'_>, tys: &[InterfaceType]) -> (u128, u32)
    requires { AreAllLive to.now.types.now tys.now }
    ensures size { (ss : List Shape) → HaveShapes to.now.types.now tys.now ss → result.0 ≡ (extent_on to.now.side (tuple_of ss)).size }
    ensures align { (ss : List Shape) → HaveShapes to.now.types.now tys.now ss → result.1 ≡ (extent_on to.now.side (tuple_of ss)).align }
    ensures some { 1 ≤ result.1 }
    ensures few { result.0 ≤ 2 ^ 120 }
{
    let _count = tys.len();
    let mut offset: u128 = 0;
    let mut greatest = 1;
    for ty in tys {
        let (size, align) = to.extent(ty);
        let place = aligned(offset, align as u128);
        offset = place + size as u128;
        greatest = greater(align, greatest);
    }
    let size = aligned(offset, greatest as u128);
    (size, greatest)
}

/// Takes a region for a tuple of live types at the cursor of a memory, or answers `None` where there is no room for it.
fn take_tuple(to: &Lowering<'_>, tys: &[InterfaceType], store: &mut Store) -> Option<u64>
    requires live { AreAllLive to.now.types.now tys.now }
    requires can { CanStore store.old.cursor store.old.bytes.items }
    ensures taken { (ss : List Shape) → HaveShapes to.now.types.now tys.now ss → TakenOr to.now.side ss result store.old.cursor store.new.cursor store.old.bytes.items }
    ensures bytes { store.new.bytes ≡ store.old.bytes }
{
    let (size, align) = tuple_extent(to, tys);
    if size > store.bytes.len() as u128 {
        return None;
    }
    store.take(u64::from(align), size as u64)
}

/// Takes a region for a tuple of live types at the cursor of a memory, and answers its address; where there is no room for it, the end
/// of the memory.
pub fn set_aside(to: &Lowering<'_>, tys: &[InterfaceType], store: &mut Store) -> u64
    requires live { AreAllLive to.now.types.now tys.now }
    requires can { CanStore store.old.cursor store.old.bytes.items }
    ensures aside { (ss : List Shape) → HaveShapes to.now.types.now tys.now ss → IsAside to.now.side ss result store.old.cursor store.new.cursor store.old.bytes.items }
    ensures bytes { store.new.bytes ≡ store.old.bytes }
{
    match take_tuple(to, tys, store) {
        Some(place) => place,
        None => store.bytes.len() as u64,
    }
}

/// The core values of values of live types: flat where they have at most so many flat types, and else a pointer to a tuple at the cursor.
/// `None` where there is less room than they take. The one error is a want of memory.
pub fn lower_tuple(
    to: &Lowering<'_>,
    tys: &[InterfaceType],
    store: &mut Store,
    values: &[Value],
    limit: usize,
) -> Result<Option<Seq<CoreValue>>, OutOfMemory>
    requires live { AreAllLive to.now.types.now tys.now }
    requires lowerable { IsTupleLowerable to.now.types.now to.now.side tys.now values.now store.old.cursor store.old.bytes.items }
    ensures { IfOk result (λ o. (ss : List Shape) → HaveShapes to.now.types.now tys.now ss → TupleLoweredOr to.now.side limit ss values.now o store.old.cursor store.new.cursor store.old.bytes.items store.new.bytes.items) }
{
    match flat_all(to.alloc, to.types, tys, to.side.memory64, limit)? {
        Some(_flat) => lower_flat(to, tys, store, values),
        None => lower_behind(to, tys, store, values),
    }
}

/// The core values of values, one behind the other.
fn lower_flat(
    to: &Lowering<'_>,
    tys: &[InterfaceType],
    store: &mut Store,
    values: &[Value],
) -> Result<Option<Seq<CoreValue>>, OutOfMemory>
    requires live { AreAllLive to.now.types.now tys.now }
    requires lowerable { IsTupleLowerable to.now.types.now to.now.side tys.now values.now store.old.cursor store.old.bytes.items }
    requires flat { (ss : List Shape) → HaveShapes to.now.types.now tys.now ss → (fs : List FlatType) × (flat_each (width_of to.now.side) ss ≡ Some fs) }
    ensures { IfOk result (λ o. (ss : List Shape) → HaveShapes to.now.types.now tys.now ss → FlatLoweredOr to.now.side ss values.now o store.old.cursor store.new.cursor store.old.bytes.items store.new.bytes.items) }
{
    let mut out = Seq::new(to.alloc);
    for (place, ty) in tys.iter().enumerate() {
        let Some(value) = values.get(place) else {
            return Ok(None);
        };
        let Some(flat) = flat_types(to.alloc, to.types, ty, to.side.memory64)? else {
            return Ok(None);
        };
        if !lower_value(to, ty, store, value, flat.as_slice(), &mut out)? {
            return Ok(None);
        }
    }
    Ok(Some(out))
}

/// Types as members.
fn all_members(
    alloc: Global,
    tys: &[InterfaceType],
) -> Result<Seq<Option<InterfaceType>>, OutOfMemory>
    ensures { IfOk result (λ members. members ≡ map (λ ty. Some ty) tys.now) }
{
    let mut members = Seq::new(alloc);
    for ty in tys {
        members.push(Some(*ty))?;
    }
    Ok(members)
}

/// A pointer to a tuple of values at the cursor.
fn lower_behind(
    to: &Lowering<'_>,
    tys: &[InterfaceType],
    store: &mut Store,
    values: &[Value],
) -> Result<Option<Seq<CoreValue>>, OutOfMemory>
    requires live { AreAllLive to.now.types.now tys.now }
    requires lowerable { IsTupleLowerable to.now.types.now to.now.side tys.now values.now store.old.cursor store.old.bytes.items }
    ensures { IfOk result (λ o. (ss : List Shape) → HaveShapes to.now.types.now tys.now ss → BehindLoweredOr to.now.side ss values.now o store.old.cursor store.new.cursor store.old.bytes.items store.new.bytes.items) }
{
    let members = all_members(to.alloc, tys)?;
    let Some(pointer) = take_tuple(to, tys, store) else {
        return Ok(None);
    };
    if !store_members(to, members.as_slice(), store, values, pointer)? {
        return Ok(None);
    }
    let mut out = Seq::new(to.alloc);
    out.push(core_value(pointer_of(to), pointer))?;
    Ok(Some(out))
}
