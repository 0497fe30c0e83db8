//! The values of parameters and results that core values of a side stand for (canonical ABI, "Lifting and Lowering Values").

ghost use Rattle.std.specs.Prelude.{◌≡◌, ◌+◌, ◌≤◌, List, length, min, IfOk};
ghost use Rattle.fact_types.specs.Functions.{HaveShapes};
ghost use Rattle.fact_types.specs.Shapes.{Shape, ends_of};
ghost use Rattle.fact_types.specs.Tables.{IsLive, HasShape};
ghost use Rattle.fact_types.specs.Tuples.{tuple_members};
ghost use Rattle.fact_values.specs.Load.{load_members};
ghost use Rattle.fact_values.specs.Places.{width_of};
ghost use Rattle.fact_values.specs.Tuples.{behind, flat_or_behind, lift_all, sync_lower_results};
ghost use Rattle.fact_lowering.specs.Lowered.{AreAllLive};
ghost use Rattle.fact_lowering.specs.TupleSteps.{IsPartLifted, pointer_number};

use crate::flats::{flat_all, flat_types};
use crate::places::Lowering;
use crate::tuples::{aligned, tuple_extent};
use fact_abi::{Value, lift, load};
use fact_machine::CoreValue;
use fact_types::{InterfaceType, MAX_FLAT_RESULTS};
use fact_wasm::{OutOfMemory, Seq};

/// The values of live types that core values stand for: flat where there are at most so many flat types, and else behind the one core
/// value. `None` where they stand for none. The one error is a want of memory.
pub fn lift_tuple(
    from: &Lowering<'_>,
    tys: &[InterfaceType],
    bytes: &[u8],
    values: &[CoreValue],
    limit: usize,
) -> Result<Option<Seq<Value>>, OutOfMemory>
    requires { AreAllLive from.now.types.now tys.now }
    ensures { IfOk result (λ o. (ss : List Shape) → HaveShapes from.now.types.now tys.now ss → o ≡ flat_or_behind from.now.side bytes.now limit ss values.now) }
{
    if let Some(_flat) = flat_all(from.alloc, from.types, tys, from.side.memory64, limit)? {
        return lift_flat(from, tys, bytes, values);
    }
    if values.len() != 1 {
        return Ok(None);
    }
    lift_behind(from, tys, bytes, &values[0])
}

/// The results of a sync function that is lowered: flat, or behind the return pointer, the last of its core arguments.
pub fn lift_results(
    from: &Lowering<'_>,
    tys: &[InterfaceType],
    bytes: &[u8],
    args: &[CoreValue],
    results: &[CoreValue],
) -> Result<Option<Seq<Value>>, OutOfMemory>
    requires { AreAllLive from.now.types.now tys.now }
    ensures { IfOk result (λ o. (ss : List Shape) → HaveShapes from.now.types.now tys.now ss → o ≡ sync_lower_results from.now.side bytes.now ss args.now results.now) }
{
    match flat_all(
        from.alloc,
        from.types,
        tys,
        from.side.memory64,
        MAX_FLAT_RESULTS,
    )? {
        Some(_flat) => lift_flat(from, tys, bytes, results),
        None => match args.last() {
            Some(pointer) => lift_behind(from, tys, bytes, pointer),
            None => Ok(None),
        },
    }
}

/// The values of types one behind the other, each from as many core values as it has flat types.
fn lift_flat(
    from: &Lowering<'_>,
    tys: &[InterfaceType],
    bytes: &[u8],
    values: &[CoreValue],
) -> Result<Option<Seq<Value>>, OutOfMemory>
    requires { AreAllLive from.now.types.now tys.now }
    ensures { IfOk result (λ o. (ss : List Shape) → HaveShapes from.now.types.now tys.now ss → o ≡ lift_all from.now.side bytes.now ss values.now) }
{
    from.types.reveal();
    let mut lifted = Seq::new(from.alloc);
    let mut at = 0;
    for ty in tys {
        let Some((value, count)) = lift_part(from, ty, bytes, &values[at..])? else {
            return Ok(None);
        };
        lifted.push(value)?;
        at += count;
    }
    if at < values.len() {
        return Ok(None);
    }
    Ok(Some(lifted))
}

/// The value of a live type that the first of some core values stand for, as many as it has flat types or as there are, and how many
/// they are.
fn lift_part(
    from: &Lowering<'_>,
    ty: &InterfaceType,
    bytes: &[u8],
    values: &[CoreValue],
) -> Result<Option<(Value, usize)>, OutOfMemory>
    requires { IsLive from.now.types.now ty.now }
    ensures { IfOk result (λ o. (s : Shape) → HasShape from.now.types.now ty.now s → IsPartLifted from.now.side bytes.now s values.now o) }
{
    let Some(flat) = flat_types(from.alloc, from.types, ty, from.side.memory64)? else {
        return Ok(None);
    };
    let count = least(flat.len(), values.len());
    match lift(
        from.alloc,
        from.types,
        ty,
        &from.side,
        bytes,
        &values[..count],
    )? {
        Some(value) => Ok(Some((value, count))),
        None => Ok(None),
    }
}

/// The less of two numbers.
fn least(a: usize, b: usize) -> usize
    ensures { result ≡ min a b }
{
    if a < b { a } else { b }
}

/// The number of a pointer, where a core value can stand for one.
fn pointer_in(from: &Lowering<'_>, pointer: &CoreValue) -> Option<u64>
    ensures { result ≡ pointer_number from.now.side pointer.now }
{
    match *pointer {
        CoreValue::I32(bits) if !from.side.memory64 => Some(u64::from(bits)),
        CoreValue::I64(bits) => Some(if from.side.memory64 {
            bits
        } else {
            bits % 0x1_0000_0000
        }),
        _ => None,
    }
}

/// The values of a tuple of live types behind a pointer, aligned and all there.
pub fn lift_behind(
    from: &Lowering<'_>,
    tys: &[InterfaceType],
    bytes: &[u8],
    pointer: &CoreValue,
) -> Result<Option<Seq<Value>>, OutOfMemory>
    requires { AreAllLive from.now.types.now tys.now }
    ensures { IfOk result (λ o. (ss : List Shape) → HaveShapes from.now.types.now tys.now ss → o ≡ behind from.now.side bytes.now ss pointer.now) }
{
    let Some(address) = pointer_in(from, pointer) else {
        return Ok(None);
    };
    let (size, align) = tuple_extent(from, tys);
    if address % u64::from(align) != 0 {
        return Ok(None);
    }
    let end = address as u128 + size;
    if end > bytes.len() as u128 {
        return Ok(None);
    }
    load_all(from, tys, bytes, address)
}

/// The values of types at their places in a tuple at an address, which is all there.
fn load_all(
    from: &Lowering<'_>,
    tys: &[InterfaceType],
    bytes: &[u8],
    address: u64,
) -> Result<Option<Seq<Value>>, OutOfMemory>
    requires live { AreAllLive from.now.types.now tys.now }
    requires there { (ss : List Shape) → HaveShapes from.now.types.now tys.now ss → address + ends_of (width_of from.now.side) (tuple_members ss) 0 ≤ length bytes.now }
    ensures { IfOk result (λ o. (ss : List Shape) → HaveShapes from.now.types.now tys.now ss → o ≡ load_members from.now.side bytes.now (tuple_members ss) address 0) }
{
    from.types.reveal();
    let _length = bytes.len();
    let mut loaded = Seq::new(from.alloc);
    let mut offset: u128 = 0;
    for ty in tys {
        let (size, align) = from.extent(ty);
        let place = aligned(offset, align as u128);
        let at = address as u128 + place;
        let Some(value) = load(from.alloc, from.types, ty, &from.side, bytes, at as u64)? else {
            return Ok(None);
        };
        loaded.push(value)?;
        offset = place + size as u128;
    }
    Ok(Some(loaded))
}
