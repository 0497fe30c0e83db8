//! How code calls a helper, and the core signature of one. It takes an i64 for each flat type of a source: an i32 is extended, a float is
//! reinterpreted, as in the joined slots of cases. So one function serves code whose slots have other types, and debug checks stay where
//! values are read. It gives the flat types of a target, which the slots of code may be wider than.

ghost use Rattle.std.specs.Prelude.{IfOk, OnOk, ◌≡◌, ◌∷◌, unwrap_or};
ghost use Rattle.fact_wasm.specs.declared.instr.Instr.TheVariants as I;
ghost use Rattle.fact_types.specs.Shapes.{Shape, layout_of};
ghost use Rattle.fact_types.specs.Tables.{IsLive, HasShape};
ghost use Rattle.fact_code_laws.specs.Helpers.{bits_as_i64, push_as_i64, set_code, take_code, based_code, push_from, push_to};
ghost use Rattle.fact_emit.specs.Asked.{flats_given};
ghost use Rattle.fact_emit.specs.Places.{slots_of_locals, from_of, to_of};
ghost use Rattle.fact_emit.specs.StringPieces.{AreSidesImported};
ghost use Rattle.fact_emit.specs.Writers.{Wrote};
ghost use Rattle.fact_emit.specs.declared.places.LinearMemory.{LinearMemory as Linear};
ghost use Rattle.fact_kinds.specs.Asks.{AreSidesTold, helper_key, location_of_source, location_of_target, params_of_side, TookGiven, WroteCall};
ghost use Rattle.fact_kinds.specs.Moved.{CalledHelper};

use crate::layouts::flat_length;
use crate::lists::{address_type, put_add};
use fact_builder::ComponentTypesBuilder;
use fact_emit::{
    Address, Helper, HelperLocation, HelperType, LinearMemory, Sides, SourcePlace, TargetPlace,
    TypedLocal, Writer, put_const,
};
use fact_types::{ComponentTypes, InterfaceType};
use fact_wasm::{FuncName, Instr, OutOfMemory, Seq, ValType};
use std::alloc::Global;

/// Where a value stands.
fn source_location(source: SourcePlace<'_>) -> HelperLocation
    ensures { (m : Linear) → result ≡ location_of_source (from_of m source.entry) }
{
    match source {
        SourcePlace::Locals(_) => HelperLocation::Stack,
        SourcePlace::Memory(_) => HelperLocation::Memory,
    }
}

/// Where a value goes.
fn target_location(target: TargetPlace<'_>) -> HelperLocation
    ensures { (m : Linear) → result ≡ location_of_target (to_of m target.entry) }
{
    match target {
        TargetPlace::Locals(_) => HelperLocation::Stack,
        TargetPlace::Memory(_) => HelperLocation::Memory,
    }
}

/// The helper that moves values of these types from such a place to such a place.
fn helper_between(
    sides: Sides,
    from: InterfaceType,
    to: InterfaceType,
    source: SourcePlace<'_>,
    target: TargetPlace<'_>,
) -> Helper
    ensures { result ≡ helper_key sides from to (from_of sides.from source.entry) (to_of sides.to target.entry) }
{
    Helper {
        src: HelperType {
            ty: from,
            opts: sides.from.options,
            loc: source_location(source),
        },
        dst: HelperType {
            ty: to,
            opts: sides.to.options,
            loc: target_location(target),
        },
    }
}

/// Pushes what a local holds as an i64.
fn push_widened(w: &mut Writer, local: TypedLocal) -> Result<(), OutOfMemory>
    ensures { OnOk result (Wrote w.old w.new (I.LocalGet local.local ∷ bits_as_i64 local.ty)) }
{
    w.put(Instr::LocalGet(local.local))?;
    match local.ty {
        ValType::I32 => w.put(Instr::I64ExtendI32U)?,
        ValType::F32 => {
            w.put(Instr::I32ReinterpretF32)?;
            w.put(Instr::I64ExtendI32U)?;
        }
        ValType::F64 => w.put(Instr::I64ReinterpretF64)?,
        _ => (),
    }
    Ok(())
}

/// Pushes what locals hold as i64s, the last on top.
fn push_all_widened(w: &mut Writer, locals: &[TypedLocal]) -> Result<(), OutOfMemory>
    ensures { OnOk result (Wrote w.old w.new (push_as_i64 (slots_of_locals locals.now))) }
{
    for local in locals {
        push_widened(w, *local)?;
    }
    Ok(())
}

/// Takes a value of a flat type off the operand stack into a local of that type or a wider one.
fn set_widened(w: &mut Writer, flat: ValType, local: TypedLocal) -> Result<(), OutOfMemory>
    ensures { OnOk result (Wrote w.old w.new (set_code flat (local.local, local.ty))) }
{
    match (flat, local.ty) {
        (ValType::I32, ValType::I64) => w.put(Instr::I64ExtendI32U)?,
        (ValType::F32, ValType::I32) => w.put(Instr::I32ReinterpretF32)?,
        (ValType::F32, ValType::I64) => {
            w.put(Instr::I32ReinterpretF32)?;
            w.put(Instr::I64ExtendI32U)?;
        }
        (ValType::F64, ValType::I64) => w.put(Instr::I64ReinterpretF64)?,
        _ => (),
    }
    w.put(Instr::LocalSet(local.local))?;
    Ok(())
}

/// Takes values of flat types off the operand stack into locals, the last value first.
fn set_all_widened(
    w: &mut Writer,
    flats: &[ValType],
    locals: &[TypedLocal],
) -> Result<(), OutOfMemory>
    ensures { OnOk result (Wrote w.old w.new (take_code flats.now (slots_of_locals locals.now))) }
{
    let mut left = flats.len().min(locals.len());
    while left > 0 {
        left -= 1;
        set_widened(w, flats[left], locals[left])?;
    }
    Ok(())
}

/// Pushes an address.
fn push_address(w: &mut Writer, linear: LinearMemory, address: Address) -> Result<(), OutOfMemory>
    ensures { OnOk result (Wrote w.old w.new (based_code linear.memory64 address.local address.offset)) }
{
    w.put(Instr::LocalGet(address.local))?;
    if address.offset != 0 {
        put_const(w, linear.memory64, address.offset)?;
        put_add(w, linear.memory64)?;
    }
    Ok(())
}

/// Pushes what a helper takes of a source.
fn push_source(
    w: &mut Writer,
    linear: LinearMemory,
    source: SourcePlace<'_>,
) -> Result<(), OutOfMemory>
    ensures { OnOk result (Wrote w.old w.new (push_from linear.memory64 (from_of linear source.entry))) }
{
    match source {
        SourcePlace::Locals(locals) => push_all_widened(w, locals),
        SourcePlace::Memory(address) => push_address(w, linear, address),
    }
}

/// Pushes what a helper takes of a target.
fn push_target(
    w: &mut Writer,
    linear: LinearMemory,
    target: TargetPlace<'_>,
) -> Result<(), OutOfMemory>
    ensures { OnOk result (Wrote w.old w.new (push_to linear.memory64 (to_of linear target.entry))) }
{
    match target {
        TargetPlace::Locals(_) => Ok(()),
        TargetPlace::Memory(address) => push_address(w, linear, address),
    }
}

/// The flat types of a live type that has at most 16.
pub fn flat_types(
    alloc: Global,
    types: &ComponentTypesBuilder,
    memory64: bool,
    ty: InterfaceType,
) -> Result<Seq<ValType>, OutOfMemory>
    requires { IsLive types.now.tables ty }
    ensures { (s : Shape) → HasShape types.now.tables ty s → IfOk result (λ flats. flats ≡ flats_given memory64 s) }
{
    match types.flatten_types(memory64, 16, &[ty])? {
        Some(flats) => Ok(flats),
        None => Ok(Seq::new(alloc)),
    }
}

/// Takes what a helper gives off the operand stack, the last value first.
fn take_results(
    types: &ComponentTypesBuilder,
    w: &mut Writer,
    linear: LinearMemory,
    to: InterfaceType,
    target: TargetPlace<'_>,
) -> Result<(), OutOfMemory>
    requires { IsLive types.now.tables to }
    ensures { OnOk result (TookGiven types.now.tables linear to (to_of linear target.entry) w.old w.new) }
{
    match target {
        TargetPlace::Locals(locals) => {
            let flats = flat_types(w.alloc, types, linear.memory64, to)?;
            set_all_widened(w, flats.as_slice(), locals)
        }
        TargetPlace::Memory(_) => Ok(()),
    }
}

/// Puts the call of the helper of this number: what it takes, the call, and what it gives.
fn put_helper_call(
    types: &ComponentTypesBuilder,
    w: &mut Writer,
    sides: Sides,
    to: InterfaceType,
    source: SourcePlace<'_>,
    target: TargetPlace<'_>,
    number: u32,
) -> Result<(), OutOfMemory>
    requires { IsLive types.now.tables to }
    ensures { OnOk result (WroteCall types.now.tables sides to number (from_of sides.from source.entry) (to_of sides.to target.entry) w.old w.new) }
{
    push_source(w, sides.from, source)?;
    push_target(w, sides.to, target)?;
    w.put(Instr::Call(FuncName::Defined(number)))?;
    take_results(types, w, sides.to, to, target)
}

/// Moves a value by a call of the helper for its types and places, which is asked for where it was not before.
pub fn call_helper(
    types: &ComponentTypesBuilder,
    w: &mut Writer,
    sides: Sides,
    from: InterfaceType,
    to: InterfaceType,
    source: SourcePlace<'_>,
    target: TargetPlace<'_>,
) -> Result<(), OutOfMemory>
    requires from_live { IsLive types.now.tables from }
    requires to_live { IsLive types.now.tables to }
    requires sides { AreSidesImported sides w.old.sections }
    requires told { AreSidesTold sides }
    ensures { OnOk result (CalledHelper types.now.tables from to sides (from_of sides.from source.entry) (to_of sides.to target.entry) w.old w.new) }
{
    let key = helper_between(sides, from, to, source, target);
    let number = w.sections.helper(key)?;
    put_helper_call(types, w, sides, to, source, target, number)
}

/// What a helper takes of its source: an i64 for each flat type, or an address.
pub fn helper_params(
    alloc: Global,
    types: &ComponentTypes,
    side: &HelperType,
) -> Result<Seq<ValType>, OutOfMemory>
    requires { IsLive types.now side.now.ty }
    ensures { (s : Shape) → HasShape types.now side.now.ty s → IfOk result (λ params. params ≡ params_of_side side.now (unwrap_or (layout_of s).flat_count 0)) }
{
    let mut values = Seq::new(alloc);
    match side.loc {
        HelperLocation::Stack => {
            for _ in 0..flat_length(types, &side.ty) {
                values.push(ValType::I64)?;
            }
        }
        HelperLocation::Memory => values.push(address_type(side.opts.linear.memory64))?,
    }
    Ok(values)
}
