//! Variants, options and results as lists of cases, and what the code of each case begins and ends with.

ghost use Rattle.std.specs.Prelude.{IfOk, OnOk, Some, [], ◌∷◌, ◌≡◌, ◌<◌, ◌^◌, length};
ghost use Rattle.fact_types.specs.Signatures.{width};
ghost use Rattle.fact_types.specs.declared.interface.InterfaceType.TheVariants as ty;
ghost use Rattle.fact_wasm.specs.declared.instr.Instr.TheVariants as I;
ghost use Rattle.fact_code_laws.specs.Cases.{discriminant_code, zero_const, zero_slots, zero_code};
ghost use Rattle.fact_emit.specs.Numbers.{number_sized};
ghost use Rattle.fact_emit.specs.Parts.{bytes_by};
ghost use Rattle.fact_emit.specs.Places.{slots_of_locals, to_of};
ghost use Rattle.fact_emit.specs.Writers.{Wrote};
ghost use Rattle.fact_kinds.specs.Sums.{case_at_name, paired_cases, IsSumOf};

use fact_emit::{LinearMemory, NumberSize, TargetPlace, TypedLocal, Writer, open, write_number};
use fact_entity::{TypeOptionIndex, TypeResultIndex, TypeVariantIndex};
use fact_types::{ComponentTypes, InterfaceType, VariantInfo};
use fact_wasm::{Instr, OutOfMemory, Text, ValType};
use indexmap::IndexMap;
use std::alloc::{AllocError, Global};

/// A case of a destination: its number, and the type of its payload.
#[derive(Clone, Copy)]
pub struct NumberedCase {
    pub number: u32,
    pub payload: Option<InterfaceType>,
}

/// A case of a source: the type of its payload, and the case of its name at the destination, if there is one.
#[derive(Clone, Copy)]
pub struct PairedCase {
    pub payload: Option<InterfaceType>,
    pub found: Option<NumberedCase>,
}

/// A variant, an option or a result of a source and one of a destination: where their parts stand, and the cases of the source
/// in order.
#[derive(Drop)]
pub struct Sum {
    pub from: VariantInfo,
    pub to: VariantInfo,
    pub cases: Vec<PairedCase>,
}

/// The case of a name, if there is one. It takes no memory, and refuses a number above 4,294,967,295.
fn find_case(
    cases: &IndexMap<Text, Option<InterfaceType>>,
    name: &Text,
) -> Result<Option<NumberedCase>, OutOfMemory>
    ensures { IfOk result (λ found. found ≡ case_at_name name.now 0 cases.now.entries) }
{
    let Some((number, _, payload)) = cases.get_full(name) else {
        return Ok(None);
    };
    if number > u32::MAX as usize {
        return Err(AllocError);
    }
    Ok(Some(NumberedCase {
        number: number as u32,
        payload: *payload,
    }))
}

/// The cases of a source, each with the case of its name.
fn pair_cases(
    alloc: Global,
    from: &IndexMap<Text, Option<InterfaceType>>,
    to: &IndexMap<Text, Option<InterfaceType>>,
) -> Result<Vec<PairedCase>, OutOfMemory>
    ensures { IfOk result (λ cases. cases.items ≡ paired_cases from.now.entries to.now.entries) }
{
    let mut cases = Vec::new(alloc);
    for (name, payload) in from.iter() {
        let found = find_case(to, name)?;
        cases.push(PairedCase {
            payload: *payload,
            found,
        })?;
    }
    Ok(cases)
}

/// Two cases of the same numbers on both sides, with their payloads on either side.
fn two_cases(
    alloc: Global,
    first: (Option<InterfaceType>, Option<InterfaceType>),
    second: (Option<InterfaceType>, Option<InterfaceType>),
) -> Result<Vec<PairedCase>, OutOfMemory>
    ensures { IfOk result (λ cases. cases.items ≡ record { payload = first.0; found = Some (record { number = 0; payload = first.1 }) } ∷ record { payload = second.0; found = Some (record { number = 1; payload = second.1 }) } ∷ []) }
{
    let cases = vec![in alloc;
        PairedCase {
            payload: first.0,
            found: Some(NumberedCase {
                number: 0,
                payload: first.1,
            }),
        },
        PairedCase {
            payload: second.0,
            found: Some(NumberedCase {
                number: 1,
                payload: second.1,
            }),
        },
    ]?;
    Ok(cases)
}

/// The cases of a variant.
pub fn variant_sum(
    alloc: Global,
    types: &ComponentTypes,
    from: TypeVariantIndex,
    to: TypeVariantIndex,
) -> Result<Sum, OutOfMemory>
    requires from_live { from.number < length types.now.variants }
    requires to_live { to.number < length types.now.variants }
    ensures { IfOk result (IsSumOf types.now (ty.Variant from) (ty.Variant to)) }
{
    let source = &types[from];
    let target = &types[to];
    let cases = pair_cases(alloc, &source.cases, &target.cases)?;
    Ok(Sum {
        from: source.info,
        to: target.info,
        cases,
    })
}

/// The cases of an option: `none` and `some`.
pub fn option_sum(
    alloc: Global,
    types: &ComponentTypes,
    from: TypeOptionIndex,
    to: TypeOptionIndex,
) -> Result<Sum, OutOfMemory>
    requires from_live { from.number < length types.now.options }
    requires to_live { to.number < length types.now.options }
    ensures { IfOk result (IsSumOf types.now (ty.Option from) (ty.Option to)) }
{
    let source = &types[from];
    let target = &types[to];
    let cases = two_cases(alloc, (None, None), (Some(source.ty), Some(target.ty)))?;
    Ok(Sum {
        from: source.info,
        to: target.info,
        cases,
    })
}

/// The cases of a result: `ok` and `error`.
pub fn result_sum(
    alloc: Global,
    types: &ComponentTypes,
    from: TypeResultIndex,
    to: TypeResultIndex,
) -> Result<Sum, OutOfMemory>
    requires from_live { from.number < length types.now.results }
    requires to_live { to.number < length types.now.results }
    ensures { IfOk result (IsSumOf types.now (ty.Result from) (ty.Result to)) }
{
    let source = &types[from];
    let target = &types[to];
    let cases = two_cases(alloc, (source.ok, target.ok), (source.err, target.err))?;
    Ok(Sum {
        from: source.info,
        to: target.info,
        cases,
    })
}

/// The place of a payload in a width of memory, in bytes.
pub fn payload_place(info: VariantInfo, memory64: bool) -> u32
    ensures { result ≡ bytes_by (width memory64) info.payload_offset32 info.payload_offset64 }
{
    if memory64 {
        info.payload_offset64
    } else {
        info.payload_offset32
    }
}

/// Writes a discriminant, the number of a case, to its place.
pub fn put_discriminant(
    w: &mut Writer,
    linear: LinearMemory,
    size: NumberSize,
    number: u32,
    target: TargetPlace<'_>,
) -> Result<(), OutOfMemory>
    ensures wrote { OnOk result (Wrote w.old w.new (discriminant_code (number_sized size) number (to_of linear target.entry))) }
    ensures below { number < 2 ^ 32 }
{
    open(w, linear, target)?;
    w.put(Instr::I32Const(number))?;
    write_number(w, linear, size, target)?;
    Ok(())
}

/// The zero of a type of numbers.
fn zero(ty: ValType) -> Instr
    ensures { result ≡ zero_const ty }
{
    match ty {
        ValType::I64 => Instr::I64Const(0),
        ValType::F32 => Instr::F32Const(0),
        ValType::F64 => Instr::F64Const(0),
        _ => Instr::I32Const(0),
    }
}

/// Puts a zero into a local.
fn put_zero(w: &mut Writer, local: TypedLocal) -> Result<(), OutOfMemory>
    ensures { OnOk result (Wrote w.old w.new (zero_const local.ty ∷ I.LocalSet local.local ∷ [])) }
{
    w.put(zero(local.ty))?;
    w.put(Instr::LocalSet(local.local))?;
    Ok(())
}

/// Puts zeros into locals.
fn put_zeros(w: &mut Writer, locals: &[TypedLocal]) -> Result<(), OutOfMemory>
    ensures { OnOk result (Wrote w.old w.new (zero_slots (slots_of_locals locals.now))) }
{
    for local in locals {
        put_zero(w, *local)?;
    }
    Ok(())
}

/// Puts zeros into the locals that a case leaves over; memory is left as it is.
pub fn put_left_over(
    w: &mut Writer,
    linear: LinearMemory,
    rest: TargetPlace<'_>,
) -> Result<(), OutOfMemory>
    ensures { OnOk result (Wrote w.old w.new (zero_code (to_of linear rest.entry))) }
{
    match rest {
        TargetPlace::Locals(locals) => put_zeros(w, locals),
        TargetPlace::Memory(_) => Ok(()),
    }
}
