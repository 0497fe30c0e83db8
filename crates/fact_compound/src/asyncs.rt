//! The functions of async adapters between two instances. The runtime calls two of them, which move the parameters and the results; the
//! third has the adapter's name, and hands the call to the runtime.

ghost use Rattle.std.specs.Prelude.{IfOk, OnOk, ◌≡◌, ◌+◌, ◌<◌, [], length, string_bytes};
ghost use Rattle.fact_emit.specs.Places.{slots_of_locals};
ghost use Rattle.fact_emit.specs.States.{with_callee};
ghost use Rattle.fact_compound.specs.AsyncParts.{callee_name, part_locals, part_name as name_of_part};
ghost use Rattle.fact_compound.specs.Asyncs.{AskingAsync, AskingPart, EmitsPart, PartSignature, WroteBodyOfPart, WrotePart, part_flags as flags_of_part, values_among};
ghost use Rattle.fact_compound.specs.Described.{AreOptionsImported};
ghost use Rattle.fact_compound.specs.Passed.{MovedPart};

use crate::adapters::AdapterData;
use crate::entries::compile_entry;
use crate::functions::{add_locals, finish_function, params_of};
use crate::tuples::{are_flat_results, move_params, move_results, tuples_of};
use fact_builder::ComponentTypesBuilder;
use fact_emit::{ModuleSections, TypedLocal, Writer};
use fact_kinds::Fuel;
use fact_steps::{hold_flags, push_locals, restore_flags};
use fact_types::{ComponentTypes, Signature};
use fact_wasm::{FuncName, OutOfMemory, ValType, WasmFunc};
use std::alloc::Global;
use std::mem;

/// A part of an async adapter, which has a function: the one that moves the parameters when the callee is to start, or the one that moves the results
/// that the callee returned.
#[derive(Clone, Copy, PartialEq, Eq)]
pub enum AsyncPart {
    Start,
    Return,
}

/// The locals of the function of a part: those of all arguments; those of the values, which are the first ones, since the return pointer may
/// stand behind them; that of the saved flags; and those of what it gives.
#[derive(Clone, Copy)]
pub struct PartLocals<'a> {
    pub args: &'a [TypedLocal],
    pub values: &'a [TypedLocal],
    pub saved: u32,
    pub given: &'a [TypedLocal],
}

/// The name that the function of a part is exported by.
fn part_name(alloc: Global, part: AsyncPart, adapter: &str) -> Result<String, OutOfMemory>
    ensures { IfOk result (λ name. string_bytes name ≡ name_of_part part adapter.now) }
{
    match part {
        AsyncPart::Start => format!(in alloc; "[async-start]{adapter}"),
        AsyncPart::Return => format!(in alloc; "[async-return]{adapter}"),
    }
}

/// The core signature of the function of a part.
fn part_signature(
    types: &ComponentTypesBuilder,
    adapter: &AdapterData,
    part: AsyncPart,
) -> Result<Signature, OutOfMemory>
    requires lower_live { adapter.now.lower.ty.number < length types.now.tables.functions }
    requires lift_live { adapter.now.lift.ty.number < length types.now.tables.functions }
    ensures { IfOk result (λ s. PartSignature types.now.tables adapter.now part s) }
{
    let lower = adapter.lower.side_sig();
    let lift = adapter.lift.side_sig();
    match part {
        AsyncPart::Start => types.async_start_signature(&lower, &lift),
        AsyncPart::Return => types.async_return_signature(&lower, &lift),
    }
}

/// The place of the flags that are 0 meanwhile: those of the instance that values go to.
fn part_flags(adapter: &AdapterData, part: AsyncPart) -> u32
    ensures { result ≡ flags_of_part part adapter.now }
{
    match part {
        AsyncPart::Start => adapter.lift.flags.number,
        AsyncPart::Return => adapter.lower.flags.number,
    }
}

/// Those of the arguments that are values.
fn part_values<'a>(
    types: &ComponentTypes,
    adapter: &AdapterData,
    part: AsyncPart,
    args: &'a [TypedLocal],
) -> &'a [TypedLocal]
    requires { adapter.now.lower.ty.number < length types.now.functions }
    ensures { values_among types.now adapter.now part (slots_of_locals args.now) (slots_of_locals result.now) }
{
    match part {
        AsyncPart::Start => args,
        AsyncPart::Return => {
            let (_, results) = tuples_of(types, adapter.lower.ty);
            let flat = are_flat_results(types, results, adapter.lower.options.async_);
            params_of(args, flat)
        }
    }
}

/// Moves the values of a part: the parameters, or the results.
fn move_part(
    types: &ComponentTypes,
    builder: &ComponentTypesBuilder,
    w: &mut Writer,
    fuel: &mut Fuel,
    adapter: &AdapterData,
    debug: bool,
    concurrency: bool,
    part: AsyncPart,
    locals: PartLocals<'_>,
) -> Result<(), OutOfMemory>
    requires lower_live { adapter.now.lower.ty.number < length types.now.functions }
    requires lift_live { adapter.now.lift.ty.number < length types.now.functions }
    requires options_imported { AreOptionsImported adapter.now w.old.sections }
    requires tables { builder.now.tables ≡ types.now }
    ensures { OnOk result (MovedPart types.now adapter.now debug concurrency part (part_locals locals.entry) fuel.old fuel.new w.old w.new) }
{
    let values = locals.values;
    let given = locals.given;
    match part {
        AsyncPart::Start => move_params(
            types,
            builder,
            w,
            fuel,
            adapter,
            debug,
            concurrency,
            values,
            given,
        ),
        AsyncPart::Return => {
            let args = locals.args;
            move_results(
                types,
                builder,
                w,
                fuel,
                adapter,
                debug,
                concurrency,
                values,
                given,
                args,
            )
        }
    }
}

/// Writes what the function of a part does, and leaves what it gives on the operand stack.
fn put_part(
    types: &ComponentTypes,
    builder: &ComponentTypesBuilder,
    w: &mut Writer,
    fuel: &mut Fuel,
    adapter: &AdapterData,
    debug: bool,
    concurrency: bool,
    part: AsyncPart,
    locals: PartLocals<'_>,
) -> Result<(), OutOfMemory>
    requires lower_live { adapter.now.lower.ty.number < length types.now.functions }
    requires lift_live { adapter.now.lift.ty.number < length types.now.functions }
    requires options_imported { AreOptionsImported adapter.now w.old.sections }
    requires tables { builder.now.tables ≡ types.now }
    ensures { OnOk result (EmitsPart types.now adapter.now debug concurrency part (part_locals locals.entry) fuel.old fuel.new w.old w.new) }
{
    let flags = part_flags(adapter, part);
    hold_flags(w, flags, locals.saved)?;
    move_part(
        types,
        builder,
        w,
        fuel,
        adapter,
        debug,
        concurrency,
        part,
        locals,
    )?;
    restore_flags(w, flags, locals.saved)?;
    push_locals(w, locals.given)?;
    Ok(())
}

/// Writes the body of the function of a part, with its locals, in a writer without locals and code.
fn write_part_body(
    types: &ComponentTypes,
    builder: &ComponentTypesBuilder,
    w: &mut Writer,
    fuel: &mut Fuel,
    adapter: &AdapterData,
    debug: bool,
    concurrency: bool,
    part: AsyncPart,
    signature: &Signature,
) -> Result<(), OutOfMemory>
    requires lower_live { adapter.now.lower.ty.number < length types.now.functions }
    requires lift_live { adapter.now.lift.ty.number < length types.now.functions }
    requires options_imported { AreOptionsImported adapter.now w.old.sections }
    requires no_code { w.old.code.items ≡ [] }
    requires no_locals { w.old.locals.items ≡ [] }
    requires tables { builder.now.tables ≡ types.now }
    ensures { OnOk result (WroteBodyOfPart types.now adapter.now debug concurrency part signature.now fuel.old w.old w.new) }
{
    let args = add_locals(w, signature.params.as_slice())?;
    let saved = w.add_local(ValType::I32)?;
    let given = add_locals(w, signature.results.as_slice())?;
    let taken = args.as_slice();
    let values = part_values(types, adapter, part, taken);
    let locals = PartLocals {
        args: taken,
        values,
        saved,
        given: given.as_slice(),
    };
    put_part(
        types,
        builder,
        w,
        fuel,
        adapter,
        debug,
        concurrency,
        part,
        locals,
    )?;
    Ok(())
}

/// Writes the function of a part, of the type of a number, over a module, to which it may add imports of functions of the runtime.
fn write_part(
    types: &ComponentTypes,
    builder: &ComponentTypesBuilder,
    sections: &mut ModuleSections,
    adapter: &AdapterData,
    debug: bool,
    concurrency: bool,
    part: AsyncPart,
    signature: &Signature,
    ty: u32,
    fuel: u32,
) -> Result<WasmFunc, OutOfMemory>
    requires lower_live { adapter.now.lower.ty.number < length types.now.functions }
    requires lift_live { adapter.now.lift.ty.number < length types.now.functions }
    requires options_imported { AreOptionsImported adapter.now sections.old }
    requires tables { builder.now.tables ≡ types.now }
    ensures { IfOk result (λ f. WrotePart types.now adapter.now debug concurrency fuel part signature.now ty sections.old sections.new f) }
{
    let alloc = sections.alloc();
    let mut w = Writer::over(alloc, mem::replace(sections, ModuleSections::new(alloc)));
    let mut fuel = Fuel::full(fuel);
    let written = write_part_body(
        types,
        builder,
        &mut w,
        &mut fuel,
        adapter,
        debug,
        concurrency,
        part,
        signature,
    );
    let function = finish_function(w, written, sections, signature.params.len(), ty)?;
    Ok(function)
}

/// Compiles the function of a part over the types of a builder, and answers its number among the functions that the module defines.
fn compile_part(
    types: &ComponentTypesBuilder,
    sections: &mut ModuleSections,
    adapter: &AdapterData,
    debug: bool,
    concurrency: bool,
    part: AsyncPart,
    fuel: u32,
) -> Result<u32, OutOfMemory>
    requires lower_live { adapter.now.lower.ty.number < length types.now.tables.functions }
    requires lift_live { adapter.now.lift.ty.number < length types.now.tables.functions }
    requires options_imported { AreOptionsImported adapter.now sections.old }
    requires ahead { length sections.old.functions < sections.old.numbered }
    ensures number { IfOk result (λ n. n ≡ length sections.old.functions) }
    ensures compiled { OnOk result (AskingPart types.now.tables adapter.now debug concurrency fuel part sections.old sections.new) }
{
    let signature = part_signature(types, adapter, part)?;
    let ty = sections.function(signature.params.as_slice(), signature.results.as_slice())?;
    let tables = types.component_types();
    let function = write_part(
        tables,
        types,
        sections,
        adapter,
        debug,
        concurrency,
        part,
        &signature,
        ty,
        fuel,
    )?;
    let number = sections.define(function)?;
    let name = part_name(sections.alloc(), part, adapter.name.as_str())?;
    sections.export(&name, FuncName::Defined(number))?;
    Ok(number)
}

/// Exports the callee of an adapter, so that code may hand it on by reference.
fn export_callee(sections: &mut ModuleSections, adapter: &AdapterData) -> Result<(), OutOfMemory>
    ensures { OnOk result (sections.new ≡ with_callee sections.old (callee_name adapter.now.name) adapter.now.callee.number) }
{
    let adapter_name = adapter.name.as_str();
    let name = format!(in sections.alloc(); "[adapter-callee]{adapter_name}")?;
    sections.export_callee(&name, adapter.callee)?;
    Ok(())
}

/// Compiles an async adapter between two instances over the types of a builder: see [`crate::functions::compile`].
pub fn compile_async(
    types: &ComponentTypesBuilder,
    sections: &mut ModuleSections,
    adapter: &AdapterData,
    debug: bool,
    concurrency: bool,
    fuel: u32,
) -> Result<(), OutOfMemory>
    requires lower_live { adapter.now.lower.ty.number < length types.now.tables.functions }
    requires lift_live { adapter.now.lift.ty.number < length types.now.tables.functions }
    requires options_imported { AreOptionsImported adapter.now sections.old }
    requires ahead { length sections.old.functions + 2 < sections.old.numbered }
    ensures { OnOk result (AskingAsync types.now.tables adapter.now debug concurrency fuel sections.old sections.new) }
{
    let start = compile_part(
        types,
        sections,
        adapter,
        debug,
        concurrency,
        AsyncPart::Start,
        fuel,
    )?;
    let return_ = compile_part(
        types,
        sections,
        adapter,
        debug,
        concurrency,
        AsyncPart::Return,
        fuel,
    )?;
    compile_entry(types, sections, adapter, start, return_)?;
    export_callee(sections, adapter)?;
    Ok(())
}
