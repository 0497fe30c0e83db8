//! The functions of helpers. They are written behind the functions that ask for them, the last asked for first.

ghost use Rattle.std.specs.Prelude.{IfOk, OnOk, ◌≡◌, ℕ, ◌+◌, ◌-◌, ◌^◌, ◌<◌, ◌≤◌, ◌++◌, [], Some, length, slice_get};
ghost use Rattle.std.specs.List.{range_with_len};
ghost use Rattle.fact_wasm.specs.declared.module.WasmFunc as func_is;
ghost use Rattle.fact_types.specs.Tables.{IsLive};
ghost use Rattle.fact_emit.specs.StringPieces.{AreSidesImported};
ghost use Rattle.fact_compound.specs.Asks.{CanBeWritten, sides_between};
ghost use Rattle.fact_compound.specs.Helpers.{AreWritable, CompiledHelpers, IsHelperSignature, IsTurn, WroteHelper, WroteHelperBody, WroteHelpers, is_on_stack as is_on_stack_at, results_of_helper, target_params as target_params_of};

use crate::functions::{add_locals, finish_function, params_of};
use crate::tuples::{tuple_source, tuple_target};
use fact_builder::ComponentTypesBuilder;
use fact_emit::{Helper, HelperLocation, HelperType, ModuleSections, Sides, Writer};
use fact_kinds::{Fuel, address_type, flat_types, helper_params};
use fact_steps::push_locals;
use fact_translate::translate_in_place;
use fact_types::{ComponentTypes, Signature};
use fact_wasm::{OutOfMemory, Seq, ValType, WasmFunc};
use std::alloc::{AllocError, Global};
use std::mem;

/// Whether values are on the operand stack.
fn is_on_stack(location: HelperLocation) -> bool
    ensures { result ≡ is_on_stack_at location }
{
    match location {
        HelperLocation::Stack => true,
        HelperLocation::Memory => false,
    }
}

/// The flat types of a target on the stack, and nothing for one in memory.
fn given_types(
    alloc: Global,
    types: &ComponentTypesBuilder,
    side: &HelperType,
) -> Result<Seq<ValType>, OutOfMemory>
    requires { IsLive types.now.tables side.now.ty }
    ensures { IfOk result (λ results. results_of_helper types.now.tables side.now results) }
{
    match side.loc {
        HelperLocation::Stack => flat_types(alloc, types, side.opts.linear.memory64, side.ty),
        HelperLocation::Memory => Ok(Seq::new(alloc)),
    }
}

/// Adds the type of the address of a target in memory.
fn add_address(params: &mut Seq<ValType>, side: &HelperType) -> Result<(), OutOfMemory>
    ensures { OnOk result (params.new ≡ params.old ++ target_params_of side.now.loc side.now.opts.linear.memory64) }
{
    match side.loc {
        HelperLocation::Stack => (),
        HelperLocation::Memory => params.push(address_type(side.opts.linear.memory64))?,
    }
    Ok(())
}

/// The core signature of a helper: an i64 for each flat type of its source, or its address, and behind that the address of its target; and the
/// flat types of a target that has none.
fn helper_signature(
    alloc: Global,
    types: &ComponentTypesBuilder,
    helper: &Helper,
) -> Result<Signature, OutOfMemory>
    requires from_live { IsLive types.now.tables helper.now.src.ty }
    requires to_live { IsLive types.now.tables helper.now.dst.ty }
    ensures { IfOk result (IsHelperSignature types.now.tables helper.now) }
{
    let mut params = helper_params(alloc, types.component_types(), &helper.src)?;
    add_address(&mut params, &helper.dst)?;
    let results = given_types(alloc, types, &helper.dst)?;
    Ok(Signature { params, results })
}

/// Writes the body of a helper, with its locals, in a writer without locals and code.
fn write_helper_body(
    types: &ComponentTypes,
    builder: &ComponentTypesBuilder,
    w: &mut Writer,
    fuel: &mut Fuel,
    helper: &Helper,
    debug: bool,
    concurrency: bool,
    signature: &Signature,
) -> Result<(), OutOfMemory>
    requires from_live { IsLive types.now helper.now.src.ty }
    requires to_live { IsLive types.now helper.now.dst.ty }
    requires imported { AreSidesImported (sides_between helper.now debug concurrency) w.old.sections }
    requires tables { builder.now.tables ≡ types.now }
    requires no_code { w.old.code.items ≡ [] }
    requires no_locals { w.old.locals.items ≡ [] }
    ensures { OnOk result (WroteHelperBody types.now debug concurrency helper.now signature.now fuel.old w.old w.new) }
{
    let sides = helper_sides(helper, debug, concurrency);
    let given = is_on_stack(helper.dst.loc);
    let params = add_locals(w, signature.params.as_slice())?;
    let results = add_locals(w, signature.results.as_slice())?;
    let values = params_of(params.as_slice(), given);
    let source = tuple_source(is_on_stack(helper.src.loc), values);
    let target = tuple_target(given, results.as_slice(), params.as_slice());
    let (from, to) = (helper.src.ty, helper.dst.ty);
    translate_in_place(types, builder, w, fuel, sides, from, to, source, target)?;
    push_locals(w, results.as_slice())?;
    Ok(())
}

/// The sides between which a helper moves values.
fn helper_sides(helper: &Helper, debug: bool, concurrency: bool) -> Sides
    ensures { result ≡ sides_between helper.now debug concurrency }
{
    Sides {
        from: helper.src.opts.linear(),
        to: helper.dst.opts.linear(),
        debug,
        concurrency,
    }
}

/// Writes the function of a helper over a module, to which it may add imports and further helpers.
fn write_helper(
    builder: &ComponentTypesBuilder,
    sections: &mut ModuleSections,
    helper: &Helper,
    debug: bool,
    concurrency: bool,
    fuel: u32,
) -> Result<WasmFunc, OutOfMemory>
    requires { CanBeWritten builder.now.tables debug concurrency sections.old helper.now }
    ensures { IfOk result (λ f. WroteHelper builder.now.tables debug concurrency fuel helper.now sections.old sections.new f) }
{
    let alloc = sections.alloc();
    let types = builder.component_types();
    let signature = helper_signature(alloc, builder, helper)?;
    let ty = sections.function(signature.params.as_slice(), signature.results.as_slice())?;
    let mut w = Writer::over(alloc, mem::replace(sections, ModuleSections::new(alloc)));
    let mut fuel = Fuel::full(fuel);
    let body_written = write_helper_body(
        types,
        builder,
        &mut w,
        &mut fuel,
        helper,
        debug,
        concurrency,
        &signature,
    );
    let function = finish_function(w, body_written, sections, signature.params.len(), ty)?;
    Ok(function)
}

/// A function without code, which stands in the place of one whose code is still to be written.
fn empty_function(alloc: Global) -> WasmFunc {
    WasmFunc {
        ty: 0,
        locals: Seq::new(alloc),
        body: Seq::new(alloc),
    }
}

/// Puts the helpers behind those before that were asked for, of which nothing is written, last on the waiting list.
fn add_waiting(
    sections: &ModuleSections,
    first: usize,
    waiting: &mut Seq<usize>,
    written: &mut Seq<WasmFunc>,
) -> Result<(), OutOfMemory>
    requires { first + length written.old ≤ length sections.now.helpers }
    ensures count { OnOk result (first + length written.new ≡ length sections.now.helpers) }
    ensures small { OnOk result (length sections.now.helpers < 2 ^ 64) }
    ensures same { OnOk result ((k : ℕ) (f : func_is.WasmFunc) → slice_get written.old k ≡ Some f → slice_get written.new k ≡ Some f) }
    ensures waits { OnOk result (waiting.new ≡ waiting.old ++ range_with_len (first + length written.old) (length sections.now.helpers - (first + length written.old))) }
{
    let count = sections.helper_count();
    for place in first + written.len()..count {
        written.push(empty_function(sections.alloc()))?;
        waiting.push(place)?;
    }
    Ok(())
}

/// Writes the helper of a place, and puts those that it is the first to ask for on the waiting list.
fn write_next(
    types: &ComponentTypesBuilder,
    sections: &mut ModuleSections,
    first: usize,
    place: usize,
    debug: bool,
    concurrency: bool,
    fuel: u32,
    waiting: &mut Seq<usize>,
    written: &mut Seq<WasmFunc>,
) -> Result<(), OutOfMemory>
    requires writable { AreWritable types.now.tables debug concurrency sections.old }
    requires first { first ≤ place }
    requires place { place < length sections.old.helpers }
    requires count { first + length written.old ≡ length sections.old.helpers }
    ensures { OnOk result (IsTurn types.now.tables debug concurrency fuel first place sections.old sections.new waiting.old waiting.new written.old written.new) }
{
    let Some(entry) = sections.helper_at(place) else {
        return Err(AllocError);
    };
    let function = write_helper(types, sections, &entry.0, debug, concurrency, fuel)?;
    drop(written.set(place - first, function));
    add_waiting(sections, first, waiting, written)?;
    Ok(())
}

/// Writes the helpers that wait, the last asked for first, and those that they ask for.
fn write_waiting(
    types: &ComponentTypesBuilder,
    sections: &mut ModuleSections,
    first: usize,
    debug: bool,
    concurrency: bool,
    fuel: u32,
    written: &mut Seq<WasmFunc>,
) -> Result<(), OutOfMemory>
    requires writable { AreWritable types.now.tables debug concurrency sections.old }
    requires first { first ≤ length sections.old.helpers }
    requires none { written.old ≡ [] }
    ensures { OnOk result (WroteHelpers types.now.tables debug concurrency fuel first sections.old sections.new written.new) }
{
    let mut waiting = Seq::new(sections.alloc());
    add_waiting(sections, first, &mut waiting, written)?;
    while let Some(place) = waiting.pop() {
        write_next(
            types,
            sections,
            first,
            place,
            debug,
            concurrency,
            fuel,
            &mut waiting,
            written,
        )?;
    }
    Ok(())
}

/// Puts functions behind those of a module.
fn define_all(sections: &mut ModuleSections, functions: Seq<WasmFunc>) -> Result<(), OutOfMemory>
    ensures { OnOk result (sections.new ≡ record sections.old { functions = sections.old.functions ++ functions }) }
{
    for function in functions.into_vec() {
        sections.define(function)?;
    }
    Ok(())
}

/// Compiles the helpers from a place on, and those that they ask for: their functions come behind those of the module, in the order in
/// which they were asked for.
pub fn compile_helpers(
    types: &ComponentTypesBuilder,
    sections: &mut ModuleSections,
    first: usize,
    debug: bool,
    concurrency: bool,
    fuel: u32,
) -> Result<(), OutOfMemory>
    requires writable { AreWritable types.now.tables debug concurrency sections.old }
    requires first { first ≤ length sections.old.helpers }
    ensures { OnOk result (CompiledHelpers types.now.tables debug concurrency fuel first sections.old sections.new) }
{
    let mut written = Seq::new(sections.alloc());
    let all_written = write_waiting(
        types,
        sections,
        first,
        debug,
        concurrency,
        fuel,
        &mut written,
    );
    match all_written {
        Ok(()) => {
            define_all(sections, written)?;
            Ok(())
        }
        Err(error) => {
            drop(written);
            Err(error)
        }
    }
}
