//! The functions of async adapters between two instances that have the adapters' names: each hands its call to the runtime, by a
//! prepare-call and then a start-call.

ghost use Rattle.std.specs.Prelude.{IfOk, OnOk, ◌≡◌, ◌++◌, ◌<◌, List, false, length};
ghost use Rattle.std.specs.List.{AllByRecursion};
ghost use Rattle.fact_types.specs.Adapters.{LinkedAdapter, Side};
ghost use Rattle.fact_types.specs.Functions.{HasSignature};
ghost use Rattle.fact_types.specs.Shapes.{Shape};
ghost use Rattle.fact_types.specs.Valid.{IsValid};
ghost use Rattle.fact_machine.specs.Numerics.{truth};
ghost use Rattle.fact_actions.specs.Adapters.{encoding_number as encoding_number_of, results_number as results_number_of};
ghost use Rattle.fact_compound.specs.Described.{DescribesEntry, DescribesSide, is_marked_type};
ghost use Rattle.fact_compound.specs.Entries.{CompiledEntry, ImportsCalls, WroteEntry, arguments_code, call_facts as call_facts_of, callee_facts as callee_facts_of, constants_code, entry_code, tuple_of_results, whether_any as whether_any_of};
ghost use Rattle.fact_compound.specs.Passing.{tuple_size};

use crate::adapters::{AdapterData, AdapterOptions};
use crate::tuples::tuples_of;
use fact_builder::ComponentTypesBuilder;
use fact_emit::{ModuleSections, StartCall};
use fact_entity::{EntityRef, TypeFuncIndex};
use fact_types::{ComponentTypes, InterfaceType, Signature, StringEncoding};
use fact_wasm::{FuncName, Instr, OutOfMemory, Seq, ValType, WasmFunc};
use std::alloc::{AllocError, Global};

/// What a prepare-call is told of results of an async lower side: that there are none, or that there are some.
const NO_RESULTS: u32 = 0xFFFF_FFFF;

const SOME_RESULTS: u32 = 0xFFFF_FFFE;

/// What it is told of results of a sync lower side of which one type has more core values than types have.
const MANY_RESULTS: u32 = 2_147_483_647;

/// What an adapter hands to the runtime by reference, by the numbers of its two other functions and of the callee, and where the module
/// has the two calls.
#[derive(Clone, Copy)]
pub struct EntryPlaces {
    pub start: u32,
    pub return_: u32,
    pub callee: u32,
    pub start_call: u32,
    pub prepare_call: u32,
}

/// The number of an encoding.
fn encoding_number(encoding: StringEncoding) -> u32
    ensures { result ≡ encoding_number_of encoding }
{
    match encoding {
        StringEncoding::Utf8 => 0,
        StringEncoding::Utf16 => 1,
        StringEncoding::CompactUtf16 => 2,
    }
}

/// 1 where it is so, and else 0.
fn truth_number(is_so: bool) -> u32
    ensures { result ≡ truth is_so }
{
    if is_so { 1 } else { 0 }
}

/// The number for results of an async lower side.
fn whether_any(results: &[InterfaceType]) -> u32
    ensures { result ≡ whether_any_of results.now }
{
    if results.is_empty() {
        NO_RESULTS
    } else {
        SOME_RESULTS
    }
}

/// How many core values these are the types of. More than have numbers are a want of memory.
fn count_of(types: &[ValType]) -> Result<u32, OutOfMemory>
    ensures { IfOk result (λ n. n ≡ length types.now) }
{
    match u32::try_from(types.len()) {
        Ok(count) => Ok(count),
        Err(_) => Err(AllocError),
    }
}

/// The number for the results that a prepare-call is told: of a sync lower side how many core values they are, and of an async one
/// whether there are any.
fn results_number(types: &ComponentTypesBuilder, lower: &AdapterOptions) -> Result<u32, OutOfMemory>
    requires { lower.now.ty.number < length types.now.tables.functions }
    ensures { (s : Side) → DescribesSide types.now.tables lower.now s → AllByRecursion IsValid s.results → IfOk result (λ n. n ≡ results_number_of s) }
{
    let results = types.results_of(lower.ty);
    if lower.options.async_ {
        return Ok(whether_any(results));
    }
    // Values take at least a byte for each of their core values, so that this is no limit.
    let bytes = results_size(types.component_types(), lower.ty);
    match types.flatten_types(lower.options.linear.memory64, bytes as usize, results)? {
        Some(flats) => {
            let count = count_of(flats.as_slice());
            drop(flats);
            count
        }
        None => Ok(MANY_RESULTS),
    }
}

/// The bytes of the tuple of a live function's results in a memory of 32 bits.
fn results_size(types: &ComponentTypes, ty: TypeFuncIndex) -> u32
    requires { ty.number < length types.now.functions }
    ensures { (ps rs : List Shape) → HasSignature types.now ty ps rs → result ≡ tuple_size false rs }
{
    let (_, results) = tuples_of(types, ty);
    types.canonical_abi(&InterfaceType::Tuple(results)).size32
}

/// The number of the tuple of a live function's results, and whether the function type is marked as async.
fn tuple_and_mark(types: &ComponentTypesBuilder, lift: &AdapterOptions) -> (u32, bool)
    requires { lift.now.ty.number < length types.now.tables.functions }
    ensures tuple { result.0 ≡ tuple_of_results types.now.tables lift.now.ty }
    ensures mark { result.1 ≡ is_marked_type types.now.tables lift.now.ty }
{
    let tables = types.component_types();
    tables.reveal();
    let func = &tables[lift.ty];
    (func.results.as_u32(), func.async_)
}

/// What a prepare-call is told besides functions and the adapter's own parameters: the instances, the number of the tuple of the callee's
/// results, the async mark, the encoding of the lift side, and the number for the results.
fn call_facts(
    alloc: Global,
    types: &ComponentTypesBuilder,
    adapter: &AdapterData,
) -> Result<Seq<u32>, OutOfMemory>
    requires lower_live { adapter.now.lower.ty.number < length types.now.tables.functions }
    requires lift_live { adapter.now.lift.ty.number < length types.now.tables.functions }
    ensures { (a : LinkedAdapter) → DescribesEntry types.now.tables adapter.now a → IfOk result (λ facts. facts ≡ call_facts_of a (tuple_of_results types.now.tables adapter.now.lift.ty)) }
{
    let (tuple, mark) = tuple_and_mark(types, &adapter.lift);
    let results = results_number(types, &adapter.lower)?;
    let facts = vec![in alloc;
        adapter.lower.instance.as_u32(),
        adapter.lift.instance.as_u32(),
        tuple,
        truth_number(mark),
        encoding_number(adapter.lift.options.string_encoding),
        results,
    ]?;
    Ok(Seq::from_vec(facts))
}

/// What a start-call is told besides the callee: how many core parameters and results it has, and 1 for an async lift side and 2 for an
/// async lower side.
fn callee_facts(
    alloc: Global,
    adapter: &AdapterData,
    lift: &Signature,
) -> Result<Seq<u32>, OutOfMemory>
    ensures { IfOk result (λ facts. facts ≡ callee_facts_of adapter.now lift.now) }
{
    let params = count_of(lift.params.as_slice())?;
    let results = count_of(lift.results.as_slice())?;
    let callee = truth_number(adapter.lift.options.async_);
    let caller = truth_number(adapter.lower.options.async_);
    let facts = vec![in alloc; params, results, callee + 2 * caller]?;
    Ok(Seq::from_vec(facts))
}

/// Puts constants behind code.
fn push_constants(code: &mut Vec<Instr>, numbers: &[u32]) -> Result<(), OutOfMemory>
    ensures { OnOk result (code.new.items ≡ code.old.items ++ constants_code numbers.now) }
{
    for number in numbers {
        code.push(Instr::I32Const(*number))?;
    }
    Ok(())
}

/// Puts what so many parameters hold behind code.
fn push_arguments(code: &mut Vec<Instr>, count: u32) -> Result<(), OutOfMemory>
    ensures { OnOk result (code.new.items ≡ code.old.items ++ arguments_code 0 count) }
{
    for number in 0..count {
        code.push(Instr::LocalGet(number))?;
    }
    Ok(())
}

/// The code of a function of so many parameters that hands its call to the runtime.
fn entry_body(
    alloc: Global,
    places: EntryPlaces,
    told: &[u32],
    params: u32,
    started: &[u32],
) -> Result<Seq<Instr>, OutOfMemory>
    ensures { IfOk result (λ body. body ≡ entry_code places told.now params started.now) }
{
    let mut code = Vec::new(alloc);
    code.push(Instr::RefFunc(FuncName::Defined(places.start)))?;
    code.push(Instr::RefFunc(FuncName::Defined(places.return_)))?;
    push_constants(&mut code, told)?;
    push_arguments(&mut code, params)?;
    code.push(Instr::Call(FuncName::Import(places.prepare_call)))?;
    code.push(Instr::RefFunc(FuncName::Import(places.callee)))?;
    push_constants(&mut code, started)?;
    code.push(Instr::Call(FuncName::Import(places.start_call)))?;
    Ok(Seq::from_vec(code))
}

/// Imports the two calls of an adapter, the start-call first, and tells where the module has what the code names.
fn import_calls(
    sections: &mut ModuleSections,
    adapter: &AdapterData,
    lower: &Signature,
    start: u32,
    return_: u32,
) -> Result<EntryPlaces, OutOfMemory>
    ensures { IfOk result (λ places. ImportsCalls adapter.now lower.now start return_ sections.old sections.new places) }
{
    let name = adapter.name.as_str();
    let call = StartCall {
        callback: adapter.lift.options.callback,
        post_return: adapter.lift.post_return,
    };
    let start_call = sections.start_call(name, call, lower.results.as_slice())?;
    let memory = adapter.lift.options.linear.memory;
    let prepare_call = sections.prepare_call(name, memory, lower.params.as_slice())?;
    Ok(EntryPlaces {
        start,
        return_,
        callee: adapter.callee.number,
        start_call,
        prepare_call,
    })
}

/// The function of an adapter that hands its call to the runtime, of the type of a number.
fn write_entry(
    types: &ComponentTypesBuilder,
    sections: &mut ModuleSections,
    adapter: &AdapterData,
    lower: &Signature,
    lift: &Signature,
    start: u32,
    return_: u32,
    ty: u32,
) -> Result<WasmFunc, OutOfMemory>
    requires lower_live { adapter.now.lower.ty.number < length types.now.tables.functions }
    requires lift_live { adapter.now.lift.ty.number < length types.now.tables.functions }
    ensures { IfOk result (λ f. WroteEntry types.now.tables adapter.now lower.now lift.now start return_ ty sections.old sections.new f) }
{
    let alloc = sections.alloc();
    let places = import_calls(sections, adapter, lower, start, return_)?;
    let facts = call_facts(alloc, types, adapter)?;
    let started = callee_facts(alloc, adapter, lift)?;
    let params = count_of(lower.params.as_slice())?;
    let body = entry_body(alloc, places, facts.as_slice(), params, started.as_slice())?;
    let locals = Seq::new(alloc);
    Ok(WasmFunc { ty, locals, body })
}

/// Compiles the function of an adapter that hands its call to the runtime, whose two other functions have these numbers: it comes behind
/// the functions of the module, its export under the adapter's name behind the exports, and its two calls behind the imports.
pub fn compile_entry(
    types: &ComponentTypesBuilder,
    sections: &mut ModuleSections,
    adapter: &AdapterData,
    start: u32,
    return_: u32,
) -> Result<(), OutOfMemory>
    requires lower_live { adapter.now.lower.ty.number < length types.now.tables.functions }
    requires lift_live { adapter.now.lift.ty.number < length types.now.tables.functions }
    ensures { OnOk result (CompiledEntry types.now.tables adapter.now start return_ sections.old sections.new) }
{
    let lower = types.lower_signature(&adapter.lower.side_sig())?;
    let lift = types.lift_signature(&adapter.lift.side_sig())?;
    let ty = sections.function(lower.params.as_slice(), lower.results.as_slice())?;
    let function = write_entry(types, sections, adapter, &lower, &lift, start, return_, ty)?;
    let number = sections.define(function)?;
    sections.export(adapter.name.as_str(), FuncName::Defined(number))?;
    Ok(())
}
