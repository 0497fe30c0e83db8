//! The functions of adapters, put into a module ([`compile`]); those of sync adapters are here, with their locals, and others beside.

ghost use Rattle.std.specs.Prelude.{IfOk, IsOk, OnOk, ◌≡◌, ◌-◌, ◌<◌, ◌++◌, ◌&&◌, ◌||◌, ◌∷◌, [], false, drop, length, map, take};
ghost use Rattle.fact_machine.specs.Typing.{local_types};
ghost use Rattle.fact_emit.specs.Places.{slots_of_locals};
ghost use Rattle.fact_compound.specs.Settings.{OnlySectionsChanged};
ghost use Rattle.fact_emit.specs.declared.writer.Local as local_is;
ghost use Rattle.fact_compound.specs.Compiled.{Compiled, CompiledOwn};
ghost use Rattle.fact_compound.specs.Described.{CanBeCompiled, is_async_data, is_marked_type};
ghost use Rattle.fact_compound.specs.Events.{AsksCalls};
ghost use Rattle.fact_compound.specs.Helpers.{HelpersAreThere};
ghost use Rattle.fact_compound.specs.Functions.{AddedContext, AddedLocals, AddedSyncLocals, core_slots, unless_passed, PutBody, WroteBody, WroteFunction, AskingSync, params_among};

use crate::adapters::{AdapterData, AdapterOptions};
use crate::asyncs::compile_async;
use crate::helpers::compile_helpers;
use crate::same_instance::compile_same_instance;
use crate::state::ModuleState;
use crate::syncs::{CallOptions, SyncLocals, put_sync};
use crate::tuples::{are_flat_results, tuples_of};
use fact_builder::ComponentTypesBuilder;
use fact_emit::{ContextLocals, Local, ModuleSections, TypedLocal, Writer};
use fact_kinds::Fuel;
use fact_steps::are_passed_on;
use fact_types::{ComponentTypes, InterfaceType, SideSig, Signature, TypeFuncIndex};
use fact_wasm::{FuncName, Instr, OutOfMemory, Seq, ValType, WasmFunc};
use std::alloc::Global;
use std::mem;

/// The locals of a sync adapter, as they are added; [`SyncLocals`], whose fields have the same names, lends them to its code. `core` has none where the
/// parameters are handed on as they are.
#[derive(Drop)]
pub struct AdapterLocals {
    pub args: Vec<TypedLocal>,
    pub saved: u32,
    pub lift_saved: u32,
    pub core: Vec<TypedLocal>,
    pub given: Vec<TypedLocal>,
    pub callee_context: ContextLocals,
    pub results: Vec<TypedLocal>,
    pub own_context: ContextLocals,
}

/// Adds a local of each of these types behind the others.
pub(crate) fn add_locals(w: &mut Writer, types: &[ValType]) -> Result<Vec<TypedLocal>, OutOfMemory>
    ensures { IfOk result (λ locals. AddedLocals w.old w.new types.now (slots_of_locals locals.items)) }
{
    let mut locals = Vec::new(w.alloc);
    for (at, ty) in types.iter().enumerate() {
        let local = w.add_local(*ty)?;
        locals.push(TypedLocal { local, ty: *ty })?;
    }
    Ok(locals)
}

/// The types of the callee's parameters, which need locals of their own unless they are handed on as they are.
fn types_unless_passed(types: &[ValType], passed: bool) -> &[ValType]
    ensures { result.now ≡ unless_passed passed types.now }
{
    if passed { &types[..0] } else { types }
}

/// Where the slots of the context are looked at, adds locals for them.
fn add_context(w: &mut Writer, context: bool) -> Result<ContextLocals, OutOfMemory>
    ensures { IfOk result (λ locals. AddedContext context w.old w.new locals) }
{
    if context {
        let first = w.add_local(ValType::I32)?;
        let second = w.add_local(ValType::I32)?;
        Ok(ContextLocals { first, second })
    } else {
        Ok(ContextLocals {
            first: 0,
            second: 0,
        })
    }
}

/// Adds the locals of a sync adapter, by the core signatures of its sides.
fn add_sync_locals(
    w: &mut Writer,
    lower: &Signature,
    lift: &Signature,
    passed: bool,
    context: bool,
) -> Result<AdapterLocals, OutOfMemory>
    ensures { IfOk result (λ l. AddedSyncLocals passed context w.old w.new lower.now lift.now l) }
{
    let args = add_locals(w, lower.params.as_slice())?;
    let saved = w.add_local(ValType::I32)?;
    let lift_saved = w.add_local(ValType::I32)?;
    let core = add_locals(w, types_unless_passed(lift.params.as_slice(), passed))?;
    let given = add_locals(w, lift.results.as_slice())?;
    let callee_context = add_context(w, context)?;
    let results = add_locals(w, lower.results.as_slice())?;
    let own_context = add_context(w, context)?;
    Ok(AdapterLocals {
        args,
        saved,
        lift_saved,
        core,
        given,
        callee_context,
        results,
        own_context,
    })
}

/// All locals but the last one.
fn all_but_last(locals: &[TypedLocal]) -> &[TypedLocal]
    ensures { result.now ≡ take (length locals.now - 1) locals.now }
{
    &locals[..locals.len().saturating_sub(1)]
}

/// The arguments without the return pointer, which there is where results are not flat.
pub(crate) fn params_of(args: &[TypedLocal], flat: bool) -> &[TypedLocal]
    ensures { slots_of_locals result.now ≡ params_among flat (slots_of_locals args.now) }
{
    if flat { args } else { all_but_last(args) }
}

/// The locals of the callee's parameters: the adapter's own where they are handed on as they are.
fn core_of<'a>(passed: bool, params: &'a [TypedLocal], core: &'a [TypedLocal]) -> &'a [TypedLocal]
    ensures { slots_of_locals result.now ≡ core_slots passed (slots_of_locals params.now) (slots_of_locals core.now) }
{
    if passed { params } else { core }
}

/// Writes the code of a sync adapter over its locals.
fn put_body(
    types: &ComponentTypes,
    builder: &ComponentTypesBuilder,
    w: &mut Writer,
    fuel: &mut Fuel,
    adapter: &AdapterData,
    debug: bool,
    options: CallOptions,
    passed: bool,
    locals: &AdapterLocals,
) -> Result<(), OutOfMemory>
    requires can { CanBeCompiled types.now adapter.now w.old.sections }
    requires tables { builder.now.tables ≡ types.now }
    ensures { OnOk result (PutBody types.now adapter.now debug options passed locals.now fuel.old fuel.new w.old w.new) }
{
    let (_, results) = tuples_of(types, adapter.lower.ty);
    let flat = are_flat_results(types, results, false);
    let params = params_of(locals.args.as_slice(), flat);
    let places = SyncLocals {
        passed,
        args: locals.args.as_slice(),
        params,
        saved: locals.saved,
        lift_saved: locals.lift_saved,
        core: core_of(passed, params, locals.core.as_slice()),
        given: locals.given.as_slice(),
        results: locals.results.as_slice(),
        callee_context: locals.callee_context,
        own_context: locals.own_context,
    };
    put_sync(types, builder, w, fuel, adapter, debug, options, places)?;
    Ok(())
}

/// Writes the body of a sync adapter, with its locals, in a writer without locals and code.
fn write_body(
    types: &ComponentTypes,
    builder: &ComponentTypesBuilder,
    w: &mut Writer,
    fuel: &mut Fuel,
    adapter: &AdapterData,
    debug: bool,
    options: CallOptions,
    lower: &Signature,
    lift: &Signature,
) -> Result<(), OutOfMemory>
    requires can { CanBeCompiled types.now adapter.now w.old.sections }
    requires no_code { w.old.code.items ≡ [] }
    requires no_locals { w.old.locals.items ≡ [] }
    requires tables { builder.now.tables ≡ types.now }
    ensures { OnOk result (WroteBody types.now adapter.now debug options lower.now lift.now fuel.old w.old w.new) }
{
    let passed = are_passed_on(types, adapter.lower.ty, adapter.lift.ty);
    let locals = add_sync_locals(w, lower, lift, passed, options.context)?;
    put_body(
        types, builder, w, fuel, adapter, debug, options, passed, &locals,
    )?;
    Ok(())
}

/// Puts a local behind runs of locals: into the last run, where that is of its type.
fn add_run(runs: &mut Seq<(u32, ValType)>, ty: ValType) -> Result<(), OutOfMemory>
    ensures { OnOk result (local_types runs.new ≡ local_types runs.old ++ ty ∷ []) }
{
    let Some((count, last)) = runs.pop() else {
        runs.push((1, ty))?;
        return Ok(());
    };
    if last == ty && count < u32::MAX {
        runs.push((count + 1, ty))?;
        return Ok(());
    }
    runs.push((count, last))?;
    runs.push((1, ty))?;
    Ok(())
}

/// Locals in runs of one type.
fn runs_of(alloc: Global, locals: &[Local]) -> Result<Seq<(u32, ValType)>, OutOfMemory>
    ensures { IfOk result (λ runs. local_types runs ≡ map (λ (l : local_is.Local). l.ty) locals.now) }
{
    let mut runs = Seq::new(alloc);
    for (at, local) in locals.iter().enumerate() {
        add_run(&mut runs, local.ty)?;
    }
    Ok(runs)
}

/// The locals behind so many parameters.
fn locals_behind(locals: &[Local], params: usize) -> &[Local]
    ensures { result.now ≡ drop params locals.now }
{
    &locals[params.min(locals.len())..]
}

/// The function of a code and of locals, of which the first are the parameters.
fn function_of(
    alloc: Global,
    code: Vec<Instr>,
    locals: Vec<Local>,
    params: usize,
    ty: u32,
) -> Result<WasmFunc, OutOfMemory>
    ensures ty { IfOk result (λ f. f.ty ≡ ty) }
    ensures body { IfOk result (λ f. f.body ≡ code.items) }
    ensures locals { IfOk result (λ f. local_types f.locals ≡ map (λ (l : local_is.Local). l.ty) (drop params locals.items)) }
{
    let runs = runs_of(alloc, locals_behind(locals.as_slice(), params));
    drop(locals);
    match runs {
        Ok(runs) => Ok(WasmFunc {
            ty,
            locals: runs,
            body: Seq::from_vec(code),
        }),
        Err(error) => {
            drop(code);
            Err(error)
        }
    }
}

/// The function of what a writer holds, of which the first locals are so many parameters, or none where what was to be written was not. The
/// module that the writer held goes back to its place in either case.
pub(crate) fn finish_function(
    w: Writer,
    written: Result<(), OutOfMemory>,
    sections: &mut ModuleSections,
    params: usize,
    ty: u32,
) -> Result<WasmFunc, OutOfMemory>
    ensures sections { sections.new ≡ w.sections }
    ensures written { OnOk result (IsOk written) }
    ensures ty { IfOk result (λ f. f.ty ≡ ty) }
    ensures body { IfOk result (λ f. f.body ≡ w.code.items) }
    ensures locals { IfOk result (λ f. local_types f.locals ≡ map (λ (l : local_is.Local). l.ty) (drop params w.locals.items)) }
{
    let alloc = w.alloc;
    let (new_sections, code, locals) = w.into_parts();
    drop(mem::replace(sections, new_sections));
    match written {
        Ok(()) => {
            let function = function_of(alloc, code, locals, params, ty)?;
            Ok(function)
        }
        Err(error) => {
            drop(code);
            drop(locals);
            Err(error)
        }
    }
}

/// Writes the function of a sync adapter, of the type of a number, over a module, to which it may add imports of functions of the runtime.
fn write_function(
    types: &ComponentTypes,
    builder: &ComponentTypesBuilder,
    sections: &mut ModuleSections,
    adapter: &AdapterData,
    debug: bool,
    options: CallOptions,
    lower: &Signature,
    lift: &Signature,
    ty: u32,
    fuel: u32,
) -> Result<WasmFunc, OutOfMemory>
    requires can { CanBeCompiled types.now adapter.now sections.old }
    requires tables { builder.now.tables ≡ types.now }
    ensures { IfOk result (λ f. WroteFunction types.now adapter.now debug options fuel lower.now lift.now ty sections.old sections.new f) }
{
    let alloc = sections.alloc();
    // The writer owns the module while it writes, and gives it back.
    let mut w = Writer::over(alloc, mem::replace(sections, ModuleSections::new(alloc)));
    let mut fuel = Fuel::full(fuel);
    let written = write_body(
        types, builder, &mut w, &mut fuel, adapter, debug, options, lower, lift,
    );
    let function = finish_function(w, written, sections, lower.params.len(), ty)?;
    Ok(function)
}

/// What a side's core signature hangs on, of a sync side.
fn sync_side(side: &AdapterOptions) -> SideSig
    ensures ty { result.ty ≡ side.now.ty }
    ensures sync { result.async_ ≡ false }
    ensures wide { result.memory64 ≡ side.now.options.linear.memory64 }
{
    SideSig {
        ty: side.ty,
        async_: false,
        callback: false,
        memory64: side.options.linear.memory64,
    }
}

/// Whether both hold. A call of its own, since what is known of a value that `&&` gives is told by branches.
fn both(first: bool, second: bool) -> bool
    ensures { result ≡ (first && second) }
{
    first && second
}

/// Whether one of two holds.
fn either(first: bool, second: bool) -> bool
    ensures { result ≡ (first || second) }
{
    first || second
}

/// What the code of an adapter asks of the runtime.
fn call_options(
    builder: &ComponentTypesBuilder,
    adapter: &AdapterData,
    concurrency: bool,
    exceptions: bool,
) -> CallOptions
    requires { adapter.now.lower.ty.number < length builder.now.tables.functions }
    ensures { AsksCalls builder.now.tables adapter.now concurrency exceptions result }
{
    let tables = builder.component_types();
    let (params, _) = tuples_of(tables, adapter.lower.ty);
    let lends = builder.ty_contains_borrow_resource(&InterfaceType::Tuple(params));
    let posts = adapter.lift.post_return.is_some();
    let entered = both(concurrency, !adapter.transparent);
    CallOptions {
        concurrency,
        told: either(entered, lends),
        context: both(concurrency, posts),
        barrier: exceptions,
    }
}

/// Compiles a sync adapter over the types of a builder: see `compile`.
fn compile_sync(
    builder: &ComponentTypesBuilder,
    sections: &mut ModuleSections,
    adapter: &AdapterData,
    debug: bool,
    concurrency: bool,
    exceptions: bool,
    fuel: u32,
) -> Result<(), OutOfMemory>
    requires can { CanBeCompiled builder.now.tables adapter.now sections.old }
    requires ahead { length sections.old.functions < sections.old.numbered }
    ensures { OnOk result (AskingSync builder.now.tables adapter.now debug concurrency exceptions fuel sections.old sections.new) }
{
    let lower = builder.lower_signature(&sync_side(&adapter.lower))?;
    let lift = builder.lift_signature(&sync_side(&adapter.lift))?;
    let ty = sections.function(lower.params.as_slice(), lower.results.as_slice())?;
    let tables = builder.component_types();
    let options = call_options(builder, adapter, concurrency, exceptions);
    let function = write_function(
        tables, builder, sections, adapter, debug, options, &lower, &lift, ty, fuel,
    )?;
    let number = sections.define(function)?;
    sections.export(adapter.name.as_str(), FuncName::Defined(number))?;
    Ok(())
}

/// Whether a live function type is marked as async.
fn is_marked(types: &ComponentTypes, ty: TypeFuncIndex) -> bool
    requires { ty.number < length types.now.functions }
    ensures { result ≡ is_marked_type types.now ty }
{
    types.reveal();
    types[ty].async_
}

/// Whether an adapter is async: one of its sides is, or a function type is marked as async.
fn is_async(types: &ComponentTypes, adapter: &AdapterData) -> bool
    requires lower_live { adapter.now.lower.ty.number < length types.now.functions }
    requires lift_live { adapter.now.lift.ty.number < length types.now.functions }
    ensures { result ≡ is_async_data types.now adapter.now }
{
    let sides = adapter.lift.options.async_ || adapter.lower.options.async_;
    let marks = is_marked(types, adapter.lift.ty) || is_marked(types, adapter.lower.ty);
    sides || marks
}

/// Compiles an adapter's own functions, which are numbered before they are written.
fn compile_own(state: &mut ModuleState<'_>, adapter: &AdapterData) -> Result<(), OutOfMemory>
    requires can { CanBeCompiled state.old.builder.now.tables adapter.now state.old.sections }
    ensures own { OnOk result (CompiledOwn state.old.builder.now.tables adapter.now state.old.tunables.now.debug_adapter_modules state.old.tunables.now.concurrency_support state.old.features.exceptions state.old.tunables.now.fuel state.old.sections state.new.sections) }
    ensures keeps { OnlySectionsChanged state.old state.new }
{
    let types = state.builder;
    let debug = state.tunables.debug_adapter_modules;
    let concurrency = state.tunables.concurrency_support;
    let exceptions = state.features.exceptions;
    let fuel = state.tunables.fuel;
    let sections = &mut state.sections;
    if adapter.lift.instance == adapter.lower.instance {
        sections.number_functions(1)?;
        compile_same_instance(types, sections, adapter)?;
        return Ok(());
    }
    if is_async(types.component_types(), adapter) {
        sections.number_functions(3)?;
        compile_async(types, sections, adapter, debug, concurrency, fuel)?;
        return Ok(());
    }
    sections.number_functions(1)?;
    compile_sync(
        types,
        sections,
        adapter,
        debug,
        concurrency,
        exceptions,
        fuel,
    )?;
    Ok(())
}

/// Compiles an adapter over the types, the tunables and the features of a module: its functions come behind those of the module, their
/// exports behind the exports, and the functions of the runtime that they call behind the imports, where they are new. An adapter
/// within one instance traps at each call. Any other one has one function where it is sync, and three where it is async: two move the
/// parameters and the results when the runtime calls them, and the one that has the adapter's name hands the call to the runtime. What the
/// fuel of a function does not cover it leaves to helpers; those that no function asked for before come behind the adapter's own functions. The
/// types are live, and the data's numbers are those of imports of the module. After a want of memory the module may have types, imports
/// and functions that nothing uses, a function without its export, and helpers without functions.
pub fn compile(state: &mut ModuleState<'_>, adapter: &AdapterData) -> Result<(), OutOfMemory>
    requires can { CanBeCompiled state.old.builder.now.tables adapter.now state.old.sections }
    requires helpers { HelpersAreThere state.old.builder.now.tables state.old.tunables.now.debug_adapter_modules state.old.tunables.now.concurrency_support state.old.tunables.now.fuel state.old.sections }
    ensures compiled { OnOk result (Compiled state.old.builder.now.tables adapter.now state.old.tunables.now.debug_adapter_modules state.old.tunables.now.concurrency_support state.old.features.exceptions state.old.tunables.now.fuel state.old.sections state.new.sections) }
    ensures keeps { OnlySectionsChanged state.old state.new }
{
    let types = state.builder;
    let debug = state.tunables.debug_adapter_modules;
    let concurrency = state.tunables.concurrency_support;
    let fuel = state.tunables.fuel;
    let helpers = state.sections.helper_count();
    compile_own(state, adapter)?;
    let sections = &mut state.sections;
    compile_helpers(types, sections, helpers, debug, concurrency, fuel)?;
    Ok(())
}
