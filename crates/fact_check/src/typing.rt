//! Whether code is well typed (core specification, "Validation", "Instructions").

ghost use Rattle.std.specs.Prelude.{◌≡◌, IfOk, Some, true};
ghost use Rattle.std.specs.List.{list_all};
ghost use Rattle.fact_machine.specs.Typing.{only_if, code_typing, declares_numbers, is_catch, is_target, is_typed_body, is_typed_function, load_typing, store_typing, typing_row};
ghost use Rattle.fact_check.specs.Operands.{operands_of};
ghost use Rattle.fact_wasm.specs.declared.instr.Instr.{out-Instr};
ghost use Rattle.fact_wasm.specs.declared.instr.Instr.TheOpen as kind;
ghost use Rattle.fact_check.specs.Sections.{AreExported, IsCodeContext, IsSectionOf, body_ends, context_of, is_conditional, is_handler, is_simple, row_of};

use crate::OutOfMemory;
use crate::context::{
    BlockTypes, CodeContext, address_at, address_type, function_type, global, is_exported, label,
    memory64, types_of_block,
};
use crate::exported::Exported;
use crate::locals::{ends_of, local_type};
use crate::operands::{Operands, is_number};
use crate::plain::{operate, plain_of};
use crate::section::Section;
use fact_wasm::{FuncName, FuncType, Instr, MemArg, Seq, ValType, WasmFunc, WasmModule};
use std::alloc::Global;

/// Whether a label is there that takes nothing.
fn is_catch(context: &CodeContext, labels: &[&[ValType]], n: u32) -> bool
    ensures { result ≡ is_catch (context_of context.now labels.now) n }
{
    match label(labels, n) {
        Some(takes) => takes.len() == 0,
        None => false,
    }
}

fn are_catches(context: &CodeContext, labels: &[&[ValType]], catches: &[u32]) -> bool
    ensures { result ≡ list_all (is_catch (context_of context.now labels.now)) catches.now }
{
    for n in catches {
        if !is_catch(context, labels, *n) {
            return false;
        }
    }
    true
}

/// Whether a label is there that takes so many operands, and they are there.
fn is_target(
    context: &CodeContext,
    labels: &[&[ValType]],
    arity: usize,
    operands: &Operands,
    n: u32,
) -> bool
    ensures { result ≡ is_target (context_of context.now labels.now) arity (operands_of operands.now) n }
{
    match label(labels, n) {
        Some(takes) => takes.len() == arity && operands.end_in(takes),
        None => false,
    }
}

fn are_targets(
    context: &CodeContext,
    labels: &[&[ValType]],
    arity: usize,
    operands: &Operands,
    table: &[u32],
) -> bool
    ensures { result ≡ list_all (is_target (context_of context.now labels.now) arity (operands_of operands.now)) table.now }
{
    for n in table {
        if !is_target(context, labels, arity, operands, *n) {
            return false;
        }
    }
    true
}

fn load(
    context: &CodeContext,
    labels: &[&[ValType]],
    operands: &mut Operands,
    natural: u32,
    ty: ValType,
    place: MemArg,
) -> Result<bool, OutOfMemory>
    requires { IsCodeContext context.now }
    ensures { IfOk result (λ typed. load_typing natural ty place (context_of context.now labels.now) (operands_of operands.old) ≡ only_if typed (Some (operands_of operands.new))) }
{
    match address_at(context, natural, place) {
        Some(address) => operands.change(&[address], &[ty]),
        None => Ok(false),
    }
}

fn store(
    context: &CodeContext,
    labels: &[&[ValType]],
    operands: &mut Operands,
    natural: u32,
    ty: ValType,
    place: MemArg,
) -> Result<bool, OutOfMemory>
    requires { IsCodeContext context.now }
    ensures { IfOk result (λ typed. store_typing natural ty place (context_of context.now labels.now) (operands_of operands.old) ≡ only_if typed (Some (operands_of operands.new))) }
{
    match address_at(context, natural, place) {
        Some(address) => operands.change(&[address, ty], &[]),
        None => Ok(false),
    }
}

/// What a branch makes of operands.
fn branch(
    alloc: Global,
    context: &CodeContext,
    labels: &[&[ValType]],
    operands: &mut Operands,
    n: u32,
) -> bool
    ensures { typing_row (kind.Br n) (context_of context.now labels.now) (operands_of operands.old) ≡ only_if result (Some (operands_of operands.new)) }
{
    match label(labels, n) {
        Some(takes) => operands.jump(alloc, takes),
        None => false,
    }
}

fn branch_if(
    context: &CodeContext,
    labels: &[&[ValType]],
    operands: &mut Operands,
    n: u32,
) -> Result<bool, OutOfMemory>
    ensures { IfOk result (λ typed. typing_row (kind.BrIf n) (context_of context.now labels.now) (operands_of operands.old) ≡ only_if typed (Some (operands_of operands.new))) }
{
    match label(labels, n) {
        Some(takes) => {
            if !operands.pop(ValType::I32) {
                return Ok(false);
            }
            operands.change(takes, takes)
        }
        None => Ok(false),
    }
}

fn branch_table(
    alloc: Global,
    context: &CodeContext,
    labels: &[&[ValType]],
    operands: &mut Operands,
    table: &[u32],
    last: u32,
) -> bool
    ensures { typing_row (kind.BrTable table.now last) (context_of context.now labels.now) (operands_of operands.old) ≡ only_if result (Some (operands_of operands.new)) }
{
    match label(labels, last) {
        Some(takes) => {
            if !operands.pop(ValType::I32) {
                return false;
            }
            if !are_targets(context, labels, takes.len(), operands, table) {
                return false;
            }
            operands.jump(alloc, takes)
        }
        None => false,
    }
}

fn call(
    context: &CodeContext,
    labels: &[&[ValType]],
    operands: &mut Operands,
    func: FuncName,
) -> Result<bool, OutOfMemory>
    requires { IsCodeContext context.now }
    ensures { IfOk result (λ typed. typing_row (kind.Call func) (context_of context.now labels.now) (operands_of operands.old) ≡ only_if typed (Some (operands_of operands.new))) }
{
    match function_type(context, func) {
        Some(ty) => operands.change(ty.params.as_slice(), ty.results.as_slice()),
        None => Ok(false),
    }
}

/// What a reference to a function makes of operands, which has to be exported.
fn reference(
    context: &CodeContext,
    labels: &[&[ValType]],
    operands: &mut Operands,
    func: FuncName,
) -> Result<bool, OutOfMemory>
    requires { IsCodeContext context.now }
    ensures { IfOk result (λ typed. typing_row (kind.RefFunc func) (context_of context.now labels.now) (operands_of operands.old) ≡ only_if typed (Some (operands_of operands.new))) }
{
    match function_type(context, func) {
        Some(_) => {
            if !is_exported(context, func) {
                return Ok(false);
            }
            operands.change(&[], &[ValType::FuncRef])
        }
        None => Ok(false),
    }
}

/// What a choice between two operands makes of operands.
fn select(
    context: &CodeContext,
    labels: &[&[ValType]],
    operands: &mut Operands,
) -> Result<bool, OutOfMemory>
    ensures { IfOk result (λ typed. typing_row kind.Select (context_of context.now labels.now) (operands_of operands.old) ≡ only_if typed (Some (operands_of operands.new))) }
{
    if !operands.pop(ValType::I32) {
        return Ok(false);
    }
    operands.choose()
}

fn get_local(
    context: &CodeContext,
    labels: &[&[ValType]],
    operands: &mut Operands,
    n: u32,
) -> Result<bool, OutOfMemory>
    requires { IsCodeContext context.now }
    ensures { IfOk result (λ typed. typing_row (kind.LocalGet n) (context_of context.now labels.now) (operands_of operands.old) ≡ only_if typed (Some (operands_of operands.new))) }
{
    match local_type(context.params, context.locals, &context.ends, n) {
        Some(ty) => operands.change(&[], &[ty]),
        None => Ok(false),
    }
}

fn set_local(
    context: &CodeContext,
    labels: &[&[ValType]],
    operands: &mut Operands,
    n: u32,
) -> Result<bool, OutOfMemory>
    requires { IsCodeContext context.now }
    ensures { IfOk result (λ typed. typing_row (kind.LocalSet n) (context_of context.now labels.now) (operands_of operands.old) ≡ only_if typed (Some (operands_of operands.new))) }
{
    match local_type(context.params, context.locals, &context.ends, n) {
        Some(ty) => operands.change(&[ty], &[]),
        None => Ok(false),
    }
}

fn tee_local(
    context: &CodeContext,
    labels: &[&[ValType]],
    operands: &mut Operands,
    n: u32,
) -> Result<bool, OutOfMemory>
    requires { IsCodeContext context.now }
    ensures { IfOk result (λ typed. typing_row (kind.LocalTee n) (context_of context.now labels.now) (operands_of operands.old) ≡ only_if typed (Some (operands_of operands.new))) }
{
    match local_type(context.params, context.locals, &context.ends, n) {
        Some(ty) => operands.change(&[ty], &[ty]),
        None => Ok(false),
    }
}

fn get_global(
    context: &CodeContext,
    labels: &[&[ValType]],
    operands: &mut Operands,
    n: u32,
) -> Result<bool, OutOfMemory>
    requires { IsCodeContext context.now }
    ensures { IfOk result (λ typed. typing_row (kind.GlobalGet n) (context_of context.now labels.now) (operands_of operands.old) ≡ only_if typed (Some (operands_of operands.new))) }
{
    match global(context, n) {
        Some((ty, _)) => operands.change(&[], &[ty]),
        None => Ok(false),
    }
}

/// What the setting of a global makes of operands, which has to be one that may be set.
fn set_global(
    context: &CodeContext,
    labels: &[&[ValType]],
    operands: &mut Operands,
    n: u32,
) -> Result<bool, OutOfMemory>
    requires { IsCodeContext context.now }
    ensures { IfOk result (λ typed. typing_row (kind.GlobalSet n) (context_of context.now labels.now) (operands_of operands.old) ≡ only_if typed (Some (operands_of operands.new))) }
{
    match global(context, n) {
        Some((ty, true)) => operands.change(&[ty], &[]),
        _ => Ok(false),
    }
}

fn memory_size(
    context: &CodeContext,
    labels: &[&[ValType]],
    operands: &mut Operands,
    n: u32,
) -> Result<bool, OutOfMemory>
    requires { IsCodeContext context.now }
    ensures { IfOk result (λ typed. typing_row (kind.MemorySize n) (context_of context.now labels.now) (operands_of operands.old) ≡ only_if typed (Some (operands_of operands.new))) }
{
    match memory64(context, n) {
        Some(memory64) => operands.change(&[], &[address_type(memory64)]),
        None => Ok(false),
    }
}

/// What an instruction that has no bodies makes of operands, where it is well typed.
fn simple(
    alloc: Global,
    context: &CodeContext,
    labels: &[&[ValType]],
    operands: &mut Operands,
    instr: &Instr,
) -> Result<bool, OutOfMemory>
    requires context { IsCodeContext context.now }
    requires simple { is_simple (out-Instr instr.now) ≡ true }
    ensures { IfOk result (λ typed. row_of instr.now (context_of context.now labels.now) (operands_of operands.old) ≡ only_if typed (Some (operands_of operands.new))) }
{
    match instr {
        Instr::Unreachable => Ok(operands.jump(alloc, &[])),
        Instr::Br(n) => Ok(branch(alloc, context, labels, operands, *n)),
        Instr::BrIf(n) => branch_if(context, labels, operands, *n),
        Instr::BrTable(table, last) => {
            let table = table.as_slice();
            Ok(branch_table(alloc, context, labels, operands, table, *last))
        }
        Instr::Call(func) => call(context, labels, operands, *func),
        Instr::RefFunc(func) => reference(context, labels, operands, *func),
        Instr::Drop => Ok(operands.drop_operand()),
        Instr::Select => select(context, labels, operands),
        Instr::LocalGet(n) => get_local(context, labels, operands, *n),
        Instr::LocalSet(n) => set_local(context, labels, operands, *n),
        Instr::LocalTee(n) => tee_local(context, labels, operands, *n),
        Instr::GlobalGet(n) => get_global(context, labels, operands, *n),
        Instr::GlobalSet(n) => set_global(context, labels, operands, *n),
        Instr::MemorySize(n) => memory_size(context, labels, operands, *n),
        Instr::I32Load(place) => load(context, labels, operands, 2, ValType::I32, *place),
        Instr::I64Load(place) => load(context, labels, operands, 3, ValType::I64, *place),
        Instr::F32Load(place) => load(context, labels, operands, 2, ValType::F32, *place),
        Instr::F64Load(place) => load(context, labels, operands, 3, ValType::F64, *place),
        Instr::I32Load8S(place) | Instr::I32Load8U(place) => {
            load(context, labels, operands, 0, ValType::I32, *place)
        }
        Instr::I32Load16S(place) | Instr::I32Load16U(place) => {
            load(context, labels, operands, 1, ValType::I32, *place)
        }
        Instr::I32Store(place) => store(context, labels, operands, 2, ValType::I32, *place),
        Instr::I64Store(place) => store(context, labels, operands, 3, ValType::I64, *place),
        Instr::F32Store(place) => store(context, labels, operands, 2, ValType::F32, *place),
        Instr::F64Store(place) => store(context, labels, operands, 3, ValType::F64, *place),
        Instr::I32Store8(place) => store(context, labels, operands, 0, ValType::I32, *place),
        Instr::I32Store16(place) => store(context, labels, operands, 1, ValType::I32, *place),
        _ => unreachable!(),
    }
}

/// What a conditional makes of operands, where it is well typed. The labels stay.
#[cycle(typed)]
fn conditional<'m>(
    alloc: Global,
    context: &CodeContext<'m>,
    labels: &mut Seq<&'m [ValType]>,
    operands: &mut Operands,
    instr: &Instr,
) -> Result<bool, OutOfMemory>
    requires context { IsCodeContext context.now }
    requires conditional { is_conditional (out-Instr instr.now) ≡ true }
    ensures typed { IfOk result (λ typed. row_of instr.now (context_of context.now labels.old) (operands_of operands.old) ≡ only_if typed (Some (operands_of operands.new))) }
    ensures labels { IfOk result (λ typed. labels.new ≡ labels.old) }
{
    let Instr::If(ty, body, other) = instr else {
        unreachable!()
    };
    if !operands.pop(ValType::I32) {
        return Ok(false);
    }
    let Some(types) = types_of_block(context.module.types.as_slice(), *ty) else {
        return Ok(false);
    };
    let body = body.as_slice();
    if !is_body(alloc, context, labels, types.results, types, body)? {
        return Ok(false);
    }
    let is_other = match other {
        Some(other) => {
            let other = other.as_slice();
            is_body(alloc, context, labels, types.results, types, other)?
        }
        None => is_body(alloc, context, labels, types.results, types, &[])?,
    };
    if !is_other {
        return Ok(false);
    }
    operands.change(types.params, types.results)
}

/// What a handler makes of operands, where it is well typed. The labels stay.
#[cycle(typed)]
fn handler<'m>(
    alloc: Global,
    context: &CodeContext<'m>,
    labels: &mut Seq<&'m [ValType]>,
    operands: &mut Operands,
    instr: &Instr,
) -> Result<bool, OutOfMemory>
    requires context { IsCodeContext context.now }
    requires handler { is_handler (out-Instr instr.now) ≡ true }
    ensures typed { IfOk result (λ typed. row_of instr.now (context_of context.now labels.old) (operands_of operands.old) ≡ only_if typed (Some (operands_of operands.new))) }
    ensures labels { IfOk result (λ typed. labels.new ≡ labels.old) }
{
    let Instr::TryTable(ty, catches, body) = instr else {
        unreachable!()
    };
    let Some(types) = types_of_block(context.module.types.as_slice(), *ty) else {
        return Ok(false);
    };
    if !are_catches(context, labels.as_slice(), catches.as_slice()) {
        return Ok(false);
    }
    let body = body.as_slice();
    if !is_body(alloc, context, labels, types.results, types, body)? {
        return Ok(false);
    }
    operands.change(types.params, types.results)
}

/// What an instruction makes of operands, where it is well typed. The labels stay.
#[cycle(typed)]
fn instruction<'m>(
    alloc: Global,
    context: &CodeContext<'m>,
    labels: &mut Seq<&'m [ValType]>,
    operands: &mut Operands,
    instr: &Instr,
) -> Result<bool, OutOfMemory>
    requires { IsCodeContext context.now }
    ensures typed { IfOk result (λ typed. row_of instr.now (context_of context.now labels.old) (operands_of operands.old) ≡ only_if typed (Some (operands_of operands.new))) }
    ensures labels { IfOk result (λ typed. labels.new ≡ labels.old) }
{
    if let Some(plain) = plain_of(instr) {
        return operate(operands, plain);
    }
    match instr {
        Instr::Block(ty, body) => {
            let Some(types) = types_of_block(context.module.types.as_slice(), *ty) else {
                return Ok(false);
            };
            let body = body.as_slice();
            if !is_body(alloc, context, labels, types.results, types, body)? {
                return Ok(false);
            }
            operands.change(types.params, types.results)
        }
        Instr::Loop(ty, body) => {
            let Some(types) = types_of_block(context.module.types.as_slice(), *ty) else {
                return Ok(false);
            };
            let body = body.as_slice();
            if !is_body(alloc, context, labels, types.params, types, body)? {
                return Ok(false);
            }
            operands.change(types.params, types.results)
        }
        Instr::If(_, _, _) => conditional(alloc, context, labels, operands, instr),
        Instr::TryTable(_, _, _) => handler(alloc, context, labels, operands, instr),
        _ => simple(alloc, context, labels.as_slice(), operands, instr),
    }
}

/// Whether a body takes these parameters and ends in these results, in a label to which a branch takes operands of these types.
/// The labels stay.
#[cycle(typed)]
fn is_body<'m>(
    alloc: Global,
    context: &CodeContext<'m>,
    labels: &mut Seq<&'m [ValType]>,
    takes: &'m [ValType],
    types: BlockTypes<'m>,
    body: &[Instr],
) -> Result<bool, OutOfMemory>
    requires { IsCodeContext context.now }
    ensures typed { IfOk result (λ typed. typed ≡ body_ends (context_of context.now labels.old) takes.now types.entry.params.now types.entry.results.now body.now) }
    ensures labels { IfOk result (λ typed. labels.new ≡ labels.old) }
{
    labels.push(takes)?;
    let mut operands = Operands::new(alloc);
    operands.push_all(types.params)?;
    let typed = code(alloc, context, labels, &mut operands, body)?;
    labels.pop();
    Ok(typed && operands.ends(types.results))
}

/// What code makes of operands, where it is well typed. The labels stay.
#[cycle(typed)]
fn code<'m>(
    alloc: Global,
    context: &CodeContext<'m>,
    labels: &mut Seq<&'m [ValType]>,
    operands: &mut Operands,
    code: &[Instr],
) -> Result<bool, OutOfMemory>
    requires { IsCodeContext context.now }
    ensures typed { IfOk result (λ typed. code_typing (context_of context.now labels.old) code.now (operands_of operands.old) ≡ only_if typed (Some (operands_of operands.new))) }
    ensures labels { IfOk result (λ typed. labels.new ≡ labels.old) }
{
    for instr in code {
        if !instruction(alloc, context, labels, operands, instr)? {
            return Ok(false);
        }
    }
    Ok(true)
}

fn declares_numbers(locals: &[(u32, ValType)]) -> bool
    ensures { result ≡ list_all declares_numbers locals.now }
{
    locals
        .iter()
        .all(|(count, ty)| *count == 0 || is_number(*ty))
}

/// Whether a body takes nothing and ends in the results of its function.
fn is_typed_body<'m>(
    alloc: Global,
    module: &'m WasmModule,
    section: &'m Section,
    exported: &'m Exported,
    func: &'m WasmFunc,
    ty: &'m FuncType,
) -> Result<bool, OutOfMemory>
    requires section { IsSectionOf section.now «module».now.imports }
    requires exported { AreExported exported.now «module».now }
    ensures { IfOk result (λ typed. typed ≡ is_typed_body «module».now func.now ty.now) }
{
    let ends = ends_of(alloc, func.locals.as_slice())?;
    let context = CodeContext {
        module,
        section,
        exported,
        params: ty.params.as_slice(),
        locals: func.locals.as_slice(),
        ends,
    };
    let mut labels = Seq::new(alloc);
    labels.push(ty.results.as_slice())?;
    let mut operands = Operands::new(alloc);
    let typed = code(
        alloc,
        &context,
        &mut labels,
        &mut operands,
        func.body.as_slice(),
    )?;
    Ok(typed && operands.ends(ty.results.as_slice()))
}

/// Whether a function is well typed.
pub fn is_typed_function<'m>(
    alloc: Global,
    module: &'m WasmModule,
    section: &'m Section,
    exported: &'m Exported,
    func: &'m WasmFunc,
) -> Result<bool, OutOfMemory>
    requires section { IsSectionOf section.now «module».now.imports }
    requires exported { AreExported exported.now «module».now }
    ensures { IfOk result (λ typed. typed ≡ is_typed_function «module».now func.now) }
{
    if !declares_numbers(func.locals.as_slice()) {
        return Ok(false);
    }
    match module.types.get(func.ty as usize) {
        Some(ty) => is_typed_body(alloc, module, section, exported, func, ty),
        None => Ok(false),
    }
}
