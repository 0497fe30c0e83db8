//! The instruction table: how each instruction begins.

ghost use Rattle.std.specs.Prelude.{◌≡◌, ◌≢◌, List, [], ◌∷◌, Option, true, false, IfOk};
ghost use Rattle.fact_wasm.specs.declared.module.WasmModule.{WasmModule};
ghost use Rattle.fact_wasm.specs.declared.instr.Instr.{Instr, out-Instr};
ghost use Rattle.fact_machine.specs.declared.types.CoreValue.{CoreValue};
ghost use Rattle.fact_machine.specs.World.{World};
ghost use Rattle.fact_machine.specs.Machine.{Around, next, act, begin as begin_of};
ghost use Rattle.fact_interpreter.specs.Running.{did_of, config_of, at, is_access, is_control, is_numeric, operation_row};

use crate::memory::{LoadKind, StoreKind};
use crate::numeric::{Binary, UnaryI32, UnaryI64};
use crate::running::{Running, Step};
use crate::{branches, entering, memory, numeric, outside, rows};
use fact_machine::{CoreValue, End};
use fact_wasm::{Instr, WasmModule};
use std::alloc::Global;

/// Begins a load or a store.
fn begin_access(run: &mut Running, module: &WasmModule, instr: &Instr) -> Step
    requires { is_access (out-Instr instr.now) ≡ true }
    ensures { IfOk result (λ end. did_of end run.new ≡ at run.old (act «module».now (out-Instr instr.now))) }
{
    match instr {
        Instr::I32Load(arg) => memory::load(run, module, LoadKind::I32, *arg),
        Instr::I64Load(arg) => memory::load(run, module, LoadKind::I64, *arg),
        Instr::F32Load(arg) => memory::load(run, module, LoadKind::F32, *arg),
        Instr::F64Load(arg) => memory::load(run, module, LoadKind::F64, *arg),
        Instr::I32Load8S(arg) => memory::load(run, module, LoadKind::I32From8S, *arg),
        Instr::I32Load8U(arg) => memory::load(run, module, LoadKind::I32From8U, *arg),
        Instr::I32Load16S(arg) => memory::load(run, module, LoadKind::I32From16S, *arg),
        Instr::I32Load16U(arg) => memory::load(run, module, LoadKind::I32From16U, *arg),
        Instr::I32Store(arg) => memory::store(run, module, StoreKind::I32, *arg),
        Instr::I64Store(arg) => memory::store(run, module, StoreKind::I64, *arg),
        Instr::F32Store(arg) => memory::store(run, module, StoreKind::F32, *arg),
        Instr::F64Store(arg) => memory::store(run, module, StoreKind::F64, *arg),
        Instr::I32Store8(arg) => memory::store(run, module, StoreKind::I32To8, *arg),
        Instr::I32Store16(arg) => memory::store(run, module, StoreKind::I32To16, *arg),
        _ => unreachable!(),
    }
}

/// What a numeric instruction does.
#[derive(Clone, Copy)]
enum Operation {
    BinaryI32(Binary),
    BinaryI64(Binary),
    UnaryI32(UnaryI32),
    UnaryI64(UnaryI64),
    I32OfF32,
    I64OfF64,
}

/// What a numeric instruction does.
fn operation_of(instr: &Instr) -> Operation
    requires { is_numeric (out-Instr instr.now) ≡ true }
    ensures { (M : WasmModule) (w : World) (vs : List CoreValue) (ls : List (Option CoreValue)) (rest : List Instr) (k : Around) → operation_row result w vs ls rest k ≡ act M (out-Instr instr.now) w vs ls rest k }
{
    match instr {
        Instr::I32Eqz => Operation::UnaryI32(UnaryI32::Eqz),
        Instr::I32Eq => Operation::BinaryI32(Binary::Eq),
        Instr::I32Ne => Operation::BinaryI32(Binary::Ne),
        Instr::I32LtU => Operation::BinaryI32(Binary::LtU),
        Instr::I32GtU => Operation::BinaryI32(Binary::GtU),
        Instr::I32GeU => Operation::BinaryI32(Binary::GeU),
        Instr::I64Eqz => Operation::UnaryI64(UnaryI64::Eqz),
        Instr::I64Eq => Operation::BinaryI64(Binary::Eq),
        Instr::I64Ne => Operation::BinaryI64(Binary::Ne),
        Instr::I64LtU => Operation::BinaryI64(Binary::LtU),
        Instr::I64GtU => Operation::BinaryI64(Binary::GtU),
        Instr::I64GeU => Operation::BinaryI64(Binary::GeU),
        Instr::I32Add => Operation::BinaryI32(Binary::Add),
        Instr::I32Sub => Operation::BinaryI32(Binary::Sub),
        Instr::I32Mul => Operation::BinaryI32(Binary::Mul),
        Instr::I32And => Operation::BinaryI32(Binary::And),
        Instr::I32Or => Operation::BinaryI32(Binary::Or),
        Instr::I32Xor => Operation::BinaryI32(Binary::Xor),
        Instr::I32Shl => Operation::BinaryI32(Binary::Shl),
        Instr::I32ShrU => Operation::BinaryI32(Binary::ShrU),
        Instr::I64Add => Operation::BinaryI64(Binary::Add),
        Instr::I64Sub => Operation::BinaryI64(Binary::Sub),
        Instr::I64Mul => Operation::BinaryI64(Binary::Mul),
        Instr::I64And => Operation::BinaryI64(Binary::And),
        Instr::I64Or => Operation::BinaryI64(Binary::Or),
        Instr::I64Xor => Operation::BinaryI64(Binary::Xor),
        Instr::I64Shl => Operation::BinaryI64(Binary::Shl),
        Instr::I64ShrU => Operation::BinaryI64(Binary::ShrU),
        Instr::I32WrapI64 => Operation::UnaryI64(UnaryI64::Wrap),
        Instr::I64ExtendI32U => Operation::UnaryI32(UnaryI32::ExtendU),
        Instr::I32ReinterpretF32 => Operation::I32OfF32,
        Instr::I64ReinterpretF64 => Operation::I64OfF64,
        Instr::F32ReinterpretI32 => Operation::UnaryI32(UnaryI32::Reinterpret),
        Instr::F64ReinterpretI64 => Operation::UnaryI64(UnaryI64::Reinterpret),
        Instr::I32Extend8S => Operation::UnaryI32(UnaryI32::Extend8S),
        Instr::I32Extend16S => Operation::UnaryI32(UnaryI32::Extend16S),
        _ => unreachable!(),
    }
}

/// Begins a numeric instruction.
fn begin_numeric(run: &mut Running, instr: &Instr) -> Step
    requires { is_numeric (out-Instr instr.now) ≡ true }
    ensures { (M : WasmModule) → IfOk result (λ end. did_of end run.new ≡ at run.old (act M (out-Instr instr.now))) }
{
    match operation_of(instr) {
        Operation::BinaryI32(op) => numeric::binary_i32(run, op),
        Operation::BinaryI64(op) => numeric::binary_i64(run, op),
        Operation::UnaryI32(op) => numeric::unary_i32(run, op),
        Operation::UnaryI64(op) => numeric::unary_i64(run, op),
        Operation::I32OfF32 => numeric::i32_reinterpret_f32(run),
        Operation::I64OfF64 => numeric::i64_reinterpret_f64(run),
    }
}

/// Begins an instruction that is not a control instruction.
fn begin_data(run: &mut Running, module: &WasmModule, instr: &Instr) -> Step
    requires { is_control (out-Instr instr.now) ≡ false }
    ensures { IfOk result (λ end. did_of end run.new ≡ at run.old (act «module».now (out-Instr instr.now))) }
{
    match instr {
        Instr::Drop => Ok(rows::drop_one(run)),
        Instr::Select => rows::select(run),
        Instr::LocalGet(n) => rows::local_get(run, *n),
        Instr::LocalSet(n) => Ok(rows::local_set(run, *n)),
        Instr::LocalTee(n) => rows::local_tee(run, *n),
        Instr::GlobalGet(n) => rows::global_get(run, *n),
        Instr::GlobalSet(n) => rows::global_set(run, *n),
        Instr::MemorySize(n) => memory::memory_size(run, module, *n),
        Instr::I32Const(n) => rows::constant(run, CoreValue::I32(*n)),
        Instr::I64Const(n) => rows::constant(run, CoreValue::I64(*n)),
        Instr::F32Const(n) => rows::constant(run, CoreValue::F32(*n)),
        Instr::F64Const(n) => rows::constant(run, CoreValue::F64(*n)),
        Instr::I32Load(_)
        | Instr::I64Load(_)
        | Instr::F32Load(_)
        | Instr::F64Load(_)
        | Instr::I32Load8S(_)
        | Instr::I32Load8U(_)
        | Instr::I32Load16S(_)
        | Instr::I32Load16U(_)
        | Instr::I32Store(_)
        | Instr::I64Store(_)
        | Instr::F32Store(_)
        | Instr::F64Store(_)
        | Instr::I32Store8(_)
        | Instr::I32Store16(_) => begin_access(run, module, instr),
        _ => begin_numeric(run, instr),
    }
}

/// Begins an instruction with which this code begins.
fn begin_row<'m>(
    run: &mut Running<'m>,
    alloc: Global,
    module: &'m WasmModule,
    instr: &'m Instr,
    code: &'m [Instr],
) -> Step
    requires { code.now ≡ instr.now ∷ run.old.code.now }
    ensures { IfOk result (λ end. did_of end run.new ≡ at run.old (act «module».now (out-Instr instr.now))) }
{
    match instr {
        Instr::Unreachable => Ok(Some(End::Trapped)),
        Instr::Block(ty, body) => entering::block(run, module, *ty, &[], body.as_slice()),
        Instr::Loop(ty, body) => entering::again(run, module, *ty, body.as_slice(), code),
        Instr::If(ty, body, other) => entering::if_else(run, module, *ty, body.as_slice(), other),
        Instr::Br(label) => branches::branch(run, *label),
        Instr::BrIf(label) => branches::br_if(run, *label),
        Instr::BrTable(labels, last) => branches::br_table(run, labels.as_slice(), *last),
        Instr::Call(func) => outside::call(run, alloc, module, *func),
        Instr::TryTable(ty, catches, body) => {
            entering::block(run, module, *ty, catches.as_slice(), body.as_slice())
        }
        Instr::RefFunc(func) => outside::ref_func(run, module, *func),
        _ => begin_data(run, module, instr),
    }
}

/// Begins the next instruction, which is there.
pub fn begin<'m>(run: &mut Running<'m>, alloc: Global, module: &'m WasmModule) -> Step
    requires { run.old.code.now ≢ [] }
    ensures { IfOk result (λ end. did_of end run.new ≡ begin_of «module».now (next (config_of run.old))) }
{
    let code = run.code;
    let [instr, rest @ ..] = code else {
        unreachable!();
    };
    run.code = rest;
    begin_row(run, alloc, module, instr, code)
}
