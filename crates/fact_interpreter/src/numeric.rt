//! Numeric instructions (core specification, "Execution", "Instructions", "Numeric Instructions").

ghost use Rattle.std.specs.Prelude.{◌≡◌, ℕ, IfOk};
ghost use Rattle.fact_machine.specs.Numerics.{truth as truth_of, extend_s};
ghost use Rattle.fact_machine.specs.Operands.{binary_i32 as binary_i32_of, binary_i64 as binary_i64_of, unary_i32 as unary_i32_of, unary_i64 as unary_i64_of};
ghost use Rattle.fact_wasm.specs.declared.instr.Instr.TheOpen as instr;
ghost use Rattle.fact_interpreter.specs.Running.{did_of, at, plain_row, operated, binary_meaning, unary_i32_meaning, unary_i64_meaning};

use crate::running::{Running, Step};
use fact_machine::{CoreValue, End};

/// An instruction of two operands of one type. A test gives an i32, and any other one a value of the operands' type.
#[derive(Clone, Copy)]
pub enum Binary {
    Eq,
    Ne,
    LtU,
    GtU,
    GeU,
    Add,
    Sub,
    Mul,
    And,
    Or,
    Xor,
    Shl,
    ShrU,
}

/// An instruction of one i32.
#[derive(Clone, Copy)]
pub enum UnaryI32 {
    Eqz,
    ExtendU,
    Reinterpret,
    Extend8S,
    Extend16S,
}

/// An instruction of one i64.
#[derive(Clone, Copy)]
pub enum UnaryI64 {
    Eqz,
    Wrap,
    Reinterpret,
}

/// What a test gives.
fn truth(holds: bool) -> CoreValue
    ensures { result ≡ CoreValue.I32 (truth_of holds) }
{
    CoreValue::I32(if holds { 1 } else { 0 })
}

fn on_i32(op: Binary, i: u32, j: u32) -> CoreValue
    ensures { result ≡ binary_meaning 32 (λ n. CoreValue.I32 n) op i j }
{
    match op {
        Binary::Eq => truth(i == j),
        Binary::Ne => truth(i != j),
        Binary::LtU => truth(i < j),
        Binary::GtU => truth(i > j),
        Binary::GeU => truth(i >= j),
        Binary::Add => CoreValue::I32(i.wrapping_add(j)),
        Binary::Sub => CoreValue::I32(i.wrapping_sub(j)),
        Binary::Mul => CoreValue::I32(i.wrapping_mul(j)),
        Binary::And => CoreValue::I32(i & j),
        Binary::Or => CoreValue::I32(i | j),
        Binary::Xor => CoreValue::I32(i ^ j),
        Binary::Shl => CoreValue::I32(i.wrapping_shl(j)),
        Binary::ShrU => CoreValue::I32(i.wrapping_shr(j)),
    }
}

fn on_i64(op: Binary, i: u64, j: u64) -> CoreValue
    ensures { result ≡ binary_meaning 64 (λ n. CoreValue.I64 n) op i j }
{
    match op {
        Binary::Eq => truth(i == j),
        Binary::Ne => truth(i != j),
        Binary::LtU => truth(i < j),
        Binary::GtU => truth(i > j),
        Binary::GeU => truth(i >= j),
        Binary::Add => CoreValue::I64(i.wrapping_add(j)),
        Binary::Sub => CoreValue::I64(i.wrapping_sub(j)),
        Binary::Mul => CoreValue::I64(i.wrapping_mul(j)),
        Binary::And => CoreValue::I64(i & j),
        Binary::Or => CoreValue::I64(i | j),
        Binary::Xor => CoreValue::I64(i ^ j),
        Binary::Shl => CoreValue::I64(i << (j % 64)),
        Binary::ShrU => CoreValue::I64(i >> (j % 64)),
    }
}

/// The 8 low bits as a signed number.
pub fn extend_8_s(i: u32) -> u32
    ensures { result ≡ extend_s 8 32 i }
{
    let low = i % 0x100;
    if low < 0x80 { low } else { low + 0xffff_ff00 }
}

/// The 16 low bits as a signed number.
pub fn extend_16_s(i: u32) -> u32
    ensures { result ≡ extend_s 16 32 i }
{
    let low = i % 0x1_0000;
    if low < 0x8000 { low } else { low + 0xffff_0000 }
}

fn of_i32(op: UnaryI32, i: u32) -> CoreValue
    ensures { result ≡ unary_i32_meaning op i }
{
    match op {
        UnaryI32::Eqz => truth(i == 0),
        UnaryI32::ExtendU => CoreValue::I64(u64::from(i)),
        UnaryI32::Reinterpret => CoreValue::F32(i),
        UnaryI32::Extend8S => CoreValue::I32(extend_8_s(i)),
        UnaryI32::Extend16S => CoreValue::I32(extend_16_s(i)),
    }
}

fn of_i64(op: UnaryI64, i: u64) -> CoreValue
    ensures { result ≡ unary_i64_meaning op i }
{
    match op {
        UnaryI64::Eqz => truth(i == 0),
        UnaryI64::Wrap => CoreValue::I32((i % 0x1_0000_0000) as u32),
        UnaryI64::Reinterpret => CoreValue::F64(i),
    }
}

/// An instruction of two i32.
pub fn binary_i32(run: &mut Running, op: Binary) -> Step
    ensures { IfOk result (λ end. did_of end run.new ≡ at run.old (operated (binary_i32_of (binary_meaning 32 (λ n. CoreValue.I32 n) op)))) }
{
    let Some(CoreValue::I32(j)) = run.stack.pop() else {
        return Ok(Some(End::Stuck));
    };
    let Some(CoreValue::I32(i)) = run.stack.pop() else {
        return Ok(Some(End::Stuck));
    };
    run.stack.push(on_i32(op, i, j))?;
    Ok(None)
}

/// An instruction of two i64.
pub fn binary_i64(run: &mut Running, op: Binary) -> Step
    ensures { IfOk result (λ end. did_of end run.new ≡ at run.old (operated (binary_i64_of (binary_meaning 64 (λ n. CoreValue.I64 n) op)))) }
{
    let Some(CoreValue::I64(j)) = run.stack.pop() else {
        return Ok(Some(End::Stuck));
    };
    let Some(CoreValue::I64(i)) = run.stack.pop() else {
        return Ok(Some(End::Stuck));
    };
    run.stack.push(on_i64(op, i, j))?;
    Ok(None)
}

/// An instruction of one i32.
pub fn unary_i32(run: &mut Running, op: UnaryI32) -> Step
    ensures { IfOk result (λ end. did_of end run.new ≡ at run.old (operated (unary_i32_of (unary_i32_meaning op)))) }
{
    let Some(CoreValue::I32(i)) = run.stack.pop() else {
        return Ok(Some(End::Stuck));
    };
    run.stack.push(of_i32(op, i))?;
    Ok(None)
}

/// An instruction of one i64.
pub fn unary_i64(run: &mut Running, op: UnaryI64) -> Step
    ensures { IfOk result (λ end. did_of end run.new ≡ at run.old (operated (unary_i64_of (unary_i64_meaning op)))) }
{
    let Some(CoreValue::I64(i)) = run.stack.pop() else {
        return Ok(Some(End::Stuck));
    };
    run.stack.push(of_i64(op, i))?;
    Ok(None)
}

/// `i32.reinterpret_f32`.
pub fn i32_reinterpret_f32(run: &mut Running) -> Step
    ensures { IfOk result (λ end. did_of end run.new ≡ at run.old (plain_row instr.I32ReinterpretF32)) }
{
    let Some(CoreValue::F32(i)) = run.stack.pop() else {
        return Ok(Some(End::Stuck));
    };
    run.stack.push(CoreValue::I32(i))?;
    Ok(None)
}

/// `i64.reinterpret_f64`.
pub fn i64_reinterpret_f64(run: &mut Running) -> Step
    ensures { IfOk result (λ end. did_of end run.new ≡ at run.old (plain_row instr.I64ReinterpretF64)) }
{
    let Some(CoreValue::F64(i)) = run.stack.pop() else {
        return Ok(Some(End::Stuck));
    };
    run.stack.push(CoreValue::I64(i))?;
    Ok(None)
}
