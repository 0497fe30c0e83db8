//! The bytes of instructions (core specification, "Binary format", "Instructions").

ghost use Rattle.std.specs.Prelude.{◌≡◌, ℕ, ◌<◌, ◌^◌, [], ◌∷◌, ◌++◌, OnOk};
ghost use Rattle.std.specs.List.{AllByRecursion};
ghost use Rattle.std.specs.Int.{w32, w64, cast_signed};
ghost use Rattle.fact_binary.specs.Numbers.{unsigned, signed};
ghost use Rattle.fact_binary.specs.Encode.{Shown, IsEncodedRow, points_of, immediates, IsAligned, ArePlaced, AreBodiesPlaced};
ghost use Rattle.fact_wasm.specs.Ranges.{points};
ghost use Rattle.fact_binary.specs.Grammar.{InstrNode, IsNode, AreNodes, node, body_nodes, code, codes, opcode as opcode_of, val_type, block_type, IsBlockType, function_index, memarg, catch_all, IsIndex, IsArg, args};

use crate::list::{Item, push_list};
use crate::number::{push_signed, push_unsigned};
use fact_wasm::{BlockType, FuncName, Instr, MemArg, OutOfMemory, ValType};
use std::alloc::{AllocError, Global};

/// The byte of a value type.
pub fn value_type_byte(ty: ValType) -> u8
    ensures { result ≡ val_type ty }
{
    match ty {
        ValType::I32 => 0x7F,
        ValType::I64 => 0x7E,
        ValType::F32 => 0x7D,
        ValType::F64 => 0x7C,
        ValType::FuncRef => 0x70,
    }
}

/// Writes the index of a function in a module that imports so many. An index of 2^32 or more is a want of memory.
pub fn push_function(out: &mut Vec<u8>, imports: u32, func: FuncName) -> Result<(), OutOfMemory>
    ensures { OnOk result ((function_index imports func < 2 ^ 32) × (out.new.items ≡ out.old.items ++ unsigned (function_index imports func))) }
{
    let index = match func {
        FuncName::Import(n) => n,
        FuncName::Defined(n) => n.checked_add(imports).ok_or(AllocError)?,
    };
    push_unsigned(out, index as u64)
}

fn push_block_type(out: &mut Vec<u8>, ty: BlockType) -> Result<(), OutOfMemory>
    ensures { OnOk result (IsBlockType ty × (out.new.items ≡ out.old.items ++ block_type ty)) }
{
    match ty {
        BlockType::Empty => {
            out.push(0x40)?;
            Ok(())
        }
        BlockType::Result(ty) => {
            out.push(value_type_byte(ty))?;
            Ok(())
        }
        BlockType::FunctionType(n) => push_signed(out, n as i64),
    }
}

/// The first byte of an instruction.
fn opcode(instr: &Instr) -> u8
    ensures { (n : ℕ) → opcode_of (node n instr.now) ≡ result }
{
    match instr {
        Instr::Unreachable => 0x00,
        Instr::Block(_, _) => 0x02,
        Instr::Loop(_, _) => 0x03,
        Instr::If(_, _, _) => 0x04,
        Instr::Br(_) => 0x0C,
        Instr::BrIf(_) => 0x0D,
        Instr::BrTable(_, _) => 0x0E,
        Instr::Call(_) => 0x10,
        Instr::Drop => 0x1A,
        Instr::Select => 0x1B,
        Instr::TryTable(_, _, _) => 0x1F,
        Instr::LocalGet(_) => 0x20,
        Instr::LocalSet(_) => 0x21,
        Instr::LocalTee(_) => 0x22,
        Instr::GlobalGet(_) => 0x23,
        Instr::GlobalSet(_) => 0x24,
        Instr::I32Load(_) => 0x28,
        Instr::I64Load(_) => 0x29,
        Instr::F32Load(_) => 0x2A,
        Instr::F64Load(_) => 0x2B,
        Instr::I32Load8S(_) => 0x2C,
        Instr::I32Load8U(_) => 0x2D,
        Instr::I32Load16S(_) => 0x2E,
        Instr::I32Load16U(_) => 0x2F,
        Instr::I32Store(_) => 0x36,
        Instr::I64Store(_) => 0x37,
        Instr::F32Store(_) => 0x38,
        Instr::F64Store(_) => 0x39,
        Instr::I32Store8(_) => 0x3A,
        Instr::I32Store16(_) => 0x3B,
        Instr::MemorySize(_) => 0x3F,
        Instr::I32Const(_) => 0x41,
        Instr::I64Const(_) => 0x42,
        Instr::F32Const(_) => 0x43,
        Instr::F64Const(_) => 0x44,
        Instr::I32Eqz => 0x45,
        Instr::I32Eq => 0x46,
        Instr::I32Ne => 0x47,
        Instr::I32LtU => 0x49,
        Instr::I32GtU => 0x4B,
        Instr::I32GeU => 0x4F,
        Instr::I64Eqz => 0x50,
        Instr::I64Eq => 0x51,
        Instr::I64Ne => 0x52,
        Instr::I64LtU => 0x54,
        Instr::I64GtU => 0x56,
        Instr::I64GeU => 0x5A,
        Instr::I32Add => 0x6A,
        Instr::I32Sub => 0x6B,
        Instr::I32Mul => 0x6C,
        Instr::I32And => 0x71,
        Instr::I32Or => 0x72,
        Instr::I32Xor => 0x73,
        Instr::I32Shl => 0x74,
        Instr::I32ShrU => 0x76,
        Instr::I64Add => 0x7C,
        Instr::I64Sub => 0x7D,
        Instr::I64Mul => 0x7E,
        Instr::I64And => 0x83,
        Instr::I64Or => 0x84,
        Instr::I64Xor => 0x85,
        Instr::I64Shl => 0x86,
        Instr::I64ShrU => 0x88,
        Instr::I32WrapI64 => 0xA7,
        Instr::I64ExtendI32U => 0xAD,
        Instr::I32ReinterpretF32 => 0xBC,
        Instr::I64ReinterpretF64 => 0xBD,
        Instr::F32ReinterpretI32 => 0xBE,
        Instr::F64ReinterpretI64 => 0xBF,
        Instr::I32Extend8S => 0xC0,
        Instr::I32Extend16S => 0xC1,
        Instr::RefFunc(_) => 0xD2,
    }
}

/// What stands behind the first byte.
#[derive(Clone, Copy)]
pub enum Operands<'a> {
    None,
    Index(u32),
    Func(FuncName),
    Int32(u32),
    Int64(u64),
    Float32(u32),
    Float64(u64),
    Memory(MemArg),
    Labels(&'a [u32], u32),
    Body(BlockType, &'a [Instr]),
    Catching(BlockType, &'a [u32], &'a [Instr]),
    If(BlockType, &'a [Instr]),
    IfElse(BlockType, &'a [Instr], &'a [Instr]),
}

/// The immediates and bodies of an instruction, by its row of the table.
#[tactic(auto, unfolding(crate::specs::Grammar::shape))]
pub fn operands_of(instr: &Instr) -> Operands<'_>
    ensures shown { (n : ℕ) → Shown n result (node n instr.now) }
    ensures points { points_of result ≡ points instr.now }
{
    match instr {
        Instr::Block(ty, body) | Instr::Loop(ty, body) => Operands::Body(*ty, body.as_slice()),
        Instr::If(ty, body, other) => match other {
            None => Operands::If(*ty, body.as_slice()),
            Some(other) => Operands::IfElse(*ty, body.as_slice(), other.as_slice()),
        },
        Instr::TryTable(ty, labels, body) => Operands::Catching(
            *ty,
            labels.as_slice(),
            body.as_slice(),
        ),
        Instr::Br(n)
        | Instr::BrIf(n)
        | Instr::LocalGet(n)
        | Instr::LocalSet(n)
        | Instr::LocalTee(n)
        | Instr::GlobalGet(n)
        | Instr::GlobalSet(n)
        | Instr::MemorySize(n) => Operands::Index(*n),
        Instr::BrTable(labels, last) => Operands::Labels(labels.as_slice(), *last),
        Instr::Call(func) | Instr::RefFunc(func) => Operands::Func(*func),
        Instr::I32Load(place)
        | Instr::I64Load(place)
        | Instr::F32Load(place)
        | Instr::F64Load(place)
        | Instr::I32Load8S(place)
        | Instr::I32Load8U(place)
        | Instr::I32Load16S(place)
        | Instr::I32Load16U(place)
        | Instr::I32Store(place)
        | Instr::I64Store(place)
        | Instr::F32Store(place)
        | Instr::F64Store(place)
        | Instr::I32Store8(place)
        | Instr::I32Store16(place) => Operands::Memory(*place),
        Instr::I32Const(x) => Operands::Int32(*x),
        Instr::I64Const(x) => Operands::Int64(*x),
        Instr::F32Const(x) => Operands::Float32(*x),
        Instr::F64Const(x) => Operands::Float64(*x),
        _ => Operands::None,
    }
}

/// Writes 32 bits as a constant with a sign.
fn push_int32(out: &mut Vec<u8>, x: u32) -> Result<(), OutOfMemory>
    ensures { OnOk result (out.new.items ≡ out.old.items ++ signed (cast_signed w32 x)) }
{
    let constant = x.cast_signed();
    push_signed(out, constant as i64)
}

/// Writes 64 bits as a constant with a sign.
fn push_int64(out: &mut Vec<u8>, x: u64) -> Result<(), OutOfMemory>
    ensures { OnOk result (out.new.items ≡ out.old.items ++ signed (cast_signed w64 x)) }
{
    push_signed(out, x.cast_signed())
}

/// Writes the immediate of a load or store.
fn push_memarg(out: &mut Vec<u8>, place: MemArg) -> Result<(), OutOfMemory>
    ensures { OnOk result (out.new.items ≡ out.old.items ++ memarg place) }
{
    if place.memory_index == 0 {
        push_unsigned(out, place.align as u64)?;
    } else {
        push_unsigned(out, place.align as u64 + 64)?;
        push_unsigned(out, place.memory_index as u64)?;
    }
    push_unsigned(out, place.offset)
}

/// Labels of `br_table`.
struct Labels;

impl Item<u32> for Labels {
    ghost code = { λ n label. unsigned label };

    ghost fits = { λ n label. IsIndex label };

    fn push(
        _alloc: Global,
        out: &mut Vec<u8>,
        _imports: u32,
        label: &u32,
    ) -> Result<(), OutOfMemory> {
        push_unsigned(out, *label as u64)
    }
}

/// Clauses of `try_table` that catch all, by their labels.
struct Catches;

impl Item<u32> for Catches {
    ghost code = { λ n label. catch_all label };

    ghost fits = { λ n label. IsIndex label };

    fn push(
        _alloc: Global,
        out: &mut Vec<u8>,
        _imports: u32,
        label: &u32,
    ) -> Result<(), OutOfMemory> {
        out.push(0x02)?;
        push_unsigned(out, *label as u64)
    }
}

/// Writes the immediates of an instruction of a module that imports so many functions.
fn push_immediates(
    alloc: Global,
    out: &mut Vec<u8>,
    imports: u32,
    operands: Operands<'_>,
) -> Result<(), OutOfMemory>
    ensures bytes { OnOk result (out.new.items ≡ out.old.items ++ args (immediates imports operands.entry)) }
    ensures fit { OnOk result (AllByRecursion IsAligned (points_of operands.entry) → AllByRecursion IsArg (immediates imports operands.entry)) }
{
    match operands {
        Operands::None => Ok(()),
        Operands::Index(n) => push_unsigned(out, n as u64),
        Operands::Func(func) => push_function(out, imports, func),
        Operands::Int32(x) => push_int32(out, x),
        Operands::Int64(x) => push_int64(out, x),
        Operands::Float32(x) => out.extend_from_slice(&x.to_le_bytes()),
        Operands::Float64(x) => out.extend_from_slice(&x.to_le_bytes()),
        Operands::Memory(place) => push_memarg(out, place),
        Operands::Labels(labels, last) => {
            push_list::<Labels, u32>(alloc, out, imports, labels)?;
            push_unsigned(out, last as u64)
        }
        Operands::Body(ty, _) | Operands::If(ty, _) | Operands::IfElse(ty, _, _) => {
            push_block_type(out, ty)
        }
        Operands::Catching(ty, labels, _) => {
            push_block_type(out, ty)?;
            push_list::<Catches, u32>(alloc, out, imports, labels)
        }
    }
}

/// The bodies of an instruction.
#[derive(Clone, Copy)]
pub enum Bodies<'a> {
    None,
    One(&'a [Instr]),
    Two(&'a [Instr], &'a [Instr]),
}

/// The bodies among the operands, the second empty where there is none.
pub fn bodies_of(operands: Operands<'_>) -> Bodies<'_>
    ensures row { (n : ℕ) (nd : InstrNode) → Shown n operands.entry nd → IsEncodedRow n (immediates n operands.entry) result nd }
    ensures placed { AllByRecursion IsAligned (points_of operands.entry) → AreBodiesPlaced result }
{
    match operands {
        Operands::Body(_, body) => Bodies::One(body),
        Operands::Catching(_, _, body) => Bodies::One(body),
        Operands::If(_, body) => Bodies::Two(body, &[]),
        Operands::IfElse(_, body, other) => Bodies::Two(body, other),
        _ => Bodies::None,
    }
}

/// Writes an instruction of a module that imports so many functions.
#[cycle(push)]
pub fn push_instr(
    alloc: Global,
    out: &mut Vec<u8>,
    imports: u32,
    instr: &Instr,
) -> Result<(), OutOfMemory>
    ensures bytes { OnOk result (out.new.items ≡ out.old.items ++ code (node imports instr.now)) }
    ensures fit { OnOk result (AllByRecursion IsAligned (points instr.now) → IsNode (node imports instr.now)) }
{
    out.push(opcode(instr))?;
    let operands = operands_of(instr);
    push_immediates(alloc, out, imports, operands)?;
    match bodies_of(operands) {
        Bodies::None => Ok(()),
        Bodies::One(body) => {
            push_ended(alloc, out, imports, body, 0x0B)?;
            Ok(())
        }
        Bodies::Two(body, []) => {
            push_ended(alloc, out, imports, body, 0x0B)?;
            Ok(())
        }
        Bodies::Two(body, other) => {
            push_ended(alloc, out, imports, body, 0x05)?;
            push_ended(alloc, out, imports, other, 0x0B)?;
            Ok(())
        }
    }
}

/// Writes the instructions of a body and the byte that ends it.
#[cycle(push)]
fn push_ended(
    alloc: Global,
    out: &mut Vec<u8>,
    imports: u32,
    body: &[Instr],
    end: u8,
) -> Result<(), OutOfMemory>
    ensures bytes { OnOk result (out.new.items ≡ out.old.items ++ (codes (body_nodes imports body.now) ++ end ∷ [])) }
    ensures fit { OnOk result (ArePlaced body.now → AreNodes (body_nodes imports body.now)) }
{
    push_body(alloc, out, imports, body)?;
    out.push(end)?;
    Ok(())
}

/// Writes the instructions of a body, without its end.
#[cycle(push)]
pub fn push_body(
    alloc: Global,
    out: &mut Vec<u8>,
    imports: u32,
    body: &[Instr],
) -> Result<(), OutOfMemory>
    ensures bytes { OnOk result (out.new.items ≡ out.old.items ++ codes (body_nodes imports body.now)) }
    ensures fit { OnOk result (ArePlaced body.now → AreNodes (body_nodes imports body.now)) }
{
    for instr in body {
        push_instr(alloc, out, imports, instr)?;
    }
    Ok(())
}
