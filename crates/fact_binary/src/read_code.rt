//! Readers of instructions (core specification, "Binary format", "Instructions").

ghost use Rattle.std.specs.Prelude.{◌≡◌, ℕ, ◌++◌, ◌<◌, ◌^◌, [], ◌∷◌, List, IfOk, IfSome, Some, map};
ghost use Rattle.std.specs.List.{AllByRecursion};
ghost use Rattle.fact_wasm.specs.declared.types.ValType.{ValType};
ghost use Rattle.fact_wasm.specs.declared.instr.BlockType.{BlockType};
ghost use Rattle.fact_wasm.specs.declared.instr.MemArg.{MemArg};
ghost use Rattle.fact_binary.specs.declared.forms.LeafRow.TheVariants as LeafRow;
ghost use Rattle.fact_binary.specs.Answers.{IfRead, IsEnd};
ghost use Rattle.fact_binary.specs.Numbers.{unsigned};
ghost use Rattle.fact_binary.specs.Forms.{leaf_kinds, leaf_op, body_kinds, body_op, head_args, IsLeafAt, IsInstrAt, IsBodyAt};
ghost use Rattle.fact_binary.specs.Grammar.{Arg, kind, args, IsArg, val_type, block_type, IsBlockType, memarg, IsMemArg, catch_all, IsIndex, InstrNode, Leaf, Nodes, node, body_nodes, code, codes, IsNode, AreNodes};

use crate::error::DecodeError;
use crate::forms::{
    BodyRow, Form, LeafRow, body_instr, form_of, func_instr, function_of, index_instr, memory_instr,
};
use crate::read_list::{ReadItem, list_at};
use crate::reading::{
    byte_at, float32_at, float64_at, index_at, int32_at, int64_at, u32_at, u64_at,
};
use fact_wasm::{BlockType, Instr, MemArg, Seq, ValType};
use std::alloc::Global;

/// The value type of a byte.
pub fn value_type(byte: u8) -> Option<ValType>
    ensures found { IfSome result (λ ty. val_type ty ≡ byte) }
    ensures only { (ty : ValType) → val_type ty ≡ byte → result ≡ Some ty }
{
    match byte {
        0x7F => Some(ValType::I32),
        0x7E => Some(ValType::I64),
        0x7D => Some(ValType::F32),
        0x7C => Some(ValType::F64),
        0x70 => Some(ValType::FuncRef),
        _ => None,
    }
}

/// The type of a block.
fn block_type_at(bytes: &[u8]) -> Result<(BlockType, &[u8]), DecodeError>
    ensures found { IfOk result (λ x. IsBlockType x.0 × (bytes.now ≡ block_type x.0 ++ x.1.now)) }
    ensures only { (t : BlockType) (rest : List ℕ) → IsBlockType t → bytes.now ≡ block_type t ++ rest → IfRead result (λ x. (x.0 ≡ t) × (x.1.now ≡ rest)) }
{
    let (byte, rest) = byte_at(bytes)?;
    if byte == 0x40 {
        return Ok((BlockType::Empty, rest));
    }
    match value_type(byte) {
        Some(ty) => Ok((BlockType::Result(ty), rest)),
        None => {
            let (n, rest) = index_at(bytes)?;
            Ok((BlockType::FunctionType(n), rest))
        }
    }
}

/// The immediate of a load or store. An alignment's exponent is below 64, and a memory that is told is not the first.
fn memarg_at(bytes: &[u8]) -> Result<(MemArg, &[u8]), DecodeError>
    ensures found { IfOk result (λ x. IsMemArg x.0 × (bytes.now ≡ memarg x.0 ++ x.1.now)) }
    ensures only { (m : MemArg) (rest : List ℕ) → IsMemArg m → bytes.now ≡ memarg m ++ rest → IfRead result (λ x. (x.0 ≡ m) × (x.1.now ≡ rest)) }
{
    let (flags, rest) = u32_at(bytes)?;
    if flags < 64 {
        let (offset, rest) = u64_at(rest)?;
        return Ok((
            MemArg {
                offset,
                align: flags,
                memory_index: 0,
            },
            rest,
        ));
    }
    if flags >= 128 {
        return Err(DecodeError::NotInGrammar);
    }
    let (memory_index, rest) = u32_at(rest)?;
    if memory_index == 0 {
        return Err(DecodeError::NotInGrammar);
    }
    let (offset, rest) = u64_at(rest)?;
    Ok((
        MemArg {
            offset,
            align: flags - 64,
            memory_index,
        },
        rest,
    ))
}

/// Labels of `br_table`.
struct Labels;

impl ReadItem<u32> for Labels {
    ghost code = { λ n label. unsigned label };

    ghost fits = { λ n label. IsIndex label };

    fn read(_alloc: Global, _imports: u32, bytes: &[u8]) -> Result<(u32, &[u8]), DecodeError> {
        u32_at(bytes)
    }
}

/// Clauses of `try_table` that catch all, by their labels.
struct Catches;

impl ReadItem<u32> for Catches {
    ghost code = { λ n label. catch_all label };

    ghost fits = { λ n label. IsIndex label };

    fn read(_alloc: Global, _imports: u32, bytes: &[u8]) -> Result<(u32, &[u8]), DecodeError> {
        let (form, rest) = byte_at(bytes)?;
        if form != 0x02 {
            return Err(DecodeError::NotInGrammar);
        }
        u32_at(rest)
    }
}

/// The labels of `br_table`, as an instruction of a module that imports so many functions.
fn labels_at(alloc: Global, imports: u32, bytes: &[u8]) -> Result<(Instr, &[u8]), DecodeError>
    ensures found { IfOk result (λ x. IsLeafAt imports LeafRow.Labels bytes.now x.0 x.1.now) }
    ensures only { (xs : List Arg) (rest : List ℕ) → map kind xs ≡ leaf_kinds LeafRow.Labels → AllByRecursion IsArg xs → bytes.now ≡ args xs ++ rest
        → IfRead result (λ x. (node imports x.0 ≡ Leaf (leaf_op LeafRow.Labels) xs) × (x.1.now ≡ rest)) }
{
    let (labels, rest) = list_at::<Labels, u32>(alloc, imports, bytes)?;
    let (last, rest) = u32_at(rest)?;
    Ok((Instr::BrTable(labels, last), rest))
}

/// The immediates of a row without bodies, as an instruction of a module that imports so many functions.
fn leaf_at(
    alloc: Global,
    imports: u32,
    row: LeafRow,
    bytes: &[u8],
) -> Result<(Instr, &[u8]), DecodeError>
    ensures found { IfOk result (λ x. IsLeafAt imports row bytes.now x.0 x.1.now) }
    ensures only { (xs : List Arg) (rest : List ℕ) → map kind xs ≡ leaf_kinds row → AllByRecursion IsArg xs → bytes.now ≡ args xs ++ rest
        → IfRead result (λ x. (node imports x.0 ≡ Leaf (leaf_op row) xs) × (x.1.now ≡ rest)) }
{
    match row {
        LeafRow::Index(row) => {
            let (n, rest) = u32_at(bytes)?;
            Ok((index_instr(row, n), rest))
        }
        LeafRow::Func(row) => {
            let (index, rest) = u32_at(bytes)?;
            Ok((func_instr(row, function_of(imports, index)), rest))
        }
        LeafRow::Memory(row) => {
            let (place, rest) = memarg_at(bytes)?;
            Ok((memory_instr(row, place), rest))
        }
        LeafRow::Int32 => {
            let (x, rest) = int32_at(bytes)?;
            Ok((Instr::I32Const(x), rest))
        }
        LeafRow::Int64 => {
            let (x, rest) = int64_at(bytes)?;
            Ok((Instr::I64Const(x), rest))
        }
        LeafRow::Float32 => {
            let (x, rest) = float32_at(bytes)?;
            Ok((Instr::F32Const(x), rest))
        }
        LeafRow::Float64 => {
            let (x, rest) = float64_at(bytes)?;
            Ok((Instr::F64Const(x), rest))
        }
        LeafRow::Labels => labels_at(alloc, imports, bytes),
    }
}

/// The immediates of a row with one body: its type, and the labels of its catch clauses where it can have some.
fn head_at(
    alloc: Global,
    imports: u32,
    row: BodyRow,
    bytes: &[u8],
) -> Result<(BlockType, Seq<u32>, &[u8]), DecodeError>
    ensures found { IfOk result (λ x. AllByRecursion IsArg (head_args row x.0 x.1) × (bytes.now ≡ args (head_args row x.0 x.1) ++ x.2.now)) }
    ensures kinds { IfOk result (λ x. map kind (head_args row x.0 x.1) ≡ body_kinds row) }
    ensures only { (xs : List Arg) (rest : List ℕ) → map kind xs ≡ body_kinds row → AllByRecursion IsArg xs → bytes.now ≡ args xs ++ rest
        → IfRead result (λ x. (head_args row x.0 x.1 ≡ xs) × (x.2.now ≡ rest)) }
{
    let (ty, rest) = block_type_at(bytes)?;
    match row {
        BodyRow::TryTable => {
            let (labels, rest) = list_at::<Catches, u32>(alloc, imports, rest)?;
            Ok((ty, labels, rest))
        }
        BodyRow::Block => Ok((ty, Seq::new(alloc), rest)),
        BodyRow::Loop => Ok((ty, Seq::new(alloc), rest)),
    }
}

/// The instruction at the front of the bytes, in a module that imports so many functions. Its bodies may have so many levels.
#[cycle(read)]
fn instr_at(
    alloc: Global,
    imports: u32,
    levels: u32,
    bytes: &[u8],
) -> Result<(Instr, &[u8]), DecodeError>
    ensures found { IfOk result (λ x. IsInstrAt imports bytes.now x.0 x.1.now) }
    ensures only { (i : InstrNode) (rest : List ℕ) → IsNode i → bytes.now ≡ code i ++ rest → IfRead result (λ x. (node imports x.0 ≡ i) × (x.1.now ≡ rest)) }
{
    let (op, rest) = byte_at(bytes)?;
    match form_of(op) {
        Form::Plain(instr) => Ok((instr, rest)),
        Form::Leaf(row) => {
            let (instr, rest) = leaf_at(alloc, imports, row, rest)?;
            Ok((instr, rest))
        }
        Form::Body(row) => nest_at(alloc, imports, levels, row, rest),
        Form::If => choice_at(alloc, imports, levels, rest),
        Form::Unknown => Err(DecodeError::NotInGrammar),
    }
}

/// The instruction of a row with one body, behind its opcode.
#[cycle(read)]
fn nest_at(
    alloc: Global,
    imports: u32,
    levels: u32,
    row: BodyRow,
    bytes: &[u8],
) -> Result<(Instr, &[u8]), DecodeError>
    ensures found { IfOk result (λ x. IsInstrAt imports (body_op row ∷ bytes.now) x.0 x.1.now) }
    ensures only { (i : InstrNode) (rest : List ℕ) → IsNode i → body_op row ∷ bytes.now ≡ code i ++ rest → IfRead result (λ x. (node imports x.0 ≡ i) × (x.1.now ≡ rest)) }
{
    let (ty, labels, rest) = head_at(alloc, imports, row, bytes)?;
    match body_at(alloc, imports, levels, rest) {
        Ok((body, end, rest)) => {
            if end != 0x0B {
                drop(body);
                drop(labels);
                return Err(DecodeError::NotInGrammar);
            }
            Ok((body_instr(row, ty, labels, body), rest))
        }
        Err(error) => {
            drop(labels);
            Err(error)
        }
    }
}

/// An `if`, behind its opcode.
#[cycle(read)]
fn choice_at(
    alloc: Global,
    imports: u32,
    levels: u32,
    bytes: &[u8],
) -> Result<(Instr, &[u8]), DecodeError>
    ensures found { IfOk result (λ x. IsInstrAt imports (0x04 ∷ bytes.now) x.0 x.1.now) }
    ensures only { (i : InstrNode) (rest : List ℕ) → IsNode i → 0x04 ∷ bytes.now ≡ code i ++ rest → IfRead result (λ x. (node imports x.0 ≡ i) × (x.1.now ≡ rest)) }
{
    let (ty, rest) = block_type_at(bytes)?;
    let (body, end, rest) = body_at(alloc, imports, levels, rest)?;
    if end == 0x0B {
        return Ok((Instr::If(ty, body, None), rest));
    }
    match body_at(alloc, imports, levels, rest) {
        Ok((other, last, rest)) => {
            if other.len() == 0 {
                drop(other);
                drop(body);
                return Err(DecodeError::NotInGrammar);
            }
            if last != 0x0B {
                drop(other);
                drop(body);
                return Err(DecodeError::NotInGrammar);
            }
            Ok((Instr::If(ty, body, Some(other)), rest))
        }
        Err(error) => {
            drop(body);
            Err(error)
        }
    }
}

/// The instructions up to the byte that ends them, and that byte: 0x0B, or 0x05 before an else body. The body and those in it
/// may have so many levels; more of them are a want of memory.
#[cycle(read)]
pub fn body_at(
    alloc: Global,
    imports: u32,
    levels: u32,
    bytes: &[u8],
) -> Result<(Seq<Instr>, u8, &[u8]), DecodeError>
    ensures found { IfOk result (λ x. IsBodyAt imports bytes.now x.0 x.1 x.2.now) }
    ensures only { (is : Nodes) (b : ℕ) (rest : List ℕ) → IsEnd b → AreNodes is → bytes.now ≡ codes is ++ b ∷ rest
        → IfRead result (λ x. (body_nodes imports x.0 ≡ is) × (x.1 ≡ b) × (x.2.now ≡ rest)) }
{
    if levels == 0 {
        return Err(DecodeError::OutOfMemory);
    }
    let inner_levels = levels - 1;
    let mut body = Seq::new(alloc);
    let mut left = bytes;
    loop {
        let (byte, after) = byte_at(left)?;
        if byte == 0x05 || byte == 0x0B {
            return Ok((body, byte, after));
        }
        let (instr, next) = instr_at(alloc, imports, inner_levels, left)?;
        body.push(instr)?;
        left = next;
    }
}
