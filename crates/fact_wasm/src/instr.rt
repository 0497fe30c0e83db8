//! Instructions (core specification, "Structure", "Instructions").

use crate::seq::Seq;
use crate::types::ValType;

/// A function of a module: the nth that is imported, or the nth that the module defines, both counted from 0. The index
/// that the binary format has for it is known only when all imports are.
#[derive(Clone, Copy, Drop, PartialEq, Eq, Hash)]
pub enum FuncName {
    Import(u32),
    Defined(u32),
}

/// What a block takes and gives: nothing, one result, or the parameters and results of a function type by its index.
#[derive(Clone, Copy, Drop, PartialEq, Eq, Hash)]
pub enum BlockType {
    Empty,
    Result(ValType),
    FunctionType(u32),
}

/// The immediate of a load or store: the alignment as an exponent of 2, the offset in bytes, the memory.
#[derive(Clone, Copy, Drop, PartialEq, Eq, Hash)]
pub struct MemArg {
    pub offset: u64,
    pub align: u32,
    pub memory_index: u32,
}

/// An instruction, with its body where it has one. Labels count enclosing blocks from the innermost, which is 0; shift
/// counts are taken modulo the width; constants and floats are their bits.
#[derive(Drop)]
pub enum Instr {
    Unreachable,
    Block(BlockType, Seq<Instr>),
    Loop(BlockType, Seq<Instr>),
    /// The body where the condition is not 0, and the one where it is, which is not empty where it is there.
    If(BlockType, Seq<Instr>, Option<Seq<Instr>>),
    Br(u32),
    BrIf(u32),
    /// The labels by their place, and the label of all places past them.
    BrTable(Seq<u32>, u32),
    Call(FuncName),
    Drop,
    Select,
    /// The labels of its `catch_all` clauses, counted from outside of this block, and the body.
    TryTable(BlockType, Seq<u32>, Seq<Instr>),
    LocalGet(u32),
    LocalSet(u32),
    LocalTee(u32),
    GlobalGet(u32),
    GlobalSet(u32),
    I32Load(MemArg),
    I64Load(MemArg),
    F32Load(MemArg),
    F64Load(MemArg),
    I32Load8S(MemArg),
    I32Load8U(MemArg),
    I32Load16S(MemArg),
    I32Load16U(MemArg),
    I32Store(MemArg),
    I64Store(MemArg),
    F32Store(MemArg),
    F64Store(MemArg),
    I32Store8(MemArg),
    I32Store16(MemArg),
    /// The size of the memory of this index, in pages of its own size.
    MemorySize(u32),
    /// The 32 bits of the constant. The binary format spells them as a signed number.
    I32Const(u32),
    /// The 64 bits of the constant. The binary format spells them as a signed number.
    I64Const(u64),
    F32Const(u32),
    F64Const(u64),
    I32Eqz,
    I32Eq,
    I32Ne,
    I32LtU,
    I32GtU,
    I32GeU,
    I64Eqz,
    I64Eq,
    I64Ne,
    I64LtU,
    I64GtU,
    I64GeU,
    I32Add,
    I32Sub,
    I32Mul,
    I32And,
    I32Or,
    I32Xor,
    I32Shl,
    I32ShrU,
    I64Add,
    I64Sub,
    I64Mul,
    I64And,
    I64Or,
    I64Xor,
    I64Shl,
    I64ShrU,
    I32WrapI64,
    I64ExtendI32U,
    I32ReinterpretF32,
    I64ReinterpretF64,
    F32ReinterpretI32,
    F64ReinterpretI64,
    I32Extend8S,
    I32Extend16S,
    RefFunc(FuncName),
}
