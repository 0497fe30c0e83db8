//! The table of instructions by their opcodes (core specification, "Binary format", "Instructions").

ghost use Rattle.std.specs.Prelude.{◌≡◌, ℕ, [], ◌∷◌};
ghost use Rattle.fact_binary.specs.Forms.{Formed, index_op, func_op, memory_op, body_op, head_args};
ghost use Rattle.fact_binary.specs.Grammar.{Index, Memory, function_index, Leaf, Nest, node, body_nodes};
ghost use Rattle.fact_binary.specs.Rebuild.{name_of, instr_of, instrs_of};

use fact_wasm::{BlockType, FuncName, Instr, MemArg, Seq};

/// The rows with an index behind the opcode.
#[derive(Clone, Copy)]
pub enum IndexRow {
    Br,
    BrIf,
    LocalGet,
    LocalSet,
    LocalTee,
    GlobalGet,
    GlobalSet,
    MemorySize,
}

/// The rows with a function behind the opcode.
#[derive(Clone, Copy)]
pub enum FuncRow {
    Call,
    RefFunc,
}

/// The rows with a place in memory behind the opcode.
#[derive(Clone, Copy)]
pub enum MemoryRow {
    I32Load,
    I64Load,
    F32Load,
    F64Load,
    I32Load8S,
    I32Load8U,
    I32Load16S,
    I32Load16U,
    I32Store,
    I64Store,
    F32Store,
    F64Store,
    I32Store8,
    I32Store16,
}

/// The rows with immediates and without bodies.
#[derive(Clone, Copy)]
pub enum LeafRow {
    Index(IndexRow),
    Func(FuncRow),
    Memory(MemoryRow),
    Int32,
    Int64,
    Float32,
    Float64,
    Labels,
}

/// The rows with one body.
#[derive(Clone, Copy)]
pub enum BodyRow {
    Block,
    Loop,
    TryTable,
}

/// What stands behind an opcode.
#[derive(Drop)]
pub enum Form {
    Plain(Instr),
    Leaf(LeafRow),
    Body(BodyRow),
    If,
    Unknown,
}

/// The row of an opcode.
#[tactic(auto, unfolding(crate::specs::Grammar::shape, crate::specs::Rebuild::instr_of))]
pub fn form_of(op: u8) -> Form
    ensures { Formed op result }
{
    match op {
        0x00 => Form::Plain(Instr::Unreachable),
        0x02 => Form::Body(BodyRow::Block),
        0x03 => Form::Body(BodyRow::Loop),
        0x04 => Form::If,
        0x0C => Form::Leaf(LeafRow::Index(IndexRow::Br)),
        0x0D => Form::Leaf(LeafRow::Index(IndexRow::BrIf)),
        0x0E => Form::Leaf(LeafRow::Labels),
        0x10 => Form::Leaf(LeafRow::Func(FuncRow::Call)),
        0x1A => Form::Plain(Instr::Drop),
        0x1B => Form::Plain(Instr::Select),
        0x1F => Form::Body(BodyRow::TryTable),
        0x20 => Form::Leaf(LeafRow::Index(IndexRow::LocalGet)),
        0x21 => Form::Leaf(LeafRow::Index(IndexRow::LocalSet)),
        0x22 => Form::Leaf(LeafRow::Index(IndexRow::LocalTee)),
        0x23 => Form::Leaf(LeafRow::Index(IndexRow::GlobalGet)),
        0x24 => Form::Leaf(LeafRow::Index(IndexRow::GlobalSet)),
        0x28 => Form::Leaf(LeafRow::Memory(MemoryRow::I32Load)),
        0x29 => Form::Leaf(LeafRow::Memory(MemoryRow::I64Load)),
        0x2A => Form::Leaf(LeafRow::Memory(MemoryRow::F32Load)),
        0x2B => Form::Leaf(LeafRow::Memory(MemoryRow::F64Load)),
        0x2C => Form::Leaf(LeafRow::Memory(MemoryRow::I32Load8S)),
        0x2D => Form::Leaf(LeafRow::Memory(MemoryRow::I32Load8U)),
        0x2E => Form::Leaf(LeafRow::Memory(MemoryRow::I32Load16S)),
        0x2F => Form::Leaf(LeafRow::Memory(MemoryRow::I32Load16U)),
        0x36 => Form::Leaf(LeafRow::Memory(MemoryRow::I32Store)),
        0x37 => Form::Leaf(LeafRow::Memory(MemoryRow::I64Store)),
        0x38 => Form::Leaf(LeafRow::Memory(MemoryRow::F32Store)),
        0x39 => Form::Leaf(LeafRow::Memory(MemoryRow::F64Store)),
        0x3A => Form::Leaf(LeafRow::Memory(MemoryRow::I32Store8)),
        0x3B => Form::Leaf(LeafRow::Memory(MemoryRow::I32Store16)),
        0x3F => Form::Leaf(LeafRow::Index(IndexRow::MemorySize)),
        0x41 => Form::Leaf(LeafRow::Int32),
        0x42 => Form::Leaf(LeafRow::Int64),
        0x43 => Form::Leaf(LeafRow::Float32),
        0x44 => Form::Leaf(LeafRow::Float64),
        0x45 => Form::Plain(Instr::I32Eqz),
        0x46 => Form::Plain(Instr::I32Eq),
        0x47 => Form::Plain(Instr::I32Ne),
        0x49 => Form::Plain(Instr::I32LtU),
        0x4B => Form::Plain(Instr::I32GtU),
        0x4F => Form::Plain(Instr::I32GeU),
        0x50 => Form::Plain(Instr::I64Eqz),
        0x51 => Form::Plain(Instr::I64Eq),
        0x52 => Form::Plain(Instr::I64Ne),
        0x54 => Form::Plain(Instr::I64LtU),
        0x56 => Form::Plain(Instr::I64GtU),
        0x5A => Form::Plain(Instr::I64GeU),
        0x6A => Form::Plain(Instr::I32Add),
        0x6B => Form::Plain(Instr::I32Sub),
        0x6C => Form::Plain(Instr::I32Mul),
        0x71 => Form::Plain(Instr::I32And),
        0x72 => Form::Plain(Instr::I32Or),
        0x73 => Form::Plain(Instr::I32Xor),
        0x74 => Form::Plain(Instr::I32Shl),
        0x76 => Form::Plain(Instr::I32ShrU),
        0x7C => Form::Plain(Instr::I64Add),
        0x7D => Form::Plain(Instr::I64Sub),
        0x7E => Form::Plain(Instr::I64Mul),
        0x83 => Form::Plain(Instr::I64And),
        0x84 => Form::Plain(Instr::I64Or),
        0x85 => Form::Plain(Instr::I64Xor),
        0x86 => Form::Plain(Instr::I64Shl),
        0x88 => Form::Plain(Instr::I64ShrU),
        0xA7 => Form::Plain(Instr::I32WrapI64),
        0xAD => Form::Plain(Instr::I64ExtendI32U),
        0xBC => Form::Plain(Instr::I32ReinterpretF32),
        0xBD => Form::Plain(Instr::I64ReinterpretF64),
        0xBE => Form::Plain(Instr::F32ReinterpretI32),
        0xBF => Form::Plain(Instr::F64ReinterpretI64),
        0xC0 => Form::Plain(Instr::I32Extend8S),
        0xC1 => Form::Plain(Instr::I32Extend16S),
        0xD2 => Form::Leaf(LeafRow::Func(FuncRow::RefFunc)),
        _ => Form::Unknown,
    }
}

#[tactic(auto, unfolding(crate::specs::Rebuild::instr_of))]
pub fn index_instr(row: IndexRow, n: u32) -> Instr
    ensures node { (m : ℕ) → node m result ≡ Leaf (index_op row) (Index n ∷ []) }
    ensures own { (m : ℕ) → instr_of m (Leaf (index_op row) (Index n ∷ [])) ≡ result }
{
    match row {
        IndexRow::Br => Instr::Br(n),
        IndexRow::BrIf => Instr::BrIf(n),
        IndexRow::LocalGet => Instr::LocalGet(n),
        IndexRow::LocalSet => Instr::LocalSet(n),
        IndexRow::LocalTee => Instr::LocalTee(n),
        IndexRow::GlobalGet => Instr::GlobalGet(n),
        IndexRow::GlobalSet => Instr::GlobalSet(n),
        IndexRow::MemorySize => Instr::MemorySize(n),
    }
}

/// The function of an index, where so many are imported.
pub fn function_of(imports: u32, index: u32) -> FuncName
    ensures name { result ≡ name_of imports index }
    ensures index { function_index imports result ≡ index }
{
    if index < imports {
        FuncName::Import(index)
    } else {
        FuncName::Defined(index - imports)
    }
}

#[tactic(auto, unfolding(crate::specs::Rebuild::instr_of))]
pub fn func_instr(row: FuncRow, func: FuncName) -> Instr
    ensures node { (m : ℕ) → node m result ≡ Leaf (func_op row) (Index (function_index m func) ∷ []) }
    ensures own { (m k : ℕ) → name_of m k ≡ func → instr_of m (Leaf (func_op row) (Index k ∷ [])) ≡ result }
{
    match row {
        FuncRow::Call => Instr::Call(func),
        FuncRow::RefFunc => Instr::RefFunc(func),
    }
}

#[tactic(auto, unfolding(crate::specs::Rebuild::instr_of))]
pub fn memory_instr(row: MemoryRow, place: MemArg) -> Instr
    ensures node { (m : ℕ) → node m result ≡ Leaf (memory_op row) (Memory place ∷ []) }
    ensures own { (m : ℕ) → instr_of m (Leaf (memory_op row) (Memory place ∷ [])) ≡ result }
{
    match row {
        MemoryRow::I32Load => Instr::I32Load(place),
        MemoryRow::I64Load => Instr::I64Load(place),
        MemoryRow::F32Load => Instr::F32Load(place),
        MemoryRow::F64Load => Instr::F64Load(place),
        MemoryRow::I32Load8S => Instr::I32Load8S(place),
        MemoryRow::I32Load8U => Instr::I32Load8U(place),
        MemoryRow::I32Load16S => Instr::I32Load16S(place),
        MemoryRow::I32Load16U => Instr::I32Load16U(place),
        MemoryRow::I32Store => Instr::I32Store(place),
        MemoryRow::I64Store => Instr::I64Store(place),
        MemoryRow::F32Store => Instr::F32Store(place),
        MemoryRow::F64Store => Instr::F64Store(place),
        MemoryRow::I32Store8 => Instr::I32Store8(place),
        MemoryRow::I32Store16 => Instr::I32Store16(place),
    }
}

#[tactic(auto, unfolding(crate::specs::Rebuild::instr_of))]
pub fn body_instr(row: BodyRow, ty: BlockType, labels: Seq<u32>, body: Seq<Instr>) -> Instr
    ensures node { (m : ℕ) → node m result ≡ Nest (body_op row) (head_args row ty labels) (body_nodes m body) }
    ensures own { (m : ℕ) → instrs_of m (body_nodes m body) ≡ body → instr_of m (Nest (body_op row) (head_args row ty labels) (body_nodes m body)) ≡ result }
{
    match row {
        BodyRow::Block => Instr::Block(ty, body),
        BodyRow::Loop => Instr::Loop(ty, body),
        BodyRow::TryTable => Instr::TryTable(ty, labels, body),
    }
}
