//! The two widths of linear memory: the type of pointers, and the instructions on them.

ghost use Rattle.std.specs.Prelude.{◌≡◌, ℕ, Bool, true, false};
ghost use Rattle.fact_wasm.specs.declared.types.ValType.{ValType};
ghost use Rattle.fact_emit.specs.Widths.{PointerCode, IsPointerType, IsPointerCode, code_32, code_64, pointer_code};
ghost use Rattle.fact_emit.specs.WidthLaws.{code_32_is, code_64_is, code_32_of, code_64_of, pointer_32_is, pointer_64_is};

use fact_wasm::{Instr, MemArg, ValType};

/// A width of linear memory. Each function gives the instruction of its name on pointers of the width; what the instructions do
/// is a law of the trait (core specification, "Numeric Instructions", "Memory Instructions").
pub trait Width {
    // whether pointers have 64 bits
    ghost memory64: { Bool };

    // the instructions on them
    ghost code: { PointerCode };

    ghost PTR: { ValType };

    /// The type of pointers.
    const PTR: ValType;

    ghost SIZE: { ℕ };

    /// The bytes of a pointer.
    const SIZE: u32;

    /// The sum, modulo 2 to the power of the width.
    fn ptr_add() -> Instr
        ensures { result ≡ code.add };

    /// The difference, modulo 2 to the power of the width.
    fn ptr_sub() -> Instr
        ensures { result ≡ code.sub };

    /// The product, modulo 2 to the power of the width.
    fn ptr_mul() -> Instr
        ensures { result ≡ code.mul };

    /// The shift to the left, by a count modulo the width.
    fn ptr_shl() -> Instr
        ensures { result ≡ code.shl };

    /// The bits that both have.
    fn ptr_and() -> Instr
        ensures { result ≡ code.and };

    /// The bits that one of them has.
    fn ptr_or() -> Instr
        ensures { result ≡ code.or };

    /// The bits in which they differ.
    fn ptr_xor() -> Instr
        ensures { result ≡ code.xor };

    /// Whether they are equal, as an i32.
    fn ptr_eq() -> Instr
        ensures { result ≡ code.eq };

    /// Whether they are not equal.
    fn ptr_ne() -> Instr
        ensures { result ≡ code.ne };

    /// Whether it is 0.
    fn ptr_eqz() -> Instr
        ensures { result ≡ code.eqz };

    /// Whether the first is greater, as unsigned numbers.
    fn ptr_gt_u() -> Instr
        ensures { result ≡ code.gt_u };

    /// Whether the first is less, as unsigned numbers.
    fn ptr_lt_u() -> Instr
        ensures { result ≡ code.lt_u };

    /// A number.
    fn ptr_uconst(n: u32) -> Instr
        ensures { result ≡ code.uconst n };

    /// A number with a sign, modulo 2 to the power of the width.
    fn ptr_iconst(n: i32) -> Instr
        ensures { result ≡ code.iconst n };

    /// A pointer from memory.
    fn ptr_load(at: MemArg) -> Instr
        ensures { result ≡ code.load at };

    /// A pointer to memory.
    fn ptr_store(at: MemArg) -> Instr
        ensures { result ≡ code.store at };

    // the type and the bytes are those of the width,
    ghost is_pointer: { IsPointerType memory64 PTR SIZE };

    // the instructions are those of the width,
    ghost is_width: { code ≡ pointer_code memory64 };

    // and do what their names say
    ghost is_code: { IsPointerCode memory64 code };
}

/// Pointers of 32 bits.
pub struct W32;

/// Pointers of 64 bits.
pub struct W64;

impl Width for W32 {
    ghost memory64 = { false };

    ghost code = { code_32 };

    ghost PTR = { ValType.I32 };

    const PTR: ValType = ValType::I32;

    ghost SIZE = { 4 };

    const SIZE: u32 = 4;

    ghost is_pointer = { pointer_32_is };

    ghost is_width = { code_32_of };

    ghost is_code = { code_32_is };

    fn ptr_add() -> Instr {
        Instr::I32Add
    }

    fn ptr_sub() -> Instr {
        Instr::I32Sub
    }

    fn ptr_mul() -> Instr {
        Instr::I32Mul
    }

    fn ptr_shl() -> Instr {
        Instr::I32Shl
    }

    fn ptr_and() -> Instr {
        Instr::I32And
    }

    fn ptr_or() -> Instr {
        Instr::I32Or
    }

    fn ptr_xor() -> Instr {
        Instr::I32Xor
    }

    fn ptr_eq() -> Instr {
        Instr::I32Eq
    }

    fn ptr_ne() -> Instr {
        Instr::I32Ne
    }

    fn ptr_eqz() -> Instr {
        Instr::I32Eqz
    }

    fn ptr_gt_u() -> Instr {
        Instr::I32GtU
    }

    fn ptr_lt_u() -> Instr {
        Instr::I32LtU
    }

    fn ptr_uconst(n: u32) -> Instr {
        Instr::I32Const(n)
    }

    fn ptr_iconst(n: i32) -> Instr {
        Instr::I32Const(n.cast_unsigned())
    }

    fn ptr_load(at: MemArg) -> Instr {
        Instr::I32Load(at)
    }

    fn ptr_store(at: MemArg) -> Instr {
        Instr::I32Store(at)
    }
}

impl Width for W64 {
    ghost memory64 = { true };

    ghost code = { code_64 };

    ghost PTR = { ValType.I64 };

    const PTR: ValType = ValType::I64;

    ghost SIZE = { 8 };

    const SIZE: u32 = 8;

    ghost is_pointer = { pointer_64_is };

    ghost is_width = { code_64_of };

    ghost is_code = { code_64_is };

    fn ptr_add() -> Instr {
        Instr::I64Add
    }

    fn ptr_sub() -> Instr {
        Instr::I64Sub
    }

    fn ptr_mul() -> Instr {
        Instr::I64Mul
    }

    fn ptr_shl() -> Instr {
        Instr::I64Shl
    }

    fn ptr_and() -> Instr {
        Instr::I64And
    }

    fn ptr_or() -> Instr {
        Instr::I64Or
    }

    fn ptr_xor() -> Instr {
        Instr::I64Xor
    }

    fn ptr_eq() -> Instr {
        Instr::I64Eq
    }

    fn ptr_ne() -> Instr {
        Instr::I64Ne
    }

    fn ptr_eqz() -> Instr {
        Instr::I64Eqz
    }

    fn ptr_gt_u() -> Instr {
        Instr::I64GtU
    }

    fn ptr_lt_u() -> Instr {
        Instr::I64LtU
    }

    fn ptr_uconst(n: u32) -> Instr {
        Instr::I64Const(u64::from(n))
    }

    fn ptr_iconst(n: i32) -> Instr {
        Instr::I64Const(i64::from(n).cast_unsigned())
    }

    fn ptr_load(at: MemArg) -> Instr {
        Instr::I64Load(at)
    }

    fn ptr_store(at: MemArg) -> Instr {
        Instr::I64Store(at)
    }
}

/// What the type and the instructions of every width are. The call does nothing: its contract is the laws.
pub fn laws_of_width<W: Width>()
    ensures pointer { IsPointerType W.memory64 W.PTR W.SIZE }
    ensures width { W.code ≡ pointer_code W.memory64 }
    ensures code { IsPointerCode W.memory64 W.code }
{}
