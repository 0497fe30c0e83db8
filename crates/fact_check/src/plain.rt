//! Instructions that are of one type wherever they stand (core specification, "Validation", "Numeric Instructions").

ghost use Rattle.std.specs.Prelude.{◌≡◌, [], ◌∷◌, option_map, IfOk, Some};
ghost use Rattle.fact_wasm.specs.declared.instr.Instr.{out-Instr};
ghost use Rattle.fact_machine.specs.Typing.{change, instruction_type, only_if};
ghost use Rattle.fact_check.specs.Operands.{operands_of};
ghost use Rattle.fact_check.specs.Sections.{types_of_plain};

use crate::OutOfMemory;
use crate::operands::Operands;
use fact_wasm::{Instr, ValType};

/// What such an instruction takes, and what it gives.
#[derive(Clone, Copy)]
pub enum Plain {
    Constant(ValType),
    Unary(ValType, ValType),
    Binary(ValType, ValType),
}

/// The types of an instruction that is of one type wherever it stands; `None` of any other.
pub fn plain_of(instr: &Instr) -> Option<Plain>
    ensures { option_map types_of_plain result ≡ instruction_type (out-Instr instr.now) }
{
    match instr {
        Instr::I32Const(_) => Some(Plain::Constant(ValType::I32)),
        Instr::I64Const(_) => Some(Plain::Constant(ValType::I64)),
        Instr::F32Const(_) => Some(Plain::Constant(ValType::F32)),
        Instr::F64Const(_) => Some(Plain::Constant(ValType::F64)),
        Instr::I32Eqz | Instr::I32Extend8S | Instr::I32Extend16S => {
            Some(Plain::Unary(ValType::I32, ValType::I32))
        }
        Instr::I64Eqz | Instr::I32WrapI64 => Some(Plain::Unary(ValType::I64, ValType::I32)),
        Instr::I64ExtendI32U => Some(Plain::Unary(ValType::I32, ValType::I64)),
        Instr::I32ReinterpretF32 => Some(Plain::Unary(ValType::F32, ValType::I32)),
        Instr::I64ReinterpretF64 => Some(Plain::Unary(ValType::F64, ValType::I64)),
        Instr::F32ReinterpretI32 => Some(Plain::Unary(ValType::I32, ValType::F32)),
        Instr::F64ReinterpretI64 => Some(Plain::Unary(ValType::I64, ValType::F64)),
        Instr::I32Eq
        | Instr::I32Ne
        | Instr::I32LtU
        | Instr::I32GtU
        | Instr::I32GeU
        | Instr::I32Add
        | Instr::I32Sub
        | Instr::I32Mul
        | Instr::I32And
        | Instr::I32Or
        | Instr::I32Xor
        | Instr::I32Shl
        | Instr::I32ShrU => Some(Plain::Binary(ValType::I32, ValType::I32)),
        Instr::I64Eq | Instr::I64Ne | Instr::I64LtU | Instr::I64GtU | Instr::I64GeU => {
            Some(Plain::Binary(ValType::I64, ValType::I32))
        }
        Instr::I64Add
        | Instr::I64Sub
        | Instr::I64Mul
        | Instr::I64And
        | Instr::I64Or
        | Instr::I64Xor
        | Instr::I64Shl
        | Instr::I64ShrU => Some(Plain::Binary(ValType::I64, ValType::I64)),
        _ => None,
    }
}

/// Takes what such an instruction takes, and gives what it gives.
pub fn operate(operands: &mut Operands, plain: Plain) -> Result<bool, OutOfMemory>
    ensures { IfOk result (λ done. change (types_of_plain plain).0 ((types_of_plain plain).1 ∷ []) (operands_of operands.old) ≡ only_if done (Some (operands_of operands.new))) }
{
    match plain {
        Plain::Constant(gives) => operands.change(&[], &[gives]),
        Plain::Unary(takes, gives) => operands.change(&[takes], &[gives]),
        Plain::Binary(takes, gives) => operands.change(&[takes, takes], &[gives]),
    }
}
