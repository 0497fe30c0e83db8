//! The constants in the code of modules, which are as wide as their types.

ghost use Rattle.std.specs.Prelude.{◌<◌, ◌^◌};
ghost use Rattle.fact_check.specs.Constants.{AreBits, AreTypedConstants, HasTypedConstants, constants};

use fact_wasm::{Instr, WasmModule};

/// The bits of a number of 32 bits.
fn has_32(bits: u32)
    ensures { bits < 2 ^ 32 }
{
    let _bits = bits;
}

/// The bits of a number of 64 bits.
fn has_64(bits: u64)
    ensures { bits < 2 ^ 64 }
{
    let _bits = bits;
}

/// Reads the constants of an instruction, in its bodies too.
#[cycle(constants)]
fn read_constant(instr: &Instr)
    ensures { AreBits (constants instr.now) }
{
    match instr {
        Instr::Block(_, body) => read_body(body.as_slice()),
        Instr::Loop(_, body) => read_body(body.as_slice()),
        Instr::TryTable(_, _, body) => read_body(body.as_slice()),
        Instr::If(_, body, other) => match other {
            None => read_body(body.as_slice()),
            Some(other) => {
                read_body(body.as_slice());
                read_body(other.as_slice())
            }
        },
        Instr::I32Const(bits) => has_32(*bits),
        Instr::I64Const(bits) => has_64(*bits),
        Instr::F32Const(bits) => has_32(*bits),
        Instr::F64Const(bits) => has_64(*bits),
        _ => {}
    }
}

/// Reads the constants of code.
#[cycle(constants)]
fn read_body(body: &[Instr])
    ensures { AreTypedConstants body.now }
{
    for instr in body {
        read_constant(instr);
    }
}

/// Reads the constants in the functions of a module: the bits of each are as many as its type has. It takes no memory.
pub fn read_constants(module: &WasmModule)
    ensures { HasTypedConstants «module».now }
{
    for func in module.funcs.as_slice() {
        read_body(func.body.as_slice());
    }
}
