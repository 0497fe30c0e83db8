//! The locals of a string's move.

ghost use Rattle.std.specs.Prelude.{IfOk, OnOk, ◌≡◌, true};
ghost use Rattle.std.specs.List.{AllByRecursion};
ghost use Rattle.fact_emit.specs.StringPieces.{string_numbers, string_slots};
ghost use Rattle.fact_emit.specs.Writers.{AreDistinctNumbers, FreedAll, TookAll, taken_in};

use crate::context::ContextLocals;
use crate::freed_locals::free_locals;
use crate::writer::Writer;
use fact_wasm::{OutOfMemory, ValType};

/// The locals of a string, of type i64: the pointer and the units of its source, how many of them are read, the region, what is written,
/// the bytes of the region and of the one before it, and the length of a memory. Two are of type i32, for the slots of the context.
#[derive(Clone, Copy)]
pub struct StringLocals {
    pub source: u32,
    pub units: u32,
    pub read: u32,
    pub region: u32,
    pub written: u32,
    pub bytes: u32,
    pub before: u32,
    pub length: u32,
    pub context: ContextLocals,
}

/// Takes the locals of a string.
pub fn take_string_locals(w: &mut Writer) -> Result<StringLocals, OutOfMemory>
    ensures { IfOk result (λ l. TookAll w.old w.new (string_slots l)) }
{
    let source = w.take_local(ValType::I64)?;
    let units = w.take_local(ValType::I64)?;
    let read = w.take_local(ValType::I64)?;
    let region = w.take_local(ValType::I64)?;
    let written = w.take_local(ValType::I64)?;
    let bytes = w.take_local(ValType::I64)?;
    let before = w.take_local(ValType::I64)?;
    let length = w.take_local(ValType::I64)?;
    let first = w.take_local(ValType::I32)?;
    let second = w.take_local(ValType::I32)?;
    Ok(StringLocals {
        source,
        units,
        read,
        region,
        written,
        bytes,
        before,
        length,
        context: ContextLocals { first, second },
    })
}

/// The locals of a string are in use no more.
pub fn free_string_locals(w: &mut Writer, l: StringLocals) -> Result<(), OutOfMemory>
    requires taken { AllByRecursion (λ i. taken_in w.old i ≡ true) (string_numbers l) }
    requires distinct { AreDistinctNumbers (string_numbers l) }
    ensures { OnOk result (FreedAll w.old w.new (string_numbers l)) }
{
    let locals = [
        l.source,
        l.units,
        l.read,
        l.region,
        l.written,
        l.bytes,
        l.before,
        l.length,
        l.context.first,
        l.context.second,
    ];
    free_locals(w, &locals)?;
    Ok(())
}
