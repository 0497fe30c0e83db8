//! The passes of a string's path: calls of transcoders, with what each is told and what is made of its answer.

ghost use Rattle.std.specs.Prelude.{OnOk, ◌≡◌, ◌∷◌, [], ◌++◌, ◌&&◌, true, false};
ghost use Rattle.fact_wasm.specs.declared.instr.Instr.TheVariants as I;
ghost use Rattle.fact_values.specs.Texts.{unit_bytes};
ghost use Rattle.fact_actions.specs.Transcoders.{Fitting, Widening, from_encoding, transcode_kind};
ghost use Rattle.fact_code_laws.specs.Lists.{address_code};
ghost use Rattle.fact_code_laws.specs.StringCode.{add_to_code, answer_code, keep_code, pass_code, source_code, target_code};
ghost use Rattle.fact_code_laws.specs.StringNeeds.{NeedsTranscoder};
ghost use Rattle.fact_emit.specs.Emits.{Emits};
ghost use Rattle.fact_emit.specs.StringPieces.{AreSidesImported, StringPiece, WroteStringPart, transcoder_between};
ghost use Rattle.fact_emit.specs.Writers.{Wrote};

use crate::paths::{Pass, TranscodeKind, kind_of};
use crate::places::Sides;
use crate::requests::put_address;
use crate::string_code::{add_to, keep, put_times, to_address};
use crate::string_locals::StringLocals;
use crate::transcoders::Transcoder;
use crate::writer::Writer;
use fact_entity::EntityRef;
use fact_types::{FixedEncoding, Transcode};
use fact_wasm::{FuncName, Instr, OutOfMemory};

/// The bytes of a code unit of what an operation reads.
fn source_unit_bytes(op: Transcode) -> u32
    ensures { result ≡ unit_bytes (from_encoding op) }
{
    match op {
        Transcode::Copy(encoding) => encoding_unit_bytes(encoding),
        Transcode::Utf16ToCompactProbablyUtf16
        | Transcode::Utf16ToCompactUtf16
        | Transcode::Utf16ToLatin1
        | Transcode::Utf16ToUtf8 => 2,
        Transcode::Latin1ToUtf16
        | Transcode::Latin1ToUtf8
        | Transcode::Utf8ToCompactUtf16
        | Transcode::Utf8ToLatin1
        | Transcode::Utf8ToUtf16 => 1,
    }
}

fn encoding_unit_bytes(encoding: FixedEncoding) -> u32
    ensures { result ≡ unit_bytes encoding }
{
    match encoding {
        FixedEncoding::Utf16 => 2,
        FixedEncoding::Utf8 | FixedEncoding::Latin1 => 1,
    }
}

/// Where the rest of a source begins, behind the units that are read, and how many it has.
fn put_rest(w: &mut Writer, sides: Sides, op: Transcode, l: StringLocals) -> Result<(), OutOfMemory>
    ensures { OnOk result (WroteStringPart sides l (λ m. source_code m op true) w.old w.new) }
{
    let memory64 = sides.from.memory64;
    w.put(Instr::LocalGet(l.source))?;
    put_times(w, memory64, source_unit_bytes(op), l.read)?;
    w.put(Instr::I64Add)?;
    to_address(w, memory64)?;
    w.put(Instr::LocalGet(l.units))?;
    w.put(Instr::LocalGet(l.read))?;
    w.put(Instr::I64Sub)?;
    to_address(w, memory64)?;
    Ok(())
}

/// Where a source begins, and how many units it has.
fn put_whole(w: &mut Writer, sides: Sides, l: StringLocals) -> Result<(), OutOfMemory>
    ensures { OnOk result (Wrote w.old w.new (address_code sides.from.memory64 l.source ++ address_code sides.from.memory64 l.units)) }
{
    put_address(w, sides.from.memory64, l.source)?;
    put_address(w, sides.from.memory64, l.units)?;
    Ok(())
}

/// Where the source of a pass begins, and how many units it has.
fn put_source(
    w: &mut Writer,
    sides: Sides,
    op: Transcode,
    rest: bool,
    l: StringLocals,
) -> Result<(), OutOfMemory>
    ensures { OnOk result (WroteStringPart sides l (λ m. source_code m op rest) w.old w.new) }
{
    if rest {
        put_rest(w, sides, op, l)
    } else {
        put_whole(w, sides, l)
    }
}

/// Where a pass into a room writes first, the room, and that it is the first one.
fn put_first_room(
    w: &mut Writer,
    sides: Sides,
    room: u32,
    l: StringLocals,
) -> Result<(), OutOfMemory>
    ensures { OnOk result (WroteStringPart sides l (λ m. target_code m Fitting false room) w.old w.new) }
{
    let memory64 = sides.to.memory64;
    put_address(w, memory64, l.region)?;
    put_times(w, memory64, room, l.units)?;
    to_address(w, memory64)?;
    w.put(Instr::I32Const(1))?;
    Ok(())
}

/// Where the next pass writes, the room that is left, and that it is not the first one.
fn put_next_room(
    w: &mut Writer,
    sides: Sides,
    room: u32,
    l: StringLocals,
) -> Result<(), OutOfMemory>
    ensures { OnOk result (WroteStringPart sides l (λ m. target_code m Fitting true room) w.old w.new) }
{
    let memory64 = sides.to.memory64;
    w.put(Instr::LocalGet(l.region))?;
    w.put(Instr::LocalGet(l.written))?;
    w.put(Instr::I64Add)?;
    to_address(w, memory64)?;
    put_times(w, memory64, room, l.units)?;
    w.put(Instr::LocalGet(l.written))?;
    w.put(Instr::I64Sub)?;
    to_address(w, memory64)?;
    w.put(Instr::I32Const(0))?;
    Ok(())
}

/// Where a pass writes that widens what is there, the room, and the bytes that are there.
fn put_wide_room(
    w: &mut Writer,
    sides: Sides,
    room: u32,
    l: StringLocals,
) -> Result<(), OutOfMemory>
    ensures { OnOk result (WroteStringPart sides l (λ m. target_code m Widening false room) w.old w.new) }
{
    let memory64 = sides.to.memory64;
    put_address(w, memory64, l.region)?;
    put_times(w, memory64, room, l.units)?;
    to_address(w, memory64)?;
    put_address(w, memory64, l.written)?;
    Ok(())
}

/// What a transcoder is told of the room that it fills, at first or from where it stopped.
fn put_room(
    w: &mut Writer,
    sides: Sides,
    rest: bool,
    room: u32,
    l: StringLocals,
) -> Result<(), OutOfMemory>
    ensures { OnOk result (WroteStringPart sides l (λ m. target_code m Fitting rest room) w.old w.new) }
{
    if rest {
        put_next_room(w, sides, room, l)
    } else {
        put_first_room(w, sides, room, l)
    }
}

/// What a transcoder is told of the destination.
fn put_destination(
    w: &mut Writer,
    sides: Sides,
    pass: Pass,
    l: StringLocals,
) -> Result<(), OutOfMemory>
    ensures { OnOk result (WroteStringPart sides l (λ m. target_code m (transcode_kind pass.op) pass.rest pass.room) w.old w.new) }
{
    let memory64 = sides.to.memory64;
    match kind_of(pass.op) {
        TranscodeKind::AllUnits => put_address(w, memory64, l.region),
        TranscodeKind::Counted => put_address(w, memory64, l.region),
        TranscodeKind::Fitting => put_room(w, sides, pass.rest, pass.room, l),
        TranscodeKind::Narrow => put_address(w, memory64, l.region),
        TranscodeKind::Tagged => put_address(w, memory64, l.region),
        TranscodeKind::Widening => put_wide_room(w, sides, pass.room, l),
    }
}

/// All units of the source are written.
fn take_all(w: &mut Writer, l: StringLocals) -> Result<(), OutOfMemory>
    ensures { OnOk result (Wrote w.old w.new (I.LocalGet l.units ∷ I.LocalSet l.written ∷ [])) }
{
    w.put(Instr::LocalGet(l.units))?;
    w.put(Instr::LocalSet(l.written))?;
    Ok(())
}

/// What is written and read is what is answered.
fn keep_both(w: &mut Writer, sides: Sides, l: StringLocals) -> Result<(), OutOfMemory>
    ensures { OnOk result (Wrote w.old w.new (keep_code sides.to.memory64 l.written ++ keep_code sides.from.memory64 l.read)) }
{
    keep(w, sides.to.memory64, l.written)?;
    keep(w, sides.from.memory64, l.read)?;
    Ok(())
}

/// What is answered is added to what was written and read before.
fn add_both(w: &mut Writer, sides: Sides, l: StringLocals) -> Result<(), OutOfMemory>
    ensures { OnOk result (Wrote w.old w.new (add_to_code sides.to.memory64 l.written ++ add_to_code sides.from.memory64 l.read)) }
{
    add_to(w, sides.to.memory64, l.written)?;
    add_to(w, sides.from.memory64, l.read)?;
    Ok(())
}

/// What is read and written by what is answered of a room, at first or from where the one before stopped.
fn take_fitted(w: &mut Writer, sides: Sides, rest: bool, l: StringLocals) -> Result<(), OutOfMemory>
    ensures { OnOk result (WroteStringPart sides l (λ m. answer_code m Fitting rest) w.old w.new) }
{
    if rest {
        add_both(w, sides, l)
    } else {
        keep_both(w, sides, l)
    }
}

/// What is read and written by what a transcoder answers.
fn take_answer(w: &mut Writer, sides: Sides, pass: Pass, l: StringLocals) -> Result<(), OutOfMemory>
    ensures { OnOk result (WroteStringPart sides l (λ m. answer_code m (transcode_kind pass.op) pass.rest) w.old w.new) }
{
    let memory64 = sides.to.memory64;
    match kind_of(pass.op) {
        TranscodeKind::AllUnits => take_all(w, l),
        TranscodeKind::Counted => keep(w, memory64, l.written),
        TranscodeKind::Fitting => take_fitted(w, sides, pass.rest, l),
        TranscodeKind::Narrow => keep_both(w, sides, l),
        TranscodeKind::Tagged => keep(w, memory64, l.written),
        TranscodeKind::Widening => keep(w, memory64, l.written),
    }
}

/// The transcoder of an operation between the memories of both sides.
fn transcoder_of(sides: Sides, op: Transcode) -> Transcoder
    ensures { result ≡ transcoder_between sides op }
{
    Transcoder {
        from_memory: EntityRef::from_u32(sides.from.memory),
        from_memory64: sides.from.memory64,
        to_memory: EntityRef::from_u32(sides.to.memory),
        to_memory64: sides.to.memory64,
        op,
    }
}

/// Calls a transcoder between two memories.
fn put_pass_between(
    w: &mut Writer,
    sides: Sides,
    pass: Pass,
    l: StringLocals,
) -> Result<(), OutOfMemory>
    requires sides { AreSidesImported sides w.old.sections }
    requires from_there { sides.from.has_memory ≡ true }
    requires to_there { sides.to.has_memory ≡ true }
    ensures { OnOk result (Emits w.old w.new (StringPiece sides l (λ m. pass_code m pass.op pass.rest pass.room) (NeedsTranscoder pass.op))) }
{
    put_source(w, sides, pass.op, pass.rest, l)?;
    put_destination(w, sides, pass, l)?;
    let transcoder = transcoder_of(sides, pass.op);
    let place = w.transcoder(transcoder)?;
    w.put(Instr::Call(FuncName::Import(place)))?;
    take_answer(w, sides, pass, l)?;
    Ok(())
}

/// Whether both sides have a memory.
fn have_memories(sides: Sides) -> bool
    ensures { result ≡ (sides.from.has_memory && sides.to.has_memory) }
{
    sides.from.has_memory && sides.to.has_memory
}

/// Calls a transcoder. Between sides that do not both have a memory none is ever called.
pub fn put_pass(
    w: &mut Writer,
    sides: Sides,
    pass: Pass,
    l: StringLocals,
) -> Result<(), OutOfMemory>
    requires sides { AreSidesImported sides w.old.sections }
    ensures { OnOk result (Emits w.old w.new (StringPiece sides l (λ m. pass_code m pass.op pass.rest pass.room) (NeedsTranscoder pass.op))) }
{
    let there = have_memories(sides);
    if there {
        put_pass_between(w, sides, pass, l)
    } else {
        w.put(Instr::Unreachable)
    }
}
