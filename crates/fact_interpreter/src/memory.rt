//! Memory instructions (core specification, "Execution", "Instructions", "Memory Instructions").

ghost use Rattle.std.specs.Prelude.{◌≡◌, ◌+◌, ◌-◌, ◌<◌, ◌≤◌, ◌/◌, ◌%◌, ◌^◌, length, slice_get, slice_set, IfOk, IfSome, IsSomeAnd, MatchOption};
ghost use Rattle.fact_machine.specs.Machine.{memory_import as memory_import_of, page_bytes, size_value as size_value_of, memory_size as memory_size_of};
ghost use Rattle.fact_machine.specs.World.{bytes_of, put_at};
ghost use Rattle.fact_interpreter.specs.Running.{did_of, at, load_length, load_value, loaded, loading, store_length, store_number, store_row, storing, addressed};

use crate::numeric::{extend_8_s, extend_16_s};
use crate::running::{Running, Step};
use fact_machine::{CoreValue, End, TraceEntry, number_of_bytes};
use fact_wasm::{ImportType, MemArg, Seq, WasmImport, WasmModule};

/// What a load reads, and what it makes of it.
#[derive(Clone, Copy)]
pub enum LoadKind {
    I32,
    I64,
    F32,
    F64,
    I32From8S,
    I32From8U,
    I32From16S,
    I32From16U,
}

/// What a store takes, and how much of it it writes.
#[derive(Clone, Copy)]
pub enum StoreKind {
    I32,
    I64,
    F32,
    F64,
    I32To8,
    I32To16,
}

/// Whether the nth imported memory has 64-bit addresses, and the exponent of its page size.
fn memory_import(imports: &[WasmImport], n: u32) -> Option<(bool, Option<u32>)>
    ensures { result ≡ memory_import_of imports.now n }
{
    let mut before = n;
    let mut imports = imports;
    while let [first, rest @ ..] = imports {
        imports = rest;
        match first.ty {
            ImportType::Memory {
                memory64,
                page_size_log2,
                ..
            } if before == 0 => return Some((memory64, page_size_log2)),
            ImportType::Memory { .. } => before -= 1,
            _ => {}
        }
    }
    None
}

/// Where so many bytes from an effective address on begin and end, or `None` where they are not all there.
fn place(len: usize, base: u64, offset: u64, count: u32) -> Option<(usize, usize)>
    ensures { MatchOption result (len < base + offset + count) (λ place. (place.0 ≡ base + offset) × (place.1 ≡ base + offset + count) × (place.1 ≤ len)) }
{
    let start = base.checked_add(offset)?;
    let end = start.checked_add(u64::from(count))?;
    if end <= len as u64 {
        Some((start as usize, end as usize))
    } else {
        None
    }
}

/// The number of bytes that a load reads.
fn loaded_bytes(kind: LoadKind) -> u32
    ensures { result ≡ load_length kind }
{
    match kind {
        LoadKind::I32 | LoadKind::F32 => 4,
        LoadKind::I64 | LoadKind::F64 => 8,
        LoadKind::I32From8S | LoadKind::I32From8U => 1,
        LoadKind::I32From16S | LoadKind::I32From16U => 2,
    }
}

/// The value that a load makes of the number that it read.
fn value(kind: LoadKind, number: u64) -> CoreValue
    requires { number < 256 ^ load_length kind }
    ensures { result ≡ load_value kind number }
{
    match kind {
        LoadKind::I32 => CoreValue::I32(number as u32),
        LoadKind::I64 => CoreValue::I64(number),
        LoadKind::F32 => CoreValue::F32(number as u32),
        LoadKind::F64 => CoreValue::F64(number),
        LoadKind::I32From8S => CoreValue::I32(extend_8_s(number as u32)),
        LoadKind::I32From16S => CoreValue::I32(extend_16_s(number as u32)),
        LoadKind::I32From8U | LoadKind::I32From16U => CoreValue::I32(number as u32),
    }
}

/// A load with its base off the stack.
fn load_at(run: &mut Running, kind: LoadKind, arg: MemArg, base: u64) -> Step
    ensures { IfOk result (λ end. did_of end run.new ≡ at run.old (loading kind arg.memory_index (base + arg.offset))) }
{
    let Some(memory) = run.state.memories.get(arg.memory_index as usize) else {
        return Ok(Some(End::Stuck));
    };
    let Some((start, end)) = place(memory.len(), base, arg.offset, loaded_bytes(kind)) else {
        return Ok(Some(End::Trapped));
    };
    let read = number_of_bytes(&memory.as_slice()[start..end]);
    run.stack.push(value(kind, read))?;
    Ok(None)
}

/// A load.
pub fn load(run: &mut Running, module: &WasmModule, kind: LoadKind, arg: MemArg) -> Step
    ensures { IfOk result (λ end. did_of end run.new ≡ at run.old (loaded «module».now kind arg)) }
{
    let Some((memory64, _)) = memory_import(module.imports.as_slice(), arg.memory_index) else {
        return Ok(Some(End::Stuck));
    };
    match run.stack.pop() {
        Some(CoreValue::I64(base)) if memory64 => load_at(run, kind, arg, base),
        Some(CoreValue::I32(base)) if !memory64 => load_at(run, kind, arg, u64::from(base)),
        _ => Ok(Some(End::Stuck)),
    }
}

/// The number of bytes that a store writes.
fn stored_bytes(kind: StoreKind) -> u32
    ensures { result ≡ store_length kind }
{
    match kind {
        StoreKind::I32 | StoreKind::F32 => 4,
        StoreKind::I64 | StoreKind::F64 => 8,
        StoreKind::I32To8 => 1,
        StoreKind::I32To16 => 2,
    }
}

/// The number that a store takes, where the value is of its type.
fn stored_number(kind: StoreKind, value: CoreValue) -> Option<u64>
    ensures { result ≡ store_number kind value }
{
    match (kind, value) {
        (StoreKind::I32 | StoreKind::I32To8 | StoreKind::I32To16, CoreValue::I32(n)) => Some(
            u64::from(n),
        ),
        (StoreKind::I64, CoreValue::I64(n)) => Some(n),
        (StoreKind::F32, CoreValue::F32(n)) => Some(u64::from(n)),
        (StoreKind::F64, CoreValue::F64(n)) => Some(n),
        _ => None,
    }
}

/// The part of a number that a store writes.
fn low_part(kind: StoreKind, number: u64) -> u64
    ensures { result ≡ number % 256 ^ store_length kind }
{
    match kind {
        StoreKind::I32 | StoreKind::F32 => number % 0x1_0000_0000,
        StoreKind::I64 | StoreKind::F64 => number,
        StoreKind::I32To8 => number % 0x100,
        StoreKind::I32To16 => number % 0x1_0000,
    }
}

/// Puts the low bytes of a number at a place, the lowest first.
fn put(memory: &mut Seq<u8>, start: usize, end: usize, number: u64)
    requires { end ≤ length memory.old }
    ensures { memory.new ≡ put_at memory.old start (bytes_of (end - start) number) }
{
    let mut left = number;
    for at in start..end {
        let _old = memory.set(at, (left % 0x100) as u8);
        left /= 0x100;
    }
}

/// Puts the low bytes of a number at a place of the memory at an index.
fn put_in(memories: &mut Seq<Seq<u8>>, index: usize, start: usize, end: usize, number: u64)
    requires { IsSomeAnd (slice_get memories.old index) (λ memory. end ≤ length memory) }
    ensures { IfSome (slice_get memories.old index) (λ memory. memories.new ≡ slice_set memories.old index (put_at memory start (bytes_of (end - start) number))) }
{
    let hole = memories.empty_like();
    let mut memory = memories.set(index, hole);
    put(&mut memory, start, end, number);
    let _hole = memories.set(index, memory);
}

/// A store with its operands off the stack.
fn store_at(run: &mut Running, kind: StoreKind, arg: MemArg, base: u64, number: u64) -> Step
    ensures { IfOk result (λ end. did_of end run.new ≡ at run.old (storing kind arg.memory_index (base + arg.offset) number)) }
{
    let Some(memory) = run.state.memories.get(arg.memory_index as usize) else {
        return Ok(Some(End::Stuck));
    };
    let count = stored_bytes(kind);
    let Some((start, end)) = place(memory.len(), base, arg.offset, count) else {
        return Ok(Some(End::Trapped));
    };
    run.trace.push(TraceEntry::Stored {
        memory: arg.memory_index,
        address: start as u64,
        length: count,
        value: low_part(kind, number),
    })?;
    put_in(
        &mut run.state.memories,
        arg.memory_index as usize,
        start,
        end,
        number,
    );
    Ok(None)
}

/// A store with the number off the stack.
fn store_addressed(
    run: &mut Running,
    memory64: bool,
    kind: StoreKind,
    arg: MemArg,
    number: u64,
) -> Step
    ensures { IfOk result (λ end. did_of end run.new ≡ at run.old (addressed memory64 (λ base. storing kind arg.memory_index (base + arg.offset) number))) }
{
    match run.stack.pop() {
        Some(CoreValue::I64(base)) if memory64 => store_at(run, kind, arg, base, number),
        Some(CoreValue::I32(base)) if !memory64 => {
            store_at(run, kind, arg, u64::from(base), number)
        }
        _ => Ok(Some(End::Stuck)),
    }
}

/// A store.
pub fn store(run: &mut Running, module: &WasmModule, kind: StoreKind, arg: MemArg) -> Step
    ensures { IfOk result (λ end. did_of end run.new ≡ at run.old (store_row «module».now kind arg)) }
{
    let Some(value) = run.stack.pop() else {
        return Ok(Some(End::Stuck));
    };
    let Some(number) = stored_number(kind, value) else {
        return Ok(Some(End::Stuck));
    };
    let Some((memory64, _)) = memory_import(module.imports.as_slice(), arg.memory_index) else {
        return Ok(Some(End::Stuck));
    };
    store_addressed(run, memory64, kind, arg, number)
}

/// How many whole pages there are in so many bytes.
fn pages(len: usize, page_size_log2: Option<u32>) -> u64
    ensures { result ≡ len / page_bytes page_size_log2 }
{
    match page_size_log2 {
        None => len as u64 / 0x1_0000,
        Some(log2) if log2 < 64 => len as u64 >> log2,
        Some(_) => 0,
    }
}

/// A number of pages as a value of the type of a memory's addresses.
fn size_value(memory64: bool, pages: u64) -> Option<CoreValue>
    ensures { result ≡ size_value_of memory64 pages }
{
    if memory64 {
        return Some(CoreValue::I64(pages));
    }
    match u32::try_from(pages) {
        Ok(pages) => Some(CoreValue::I32(pages)),
        Err(_) => None,
    }
}

/// `memory.size`.
pub fn memory_size(run: &mut Running, module: &WasmModule, n: u32) -> Step
    ensures { IfOk result (λ end. did_of end run.new ≡ at run.old (memory_size_of «module».now n)) }
{
    let Some((memory64, page_size_log2)) = memory_import(module.imports.as_slice(), n) else {
        return Ok(Some(End::Stuck));
    };
    let Some(memory) = run.state.memories.get(n as usize) else {
        return Ok(Some(End::Stuck));
    };
    let Some(size) = size_value(memory64, pages(memory.len(), page_size_log2)) else {
        return Ok(Some(End::Stuck));
    };
    run.stack.push(size)?;
    Ok(None)
}
