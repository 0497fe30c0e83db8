//! How the run of a call begins.

ghost use Rattle.std.specs.Prelude.{◌≡◌, ◌<◌, All, IfOk, List, OnOk, ℕ, get_or, length};
ghost use Rattle.fact_types.specs.Functions.{HaveShapes};
ghost use Rattle.fact_types.specs.Shapes.{Shape};
ghost use Rattle.fact_lowering.specs.Lowered.{AreAllLive, CanStore};
ghost use Rattle.fact_host.specs.Begun.{CanBegin, HaveArea, IsBegun, MakesMore, IsFirstState, IsStarted, first_cursor, first_length, first_value};
ghost use Rattle.fact_host.specs.Contract.{AreTypesLive, AreSuited, IsCallable};
ghost use Rattle.fact_host.specs.Describes.{HasCallShapes};
ghost use Rattle.fact_host.specs.Rules.{CallShapes};

use crate::answers::memory_of;
use crate::calling::HostCall;
use crate::results::with_bytes;
use crate::roles::is_place;
use fact_abi::Value;
use fact_lowering::{Lowering, Store, core_value, flat_all, lower_tuple, pointer_of, set_aside};
use fact_machine::{CoreValue, MachineState};
use fact_types::{ComponentTypes, InterfaceType, MAX_FLAT_PARAMS, MAX_FLAT_RESULTS};
use fact_wasm::{ImportType, OutOfMemory, Seq, ValType, WasmModule};
use std::alloc::Global;

/// The bytes of a memory that a side names, as a run begins.
const MEMORY_BYTES: usize = 65_536;

/// The first state of a call: its memories are zeros, all others empty, and all flags are 1.
pub fn first_state(
    alloc: Global,
    module: &WasmModule,
    call: &HostCall,
) -> Result<MachineState, OutOfMemory>
    ensures { IfOk result (λ state. IsFirstState call.now «module».now.imports state) }
{
    let mut memories = Seq::new(alloc);
    let mut globals = Seq::new(alloc);
    for import in module.imports.as_slice() {
        add_first(alloc, call, &import.ty, &mut memories, &mut globals)?;
    }
    Ok(MachineState { memories, globals })
}

/// Adds the memory or the global that an import of a type is.
fn add_first(
    alloc: Global,
    call: &HostCall,
    ty: &ImportType,
    memories: &mut Seq<Seq<u8>>,
    globals: &mut Seq<CoreValue>,
) -> Result<(), OutOfMemory>
    ensures { OnOk result (MakesMore call.now ty.now memories.old memories.new globals.old globals.new) }
{
    match *ty {
        ImportType::Func(_) => Ok(()),
        ImportType::Memory { .. } => {
            let bytes = first_memory(alloc, call, memories.len())?;
            memories.push(bytes)
        }
        ImportType::Global { ty, .. } => globals.push(first_value(ty)),
    }
}

/// The nth memory as a run begins: zeros where a side names it, and else nothing.
fn first_memory(alloc: Global, call: &HostCall, number: usize) -> Result<Seq<u8>, OutOfMemory>
    ensures length { IfOk result (λ bytes. length bytes ≡ first_length call.now number) }
    ensures zeros { IfOk result (λ bytes. All (λ b. b ≡ 0) bytes) }
{
    if is_place(call.lift.memory, number) || is_place(call.lower.memory, number) {
        zero_bytes(alloc, MEMORY_BYTES)
    } else {
        Ok(Seq::new(alloc))
    }
}

/// So many zeros.
fn zero_bytes(alloc: Global, count: usize) -> Result<Seq<u8>, OutOfMemory>
    ensures length { IfOk result (λ bytes. length bytes ≡ count) }
    ensures zeros { IfOk result (λ bytes. All (λ b. b ≡ 0) bytes) }
{
    let bytes: Vec<u8> = vec![in alloc; 0; count]?;
    Ok(Seq::from_vec(bytes))
}

/// A global of a type as a run begins.
fn first_value(ty: ValType) -> CoreValue
    ensures { result ≡ first_value ty }
{
    match ty {
        ValType::I64 => CoreValue::I64(1),
        ValType::F32 => CoreValue::F32(1),
        ValType::F64 => CoreValue::F64(1),
        ValType::I32 | ValType::FuncRef => CoreValue::I32(1),
    }
}

/// A run that is about to begin: the state, the arguments, and the cursor of the lower side's memory.
#[derive(Drop)]
pub struct Begun {
    pub state: MachineState,
    pub args: Seq<CoreValue>,
    pub cursor: u64,
}

/// Stores the arguments of a call, and sets the return area aside, in a state whose memories have room.
pub fn begin(
    alloc: Global,
    types: &ComponentTypes,
    state: &MachineState,
    call: &HostCall,
    args: &[Value],
) -> Result<Begun, OutOfMemory>
    requires live { AreTypesLive types.now call.now }
    requires shaped { (s : CallShapes) × HasCallShapes types.now call.now s }
    requires can { (s : CallShapes) → HasCallShapes types.now call.now s → CanBegin call.now s args.now state.now }
    ensures { IfOk result (λ run. (s : CallShapes) → HasCallShapes types.now call.now s → IsBegun call.now s args.now state.now run.state run.args run.cursor) }
{
    let side = &call.lower;
    let to = Lowering {
        alloc,
        types,
        side: side.abi,
    };
    let mut store = Store::of_memory(alloc, memory_of(state, side.memory), 0)?;
    let params = side.params.as_slice();
    let Some(core) = lower_tuple(&to, params, &mut store, args, MAX_FLAT_PARAMS)? else {
        unreachable!()
    };
    let args = with_area(&to, side.results.as_slice(), &mut store, core)?;
    let Store { bytes, cursor } = store;
    let state = with_bytes(state, side.memory, bytes)?;
    Ok(Begun {
        state,
        args,
        cursor,
    })
}

/// Core values with a pointer to a return area behind them, which is set aside where the results are not flat.
fn with_area(
    to: &Lowering<'_>,
    tys: &[InterfaceType],
    store: &mut Store,
    core: Seq<CoreValue>,
) -> Result<Seq<CoreValue>, OutOfMemory>
    requires live { AreAllLive to.now.types.now tys.now }
    requires can { CanStore store.old.cursor store.old.bytes.items }
    ensures area { IfOk result (λ args. (ss : List Shape) → HaveShapes to.now.types.now tys.now ss → HaveArea to.now.side ss core args store.old.cursor store.new.cursor store.old.bytes.items) }
    ensures bytes { store.new.bytes ≡ store.old.bytes }
{
    match flat_all(to.alloc, to.types, tys, to.side.memory64, MAX_FLAT_RESULTS)? {
        Some(_flat) => Ok(core),
        None => {
            let area = set_aside(to, tys, store);
            let mut args = core;
            args.push(core_value(pointer_of(to), area))?;
            Ok(args)
        }
    }
}

/// A run that is about to begin, and the cursors of all memories.
#[derive(Drop)]
pub struct Started {
    pub begun: Begun,
    pub cursors: Seq<u64>,
}

/// Stores the arguments of a call in its first state.
pub fn start(
    alloc: Global,
    types: &ComponentTypes,
    module: &WasmModule,
    call: &HostCall,
    args: &[Value],
) -> Result<Started, OutOfMemory>
    requires callable { (s : CallShapes) × IsCallable «module».now types.now call.now s }
    requires live { AreTypesLive types.now call.now }
    requires suited { (s : CallShapes) → HasCallShapes types.now call.now s → AreSuited s args.now }
    ensures { IfOk result (λ run. (s : CallShapes) → HasCallShapes types.now call.now s → IsStarted «module».now.imports call.now s args.now run.begun.state run.begun.args run.begun.cursor run.cursors) }
{
    let state = first_state(alloc, module, call)?;
    let begun = begin(alloc, types, &state, call, args)?;
    let count = begun.state.memories.len();
    let cursors = first_cursors(alloc, count, call.lower.memory, begun.cursor)?;
    Ok(Started { begun, cursors })
}

/// The cursors of so many memories as a run begins: that of the lower side's memory is behind what was stored.
pub fn first_cursors(
    alloc: Global,
    count: usize,
    memory: Option<u32>,
    cursor: u64,
) -> Result<Seq<u64>, OutOfMemory>
    ensures count { IfOk result (λ cursors. length cursors ≡ count) }
    ensures each { IfOk result (λ cursors. (n : ℕ) → n < count → get_or cursors n 0 ≡ first_cursor memory cursor n) }
{
    let mut cursors = Seq::new(alloc);
    for number in 0..count {
        cursors.push(first_cursor(memory, cursor, number))?;
    }
    Ok(cursors)
}

/// The cursor of the nth memory as a run begins.
fn first_cursor(memory: Option<u32>, cursor: u64, number: usize) -> u64
    ensures { result ≡ first_cursor memory cursor number }
{
    if is_place(memory, number) { cursor } else { 0 }
}
