//! What the machine works on (core specification, "Execution", "Runtime Structure").

use fact_wasm::{FuncName, Seq};

/// A value: a number by its bits, or a reference to a function.
#[derive(Clone, Copy, Drop, PartialEq, Eq)]
pub enum CoreValue {
    I32(u32),
    I64(u64),
    F32(u32),
    F64(u64),
    Func(FuncName),
}

/// The memories and the globals of a module, in the order of its imports.
#[derive(Drop)]
pub struct MachineState {
    pub memories: Seq<Seq<u8>>,
    pub globals: Seq<CoreValue>,
}

/// What the outside does at a call: it returns results and leaves a state, traps, or throws.
#[derive(Drop)]
pub enum Answer {
    Returns {
        results: Seq<CoreValue>,
        state: MachineState,
    },
    Traps,
    Throws,
}

/// An outside call: the number of the imported function, the arguments, the state before the call, and the answer.
#[derive(Drop)]
pub struct Event {
    pub func: u32,
    pub args: Seq<CoreValue>,
    pub before: MachineState,
    pub answer: Answer,
}

/// Something that the outside can see of a run.
#[derive(Drop)]
pub enum TraceEntry {
    /// An outside call.
    Called(Event),
    /// A write of a number of so many bytes, the lowest first, at an address of a memory.
    Stored {
        memory: u32,
        address: u64,
        length: u32,
        value: u64,
    },
    /// A new value of a global.
    GlobalSet {
        index: u32,
        value: CoreValue,
    },
}

/// How a run ended.
#[derive(Drop)]
pub enum End {
    /// The function returned these results.
    Returned(Seq<CoreValue>),
    /// An instruction, or an answer of the outside, trapped.
    Trapped,
    /// A throw met no handler.
    Thrown,
    /// An outside call found no answer left.
    Lacks,
    /// The steps ran out.
    Going,
    /// No rule applied: an operand, a value or an index was missing or of a wrong type, a local of a reference type was read
    /// before it was set, or a function's body ended in values that are not results of its type.
    Stuck,
}

/// The end of a run, the state then, and its outside calls in order.
#[derive(Drop)]
pub struct Outcome {
    pub end: End,
    pub state: MachineState,
    pub log: Seq<Event>,
}
