//! Plans: types, functions and core items in lists, and the adapters to make.
//!
//! Each list is numbered from 0, and a number names the item at that place. No number has been looked up: it may be past
//! the end of its list.

use fact_source::PrimitiveValType;
use fact_types::{CoreDef, StringEncoding};
use fact_wasm::{FuncType, Seq, Text};

/// A type: a word, or the number of an entry of the plan's types. No word of JSON is `ErrorContext`, which has an entry.
#[derive(Clone, Copy, Drop)]
pub enum PlanRef {
    Word(PrimitiveValType),
    Entry(u32),
}

/// An entry of the plan's types (Component Model, "Type Definitions", `defvaltype`). An `Own` or a `Borrow` names its
/// resource table; the number of a `Future`, a `Stream` or an `ErrorContext` is its component instance.
#[derive(Drop)]
pub enum PlanType {
    Record(Seq<(Text, PlanRef)>),
    Variant(Seq<(Text, Option<PlanRef>)>),
    Tuple(Seq<PlanRef>),
    List(PlanRef),
    Option(PlanRef),
    Map(PlanRef, PlanRef),
    Result(Option<PlanRef>, Option<PlanRef>),
    Flags(Seq<Text>),
    Enum(Seq<Text>),
    FixedList(PlanRef, u32),
    Own(u32),
    Borrow(u32),
    Future(Option<PlanRef>, u32),
    Stream(Option<PlanRef>, u32),
    ErrorContext(u32),
}

/// A function type: parameters with their names, and results.
#[derive(Drop)]
pub struct PlanFunc {
    pub params: Seq<(Text, PlanRef)>,
    pub results: Seq<PlanRef>,
    pub async_: bool,
}

/// A memory: its core definition, whether its addresses have 64 bits, and the exponent of its page size in bytes.
#[derive(Clone, Copy, Drop)]
pub struct PlanMemory {
    pub def: u32,
    pub memory64: bool,
    pub shared: bool,
    pub page_size_log2: u8,
}

/// One side of an adapter (canonical ABI, "Canonical ABI options"): the numbers of its function type, its component
/// instance and its core type, and the core definitions that it uses.
#[derive(Clone, Copy, Drop)]
pub struct PlanSide {
    pub ty: u32,
    pub instance: u32,
    pub core_type: u32,
    pub encoding: StringEncoding,
    pub async_: bool,
    pub memory: Option<PlanMemory>,
    pub realloc: Option<u32>,
    pub callback: Option<u32>,
    pub post_return: Option<u32>,
}

/// An adapter: the core definition `func`, lifted as `lift` says and lowered as `lower` says. `transparent` is the mark
/// of thread transparency, which is taken as given.
#[derive(Drop)]
pub struct PlanAdapter {
    pub name: Text,
    pub func: u32,
    pub transparent: bool,
    pub lift: PlanSide,
    pub lower: PlanSide,
}

/// What the adapters may use, and the fuel of a function: how much translation it may hold before parts of it become
/// helpers.
#[derive(Clone, Copy, Drop)]
pub struct PlanTunables {
    pub concurrency: bool,
    pub exceptions: bool,
    pub debug: bool,
    pub fuel: u32,
}

/// A plan. `instances` counts the component instances; a resource table is the number of a resource and of an instance.
#[derive(Drop)]
pub struct FusePlan {
    pub instances: u32,
    pub types: Seq<PlanType>,
    pub tables: Seq<(u32, u32)>,
    pub funcs: Seq<PlanFunc>,
    pub core_types: Seq<FuncType>,
    pub core_defs: Seq<CoreDef>,
    pub adapters: Seq<PlanAdapter>,
    pub tunables: PlanTunables,
}
