//! The types of core modules.

use fact_wasm::{Seq, Text, ValType};

/// The type of an import or export of a core module (core specification, "External Types"). The limits of a table count
/// elements, those of a memory count pages.
#[derive(Drop)]
pub enum SourceEntityType {
    Func {
        params: Seq<ValType>,
        results: Seq<ValType>,
    },
    Table {
        minimum: u64,
        maximum: Option<u64>,
        table64: bool,
    },
    Memory {
        minimum: u64,
        maximum: Option<u64>,
        shared: bool,
        memory64: bool,
        page_size_log2: u8,
    },
    Global {
        ty: ValType,
        mutable: bool,
    },
    /// A tag, by the parameters and results of its signature.
    Tag {
        params: Seq<ValType>,
        results: Seq<ValType>,
    },
    /// A function of exactly one type.
    FuncExact,
}

/// A type of core modules: its imports by the names of module and field, and its exports by name, each in order. A name
/// may stand more than once.
#[derive(Drop)]
pub struct SourceModule {
    pub imports: Seq<(Text, Text, SourceEntityType)>,
    pub exports: Seq<(Text, SourceEntityType)>,
}
