//! The canonical options of a side, with the places of what they name among the imports.

ghost use Rattle.std.specs.Prelude.{◌≡◌};
ghost use Rattle.fact_emit.specs.Options.{linear_of_options, memory_place as place_of_memory, number_if_any as number_of};

use crate::core_imports::custom_page_size;
use crate::places::LinearMemory;
use fact_entity::{FuncIndex, MemoryIndex, ModuleInternedTypeIndex};
use fact_types::StringEncoding;

/// How a side keeps values in memory: the place of its memory among the imported memories, where it has one; whether addresses
/// have 64 bits, which they have not without a memory; the exponent of the page size in bytes; and the place of its realloc among
/// the imported functions.
#[derive(Clone, Copy, PartialEq, Eq, Hash)]
pub struct LinearMemoryOptions {
    pub memory: Option<MemoryIndex>,
    pub memory64: bool,
    pub page_size_log2: u8,
    pub realloc: Option<FuncIndex>,
}

/// The canonical options of a side (canonical ABI, "Canonical ABI options"), with the places of what they name among the imports.
#[derive(Clone, Copy, PartialEq, Eq, Hash)]
pub struct Options {
    pub string_encoding: StringEncoding,
    pub linear: LinearMemoryOptions,
    pub callback: Option<FuncIndex>,
    pub async_: bool,
    pub core_type: ModuleInternedTypeIndex,
}

/// The place of a memory, or 0 where there is none.
fn memory_place(memory: Option<MemoryIndex>) -> u32
    ensures { result ≡ place_of_memory memory }
{
    match memory {
        Some(memory) => memory.number,
        None => 0,
    }
}

/// The place of a realloc, where there is one.
fn realloc_place(realloc: Option<FuncIndex>) -> Option<u32>
    ensures { result ≡ number_of realloc }
{
    match realloc {
        Some(realloc) => Some(realloc.number),
        None => None,
    }
}

impl Options {
    /// The side's memory as code uses it.
    pub fn linear(&self) -> LinearMemory
        ensures { result ≡ linear_of_options self.now }
    {
        let linear = self.linear;
        LinearMemory {
            has_memory: linear.memory.is_some(),
            memory: memory_place(linear.memory),
            memory64: linear.memory64,
            page_size_log2: custom_page_size(linear.page_size_log2),
            realloc: realloc_place(linear.realloc),
            encoding: self.string_encoding,
            options: *self,
        }
    }
}
