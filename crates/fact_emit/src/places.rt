//! Places where values stand, and where they go.

ghost use Rattle.std.specs.Prelude.{◌≡◌, take, drop};
ghost use Rattle.fact_code_laws.specs.Places.{to_past};
ghost use Rattle.fact_emit.specs.Parts.{from_behind, to_behind, offset_on};
ghost use Rattle.fact_emit.specs.declared.places.LinearMemory as linear;
ghost use Rattle.fact_emit.specs.Places.{from_of, to_of};

use crate::options::Options;
use fact_types::StringEncoding;
use fact_wasm::ValType;

/// A local and its type.
#[derive(Clone, Copy)]
pub struct TypedLocal {
    pub local: u32,
    pub ty: ValType,
}

/// A place in a memory: so many bytes behind the address that a local holds.
#[derive(Clone, Copy)]
pub struct Address {
    pub local: u32,
    pub offset: u32,
}

/// Where a value stands: in locals, whose types are its flat types or wider ones, or in its side's memory.
#[derive(Clone, Copy)]
pub enum SourcePlace<'a> {
    Locals(&'a [TypedLocal]),
    Memory(Address),
}

/// Where a value goes: to locals, whose types are its flat types or wider ones, or to its side's memory.
#[derive(Clone, Copy)]
pub enum TargetPlace<'a> {
    Locals(&'a [TypedLocal]),
    Memory(Address),
}

/// A side's memory: whether there is one, its place among the imported memories, whether its addresses have 64 bits, the exponent of
/// its page size where that is a custom one, the place of its realloc among the imported functions where it has one, and how texts
/// stand in it. All this is told by the canonical options of the side. A side without a memory has addresses of 32 bits.
#[derive(Clone, Copy)]
pub struct LinearMemory {
    pub has_memory: bool,
    pub memory: u32,
    pub memory64: bool,
    pub page_size_log2: Option<u32>,
    pub realloc: Option<u32>,
    pub encoding: StringEncoding,
    pub options: Options,
}

/// Values go from the one side to the other, with debug checks or without them. With concurrency on, the slots of the context are
/// saved around calls of realloc.
#[derive(Clone, Copy)]
pub struct Sides {
    pub from: LinearMemory,
    pub to: LinearMemory,
    pub debug: bool,
    pub concurrency: bool,
}

/// The locals behind so many.
fn locals_behind(locals: &[TypedLocal], skip: usize) -> &[TypedLocal]
    ensures { result.now ≡ drop skip locals.now }
{
    &locals[skip.min(locals.len())..]
}

/// So many locals behind so many, or those that are there.
fn some_locals(locals: &[TypedLocal], skip: usize, count: usize) -> &[TypedLocal]
    ensures { result.now ≡ take count (drop skip locals.now) }
{
    let start = skip.min(locals.len());
    let end = start + count.min(locals.len() - start);
    &locals[start..end]
}

impl Address {
    /// So many bytes on. An offset that is too large becomes the largest one.
    fn part(self, bytes: u32) -> Address
        ensures local { result.local ≡ self.local }
        ensures offset { result.offset ≡ offset_on self.offset bytes }
    {
        Address {
            local: self.local,
            offset: self.offset.saturating_add(bytes),
        }
    }
}

impl<'a> SourcePlace<'a> {
    /// The place of a part, behind so many locals, of so many, and so many bytes on.
    pub fn part(self, skip: usize, count: usize, bytes: u32) -> SourcePlace<'a>
        ensures { (l : linear.LinearMemory) → from_of l result ≡ from_behind skip count bytes (from_of l self.entry) }
    {
        match self {
            SourcePlace::Locals(locals) => SourcePlace::Locals(some_locals(locals, skip, count)),
            SourcePlace::Memory(address) => SourcePlace::Memory(address.part(bytes)),
        }
    }
}

impl<'a> TargetPlace<'a> {
    /// The place of a part, behind so many locals, of so many, and so many bytes on.
    pub fn part(self, skip: usize, count: usize, bytes: u32) -> TargetPlace<'a>
        ensures { (l : linear.LinearMemory) → to_of l result ≡ to_behind skip count bytes (to_of l self.entry) }
    {
        match self {
            TargetPlace::Locals(locals) => TargetPlace::Locals(some_locals(locals, skip, count)),
            TargetPlace::Memory(address) => TargetPlace::Memory(address.part(bytes)),
        }
    }

    /// The place of what is left behind so many locals.
    pub fn past(self, skip: usize) -> TargetPlace<'a>
        ensures { (l : linear.LinearMemory) → to_of l result ≡ to_past skip (to_of l self.entry) }
    {
        match self {
            TargetPlace::Locals(locals) => TargetPlace::Locals(locals_behind(locals, skip)),
            TargetPlace::Memory(address) => TargetPlace::Memory(address),
        }
    }
}
