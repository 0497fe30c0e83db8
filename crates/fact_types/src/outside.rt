//! What adapters use of the outside: core items, encodings of texts, and functions of the runtime.

ghost use Rattle.std.specs.Prelude.{◌≡◌, IfOk};

use crate::OutOfMemory;
use fact_entity::{RuntimeComponentInstanceIndex, RuntimeInstanceIndex, TrampolineIndex};
use fact_wasm::Text;

/// How a side holds its texts (canonical ABI, "Canonical ABI options", `string-encoding`).
#[derive(Clone, Copy, PartialEq, Eq, Hash)]
pub enum StringEncoding {
    Utf8,
    Utf16,
    CompactUtf16,
}

/// The encoding of the bytes of a text. A text in the compact form of UTF-16 is either Latin-1 or UTF-16.
#[derive(Clone, Copy, Debug, PartialEq, Eq, Hash)]
pub enum FixedEncoding {
    Utf8,
    Utf16,
    Latin1,
}

/// A core item that the outside gives to an adapter module.
#[derive(Debug, Drop, PartialEq, Eq, Hash)]
pub enum CoreDef {
    /// An export of a core module's instance.
    Export {
        instance: RuntimeInstanceIndex,
        name: Text,
    },
    /// The flags of a component's instance, an i32 global whose value 0 says that the instance may not be left.
    InstanceFlags(RuntimeComponentInstanceIndex),
    /// A function of the runtime.
    Trampoline(TrampolineIndex),
}

impl CoreDef {
    /// An equal core item.
    pub fn try_clone(&self) -> Result<CoreDef, OutOfMemory>
        ensures { IfOk result (λ copy. copy ≡ self.now) }
    {
        Ok(match self {
            CoreDef::Export { instance, name } => CoreDef::Export {
                instance: *instance,
                name: name.try_clone()?,
            },
            CoreDef::InstanceFlags(instance) => CoreDef::InstanceFlags(*instance),
            CoreDef::Trampoline(number) => CoreDef::Trampoline(*number),
        })
    }

    /// An equal core item, where there is one.
    pub fn try_clone_option(def: &Option<CoreDef>) -> Result<Option<CoreDef>, OutOfMemory>
        ensures { IfOk result (λ copy. copy ≡ def.now) }
    {
        match def {
            Some(def) => Ok(Some(def.try_clone()?)),
            None => Ok(None),
        }
    }
}

/// A memory of a side: its core definition, whether its addresses have 64 bits, whether it is shared, and the exponent of
/// its page size in bytes.
#[derive(Drop)]
pub struct MemoryOption {
    pub def: CoreDef,
    pub memory64: bool,
    pub shared: bool,
    pub page_size_log2: u8,
}

/// A function of the runtime that writes text of one memory into another.
#[derive(Clone, Copy, Debug, PartialEq, Eq, Hash)]
pub enum Transcode {
    /// The code units as they are.
    Copy(FixedEncoding),
    /// Each Latin-1 byte becomes one UTF-16 unit.
    Latin1ToUtf16,
    /// As many Latin-1 bytes as have room become UTF-8.
    Latin1ToUtf8,
    /// UTF-16 becomes Latin-1 where all of it can, and is copied where not.
    Utf16ToCompactProbablyUtf16,
    /// Latin-1 bytes that were written become UTF-16, and the rest of a UTF-16 text follows.
    Utf16ToCompactUtf16,
    /// As much of a UTF-16 text as can becomes Latin-1.
    Utf16ToLatin1,
    /// As much of a UTF-16 text as has room becomes UTF-8.
    Utf16ToUtf8,
    /// Latin-1 bytes that were written become UTF-16, and the rest of a UTF-8 text follows.
    Utf8ToCompactUtf16,
    /// As much of a UTF-8 text as can becomes Latin-1.
    Utf8ToLatin1,
    /// A UTF-8 text becomes UTF-16.
    Utf8ToUtf16,
}

/// Why an adapter traps by a call of the runtime. The numbers are those of the import names `trap0` to `trap12`, in this
/// order.
#[derive(Clone, Copy, Debug, PartialEq, Eq, Hash)]
pub enum Trap {
    CannotLeaveComponent,
    CannotEnterComponent,
    MemoryOutOfBounds,
    StringOutOfBounds,
    ListOutOfBounds,
    UnalignedPointer,
    InvalidChar,
    InvalidDiscriminant,
    UncaughtException,
    DebugAssertPointerAligned,
    DebugAssertUpperBitsUnset,
    DebugAssertStringEncodingFinished,
    DebugAssertEqualCodeUnits,
}

/// A function of the runtime that reads or writes a slot of the running task's context (canonical ABI, `context.get`,
/// `context.set`).
#[derive(Clone, Copy, Debug, PartialEq, Eq, Hash)]
pub enum UnsafeIntrinsic {
    ContextGetI32_0,
    ContextGetI32_1,
    ContextSetI32_0,
    ContextSetI32_1,
}
