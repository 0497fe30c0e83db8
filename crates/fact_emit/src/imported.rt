//! What the imports of a module are found by, each once: core definitions, functions of the runtime, transcoders, and calls of tasks.

ghost use Rattle.std.specs.Prelude.{◌≡◌, IfOk};
ghost use Rattle.fact_types.specs.declared.import.Import.TheVariants as known;
ghost use Rattle.fact_emit.specs.Runtime.{import_of};
ghost use Rattle.fact_emit.specs.States.{known_as};

use fact_types::{CoreDef, Import, Transcode, Trap, UnsafeIntrinsic};
use fact_wasm::{OutOfMemory, Seq, ValType};

/// A function of the runtime that adapter code calls, and that a module imports once: a trap, the transfer of a handle from a table
/// of one component instance to one of another, a call that is told of, or a slot of the task's context (canonical ABI).
#[derive(Clone, Copy, PartialEq, Eq, Hash)]
pub enum RuntimeFunction {
    Trap(Trap),
    ResourceTransferOwn,
    ResourceTransferBorrow,
    FutureTransfer,
    StreamTransfer,
    ErrorContextTransfer,
    EnterSyncCall,
    ExitSyncCall,
    UnsafeIntrinsic(UnsafeIntrinsic),
}

impl RuntimeFunction {
    /// The import that the function of the runtime is.
    pub fn import(self) -> Import
        ensures { result ≡ import_of self }
    {
        match self {
            RuntimeFunction::Trap(trap) => Import::Trap(trap),
            RuntimeFunction::ResourceTransferOwn => Import::ResourceTransferOwn,
            RuntimeFunction::ResourceTransferBorrow => Import::ResourceTransferBorrow,
            RuntimeFunction::FutureTransfer => Import::FutureTransfer,
            RuntimeFunction::StreamTransfer => Import::StreamTransfer,
            RuntimeFunction::ErrorContextTransfer => Import::ErrorContextTransfer,
            RuntimeFunction::EnterSyncCall => Import::EnterSyncCall,
            RuntimeFunction::ExitSyncCall => Import::ExitSyncCall,
            RuntimeFunction::UnsafeIntrinsic(slot) => Import::UnsafeIntrinsic(slot),
        }
    }
}

/// A transcoder, which writes text of one memory into another: its operation, and the definitions of the two memories, each with
/// or without 64-bit addresses.
#[derive(Drop, PartialEq, Eq, Hash)]
pub struct TranscoderItem {
    pub op: Transcode,
    pub from: CoreDef,
    pub from64: bool,
    pub to: CoreDef,
    pub to64: bool,
}

/// A start-call, by which the runtime is told to start the callee of an async adapter: the callback and the post-return of the side that
/// lifts, and what the call gives.
#[derive(Drop, PartialEq, Eq, Hash)]
pub struct StartCallItem {
    pub callback: Option<CoreDef>,
    pub post_return: Option<CoreDef>,
    pub results: Seq<ValType>,
}

/// A prepare-call, by which the runtime is told of a call of an async adapter: the memory of the side that lifts, the core parameters
/// of the adapter, and its own place among the imported functions, since each adapter has one of its own.
#[derive(Drop, PartialEq, Eq, Hash)]
pub struct PrepareCallItem {
    pub memory: Option<CoreDef>,
    pub params: Seq<ValType>,
    pub place: u32,
}

/// What an import is that is made once: a start-call once for each callback, post-return and results, a prepare-call once for each async
/// adapter.
#[derive(Drop, PartialEq, Eq, Hash)]
pub enum ImportedItem {
    Def(CoreDef),
    Runtime(RuntimeFunction),
    Transcoder(TranscoderItem),
    StartCall(StartCallItem),
    PrepareCall(PrepareCallItem),
}

impl TranscoderItem {
    /// The import that the transcoder is.
    fn import(&self) -> Result<Import, OutOfMemory>
        ensures { IfOk result (λ i. i ≡ known.Transcode self.now.op self.now.from self.now.from64 self.now.to self.now.to64) }
    {
        Ok(Import::Transcode {
            op: self.op,
            from: self.from.try_clone()?,
            from64: self.from64,
            to: self.to.try_clone()?,
            to64: self.to64,
        })
    }
}

impl StartCallItem {
    /// The import that the start-call is.
    fn import(&self) -> Result<Import, OutOfMemory>
        ensures { IfOk result (λ i. i ≡ known.StartCall self.now.callback self.now.post_return) }
    {
        Ok(Import::StartCall {
            callback: CoreDef::try_clone_option(&self.callback)?,
            post_return: CoreDef::try_clone_option(&self.post_return)?,
        })
    }
}

impl PrepareCallItem {
    /// The import that the prepare-call is.
    fn import(&self) -> Result<Import, OutOfMemory>
        ensures { IfOk result (λ i. i ≡ known.PrepareCall self.now.memory) }
    {
        Ok(Import::PrepareCall {
            memory: CoreDef::try_clone_option(&self.memory)?,
        })
    }
}

impl ImportedItem {
    /// The import that the item is.
    pub fn import(&self) -> Result<Import, OutOfMemory>
        ensures { IfOk result (λ i. i ≡ known_as self.now) }
    {
        match self {
            ImportedItem::Def(def) => Ok(Import::CoreDef(def.try_clone()?)),
            ImportedItem::Runtime(function) => Ok(function.import()),
            ImportedItem::Transcoder(transcoder) => transcoder.import(),
            ImportedItem::StartCall(call) => call.import(),
            ImportedItem::PrepareCall(call) => call.import(),
        }
    }
}
