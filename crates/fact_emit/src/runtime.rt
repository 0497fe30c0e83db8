//! The imports of functions of the runtime.

ghost use Rattle.std.specs.Prelude.{◌≡◌, IfOk, OnErr, OnOk, [], Some, slice_get, string_bytes};
ghost use Rattle.fact_types.specs.declared.import.Import.TheVariants as known;
ghost use Rattle.fact_wasm.specs.CoreTypes.{signature};
ghost use Rattle.fact_wasm.specs.declared.module.ImportType.TheVariants as import_type;
ghost use Rattle.fact_emit.specs.declared.imported.RuntimeFunction.TheVariants as function_is;
ghost use Rattle.fact_emit.specs.Imports.{AreOnce, Extended, HasImport};
ghost use Rattle.fact_emit.specs.Runtime.{import_of, name_of_runtime, origin_of_runtime, slot_name as slot_name_of, trap_number as trap_number_of, type_of_runtime};
ghost use Rattle.fact_emit.specs.States.{HasType, IsImported, IsRuntimeImported, IsTrapImported, OnlyTypesAdded, import_as};

use crate::imported::{ImportedItem, RuntimeFunction};
use crate::sections::ModuleSections;
use fact_types::{Trap, UnsafeIntrinsic};
use fact_wasm::{ImportType, OutOfMemory, ValType};
use std::alloc::Global;

/// The number of a trap, by which its import is named.
pub fn trap_number(trap: Trap) -> u32
    ensures { result ≡ trap_number_of trap }
{
    match trap {
        Trap::CannotLeaveComponent => 0,
        Trap::CannotEnterComponent => 1,
        Trap::MemoryOutOfBounds => 2,
        Trap::StringOutOfBounds => 3,
        Trap::ListOutOfBounds => 4,
        Trap::UnalignedPointer => 5,
        Trap::InvalidChar => 6,
        Trap::InvalidDiscriminant => 7,
        Trap::UncaughtException => 8,
        Trap::DebugAssertPointerAligned => 9,
        Trap::DebugAssertUpperBitsUnset => 10,
        Trap::DebugAssertStringEncodingFinished => 11,
        Trap::DebugAssertEqualCodeUnits => 12,
    }
}

/// The name of a function of the context's slots.
pub fn slot_name(slot: UnsafeIntrinsic) -> &'static str
    ensures { result.now ≡ slot_name_of slot }
{
    match slot {
        UnsafeIntrinsic::ContextGetI32_0 => "get0",
        UnsafeIntrinsic::ContextGetI32_1 => "get1",
        UnsafeIntrinsic::ContextSetI32_0 => "set0",
        UnsafeIntrinsic::ContextSetI32_1 => "set1",
    }
}

/// The module name of the import of a function of the runtime.
fn origin(function: RuntimeFunction) -> &'static str
    ensures { result.now ≡ origin_of_runtime function }
{
    match function {
        RuntimeFunction::Trap(_) => "runtime",
        RuntimeFunction::ResourceTransferOwn | RuntimeFunction::ResourceTransferBorrow => {
            "resource"
        }
        RuntimeFunction::FutureTransfer => "future",
        RuntimeFunction::StreamTransfer => "stream",
        RuntimeFunction::ErrorContextTransfer => "error-context",
        RuntimeFunction::EnterSyncCall | RuntimeFunction::ExitSyncCall => "async",
        RuntimeFunction::UnsafeIntrinsic(_) => "context",
    }
}

/// The name of the import of a function of the runtime.
fn name(alloc: Global, function: RuntimeFunction) -> Result<String, OutOfMemory>
    ensures { IfOk result (λ name. string_bytes name ≡ name_of_runtime function) }
{
    match function {
        RuntimeFunction::Trap(trap) => {
            let number = trap_number(trap);
            format!(in alloc; "trap{number}")
        }
        RuntimeFunction::ResourceTransferOwn => String::from_str(alloc, "transfer-own"),
        RuntimeFunction::ResourceTransferBorrow => String::from_str(alloc, "transfer-borrow"),
        RuntimeFunction::FutureTransfer
        | RuntimeFunction::StreamTransfer
        | RuntimeFunction::ErrorContextTransfer => String::from_str(alloc, "transfer"),
        RuntimeFunction::EnterSyncCall => String::from_str(alloc, "enter-sync-call"),
        RuntimeFunction::ExitSyncCall => String::from_str(alloc, "exit-sync-call"),
        RuntimeFunction::UnsafeIntrinsic(slot) => String::from_str(alloc, slot_name(slot)),
    }
}

/// The parameters and the results of a function of the context's slots.
fn slot_types(slot: UnsafeIntrinsic) -> (&'static [ValType], &'static [ValType])
    ensures { signature result.0.now result.1.now ≡ type_of_runtime (function_is.UnsafeIntrinsic slot) }
{
    match slot {
        UnsafeIntrinsic::ContextGetI32_0 | UnsafeIntrinsic::ContextGetI32_1 => {
            (&[], &[ValType::I32])
        }
        UnsafeIntrinsic::ContextSetI32_0 | UnsafeIntrinsic::ContextSetI32_1 => {
            (&[ValType::I32], &[])
        }
    }
}

/// The parameters and the results of a function of the runtime.
fn types_of(function: RuntimeFunction) -> (&'static [ValType], &'static [ValType])
    ensures { signature result.0.now result.1.now ≡ type_of_runtime function }
{
    match function {
        RuntimeFunction::Trap(_) | RuntimeFunction::ExitSyncCall => (&[], &[]),
        RuntimeFunction::EnterSyncCall => (&[ValType::I32, ValType::I32], &[]),
        RuntimeFunction::UnsafeIntrinsic(slot) => slot_types(slot),
        RuntimeFunction::ResourceTransferOwn
        | RuntimeFunction::ResourceTransferBorrow
        | RuntimeFunction::FutureTransfer
        | RuntimeFunction::StreamTransfer
        | RuntimeFunction::ErrorContextTransfer => {
            (&[ValType::I32, ValType::I32, ValType::I32], &[ValType::I32])
        }
    }
}

impl ModuleSections {
    /// The number of the type of a function of the runtime.
    fn runtime_type(&mut self, function: RuntimeFunction) -> Result<u32, OutOfMemory>
        ensures place { IfOk result (λ n. slice_get self.new.types n ≡ Some (type_of_runtime function)) }
        ensures types { OnOk result (HasType self.old self.new (type_of_runtime function)) }
        ensures keeps { Extended self.old self.new }
        ensures once { AreOnce self.old → AreOnce self.new }
        ensures refused { OnErr result (self.new ≡ self.old) }
    {
        let (params, results) = types_of(function);
        self.function(params, results)
    }

    /// The place of a function of the runtime among the imported functions. A new one is imported last, under this name, with the
    /// type of this number, which is its type.
    fn import_runtime(
        &mut self,
        function: RuntimeFunction,
        name: &str,
        ty: u32,
    ) -> Result<u32, OutOfMemory>
        requires { slice_get self.old.types ty ≡ Some (type_of_runtime function) }
        ensures imported { IfOk result (λ place. IsImported self.old self.new (import_as (origin_of_runtime function) name.now (import_type.Func ty)) (import_of function) place) }
        ensures place { IfOk result (λ place. HasImport self.new (import_of function) place (type_of_runtime function).params (type_of_runtime function).results) }
        ensures keeps { Extended self.old self.new }
        ensures once { AreOnce self.old → AreOnce self.new }
        ensures refused { OnErr result (self.new ≡ self.old) }
    {
        let place = self.import(
            ImportedItem::Runtime(function),
            origin(function),
            name,
            ImportType::Func(ty),
        )?;
        Ok(place)
    }

    /// The place of a function of the runtime among the imported functions. A new one is imported last.
    pub fn runtime(&mut self, function: RuntimeFunction) -> Result<u32, OutOfMemory>
        ensures imported { IfOk result (λ place. IsRuntimeImported self.old self.new function place) }
        ensures place { IfOk result (λ place. HasImport self.new (import_of function) place (type_of_runtime function).params (type_of_runtime function).results) }
        ensures keeps { Extended self.old self.new }
        ensures once { AreOnce self.old → AreOnce self.new }
        ensures refused { OnErr result (OnlyTypesAdded self.old self.new) }
    {
        let name = name(self.alloc(), function)?;
        let ty = self.runtime_type(function)?;
        let place = self.import_runtime(function, &name, ty)?;
        Ok(place)
    }

    /// The place of a trap among the imported functions. A new one is imported last.
    pub fn trap(&mut self, trap: Trap) -> Result<u32, OutOfMemory>
        ensures imported { IfOk result (λ place. IsTrapImported self.old self.new trap place) }
        ensures place { IfOk result (λ place. HasImport self.new (known.Trap trap) place [] []) }
        ensures keeps { Extended self.old self.new }
        ensures once { AreOnce self.old → AreOnce self.new }
        ensures refused { OnErr result (OnlyTypesAdded self.old self.new) }
    {
        self.runtime(RuntimeFunction::Trap(trap))
    }
}
