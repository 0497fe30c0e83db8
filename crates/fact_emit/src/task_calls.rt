//! The two calls by which an async adapter hands its call to the runtime: a prepare-call tells of it, and a start-call starts the callee.

ghost use Rattle.std.specs.Prelude.{◌≡◌, ◌++◌, IfOk, OnErr, OnOk, Some, slice_get};
ghost use Rattle.fact_emit.specs.Imports.{AreOnce, Extended};
ghost use Rattle.fact_emit.specs.State.{IsPrepareItem, IsStartItem};
ghost use Rattle.fact_emit.specs.States.{HasType, OnlyTypesAdded};
ghost use Rattle.fact_emit.specs.TaskCalls.{IsFunctionThere, IsMemoryThere, IsPrepareCallImported, IsStartCallImported};
ghost use Rattle.fact_emit.specs.TaskTypes.{prepare_call_type, prepare_fixed_types};

use crate::imported::{ImportedItem, PrepareCallItem, StartCallItem};
use crate::sections::ModuleSections;
use fact_entity::{FuncIndex, MemoryIndex};
use fact_types::CoreDef;
use fact_wasm::{ImportType, OutOfMemory, Seq, ValType};
use std::alloc::{AllocError, Global};

/// The types of what each prepare-call is told before the adapter's own core parameters: the functions that move parameters and results,
/// the instances of the lower and of the lift side, the number of the tuple of the callee's results, whether its function type is marked as
/// async, the encoding of the lift side, and a number for the results.
pub const PREPARE_CALL_FIXED_PARAMS: &[ValType] = &[
    ValType::FuncRef,
    ValType::FuncRef,
    ValType::I32,
    ValType::I32,
    ValType::I32,
    ValType::I32,
    ValType::I32,
    ValType::I32,
];

/// What a start-call is told of the side that lifts: the places of its callback and of its post-return among the imported functions.
#[derive(Clone, Copy)]
pub struct StartCall {
    pub callback: Option<FuncIndex>,
    pub post_return: Option<FuncIndex>,
}

/// Puts types behind others.
fn push_types(types: &mut Seq<ValType>, more: &[ValType]) -> Result<(), OutOfMemory>
    ensures { OnOk result (types.new ≡ types.old ++ more.now) }
{
    for ty in more {
        types.push(*ty)?;
    }
    Ok(())
}

/// The types of the parameters of a prepare-call, where these are the adapter's own.
fn prepare_params(alloc: Global, params: &[ValType]) -> Result<Seq<ValType>, OutOfMemory>
    ensures { IfOk result (λ types. types ≡ prepare_fixed_types ++ params.now) }
{
    let mut types = Seq::new(alloc);
    push_types(&mut types, PREPARE_CALL_FIXED_PARAMS)?;
    push_types(&mut types, params)?;
    Ok(types)
}

/// A copy of types.
fn copied_types(alloc: Global, types: &[ValType]) -> Result<Seq<ValType>, OutOfMemory>
    ensures { IfOk result (λ copy. copy ≡ types.now) }
{
    let mut copy = Seq::new(alloc);
    push_types(&mut copy, types)?;
    Ok(copy)
}

impl ModuleSections {
    /// A copy of the definition of the core function of a place among the imported functions, where there is a place, which is there.
    fn copied_function(&self, place: Option<FuncIndex>) -> Result<Option<CoreDef>, OutOfMemory>
        ensures { IfOk result (λ def. IsFunctionThere self.now place def) }
    {
        let Some(place) = place else {
            return Ok(None);
        };
        match self.function_def(place) {
            Some(def) => Ok(Some(def.try_clone()?)),
            None => Err(AllocError),
        }
    }

    /// A copy of the definition of the memory of a place among the imported memories, where there is a place, which is there.
    fn copied_memory(&self, place: Option<MemoryIndex>) -> Result<Option<CoreDef>, OutOfMemory>
        ensures { IfOk result (λ def. IsMemoryThere self.now place def) }
    {
        let Some(place) = place else {
            return Ok(None);
        };
        if !self.has_memory(place.number) {
            return Err(AllocError);
        }
        Ok(Some(self.memory_def(place).try_clone()?))
    }

    /// What a start-call is imported as.
    fn start_call_item(
        &self,
        call: StartCall,
        results: &[ValType],
    ) -> Result<ImportedItem, OutOfMemory>
        ensures { IfOk result (λ item. IsStartItem self.now call results.now item) }
    {
        Ok(ImportedItem::StartCall(StartCallItem {
            callback: self.copied_function(call.callback)?,
            post_return: self.copied_function(call.post_return)?,
            results: copied_types(self.alloc(), results)?,
        }))
    }

    /// What a prepare-call is imported as.
    fn prepare_call_item(
        &self,
        memory: Option<MemoryIndex>,
        params: &[ValType],
    ) -> Result<ImportedItem, OutOfMemory>
        ensures { IfOk result (λ item. IsPrepareItem self.now memory params.now item) }
    {
        Ok(ImportedItem::PrepareCall(PrepareCallItem {
            memory: self.copied_memory(memory)?,
            params: copied_types(self.alloc(), params)?,
            place: self.next_function(),
        }))
    }

    /// The number of the type of a prepare-call of an adapter of these core parameters, which comes last where it is new.
    fn prepare_type(&mut self, params: &[ValType]) -> Result<u32, OutOfMemory>
        ensures place { IfOk result (λ n. slice_get self.new.types n ≡ Some (prepare_call_type params.now)) }
        ensures types { OnOk result (HasType self.old self.new (prepare_call_type params.now)) }
        ensures keeps { Extended self.old self.new }
        ensures once { AreOnce self.old → AreOnce self.new }
        ensures refused { OnErr result (self.new ≡ self.old) }
    {
        let all = prepare_params(self.alloc(), params)?;
        let ty = self.function(all.as_slice(), &[]);
        drop(all);
        ty
    }

    /// The place of a start-call among the imported functions: that of the callback, of the post-return and of these results. A new one is
    /// imported last, under the name of an adapter.
    pub fn start_call(
        &mut self,
        adapter: &str,
        call: StartCall,
        results: &[ValType],
    ) -> Result<u32, OutOfMemory>
        ensures imported { IfOk result (λ place. IsStartCallImported self.old self.new adapter.now call results.now place) }
        ensures keeps { Extended self.old self.new }
        ensures once { AreOnce self.old → AreOnce self.new }
        ensures refused { OnErr result (OnlyTypesAdded self.old self.new) }
    {
        let name = format!(in self.alloc(); "[start-call]{adapter}")?;
        let ty = self.function(
            &[ValType::FuncRef, ValType::I32, ValType::I32, ValType::I32],
            results,
        )?;
        let item = self.start_call_item(call, results)?;
        let place = self.import(item, "async", &name, ImportType::Func(ty))?;
        Ok(place)
    }

    /// The place of a new prepare-call among the imported functions, which is imported last, under the name of an adapter of these core
    /// parameters.
    pub fn prepare_call(
        &mut self,
        adapter: &str,
        memory: Option<MemoryIndex>,
        params: &[ValType],
    ) -> Result<u32, OutOfMemory>
        ensures imported { IfOk result (λ place. IsPrepareCallImported self.old self.new adapter.now memory params.now place) }
        ensures keeps { Extended self.old self.new }
        ensures once { AreOnce self.old → AreOnce self.new }
        ensures refused { OnErr result (OnlyTypesAdded self.old self.new) }
    {
        let name = format!(in self.alloc(); "[prepare-call]{adapter}")?;
        let ty = self.prepare_type(params)?;
        let item = self.prepare_call_item(memory, params)?;
        let place = self.import(item, "sync", &name, ImportType::Func(ty))?;
        Ok(place)
    }
}
