//! Adapters that a module took, and copies of adapters.

ghost use Rattle.std.specs.Prelude.{◌≡◌, IfOk};
ghost use Rattle.fact_assembly.specs.Collected.{taken_of};

use fact_adapter_rules::{Adapter, AdapterOptionsDfg, Candidate, MemoryOption};
use fact_types::CoreDef;
use fact_wasm::{OutOfMemory, Text};
use std::alloc::{AllocError, Global};

/// An adapter that a module took, under its name.
#[derive(Drop)]
pub struct TakenAdapter {
    pub name: Text,
    pub transparent: bool,
    pub adapter: Adapter,
}

fn copy_memory(memory: &Option<MemoryOption>) -> Result<Option<MemoryOption>, OutOfMemory>
    ensures { IfOk result (λ copy. copy ≡ memory.now) }
{
    match memory {
        Some(memory) => Ok(Some(MemoryOption {
            def: memory.def.try_clone()?,
            memory64: memory.memory64,
            shared: memory.shared,
            page_size_log2: memory.page_size_log2,
        })),
        None => Ok(None),
    }
}

fn copy_options(options: &AdapterOptionsDfg) -> Result<AdapterOptionsDfg, OutOfMemory>
    ensures { IfOk result (λ copy. copy ≡ options.now) }
{
    // What is owned ends by a call: the end of its scope would have a long proof.
    let memory = copy_memory(&options.memory)?;
    let Ok(realloc) = CoreDef::try_clone_option(&options.realloc) else {
        drop(memory);
        return Err(AllocError);
    };
    let Ok(callback) = CoreDef::try_clone_option(&options.callback) else {
        drop(memory);
        drop(realloc);
        return Err(AllocError);
    };
    let Ok(post_return) = CoreDef::try_clone_option(&options.post_return) else {
        drop(memory);
        drop(realloc);
        drop(callback);
        return Err(AllocError);
    };
    Ok(AdapterOptionsDfg {
        instance: options.instance,
        string_encoding: options.string_encoding,
        memory,
        realloc,
        callback,
        post_return,
        async_: options.async_,
        core_type: options.core_type,
    })
}

fn copy_adapter(adapter: &Adapter) -> Result<Adapter, OutOfMemory>
    ensures { IfOk result (λ copy. copy ≡ adapter.now) }
{
    let func = adapter.func.try_clone()?;
    let Ok(lift_options) = copy_options(&adapter.lift_options) else {
        drop(func);
        return Err(AllocError);
    };
    let Ok(lower_options) = copy_options(&adapter.lower_options) else {
        drop(func);
        drop(lift_options);
        return Err(AllocError);
    };
    Ok(Adapter {
        lift_ty: adapter.lift_ty,
        lift_options,
        lower_ty: adapter.lower_ty,
        lower_options,
        func,
    })
}

/// A copy of an adapter, with its name.
pub fn copy_candidate(alloc: Global, candidate: &Candidate<'_>) -> Result<TakenAdapter, OutOfMemory>
    ensures { IfOk result (λ taken. taken ≡ taken_of candidate.now) }
{
    let adapter = copy_adapter(candidate.adapter)?;
    let Ok(name) = Text::from_str(alloc, candidate.name) else {
        drop(adapter);
        return Err(AllocError);
    };
    Ok(TakenAdapter {
        name,
        transparent: candidate.transparent,
        adapter,
    })
}
