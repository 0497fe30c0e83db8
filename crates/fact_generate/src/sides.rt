//! The adapters and their sides.

ghost use Rattle.std.specs.Prelude.{◌≡◌, ◌<◌, IfOk};
ghost use Rattle.fact_generate.specs.Forms.{adapter_form, needs_memory};
ghost use Rattle.fact_generate.specs.Generated.{adapter_for, encoding_for, export_of, instance_of, memory_at, memory_for, most_generated, adapter_name, realloc_for, side_for};

use crate::form::{AdapterForm, adapter_form};
use fact_entity::EntityRef;
use fact_plan::{PlanAdapter, PlanMemory, PlanSide};
use fact_types::{CoreDef, OutOfMemory, RuntimeInstanceIndex, StringEncoding};
use fact_wasm::Text;
use std::alloc::Global;

/// The exponent of the size of a memory's pages, in bytes.
const PAGE_SIZE_LOG2: u8 = 16;

/// Whether the sides of a form have a memory.
fn needs_memory(form: AdapterForm) -> bool
    ensures { result ≡ needs_memory form }
{
    match form {
        AdapterForm::Number => false,
        _ => true,
    }
}

/// The instance of a side.
fn instance_of(lifts: bool) -> u32
    ensures { result ≡ instance_of lifts }
{
    if lifts { 1 } else { 0 }
}

/// The core definition of the memory of a side. That of its realloc comes next.
fn memory_at(lifts: bool) -> u32
    ensures { result ≡ memory_at lifts }
{
    2 * instance_of(lifts)
}

fn encoding_for(lifts: bool) -> StringEncoding
    ensures { result ≡ encoding_for lifts }
{
    if lifts {
        StringEncoding::CompactUtf16
    } else {
        StringEncoding::Utf8
    }
}

fn memory_for(lifts: bool, form: AdapterForm) -> Option<PlanMemory>
    ensures { result ≡ memory_for lifts form }
{
    if needs_memory(form) {
        Some(PlanMemory {
            def: memory_at(lifts),
            memory64: lifts,
            shared: false,
            page_size_log2: PAGE_SIZE_LOG2,
        })
    } else {
        None
    }
}

fn realloc_for(lifts: bool, form: AdapterForm) -> Option<u32>
    ensures { result ≡ realloc_for lifts form }
{
    if needs_memory(form) {
        Some(memory_at(lifts) + 1)
    } else {
        None
    }
}

/// A side of the adapter of a number.
fn side_for(lifts: bool, k: u32) -> PlanSide
    requires { k < most_generated }
    ensures { result ≡ side_for lifts k }
{
    let form = adapter_form(k);
    let place = 2 * k + instance_of(lifts);
    PlanSide {
        ty: place,
        instance: instance_of(lifts),
        core_type: place,
        encoding: encoding_for(lifts),
        async_: false,
        memory: memory_for(lifts, form),
        realloc: realloc_for(lifts, form),
        callback: None,
        post_return: None,
    }
}

/// An export of an instance.
pub(crate) fn export_of(alloc: Global, instance: u32, name: &str) -> Result<CoreDef, OutOfMemory>
    ensures { IfOk result (λ def. def ≡ export_of instance name.now) }
{
    Ok(CoreDef::Export {
        instance: RuntimeInstanceIndex::from_u32(instance),
        name: Text::from_str(alloc, name)?,
    })
}

/// The name of the adapter of a number, which is also that of its callee.
pub(crate) fn adapter_name(alloc: Global, k: u32) -> Result<Text, OutOfMemory>
    ensures { IfOk result (λ name. name ≡ adapter_name k) }
{
    Ok(Text::from_string(format!(in alloc; "f{k}")?))
}

/// The adapter of a number.
pub(crate) fn adapter_for(alloc: Global, k: u32) -> Result<PlanAdapter, OutOfMemory>
    requires { k < most_generated }
    ensures { IfOk result (λ adapter. adapter ≡ adapter_for k) }
{
    Ok(PlanAdapter {
        name: adapter_name(alloc, k)?,
        func: 4 + k,
        transparent: false,
        lift: side_for(true, k),
        lower: side_for(false, k),
    })
}
