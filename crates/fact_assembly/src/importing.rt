//! What an adapter names is imported: from a candidate to the data that its code is written by, [`import_adapter`].

ghost use Rattle.std.specs.Prelude.{◌≡◌, ◌<◌, ℕ, IfOk, IfSome, OnOk, Some, length};
ghost use Rattle.fact_entity.specs.declared.id.Id as id;
ghost use Rattle.fact_types.specs.Adapters.{LinkedAdapter, Side, is_wide};
ghost use Rattle.fact_emit.specs.AdapterImports.{IsAdapterImported, IsImportedIfAny, IsMemoryImportedIfAny, IsSideImported};
ghost use Rattle.fact_emit.specs.ImportSection.{Callback, PostReturn, Realloc};
ghost use Rattle.fact_emit.specs.Imports.{Extended};
ghost use Rattle.fact_emit.specs.Options.{number_if_any};
ghost use Rattle.fact_emit.specs.Requests.{IsReallocImported};
ghost use Rattle.fact_emit.specs.States.{functions_of, memories_of};
ghost use Rattle.fact_emit.specs.StringPieces.{IsMemoryImported};
ghost use Rattle.fact_adapter_rules.specs.Linked.{IsLinked};
ghost use Rattle.fact_compound.specs.Described.{AreOptionsImported, linear_of};
ghost use Rattle.fact_assembly.specs.ImportedData.{CanBeImported, IsDataOfCandidate, IsDataOfSide, NamesOf, imports_of_data, page_size_log2_of, side_imports_of};

use fact_adapter_rules::{AdapterOptionsDfg, Candidate};
use fact_builder::ComponentTypesBuilder;
use fact_compound::{AdapterData, AdapterOptions, LinearMemoryOptions, Options};
use fact_emit::ModuleSections;
use fact_entity::{EntityRef, FuncIndex, GlobalIndex, MemoryIndex, TypeFuncIndex};
use fact_types::{CoreDef, MemoryOption};
use fact_wasm::{OutOfMemory, Text, ValType};

/// The exponent of the usual page size, in bytes.
const PAGE_SIZE_LOG2: u8 = 16;

/// Whether the addresses of a side's memory have 64 bits, and the exponent of its page size in bytes.
fn memory_type(memory: &Option<MemoryOption>) -> (bool, u8)
    ensures memory64 { result.0 ≡ is_wide memory.now }
    ensures page_size_log2 { result.1 ≡ page_size_log2_of memory.now }
{
    match memory {
        Some(memory) => (memory.memory64, memory.page_size_log2),
        None => (false, PAGE_SIZE_LOG2),
    }
}

/// The place of a side's memory among the imported memories.
fn import_memory(
    sections: &mut ModuleSections,
    memory: &Option<MemoryOption>,
) -> Result<Option<MemoryIndex>, OutOfMemory>
    ensures imported { IfOk result (λ place. IsMemoryImportedIfAny sections.old sections.new memory.now (number_if_any place)) }
    ensures below { IfOk result (λ place. (n : ℕ) → number_if_any place ≡ Some n → n < length (memories_of sections.new)) }
    ensures keeps { Extended sections.old sections.new }
{
    let Some(memory) = memory else {
        return Ok(None);
    };
    let place = sections.memory(&memory.def, memory.memory64, memory.page_size_log2)?;
    Ok(Some(MemoryIndex::from_u32(place)))
}

/// The place of a side's realloc among the imported functions.
fn import_realloc(
    sections: &mut ModuleSections,
    memory64: bool,
    realloc: &Option<CoreDef>,
) -> Result<Option<FuncIndex>, OutOfMemory>
    ensures imported { IfOk result (λ place. IsImportedIfAny sections.old sections.new (Realloc memory64) realloc.now (number_if_any place)) }
    ensures below { IfOk result (λ place. (n : ℕ) → number_if_any place ≡ Some n → n < length (functions_of sections.new)) }
    ensures keeps { Extended sections.old sections.new }
{
    let Some(realloc) = realloc else {
        return Ok(None);
    };
    let place = sections.realloc(realloc, memory64)?;
    Ok(Some(FuncIndex::from_u32(place)))
}

/// The place of a side's callback among the imported functions.
fn import_callback(
    sections: &mut ModuleSections,
    callback: &Option<CoreDef>,
) -> Result<Option<FuncIndex>, OutOfMemory>
    ensures imported { IfOk result (λ place. IsImportedIfAny sections.old sections.new Callback callback.now (number_if_any place)) }
    ensures keeps { Extended sections.old sections.new }
{
    let Some(callback) = callback else {
        return Ok(None);
    };
    let place = sections.callback(callback)?;
    Ok(Some(FuncIndex::from_u32(place)))
}

/// The place of the post-return of an adapter of this name, whose callee has these results, among the imported functions.
fn import_post_return(
    sections: &mut ModuleSections,
    name: &str,
    results: &[ValType],
    post_return: &Option<CoreDef>,
) -> Result<Option<FuncIndex>, OutOfMemory>
    ensures imported { IfOk result (λ place. IsImportedIfAny sections.old sections.new (PostReturn name.now results.now) post_return.now (number_if_any place)) }
    ensures below { IfOk result (λ place. IfSome place (λ (f : id.Id _). f.number < length (functions_of sections.new))) }
    ensures keeps { Extended sections.old sections.new }
{
    let Some(post_return) = post_return else {
        return Ok(None);
    };
    let place = sections.post_return(name, post_return, results)?;
    Ok(Some(FuncIndex::from_u32(place)))
}

/// The side of an adapter with this function type, with what it names imported.
fn import_side(
    sections: &mut ModuleSections,
    ty: TypeFuncIndex,
    options: &AdapterOptionsDfg,
) -> Result<AdapterOptions, OutOfMemory>
    ensures imported { IfOk result (λ o. (s : Side) → NamesOf options.now s → IsSideImported sections.old sections.new s (side_imports_of o)) }
    ensures described { IfOk result (λ o. IsDataOfSide ty options.now o) }
    ensures realloc { IfOk result (λ o. IsReallocImported (linear_of o) sections.new) }
    ensures memory { IfOk result (λ o. IsMemoryImported (linear_of o) sections.new) }
    ensures keeps { Extended sections.old sections.new }
{
    let (memory64, page_size_log2) = memory_type(&options.memory);
    let flags = sections.flags(options.instance)?;
    let memory = import_memory(sections, &options.memory)?;
    let realloc = import_realloc(sections, memory64, &options.realloc)?;
    let callback = import_callback(sections, &options.callback)?;
    let linear = LinearMemoryOptions {
        memory,
        memory64,
        page_size_log2,
        realloc,
    };
    Ok(AdapterOptions {
        instance: options.instance,
        ty,
        flags: GlobalIndex::from_u32(flags),
        post_return: None,
        options: Options {
            string_encoding: options.string_encoding,
            linear,
            callback,
            async_: options.async_,
            core_type: options.core_type,
        },
    })
}

/// An adapter with all that it names imported, in the order in which it names them.
pub fn import_adapter(
    sections: &mut ModuleSections,
    builder: &ComponentTypesBuilder,
    candidate: &Candidate<'_>,
) -> Result<AdapterData, OutOfMemory>
    requires typed { candidate.now.adapter.now.lift_options.core_type.number < length builder.now.module_types }
    requires importable { CanBeImported builder.now candidate.now sections.old }
    ensures imported { IfOk result (λ d. (a : LinkedAdapter) → IsLinked builder.now candidate.now a → IsAdapterImported sections.old sections.new a (imports_of_data d)) }
    ensures callee { IfOk result (λ d. d.callee.number < length (functions_of sections.new)) }
    ensures options { IfOk result (λ d. AreOptionsImported d sections.new) }
    ensures post_return { IfOk result (λ d. IfSome d.lift.post_return (λ (f : id.Id _). f.number < length (functions_of sections.new))) }
    ensures described { IfOk result (λ d. IsDataOfCandidate candidate.now d) }
    ensures keeps { OnOk result (Extended sections.old sections.new) }
{
    let adapter = candidate.adapter;
    let core_type = &builder[adapter.lift_options.core_type];
    let mut lift = import_side(sections, adapter.lift_ty, &adapter.lift_options)?;
    let lower = import_side(sections, adapter.lower_ty, &adapter.lower_options)?;
    let callee = sections.callee(candidate.name, &adapter.func, core_type)?;
    lift.post_return = import_post_return(
        sections,
        candidate.name,
        core_type.results.as_slice(),
        &adapter.lift_options.post_return,
    )?;
    let name = Text::from_str(sections.alloc(), candidate.name)?;
    Ok(AdapterData {
        name,
        lift,
        lower,
        callee: FuncIndex::from_u32(callee),
        transparent: candidate.transparent,
    })
}
