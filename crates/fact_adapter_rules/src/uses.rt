//! What core definitions are used as, and under which instances.

ghost use Rattle.std.specs.Prelude.{◌≡◌, ◌↔◌, ◌++◌, [], true, IfOk, IsTrue, OnOk};
ghost use Rattle.fact_entity.specs.declared.id.Id.{Id};
ghost use Rattle.fact_entity.specs.declared.table.TypeFuncs.{TypeFuncs};
ghost use Rattle.fact_builder.specs.Builder.{Builder};
ghost use Rattle.fact_adapter_rules.specs.Fronts.{IsFront};
ghost use Rattle.fact_types.specs.ImportTypes.{callback_type as callback_type_of, realloc_type as realloc_type_of};
ghost use Rattle.fact_adapter_rules.specs.AdapterRules.{IsCalleeTwice, IsSameAs, bound, callee_uses, def_in, adapter_memories, memory_use as memory_use_of, reallocs_of, side_uses, uses_of};
ghost use Rattle.fact_types.specs.Adapters.{LinkedAdapter, Side};
ghost use Rattle.fact_adapter_rules.specs.AddedBindings.{Binds};
ghost use Rattle.fact_adapter_rules.specs.Linked.{HasSides, IsSideOf, NamesTypesOf};

use crate::Bindings;
use crate::adapter::{Adapter, AdapterOptionsDfg};
use crate::sides::is_wide;
use fact_builder::ComponentTypesBuilder;
use fact_entity::EntityRef;
use fact_types::{CoreDef, MemoryOption};
use fact_wasm::{FuncType, OutOfMemory, ValType};
use std::alloc::Global;

/// What an adapter module imports a core definition as.
#[derive(Drop, PartialEq, Eq)]
pub enum Use {
    /// The flags of an instance.
    FlagGlobal,
    /// A memory, with the width of its addresses and the exponent of its page size in bytes.
    Memory { memory64: bool, page_size_log2: u8 },
    /// A function of a core type.
    Function(FuncType),
}

/// Binds definitions to values, in order. Answers false where one is bound to another value. What was bound before stays
/// in front of what is bound now.
pub(crate) fn bind_all<V: Eq + Drop>(
    bindings: &mut Bindings<V>,
    pairs: Vec<(CoreDef, V)>,
) -> Result<bool, OutOfMemory>
    requires exact { (a b : V) → V.eq a b ≡ true → a ≡ b }
    ensures binds { IfOk result (λ fits. Binds bindings.old bindings.new pairs.items fits) }
    ensures front { IsFront bindings.old bindings.new }
{
    for (def, value) in pairs {
        if !bindings.bind(def, value)? {
            return Ok(false);
        }
    }
    Ok(true)
}

/// Appends a definition, where there is one, with what it is bound to.
fn push_def<V: Drop>(
    pairs: &mut Vec<(CoreDef, V)>,
    def: &Option<CoreDef>,
    value: V,
) -> Result<(), OutOfMemory>
    ensures { OnOk result (pairs.new.items ≡ pairs.old.items ++ bound def.now value) }
{
    if let Some(def) = def {
        pairs.push((def.try_clone()?, value))?;
    }
    Ok(())
}

/// Appends the definition of a memory, where there is one, with what it is bound to.
fn push_memory<V: Drop>(
    pairs: &mut Vec<(CoreDef, V)>,
    memory: &Option<MemoryOption>,
    value: V,
) -> Result<(), OutOfMemory>
    ensures { OnOk result (pairs.new.items ≡ pairs.old.items ++ bound (def_in memory.now) value) }
{
    if let Some(memory) = memory {
        pairs.push((memory.def.try_clone()?, value))?;
    }
    Ok(())
}

/// The memories of an adapter, each with the instance of the side that names it.
pub(crate) fn memories(alloc: Global, adapter: &Adapter) -> Result<Vec<(CoreDef, u32)>, OutOfMemory>
    ensures { IfOk result (λ pairs. (b : Builder) (linked : LinkedAdapter) → HasSides b adapter.now linked → pairs.items ≡ adapter_memories linked) }
{
    let mut pairs = Vec::new(alloc);
    let lift = &adapter.lift_options;
    let lower = &adapter.lower_options;
    push_memory(&mut pairs, &lift.memory, lift.instance.as_u32())?;
    push_memory(&mut pairs, &lower.memory, lower.instance.as_u32())?;
    Ok(pairs)
}

/// The reallocs of an adapter, each with the instance of the side that names it.
pub(crate) fn reallocs(alloc: Global, adapter: &Adapter) -> Result<Vec<(CoreDef, u32)>, OutOfMemory>
    ensures { IfOk result (λ pairs. (b : Builder) (linked : LinkedAdapter) → HasSides b adapter.now linked → pairs.items ≡ reallocs_of linked) }
{
    let mut pairs = Vec::new(alloc);
    let lift = &adapter.lift_options;
    let lower = &adapter.lower_options;
    push_def(&mut pairs, &lift.realloc, lift.instance.as_u32())?;
    push_def(&mut pairs, &lower.realloc, lower.instance.as_u32())?;
    Ok(pairs)
}

/// The type of a realloc over addresses of 64 or of 32 bits.
fn realloc_type(alloc: Global, memory64: bool) -> Result<FuncType, OutOfMemory>
    ensures { IfOk result (λ ty. ty ≡ realloc_type_of memory64) }
{
    let address = if memory64 { ValType::I64 } else { ValType::I32 };
    FuncType::from_slices(alloc, &[address, address, address, address], &[address])
}

/// The type of a callback.
fn callback_type(alloc: Global) -> Result<FuncType, OutOfMemory>
    ensures { IfOk result (λ ty. ty ≡ callback_type_of) }
{
    FuncType::from_slices(
        alloc,
        &[ValType::I32, ValType::I32, ValType::I32],
        &[ValType::I32],
    )
}

/// What the memory of a side is used as.
fn memory_use(memory: &Option<MemoryOption>) -> Use
    ensures { result ≡ memory_use_of memory.now }
{
    match memory {
        Some(memory) => Use::Memory {
            memory64: memory.memory64,
            page_size_log2: memory.page_size_log2,
        },
        None => Use::FlagGlobal,
    }
}

/// Appends the flags of a side's instance, its memory, its realloc and its callback.
fn push_side(
    alloc: Global,
    pairs: &mut Vec<(CoreDef, Use)>,
    options: &AdapterOptionsDfg,
) -> Result<(), OutOfMemory>
    ensures { OnOk result ((b : Builder) (ty : Id TypeFuncs) (s : Side) → IsSideOf b ty options.now s → pairs.new.items ≡ pairs.old.items ++ side_uses s) }
{
    pairs.push((CoreDef::InstanceFlags(options.instance), Use::FlagGlobal))?;
    push_memory(pairs, &options.memory, memory_use(&options.memory))?;
    let realloc = realloc_type(alloc, is_wide(options))?;
    push_def(pairs, &options.realloc, Use::Function(realloc))?;
    let callback = callback_type(alloc)?;
    push_def(pairs, &options.callback, Use::Function(callback))?;
    Ok(())
}

/// Appends the callee of an adapter, of this core type, and its post-return, where it has one.
fn push_callee(
    alloc: Global,
    pairs: &mut Vec<(CoreDef, Use)>,
    ty: &FuncType,
    adapter: &Adapter,
) -> Result<(), OutOfMemory>
    ensures { OnOk result (pairs.new.items ≡ pairs.old.items ++ callee_uses adapter.now.func ty.now adapter.now.lift_options.post_return) }
{
    let callee = ty.try_clone()?;
    pairs.push((adapter.func.try_clone()?, Use::Function(callee)))?;
    let post_return = FuncType::from_slices(alloc, ty.results.as_slice(), &[])?;
    push_def(
        pairs,
        &adapter.lift_options.post_return,
        Use::Function(post_return),
    )
}

/// All definitions that an adapter uses, each with what it is used as.
pub(crate) fn uses(
    alloc: Global,
    builder: &ComponentTypesBuilder,
    adapter: &Adapter,
) -> Result<Vec<(CoreDef, Use)>, OutOfMemory>
    requires { NamesTypesOf builder.now adapter.now }
    ensures { IfOk result (λ pairs. (linked : LinkedAdapter) → HasSides builder.now adapter.now linked → pairs.items ≡ uses_of linked) }
{
    let mut pairs = Vec::new(alloc);
    push_side(alloc, &mut pairs, &adapter.lift_options)?;
    push_side(alloc, &mut pairs, &adapter.lower_options)?;
    let ty = &builder[adapter.lift_options.core_type];
    push_callee(alloc, &mut pairs, ty, adapter)?;
    Ok(pairs)
}

fn is_same_as(def: &CoreDef, other: &Option<CoreDef>) -> bool
    ensures { IsTrue result ↔ IsSameAs def.now other.now }
{
    match other {
        Some(other) => def == other,
        None => false,
    }
}

/// Whether the callee of an adapter is also a realloc or the post-return of it.
pub(crate) fn is_callee_twice(adapter: &Adapter) -> bool
    ensures { (b : Builder) (linked : LinkedAdapter) → HasSides b adapter.now linked → (IsTrue result ↔ IsCalleeTwice linked) }
{
    is_same_as(&adapter.func, &adapter.lift_options.realloc)
        || is_same_as(&adapter.func, &adapter.lower_options.realloc)
        || is_same_as(&adapter.func, &adapter.lift_options.post_return)
}
