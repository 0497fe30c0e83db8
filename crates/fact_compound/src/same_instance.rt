//! Adapters within one instance, which may not be entered from itself: each call is a trap.

ghost use Rattle.std.specs.Prelude.{◌≡◌, ◌<◌, [], IfOk, OnOk, length};
ghost use Rattle.fact_code_laws.specs.Code.{trap_code};
ghost use Rattle.fact_compound.specs.SameInstance.{CompiledSameInstance, TrapFunction};

use crate::adapters::AdapterData;
use fact_builder::ComponentTypesBuilder;
use fact_emit::ModuleSections;
use fact_types::Trap;
use fact_wasm::{FuncName, Instr, OutOfMemory, Seq, WasmFunc};
use std::alloc::Global;

/// The code of a trap of this place.
fn trap_body(alloc: Global, place: u32) -> Result<Seq<Instr>, OutOfMemory>
    ensures { IfOk result (λ body. body ≡ trap_code place) }
{
    let mut body = Vec::new(alloc);
    body.push(Instr::Call(FuncName::Import(place)))?;
    body.push(Instr::Unreachable)?;
    Ok(Seq::from_vec(body))
}

/// A function of the type of a number that only traps.
fn trap_function(sections: &mut ModuleSections, ty: u32) -> Result<WasmFunc, OutOfMemory>
    ensures { IfOk result (λ f. TrapFunction ty sections.old sections.new f) }
{
    let place = sections.trap(Trap::CannotEnterComponent)?;
    let body = trap_body(sections.alloc(), place)?;
    let locals = Seq::new(sections.alloc());
    Ok(WasmFunc { ty, locals, body })
}

/// Compiles an adapter within one instance: its function comes behind those of the module, its export under the adapter's name behind
/// the exports, and its trap behind the imports, where it is new. The lower side's type is live. After a want of memory the module
/// may have a type and a trap that nothing uses, and the function without its export.
pub fn compile_same_instance(
    types: &ComponentTypesBuilder,
    sections: &mut ModuleSections,
    adapter: &AdapterData,
) -> Result<(), OutOfMemory>
    requires lower_live { adapter.now.lower.ty.number < length types.now.tables.functions }
    ensures { OnOk result (CompiledSameInstance types.now.tables adapter.now sections.old sections.new) }
{
    let lower = types.lower_signature(&adapter.lower.side_sig())?;
    let ty = sections.function(lower.params.as_slice(), lower.results.as_slice())?;
    let function = trap_function(sections, ty)?;
    let number = sections.define(function)?;
    sections.export(adapter.name.as_str(), FuncName::Defined(number))?;
    Ok(())
}
