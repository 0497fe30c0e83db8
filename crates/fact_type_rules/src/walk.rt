//! The walk over types and the types in them.

ghost use Rattle.std.specs.Prelude.{◌≡◌, ◌↔◌, ◌<◌, List, All, Any, IfOk, OnOk, IsTrue, length, slice_get};
ghost use Rattle.fact_types.specs.declared.interface.InterfaceType.{InterfaceType};
ghost use Rattle.fact_types.specs.Functions.{HaveShapes};
ghost use Rattle.fact_types.specs.Shapes.{Shape};
ghost use Rattle.fact_types.specs.Tables.{IsLive};
ghost use Rattle.fact_type_rules.specs.TypeFaults.{AnyIn};
ghost use Rattle.fact_type_rules.specs.Walk.{PutsBehind, BreaksRules, EndsAt, IsClean, Looks};

use crate::members::members_of;
use crate::rules::Rules;
use fact_builder::ComponentTypesBuilder;
use fact_types::InterfaceType;
use fact_wasm::OutOfMemory;
use indexmap::IndexSet;
use std::alloc::Global;

/// Whether one of some live types, or a type in it, breaks one of the rules. Where none does, they are put among the clean
/// types with all types in them. Each type is looked at once.
pub(crate) fn is_any_faulty(
    builder: &ComponentTypesBuilder,
    rules: Rules,
    clean: &mut IndexSet<InterfaceType>,
    types: &[InterfaceType],
) -> Result<bool, OutOfMemory>
    requires live { All (IsLive builder.now.tables) types.now }
    requires clean { All (IsClean builder.now.tables rules) clean.old.keys }
    ensures clean { All (IsClean builder.now.tables rules) clean.new.keys }
    ensures exact { IfOk result (λ found. (ss : List Shape) → HaveShapes builder.now.tables types.now ss → (IsTrue found ↔ Any (AnyIn (BreaksRules rules)) ss)) }
{
    let mut met = IndexSet::new(*clean.allocator());
    add_unknown(clean, &mut met, types)?;
    if reaches_fault(builder, rules, clean, &mut met)? {
        return Ok(true);
    }
    keep(builder, rules, clean, met.as_slice())?;
    Ok(false)
}

/// Puts those of some types that are not among the clean ones behind the types that were met, each once.
fn add_unknown(
    clean: &IndexSet<InterfaceType>,
    met: &mut IndexSet<InterfaceType>,
    types: &[InterfaceType],
) -> Result<(), OutOfMemory>
    ensures { OnOk result (PutsBehind clean.now.keys met.old.keys met.new.keys types.now) }
{
    for ty in types {
        if !clean.contains(ty) {
            met.insert(*ty)?;
        }
    }
    Ok(())
}

/// Looks at each type that was met, and at the types in it, until one breaks one of the rules.
fn reaches_fault(
    builder: &ComponentTypesBuilder,
    rules: Rules,
    clean: &IndexSet<InterfaceType>,
    met: &mut IndexSet<InterfaceType>,
) -> Result<bool, OutOfMemory>
    requires live { All (IsLive builder.now.tables) met.old.keys }
    requires clean { All (IsClean builder.now.tables rules) clean.now.keys }
    ensures { IfOk result (EndsAt builder.now.tables rules met.old.keys met.new.keys) }
{
    builder.reveal();
    let mut at = 0;
    while at < met.len() {
        if finds_fault(builder, rules, clean, met, at)? {
            return Ok(true);
        }
        at += 1;
    }
    Ok(false)
}

/// Looks at the type at a place: where it breaks none of the rules, the types of its members are put behind the others.
fn finds_fault(
    builder: &ComponentTypesBuilder,
    rules: Rules,
    clean: &IndexSet<InterfaceType>,
    met: &mut IndexSet<InterfaceType>,
    at: usize,
) -> Result<bool, OutOfMemory>
    requires within { at < length met.old.keys }
    requires live { All (IsLive builder.now.tables) met.old.keys }
    ensures { IfOk result (λ found. (ty : InterfaceType) → slice_get met.old.keys at ≡ Some ty → Looks builder.now.tables rules clean.now.keys met.old.keys met.new.keys ty found) }
{
    let ty = met.as_slice()[at];
    if rules.are_broken_by(*clean.allocator(), builder, &ty)? {
        return Ok(true);
    }
    let members = members_of(*clean.allocator(), builder.component_types(), &ty)?;
    add_unknown(clean, met, members.as_slice())?;
    Ok(false)
}

/// Puts clean types among those that are known to be clean.
fn keep(
    builder: &ComponentTypesBuilder,
    rules: Rules,
    clean: &mut IndexSet<InterfaceType>,
    types: &[InterfaceType],
) -> Result<(), OutOfMemory>
    requires clean { All (IsClean builder.now.tables rules) clean.old.keys }
    requires types { All (IsClean builder.now.tables rules) types.now }
    ensures { All (IsClean builder.now.tables rules) clean.new.keys }
{
    for ty in types {
        clean.insert(*ty)?;
    }
    Ok(())
}
