//! The names of the functions that one adapter exports.

ghost use Rattle.std.specs.Prelude.{◌≡◌, ◌++◌, IfOk, OnOk};
ghost use Rattle.fact_adapter_rules.specs.Fronts.{IsFront};
ghost use Rattle.fact_adapter_rules.specs.AdapterRules.{export_names, part_names};
ghost use Rattle.fact_types.specs.Adapters.{LinkedAdapter};
ghost use Rattle.fact_adapter_rules.specs.AddedBindings.{AddsNames};
ghost use Rattle.fact_adapter_rules.specs.Linked.{IsLinked, NamesTypesOf};

use crate::ExportNames;
use crate::sides::{Candidate, is_async, is_crossing};
use fact_builder::ComponentTypesBuilder;
use fact_wasm::{OutOfMemory, Text};
use std::alloc::Global;

/// Adds names, in order. Answers false where one is there already. The names before stay in front.
pub(crate) fn add_all(exported: &mut ExportNames, names: Vec<Text>) -> Result<bool, OutOfMemory>
    ensures adds { IfOk result (λ fits. AddsNames exported.old exported.new names.items fits) }
    ensures front { IsFront exported.old exported.new }
{
    for name in names {
        if !exported.add(name)? {
            return Ok(false);
        }
    }
    Ok(true)
}

/// Two texts, one behind the other.
fn joined(alloc: Global, front: &str, name: &str) -> Result<Text, OutOfMemory>
    ensures { IfOk result (λ text. text ≡ front.now ++ name.now) }
{
    let mut text = String::from_str(alloc, front)?;
    text.push_str(name)?;
    Ok(Text::from_string(text))
}

/// Appends the names of the parts of an async adapter.
fn push_parts(alloc: Global, names: &mut Vec<Text>, name: &str) -> Result<(), OutOfMemory>
    ensures { OnOk result (names.new.items ≡ names.old.items ++ part_names name.now) }
{
    names.push(joined(alloc, "[async-start]", name)?)?;
    names.push(joined(alloc, "[async-return]", name)?)?;
    names.push(joined(alloc, "[adapter-callee]", name)?)?;
    Ok(())
}

/// The names that an adapter exports.
pub(crate) fn names(
    alloc: Global,
    builder: &ComponentTypesBuilder,
    candidate: &Candidate<'_>,
) -> Result<Vec<Text>, OutOfMemory>
    requires { NamesTypesOf builder.now candidate.now.adapter.now }
    ensures { IfOk result (λ names. (linked : LinkedAdapter) → IsLinked builder.now candidate.now linked → names.items ≡ export_names linked) }
{
    let adapter = candidate.adapter;
    let name = Text::from_str(alloc, candidate.name)?;
    let mut names = vec![in alloc; name]?;
    if is_async(builder, adapter) && is_crossing(builder, adapter) {
        push_parts(alloc, &mut names, candidate.name)?;
    }
    Ok(names)
}
