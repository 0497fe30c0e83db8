//! Flags and enums, and maps by name in which a repeated name keeps its first place and takes the last value.

ghost use Rattle.std.specs.Prelude.{◌≡◌, OnOk, IfOk, nat_eq};
ghost use Rattle.std.specs.Cmp.Lexicographic.{pointwise};
ghost use Rattle.indexmap.specs.IndexMap.{insert_entry};
ghost use Rattle.fact_source.specs.declared.defined.ComponentDefinedType.TheVariants as defined;
ghost use Rattle.fact_source.specs.SourceTables.{SourceTables};
ghost use Rattle.fact_convert.specs.Merging.{merged_names};
ghost use Rattle.fact_convert.specs.Progress.{Comes, IsMadeFrom};
ghost use Rattle.fact_convert.specs.Tasks.{own_tasks};

use crate::members::answer;
use fact_builder::{BuildError, ComponentTypesBuilder, make_enum, make_flags};
use fact_entity::OutOfMemory;
use fact_types::InterfaceType;
use fact_wasm::{Seq, Text};
use indexmap::{IndexMap, IndexSet};
use std::alloc::Global;

// The flags of these names.
pub(crate) fn type_of_flags(
    builder: &mut ComponentTypesBuilder,
    names: &Seq<Text>,
) -> Result<InterfaceType, BuildError>
    ensures { (s : SourceTables) → Comes s builder.old (own_tasks (defined.Flags names.now)) (λ c t. IsMadeFrom s c (defined.Flags names.now) t) builder.new result }
{
    let set = set_of(builder.allocator(), names.as_slice())?;
    answer(make_flags(builder, set))
}

// The enum of these names.
pub(crate) fn type_of_enum(
    builder: &mut ComponentTypesBuilder,
    names: &Seq<Text>,
) -> Result<InterfaceType, BuildError>
    ensures { (s : SourceTables) → Comes s builder.old (own_tasks (defined.Enum names.now)) (λ c t. IsMadeFrom s c (defined.Enum names.now) t) builder.new result }
{
    let set = set_of(builder.allocator(), names.as_slice())?;
    answer(make_enum(builder, set))
}

/// The names, each at its first place.
fn set_of(alloc: Global, names: &[Text]) -> Result<IndexSet<Text>, OutOfMemory>
    ensures { IfOk result (λ set. set.keys ≡ merged_names names.now) }
{
    let mut set = IndexSet::new(alloc);
    for name in names {
        set.insert(name.try_clone()?)?;
    }
    Ok(set)
}

/// Puts a value under a name.
pub(crate) fn put<V: Drop>(
    map: &mut IndexMap<Text, V>,
    name: &Text,
    value: V,
) -> Result<(), OutOfMemory>
    ensures { OnOk result (map.new.entries ≡ insert_entry (pointwise nat_eq) map.old.entries name.now value) }
{
    map.insert(name.try_clone()?, value)?;
    Ok(())
}
