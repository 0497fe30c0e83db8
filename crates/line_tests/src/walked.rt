//! The resources of a source, by a builder of their own. A line `walk` has two items, each an E and the number of a resource, parted by
//! ` | `: the first is walked over resources that can have values, the second over abstract ones. Told is for each whether its last resource
//! is found under the one name `r`, and whether the resource of the number is registered then. A line `own-table` has the number of a
//! resource, of which nothing else is known: it is told whether it has a table of its own where an instance is set, and is refused one where
//! none is.

ghost use Rattle.std.specs.Prelude.{◌≡◌};
ghost use Rattle.fact_builder.specs.Known.{no_resources};

use crate::sources::entity_of;
use crate::words::{first_of, small_number_of, word_of, yes_or_no};
use fact_builder::{BuildError, ResourcesBuilder};
use fact_entity::{
    AbstractResourceIndex, EntityRef, OutOfMemory, ResourceId, ResourceIndex,
    RuntimeComponentInstanceIndex,
};
use fact_source::{ComponentEntityType, SourceTypes};
use fact_types::{ComponentTypes, Lookup, TypeResourceTable, TypeResourceTableIndex};
use fact_wasm::{Seq, Text};
use std::alloc::{AllocError, Global};

/// Whether a path is the one name r.
fn is_r(names: &[Text]) -> bool {
    matches!(names, [name] if name.as_str() == "r")
}

/// Whether the last resource of an item is told by its path, which is as before then.
fn tells_concrete(
    types: &SourceTypes,
    resources: &mut ResourcesBuilder,
    path: &mut Seq<Text>,
    ty: ComponentEntityType,
) -> Result<bool, OutOfMemory> {
    let mut is_named = false;
    let mut register = |names: &[Text]| {
        is_named = is_r(names);
        ResourceIndex::from_u32(5)
    };
    resources.register_component_entity_type(types, ty, path, &mut register)?;
    Ok(is_named && path.len() == 0)
}

/// The same over abstract resources.
fn tells_abstract(
    types: &SourceTypes,
    resources: &mut ResourcesBuilder,
    path: &mut Seq<Text>,
    ty: ComponentEntityType,
) -> Result<bool, OutOfMemory> {
    let mut is_named = false;
    let mut register = |names: &[Text]| {
        is_named = is_r(names);
        AbstractResourceIndex::from_u32(1)
    };
    resources.register_abstract_component_entity_type(types, ty, path, &mut register)?;
    Ok(is_named && path.len() == 0)
}

/// Adds what is told of an item.
fn add_told(
    page: &mut String,
    types: &SourceTypes,
    resources: &mut ResourcesBuilder,
    path: &mut Seq<Text>,
    item: &str,
    general: bool,
) -> Result<(), AllocError> {
    let (word, number) = word_of(item);
    let Some(ty) = entity_of(word) else {
        return page.push_str("no such entry");
    };
    let is_named = if general {
        tells_abstract(types, resources, path, ty)?
    } else {
        tells_concrete(types, resources, path, ty)?
    };
    let registered = resources.is_registered(ResourceId::from_u32(small_number_of(number)));
    write!(page, "{} {}", yes_or_no(is_named), yes_or_no(registered))
}

/// Adds what is told of both items of a line.
pub fn add_walked(
    page: &mut String,
    alloc: Global,
    types: &SourceTypes,
    line: &str,
) -> Result<(), AllocError> {
    let (first, second) = first_of(line);
    let mut resources = ResourcesBuilder::new(alloc);
    let mut path = Seq::new(alloc);
    let added = add_told(page, types, &mut resources, &mut path, first, false);
    let space = page.push(' ');
    let last = add_told(page, types, &mut resources, &mut path, second, true);
    drop(path);
    drop(resources);
    added?;
    space?;
    last
}

/// Whether a table is that of a concrete resource.
fn is_concrete(tables: &ComponentTypes, index: TypeResourceTableIndex) -> bool {
    matches!(tables.get(index), Some(TypeResourceTable::Concrete { .. }))
}

/// Whether a resource of which nothing is known has a table of its own where an instance is set, and is refused one where none is.
fn gets_a_table(
    resources: &mut ResourcesBuilder,
    tables: &mut ComponentTypes,
    resource: ResourceId,
) -> Result<bool, BuildError>
    requires { resources.old ≡ no_resources }
{
    resources.register_resource(resource, ResourceIndex::from_u32(5))?;
    let refused = resources.convert(resource, tables);
    resources.set_current_instance(RuntimeComponentInstanceIndex::from_u32(2));
    let first = resources.convert(resource, tables);
    let again = resources.convert(resource, tables);
    let concrete = matches!(first, Ok(i) if is_concrete(tables, i));
    Ok(refused == Err(BuildError::NoInstance) && first == again && concrete)
}

/// Whether an instance is set, and a copy has the registration of a resource.
fn is_kept(resources: &ResourcesBuilder, resource: ResourceId) -> Result<bool, OutOfMemory> {
    let copy = resources.try_clone()?;
    let kept = copy.is_registered(resource);
    drop(copy);
    Ok(kept && resources.get_current_instance().is_some())
}

/// Adds whether a concrete resource gets a table, and is known by a copy then.
pub fn add_own_table(page: &mut String, alloc: Global, word: &str) -> Result<(), AllocError> {
    let resource = ResourceId::from_u32(small_number_of(word));
    let mut resources = ResourcesBuilder::new(alloc);
    let mut tables = ComponentTypes::new(alloc);
    let got = gets_a_table(&mut resources, &mut tables, resource);
    drop(tables);
    let kept = is_kept(&resources, resource);
    drop(resources);
    page.push_str(yes_or_no(matches!((got, kept), (Ok(true), Ok(true)))))
}
