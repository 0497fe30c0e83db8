//! Registering the resources that imports and exports make known.

ghost use Rattle.std.specs.Prelude.{◌∷◌, [], map};
ghost use Rattle.fact_builder.specs.Walk.{resources_of};
ghost use Rattle.fact_source.specs.SourceTables.{SourceTables};
ghost use Rattle.fact_convert.specs.Progress.{Comes};
ghost use Rattle.fact_convert.specs.Tasks.{registers};

use fact_builder::{BuildError, ComponentTypesBuilder, FoundResource, find_resources};
use fact_entity::ResourceId;
use fact_source::{ComponentEntityType, SourceTypes};
use fact_wasm::Seq;

// Registers each resource that an item makes known and that has no registration as the next abstract one; the first has
// the number 1.
pub(crate) fn register_abstract(
    builder: &mut ComponentTypesBuilder,
    types: &SourceTypes,
    ty: ComponentEntityType,
) -> Result<(), BuildError>
    ensures { Comes types.now builder.old (map (λ r. registers r.1) (resources_of types.now [] ty)) (λ c x. Unit {0}) builder.new result }
{
    let mut path = Seq::new(builder.allocator());
    let mut resources_found = Seq::new(builder.allocator());
    find_resources(types, ty, &mut path, &mut resources_found)?;
    register_each(builder, resources_found.as_slice())
}

// Registers the resources that were found, one by one.
fn register_each(
    builder: &mut ComponentTypesBuilder,
    found: &[FoundResource],
) -> Result<(), BuildError>
    ensures { (s : SourceTables) → Comes s builder.old (map (λ r. registers r.1) found.now) (λ c x. Unit {0}) builder.new result }
{
    for (_, id) in found {
        register_next(builder, *id)?;
    }
    Ok(())
}

// Registers a resource as the next abstract one, where it has no registration.
fn register_next(builder: &mut ComponentTypesBuilder, id: ResourceId) -> Result<(), BuildError>
    ensures { (s : SourceTables) → Comes s builder.old (registers id ∷ []) (λ c x. Unit {0}) builder.new result }
{
    builder.register_next(id)
}
