//! The walk over the resources that an import or export makes known.

ghost use Rattle.std.specs.Prelude.{◌≡◌, ◌++◌, ◌∷◌, [], OnOk, IfOk};
ghost use Rattle.fact_builder.specs.Walk.{resources_of};

use fact_entity::{OutOfMemory, ResourceId};
use fact_source::{ComponentAnyTypeId, ComponentEntityType, SourceTypes};
use fact_wasm::{Seq, Text};

/// A resource, behind the names of the exports that lead to it, outermost first.
pub type FoundResource = (Seq<Text>, ResourceId);

/// Puts the resources that an item makes known behind those that were found. The path leads to the item.
#[cycle(walking)]
pub fn find_resources(
    types: &SourceTypes,
    ty: ComponentEntityType,
    path: &mut Seq<Text>,
    found: &mut Seq<FoundResource>,
) -> Result<(), OutOfMemory>
    ensures found { OnOk result (found.new ≡ found.old ++ resources_of types.now path.old ty) }
    ensures path { path.new ≡ path.old }
{
    types.reveal();
    match ty {
        ComponentEntityType::AnyType {
            created: ComponentAnyTypeId::Resource(id),
        } => found.push(found_at(path, id)?),
        ComponentEntityType::Instance(id) => {
            let Some(instance) = types.get_instance(id) else {
                return Ok(());
            };
            for (name, item) in instance.exports.as_slice() {
                find_in_export(types, name, item.ty, path, found)?;
            }
            Ok(())
        }
        _ => Ok(()),
    }
}

// Those that an export makes known, with its name at the end of the path meanwhile.
#[cycle(walking)]
fn find_in_export(
    types: &SourceTypes,
    name: &Text,
    ty: ComponentEntityType,
    path: &mut Seq<Text>,
    found: &mut Seq<FoundResource>,
) -> Result<(), OutOfMemory>
    ensures found { OnOk result (found.new ≡ found.old ++ resources_of types.now (path.old ++ name.now ∷ []) ty) }
    ensures path { path.new ≡ path.old }
{
    path.push(name.try_clone()?)?;
    let end = find_resources(types, ty, path, found);
    path.pop();
    end
}

// A resource at a path.
fn found_at(path: &Seq<Text>, id: ResourceId) -> Result<FoundResource, OutOfMemory>
    ensures path { IfOk result (λ x. x.0 ≡ path.now) }
    ensures resource { IfOk result (λ x. x.1 ≡ id) }
{
    Ok((path.clone()?, id))
}
