//! The end of a builder that converts, and its error contexts. A line `finish` is answered by whether both are as they should be, of a
//! builder that has converted nothing.

ghost use Rattle.std.specs.Prelude.{IfOk};
ghost use Rattle.fact_types.specs.Tables.{Tables, AreLiveExterns};
ghost use Rattle.fact_convert.specs.Finished.{NamesLiveItems};

use crate::sources::SOURCE;
use crate::words::yes_or_no;
use fact_builder::ComponentTypesBuilder;
use fact_convert::{BuildError, Component, Conversions, Export};
use fact_entity::{EntityRef, OutOfMemory, PrimaryMap, RuntimeComponentInstanceIndex};
use fact_types::{ComponentExtern, ComponentExternData, InterfaceType, Lookup, TypeDef};
use fact_wasm::{Seq, Text};
use std::alloc::{AllocError, Global};

/// Whether error contexts have no table where no instance is set, and else one, whichever call asks for it.
fn have_one_table(builder: &mut ComponentTypesBuilder) -> bool {
    let none = builder.error_context_type();
    let resources = builder.resources_mut();
    resources.set_current_instance(RuntimeComponentInstanceIndex::from_u32(2));
    let first = builder.error_context_type();
    let again = builder.error_context_table_type();
    none == Err(BuildError::NoInstance) && first.is_ok() && first == again
}

/// What is said of an import or export without names beside its type.
fn untold() -> ComponentExternData {
    ComponentExternData {
        implements: None,
        external_id: None,
    }
}

/// Imports of two numbers under one name.
fn imports_of(alloc: Global) -> Result<Seq<(Text, ComponentExtern)>, OutOfMemory>
    ensures { IfOk result (λ xs. (t : Tables) → AreLiveExterns t xs) }
{
    let extern_data = untold();
    let ty = TypeDef::Interface(InterfaceType::U8);
    let first = (
        Text::from_str(alloc, "n")?,
        ComponentExtern { extern_data, ty },
    );
    let extern_data = untold();
    let ty = TypeDef::Interface(InterfaceType::U16);
    let second = (
        Text::from_str(alloc, "n")?,
        ComponentExtern { extern_data, ty },
    );
    let mut imports = Seq::new(alloc);
    imports.push(first)?;
    imports.push(second)?;
    Ok(imports)
}

/// A component that imports a number, twice under one name, and exports one.
fn component_of(alloc: Global) -> Result<Component, BuildError>
    ensures { IfOk result (λ c. (t : Tables) → NamesLiveItems t c) }
{
    let import_types = imports_of(alloc)?;
    let mut export_items = PrimaryMap::new(alloc);
    let item = export_items.push(Export::AnyType(TypeDef::Interface(InterfaceType::U32)))?;
    let mut exports = Seq::new(alloc);
    exports.push((Text::from_str(alloc, "m")?, item, untold()))?;
    Ok(Component {
        import_types,
        exports,
        export_items,
    })
}

/// Whether a type is that of a u16.
fn is_u16(ty: &TypeDef) -> bool {
    matches!(ty, TypeDef::Interface(InterfaceType::U16))
}

/// Whether the end of a builder without components gives the first one, which has one import, of the last type under its name, and one
/// export, with the core types.
fn ends_with_component(alloc: Global, builder: ComponentTypesBuilder) -> bool {
    let Ok(component) = component_of(alloc) else {
        drop(builder);
        return false;
    };
    let finished = builder.finish(&component);
    drop(component);
    let Ok((types, index)) = finished else {
        return false;
    };
    let is_component = match types.get(index) {
        Some(it) => {
            it.imports.len() == 1
                && matches!(it.imports.values().next(), Some(import) if is_u16(&import.ty))
                && it.exports.len() == 1
        }
        None => false,
    };
    let core_types = types.module_types_opt().is_some();
    drop(types);
    index.number == 0 && is_component && core_types
}

/// Adds whether a builder gives a table for error contexts, and ends with a component.
pub fn add_finished(page: &mut String, alloc: Global) -> Result<(), AllocError> {
    let mut builder = ComponentTypesBuilder::new(alloc, SOURCE);
    let have = have_one_table(&mut builder);
    let ended = ends_with_component(alloc, builder);
    page.push_str(yes_or_no(have && ended))
}
