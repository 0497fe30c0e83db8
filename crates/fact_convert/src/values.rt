//! Types of values: a defined type is converted member by member, in order, and is then made of what they became.

ghost use Rattle.std.specs.Prelude.{◌≡◌, ◌<◌, Some, slice_get, length, flat_map, All};
ghost use Rattle.std.specs.List.{AllZip};
ghost use Rattle.fact_source.specs.declared.defined.ComponentValType.TheVariants as val;
ghost use Rattle.fact_source.specs.SourceTables.{SourceTables};
ghost use Rattle.fact_source.specs.Live.{IsValueBelow};
ghost use Rattle.fact_convert.specs.Conversion.{IsReadyFor};
ghost use Rattle.fact_convert.specs.Converted.{IsTypeFrom};
ghost use Rattle.fact_convert.specs.SourceShapes.{interface_of};
ghost use Rattle.fact_convert.specs.Progress.{Comes};
ghost use Rattle.fact_convert.specs.Tasks.{value_tasks};

use crate::handles::table_of_error_contexts;
use crate::members::{member_types, type_of_entry};
use fact_builder::{BuildError, ComponentTypesBuilder};
use fact_source::{ComponentDefinedTypeId, ComponentValType, PrimitiveValType, SourceTypes};
use fact_types::InterfaceType;
use fact_wasm::Seq;

// Converts a defined type: its members one by one, and then the type of what they became.
#[cycle(values)]
pub(crate) fn type_of_defined(
    builder: &mut ComponentTypesBuilder,
    types: &SourceTypes,
    id: ComponentDefinedTypeId,
) -> Result<InterfaceType, BuildError>
    requires ready { IsReadyFor types.now builder.old }
    requires live { id.number < length types.now.defined }
    ensures { Comes types.now builder.old (value_tasks types.now (val.Defined id)) (λ c t. IsTypeFrom types.now c (val.Defined id) t) builder.new result }
{
    types.reveal();
    let Some(entry) = types.get_defined(id) else {
        unreachable!();
    };
    let named = member_types(builder.allocator(), entry)?;
    let members = types_of_values(builder, types, named.as_slice())?;
    type_of_entry(builder, entry, members.as_slice())
}

// Converts types one by one.
#[cycle(values)]
pub(crate) fn types_of_values(
    builder: &mut ComponentTypesBuilder,
    types: &SourceTypes,
    tys: &[ComponentValType],
) -> Result<Seq<InterfaceType>, BuildError>
    requires ready { IsReadyFor types.now builder.old }
    requires live { All (IsValueBelow (length types.now.defined)) tys.now }
    ensures { Comes types.now builder.old (flat_map (value_tasks types.now) tys.now) (λ c ts. AllZip (IsTypeFrom types.now c) tys.now ts) builder.new result }
{
    let mut value_types = Seq::new(builder.allocator());
    for i in 0..tys.len() {
        let ty = value_at(tys, i);
        let next = type_of_value(builder, types, ty)?;
        value_types.push(next)?;
    }
    Ok(value_types)
}

// Converts a type of values.
#[cycle(values)]
fn type_of_value(
    builder: &mut ComponentTypesBuilder,
    types: &SourceTypes,
    ty: ComponentValType,
) -> Result<InterfaceType, BuildError>
    requires ready { IsReadyFor types.now builder.old }
    requires live { IsValueBelow (length types.now.defined) ty }
    ensures { Comes types.now builder.old (value_tasks types.now ty) (λ c t. IsTypeFrom types.now c ty t) builder.new result }
{
    match ty {
        ComponentValType::Primitive(ty) => type_of_primitive(builder, ty),
        ComponentValType::Defined(id) => type_of_defined(builder, types, id),
    }
}

// The type of a primitive one; that of an error context has a table.
pub(crate) fn type_of_primitive(
    builder: &mut ComponentTypesBuilder,
    ty: PrimitiveValType,
) -> Result<InterfaceType, BuildError>
    ensures { (s : SourceTables) → Comes s builder.old (value_tasks s (val.Primitive ty)) (λ c t. IsTypeFrom s c (val.Primitive ty) t) builder.new result }
{
    match plain_type(ty) {
        Some(ty) => Ok(ty),
        None => {
            let index = table_of_error_contexts(builder)?;
            Ok(InterfaceType::ErrorContext(index))
        }
    }
}

// The type at a place.
fn value_at(tys: &[ComponentValType], place: usize) -> ComponentValType
    requires { place < length tys.now }
    ensures { slice_get tys.now place ≡ Some result }
{
    tys[place]
}

// The type of a primitive one that has no table.
fn plain_type(ty: PrimitiveValType) -> Option<InterfaceType>
    ensures { result ≡ interface_of ty }
{
    match ty {
        PrimitiveValType::Bool => Some(InterfaceType::Bool),
        PrimitiveValType::S8 => Some(InterfaceType::S8),
        PrimitiveValType::U8 => Some(InterfaceType::U8),
        PrimitiveValType::S16 => Some(InterfaceType::S16),
        PrimitiveValType::U16 => Some(InterfaceType::U16),
        PrimitiveValType::S32 => Some(InterfaceType::S32),
        PrimitiveValType::U32 => Some(InterfaceType::U32),
        PrimitiveValType::S64 => Some(InterfaceType::S64),
        PrimitiveValType::U64 => Some(InterfaceType::U64),
        PrimitiveValType::Float32 => Some(InterfaceType::Float32),
        PrimitiveValType::Float64 => Some(InterfaceType::Float64),
        PrimitiveValType::Char => Some(InterfaceType::Char),
        PrimitiveValType::String => Some(InterfaceType::String),
        PrimitiveValType::ErrorContext => None,
    }
}
