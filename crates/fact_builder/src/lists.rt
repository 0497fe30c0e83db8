//! Lists, maps and lists of fixed length.

ghost use Rattle.std.specs.Prelude.{◌≡◌, ◌↔◌, ◌∷◌, [], Some, Err};
ghost use Rattle.fact_types.specs.Shapes.{k_list, k_map, k_fixed};
ghost use Rattle.fact_types.specs.Tables.{IsLive};
ghost use Rattle.fact_builder.specs.Makes.{CannotBeMade, Makes};

use crate::ComponentTypesBuilder;
use fact_entity::PushError;
use fact_types::{CanonicalAbiInfo, InterfaceType, TypeFixedLengthList, TypeList, TypeMap};

/// The list of elements of a live type.
pub fn make_list(
    builder: &mut ComponentTypesBuilder,
    element: InterfaceType,
) -> Result<InterfaceType, PushError>
    requires { IsLive builder.old.tables element }
    ensures makes { Makes builder.old builder.new k_list (([], Some element) ∷ []) result }
    ensures too_large { result ≡ Err PushError.TooLarge ↔ CannotBeMade builder.old.tables k_list (([], Some element) ∷ []) }
{
    builder.reveal();
    let index = builder.add_list_type(TypeList { element })?;
    Ok(InterfaceType::List(index))
}

/// The list of so many elements of a live type.
pub fn make_fixed_length_list(
    builder: &mut ComponentTypesBuilder,
    element: InterfaceType,
    size: u32,
) -> Result<InterfaceType, PushError>
    requires { IsLive builder.old.tables element }
    ensures makes { Makes builder.old builder.new (k_fixed size) (([], Some element) ∷ []) result }
    ensures too_large { result ≡ Err PushError.TooLarge ↔ CannotBeMade builder.old.tables (k_fixed size) (([], Some element) ∷ []) }
{
    builder.reveal();
    let element_abi = builder.canonical_abi(&element);
    if !CanonicalAbiInfo::fixed_length_list_fits(element_abi, size as usize) {
        return Err(PushError::TooLarge);
    }
    let abi = CanonicalAbiInfo::fixed_length_list_static(element_abi, size as usize);
    let index = builder.add_fixed_length_list_type(TypeFixedLengthList { element, size, abi })?;
    Ok(InterfaceType::FixedLengthList(index))
}

/// The map from keys of a live type to values of another.
pub fn make_map(
    builder: &mut ComponentTypesBuilder,
    key: InterfaceType,
    value: InterfaceType,
) -> Result<InterfaceType, PushError>
    requires key { IsLive builder.old.tables key }
    requires value { IsLive builder.old.tables value }
    ensures makes { Makes builder.old builder.new k_map ((0 ∷ [], Some key) ∷ (1 ∷ [], Some value) ∷ []) result }
    ensures too_large { result ≡ Err PushError.TooLarge ↔ CannotBeMade builder.old.tables k_map ((0 ∷ [], Some key) ∷ (1 ∷ [], Some value) ∷ []) }
{
    builder.reveal();
    let parts = [*builder.canonical_abi(&key), *builder.canonical_abi(&value)];
    if !CanonicalAbiInfo::record_fits(&parts) {
        return Err(PushError::TooLarge);
    }
    let entry_abi = CanonicalAbiInfo::record(&parts);
    let mut offset32 = parts[0].size32;
    let mut offset64 = parts[0].size64;
    let value_offset32 = parts[1].next_field32(&mut offset32);
    let value_offset64 = parts[1].next_field64(&mut offset64);
    let index = builder.add_map_type(TypeMap {
        key,
        value,
        entry_abi,
        value_offset32,
        value_offset64,
    })?;
    Ok(InterfaceType::Map(index))
}
