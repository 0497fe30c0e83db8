//! Options, results, variants, enums and flags.

ghost use Rattle.std.specs.Prelude.{◌≡◌, ◌↔◌, ◌∷◌, [], map, All, Some, None, Err};
ghost use Rattle.fact_types.specs.Shapes.{k_variant, k_flags, k_enum, k_option, k_result, none_name, some_name, ok_name, error_name};
ghost use Rattle.fact_types.specs.Tables.{IsLive, IsLiveMember};
ghost use Rattle.fact_builder.specs.Makes.{CannotBeMade, Makes};

use crate::ComponentTypesBuilder;
use crate::layouts::{layout_of_payload, layouts_of_payloads};
use fact_entity::PushError;
use fact_types::{
    CanonicalAbiInfo, DiscriminantSize, InterfaceType, TypeEnum, TypeFlags, TypeOption, TypeResult,
    TypeVariant, VariantInfo,
};
use fact_wasm::Text;
use indexmap::{IndexMap, IndexSet};
use std::alloc::Global;

/// The option of a live type.
pub fn make_option(
    builder: &mut ComponentTypesBuilder,
    ty: InterfaceType,
) -> Result<InterfaceType, PushError>
    requires { IsLive builder.old.tables ty }
    ensures makes { Makes builder.old builder.new k_option ((none_name, None) ∷ (some_name, Some ty) ∷ []) result }
    ensures too_large { result ≡ Err PushError.TooLarge ↔ CannotBeMade builder.old.tables k_option ((none_name, None) ∷ (some_name, Some ty) ∷ []) }
{
    builder.reveal();
    let cases = [None, Some(*builder.canonical_abi(&ty))];
    if !CanonicalAbiInfo::variant_fits(&cases) {
        return Err(PushError::TooLarge);
    }
    let (info, abi) = VariantInfo::new(&cases);
    let index = builder.add_option_type(TypeOption { ty, abi, info })?;
    Ok(InterfaceType::Option(index))
}

/// The result whose payloads, where it has them, are of live types.
pub fn make_result(
    builder: &mut ComponentTypesBuilder,
    ok: Option<InterfaceType>,
    err: Option<InterfaceType>,
) -> Result<InterfaceType, PushError>
    requires ok { IsLiveMember builder.old.tables ok }
    requires err { IsLiveMember builder.old.tables err }
    ensures makes { Makes builder.old builder.new k_result ((ok_name, ok) ∷ (error_name, err) ∷ []) result }
    ensures too_large { result ≡ Err PushError.TooLarge ↔ CannotBeMade builder.old.tables k_result ((ok_name, ok) ∷ (error_name, err) ∷ []) }
{
    builder.reveal();
    let cases = [
        layout_of_payload(builder, ok),
        layout_of_payload(builder, err),
    ];
    if !CanonicalAbiInfo::variant_fits(&cases) {
        return Err(PushError::TooLarge);
    }
    let (info, abi) = VariantInfo::new(&cases);
    let index = builder.add_result_type(TypeResult { ok, err, abi, info })?;
    Ok(InterfaceType::Result(index))
}

/// The variant of cases whose payloads, where they have them, are of live types.
pub fn make_variant(
    alloc: Global,
    builder: &mut ComponentTypesBuilder,
    cases: IndexMap<Text, Option<InterfaceType>>,
) -> Result<InterfaceType, PushError>
    requires { All (λ c. IsLiveMember builder.old.tables c.1) cases.entries }
    ensures { Makes builder.old builder.new k_variant cases.entries result }
{
    builder.reveal();
    let layouts = layouts_of_payloads(alloc, builder, cases.values().as_slice())?;
    if !CanonicalAbiInfo::variant_fits(layouts.as_slice()) {
        return Err(PushError::TooLarge);
    }
    let (info, abi) = VariantInfo::new(layouts.as_slice());
    let index = builder.add_variant_type(TypeVariant { cases, abi, info })?;
    Ok(InterfaceType::Variant(index))
}

/// The enum of these names.
pub fn make_enum(
    builder: &mut ComponentTypesBuilder,
    names: IndexSet<Text>,
) -> Result<InterfaceType, PushError>
    ensures makes { Makes builder.old builder.new k_enum (map (λ n. (n, None)) names.keys) result }
    ensures too_large { result ≡ Err PushError.TooLarge ↔ CannotBeMade builder.old.tables k_enum (map (λ n. (n, None)) names.keys) }
{
    builder.reveal();
    let count = names.len();
    let Some(size) = DiscriminantSize::from_count(count) else {
        return Err(PushError::TooLarge);
    };
    let abi = CanonicalAbiInfo::enum_(count);
    let info = VariantInfo {
        size,
        payload_offset32: size.byte_size(),
        payload_offset64: size.byte_size(),
    };
    let index = builder.add_enum_type(TypeEnum { names, abi, info })?;
    Ok(InterfaceType::Enum(index))
}

/// The flags of these names.
pub fn make_flags(
    builder: &mut ComponentTypesBuilder,
    names: IndexSet<Text>,
) -> Result<InterfaceType, PushError>
    ensures makes { Makes builder.old builder.new k_flags (map (λ n. (n, None)) names.keys) result }
    ensures too_large { result ≡ Err PushError.TooLarge ↔ CannotBeMade builder.old.tables k_flags (map (λ n. (n, None)) names.keys) }
{
    builder.reveal();
    let count = names.len();
    if !CanonicalAbiInfo::flags_fits(count) {
        return Err(PushError::TooLarge);
    }
    let abi = CanonicalAbiInfo::flags(count);
    let index = builder.add_flags_type(TypeFlags { names, abi })?;
    Ok(InterfaceType::Flags(index))
}
