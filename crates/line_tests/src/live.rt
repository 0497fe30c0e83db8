//! Whether types name entries that the builder holds.

ghost use Rattle.std.specs.Prelude.{IsTrue, All};
ghost use Rattle.fact_types.specs.Tables.{IsLive, IsLiveMember};

use fact_builder::ComponentTypesBuilder;
use fact_types::InterfaceType;

/// Whether a type is a number, a character or a string, or names an entry that the builder holds.
pub fn is_live(builder: &ComponentTypesBuilder, ty: &InterfaceType) -> bool
    ensures { IsTrue result → IsLive builder.now.tables ty.now }
{
    builder.component_types().is_live(*ty)
}

/// Whether each of several types is such a type.
pub fn are_live(builder: &ComponentTypesBuilder, types: &[InterfaceType]) -> bool
    ensures { IsTrue result → All (IsLive builder.now.tables) types.now }
{
    types.iter().all(|ty| is_live(builder, ty))
}

/// Whether a payload, if there is one, has such a type.
pub fn is_live_payload(builder: &ComponentTypesBuilder, payload: &Option<InterfaceType>) -> bool
    ensures { IsTrue result → IsLiveMember builder.now.tables payload.now }
{
    match payload {
        Some(ty) => is_live(builder, ty),
        None => true,
    }
}
