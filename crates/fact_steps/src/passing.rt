//! Parameters that are handed on as they are.

ghost use Rattle.std.specs.Prelude.{IsTrue, ◌≡◌, ◌↔◌, ◌<◌, List, length, true};
ghost use Rattle.std.specs.List.{list_all};
ghost use Rattle.fact_types.specs.Functions.{HasSignature};
ghost use Rattle.fact_types.specs.Shapes.{Shape};
ghost use Rattle.fact_steps.specs.PassedOn.{ArePassedOn, is_passed_on};

use fact_entity::TypeFuncIndex;
use fact_types::{ComponentTypes, InterfaceType};

/// Whether a type is a number of 32 or of 64 bits.
fn is_number(ty: InterfaceType) -> bool
    ensures { result ≡ is_passed_on ty }
{
    matches!(
        ty,
        InterfaceType::S32
            | InterfaceType::U32
            | InterfaceType::S64
            | InterfaceType::U64
            | InterfaceType::Float32
            | InterfaceType::Float64
    )
}

/// Whether all of these types are.
fn are_numbers(types: &[InterfaceType]) -> bool
    ensures { result ≡ list_all is_passed_on types.now }
{
    types.iter().all(|ty| is_number(*ty))
}

/// Whether two lists have the same numbers.
fn are_same_numbers(from: &[InterfaceType], to: &[InterfaceType]) -> bool
    ensures { IsTrue result ↔ ((from.now ≡ to.now) × (list_all is_passed_on from.now ≡ true)) }
{
    from == to && are_numbers(from)
}

/// Whether the parameters of two live functions are the same types, at most 16, each of which is handed on as it is.
pub fn are_passed_on(types: &ComponentTypes, lower: TypeFuncIndex, lift: TypeFuncIndex) -> bool
    requires lower_live { lower.number < length types.now.functions }
    requires lift_live { lift.number < length types.now.functions }
    ensures { (ps rs qs ss : List Shape) → HasSignature types.now lower ps rs → HasSignature types.now lift qs ss → (IsTrue result ↔ ArePassedOn ps qs) }
{
    types.reveal();
    let from = &types[types[lower].params];
    let to = &types[types[lift].params];
    if from.types.len() > 16 {
        return false;
    }
    are_same_numbers(from.types.as_slice(), to.types.as_slice())
}
