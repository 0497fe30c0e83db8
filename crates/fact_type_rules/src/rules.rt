//! The rules for a type, whatever the types in it are.

ghost use Rattle.std.specs.Prelude.{◌↔◌, IfOk, IsTrue};
ghost use Rattle.fact_types.specs.Shapes.{IsWithin, Shape};
ghost use Rattle.fact_types.specs.Tables.{IsLive, HasShape, Tables};
ghost use Rattle.fact_plan_types.specs.TypeRules.{IsEntryPast};
ghost use Rattle.fact_type_rules.specs.TypeFaults.{IsBadShape, IsLargeShape};
ghost use Rattle.fact_type_rules.specs.Walk.{BreaksRules};

use crate::entries::{is_bad_entry, is_long_entry};
use fact_builder::ComponentTypesBuilder;
use fact_types::{CanonicalAbiInfo, ComponentTypes, InterfaceType};
use fact_wasm::OutOfMemory;
use std::alloc::Global;

/// How deep types nest at most.
const MOST_NESTING: u32 = 100;

/// The rules whose breach is looked for: those that say which types there are, or those on their size.
#[derive(Clone, Copy)]
pub(crate) enum Rules {
    OfKind,
    OfSize,
}

impl Rules {
    /// Whether a live type breaks one of these rules, whatever the types in it are.
    pub(crate) fn are_broken_by(
        self,
        alloc: Global,
        builder: &ComponentTypesBuilder,
        ty: &InterfaceType,
    ) -> Result<bool, OutOfMemory>
        requires { IsLive builder.now.tables ty.now }
        ensures { IfOk result (λ found. (s : Shape) → HasShape builder.now.tables ty.now s → (IsTrue found ↔ BreaksRules self s)) }
    {
        match self {
            Rules::OfKind => is_bad_type(alloc, builder, ty),
            Rules::OfSize => Ok(is_large_type(builder, ty)),
        }
    }
}

/// Whether a live type is none.
fn is_bad_type(
    alloc: Global,
    builder: &ComponentTypesBuilder,
    ty: &InterfaceType,
) -> Result<bool, OutOfMemory>
    requires { IsLive builder.now.tables ty.now }
    ensures { IfOk result (λ found. (s : Shape) → HasShape builder.now.tables ty.now s → (IsTrue found ↔ IsBadShape s)) }
{
    is_bad_entry(alloc, builder.component_types(), ty)
}

/// Whether a live type is too large. The size of its values, and that of a map's entries, stand in the tables as numbers of 32
/// bits.
fn is_large_type(builder: &ComponentTypesBuilder, ty: &InterfaceType) -> bool
    requires { IsLive builder.now.tables ty.now }
    ensures { (s : Shape) → HasShape builder.now.tables ty.now s → (IsTrue result ↔ IsLargeShape s) }
{
    let _abi = builder.canonical_abi(ty);
    reveal_entry(builder.component_types(), ty);
    is_long_entry(builder.component_types(), ty) || builder.nesting(ty) > MOST_NESTING
}

/// Does nothing: it says that the entries of a live map take no more bytes than there can be.
fn reveal_entry(types: &ComponentTypes, ty: &InterfaceType)
    requires { IsLive types.now ty.now }
    ensures { (s : Shape) → HasShape types.now ty.now s → IsEntryPast s → ⊥ }
{
    types.reveal();
    if let InterfaceType::Map(i) = *ty {
        reveal_layout(&types[i].entry_abi);
    }
}

/// Does nothing: it says that a layout's sizes are numbers of 32 bits.
fn reveal_layout(abi: &CanonicalAbiInfo)
    ensures { IsWithin abi.now }
{
    let _size32 = abi.size32;
    let _size64 = abi.size64;
}
