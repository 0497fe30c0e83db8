//! The rules for an entry of the tables, by what it says itself.

ghost use Rattle.std.specs.Prelude.{◌↔◌, IfOk, IsTrue, map};
ghost use Rattle.fact_types.specs.Shapes.{k_record};
ghost use Rattle.fact_types.specs.Tables.{IsLive, node_of};
ghost use Rattle.fact_type_rules.specs.TypeFaults.{IsBadKind};
ghost use Rattle.fact_type_rules.specs.Walk.{IsBadNode, IsLongType};

use crate::names::have_repeated_names;
use fact_entity::EntityRef;
use fact_plan_types::{MOST_CASES, MOST_ENTRIES, MOST_FLAGS};
use fact_types::{ComponentTypes, InterfaceType, TypeRecord};
use fact_wasm::OutOfMemory;
use std::alloc::Global;

/// Whether a live type is none, whatever the types of its members are. The names of cases and flags are told apart by the
/// tables themselves.
pub(crate) fn is_bad_entry(
    alloc: Global,
    types: &ComponentTypes,
    ty: &InterfaceType,
) -> Result<bool, OutOfMemory>
    requires { IsLive types.now ty.now }
    ensures { IfOk result (λ found. IsTrue found ↔ IsBadNode (node_of types.now ty.now)) }
{
    match *ty {
        InterfaceType::Record(i) => is_bad_record(alloc, &types[i]),
        InterfaceType::Variant(i) => Ok(types[i].cases.len() == 0),
        InterfaceType::Tuple(i) => Ok(types[i].types.len() == 0),
        InterfaceType::Flags(i) => {
            let count = types[i].names.len();
            Ok(count == 0 || count > MOST_FLAGS)
        }
        InterfaceType::Enum(i) => Ok(types[i].names.len() == 0),
        InterfaceType::FixedLengthList(i) => Ok(types[i].size == 0),
        _ => Ok(false),
    }
}

/// Whether a record is none: it has no fields, or two of one name.
fn is_bad_record(alloc: Global, ty: &TypeRecord) -> Result<bool, OutOfMemory>
    ensures { IfOk result (λ found. IsTrue found ↔ IsBadKind k_record (map (λ f. f.name) ty.now.fields)) }
{
    let has_repeated = have_repeated_names(alloc, ty.fields.as_slice())?;
    Ok(ty.fields.len() == 0 || has_repeated)
}

/// Whether a live type names a table past the most, or has more members than a type of its kind may have.
pub(crate) fn is_long_entry(types: &ComponentTypes, ty: &InterfaceType) -> bool
    requires { IsLive types.now ty.now }
    ensures { IsTrue result ↔ IsLongType types.now ty.now }
{
    match *ty {
        InterfaceType::Own(i) | InterfaceType::Borrow(i) => i.as_u32() as usize >= MOST_ENTRIES,
        InterfaceType::Record(i) => types[i].fields.len() > MOST_ENTRIES,
        InterfaceType::Variant(i) => types[i].cases.len() > MOST_CASES,
        InterfaceType::Tuple(i) => types[i].types.len() > MOST_ENTRIES,
        InterfaceType::Flags(i) => types[i].names.len() > MOST_ENTRIES,
        InterfaceType::Enum(i) => types[i].names.len() > MOST_ENTRIES,
        _ => false,
    }
}
