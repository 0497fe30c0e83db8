//! Flags and enums: values that are a single number.

ghost use Rattle.std.specs.Prelude.{IfOk, OnOk, ◌≡◌};
ghost use Rattle.fact_types.specs.declared.interface.InterfaceType.TheVariants as ty;
ghost use Rattle.fact_types.specs.Tables.{IsLive};
ghost use Rattle.fact_emit.specs.Numbers.{number_sized};
ghost use Rattle.fact_emit.specs.Places.{from_of, to_of};
ghost use Rattle.fact_kinds.specs.FlagPlaces.{bit_place_of, bit_places_of};
ghost use Rattle.fact_kinds.specs.Kinds.{flags_number_of, discriminant_number_of};
ghost use Rattle.fact_kinds.specs.Moved.{MovedBetween, MovedFrom};

use fact_emit::{
    Canonical, NumberSize, NumberTest, Sides, SourcePlace, TargetPlace, Writer, move_bits,
    move_number, move_tested,
};
use fact_entity::{TypeEnumIndex, TypeFlagsIndex};
use fact_types::{ComponentTypes, DiscriminantSize};
use fact_wasm::{OutOfMemory, Text};
use indexmap::IndexSet;
use std::alloc::{AllocError, Global};

/// The number that holds flags of so many names, at most 32.
pub fn flags_number(names: usize) -> NumberSize
    ensures { number_sized result ≡ flags_number_of names }
{
    if names <= 8 {
        NumberSize::Bits8
    } else if names <= 16 {
        NumberSize::Bits16
    } else {
        NumberSize::Bits32
    }
}

/// The number of a discriminant.
pub fn discriminant_number(size: DiscriminantSize) -> NumberSize
    ensures { number_sized result ≡ discriminant_number_of size }
{
    match size {
        DiscriminantSize::Size1 => NumberSize::Bits8,
        DiscriminantSize::Size2 => NumberSize::Bits16,
        DiscriminantSize::Size4 => NumberSize::Bits32,
    }
}

/// Moves flags, at most 32, each bit to the place of its name. Where the destination has the names in the same order, one mask leaves
/// those that have names.
pub fn move_flags(
    types: &ComponentTypes,
    w: &mut Writer,
    sides: Sides,
    from: TypeFlagsIndex,
    to: TypeFlagsIndex,
    source: SourcePlace<'_>,
    target: TargetPlace<'_>,
) -> Result<(), OutOfMemory>
    requires from_live { IsLive types.now (ty.Flags from) }
    requires to_live { IsLive types.now (ty.Flags to) }
    ensures { OnOk result (MovedBetween types.now (ty.Flags from) (ty.Flags to) sides (from_of sides.from source.entry) (to_of sides.to target.entry) w.old w.new) }
{
    types.reveal();
    let names = &types[from].names;
    let others = &types[to].names;
    let number = flags_number(names.len());
    if names.as_slice() == others.as_slice() {
        let canonical = Canonical::Low(names.len().min(32) as u32);
        move_number(w, sides, number, canonical, source, target)?;
    } else {
        let places = bit_places(w.alloc, names, others)?;
        if places.len() > 32 {
            return Err(AllocError);
        }
        move_bits(w, sides, number, &places, source, target)?;
    }
    Ok(())
}

/// The place of each of other names among some, where it is one of the first 32.
fn bit_places(
    alloc: Global,
    names: &IndexSet<Text>,
    others: &IndexSet<Text>,
) -> Result<Vec<Option<u32>>, OutOfMemory>
    ensures { IfOk result (λ places. places.items ≡ bit_places_of names.now.keys others.now.keys) }
{
    let mut places = Vec::new(alloc);
    for name in others.iter() {
        places.push(bit_place(names, name))?;
    }
    Ok(places)
}

/// The place of a name, where it is one of the first 32.
fn bit_place(names: &IndexSet<Text>, name: &Text) -> Option<u32>
    ensures { result ≡ bit_place_of names.now.keys name.now }
{
    match names.get_index_of(name) {
        Some(place) if place < 32 => Some(place as u32),
        _ => None,
    }
}

/// Moves a case without a payload, with a trap past the last one.
pub fn move_enum(
    types: &ComponentTypes,
    w: &mut Writer,
    sides: Sides,
    from: TypeEnumIndex,
    source: SourcePlace<'_>,
    target: TargetPlace<'_>,
) -> Result<(), OutOfMemory>
    requires { IsLive types.now (ty.Enum from) }
    ensures { OnOk result (MovedFrom types.now (ty.Enum from) sides (from_of sides.from source.entry) (to_of sides.to target.entry) w.old w.new) }
{
    types.reveal();
    let cases = types[from].names.len();
    let Some(size) = DiscriminantSize::from_count(cases) else {
        return Err(AllocError);
    };
    let test = NumberTest::CaseBelow(cases as u32);
    move_tested(w, sides, discriminant_number(size), test, source, target)?;
    Ok(())
}
