//! The members of records and tuples: where each of them stands in a source, and which of them goes to which of a destination.

ghost use Rattle.std.specs.Prelude.{IfOk, ◌≡◌, ◌∷◌, [], List, ℕ, map};
ghost use Rattle.fact_types.specs.declared.interface.InterfaceType.TheVariants as ty;
ghost use Rattle.fact_types.specs.declared.extents.MemoryWidth.TheVariants.{Memory32, Memory64};
ghost use Rattle.fact_types.specs.Fields.{field_of, Finds};
ghost use Rattle.fact_types.specs.Fits.{FieldFits};
ghost use Rattle.fact_types.specs.Flat.{add_flat};
ghost use Rattle.fact_types.specs.Layout.{extent};
ghost use Rattle.fact_types.specs.Shapes.{Members, s_node, k_record, k_tuple};
ghost use Rattle.fact_types.specs.Tables.{IsLive, HasShape};
ghost use Rattle.fact_kinds.specs.MemberPairs.{place_named, place_behind, end_behind, pair_named, ArePairsOf};

use fact_entity::{TypeRecordIndex, TypeTupleIndex};
use fact_types::{CanonicalAbiInfo, ComponentTypes, FieldPlace, InterfaceType, RecordField};
use fact_wasm::OutOfMemory;
use indexmap::IndexMap;
use std::alloc::Global;

/// What the next member stands behind: so many flat types, `None` above 16, and so many bytes in either memory.
#[derive(Clone, Copy)]
struct MembersEnd {
    pub flat_place: Option<u8>,
    pub bytes32: u32,
    pub bytes64: u32,
}

/// A member of a destination: its type, and where the member of a source stands that is moved to it, if there is one.
#[derive(Clone, Copy)]
pub struct MemberPair {
    pub found: Option<FieldPlace>,
    pub ty: InterfaceType,
}

/// The flat types of two values, one behind the other, or `None` above 16.
fn add_flat_places(first: Option<u8>, second: Option<u8>) -> Option<u8>
    ensures { result ≡ add_flat first second }
{
    match (first, second) {
        (Some(a), Some(b)) if a <= 16 && b <= 16 - a => Some(a + b),
        _ => None,
    }
}

impl MembersEnd {
    /// In front of all members.
    fn start() -> MembersEnd
        ensures { result ≡ record { flat_place = Some 0; bytes32 = 0; bytes64 = 0 } }
    {
        MembersEnd {
            flat_place: Some(0),
            bytes32: 0,
            bytes64: 0,
        }
    }

    /// Takes the place of a member of a type behind the others.
    fn take(&mut self, ty: InterfaceType, abi: &CanonicalAbiInfo) -> FieldPlace
        requires fits32 { FieldFits (extent Memory32 abi.now) self.old.bytes32 }
        requires fits64 { FieldFits (extent Memory64 abi.now) self.old.bytes64 }
        ensures place { result ≡ place_behind self.old abi.now ty }
        ensures end { self.new ≡ end_behind self.old abi.now }
    {
        let flat_place = self.flat_place;
        self.flat_place = add_flat_places(flat_place, abi.flat_count);
        let place32 = abi.next_field32(&mut self.bytes32);
        let place64 = abi.next_field64(&mut self.bytes64);
        FieldPlace {
            ty,
            flat_place,
            place32,
            place64,
        }
    }
}

/// The places of the fields of a record by their names; of fields with one name, that of the first.
fn places_by_name(
    alloc: Global,
    types: &ComponentTypes,
    i: TypeRecordIndex,
) -> Result<IndexMap<&str, FieldPlace>, OutOfMemory>
    requires { IsLive types.now (ty.Record i) }
    ensures { IfOk result (λ places. (ms : Members) → HasShape types.now (ty.Record i) (s_node k_record ms) → (x : List ℕ) → Finds types.now ms (place_named places x) (field_of x ms)) }
{
    types.reveal();
    let _whole = types.canonical_abi(&InterfaceType::Record(i));
    let fields = types[i].fields.as_slice();
    let mut places = IndexMap::with_capacity(alloc, fields.len())?;
    let mut end = MembersEnd::start();
    for field in fields {
        let place = end.take(field.ty, types.canonical_abi(&field.ty));
        let name = field.name.as_str();
        if !places.contains_key(name) {
            places.insert(name, place)?;
        }
    }
    Ok(places)
}

/// The fields of a destination, each with the place of its name.
fn pairs_by_name(
    alloc: Global,
    places: &IndexMap<&str, FieldPlace>,
    fields: &[RecordField],
) -> Result<Vec<MemberPair>, OutOfMemory>
    ensures { IfOk result (λ pairs. pairs.items ≡ map (pair_named (place_named places.now)) fields.now) }
{
    let mut pairs = Vec::with_capacity(alloc, fields.len())?;
    for field in fields {
        let found = places.get(field.name.as_str()).copied();
        pairs.push(MemberPair {
            found,
            ty: field.ty,
        })?;
    }
    Ok(pairs)
}

/// The fields of a record, each with the field of its name in another record.
pub fn pair_fields(
    alloc: Global,
    types: &ComponentTypes,
    from: TypeRecordIndex,
    to: TypeRecordIndex,
) -> Result<Vec<MemberPair>, OutOfMemory>
    requires from_live { IsLive types.now (ty.Record from) }
    requires to_live { IsLive types.now (ty.Record to) }
    ensures { IfOk result (λ pairs. ArePairsOf types.now (ty.Record from) (ty.Record to) k_record pairs.items) }
{
    types.reveal();
    let _source = types.canonical_abi(&InterfaceType::Record(from));
    let _whole = types.canonical_abi(&InterfaceType::Record(to));
    let places = places_by_name(alloc, types, from)?;
    let pairs = pairs_by_name(alloc, &places, types[to].fields.as_slice());
    drop(places);
    pairs
}

/// The members of a tuple, each with the member of its place in another tuple.
pub fn pair_members(
    alloc: Global,
    types: &ComponentTypes,
    from: TypeTupleIndex,
    to: TypeTupleIndex,
) -> Result<Vec<MemberPair>, OutOfMemory>
    requires from_live { IsLive types.now (ty.Tuple from) }
    requires to_live { IsLive types.now (ty.Tuple to) }
    ensures { IfOk result (λ pairs. ArePairsOf types.now (ty.Tuple from) (ty.Tuple to) k_tuple pairs.items) }
{
    types.reveal();
    let _source = types.canonical_abi(&InterfaceType::Tuple(from));
    let _whole = types.canonical_abi(&InterfaceType::Tuple(to));
    let sources = types[from].types.as_slice();
    let members = types[to].types.as_slice();
    let mut pairs = Vec::with_capacity(alloc, members.len())?;
    let mut end = MembersEnd::start();
    for (at, member) in members.iter().enumerate() {
        let found = match sources.get(at) {
            Some(source) => Some(end.take(*source, types.canonical_abi(source))),
            None => None,
        };
        pairs.push(MemberPair { found, ty: *member })?;
    }
    Ok(pairs)
}
