//! Types: how they are laid out in memory and in core values, what is inside of them, and what is known of them.

ghost use Rattle.fact_types.specs.Tables.{IsLive};

use crate::words::yes_or_no;
use fact_builder::ComponentTypesBuilder;
use fact_types::{
    CanonicalAbiInfo, FieldPlace, FlatType, FlatTypes, InterfaceType, Lookup, TypeMap, VariantInfo,
};
use fact_wasm::{Text, ValType};
use std::alloc::{AllocError, Global};

/// The type that a word of a plan names.
pub fn word_type(word: &str) -> Option<InterfaceType> {
    match word {
        "bool" => Some(InterfaceType::Bool),
        "s8" => Some(InterfaceType::S8),
        "u8" => Some(InterfaceType::U8),
        "s16" => Some(InterfaceType::S16),
        "u16" => Some(InterfaceType::U16),
        "s32" => Some(InterfaceType::S32),
        "u32" => Some(InterfaceType::U32),
        "s64" => Some(InterfaceType::S64),
        "u64" => Some(InterfaceType::U64),
        "f32" => Some(InterfaceType::Float32),
        "f64" => Some(InterfaceType::Float64),
        "char" => Some(InterfaceType::Char),
        "string" => Some(InterfaceType::String),
        _ => None,
    }
}

/// The type that a word of a line names, a number one of these.
fn type_of(types: &[InterfaceType], word: &str) -> Option<InterfaceType> {
    match word.parse::<usize>() {
        Ok(place) => types.get(place).copied(),
        Err(_) => word_type(word),
    }
}

/// The types that words of a line name, numbers those of these.
pub fn types_of(
    alloc: Global,
    types: &[InterfaceType],
    words: &str,
) -> Result<Vec<InterfaceType>, AllocError> {
    let mut named = Vec::new(alloc);
    for word in words.split_whitespace() {
        if let Some(ty) = type_of(types, word) {
            named.push(ty)?;
        }
    }
    Ok(named)
}

/// Adds a layout.
pub fn add_abi(page: &mut String, abi: &CanonicalAbiInfo) -> Result<(), AllocError> {
    write!(
        page,
        "{} {} {} {} {:?}",
        abi.size32, abi.align32, abi.size64, abi.align64, abi.flat_count
    )
}

/// The core types of flat types.
fn core_types(alloc: Global, flat: &[FlatType]) -> Result<Vec<ValType>, AllocError> {
    let mut types = Vec::new(alloc);
    for ty in flat {
        types.push(ValType::from(*ty))?;
    }
    Ok(types)
}

/// Adds the core types in both kinds of memories.
fn add_flat(page: &mut String, alloc: Global, flat: &FlatTypes<'_>) -> Result<(), AllocError> {
    let memory32 = core_types(alloc, flat.memory32)?;
    let memory64 = core_types(alloc, flat.memory64)?;
    write!(page, " {memory32:?} {memory64:?}")
}

/// Adds how a type is laid out, and its core types, of which there are 16 at most.
pub fn add_layout(
    page: &mut String,
    alloc: Global,
    builder: &ComponentTypesBuilder,
    ty: &InterfaceType,
) -> Result<(), AllocError>
    requires { IsLive builder.now.tables ty.now }
{
    add_abi(page, builder.canonical_abi(ty))?;
    match builder.flat_types(ty) {
        Some(flat) => add_flat(page, alloc, &flat),
        None => page.push_str(" none"),
    }
}

/// The kind of a type, and its index in the table of this kind.
pub fn named(ty: &InterfaceType) -> (&'static str, u32) {
    match *ty {
        InterfaceType::Record(i) => ("record", i.number),
        InterfaceType::Variant(i) => ("variant", i.number),
        InterfaceType::List(i) => ("list", i.number),
        InterfaceType::Tuple(i) => ("tuple", i.number),
        InterfaceType::Map(i) => ("map", i.number),
        InterfaceType::Flags(i) => ("flags", i.number),
        InterfaceType::Enum(i) => ("enum", i.number),
        InterfaceType::Option(i) => ("option", i.number),
        InterfaceType::Result(i) => ("result", i.number),
        InterfaceType::Own(i) => ("own", i.number),
        InterfaceType::Borrow(i) => ("borrow", i.number),
        InterfaceType::Future(i) => ("future", i.number),
        InterfaceType::Stream(i) => ("stream", i.number),
        InterfaceType::ErrorContext(i) => ("error-context", i.number),
        InterfaceType::FixedLengthList(i) => ("fixed-list", i.number),
        _ => ("word", 0),
    }
}

/// Adds the kind and the index of a type, how deep it nests, and whether it holds a pointer with a length, and a borrow.
pub fn add_known(
    page: &mut String,
    builder: &ComponentTypesBuilder,
    ty: &InterfaceType,
) -> Result<(), AllocError>
    requires { IsLive builder.now.tables ty.now }
{
    let (kind, index) = named(ty);
    let nesting = builder.nesting(ty);
    let pointer = yes_or_no(builder.ty_contains_pointer_pair(ty));
    let borrow = yes_or_no(builder.ty_contains_borrow_resource(ty));
    write!(page, "{kind} {index} {nesting} {pointer} {borrow}")
}

/// Adds the size of the discriminant of cases, and the place of their payload in both kinds of memories.
pub fn add_info(page: &mut String, info: &VariantInfo) -> Result<(), AllocError> {
    let size = info.size.byte_size();
    let (offset32, offset64) = (info.payload_offset32, info.payload_offset64);
    write!(page, "{size} {offset32} {offset64}")
}

/// Adds how the entries of a map lie, and the place of the value in them.
fn add_entries(page: &mut String, map: &TypeMap) -> Result<(), AllocError> {
    add_abi(page, &map.entry_abi)?;
    let (offset32, offset64) = (map.value_offset32, map.value_offset64);
    write!(page, " {offset32} {offset64}")
}

/// How the cases of a type lie, if it has cases.
fn info_of(builder: &ComponentTypesBuilder, ty: &InterfaceType) -> Option<VariantInfo> {
    let types = builder.component_types();
    match *ty {
        InterfaceType::Option(i) => Some(types.get(i)?.info),
        InterfaceType::Result(i) => Some(types.get(i)?.info),
        InterfaceType::Variant(i) => Some(types.get(i)?.info),
        InterfaceType::Enum(i) => Some(types.get(i)?.info),
        _ => None,
    }
}

/// Adds how the entries of a map lie, or the cases of a type of cases.
pub fn add_inside(
    page: &mut String,
    builder: &ComponentTypesBuilder,
    ty: &InterfaceType,
) -> Result<(), AllocError> {
    if let InterfaceType::Map(i) = *ty {
        if let Some(map) = builder.component_types().get(i) {
            return add_entries(page, map);
        }
    }
    match info_of(builder, ty) {
        Some(info) => add_info(page, &info),
        None => page.push_str("nothing"),
    }
}

/// Adds the place of a field among the core values and in both kinds of memories, and how many fields there are.
fn add_field(page: &mut String, place: FieldPlace, count: usize) -> Result<(), AllocError> {
    let (flat_place, place32, place64) = (place.flat_place, place.place32, place.place64);
    write!(page, "{flat_place:?} {place32} {place64} of {count}")
}

/// Adds where a field of a record stands.
pub fn add_place(
    page: &mut String,
    alloc: Global,
    builder: &ComponentTypesBuilder,
    ty: &InterfaceType,
    name: &str,
) -> Result<(), AllocError> {
    let InterfaceType::Record(record) = *ty else {
        return page.push_str("no record");
    };
    let types = builder.component_types();
    if types.get(record).is_none() {
        return page.push_str("no record");
    }
    let name = Text::from_str(alloc, name)?;
    let place = types.find_field(record, &name);
    drop(name);
    match place {
        Some(place) => add_field(page, place, builder[record].fields.len()),
        None => page.push_str("none"),
    }
}
