//! The layout of a plan's types (canonical ABI, "Alignment", "Element Size").

ghost use Rattle.std.specs.Prelude.{◌≡◌, ◌+◌, ◌∷◌, ◌++◌, IfOk, IfSome, List, is_some, map, string_bytes};
ghost use Rattle.std.specs.List.{flat_map, list_any};
ghost use Rattle.std.specs.Fmt.{decimal};
ghost use Rattle.fact_types.specs.Functions.{HaveShapes};
ghost use Rattle.fact_types.specs.Layout.{aligned, extent};
ghost use Rattle.fact_types.specs.Shapes.{Shape, layout_of, plain_layout};
ghost use Rattle.fact_types.specs.Signatures.{width};
ghost use Rattle.fact_plan_types.specs.PlanShapes.{word_type};
ghost use Rattle.fact_explain.specs.Layouts.{entry_line, shape_at, layout_line, member_layout, member_layouts, member_places, payload_place, places_from, places_text, extent_text, layout_text};
ghost use Rattle.fact_command.specs.ImportLines.{width_text};

use crate::members::{Member, members_of};
use fact_plan::{PlanRef, PlanType, PrimitiveValType};
use fact_plan_types::PlanTypes;
use fact_types::{CanonicalAbiInfo, VariantInfo};
use fact_wasm::OutOfMemory;
use std::alloc::{AllocError, Global};

/// How many bytes are taken, and of which number places are multiples.
fn extent_text(alloc: Global, size: u32, align: u32) -> Result<String, OutOfMemory>
    ensures { IfOk result (λ t. string_bytes t ≡ extent_text size align) }
{
    format!(in alloc; "{size} bytes at multiples of {align}")
}

/// How many bytes values of a layout take, and of which number their places are multiples.
pub(crate) fn layout_text(
    alloc: Global,
    wide: bool,
    abi: &CanonicalAbiInfo,
) -> Result<String, OutOfMemory>
    ensures { IfOk result (λ t. string_bytes t ≡ layout_text wide abi.now) }
{
    if wide {
        extent_text(alloc, abi.size64, abi.align64)
    } else {
        extent_text(alloc, abi.size32, abi.align32)
    }
}

/// The layout of a word.
fn word_layout(word: PrimitiveValType) -> CanonicalAbiInfo
    ensures { result ≡ plain_layout (word_type word) }
{
    match word {
        PrimitiveValType::Bool
        | PrimitiveValType::S8
        | PrimitiveValType::U8
        | PrimitiveValType::ErrorContext => CanonicalAbiInfo::SCALAR1,
        PrimitiveValType::S16 | PrimitiveValType::U16 => CanonicalAbiInfo::SCALAR2,
        PrimitiveValType::S64 | PrimitiveValType::U64 | PrimitiveValType::Float64 => {
            CanonicalAbiInfo::SCALAR8
        }
        PrimitiveValType::String => CanonicalAbiInfo::POINTER_PAIR,
        PrimitiveValType::S32
        | PrimitiveValType::U32
        | PrimitiveValType::Float32
        | PrimitiveValType::Char => CanonicalAbiInfo::SCALAR4,
    }
}

/// The layout of the entry at a place. One that is not live is a handle, since all others stand for shapes.
fn entry_layout(types: &PlanTypes, k: usize) -> CanonicalAbiInfo
    ensures { (ss : List Shape) → HaveShapes types.now.builder.tables types.now.types ss → result ≡ layout_of (shape_at ss k) }
{
    let Some(ty) = types.types.get(k) else {
        return CanonicalAbiInfo::SCALAR1;
    };
    if types.builder.component_types().is_live(*ty) {
        *types.builder.canonical_abi(ty)
    } else {
        CanonicalAbiInfo::SCALAR4
    }
}

/// The layout of a type of a member, where it has one.
fn member_layout(types: &PlanTypes, ty: Option<PlanRef>) -> Option<CanonicalAbiInfo>
    ensures { (ss : List Shape) → HaveShapes types.now.builder.tables types.now.types ss → result ≡ member_layout ss ty }
{
    match ty {
        Some(PlanRef::Word(word)) => Some(word_layout(word)),
        Some(PlanRef::Entry(k)) => Some(entry_layout(types, k as usize)),
        None => None,
    }
}

/// The layouts of members, in order.
fn member_layouts(
    alloc: Global,
    types: &PlanTypes,
    members: &[Member<'_>],
) -> Result<Vec<Option<CanonicalAbiInfo>>, OutOfMemory>
    ensures { IfOk result (λ ls. (ss : List Shape) → HaveShapes types.now.builder.tables types.now.types ss → ls.items ≡ member_layouts ss (map (λ m. m.ty) members.now)) }
{
    let mut layouts = Vec::new(alloc);
    for member in members {
        layouts.push(member_layout(types, member.ty))?;
    }
    Ok(layouts)
}

/// The place of a field behind an offset, which moves to its end; none where that is past 4,294,967,295.
fn next_place(wide: bool, abi: &CanonicalAbiInfo, end: &mut u32) -> Option<u32>
    ensures place { IfSome result (λ place. place ≡ aligned end.old (extent (width wide) abi.now).align) }
    ensures moved { IfSome result (λ place. end.new ≡ aligned end.old (extent (width wide) abi.now).align + (extent (width wide) abi.now).size) }
{
    if wide {
        if abi.next_field64_fits(*end) {
            return Some(abi.next_field64(end));
        }
    } else if abi.next_field32_fits(*end) {
        return Some(abi.next_field32(end));
    }
    None
}

/// The places of fields with these layouts. Where one is past 4,294,967,295, as none of a plan without faults is, it is answered as want of memory.
fn places_of(
    alloc: Global,
    wide: bool,
    layouts: &[Option<CanonicalAbiInfo>],
) -> Result<Vec<u32>, OutOfMemory>
    ensures { IfOk result (λ places. places.items ≡ places_from (width wide) 0 layouts.now) }
{
    let mut end = 0;
    let mut places = Vec::new(alloc);
    for layout in layouts {
        if let Some(abi) = layout {
            let Some(place) = next_place(wide, abi, &mut end) else {
                return Err(AllocError);
            };
            places.push(place)?;
        }
    }
    Ok(places)
}

/// Whether a case with one of these layouts has a payload.
fn has_payload(layouts: &[Option<CanonicalAbiInfo>]) -> bool
    ensures { result ≡ list_any is_some layouts.now }
{
    layouts.iter().any(|layout| layout.is_some())
}

/// The place of the payloads of cases with these layouts, where a case has one, with the same limit.
fn payload_place(
    alloc: Global,
    wide: bool,
    layouts: &[Option<CanonicalAbiInfo>],
) -> Result<Vec<u32>, OutOfMemory>
    ensures { IfOk result (λ places. places.items ≡ payload_place (width wide) layouts.now) }
{
    if !has_payload(layouts) {
        return Ok(Vec::new(alloc));
    }
    if !CanonicalAbiInfo::variant_fits(layouts) {
        return Err(AllocError);
    }
    let info = VariantInfo::new_static(layouts);
    let place = if wide {
        info.payload_offset64
    } else {
        info.payload_offset32
    };
    Ok(vec![in alloc; place]?)
}

/// The places of the members of an entry, whose layouts are these.
fn member_places(
    alloc: Global,
    wide: bool,
    entry: &PlanType,
    layouts: &[Option<CanonicalAbiInfo>],
) -> Result<Vec<u32>, OutOfMemory>
    ensures { IfOk result (λ places. places.items ≡ member_places (width wide) entry.now layouts.now) }
{
    match entry {
        PlanType::Record(_) | PlanType::Tuple(_) => places_of(alloc, wide, layouts),
        PlanType::Variant(_) | PlanType::Option(_) | PlanType::Result(_, _) => {
            payload_place(alloc, wide, layouts)
        }
        _ => Ok(Vec::new(alloc)),
    }
}

/// A text with numbers behind it, each behind a space.
fn with_numbers(alloc: Global, mut text: String, numbers: &[u32]) -> Result<String, OutOfMemory>
    ensures { IfOk result (λ t. string_bytes t ≡ string_bytes text ++ flat_map (λ n. 32 ∷ decimal n) numbers.now) }
{
    for number in numbers {
        let more = format!(in alloc; " {number}")?;
        text.push_str(&more)?;
    }
    Ok(text)
}

fn places_text(alloc: Global, places: &[u32]) -> Result<String, OutOfMemory>
    ensures { IfOk result (λ t. string_bytes t ≡ places_text places.now) }
{
    let [first, rest @ ..] = places else {
        return Ok(String::new(alloc));
    };
    let text = format!(in alloc; "; members at {first}")?;
    with_numbers(alloc, text, rest)
}

/// How many bits addresses have.
pub(crate) fn width_text(wide: bool) -> &'static str
    ensures { result.now ≡ width_text wide }
{
    if wide { "64" } else { "32" }
}

/// The line of a layout and of places in memories of one width.
fn layout_line(
    alloc: Global,
    wide: bool,
    abi: &CanonicalAbiInfo,
    places: &[u32],
) -> Result<String, OutOfMemory>
    ensures { IfOk result (λ t. string_bytes t ≡ layout_line wide abi.now places.now) }
{
    let width = width_text(wide);
    let room = layout_text(alloc, wide, abi)?;
    let places = places_text(alloc, places)?;
    format!(in alloc; "    with addresses of {width} bits: {room}{places}\n")
}

/// The line of the layout of the entry at a place of a plan's types, in memories of one width: its size and its alignment in bytes, and where its
/// members begin.
pub(crate) fn entry_line(
    alloc: Global,
    types: &PlanTypes,
    k: usize,
    entry: &PlanType,
    wide: bool,
) -> Result<String, OutOfMemory>
    ensures { IfOk result (λ t. (ss : List Shape) → HaveShapes types.now.builder.tables types.now.types ss → string_bytes t ≡ entry_line wide ss k entry.now) }
{
    let members = members_of(alloc, entry)?;
    let layouts = member_layouts(alloc, types, members.as_slice())?;
    let places = member_places(alloc, wide, entry, layouts.as_slice())?;
    let abi = entry_layout(types, k);
    layout_line(alloc, wide, &abi, places.as_slice())
}
