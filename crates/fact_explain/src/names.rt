//! Types and functions in the manner of WIT (Component Model, "WIT").

use crate::members::{Member, members_of, of_fields, of_types};
use fact_plan::{FusePlan, PlanFunc, PlanRef, PlanType, PrimitiveValType};
use fact_wasm::{OutOfMemory, Seq, Text};
use std::alloc::Global;

/// How many bytes a type may take that is written out where it is named.
const MOST_WRITTEN_OUT: usize = 60;

fn word_text(word: PrimitiveValType) -> &'static str {
    match word {
        PrimitiveValType::Bool => "bool",
        PrimitiveValType::S8 => "s8",
        PrimitiveValType::U8 => "u8",
        PrimitiveValType::S16 => "s16",
        PrimitiveValType::U16 => "u16",
        PrimitiveValType::S32 => "s32",
        PrimitiveValType::U32 => "u32",
        PrimitiveValType::S64 => "s64",
        PrimitiveValType::U64 => "u64",
        PrimitiveValType::Float32 => "f32",
        PrimitiveValType::Float64 => "f64",
        PrimitiveValType::Char => "char",
        PrimitiveValType::String => "string",
        PrimitiveValType::ErrorContext => "error-context",
    }
}

/// The word of a kind of types.
pub(crate) fn kind_text(entry: &PlanType) -> &'static str {
    match entry {
        PlanType::Record(_) => "record",
        PlanType::Variant(_) => "variant",
        PlanType::Tuple(_) => "tuple",
        PlanType::List(_) | PlanType::FixedList(_, _) => "list",
        PlanType::Option(_) => "option",
        PlanType::Map(_, _) => "map",
        PlanType::Result(_, _) => "result",
        PlanType::Flags(_) => "flags",
        PlanType::Enum(_) => "enum",
        PlanType::Own(_) => "own",
        PlanType::Borrow(_) => "borrow",
        PlanType::Future(_, _) => "future",
        PlanType::Stream(_, _) => "stream",
        PlanType::ErrorContext(_) => "error-context",
    }
}

/// What a type is called, by what the entries so far are called.
pub(crate) fn type_text<'a>(names: &'a [Text], ty: PlanRef) -> &'a str {
    match ty {
        PlanRef::Word(word) => word_text(word),
        PlanRef::Entry(k) => match names.get(k as usize) {
            Some(name) => name.as_str(),
            None => "?",
        },
    }
}

/// Appends members, each with its type between two marks.
fn push_members(
    text: &mut String,
    names: &[Text],
    members: &[Member<'_>],
    open: &str,
    close: &str,
) -> Result<(), OutOfMemory> {
    for (place, member) in members.iter().enumerate() {
        if place > 0 {
            text.push_str(", ")?;
        }
        text.push_str(member.name)?;
        if let Some(ty) = member.ty {
            text.push_str(open)?;
            text.push_str(type_text(names, ty))?;
            text.push_str(close)?;
        }
    }
    Ok(())
}

/// What stands before a type that another one is made of: behind others, behind a success without a type, or as the first.
fn before_argument(is_later: bool, lacks_ok: bool) -> &'static str {
    match (is_later, lacks_ok) {
        (true, _) => ", ",
        (false, true) => "<_, ",
        (false, false) => "<",
    }
}

/// Appends the types that a type is made of, and a text behind them, where there is any.
fn push_arguments(
    text: &mut String,
    names: &[Text],
    members: &[Member<'_>],
    last: &str,
) -> Result<(), OutOfMemory> {
    let mut is_later = false;
    let mut lacks_ok = false;
    for member in members {
        if let Some(ty) = member.ty {
            text.push_str(before_argument(is_later, lacks_ok))?;
            text.push_str(type_text(names, ty))?;
            is_later = true;
        } else if member.name == "ok" {
            lacks_ok = true;
        }
    }
    if !last.is_empty() {
        text.push_str(before_argument(is_later, lacks_ok))?;
        text.push_str(last)?;
        is_later = true;
    }
    if is_later {
        text.push('>')?;
    }
    Ok(())
}

/// The number that a type has beside its members: the length of a list, or the table of a handle.
fn number_text(alloc: Global, entry: &PlanType) -> Result<String, OutOfMemory> {
    match entry {
        PlanType::FixedList(_, length) => format!(in alloc; "{length}"),
        PlanType::Own(table) | PlanType::Borrow(table) => format!(in alloc; "table-{table}"),
        _ => Ok(String::new(alloc)),
    }
}

/// Whether a type has members with names of their own, so that WIT gives it a name.
fn is_declared(entry: &PlanType) -> bool {
    matches!(
        entry,
        PlanType::Record(_) | PlanType::Variant(_) | PlanType::Flags(_) | PlanType::Enum(_)
    )
}

/// A type, by what the entries before it are called.
pub(crate) fn entry_text(
    alloc: Global,
    names: &[Text],
    entry: &PlanType,
) -> Result<String, OutOfMemory> {
    let mut text = String::from_str(alloc, kind_text(entry))?;
    let members = members_of(alloc, entry)?;
    if is_declared(entry) {
        let (open, close) = match entry {
            PlanType::Variant(_) => ("(", ")"),
            _ => (": ", ""),
        };
        text.push_str(" { ")?;
        push_members(&mut text, names, members.as_slice(), open, close)?;
        text.push_str(" }")?;
    } else {
        let number = number_text(alloc, entry)?;
        push_arguments(&mut text, names, members.as_slice(), number.as_str())?;
    }
    Ok(text)
}

/// What an entry is called: itself where that is short, and else by its place.
fn entry_name(
    alloc: Global,
    names: &[Text],
    k: usize,
    entry: &PlanType,
) -> Result<Text, OutOfMemory> {
    if !is_declared(entry) {
        let text = entry_text(alloc, names, entry)?;
        if text.len() <= MOST_WRITTEN_OUT {
            return Ok(Text::from_string(text));
        }
    }
    Ok(Text::from_string(format!(in alloc; "type-{k}")?))
}

/// What the types of a plan are called, in order.
pub(crate) fn names_of_types(alloc: Global, plan: &FusePlan) -> Result<Seq<Text>, OutOfMemory> {
    let mut names = Seq::new(alloc);
    for (k, entry) in plan.types.as_slice().iter().enumerate() {
        let name = entry_name(alloc, names.as_slice(), k, entry)?;
        names.push(name)?;
    }
    Ok(names)
}

/// A function type.
pub(crate) fn func_text(
    alloc: Global,
    names: &[Text],
    func: &PlanFunc,
) -> Result<String, OutOfMemory> {
    let begin = if func.async_ { "async func(" } else { "func(" };
    let mut text = String::from_str(alloc, begin)?;
    let params = of_fields(alloc, func.params.as_slice())?;
    push_members(&mut text, names, params.as_slice(), ": ", "")?;
    let results = of_types(alloc, func.results.as_slice())?;
    let (open, close) = match results.len() {
        0 => (")", ""),
        1 => (") -> ", ""),
        _ => (") -> (", ")"),
    };
    text.push_str(open)?;
    push_members(&mut text, names, results.as_slice(), "", "")?;
    text.push_str(close)?;
    Ok(text)
}
