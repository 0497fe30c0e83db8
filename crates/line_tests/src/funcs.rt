//! Functions: their core signatures, as the canonical ABI gives them, and which of them hold handles; and core types. A side is `lower` or
//! `lift` with `wide` where its memory is one of 64 bits, `async` and `callback`; behind `start` or `return`, for the functions of an async
//! adapter that move values, stand both sides, each behind a comma.

ghost use Rattle.std.specs.Prelude.{◌≡◌, ◌<◌, All, length};
ghost use Rattle.fact_types.specs.Tables.{IsLive};

use crate::words::{first_of, number_of, word_of, yes_or_no};
use fact_builder::{ComponentTypesBuilder, SideSig, Signature};
use fact_entity::EntityRef;
use fact_plan_types::PlanTypes;
use fact_types::{InterfaceType, Lookup, TypeFuncIndex};
use std::alloc::AllocError;

/// The function of a place, if there is one.
fn func_of(funcs: &[TypeFuncIndex], word: &str) -> Option<TypeFuncIndex> {
    funcs.get(number_of(word) as usize).copied()
}

/// A side of a function in words.
fn side_of(ty: TypeFuncIndex, words: &str) -> SideSig
    ensures { result.ty ≡ ty }
{
    SideSig {
        ty,
        async_: words.contains("async"),
        callback: words.contains("callback"),
        memory64: words.contains("wide"),
    }
}

/// The core signature of a side in words, or of a function between two, which a comma parts, behind its own word.
fn signature_of(
    builder: &ComponentTypesBuilder,
    ty: TypeFuncIndex,
    words: &str,
) -> Result<Signature, AllocError>
    requires { ty.number < length builder.now.tables.functions }
{
    let (part, sides) = words.split_once(", ").unwrap_or(("", words));
    let (lower, lift) = sides.split_once(", ").unwrap_or((sides, ""));
    let (lower, lift) = (side_of(ty, lower), side_of(ty, lift));
    match part {
        "start" => builder.async_start_signature(&lower, &lift),
        "return" => builder.async_return_signature(&lower, &lift),
        _ if words.starts_with("lower") => builder.lower_signature(&lower),
        _ => builder.lift_signature(&lower),
    }
}

/// Adds the parameters and results of a core signature, and whether the function holds a handle.
fn add_signature_of(
    page: &mut String,
    builder: &ComponentTypesBuilder,
    ty: TypeFuncIndex,
    words: &str,
) -> Result<(), AllocError> {
    if builder.component_types().get(ty).is_none() {
        return page.push_str("no such function");
    }
    let signature = signature_of(builder, ty, words)?;
    let handle = yes_or_no(builder.func_contains_any_handle(ty));
    let (params, results) = (signature.params.as_slice(), signature.results.as_slice());
    write!(page, "{params:?} {results:?} {handle}")
}

/// Adds the core signature of a side of a function, or of a function between two sides.
pub fn add_signature(page: &mut String, made: &PlanTypes, line: &str) -> Result<(), AllocError> {
    let (func, words) = first_of(line);
    match func_of(made.funcs.as_slice(), func) {
        Some(ty) => add_signature_of(page, &made.builder, ty, words),
        None => page.push_str("no such function"),
    }
}

/// Adds whether two functions have one index.
pub fn add_one_func(
    page: &mut String,
    funcs: &[TypeFuncIndex],
    line: &str,
) -> Result<(), AllocError> {
    let (first, second) = word_of(line);
    page.push_str(match (func_of(funcs, first), func_of(funcs, second)) {
        (Some(first), Some(second)) => yes_or_no(first == second),
        _ => "no such function",
    })
}

/// Adds the core types that stand for types in a memory, `wide` one of 64 bits, if there may be so many.
pub fn add_flattened(
    page: &mut String,
    builder: &ComponentTypesBuilder,
    types: &[InterfaceType],
    words: &str,
) -> Result<(), AllocError>
    requires { All (IsLive builder.now.tables) types.now }
{
    let (memory, most) = word_of(words);
    match builder.flatten_types(memory == "wide", number_of(most) as usize, types)? {
        Some(values) => write!(page, "{:?}", values.as_slice()),
        None => page.push_str("none"),
    }
}

/// Adds the index of a core type, how many there are, and the number of its parameters.
pub fn add_core_type(page: &mut String, made: &PlanTypes, word: &str) -> Result<(), AllocError> {
    let Some(index) = made.core_types.get(number_of(word) as usize).copied() else {
        return page.push_str("no such core type");
    };
    let types = made.builder.module_types_builder();
    match types.get(index) {
        Some(ty) => write!(
            page,
            "{} {} {}",
            index.as_u32(),
            types.len(),
            ty.params.len()
        ),
        None => page.push_str("no such core type"),
    }
}

/// Adds how many tables of handles there are.
pub fn add_tables(page: &mut String, builder: &ComponentTypesBuilder) -> Result<(), AllocError> {
    write!(
        page,
        "resource {} future {} stream {} error-context {}",
        builder.num_resource_tables(),
        builder.num_future_tables(),
        builder.num_stream_tables(),
        builder.num_error_context_tables()
    )
}
