//! The types that the head of a block makes.
//!
//! A head that is no plan is words, each of which makes a type of the one before it: `flags*N` and `enum*N` of the names `n0`, `n1` and so
//! on; `list*N`, `option*N`, `future*N` and `stream*N`, so many within one another; `tuple*0`; or a word of plans. `takes*N` and `gives*N`
//! make functions of N parameters of that type, all of the name `x`, the second with a u32 as result; `core*32` the core type
//! `[i32] -> []`, and `core*64` `[i64] -> [i32]`.

ghost use Rattle.fact_types.specs.Tables.{IsLiveMember};

use crate::live::{are_live, is_live_payload};
use crate::types::word_type;
use crate::words::small_number_of;
use fact_builder::{
    ComponentTypesBuilder, make_enum, make_flags, make_list, make_option, make_tuple,
};
use fact_entity::{EntityRef, PushError, RuntimeComponentInstanceIndex};
use fact_plan::{FusePlan, plan_of, read_value};
use fact_plan_types::{FuseError, Place, PlanTypes};
use fact_types::{
    InterfaceType, Lookup, TypeFunc, TypeFuncIndex, TypeFuture, TypeFutureTable, TypeStream,
    TypeStreamTable, TypeTupleIndex,
};
use fact_wasm::{FuncType, Seq, Text, ValType};
use indexmap::IndexSet;
use std::alloc::{AllocError, Global};

/// So many names.
fn names_of(alloc: Global, count: u32) -> Result<IndexSet<Text>, AllocError> {
    let mut names = IndexSet::new(alloc);
    for number in 0..count {
        let name = format!(in alloc; "n{number}")?;
        names.insert(Text::from_string(name))?;
    }
    Ok(names)
}

/// A future of a payload, or of none, in the first instance.
fn future_of(
    builder: &mut ComponentTypesBuilder,
    payload: Option<InterfaceType>,
) -> Result<InterfaceType, PushError>
    requires { IsLiveMember builder.old.tables payload }
{
    let ty = builder.add_future_type(TypeFuture { payload })?;
    builder.reveal();
    let instance = RuntimeComponentInstanceIndex::from_u32(0);
    let table = builder.add_future_table_type(TypeFutureTable { ty, instance })?;
    Ok(InterfaceType::Future(table))
}

/// A stream of a payload, or of none, in the first instance.
fn stream_of(
    builder: &mut ComponentTypesBuilder,
    payload: Option<InterfaceType>,
) -> Result<InterfaceType, PushError>
    requires { IsLiveMember builder.old.tables payload }
{
    let ty = builder.add_stream_type(TypeStream { payload })?;
    builder.reveal();
    let instance = RuntimeComponentInstanceIndex::from_u32(0);
    let table = builder.add_stream_table_type(TypeStreamTable { ty, instance })?;
    Ok(InterfaceType::Stream(table))
}

/// A type of a kind around another one, where it may be so.
fn around(
    builder: &mut ComponentTypesBuilder,
    kind: &str,
    inner: Option<InterfaceType>,
) -> Result<Option<InterfaceType>, PushError> {
    if !is_live_payload(builder, &inner) {
        return Ok(None);
    }
    match (kind, inner) {
        ("future", _) => Ok(Some(future_of(builder, inner)?)),
        ("stream", _) => Ok(Some(stream_of(builder, inner)?)),
        ("list", Some(ty)) => Ok(Some(make_list(builder, ty)?)),
        ("option", Some(ty)) => Ok(Some(make_option(builder, ty)?)),
        _ => Ok(None),
    }
}

/// So many types of a kind around one another.
fn around_often(
    builder: &mut ComponentTypesBuilder,
    kind: &str,
    inner: Option<InterfaceType>,
    count: u32,
) -> Result<Option<InterfaceType>, PushError> {
    let mut around_so_far = inner;
    for _ in 0..count {
        around_so_far = around(builder, kind, around_so_far)?;
    }
    Ok(around_so_far)
}

/// The type of a word, around the one of the word before it.
fn next_of(
    alloc: Global,
    builder: &mut ComponentTypesBuilder,
    inner: Option<InterfaceType>,
    word: &str,
) -> Result<Option<InterfaceType>, PushError> {
    let Some((kind, count)) = word.split_once("*") else {
        return Ok(word_type(word));
    };
    let count = small_number_of(count);
    match kind {
        "flags" => Ok(Some(make_flags(builder, names_of(alloc, count)?)?)),
        "enum" => Ok(Some(make_enum(builder, names_of(alloc, count)?)?)),
        "tuple" => Ok(Some(make_tuple(alloc, builder, Seq::new(alloc))?)),
        _ => around_often(builder, kind, inner, count),
    }
}

/// The tuple of types, where they are such as the builder holds.
fn tuple_of(
    alloc: Global,
    builder: &mut ComponentTypesBuilder,
    types: &[InterfaceType],
) -> Result<Option<TypeTupleIndex>, PushError> {
    if !are_live(builder, types) {
        return Ok(None);
    }
    let types = Seq::from_vec(Vec::from_slice(alloc, types)?);
    match make_tuple(alloc, builder, types)? {
        InterfaceType::Tuple(index) => Ok(Some(index)),
        _ => Ok(None),
    }
}

/// One name for so many parameters.
fn param_names(alloc: Global, count: usize) -> Result<Seq<Text>, AllocError> {
    let mut names = Seq::new(alloc);
    for _ in 0..count {
        names.push(Text::from_str(alloc, "x")?)?;
    }
    Ok(names)
}

/// A function whose parameters have one name.
fn func_of(
    alloc: Global,
    builder: &mut ComponentTypesBuilder,
    takes: &[InterfaceType],
    gives: &[InterfaceType],
) -> Result<Option<TypeFuncIndex>, PushError> {
    let params = tuple_of(alloc, builder, takes)?;
    let results = tuple_of(alloc, builder, gives)?;
    let (Some(params), Some(results)) = (params, results) else {
        return Ok(None);
    };
    let types = builder.component_types();
    if types.get(params).is_none() || types.get(results).is_none() {
        return Ok(None);
    }
    let func = TypeFunc {
        async_: false,
        param_names: param_names(alloc, takes.len())?,
        params,
        results,
    };
    Ok(Some(builder.add_func_type(func)?))
}

/// Adds a function of so many parameters of a type.
fn add_func(
    alloc: Global,
    made: &mut PlanTypes,
    ty: InterfaceType,
    count: u32,
    gives: &[InterfaceType],
) -> Result<(), PushError> {
    let mut takes = Vec::new(alloc);
    takes.resize(count as usize, ty)?;
    if let Some(func) = func_of(alloc, &mut made.builder, takes.as_slice(), gives)? {
        made.funcs.push(func)?;
    }
    Ok(())
}

/// Adds one of the two core types.
fn add_core_type(alloc: Global, made: &mut PlanTypes, width: &str) -> Result<(), PushError> {
    let ty = if width == "32" {
        FuncType::from_slices(alloc, &[ValType::I32], &[])?
    } else {
        FuncType::from_slices(alloc, &[ValType::I64], &[ValType::I32])?
    };
    let index = made.builder.module_types_builder_mut().intern(ty)?;
    made.core_types.push(index)?;
    Ok(())
}

/// Adds what a word makes, and answers the type that it leaves for the next one.
fn add_word(
    alloc: Global,
    made: &mut PlanTypes,
    last: Option<InterfaceType>,
    word: &str,
) -> Result<Option<InterfaceType>, PushError> {
    let (kind, count) = word.split_once("*").unwrap_or((word, ""));
    match (kind, last) {
        ("takes", Some(ty)) => {
            add_func(alloc, made, ty, small_number_of(count), &[])?;
            return Ok(last);
        }
        ("gives", Some(ty)) => {
            let count = small_number_of(count);
            add_func(alloc, made, ty, count, &[InterfaceType::U32])?;
            return Ok(last);
        }
        ("core", _) => {
            add_core_type(alloc, made, count)?;
            return Ok(last);
        }
        _ => (),
    }
    let next = next_of(alloc, &mut made.builder, last, word)?;
    if let Some(ty) = next {
        made.types.push(ty)?;
    }
    Ok(next)
}

/// Adds what words make.
fn add_words(alloc: Global, made: &mut PlanTypes, words: &str) -> Result<(), PushError> {
    let mut last = None;
    for word in words.split_whitespace() {
        last = add_word(alloc, made, last, word)?;
    }
    Ok(())
}

/// What words make in a new builder.
fn made_of_words(alloc: Global, words: &str) -> Result<PlanTypes, FuseError> {
    let mut plan_types = PlanTypes {
        builder: ComponentTypesBuilder::new(alloc, 0),
        types: Seq::new(alloc),
        funcs: Seq::new(alloc),
        core_types: Seq::new(alloc),
    };
    match add_words(alloc, &mut plan_types, words) {
        Ok(()) => Ok(plan_types),
        Err(error) => {
            // A call that drops the types has a short proof, the end of their scope a long one.
            drop(plan_types);
            Err(refusal_of(error))
        }
    }
}

/// The refusal of a type that was not made.
fn refusal_of(error: PushError) -> FuseError {
    match error {
        PushError::TooLarge => FuseError::TooLarge(Place::TypeEntry(0)),
        PushError::OutOfMemory => FuseError::OutOfMemory,
    }
}

/// The types of a plan, or why it is refused.
fn made_of_plan(alloc: Global, plan: FusePlan) -> Result<PlanTypes, FuseError> {
    let plan_types = PlanTypes::new(alloc, &plan);
    end_plan(Some(plan));
    plan_types
}

/// Ends a plan, where there is one.
pub fn end_plan(plan: Option<FusePlan>) {
    drop(plan);
}

/// The plan in a text, if it is one.
pub fn plan_in(alloc: Global, text: &str) -> Result<Option<FusePlan>, AllocError> {
    let Some(value) = read_value(alloc, text.as_bytes())? else {
        return Ok(None);
    };
    let plan = plan_of(alloc, &value).ok();
    drop(value);
    Ok(plan)
}

/// The types of the plan that a head is, or of its words where it is none, or why they are refused.
pub fn made_of(alloc: Global, head: &str) -> Result<PlanTypes, FuseError> {
    match plan_in(alloc, head)? {
        Some(plan) => made_of_plan(alloc, plan),
        None => made_of_words(alloc, head),
    }
}
