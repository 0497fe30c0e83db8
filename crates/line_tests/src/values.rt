//! Values: those that stand in a memory (canonical ABI, "Loading"), those that core values stand for ("Flat Lifting"), and what they become
//! in a type that agrees with theirs. A side is the encoding of its strings and the width of its addresses, as `utf8:32`.

ghost use Rattle.fact_types.specs.Tables.{IsLive};

use crate::told_values::add_value;
use crate::words::{bytes_of, core_values_of, number_of, numbers_of, side_of, word_of};
use fact_abi::{Value, carry, lift, load};
use fact_builder::ComponentTypesBuilder;
use fact_types::InterfaceType;
use std::alloc::{AllocError, Global};

/// Adds a copy of a value, if there is one.
fn add_copied(page: &mut String, alloc: Global, value: Option<Value>) -> Result<(), AllocError> {
    let Some(value) = value else {
        return page.push_str("nothing");
    };
    let copy = value.try_clone();
    drop(value);
    let copy = copy?;
    let added = add_value(page, &copy);
    drop(copy);
    added
}

/// Adds the value of a type that stands at an address of a memory.
pub fn add_loaded(
    page: &mut String,
    alloc: Global,
    builder: &ComponentTypesBuilder,
    ty: &InterfaceType,
    words: &str,
) -> Result<(), AllocError>
    requires { IsLive builder.now.tables ty.now }
{
    let (side, words) = word_of(words);
    let (bytes, address) = word_of(words);
    let bytes = bytes_of(alloc, bytes);
    let types = builder.component_types();
    let value = load(
        alloc,
        types,
        ty,
        &side_of(side),
        bytes.as_slice(),
        number_of(address),
    );
    drop(bytes);
    add_copied(page, alloc, value?)
}

/// The value of a type that core values stand for, over a memory.
fn lifted(
    alloc: Global,
    builder: &ComponentTypesBuilder,
    ty: &InterfaceType,
    words: &str,
) -> Result<Option<Value>, AllocError>
    requires { IsLive builder.now.tables ty.now }
{
    let (side, words) = word_of(words);
    let (bytes, values) = word_of(words);
    let bytes = bytes_of(alloc, bytes);
    let values = core_values_of(alloc, values)?;
    let types = builder.component_types();
    let value = lift(
        alloc,
        types,
        ty,
        &side_of(side),
        bytes.as_slice(),
        values.as_slice(),
    );
    drop(bytes);
    drop(values);
    value
}

/// Adds the value of a type that core values stand for.
pub fn add_lifted(
    page: &mut String,
    alloc: Global,
    builder: &ComponentTypesBuilder,
    ty: &InterfaceType,
    words: &str,
) -> Result<(), AllocError>
    requires { IsLive builder.now.tables ty.now }
{
    add_copied(page, alloc, lifted(alloc, builder, ty, words)?)
}

/// What a value becomes between two types, its handles by these numbers.
fn carried(
    alloc: Global,
    builder: &ComponentTypesBuilder,
    from: &InterfaceType,
    to: &InterfaceType,
    value: &Value,
    numbers: &str,
) -> Result<Option<Value>, AllocError>
    requires from_live { IsLive builder.now.tables from.now }
    requires to_live { IsLive builder.now.tables to.now }
{
    let numbers = numbers_of(alloc, numbers)?;
    let types = builder.component_types();
    let carried = carry(alloc, types, from, to, value, numbers.as_slice());
    drop(numbers);
    carried
}

/// Adds what the value of a type that core values stand for becomes between a source type and a destination type.
pub fn add_carried(
    page: &mut String,
    alloc: Global,
    builder: &ComponentTypesBuilder,
    ty: &InterfaceType,
    from: &InterfaceType,
    to: &InterfaceType,
    words: &str,
) -> Result<(), AllocError>
    requires live { IsLive builder.now.tables ty.now }
    requires from_live { IsLive builder.now.tables from.now }
    requires to_live { IsLive builder.now.tables to.now }
{
    let (numbers, words) = word_of(words);
    let Some(value) = lifted(alloc, builder, ty, words)? else {
        return page.push_str("no value");
    };
    let carried = carried(alloc, builder, from, to, &value, numbers);
    drop(value);
    add_copied(page, alloc, carried?)
}
