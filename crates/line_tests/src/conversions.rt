//! What the types of a source are converted to. The head of a block is `source`, the number of the instance that is set, or `-`, and the
//! entries of the source (`sources`). Its lines ask, of one builder:
//!
//!     convert E                   what an import or export of a type becomes, or why it is refused
//!     any E                       the same of a type that is made known
//!     item E | NAME | NAME        the same of an import or export of the name of an interface, and of a name outside
//!     type N                      what a defined type becomes, as `known` and `layout` tell it
//!     func N                      what a function type becomes, whether it holds a handle, and how its parameters are laid out
//!     concrete E, abstract E      the names on the path to the last resource that is registered, as resource 3, or as abstract
//!                                 resource 9, and whether the first list is there then
//!     table N                     the table of a resource
//!     list-of N                   the list of a list that was made, added to the builder by a user's own call, as `known` and `layout` tell it
//!     counts                      how many tables of handles there are, and how many core types
//!     tuple N, instance N, component N    what an entry that was made has
//!     walk E N | E N, own-table N         what is told of resources apart from the builder: `walked`
//!     finish                              how a builder ends: `finished`

ghost use Rattle.std.specs.Prelude.{◌≡◌, ◌<◌, [], IfOk, length};
ghost use Rattle.fact_types.specs.Tables.{IsLive};
ghost use Rattle.fact_convert.specs.Conversion.{IsReadyFor};

use crate::finished::add_finished;
use crate::live_source::{is_live_any, is_live_entity};
use crate::sources::{SOURCE, any_of, entity_of, is_filled};
use crate::told_defs::{add_counts, add_def, add_entry, add_params, add_table};
use crate::types::{add_known, add_layout};
use crate::walked::{add_own_table, add_walked};
use crate::words::{begins_answer, first_of, small_number_of, word_of, yes_or_no};
use fact_builder::{ComponentTypesBuilder, make_list};
use fact_convert::{BuildError, Conversions};
use fact_entity::{
    AbstractResourceIndex, EntityRef, PushError, ResourceId, ResourceIndex,
    RuntimeComponentInstanceIndex,
};
use fact_source::{ComponentDefinedTypeId, ComponentFuncTypeId, SourceItem, SourceTypes};
use fact_types::{ComponentTypes, InterfaceType, Lookup, TypeDef, TypeListIndex};
use fact_wasm::{Seq, Text};
use std::alloc::{AllocError, Global};

/// Adds what was made, or why it was refused.
fn add_made(page: &mut String, made: Result<TypeDef, BuildError>) -> Result<(), AllocError> {
    match made {
        Ok(made) => add_def(page, &made),
        Err(refusal) => write!(page, "{refusal}"),
    }
}

fn add_converted(
    page: &mut String,
    types: &SourceTypes,
    builder: &mut ComponentTypesBuilder,
    word: &str,
) -> Result<(), AllocError>
    requires ready { IsReadyFor types.now builder.old }
    ensures ready { IsReadyFor types.now builder.new }
{
    let Some(ty) = entity_of(word) else {
        return page.push_str("no such entry");
    };
    if !is_live_entity(types, &ty) {
        return page.push_str("no such entry");
    }
    add_made(page, builder.convert_component_entity_type(types, ty))
}

fn add_any(
    page: &mut String,
    types: &SourceTypes,
    builder: &mut ComponentTypesBuilder,
    word: &str,
) -> Result<(), AllocError>
    requires ready { IsReadyFor types.now builder.old }
    ensures ready { IsReadyFor types.now builder.new }
{
    let Some(id) = any_of(word) else {
        return page.push_str("no such entry");
    };
    if !is_live_any(types, id) {
        return page.push_str("no such entry");
    }
    add_made(page, builder.convert_type(types, id))
}

/// The import or export of a line.
fn item_of(alloc: Global, line: &str) -> Result<Option<SourceItem>, AllocError> {
    let (word, names) = first_of(line);
    let (interface, outside) = first_of(names);
    let Some(ty) = entity_of(word) else {
        return Ok(None);
    };
    Ok(Some(SourceItem {
        ty,
        implements: Some(Text::from_str(alloc, interface)?),
        external_id: Some(Text::from_str(alloc, outside)?),
    }))
}

/// Adds a name that is said of an import or export.
fn add_said(page: &mut String, name: &Option<Text>) -> Result<(), AllocError> {
    match name {
        Some(name) => write!(page, "{} ", name.as_str()),
        None => page.push_str("- "),
    }
}

/// Adds what an import or export becomes, behind the names that are said of it.
fn add_converted_item(
    page: &mut String,
    types: &SourceTypes,
    builder: &mut ComponentTypesBuilder,
    item: &SourceItem,
) -> Result<(), AllocError>
    requires ready { IsReadyFor types.now builder.old }
    ensures ready { IsReadyFor types.now builder.new }
{
    if !is_live_entity(types, &item.ty) {
        return page.push_str("no such entry");
    }
    match builder.convert_component_item(types, item) {
        Ok(made) => {
            add_said(page, &made.extern_data.implements)?;
            add_said(page, &made.extern_data.external_id)?;
            add_def(page, &made.ty)
        }
        Err(refusal) => write!(page, "{refusal}"),
    }
}

fn add_item(
    page: &mut String,
    alloc: Global,
    types: &SourceTypes,
    builder: &mut ComponentTypesBuilder,
    line: &str,
) -> Result<(), AllocError>
    requires ready { IsReadyFor types.now builder.old }
    ensures ready { IsReadyFor types.now builder.new }
{
    let Some(item) = item_of(alloc, line)? else {
        return page.push_str("no such entry");
    };
    let added = add_converted_item(page, types, builder, &item);
    drop(item);
    added
}

fn add_type(
    page: &mut String,
    alloc: Global,
    types: &SourceTypes,
    builder: &mut ComponentTypesBuilder,
    word: &str,
) -> Result<(), AllocError>
    requires ready { IsReadyFor types.now builder.old }
    ensures ready { IsReadyFor types.now builder.new }
{
    let id = ComponentDefinedTypeId::from_u32(small_number_of(word));
    if types.get_defined(id).is_none() {
        return page.push_str("no such entry");
    }
    match builder.defined_type(types, id) {
        Ok(ty) => {
            add_known(page, builder, &ty)?;
            page.push(' ')?;
            add_layout(page, alloc, builder, &ty)
        }
        Err(refusal) => write!(page, "{refusal}"),
    }
}

fn add_func(
    page: &mut String,
    types: &SourceTypes,
    builder: &mut ComponentTypesBuilder,
    word: &str,
) -> Result<(), AllocError>
    requires ready { IsReadyFor types.now builder.old }
    ensures ready { IsReadyFor types.now builder.new }
{
    let id = ComponentFuncTypeId::from_u32(small_number_of(word));
    if types.get_func(id).is_none() {
        return page.push_str("no such entry");
    }
    match builder.convert_component_func_type(types, id) {
        Ok(func) => {
            let handle = builder.func_contains_any_handle(func);
            write!(page, "{} {} ", func.as_u32(), yes_or_no(handle))?;
            add_params(page, builder.component_types(), func)
        }
        Err(refusal) => write!(page, "{refusal}"),
    }
}

fn add_concrete(
    page: &mut String,
    alloc: Global,
    types: &SourceTypes,
    builder: &mut ComponentTypesBuilder,
    word: &str,
) -> Result<(), AllocError>
    requires ready { IsReadyFor types.now builder.old }
    ensures ready { IsReadyFor types.now builder.new }
{
    let Some(ty) = entity_of(word) else {
        return page.push_str("no such entry");
    };
    let mut path_and_table = (0, false);
    let mut register = |path: &[Text], tables: &ComponentTypes| {
        path_and_table = (path.len(), tables.get(TypeListIndex::from_u32(0)).is_some());
        ResourceIndex::from_u32(3)
    };
    let mut path = Seq::new(alloc);
    let walked = builder.register_component_entity_type(types, ty, &mut path, &mut register);
    drop(path);
    walked?;
    write!(page, "{} {}", path_and_table.0, yes_or_no(path_and_table.1))
}

fn add_abstract(
    page: &mut String,
    alloc: Global,
    types: &SourceTypes,
    builder: &mut ComponentTypesBuilder,
    word: &str,
) -> Result<(), AllocError>
    requires ready { IsReadyFor types.now builder.old }
    ensures ready { IsReadyFor types.now builder.new }
{
    let Some(ty) = entity_of(word) else {
        return page.push_str("no such entry");
    };
    let mut path_and_table = (0, false);
    let mut register = |path: &[Text], tables: &ComponentTypes| {
        path_and_table = (path.len(), tables.get(TypeListIndex::from_u32(0)).is_some());
        AbstractResourceIndex::from_u32(9)
    };
    let mut path = Seq::new(alloc);
    let walked = builder.register_abstract_component_entity_type(
        types,
        ty,
        &mut path,
        &mut register,
    );
    drop(path);
    walked?;
    write!(page, "{} {}", path_and_table.0, yes_or_no(path_and_table.1))
}

/// Adds the table of a resource.
fn add_table_of(
    page: &mut String,
    types: &SourceTypes,
    builder: &mut ComponentTypesBuilder,
    word: &str,
) -> Result<(), AllocError>
    requires ready { IsReadyFor types.now builder.old }
    ensures ready { IsReadyFor types.now builder.new }
{
    match builder.resource_id(ResourceId::from_u32(small_number_of(word))) {
        Ok(table) => add_table(page, builder.component_types(), table),
        Err(refusal) => write!(page, "{refusal}"),
    }
}

/// The list of a list type, made as a user of the builder makes types between two conversions.
fn list_of(
    types: &SourceTypes,
    builder: &mut ComponentTypesBuilder,
    element: TypeListIndex,
) -> Result<InterfaceType, PushError>
    requires ready { IsReadyFor types.now builder.old }
    requires live { element.number < length builder.old.tables.lists }
    ensures ready { IsReadyFor types.now builder.new }
    ensures live { IfOk result (IsLive builder.new.tables) }
{
    make_list(builder, InterfaceType::List(element))
}

/// Adds the list of a list type.
fn add_list_of(
    page: &mut String,
    alloc: Global,
    types: &SourceTypes,
    builder: &mut ComponentTypesBuilder,
    word: &str,
) -> Result<(), AllocError>
    requires ready { IsReadyFor types.now builder.old }
    ensures ready { IsReadyFor types.now builder.new }
{
    let element = TypeListIndex::from_u32(small_number_of(word));
    if builder.component_types().get(element).is_none() {
        return page.push_str("no such entry");
    }
    match list_of(types, builder, element) {
        Ok(ty) => {
            add_known(page, builder, &ty)?;
            page.push(' ')?;
            add_layout(page, alloc, builder, &ty)
        }
        Err(refusal) => {
            let refusal = BuildError::from(refusal);
            write!(page, "{refusal}")
        }
    }
}

/// Adds what comes of a line.
fn add_came(
    page: &mut String,
    alloc: Global,
    types: &SourceTypes,
    builder: &mut ComponentTypesBuilder,
    line: &str,
) -> Result<(), AllocError>
    requires ready { IsReadyFor types.now builder.old }
    ensures ready { IsReadyFor types.now builder.new }
{
    let (kind, rest) = word_of(line);
    match kind {
        "convert" => add_converted(page, types, builder, rest),
        "any" => add_any(page, types, builder, rest),
        "item" => add_item(page, alloc, types, builder, rest),
        "type" => add_type(page, alloc, types, builder, rest),
        "func" => add_func(page, types, builder, rest),
        "concrete" => add_concrete(page, alloc, types, builder, rest),
        "abstract" => add_abstract(page, alloc, types, builder, rest),
        "table" => add_table_of(page, types, builder, rest),
        "list-of" => add_list_of(page, alloc, types, builder, rest),
        "walk" => add_walked(page, alloc, types, rest),
        "own-table" => add_own_table(page, alloc, rest),
        "finish" => add_finished(page, alloc),
        "counts" => add_counts(page, builder),
        _ => add_entry(page, builder.component_types(), kind, small_number_of(rest)),
    }
}

/// Adds the answers to lines.
fn add_lines(
    page: &mut String,
    alloc: Global,
    name: &str,
    types: &SourceTypes,
    builder: &mut ComponentTypesBuilder,
    lines: &str,
) -> Result<(), AllocError>
    requires ready { IsReadyFor types.now builder.old }
{
    for (number, line) in lines.lines().enumerate() {
        if begins_answer(page, name, number, line)? {
            add_came(page, alloc, types, builder, line)?;
        }
        page.push('\n')?;
    }
    Ok(())
}

/// A builder in which the instance of a word is set, or none.
fn builder_of(alloc: Global, word: &str) -> ComponentTypesBuilder
    ensures source { result.source ≡ 7 }
    ensures none_kept { result.resources.tables ≡ [] }
{
    let mut builder = ComponentTypesBuilder::new(alloc, SOURCE);
    if let Ok(instance) = word.parse::<u32>() {
        let resources = builder.resources_mut();
        resources.set_current_instance(RuntimeComponentInstanceIndex::from_u32(instance));
    }
    builder
}

/// Adds the answers to lines, where the entries make a source.
fn add_filled(
    page: &mut String,
    alloc: Global,
    block: (&str, &str, &str),
    types: &mut SourceTypes,
    builder: &mut ComponentTypesBuilder,
) -> Result<(), AllocError>
    requires source { builder.old.source ≡ 7 }
    requires none_kept { builder.old.resources.tables ≡ [] }
{
    let (name, entries, lines) = block;
    if !is_filled(alloc, types, entries) {
        return writeln!(page, "{name}: no such source");
    }
    add_lines(page, alloc, name, types, builder, lines)
}

/// Adds the answers to the lines of a block of a source.
pub fn add_lines_of_source(
    page: &mut String,
    alloc: Global,
    name: &str,
    words: &str,
    lines: &str,
) -> Result<(), AllocError> {
    let (instance, entries) = word_of(words);
    let mut types = SourceTypes::new(alloc, SOURCE);
    let mut builder = builder_of(alloc, instance);
    let block = (name, entries, lines);
    let added = add_filled(page, alloc, block, &mut types, &mut builder);
    drop(builder);
    drop(types);
    added
}
