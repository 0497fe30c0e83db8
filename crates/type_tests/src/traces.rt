//! Traces over the core function types that types name by index.

use fact_entity::{EntityRef, OutOfMemory, PushError};
use fact_types::{
    ComponentTypes, EngineOrModuleTypeIndex, EntityType, ModuleTypesBuilder, TypeModule, TypeTrace,
};
use fact_wasm::Text;
use std::alloc::Global;

/// The core function type of a number.
fn index_of(number: u32) -> EngineOrModuleTypeIndex {
    EngineOrModuleTypeIndex::Module(EntityRef::from_u32(number))
}

/// Adds an import of a function of a type.
fn add_import(
    alloc: Global,
    module: &mut TypeModule,
    name: &str,
    number: u32,
) -> Result<(), OutOfMemory> {
    let names = (Text::from_str(alloc, "m")?, Text::from_str(alloc, name)?);
    let ty = EntityType::Function(index_of(number));
    module.imports.insert(names, ty)?;
    Ok(())
}

/// Fills a module: it imports two functions and exports one, of the core function types 0, 1 and 2.
fn fill(alloc: Global, module: &mut TypeModule) -> Result<(), OutOfMemory> {
    add_import(alloc, module, "f", 0)?;
    add_import(alloc, module, "g", 1)?;
    let name = Text::from_str(alloc, "h")?;
    let ty = EntityType::Function(index_of(2));
    module.exports.insert(name, ty)?;
    Ok(())
}

/// Whether an error at the second call is handed on, and no more calls are made.
fn ends_at_second(module: &TypeModule) -> bool {
    let mut calls = 0_u32;
    let mut func = |index: EngineOrModuleTypeIndex| {
        calls = calls.wrapping_add(1);
        if index == index_of(1) {
            Err(index)
        } else {
            Ok(())
        }
    };
    let end = module.trace(&mut func);
    end == Err(index_of(1)) && calls == 2
}

/// The numbers of the types, in the order in which they are visited, as the digits of a number behind a 9; an index of an engine
/// is told as 8.
fn visited(types: &impl TypeTrace) -> u64 {
    let mut digits = 9_u64;
    let mut func = |index: EngineOrModuleTypeIndex| {
        let digit = match index {
            EngineOrModuleTypeIndex::Module(index) => u64::from(index.as_u32()),
            EngineOrModuleTypeIndex::Engine(_) => 8,
        };
        digits = digits.wrapping_mul(10).wrapping_add(digit);
        Ok::<(), OutOfMemory>(())
    };
    let _end = types.trace(&mut func);
    digits
}

/// Puts an index of an engine at so many places, the last of which answers an error, and tells whether that was handed on.
fn replaces(types: &mut impl TypeTrace, calls: u32) -> bool {
    let mut left = calls;
    let mut func = |index: &mut EngineOrModuleTypeIndex| {
        *index = EngineOrModuleTypeIndex::Engine(left);
        left = left.wrapping_sub(1);
        if left == 0 { Err(calls) } else { Ok(()) }
    };
    let end = types.trace_mut(&mut func);
    end == Err(calls) && left == 0
}

/// Whether tables of one module are visited as it is, before and after two of its places were replaced.
fn tables_are_visited(types: &mut ComponentTypes, module: TypeModule) -> Result<bool, PushError> {
    types.push_module(module)?;
    let before = visited(types);
    let replaced = replaces(types, 2);
    Ok(before == 9_012 && replaced && visited(types) == 9_882)
}

/// Whether traces visit types in order.
pub fn traces_visit_in_order(alloc: Global) -> bool {
    let mut module = TypeModule::new(alloc);
    let filled = fill(alloc, &mut module);
    let ends = ends_at_second(&module);
    let mut types = ComponentTypes::new(alloc);
    let tables = tables_are_visited(&mut types, module);
    drop(types);
    let module_types = ModuleTypesBuilder::new(alloc, 7).finish();
    let none = visited(&module_types);
    drop(module_types);
    filled.is_ok() && ends && none == 9 && matches!(tables, Ok(true))
}
