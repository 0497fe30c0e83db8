//! Types of core modules.

ghost use Rattle.std.specs.Prelude.{◌≡◌, ◌<◌, ◌↔◌, ◌∷◌, [], length, position, flat_map, None, Err, IfOk, OnOk, OnErr};
ghost use Rattle.indexmap.specs.IndexMap.{insert_entry};
ghost use Rattle.fact_entity.specs.Places.{IsInterned};
ghost use Rattle.fact_source.specs.declared.items.ComponentEntityType.TheVariants as entity;
ghost use Rattle.fact_source.specs.SourceTables.{SourceTables};
ghost use Rattle.fact_types.specs.declared.interface.TypeDef.TheVariants as def;
ghost use Rattle.fact_convert.specs.Appended.{IsDefMade};
ghost use Rattle.fact_convert.specs.Converted.{IsEntityFrom};
ghost use Rattle.fact_convert.specs.Merging.{same_pair};
ghost use Rattle.fact_convert.specs.Progress.{Comes, AreCoreImportsFrom, AreCoreExportsFrom, IsCoreFrom};
ghost use Rattle.fact_convert.specs.Tasks.{core_tasks, makes_core, tasks_of};

use crate::names::put;
use fact_builder::{BuildError, ComponentTypesBuilder};
use fact_entity::{OutOfMemory, PushError};
use fact_source::{ComponentCoreModuleTypeId, SourceEntityType, SourceModule, SourceTypes};
use fact_types::{
    EngineOrModuleTypeIndex, EntityType, ModuleInternedTypeIndex, TypeModule, TypeModuleIndex,
};
use fact_wasm::{FuncType, Text, ValType};
use indexmap::IndexMap;

// Converts a type of core modules: its imports, then its exports. A repeated name, or pair of names, takes the last type.
pub(crate) fn module_type(
    builder: &mut ComponentTypesBuilder,
    types: &SourceTypes,
    id: ComponentCoreModuleTypeId,
) -> Result<TypeModuleIndex, BuildError>
    requires { id.number < length types.now.modules }
    ensures { Comes types.now builder.old (tasks_of types.now (entity.Module id)) (λ c i. IsDefMade types.now c (entity.Module id) (def.Module i)) builder.new result }
{
    let Some(module) = types.get_module(id) else {
        unreachable!();
    };
    let imports = core_imports(builder, module)?;
    let exports = core_exports(builder, module)?;
    let index = builder.push_module(TypeModule { imports, exports })?;
    Ok(index)
}

fn core_imports(
    builder: &mut ComponentTypesBuilder,
    entry: &SourceModule,
) -> Result<IndexMap<(Text, Text), EntityType>, BuildError>
    ensures { (s : SourceTables) → Comes s builder.old (flat_map (λ x. core_tasks x.2) entry.now.imports) (λ c made. AreCoreImportsFrom c entry.now.imports made.entries) builder.new result }
{
    let mut imports = IndexMap::new(builder.allocator());
    for (from, name, ty) in entry.imports.as_slice() {
        let ty = core_item(builder, ty)?;
        put_pair(&mut imports, from, name, ty)?;
    }
    Ok(imports)
}

fn core_exports(
    builder: &mut ComponentTypesBuilder,
    entry: &SourceModule,
) -> Result<IndexMap<Text, EntityType>, BuildError>
    ensures { (s : SourceTables) → Comes s builder.old (flat_map (λ x. core_tasks x.1) entry.now.exports) (λ c made. AreCoreExportsFrom c entry.now.exports made.entries) builder.new result }
{
    let mut exports = IndexMap::new(builder.allocator());
    for (name, ty) in entry.exports.as_slice() {
        let ty = core_item(builder, ty)?;
        put(&mut exports, name, ty)?;
    }
    Ok(exports)
}

// Converts the type of an import or export of a core module.
fn core_item(
    builder: &mut ComponentTypesBuilder,
    ty: &SourceEntityType,
) -> Result<EntityType, BuildError>
    ensures { (s : SourceTables) → Comes s builder.old (core_tasks ty.now) (λ c e. IsEntityFrom c ty.now e) builder.new result }
{
    match ty {
        SourceEntityType::Func { params, results } => {
            let index = core_func(builder, params.as_slice(), results.as_slice())?;
            Ok(EntityType::Function(index))
        }
        SourceEntityType::Table {
            minimum,
            maximum,
            table64,
        } => Ok(EntityType::Table {
            minimum: *minimum,
            maximum: *maximum,
            table64: *table64,
        }),
        SourceEntityType::Memory {
            minimum,
            maximum,
            shared,
            memory64,
            page_size_log2,
        } => Ok(EntityType::Memory {
            minimum: *minimum,
            maximum: *maximum,
            shared: *shared,
            memory64: *memory64,
            page_size_log2: *page_size_log2,
        }),
        SourceEntityType::Global { ty, mutable } => Ok(EntityType::Global {
            ty: *ty,
            mutable: *mutable,
        }),
        SourceEntityType::Tag { params, results } => {
            let signature = core_func(builder, params.as_slice(), results.as_slice())?;
            Ok(EntityType::Tag { signature })
        }
        SourceEntityType::FuncExact => Err(BuildError::CustomDescriptors),
    }
}

// The core function type of these parameters and results.
fn core_func(
    builder: &mut ComponentTypesBuilder,
    params: &[ValType],
    results: &[ValType],
) -> Result<EngineOrModuleTypeIndex, BuildError>
    ensures { (s : SourceTables) → Comes s builder.old (makes_core params.now results.now ∷ []) (λ c i. IsCoreFrom c params.now results.now i) builder.new result }
{
    let ty = FuncType::from_slices(builder.allocator(), params, results)?;
    let index = intern_core(builder, ty)?;
    Ok(EngineOrModuleTypeIndex::Module(index))
}

// Looks for a core function type, and adds it where it is not there. The builder is unchanged after a refusal.
fn intern_core(
    builder: &mut ComponentTypesBuilder,
    ty: FuncType,
) -> Result<ModuleInternedTypeIndex, PushError>
    ensures interned { IfOk result (λ k. IsInterned ⟦<FuncType as PartialEq>⟧.eq builder.old.module_types builder.new.module_types ty k.number) }
    ensures rest { OnOk result (builder.new ≡ record builder.old { module_types = builder.new.module_types }) }
    ensures refused { OnErr result (builder.new ≡ builder.old) }
    ensures too_large { result ≡ Err PushError.TooLarge ↔ ((position (⟦<FuncType as PartialEq>⟧.eq ty) builder.old.module_types ≡ None) × (length builder.old.module_types ≡ 4294967295)) }
{
    builder.module_types_builder_mut().intern(ty)
}

// Puts a type under a pair of names.
fn put_pair(
    imports: &mut IndexMap<(Text, Text), EntityType>,
    from: &Text,
    name: &Text,
    ty: EntityType,
) -> Result<(), OutOfMemory>
    ensures { OnOk result (imports.new.entries ≡ insert_entry same_pair imports.old.entries (from.now, name.now) ty) }
{
    imports.insert((from.try_clone()?, name.try_clone()?), ty)?;
    Ok(())
}
