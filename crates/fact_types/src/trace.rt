//! Traces over the core function types that types name by index.

ghost use Rattle.std.specs.Prelude.{◌≡◌, [], List, ⊤, flat_map};
ghost use Rattle.std.specs.Fn.{CalledAtMut};
ghost use Rattle.std.specs.List.{AllZip};
ghost use Rattle.fact_types.specs.declared.externs.EngineOrModuleTypeIndex.{EngineOrModuleTypeIndex};
ghost use Rattle.fact_types.specs.Traces.{named_index, named_indices, module_indices, table_indices, IsAlike, AreAlikeEntries, IsAlikeModule, AreAlikeTables, Visits, VisitsEach};

use crate::externs::{EngineOrModuleTypeIndex, EntityType, TypeModule};
use crate::module_types::ModuleTypes;
use crate::tables::ComponentTypes;
use fact_entity::{EntityRef, PrimaryMap, TypeModuleIndex};
use indexmap::IndexMap;
use std::hash::Hash;

/// A type that names core function types by index.
pub trait TypeTrace {
    // the indices, in the order in which they are visited
    ghost indices: { Self → List EngineOrModuleTypeIndex };

    // the second is the first but for its indices
    ghost alike: { Self → Self → Type 0 };

    /// Calls the closure for each index in order, until it answers an error, which is handed on.
    fn trace<F: FnMut(EngineOrModuleTypeIndex) -> Result<(), E>, E>(
        &self,
        func: &mut F,
    ) -> Result<(), E>
        requires { F.IsAlwaysCallable func.old }
        ensures visits { Visits F.step func.old (indices self.now) func.new result }
        ensures callable { F.IsAlwaysCallable func.new };

    /// Calls the closure for each index in order, until it answers an error, which is handed on. Each place that was visited
    /// holds what the closure left there, and all else is as it was.
    fn trace_mut<F: FnMut(&mut EngineOrModuleTypeIndex) -> Result<(), E>, E>(
        &mut self,
        func: &mut F,
    ) -> Result<(), E>
        requires { F.IsAlwaysCallable func.old }
        ensures visits { VisitsEach (CalledAtMut F.FnMut) func.old (indices self.old) func.new (indices self.new) result }
        ensures alike { alike self.old self.new }
        ensures callable { F.IsAlwaysCallable func.new };
}

/// The types of functions and the signatures of tags of the imports, and then of the exports.
impl TypeTrace for TypeModule {
    ghost indices = { module_indices };

    ghost alike = { IsAlikeModule };

    fn trace<F: FnMut(EngineOrModuleTypeIndex) -> Result<(), E>, E>(
        &self,
        func: &mut F,
    ) -> Result<(), E> {
        trace_entities(&self.imports, func)?;
        trace_entities(&self.exports, func)
    }

    fn trace_mut<F: FnMut(&mut EngineOrModuleTypeIndex) -> Result<(), E>, E>(
        &mut self,
        func: &mut F,
    ) -> Result<(), E> {
        trace_entities_mut(&mut self.imports, func)?;
        trace_entities_mut(&mut self.exports, func)
    }
}

/// Those of each core module in order.
impl TypeTrace for ComponentTypes {
    ghost indices = { table_indices };

    ghost alike = { AreAlikeTables };

    fn trace<F: FnMut(EngineOrModuleTypeIndex) -> Result<(), E>, E>(
        &self,
        func: &mut F,
    ) -> Result<(), E> {
        for i in 0..self.modules.len() as u32 {
            self.modules[TypeModuleIndex::from_u32(i)].trace(func)?;
        }
        Ok(())
    }

    fn trace_mut<F: FnMut(&mut EngineOrModuleTypeIndex) -> Result<(), E>, E>(
        &mut self,
        func: &mut F,
    ) -> Result<(), E> {
        trace_modules_mut(&mut self.modules, func)
    }
}

/// Core function types name no further ones.
impl TypeTrace for ModuleTypes {
    ghost indices = { λ _. [] };

    ghost alike = { λ a b. b ≡ a };

    fn trace<F: FnMut(EngineOrModuleTypeIndex) -> Result<(), E>, E>(
        &self,
        _: &mut F,
    ) -> Result<(), E> {
        Ok(())
    }

    fn trace_mut<F: FnMut(&mut EngineOrModuleTypeIndex) -> Result<(), E>, E>(
        &mut self,
        _: &mut F,
    ) -> Result<(), E> {
        Ok(())
    }
}

// The index that an import or export names, where it names one.
fn trace_entity<F: FnMut(EngineOrModuleTypeIndex) -> Result<(), E>, E>(
    entity: &EntityType,
    func: &mut F,
) -> Result<(), E>
    requires { F.IsAlwaysCallable func.old }
    ensures visits { Visits F.step func.old (named_index entity.now) func.new result }
    ensures callable { F.IsAlwaysCallable func.new }
{
    match *entity {
        EntityType::Function(index) => func(index),
        EntityType::Tag { signature } => func(signature),
        EntityType::Table { .. } | EntityType::Memory { .. } | EntityType::Global { .. } => Ok(()),
    }
}

// The indices that imports or exports name.
fn trace_entities<K: Eq + Hash, F: FnMut(EngineOrModuleTypeIndex) -> Result<(), E>, E>(
    entities: &IndexMap<K, EntityType>,
    func: &mut F,
) -> Result<(), E>
    requires { F.IsAlwaysCallable func.old }
    ensures visits { Visits F.step func.old (named_indices entities.now.entries) func.new result }
    ensures callable { F.IsAlwaysCallable func.new }
{
    for entity in entities.values().as_slice() {
        trace_entity(entity, func)?;
    }
    Ok(())
}

// The index that an import or export names, where it names one.
fn trace_entity_mut<F: FnMut(&mut EngineOrModuleTypeIndex) -> Result<(), E>, E>(
    entity: &mut EntityType,
    func: &mut F,
) -> Result<(), E>
    requires { F.IsAlwaysCallable func.old }
    ensures visits { VisitsEach (CalledAtMut F.FnMut) func.old (named_index entity.old) func.new (named_index entity.new) result }
    ensures alike { IsAlike entity.old entity.new }
    ensures callable { F.IsAlwaysCallable func.new }
{
    match entity {
        EntityType::Function(index) => func(index),
        EntityType::Tag { signature } => func(signature),
        EntityType::Table { .. } | EntityType::Memory { .. } | EntityType::Global { .. } => Ok(()),
    }
}

// The indices that imports or exports name.
fn trace_entities_mut<K: Eq + Hash, F: FnMut(&mut EngineOrModuleTypeIndex) -> Result<(), E>, E>(
    entities: &mut IndexMap<K, EntityType>,
    func: &mut F,
) -> Result<(), E>
    requires { F.IsAlwaysCallable func.old }
    ensures visits { VisitsEach (CalledAtMut F.FnMut) func.old (named_indices entities.old.entries) func.new (named_indices entities.new.entries) result }
    ensures alike { AreAlikeEntries entities.old.entries entities.new.entries }
    ensures callable { F.IsAlwaysCallable func.new }
{
    for i in 0..entities.len() {
        let Some(entity) = entities.get_index_mut(i) else {
            unreachable!();
        };
        trace_entity_mut(entity, func)?;
    }
    Ok(())
}

// The indices that core modules name.
fn trace_modules_mut<F: FnMut(&mut EngineOrModuleTypeIndex) -> Result<(), E>, E>(
    modules: &mut PrimaryMap<TypeModuleIndex, TypeModule>,
    func: &mut F,
) -> Result<(), E>
    requires { F.IsAlwaysCallable func.old }
    ensures visits { VisitsEach (CalledAtMut F.FnMut) func.old (flat_map module_indices modules.old) func.new (flat_map module_indices modules.new) result }
    ensures alike { AllZip IsAlikeModule modules.old modules.new }
    ensures callable { F.IsAlwaysCallable func.new }
{
    for i in 0..modules.len() as u32 {
        let Some(module) = modules.get_mut(EntityRef::from_u32(i)) else {
            unreachable!();
        };
        module.trace_mut(func)?;
    }
    Ok(())
}
