//! The tables of the source.

ghost use Rattle.std.specs.Prelude.{◌≡◌, ◌↔◌, ◌<◌, ◌≤◌, ◌+◌, ◌++◌, ◌∷◌, [], length, slice_get, option_copied, IsTrue, IfOk, OnOk, OnErr, None, Err};
ghost use Rattle.fact_entity.specs.declared.error.PushError.TheVariants.{TooLarge};
ghost use Rattle.fact_source.specs.SourceTables.{SourceTables, no_entries, instance_at, component_at, ranked};
ghost use Rattle.fact_source.specs.Live.{IsLiveDefined, IsLiveSourceFunc, IsLiveSourceInstance, IsLiveSourceComponent, IsSoundSource};

use crate::defined::{ComponentDefinedType, SourceFunc};
use crate::items::{SourceComponent, SourceInstance};
use crate::modules::SourceModule;
use fact_entity::{
    ComponentCoreModuleTypeId, ComponentDefinedTypeId, ComponentFuncTypeId,
    ComponentInstanceTypeId, ComponentTypeId, EntityRef, PrimaryMap, PushError, ResourceId,
};
use std::alloc::Global;
use std::marker::Model;

/// The type of an instance or of a component, and how many of these two were there before it.
#[derive(Drop)]
pub(crate) struct Ranked<T> {
    pub(crate) entry: T,
    pub(crate) rank: u64,
}

/// The types of a component as its source tells them. Contracts see it as the lists of its tables; an id is live where its
/// number is below the length of its table. At all times an entry names only entries that were there before it.
#[derive(Drop)]
pub struct SourceTypes {
    number: u64,
    defined: PrimaryMap<ComponentDefinedTypeId, ComponentDefinedType>,
    funcs: PrimaryMap<ComponentFuncTypeId, SourceFunc>,
    instances: PrimaryMap<ComponentInstanceTypeId, Ranked<SourceInstance>>,
    components: PrimaryMap<ComponentTypeId, Ranked<SourceComponent>>,
    modules: PrimaryMap<ComponentCoreModuleTypeId, SourceModule>,
    resources: u32,
}

impl Model for SourceTypes {
    ghost use Rattle.fact_source.specs.SourceTables.{SourceTables};
    ghost use Rattle.fact_source.specs.Live.{IsSoundSource};

    ghost Value = { SourceTables };

    ghost view = { λ s. record { number = s.number; defined = s.defined; funcs = s.funcs; instances = s.instances; components = s.components; modules = s.modules; resources = s.resources } };

    ghost invariant = { λ s. IsSoundSource (record { number = s.number; defined = s.defined; funcs = s.funcs; instances = s.instances; components = s.components; modules = s.modules; resources = s.resources }) };
}

impl SourceTypes {
    /// The tables of the source of a number, without entries. They take no memory until the first entry is added.
    pub fn new(alloc: Global, number: u64) -> SourceTypes
        ensures { result ≡ no_entries number }
    {
        SourceTypes {
            number,
            defined: PrimaryMap::new(alloc),
            funcs: PrimaryMap::new(alloc),
            instances: PrimaryMap::new(alloc),
            components: PrimaryMap::new(alloc),
            modules: PrimaryMap::new(alloc),
            resources: 0,
        }
    }

    /// The number that tells this source from others.
    pub fn number(&self) -> u64
        ensures { result ≡ self.now.number }
    {
        self.number
    }

    /// Adds a defined type that names live ids, and answers its id.
    pub fn add_defined(
        &mut self,
        ty: ComponentDefinedType,
    ) -> Result<ComponentDefinedTypeId, PushError>
        requires { IsLiveDefined self.old ty }
        ensures id { IfOk result (λ id. id.number ≡ length self.old.defined) }
        ensures named { IfOk result (λ id. slice_get self.new.defined id.number ≡ Some ty) }
        ensures list { OnOk result (self.new ≡ record self.old { defined = self.old.defined ++ ty ∷ [] }) }
        ensures refused { OnErr result (self.new ≡ self.old) }
        ensures too_large { result ≡ Err TooLarge ↔ (length self.old.defined ≡ 4294967295) }
    {
        self.defined.push(ty)
    }

    /// Adds a function type that names live ids, and answers its id.
    pub fn add_func(&mut self, ty: SourceFunc) -> Result<ComponentFuncTypeId, PushError>
        requires { IsLiveSourceFunc self.old ty }
        ensures id { IfOk result (λ id. id.number ≡ length self.old.funcs) }
        ensures named { IfOk result (λ id. slice_get self.new.funcs id.number ≡ Some ty) }
        ensures list { OnOk result (self.new ≡ record self.old { funcs = self.old.funcs ++ ty ∷ [] }) }
        ensures refused { OnErr result (self.new ≡ self.old) }
        ensures too_large { result ≡ Err TooLarge ↔ (length self.old.funcs ≡ 4294967295) }
    {
        self.funcs.push(ty)
    }

    /// Adds an instance type that names live ids, and answers its id.
    pub fn add_instance(&mut self, ty: SourceInstance) -> Result<ComponentInstanceTypeId, PushError>
        requires { IsLiveSourceInstance self.old ty }
        ensures id { IfOk result (λ id. id.number ≡ length self.old.instances) }
        ensures named { IfOk result (λ id. slice_get self.new.instances id.number ≡ Some (ranked self.old ty)) }
        ensures list { OnOk result (self.new ≡ record self.old { instances = self.old.instances ++ ranked self.old ty ∷ [] }) }
        ensures refused { OnErr result (self.new ≡ self.old) }
        ensures too_large { result ≡ Err TooLarge ↔ (length self.old.instances ≡ 4294967295) }
    {
        let rank = self.next_rank();
        self.instances.push(Ranked { entry: ty, rank })
    }

    /// Adds a component type that names live ids, and answers its id.
    pub fn add_component(&mut self, ty: SourceComponent) -> Result<ComponentTypeId, PushError>
        requires { IsLiveSourceComponent self.old ty }
        ensures id { IfOk result (λ id. id.number ≡ length self.old.components) }
        ensures named { IfOk result (λ id. slice_get self.new.components id.number ≡ Some (ranked self.old ty)) }
        ensures list { OnOk result (self.new ≡ record self.old { components = self.old.components ++ ranked self.old ty ∷ [] }) }
        ensures refused { OnErr result (self.new ≡ self.old) }
        ensures too_large { result ≡ Err TooLarge ↔ (length self.old.components ≡ 4294967295) }
    {
        let rank = self.next_rank();
        self.components.push(Ranked { entry: ty, rank })
    }

    /// Adds a core module type, and answers its id.
    pub fn add_module(&mut self, ty: SourceModule) -> Result<ComponentCoreModuleTypeId, PushError>
        ensures id { IfOk result (λ id. id.number ≡ length self.old.modules) }
        ensures named { IfOk result (λ id. slice_get self.new.modules id.number ≡ Some ty) }
        ensures list { OnOk result (self.new ≡ record self.old { modules = self.old.modules ++ ty ∷ [] }) }
        ensures refused { OnErr result (self.new ≡ self.old) }
        ensures too_large { result ≡ Err TooLarge ↔ (length self.old.modules ≡ 4294967295) }
    {
        self.modules.push(ty)
    }

    /// Adds a resource, and answers its id, which no other resource has.
    pub fn add_resource(&mut self) -> Result<ResourceId, PushError>
        ensures id { IfOk result (λ id. id.number ≡ self.old.resources) }
        ensures count { OnOk result (self.new ≡ record self.old { resources = self.old.resources + 1 }) }
        ensures refused { OnErr result (self.new ≡ self.old) }
        ensures too_large { result ≡ Err TooLarge ↔ (self.old.resources ≡ 4294967295) }
    {
        if self.resources == u32::MAX {
            return Err(PushError::TooLarge);
        }
        let id = ResourceId::from_u32(self.resources);
        self.resources += 1;
        Ok(id)
    }

    /// The defined type of an id, or `None` where the id is not live.
    pub fn get_defined(&self, id: ComponentDefinedTypeId) -> Option<&ComponentDefinedType>
        ensures value { option_copied result ≡ slice_get self.now.defined id.number }
        ensures none { (result ≡ None) ↔ (length self.now.defined ≤ id.number) }
    {
        self.defined.get(id)
    }

    /// The function type of an id, or `None` where the id is not live.
    pub fn get_func(&self, id: ComponentFuncTypeId) -> Option<&SourceFunc>
        ensures value { option_copied result ≡ slice_get self.now.funcs id.number }
        ensures none { (result ≡ None) ↔ (length self.now.funcs ≤ id.number) }
    {
        self.funcs.get(id)
    }

    /// The instance type of an id, or `None` where the id is not live.
    pub fn get_instance(&self, id: ComponentInstanceTypeId) -> Option<&SourceInstance>
        ensures value { option_copied result ≡ instance_at self.now id }
        ensures none { (result ≡ None) ↔ (length self.now.instances ≤ id.number) }
    {
        match self.instances.get(id) {
            Some(ranked) => Some(&ranked.entry),
            None => None,
        }
    }

    /// The component type of an id, or `None` where the id is not live.
    pub fn get_component(&self, id: ComponentTypeId) -> Option<&SourceComponent>
        ensures value { option_copied result ≡ component_at self.now id }
        ensures none { (result ≡ None) ↔ (length self.now.components ≤ id.number) }
    {
        match self.components.get(id) {
            Some(ranked) => Some(&ranked.entry),
            None => None,
        }
    }

    /// The core module type of an id, or `None` where the id is not live.
    pub fn get_module(&self, id: ComponentCoreModuleTypeId) -> Option<&SourceModule>
        ensures value { option_copied result ≡ slice_get self.now.modules id.number }
        ensures none { (result ≡ None) ↔ (length self.now.modules ≤ id.number) }
    {
        self.modules.get(id)
    }

    /// Whether the id is that of a resource.
    pub fn has_resource(&self, id: ResourceId) -> bool
        ensures { IsTrue result ↔ (id.number < self.now.resources) }
    {
        id.number < self.resources
    }

    /// Does nothing: it says what holds of the tables at all times. Every id that an entry names is live and was there
    /// before it.
    pub fn reveal(&self)
        ensures { IsSoundSource self.now }
    {
        let _opened = &self.defined;
    }

    // How many instances and components there are.
    fn next_rank(&self) -> u64
        ensures { result ≡ length self.now.instances + length self.now.components }
    {
        self.instances.len() as u64 + self.components.len() as u64
    }
}
