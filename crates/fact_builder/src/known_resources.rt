//! What is known of the resources of the source: [`ResourcesBuilder`].

ghost use Rattle.std.specs.Prelude.{◌≡◌, ◌<◌, length, is_some, Ok, Some, None, IfOk, IfErr, IsErr, OnOk, OnErr};
ghost use Rattle.fact_entity.specs.declared.id.Id.{Id};
ghost use Rattle.fact_entity.specs.declared.table.TypeResourceTables.{TypeResourceTables};
ghost use Rattle.fact_builder.specs.declared.registration.Registration.TheVariants as is;
ghost use Rattle.fact_builder.specs.Known.{no_resources, kept_table, registration, with_registration, AreKeptLive, new_table, MakesTable, MayRefuseTable};

use crate::error::BuildError;
use crate::registration::Registration;
use fact_entity::{
    AbstractResourceIndex, OutOfMemory, ResourceId, ResourceIndex, RuntimeComponentInstanceIndex,
    TypeResourceTableIndex,
};
use fact_types::{ComponentTypes, TypeResourceTable};
use indexmap::IndexMap;
use std::alloc::Global;
use std::marker::Model;

/// What is known of the resources of the source: what each is registered as, the table that is kept for it, and the
/// component instance whose tables are made now. Contracts see it as the entries of the two maps, in order, and the instance
/// where it is set.
pub struct ResourcesBuilder {
    tables: IndexMap<ResourceId, TypeResourceTableIndex>,
    pub(crate) registered: IndexMap<ResourceId, Registration>,
    instance: Option<RuntimeComponentInstanceIndex>,
}

impl Model for ResourcesBuilder {
    ghost use Rattle.fact_builder.specs.Known.{KnownResources};

    ghost Value = { KnownResources };

    ghost view = { λ r. record { tables = r.tables.entries; registered = r.registered.entries; instance = r.instance } };
}

// Written out, it is proved here once.
impl Drop for ResourcesBuilder {
    fn drop(self) {
        let ResourcesBuilder {
            tables,
            registered,
            instance: _,
        } = self;
        drop(registered);
        drop(tables);
    }
}

impl ResourcesBuilder {
    /// Nothing is known, and no instance is set. It takes no memory until the first resource is registered.
    pub fn new(alloc: Global) -> ResourcesBuilder
        ensures { result ≡ no_resources }
    {
        ResourcesBuilder {
            tables: IndexMap::new(alloc),
            registered: IndexMap::new(alloc),
            instance: None,
        }
    }

    /// An equal copy.
    pub fn try_clone(&self) -> Result<ResourcesBuilder, OutOfMemory>
        ensures { IfOk result (λ copy. copy ≡ self.now) }
    {
        Ok(ResourcesBuilder {
            tables: self.tables.clone()?,
            registered: self.registered.clone()?,
            instance: self.instance,
        })
    }

    /// The table that is kept for a resource.
    pub fn kept_table(&self, id: ResourceId) -> Option<TypeResourceTableIndex>
        ensures { result ≡ kept_table self.now id }
    {
        self.tables.get(&id).copied()
    }

    // What a resource is registered as.
    fn registered_as(&self, id: ResourceId) -> Option<Registration>
        ensures { result ≡ registration self.now id }
    {
        self.registered.get(&id).copied()
    }

    /// Whether a resource is registered.
    pub fn is_registered(&self, id: ResourceId) -> bool
        ensures { result ≡ is_some (registration self.now id) }
    {
        self.registered_as(id).is_some()
    }

    /// Registers a resource that is not registered. Nothing changes after a refusal.
    #[tactic(auto, using(crate::proofs::TableLaws::new_entry))]
    pub fn register_resource(
        &mut self,
        id: ResourceId,
        ty: ResourceIndex,
    ) -> Result<(), OutOfMemory>
        requires { registration self.old id ≡ None }
        ensures registered { OnOk result (self.new ≡ with_registration self.old id (is.Concrete ty)) }
        ensures refused { OnErr result (self.new ≡ self.old) }
    {
        self.registered.insert(id, Registration::Concrete(ty))?;
        Ok(())
    }

    /// Registers a resource that is not registered as an abstract one. Nothing changes after a refusal.
    #[tactic(auto, using(crate::proofs::TableLaws::new_entry))]
    pub(crate) fn register_abstract_resource(
        &mut self,
        id: ResourceId,
        ty: AbstractResourceIndex,
    ) -> Result<(), OutOfMemory>
        requires { registration self.old id ≡ None }
        ensures registered { OnOk result (self.new ≡ with_registration self.old id (is.Abstract ty)) }
        ensures refused { OnErr result (self.new ≡ self.old) }
    {
        self.registered.insert(id, Registration::Abstract(ty))?;
        Ok(())
    }

    /// Sets the instance whose tables are made from now on.
    pub fn set_current_instance(&mut self, instance: RuntimeComponentInstanceIndex)
        ensures { self.new ≡ record self.old { instance = Some instance } }
    {
        self.instance = Some(instance);
    }

    /// The instance whose tables are made now, or `None` where none was set.
    pub fn get_current_instance(&self) -> Option<RuntimeComponentInstanceIndex>
        ensures { result ≡ self.now.instance }
    {
        self.instance
    }

    // The table that a resource without one gets, or why it gets none.
    fn table_to_make(&self, id: ResourceId) -> Result<TypeResourceTable, BuildError>
        ensures { result ≡ new_table self.now id }
    {
        match (self.registered_as(id), self.instance) {
            (None, _) => Err(BuildError::UnknownResource),
            (Some(Registration::Abstract(ty)), _) => Ok(TypeResourceTable::Abstract(ty)),
            (Some(Registration::Concrete(_)), None) => Err(BuildError::NoInstance),
            (Some(Registration::Concrete(ty)), Some(instance)) => {
                Ok(TypeResourceTable::Concrete { ty, instance })
            }
        }
    }

    /// Makes the table of a resource without one, behind the last table of some types, and keeps it. Nothing changes after a
    /// refusal.
    #[tactic(auto, using(crate::proofs::TableLaws::new_entry, crate::proofs::TableLaws::refused_anew, crate::proofs::TableLaws::refused_for_memory, crate::proofs::TableLaws::refused_by_table))]
    pub(crate) fn make_table(
        &mut self,
        id: ResourceId,
        types: &mut ComponentTypes,
    ) -> Result<TypeResourceTableIndex, BuildError>
        requires { kept_table self.old id ≡ None }
        ensures made { IfOk result (MakesTable self.old types.old id self.new types.new) }
        ensures refused { IfErr result (λ e. (self.new ≡ self.old) × (types.new ≡ types.old) × MayRefuseTable self.old types.old id e) }
    {
        let table = self.table_to_make(id)?;
        self.tables.reserve(1)?;
        let index = types.push_resource_table(table)?;
        self.tables.insert(id, index).unwrap();
        Ok(index)
    }

    /// The table of a resource: the one that is kept, else a new one, which is kept from then on. `TooLarge` comes only
    /// where a new one is to be made and there are 4,294,967,295. Nothing changes after a refusal.
    #[tactic(auto, using(crate::proofs::TableLaws::kept_is_live, crate::proofs::TableLaws::made_is_live, crate::proofs::TableLaws::made_keeps_live))]
    pub fn convert(
        &mut self,
        id: ResourceId,
        types: &mut ComponentTypes,
    ) -> Result<TypeResourceTableIndex, BuildError>
        requires { AreKeptLive self.old types.old }
        ensures kept { (i : Id TypeResourceTables) → kept_table self.old id ≡ Some i → (result ≡ Ok i) × (self.new ≡ self.old) × (types.new ≡ types.old) }
        ensures made { kept_table self.old id ≡ None → IfOk result (MakesTable self.old types.old id self.new types.new) }
        ensures without { IsErr result → kept_table self.old id ≡ None }
        ensures refused { IfErr result (λ e. (self.new ≡ self.old) × (types.new ≡ types.old) × MayRefuseTable self.old types.old id e) }
        ensures live { IfOk result (λ i. i.number < length types.new.resource_tables) }
        ensures kept_live { AreKeptLive self.new types.new }
    {
        match self.kept_table(id) {
            Some(table) => Ok(table),
            None => self.make_table(id, types),
        }
    }
}
