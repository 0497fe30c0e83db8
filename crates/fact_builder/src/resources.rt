//! The resources of the source, as calls of the builder: their registrations, and the tables of their handles.

ghost use Rattle.std.specs.Prelude.{◌≡◌, ◌<◌, length, Some, None, IfOk, IfErr, OnOk, OnErr};
ghost use Rattle.fact_builder.specs.Beside.{CalledBeside};
ghost use Rattle.fact_builder.specs.Known.{AreKeptLive, KeepsTables, MayRefuseTable, kept_table, registration};
ghost use Rattle.fact_builder.specs.Walk.{RegistersAnswer, RegistersEach, RegistersFirst, resources_of};
ghost use Rattle.fact_builder.specs.declared.registration.Registration.TheVariants as is;
ghost use Rattle.fact_builder.specs.Keeps.{Keeps};
ghost use Rattle.fact_builder.specs.Registering.{MayRefuseNext, RegistersNext, TakesTable};

use crate::BuildError;
use crate::builder::ComponentTypesBuilder;
use fact_entity::{
    AbstractResourceIndex, EntityRef, OutOfMemory, ResourceId, ResourceIndex,
    TypeResourceTableIndex,
};
use fact_source::{ComponentEntityType, SourceTypes};
use fact_types::ComponentTypes;
use fact_wasm::{Seq, Text};

impl ComponentTypesBuilder {
    /// The table of a resource: the one that is kept, else a new one, which is kept from then on. `TooLarge` comes only where
    /// a new one is to be made and there are 4,294,967,295. Nothing changes after a refusal.
    pub fn resource_id(&mut self, id: ResourceId) -> Result<TypeResourceTableIndex, BuildError>
        ensures kept { IfOk result (λ i. kept_table self.new.resources id ≡ Some i) }
        ensures taken { OnOk result (TakesTable self.old id (kept_table self.old.resources id) self.new) }
        ensures refused { IfErr result (λ e. (self.new ≡ self.old) × (kept_table self.old.resources id ≡ None) × MayRefuseTable self.old.resources self.old.tables id e) }
        ensures keeps { Keeps self.old.tables self.new.tables }
        ensures others { self.new ≡ record self.old { tables = self.new.tables; resources = self.new.resources } }
        ensures live { AreKeptLive self.old.resources self.old.tables → IfOk result (λ i. i.number < length self.new.tables.resource_tables) }
        ensures kept_live { AreKeptLive self.old.resources self.old.tables → AreKeptLive self.new.resources self.new.tables }
    {
        match self.resources().kept_table(id) {
            Some(table) => Ok(table),
            None => self.make_table(id),
        }
    }

    // Makes the table of a resource that has none, and keeps it.
    fn make_table(&mut self, id: ResourceId) -> Result<TypeResourceTableIndex, BuildError>
        requires { kept_table self.old.resources id ≡ None }
        ensures kept { IfOk result (λ i. kept_table self.new.resources id ≡ Some i) }
        ensures taken { OnOk result (TakesTable self.old id None self.new) }
        ensures refused { IfErr result (λ e. (self.new ≡ self.old) × MayRefuseTable self.old.resources self.old.tables id e) }
        ensures keeps { Keeps self.old.tables self.new.tables }
    {
        let table = self.types.make_resource_table(&mut self.resources, id)?;
        self.resource_table_count = table.as_u32() as usize + 1;
        Ok(table)
    }

    /// Registers a resource as the next abstract one, where it has no registration; the first has the number 1. `TooLarge` comes
    /// where 4,294,967,295 have numbers. Nothing changes after a refusal.
    pub fn register_next(&mut self, id: ResourceId) -> Result<(), BuildError>
        ensures registered { OnOk result (RegistersNext self.old id (registration self.old.resources id) self.new) }
        ensures refused { IfErr result (λ e. (self.new ≡ self.old) × MayRefuseNext self.old id e) }
    {
        if self.resources.is_registered(id) {
            return Ok(());
        }
        let Some(next) = self.abstracts.checked_add(1) else {
            return Err(BuildError::TooLarge);
        };
        let index = AbstractResourceIndex::from_u32(next);
        self.resources.register_abstract_resource(id, index)?;
        self.abstracts = next;
        Ok(())
    }

    /// Walks an import or export as `ResourcesBuilder` does; the closure is told the tables so far beside the path.
    pub fn register_component_entity_type<F: FnMut(&[Text], &ComponentTypes) -> ResourceIndex>(
        &mut self,
        types: &SourceTypes,
        ty: ComponentEntityType,
        path: &mut Seq<Text>,
        register: &mut F,
    ) -> Result<(), OutOfMemory>
        requires { F.IsAlwaysCallable register.old }
        ensures all { OnOk result (RegistersEach (RegistersAnswer is.Concrete (CalledBeside F.FnMut self.old.tables)) register.old self.old.resources (resources_of types.now path.old ty) register.new self.new.resources) }
        ensures first { OnErr result (RegistersFirst (RegistersAnswer is.Concrete (CalledBeside F.FnMut self.old.tables)) register.old self.old.resources (resources_of types.now path.old ty) register.new self.new.resources) }
        ensures rest { KeepsTables self.old.resources self.new.resources }
        ensures others { self.new ≡ record self.old { resources = self.new.resources } }
        ensures path { path.new ≡ path.old }
        ensures callable { F.IsAlwaysCallable register.new }
    {
        let tables = self.types.tables();
        self.resources
            .register_component_entity_type_beside(types, ty, path, tables, register)
    }

    /// The same over abstract resources.
    pub fn register_abstract_component_entity_type<
        F: FnMut(&[Text], &ComponentTypes) -> AbstractResourceIndex,
    >(
        &mut self,
        types: &SourceTypes,
        ty: ComponentEntityType,
        path: &mut Seq<Text>,
        register: &mut F,
    ) -> Result<(), OutOfMemory>
        requires { F.IsAlwaysCallable register.old }
        ensures all { OnOk result (RegistersEach (RegistersAnswer is.Abstract (CalledBeside F.FnMut self.old.tables)) register.old self.old.resources (resources_of types.now path.old ty) register.new self.new.resources) }
        ensures first { OnErr result (RegistersFirst (RegistersAnswer is.Abstract (CalledBeside F.FnMut self.old.tables)) register.old self.old.resources (resources_of types.now path.old ty) register.new self.new.resources) }
        ensures rest { KeepsTables self.old.resources self.new.resources }
        ensures others { self.new ≡ record self.old { resources = self.new.resources } }
        ensures path { path.new ≡ path.old }
        ensures callable { F.IsAlwaysCallable register.new }
    {
        let tables = self.types.tables();
        self.resources
            .register_abstract_component_entity_type_beside(types, ty, path, tables, register)
    }
}
