//! Registering what a walk finds, by closures that are told something else beside the path.

ghost use Rattle.std.specs.Prelude.{◌≡◌, ◌∷◌, [], OnOk, OnErr};
ghost use Rattle.fact_builder.specs.Beside.{CalledBeside};
ghost use Rattle.fact_builder.specs.declared.registration.Registration.TheVariants as is;
ghost use Rattle.fact_builder.specs.Known.{KeepsTables};
ghost use Rattle.fact_builder.specs.Walk.{resources_of, RegistersEach, RegistersFirst, RegistersAnswer};

use crate::known_resources::ResourcesBuilder;
use crate::registration::Registrable;
use crate::walk::{FoundResource, find_resources};
use fact_entity::{AbstractResourceIndex, OutOfMemory, ResourceId, ResourceIndex};
use fact_source::{ComponentEntityType, SourceTypes};
use fact_wasm::{Seq, Text};

impl ResourcesBuilder {
    /// Walks an import or export as `register_component_entity_type` does; the closure is told what is given beside the path.
    pub(crate) fn register_component_entity_type_beside<T, F: FnMut(&[Text], &T) -> ResourceIndex>(
        &mut self,
        types: &SourceTypes,
        ty: ComponentEntityType,
        path: &mut Seq<Text>,
        beside: &T,
        register: &mut F,
    ) -> Result<(), OutOfMemory>
        requires { F.IsAlwaysCallable register.old }
        ensures all { OnOk result (RegistersEach (RegistersAnswer is.Concrete (CalledBeside F.FnMut beside.now)) register.old self.old (resources_of types.now path.old ty) register.new self.new) }
        ensures first { OnErr result (RegistersFirst (RegistersAnswer is.Concrete (CalledBeside F.FnMut beside.now)) register.old self.old (resources_of types.now path.old ty) register.new self.new) }
        ensures rest { KeepsTables self.old self.new }
        ensures path { path.new ≡ path.old }
        ensures callable { F.IsAlwaysCallable register.new }
    {
        let mut resources = path.empty_like();
        find_resources(types, ty, path, &mut resources)?;
        self.register_found_beside(resources.as_slice(), beside, register)
    }

    /// The same over abstract resources.
    pub(crate) fn register_abstract_component_entity_type_beside<
        T,
        F: FnMut(&[Text], &T) -> AbstractResourceIndex,
    >(
        &mut self,
        types: &SourceTypes,
        ty: ComponentEntityType,
        path: &mut Seq<Text>,
        beside: &T,
        register: &mut F,
    ) -> Result<(), OutOfMemory>
        requires { F.IsAlwaysCallable register.old }
        ensures all { OnOk result (RegistersEach (RegistersAnswer is.Abstract (CalledBeside F.FnMut beside.now)) register.old self.old (resources_of types.now path.old ty) register.new self.new) }
        ensures first { OnErr result (RegistersFirst (RegistersAnswer is.Abstract (CalledBeside F.FnMut beside.now)) register.old self.old (resources_of types.now path.old ty) register.new self.new) }
        ensures rest { KeepsTables self.old self.new }
        ensures path { path.new ≡ path.old }
        ensures callable { F.IsAlwaysCallable register.new }
    {
        let mut resources = path.empty_like();
        find_resources(types, ty, path, &mut resources)?;
        self.register_found_beside(resources.as_slice(), beside, register)
    }

    // Registers the resources that were found and have no registration.
    fn register_found_beside<R: Registrable, T, F: FnMut(&[Text], &T) -> R>(
        &mut self,
        found: &[FoundResource],
        beside: &T,
        register: &mut F,
    ) -> Result<(), OutOfMemory>
        requires { F.IsAlwaysCallable register.old }
        ensures all { OnOk result (RegistersEach (RegistersAnswer R.registration (CalledBeside F.FnMut beside.now)) register.old self.old found.now register.new self.new) }
        ensures first { OnErr result (RegistersFirst (RegistersAnswer R.registration (CalledBeside F.FnMut beside.now)) register.old self.old found.now register.new self.new) }
        ensures rest { KeepsTables self.old self.new }
        ensures callable { F.IsAlwaysCallable register.new }
    {
        for (path, id) in found {
            self.register_next_beside(path, *id, beside, register)?;
        }
        Ok(())
    }

    // Registers a resource where it has no registration.
    fn register_next_beside<R: Registrable, T, F: FnMut(&[Text], &T) -> R>(
        &mut self,
        path: &Seq<Text>,
        id: ResourceId,
        beside: &T,
        register: &mut F,
    ) -> Result<(), OutOfMemory>
        requires { F.IsAlwaysCallable register.old }
        ensures told { OnOk result (RegistersEach (RegistersAnswer R.registration (CalledBeside F.FnMut beside.now)) register.old self.old ((path.now, id) ∷ []) register.new self.new) }
        ensures refused { OnErr result ((register.new ≡ register.old) × (self.new ≡ self.old)) }
        ensures rest { KeepsTables self.old self.new }
        ensures callable { F.IsAlwaysCallable register.new }
    {
        if self.is_registered(id) {
            return Ok(());
        }
        self.registered.reserve(1)?;
        let answer = register(path.as_slice(), beside);
        self.registered.insert(id, answer.registration()).unwrap();
        Ok(())
    }
}
