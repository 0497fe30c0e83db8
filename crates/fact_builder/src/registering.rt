//! Registering what a walk finds, by closures that are told the path of its names.

ghost use Rattle.std.specs.Prelude.{◌≡◌, ◌∷◌, [], OnOk, OnErr};
ghost use Rattle.std.specs.Fn.{CalledAt};
ghost use Rattle.fact_builder.specs.declared.registration.Registration.TheVariants as is;
ghost use Rattle.fact_builder.specs.Known.{KeepsTables};
ghost use Rattle.fact_builder.specs.Walk.{resources_of, RegistersEach, RegistersFirst, RegistersAnswer};

use crate::known_resources::ResourcesBuilder;
use crate::registration::{Registrable, Registration};
use crate::walk::{FoundResource, find_resources};
use fact_entity::{AbstractResourceIndex, OutOfMemory, ResourceId, ResourceIndex};
use fact_source::{ComponentEntityType, SourceTypes};
use fact_wasm::{Seq, Text};

impl ResourcesBuilder {
    /// Walks an import or export, and the exports of instances in it, in order. Each resource without a registration is
    /// registered as what the closure answers for the path of names that leads to it. Registrations made before a refusal
    /// stay.
    pub fn register_component_entity_type<F: FnMut(&[Text]) -> ResourceIndex>(
        &mut self,
        types: &SourceTypes,
        ty: ComponentEntityType,
        path: &mut Seq<Text>,
        register: &mut F,
    ) -> Result<(), OutOfMemory>
        requires { F.IsAlwaysCallable register.old }
        ensures all { OnOk result (RegistersEach (RegistersAnswer is.Concrete (CalledAt F.FnMut)) register.old self.old (resources_of types.now path.old ty) register.new self.new) }
        ensures first { OnErr result (RegistersFirst (RegistersAnswer is.Concrete (CalledAt F.FnMut)) register.old self.old (resources_of types.now path.old ty) register.new self.new) }
        ensures rest { KeepsTables self.old self.new }
        ensures path { path.new ≡ path.old }
        ensures callable { F.IsAlwaysCallable register.new }
    {
        let mut resources = path.empty_like();
        find_resources(types, ty, path, &mut resources)?;
        self.register_found(resources.as_slice(), register)
    }

    /// The same over abstract resources.
    pub fn register_abstract_component_entity_type<F: FnMut(&[Text]) -> AbstractResourceIndex>(
        &mut self,
        types: &SourceTypes,
        ty: ComponentEntityType,
        path: &mut Seq<Text>,
        register: &mut F,
    ) -> Result<(), OutOfMemory>
        requires { F.IsAlwaysCallable register.old }
        ensures all { OnOk result (RegistersEach (RegistersAnswer is.Abstract (CalledAt F.FnMut)) register.old self.old (resources_of types.now path.old ty) register.new self.new) }
        ensures first { OnErr result (RegistersFirst (RegistersAnswer is.Abstract (CalledAt F.FnMut)) register.old self.old (resources_of types.now path.old ty) register.new self.new) }
        ensures rest { KeepsTables self.old self.new }
        ensures path { path.new ≡ path.old }
        ensures callable { F.IsAlwaysCallable register.new }
    {
        let mut resources = path.empty_like();
        find_resources(types, ty, path, &mut resources)?;
        self.register_found(resources.as_slice(), register)
    }

    // Registers the resources that were found and have no registration.
    fn register_found<R: Registrable, F: FnMut(&[Text]) -> R>(
        &mut self,
        found: &[FoundResource],
        register: &mut F,
    ) -> Result<(), OutOfMemory>
        requires { F.IsAlwaysCallable register.old }
        ensures all { OnOk result (RegistersEach (RegistersAnswer R.registration (CalledAt F.FnMut)) register.old self.old found.now register.new self.new) }
        ensures first { OnErr result (RegistersFirst (RegistersAnswer R.registration (CalledAt F.FnMut)) register.old self.old found.now register.new self.new) }
        ensures rest { KeepsTables self.old self.new }
        ensures callable { F.IsAlwaysCallable register.new }
    {
        for (path, id) in found {
            self.register_next(path, *id, register)?;
        }
        Ok(())
    }

    // Registers a resource where it has no registration.
    fn register_next<R: Registrable, F: FnMut(&[Text]) -> R>(
        &mut self,
        path: &Seq<Text>,
        id: ResourceId,
        register: &mut F,
    ) -> Result<(), OutOfMemory>
        requires { F.IsAlwaysCallable register.old }
        ensures told { OnOk result (RegistersEach (RegistersAnswer R.registration (CalledAt F.FnMut)) register.old self.old ((path.now, id) ∷ []) register.new self.new) }
        ensures refused { OnErr result ((register.new ≡ register.old) × (self.new ≡ self.old)) }
        ensures rest { KeepsTables self.old self.new }
        ensures callable { F.IsAlwaysCallable register.new }
    {
        if self.is_registered(id) {
            return Ok(());
        }
        self.registered.reserve(1)?;
        let answer = register(path.as_slice());
        self.registered.insert(id, answer.registration()).unwrap();
        Ok(())
    }
}
