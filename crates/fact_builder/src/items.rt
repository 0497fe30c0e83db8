//! Types of core modules, components and instances, each behind the last one.
//!
//! An entry that is equal to another one gets an index of its own. `TooLarge` comes exactly where a table holds
//! 4,294,967,295. The builder is unchanged after a refusal.

ghost use Rattle.std.specs.Prelude.{◌≡◌, ◌↔◌, ◌++◌, ◌∷◌, [], length, IfOk, OnOk, OnErr, Err};
ghost use Rattle.fact_types.specs.Tables.{AreLiveExterns, IsLiveComponent};
ghost use Rattle.fact_builder.specs.Keeps.{Keeps};

use crate::builder::ComponentTypesBuilder;
use crate::known_types::KnownTypes;
use fact_entity::PushError;
use fact_types::{
    TypeComponent, TypeComponentIndex, TypeComponentInstance, TypeComponentInstanceIndex,
    TypeModule, TypeModuleIndex,
};

impl ComponentTypesBuilder {
    /// Appends a type of core modules.
    pub fn push_module(&mut self, entry: TypeModule) -> Result<TypeModuleIndex, PushError>
        ensures key { IfOk result (λ k. k.number ≡ length self.old.tables.modules) }
        ensures table { OnOk result (self.new ≡ record self.old { tables = record self.old.tables { modules = self.old.tables.modules ++ entry ∷ [] } }) }
        ensures refused { OnErr result (self.new ≡ self.old) }
        ensures keeps { Keeps self.old.tables self.new.tables }
        ensures too_large { result ≡ Err PushError.TooLarge ↔ (length self.old.tables.modules ≡ 4294967295) }
    {
        self.types.push_module(entry)
    }

    /// Appends a type of components. Each type that its imports and exports name is live.
    pub fn push_component(&mut self, entry: TypeComponent) -> Result<TypeComponentIndex, PushError>
        requires { IsLiveComponent self.old.tables entry }
        ensures key { IfOk result (λ k. k.number ≡ length self.old.tables.components) }
        ensures table { OnOk result (self.new ≡ record self.old { tables = record self.old.tables { components = self.old.tables.components ++ entry ∷ [] } }) }
        ensures refused { OnErr result (self.new ≡ self.old) }
        ensures keeps { Keeps self.old.tables self.new.tables }
        ensures too_large { result ≡ Err PushError.TooLarge ↔ (length self.old.tables.components ≡ 4294967295) }
    {
        self.types.push_component(entry)
    }

    /// Appends a type of instances. Each type that its exports name is live.
    pub fn push_component_instance(
        &mut self,
        entry: TypeComponentInstance,
    ) -> Result<TypeComponentInstanceIndex, PushError>
        requires { AreLiveExterns self.old.tables entry.exports }
        ensures key { IfOk result (λ k. k.number ≡ length self.old.tables.component_instances) }
        ensures table { OnOk result (self.new ≡ record self.old { tables = record self.old.tables { component_instances = self.old.tables.component_instances ++ entry ∷ [] } }) }
        ensures refused { OnErr result (self.new ≡ self.old) }
        ensures keeps { Keeps self.old.tables self.new.tables }
        ensures too_large { result ≡ Err PushError.TooLarge ↔ (length self.old.tables.component_instances ≡ 4294967295) }
    {
        self.types.push_component_instance(entry)
    }
}

impl KnownTypes {
    fn push_module(&mut self, entry: TypeModule) -> Result<TypeModuleIndex, PushError>
        ensures key { IfOk result (λ k. k.number ≡ length self.old.modules) }
        ensures table { OnOk result (self.new ≡ record self.old { modules = self.old.modules ++ entry ∷ [] }) }
        ensures refused { OnErr result (self.new ≡ self.old) }
        ensures keeps { Keeps self.old self.new }
        ensures too_large { result ≡ Err PushError.TooLarge ↔ (length self.old.modules ≡ 4294967295) }
    {
        self.types.push_module(entry)
    }

    fn push_component(&mut self, entry: TypeComponent) -> Result<TypeComponentIndex, PushError>
        requires { IsLiveComponent self.old entry }
        ensures key { IfOk result (λ k. k.number ≡ length self.old.components) }
        ensures table { OnOk result (self.new ≡ record self.old { components = self.old.components ++ entry ∷ [] }) }
        ensures refused { OnErr result (self.new ≡ self.old) }
        ensures keeps { Keeps self.old self.new }
        ensures too_large { result ≡ Err PushError.TooLarge ↔ (length self.old.components ≡ 4294967295) }
    {
        self.types.push_component(entry)
    }

    fn push_component_instance(
        &mut self,
        entry: TypeComponentInstance,
    ) -> Result<TypeComponentInstanceIndex, PushError>
        requires { AreLiveExterns self.old entry.exports }
        ensures key { IfOk result (λ k. k.number ≡ length self.old.component_instances) }
        ensures table { OnOk result (self.new ≡ record self.old { component_instances = self.old.component_instances ++ entry ∷ [] }) }
        ensures refused { OnErr result (self.new ≡ self.old) }
        ensures keeps { Keeps self.old self.new }
        ensures too_large { result ≡ Err PushError.TooLarge ↔ (length self.old.component_instances ≡ 4294967295) }
    {
        self.types.push_component_instance(entry)
    }
}
