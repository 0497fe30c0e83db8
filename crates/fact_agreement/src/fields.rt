//! The fields of a record, found by their names.

ghost use Rattle.std.specs.Prelude.{◌≡◌, ℕ, ◌↔◌, List, IfOk, IsTrue, Contains, is_some};
ghost use Rattle.std.specs.List.{list_all};
ghost use Rattle.fact_agreement.specs.Named.{type_named, field_names, at_name};

use fact_types::{InterfaceType, RecordField};
use fact_wasm::{OutOfMemory, Text};
use indexmap::IndexMap;
use std::alloc::Global;
use std::marker::Model;

/// The fields of a record with their types by name. Contracts see it as the list of the fields.
#[derive(Drop)]
pub(crate) struct NamedFields<'a> {
    fields: &'a [RecordField],
    // By each name the type of the first field of it.
    types: IndexMap<&'a str, InterfaceType>,
}

impl<'a> Model for NamedFields<'a> {
    ghost use Rattle.std.specs.Prelude.{List};
    ghost use Rattle.fact_types.specs.declared.kinds.RecordField.{RecordField};
    ghost use Rattle.fact_agreement.specs.Named.{IsByName};

    ghost Value = { List RecordField };

    ghost view = { λ n. n.fields.now };

    ghost invariant = { λ n. IsByName n.fields.now n.types };
}

impl<'a> NamedFields<'a> {
    /// Fields of which several may have one name.
    pub(crate) fn new(
        alloc: Global,
        fields: &'a [RecordField],
    ) -> Result<NamedFields<'a>, OutOfMemory>
        ensures { IfOk result (λ n. n ≡ fields.now) }
    {
        let types = types_by_name(alloc, fields)?;
        Ok(NamedFields { fields, types })
    }

    /// The type of the first field of a name, or `None` where no field has it.
    pub(crate) fn ty(&self, name: &Text) -> Option<InterfaceType>
        ensures { result ≡ type_named name.now self.now }
    {
        self.types.get(name.as_str()).copied()
    }
}

/// Whether the name of each of some fields is that of one of others.
pub(crate) fn are_names_of(
    alloc: Global,
    fields: &[RecordField],
    others: &[RecordField],
) -> Result<bool, OutOfMemory>
    ensures { IfOk result (λ told. IsTrue told ↔ ((x : List ℕ) → Contains (field_names fields.now) x → Contains (field_names others.now) x)) }
{
    let types = types_by_name(alloc, others)?;
    Ok(are_keys(&types, fields))
}

/// The types of fields by their names; of fields with one name, that of the first.
fn types_by_name(
    alloc: Global,
    fields: &[RecordField],
) -> Result<IndexMap<&str, InterfaceType>, OutOfMemory>
    ensures { IfOk result (λ m. (x : List ℕ) → at_name m x ≡ type_named x fields.now) }
{
    let mut types = IndexMap::with_capacity(alloc, fields.len())?;
    for field in fields {
        let name = field.name.as_str();
        if !types.contains_key(name) {
            types.insert(name, field.ty)?;
        }
    }
    Ok(types)
}

/// Whether a type is found by the name of each field.
fn are_keys(types: &IndexMap<&str, InterfaceType>, fields: &[RecordField]) -> bool
    ensures { result ≡ list_all (λ f. is_some (at_name types.now f.name)) fields.now }
{
    fields
        .iter()
        .all(|field| types.contains_key(field.name.as_str()))
}
