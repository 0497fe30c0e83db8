//! Function types.

ghost use Rattle.std.specs.Prelude.{◌≡◌, ◌<◌, ◌∷◌, [], List, length, map, flat_map, option_to_list, All, IfOk};
ghost use Rattle.std.specs.List.{AllZip};
ghost use Rattle.fact_source.specs.declared.defined.ComponentValType.{ComponentValType};
ghost use Rattle.fact_source.specs.declared.items.ComponentEntityType.TheVariants as entity;
ghost use Rattle.fact_source.specs.Live.{IsPayloadBelow};
ghost use Rattle.fact_source.specs.SourceTables.{SourceTables};
ghost use Rattle.fact_types.specs.declared.interface.InterfaceType.TheVariants as plain;
ghost use Rattle.fact_types.specs.declared.interface.TypeDef.TheVariants as def;
ghost use Rattle.fact_types.specs.Tables.{IsLive};
ghost use Rattle.fact_builder.specs.Keeps.{Keeps};
ghost use Rattle.fact_convert.specs.Conversion.{IsReadyFor};
ghost use Rattle.fact_convert.specs.Converted.{IsTypeFrom, IsTupleFrom, IsDefFrom};
ghost use Rattle.fact_convert.specs.BuilderTables.{tables_of};
ghost use Rattle.fact_convert.specs.Progress.{Comes, IsFuncAt, func_own_tasks};
ghost use Rattle.fact_convert.specs.Tasks.{makes_tuple, tasks_of, value_tasks};

use crate::members::named_types;
use crate::values::types_of_values;
use fact_builder::{BuildError, ComponentTypesBuilder, make_tuple};
use fact_entity::OutOfMemory;
use fact_source::{ComponentFuncTypeId, ComponentValType, SourceFunc, SourceTypes};
use fact_types::{InterfaceType, TypeFunc, TypeFuncIndex, TypeTupleIndex};
use fact_wasm::{Seq, Text};
use std::alloc::Global;

// Converts a function type.
pub(crate) fn func_type(
    builder: &mut ComponentTypesBuilder,
    types: &SourceTypes,
    id: ComponentFuncTypeId,
) -> Result<TypeFuncIndex, BuildError>
    requires ready { IsReadyFor types.now builder.old }
    requires live { id.number < length types.now.funcs }
    ensures { Comes types.now builder.old (tasks_of types.now (entity.Func id)) (λ c i. IsDefFrom types.now c (entity.Func id) (def.ComponentFunc i)) builder.new result }
{
    types.reveal();
    let Some(func) = types.get_func(id) else {
        unreachable!();
    };
    let named = named_types(builder.allocator(), func.params.as_slice())?;
    let params = types_of_values(builder, types, named.as_slice())?;
    let results = types_of_payload(builder, types, func.result)?;
    func_of(builder, func, params.as_slice(), results.as_slice())
}

// Converts the type of a result, where there is one.
fn types_of_payload(
    builder: &mut ComponentTypesBuilder,
    types: &SourceTypes,
    payload: Option<ComponentValType>,
) -> Result<Seq<InterfaceType>, BuildError>
    requires ready { IsReadyFor types.now builder.old }
    requires live { IsPayloadBelow (length types.now.defined) payload }
    ensures { Comes types.now builder.old (flat_map (value_tasks types.now) (option_to_list payload)) (λ c ts. AllZip (IsTypeFrom types.now c) (option_to_list payload) ts) builder.new result }
{
    match payload {
        Some(ty) => types_of_values(builder, types, &[ty]),
        None => Ok(Seq::new(builder.allocator())),
    }
}

// The function whose parameters and result became these.
fn func_of(
    builder: &mut ComponentTypesBuilder,
    func: &SourceFunc,
    params: &[InterfaceType],
    results: &[InterfaceType],
) -> Result<TypeFuncIndex, BuildError>
    requires params { All (IsLive (tables_of builder.old)) params.now }
    requires results { All (IsLive (tables_of builder.old)) results.now }
    ensures { (s : SourceTables) → AllZip (IsTypeFrom s builder.old) (map (λ p. p.1) func.now.params) params.now → AllZip (IsTypeFrom s builder.old) (option_to_list func.now.result) results.now → Comes s builder.old (func_own_tasks func.now) (IsFuncAt s func.now) builder.new result }
{
    let params = tuple_of(builder, params)?;
    let results = tuple_of(builder, results)?;
    let param_names = names_of(builder.allocator(), func.params.as_slice())?;
    let entry = TypeFunc {
        async_: func.async_,
        param_names,
        params,
        results,
    };
    let index = builder.add_func_type(entry)?;
    Ok(index)
}

// The index of the tuple of types that were converted before.
fn tuple_of(
    builder: &mut ComponentTypesBuilder,
    types: &[InterfaceType],
) -> Result<TypeTupleIndex, BuildError>
    requires { All (IsLive (tables_of builder.old)) types.now }
    ensures keeps { Keeps (tables_of builder.old) (tables_of builder.new) }
    ensures live { IfOk result (λ i. IsLive (tables_of builder.new) (plain.Tuple i)) }
    ensures comes { (s : SourceTables) (vs : List ComponentValType) → AllZip (IsTypeFrom s builder.old) vs types.now → Comes s builder.old (makes_tuple vs ∷ []) (λ c i. IsTupleFrom s c vs (plain.Tuple i)) builder.new result }
{
    let listed = types.to_vec(builder.allocator())?;
    let tuple = make_tuple(builder.allocator(), builder, Seq::from_vec(listed))?;
    match tuple {
        InterfaceType::Tuple(index) => Ok(index),
        _ => unreachable!(),
    }
}

// The names of parameters.
fn names_of(alloc: Global, params: &[(Text, ComponentValType)]) -> Result<Seq<Text>, OutOfMemory>
    ensures { IfOk result (λ names. names ≡ map (λ p. p.0) params.now) }
{
    let mut names = Seq::new(alloc);
    for (name, _) in params {
        names.push(name.try_clone()?)?;
    }
    Ok(names)
}
