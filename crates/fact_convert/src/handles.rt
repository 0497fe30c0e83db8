//! Tables of the handles of futures, streams and error contexts, and of resources.

ghost use Rattle.std.specs.Prelude.{◌≡◌, ◌∷◌, [], Option, Some, None, IfOk, IfErr};
ghost use Rattle.fact_builder.specs.Known.{kept_table};
ghost use Rattle.fact_builder.specs.declared.error.BuildError.TheVariants as build;
ghost use Rattle.fact_source.specs.declared.defined.ComponentDefinedType.TheVariants as defined;
ghost use Rattle.fact_source.specs.declared.defined.ComponentValType.{ComponentValType};
ghost use Rattle.fact_source.specs.declared.defined.PrimitiveValType.TheVariants as word;
ghost use Rattle.fact_source.specs.SourceTables.{SourceTables};
ghost use Rattle.fact_types.specs.declared.interface.InterfaceType.TheVariants as plain;
ghost use Rattle.fact_types.specs.Tables.{IsLiveMember};
ghost use Rattle.fact_convert.specs.BuilderTables.{tables_of};
ghost use Rattle.fact_convert.specs.Performing.{IsMemberFrom};
ghost use Rattle.fact_convert.specs.SourceShapes.{IsPlainFrom};
ghost use Rattle.fact_convert.specs.Progress.{Comes, IsMadeFrom};
ghost use Rattle.fact_convert.specs.Tasks.{takes_table, makes_error_context, own_tasks};

use fact_builder::{BuildError, ComponentTypesBuilder};
use fact_entity::ResourceId;
use fact_types::{
    InterfaceType, RuntimeComponentInstanceIndex, TypeComponentLocalErrorContextTableIndex,
    TypeErrorContextTable, TypeFuture, TypeFutureTable, TypeResourceTableIndex, TypeStream,
    TypeStreamTable,
};

// The table of a resource.
pub(crate) fn table_of_resource(
    builder: &mut ComponentTypesBuilder,
    id: ResourceId,
) -> Result<TypeResourceTableIndex, BuildError>
    ensures { (s : SourceTables) → Comes s builder.old (takes_table id ∷ []) (λ c i. kept_table c.resources id ≡ Some i) builder.new result }
{
    builder.resource_id(id)
}

// Handles that own a resource, and such that borrow one.
pub(crate) fn type_of_own(
    builder: &mut ComponentTypesBuilder,
    id: ResourceId,
) -> Result<InterfaceType, BuildError>
    ensures { (s : SourceTables) → Comes s builder.old (own_tasks (defined.Own id)) (λ c t. IsMadeFrom s c (defined.Own id) t) builder.new result }
{
    let table = table_of_resource(builder, id)?;
    Ok(InterfaceType::Own(table))
}

pub(crate) fn type_of_borrow(
    builder: &mut ComponentTypesBuilder,
    id: ResourceId,
) -> Result<InterfaceType, BuildError>
    ensures { (s : SourceTables) → Comes s builder.old (own_tasks (defined.Borrow id)) (λ c t. IsMadeFrom s c (defined.Borrow id) t) builder.new result }
{
    let table = table_of_resource(builder, id)?;
    Ok(InterfaceType::Borrow(table))
}

// The table of the error contexts of the instance that is set.
pub(crate) fn table_of_error_contexts(
    builder: &mut ComponentTypesBuilder,
) -> Result<TypeComponentLocalErrorContextTableIndex, BuildError>
    ensures comes { (s : SourceTables) → Comes s builder.old (makes_error_context ∷ []) (λ c i. IsPlainFrom c (defined.Primitive word.ErrorContext) (plain.ErrorContext i)) builder.new result }
    ensures kept { builder.new.resources ≡ builder.old.resources }
{
    let instance = instance(builder)?;
    let table = TypeErrorContextTable { instance };
    let index = builder.add_error_context_table_type(table)?;
    Ok(index)
}

// The futures of a payload: their type is there before an instance is asked for.
pub(crate) fn type_of_futures(
    builder: &mut ComponentTypesBuilder,
    payload: Option<InterfaceType>,
) -> Result<InterfaceType, BuildError>
    requires { IsLiveMember (tables_of builder.old) payload }
    ensures { (s : SourceTables) (p : Option ComponentValType) → IsMemberFrom s builder.old p payload → Comes s builder.old (own_tasks (defined.Future p)) (λ c t. IsMadeFrom s c (defined.Future p) t) builder.new result }
{
    let ty = builder.add_future_type(TypeFuture { payload })?;
    let instance = instance(builder)?;
    let table = TypeFutureTable { ty, instance };
    let index = builder.add_future_table_type(table)?;
    Ok(InterfaceType::Future(index))
}

// The streams of a payload, in the same order.
pub(crate) fn type_of_streams(
    builder: &mut ComponentTypesBuilder,
    payload: Option<InterfaceType>,
) -> Result<InterfaceType, BuildError>
    requires { IsLiveMember (tables_of builder.old) payload }
    ensures { (s : SourceTables) (p : Option ComponentValType) → IsMemberFrom s builder.old p payload → Comes s builder.old (own_tasks (defined.Stream p)) (λ c t. IsMadeFrom s c (defined.Stream p) t) builder.new result }
{
    let ty = builder.add_stream_type(TypeStream { payload })?;
    let instance = instance(builder)?;
    let table = TypeStreamTable { ty, instance };
    let index = builder.add_stream_table_type(table)?;
    Ok(InterfaceType::Stream(index))
}

// The instance that is set.
fn instance(builder: &ComponentTypesBuilder) -> Result<RuntimeComponentInstanceIndex, BuildError>
    ensures set { IfOk result (λ n. builder.now.resources.instance ≡ Some n) }
    ensures none { IfErr result (λ e. (e ≡ build.NoInstance) × (builder.now.resources.instance ≡ None)) }
{
    builder
        .resources()
        .get_current_instance()
        .ok_or(BuildError::NoInstance)
}
