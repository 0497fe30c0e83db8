//! The tables of handles of a plan, added to a builder.

ghost use Rattle.std.specs.Prelude.{◌≡◌, ◌<◌, ◌+◌, IfSome, OnOk, length, max};
ghost use Rattle.fact_plan.specs.declared.plan.PlanType.TheVariants as entry;
ghost use Rattle.fact_plan_types.specs.Adding.{AddsEntry, AreFirst, IsReady, Pushes};
ghost use Rattle.fact_plan_types.specs.PlanTypes.{tables_up_to};
ghost use Rattle.fact_plan_types.specs.TypeRules.{table_in};

use crate::members::payload_of;
use fact_builder::ComponentTypesBuilder;
use fact_entity::{EntityRef, PushError};
use fact_plan::{FusePlan, PlanRef, PlanType};
use fact_types::{
    InterfaceType, ResourceIndex, RuntimeComponentInstanceIndex, TypeErrorContextTable, TypeFuture,
    TypeFutureTable, TypeResourceTable, TypeStream, TypeStreamTable,
};
use fact_wasm::OutOfMemory;
use std::alloc::AllocError;

/// Adds the table of the futures of a payload in an instance.
pub(crate) fn add_future(
    builder: &mut ComponentTypesBuilder,
    types: &[InterfaceType],
    payload: Option<PlanRef>,
    instance: u32,
) -> Result<InterfaceType, PushError>
    requires { IsReady builder.old.tables types.now (entry.Future payload instance) }
    ensures { AddsEntry builder.old builder.new types.now (entry.Future payload instance) result }
{
    builder.reveal();
    let payload = payload_of(types, payload);
    let ty = builder.add_future_type(TypeFuture { payload })?;
    builder.reveal();
    let instance = RuntimeComponentInstanceIndex::from_u32(instance);
    let table = builder.add_future_table_type(TypeFutureTable { ty, instance })?;
    Ok(InterfaceType::Future(table))
}

/// Adds the table of the streams of a payload in an instance.
pub(crate) fn add_stream(
    builder: &mut ComponentTypesBuilder,
    types: &[InterfaceType],
    payload: Option<PlanRef>,
    instance: u32,
) -> Result<InterfaceType, PushError>
    requires { IsReady builder.old.tables types.now (entry.Stream payload instance) }
    ensures { AddsEntry builder.old builder.new types.now (entry.Stream payload instance) result }
{
    builder.reveal();
    let payload = payload_of(types, payload);
    let ty = builder.add_stream_type(TypeStream { payload })?;
    builder.reveal();
    let instance = RuntimeComponentInstanceIndex::from_u32(instance);
    let table = builder.add_stream_table_type(TypeStreamTable { ty, instance })?;
    Ok(InterfaceType::Stream(table))
}

/// Adds the table of the error contexts of an instance.
pub(crate) fn add_error_context(
    builder: &mut ComponentTypesBuilder,
    types: &[InterfaceType],
    instance: u32,
) -> Result<InterfaceType, PushError>
    requires { IsReady builder.old.tables types.now (entry.ErrorContext instance) }
    ensures { AddsEntry builder.old builder.new types.now (entry.ErrorContext instance) result }
{
    let instance = RuntimeComponentInstanceIndex::from_u32(instance);
    let table = builder.add_error_context_table_type(TypeErrorContextTable { instance })?;
    Ok(InterfaceType::ErrorContext(table))
}

/// Pushes the resource tables of a plan up to that of an own or a borrow.
pub(crate) fn push_resource_tables(
    builder: &mut ComponentTypesBuilder,
    plan: &FusePlan,
    entry: &PlanType,
) -> Result<(), OutOfMemory>
    requires there { IfSome (table_in entry.now) (λ n. n < length plan.now.tables) }
    requires first { AreFirst plan.now builder.old.tables }
    ensures pushed { OnOk result (Pushes plan.now builder.old builder.new) }
    ensures named { OnOk result (length builder.new.tables.resource_tables ≡ max (length builder.old.tables.resource_tables) (tables_up_to (table_in entry.now))) }
{
    match entry {
        PlanType::Own(table) | PlanType::Borrow(table) => push_up_to(builder, plan, *table),
        _ => Ok(()),
    }
}

/// Pushes the resource tables of a plan up to that of a number.
fn push_up_to(
    builder: &mut ComponentTypesBuilder,
    plan: &FusePlan,
    table: u32,
) -> Result<(), OutOfMemory>
    requires there { table < length plan.now.tables }
    requires first { AreFirst plan.now builder.old.tables }
    ensures pushed { OnOk result (Pushes plan.now builder.old builder.new) }
    ensures named { OnOk result (length builder.new.tables.resource_tables ≡ max (length builder.old.tables.resource_tables) (table + 1)) }
{
    while builder.num_resource_tables() <= table as usize {
        push_next(builder, plan)?;
    }
    Ok(())
}

/// Pushes the next resource table of a plan.
fn push_next(builder: &mut ComponentTypesBuilder, plan: &FusePlan) -> Result<(), OutOfMemory>
    requires there { length builder.old.tables.resource_tables < length plan.now.tables }
    requires first { AreFirst plan.now builder.old.tables }
    ensures pushed { OnOk result (Pushes plan.now builder.old builder.new) }
    ensures longer { OnOk result (length builder.new.tables.resource_tables ≡ length builder.old.tables.resource_tables + 1) }
{
    let tables = plan.tables.as_slice();
    let (resource, instance) = tables[builder.num_resource_tables()];
    let table = TypeResourceTable::Concrete {
        ty: ResourceIndex::from_u32(resource),
        instance: RuntimeComponentInstanceIndex::from_u32(instance),
    };
    match builder.push_resource_table(table) {
        Ok(_) => Ok(()),
        Err(_) => Err(AllocError),
    }
}
