//! What an input comes to that asks for the call of an adapter.

ghost use Rattle.std.specs.Prelude.{◌≡◌, ◌≤◌, length};
ghost use Rattle.serde_json.specs.View.{view};
ghost use Rattle.fact_plan.specs.Inputs.{limit};
ghost use Rattle.fact_adapter_rules.specs.FirstFault.{IsFaultlessPlan};
ghost use Rattle.fact_call_mode.specs.Calls.{without_debug as without_debug_checks};
ghost use Rattle.fact_call_mode.specs.Replies.{IsAtPlace, IsLinkedAt, IsReplyToAdapter, IsReplyToCall, IsReplyToInput, IsReplyToJson, IsToldCall, MayBeCalled, input_with};

use crate::adapters::{adapter_at, callable_place};
use crate::hosting::call_told;
use crate::input::{Input, read_input};
use crate::reply::{CallReply, bad_plan, out_of_memory, refused};
use crate::values::{Values, values_in};
use fact_adapter_rules::{Adapter, check_plan};
use fact_module::{FusePlan, PlanTunables, fuse};
use fact_plan::read_value;
use fact_plan_types::PlanTypes;
use serde_json::Value as Json;
use std::alloc::Global;

/// A plan without debug checks, and with this fuel.
pub fn without_debug(plan: FusePlan, fuel: u32) -> FusePlan
    ensures { result ≡ without_debug_checks fuel plan }
{
    let tunables = PlanTunables {
        debug: false,
        fuel,
        ..plan.tunables
    };
    FusePlan { tunables, ..plan }
}

/// What the call of an adapter with values comes to, over the types of its plan, in the module that is fused of the plan with this fuel.
fn reply_with_values(
    alloc: Global,
    plan: FusePlan,
    types: &PlanTypes,
    adapter: &Adapter,
    name: &str,
    fuel: u32,
    values: Values,
) -> CallReply
    requires fuel { 1 ≤ fuel }
    requires may { MayBeCalled plan name.now types.now adapter.now values }
    ensures { (may : MayBeCalled plan name.now types.now adapter.now values) → IsToldCall fuel plan may.linked.links.linked values result }
{
    let quiet = without_debug(plan, fuel);
    let fusion = fuse(alloc, &quiet);
    drop(quiet);
    let fused = match fusion {
        Ok(fused) => fused,
        Err(error) => {
            drop(values);
            return out_of_memory(error);
        }
    };
    let text = call_told(alloc, types, &fused, adapter, name, values);
    drop(fused);
    match text {
        Ok(text) => CallReply::Page(text),
        Err(_) => CallReply::OutOfMemory,
    }
}

/// What the call of an adapter with the values of an input comes to, over the types of its plan.
fn reply_to_linked(
    alloc: Global,
    plan: FusePlan,
    types: &PlanTypes,
    adapter: &Adapter,
    args: &Json,
    results: &Json,
    name: &str,
    fuel: u32,
) -> CallReply
    requires fuel { 1 ≤ fuel }
    requires linked { IsLinkedAt plan name.now types.now adapter.now }
    ensures { (linked : IsLinkedAt plan name.now types.now adapter.now) → IsReplyToAdapter fuel linked.links.linked (input_with plan args.now results.now) result }
{
    match values_in(alloc, types, adapter, args, results) {
        Ok(values) => reply_with_values(alloc, plan, types, adapter, name, fuel, values),
        Err(reply) => {
            drop(plan);
            reply
        }
    }
}

/// What the call of the adapter at a place of a plan comes to, which is the one of a name.
fn reply_to_place(
    alloc: Global,
    plan: FusePlan,
    place: usize,
    args: &Json,
    results: &Json,
    name: &str,
    fuel: u32,
) -> CallReply
    requires fuel { 1 ≤ fuel }
    requires faultless { IsFaultlessPlan plan }
    requires at { IsAtPlace plan name.now place }
    ensures { IsReplyToInput fuel name.now (input_with plan args.now results.now) result }
{
    let types = match PlanTypes::new(alloc, &plan) {
        Ok(types) => types,
        Err(error) => {
            drop(plan);
            return out_of_memory(error);
        }
    };
    let adapter = match adapter_at(&plan, &types, place) {
        Ok(adapter) => adapter,
        Err(_) => {
            drop(plan);
            drop(types);
            return CallReply::OutOfMemory;
        }
    };
    let reply = reply_to_linked(alloc, plan, &types, &adapter, args, results, name, fuel);
    drop(adapter);
    drop(types);
    reply
}

/// What an input comes to.
fn reply_to_input(
    alloc: Global,
    plan: FusePlan,
    args: &Json,
    results: &Json,
    name: &str,
    fuel: u32,
) -> CallReply
    requires { 1 ≤ fuel }
    ensures { IsReplyToInput fuel name.now (input_with plan args.now results.now) result }
{
    if let Err(error) = check_plan(alloc, &plan) {
        drop(plan);
        return refused(error);
    }
    match callable_place(&plan, name) {
        Some(place) => reply_to_place(alloc, plan, place, args, results, name, fuel),
        None => {
            drop(plan);
            CallReply::NotCallable
        }
    }
}

/// What a JSON value comes to.
fn reply_to_value(alloc: Global, json: &Json, name: &str, fuel: u32) -> CallReply
    requires { 1 ≤ fuel }
    ensures { IsReplyToJson fuel name.now (view json.now) result }
{
    match read_input(alloc, json) {
        Ok(input) => {
            let Input {
                plan,
                args,
                results,
            } = input;
            reply_to_input(alloc, plan, args, results, name, fuel)
        }
        Err(fault) => bad_plan(fault),
    }
}

/// What an input of some bytes comes to, an object of a plan, of arguments and of results (`plan`, `args`, `results`): the call of the sync adapter
/// between two instances that has a name, with these values. The plan is fused without debug checks and with this fuel.
pub fn reply_to_call(alloc: Global, bytes: &[u8], name: &str, fuel: u32) -> CallReply
    requires within { length bytes.now ≤ limit }
    requires fuel { 1 ≤ fuel }
    ensures { IsReplyToCall fuel name.now bytes.now result }
{
    match read_value(alloc, bytes) {
        Ok(Some(json)) => {
            let reply = reply_to_value(alloc, &json, name, fuel);
            drop(json);
            reply
        }
        Ok(None) => CallReply::NotJson,
        Err(_) => CallReply::OutOfMemory,
    }
}
