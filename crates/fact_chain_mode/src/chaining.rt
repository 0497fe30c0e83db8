//! What an input comes to that asks for a chain of two adapters.

ghost use Rattle.std.specs.Prelude.{◌≤◌, length};
ghost use Rattle.serde_json.specs.View.{view};
ghost use Rattle.fact_plan.specs.Inputs.{limit};
ghost use Rattle.fact_adapter_rules.specs.FirstFault.{IsFaultlessPlan};
ghost use Rattle.fact_chain_mode.specs.ChainReplies.{AreAtPlaces, ArePaired, IsReplyToChain, IsReplyToInput, IsReplyToPair, IsReplyToJson, IsToldChain, MayBeChained, input_with};

use crate::hosting::chain_told;
use crate::input::{Asked, Input, read_input};
use crate::pairs::{Pair, Places, leads_to, pair_at, places_of};
use crate::values::values_in;
use fact_adapter_rules::check_plan;
use fact_call_mode::{CallReply, Values, bad_plan, out_of_memory, refused, without_debug};
use fact_module::{FusePlan, fuse};
use fact_plan::read_value;
use fact_plan_types::PlanTypes;
use serde_json::Value as Json;
use std::alloc::Global;

/// What the chain of two adapters with values comes to, over the types of their plan, in the module that is fused of the plan with this fuel.
fn reply_with_values(
    alloc: Global,
    plan: FusePlan,
    types: &PlanTypes,
    pair: &Pair,
    asked: &Asked<'_>,
    fuel: u32,
    values: Values,
) -> CallReply
    requires fuel { 1 ≤ fuel }
    requires may { MayBeChained plan asked.now types.now pair.now values }
    ensures { (may : MayBeChained plan asked.now types.now pair.now values) → IsToldChain fuel plan may.paired.first.links.linked may.paired.second.links.linked values result }
{
    let quiet = without_debug(plan, fuel);
    let fusion = fuse(alloc, &quiet);
    drop(quiet);
    match fusion {
        Ok(fused) => {
            let reply = chain_told(alloc, types, &fused, pair, asked, values);
            drop(fused);
            reply
        }
        Err(error) => {
            drop(values);
            out_of_memory(error)
        }
    }
}

/// What the chain of two adapters with the values that are asked for comes to, over the types of their plan.
fn reply_to_pair(
    alloc: Global,
    plan: FusePlan,
    types: &PlanTypes,
    pair: &Pair,
    asked: &Asked<'_>,
    fuel: u32,
) -> CallReply
    requires fuel { 1 ≤ fuel }
    requires paired { ArePaired plan asked.now.first.now asked.now.second.now types.now pair.now }
    ensures { (paired : ArePaired plan asked.now.first.now asked.now.second.now types.now pair.now) → IsReplyToPair fuel paired.first.links.linked paired.second.links.linked (input_with plan asked.now) result }
{
    if !leads_to(types, pair) {
        drop(plan);
        return CallReply::NotCallable;
    }
    match values_in(alloc, types, pair, asked) {
        Ok(values) => reply_with_values(alloc, plan, types, pair, asked, fuel, values),
        Err(reply) => {
            drop(plan);
            reply
        }
    }
}

/// What the chain of the adapters at two places of a plan comes to, which are those of the names that are asked for.
fn reply_to_places(
    alloc: Global,
    plan: FusePlan,
    places: Places,
    asked: &Asked<'_>,
    fuel: u32,
) -> CallReply
    requires fuel { 1 ≤ fuel }
    requires faultless { IsFaultlessPlan plan }
    requires at { AreAtPlaces plan asked.now.first.now asked.now.second.now places }
    ensures { IsReplyToInput fuel (input_with plan asked.now) result }
{
    let types = match PlanTypes::new(alloc, &plan) {
        Ok(types) => types,
        Err(error) => {
            drop(plan);
            return out_of_memory(error);
        }
    };
    let pair = match pair_at(&plan, &types, places) {
        Ok(pair) => pair,
        Err(_) => {
            drop(plan);
            drop(types);
            return CallReply::OutOfMemory;
        }
    };
    let reply = reply_to_pair(alloc, plan, &types, &pair, asked, fuel);
    drop(pair);
    drop(types);
    reply
}

/// What an input comes to.
fn reply_to_input(alloc: Global, plan: FusePlan, asked: &Asked<'_>, fuel: u32) -> CallReply
    requires { 1 ≤ fuel }
    ensures { IsReplyToInput fuel (input_with plan asked.now) result }
{
    if let Err(error) = check_plan(alloc, &plan) {
        drop(plan);
        return refused(error);
    }
    match places_of(&plan, asked.first, asked.second) {
        Some(places) => reply_to_places(alloc, plan, places, asked, fuel),
        None => {
            drop(plan);
            CallReply::NotCallable
        }
    }
}

/// What a JSON value comes to.
fn reply_to_value(alloc: Global, json: &Json, fuel: u32) -> CallReply
    requires { 1 ≤ fuel }
    ensures { IsReplyToJson fuel (view json.now) result }
{
    match read_input(alloc, json) {
        Ok(input) => {
            let Input { plan, asked } = input;
            reply_to_input(alloc, plan, &asked, fuel)
        }
        Err(fault) => bad_plan(fault),
    }
}

/// What an input of some bytes comes to, an object of a plan, of two names, of arguments and of results (`plan`, `first`, `second`, `args`, `results`):
/// the chain of the sync adapters between two instances that have these names, where the callee of the first makes the call of the second. The plan is
/// fused without debug checks and with this fuel.
pub fn reply_to_chain(alloc: Global, bytes: &[u8], fuel: u32) -> CallReply
    requires within { length bytes.now ≤ limit }
    requires fuel { 1 ≤ fuel }
    ensures { IsReplyToChain fuel bytes.now result }
{
    match read_value(alloc, bytes) {
        Ok(Some(json)) => {
            let reply = reply_to_value(alloc, &json, fuel);
            drop(json);
            reply
        }
        Ok(None) => CallReply::NotJson,
        Err(_) => CallReply::OutOfMemory,
    }
}
