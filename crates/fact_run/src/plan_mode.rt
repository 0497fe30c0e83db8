//! The mode that reads a plan: from the bytes of the source to the text that prints its module.

ghost use Rattle.std.specs.Prelude.{◌≡◌, ◌≢◌, ◌≤◌, ◌+◌, length, string_bytes, IfOk, MatchResult};
ghost use Rattle.fact_io.specs.Faults.{Rose};
ghost use Rattle.fact_io.specs.Transfers.{TakesUpTo};
ghost use Rattle.fact_plan.specs.declared.plan.FusePlan.{FusePlan};
ghost use Rattle.fact_plan.specs.Inputs.{HoldsPlan, limit};
ghost use Rattle.fact_adapter_rules.specs.FirstFault.{IsFaultlessPlan};
ghost use Rattle.fact_command.specs.declared.command.CommandOptions.{CommandOptions};
ghost use Rattle.fact_run.specs.Replies.{IsReply, IsReplyTo, IsReplyToPlan};
ghost use Rattle.fact_run.specs.Run.{Prints, configured};

use crate::page::page_text;
use crate::reply::{Reply, reply_to_fault, reply_to_refusal};
use fact_binary::bytes_spell_one_module;
use fact_command::CommandOptions;
use fact_io::{InputError, Source, read_all};
use fact_module::{FusePlan, PlanTunables, check_plan, fuse};
use fact_plan::{plan_of, read_value};
use fact_wasm::OutOfMemory;
use std::alloc::{AllocError, Global};

/// The plan in some bytes, or what they come to without one.
fn plan_in(alloc: Global, bytes: &[u8]) -> Result<FusePlan, Reply>
    requires { length bytes.now ≤ limit }
    ensures { MatchResult result (λ p. HoldsPlan bytes.now p) (λ r. (o : CommandOptions) → IsReplyTo o bytes.now r) }
{
    let Some(value) = read_value(alloc, bytes)? else {
        return Err(Reply::NotJson);
    };
    match plan_of(alloc, &value) {
        Ok(plan) => Ok(plan),
        Err(fault) => Err(reply_to_fault(alloc, &fault)),
    }
}

/// The plan with the tunables that the words ask for.
pub fn configure(plan: FusePlan, options: &CommandOptions) -> FusePlan
    ensures { result ≡ configured options.now plan }
{
    let tunables = PlanTunables {
        debug: plan.tunables.debug || options.debug,
        fuel: options.fuel,
        ..plan.tunables
    };
    FusePlan { tunables, ..plan }
}

/// The text that prints the module of a plan that is configured.
fn fused_page(
    alloc: Global,
    plan: &FusePlan,
    options: &CommandOptions,
) -> Result<String, OutOfMemory>
    requires { 1 ≤ plan.now.tunables.fuel }
    ensures { (p : FusePlan) → plan.now ≡ configured options.now p → IfOk result (λ text. Prints options.now p (string_bytes text)) }
{
    bytes_spell_one_module();
    match fuse(alloc, plan) {
        Ok(fused) => {
            let bytes = fused.bytes.as_slice();
            let imports = fused.imports.as_slice();
            let text = page_text(alloc, bytes, imports, options.imports);
            drop(fused);
            text
        }
        Err(_) => Err(AllocError),
    }
}

/// The text that prints the module of a plan, with the tunables that the words ask for.
fn printed(alloc: Global, plan: FusePlan, options: &CommandOptions) -> Result<String, OutOfMemory>
    requires { 1 ≤ options.now.fuel }
    ensures { IfOk result (λ text. Prints options.now plan (string_bytes text)) }
{
    let configured = configure(plan, options);
    let text = fused_page(alloc, &configured, options);
    drop(configured);
    text
}

/// What a plan without faults comes to.
fn reply_to_faultless(alloc: Global, plan: FusePlan, options: &CommandOptions) -> Reply
    requires faultless { IsFaultlessPlan plan }
    requires fuel { 1 ≤ options.now.fuel }
    ensures { IsReplyToPlan options.now plan result }
{
    match printed(alloc, plan, options) {
        Ok(text) => Reply::Page(text),
        Err(_) => Reply::OutOfMemory,
    }
}

/// What a plan comes to.
fn reply_to_plan(alloc: Global, plan: FusePlan, options: &CommandOptions) -> Reply
    requires { 1 ≤ options.now.fuel }
    ensures { IsReplyToPlan options.now plan result }
{
    if let Err(error) = check_plan(alloc, &plan) {
        drop(plan);
        return reply_to_refusal(alloc, &error);
    }
    reply_to_faultless(alloc, plan, options)
}

/// What some bytes come to.
fn reply_to(alloc: Global, bytes: &[u8], options: &CommandOptions) -> Reply
    requires within { length bytes.now ≤ limit }
    requires fuel { 1 ≤ options.now.fuel }
    ensures { IsReplyTo options.now bytes.now result }
{
    match plan_in(alloc, bytes) {
        Ok(plan) => reply_to_plan(alloc, plan, options),
        Err(reply) => reply,
    }
}

/// What all that the source has comes to.
pub fn plan_reply<S: Source>(alloc: Global, source: &mut S, options: &CommandOptions) -> Reply
    requires { 1 ≤ options.now.fuel }
    ensures reply { IsReply options.now (S.left source.old) (S.left source.new) (Rose (S.faults source.old) (S.faults source.new)) result }
    ensures most { TakesUpTo (S.left source.old) (S.left source.new) (limit + 1) }
    ensures no_fault { result ≢ Reply.ReadFault → S.faults source.new ≡ S.faults source.old }
{
    match read_all(alloc, source) {
        Ok(bytes) => reply_to(alloc, &bytes, options),
        Err(InputError::Fault) => Reply::ReadFault,
        Err(InputError::TooLong) => Reply::TooLong,
        Err(InputError::OutOfMemory) => Reply::OutOfMemory,
    }
}
