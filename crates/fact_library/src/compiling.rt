//! From the bytes of a plan to its module and to the records of its imports.

ghost use Rattle.std.specs.Prelude.{◌≡◌, ◌≤◌, ℕ, Bool, IfErr, IfOk, MatchResult, OnOk, length};
ghost use Rattle.fact_plan.specs.declared.plan.FusePlan.{FusePlan};
ghost use Rattle.fact_adapter_rules.specs.FirstFault.{IsFaultlessPlan};
ghost use Rattle.fact_plan.specs.Inputs.{HoldsPlan, limit, tuned};
ghost use Rattle.fact_library.specs.Compiling.{EndsAs, HoldsModule, IsCompiled, IsErrorOf, IsModuleOf, status_in};
ghost use Rattle.fact_library.specs.Errors.{IsErrorOfPlan};

use crate::errors::{CompileError, bad_plan, refused};
use fact_binary::bytes_spell_one_module;
use fact_io::INPUT_LIMIT;
use fact_module::{FusePlan, Fused, PlanTunables, check_plan, fuse};
use fact_plan::{plan_of, read_value};
use fact_records::{ImportRecord, ImportRecords, import_records};
use fact_wasm::OutOfMemory;
use std::alloc::{AllocError, Global};

/// The module of a plan, and the records of its imports with the text that they point into.
#[derive(Drop)]
pub struct Compiled {
    pub fused: Fused,
    pub records: Vec<ImportRecord>,
    pub text: String,
}

/// The plan in some bytes.
fn plan_in(alloc: Global, bytes: &[u8]) -> Result<FusePlan, CompileError>
    requires { length bytes.now ≤ limit }
    ensures { MatchResult result (λ p. HoldsPlan bytes.now p) (λ e. IsErrorOf bytes.now e) }
{
    let Some(value) = read_value(alloc, bytes)? else {
        return Err(CompileError::NotJson);
    };
    match plan_of(alloc, &value) {
        Ok(plan) => Ok(plan),
        Err(fault) => Err(bad_plan(alloc, &fault)),
    }
}

/// The plan with debug checks where it or the caller asks for them, and with the caller's fuel.
fn tuned(plan: FusePlan, debug: bool, fuel: u32) -> FusePlan
    ensures { result ≡ tuned debug fuel plan }
{
    let tunables = PlanTunables {
        debug: plan.tunables.debug || debug,
        fuel,
        ..plan.tunables
    };
    FusePlan { tunables, ..plan }
}

/// The module of a plan that is tuned.
fn fuse_tuned(alloc: Global, plan: &FusePlan) -> Result<Fused, OutOfMemory>
    requires { 1 ≤ plan.now.tunables.fuel }
    ensures { (p : FusePlan) (debug : Bool) (fuel : ℕ) → plan.now ≡ tuned debug fuel p → IfOk result (λ f. IsModuleOf debug fuel p f) }
{
    bytes_spell_one_module();
    match fuse(alloc, plan) {
        Ok(fused) => Ok(fused),
        Err(_) => Err(AllocError),
    }
}

/// The module of a plan without faults.
fn fuse_faultless(
    alloc: Global,
    plan: FusePlan,
    debug: bool,
    fuel: u32,
) -> Result<Fused, OutOfMemory>
    requires { 1 ≤ fuel }
    ensures { IfOk result (λ f. IsModuleOf debug fuel plan f) }
{
    let tuned = tuned(plan, debug, fuel);
    let fused = fuse_tuned(alloc, &tuned);
    drop(tuned);
    fused
}

/// The module of a plan.
fn fuse_plan(alloc: Global, plan: FusePlan, debug: bool, fuel: u32) -> Result<Fused, CompileError>
    requires { 1 ≤ fuel }
    ensures faultless { OnOk result (IsFaultlessPlan plan) }
    ensures made { IfOk result (λ f. IsModuleOf debug fuel plan f) }
    ensures error { IfErr result (λ e. IsErrorOfPlan plan e) }
{
    if let Err(error) = check_plan(alloc, &plan) {
        drop(plan);
        return Err(refused(alloc, &error));
    }
    Ok(fuse_faultless(alloc, plan, debug, fuel)?)
}

/// The module of the plan in some bytes.
fn module_in(alloc: Global, bytes: &[u8], debug: bool, fuel: u32) -> Result<Fused, CompileError>
    requires within { length bytes.now ≤ limit }
    requires fuel { 1 ≤ fuel }
    ensures { MatchResult result (λ f. HoldsModule debug fuel bytes.now f) (λ e. IsErrorOf bytes.now e) }
{
    let plan = plan_in(alloc, bytes)?;
    fuse_plan(alloc, plan, debug, fuel)
}

/// The module with the records of its imports.
fn with_records(alloc: Global, fused: Fused) -> Result<Compiled, OutOfMemory>
    requires { length fused.module.imports ≡ length fused.imports }
    ensures { IfOk result (λ c. IsCompiled c fused) }
{
    let made = import_records(
        alloc,
        fused.module.imports.as_slice(),
        fused.imports.as_slice(),
    );
    match made {
        Ok(told) => {
            let ImportRecords { records, text } = told;
            Ok(Compiled {
                fused,
                records,
                text,
            })
        }
        Err(error) => {
            drop(fused);
            Err(error)
        }
    }
}

/// The module of the plan in some bytes, with its records, where they are not too many.
fn compiled_in(
    alloc: Global,
    bytes: &[u8],
    debug: bool,
    fuel: u32,
) -> Result<Compiled, CompileError>
    requires { 1 ≤ fuel }
    ensures made { IfOk result (λ c. HoldsModule debug fuel bytes.now c.fused) }
    ensures records { IfOk result (λ c. IsCompiled c c.fused) }
    ensures error { IfErr result (λ e. IsErrorOf bytes.now e) }
{
    if INPUT_LIMIT < bytes.len() {
        return Err(CompileError::TooLong);
    }
    let fused = module_in(alloc, bytes, debug, fuel)?;
    let compiled = with_records(alloc, fused)?;
    Ok(compiled)
}

/// The module of the plan in some bytes, a JSON text, and the records of its imports. Debug checks are made where the plan or `debug` asks for
/// them, and `fuel` says how much translation a function may hold, as `factc --fuel` does. Without a module it is told why not, by the first
/// reason: too many bytes, no JSON text, no plan, a plan with a fault. Want of memory may be told in place of each but the first of these.
pub fn compile(
    alloc: Global,
    bytes: &[u8],
    debug: bool,
    fuel: u32,
) -> Result<Compiled, CompileError>
    requires { 1 ≤ fuel }
    ensures made { IfOk result (λ c. HoldsModule debug fuel bytes.now c.fused) }
    ensures records { IfOk result (λ c. IsCompiled c c.fused) }
    ensures error { IfErr result (λ e. IsErrorOf bytes.now e) }
    ensures exactly { EndsAs bytes.now (status_in result) }
{
    compiled_in(alloc, bytes, debug, fuel)
}
