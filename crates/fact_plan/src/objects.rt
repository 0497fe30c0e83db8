//! The objects of a plan, and the plan itself.
ghost use Rattle.serde_json.specs.View.{view};
ghost use Rattle.fact_plan.specs.Fault.{Gives};
ghost use Rattle.fact_plan.specs.Plan.{adapter_in, core_type_in, func_in, memory_in, plan_in, plan_of, rest_of_plan, side_in, tunables_in};
ghost use Rattle.fact_plan.specs.Parts.{field as field_in};

use crate::fault::PlanFault;
use crate::parts::{FromJson, check_known, check_required, field, field_or};
use crate::plan::{FusePlan, PlanAdapter, PlanFunc, PlanMemory, PlanSide, PlanTunables, PlanType};
use fact_types::StringEncoding;
use fact_wasm::{FuncType, Seq};
use serde_json::Value;
use std::alloc::Global;

const CORE_TYPE_KEYS: [&str; 2] = ["params", "results"];

const REQUIRED_FUNC_KEYS: [&str; 2] = ["params", "results"];

const FUNC_KEYS: [&str; 3] = ["params", "results", "async"];

const REQUIRED_MEMORY_KEYS: [&str; 1] = ["def"];

const MEMORY_KEYS: [&str; 4] = ["def", "memory64", "shared", "page_size_log2"];

const REQUIRED_SIDE_KEYS: [&str; 3] = ["ty", "instance", "core_type"];

const SIDE_KEYS: [&str; 9] = [
    "ty",
    "instance",
    "core_type",
    "encoding",
    "async",
    "memory",
    "realloc",
    "callback",
    "post_return",
];

const REQUIRED_ADAPTER_KEYS: [&str; 4] = ["name", "func", "lift", "lower"];

const ADAPTER_KEYS: [&str; 5] = ["name", "func", "lift", "lower", "transparent"];

const TUNABLES_KEYS: [&str; 3] = ["concurrency", "exceptions", "debug"];

const REQUIRED_PLAN_KEYS: [&str; 7] = [
    "instances",
    "types",
    "tables",
    "funcs",
    "core_types",
    "core_defs",
    "adapters",
];

const PLAN_KEYS: [&str; 8] = [
    "instances",
    "types",
    "tables",
    "funcs",
    "core_types",
    "core_defs",
    "adapters",
    "tunables",
];

/// The exponent of the page size of a memory that names none.
const DEFAULT_PAGE_SIZE_LOG2: u8 = 16;

/// The tunables of a plan that names none, and the fuel of every plan.
const DEFAULT_TUNABLES: PlanTunables = PlanTunables {
    concurrency: false,
    exceptions: false,
    debug: false,
    fuel: 1000,
};

impl FromJson for FuncType {
    ghost reads = { core_type_in };

    #[tactic(auto, unfolding(crate::specs::Plan::core_type_in))]
    fn from_json(alloc: Global, value: &Value) -> Result<FuncType, PlanFault> {
        check_known(alloc, value, &CORE_TYPE_KEYS)?;
        check_required(alloc, value, &CORE_TYPE_KEYS)?;
        let params = field(alloc, value, "params")?;
        let results = field(alloc, value, "results")?;
        Ok(FuncType { params, results })
    }
}

impl FromJson for PlanFunc {
    ghost reads = { func_in };

    #[tactic(auto, unfolding(crate::specs::Plan::func_in))]
    fn from_json(alloc: Global, value: &Value) -> Result<PlanFunc, PlanFault> {
        check_known(alloc, value, &FUNC_KEYS)?;
        check_required(alloc, value, &REQUIRED_FUNC_KEYS)?;
        let params = field(alloc, value, "params")?;
        let results = field(alloc, value, "results")?;
        let async_ = field_or(alloc, value, "async", false)?;
        Ok(PlanFunc {
            params,
            results,
            async_,
        })
    }
}

impl FromJson for PlanMemory {
    ghost reads = { memory_in };

    #[tactic(auto, unfolding(crate::specs::Plan::memory_in))]
    fn from_json(alloc: Global, value: &Value) -> Result<PlanMemory, PlanFault> {
        check_known(alloc, value, &MEMORY_KEYS)?;
        check_required(alloc, value, &REQUIRED_MEMORY_KEYS)?;
        let def = field(alloc, value, "def")?;
        let memory64 = field_or(alloc, value, "memory64", false)?;
        let shared = field_or(alloc, value, "shared", false)?;
        let page_size_log2 = field_or(alloc, value, "page_size_log2", DEFAULT_PAGE_SIZE_LOG2)?;
        Ok(PlanMemory {
            def,
            memory64,
            shared,
            page_size_log2,
        })
    }
}

impl FromJson for PlanSide {
    ghost reads = { side_in };

    #[tactic(auto, unfolding(crate::specs::Plan::side_in))]
    fn from_json(alloc: Global, value: &Value) -> Result<PlanSide, PlanFault> {
        check_known(alloc, value, &SIDE_KEYS)?;
        check_required(alloc, value, &REQUIRED_SIDE_KEYS)?;
        let ty = field(alloc, value, "ty")?;
        let instance = field(alloc, value, "instance")?;
        let core_type = field(alloc, value, "core_type")?;
        let encoding = field_or(alloc, value, "encoding", StringEncoding::Utf8)?;
        let async_ = field_or(alloc, value, "async", false)?;
        let memory = field_or(alloc, value, "memory", None)?;
        let realloc = field_or(alloc, value, "realloc", None)?;
        let callback = field_or(alloc, value, "callback", None)?;
        let post_return = field_or(alloc, value, "post_return", None)?;
        Ok(PlanSide {
            ty,
            instance,
            core_type,
            encoding,
            async_,
            memory,
            realloc,
            callback,
            post_return,
        })
    }
}

impl FromJson for PlanAdapter {
    ghost reads = { adapter_in };

    #[tactic(auto, unfolding(crate::specs::Plan::adapter_in))]
    fn from_json(alloc: Global, value: &Value) -> Result<PlanAdapter, PlanFault> {
        check_known(alloc, value, &ADAPTER_KEYS)?;
        check_required(alloc, value, &REQUIRED_ADAPTER_KEYS)?;
        let name = field(alloc, value, "name")?;
        let func = field(alloc, value, "func")?;
        let lift = field(alloc, value, "lift")?;
        let lower = field(alloc, value, "lower")?;
        let transparent = field_or(alloc, value, "transparent", false)?;
        Ok(PlanAdapter {
            name,
            func,
            transparent,
            lift,
            lower,
        })
    }
}

impl FromJson for PlanTunables {
    ghost reads = { tunables_in };

    #[tactic(auto, unfolding(crate::specs::Plan::tunables_in))]
    fn from_json(alloc: Global, value: &Value) -> Result<PlanTunables, PlanFault> {
        check_known(alloc, value, &TUNABLES_KEYS)?;
        let concurrency = field_or(alloc, value, "concurrency", false)?;
        let exceptions = field_or(alloc, value, "exceptions", false)?;
        let debug = field_or(alloc, value, "debug", false)?;
        Ok(PlanTunables {
            concurrency,
            exceptions,
            debug,
            ..DEFAULT_TUNABLES
        })
    }
}

impl FromJson for FusePlan {
    ghost reads = { plan_in };

    #[tactic(auto, unfolding(crate::specs::Plan::plan_in))]
    fn from_json(alloc: Global, value: &Value) -> Result<FusePlan, PlanFault> {
        check_known(alloc, value, &PLAN_KEYS)?;
        check_required(alloc, value, &REQUIRED_PLAN_KEYS)?;
        let instances = field(alloc, value, "instances")?;
        let types = field(alloc, value, "types")?;
        let tables = field(alloc, value, "tables")?;
        let funcs = field(alloc, value, "funcs")?;
        rest_of_plan(alloc, value, instances, types, tables, funcs)
    }
}

/// A plan, when its instances, types, tables and functions are read.
#[tactic(auto, unfolding(crate::specs::Plan::rest_of_plan))]
fn rest_of_plan(
    alloc: Global,
    value: &Value,
    instances: u32,
    types: Seq<PlanType>,
    tables: Seq<(u32, u32)>,
    funcs: Seq<PlanFunc>,
) -> Result<FusePlan, PlanFault>
    ensures { Gives (rest_of_plan instances types tables funcs (view value.now)) result }
{
    let core_types = field(alloc, value, "core_types")?;
    let core_defs = field(alloc, value, "core_defs")?;
    let adapters = field(alloc, value, "adapters")?;
    let tunables = field_or(alloc, value, "tunables", DEFAULT_TUNABLES)?;
    Ok(FusePlan {
        instances,
        types,
        tables,
        funcs,
        core_types,
        core_defs,
        adapters,
        tunables,
    })
}

/// The plan that stands in a JSON value, or the first fault in it: in each object the least unknown key by bytes, then
/// the first missing key, then the first key whose value has a fault; a list goes from its front.
#[tactic(auto, unfolding(crate::specs::Plan::plan_of))]
pub fn plan_of(alloc: Global, value: &Value) -> Result<FusePlan, PlanFault>
    ensures { Gives (plan_of (view value.now)) result }
{
    match FusePlan::from_json(alloc, value) {
        Ok(plan) => Ok(plan),
        Err(fault) => Err(fault.under(alloc, "plan")?),
    }
}

/// The plan that stands at a key of an object, which has to be there, or the first fault in it; the path to a fault begins with a dot and the key.
pub fn plan_at(alloc: Global, object: &Value, key: &str) -> Result<FusePlan, PlanFault>
    ensures { Gives (field_in plan_in key.now (view object.now)) result }
{
    field(alloc, object, key)
}
