//! Fused adapter modules: from a plan of adapters to one core module that joins, for each adapter, the function that one
//! component lifts to the function that another lowers (Component Model, canonical ABI, `canon lift`, `canon lower`).
#![tactic(auto)]

mod checked;
mod fusion;
mod worked;

pub use checked::fused_modules_are_accepted;
pub use fact_adapter_rules::{
    Adapter, AdapterOptionsDfg, FuseError, MemoryOption, Place, check_plan,
};
pub use fact_assembly::{ComponentDfg, Module};
pub use fact_emit::{Tunables, WasmFeatures};
pub use fact_plan::{
    FusePlan, PlanAdapter, PlanFunc, PlanMemory, PlanRef, PlanSide, PlanTunables, PlanType,
    PrimitiveValType,
};
pub use fact_types::{
    CoreDef, FixedEncoding, Import, RuntimeComponentInstanceIndex, RuntimeInstanceIndex,
    StringEncoding, TrampolineIndex, Transcode, Trap, UnsafeIntrinsic,
};
pub use fusion::{Fused, fuse};
pub use worked::laws_of_worked_plans;
