//! Objects of exactly one key: the entries of a plan's types, and core definitions.
ghost use Rattle.serde_json.specs.View.{view};
ghost use Rattle.fact_plan.specs.Fault.{Gives};
ghost use Rattle.fact_plan.specs.Entries.{def_by_key, core_def_in, entry_by_key, entry_in, handle_by_key, later_by_key, one_key};

use crate::fault::PlanFault;
use crate::parts::{FromJson, check_known, read_member};
use crate::plan::PlanType;
use fact_entity::EntityRef;
use fact_types::{CoreDef, RuntimeInstanceIndex, TrampolineIndex};
use serde_json::Value;
use std::alloc::Global;

const ENTRY_KEYS: [&str; 15] = [
    "record",
    "variant",
    "tuple",
    "list",
    "option",
    "map",
    "result",
    "flags",
    "enum",
    "fixed-list",
    "own",
    "borrow",
    "future",
    "stream",
    "error-context",
];

const DEF_KEYS: [&str; 2] = ["export", "trampoline"];

/// Refuses an object with more or fewer keys than one, and what is no object.
fn check_one_key(alloc: Global, value: &Value) -> Result<(), PlanFault>
    ensures { Gives (one_key (view value.now)) result }
{
    let Some(members) = value.as_object() else {
        return Err(PlanFault::wrong_kind(alloc));
    };
    match members.len() {
        0 => Err(PlanFault::no_key(alloc)),
        1 => Ok(()),
        _ => Err(PlanFault::wrong_kind(alloc)),
    }
}

#[tactic(auto, unfolding(crate::specs::Entries::entry_by_key))]
fn entry_by_key(alloc: Global, value: &Value) -> Result<PlanType, PlanFault>
    ensures { Gives (entry_by_key (view value.now)) result }
{
    if let Some(inner) = value.get("record") {
        return Ok(PlanType::Record(read_member(alloc, "record", inner)?));
    }
    if let Some(inner) = value.get("variant") {
        return Ok(PlanType::Variant(read_member(alloc, "variant", inner)?));
    }
    if let Some(inner) = value.get("tuple") {
        return Ok(PlanType::Tuple(read_member(alloc, "tuple", inner)?));
    }
    if let Some(inner) = value.get("list") {
        return Ok(PlanType::List(read_member(alloc, "list", inner)?));
    }
    if let Some(inner) = value.get("option") {
        return Ok(PlanType::Option(read_member(alloc, "option", inner)?));
    }
    later_by_key(alloc, value)
}

#[tactic(auto, unfolding(crate::specs::Entries::later_by_key))]
fn later_by_key(alloc: Global, value: &Value) -> Result<PlanType, PlanFault>
    ensures { Gives (later_by_key (view value.now)) result }
{
    if let Some(inner) = value.get("map") {
        let (key, value) = read_member(alloc, "map", inner)?;
        return Ok(PlanType::Map(key, value));
    }
    if let Some(inner) = value.get("result") {
        let (ok, err) = read_member(alloc, "result", inner)?;
        return Ok(PlanType::Result(ok, err));
    }
    if let Some(inner) = value.get("flags") {
        return Ok(PlanType::Flags(read_member(alloc, "flags", inner)?));
    }
    if let Some(inner) = value.get("enum") {
        return Ok(PlanType::Enum(read_member(alloc, "enum", inner)?));
    }
    if let Some(inner) = value.get("fixed-list") {
        let (element, length) = read_member(alloc, "fixed-list", inner)?;
        return Ok(PlanType::FixedList(element, length));
    }
    handle_by_key(alloc, value)
}

#[tactic(auto, unfolding(crate::specs::Entries::handle_by_key))]
fn handle_by_key(alloc: Global, value: &Value) -> Result<PlanType, PlanFault>
    ensures { Gives (handle_by_key (view value.now)) result }
{
    if let Some(inner) = value.get("own") {
        return Ok(PlanType::Own(read_member(alloc, "own", inner)?));
    }
    if let Some(inner) = value.get("borrow") {
        return Ok(PlanType::Borrow(read_member(alloc, "borrow", inner)?));
    }
    if let Some(inner) = value.get("future") {
        let (payload, instance) = read_member(alloc, "future", inner)?;
        return Ok(PlanType::Future(payload, instance));
    }
    if let Some(inner) = value.get("stream") {
        let (payload, instance) = read_member(alloc, "stream", inner)?;
        return Ok(PlanType::Stream(payload, instance));
    }
    if let Some(inner) = value.get("error-context") {
        return Ok(PlanType::ErrorContext(read_member(alloc, "error-context", inner)?));
    }
    Err(PlanFault::no_key(alloc))
}

impl FromJson for PlanType {
    ghost reads = { entry_in };

    #[tactic(auto, unfolding(crate::specs::Entries::entry_in))]
    fn from_json(alloc: Global, value: &Value) -> Result<PlanType, PlanFault> {
        check_known(alloc, value, &ENTRY_KEYS)?;
        check_one_key(alloc, value)?;
        entry_by_key(alloc, value)
    }
}

#[tactic(auto, unfolding(crate::specs::Entries::def_by_key))]
fn def_by_key(alloc: Global, value: &Value) -> Result<CoreDef, PlanFault>
    ensures { Gives (def_by_key (view value.now)) result }
{
    if let Some(inner) = value.get("export") {
        let (instance, name) = read_member(alloc, "export", inner)?;
        return Ok(CoreDef::Export {
            instance: RuntimeInstanceIndex::from_u32(instance),
            name,
        });
    }
    if let Some(inner) = value.get("trampoline") {
        let number = read_member(alloc, "trampoline", inner)?;
        return Ok(CoreDef::Trampoline(TrampolineIndex::from_u32(number)));
    }
    Err(PlanFault::no_key(alloc))
}

impl FromJson for CoreDef {
    ghost reads = { core_def_in };

    #[tactic(auto, unfolding(crate::specs::Entries::core_def_in))]
    fn from_json(alloc: Global, value: &Value) -> Result<CoreDef, PlanFault> {
        check_known(alloc, value, &DEF_KEYS)?;
        check_one_key(alloc, value)?;
        def_by_key(alloc, value)
    }
}
