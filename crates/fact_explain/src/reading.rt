//! Why an input is no plan.

use crate::texts::{behind_key, push_all, push_reason, shortened};
use fact_plan::PlanFault;
use fact_wasm::OutOfMemory;
use serde_json::Value;
use std::alloc::Global;

/// What is wanted at the paths of a plan, with a `*` for each place in a list and `side` for `lift` and `lower`; a word of the first lines stands for its text.
const WANTED: &str = "\
type\ta type: bool, s8, u8, s16, u16, s32, u32, s64, u64, f32, f64, char, string, or the place of an entry of types
payload\ta type or null: bool, s8, u8, s16, u16, s32, u32, s64, u64, f32, f64, char, string, or the place of an entry of types
types\ta list of types
name\ta name in quotes
bool\ttrue or false
number\ta number up to 4294967295
instance\tthe number of an instance
def\tthe place of an entry of core_defs
any_def\tthe place of an entry of core_defs, or null
core_type\ta core type: i32, i64, f32 or f64
core_types\ta list of core types
plan\tan object of the keys instances, types, tables, funcs, core_types, core_defs and adapters, and of tunables or without
plan.instances\tnumber
plan.types\ta list
plan.types.*\tan object of one key: record, variant, tuple, list, option, map, result, flags, enum, fixed-list, own, borrow, future, stream or error-context
plan.types.*.record\ta list of fields
plan.types.*.record.*\ta field: a list of a name and a type
plan.types.*.record.*.0\tname
plan.types.*.record.*.1\ttype
plan.types.*.variant\ta list of cases
plan.types.*.variant.*\ta case: a list of a name and a type, or of a name and null
plan.types.*.variant.*.0\tname
plan.types.*.variant.*.1\tpayload
plan.types.*.tuple\ttypes
plan.types.*.tuple.*\ttype
plan.types.*.list\ttype
plan.types.*.option\ttype
plan.types.*.map\ta list of the type of keys and that of values
plan.types.*.map.*\ttype
plan.types.*.result\ta list of the type of success and that of failure, each a type or null
plan.types.*.result.*\tpayload
plan.types.*.flags\ta list of names in quotes
plan.types.*.flags.*\tname
plan.types.*.enum\ta list of names in quotes
plan.types.*.enum.*\tname
plan.types.*.fixed-list\ta list of a type and a length
plan.types.*.fixed-list.0\ttype
plan.types.*.fixed-list.1\tnumber
plan.types.*.own\tthe place of an entry of tables
plan.types.*.borrow\tthe place of an entry of tables
plan.types.*.future\ta list of a type or null and the number of an instance
plan.types.*.future.0\tpayload
plan.types.*.future.1\tinstance
plan.types.*.stream\ta list of a type or null and the number of an instance
plan.types.*.stream.0\tpayload
plan.types.*.stream.1\tinstance
plan.types.*.error-context\tinstance
plan.tables\ta list
plan.tables.*\ta list of the numbers of a resource and of an instance
plan.tables.*.*\tnumber
plan.funcs\ta list
plan.funcs.*\tan object of the keys params and results, and of async or without
plan.funcs.*.params\ta list of parameters
plan.funcs.*.params.*\ta parameter: a list of a name and a type
plan.funcs.*.params.*.0\tname
plan.funcs.*.params.*.1\ttype
plan.funcs.*.results\ttypes
plan.funcs.*.results.*\ttype
plan.funcs.*.async\tbool
plan.core_types\ta list
plan.core_types.*\tan object of the keys params and results
plan.core_types.*.params\tcore_types
plan.core_types.*.params.*\tcore_type
plan.core_types.*.results\tcore_types
plan.core_types.*.results.*\tcore_type
plan.core_defs\ta list
plan.core_defs.*\tan object of one key: export or trampoline
plan.core_defs.*.export\ta list of the number of a core instance and a name
plan.core_defs.*.export.0\tthe number of a core instance
plan.core_defs.*.export.1\tname
plan.core_defs.*.trampoline\tnumber
plan.adapters\ta list
plan.adapters.*\tan object of the keys name, func, lift and lower, and of transparent or without
plan.adapters.*.name\tname
plan.adapters.*.func\tdef
plan.adapters.*.transparent\tbool
plan.adapters.*.side\tan object of the keys ty, instance and core_type, and of any of encoding, async, memory, realloc, callback and post_return
plan.adapters.*.side.ty\tthe place of an entry of funcs
plan.adapters.*.side.instance\tinstance
plan.adapters.*.side.core_type\tthe place of an entry of core_types
plan.adapters.*.side.encoding\tutf8, utf16 or compact
plan.adapters.*.side.async\tbool
plan.adapters.*.side.memory\tan object of the key def, and of any of memory64, shared and page_size_log2; or null
plan.adapters.*.side.memory.def\tdef
plan.adapters.*.side.memory.memory64\tbool
plan.adapters.*.side.memory.shared\tbool
plan.adapters.*.side.memory.page_size_log2\ta number up to 255
plan.adapters.*.side.realloc\tany_def
plan.adapters.*.side.callback\tany_def
plan.adapters.*.side.post_return\tany_def
plan.tunables\tan object of any of the keys concurrency, exceptions and debug
plan.tunables.concurrency\tbool
plan.tunables.exceptions\tbool
plan.tunables.debug\tbool
";

/// Whether a step of a path is one of a pattern.
fn is_step(pattern: &str, step: &str) -> bool {
    match pattern {
        "*" => match step.as_bytes() {
            [first, ..] => first.is_ascii_digit(),
            [] => false,
        },
        "side" => step == "lift" || step == "lower",
        _ => pattern == step,
    }
}

/// Whether a path is one of a pattern.
fn fits(pattern: &str, path: &str) -> bool {
    let mut steps = path;
    for part in pattern.split('.') {
        let (step, rest) = steps.split_once('.').unwrap_or((steps, ""));
        if !is_step(part, step) {
            return false;
        }
        steps = rest;
    }
    steps.is_empty()
}

/// What is wanted at a path, where that is known.
fn wanted_at(path: &str) -> Option<&'static str> {
    for line in WANTED.lines() {
        if let Some((pattern, wanted)) = line.split_once('\t') {
            if fits(pattern, path) {
                return behind_key(WANTED, wanted).or(Some(wanted));
            }
        }
    }
    None
}

/// The JSON pointer of a path (RFC 6901).
fn pointer_of(alloc: Global, path: &str) -> Result<String, OutOfMemory> {
    let mut pointer = String::new(alloc);
    if let Some((_, steps)) = path.split_once('.') {
        for step in steps.split('.') {
            push_all(&mut pointer, &["/", step])?;
        }
    }
    Ok(pointer)
}

/// The value at a path, in short.
fn found_at(alloc: Global, value: &Value, path: &str) -> Result<String, OutOfMemory> {
    let pointer = pointer_of(alloc, path)?;
    match value.pointer(pointer.as_str()) {
        Some(found) => {
            let text = found.to_string(alloc)?;
            shortened(alloc, text.as_str())
        }
        None => String::from_str(alloc, "nothing"),
    }
}

/// Whether there is an object at a path.
fn is_object_at(alloc: Global, value: &Value, path: &str) -> Result<bool, OutOfMemory> {
    let pointer = pointer_of(alloc, path)?;
    match value.pointer(pointer.as_str()) {
        Some(found) => Ok(found.is_object()),
        None => Ok(false),
    }
}

/// The path of a fault; that of the object, where the fault is a key that it may not have.
fn place_of(fault: &PlanFault) -> &str {
    match fault {
        PlanFault::OutOfMemory => "",
        PlanFault::UnknownKey { path } => match path.as_str().rsplit_once('.') {
            Some((object, _)) => object,
            None => "",
        },
        PlanFault::Missing { path }
        | PlanFault::WrongKind { path }
        | PlanFault::OutOfRange { path } => path.as_str(),
    }
}

/// Whether the path of a fault leads to its place: that of a key that is not known does not where the key has a dot.
fn leads(alloc: Global, value: &Value, fault: &PlanFault, path: &str) -> Result<bool, OutOfMemory> {
    match fault {
        PlanFault::UnknownKey { .. } => is_object_at(alloc, value, path),
        _ => Ok(true),
    }
}

/// What is wanted where the fault of a JSON value is, and what is there.
pub(crate) fn fault_reasons(
    alloc: Global,
    value: &Value,
    fault: &PlanFault,
) -> Result<String, OutOfMemory> {
    let path = place_of(fault);
    let mut text = String::new(alloc);
    if !leads(alloc, value, fault, path)? {
        return Ok(text);
    }
    if let Some(wanted) = wanted_at(path) {
        let found = found_at(alloc, value, path)?;
        push_reason(alloc, &mut text, path, wanted, found.as_str())?;
    }
    Ok(text)
}

/// Where bytes cease to be a JSON text.
pub(crate) fn json_reasons(alloc: Global, bytes: &[u8]) -> Result<String, OutOfMemory> {
    match Value::from_slice(alloc, bytes) {
        Ok(value) => {
            drop(value);
            Ok(String::new(alloc))
        }
        Err(error) => format!(in alloc; "  {error}\n"),
    }
}
