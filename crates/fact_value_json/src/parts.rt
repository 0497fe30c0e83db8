//! What values are made of in JSON: names, and the keys of objects.
ghost use Rattle.std.specs.Prelude.{◌≡◌, IfOk, find, not, option_map, string_bytes};
ghost use Rattle.std.specs.BTreeMap.{keys};
ghost use Rattle.serde_json.specs.View.{view};
ghost use Rattle.fact_plan.specs.Fault.{Gives};
ghost use Rattle.fact_plan.specs.Parts.{is_known, known_keys, required_keys};
ghost use Rattle.fact_value_json.specs.Reading.{enum_in, flags_given, flags_in, names_in, new_name_in, null_in};

use fact_abi::Value;
use fact_plan::{PlanFault, at_place};
use fact_wasm::{OutOfMemory, Seq, Text};
use serde_json::{Map, Value as Json};
use std::alloc::Global;

/// Whether a name is one of these.
fn is_named(names: &[Text], name: &str) -> bool
    ensures { result ≡ is_known names.now name.now }
{
    names.iter().any(|known| name == known.as_str())
}

// The keys of a map come in order, so the first is the least.
fn first_unknown<'a>(members: &'a Map<String, Json>, names: &[Text]) -> Option<&'a String>
    ensures { option_map (λ k. k.now) result
        ≡ find (λ k. not (is_known names.now (string_bytes k))) (keys members.entry.now) }
{
    members.keys().find(|key| !is_named(names, key.as_str()))
}

/// Refuses the least key that is none of these, and what is no object. `fact_plan` does so over literals; the names here are texts of a type.
pub(crate) fn check_known(alloc: Global, json: &Json, names: &[Text]) -> Result<(), PlanFault>
    ensures { Gives (known_keys names.now (view json.now)) result }
{
    let Some(members) = json.as_object() else {
        return Err(PlanFault::wrong_kind(alloc));
    };
    match first_unknown(members, names) {
        Some(key) => Err(PlanFault::unknown_key(alloc, key.as_str())?),
        None => Ok(()),
    }
}

/// Refuses an object that lacks one of these keys, for the first of them that it lacks.
pub(crate) fn check_required(alloc: Global, json: &Json, names: &[Text]) -> Result<(), PlanFault>
    ensures { Gives (required_keys names.now (view json.now)) result }
{
    for name in names {
        if json.get(name.as_str()).is_none() {
            return Err(PlanFault::missing(alloc, name.as_str())?);
        }
    }
    Ok(())
}

/// Refuses what is not null.
pub(crate) fn check_null(alloc: Global, json: &Json) -> Result<(), PlanFault>
    ensures { Gives (null_in (view json.now)) result }
{
    if json.is_null() {
        return Ok(());
    }
    Err(PlanFault::wrong_kind(alloc))
}

/// A name that is one of these, and not among those that were given before.
#[tactic(auto, unfolding(fact_plan::specs::Parts::text_in))]
fn new_name(alloc: Global, names: &[Text], given: &[Text], json: &Json) -> Result<Text, PlanFault>
    ensures { Gives (new_name_in names.now given.now (view json.now)) result }
{
    let Some(name) = json.as_str() else {
        return Err(PlanFault::wrong_kind(alloc));
    };
    if !is_named(names, name) || is_named(given, name) {
        return Err(PlanFault::out_of_range(alloc));
    }
    Ok(Text::from_str(alloc, name)?)
}

/// The names that are given, which are distinct ones of these.
#[tactic(auto, unfolding(crate::specs::Reading::items_in))]
fn names_given(alloc: Global, names: &[Text], json: &Json) -> Result<Seq<Text>, PlanFault>
    ensures { Gives (names_in names.now (view json.now)) result }
{
    let Some(list) = json.as_array() else {
        return Err(PlanFault::wrong_kind(alloc));
    };
    let mut given = Seq::new(alloc);
    for (place, item) in list.iter().enumerate() {
        let name = new_name(alloc, names, given.as_slice(), item);
        given.push(at_place(alloc, place, name)?)?;
    }
    Ok(given)
}

/// Flags of these names, of which the given ones are set.
fn flags_set(
    alloc: Global,
    names: &[Text],
    given: &[Text],
) -> Result<Seq<(Text, bool)>, OutOfMemory>
    ensures { IfOk result (λ flags. flags ≡ flags_given names.now given.now) }
{
    let mut flags = Seq::new(alloc);
    for name in names {
        let is_set = is_named(given, name.as_str());
        flags.push((name.try_clone()?, is_set))?;
    }
    Ok(flags)
}

/// Flags, by the names of those that are set.
pub(crate) fn read_flags(alloc: Global, names: &Seq<Text>, json: &Json) -> Result<Value, PlanFault>
    ensures { Gives (flags_in names.now (view json.now)) result }
{
    let given = names_given(alloc, names.as_slice(), json)?;
    let flags = flags_set(alloc, names.as_slice(), given.as_slice())?;
    Ok(Value::Flags(flags))
}

/// A case of these names, none of which has a payload.
#[tactic(auto, unfolding(fact_plan::specs::Parts::text_in))]
pub(crate) fn read_enum(alloc: Global, names: &Seq<Text>, json: &Json) -> Result<Value, PlanFault>
    ensures { Gives (enum_in names.now (view json.now)) result }
{
    let Some(name) = json.as_str() else {
        return Err(PlanFault::wrong_kind(alloc));
    };
    if !is_named(names.as_slice(), name) {
        return Err(PlanFault::out_of_range(alloc));
    }
    Ok(Value::Case {
        name: Text::from_str(alloc, name)?,
        payload: Seq::new(alloc),
    })
}
