//! The parts that plans are made of: numbers, texts, lists, pairs, absent parts, and the keys of objects.
ghost use Rattle.std.specs.Prelude.{◌≡◌, map, not, find, option_map, string_bytes, Result};
ghost use Rattle.std.specs.List.{list_any};
ghost use Rattle.std.specs.BTreeMap.{keys};
ghost use Rattle.std.specs.Str.{bytes_eq};
ghost use Rattle.serde_json.specs.Data.{Data};
ghost use Rattle.serde_json.specs.View.{view};
ghost use Rattle.fact_plan.specs.declared.fault.PlanFault.{PlanFault};
ghost use Rattle.fact_plan.specs.Fault.{Gives, at_step, key_step, place_step};
ghost use Rattle.fact_plan.specs.Parts.{bool_in, field, field_or, nullable, pair_in, known_keys, list_in, required_keys, text_in, u8_in, u32_in};

use crate::fault::{PlanFault, at_key, at_place};
use fact_wasm::{Seq, Text};
use serde_json::{Map, Value};
use std::alloc::Global;

/// A type that is read from JSON.
pub trait FromJson: Sized + Drop {
    /// What is read in a value.
    ghost reads: { Data → Result Self PlanFault };

    fn from_json(alloc: Global, value: &Value) -> Result<Self, PlanFault>
        ensures { Gives (reads (view value.now)) result };
}

impl FromJson for u8 {
    ghost reads = { u8_in };

    #[tactic(auto, unfolding(crate::specs::Parts::u8_in))]
    fn from_json(alloc: Global, value: &Value) -> Result<u8, PlanFault> {
        let Some(number) = value.as_u64() else {
            return Err(PlanFault::wrong_kind(alloc));
        };
        u8::try_from(number).map_err(|_| PlanFault::out_of_range(alloc))
    }
}

impl FromJson for u32 {
    ghost reads = { u32_in };

    #[tactic(auto, unfolding(crate::specs::Parts::u32_in))]
    fn from_json(alloc: Global, value: &Value) -> Result<u32, PlanFault> {
        let Some(number) = value.as_u64() else {
            return Err(PlanFault::wrong_kind(alloc));
        };
        u32::try_from(number).map_err(|_| PlanFault::out_of_range(alloc))
    }
}

impl FromJson for bool {
    ghost reads = { bool_in };

    #[tactic(auto, unfolding(crate::specs::Parts::bool_in))]
    fn from_json(alloc: Global, value: &Value) -> Result<bool, PlanFault> {
        value.as_bool().ok_or_else(|| PlanFault::wrong_kind(alloc))
    }
}

impl FromJson for Text {
    ghost reads = { text_in };

    #[tactic(auto, unfolding(crate::specs::Parts::text_in))]
    fn from_json(alloc: Global, value: &Value) -> Result<Text, PlanFault> {
        match value.as_str() {
            Some(text) => Ok(Text::from_str(alloc, text)?),
            None => Err(PlanFault::wrong_kind(alloc)),
        }
    }
}

/// A list of any length.
impl<T: FromJson> FromJson for Seq<T> {
    ghost reads = { list_in T.reads };

    #[tactic(auto, unfolding(crate::specs::Parts::list_in))]
    fn from_json(alloc: Global, value: &Value) -> Result<Seq<T>, PlanFault> {
        let Some(list) = value.as_array() else {
            return Err(PlanFault::wrong_kind(alloc));
        };
        let mut items = Seq::new(alloc);
        for (place, item) in list.iter().enumerate() {
            items.push(read_item(alloc, place, item)?)?;
        }
        Ok(items)
    }
}

/// A part that may be absent, which is null in JSON.
impl<T: FromJson> FromJson for Option<T> {
    ghost reads = { nullable T.reads };

    #[tactic(auto, unfolding(crate::specs::Parts::nullable))]
    fn from_json(alloc: Global, value: &Value) -> Result<Option<T>, PlanFault> {
        if value.is_null() {
            return Ok(None);
        }
        Ok(Some(T::from_json(alloc, value)?))
    }
}

/// A list of exactly two.
impl<S: FromJson, T: FromJson> FromJson for (S, T) {
    ghost reads = { pair_in S.reads T.reads };

    #[tactic(auto, unfolding(crate::specs::Parts::pair_in))]
    fn from_json(alloc: Global, value: &Value) -> Result<(S, T), PlanFault> {
        let Some(first) = value.get(0usize) else {
            return Err(PlanFault::wrong_kind(alloc));
        };
        let Some(second) = value.get(1usize) else {
            return Err(PlanFault::wrong_kind(alloc));
        };
        if value.get(2usize).is_some() {
            return Err(PlanFault::wrong_kind(alloc));
        }
        let first = read_item(alloc, 0, first)?;
        let second = read_item(alloc, 1, second)?;
        Ok((first, second))
    }
}

/// The item at a place of a list.
fn read_item<T: FromJson>(alloc: Global, place: usize, item: &Value) -> Result<T, PlanFault>
    ensures { Gives (at_step (place_step place) (T.reads (view item.now))) result }
{
    at_place(alloc, place, T::from_json(alloc, item))
}

/// The value of a key, found in its object.
pub(crate) fn read_member<T: FromJson>(
    alloc: Global,
    key: &str,
    value: &Value,
) -> Result<T, PlanFault>
    ensures { Gives (at_step (key_step key.now) (T.reads (view value.now))) result }
{
    at_key(alloc, key, T::from_json(alloc, value))
}

/// The value of a key that must be there.
pub(crate) fn field<T: FromJson>(alloc: Global, object: &Value, key: &str) -> Result<T, PlanFault>
    ensures { Gives (field T.reads key.now (view object.now)) result }
{
    match object.get(key) {
        Some(value) => read_member(alloc, key, value),
        None => Err(PlanFault::missing(alloc, key)?),
    }
}

/// The value of a key, or a default where the key is not there.
pub(crate) fn field_or<T: FromJson>(
    alloc: Global,
    object: &Value,
    key: &str,
    default: T,
) -> Result<T, PlanFault>
    ensures { Gives (field_or T.reads default key.now (view object.now)) result }
{
    match object.get(key) {
        Some(value) => read_member(alloc, key, value),
        None => Ok(default),
    }
}

/// Refuses the least key that is none of these, and what is no object.
pub fn check_known(alloc: Global, object: &Value, known: &[&str]) -> Result<(), PlanFault>
    ensures { Gives (known_keys (map (λ k. k.now) known.now) (view object.now)) result }
{
    let Some(members) = object.as_object() else {
        return Err(PlanFault::wrong_kind(alloc));
    };
    match first_unknown(members, known) {
        Some(key) => Err(PlanFault::unknown_key(alloc, key.as_str())?),
        None => Ok(()),
    }
}

// The keys of a map come in order, so the first is the least.
fn first_unknown<'a>(members: &'a Map<String, Value>, known: &[&str]) -> Option<&'a String>
    ensures { option_map (λ k. k.now) result
        ≡ find (λ k. not (list_any (λ x. bytes_eq (string_bytes k) x.now) known.now)) (keys members.entry.now) }
{
    members.keys().find(|key| !is_known(known, key.as_str()))
}

fn is_known(known: &[&str], key: &str) -> bool
    ensures { result ≡ list_any (λ k. bytes_eq key.now k.now) known.now }
{
    known.iter().any(|k| key == *k)
}

/// Refuses an object that lacks one of these keys, for the first of them that it lacks.
pub fn check_required(alloc: Global, object: &Value, keys: &[&str]) -> Result<(), PlanFault>
    ensures { Gives (required_keys (map (λ k. k.now) keys.now) (view object.now)) result }
{
    for key in keys {
        if object.get(*key).is_none() {
            return Err(PlanFault::missing(alloc, key)?);
        }
    }
    Ok(())
}
