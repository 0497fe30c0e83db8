//! The types that the functions of a form need.

ghost use Rattle.std.specs.Prelude.{◌≡◌, ◌+◌, ◌*◌, ◌≤◌, ◌++◌, false, length, IfOk, OnOk};
ghost use Rattle.fact_generate.specs.declared.form.AdapterForm.TheVariants as form;
ghost use Rattle.fact_generate.specs.Forms.{cases_for, fields_for, nest_ref, nest_types, types_for};

use crate::form::AdapterForm;
use fact_plan::{PlanRef, PlanType, PrimitiveValType};
use fact_types::OutOfMemory;
use fact_wasm::{Seq, Text};
use std::alloc::Global;

/// The fields of the record.
fn fields_for(alloc: Global, lifts: bool) -> Result<Seq<(Text, PlanRef)>, OutOfMemory>
    ensures { IfOk result (λ fields. fields ≡ fields_for lifts) }
{
    let a = (
        Text::from_str(alloc, "a")?,
        PlanRef::Word(PrimitiveValType::U8),
    );
    let b = (
        Text::from_str(alloc, "b")?,
        PlanRef::Word(PrimitiveValType::U32),
    );
    let fields = if lifts {
        vec![in alloc; b, a]?
    } else {
        vec![in alloc; a, b]?
    };
    Ok(Seq::from_vec(fields))
}

/// The cases of the variant.
fn cases_for(alloc: Global, lifts: bool) -> Result<Seq<(Text, Option<PlanRef>)>, OutOfMemory>
    ensures { IfOk result (λ cases. cases ≡ cases_for lifts) }
{
    let p = (
        Text::from_str(alloc, "p")?,
        Some(PlanRef::Word(PrimitiveValType::Float32)),
    );
    let q = (
        Text::from_str(alloc, "q")?,
        Some(PlanRef::Word(PrimitiveValType::Float64)),
    );
    let r = (Text::from_str(alloc, "r")?, None);
    let cases = if lifts {
        vec![in alloc; r, q, p]?
    } else {
        vec![in alloc; p, q, r]?
    };
    Ok(Seq::from_vec(cases))
}

/// The type that is nested so deep, where its types stand from a place on.
pub(crate) fn nest_ref(place: u32, depth: u32) -> PlanRef
    requires { place + 2 * depth ≤ 4294967295 }
    ensures { result ≡ nest_ref place depth }
{
    if depth == 0 {
        PlanRef::Word(PrimitiveValType::U32)
    } else {
        PlanRef::Entry(place + (2 * depth - 1))
    }
}

/// Adds the types of what is nested so deep.
fn add_nest_types(alloc: Global, types: &mut Seq<PlanType>, depth: u32) -> Result<(), OutOfMemory>
    requires { length types.old + 2 * depth ≤ 4294967295 }
    ensures { OnOk result (types.new ≡ types.old ++ nest_types (length types.old) depth) }
{
    let place = types.len() as u32;
    for level in 0..depth {
        let inner = nest_ref(place, level);
        let list = PlanRef::Entry(place + 2 * level);
        let members = vec![in alloc; inner, list]?;
        types.push(PlanType::List(inner))?;
        types.push(PlanType::Tuple(Seq::from_vec(members)))?;
    }
    Ok(())
}

/// Adds an option, and a result of a string or that option.
fn add_result_types(types: &mut Seq<PlanType>) -> Result<(), OutOfMemory>
    requires { length types.old ≤ 4294967295 }
    ensures { OnOk result (types.new ≡ types.old ++ types_for false form.Many (length types.old)) }
{
    let option = PlanRef::Entry(types.len() as u32);
    let string = PlanRef::Word(PrimitiveValType::String);
    types.push(PlanType::Option(PlanRef::Word(PrimitiveValType::U64)))?;
    types.push(PlanType::Result(Some(string), Some(option)))
}

/// Adds the types of a side of a form. Their places are u32.
pub(crate) fn add_types(
    alloc: Global,
    types: &mut Seq<PlanType>,
    lifts: bool,
    form: AdapterForm,
) -> Result<(), OutOfMemory>
    requires { length types.old + length (types_for lifts form (length types.old)) ≤ 4294967295 }
    ensures { OnOk result (types.new ≡ types.old ++ types_for lifts form (length types.old)) }
{
    match form {
        AdapterForm::Number | AdapterForm::Chars | AdapterForm::Text => Ok(()),
        AdapterForm::Record => types.push(PlanType::Record(fields_for(alloc, lifts)?)),
        AdapterForm::List => types.push(PlanType::List(PlanRef::Word(PrimitiveValType::U16))),
        AdapterForm::Variant => types.push(PlanType::Variant(cases_for(alloc, lifts)?)),
        AdapterForm::Nest(depth) => add_nest_types(alloc, types, depth),
        AdapterForm::Many => add_result_types(types),
    }
}
