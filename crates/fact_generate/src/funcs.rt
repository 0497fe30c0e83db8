//! The functions of the forms, over types that stand from a place on.

ghost use Rattle.std.specs.Prelude.{◌≡◌, ◌+◌, ◌≤◌, false, length, IfOk};
ghost use Rattle.fact_generate.specs.declared.form.AdapterForm.TheVariants as form;
ghost use Rattle.fact_generate.specs.Forms.{many_params, params_for, results_for, types_for, x_alone};
ghost use Rattle.fact_generate.specs.Generated.{func_for};

use crate::form::AdapterForm;
use crate::types::nest_ref;
use fact_plan::{PlanFunc, PlanRef, PrimitiveValType};
use fact_types::OutOfMemory;
use fact_wasm::{Seq, Text};
use std::alloc::Global;

/// How many parameters the function with the most has.
const MANY_PARAMS: u32 = 17;

/// One parameter x.
fn x_alone(alloc: Global, ty: PlanRef) -> Result<Seq<(Text, PlanRef)>, OutOfMemory>
    ensures { IfOk result (λ params. params ≡ x_alone ty) }
{
    let x = (Text::from_str(alloc, "x")?, ty);
    Ok(Seq::from_vec(vec![in alloc; x]?))
}

/// A char x and an s8 y.
fn chars_params(alloc: Global) -> Result<Seq<(Text, PlanRef)>, OutOfMemory>
    ensures { IfOk result (λ params. params ≡ params_for form.Chars 0) }
{
    let x = (
        Text::from_str(alloc, "x")?,
        PlanRef::Word(PrimitiveValType::Char),
    );
    let y = (
        Text::from_str(alloc, "y")?,
        PlanRef::Word(PrimitiveValType::S8),
    );
    Ok(Seq::from_vec(vec![in alloc; x, y]?))
}

/// The u32 parameters x0 to x16.
#[tactic(auto, using(crate::proofs::FormTypes::first_params_more))]
fn many_params(alloc: Global) -> Result<Seq<(Text, PlanRef)>, OutOfMemory>
    ensures { IfOk result (λ params. params ≡ many_params) }
{
    let mut params = Seq::new(alloc);
    for i in 0..MANY_PARAMS {
        let name = Text::from_string(format!(in alloc; "x{i}")?);
        params.push((name, PlanRef::Word(PrimitiveValType::U32)))?;
    }
    Ok(params)
}

/// The parameters of a form. The places of its types are u32.
fn params_for(
    alloc: Global,
    form: AdapterForm,
    place: u32,
) -> Result<Seq<(Text, PlanRef)>, OutOfMemory>
    requires { place + length (types_for false form place) ≤ 4294967295 }
    ensures { IfOk result (λ params. params ≡ params_for form place) }
{
    match form {
        AdapterForm::Number => x_alone(alloc, PlanRef::Word(PrimitiveValType::U32)),
        AdapterForm::Chars => chars_params(alloc),
        AdapterForm::Text => x_alone(alloc, PlanRef::Word(PrimitiveValType::String)),
        AdapterForm::Record | AdapterForm::List | AdapterForm::Variant => x_alone(
            alloc,
            PlanRef::Entry(place),
        ),
        AdapterForm::Nest(depth) => x_alone(alloc, nest_ref(place, depth)),
        AdapterForm::Many => many_params(alloc),
    }
}

/// The results of a form. The places of its types are u32.
fn results_for(alloc: Global, form: AdapterForm, place: u32) -> Result<Seq<PlanRef>, OutOfMemory>
    requires { place + length (types_for false form place) ≤ 4294967295 }
    ensures { IfOk result (λ results. results ≡ results_for form place) }
{
    let given = match form {
        AdapterForm::Number | AdapterForm::Record | AdapterForm::Variant | AdapterForm::Nest(_) =>
            return Ok(Seq::new(alloc)),
        AdapterForm::Chars => PlanRef::Word(PrimitiveValType::Bool),
        AdapterForm::Text => PlanRef::Word(PrimitiveValType::String),
        AdapterForm::List => PlanRef::Entry(place),
        AdapterForm::Many => PlanRef::Entry(place + 1),
    };
    Ok(Seq::from_vec(vec![in alloc; given]?))
}

/// The function of a form. The places of its types are u32.
pub(crate) fn func_for(
    alloc: Global,
    form: AdapterForm,
    place: u32,
) -> Result<PlanFunc, OutOfMemory>
    requires { place + length (types_for false form place) ≤ 4294967295 }
    ensures { IfOk result (λ func. func ≡ func_for form place) }
{
    let params = params_for(alloc, form, place)?;
    let results = results_for(alloc, form, place)?;
    Ok(PlanFunc {
        params,
        results,
        async_: false,
    })
}
