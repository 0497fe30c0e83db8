//! The core types of the sides of the forms: the canonical signatures of their functions, written out.

ghost use Rattle.std.specs.Prelude.{◌≡◌, map, IfOk};
ghost use Rattle.fact_types.specs.Flat.{value_type};
ghost use Rattle.fact_types.specs.FlatShapes.{flat};
ghost use Rattle.fact_types.specs.Signatures.{address, width};
ghost use Rattle.fact_generate.specs.declared.form.AdapterForm.TheVariants as form;
ghost use Rattle.fact_generate.specs.Linked.{linked_side, nest_shape};

use crate::form::AdapterForm;
use fact_types::OutOfMemory;
use fact_wasm::{FuncType, Seq, ValType};
use std::alloc::Global;

/// The deepest nest that is passed flat, by 15 flat values. The next one has 17.
const FLAT_NEST: u32 = 7;

/// The type of the addresses of a side.
fn address_type(lifts: bool) -> ValType
    ensures { result ≡ address lifts }
{
    if lifts { ValType::I64 } else { ValType::I32 }
}

/// The flat values of what is nested so deep: a number, and of each list the place and the length.
fn nest_values(alloc: Global, lifts: bool, depth: u32) -> Result<Seq<ValType>, OutOfMemory>
    ensures { IfOk result (λ values. values ≡ map value_type (flat (width lifts) (nest_shape depth))) }
{
    let address = address_type(lifts);
    let mut values = Seq::from_vec(vec![in alloc; ValType::I32]?);
    for _ in 0..depth {
        values.push(address)?;
        values.push(address)?;
    }
    Ok(values)
}

/// The core type of a function whose parameter is nested so deep.
fn nest_core_type(alloc: Global, lifts: bool, depth: u32) -> Result<FuncType, OutOfMemory>
    ensures { IfOk result (λ core. core ≡ (linked_side lifts (form.Nest depth)).core_type) }
{
    if depth > FLAT_NEST {
        return FuncType::from_slices(alloc, &[address_type(lifts)], &[]);
    }
    let values = nest_values(alloc, lifts, depth)?;
    FuncType::from_slices(alloc, values.as_slice(), &[])
}

/// The core type of a function of a string, or of a list, that gives another one: behind a pointer.
fn text_core_type(alloc: Global, lifts: bool) -> Result<FuncType, OutOfMemory>
    ensures { IfOk result (λ core. core ≡ (linked_side lifts form.Text).core_type) }
{
    let address = address_type(lifts);
    if lifts {
        FuncType::from_slices(alloc, &[address, address], &[address])
    } else {
        FuncType::from_slices(alloc, &[address, address, address], &[])
    }
}

/// The core type of the function of 17 parameters: these and its result behind pointers.
fn many_core_type(alloc: Global, lifts: bool) -> Result<FuncType, OutOfMemory>
    ensures { IfOk result (λ core. core ≡ (linked_side lifts form.Many).core_type) }
{
    let address = address_type(lifts);
    if lifts {
        FuncType::from_slices(alloc, &[address], &[address])
    } else {
        FuncType::from_slices(alloc, &[address, address], &[])
    }
}

/// The core type of a side of a form.
pub(crate) fn core_type_for(
    alloc: Global,
    lifts: bool,
    form: AdapterForm,
) -> Result<FuncType, OutOfMemory>
    ensures { IfOk result (λ core. core ≡ (linked_side lifts form).core_type) }
{
    match form {
        AdapterForm::Number => FuncType::from_slices(alloc, &[ValType::I32], &[]),
        AdapterForm::Chars => {
            FuncType::from_slices(alloc, &[ValType::I32, ValType::I32], &[ValType::I32])
        }
        AdapterForm::Record => FuncType::from_slices(alloc, &[ValType::I32, ValType::I32], &[]),
        AdapterForm::Text | AdapterForm::List => text_core_type(alloc, lifts),
        AdapterForm::Variant => FuncType::from_slices(alloc, &[ValType::I32, ValType::I64], &[]),
        AdapterForm::Nest(depth) => nest_core_type(alloc, lifts, depth),
        AdapterForm::Many => many_core_type(alloc, lifts),
    }
}
