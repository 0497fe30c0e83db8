//! Core types, as they are printed.

ghost use Rattle.std.specs.Prelude.{◌≡◌, ◌∷◌, ◌++◌, IfOk, string_bytes};
ghost use Rattle.std.specs.List.{flat_map};
ghost use Rattle.fact_explain.specs.CoreTypes.{core_text, listed, val_text};

use fact_wasm::{OutOfMemory, ValType};
use std::alloc::Global;

/// A value type, as it is printed.
pub(crate) fn val_text(ty: ValType) -> &'static str
    ensures { result.now ≡ val_text ty }
{
    match ty {
        ValType::I32 => "i32",
        ValType::I64 => "i64",
        ValType::F32 => "f32",
        ValType::F64 => "f64",
        ValType::FuncRef => "funcref",
    }
}

/// A text with value types behind it, each behind a space.
fn with_more(mut text: String, types: &[ValType]) -> Result<String, OutOfMemory>
    ensures { IfOk result (λ t. string_bytes t ≡ string_bytes text ++ flat_map (λ ty. 32 ∷ val_text ty) types.now) }
{
    for ty in types {
        text.push(' ')?;
        text.push_str(val_text(*ty))?;
    }
    Ok(text)
}

/// Value types with spaces between them.
fn types_text(alloc: Global, types: &[ValType]) -> Result<String, OutOfMemory>
    ensures { IfOk result (λ t. string_bytes t ≡ listed types.now) }
{
    let [first, rest @ ..] = types else {
        return Ok(String::new(alloc));
    };
    let text = String::from_str(alloc, val_text(*first))?;
    with_more(text, rest)
}

/// A core function type, by its parameters and its results.
pub(crate) fn core_text(
    alloc: Global,
    params: &[ValType],
    results: &[ValType],
) -> Result<String, OutOfMemory>
    ensures { IfOk result (λ t. string_bytes t ≡ core_text params.now results.now) }
{
    let params = types_text(alloc, params)?;
    let results = types_text(alloc, results)?;
    format!(in alloc; "({params}) -> ({results})")
}
