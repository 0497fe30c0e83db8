//! The check of bytes.

ghost use Rattle.std.specs.Prelude.{◌≡◌, ◌<◌, ◌^◌, ℕ, [], IfOk, IfErr, MatchOption, length};
ghost use Rattle.fact_wasm.specs.declared.module.WasmModule.{WasmModule};
ghost use Rattle.fact_check.specs.Accepted.{AreAdapterImports, AreTypedFunctions, HasCause, IsAccepted, IsCause, IsErrorOrMemory, IsFirstForeign, IsFirstIllTyped, IsFirstRepeated, IsModuleOrMemory, IsRepeatedExport};
ghost use Rattle.fact_check.specs.Causes.{IsFaultless};
ghost use Rattle.fact_check.specs.declared.error.CheckError.{CheckError};
ghost use Rattle.fact_check.specs.declared.error.CheckError.TheVariants as error;
ghost use Rattle.fact_check.specs.Sections.{IsSectionOf};
ghost use Rattle.fact_check.specs.Soundness.{IsNeverStuck};

use crate::OutOfMemory;
use crate::error::{CheckError, CheckPlace};
use crate::exported::Exported;
use crate::imports::is_row;
use crate::section::Section;
use crate::typing::is_typed_function;
use fact_binary::{DecodeError, decode};
use fact_wasm::{WasmExport, WasmModule};
use std::alloc::Global;
use std::collections::BTreeSet;

/// The first import that is none of an adapter module; where there is none, the imports by their kinds.
fn first_foreign(module: &WasmModule, section: &mut Section) -> Result<Option<u32>, OutOfMemory>
    requires start { IsSectionOf section.old [] }
    requires few { length «module».now.imports < 2 ^ 32 }
    ensures { IfOk result (λ first. MatchOption first (AreAdapterImports «module».now (length «module».now.imports) × IsSectionOf section.new «module».now.imports) (IsFirstForeign «module».now)) }
{
    let mut place = 0;
    for import in module.imports.as_slice() {
        if !is_row(module.types.as_slice(), section, import) {
            return Ok(Some(place));
        }
        section.add(import)?;
        place += 1;
    }
    Ok(None)
}

/// The first function that is not well typed.
fn first_ill_typed(
    alloc: Global,
    module: &WasmModule,
    section: &Section,
) -> Result<Option<u32>, OutOfMemory>
    requires section { IsSectionOf section.now «module».now.imports }
    requires few { length «module».now.funcs < 2 ^ 32 }
    ensures { IfOk result (λ first. MatchOption first (AreTypedFunctions «module».now (length «module».now.funcs)) (IsFirstIllTyped «module».now)) }
{
    let exported = Exported::of(
        alloc,
        section.functions.len(),
        module.funcs.len(),
        module.exports.as_slice(),
    )?;
    let mut place = 0;
    for func in module.funcs.as_slice() {
        if !is_typed_function(alloc, module, section, &exported, func)? {
            return Ok(Some(place));
        }
        place += 1;
    }
    Ok(None)
}

/// The first export whose name an earlier one has.
fn first_repeated(alloc: Global, exports: &[WasmExport]) -> Result<Option<u32>, OutOfMemory>
    requires { length exports.now < 2 ^ 32 }
    ensures { IfOk result (λ first. MatchOption first ((n : ℕ) → IsRepeatedExport exports.now n → ⊥) (IsFirstRepeated exports.now)) }
{
    let mut names = BTreeSet::new(alloc);
    let mut place = 0;
    for export in exports {
        let is_new = names.insert(export.name.as_str())?;
        if !is_new {
            return Ok(Some(place));
        }
        place += 1;
    }
    Ok(None)
}

/// What is wrong with a module whose lists have fewer than 2^32 items each.
fn cause_of(alloc: Global, module: &WasmModule) -> Result<Option<CheckError>, OutOfMemory>
    requires imports { length «module».now.imports < 2 ^ 32 }
    requires funcs { length «module».now.funcs < 2 ^ 32 }
    requires exports { length «module».now.exports < 2 ^ 32 }
    ensures { IfOk result (λ cause. MatchOption cause (IsFaultless «module».now) (HasCause «module».now)) }
{
    let mut section = Section::new(alloc);
    if let Some(place) = first_foreign(module, &mut section)? {
        return Ok(Some(CheckError::NotAdapter(place)));
    }
    if let Some(place) = first_ill_typed(alloc, module, &section)? {
        return Ok(Some(CheckError::IllTyped(CheckPlace::Func(place))));
    }
    if let Some(place) = first_repeated(alloc, module.exports.as_slice())? {
        return Ok(Some(CheckError::IllTyped(CheckPlace::Export(place))));
    }
    Ok(None)
}

/// The module that bytes spell, where it is an adapter module: its imports are those of such modules, and it is well typed
/// (core specification, "Validation", "Modules"). Else the first cause, of the imports, then of the functions, then of the
/// exports, or [`CheckError::OutOfMemory`].
pub fn check(alloc: Global, bytes: &[u8]) -> Result<WasmModule, CheckError>
    ensures accepted { IfOk result (IsAccepted bytes.now) }
    ensures never_stuck { IfOk result IsNeverStuck }
    ensures complete { (m : WasmModule) → IsAccepted bytes.now m → IsModuleOrMemory result m }
    ensures cause { IfErr result (IsCause bytes.now) }
    ensures exactly { (e : CheckError) → (e ≡ error.OutOfMemory → ⊥) → IsCause bytes.now e → IsErrorOrMemory result e }
{
    let module = match decode(alloc, bytes) {
        Ok(module) => module,
        Err(DecodeError::OutOfMemory) => return Err(CheckError::OutOfMemory),
        Err(DecodeError::NotInGrammar) => return Err(CheckError::NotInGrammar),
    };
    match cause_of(alloc, &module) {
        Ok(None) => Ok(module),
        Ok(Some(cause)) => {
            drop(module);
            Err(cause)
        }
        Err(error) => {
            drop(module);
            Err(CheckError::from(error))
        }
    }
}
