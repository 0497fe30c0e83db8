//! Types of core modules of a source: imports of a module `m` before `>`, exports behind it. Each is a name, `=`, and `func`, a function
//! from an i32 to an i64; `tag`, of an i32; `exact`, a function of exactly one type; `table`, of 1 to 2 elements of 64-bit indices;
//! `memory`, of 3 pages of one byte and 64-bit addresses; a core type, a global; or `mut`, a global of an f64 that may be set.

use crate::listed::{Listed, list_of};
use fact_entity::PushError;
use fact_source::{SourceEntityType, SourceModule, SourceTypes};
use fact_wasm::{FuncType, Text, ValType};
use std::alloc::{AllocError, Global};

fn core_func(alloc: Global) -> Result<SourceEntityType, AllocError> {
    let FuncType { params, results } = FuncType::from_slices(
        alloc,
        &[ValType::I32],
        &[ValType::I64],
    )?;
    Ok(SourceEntityType::Func { params, results })
}

fn core_tag(alloc: Global) -> Result<SourceEntityType, AllocError> {
    let FuncType { params, results } = FuncType::from_slices(alloc, &[ValType::I32], &[])?;
    Ok(SourceEntityType::Tag { params, results })
}

fn global_of(ty: ValType, mutable: bool) -> SourceEntityType {
    SourceEntityType::Global { ty, mutable }
}

/// The type of an import or export that has no signature.
fn plain_item_of(word: &str) -> Option<SourceEntityType> {
    match word {
        "i32" => Some(global_of(ValType::I32, false)),
        "i64" => Some(global_of(ValType::I64, false)),
        "f32" => Some(global_of(ValType::F32, false)),
        "mut" => Some(global_of(ValType::F64, true)),
        "exact" => Some(SourceEntityType::FuncExact),
        "table" => Some(SourceEntityType::Table {
            minimum: 1,
            maximum: Some(2),
            table64: true,
        }),
        "memory" => Some(SourceEntityType::Memory {
            minimum: 3,
            maximum: None,
            shared: false,
            memory64: true,
            page_size_log2: 0,
        }),
        _ => None,
    }
}

impl Listed for SourceEntityType {
    fn of_word(alloc: Global, word: &str) -> Result<Option<SourceEntityType>, AllocError> {
        match word {
            "func" => Ok(Some(core_func(alloc)?)),
            "tag" => Ok(Some(core_tag(alloc)?)),
            _ => Ok(plain_item_of(word)),
        }
    }
}

/// An import of the module `m`.
impl Listed for (Text, Text, SourceEntityType) {
    fn of_word(
        alloc: Global,
        word: &str,
    ) -> Result<Option<(Text, Text, SourceEntityType)>, AllocError> {
        let Some((name, item)) = <(Text, SourceEntityType) as Listed>::of_word(alloc, word)? else {
            return Ok(None);
        };
        Ok(Some((Text::from_str(alloc, "m")?, name, item)))
    }
}

/// Adds a type of core modules.
pub fn add_module(alloc: Global, types: &mut SourceTypes, words: &str) -> Result<bool, PushError> {
    let (imports, exports) = words.split_once(">").unwrap_or((words, ""));
    let imports = list_of(alloc, imports)?;
    let exports = list_of(alloc, exports)?;
    types.add_module(SourceModule { imports, exports })?;
    Ok(true)
}
