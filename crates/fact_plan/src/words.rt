//! The words of a plan: types, core types and encodings of texts.
ghost use Rattle.fact_plan.specs.Fault.{Gives};
ghost use Rattle.fact_plan.specs.Words.{encoding_in, ref_in, val_type_in, word_of};

use crate::fault::PlanFault;
use crate::parts::FromJson;
use crate::plan::PlanRef;
use fact_source::PrimitiveValType;
use fact_types::StringEncoding;
use fact_wasm::ValType;
use serde_json::Value;
use std::alloc::Global;

/// The type that a word names. No word names an error context.
#[tactic(auto, unfolding(crate::specs::Words::word_of))]
fn word_of(alloc: Global, word: &str) -> Result<PrimitiveValType, PlanFault>
    ensures { Gives (word_of word.now) result }
{
    match word {
        "bool" => Ok(PrimitiveValType::Bool),
        "s8" => Ok(PrimitiveValType::S8),
        "u8" => Ok(PrimitiveValType::U8),
        "s16" => Ok(PrimitiveValType::S16),
        "u16" => Ok(PrimitiveValType::U16),
        "s32" => Ok(PrimitiveValType::S32),
        "u32" => Ok(PrimitiveValType::U32),
        "s64" => Ok(PrimitiveValType::S64),
        "u64" => Ok(PrimitiveValType::U64),
        "f32" => Ok(PrimitiveValType::Float32),
        "f64" => Ok(PrimitiveValType::Float64),
        "char" => Ok(PrimitiveValType::Char),
        "string" => Ok(PrimitiveValType::String),
        _ => Err(PlanFault::out_of_range(alloc)),
    }
}

impl FromJson for PlanRef {
    ghost reads = { ref_in };

    #[tactic(auto, unfolding(crate::specs::Words::ref_in, crate::specs::Parts::u32_in))]
    fn from_json(alloc: Global, value: &Value) -> Result<PlanRef, PlanFault> {
        if let Some(word) = value.as_str() {
            return Ok(PlanRef::Word(word_of(alloc, word)?));
        }
        Ok(PlanRef::Entry(u32::from_json(alloc, value)?))
    }
}

impl FromJson for ValType {
    ghost reads = { val_type_in };

    #[tactic(auto, unfolding(crate::specs::Words::val_type_in, crate::specs::Parts::text_in))]
    fn from_json(alloc: Global, value: &Value) -> Result<ValType, PlanFault> {
        match value.as_str() {
            Some("i32") => Ok(ValType::I32),
            Some("i64") => Ok(ValType::I64),
            Some("f32") => Ok(ValType::F32),
            Some("f64") => Ok(ValType::F64),
            Some(_) => Err(PlanFault::out_of_range(alloc)),
            None => Err(PlanFault::wrong_kind(alloc)),
        }
    }
}

impl FromJson for StringEncoding {
    ghost reads = { encoding_in };

    #[tactic(auto, unfolding(crate::specs::Words::encoding_in, crate::specs::Parts::text_in))]
    fn from_json(alloc: Global, value: &Value) -> Result<StringEncoding, PlanFault> {
        match value.as_str() {
            Some("utf8") => Ok(StringEncoding::Utf8),
            Some("utf16") => Ok(StringEncoding::Utf16),
            Some("compact") => Ok(StringEncoding::CompactUtf16),
            Some(_) => Err(PlanFault::out_of_range(alloc)),
            None => Err(PlanFault::wrong_kind(alloc)),
        }
    }
}
