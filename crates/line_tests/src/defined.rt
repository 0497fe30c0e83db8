//! Types of values of a source. A type T is a word of plans, or the number of a defined type; `-` is none. A defined type is a word, or
//!
//!     list T    option T    map T T    fixed-list T N    tuple T..    result T T
//!     record NAME=T..    variant NAME=T..    flags NAME..    enum NAME..
//!     own N    borrow N    future T    stream T
//!
//! where N is the number of a resource, or a length.

use crate::listed::{Listed, list_of};
use crate::words::{small_number_of, word_of};
use fact_entity::{EntityRef, ResourceId};
use fact_source::{ComponentDefinedType, ComponentValType, PrimitiveValType};
use std::alloc::{AllocError, Global};

/// The primitive type that a word names.
fn primitive_of(word: &str) -> Option<PrimitiveValType> {
    match word {
        "bool" => Some(PrimitiveValType::Bool),
        "s8" => Some(PrimitiveValType::S8),
        "u8" => Some(PrimitiveValType::U8),
        "s16" => Some(PrimitiveValType::S16),
        "u16" => Some(PrimitiveValType::U16),
        "s32" => Some(PrimitiveValType::S32),
        "u32" => Some(PrimitiveValType::U32),
        "s64" => Some(PrimitiveValType::S64),
        "u64" => Some(PrimitiveValType::U64),
        "f32" => Some(PrimitiveValType::Float32),
        "f64" => Some(PrimitiveValType::Float64),
        "char" => Some(PrimitiveValType::Char),
        "string" => Some(PrimitiveValType::String),
        "error-context" => Some(PrimitiveValType::ErrorContext),
        _ => None,
    }
}

/// The type of values of a word.
pub fn value_of(word: &str) -> Option<ComponentValType> {
    match word.parse::<u32>() {
        Ok(number) => Some(ComponentValType::Defined(EntityRef::from_u32(number))),
        Err(_) => Some(ComponentValType::Primitive(primitive_of(word)?)),
    }
}

impl Listed for ComponentValType {
    fn of_word(_alloc: Global, word: &str) -> Result<Option<ComponentValType>, AllocError> {
        Ok(value_of(word))
    }
}

/// The payload of a case, if it has one.
impl Listed for Option<ComponentValType> {
    fn of_word(_alloc: Global, word: &str) -> Result<Option<Option<ComponentValType>>, AllocError> {
        Ok(Some(value_of(word)))
    }
}

/// A defined type that is made of a type of values.
fn type_around(kind: &str, ty: ComponentValType, word: &str) -> Option<ComponentDefinedType> {
    match kind {
        "list" => Some(ComponentDefinedType::List(ty)),
        "option" => Some(ComponentDefinedType::Option(ty)),
        "map" => Some(ComponentDefinedType::Map(ty, value_of(word)?)),
        _ => Some(ComponentDefinedType::FixedLengthList(ty, small_number_of(word))),
    }
}

/// A defined type of a kind and two words.
fn small_type_of(kind: &str, first: &str, second: &str) -> Option<ComponentDefinedType> {
    match kind {
        "list" | "option" | "map" | "fixed-list" => type_around(kind, value_of(first)?, second),
        "result" => Some(ComponentDefinedType::Result {
            ok: value_of(first),
            err: value_of(second),
        }),
        "own" => Some(ComponentDefinedType::Own(resource_of(first))),
        "borrow" => Some(ComponentDefinedType::Borrow(resource_of(first))),
        "future" => Some(ComponentDefinedType::Future(value_of(first))),
        "stream" => Some(ComponentDefinedType::Stream(value_of(first))),
        _ => Some(ComponentDefinedType::Primitive(primitive_of(kind)?)),
    }
}

/// The resource of a number.
fn resource_of(word: &str) -> ResourceId {
    ResourceId::from_u32(small_number_of(word))
}

/// The defined type of a kind and the words behind it.
pub fn type_of(
    alloc: Global,
    kind: &str,
    words: &str,
) -> Result<Option<ComponentDefinedType>, AllocError> {
    match kind {
        "record" => Ok(Some(ComponentDefinedType::Record(list_of(alloc, words)?))),
        "variant" => Ok(Some(ComponentDefinedType::Variant(list_of(alloc, words)?))),
        "tuple" => Ok(Some(ComponentDefinedType::Tuple(list_of(alloc, words)?))),
        "flags" => Ok(Some(ComponentDefinedType::Flags(list_of(alloc, words)?))),
        "enum" => Ok(Some(ComponentDefinedType::Enum(list_of(alloc, words)?))),
        _ => {
            let (first, second) = word_of(words);
            Ok(small_type_of(kind, first, second))
        }
    }
}
