//! The types of values and of functions.

use fact_entity::{ComponentDefinedTypeId, ResourceId};
use fact_wasm::{Seq, Text};

/// A scalar type, text, or an error context (Component Model, "Type Definitions", `primvaltype`).
#[derive(Clone, Copy, Drop, PartialEq, Eq, Hash)]
pub enum PrimitiveValType {
    Bool,
    S8,
    U8,
    S16,
    U16,
    S32,
    U32,
    S64,
    U64,
    Float32,
    Float64,
    Char,
    String,
    ErrorContext,
}

/// A type of values (Component Model, "Type Definitions", `valtype`): a primitive one, or an entry of the defined types.
#[derive(Clone, Copy, Drop, PartialEq, Eq, Hash)]
pub enum ComponentValType {
    Primitive(PrimitiveValType),
    Defined(ComponentDefinedTypeId),
}

/// A defined type (Component Model, "Type Definitions", `defvaltype`). Fields, cases, flags and the names of an enum
/// stand in order; a name may stand more than once.
#[derive(Drop)]
pub enum ComponentDefinedType {
    Primitive(PrimitiveValType),
    Record(Seq<(Text, ComponentValType)>),
    Variant(Seq<(Text, Option<ComponentValType>)>),
    List(ComponentValType),
    Map(ComponentValType, ComponentValType),
    Tuple(Seq<ComponentValType>),
    Flags(Seq<Text>),
    Enum(Seq<Text>),
    Option(ComponentValType),
    Result {
        ok: Option<ComponentValType>,
        err: Option<ComponentValType>,
    },
    Own(ResourceId),
    Borrow(ResourceId),
    Future(Option<ComponentValType>),
    Stream(Option<ComponentValType>),
    FixedLengthList(ComponentValType, u32),
}

/// A function type: its parameters by name, and its result where it has one.
#[derive(Drop)]
pub struct SourceFunc {
    pub async_: bool,
    pub params: Seq<(Text, ComponentValType)>,
    pub result: Option<ComponentValType>,
}
