//! Values.

use fact_wasm::{Seq, Text};

/// The kinds of handles (Component Model, "Type Definitions").
#[derive(Clone, Copy, PartialEq, Eq)]
pub enum HandleKind {
    Own,
    Borrow,
    Future,
    Stream,
    ErrorContext,
}

/// A value of a component type (Component Model, "Type Definitions"). An integer is of at most 64 bits. Floats are bits, and a
/// NaN keeps its own. The value of an option is a case `none` or `some`, that of a result a case `ok` or `error`, that of an
/// enum a case without payload, and that of a list of fixed length a list.
#[derive(Drop)]
pub enum Value {
    Bool(bool),
    Int(i128),
    Float32(u32),
    Float64(u64),
    Char(char),
    Str(Seq<char>),
    List(Seq<Value>),
    Map(Seq<(Value, Value)>),
    Record(Seq<(Text, Value)>),
    Tuple(Seq<Value>),
    Flags(Seq<(Text, bool)>),
    /// A case of a variant, with at most one payload.
    Case {
        name: Text,
        payload: Seq<Value>,
    },
    /// A handle by its number in a table, which is named by its own number among the tables of its kind.
    Handle {
        kind: HandleKind,
        table: u32,
        number: u32,
    },
}
