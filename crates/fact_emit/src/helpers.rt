//! Helpers: functions that move values of a pair of types, for code that is not to hold that translation itself.

use crate::options::Options;
use fact_types::InterfaceType;

/// Where a helper finds a value or puts one: in its parameters or results, or in its side's memory.
#[derive(Clone, Copy, PartialEq, Eq, Hash)]
pub enum HelperLocation {
    Stack,
    Memory,
}

/// One side of a helper: the type of its values, the options of its side, and where the values are.
#[derive(Clone, Copy, PartialEq, Eq, Hash)]
pub struct HelperType {
    pub ty: InterfaceType,
    pub opts: Options,
    pub loc: HelperLocation,
}

/// What a helper is made for: a source and a destination. A module has one function for each.
#[derive(Clone, Copy, PartialEq, Eq, Hash)]
pub struct Helper {
    pub src: HelperType,
    pub dst: HelperType,
}
