//! What the translation of a type costs, and the fuel of a function, from which it is taken.

ghost use Rattle.std.specs.Prelude.{◌≡◌, ◌≤◌, ◌-◌, ◌||◌, nat_eq, nat_le, min};
ghost use Rattle.fact_types.specs.Shapes.{Shape};
ghost use Rattle.fact_types.specs.Tables.{IsLive, HasShape};
ghost use Rattle.fact_actions.specs.Outlining.{cost_of_flags, cost as cost_of};

use fact_types::{ComponentTypes, InterfaceType};

/// The cost of a string, a list or a map.
const REGION: u32 = 40;

/// The fuel of a function: what it began with, and what is left.
#[derive(Clone, Copy)]
pub struct Fuel {
    pub initial: u32,
    pub left: u32,
}

impl Fuel {
    /// The fuel of a function of which nothing is written yet.
    pub fn full(initial: u32) -> Fuel
        ensures initial { result.initial ≡ initial }
        ensures left { result.left ≡ initial }
        ensures small { result.initial ≤ 4294967295 }
    {
        Fuel {
            initial,
            left: initial,
        }
    }

    /// Whether a translation of this cost is written in place: while nothing was taken it is, whatever it costs.
    pub fn covers(&self, cost: u32) -> bool
        ensures { result ≡ (nat_le cost self.now.left || nat_eq self.now.left self.now.initial) }
    {
        cost <= self.left || self.left == self.initial
    }

    /// Takes the cost of a translation that is written in place.
    pub fn take(&mut self, cost: u32)
        ensures left { self.new.left ≡ self.old.left - cost }
        ensures initial { self.new.initial ≡ self.old.initial }
    {
        self.left = self.left.saturating_sub(cost);
    }
}

/// So many members, at most 4,294,967,295.
fn counted(members: usize) -> u32
    ensures { result ≡ min members 4294967295 }
{
    u32::try_from(members).unwrap_or(u32::MAX)
}

/// The cost of flags of so many names.
fn flags_cost(names: usize) -> u32
    ensures { result ≡ min (cost_of_flags names) 4294967295 }
{
    if names <= 16 {
        1
    } else {
        counted(names.div_ceil(32))
    }
}

/// The cost of so many elements.
fn elements_cost(elements: u32) -> u32
    ensures { result ≡ min elements 4294967295 }
{
    elements
}

/// What the translation of a live type takes from the fuel of a function, but for its members, or 4,294,967,295 where it takes more.
pub fn cost(types: &ComponentTypes, ty: InterfaceType) -> u32
    requires { IsLive types.now ty }
    ensures { (s : Shape) → HasShape types.now ty s → result ≡ min (cost_of s) 4294967295 }
{
    match ty {
        InterfaceType::Bool
        | InterfaceType::S8
        | InterfaceType::U8
        | InterfaceType::S16
        | InterfaceType::U16
        | InterfaceType::S32
        | InterfaceType::U32
        | InterfaceType::S64
        | InterfaceType::U64
        | InterfaceType::Float32
        | InterfaceType::Float64 => 0,
        InterfaceType::String | InterfaceType::List(_) | InterfaceType::Map(_) => REGION,
        InterfaceType::Flags(i) => flags_cost(types[i].names.len()),
        InterfaceType::Record(i) => counted(types[i].fields.len()),
        InterfaceType::Tuple(i) => counted(types[i].types.len()),
        InterfaceType::Variant(i) => counted(types[i].cases.len()),
        InterfaceType::Enum(i) => counted(types[i].names.len()),
        InterfaceType::Option(_) | InterfaceType::Result(_) => 2,
        InterfaceType::FixedLengthList(i) => elements_cost(types[i].size),
        InterfaceType::Char
        | InterfaceType::Own(_)
        | InterfaceType::Borrow(_)
        | InterfaceType::Future(_)
        | InterfaceType::Stream(_)
        | InterfaceType::ErrorContext(_) => 1,
    }
}
