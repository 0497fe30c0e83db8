//! The one key type that index types and source ids are made of.

ghost use Rattle.std.specs.Prelude.{◌≡◌, Ok, refl};
ghost use Rattle.fact_entity.specs.Keys.{equal_numbers};

use crate::OutOfMemory;
use crate::key::EntityRef;
use std::marker::PhantomData;

/// A number that names an entry of a table. The type `Table` stands for that table, and has no values, so that keys of
/// two tables have two types. A key that no table gave finds what stands at its number, or nothing: every look-up is checked.
#[derive_where(Clone, Copy, Debug, PartialEq, Eq, PartialOrd, Ord, Hash)]
pub struct Id<Table> {
    /// The place of the entry, counted from 0.
    pub number: u32,
    #[derive_where(skip)]
    table: PhantomData<Table>,
}

impl<Table> Id<Table> {
    /// The same key. It takes no memory, and always succeeds.
    pub fn try_clone(&self) -> Result<Self, OutOfMemory>
        ensures { result ≡ Ok self.now }
    {
        Ok(*self)
    }
}

impl<Table> EntityRef for Id<Table> {
    ghost number = { λ k. k.number };

    ghost key = { λ n. record { number = n; table = _ } };

    ghost number_of_key = { λ _ _. refl };

    ghost key_of_number = { λ _. refl };

    ghost equal_by_number = { λ a b. equal_numbers a.number b.number };

    fn from_u32(n: u32) -> Self {
        Id {
            number: n,
            table: PhantomData,
        }
    }

    fn as_u32(self) -> u32 {
        self.number
    }
}
