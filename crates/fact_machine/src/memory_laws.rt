//! Laws of numbers in memory.

ghost use Rattle.fact_machine.specs.MemoryLaws.{Digits, LoadAfterStore, StoreKeepsOthers, StoreKeepsLength, LoadApart, StoresCommute};

/// What holds of the numbers that loads and stores move (core specification, "Execution", "Numerics", "Storage"). The call
/// does nothing: its contract is the laws.
pub fn laws_of_memory()
    ensures digits { Digits }
    ensures load_after_store { LoadAfterStore }
    ensures store_keeps_others { StoreKeepsOthers }
    ensures store_keeps_length { StoreKeepsLength }
    ensures load_apart { LoadApart }
    ensures stores_commute { StoresCommute }
{}
