//! Lists of the binary format (core specification, "Binary format", "Vectors").

ghost use Rattle.std.specs.Prelude.{◌≡◌, ℕ, ◌<◌, ◌^◌, List, ◌++◌, length, OnOk};
ghost use Rattle.std.specs.List.{AllByRecursion};
ghost use Rattle.fact_binary.specs.Grammar.{list};

use crate::number::push_unsigned;
use fact_wasm::OutOfMemory;
use std::alloc::{AllocError, Global};

/// How the items of a list are written, in a module that imports so many functions.
pub trait Item<T> {
    ghost code: { ℕ → T → List ℕ };

    ghost fits: { ℕ → T → Type 0 };

    fn push(alloc: Global, out: &mut Vec<u8>, imports: u32, item: &T) -> Result<(), OutOfMemory>
        ensures { OnOk result (fits imports item.now × (out.new.items ≡ out.old.items ++ code imports item.now)) };
}

/// Writes a list: its length and its items. More of them than a u32 counts are a want of memory.
pub fn push_list<I: Item<T>, T>(
    alloc: Global,
    out: &mut Vec<u8>,
    imports: u32,
    items: &[T],
) -> Result<(), OutOfMemory>
    ensures count { OnOk result (length items.now < 2 ^ 32) }
    ensures fits { OnOk result (AllByRecursion (I.fits imports) items.now) }
    ensures bytes { OnOk result (out.new.items ≡ out.old.items ++ list (I.code imports) items.now) }
{
    if items.len() > u32::MAX as usize {
        return Err(AllocError);
    }
    push_unsigned(out, items.len() as u64)?;
    for item in items {
        I::push(alloc, out, imports, item)?;
    }
    Ok(())
}
