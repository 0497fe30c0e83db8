//! The core types of a plan, added to a builder.

ghost use Rattle.std.specs.Prelude.{◌≡◌, IfOk, Some, slice_get};
ghost use Rattle.std.specs.List.{AllZip};

use fact_types::{ModuleInternedTypeIndex, ModuleTypesBuilder};
use fact_wasm::{FuncType, OutOfMemory};
use std::alloc::{AllocError, Global};

/// The index of each core type, in order. Where the types have no room for more, it is answered as want of memory.
pub(crate) fn intern_all(
    alloc: Global,
    interned: &mut ModuleTypesBuilder,
    types: &[FuncType],
) -> Result<Vec<ModuleInternedTypeIndex>, OutOfMemory>
    ensures { IfOk result (λ found. AllZip (λ i ty. slice_get interned.new i.number ≡ Some ty) found.items types.now) }
{
    let mut indices = Vec::new(alloc);
    for ty in types {
        match interned.intern(ty.try_clone()?) {
            Ok(index) => indices.push(index)?,
            Err(_) => return Err(AllocError),
        }
    }
    Ok(indices)
}
