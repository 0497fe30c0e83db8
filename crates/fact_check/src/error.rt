//! Why bytes are no adapter module.

ghost use Rattle.std.specs.Prelude.{◌≡◌};
ghost use Rattle.fact_check.specs.declared.error.CheckError.TheVariants.{OutOfMemory};

use std::alloc::AllocError;
use thiserror::Error;

/// What of a module is not well typed, by its place, counted from 0.
#[derive(Clone, Copy, Debug, Drop, PartialEq, Eq)]
pub enum CheckPlace {
    /// A function that the module defines.
    Func(u32),
    /// An export, whose name an earlier one has.
    Export(u32),
}

/// Why bytes are no adapter module.
#[derive(Clone, Copy, Debug, Drop, PartialEq, Eq, Error)]
pub enum CheckError {
    /// There was no memory, or more bodies stand within one another than [`fact_binary::MAX_NESTING`].
    #[error("out of memory")]
    OutOfMemory,
    /// No module in range is spelled by the bytes.
    #[error("not in the grammar")]
    NotInGrammar,
    /// The import of this place, counted from 0, is none of an adapter module.
    #[error("import {0} is none of an adapter module")]
    NotAdapter(u32),
    /// A function or an export is not well typed.
    #[error("not well typed")]
    IllTyped(CheckPlace),
}

impl From<AllocError> for CheckError {
    ghost from_gives = { λ _ e. e ≡ OutOfMemory };

    fn from(_: AllocError) -> CheckError {
        CheckError::OutOfMemory
    }
}
