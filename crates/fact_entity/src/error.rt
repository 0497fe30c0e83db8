//! Why a table took no entry.

ghost use Rattle.std.specs.Prelude.{◌≡◌};
ghost use Rattle.fact_entity.specs.declared.error.PushError.TheVariants.{OutOfMemory};

use std::alloc::{AllocError, AllocFailed};
use thiserror::Error;

/// Why a table took no entry. The table is as before.
#[derive(Clone, Copy, Debug, Drop, PartialEq, Eq, Error)]
pub enum PushError {
    /// There was no memory.
    #[error("out of memory")]
    OutOfMemory,
    /// The table holds 4,294,967,295 entries, and cannot hold more.
    #[error("table too large")]
    TooLarge,
}

impl From<AllocError> for PushError {
    ghost from_gives = { λ _ e. e ≡ OutOfMemory };

    fn from(_: AllocError) -> PushError {
        PushError::OutOfMemory
    }
}

impl<T: Drop> From<AllocFailed<T>> for PushError {
    ghost from_gives = { λ _ e. e ≡ OutOfMemory };

    fn from(_: AllocFailed<T>) -> PushError {
        PushError::OutOfMemory
    }
}
