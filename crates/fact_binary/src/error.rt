//! Why bytes are no module.

ghost use Rattle.std.specs.Prelude.{◌≡◌};
ghost use Rattle.fact_binary.specs.declared.error.DecodeError.TheVariants.{OutOfMemory};

use std::alloc::{AllocError, AllocFailed};
use thiserror::Error;

/// Why bytes were not decoded.
#[derive(Clone, Copy, Debug, Drop, PartialEq, Eq, Hash, Error)]
pub enum DecodeError {
    /// The memory for the tree, or the stack that walks of it take, is not there: an allocation was refused, or more than
    /// [`MAX_NESTING`](crate::MAX_NESTING) bodies stand within one another.
    #[error("out of memory")]
    OutOfMemory,
    /// No module in range is spelled by the bytes.
    #[error("not in the grammar")]
    NotInGrammar,
}

impl From<AllocError> for DecodeError {
    ghost from_gives = { λ _ e. e ≡ OutOfMemory };

    fn from(_: AllocError) -> DecodeError {
        DecodeError::OutOfMemory
    }
}

impl<T: Drop> From<AllocFailed<T>> for DecodeError {
    ghost from_gives = { λ _ e. e ≡ OutOfMemory };

    fn from(_: AllocFailed<T>) -> DecodeError {
        DecodeError::OutOfMemory
    }
}
