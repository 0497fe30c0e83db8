//! Why a plan is refused.

ghost use Rattle.std.specs.Prelude.{◌≡◌};
ghost use Rattle.fact_plan_types.specs.declared.error.FuseError.TheVariants.{OutOfMemory};

use std::alloc::{AllocError, AllocFailed};
use thiserror::Error;

/// The entry of a plan that a refusal speaks of, by its place in the list of its kind.
#[derive(Clone, Copy, Debug, Drop)]
pub enum Place {
    TypeEntry(u32),
    Func(u32),
    Adapter(u32),
}

/// Why no module was made.
#[derive(Clone, Copy, Debug, Drop, Error)]
pub enum FuseError {
    /// There was no memory.
    #[error("out of memory")]
    OutOfMemory,
    /// An index that names nothing.
    #[error("unknown index at {0:?}")]
    UnknownIndex(Place),
    /// A type that no component can have.
    #[error("bad type at {0:?}")]
    BadType(Place),
    /// A size or a number past its limit.
    #[error("too large at {0:?}")]
    TooLarge(Place),
    /// Options of an adapter that do not go together.
    #[error("bad options at {0:?}")]
    BadOptions(Place),
    /// Two function types that do not agree.
    #[error("type mismatch at {0:?}")]
    TypeMismatch(Place),
    /// A memory or a realloc that is missing, or cannot be used.
    #[error("bad memory at {0:?}")]
    BadMemory(Place),
    /// A core type that is not the canonical signature of its side.
    #[error("bad signature at {0:?}")]
    BadSignature(Place),
    /// A core definition that is used as two things.
    #[error("import conflict at {0:?}")]
    ImportConflict(Place),
    /// A second export of one name.
    #[error("duplicate name at {0:?}")]
    DuplicateName(Place),
}

impl From<AllocError> for FuseError {
    ghost from_gives = { λ _ e. e ≡ OutOfMemory };

    fn from(_: AllocError) -> FuseError {
        FuseError::OutOfMemory
    }
}

impl<T: Drop> From<AllocFailed<T>> for FuseError {
    ghost from_gives = { λ _ e. e ≡ OutOfMemory };

    fn from(_: AllocFailed<T>) -> FuseError {
        FuseError::OutOfMemory
    }
}
