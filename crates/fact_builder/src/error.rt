//! Why a conversion was refused.

ghost use Rattle.std.specs.Prelude.{◌≡◌};
ghost use Rattle.fact_builder.specs.declared.error.BuildError.TheVariants.{OutOfMemory};
ghost use Rattle.fact_builder.specs.Errors.{build_error};

use fact_entity::PushError;
use std::alloc::AllocError;
use thiserror::Error;

/// Why a conversion was refused. What it added before stays.
#[derive(Clone, Copy, Debug, Drop, PartialEq, Eq, Error)]
pub enum BuildError {
    /// There was no memory.
    #[error("out of memory")]
    OutOfMemory,
    /// A table that must grow holds 4,294,967,295 entries, a size passes 4,294,967,295 bytes, flags have more than 8,160
    /// names, or 4,294,967,295 abstract resources have numbers.
    #[error("too large")]
    TooLarge,
    /// A type export is neither a defined type nor a resource.
    #[error("unsupported type export")]
    UnsupportedTypeExport,
    /// An import or export is a value.
    #[error("values are not supported")]
    ValuesNotSupported,
    /// A core function of exactly one type.
    #[error("custom descriptors are not supported")]
    CustomDescriptors,
    /// A resource has neither a table nor a registration.
    #[error("unknown resource")]
    UnknownResource,
    /// A table of an instance is needed, and no instance is set.
    #[error("no instance is set")]
    NoInstance,
}

impl From<AllocError> for BuildError {
    ghost from_gives = { λ _ e. e ≡ OutOfMemory };

    fn from(_: AllocError) -> BuildError {
        BuildError::OutOfMemory
    }
}

impl From<PushError> for BuildError {
    ghost from_gives = { λ p e. e ≡ build_error p };

    fn from(error: PushError) -> BuildError {
        match error {
            PushError::OutOfMemory => BuildError::OutOfMemory,
            PushError::TooLarge => BuildError::TooLarge,
        }
    }
}
