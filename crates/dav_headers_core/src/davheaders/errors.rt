//! Why a header isn't read or written.
ghost use Rattle.std.specs.Prelude.{◌≡◌};

use std::alloc::{AllocError, AllocFailed};
use thiserror::Error;

/// Why a header isn't read or written. It displays as the case's name (own).
#[derive(Debug, Drop, Error, Clone, Copy, PartialEq, Eq)]
pub enum HeaderError {
    /// The values say nothing that the header can mean, or no value can hold the text.
    #[error("Invalid")]
    Invalid,
    /// There is no memory for it.
    #[error("OutOfMemory")]
    OutOfMemory,
}

impl From<AllocError> for HeaderError {
    ghost use Rattle.dav_headers_core.specs.declared.davheaders.errors.HeaderError.TheVariants.{OutOfMemory};

    ghost from_gives = { λ _ e. e ≡ OutOfMemory };

    fn from(_: AllocError) -> Self {
        HeaderError::OutOfMemory
    }
}

impl<T: Drop> From<AllocFailed<T>> for HeaderError {
    ghost use Rattle.dav_headers_core.specs.declared.davheaders.errors.HeaderError.TheVariants.{OutOfMemory};

    ghost from_gives = { λ _ e. e ≡ OutOfMemory };

    fn from(_: AllocFailed<T>) -> Self {
        HeaderError::OutOfMemory
    }
}
