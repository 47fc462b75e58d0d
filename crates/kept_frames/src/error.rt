//! Why no more frames are served.
ghost use Rattle.std.specs.Prelude.{◌≡◌};
ghost use Rattle.line_streams.specs.declared.Fault.{Fault};
ghost use Rattle.line_streams.specs.declared.Fault.TheVariants.{OutOfMemory};
ghost use Rattle.kept_frames.specs.declared.error.KeptError.TheVariants.{Journal, Stream};

use journal_core::JournalError;
use line_streams::Fault;
use std::alloc::AllocError;
use std::{fmt, io};

/// Why no more frames are served (own).
#[derive(Debug, Drop)]
pub enum KeptError {
    /// The input or the output failed, or there is no memory outside a connection.
    Stream(Fault),
    /// What was changed could not be kept.
    Journal(JournalError),
}

impl From<Fault> for KeptError {
    ghost from_gives = { λ given e. e ≡ Stream given };

    fn from(fault: Fault) -> KeptError {
        KeptError::Stream(fault)
    }
}

impl From<JournalError> for KeptError {
    ghost from_gives = { λ given e. e ≡ Journal given };

    fn from(error: JournalError) -> KeptError {
        KeptError::Journal(error)
    }
}

impl From<io::Error> for KeptError {
    ghost from_gives = { λ _ e. (fault : Fault) × (e ≡ Stream fault) };

    fn from(error: io::Error) -> KeptError {
        KeptError::Stream(error.into())
    }
}

impl From<AllocError> for KeptError {
    ghost from_gives = { λ _ e. e ≡ Stream OutOfMemory };

    fn from(_error: AllocError) -> KeptError {
        KeptError::Stream(Fault::OutOfMemory)
    }
}

impl fmt::Display for KeptError {
    fn fmt<W: fmt::Write>(&self, f: &mut fmt::Formatter<W>) -> fmt::Result {
        match self {
            KeptError::Stream(Fault::Io) => write!(f, "a stream failed"),
            KeptError::Stream(Fault::OutOfMemory) => write!(f, "out of memory"),
            KeptError::Journal(error) => write!(f, "the store: {error}"),
        }
    }
}

impl std::error::Error for KeptError {}
