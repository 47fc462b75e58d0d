//! Why a journal is not opened, read or written.
ghost use Rattle.std.specs.Prelude.{◌≡◌};
ghost use Rattle.journal_core.specs.declared.error.JournalError.TheVariants.{OutOfMemory};

use std::alloc::AllocError;
use std::{fmt, io};

/// Why a journal is not opened, read or written (own).
#[derive(Debug, Drop)]
pub enum JournalError {
    /// A call of the disk failed, or of what is read.
    Failed(io::Error),
    /// The disk has no room.
    Full,
    /// There is no memory.
    OutOfMemory,
    /// The file is neither new nor a journal.
    Foreign,
    /// The file is a journal of a later version, or has flags that are not known.
    Unsupported,
    /// At this byte stands neither a whole round nor a gate that is shut; at byte 0, no whole header.
    Damaged(u64),
    /// The file has 2^64 bytes or more where it is read, or would have 2^62 with a round that is appended; or its rounds have 2^61, where room is to be made.
    TooLarge,
    /// The journal is not open: an earlier call failed, or it was not read to its end.
    NotOpen,
    /// Another process has the file open.
    Busy,
}

impl From<AllocError> for JournalError {
    ghost from_gives = { λ _ e. e ≡ OutOfMemory };

    fn from(_error: AllocError) -> JournalError {
        JournalError::OutOfMemory
    }
}

impl fmt::Display for JournalError {
    fn fmt<W: fmt::Write>(&self, f: &mut fmt::Formatter<W>) -> fmt::Result {
        match self {
            JournalError::Failed(error) => write!(f, "{error}"),
            JournalError::Full => f.write_str("the disk is full"),
            JournalError::OutOfMemory => f.write_str("out of memory"),
            JournalError::Foreign => f.write_str("not a journal"),
            JournalError::Unsupported => f.write_str("a journal of a later version"),
            JournalError::Damaged(at) => write!(f, "damaged at byte {at}"),
            JournalError::TooLarge => f.write_str("too large"),
            JournalError::NotOpen => f.write_str("the journal is not open"),
            JournalError::Busy => f.write_str("the journal is in use"),
        }
    }
}

impl std::error::Error for JournalError {}
