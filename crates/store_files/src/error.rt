//! Why a store is not compacted.
ghost use Rattle.std.specs.Prelude.{◌≡◌};
ghost use Rattle.dav_store_core.specs.declared.error.StoreError.TheVariants.{Journal};
ghost use Rattle.store_files.specs.declared.error.Uncompacted.TheVariants.{Failed};
ghost use Rattle.store_files.specs.Tellings.{IsFailure, TellsStore};

use dav_store_core::StoreError;
use journal_core::JournalError;
use std::alloc::AllocError;
use std::{fmt, io};

/// Why a store is not compacted (own). But for `Unsynced` its file stays as it is.
#[derive(Drop)]
pub enum Uncompacted {
    /// It is broken, or is none, or another program has it open; or the new file has no room.
    Store(StoreError),
    /// It has no record yet.
    New,
    /// At this path, which the new file is to have, stands something that is not to be removed.
    InTheWay(String),
    /// The file was removed, or another one has its name by now.
    Replaced,
    /// A call of the system failed, or there is no memory.
    Failed(io::Error),
    /// The new file has the name of the old one, but the folder's sync failed, so a crash may give the
    /// name back to the old one. Nothing may be added to either.
    Unsynced(io::Error),
}

impl From<StoreError> for Uncompacted {
    ghost from_gives = { λ given e. TellsStore given e };

    fn from(error: StoreError) -> Uncompacted {
        match error {
            StoreError::Journal(JournalError::OutOfMemory) => Uncompacted::Failed(
                AllocError.into(),
            ),
            StoreError::Journal(JournalError::Failed(error)) => Uncompacted::Failed(error),
            error => Uncompacted::Store(error),
        }
    }
}

impl From<JournalError> for Uncompacted {
    ghost from_gives = { λ given e. TellsStore (Journal given) e };

    fn from(error: JournalError) -> Uncompacted {
        Uncompacted::from(StoreError::Journal(error))
    }
}

impl From<io::Error> for Uncompacted {
    ghost from_gives = { λ given e. e ≡ Failed given };

    fn from(error: io::Error) -> Uncompacted {
        Uncompacted::Failed(error)
    }
}

impl From<AllocError> for Uncompacted {
    ghost from_gives = { λ _ e. IsFailure e };

    fn from(error: AllocError) -> Uncompacted {
        Uncompacted::Failed(error.into())
    }
}

impl fmt::Display for Uncompacted {
    fn fmt<W: fmt::Write>(&self, f: &mut fmt::Formatter<W>) -> fmt::Result {
        match self {
            Uncompacted::Store(error) => write!(f, "{error}"),
            Uncompacted::New => f.write_str("it has no record yet"),
            Uncompacted::InTheWay(path) => write!(f, "{path} is in the way"),
            Uncompacted::Replaced => f.write_str("the file was removed or replaced meanwhile"),
            Uncompacted::Failed(error) | Uncompacted::Unsynced(error) => write!(f, "{error}"),
        }
    }
}
