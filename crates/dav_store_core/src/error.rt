//! Why stores are not read from a journal.
ghost use Rattle.std.specs.Prelude.{◌≡◌};
ghost use Rattle.dav_store_core.specs.declared.error.StoreError.TheVariants.{Journal};

use journal_core::JournalError;
use std::fmt;

/// Why stores are not read from a journal (own).
#[derive(Debug, Drop)]
pub enum StoreError {
    /// The journal is not read, or there is no memory for the stores.
    Journal(JournalError),
    /// The record with that number, counted from 0, is none, or cannot be done behind those before
    /// it, with any memory.
    Damaged(u64),
}

impl From<JournalError> for StoreError {
    ghost from_gives = { λ given e. e ≡ Journal given };

    fn from(error: JournalError) -> StoreError {
        StoreError::Journal(error)
    }
}

impl fmt::Display for StoreError {
    fn fmt<W: fmt::Write>(&self, f: &mut fmt::Formatter<W>) -> fmt::Result {
        match self {
            StoreError::Journal(error) => write!(f, "{error}"),
            StoreError::Damaged(number) => write!(f, "record {number} is damaged"),
        }
    }
}

impl std::error::Error for StoreError {}
