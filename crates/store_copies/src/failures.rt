//! Why work with a file of stores ends before it has told or done all.
use dav_store_core::StoreError;
use journal_core::JournalError;
use std::alloc::AllocError;
use std::io::{self, ErrorKind};
use store_files::Uncompacted;

/// Why work with a file of stores ends before it has told or done all (own).
#[derive(Drop)]
pub enum Failure {
    /// The file of stores is broken, or is none, or another program has it open.
    Refused(StoreError),
    /// What is exported has no empty folder here.
    NotEmpty(String),
    /// A change could not be kept in the file of stores.
    Unkept(JournalError),
    /// The file at this path of the system changed while it was read.
    Changed(String),
    /// A call of the system failed at this path of it.
    At(String, io::Error),
    /// A call of the system failed at the file of stores, or at a stream; or there is no memory.
    Failed(io::Error),
}

impl Failure {
    /// Whether there was no memory (own).
    pub fn is_for_memory(&self) -> bool {
        match self {
            Failure::At(_, error) | Failure::Failed(error) => {
                error.kind() == ErrorKind::OutOfMemory
            }
            _ => false,
        }
    }
}

impl From<StoreError> for Failure {
    fn from(error: StoreError) -> Failure {
        match error {
            StoreError::Journal(JournalError::OutOfMemory) => Failure::Failed(AllocError.into()),
            StoreError::Journal(JournalError::Failed(error)) => Failure::Failed(error),
            StoreError::Journal(JournalError::Full) => Failure::Unkept(JournalError::Full),
            error => Failure::Refused(error),
        }
    }
}

impl From<JournalError> for Failure {
    fn from(error: JournalError) -> Failure {
        Failure::from(StoreError::Journal(error))
    }
}

impl From<Uncompacted> for Failure {
    fn from(error: Uncompacted) -> Failure {
        match error {
            Uncompacted::Store(error) => Failure::from(error),
            Uncompacted::Failed(error) | Uncompacted::Unsynced(error) => Failure::from(error),
            Uncompacted::InTheWay(path) => {
                Failure::At(path, io::Error::from(ErrorKind::AlreadyExists))
            }
            Uncompacted::New | Uncompacted::Replaced => {
                Failure::from(io::Error::from(ErrorKind::AlreadyExists))
            }
        }
    }
}

impl From<io::Error> for Failure {
    fn from(error: io::Error) -> Failure {
        Failure::Failed(error)
    }
}

impl From<AllocError> for Failure {
    fn from(error: AllocError) -> Failure {
        Failure::Failed(error.into())
    }
}
