//! Why the program plays no more.
use journal_core::JournalError;
use line_streams::Fault;
use std::alloc::AllocError;
use std::io;

/// Why the program plays no more.
#[derive(Drop)]
pub enum Stopped {
    /// An error of the journal.
    Journal(JournalError),
    /// A standard stream failed, or there was no memory outside of the journal.
    Stream(Fault),
}

impl From<JournalError> for Stopped {
    fn from(error: JournalError) -> Stopped {
        Stopped::Journal(error)
    }
}

impl From<Fault> for Stopped {
    fn from(fault: Fault) -> Stopped {
        Stopped::Stream(fault)
    }
}

impl From<io::Error> for Stopped {
    fn from(error: io::Error) -> Stopped {
        Stopped::Stream(Fault::from(error))
    }
}

impl From<AllocError> for Stopped {
    fn from(_error: AllocError) -> Stopped {
        Stopped::Stream(Fault::OutOfMemory)
    }
}
