//! Why serving ends before the input does, or does not begin.
use dav_login_core::LoginError;
use dav_store_core::StoreError;
use dav_users_core::UsersError;
use http_frames::serving::End;
use journal_core::JournalError;
use kept_frames::KeptError;
use line_streams::Fault;
use std::alloc::AllocError;
use std::io;

/// Why serving ends before the input does, or does not begin (own).
#[derive(Drop)]
pub(crate) enum Stopped {
    /// A stream failed, or there is no memory.
    Stream(Fault),
    /// The input ended, or a frame was wrong, before the server served.
    Ended(End),
    /// The file is refused, or could not be opened or read.
    Refused(StoreError),
    /// Beside the file, at this path, stands what has the name of its draft, and is none.
    InTheWay(String),
    /// Nothing stands at this path, where the file has to be there.
    Missing(String),
    /// What the file at this path keeps began at this moment, and not at the one that is chosen.
    Other(String, u64),
    /// The file at this path has no whole header.
    Empty(String),
    /// Something came to this path as a new file was made there.
    Taken(String),
    /// The name of the file leads to another one, or to none, or the file has lost bytes.
    Lost,
    /// What was changed could not be kept.
    Unkept(JournalError),
    /// The file of users could not be read.
    NoUsers(io::Error),
    /// A line of it is wrong.
    WrongUsers(UsersError),
    /// The realm can't stand between quotes.
    WrongRealm,
    /// The log could not be opened.
    NoLog(io::Error),
}

impl From<Fault> for Stopped {
    fn from(fault: Fault) -> Stopped {
        Stopped::Stream(fault)
    }
}

impl From<AllocError> for Stopped {
    fn from(_error: AllocError) -> Stopped {
        Stopped::Stream(Fault::OutOfMemory)
    }
}

impl From<io::Error> for Stopped {
    fn from(error: io::Error) -> Stopped {
        Stopped::Stream(Fault::from(error))
    }
}

impl From<StoreError> for Stopped {
    fn from(error: StoreError) -> Stopped {
        match error {
            StoreError::Journal(JournalError::OutOfMemory) => Stopped::Stream(Fault::OutOfMemory),
            refused => Stopped::Refused(refused),
        }
    }
}

impl From<JournalError> for Stopped {
    fn from(error: JournalError) -> Stopped {
        Stopped::from(StoreError::Journal(error))
    }
}

impl From<KeptError> for Stopped {
    fn from(error: KeptError) -> Stopped {
        match error {
            KeptError::Stream(fault) => Stopped::Stream(fault),
            KeptError::Journal(error) => Stopped::Unkept(error),
        }
    }
}

impl From<UsersError> for Stopped {
    fn from(error: UsersError) -> Stopped {
        match error {
            UsersError::OutOfMemory => Stopped::Stream(Fault::OutOfMemory),
            wrong => Stopped::WrongUsers(wrong),
        }
    }
}

impl From<LoginError> for Stopped {
    fn from(error: LoginError) -> Stopped {
        match error {
            LoginError::OutOfMemory => Stopped::Stream(Fault::OutOfMemory),
            LoginError::Realm => Stopped::WrongRealm,
        }
    }
}
