//! What requests ask for, and what they are answered.
ghost use Rattle.std.specs.Prelude.{◌≡◌};

use bytes::Bytes;
use dav_files_core::fs::{DavProp, Moment};
use dav_files_core::memfs::{MemFsEntry, MemFsMeta};
use dav_locks_core::ls::{DavLock, LockError, NoLock, RefreshError};
use dav_path_core::davpath::DavPath;
use dav_path_core::errors::FsError;
use http::StatusCode;
use std::alloc::AllocError;

/// What a request asks for.
#[derive(Debug, Drop)]
pub enum Command {
    /// Makes the bytes of a file those given; a missing file is made (RFC 4918 section 9.7).
    Put {
        /// The file.
        path: DavPath,
        /// Its bytes.
        bytes: Bytes,
    },
    /// Writes into a file; a gap is filled with zeros, and the times stay (own).
    Write {
        /// The file.
        path: DavPath,
        /// Where its bytes are written, behind so many others; none for the end.
        at: Option<usize>,
        /// What is written.
        bytes: Bytes,
    },
    /// Reads a file.
    Read {
        /// The file.
        path: DavPath,
        /// How many bytes are left out at the front.
        at: usize,
        /// How many bytes are read, at most.
        count: usize,
    },
    /// Lists the members of a folder (RFC 4918 section 9.1, with `Depth: 1`).
    List {
        /// The folder.
        path: DavPath,
    },
    /// Asks what is known of a file or a folder (RFC 4918 section 15).
    Meta {
        /// Its path.
        path: DavPath,
    },
    /// Makes a folder (RFC 4918 section 9.3).
    MkCol {
        /// The folder.
        path: DavPath,
    },
    /// Removes a file, or a folder without members (RFC 4918 section 9.6). The locks at and below it end.
    Remove {
        /// Its path.
        path: DavPath,
    },
    /// Puts a file, or a folder with all below it, at another path, in place of one without members (RFC 4918 section 9.9). The locks
    /// at and below its old path end.
    Move {
        /// What is moved.
        from: DavPath,
        /// Where to.
        to: DavPath,
    },
    /// Copies a file, or a folder without its members (RFC 4918 section 9.8, with `Depth: 0`).
    Copy {
        /// What is copied.
        from: DavPath,
        /// Where to.
        to: DavPath,
    },
    /// Sets and removes properties, all or none (RFC 4918 section 9.2).
    PatchProps {
        /// Where they are kept.
        path: DavPath,
        /// One after another: `true` sets the property, `false` removes it.
        patch: Vec<(bool, DavProp)>,
    },
    /// Lists the properties (RFC 4918 section 9.1).
    GetProps {
        /// Where they are kept.
        path: DavPath,
        /// With their xml.
        content: bool,
    },
    /// Asks for the xml of a property (RFC 4918 section 9.1).
    GetProp {
        /// Where it is kept.
        path: DavPath,
        /// Its namespace and its name; the rest isn't looked at.
        prop: DavProp,
    },
    /// Locks a path (RFC 4918 section 9.10), in the map or not. No resource is made.
    Lock {
        /// The path.
        path: DavPath,
        /// The owner's text, kept as given.
        owner: Option<String>,
        /// In seconds, kept as asked; none where there is no timeout.
        timeout: Option<u64>,
        /// Others may hold a lock there too.
        shared: bool,
        /// It covers every path below, too.
        deep: bool,
    },
    /// Ends a lock (RFC 4918 section 9.11): the one with that token at the path or above it, the nearest to the root, of
    /// these the first granted. The principal isn't looked at.
    Unlock {
        /// The path.
        path: DavPath,
        /// The lock's token.
        token: String,
    },
    /// Gives a lock another timeout, from this moment on (RFC 4918 section 9.10.2): the one that `Unlock` would end.
    Refresh {
        /// The path.
        path: DavPath,
        /// The lock's token.
        token: String,
        /// In seconds; none where there is to be no timeout.
        timeout: Option<u64>,
    },
    /// Asks for the locks that cover a path (RFC 4918 section 15.8).
    Discover {
        /// The path.
        path: DavPath,
    },
    /// Asks whether a change may be made at a path (RFC 4918 section 7).
    Check {
        /// The path.
        path: DavPath,
        /// Below it, too.
        deep: bool,
    },
}

/// One request.
#[derive(Debug, Drop)]
pub struct Request {
    /// Who asks; none where nobody is named.
    pub principal: Option<String>,
    /// The lock tokens that are submitted.
    pub tokens: Vec<String>,
    /// The moment at which it is asked.
    pub now: Moment,
    /// What is asked for.
    pub command: Command,
}

/// What a request that is done answers.
#[derive(Debug, Drop)]
pub enum Reply {
    /// It is done, with nothing to tell.
    Done,
    /// The bytes that were read.
    Bytes(Bytes),
    /// The members of a folder, sorted by the bytes of their names.
    Entries(Vec<MemFsEntry>),
    /// What is known of a file or a folder.
    Meta(MemFsMeta),
    /// For each property that was set or removed its status, and the property without xml.
    Patched(Vec<(StatusCode, DavProp)>),
    /// Properties, sorted by the bytes of their namespaces, then of their names.
    Props(Vec<DavProp>),
    /// The xml of a property.
    Value(Vec<u8>),
    /// The lock that was granted, or that was refreshed.
    Lock(DavLock),
    /// The locks that cover a path, from the root down, then in the order of granting.
    Locks(Vec<DavLock>),
}

/// Why a request is refused. Nothing was changed, but locks that have expired are gone.
#[derive(Debug, Drop)]
pub enum Refusal {
    /// The files refuse it; `Fs(InsufficientStorage)` also where they are out of memory.
    Fs(FsError),
    /// This lock stands in the way.
    Locked(DavLock),
    /// There is no such lock.
    NoLock,
    /// There is no memory for a check or for a lock.
    OutOfMemory,
}

impl From<LockError> for Refusal {
    ghost use Rattle.dav_guarded_core.specs.Private.RequestServing.{refused_by};

    ghost from_gives = { λ e r. r ≡ refused_by e };

    fn from(error: LockError) -> Self {
        match error {
            LockError::Conflict(lock) => Refusal::Locked(lock),
            LockError::OutOfMemory => Refusal::OutOfMemory,
        }
    }
}

impl From<FsError> for Refusal {
    ghost use Rattle.dav_guarded_core.specs.declared.guarded.requests.Refusal.TheVariants.{Fs};

    ghost from_gives = { λ e r. r ≡ Fs e };

    fn from(error: FsError) -> Self {
        Refusal::Fs(error)
    }
}

impl From<NoLock> for Refusal {
    ghost use Rattle.dav_guarded_core.specs.declared.guarded.requests.Refusal.TheVariants as refusal;

    ghost from_gives = { λ _ r. r ≡ refusal.NoLock };

    fn from(_: NoLock) -> Self {
        Refusal::NoLock
    }
}

impl From<RefreshError> for Refusal {
    ghost use Rattle.dav_guarded_core.specs.Private.RequestServing.{unrefreshed_by};

    ghost from_gives = { λ e r. r ≡ unrefreshed_by e };

    fn from(error: RefreshError) -> Self {
        match error {
            RefreshError::NoLock => Refusal::NoLock,
            RefreshError::OutOfMemory => Refusal::OutOfMemory,
        }
    }
}

impl From<AllocError> for Refusal {
    ghost use Rattle.dav_guarded_core.specs.declared.guarded.requests.Refusal.TheVariants as refusal;

    ghost from_gives = { λ _ r. r ≡ refusal.OutOfMemory };

    fn from(_: AllocError) -> Self {
        Refusal::OutOfMemory
    }
}
