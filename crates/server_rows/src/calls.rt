//! The calls of the stores, each in a function of its own: those above need none of what is proved of them.
use bytes::Bytes;
use dav_files_core::fs::Moment;
use dav_files_core::memfs::{Kind, MemFsRestored};
use dav_locks_core::ls::{DavLock, LockError};
use dav_path_core::davpath::DavPath;
use dav_path_core::errors::FsResult;
use dav_resource_core::guarded::{Command, Guarded, Inspection, Refusal, Reply, Request};
use rand_pcg::Pcg64;
use std::alloc::{AllocError, Global};
use std::test::Fail;

// Empty stores, at the moment 0.
pub(crate) fn empty(alloc: Global) -> FsResult<Guarded> {
    Guarded::new(alloc, Moment(0))
}

pub(crate) fn apply(
    stores: &mut Guarded,
    request: &Request,
    rng: &mut Pcg64,
) -> Result<Reply, Refusal> {
    stores.apply(request, rng)
}

pub(crate) fn inspect(stores: &Guarded, path: &DavPath, now: u64) -> FsResult<Inspection> {
    stores.inspect(path, Moment(now))
}

pub(crate) fn restore(stores: &mut Guarded, path: &DavPath, entry: MemFsRestored) -> FsResult<()> {
    stores.restore(path, entry)
}

pub(crate) fn restore_lock(stores: &mut Guarded, lock: DavLock) -> Result<(), LockError> {
    stores.restore_lock(lock)
}

pub(crate) fn raise_next_number(stores: &mut Guarded, next: u64) {
    stores.raise_next_number(next);
}

// A path with these kept bytes, below no prefix.
pub(crate) fn path_of(alloc: Global, bytes: &[u8]) -> Result<DavPath, Fail> {
    Ok(DavPath::from_parts(alloc, "", bytes)?)
}

// One request of ann's, without tokens.
pub(crate) fn request(alloc: Global, now: u64, command: Command) -> Result<Request, AllocError> {
    Ok(Request {
        principal: Some(String::from_str(alloc, "ann")?),
        tokens: Vec::new(alloc),
        now: Moment(now),
        command,
    })
}

// An entry without properties, made at 1 and changed at 2.
pub(crate) fn entry(
    alloc: Global,
    number: u64,
    kind: Kind,
    bytes: &[u8],
) -> Result<MemFsRestored, AllocError> {
    Ok(MemFsRestored {
        number,
        kind,
        created: Moment(1),
        modified: Moment(2),
        content: Bytes::copy_from_slice(alloc, bytes)?,
        props: Vec::new(alloc),
    })
}
