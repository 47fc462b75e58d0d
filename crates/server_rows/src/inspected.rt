//! What is known of a path at a moment, all at once.
use crate::calls::{empty, inspect, path_of};
use crate::restored::play;
use crate::told::told;
use dav_path_core::davpath::DavPath;
use dav_path_core::errors::FsResult;
use dav_resource_core::guarded::Guarded;
use std::alloc::{AllocError, Global};
use std::process::Abort;
use std::test::Fail;

// The last moment before the one lock ends, and that at which it ends.
const LOCKED: u64 = 9_000_000_007;

const EXPIRED: u64 = 9_000_000_008;

const TOLD: &str = "Ok(Inspection { \
meta: MemFsMeta { kind: File, length: 3, modified: Moment(2), created: Moment(2) }, \
props: [DavProp { name: \"n\", prefix: None, namespace: Some(\"urn:x\"), xml: Some([97]) }], \
locks: [] })";

#[test]
fn expired_locks_stay_untold(rt: HostRuntime) -> Result<(), Fail> {
    let mut stores = empty(rt.alloc())?;
    play(rt.alloc(), &mut stores)?;
    are_untold(&rt, rt.alloc(), &stores)
}

fn are_untold(rt: &impl Abort, alloc: Global, stores: &Guarded) -> Result<(), Fail> {
    let stood = told(alloc, stores)?;
    let path = path_of(alloc, b"/e/d/f")?;
    assert!(rt; locks_at(stores, &path, LOCKED)? == 1);
    let found = inspected(alloc, stores, &path)?;
    assert!(rt; found.as_str() == TOLD, "{found}");
    let gone = inspected(alloc, stores, &path_of(alloc, b"/gone")?)?;
    assert!(rt; gone.as_str() == "Err(NotFound)", "{gone}");
    let stands = told(alloc, stores)?;
    assert!(rt; stands == stood, "{stands}");
    Ok(())
}

fn locks_at(stores: &Guarded, path: &DavPath, now: u64) -> FsResult<usize> {
    Ok(inspect(stores, path, now)?.locks.len())
}

// What is known of a path once the lock has expired.
fn inspected(alloc: Global, stores: &Guarded, path: &DavPath) -> Result<String, AllocError> {
    let found = inspect(stores, path, EXPIRED);
    format!(in alloc; "{found:?}")
}
