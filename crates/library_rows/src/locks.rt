//! Locks with an owner and with a prefix, which no line of `davreplay` has.
use dav_files_core::fs::Moment;
use dav_locks_core::ls::{DavLock, DavLockSystem, LockError, RefreshError};
use dav_locks_core::memls::MemLs;
use dav_path_core::davpath::DavPath;
use rand_core::SeedableRng;
use rand_pcg::Pcg64;
use std::alloc::{AllocError, Global};
use std::test::Fail;

// The calls, each in a function of its own: those above need none of what is proved of them.
fn lock(
    locks: &mut MemLs,
    path: &DavPath,
    owner: Option<&str>,
    rng: &mut Pcg64,
) -> Result<DavLock, LockError> {
    locks.lock(
        path,
        Some("ann"),
        owner,
        Some(2),
        true,
        true,
        Moment(5),
        rng,
    )
}

fn discover(locks: &mut MemLs, path: &DavPath) -> Result<Vec<DavLock>, AllocError> {
    locks.discover(path, Moment(5))
}

fn refresh(locks: &mut MemLs, path: &DavPath, token: &str) -> Result<DavLock, RefreshError> {
    locks.refresh(path, token, Some(3), Moment(5))
}

fn path_of(alloc: Global, prefix: &str) -> Result<DavPath, Fail> {
    let mut path = DavPath::new(alloc, "/p/a/b")?;
    path.set_prefix(prefix)?;
    Ok(path)
}

// Whether a lock has this path, owner and end, and a token of the form that RFC 9562 gives random ones.
fn is_wanted(lock: &DavLock, path: &DavPath, owner: Option<&str>, end: u64) -> bool {
    let token = lock.token.as_str();
    lock.path == *path
        && lock.path.prefix() == path.prefix()
        && lock.owner.as_deref() == owner
        && lock.principal.as_deref() == Some("ann")
        && lock.timeout_at == Some(Moment(end))
        && token.starts_with("urn:uuid:")
        && token.len() == 45
        && is_random(token.as_bytes())
}

fn is_random(token: &[u8]) -> bool {
    token.get(23) == Some(&b'4') && token.get(28).is_some_and(|byte| b"89ab".contains(byte))
}

// The token of a lock that is granted as it is wanted.
fn granted(locks: &mut MemLs, path: &DavPath, owner: Option<&str>) -> Result<String, Fail> {
    let granted = lock(locks, path, owner, &mut Pcg64::seed_from_u64(1))
        .ok()
        .ok_or("refused")?;
    if !is_wanted(&granted, path, owner, 2_000_000_005) {
        return Err(Fail::from("another lock"));
    }
    Ok(granted.token.clone()?)
}

// Whether one lock is shown, as it is wanted.
fn shows(locks: &mut MemLs, path: &DavPath, owner: Option<&str>) -> Result<bool, AllocError> {
    let shown = discover(locks, path)?;
    Ok(
        shown.len() == 1
            && shown
                .iter()
                .all(|lock| is_wanted(lock, path, owner, 2_000_000_005)),
    )
}

// Whether the lock gets another end.
fn refreshes(locks: &mut MemLs, path: &DavPath, owner: Option<&str>, token: &str) -> bool {
    match refresh(locks, path, token) {
        Ok(lock) => is_wanted(&lock, path, owner, 3_000_000_005),
        Err(_) => false,
    }
}

fn keeps_there(locks: &mut MemLs, path: &DavPath, owner: Option<&str>) -> Result<bool, Fail> {
    let token = granted(locks, path, owner)?;
    Ok(shows(locks, path, owner)? && refreshes(locks, path, owner, token.as_str()))
}

// Whether a lock with this owner, at a path with this prefix, is granted, shown, and refreshed.
fn keeps(alloc: Global, prefix: &str, owner: Option<&str>) -> Result<bool, Fail> {
    let path = path_of(alloc, prefix)?;
    keeps_there(&mut MemLs::new(alloc)?, &path, owner)
}

// An owner of 100,000 digits.
fn long_owner(alloc: Global) -> Result<String, AllocError> {
    let mut owner = String::new(alloc);
    for number in 0..10_000 {
        write!(owner, "{number:010}")?;
    }
    Ok(owner)
}

#[test]
fn keeps_owners_and_prefixes(rt: HostRuntime) -> Result<(), Fail> {
    let long = long_owner(rt.alloc())?;
    for owner in [None, Some("<ann/>"), Some(long.as_str())] {
        assert!(rt; keeps(rt.alloc(), "", owner)?);
        assert!(rt; keeps(rt.alloc(), "/p", owner)?);
    }
    Ok(())
}
