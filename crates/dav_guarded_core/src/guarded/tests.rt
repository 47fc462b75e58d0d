use super::*;
use bytes::Bytes;
use dav_files_core::fs::{DavFile, DavFileSystem, OpenOptions};
use dav_locks_core::ls::DavLockSystem;
use dav_path_core::davpath::DavPath;
use rand_core::SeedableRng;
use rand_pcg::Pcg64;
use std::process::Abort;
use std::test::Fail;

// A request of ann's, who names these tokens.
fn request(alloc: Global, tokens: Vec<String>, command: Command) -> Result<Request, Fail> {
    Ok(Request {
        principal: Some(String::from_str(alloc, "ann")?),
        tokens,
        now: Moment(5),
        command,
    })
}

fn unnamed(alloc: Global, command: Command) -> Result<Request, Fail> {
    request(alloc, Vec::new(alloc), command)
}

fn move_folder(alloc: Global) -> Result<Command, Fail> {
    let from = DavPath::new(alloc, "/s")?;
    let to = DavPath::new(alloc, "/t")?;
    Ok(Command::Move { from, to })
}

fn make_folder(alloc: Global) -> Result<Command, Fail> {
    Ok(Command::MkCol {
        path: DavPath::new(alloc, "/s")?,
    })
}

fn put_file(alloc: Global) -> Result<Command, Fail> {
    let path = DavPath::new(alloc, "/s/f")?;
    let bytes = Bytes::copy_from_slice(alloc, b"ab")?;
    Ok(Command::Put { path, bytes })
}

fn lock_nothing(alloc: Global) -> Result<Command, Fail> {
    Ok(Command::Lock {
        path: DavPath::new(alloc, "/t/u")?,
        owner: None,
        timeout: None,
        shared: false,
        deep: false,
    })
}

// The answer to one request.
fn answer(stores: &mut Guarded, rng: &mut Pcg64, request: Request) -> Result<Reply, Refusal> {
    stores.apply(&request, rng)
}

// The token of the lock that refuses a move.
fn refusing_token(answer: Result<Reply, Refusal>) -> Result<String, Fail> {
    match answer {
        Err(Refusal::Locked(lock)) => Ok(lock.token),
        _ => Err(Fail::from("not locked")),
    }
}

// A folder with a file, a lock on what isn't there yet, and a move of the folder to above it: refused at first, and then done under the
// lock's token, which is told.
fn move_under_a_lock(rt: &impl Abort, alloc: Global, stores: &mut Guarded) -> Result<String, Fail> {
    let mut rng = Pcg64::seed_from_u64(1);
    let made = answer(stores, &mut rng, unnamed(alloc, make_folder(alloc)?)?);
    let put = answer(stores, &mut rng, unnamed(alloc, put_file(alloc)?)?);
    let locked = answer(stores, &mut rng, unnamed(alloc, lock_nothing(alloc)?)?);
    assert!(rt; made.is_ok() && put.is_ok() && locked.is_ok());
    let refused = answer(stores, &mut rng, unnamed(alloc, move_folder(alloc)?)?);
    let token = refusing_token(refused)?;
    let tokens = vec![in alloc; token.clone()?]?;
    let moved = answer(
        stores,
        &mut rng,
        request(alloc, tokens, move_folder(alloc)?)?,
    );
    assert!(rt; matches!(moved, Ok(Reply::Done)));
    Ok(token)
}

fn are_kept_in_fs(rt: &impl Abort, alloc: Global, stores: &mut Guarded) -> Result<(), Fail> {
    let _token = move_under_a_lock(rt, alloc, stores)?;
    let path = DavPath::new(alloc, "/t/f")?;
    let mut file = stores.fs.open(&path, OpenOptions::read(), Moment(6))?;
    assert!(rt; file.read_bytes(&stores.fs, 9)?.as_slice() == b"ab".as_slice());
    let source = DavPath::new(alloc, "/s")?;
    assert!(rt; stores.fs.metadata(&source).is_err());
    Ok(())
}

// The files stand in the field `fs`.
#[test]
fn keeps_its_files_in_fs(rt: HostRuntime) -> Result<(), Fail> {
    let mut stores = Guarded::new(rt.alloc(), Moment(0))?;
    are_kept_in_fs(&rt, rt.alloc(), &mut stores)
}

// Whether the lock at /t/u lets somebody in who names no token.
fn lets_in(stores: &mut Guarded, path: &DavPath) -> bool {
    stores
        .locks
        .check(path, None, false, false, &[], Moment(6))
        .is_ok()
}

fn are_kept_in_locks(rt: &impl Abort, alloc: Global, stores: &mut Guarded) -> Result<(), Fail> {
    let token = move_under_a_lock(rt, alloc, stores)?;
    let path = DavPath::new(alloc, "/t/u")?;
    assert!(rt; !lets_in(stores, &path));
    let ended = stores.locks.unlock(&path, token.as_str(), Moment(6));
    assert!(rt; ended.is_ok());
    assert!(rt; lets_in(stores, &path));
    Ok(())
}

// The locks stand in the field `locks`.
#[test]
fn keeps_its_locks_in_locks(rt: HostRuntime) -> Result<(), Fail> {
    let mut stores = Guarded::new(rt.alloc(), Moment(0))?;
    are_kept_in_locks(&rt, rt.alloc(), &mut stores)
}
