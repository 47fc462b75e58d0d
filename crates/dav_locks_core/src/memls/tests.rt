use super::way::locks_at;
use super::*;
use dav_path_core::tree::ROOT_ID;
use rand_core::SeedableRng;
use rand_pcg::Pcg64;
use std::process::Abort;
use std::test::Fail;

// One lock alone stands at the node.
fn stands_alone(
    rt: &impl Abort,
    tree: &Tree<Bytes, NodeLocks>,
    node: u64,
    number: u64,
    path: &[u8],
) {
    let here = locks_at(tree, node);
    assert_eq!(rt; here.len(), 1);
    let granted = &here[0];
    let lock = &granted.1;
    assert_eq!(rt; granted.0, number);
    assert!(rt; lock.path.as_bytes() == path);
}

// The locks of /a and /a/b stand at the nodes of these paths, and none at the root.
fn stand_at_their_nodes(rt: &impl Abort, locks: &MemLs) -> Result<(), Fail> {
    let tree = &locks.tree;
    let a = tree.find_child(ROOT_ID, |name| name.as_slice() == b"a".as_slice())?;
    let b = tree.find_child(a, |name| name.as_slice() == b"b".as_slice())?;
    stands_alone(rt, tree, a, 1, b"/a");
    stands_alone(rt, tree, b, 2, b"/a/b");
    assert_eq!(rt; locks_at(tree, ROOT_ID).len(), 0);
    let nothing = tree.find_child(ROOT_ID, |name| name.as_slice() == b"b".as_slice());
    assert!(rt; nothing.is_err());
    Ok(())
}

// A lock without an owner or an end.
fn take(
    alloc: Global,
    locks: &mut MemLs,
    rng: &mut Pcg64,
    text: &str,
    shared: bool,
) -> Result<Result<DavLock, LockError>, Fail> {
    let path = DavPath::new(alloc, text)?;
    Ok(locks.lock(&path, None, None, None, shared, false, Moment(5), rng))
}

fn are_kept_at_their_nodes(rt: &impl Abort, alloc: Global, locks: &mut MemLs) -> Result<(), Fail> {
    let mut rng = Pcg64::seed_from_u64(1);
    for text in ["/a", "/a/b"] {
        assert!(rt;
            take(alloc, locks, &mut rng, text, false)?.is_ok(),
            "{text}"
        );
    }
    stand_at_their_nodes(rt, locks)
}

#[test]
fn keeps_locks_at_their_nodes(rt: HostRuntime) -> Result<(), Fail> {
    let mut locks = MemLs::new(rt.alloc())?;
    are_kept_at_their_nodes(&rt, rt.alloc(), &mut locks)
}

// No locks, and one grant number left.
fn near_the_end(alloc: Global) -> FsResult<MemLs> {
    let root = NodeLocks {
        locks: Vec::new(alloc),
    };
    let tree = Tree::new(alloc, root)?;
    Ok(MemLs {
        alloc,
        tree,
        index: ChildIndex::new(alloc),
        next: u64::MAX - 1,
        ends: Ends::new(alloc),
    })
}

// Whether one more lock of /a is granted; where it isn't, that is for want of a number.
fn is_granted(alloc: Global, locks: &mut MemLs, rng: &mut Pcg64) -> Result<bool, Fail> {
    match take(alloc, locks, rng, "/a", true)? {
        Ok(_lock) => Ok(true),
        Err(LockError::OutOfMemory) => Ok(false),
        Err(_) => Err("refused")?,
    }
}

fn are_granted_to_the_last_number(
    rt: &impl Abort,
    alloc: Global,
    locks: &mut MemLs,
) -> Result<(), Fail> {
    let mut rng = Pcg64::seed_from_u64(1);
    assert!(rt; is_granted(alloc, locks, &mut rng)?);
    assert_eq!(rt; locks.next, u64::MAX);
    assert!(rt; !is_granted(alloc, locks, &mut rng)?);
    assert_eq!(rt; locks.next, u64::MAX);
    Ok(())
}

#[test]
fn grants_to_the_last_number(rt: HostRuntime) -> Result<(), Fail> {
    let mut locks = near_the_end(rt.alloc())?;
    are_granted_to_the_last_number(&rt, rt.alloc(), &mut locks)
}

// A call, a timeout, and how many nodes the tree has then and how many ends are noted. `unlock` and `refresh` take the place of
// their lock among those granted, `expire` a moment. The locks are granted at moment 5.
const CALLS: &str = "new - - 1 0
lock /a/b/c - 4 0
lock /a/b/d 1 5 1
unlock 0 - 4 1
unlock 1 - 1 0
new - - 1 0
lock /a/b 1 3 1
lock /a/b/c/d 1 5 2
lock /a/b 2 5 2
refresh 0 1 5 2
refresh 0 - 5 1
refresh 0 2 5 2
delete /a/b/c - 3 1
delete /a - 1 0
new - - 1 0
lock / 3 1 1
lock /c 2 2 2
lock /a/b 1 4 3
lock /a/c 1 5 4
lock /a - 5 4
expire 1000000004 - 5 4
expire 1000000005 - 3 2
expire 3000000004 - 2 1
unlock 0 - 2 0
expire 3000000005 - 2 0";

// Locks a path, or notes that it could not.
fn play_lock(
    alloc: Global,
    locks: &mut MemLs,
    granted: &mut Vec<DavLock>,
    word: &str,
    timeout: Option<u64>,
) -> Result<(), Fail> {
    let path = DavPath::new(alloc, word)?;
    let mut rng = Pcg64::seed_from_u64(granted.len() as u64);
    let answer = locks.lock(
        &path,
        None,
        None,
        timeout,
        false,
        false,
        Moment(5),
        &mut rng,
    );
    if let Ok(lock) = answer {
        granted.push(lock)?;
    }
    Ok(())
}

// Unlocks or refreshes a lock, which `word` names by its place among those granted.
fn play_by_lock(
    locks: &mut MemLs,
    granted: &[DavLock],
    call: &str,
    word: &str,
    timeout: Option<u64>,
) -> Result<bool, Fail> {
    let lock = granted.get(word.parse::<usize>()?).ok_or("no lock")?;
    if call == "unlock" {
        return Ok(
            locks
                .unlock(&lock.path, lock.token.as_str(), Moment(6))
                .is_ok(),
        );
    }
    Ok(
        locks
            .refresh(&lock.path, lock.token.as_str(), timeout, Moment(6))
            .is_ok(),
    )
}

fn play_new(alloc: Global, locks: &mut MemLs, granted: &mut Vec<DavLock>) -> Result<(), Fail> {
    *locks = MemLs::new(alloc)?;
    granted.clear();
    Ok(())
}

fn play_delete(alloc: Global, locks: &mut MemLs, word: &str) -> Result<(), Fail> {
    let path = DavPath::new(alloc, word)?;
    locks.delete(&path, Moment(6));
    Ok(())
}

// Whether the call did what a row says of it.
fn play_call(
    alloc: Global,
    locks: &mut MemLs,
    granted: &mut Vec<DavLock>,
    call: &str,
    word: &str,
    timeout: Option<u64>,
) -> Result<bool, Fail> {
    match call {
        "new" => play_new(alloc, locks, granted)?,
        "lock" => play_lock(alloc, locks, granted, word, timeout)?,
        "expire" => locks.expire(Moment(word.parse()?)),
        "delete" => play_delete(alloc, locks, word)?,
        _ => return play_by_lock(locks, granted.as_slice(), call, word, timeout),
    }
    Ok(true)
}

// How many nodes the tree has, and how many ends are noted.
fn hold_as_many(rt: &impl Abort, locks: &MemLs, row: &str, nodes: usize, ends: usize) {
    assert_eq!(rt; locks.tree.node_count(), nodes, "{row}");
    assert_eq!(rt; locks.node_count(), nodes, "{row}");
    assert_eq!(rt; locks.ends.by_end.len(), ends, "{row}");
}

fn play_words(
    rt: &impl Abort,
    alloc: Global,
    locks: &mut MemLs,
    granted: &mut Vec<DavLock>,
    row: &str,
    words: &[&str],
) -> Result<(), Fail> {
    let [call, word, timeout, nodes, ends] = words else {
        return Err("no row")?;
    };
    let (timeout, nodes, ends) = (timeout.parse::<u64>().ok(), nodes.parse()?, ends.parse()?);
    assert!(rt;
        play_call(alloc, locks, granted, call, word, timeout)?,
        "{row}"
    );
    hold_as_many(rt, locks, row, nodes, ends);
    Ok(())
}

fn play_row(
    rt: &impl Abort,
    alloc: Global,
    locks: &mut MemLs,
    granted: &mut Vec<DavLock>,
    row: &str,
) -> Result<(), Fail> {
    let words: Vec<&str> = row.split(' ').collect(alloc)?;
    play_words(rt, alloc, locks, granted, row, words.as_slice())
}

fn play_rows(
    rt: &impl Abort,
    alloc: Global,
    locks: &mut MemLs,
    granted: &mut Vec<DavLock>,
) -> Result<(), Fail> {
    for row in CALLS.split('\n') {
        play_row(rt, alloc, locks, granted, row)?;
    }
    Ok(())
}

#[test]
fn holds_what_its_locks_need(rt: HostRuntime) -> Result<(), Fail> {
    let mut locks = MemLs::new(rt.alloc())?;
    let mut granted: Vec<DavLock> = Vec::new(rt.alloc());
    play_rows(&rt, rt.alloc(), &mut locks, &mut granted)
}
