//! Stores that are walked and restored as they stood, and rows of what is refused.
use crate::calls::{
    apply, empty, entry, path_of, raise_next_number, request, restore, restore_lock,
};
use crate::told::told;
use bytes::Bytes;
use dav_files_core::fs::DavProp;
use dav_files_core::memfs::{Kind, MemFsRestored, MemFsStored};
use dav_path_core::davpath::DavPath;
use dav_resource_core::guarded::{Command, Guarded};
use rand_core::SeedableRng;
use rand_pcg::Pcg64;
use std::alloc::Global;
use std::process::Abort;
use std::test::Fail;

// COMMAND PATH, and what the command needs, each at the next moment, from 1 on.
const CALLS: &str = "mkcol /d
put /d/f abc
mkcol /e
mkcol /gone
move /d /e/d
patch /e/d/f n
patch /e m
lock /e/d 9
remove /gone";

// What stands behind the calls, up to the token of the lock.
const STOOD: &str = "next 6
1 None \"\" \"\" MemFsMeta { kind: Folder, length: 0, modified: Moment(9), created: Moment(0) }
4 Some(1) \"e\" \"\" MemFsMeta { kind: Folder, length: 0, modified: Moment(5), created: Moment(3) }
DavProp { name: \"m\", prefix: None, namespace: Some(\"urn:x\"), xml: Some([97]) }
2 Some(4) \"d\" \"\" MemFsMeta { kind: Folder, length: 0, modified: Moment(1), created: Moment(1) }
3 Some(2) \"f\" \"abc\" MemFsMeta { kind: File, length: 3, modified: Moment(2), created: Moment(2) }
DavProp { name: \"n\", prefix: None, namespace: Some(\"urn:x\"), xml: Some([97]) }
DavLock { token: \"urn:uuid:";

// NUMBER KIND PATH BYTES = answer: in stores with a folder 2 at /d and a file 3 at /d/f. `-` are no bytes.
const REFUSALS: &str = "0 file /x - = Err(Forbidden)
18446744073709551615 file /x - = Err(Forbidden)
4 folder /x a = Err(Forbidden)
0 file /d - = Err(Forbidden)
4 file /d - = Err(Exists)
2 folder /d - = Err(Exists)
1 file / - = Err(Exists)
2 folder / - = Err(Exists)
3 file /x - = Err(Exists)
1 folder /x - = Err(Exists)
4 file /no/x - = Err(NotFound)
3 file /no/x - = Err(NotFound)
4 file /d/f/x - = Err(Forbidden)
1 folder / - = Ok(())
18446744073709551614 file /x a = Ok(())
4 folder /y - = Ok(())";

#[test]
fn stores_are_restored_as_they_stood(rt: HostRuntime) -> Result<(), Fail> {
    let mut stores = empty(rt.alloc())?;
    play(rt.alloc(), &mut stores)?;
    are_restored(&rt, rt.alloc(), &stores)
}

fn are_restored(rt: &impl Abort, alloc: Global, stores: &Guarded) -> Result<(), Fail> {
    let mut again = empty(alloc)?;
    are_as_they_stood(rt, alloc, stores, &mut again)
}

fn are_as_they_stood(
    rt: &impl Abort,
    alloc: Global,
    stores: &Guarded,
    again: &mut Guarded,
) -> Result<(), Fail> {
    let stood = told(alloc, stores)?;
    assert!(rt; stood.as_str().starts_with(STOOD), "{stood}");
    restore_all(alloc, stores, again)?;
    let stands = told(alloc, again)?;
    assert!(rt; stands == stood, "{stands}");
    Ok(())
}

#[test]
fn entries_are_refused(rt: HostRuntime) -> Result<(), Fail> {
    let mut stores = empty(rt.alloc())?;
    are_refused(&rt, rt.alloc(), &mut stores)
}

fn are_refused(rt: &impl Abort, alloc: Global, stores: &mut Guarded) -> Result<(), Fail> {
    let _first = restore_row(alloc, stores, "2 folder /d -")?;
    let _second = restore_row(alloc, stores, "3 file /d/f -")?;
    for row in REFUSALS.split('\n') {
        let (call, wanted) = row.split_once(" = ").ok_or("no answer")?;
        let answer = restore_row(alloc, stores, call)?;
        assert!(rt; answer.as_str() == wanted, "{row}, not {answer}");
    }
    Ok(())
}

/// Plays the calls.
pub(crate) fn play(alloc: Global, stores: &mut Guarded) -> Result<(), Fail> {
    let mut rng = Pcg64::seed_from_u64(1);
    let mut now = 0_u64;
    for call in CALLS.split('\n') {
        now = now.saturating_add(1);
        let request = request(alloc, now, command_of(alloc, call)?)?;
        if apply(stores, &request, &mut rng).is_err() {
            return Err(Fail::from("a call is refused"));
        }
    }
    Ok(())
}

// A word, and the words behind it.
fn first_word(words: &str) -> (&str, &str) {
    words.split_once(' ').unwrap_or((words, ""))
}

fn command_of(alloc: Global, call: &str) -> Result<Command, Fail> {
    let (command, rest) = first_word(call);
    let (path, rest) = first_word(rest);
    let path = DavPath::new(alloc, path)?;
    match command {
        "mkcol" => Ok(Command::MkCol { path }),
        "put" => put(alloc, path, rest),
        "move" => move_to(alloc, path, rest),
        "patch" => patch(alloc, path, rest),
        "lock" => lock(path, rest),
        "remove" => Ok(Command::Remove { path }),
        _ => Err(Fail::from("no such call")),
    }
}

fn put(alloc: Global, path: DavPath, text: &str) -> Result<Command, Fail> {
    let bytes = Bytes::copy_from_slice(alloc, text.as_bytes())?;
    Ok(Command::Put { path, bytes })
}

fn move_to(alloc: Global, from: DavPath, to: &str) -> Result<Command, Fail> {
    let to = DavPath::new(alloc, to)?;
    Ok(Command::Move { from, to })
}

fn patch(alloc: Global, path: DavPath, name: &str) -> Result<Command, Fail> {
    let prop = DavProp {
        name: String::from_str(alloc, name)?,
        prefix: None,
        namespace: Some(String::from_str(alloc, "urn:x")?),
        xml: Some(b"a".to_vec(alloc)?),
    };
    let mut patch = Vec::new(alloc);
    patch.push((true, prop))?;
    Ok(Command::PatchProps { path, patch })
}

fn lock(path: DavPath, timeout: &str) -> Result<Command, Fail> {
    Ok(Command::Lock {
        path,
        owner: None,
        timeout: Some(timeout.parse()?),
        shared: false,
        deep: true,
    })
}

// Restores all that a walk of other stores gives, and their locks.
fn restore_all(alloc: Global, stores: &Guarded, again: &mut Guarded) -> Result<(), Fail> {
    restore_entries(alloc, stores, again)?;
    for lock in stores.locks() {
        if restore_lock(again, lock.clone()?).is_err() {
            return Err(Fail::from("a lock is refused"));
        }
    }
    raise_next_number(again, stores.next_number());
    Ok(())
}

fn restore_entries(alloc: Global, stores: &Guarded, again: &mut Guarded) -> Result<(), Fail> {
    let mut met = Vec::new(alloc);
    for stored in stores.walk() {
        let bytes = path_bytes(alloc, &met, &stored)?;
        restore_entry(alloc, again, bytes.as_slice(), &stored)?;
        met.push((stored.number(), bytes))?;
    }
    Ok(())
}

fn restore_entry(
    alloc: Global,
    again: &mut Guarded,
    bytes: &[u8],
    stored: &MemFsStored<'_>,
) -> Result<(), Fail> {
    let path = path_of(alloc, bytes)?;
    match restore(again, &path, copy_of(alloc, stored)?) {
        Ok(()) => Ok(()),
        Err(_) => Err(Fail::from("an entry is refused")),
    }
}

// The bytes of an entry's path: those of the folder that it stands in, which was met before, and its name.
fn path_bytes(
    alloc: Global,
    met: &[(u64, Vec<u8>)],
    stored: &MemFsStored<'_>,
) -> Result<Vec<u8>, Fail> {
    let mut bytes = Vec::new(alloc);
    if let Some(folder) = stored.folder() {
        bytes.extend_from_slice(met_at(met, folder).ok_or("no folder")?)?;
    }
    if bytes.as_slice() != b"/".as_slice() {
        bytes.push(b'/')?;
    }
    bytes.extend_from_slice(stored.name())?;
    Ok(bytes)
}

fn met_at(met: &[(u64, Vec<u8>)], wanted: u64) -> Option<&[u8]> {
    for (number, bytes) in met {
        if *number == wanted {
            return Some(bytes.as_slice());
        }
    }
    None
}

fn copy_of(alloc: Global, stored: &MemFsStored<'_>) -> Result<MemFsRestored, Fail> {
    let meta = stored.meta();
    let mut props = Vec::new(alloc);
    for prop in stored.props() {
        props.push(prop.clone()?)?;
    }
    Ok(MemFsRestored {
        number: stored.number(),
        kind: meta.kind,
        created: meta.created,
        modified: meta.modified,
        content: stored.content(alloc)?,
        props,
    })
}

fn restore_row(alloc: Global, stores: &mut Guarded, row: &str) -> Result<String, Fail> {
    let (number, rest) = first_word(row);
    let (kind, rest) = first_word(rest);
    let (path, bytes) = first_word(rest);
    let kind = if kind == "folder" {
        Kind::Folder
    } else {
        Kind::File
    };
    let bytes = if bytes == "-" { "" } else { bytes };
    let entry = entry(alloc, number.parse()?, kind, bytes.as_bytes())?;
    let answer = restore(stores, &path_of(alloc, path.as_bytes())?, entry);
    Ok(format!(in alloc; "{answer:?}")?)
}
