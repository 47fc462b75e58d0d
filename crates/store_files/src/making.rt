//! A new store: it is made as a draft, and has its name once its header is on the disk.
ghost use Rattle.std.specs.Prelude.{◌≡◌, ◌≢◌, [], false, None, IsSome, IfOk};
ghost use Rattle.store_files.specs.FoundStores.{ComesOf, IsOfMaking};
ghost use Rattle.store_files.specs.WrittenStores.{HasHeader};

use crate::compacting::{Anew, header_of, remove_unmade};
use crate::error::Uncompacted;
use crate::placing::{clear_log, draft_of, find_free, header_at, in_the_way, is_new, sync_folder};
use journal_core::{Header, Journal};
use journal_file::open;
use sqlite_disk::Disk;
use sqlite_std_file::Start;
use std::fs::{self, Metadata};
use std::io::{self, ErrorKind};
use std::os::unix::fs::MetadataExt;

/// How a new store got its name (own).
#[derive(Clone, Copy, PartialEq, Eq)]
pub enum Naming {
    /// By a link, once its header was on the disk.
    Linked,
    /// It was made under its name, since there are no links where it stands. So a crash may leave a file
    /// there that is empty, or has a part of a header.
    Direct,
}

/// What came of it that a store is to stand at a path (own).
#[derive(Drop)]
pub enum Stood {
    /// A file stands there that may be opened: a store, or what is refused then.
    There,
    /// A store was made there.
    Made(Naming),
    /// Nothing stands there, and none was to be made.
    Missing,
    /// A file stands there that has no whole header yet, and so no record.
    Empty,
    /// At this path something stood in the way as one was made. It stays.
    Taken(String),
}

/// What stands at the path of a store.
#[derive(Clone, Copy, PartialEq, Eq)]
pub(crate) enum Standing {
    /// Nothing.
    Nothing,
    /// A file that has no whole header yet, and so no record.
    Empty,
    /// Something else: a store, or what is refused as it is opened.
    File,
}

/// Finds the store at this path, behind what a crash has left of its making, which is ended (own). Where nothing stands there one is made, as `make_new` makes it, that begins at this moment, if one is given.
///
/// - `Failed`: a call of the system failed, or there is no memory. `Store`: what stands there with two names is no store, or a new one could not be made.
pub fn find_or_make(rt: &HostRuntime, path: &str, began: Option<u64>) -> Result<Stood, Uncompacted>
    // Where one may be made none is missing, and where none may be made none is.
    ensures sought { IsSome began → IfOk result (λ stood. stood ≢ Stood.Missing) }
    ensures kept { began ≡ None → IfOk result (λ stood. ¬ IsOfMaking stood) }
{
    end_making(rt, path)?;
    let standing = standing_at(rt, path)?;
    make_where(rt, path, standing, began)
}

// The same, where this stands there.
fn make_where(
    rt: &HostRuntime,
    path: &str,
    standing: Standing,
    began: Option<u64>,
) -> Result<Stood, Uncompacted>
    ensures comes { ComesOf standing began result }
    ensures sought { IsSome began → IfOk result (λ stood. stood ≢ Stood.Missing) }
    ensures kept { began ≡ None → IfOk result (λ stood. ¬ IsOfMaking stood) }
{
    match standing {
        Standing::File => Ok(Stood::There),
        Standing::Empty => Ok(Stood::Empty),
        Standing::Nothing => match began {
            Some(began) => make_found(rt, path, began),
            None => Ok(Stood::Missing),
        },
    }
}

// Makes a store; or something is in the way.
fn make_found(rt: &HostRuntime, path: &str, began: u64) -> Result<Stood, Uncompacted>
    ensures made { IfOk result IsOfMaking }
    ensures sought { IfOk result (λ stood. stood ≢ Stood.Missing) }
{
    match make_new(rt, path, began) {
        Ok(naming) => Ok(Stood::Made(naming)),
        Err(Uncompacted::InTheWay(found)) => Ok(Stood::Taken(found)),
        Err(error) => Err(error),
    }
}

// What stands at this path. `Err` where the system can't tell, or there is no memory.
fn standing_at(rt: &HostRuntime, path: &str) -> Result<Standing, Uncompacted> {
    match fs::metadata(rt, path) {
        Ok(found) if found.is_file() => {}
        Ok(_) => return Ok(Standing::File),
        Err(error) if error.kind() == ErrorKind::NotFound => return Ok(Standing::Nothing),
        Err(error) => return Err(error.into()),
    }
    match is_new(rt, path) {
        Ok(true) => Ok(Standing::Empty),
        Ok(false) | Err(Uncompacted::Store(_)) => Ok(Standing::File),
        Err(error) => Err(error),
    }
}

/// Makes a store that has no record yet at this path, where nothing stands, and which begins at this moment,
/// in nanoseconds since 1970 (own). Its header is on the disk at `Ok`, and its name, too. It never takes the
/// name of another file, not even of one that comes there meanwhile.
///
/// - `InTheWay`: something stands there, or has the name of its draft. It stays.
/// - `Store`, `Failed`: it could not be made; what was made of it is removed again, where that can be done.
pub fn make_new(rt: &HostRuntime, path: &str, began: u64) -> Result<Naming, Uncompacted> {
    find_free(rt, path)?;
    let header = header_of(rt, 0, began)?;
    let draft = draft_of(rt, path, header.key, 0)?;
    find_free(rt, draft.as_str())?;
    match make_linked(rt, draft.as_str(), path, header, Anew) {
        Ok(true) => Ok(Naming::Linked),
        Ok(false) => {
            make_direct(rt, path, header, Directly)?;
            Ok(Naming::Direct)
        }
        Err(error) => {
            remove_unmade(rt, draft.as_str(), &error);
            Err(error)
        }
    }
}

// Ends what a crash has left of `make_new` at this path: where the store there has its draft's name, too, that name is removed, and the folder is synced. Nothing else is touched.
//
// - `Failed`: a call of the system failed, or there is no memory. `Store`: what stands there is no store.
fn end_making(rt: &HostRuntime, path: &str) -> Result<(), Uncompacted> {
    let found = match fs::metadata(rt, path) {
        Ok(found) if found.is_file() && found.nlink() > 1 => found,
        _ => return Ok(()),
    };
    let Some(header) = header_at(rt, path)? else {
        return Ok(());
    };
    let real = fs::canonicalize(rt, path)?;
    let draft = draft_of(rt, real.as_str(), header.key, header.generation)?;
    match has_name(rt, draft.as_str(), &found) {
        Ok(true) => {
            fs::remove_file(rt, draft.as_str())?;
            clear_log(rt, draft.as_str())?;
            Ok(sync_folder(rt, real.as_str())?)
        }
        _ => Ok(()),
    }
}

/// Whether this is one file by two names (own).
pub fn is_one_file(one: &Metadata, other: &Metadata) -> bool {
    one.dev() == other.dev() && one.ino() == other.ino()
}

/// Whether this file has this name (own); false where nothing has it. `Err` where the system can't tell.
pub fn has_name(rt: &HostRuntime, path: &str, file: &Metadata) -> io::Result<bool> {
    match fs::symlink_metadata(rt, path) {
        Ok(found) => Ok(is_one_file(&found, file)),
        Err(error) if error.kind() == ErrorKind::NotFound => Ok(false),
        Err(error) => Err(error),
    }
}

/// What is supposed of a file that is made under its name: it has no byte.
#[derive(Drop)]
struct Directly;

impl Start for Directly {
    ghost log = { [] };

    ghost db = { [] };

    ghost is_mixing = { false };

    fn mixes() -> bool {
        false
    }
}

// Makes the draft, and gives it its name by a link, which is on the disk at `Ok(true)`; false where the system makes no link there. The draft's name is gone at `Ok`.
fn make_linked<S: Start>(
    rt: &HostRuntime,
    draft: &str,
    path: &str,
    header: Header,
    start: S,
) -> Result<bool, Uncompacted> {
    let (journal, found) = open(rt, draft, header, &(), start)?;
    if found.is_some() {
        return Err(in_the_way(rt, draft)?);
    }
    clear_log(rt, draft)?;
    let linked = link(rt, draft, path, &journal, header);
    fs::remove_file(rt, draft)?;
    match linked {
        Ok(()) => {
            sync_folder(rt, path)?;
            Ok(true)
        }
        Err(error) if error.kind() == ErrorKind::AlreadyExists => Err(in_the_way(rt, path)?),
        Err(_) => Ok(false),
    }
}

// Gives the draft its name, once its header is on the disk. Where another file has the name, that stays.
fn link<D: Disk>(
    rt: &HostRuntime,
    draft: &str,
    path: &str,
    _journal: &Journal<D, ()>,
    _header: Header,
) -> io::Result<()>
    requires { HasHeader D.Disk.seen D.Disk.may_leave D.Disk.is_clean _journal.now _header }
{
    fs::hard_link(rt, draft, path)
}

// Makes the store under its name.
fn make_direct<S: Start>(
    rt: &HostRuntime,
    path: &str,
    header: Header,
    start: S,
) -> Result<(), Uncompacted> {
    let (_journal, found) = open(rt, path, header, &(), start)?;
    if found.is_some() {
        return Err(in_the_way(rt, path)?);
    }
    clear_log(rt, path)?;
    Ok(sync_folder(rt, path)?)
}
