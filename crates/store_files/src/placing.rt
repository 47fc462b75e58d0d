//! The draft beside the old file: its name is cleared, it is made with the old one's owner and mode, and takes its name.
ghost use Rattle.std.specs.Prelude.{IsTrue};
ghost use Rattle.journal_core.specs.Resting.{is_ready};

use crate::error::Uncompacted;
use journal_core::{Header, Journal, JournalError, Reader, Stream};
use sqlite_disk::Disk;
use std::alloc::AllocError;
use std::fs::{self, File, OpenOptions};
use std::io::{self, ErrorKind};
use std::os::unix::fs::{FileExt, MetadataExt, OpenOptionsExt, PermissionsExt, fchown};
use std::path::PathBuf;

/// Who may read and write the draft until it has the old one's owner and mode: who makes it.
const MODE: u32 = 0o600;

/// How many bytes a header has, and so where the first gate is (own).
pub const HEADER: usize = 56;

/// How many bytes a draft may have of which no header can be read: those of a header, and of the gate behind it.
const UNBEGUN: u64 = HEADER as u64 + 8;

/// At which byte the version stands in a header.
const VERSION: u64 = 8;

/// Removes the draft that an earlier compaction of the store at this path has left, where one is there
/// (own). Whoever calls it has the file locked, so that no compaction is under way, and has read it whole
/// behind this header, so that nothing stands in the draft alone.
///
/// - `InTheWay`: what has the draft's name is none of the store's. It stays.
/// - `Failed`: a call of the system failed, or there is no memory.
pub fn clear_draft<D: Disk, B>(
    rt: &HostRuntime,
    path: &str,
    _journal: &Journal<D, B>,
    header: Header,
) -> Result<(), Uncompacted>
    requires read { IsTrue (is_ready _journal.now) }
{
    let real = fs::canonicalize(rt, path)?;
    let generation = header.generation.saturating_add(1);
    let draft = draft_of(rt, real.as_str(), header.key, generation)?;
    clear(rt, draft.as_str(), header.began, generation)?;
    clear_log(rt, draft.as_str())
}

// Removes the log that the kit makes beside a file as it is opened, where it has no byte. The kit removes it, too, but does not tell where that fails.
pub(crate) fn clear_log(rt: &HostRuntime, path: &str) -> Result<(), Uncompacted> {
    let log = format!(in rt.alloc(); "{path}-wal")?;
    match fs::symlink_metadata(rt, log.as_str()) {
        Ok(found) if found.is_file() && found.len() == 0 => Ok(fs::remove_file(rt, log.as_str())?),
        _ => Ok(()),
    }
}

/// The name of the file that is to take the place of the store at this path (own): it has the key of that store, or its own where none stands there, and its own generation. So no two stores have a draft of one name, and
/// neither have two generations of one store.
pub fn draft_of(
    rt: &HostRuntime,
    path: &str,
    key: u64,
    generation: u64,
) -> Result<String, AllocError> {
    format!(in rt.alloc(); "{path}.draft-{key:016x}-{generation}")
}

/// Whether no header stands in the file yet.
pub(crate) fn is_new(rt: &HostRuntime, path: &str) -> Result<bool, Uncompacted> {
    let found = header_at(rt, path)?;
    Ok(found.is_none())
}

/// The header of the file at this path (own); none where it has none yet. An error where it is no store, or nothing stands there, or another call of the system failed.
pub fn header_at(rt: &HostRuntime, path: &str) -> Result<Option<Header>, JournalError> {
    let file = fs::open(rt, path).map_err(JournalError::Failed)?;
    let mut source = Stream::new(file);
    match Reader::begin(rt.alloc(), &mut source, &())? {
        Some(reader) => Ok(Some(reader.header())),
        None => Ok(None),
    }
}

/// The version of a file that begins as a store of any version does (own); none where it can't be read.
pub fn version_of(rt: &HostRuntime, path: &str) -> Option<u32> {
    let file = File::open(rt, path).ok()?;
    let mut word = [0u8; 4];
    file.read_exact_at(&mut word, VERSION).ok()?;
    Some(u32::from_le_bytes(word))
}

/// Removes what an earlier call may have left at the name of a draft, which is this path: a store that began at this moment and is of this generation, or a file that has no more than
/// a header's bytes (own). Whoever calls it has the file locked that the draft is to replace, and has read it whole, or none is there.
///
/// - `InTheWay`: something else stands there. It stays.
/// - `Failed`: a call of the system failed, or there is no memory.
pub fn clear(rt: &HostRuntime, path: &str, began: u64, generation: u64) -> Result<(), Uncompacted> {
    match fs::symlink_metadata(rt, path) {
        Ok(found) => {
            let is_short = found.len() <= UNBEGUN;
            if found.is_file() && (is_short || is_draft(rt, path, began, generation)?) {
                return Ok(fs::remove_file(rt, path)?);
            }
            Err(in_the_way(rt, path)?)
        }
        Err(error) if error.kind() == ErrorKind::NotFound => Ok(()),
        Err(error) => Err(error.into()),
    }
}

// Whether a file begins as a store that began at this moment and is of this generation.
fn is_draft(
    rt: &HostRuntime,
    path: &str,
    began: u64,
    generation: u64,
) -> Result<bool, Uncompacted> {
    match header_at(rt, path) {
        Ok(Some(header)) => Ok(header.began == began && header.generation == generation),
        Ok(None) | Err(JournalError::Foreign | JournalError::Damaged(_)) => Ok(false),
        Err(error) => Err(error.into()),
    }
}

/// What is refused of the path at which something stands in the way.
pub(crate) fn in_the_way(rt: &HostRuntime, path: &str) -> Result<Uncompacted, AllocError> {
    Ok(Uncompacted::InTheWay(String::from_str(rt.alloc(), path)?))
}

/// Nothing has this name; else `InTheWay`, and `Failed` where the system can't tell.
pub(crate) fn find_free(rt: &HostRuntime, path: &str) -> Result<(), Uncompacted> {
    match fs::symlink_metadata(rt, path) {
        Ok(_) => Err(in_the_way(rt, path)?),
        Err(error) if error.kind() == ErrorKind::NotFound => Ok(()),
        Err(error) => Err(error.into()),
    }
}

/// Makes a file that has no byte, with the owner, the group and the mode of another one (own). `Err` where a call of the system failed.
pub fn make_like(rt: &HostRuntime, old: &str, new: &str) -> io::Result<()> {
    let like = fs::metadata(rt, old)?;
    let file = OpenOptions::new()
        .read(true)
        .write(true)
        .create_new(true)
        .mode(MODE)
        .open(rt, new)?;
    let made = file.metadata()?;
    if made.uid() != like.uid() || made.gid() != like.gid() {
        fchown(&file, Some(like.uid()), Some(like.gid()))?;
    }
    file.set_permissions(fs::Permissions::from_mode(like.mode() & 0o777))
}

/// Puts the names in the folder of the file at this path on the disk (own). `Err` where a call of the system failed.
pub fn sync_folder(rt: &HostRuntime, path: &str) -> io::Result<()> {
    let mut folder = PathBuf::from_str(rt.alloc(), path)?;
    folder.pop();
    // A name without a folder stands in the one that the program runs in.
    let name = if folder.as_str().is_empty() {
        "."
    } else {
        folder.as_str()
    };
    File::open(rt, name)?.sync_all()
}
