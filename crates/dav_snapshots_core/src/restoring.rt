//! Folders, files and locks that are read and restored, one after another.
ghost use Rattle.std.specs.Prelude.{◌≡◌, MatchResult};
ghost use Rattle.dav_path_core.specs.Segments.{segments};
ghost use Rattle.dav_files_core.specs.Restoring.{resource_of, restore};
ghost use Rattle.dav_guarded_core.specs.Stores.{start_stores};
ghost use Rattle.dav_effects_core.specs.declared.error.ReadError.TheVariants.{Memory};
ghost use Rattle.dav_effects_core.specs.Reads.{ReadsField};
ghost use Rattle.dav_snapshots_core.specs.Private.ReadSnapshots.{restore_fault};
ghost use Rattle.dav_snapshots_core.specs.SnapshotReading.{entry_step, lock_step, repeat_at, standing, steps_at, with_restored_lock, with_restored_map};

use crate::entries::read_entry;
use crate::locks::read_lock;
use dav_effects_core::error::ReadError;
use dav_effects_core::fields::number_of;
use dav_files_core::fs::Moment;
use dav_files_core::memfs::MemFsRestored;
use dav_guarded_core::guarded::Guarded;
use dav_locks_core::ls::{DavLock, LockError};
use dav_path_core::davpath::DavPath;
use dav_path_core::errors::FsError;
use std::alloc::Global;

// A refusal of the stores, of what begins with so many bytes left.
fn restore_fault(error: FsError, left: usize) -> ReadError
    ensures { result ≡ restore_fault left error }
{
    match error {
        FsError::InsufficientStorage => ReadError::Memory,
        _ => ReadError::Fault(left),
    }
}

/// Stores with a root folder alone, made at that moment.
pub(crate) fn new_stores(alloc: Global, now: u64) -> Result<Guarded, ReadError>
    ensures { MatchResult result (λ stores. stores ≡ start_stores now) (λ e. e ≡ Memory) }
{
    match Guarded::new(alloc, Moment(now)) {
        Ok(stores) => Ok(stores),
        Err(error) => Err(restore_fault(error, 0)),
    }
}

// Restores a folder or a file that begins with so many bytes left.
fn restore_entry(
    stores: &mut Guarded,
    path: &DavPath,
    entry: MemFsRestored,
    left: usize,
) -> Result<(), ReadError>
    ensures { ReadsField (λ _. stores.new) result
        (with_restored_map left stores.old (restore stores.old.map (segments path.now.bytes) (resource_of entry))) }
{
    match stores.restore(path, entry) {
        Ok(()) => Ok(()),
        Err(error) => Err(restore_fault(error, left)),
    }
}

// Reads a folder or a file, and restores it. What is left of the bytes of files, and the bytes behind it.
#[tactic(auto, unfolding(crate::specs::SnapshotReading::entry_step))]
fn read_one_entry<'a, 'b>(
    alloc: Global,
    stores: &mut Guarded,
    before: &mut Vec<u8>,
    bodies: &'a [u8],
    bytes: &'b [u8],
) -> Result<(&'a [u8], &'b [u8]), ReadError>
    ensures { ReadsField (λ x. (standing before.new.items x.0.now stores.new, x.1.now)) result
        (entry_step (standing before.old.items bodies.now stores.old) bytes.now) }
{
    let (path, entry, rest) = read_entry(alloc, before, bodies, bytes)?;
    let (_body, left) = bodies.split_at(entry.content.len());
    restore_entry(stores, &path, entry, bytes.len())?;
    Ok((left, rest))
}

// So many folders and files.
fn read_each_entry<'a, 'b>(
    alloc: Global,
    stores: &mut Guarded,
    before: &mut Vec<u8>,
    count: u64,
    bodies: &'a [u8],
    bytes: &'b [u8],
) -> Result<(&'a [u8], &'b [u8]), ReadError>
    ensures { ReadsField (λ x. (standing before.new.items x.0.now stores.new, x.1.now)) result
        (repeat_at entry_step count (standing before.old.items bodies.now stores.old) bytes.now) }
{
    let mut bodies = bodies;
    let mut rest = bytes;
    'reading: for _ in 0..count {
        let (left, behind) = read_one_entry(alloc, stores, before, bodies, rest)?;
        bodies = left;
        rest = behind;
    }
    Ok((bodies, rest))
}

/// As many folders and files as the number in front says.
#[tactic(auto, unfolding(crate::specs::SnapshotReading::steps_at))]
pub(crate) fn read_entries<'a, 'b>(
    alloc: Global,
    stores: &mut Guarded,
    before: &mut Vec<u8>,
    bodies: &'a [u8],
    bytes: &'b [u8],
) -> Result<(&'a [u8], &'b [u8]), ReadError>
    ensures { ReadsField (λ x. (standing before.new.items x.0.now stores.new, x.1.now)) result
        (steps_at entry_step (standing before.old.items bodies.now stores.old) bytes.now) }
{
    let (count, rest) = number_of(bytes)?;
    read_each_entry(alloc, stores, before, count, bodies, rest)
}

// Restores a lock that begins with so many bytes left.
fn restore_lock(stores: &mut Guarded, lock: DavLock, left: usize) -> Result<(), ReadError>
    ensures { ReadsField (λ _. stores.new) result (with_restored_lock left stores.old lock) }
{
    match stores.restore_lock(lock) {
        Ok(()) => Ok(()),
        Err(LockError::Conflict(_lock)) => Err(ReadError::Fault(left)),
        Err(LockError::OutOfMemory) => Err(ReadError::Memory),
    }
}

// Reads a lock, and restores it.
#[tactic(auto, unfolding(crate::specs::SnapshotReading::lock_step))]
fn read_one_lock<'b>(
    alloc: Global,
    stores: &mut Guarded,
    before: &mut Vec<u8>,
    bodies: &[u8],
    bytes: &'b [u8],
) -> Result<&'b [u8], ReadError>
    ensures { ReadsField (λ x. (standing before.new.items bodies.now stores.new, x.now)) result
        (lock_step (standing before.old.items bodies.now stores.old) bytes.now) }
{
    let (lock, rest) = read_lock(alloc, before, bytes)?;
    restore_lock(stores, lock, bytes.len())?;
    Ok(rest)
}

// So many locks.
fn read_each_lock<'b>(
    alloc: Global,
    stores: &mut Guarded,
    before: &mut Vec<u8>,
    count: u64,
    bodies: &[u8],
    bytes: &'b [u8],
) -> Result<&'b [u8], ReadError>
    ensures { ReadsField (λ x. (standing before.new.items bodies.now stores.new, x.now)) result
        (repeat_at lock_step count (standing before.old.items bodies.now stores.old) bytes.now) }
{
    let mut rest = bytes;
    'reading: for _ in 0..count {
        let behind = read_one_lock(alloc, stores, before, bodies, rest)?;
        rest = behind;
    }
    Ok(rest)
}

/// As many locks as the number in front says. The bytes of files that are left stay as they are.
#[tactic(auto, unfolding(crate::specs::SnapshotReading::steps_at))]
pub(crate) fn read_locks<'b>(
    alloc: Global,
    stores: &mut Guarded,
    before: &mut Vec<u8>,
    bodies: &[u8],
    bytes: &'b [u8],
) -> Result<&'b [u8], ReadError>
    ensures { ReadsField (λ x. (standing before.new.items bodies.now stores.new, x.now)) result
        (steps_at lock_step (standing before.old.items bodies.now stores.old) bytes.now) }
{
    let (count, rest) = number_of(bytes)?;
    read_each_lock(alloc, stores, before, count, bodies, rest)
}
