//! Snapshots that are written.
ghost use Rattle.std.specs.Prelude.{◌≡◌, ◌++◌, [], length, map, IfErr, IfOk, OnOk};
ghost use Rattle.std.specs.List.{AllByRecursion};
ghost use Rattle.dav_path_core.specs.declared.errors.FsError.TheVariants.{InsufficientStorage};
ghost use Rattle.dav_files_core.specs.Walks.{Stored};
ghost use Rattle.dav_effects_core.specs.ByteForms.{FitsInEight, HasCount, counted_text, number_text};
ghost use Rattle.dav_effects_core.specs.Records.{bytes_of_pieces};
ghost use Rattle.dav_snapshots_core.specs.Private.MetPaths.{IsWalk};
ghost use Rattle.dav_snapshots_core.specs.SnapshotText.{lock_text, locks_text};
ghost use Rattle.dav_snapshots_core.specs.Private.Heads.{IsHead};
ghost use Rattle.dav_snapshots_core.specs.WrittenSnapshots.{IsSnapshotLock, IsSnapshot};

use crate::locks::put_lock;
use crate::walks::{bodies_of, entries_of, have_whole_props, put_entries};
use dav_effects_core::Pieces;
use dav_effects_core::putting::{put_counted, put_number};
use dav_files_core::fs::Moment;
use dav_files_core::memfs::MemFsStored;
use dav_guarded_core::guarded::Guarded;
use dav_locks_core::ls::DavLock;
use dav_locks_core::memls::MemLsLocks;
use dav_path_core::errors::FsResult;
use std::alloc::{AllocError, Global};

/// Writes what stands in the stores, and the last moment that is noted of them, as a snapshot (own). The
/// bytes of files are shared and not copied. `InsufficientStorage` where there is no memory for it.
pub fn write(alloc: Global, stores: &Guarded, now: Moment) -> FsResult<Pieces>
    ensures snapshot { IfOk result (λ pieces. IsSnapshot stores.now now.0 (bytes_of_pieces pieces)) }
    ensures err { IfErr result (λ e. e ≡ InsufficientStorage) }
{
    let all = entries_of(alloc, stores.walk())?;
    have_whole_props(&all);
    let locks = lent_locks(alloc, stores.locks())?;
    let head = head_of(alloc, now, stores.next_number(), &all, &locks)?;
    let bodies = bodies_of(alloc, &all)?;
    Ok(Pieces { head, bodies })
}

/// All that are lent.
pub(crate) fn lent_locks<'a>(
    alloc: Global,
    locks: MemLsLocks<'a>,
) -> Result<Vec<&'a DavLock>, AllocError>
    ensures { IfOk result (λ lent. map (λ l. l.now) lent.items ≡ locks.entry) }
{
    let mut lent = Vec::new(alloc);
    'adding: for lock in locks {
        lent.push(lock)?;
    }
    Ok(lent)
}

// How long the head is, and the head.
fn head_of(
    alloc: Global,
    now: Moment,
    next: u64,
    all: &[MemFsStored<'_>],
    locks: &[&DavLock],
) -> Result<Vec<u8>, AllocError>
    requires { IsWalk all.now }
    ensures { IfOk result (λ head. IsHead now.0 next all.now (map (λ l. l.now) locks.now) head.items) }
{
    let mut text = Vec::new(alloc);
    put_number(&mut text, now.0)?;
    put_number(&mut text, next)?;
    put_entries(alloc, &mut text, all)?;
    put_locks(alloc, &mut text, locks)?;
    let mut head = Vec::new(alloc);
    put_counted(&mut head, &text)?;
    Ok(head)
}

// A lock, whose path takes the place of the one before.
fn put_next_lock(out: &mut Vec<u8>, before: &mut Vec<u8>, lock: &DavLock) -> Result<(), AllocError>
    ensures text { OnOk result (out.new.items ≡ out.old.items ++ lock_text before.old.items lock.now) }
    ensures before { OnOk result (before.new.items ≡ lock.now.path.bytes) }
    ensures fits { OnOk result (IsSnapshotLock lock.now) }
{
    put_lock(out, before, lock)?;
    before.clear();
    before.extend_from_slice(lock.path.as_bytes())
}

// Each behind the one before.
fn put_each_lock(alloc: Global, out: &mut Vec<u8>, locks: &[&DavLock]) -> Result<(), AllocError>
    ensures text { OnOk result (out.new.items ≡ out.old.items ++ locks_text [] (map (λ l. l.now) locks.now)) }
    ensures fits { OnOk result (AllByRecursion IsSnapshotLock (map (λ l. l.now) locks.now)) }
{
    let mut before = Vec::new(alloc);
    'putting: for lock in locks {
        put_next_lock(out, &mut before, lock)?;
    }
    Ok(())
}

// How many locks there are, and each behind the one before.
fn put_locks(alloc: Global, out: &mut Vec<u8>, locks: &[&DavLock]) -> Result<(), AllocError>
    ensures text { OnOk result (out.new.items
        ≡ out.old.items ++ (number_text (length (map (λ l. l.now) locks.now)) ++ locks_text [] (map (λ l. l.now) locks.now))) }
    ensures few { OnOk result (FitsInEight (length (map (λ l. l.now) locks.now))) }
    ensures fits { OnOk result (AllByRecursion IsSnapshotLock (map (λ l. l.now) locks.now)) }
{
    put_number(out, locks.len() as u64)?;
    put_each_lock(alloc, out, locks)
}
