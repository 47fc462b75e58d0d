//! Stores whose clock is set back: moments that are too late come to stand right behind all others, in their order.
ghost use Rattle.std.specs.Prelude.{◌≡◌, ◌⊎◌, ◌++◌, ◌∷◌, [], map, option_map, Ok, Err, IfErr, IfOk, OnOk};
ghost use Rattle.dav_path_core.specs.declared.errors.FsError.TheVariants.{InsufficientStorage};
ghost use Rattle.dav_files_core.specs.Outcomes.{start};
ghost use Rattle.dav_files_core.specs.Properties.{property_of};
ghost use Rattle.dav_files_core.specs.Restoring.{resource_of, restore, restore_all};
ghost use Rattle.dav_locks_core.specs.Exclusive.{Exclusive};
ghost use Rattle.dav_locks_core.specs.Locks.{end_of, lock_conflicts, lock_path};
ghost use Rattle.dav_guarded_core.specs.Stores.{start_stores};
ghost use Rattle.dav_snapshots_core.specs.Private.LateMoments.{AscendFrom, IsFilled, placed_back};
ghost use Rattle.dav_snapshots_core.specs.Private.MetPaths.{IsMet, IsWalk, MeetsOne};
ghost use Rattle.dav_snapshots_core.specs.SetBack.{IsSetBack, lock_set_back, resource_set_back, sooner};
ghost use Rattle.dav_snapshots_core.specs.WrittenSnapshots.{HasPaths};

use crate::late::{late_moments, moment_set_back};
use crate::paths::{Met, meet, path_text};
use crate::walks::entries_of;
use crate::writing::lent_locks;
use dav_files_core::fs::{DavProp, Moment};
use dav_files_core::memfs::{MemFsProps, MemFsRestored, MemFsStored};
use dav_guarded_core::guarded::Guarded;
use dav_locks_core::ls::{DavLock, LockError};
use dav_path_core::davpath::DavPath;
use dav_path_core::errors::FsResult;
use std::alloc::{AllocError, Global};

/// The stores and the last moment that is noted of them, where each moment from that one on is set back: the
/// first of these becomes that one, and each further one is a nanosecond behind the one before. Of two moments
/// the earlier one stays the earlier, and what was at one moment stays so. A lock that has an end ends its
/// timeout behind that moment at the latest. All else is as it was (own). `InsufficientStorage` where there is
/// no memory for it.
pub fn set_back(
    alloc: Global,
    stores: &Guarded,
    last: Moment,
    from: Moment,
) -> FsResult<(Guarded, Moment)>
    ensures back { HasPaths stores.now.map
        → IfOk result (λ x. IsSetBack from.0 stores.now last.0 x.0 x.1.0) }
    ensures paths { HasPaths stores.now.map → IfOk result (λ x. HasPaths x.0.map) }
    ensures err { HasPaths stores.now.map → IfErr result (λ e. e ≡ InsufficientStorage) }
{
    let all = entries_of(alloc, stores.walk())?;
    let late = late_moments(alloc, from.0, last.0, &all)?;
    let locks = lent_locks(alloc, stores.locks())?;
    let mut back = Guarded::new(alloc, from)?;
    let next = stores.next_number();
    fill(alloc, &mut back, &all, next, &locks, from.0, &late)?;
    Ok((back, Moment(moment_set_back(from.0, &late, last.0))))
}

// Each folder, file and lock, set back, into new stores.
fn fill(
    alloc: Global,
    back: &mut Guarded,
    all: &[MemFsStored<'_>],
    next: u64,
    locks: &[&DavLock],
    from: u64,
    late: &[u64],
) -> FsResult<()>
    requires new { back.old ≡ start_stores from }
    requires walk { IsWalk all.now }
    requires apart { Exclusive (map (λ l. l.now) locks.now) }
    requires late { AscendFrom from late.now }
    ensures map { OnOk result (IsFilled from late.now all.now next back.new.map) }
    ensures locks { OnOk result
        (back.new.locks ≡ map (lock_set_back from) (map (λ l. l.now) locks.now)) }
    ensures err { IfErr result (λ e. (e ≡ InsufficientStorage)
        ⊎ (restore_all (start from) (map (placed_back from late.now) all.now) ≡ Err e)) }
{
    restore_each(alloc, back, all, from, late)?;
    back.raise_next_number(next);
    restore_locks(back, locks, from)?;
    Ok(())
}

// Each folder and file, with its moments set back.
fn restore_each(
    alloc: Global,
    back: &mut Guarded,
    all: &[MemFsStored<'_>],
    from: u64,
    late: &[u64],
) -> FsResult<()>
    requires walk { IsWalk all.now }
    requires late { AscendFrom from late.now }
    ensures restored { OnOk result
        (restore_all back.old.map (map (placed_back from late.now) all.now) ≡ Ok (tt, back.new.map)) }
    ensures err { IfErr result (λ e. (e ≡ InsufficientStorage)
        ⊎ (restore_all back.old.map (map (placed_back from late.now) all.now) ≡ Err e)) }
    ensures locks { back.new.locks ≡ back.old.locks }
{
    let mut met = Met::new(alloc);
    'restoring: for stored in all {
        restore_one(alloc, back, &mut met, stored, from, late)?;
    }
    Ok(())
}

// A folder or a file, with its moments set back.
fn restore_one(
    alloc: Global,
    back: &mut Guarded,
    met: &mut Met,
    stored: &MemFsStored<'_>,
    from: u64,
    late: &[u64],
) -> FsResult<()>
    requires met { IsMet met.old stored.now.path stored.now.folder }
    requires late { AscendFrom from late.now }
    ensures restored { OnOk result (restore back.old.map (placed_back from late.now stored.now).0
        (placed_back from late.now stored.now).1 ≡ Ok (tt, back.new.map)) }
    ensures err { IfErr result (λ e. (e ≡ InsufficientStorage) ⊎ (restore back.old.map
        (placed_back from late.now stored.now).0 (placed_back from late.now stored.now).1 ≡ Err e)) }
    ensures met { OnOk result (MeetsOne met.old met.new stored.now) }
    ensures locks { back.new.locks ≡ back.old.locks }
{
    let text = path_text(alloc, met, stored)?;
    let path = path_from(alloc, &text)?;
    let entry = entry_set_back(alloc, stored, from, late)?;
    meet(alloc, met, stored, &text)?;
    back.restore(&path, entry)
}

// The path that has these bytes.
fn path_from(alloc: Global, text: &[u8]) -> Result<DavPath, AllocError>
    ensures { IfOk result (λ path. path.bytes ≡ text.now) }
{
    match DavPath::from_parts(alloc, "", text) {
        Ok(path) => Ok(path),
        Err(_) => Err(AllocError),
    }
}

// A folder or a file as it stands, with its moments set back.
fn entry_set_back(
    alloc: Global,
    stored: &MemFsStored<'_>,
    from: u64,
    late: &[u64],
) -> FsResult<MemFsRestored>
    requires { AscendFrom from late.now }
    ensures entry { IfOk result (λ entry.
        resource_of entry ≡ resource_set_back from late.now stored.now.resource) }
    ensures err { IfErr result (λ e. e ≡ InsufficientStorage) }
{
    let meta = stored.meta();
    let props = props_again(alloc, stored.props())?;
    let content = stored.content(alloc)?;
    Ok(MemFsRestored {
        number: stored.number(),
        kind: meta.kind,
        created: Moment(moment_set_back(from, late, meta.created.0)),
        modified: Moment(moment_set_back(from, late, meta.modified.0)),
        content,
        props,
    })
}

// The same properties.
fn props_again(alloc: Global, props: MemFsProps<'_>) -> Result<Vec<DavProp>, AllocError>
    ensures { IfOk result (λ again. map property_of again.items ≡ props.entry) }
{
    let mut again = Vec::new(alloc);
    'adding: for prop in props {
        again.push(prop.clone()?)?;
    }
    Ok(again)
}

// Each lock, where there is none yet.
fn restore_locks(back: &mut Guarded, locks: &[&DavLock], from: u64) -> Result<(), AllocError>
    requires none { back.old.locks ≡ [] }
    requires apart { Exclusive (map (λ l. l.now) locks.now) }
    ensures locks { OnOk result
        (back.new.locks ≡ map (lock_set_back from) (map (λ l. l.now) locks.now)) }
    ensures map { back.new.map ≡ back.old.map }
{
    'restoring: for lock in locks {
        let again = lock_again(lock, from)?;
        restore_lock(back, again)?;
    }
    Ok(())
}

// A lock that no other one stands in the way of.
fn restore_lock(back: &mut Guarded, lock: DavLock) -> Result<(), AllocError>
    requires { lock_conflicts back.old.locks (lock_path lock) lock.shared lock.deep ≡ [] }
    ensures added { OnOk result (back.new.locks ≡ back.old.locks ++ lock ∷ []) }
    ensures map { back.new.map ≡ back.old.map }
{
    match back.restore_lock(lock) {
        Ok(()) => Ok(()),
        Err(LockError::Conflict(_)) => unreachable!(),
        Err(LockError::OutOfMemory) => Err(AllocError),
    }
}

// The same lock, which ends its timeout behind that moment at the latest.
fn lock_again(lock: &DavLock, from: u64) -> Result<DavLock, AllocError>
    ensures { IfOk result (λ again. again ≡ lock_set_back from lock.now) }
{
    let mut again = lock.clone()?;
    again.timeout_at = sooner_end(lock.timeout_at, lock.timeout, from);
    Ok(again)
}

// The end that a lock has, or its timeout behind that moment, if that is sooner.
fn sooner_end(end: Option<Moment>, timeout: Option<u64>, from: u64) -> Option<Moment>
    ensures { option_map (λ m. m.0) result ≡ sooner (option_map (λ m. m.0) end) (end_of from timeout) }
{
    let end = end?;
    let Some(seconds) = timeout else {
        return Some(end);
    };
    let latest = from.saturating_add(seconds.saturating_mul(1_000_000_000));
    Some(Moment(end.0.min(latest)))
}
