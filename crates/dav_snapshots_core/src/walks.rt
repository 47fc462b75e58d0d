//! Walks that are put, and the bytes of their files.
ghost use Rattle.std.specs.Prelude.{◌≡◌, ◌++◌, [], length, map, IfErr, IfOk, OnOk};
ghost use Rattle.std.specs.List.{AllByRecursion, flat_map};
ghost use Rattle.dav_path_core.specs.declared.errors.FsError.TheVariants.{InsufficientStorage};
ghost use Rattle.dav_path_core.specs.PathText.{folder_bytes};
ghost use Rattle.dav_effects_core.specs.ByteForms.{FitsInEight, number_text};
ghost use Rattle.dav_snapshots_core.specs.Private.MetPaths.{IsMet, IsWalk, MeetsOne};
ghost use Rattle.dav_snapshots_core.specs.SnapshotText.{entries_text, entry_text};
ghost use Rattle.dav_snapshots_core.specs.Snapshots.{HasWholeProps, snapshot_entry};
ghost use Rattle.dav_snapshots_core.specs.WrittenSnapshots.{IsSnapshotEntry};

use crate::entries::put_entry;
use crate::paths::{Met, meet, path_text};
use bytes::Bytes;
use dav_effects_core::putting::put_number;
use dav_files_core::memfs::{MemFsStored, MemFsWalk};
use dav_path_core::errors::FsResult;
use std::alloc::{AllocError, Global};

/// All that the walk gives.
pub(crate) fn entries_of<'a>(
    alloc: Global,
    walk: MemFsWalk<'a>,
) -> Result<Vec<MemFsStored<'a>>, AllocError>
    ensures { IfOk result (λ all. all.items ≡ walk.entry) }
{
    let mut all = Vec::new(alloc);
    'adding: for stored in walk {
        all.push(stored)?;
    }
    Ok(all)
}

// Puts a folder or a file, whose path takes the place of the one before.
fn put_stored(
    alloc: Global,
    out: &mut Vec<u8>,
    before: &mut Vec<u8>,
    met: &mut Met,
    stored: &MemFsStored<'_>,
) -> Result<(), AllocError>
    requires { IsMet met.old stored.now.path stored.now.folder }
    ensures text { OnOk result (out.new.items ≡ out.old.items ++ entry_text before.old.items (snapshot_entry stored.now)) }
    ensures before { OnOk result (before.new.items ≡ folder_bytes stored.now.path) }
    ensures met { OnOk result (MeetsOne met.old met.new stored.now) }
    ensures fits { OnOk result (IsSnapshotEntry (snapshot_entry stored.now)) }
{
    let path = path_text(alloc, met, stored)?;
    put_entry(alloc, out, before, &path, stored)?;
    meet(alloc, met, stored, &path)?;
    *before = path;
    Ok(())
}

// Each behind the one before.
fn put_each(alloc: Global, out: &mut Vec<u8>, all: &[MemFsStored<'_>]) -> Result<(), AllocError>
    requires { IsWalk all.now }
    ensures text { OnOk result (out.new.items ≡ out.old.items ++ entries_text [] (map snapshot_entry all.now)) }
    ensures fits { OnOk result (AllByRecursion IsSnapshotEntry (map snapshot_entry all.now)) }
{
    let mut before = Vec::new(alloc);
    let mut met = Met::new(alloc);
    'putting: for stored in all {
        put_stored(alloc, out, &mut before, &mut met, stored)?;
    }
    Ok(())
}

/// Puts how many folders and files there are, and each behind the one before.
pub(crate) fn put_entries(
    alloc: Global,
    out: &mut Vec<u8>,
    all: &[MemFsStored<'_>],
) -> Result<(), AllocError>
    requires { IsWalk all.now }
    ensures text { OnOk result (out.new.items
        ≡ out.old.items ++ (number_text (length (map snapshot_entry all.now)) ++ entries_text [] (map snapshot_entry all.now))) }
    ensures few { OnOk result (FitsInEight (length (map snapshot_entry all.now))) }
    ensures fits { OnOk result (AllByRecursion IsSnapshotEntry (map snapshot_entry all.now)) }
{
    put_number(out, all.len() as u64)?;
    put_each(alloc, out, all)
}

// The bytes of a file, shared, where there are some.
fn add_body(alloc: Global, bodies: &mut Vec<Bytes>, stored: &MemFsStored<'_>) -> FsResult<()>
    ensures added { OnOk result (flat_map (λ b. b) bodies.new.items
        ≡ flat_map (λ b. b) bodies.old.items ++ stored.now.resource.node.bytes) }
    ensures err { IfErr result (λ e. e ≡ InsufficientStorage) }
{
    if stored.bytes().is_empty() {
        return Ok(());
    }
    let body = stored.content(alloc)?;
    bodies.push(body)?;
    Ok(())
}

/// The bytes of the files, in order. They are shared and not copied.
pub(crate) fn bodies_of(alloc: Global, all: &[MemFsStored<'_>]) -> FsResult<Vec<Bytes>>
    ensures bodies { IfOk result (λ bodies. flat_map (λ b. b) bodies.items ≡ flat_map (λ e. e.bytes) (map snapshot_entry all.now)) }
    ensures err { IfErr result (λ e. e ≡ InsufficientStorage) }
{
    let mut bodies = Vec::new(alloc);
    'adding: for stored in all {
        add_body(alloc, &mut bodies, stored)?;
    }
    Ok(bodies)
}

// The properties of one have their whole.
fn has_whole_props(stored: &MemFsStored<'_>)
    ensures { HasWholeProps stored.now }
{
    let _ = stored.props();
}

/// Of each, what is restored from its properties has them all. It does nothing.
pub(crate) fn have_whole_props(all: &[MemFsStored<'_>])
    ensures { AllByRecursion HasWholeProps all.now }
{
    'looking: for stored in all {
        has_whole_props(stored);
    }
}
