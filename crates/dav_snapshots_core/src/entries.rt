//! Folders and files, each behind the one before.
ghost use Rattle.std.specs.Prelude.{◌≡◌, ◌≤◌, ◌++◌, length, IfOk, OnOk};
ghost use Rattle.dav_path_core.specs.PathText.{folder_bytes};
ghost use Rattle.dav_path_core.specs.Segments.{segments};
ghost use Rattle.dav_files_core.specs.Meta.{meta_of};
ghost use Rattle.dav_files_core.specs.Resources.{is_folder};
ghost use Rattle.dav_effects_core.specs.ByteForms.{FitsInEight, flag_text, number_text};
ghost use Rattle.dav_effects_core.specs.Reads.{ReadsField};
ghost use Rattle.dav_snapshots_core.specs.SnapshotReading.{stored_entry_at, entry_with, kind_if};
ghost use Rattle.dav_snapshots_core.specs.SnapshotText.{entry_text};
ghost use Rattle.dav_snapshots_core.specs.Snapshots.{snapshot_entry};
ghost use Rattle.dav_snapshots_core.specs.WrittenSnapshots.{IsSnapshotEntry};

use crate::properties::{properties_of, put_properties};
use bytes::Bytes;
use dav_effects_core::error::ReadError;
use dav_effects_core::fields::{flag_of, number_of};
use dav_effects_core::paths::path_of;
use dav_effects_core::putting::{put_flag, put_following, put_number};
use dav_files_core::fs::Moment;
use dav_files_core::memfs::{Kind, MemFsMeta, MemFsRestored, MemFsStored};
use dav_path_core::davpath::DavPath;
use std::alloc::{AllocError, Global};

// Whether it is a folder's kind.
fn is_folder(kind: Kind) -> bool
    ensures { result ≡ is_folder kind }
{
    matches!(kind, Kind::Folder)
}

// Puts its number, its kind and its times.
fn put_meta(out: &mut Vec<u8>, number: u64, meta: &MemFsMeta) -> Result<(), AllocError>
    ensures text { OnOk result (out.new.items ≡ out.old.items ++ (number_text number ++ (flag_text (is_folder (meta_of meta.now).kind)
        ++ (number_text (meta_of meta.now).created ++ number_text (meta_of meta.now).modified)))) }
    ensures number { OnOk result (FitsInEight number) }
    ensures created { OnOk result (FitsInEight (meta_of meta.now).created) }
    ensures modified { OnOk result (FitsInEight (meta_of meta.now).modified) }
{
    put_number(out, number)?;
    put_flag(out, is_folder(meta.kind))?;
    put_number(out, meta.created.0)?;
    put_number(out, meta.modified.0)
}

// Puts a folder or a file with that path, by its bytes as a folder, behind the path before. Of its bytes only how many they are.
#[tactic(auto, unfolding(crate::specs::SnapshotText::entry_text))]
pub(crate) fn put_entry(
    alloc: Global,
    out: &mut Vec<u8>,
    before: &[u8],
    path: &[u8],
    stored: &MemFsStored<'_>,
) -> Result<(), AllocError>
    requires { path.now ≡ folder_bytes stored.now.path }
    ensures text { OnOk result (out.new.items ≡ out.old.items ++ entry_text before.now (snapshot_entry stored.now)) }
    ensures fits { OnOk result (IsSnapshotEntry (snapshot_entry stored.now)) }
{
    put_following(out, before, path)?;
    put_meta(out, stored.number(), &stored.meta())?;
    put_properties(alloc, out, stored.props())?;
    put_number(out, stored.bytes().len() as u64)
}

// The kind of a folder or of a file.
fn kind_of(is_folder: bool) -> Kind
    ensures { result ≡ kind_if is_folder }
{
    if is_folder {
        return Kind::Folder;
    }
    Kind::File
}

/// A folder or a file, and its path, which takes the place of the one before.
#[tactic(auto, unfolding(crate::specs::SnapshotReading::stored_entry_at))]
pub(crate) fn read_entry<'a>(
    alloc: Global,
    before: &mut Vec<u8>,
    bodies: &[u8],
    bytes: &'a [u8],
) -> Result<(DavPath, MemFsRestored, &'a [u8]), ReadError>
    ensures reads { ReadsField (λ x. (entry_with x.0 x.1, x.2.now)) result (stored_entry_at before.old.items bodies.now bytes.now) }
    ensures before { IfOk result (λ x. before.new.items ≡ folder_bytes (segments x.0.bytes)) }
    ensures within { IfOk result (λ x. length x.1.content ≤ length bodies.now) }
{
    let (path, rest) = path_of(alloc, before, bytes)?;
    let (number, rest) = number_of(rest)?;
    let (is_folder, rest) = flag_of(rest)?;
    let (created, rest) = number_of(rest)?;
    let (modified, rest) = number_of(rest)?;
    let (props, rest) = properties_of(alloc, rest)?;
    let (len, rest) = number_of(rest)?;
    let len = len as usize;
    if bodies.len() < len {
        return Err(ReadError::Fault(bytes.len()));
    }
    let content = Bytes::copy_from_slice(alloc, &bodies[..len])?;
    let entry = MemFsRestored {
        number,
        kind: kind_of(is_folder),
        created: Moment(created),
        modified: Moment(modified),
        content,
        props,
    };
    Ok((path, entry, rest))
}
