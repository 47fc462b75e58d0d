//! Paths, each behind the one before.
ghost use Rattle.std.specs.Prelude.{◌≡◌, ◌++◌, IfOk, OnOk};
ghost use Rattle.std.specs.Str.{bytes_eq};
ghost use Rattle.dav_path_core.specs.PathText.{folder_bytes};
ghost use Rattle.dav_path_core.specs.Segments.{segments};
ghost use Rattle.dav_effects_core.specs.RecordReading.{path_at};
ghost use Rattle.dav_effects_core.specs.RecordText.{path_text};
ghost use Rattle.dav_effects_core.specs.Records.{IsPath};
ghost use Rattle.dav_effects_core.specs.Reads.{ReadsField};

use crate::error::ReadError;
use crate::fields::following_of;
use crate::putting::put_following;
use dav_path_core::davpath::DavPath;
use std::alloc::{AllocError, Global};

// The bytes of the path as a folder: a slash, and each segment followed by a slash.
fn folder_text(alloc: Global, path: &DavPath) -> Result<Vec<u8>, AllocError>
    ensures { IfOk result (λ text. text.items ≡ folder_bytes (segments path.now.bytes)) }
{
    let mut text = Vec::new(alloc);
    text.push(b'/')?;
    'adding: for segment in path.segments() {
        text.extend_from_slice(segment)?;
        text.push(b'/')?;
    }
    Ok(text)
}

// Whether the bytes are the same.
fn are_same(one: &[u8], other: &[u8]) -> bool
    ensures { result ≡ bytes_eq one.now other.now }
{
    one == other
}

/// A path, which takes the place of the one before (own). `Fault` where it is none, or does not stand there
/// by its bytes as a folder.
#[tactic(auto, unfolding(crate::specs::RecordReading::path_at))]
pub fn path_of<'a>(
    alloc: Global,
    before: &mut Vec<u8>,
    bytes: &'a [u8],
) -> Result<(DavPath, &'a [u8]), ReadError>
    ensures reads { ReadsField (λ x. (segments x.0.bytes, x.1.now)) result (path_at before.old.items bytes.now) }
    ensures before { IfOk result (λ x. before.new.items ≡ folder_bytes (segments x.0.bytes)) }
{
    let (text, rest) = following_of(alloc, before, bytes)?;
    let path = DavPath::from_parts(alloc, "", &text)?;
    let folder = folder_text(alloc, &path)?;
    if !are_same(&folder, &text) {
        return Err(ReadError::Fault(bytes.len()));
    }
    *before = text;
    Ok((path, rest))
}

/// Puts a path, which takes the place of the one before.
pub(crate) fn put_path(
    alloc: Global,
    out: &mut Vec<u8>,
    before: &mut Vec<u8>,
    path: &DavPath,
) -> Result<(), AllocError>
    ensures text { OnOk result (out.new.items ≡ out.old.items ++ path_text before.old.items (segments path.now.bytes)) }
    ensures before { OnOk result (before.new.items ≡ folder_bytes (segments path.now.bytes)) }
    ensures fits { OnOk result (IsPath (segments path.now.bytes)) }
{
    let text = folder_text(alloc, path)?;
    put_following(out, before, &text)?;
    *before = text;
    Ok(())
}
