//! What stands in the stores, a line each.
use crate::paths::Paths;
use dav_files_core::fs::{DavMetaData, Moment};
use dav_files_core::memfs::MemFsStored;
use dav_guarded_core::errors::FsResult;
use dav_guarded_core::guarded::Guarded;
use std::alloc::{AllocError, Global};
use std::io::{self, BufWriter, Write};

/// Writes a line for the folder or file at a path and for each below it, sorted by their paths (own): `folder` or `file`, its length, when it was made and when it was changed, in nanoseconds since 1970, and
/// its path. Whether something stands there.
pub fn list<O: Write + Drop>(
    alloc: Global,
    stores: &Guarded,
    from: &str,
    output: &mut BufWriter<O>,
) -> io::Result<bool> {
    let lines = lines_of(alloc, stores, from)?;
    for (path, line) in &lines {
        writeln!(output, "{line} {path}")?;
    }
    Ok(!lines.is_empty())
}

// The path and the line of each.
fn lines_of(
    alloc: Global,
    stores: &Guarded,
    from: &str,
) -> Result<Vec<(String, String)>, AllocError> {
    let mut paths = Paths::new(alloc);
    let mut lines = Vec::new(alloc);
    for stored in stores.walk() {
        let path = paths.path_of(&stored)?;
        if is_at_or_below(path.as_str(), from) {
            lines.push((path, line_of(alloc, &stored)?))?;
        }
    }
    lines.sort_by(|one, other| one.0.as_str().cmp(other.0.as_str()))?;
    Ok(lines)
}

// The line of a folder or a file, without its path.
fn line_of(alloc: Global, stored: &MemFsStored<'_>) -> Result<String, AllocError> {
    let meta = stored.meta();
    let kind = if meta.is_dir() { "folder" } else { "file" };
    format!(in alloc;
        "{kind} {} {} {}",
        meta.len(),
        nanoseconds(meta.created()),
        nanoseconds(meta.modified()),
    )
}

// Each folder and file in memory has both moments.
fn nanoseconds(moment: FsResult<Moment>) -> u64 {
    match moment {
        Ok(moment) => moment.0,
        Err(_) => 0,
    }
}

// Whether a path is this one, or below it. A slash at its end is looked over.
fn is_at_or_below(path: &str, from: &str) -> bool {
    let from = from.strip_suffix('/').unwrap_or(from);
    match path.strip_prefix(from) {
        Some(rest) => rest.is_empty() || rest.starts_with('/'),
        None => false,
    }
}
