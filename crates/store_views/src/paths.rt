//! The paths of what a walk of the stores meets, and words of a line.
use dav_files_core::fs::DavMetaData;
use dav_files_core::memfs::MemFsStored;
use dav_path_core::davpath::DavPath;
use std::alloc::{AllocError, Global};
use std::collections::BTreeMap;

/// The paths of the folders that were met, by their numbers (own).
#[derive(Drop)]
pub struct Paths {
    alloc: Global,
    folders: BTreeMap<u64, String>,
}

impl Paths {
    /// None yet (own).
    pub fn new(alloc: Global) -> Paths {
        Paths {
            alloc,
            folders: BTreeMap::new(alloc),
        }
    }

    /// The path of the next folder or file (own): each byte of a name that is no letter, digit, `-`, `.`, `_` or `~` as `%HH`, and a slash behind a folder.
    pub fn path_of(&mut self, stored: &MemFsStored<'_>) -> Result<String, AllocError> {
        let mut path = String::new(self.alloc);
        if let Some(folder) = stored.folder()
            && let Some(above) = self.folders.get(&folder)
        {
            path.push_str(above.as_str())?;
        }
        push_name(&mut path, stored.name())?;
        if stored.meta().is_dir() {
            path.push('/')?;
            let copy = path.clone()?;
            if self.folders.insert(stored.number(), copy).is_err() {
                return Err(AllocError);
            }
        }
        Ok(path)
    }
}

/// A path as a word of a line (own): each segment with a slash before it, its bytes as those of a name are written; a slash for the root.
pub fn told_path(alloc: Global, path: &DavPath) -> Result<String, AllocError> {
    let mut told = String::new(alloc);
    push_path(&mut told, path)?;
    Ok(told)
}

/// Adds a path as a word of a line.
pub(crate) fn push_path(line: &mut String, path: &DavPath) -> Result<(), AllocError> {
    let mut is_root = true;
    for segment in path.segments() {
        line.push('/')?;
        push_name(line, segment)?;
        is_root = false;
    }
    if is_root { line.push('/') } else { Ok(()) }
}

/// The path of a member of a folder, as a word of a line (own).
pub fn told_member(alloc: Global, folder: &DavPath, name: &[u8]) -> Result<String, AllocError> {
    let mut told = told_path(alloc, folder)?;
    if !told.ends_with('/') {
        told.push('/')?;
    }
    push_name(&mut told, name)?;
    Ok(told)
}

/// Adds bytes as a word of a line: each that is no letter, digit, `-`, `.`, `_` or `~` as `%HH`.
pub(crate) fn push_name(line: &mut String, name: &[u8]) -> Result<(), AllocError> {
    for byte in name {
        match *byte {
            b'a'..=b'z' | b'A'..=b'Z' | b'0'..=b'9' | b'-' | b'.' | b'_' | b'~' => {
                line.push(*byte as char)?;
            }
            other => {
                line.push('%')?;
                line.push(digit(other >> 4))?;
                line.push(digit(other & 15))?;
            }
        }
    }
    Ok(())
}

// A hexadecimal digit.
fn digit(value: u8) -> char {
    match value {
        0..=9 => (b'0' + value) as char,
        10..=15 => (b'A' + (value - 10)) as char,
        _ => '0',
    }
}
