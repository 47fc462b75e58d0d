//! How large a folder is with all that stands below it, on any file system.
ghost use Rattle.std.specs.Prelude.{◌≡◌, ◌+◌, ℕ, [], ◌∷◌, ◌++◌, map, IfOk};
ghost use Rattle.dav_path_core.specs.Segments.{segments};
ghost use Rattle.dav_path_core.specs.Fronts.{Path};
ghost use Rattle.dav_files_core.specs.Resources.{ResourceMap};
ghost use Rattle.uses.specs.Sizes.{HasSize, HaveSize};

use dav_files_core::fs::{DavDirEntry, DavFileSystem, DavMetaData, ReadDirMeta};
use dav_path_core::davpath::{DavPath, ParseError};
use dav_path_core::errors::{FsError, FsResult};
use std::alloc::Global;

/// The length of a file, or of all files at or below a folder together, as listings tell it. It lists `most` folders at most.
///
/// An error is one of `metadata` or `read_dir`, or of an entry's `metadata`; `TooLarge` where there are more folders, or where
/// the sum passes 64 bits; `GeneralFailure` for a member with a name that no path can have; `InsufficientStorage` where it is
/// out of memory.
pub fn size_below<F: DavFileSystem>(
    alloc: Global,
    fs: &F,
    path: &DavPath,
    most: usize,
) -> FsResult<u64>
    ensures { IfOk result (λ size. HasSize (F.contents fs.now) (segments path.now.bytes) size) }
{
    let meta = fs.metadata(path)?;
    if !meta.is_dir() {
        return Ok(meta.len());
    }
    if most == 0 {
        return Err(FsError::TooLarge);
    }
    let (length, folders) = members_of(alloc, fs, path)?;
    sum_of(length, size_of_all(alloc, fs, folders, most - 1)?)
}

/// The law of sizes: what stands at a path has one size, and no other.
pub fn sizes_are_unique()
    ensures { (m : ResourceMap) (p : Path) (size other : ℕ) → HasSize m p size → HasSize m p other → size ≡ other }
{}

// The size of some folders together, of which `most` at most are listed, with those below them.
fn size_of_all<F: DavFileSystem>(
    alloc: Global,
    fs: &F,
    mut waiting: Vec<DavPath>,
    most: usize,
) -> FsResult<u64>
    ensures { IfOk result (λ size. HaveSize (F.contents fs.now) (map (λ p. segments p.bytes) waiting.items) size) }
{
    let mut size = 0;
    for _ in 0..most {
        if waiting.is_empty() {
            return Ok(size);
        }
        size = sum_of(size, list_last(alloc, fs, &mut waiting)?)?;
    }
    if waiting.is_empty() {
        return Ok(size);
    }
    Err(FsError::TooLarge)
}

// Takes the last folder off a list and puts the folders in it there; answers how long the files in it are together.
fn list_last<F: DavFileSystem>(alloc: Global, fs: &F, waiting: &mut Vec<DavPath>) -> FsResult<u64>
    ensures { IfOk result (λ length. (size : ℕ) → HaveSize (F.contents fs.now) (map (λ p. segments p.bytes) waiting.new.items) size
        → HaveSize (F.contents fs.now) (map (λ p. segments p.bytes) waiting.old.items) (length + size)) }
{
    match waiting.pop() {
        None => return Ok(0),
        Some(folder) => {
            let (length, mut folders) = members_of(alloc, fs, &folder)?;
            waiting.append(&mut folders)?;
            return Ok(length);
        }
    }
}

// How long the files in a folder are together, and the folders in it.
fn members_of<F: DavFileSystem>(
    alloc: Global,
    fs: &F,
    folder: &DavPath,
) -> FsResult<(u64, Vec<DavPath>)>
    ensures { IfOk result (λ members. (size : ℕ) → HaveSize (F.contents fs.now) (map (λ p. segments p.bytes) members.1.items) size
        → HasSize (F.contents fs.now) (segments folder.now.bytes) (members.0 + size)) }
{
    let mut length = 0;
    let mut folders = Vec::new(alloc);
    for member in fs.read_dir(folder, ReadDirMeta::Data)? {
        let meta = member.metadata()?;
        if meta.is_dir() {
            folders.push(path_of_member(folder, member.name())?)?;
        } else {
            length = sum_of(length, meta.len())?;
        }
    }
    Ok((length, folders))
}

// The path of a member of a folder.
fn path_of_member(folder: &DavPath, name: &[u8]) -> FsResult<DavPath>
    ensures { IfOk result (λ path. segments path.bytes ≡ segments folder.now.bytes ++ (name.now ∷ [])) }
{
    match folder.child(name) {
        Ok(path) => Ok(path),
        Err(ParseError::OutOfMemory) => Err(FsError::InsufficientStorage),
        Err(_) => Err(FsError::GeneralFailure),
    }
}

// The sum of two lengths; `TooLarge` where it passes 64 bits.
fn sum_of(length: u64, more: u64) -> FsResult<u64>
    ensures { IfOk result (λ sum. sum ≡ length + more) }
{
    match length.checked_add(more) {
        Some(sum) => Ok(sum),
        None => Err(FsError::TooLarge),
    }
}

#[cfg(test)]
mod tests {
    use super::*;
    use crate::read_only::ReadOnly;
    use dav_files_core::fs::Moment;
    use dav_files_core::memfs::MemFs;
    use std::test::Fail;

    // Folders, and files with their bytes.
    const STORED: &str = "/a
/a/b
/a/b/c
/d
/x 1
/a/x 22
/a/b/x 333
/a/b/y
/a/b/c/x 4444";

    // A path, how many folders are listed at most, and the size, or the refusal.
    const ROWS: &str = "/ 6 = 10
/ 9 = 10
/ 5 = TooLarge
/ 0 = TooLarge
/a 4 = 9
/a 3 = TooLarge
/a/ 4 = 9
/a/b 3 = 7
/a/b/c 1 = 4
/a/b/c/x 0 = 4
/a/b/y 1 = 0
/d 1 = 0
/d 0 = TooLarge
/x 0 = 1
/y 9 = NotFound
/x/y 9 = Forbidden";

    fn stored(alloc: Global) -> Result<MemFs, Fail> {
        let mut files = MemFs::new(alloc, Moment(1))?;
        for row in STORED.split('\n') {
            match row.split_once(' ') {
                Some((path, bytes)) => {
                    files.put(&DavPath::new(alloc, path)?, bytes.as_bytes(), Moment(2))?
                }
                None => files.create_dir(&DavPath::new(alloc, row)?, Moment(2))?,
            }
        }
        Ok(files)
    }

    fn answers<F: DavFileSystem>(alloc: Global, fs: &F, row: &str) -> Result<bool, Fail> {
        let (asked, wanted) = row.split_once(" = ").ok_or("no answer")?;
        let (path, most) = asked.split_once(' ').ok_or("no count")?;
        let path = DavPath::new(alloc, path)?;
        Ok(match size_below(alloc, fs, &path, most.parse::<usize>()?) {
            Ok(size) => wanted.parse::<u64>() == Ok(size),
            Err(error) => format!(in alloc; "{error:?}")?.as_str() == wanted,
        })
    }

    #[test]
    fn sums_what_is_below(rt: HostRuntime) -> Result<(), Fail> {
        let alloc = rt.alloc();
        let files = stored(alloc)?;
        for row in ROWS.split('\n') {
            assert!(rt; answers(alloc, &files, row)?, "{row}");
        }
        Ok(())
    }

    #[test]
    fn sums_what_is_only_read(rt: HostRuntime) -> Result<(), Fail> {
        let alloc = rt.alloc();
        let files = stored(alloc)?;
        files.metadata(&DavPath::new(alloc, "/")?)?;
        let view = ReadOnly::new(files);
        for row in ROWS.split('\n') {
            assert!(rt; answers(alloc, &view, row)?, "{row}");
        }
        Ok(())
    }
}
