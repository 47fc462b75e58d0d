//! What is imported: a folder of the system, and what stands in it.
use bytes::Bytes;
use dav_guarded_core::fs::Moment;
use dav_path_core::davpath::DavPath;
use std::alloc::{AllocError, Global};
use std::fs::{self, File, Files, Metadata};
use std::io::{self, BufRead, BufReader, ErrorKind, Read};
use std::os::unix::fs::MetadataExt;
use std::time::UNIX_EPOCH;
use store_copies::Failure;
use store_files::is_one_file;

// How many bytes of names are read at once; the system hands out none where one does not fit.
const NAMES: usize = 64 * 1024;

/// Something that may be imported.
#[derive(Drop)]
pub struct Found {
    /// Its path in the system.
    pub place: String,
    /// Its path in the stores.
    pub path: DavPath,
}

/// A folder of the system, as the root of the stores.
pub fn source_of(rt: &HostRuntime, folder: &str) -> Result<Found, Failure> {
    let alloc = rt.alloc();
    let found = at(alloc, folder, fs::metadata(rt, folder))?;
    if !found.is_dir() {
        let error = io::Error::from(ErrorKind::NotADirectory);
        return Err(Failure::At(String::from_str(alloc, folder)?, error));
    }
    Ok(Found {
        // With a slash at its end, so that a link to a folder is followed here.
        place: member_of(alloc, folder, "")?,
        path: DavPath::from_parts(alloc, "", b"/").map_err(|_| AllocError)?,
    })
}

/// What a call of the system answers at this path, or its error with the path.
pub fn at<T: Drop>(alloc: Global, place: &str, answer: io::Result<T>) -> Result<T, Failure> {
    match answer {
        Ok(value) => Ok(value),
        Err(error) => Err(Failure::At(String::from_str(alloc, place)?, error)),
    }
}

/// The path of a member of a folder of the system.
pub fn member_of(alloc: Global, place: &str, name: &str) -> Result<String, AllocError> {
    let mut member = String::from_str(alloc, place)?;
    if !place.ends_with('/') {
        member.push('/')?;
    }
    member.push_str(name)?;
    Ok(member)
}

/// The names of what stands in a folder, sorted by their bytes from the last to the first.
pub fn names_of(rt: &HostRuntime, place: &str) -> Result<Vec<Vec<u8>>, Failure> {
    let folder = at(rt.alloc(), place, rt.open_dir(place))?;
    let mut names = at(rt.alloc(), place, read_names(rt.alloc(), folder))?;
    names.sort_by(|one, other| other.as_slice().cmp(one.as_slice()))?;
    Ok(names)
}

// The names in a folder, as they come.
fn read_names<I: Read + Drop>(alloc: Global, folder: I) -> io::Result<Vec<Vec<u8>>> {
    let mut source = BufReader::with_capacity(alloc, NAMES, folder)?;
    let mut names = Vec::new(alloc);
    for _ in 0..u64::MAX {
        let mut name = Vec::new(alloc);
        if source.read_until(0, &mut name)? == 0 {
            break;
        }
        let _zero = name.pop();
        if name.as_slice() != b".".as_slice() && name.as_slice() != b"..".as_slice() {
            names.push(name).map_err(|_| AllocError)?;
        }
    }
    Ok(names)
}

/// The bytes of the file that was found at this path. `Changed` where it is another one, or changes while it is read.
pub fn bytes_of(rt: &HostRuntime, place: &str, found: &Metadata) -> Result<Bytes, Failure> {
    let alloc = rt.alloc();
    let file = at(alloc, place, fs::open(rt, place))?;
    match at(alloc, place, read_unchanged(alloc, file, found))? {
        Some(bytes) => Ok(Bytes::from_vec(bytes).map_err(|_| AllocError)?),
        None => Err(Failure::Changed(String::from_str(alloc, place)?)),
    }
}

// The bytes of the file that was found; none where it is another one, or changes while it is read.
fn read_unchanged(alloc: Global, file: File, found: &Metadata) -> io::Result<Option<Vec<u8>>> {
    let before = file.metadata()?;
    let mut bytes = Vec::new(alloc);
    let mut input = file.take(before.len().saturating_add(1));
    let length = input.read_to_end(&mut bytes)?;
    let after = input.get_ref().metadata()?;
    let is_same = are_same(found, &before) && are_same(&before, &after);
    if length as u64 == before.len() && is_same {
        return Ok(Some(bytes));
    }
    Ok(None)
}

// Whether this is the same file, unchanged.
fn are_same(one: &Metadata, other: &Metadata) -> bool {
    is_one_file(one, other)
        && one.len() == other.len()
        && one.mtime() == other.mtime()
        && one.mtime_nsec() == other.mtime_nsec()
        && one.ctime() == other.ctime()
        && one.ctime_nsec() == other.ctime_nsec()
}

/// When it was changed; none before 1970, and past the year 2554.
pub fn time_of(found: &Metadata) -> Option<Moment> {
    let since = found.modified().ok()?.duration_since(UNIX_EPOCH).ok()?;
    Some(Moment(u64::try_from(since.as_nanos()).ok()?))
}
