//! Rows of one open file: a call, and behind ` = ` its answer.
use crate::words::{first_word, row_of, told};
use bytes::Bytes;
use dav_files_core::fs::{DavFile, DavFileSystem, Moment, OpenOptions};
use dav_files_core::memfs::{MemFs, MemFsFile};
use dav_path_core::davpath::DavPath;
use dav_path_core::errors::{FsError, FsResult};
use std::alloc::Global;
use std::io::SeekFrom;
use std::test::Fail;

// `new` puts `abc` at /a and opens it; `open PATH HOW` opens another file in its place. `-` stands for no bytes. `read`, `write`, `seek` and
// `meta` are calls of the open file, the last one tells its length and its times, and `all PATH` reads a file anew.
const ROWS: &str = "new
open /a append = ok
read 1 = a
write d = ok
all /a = abcd
seek current 0 = 4
seek start 0 = 0
write e = ok
all /a = abcde
seek current 0 = 5
seek start 0 = 0
write - = ok
seek current 0 = 5
new
seek start 5 = 5
write - = ok
meta = 5 5 5
seek current 0 = 5
new
seek end -1 = 2
seek end -4 = NotImplemented
seek current 0 = 2
read 9 = c
read 9 = -
seek current -3 = 0
seek current -1 = NotImplemented
seek end 2 = 5
read 9 = -
seek current -4 = 1
write XYZ = ok
all /a = aXYZ
seek start 1 = 1
write w = ok
all /a = awYZ
seek start 18446744073709551615 = 18446744073709551615
read 1 = -
seek current 0 = 18446744073709551615
write z = TooLarge
seek current 0 = 18446744073709551615
seek current 1 = NotImplemented
seek current 0 = 18446744073709551615
seek end 9223372036854775807 = 9223372036854775811
seek current 9223372036854775804 = 18446744073709551615
write - = InsufficientStorage
seek current 0 = 18446744073709551615
all /a = awYZ
new
copy /d /a = ok
read 1 = Forbidden
write x = Forbidden
seek end 0 = Forbidden
seek start 2 = 2
seek current 1 = 3
meta = 0 5 7
new
open /d/f create = ok
write ab = ok
rename /d /e = ok
seek start 0 = 0
write xyz = ok
all /e/f = xyz
all /d/f = NotFound
rename /e/f /g = ok
seek start 1 = 1
write - = ok
read 9 = yz
new
remove /a = ok
put /a xyz = ok
read 1 = NotFound
write w = NotFound
seek end 0 = NotFound
seek start 1 = 1
seek current 1 = 2
meta = NotFound
all /a = xyz
new
put /b xyz = ok
rename /b /a = ok
read 1 = NotFound
write v = NotFound
all /a = xyz
new
open /a new = Exists
open /b - = NotFound
open /a/b create = Forbidden
open /x/y create = NotFound
open / - = Forbidden
meta = 3 5 5
open /a truncate = ok
meta = 0 20 5
open /b create = ok
meta = 0 20 20
open /c create = ok
seek start 2 = 2
write z = ok
meta = 3 20 20";

// Files, and the one that is open.
#[derive(Drop)]
struct Opened {
    files: MemFs,
    file: MemFsFile,
}

fn new(alloc: Global) -> FsResult<Opened> {
    let mut files = MemFs::new(alloc, Moment(1))?;
    let path = path_of(alloc, "/a")?;
    files.put(&path, b"abc", Moment(5))?;
    files.create_dir(&path_of(alloc, "/d")?, Moment(5))?;
    let file = files.open(&path, OpenOptions::write(), Moment(6))?;
    Ok(Opened { files, file })
}

fn path_of(alloc: Global, text: &str) -> FsResult<DavPath> {
    DavPath::new(alloc, text).map_err(|_| FsError::GeneralFailure)
}

fn answer_to(alloc: Global, opened: &mut Opened, call: &str) -> FsResult<String> {
    let (call, words) = first_word(call);
    match call {
        "read" => read(alloc, opened, words),
        "write" => write(alloc, opened, words),
        "seek" => seek(alloc, opened, words),
        "meta" => meta(alloc, opened),
        "all" => all(alloc, &mut opened.files, words),
        "open" => open(alloc, opened, words),
        _ => changed(alloc, &mut opened.files, call, words),
    }
}

fn read(alloc: Global, opened: &mut Opened, count: &str) -> FsResult<String> {
    let count = count.parse().map_err(|_| FsError::GeneralFailure)?;
    text_of(alloc, opened.file.read_bytes(&opened.files, count)?)
}

fn write(alloc: Global, opened: &mut Opened, text: &str) -> FsResult<String> {
    let bytes = Bytes::copy_from_slice(alloc, bytes_of(text))?;
    opened.file.write_bytes(&mut opened.files, bytes)?;
    ok(alloc)
}

fn seek(alloc: Global, opened: &mut Opened, words: &str) -> FsResult<String> {
    let at = opened.file.seek(&opened.files, place_of(words)?)?;
    Ok(format!(in alloc; "{at}")?)
}

fn meta(alloc: Global, opened: &mut Opened) -> FsResult<String> {
    let meta = opened.file.metadata(&opened.files)?;
    let (modified, created) = (meta.modified.0, meta.created.0);
    Ok(format!(in alloc; "{} {modified} {created}", meta.length)?)
}

fn all(alloc: Global, files: &mut MemFs, path: &str) -> FsResult<String> {
    let mut file = files.open(&path_of(alloc, path)?, OpenOptions::read(), Moment(6))?;
    text_of(alloc, file.read_bytes(files, 99)?)
}

fn open(alloc: Global, opened: &mut Opened, words: &str) -> FsResult<String> {
    let (path, how) = first_word(words);
    let path = path_of(alloc, path)?;
    opened.file = opened.files.open(&path, options_of(how), Moment(20))?;
    ok(alloc)
}

fn options_of(how: &str) -> OpenOptions {
    let mut options = OpenOptions::write();
    match how {
        "append" => options.append = true,
        "create" => options.create = true,
        "new" => options.create_new = true,
        "truncate" => options.truncate = true,
        _ => {}
    }
    options
}

fn changed(alloc: Global, files: &mut MemFs, call: &str, words: &str) -> FsResult<String> {
    let (path, rest) = first_word(words);
    let path = path_of(alloc, path)?;
    match call {
        "put" => files.put(&path, bytes_of(rest), Moment(7))?,
        "remove" => files.remove_file(&path, Moment(7))?,
        "rename" => files.rename(&path, &path_of(alloc, rest)?, Moment(7))?,
        "copy" => files.copy(&path, &path_of(alloc, rest)?, Moment(7))?,
        _ => return Err(FsError::GeneralFailure),
    }
    ok(alloc)
}

fn place_of(words: &str) -> FsResult<SeekFrom> {
    let (from, offset) = first_word(words);
    match from {
        "start" => Ok(SeekFrom::Start(offset.parse().map_err(|_| FsError::GeneralFailure)?)),
        "end" => Ok(SeekFrom::End(offset_of(offset)?)),
        _ => Ok(SeekFrom::Current(offset_of(offset)?)),
    }
}

fn offset_of(word: &str) -> FsResult<i64> {
    word.parse().map_err(|_| FsError::GeneralFailure)
}

fn text_of(alloc: Global, bytes: Bytes) -> FsResult<String> {
    let text = match str::from_utf8(bytes.as_slice()) {
        Ok("") => "-",
        Ok(text) => text,
        Err(_) => "?",
    };
    Ok(String::from_str(alloc, text)?)
}

fn bytes_of(text: &str) -> &[u8] {
    match text {
        "-" => b"",
        text => text.as_bytes(),
    }
}

fn ok(alloc: Global) -> FsResult<String> {
    Ok(String::from_str(alloc, "ok")?)
}

#[test]
fn plays_on_open_files(rt: HostRuntime) -> Result<(), Fail> {
    let mut opened = new(rt.alloc())?;
    for row in ROWS.split('\n') {
        if row == "new" {
            opened = new(rt.alloc())?;
        } else {
            let (call, wanted) = row_of(row)?;
            let answer = told(rt.alloc(), answer_to(rt.alloc(), &mut opened, call))?;
            assert!(rt; answer.as_str() == wanted, "{row}, not {answer}");
        }
    }
    Ok(())
}
