//! Some bytes of a file are written, as a partial PUT asks for it, on any file system.
ghost use Rattle.std.specs.Prelude.{◌≡◌, Ok, IfOk, OnErr};
ghost use Rattle.dav_files_core.specs.OpenFiles.{write_bytes};

use bytes::Bytes;
use dav_files_core::fs::DavFile;
use dav_path_core::errors::FsResult;
use std::io::SeekFrom;

/// Writes bytes into an open file from a place on, as the file would that stands there. A refusal writes nothing.
pub fn write_part<S, F: DavFile<S>>(
    files: &mut S,
    file: &mut F,
    at: u64,
    bytes: Bytes,
) -> FsResult<()>
    ensures ok { IfOk result (λ x. write_bytes (F.contents files.old) (record (F.opened file.old) { position = at }) bytes ≡ Ok (x, (F.opened file.new, F.contents files.new))) }
    ensures err { OnErr result (F.contents files.new ≡ F.contents files.old) }
{
    file.seek(files, SeekFrom::Start(at))?;
    file.write_bytes(files, bytes)
}

#[cfg(test)]
mod tests {
    use super::*;
    use dav_files_core::fs::{DavFileSystem, Moment, OpenOptions};
    use dav_files_core::memfs::MemFs;
    use dav_path_core::davpath::DavPath;
    use std::alloc::Global;
    use std::process::Abort;
    use std::test::Fail;

    fn writes(rt: &impl Abort, alloc: Global, files: &mut MemFs) -> Result<(), Fail> {
        let path = DavPath::new(alloc, "/a")?;
        files.put(&path, b"abcdef", Moment(2))?;
        let mut file = files.open(&path, OpenOptions::write(), Moment(3))?;
        write_part(files, &mut file, 2, Bytes::from_static(b"xy"))?;
        file.seek(files, SeekFrom::Start(0))?;
        assert!(rt; file.read_bytes(files, 9)?.as_slice() == b"abxyef".as_slice());
        Ok(())
    }

    #[test]
    fn writes_a_part(rt: HostRuntime) -> Result<(), Fail> {
        let mut files = MemFs::new(rt.alloc(), Moment(1))?;
        writes(&rt, rt.alloc(), &mut files)
    }
}
