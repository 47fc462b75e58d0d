//! A folder that is made and put elsewhere, on any file system.
ghost use Rattle.std.specs.Prelude.{◌≡◌, ◌≢◌, Some, None, IfOk};
ghost use Rattle.dav_path_core.specs.Segments.{segments};
ghost use Rattle.dav_files_core.specs.Outcomes.{new_folder};
ghost use Rattle.dav_files_core.specs.Resources.{IsResourceMap, at_path};

use dav_files_core::fs::{DavFileSystem, Moment};
use dav_path_core::davpath::DavPath;
use dav_path_core::errors::FsResult;

/// Makes a folder at one path and puts it at another. Then it stands at the second path, with the number that was the next
/// one, and nothing stands at the first.
pub fn make_elsewhere<F: DavFileSystem>(
    files: &mut F,
    first: &DavPath,
    second: &DavPath,
    now: Moment,
) -> FsResult<()>
    ensures { IfOk result (λ _. IsResourceMap (F.contents files.old)
        → segments first.now.bytes ≢ segments second.now.bytes
        → (at_path (F.contents files.new) (segments second.now.bytes)
        ≡ Some (record { number = (F.contents files.old).next; node = new_folder now.0 }))
        × (at_path (F.contents files.new) (segments first.now.bytes) ≡ None)) }
{
    files.create_dir(first, now)?;
    files.rename(first, second, now)
}

#[cfg(test)]
mod tests {
    use super::*;
    use dav_files_core::memfs::MemFs;
    use dav_path_core::errors::FsError;
    use std::alloc::Global;
    use std::process::Abort;
    use std::test::Fail;

    fn makes(rt: &impl Abort, alloc: Global, files: &mut MemFs) -> Result<(), Fail> {
        let (first, second) = (DavPath::new(alloc, "/a")?, DavPath::new(alloc, "/b")?);
        make_elsewhere(files, &first, &second, Moment(2))?;
        assert!(rt; files.metadata(&first) == Err(FsError::NotFound));
        assert_eq!(rt; files.metadata(&second)?.created, Moment(2));
        Ok(())
    }

    #[test]
    fn makes_a_folder_elsewhere(rt: HostRuntime) -> Result<(), Fail> {
        let mut files = MemFs::new(rt.alloc(), Moment(1))?;
        makes(&rt, rt.alloc(), &mut files)
    }
}
