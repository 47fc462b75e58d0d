//! What is known of a folder or a file in memory.
ghost use Rattle.std.specs.Prelude.{◌≡◌, ◌↔◌, IsTrue, Ok, Err, false, true, ◌==◌};
ghost use Rattle.dav_files_core.specs.Meta.{meta_of};

use super::{Kind, MemFsMeta};
use crate::fs::{DavMetaData, Moment};
use dav_path_core::errors::{FsError, FsResult};

/// It takes no memory. What is not kept is `NotImplemented`.
impl DavMetaData for MemFsMeta {
    ghost told = { meta_of };

    ghost offers_created = { true };

    fn len(&self) -> u64
        ensures { result ≡ self.now.length }
    {
        self.length
    }

    fn modified(&self) -> FsResult<Moment>
        ensures { result ≡ Ok self.now.modified }
    {
        Ok(self.modified)
    }

    fn is_dir(&self) -> bool
        ensures { IsTrue result ↔ (self.now.kind ≡ Kind.Folder) }
    {
        matches!(self.kind, Kind::Folder)
    }

    fn created(&self) -> FsResult<Moment>
        ensures { result ≡ Ok self.now.created }
    {
        Ok(self.created)
    }

    fn accessed(&self) -> FsResult<Moment>
        ensures { result ≡ Err FsError.NotImplemented }
    {
        Err(FsError::NotImplemented)
    }

    fn status_changed(&self) -> FsResult<Moment>
        ensures { result ≡ Err FsError.NotImplemented }
    {
        Err(FsError::NotImplemented)
    }

    fn executable(&self) -> FsResult<bool>
        ensures { result ≡ Err FsError.NotImplemented }
    {
        Err(FsError::NotImplemented)
    }

    fn is_file(&self) -> bool
        ensures { IsTrue result ↔ (self.now.kind ≡ Kind.File) }
    {
        !self.is_dir()
    }

    fn is_symlink(&self) -> bool
        ensures { result ≡ false }
    {
        false
    }

    fn is_empty(&self) -> bool
        ensures { result ≡ (self.now.length == 0) }
    {
        self.length == 0
    }
}
