//! A file system in memory that is only read.
ghost use Rattle.std.specs.Prelude.{◌≡◌, refl};
ghost use Rattle.dav_files_core.specs.Describing.{metadata};
ghost use Rattle.dav_files_core.specs.Resources.{IsResourceMap};

use bytes::{Buf, Bytes};
use dav_files_core::fs::{DavFile, DavFileSystem, Moment, OpenOptions, ReadDirMeta};
use dav_files_core::memfs::{MemFs, MemFsEntry, MemFsFile, MemFsMeta};
use dav_path_core::davpath::DavPath;
use dav_path_core::errors::{FsError, FsResult};
use std::io::SeekFrom;
use std::marker::Model;

/// A view of files in memory, through which they are only read.
#[derive(Drop)]
pub struct ReadOnly {
    files: MemFs,
}

impl Model for ReadOnly {
    ghost use Rattle.dav_files_core.specs.ResourceCodes.{coded_resources};
    ghost use Rattle.dav_files_core.specs.Resources.{ResourceMap, IsResourceMap};

    ghost Value = { ResourceMap };

    ghost coded = { coded_resources };

    ghost view = { λ view. view.files };

    ghost invariant = { λ view. IsResourceMap view.files };
}

/// An open file that is only read.
#[derive(Drop)]
pub struct ReadOnlyFile {
    file: MemFsFile,
}

impl ReadOnly {
    /// The view of those files.
    pub fn new(files: MemFs) -> ReadOnly
        requires { IsResourceMap files }
        ensures { result ≡ files }
    {
        ReadOnly { files }
    }
}

/// A write is a `GeneralFailure`.
impl DavFile<ReadOnly> for ReadOnlyFile {
    type Meta = MemFsMeta;

    ghost contents = { λ view. view };

    ghost opened = { λ f. f.file };

    fn metadata(&mut self, fs: &ReadOnly) -> FsResult<MemFsMeta> {
        self.file.metadata(&fs.files)
    }

    fn read_bytes(&mut self, fs: &ReadOnly, count: usize) -> FsResult<Bytes> {
        self.file.read_bytes(&fs.files, count)
    }

    fn write_bytes(&mut self, fs: &mut ReadOnly, bytes: Bytes) -> FsResult<()> {
        Err(FsError::GeneralFailure)
    }

    fn write_buf<B: Buf>(&mut self, fs: &mut ReadOnly, buf: &mut B) -> FsResult<()> {
        Err(FsError::GeneralFailure)
    }

    fn seek(&mut self, fs: &ReadOnly, to: SeekFrom) -> FsResult<u64> {
        self.file.seek(&fs.files, to)
    }

    fn flush(&mut self, fs: &mut ReadOnly) -> FsResult<()> {
        Ok(())
    }
}

/// To open a file for more than reading is a `GeneralFailure`. No other change is offered.
impl DavFileSystem for ReadOnly {
    type File = ReadOnlyFile;

    type Meta = MemFsMeta;

    type Entry = MemFsEntry;

    ghost contents = { λ view. view };

    ghost metadata_answers = { λ view path told. told ≡ metadata view path };

    ghost one_view = { λ view. refl };

    fn open(
        &mut self,
        path: &DavPath,
        options: OpenOptions,
        now: Moment,
    ) -> FsResult<ReadOnlyFile> {
        let files = &mut self.files;
        if options != OpenOptions::read() {
            return Err(FsError::GeneralFailure);
        }
        let file = files.open(path, options, now)?;
        Ok(ReadOnlyFile { file })
    }

    fn read_dir(&self, path: &DavPath, meta: ReadDirMeta) -> FsResult<Vec<MemFsEntry>> {
        self.files.read_dir(path, meta)
    }

    fn metadata(&self, path: &DavPath) -> FsResult<MemFsMeta> {
        self.files.metadata(path)
    }
}
