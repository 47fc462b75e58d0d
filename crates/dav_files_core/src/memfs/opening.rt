//! Open files in memory.
ghost use Rattle.std.specs.Prelude.{◌≡◌, [], pos, ◌+ℤ◌, if◌then◌else◌, Ok, None, OnOk, OnErr};
ghost use Rattle.dav_path_core.specs.StoreAnswers.{AnswersAs};
ghost use Rattle.dav_files_core.specs.Exactly.{AnswersExactly, TellsExactly};
ghost use Rattle.dav_files_core.specs.Meta.{meta_of};
ghost use Rattle.dav_files_core.specs.OpenFiles.{open_metadata, position_of, read_bytes, seek, write_bytes};
ghost use Rattle.dav_files_core.specs.Resources.{IsResourceMap};

use super::{MemFs, MemFsMeta};
use crate::fs::DavFile;
use bytes::{Buf, Bytes};
use dav_path_core::errors::{FsError, FsResult};
use std::io::SeekFrom;
use std::marker::Model;

/// An open file. It follows its entry through renames, until that entry is gone.
#[derive(Debug, Drop)]
pub struct MemFsFile {
    pub(super) number: u64,
    pub(super) position: usize,
    pub(super) append: bool,
}

impl Model for MemFsFile {
    ghost use Rattle.dav_files_core.specs.Opening.{OpenFile};
    ghost use Rattle.dav_files_core.specs.ResourceCodes.{coded_file};

    ghost Value = { OpenFile };

    ghost coded = { coded_file };

    ghost view = { λ f. record { number = f.number; position = f.position; append = f.append } };
}

impl MemFsFile {
    // Where a write begins, in a file of some length.
    fn start_of_write(&self, length: usize) -> usize
        ensures { result ≡ (if self.now.append then length else self.now.position) }
    {
        if self.append {
            return length;
        }
        self.position
    }
}

/// Each call but `flush`, `redirect_url` and a seek from the start or the position is `NotFound` where the entry is gone, also
/// where another stands at its path since; reads, writes and a seek from the end are `Forbidden` where it became a folder. These
/// come before any other refusal but out of memory.
impl DavFile<MemFs> for MemFsFile {
    type Meta = MemFsMeta;

    ghost contents = { λ m. m };

    ghost opened = { λ f. f };

    /// It takes no memory.
    fn metadata(&mut self, fs: &MemFs) -> FsResult<MemFsMeta>
        ensures answer { TellsExactly meta_of result (open_metadata fs.now self.old) }
        ensures same { self.new ≡ self.old }
    {
        Ok(fs.node_with(self.number)?.meta())
    }

    /// `InsufficientStorage` where it is out of memory.
    fn read_bytes(&mut self, fs: &MemFs, count: usize) -> FsResult<Bytes>
        ensures answer { AnswersAs (λ b. b) result (read_bytes fs.now self.old count) self.old self.new }
    {
        let bytes = fs.part(self.number, self.position, count)?;
        self.position += bytes.len();
        Ok(bytes)
    }

    /// As `write_buf`.
    fn write_bytes(&mut self, fs: &mut MemFs, bytes: Bytes) -> FsResult<()>
        ensures answer { AnswersAs (λ x. x) result (write_bytes fs.old self.old bytes) (self.old, fs.old) (self.new, fs.new) }
        ensures shape { IsResourceMap fs.new }
    {
        let mut buf = bytes;
        self.write_buf(fs, &mut buf)
    }

    /// `TooLarge` where it would end past the greatest position, `InsufficientStorage` where it is out of memory.
    fn write_buf<B: Buf>(&mut self, fs: &mut MemFs, buf: &mut B) -> FsResult<()>
        ensures answer { AnswersAs (λ x. x) result (write_bytes fs.old self.old (B.unread buf.old)) (self.old, fs.old) (self.new, fs.new) }
        ensures spent { OnOk result (B.unread buf.new ≡ []) }
        ensures unread { OnErr result (buf.new ≡ buf.old) }
        ensures kept { B.kept buf.new ≡ B.kept buf.old }
        ensures shape { IsResourceMap fs.new }
    {
        let length = fs.length_of(self.number)?;
        let start = self.start_of_write(length);
        let Some(end) = start.checked_add(buf.remaining()) else {
            return Err(FsError::TooLarge);
        };
        fs.overwrite(self.number, start, buf)?;
        self.position = end;
        Ok(())
    }

    /// It takes no memory. `NotImplemented` before the start, and past the greatest position.
    fn seek(&mut self, fs: &MemFs, to: SeekFrom) -> FsResult<u64>
        ensures answer { AnswersExactly (λ at. at) result (seek fs.now self.old to) self.old self.new }
    {
        let at = match to {
            SeekFrom::Start(at) => at,
            SeekFrom::Current(offset) => moved_by(self.position, offset)?,
            SeekFrom::End(offset) => moved_by(fs.length_of(self.number)?, offset)?,
        };
        self.position = at as usize;
        Ok(at)
    }

    /// It takes no memory. What was written stands already.
    fn flush(&mut self, fs: &mut MemFs) -> FsResult<()>
        ensures answer { result ≡ Ok tt }
        ensures same { self.new ≡ self.old }
        ensures kept { fs.new ≡ fs.old }
    {
        Ok(())
    }

    /// It takes no memory. There is none.
    fn redirect_url(&mut self, fs: &MemFs) -> FsResult<Option<String>>
        ensures answer { result ≡ Ok None }
        ensures same { self.new ≡ self.old }
    {
        Ok(None)
    }
}

// A position by an offset from another.
fn moved_by(from: usize, offset: i64) -> FsResult<u64>
    ensures { result ≡ position_of (pos from +ℤ offset) }
{
    (from as u64)
        .checked_add_signed(offset)
        .ok_or(FsError::NotImplemented)
}
