//! A file that is read from a place, without a lock.
ghost use Rattle.std.specs.Prelude.{IfOk, IfSome};
ghost use Rattle.std.specs.Io.KnownBytes.{Consumes};

use std::fs::File;
use std::io::{self, Read};
use std::os::unix::fs::FileExt;
use store_files::HEADER;

/// Where the first gate of a file is: behind its header.
pub const FIRST_GATE: u64 = HEADER as u64;

/// A file, read from one byte on. Where the reader of a file that grows has come to its end, it reads on later.
#[derive(Drop)]
pub struct Placed<'a> {
    file: &'a File,
    at: u64,
}

impl<'a> Placed<'a> {
    /// The file from this byte on.
    pub fn new(file: &'a File, at: u64) -> Placed<'a> {
        Placed { file, at }
    }
}

impl Read for Placed<'_> {
    fn read(&mut self, buf: &mut [u8]) -> io::Result<usize> {
        let count = self.file.read_at(buf, self.at)?;
        self.at = self.at.saturating_add(count as u64);
        Ok(count)
    }
}

/// The next eight bytes; none where fewer are left.
pub fn read_word<R: Read>(input: &mut R) -> io::Result<Option<[u8; 8]>>
    ensures { IfOk result (λ some. IfSome some (λ word. Consumes (R.Read.remaining input.old) (R.Read.remaining input.new) word)) }
{
    let mut word = [0u8; 8];
    match input.read_exact(&mut word) {
        Ok(()) => Ok(Some(word)),
        Err(error) if error.kind() == io::ErrorKind::UnexpectedEof => Ok(None),
        Err(error) => Err(error),
    }
}
