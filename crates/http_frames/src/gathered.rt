//! An output in front of another one, which writes little at a time together.
ghost use Rattle.std.specs.Prelude.{◌≡◌, [], IfOk, OnOk};
ghost use Rattle.std.specs.Io.KnownBytes.{Keeps};
ghost use Rattle.http_frames.specs.Gathered.{KeepsAll, gathered_contents, waiting};

use bytes::BytesMut;
use std::alloc::{AllocError, Global};
use std::io::{self, ErrorKind, Write};

// So many bytes wait at most.
const ROOM: usize = 64 * 1024;

/// An output whose bytes wait, up to 64 KiB of them, and go out together once they are flushed, or more would wait. A longer piece is not copied. It does what `BufWriter` does, which takes time
/// for each byte that it has written (own).
pub struct Gathered<O: Write + Drop> {
    output: O,
    buffer: BytesMut,
}

impl<O: Write + Drop> Gathered<O> {
    /// Nothing waits yet. `AllocError` where there is no memory for what may wait (own).
    pub fn new(alloc: Global, output: O) -> Result<Gathered<O>, AllocError>
        ensures keeps { IfOk result (λ g. Keeps (O.contents output)
            (gathered_contents O.contents g)) }
        ensures nothing { IfOk result (λ g. waiting g ≡ []) }
    {
        let buffer = BytesMut::with_capacity(alloc, ROOM)?;
        Ok(Gathered { output, buffer })
    }

    // Writes out what waits. What a failure leaves unwritten waits on.
    fn write_out(&mut self) -> io::Result<()>
        ensures empty { OnOk result (waiting self.new ≡ []) }
        ensures bytes { KeepsAll O.contents self.old self.new }
    {
        // A loop is proved to end, so this one counts its turns.
        for _turn in 0..u64::MAX {
            if self.buffer.is_empty() {
                self.buffer.clear();
                return Ok(());
            }
            match self.output.write(self.buffer.as_slice()) {
                Ok(0) => return Err(ErrorKind::WriteZero.into()),
                Ok(count) => self.buffer.advance(count),
                Err(error) if error.kind() == ErrorKind::Interrupted => {}
                Err(error) => return Err(error),
            }
        }
        Err(ErrorKind::WriteZero.into())
    }
}

impl<O: Write + Drop> Write for Gathered<O> {
    ghost contents = { gathered_contents O.contents };

    fn write(&mut self, bytes: &[u8]) -> io::Result<usize> {
        if bytes.len() >= ROOM - self.buffer.len().min(ROOM) {
            self.write_out()?;
        }
        if bytes.len() >= ROOM {
            return self.output.write(bytes);
        }
        self.buffer.extend_from_slice(bytes)?;
        Ok(bytes.len())
    }

    fn flush(&mut self) -> io::Result<()>
        ensures bytes { KeepsAll O.contents self.old self.new }
        ensures ok { OnOk result (waiting self.new ≡ []) }
    {
        self.write_out()?;
        self.output.flush()
    }
}

impl<O: Write + Drop> Drop for Gathered<O> {
    fn drop(mut self) {
        let _written = self.write_out();
        let Gathered {
            output: _output,
            buffer: _buffer,
        } = self;
    }
}
