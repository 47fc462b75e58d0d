//! An output that knows what it has taken, whether or not the system tells it.
ghost use Rattle.std.specs.Prelude.{◌≡◌, ◌++◌, [], Some};
ghost use Rattle.kept_frames.specs.Outputs.{bytes_in, out_of, bytes_taken};

use http_server::Log;
use std::io::{self, Write};

/// An output, and the bytes that it took since it came into this type (own). A clause reads them;
/// they take no memory.
#[derive(Drop)]
pub struct Told<W> {
    out: W,
    taken: Log<u8, ()>,
}

impl<W: Write> Told<W> {
    /// This output, which has taken nothing yet (own).
    pub fn new(out: W) -> Told<W>
        ensures out { out_of result ≡ out }
        ensures taken { bytes_taken result ≡ [] }
    {
        Told {
            out,
            taken: Log::new(),
        }
    }
}

impl<W: Write> Write for Told<W> {
    ghost contents = { λ t. Some (bytes_taken t) };

    fn write(&mut self, buf: &[u8]) -> io::Result<usize> {
        let count = self.out.write(buf)?;
        note(&mut self.taken, &buf[..count]);
        Ok(count)
    }

    fn flush(&mut self) -> io::Result<()> {
        self.out.flush()
    }
}

// Notes these bytes, one after another.
fn note(taken: &mut Log<u8, ()>, bytes: &[u8])
    ensures { bytes_in taken.new ≡ bytes_in taken.old ++ bytes.now }
{
    'noting: for byte in bytes {
        *taken = taken.and(byte, &());
    }
}
