//! A generator whose next sixteen bytes are known.
ghost use Rattle.dav_notes_core.specs.Drawing.{stream_giving};

use rand_core::Rng;

/// Gives these bytes to whoever draws sixteen, each time; nothing but zeros to others (own).
#[derive(Drop)]
pub struct Drawn {
    /// The bytes.
    pub bytes: [u8; 16],
}

impl Rng for Drawn {
    ghost stream = { λ d. stream_giving d.bytes };

    fn next_u32(&mut self) -> u32 {
        0
    }

    fn next_u64(&mut self) -> u64 {
        0
    }

    fn fill_bytes(&mut self, dst: &mut [u8]) {
        if dst.len() == 16 {
            dst.copy_from_slice(&self.bytes);
        } else {
            dst.fill(0);
        }
    }
}
