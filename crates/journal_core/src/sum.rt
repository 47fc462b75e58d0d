//! The sum of a round: SipHash-1-3, fed in pieces.
ghost use Rattle.std.specs.Prelude.{◌≡◌};
ghost use Rattle.journal_core.specs.Format.{begun_sum, sum_of};

use std::hash::{DefaultHasher, Hasher};

/// The sum of bytes of this length, at this place, before the first of them.
pub(crate) fn begin_sum(key: u64, place: usize, len: usize) -> DefaultHasher
    ensures { result ≡ begun_sum key place len }
{
    let mut hasher = DefaultHasher::new();
    hasher.write(&key.to_le_bytes());
    hasher.write(&(place as u64).to_le_bytes());
    hasher.write(&(len as u64).to_le_bytes());
    hasher
}

/// The sum of a round with these bytes, whose gate is at this place of a journal with this key: SipHash-1-3 (own).
pub fn sum_at(key: u64, place: usize, bytes: &[u8]) -> u64
    ensures { result ≡ sum_of key place bytes.now }
{
    let mut hasher = begin_sum(key, place, bytes.len());
    hasher.write(bytes);
    hasher.finish()
}
