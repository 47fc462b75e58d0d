//! A search for whole rounds.
ghost use Rattle.std.specs.Prelude.{◌≡◌, ◌<◌, ◌≤◌, ◌+◌, ◌^◌, ℕ, List, length, drop, false, IsTrue, MatchOption};
ghost use Rattle.journal_copies.specs.WholeRounds.{HasNoRound, HasRound};

use crate::rounds::whole_round;

/// The first of the bytes, from `from` on, at which the gate of a whole round is, of a journal with this key (own). The bytes are those of the file from byte `base` on.
pub fn find_round(key: u64, base: usize, bytes: &[u8], from: usize) -> Option<usize>
    requires fits { base + length bytes.now < 2 ^ 64 }
    ensures { MatchOption result
        ((at : ℕ) → from ≤ at → at + 8 ≤ length bytes.now → HasNoRound key (base + at) (drop (at + 8) bytes.now))
        (λ found. (from ≤ found) × (found + 8 ≤ length bytes.now) × ((text : List ℕ) × HasRound key (base + found) (drop (found + 8) bytes.now) text)
        × ((at : ℕ) → from ≤ at → at < found → HasNoRound key (base + at) (drop (at + 8) bytes.now))) }
{
    let end = bytes.len().saturating_sub(7);
    'searching: for at in from..end {
        if has_round(key, base + at, &bytes[at + 8..]) {
            return Some(at);
        }
    }
    None
}

// Whether a whole round stands at the front.
fn has_round(key: u64, place: usize, bytes: &[u8]) -> bool
    ensures has { IsTrue result → (text : List ℕ) × HasRound key place bytes.now text }
    ensures none { result ≡ false → HasNoRound key place bytes.now }
{
    match whole_round(key, place, bytes) {
        Some(_text) => true,
        None => false,
    }
}
