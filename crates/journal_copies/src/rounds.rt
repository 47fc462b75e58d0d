//! Whole rounds in bytes.
ghost use Rattle.std.specs.Prelude.{◌≡◌, ◌≢◌, ◌<◌, ◌≤◌, ◌^◌, ◌++◌, ◌+◌, ℕ, List, length, false, IsTrue, IfSome, MatchOption};
ghost use Rattle.journal_core.specs.Format.{records_text, sum_of, word_of};
ghost use Rattle.journal_copies.specs.WholeRounds.{HasNoRound, HasRound};

use journal_core::{are_records, number_of, split_record, sum_at};

/// The bytes of the records of the whole round that stands at the front of these bytes, behind its gate, which is at this place of a journal with this key (own). None where no round
/// stands there whole: with its length, its right sum, and bytes that are records, one at least.
pub fn whole_round(key: u64, place: usize, bytes: &[u8]) -> Option<&[u8]>
    ensures { MatchOption result (HasNoRound key place bytes.now) (λ text. HasRound key place bytes.now text.now) }
{
    let (len, rest) = bytes.split_first_chunk::<8>()?;
    let (sum, rest) = rest.split_first_chunk::<8>()?;
    let len = number_of(len) as usize;
    if rest.len() < len {
        return None;
    }
    let (text, _behind) = rest.split_at(len);
    if !is_whole(key, place, number_of(sum), text) {
        return None;
    }
    Some(text)
}

// Whether these are the bytes of records, one at least, and have this sum.
fn is_whole(key: u64, place: usize, sum_read: u64, text: &[u8]) -> bool
    ensures whole { IsTrue result → (records : List (List ℕ)) × (0 < length text.now) × (text.now ≡ records_text records) × (sum_read ≡ sum_of key place text.now) }
    ensures other { result ≡ false → (records : List (List ℕ)) → 0 < length (records_text records) → text.now ≡ records_text records → word_of sum_read ≢ word_of (sum_of key place text.now) }
{
    if text.is_empty() || !are_records(text) {
        return false;
    }
    sum_at(key, place, text) == sum_read
}

/// How many records these bytes are (own).
pub fn records_in(text: &[u8]) -> u64 {
    let mut count: u64 = 0;
    let mut rest = text;
    'counting: while let Some((_record, behind)) = split_record(rest) {
        count = count.saturating_add(1);
        rest = behind;
    }
    count
}
