//! Numbers, gates and records in bytes that were read.
ghost use Rattle.std.specs.Prelude.{◌≡◌, ◌≢◌, ◌<◌, ◌^◌, ◌↔◌, ◌++◌, ℕ, List, length, false, IsTrue, MatchOption};
ghost use Rattle.journal_core.specs.Format.{word_of, shut_word, record_text, records_text};

/// The number that eight bytes say, the lowest first (own).
pub fn number_of(word: &[u8; 8]) -> u64
    ensures { word.now ≡ word_of result }
{
    u64::from_le_bytes(*word)
}

/// Whether the word shuts a gate.
pub(crate) fn is_shut(word: &[u8; 8]) -> bool
    ensures { IsTrue result ↔ (word.now ≡ shut_word) }
{
    word == b"shutgate"
}

/// The first of the records that are written one behind another in a round, and what stands behind it; none where no whole record stands there (own).
pub fn split_record(bytes: &[u8]) -> Option<(&[u8], &[u8])>
    ensures { MatchOption result
        ((one rest : List ℕ) → length one < 2 ^ 64 → bytes.now ≢ record_text one ++ rest)
        (λ r. bytes.now ≡ record_text r.0.now ++ r.1.now) }
{
    let (word, rest) = bytes.split_first_chunk::<8>()?;
    let len = number_of(word) as usize;
    if rest.len() < len {
        return None;
    }
    Some(rest.split_at(len))
}

/// Whether the bytes are records, one behind another, as they are written in a round (own).
pub fn are_records(bytes: &[u8]) -> bool
    ensures records { IsTrue result → (records : List (List ℕ)) × (bytes.now ≡ records_text records) }
    ensures other { result ≡ false → (records : List (List ℕ)) → length (records_text records) < 2 ^ 64 → bytes.now ≢ records_text records }
{
    let mut rest = bytes;
    'reading: while !rest.is_empty() {
        let Some((_record, behind)) = split_record(rest) else {
            return false;
        };
        rest = behind;
    }
    true
}
