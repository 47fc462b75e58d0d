//! Fields that are read from the front of bytes. Each answers its value and the bytes behind it.
ghost use Rattle.std.specs.Prelude.{◌≡◌, ◌≤◌, map, length, option_map, string_bytes};
ghost use Rattle.dav_effects_core.specs.ByteForms.{common_len, counted_at, each_at, flag_at, following_at, eight_bytes_at, bytes_at, optional_at, utf8_at, times_at};
ghost use Rattle.dav_effects_core.specs.Reads.{ReadsField};

use crate::error::ReadError;
use std::alloc::Global;

/// A number of eight bytes, the lowest first (own). `Fault` where fewer are left.
#[tactic(auto, unfolding(crate::specs::ByteForms::eight_bytes_at))]
pub fn number_of(bytes: &[u8]) -> Result<(u64, &[u8]), ReadError>
    ensures { ReadsField (λ x. (x.0, x.1.now)) result (eight_bytes_at bytes.now) }
{
    if bytes.len() < 8 {
        return Err(ReadError::Fault(bytes.len()));
    }
    let (word, rest) = bytes.split_at(8);
    let number = u64::from_le_bytes([
        word[0], word[1], word[2], word[3], word[4], word[5], word[6], word[7],
    ]);
    Ok((number, rest))
}

/// So many bytes.
#[tactic(auto, unfolding(crate::specs::ByteForms::bytes_at))]
pub(crate) fn piece_of(len: usize, bytes: &[u8]) -> Result<(&[u8], &[u8]), ReadError>
    ensures { ReadsField (λ x. (x.0.now, x.1.now)) result (bytes_at len bytes.now) }
{
    if bytes.len() < len {
        return Err(ReadError::Fault(bytes.len()));
    }
    Ok(bytes.split_at(len))
}

/// Bytes behind their number (own). `Fault` where fewer are left.
#[tactic(auto, unfolding(crate::specs::ByteForms::counted_at))]
pub fn counted_of(bytes: &[u8]) -> Result<(&[u8], &[u8]), ReadError>
    ensures { ReadsField (λ x. (x.0.now, x.1.now)) result (counted_at bytes.now) }
{
    let (len, rest) = number_of(bytes)?;
    piece_of(len as usize, rest)
}

/// A text behind the number of its bytes (own). `Fault` where fewer are left, or they are not UTF-8.
#[tactic(auto, using(crate::proofs::Texts::utf8_tests), unfolding(crate::specs::ByteForms::utf8_at))]
pub fn text_of(alloc: Global, bytes: &[u8]) -> Result<(String, &[u8]), ReadError>
    ensures { ReadsField (λ x. (string_bytes x.0, x.1.now)) result (utf8_at bytes.now) }
{
    let (text, rest) = counted_of(bytes)?;
    let Ok(text) = str::from_utf8(text) else {
        return Err(ReadError::Fault(bytes.len()));
    };
    Ok((String::from_str(alloc, text)?, rest))
}

/// A yes or no: a byte 1 or 0 (own). `Fault` where another stands there, or none.
pub fn flag_of(bytes: &[u8]) -> Result<(bool, &[u8]), ReadError>
    ensures { ReadsField (λ x. (x.0, x.1.now)) result (flag_at bytes.now) }
{
    match bytes {
        [] => Err(ReadError::Fault(0)),
        [0, rest @ ..] => Ok((false, rest)),
        [1, rest @ ..] => Ok((true, rest)),
        [_, ..] => Err(ReadError::Fault(bytes.len())),
    }
}

/// Whether there is a text, and the text (own). `Fault` where one of them is none.
#[tactic(auto, unfolding(crate::specs::ByteForms::optional_at))]
pub fn optional_text_of(alloc: Global, bytes: &[u8]) -> Result<(Option<String>, &[u8]), ReadError>
    ensures { ReadsField (λ x. (option_map string_bytes x.0, x.1.now)) result (optional_at utf8_at bytes.now) }
{
    let (is_there, rest) = flag_of(bytes)?;
    if !is_there {
        return Ok((None, rest));
    }
    let (text, rest) = text_of(alloc, rest)?;
    Ok((Some(text), rest))
}

#[tactic(auto, unfolding(crate::specs::ByteForms::optional_at))]
pub(crate) fn optional_bytes_of(
    alloc: Global,
    bytes: &[u8],
) -> Result<(Option<Vec<u8>>, &[u8]), ReadError>
    ensures { ReadsField (λ x. (option_map (λ v. v.items) x.0, x.1.now)) result (optional_at counted_at bytes.now) }
{
    let (is_there, rest) = flag_of(bytes)?;
    if !is_there {
        return Ok((None, rest));
    }
    let (found, rest) = counted_of(rest)?;
    Ok((Some(Vec::from_slice(alloc, found)?), rest))
}

/// Whether there is a number, and the number (own). `Fault` where one of them is none.
#[tactic(auto, unfolding(crate::specs::ByteForms::optional_at))]
pub fn optional_number_of(bytes: &[u8]) -> Result<(Option<u64>, &[u8]), ReadError>
    ensures { ReadsField (λ x. (x.0, x.1.now)) result (optional_at eight_bytes_at bytes.now) }
{
    let (is_there, rest) = flag_of(bytes)?;
    if !is_there {
        return Ok((None, rest));
    }
    let (number, rest) = number_of(rest)?;
    Ok((Some(number), rest))
}

#[tactic(auto, unfolding(crate::specs::ByteForms::optional_at))]
pub(crate) fn optional_size_of(bytes: &[u8]) -> Result<(Option<usize>, &[u8]), ReadError>
    ensures { ReadsField (λ x. (x.0, x.1.now)) result (optional_at eight_bytes_at bytes.now) }
{
    let (is_there, rest) = flag_of(bytes)?;
    if !is_there {
        return Ok((None, rest));
    }
    let (number, rest) = number_of(rest)?;
    Ok((Some(number as usize), rest))
}

/// The sixteen bytes that a lock's token was drawn from, where there are some.
#[tactic(auto, unfolding(crate::specs::ByteForms::optional_at, crate::specs::ByteForms::bytes_at))]
pub(crate) fn drawn_of(bytes: &[u8]) -> Result<(Option<[u8; 16]>, &[u8]), ReadError>
    ensures { ReadsField (λ x. (x.0, x.1.now)) result (optional_at (bytes_at 16) bytes.now) }
{
    let (is_there, rest) = flag_of(bytes)?;
    if !is_there {
        return Ok((None, rest));
    }
    let Some((drawn, behind)) = rest.split_first_chunk::<16>() else {
        return Err(ReadError::Fault(rest.len()));
    };
    Ok((Some(*drawn), behind))
}

// So many texts.
fn texts_of(alloc: Global, count: u64, bytes: &[u8]) -> Result<(Vec<String>, &[u8]), ReadError>
    ensures { ReadsField (λ x. (map string_bytes x.0.items, x.1.now)) result (times_at utf8_at count bytes.now) }
{
    let mut texts = Vec::new(alloc);
    let mut rest = bytes;
    'reading: for _ in 0..count {
        let (text, behind) = text_of(alloc, rest)?;
        texts.push(text)?;
        rest = behind;
    }
    Ok((texts, rest))
}

#[tactic(auto, unfolding(crate::specs::ByteForms::each_at))]
pub(crate) fn all_texts_of(alloc: Global, bytes: &[u8]) -> Result<(Vec<String>, &[u8]), ReadError>
    ensures { ReadsField (λ x. (map string_bytes x.0.items, x.1.now)) result (each_at utf8_at bytes.now) }
{
    let (count, rest) = number_of(bytes)?;
    texts_of(alloc, count, rest)
}

/// How long the longest front is that both have.
pub(crate) fn common_len(before: &[u8], text: &[u8]) -> usize
    ensures value { result ≡ common_len before.now text.now }
    ensures before { result ≤ length before.now }
    ensures text { result ≤ length text.now }
{
    let mut count = 0;
    'comparing: while count < before.len() && count < text.len() {
        if before[count] != text[count] {
            return count;
        }
        count += 1;
    }
    count
}

/// A text behind the one before: how much of its front both have, how long it is, and the rest of it
/// (own). `Fault` where what they have in common is not told as it is, or bytes are missing.
#[tactic(auto, unfolding(crate::specs::ByteForms::following_at))]
pub fn following_of<'a>(
    alloc: Global,
    before: &[u8],
    bytes: &'a [u8],
) -> Result<(Vec<u8>, &'a [u8]), ReadError>
    ensures { ReadsField (λ x. (x.0.items, x.1.now)) result (following_at before.now bytes.now) }
{
    let (common, rest) = number_of(bytes)?;
    let (len, rest) = number_of(rest)?;
    let (more, rest) = piece_of(len.saturating_sub(common) as usize, rest)?;
    if (before.len() as u64) < common || len < common {
        return Err(ReadError::Fault(bytes.len()));
    }
    let common = common as usize;
    let mut text = Vec::from_slice(alloc, &before[..common])?;
    text.extend_from_slice(more)?;
    if common_len(before, &text) != common {
        return Err(ReadError::Fault(bytes.len()));
    }
    Ok((text, rest))
}
