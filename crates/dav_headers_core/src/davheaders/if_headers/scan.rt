//! Pieces of an `If` value. Each byte of it is read a fixed number of times.
ghost use Rattle.std.specs.Prelude.{◌≡◌, false, option_map};
ghost use Rattle.std.specs.Str.{is_utf8};
ghost use Rattle.dav_headers_core.specs.Optional.{when};
ghost use Rattle.dav_headers_core.specs.CommaPieces as pieces;
ghost use Rattle.dav_headers_core.specs.IfBytes as if_bytes;
ghost use Rattle.dav_headers_core.specs.Private.IfReading as reading;

fn is_blank(b: u8) -> bool
    ensures { result ≡ pieces.is_blank b }
{
    b == b' ' || b == b'\t'
}

fn is_special(b: u8) -> bool
    ensures { result ≡ if_bytes.is_special b }
{
    b == b'(' || b == b')' || b == b'<' || b == b'>' || b == b'[' || b == b']'
}

/// What follows the blanks at the front.
pub(super) fn trim_blanks(bytes: &[u8]) -> &[u8]
    ensures { result.now ≡ reading.skip_blanks bytes.now }
{
    for (i, b) in bytes.iter().enumerate() {
        if !is_blank(*b) {
            return &bytes[i..];
        }
    }
    &[]
}

/// What follows this byte, where the bytes begin with it.
pub(super) fn behind(bytes: &[u8], byte: u8) -> Option<&[u8]>
    ensures { option_map (λ x. x.now) result ≡ reading.after_byte byte bytes.now }
{
    match bytes {
        [first, rest @ ..] if *first == byte => Some(rest),
        _ => None,
    }
}

/// What follows `Not`, where the bytes begin with it.
pub(super) fn behind_not(bytes: &[u8]) -> Option<&[u8]>
    ensures { option_map (λ x. x.now) result ≡ reading.after_not bytes.now }
{
    match bytes {
        [b'N', b'o', b't', rest @ ..] => Some(rest),
        _ => None,
    }
}

/// How many bytes the word at the front has.
fn len_of_word(bytes: &[u8]) -> usize
    ensures { result ≡ reading.word_len bytes.now }
{
    for (i, b) in bytes.iter().enumerate() {
        let b = *b;
        if b <= b' ' || is_special(b) {
            return i;
        }
    }
    bytes.len()
}

/// The text up to the first closing byte that is not quoted, and what follows that byte.
fn enclosed(bytes: &[u8], closing: u8) -> Option<(&[u8], &[u8])>
    ensures { option_map (λ x. (x.0.now, x.1.now)) result ≡ reading.enclosed_at closing false bytes.now }
{
    let mut quoted = false;
    for (i, b) in bytes.iter().enumerate() {
        let b = *b;
        if !quoted && b == closing {
            return Some((&bytes[..i], &bytes[i + 1..]));
        }
        if is_blank(b) {
            return None;
        }
        if b == b'"' {
            quoted = !quoted;
        }
    }
    None
}

/// Whether there is a `:`.
pub(super) fn holds_colon(bytes: &[u8]) -> bool
    ensures { result ≡ reading.holds_colon bytes.now }
{
    bytes.iter().any(|b| *b == b':')
}

#[tactic(auto, using(crate::proofs::ifs::Utf8Lemmas::utf8_test, crate::proofs::ifs::Utf8Lemmas::utf8_fails))]
fn as_text(bytes: &[u8]) -> Option<&str>
    ensures { option_map (λ text. text.now) result ≡ when (is_utf8 bytes.now) bytes.now }
{
    match std::str::from_utf8(bytes) {
        Ok(text) => Some(text),
        Err(_) => None,
    }
}

/// An enclosed text that is UTF-8, and what follows its closing byte.
pub(super) fn text_at(bytes: &[u8], closing: u8) -> Option<(&str, &[u8])>
    ensures { option_map (λ x. (x.0.now, x.1.now)) result ≡ reading.text_at closing bytes.now }
{
    let (text, rest) = enclosed(bytes, closing)?;
    Some((as_text(text)?, rest))
}

fn ends_word(bytes: &[u8]) -> bool
    ensures { result ≡ reading.begins_ending bytes.now }
{
    match bytes {
        [first, ..] => is_blank(*first) || is_special(*first),
        [] => false,
    }
}

/// The word at the front, and what follows it.
#[tactic(auto, using(crate::proofs::ifs::ScanLemmas::word_fits))]
pub(super) fn word_at(bytes: &[u8]) -> Option<(&str, &[u8])>
    ensures { option_map (λ x. (x.0.now, x.1.now)) result ≡ reading.word_at bytes.now }
{
    let len = len_of_word(bytes);
    let (word, rest) = bytes.split_at(len);
    let text = as_text(word)?;
    if !holds_colon(word) || behind_not(word).is_some() || !ends_word(rest) {
        return None;
    }
    Some((text, rest))
}
