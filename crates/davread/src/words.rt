//! The words of a line, and bytes as they stand in an answer.
use crate::refusals::Refusal;
use hex::FromHexError;
use percent_encoding::{
    AsciiSet, CONTROLS, PercentEncode, ascii_set, percent_decode, percent_encode,
};
use std::alloc::{AllocError, Global};
use std::fmt;

/// What is written with escapes: all but bytes 33 to 126, and of these `%`.
const ESCAPED: AsciiSet = ascii_set!(CONTROLS.add(b' ').add(b'%'));

/// The words of a line, which spaces separate.
pub fn words_of(alloc: Global, line: &[u8]) -> Result<Vec<&[u8]>, AllocError> {
    let mut words = Vec::new(alloc);
    for word in line.split(|b| *b == b' ') {
        if !word.is_empty() {
            words.push(word)?;
        }
    }
    Ok(words)
}

/// The bytes of a word of URL text, or of the hexadecimal digits behind `hex:`.
pub fn bytes_of(alloc: Global, word: &[u8]) -> Result<Vec<u8>, Refusal> {
    match word.strip_prefix(b"hex:") {
        Some(digits) => bytes_of_digits(alloc, digits),
        None => {
            let mut bytes = Vec::new(alloc);
            percent_decode(word).append_to(&mut bytes)?;
            Ok(bytes)
        }
    }
}

/// The bytes of a word that stands for itself, or of the hexadecimal digits behind `hex:`.
pub fn kept_bytes_of(alloc: Global, word: &[u8]) -> Result<Vec<u8>, Refusal> {
    match word.strip_prefix(b"hex:") {
        Some(digits) => bytes_of_digits(alloc, digits),
        None => Ok(word.to_vec(alloc)?),
    }
}

fn bytes_of_digits(alloc: Global, digits: &[u8]) -> Result<Vec<u8>, Refusal> {
    match hex::decode(alloc, digits) {
        Ok(bytes) => Ok(bytes),
        Err(FromHexError::OutOfMemory) => Err(Refusal::OutOfMemory(AllocError)),
        Err(_) => Err(Refusal::Malformed),
    }
}

/// The text that the bytes of a word are.
pub fn text_of(bytes: Vec<u8>) -> Result<String, Refusal> {
    match String::from_utf8(bytes) {
        Ok(text) => Ok(text),
        Err(_) => Err(Refusal::Malformed),
    }
}

/// Bytes with escapes.
pub fn escaped(bytes: &[u8]) -> PercentEncode<'_> {
    percent_encode(bytes, ESCAPED)
}

/// Bytes that display as a word which stands for them.
#[derive(Drop)]
pub struct Word<'a>(pub &'a [u8]);

impl fmt::Display for Word<'_> {
    fn fmt<W: fmt::Write>(&self, f: &mut fmt::Formatter<W>) -> fmt::Result {
        match self.0 {
            [] => f.write_str("hex:"),
            [b'h', rest @ ..] if rest.starts_with(b"ex:") => write!(f, "%68{}", escaped(rest)),
            bytes => write!(f, "{}", escaped(bytes)),
        }
    }
}
