//! Characters.
ghost use Rattle.std.specs.Prelude.{◌≡◌, IfOk, false, chars, string_bytes, encode_utf8_all};
ghost use Rattle.dav_xml_core.specs.Refusals.{no_char_at, bytes_before};
ghost use Rattle.dav_xml_core.specs.Characters as spec;

use std::alloc::{AllocError, Global};

pub(super) fn is_char(c: char) -> bool
    ensures { result ≡ spec.is_char c }
{
    let c = c as u32;
    c == 9
        || c == 10
        || c == 13
        || (0x20 <= c && c <= 0xD7FF)
        || (0xE000 <= c && c <= 0xFFFD)
        || (0x10000 <= c && c <= 0x10FFFF)
}

pub(super) fn is_white(c: char) -> bool
    ensures { result ≡ spec.is_white c }
{
    c == ' ' || c == '\t' || c == '\r' || c == '\n'
}

/// Where the first character begins that no document may hold.
pub(super) fn no_char_at(text: &str) -> Option<usize>
    ensures { result ≡ no_char_at 0 (chars text.now) }
{
    for (at, c) in text.char_indices() {
        if !is_char(c) {
            return Some(at);
        }
    }
    None
}

/// The characters with one line feed at the end of each line.
pub(super) fn lines_of(alloc: Global, text: &str) -> Result<Vec<char>, AllocError>
    ensures { IfOk result (λ x. x.items ≡ spec.lines_from false (chars text.now)) }
{
    let mut lines = Vec::with_capacity(alloc, text.len())?;
    let mut after_return = false;
    for c in text.chars() {
        if c == '\r' {
            lines.push('\n')?;
            after_return = true;
        } else if c == '\n' && after_return {
            after_return = false;
        } else {
            lines.push(c)?;
            after_return = false;
        }
    }
    Ok(lines)
}

/// Where the character begins that so many stand before, where a carriage return and a line feed are one.
pub(super) fn byte_at(text: &str, characters: usize) -> usize
    ensures { result ≡ bytes_before false characters (chars text.now) }
{
    let mut before = characters;
    let mut after_return = false;
    for (at, c) in text.char_indices() {
        if c == '\n' && after_return {
            after_return = false;
        } else if before == 0 {
            return at;
        } else {
            before -= 1;
            after_return = c == '\r';
        }
    }
    text.len()
}

/// The characters as a text.
pub(super) fn text_of(alloc: Global, chars: &[char]) -> Result<String, AllocError>
    ensures { IfOk result (λ text. string_bytes text ≡ encode_utf8_all chars.now) }
{
    chars.iter().copied().collect(alloc)
}
