//! Values of header fields as texts.
ghost use Rattle.std.specs.Prelude.{◌≡◌, IfOk, IfSome, option_copied, map, string_bytes};
ghost use Rattle.std.specs.List.{list_all, list_any};
ghost use Rattle.std.specs.Char.{is_ascii_whitespace};
ghost use Rattle.http_header.specs.FieldValue.{IsVisibleAscii};
ghost use Rattle.dav_headers_core.specs.HeaderGives.{GivesFirst};
ghost use Rattle.dav_headers_core.specs.Values.{one_value, one_text, text_of, is_text_byte, is_control, value_of_text};
ghost use Rattle.dav_headers_core.specs.CommaPieces.{trimmed_by, comma_pieces};
ghost use Rattle.dav_headers_core.specs.CommaPieces as spelled;

use super::HeaderError;
use http_header::HeaderValue;
use std::alloc::{AllocError, Global};

fn is_text_byte(b: u8) -> bool
    ensures { result ≡ is_text_byte b }
{
    b == b'\t' || (b >= 32 && b < 127)
}

/// The bytes of the one value.
pub(super) fn one_value(values: &[HeaderValue]) -> Option<&[u8]>
    ensures { option_copied result ≡ one_value values.now }
{
    match values {
        [value] => Some(value.as_bytes()),
        _ => None,
    }
}

/// Whether the bytes are a text.
pub(super) fn is_text(bytes: &[u8]) -> bool
    ensures { result ≡ list_all is_text_byte bytes.now }
{
    bytes.iter().all(|b| is_text_byte(*b))
}

/// The value's text.
#[tactic(auto, using(crate::proofs::texts::TextLemmas::visible_test, crate::proofs::texts::TextLemmas::visible_fails))]
pub(super) fn text_of(value: &HeaderValue) -> Option<&str>
    ensures value { option_copied result ≡ text_of value.now.bytes }
    ensures visible { IfSome result (λ text. IsVisibleAscii text.now) }
{
    value.to_str().ok()
}

/// The text of the one value.
pub(super) fn one_text(values: &[HeaderValue]) -> Option<&str>
    ensures value { option_copied result ≡ one_text values.now }
    ensures visible { IfSome result (λ text. IsVisibleAscii text.now) }
{
    match values {
        [value] => text_of(value),
        _ => None,
    }
}

/// A copy of the text of the one value.
pub(super) fn one_string(alloc: Global, values: &[HeaderValue]) -> Result<String, HeaderError>
    ensures { GivesFirst (λ text. string_bytes text) result (one_text values.now) }
{
    let text = one_text(values).ok_or(HeaderError::Invalid)?;
    Ok(String::from_str(alloc, text)?)
}

fn trimmed(piece: &str) -> &str
    ensures { result.now ≡ trimmed_by is_ascii_whitespace piece.now }
{
    piece.trim_ascii()
}

/// The text, trimmed.
pub(super) fn trimmed_text(text: &str) -> &str
    requires { IsVisibleAscii text.now }
    ensures { result.now ≡ spelled.without_blanks text.now }
{
    trimmed(text)
}

/// What stands between the commas of a text, trimmed.
pub(super) fn pieces(alloc: Global, text: &str) -> Result<Vec<&str>, AllocError>
    requires { IsVisibleAscii text.now }
    ensures { IfOk result (λ list. map (λ piece. piece.now) list.items ≡ comma_pieces text.now) }
{
    text.split(',').map(trimmed).collect(alloc)
}

fn is_control(b: u8) -> bool
    ensures { result ≡ is_control b }
{
    (b < 32 && b != b'\t') || b == 127
}

/// Whether there is a byte that no value may hold: below 32 but the tab, or 127.
pub(super) fn holds_control(bytes: &[u8]) -> bool
    ensures { result ≡ list_any is_control bytes.now }
{
    bytes.iter().any(|b| is_control(*b))
}

/// The value of this text. `Invalid` exactly where it holds a byte below 32 but the tab, or 127.
pub(super) fn value_of(text: String) -> Result<HeaderValue, HeaderError>
    ensures { GivesFirst (λ value. value) result (value_of_text (string_bytes text)) }
{
    if holds_control(text.as_bytes()) {
        return Err(HeaderError::Invalid);
    }
    HeaderValue::from_string(text).map_err(|_| HeaderError::OutOfMemory)
}

/// The value of a copy of these bytes, refused as by `value_of`.
pub(super) fn value_of_bytes(alloc: Global, bytes: &[u8]) -> Result<HeaderValue, HeaderError>
    ensures { GivesFirst (λ value. value) result (value_of_text bytes.now) }
{
    if holds_control(bytes) {
        return Err(HeaderError::Invalid);
    }
    HeaderValue::from_bytes(alloc, bytes).map_err(|_| HeaderError::OutOfMemory)
}

/// The value of a copy of this text, refused as by `value_of`.
pub(super) fn copied_value(alloc: Global, text: &str) -> Result<HeaderValue, HeaderError>
    ensures { GivesFirst (λ value. value) result (value_of_text text.now) }
{
    value_of_bytes(alloc, text.as_bytes())
}
