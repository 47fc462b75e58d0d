//! How a path is written as a URL text.
ghost use Rattle.std.specs.Prelude.{◌≡◌, IfOk, string_bytes};
ghost use Rattle.percent_encoding.specs.Iter.{encoded_text};
ghost use Rattle.dav_path_core.specs.Url.{url};
ghost use Rattle.dav_path_core.specs.Respelling.{KeepsPath};

use percent_encoding::{AsciiSet, NON_ALPHANUMERIC, PercentEncode, ascii_set, percent_encode};
use std::alloc::{AllocError, Global};

// What is written with escapes: all but ASCII letters and digits, `-`, `_`, `.`, `~` and `/`.
const ESCAPED: AsciiSet = ascii_set!(
    NON_ALPHANUMERIC
        .remove(b'-')
        .remove(b'_')
        .remove(b'.')
        .remove(b'~')
        .remove(b'/')
);

/// The bytes as they are written in a URL text: ASCII letters and digits, `-`, `_`, `.`, `~` and `/` as they are, any other byte as `%` and
/// two upper-case hexadecimal digits (RFC 3986 section 2.1). It takes no memory (own).
pub fn escaped(bytes: &[u8]) -> PercentEncode<'_>
    ensures { encoded_text result ≡ url bytes.now }
{
    percent_encode(bytes, ESCAPED)
}

/// The bytes as a URL text.
pub(super) fn url_text(alloc: Global, bytes: &[u8]) -> Result<String, AllocError>
    ensures value { IfOk result (λ text. string_bytes text ≡ url bytes.now) }
    ensures law { IfOk result (λ text. KeepsPath (string_bytes text) bytes.now) }
{
    let mut text = String::new(alloc);
    escaped(bytes).append_to(&mut text)?;
    Ok(text)
}
