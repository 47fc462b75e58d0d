//! Texts of values, and words in them whose letters may have any case (RFC 5234 section 2.3).
ghost use Rattle.std.specs.Prelude.{◌≡◌, ◌<◌, IfSome, option_copied};
ghost use Rattle.http_header.specs.FieldValue.{IsVisibleAscii};
ghost use Rattle.dav_headers_core.specs.Values.{text_of};
ghost use Rattle.dav_fields_core.specs.BehindWords.{behind_word};

use http_header::HeaderValue;

/// The text of a value, where it is one.
#[tactic(auto, using(dav_headers_core::proofs::texts::TextLemmas::visible_test, dav_headers_core::proofs::texts::TextLemmas::visible_fails))]
pub(crate) fn text_of(value: &HeaderValue) -> Option<&str>
    ensures value { option_copied result ≡ text_of value.now.bytes }
    ensures visible { IfSome result (λ text. IsVisibleAscii text.now) }
{
    value.to_str().ok()
}

/// What stands behind the first mark, where the word stands before it, in any case of letters.
pub(crate) fn behind_word<'a>(text: &'a str, word: &str, mark: char) -> Option<&'a str>
    requires { mark < 128 }
    ensures { option_copied result ≡ behind_word word.now mark text.now }
{
    let (front, rest) = text.split_once(mark)?;
    if front.eq_ignore_ascii_case(word) {
        Some(rest)
    } else {
        None
    }
}
