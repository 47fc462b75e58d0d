//! What a field tells of an address.
ghost use Rattle.std.specs.Prelude.{◌≡◌, ◌-◌, drop, take, length};
ghost use Rattle.std.specs.List.{prefix_len, suffix_len, list_all};
ghost use Rattle.dav_login_core.specs.ClientAddresses.{behind_last_comma, is_blank, told_by_value, told_in, without_blanks};
ghost use Rattle.http_frames.specs.Frames.{is_address, is_address_byte};

use crate::addresses::LONGEST;
use http_header::{HeaderMap, HeaderName, HeaderValue};

/// What the field tells, where one is chosen: of the last value, what stands behind its last comma, without the blanks around it. It is empty where there is no value.
pub(crate) fn told_in<'a>(
    field: &Option<HeaderName>,
    headers: &'a HeaderMap<HeaderValue>,
) -> &'a [u8]
    ensures { result.now ≡ told_in field.now headers.now }
{
    let Some(name) = field else {
        return &[];
    };
    match headers.get_all(name).iter().next_back() {
        Some(value) => told_by_value(value),
        None => &[],
    }
}

fn told_by_value(value: &HeaderValue) -> &[u8]
    ensures { result.now ≡ told_by_value value.now }
{
    without_blanks(behind_last_comma(value.as_bytes()))
}

/// Whether it may stand as an address: it has 1 to 64 bytes, and each is seen.
pub(crate) fn is_address(text: &[u8]) -> bool
    ensures { result ≡ is_address text.now }
{
    !text.is_empty() && text.len() <= LONGEST && are_seen(text)
}

fn are_seen(text: &[u8]) -> bool
    ensures { result ≡ list_all is_address_byte text.now }
{
    text.iter().all(|b| is_address_byte(*b))
}

fn is_address_byte(byte: u8) -> bool
    ensures { result ≡ is_address_byte byte }
{
    32 < byte && byte < 127
}

fn is_blank(byte: u8) -> bool
    ensures { result ≡ is_blank byte }
{
    byte == b' ' || byte == b'\t'
}

// What stands behind the last comma; all of it where there is none.
fn behind_last_comma(text: &[u8]) -> &[u8]
    ensures { result.now ≡ behind_last_comma text.now }
{
    let mut start = text.len();
    while start > 0 && text[start - 1] != b',' {
        start -= 1;
    }
    &text[start..]
}

fn without_blanks(text: &[u8]) -> &[u8]
    ensures { result.now ≡ without_blanks text.now }
{
    without_last_blanks(without_first_blanks(text))
}

fn without_first_blanks(text: &[u8]) -> &[u8]
    ensures { result.now ≡ drop (prefix_len is_blank text.now) text.now }
{
    let mut start = 0;
    while start < text.len() && is_blank(text[start]) {
        start += 1;
    }
    &text[start..]
}

fn without_last_blanks(text: &[u8]) -> &[u8]
    ensures { result.now ≡ take (length text.now - suffix_len is_blank text.now) text.now }
{
    let mut end = text.len();
    while end > 0 && is_blank(text[end - 1]) {
        end -= 1;
    }
    &text[..end]
}
