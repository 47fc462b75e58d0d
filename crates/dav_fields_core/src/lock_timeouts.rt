//! How long a lock is to stand.
ghost use Rattle.std.specs.Prelude.{◌≡◌, ◌⊎◌, [], None, Some, IfErr, IfOk};
ghost use Rattle.std.specs.Char.{is_ascii_whitespace};
ghost use Rattle.std.specs.List.{filter_map};
ghost use Rattle.http_header.specs.FieldValue.{IsVisibleAscii};
ghost use Rattle.dav_headers_core.specs.CommaPieces.{comma_pieces, trimmed_by};
ghost use Rattle.dav_headers_core.specs.Numbers.{number};
ghost use Rattle.dav_fields_core.specs.LockTimeouts as spec;
ghost use Rattle.dav_faults_core.specs.declared.faults.Fault.TheVariants as fault;

use crate::senders::value_of;
use crate::words::{behind_word, text_of};
use dav_faults_core::faults::Fault;
use dav_headers_core::davheaders::DavTimeout;
use http_header::{HeaderMap, HeaderName, HeaderValue};
use std::alloc::{AllocError, Global};

fn number_of(text: &str) -> Option<u32>
    ensures { result ≡ number 32 text.now }
{
    text.parse::<u32>().ok()
}

// `Infinite`, or `Second-` and a number, in any case of letters.
fn timeout_spelled(piece: &str) -> Option<DavTimeout>
    ensures { result ≡ spec.timeout_spelled piece.now }
{
    if piece.eq_ignore_ascii_case("Infinite") {
        return Some(DavTimeout::Infinite);
    }
    let digits = behind_word(piece, "Second", '-')?;
    Some(DavTimeout::Seconds(number_of(digits)?))
}

fn trimmed(piece: &str) -> &str
    ensures { result.now ≡ trimmed_by is_ascii_whitespace piece.now }
{
    piece.trim_ascii()
}

// The timeouts that stand between the commas of a text. What spells none is passed over.
fn timeouts_of(alloc: Global, text: &str) -> Result<Vec<DavTimeout>, AllocError>
    requires { IsVisibleAscii text.now }
    ensures { IfOk result (λ timeouts. timeouts.items
        ≡ filter_map spec.timeout_spelled (comma_pieces text.now)) }
{
    text.split(',')
        .map(trimmed)
        .filter_map(timeout_spelled)
        .collect(alloc)
}

// The same, of which there is one at least. `BadRequest` where there is none.
fn timeouts_spelled(alloc: Global, text: &str) -> Result<Vec<DavTimeout>, Fault>
    requires { IsVisibleAscii text.now }
    ensures ok { IfOk result (λ timeouts. spec.timeouts_spelled text.now ≡ Some timeouts.items) }
    ensures err { IfErr result (λ e. (e ≡ fault.InsufficientStorage)
        ⊎ ((e ≡ fault.BadRequest) × (spec.timeouts_spelled text.now ≡ None))) }
{
    let timeouts = timeouts_of(alloc, text)?;
    if timeouts.is_empty() {
        return Err(Fault::BadRequest);
    }
    Ok(timeouts)
}

/// The timeouts that a request asks for, the wanted one first; none where it doesn't ask (RFC 4918
/// section 10.7). What stands between commas and spells no timeout is passed over. `BadRequest`
/// where nothing else is there, or they can't be read, as several values can't.
pub fn timeouts_in(
    alloc: Global,
    headers: &HeaderMap<HeaderValue>,
) -> Result<Vec<DavTimeout>, Fault>
    ensures ok { IfOk result (λ timeouts. spec.timeouts_in headers.now ≡ Some timeouts.items) }
    ensures err { IfErr result (λ e. (e ≡ fault.InsufficientStorage) ⊎ ((e ≡ fault.BadRequest) × (spec.timeouts_in headers.now ≡ None))) }
{
    let Some(value) = value_of(headers, &HeaderName::from_static("timeout"))? else {
        return Ok(Vec::new(alloc));
    };
    let text = text_of(value).ok_or(Fault::BadRequest)?;
    timeouts_spelled(alloc, text)
}

/// The timeout that a lock gets, in seconds: the first of the wanted ones that can be given, else the greatest; none where it has no end (RFC 4918 section 9.10.1).
pub fn given_of(most: Option<u32>, wanted: &[DavTimeout]) -> Option<u64>
    ensures { result ≡ spec.given_of most wanted.now }
{
    for timeout in wanted {
        if can_be_given(most, *timeout) {
            return seconds_of(*timeout);
        }
    }
    greatest(most)
}

fn greatest(most: Option<u32>) -> Option<u64>
    ensures { result ≡ spec.given_of most [] }
{
    match most {
        Some(seconds) => Some(seconds.max(1) as u64),
        None => None,
    }
}

// Of at least a second, and of at most the greatest, where there is one.
fn can_be_given(most: Option<u32>, wanted: DavTimeout) -> bool
    ensures { result ≡ spec.can_be_given most wanted }
{
    match (most, wanted) {
        (None, DavTimeout::Seconds(seconds)) => 0 < seconds,
        (Some(most), DavTimeout::Seconds(seconds)) => 0 < seconds && seconds <= most,
        (None, DavTimeout::Infinite) => true,
        (Some(_), DavTimeout::Infinite) => false,
    }
}

fn seconds_of(timeout: DavTimeout) -> Option<u64>
    ensures { result ≡ spec.seconds_of timeout }
{
    match timeout {
        DavTimeout::Seconds(seconds) => Some(seconds as u64),
        DavTimeout::Infinite => None,
    }
}
