//! Where a COPY or a MOVE leads, and whether it may replace what stands there.
ghost use Rattle.std.specs.Prelude.{◌≡◌, ℕ, List, None, Some, IfErr, IfOk};
ghost use Rattle.dav_path_core.specs.declared.davpath.ParseError.{ParseError};
ghost use Rattle.dav_headers_core.specs.Destinations.{is_rooted};
ghost use Rattle.dav_fields_core.specs.TransferDestinations.{IsDestination, LeadsNowhere, NamesText, fault_of, overwrite_spelled, overwrites};
ghost use Rattle.dav_fields_core.specs.Targets.{IsPathOf, RefusesPath};
ghost use Rattle.dav_faults_core.specs.declared.faults.Fault.TheVariants as fault;

use crate::bases::{Site, base_of, url_of};
use crate::senders::value_of;
use crate::tagged::is_same_server;
use crate::targets::path_behind;
use dav_faults_core::faults::Fault;
use dav_path_core::davpath::{DavPath, ParseError};
use http_header::{HeaderMap, HeaderName, HeaderValue};
use std::alloc::Global;

/// The path to which a request leads, behind the prefix of the server (RFC 4918 section 10.3).
///
/// `BadRequest` where there is no one `Destination`, or it is neither a path nor a URL, or the request has no host; `BadGateway` where it is another
/// server's, or not behind the prefix; `Forbidden` where it leads out of the root.
pub fn destination_in(
    alloc: Global,
    site: &Site<'_>,
    prefix: &str,
    headers: &HeaderMap<HeaderValue>,
) -> Result<DavPath, Fault>
    ensures ok { IfOk result (λ path. IsDestination site.now prefix.now headers.now path) }
    ensures err { IfErr result (λ e. LeadsNowhere site.now prefix.now headers.now e) }
{
    let text = text_in(headers)?;
    if is_rooted(text) {
        return path_on(alloc, text, prefix);
    }
    let url = url_of(alloc, text)?;
    let base = base_of(alloc, site, headers)?;
    if !is_same_server(&url, &base) {
        return Err(Fault::BadGateway);
    }
    path_on(alloc, url.path(), prefix)
}

// Whether a text begins with a slash.
fn is_rooted(text: &str) -> bool
    ensures { result ≡ is_rooted text.now }
{
    text.as_bytes().first() == Some(&b'/')
}

// The text of the one `Destination`. `BadRequest` where there is none.
fn text_in(headers: &HeaderMap<HeaderValue>) -> Result<&str, Fault>
    ensures ok { IfOk result (λ text. NamesText headers.now text.now) }
    ensures err { IfErr result (λ e. (e ≡ fault.BadRequest) × ((text : List ℕ) → ¬ NamesText headers.now text)) }
{
    let Some(value) = value_of(headers, &HeaderName::from_static("destination"))? else {
        return Err(Fault::BadRequest);
    };
    match str::from_utf8(value.as_bytes()) {
        Ok(text) => Ok(text),
        Err(_) => Err(Fault::BadRequest),
    }
}

// The path that a text is read as, behind the prefix. `BadRequest` where it is none, `Forbidden` where it leads out of the root, `BadGateway` where it isn't
// behind the prefix.
fn path_on(alloc: Global, text: &str, prefix: &str) -> Result<DavPath, Fault>
    ensures ok { IfOk result (λ path. IsPathOf prefix.now text.now path) }
    ensures err { IfErr result (λ e. (error : ParseError) × (e ≡ fault_of error) × RefusesPath prefix.now text.now error) }
{
    match path_behind(alloc, text, prefix) {
        Ok(path) => Ok(path),
        Err(ParseError::PrefixMismatch) => Err(Fault::BadGateway),
        Err(error) => Err(Fault::from(error)),
    }
}

// What `T` or `F` says, in either case of letters.
fn overwrite_spelled(text: &[u8]) -> Option<bool>
    ensures { result ≡ overwrite_spelled text.now }
{
    if text.eq_ignore_ascii_case(b"T") {
        return Some(true);
    }
    if text.eq_ignore_ascii_case(b"F") {
        return Some(false);
    }
    None
}

/// Whether a request may replace what stands at its target; it may where it doesn't say (RFC 4918 section 10.6). `BadRequest` where that can't be read.
pub fn overwrites(headers: &HeaderMap<HeaderValue>) -> Result<bool, Fault>
    ensures ok { IfOk result (λ may. overwrites headers.now ≡ Some may) }
    ensures err { IfErr result (λ e. (e ≡ fault.BadRequest) × (overwrites headers.now ≡ None)) }
{
    let Some(value) = value_of(headers, &HeaderName::from_static("overwrite"))? else {
        return Ok(true);
    };
    overwrite_spelled(value.as_bytes()).ok_or(Fault::BadRequest)
}
