//! Where the URLs of a request begin.
ghost use Rattle.std.specs.Prelude.{◌≡◌, ◌⊎◌, ℕ, IfErr, IfOk, List, MatchOption, MatchResult, None};
ghost use Rattle.std.specs.Prelude.{Some};
ghost use Rattle.std.specs.Prelude.{false, string_bytes, true};
ghost use Rattle.std.specs.List.{list_all};
ghost use Rattle.url.specs.Parts.{Parts};
ghost use Rattle.dav_headers_core.specs.Urls.{url_of};
ghost use Rattle.dav_fields_core.specs.Bases.{IsBase, IsHostField, NamesHost};
ghost use Rattle.dav_fields_core.specs.Bases.{scheme_front, site_of};
ghost use Rattle.dav_fields_core.specs.RootedTags.{IsFront, is_host_byte};
ghost use Rattle.dav_faults_core.specs.declared.faults.Fault.TheVariants as fault;

use crate::senders::value_of;
use dav_faults_core::faults::Fault;
use http_header::{HeaderMap, HeaderName, HeaderValue};
use http_uri::Uri;
use std::alloc::{AllocError, Global};
use std::marker::Model;
use url::{ParseError, Url};

/// The scheme of the URLs of a server, as its clients see them.
#[derive(Clone, Copy, PartialEq, Eq)]
pub enum Scheme {
    /// `http`.
    Http,
    /// `https`, by a proxy in front.
    Https,
}

/// Where a request is sent (RFC 9112 section 3.2.2).
#[derive(Drop)]
pub struct Site<'a> {
    scheme: Scheme,
    host: Option<&'a str>,
}

impl<'a> Model for Site<'a> {
    ghost use Rattle.std.specs.Prelude.{option_copied};
    ghost use Rattle.dav_fields_core.specs.Bases.{Site};

    ghost Value = { Site };

    ghost view = { λ s. record { scheme = s.scheme; host = option_copied s.host } };
}

impl<'a> Site<'a> {
    /// The scheme of the server, and the host and port of a target in absolute form.
    pub fn of(scheme: Scheme, target: &'a Uri) -> Site<'a>
        ensures { result ≡ site_of scheme target.now }
    {
        let host = match target.authority() {
            Some(authority) => Some(authority.as_str()),
            None => None,
        };
        Site { scheme, host }
    }

    // What stands in front of the host in a URL.
    fn front(&self) -> &'static str
        ensures { result.now ≡ scheme_front self.now.scheme }
    {
        match self.scheme {
            Scheme::Http => "http://",
            Scheme::Https => "https://",
        }
    }
}

// The text of the one `Host`. `BadRequest` where there is none.
fn host_field(headers: &HeaderMap<HeaderValue>) -> Result<&str, Fault>
    ensures ok { IfOk result (λ host. IsHostField headers.now host.now) }
    ensures err { IfErr result (λ e. (e ≡ fault.BadRequest)
        × ((host : List ℕ) → ¬ IsHostField headers.now host)) }
{
    let Some(value) = value_of(headers, &HeaderName::from_static("host"))? else {
        return Err(Fault::BadRequest);
    };
    match str::from_utf8(value.as_bytes()) {
        Ok(host) => Ok(host),
        Err(_) => Err(Fault::BadRequest),
    }
}

// The host and port of a request. `BadRequest` where there are none.
fn host_of<'a>(site: &Site<'a>, headers: &'a HeaderMap<HeaderValue>) -> Result<&'a str, Fault>
    ensures ok { IfOk result (λ host. NamesHost site.now.host headers.now host.now) }
    ensures err { IfErr result (λ e. (e ≡ fault.BadRequest)
        × ((host : List ℕ) → ¬ NamesHost site.now.host headers.now host)) }
{
    match site.host {
        Some(host) => Ok(host),
        None => host_field(headers),
    }
}

fn is_host_byte(b: u8) -> bool
    ensures { result ≡ is_host_byte b }
{
    b > 32 && b < 127 && b != b'"' && b != b'>'
}

fn is_plain(host: &str) -> bool
    ensures { result ≡ list_all is_host_byte host.now }
{
    host.as_bytes().iter().all(|b| is_host_byte(*b))
}

// The host and port of a request, where they are plain.
fn plain_host<'a>(site: &Site<'a>, headers: &'a HeaderMap<HeaderValue>) -> Option<&'a str>
    ensures { MatchOption result
        ((host : List ℕ) → NamesHost site.now.host headers.now host
        → list_all is_host_byte host ≡ false)
        (λ host. NamesHost site.now.host headers.now host.now
        × (list_all is_host_byte host.now ≡ true)) }
{
    let host = host_of(site, headers).ok()?;
    if is_plain(host) { Some(host) } else { None }
}

/// What stands before the paths in the URLs of a request, as `http://host:81`; none where its host
/// isn't told, or has a byte that no host has.
pub fn front_of(
    alloc: Global,
    site: &Site<'_>,
    headers: &HeaderMap<HeaderValue>,
) -> Result<Option<String>, AllocError>
    ensures { IfOk result (λ found. MatchOption found
        ((front : List ℕ) → ¬ IsFront site.now headers.now front)
        (λ front. IsFront site.now headers.now (string_bytes front)
        × (list_all is_host_byte (string_bytes front) ≡ true))) }
{
    let Some(host) = plain_host(site, headers) else {
        return Ok(None);
    };
    let front = site.front();
    Ok(Some(format!(in alloc; "{front}{host}")?))
}

/// Where the URLs of a request begin: with the scheme of the server, and the host and port of its
/// target, or else of its `Host` (RFC 9112 sections 3.2.2 and 3.3). `BadRequest` where they are no
/// host, and where its target has none and it has no `Host` or several.
pub fn base_of(
    alloc: Global,
    site: &Site<'_>,
    headers: &HeaderMap<HeaderValue>,
) -> Result<Url, Fault>
    ensures ok { IfOk result (λ base. IsBase site.now headers.now base) }
    ensures err { IfErr result (λ e. (e ≡ fault.InsufficientStorage)
        ⊎ ((e ≡ fault.BadRequest) × ((base : Parts) → ¬ IsBase site.now headers.now base))) }
{
    let host = host_of(site, headers)?;
    let front = site.front();
    let text = format!(in alloc; "{front}{host}/")?;
    url_of(alloc, &text)
}

/// The URL that a text spells. `BadRequest` where it spells none.
pub fn url_of(alloc: Global, text: &str) -> Result<Url, Fault>
    ensures { MatchResult result (λ url. url_of text.now ≡ Some url) (λ e. (e ≡ fault.InsufficientStorage) ⊎ ((e ≡ fault.BadRequest) × (url_of text.now ≡ None))) }
{
    match Url::parse(alloc, text) {
        Ok(url) => Ok(url),
        Err(ParseError::OutOfMemory) | Err(ParseError::Overflow) => Err(Fault::InsufficientStorage),
        Err(_) => Err(Fault::BadRequest),
    }
}
