//! Who sends a request, by its headers.
ghost use Rattle.std.specs.Prelude.{◌≡◌, ◌↔◌, codes, [], IsTrue, option_copied};
ghost use Rattle.http_header.specs.HeaderMap.{get_all};
ghost use Rattle.http.specs.Request.{head_of};
ghost use Rattle.dav_users_core.specs.Basic.{GivesCredentials};
ghost use Rattle.dav_login_core.specs.Sending.{AsksOptions, only, name_and_password_sent};

use bytes::Bytes;
use dav_users_core::Credentials;
use http::{Method, Request};
use http_header::{HeaderMap, HeaderName, HeaderValue};
use std::alloc::{AllocError, Global};

/// The name and the password that the fields `Authorization` give: those of the one field, where it is read. `AllocError` where there is no memory.
pub(crate) fn credentials_of(
    alloc: Global,
    headers: &HeaderMap<HeaderValue>,
) -> Result<Option<Credentials>, AllocError>
    ensures { GivesCredentials result (name_and_password_sent headers.now) }
{
    match only_value(headers, &HeaderName::from_static("authorization")) {
        Some(value) => Credentials::read(alloc, value.as_bytes()),
        None => Ok(None),
    }
}

// The value under a name, where there is one alone.
fn only_value<'a>(headers: &'a HeaderMap<HeaderValue>, name: &HeaderName) -> Option<&'a HeaderValue>
    ensures { option_copied result ≡ only (get_all headers.now name.now) }
{
    let mut values = headers.get_all(name).iter();
    let value = values.next()?;
    if values.next().is_some() {
        return None;
    }
    Some(value)
}

/// Whether it is an OPTIONS without `Authorization`.
pub(crate) fn asks_options(request: &Request<Bytes>) -> bool
    ensures { IsTrue result ↔ AsksOptions (head_of request.now) }
{
    is_options(request.method())
        && has_none(request.headers(), &HeaderName::from_static("authorization"))
}

fn is_options(method: &Method) -> bool
    ensures { IsTrue result ↔ (method.now ≡ codes "OPTIONS") }
{
    method.as_str() == "OPTIONS"
}

// Whether there is no value under a name.
fn has_none(headers: &HeaderMap<HeaderValue>, name: &HeaderName) -> bool
    ensures { IsTrue result ↔ (get_all headers.now name.now ≡ []) }
{
    headers.get_all(name).iter().next().is_none()
}
