//! The names of the headers, in lower case, as header maps keep them. Each is always Ok, and takes no memory; it takes the
//! allocator and answers a `Result` as most calls on headers do.
ghost use Rattle.std.specs.Prelude.{◌≡◌, codes};

use super::HeaderError;
use http_header::HeaderName;
use std::alloc::Global;

/// The name of `Depth` (RFC 4918 section 10.2).
pub fn depth(_alloc: Global) -> Result<HeaderName, HeaderError>
    ensures { result ≡ Ok (codes "depth") }
{
    Ok(HeaderName::from_static("depth"))
}

/// The name of `Timeout` (RFC 4918 section 10.7).
pub fn timeout(_alloc: Global) -> Result<HeaderName, HeaderError>
    ensures { result ≡ Ok (codes "timeout") }
{
    Ok(HeaderName::from_static("timeout"))
}

/// The name of `Overwrite` (RFC 4918 section 10.6).
pub fn overwrite(_alloc: Global) -> Result<HeaderName, HeaderError>
    ensures { result ≡ Ok (codes "overwrite") }
{
    Ok(HeaderName::from_static("overwrite"))
}

/// The name of `Destination` (RFC 4918 section 10.3).
pub fn destination(_alloc: Global) -> Result<HeaderName, HeaderError>
    ensures { result ≡ Ok (codes "destination") }
{
    Ok(HeaderName::from_static("destination"))
}

/// The name of `ETag` (RFC 9110 section 8.8.3).
pub fn etag(_alloc: Global) -> Result<HeaderName, HeaderError>
    ensures { result ≡ Ok (codes "etag") }
{
    Ok(HeaderName::from_static("etag"))
}

/// The name of `If-Range` (RFC 9110 section 13.1.5).
pub fn if_range(_alloc: Global) -> Result<HeaderName, HeaderError>
    ensures { result ≡ Ok (codes "if-range") }
{
    Ok(HeaderName::from_static("if-range"))
}

/// The name of `If-Match` (RFC 9110 section 13.1.1).
pub fn if_match(_alloc: Global) -> Result<HeaderName, HeaderError>
    ensures { result ≡ Ok (codes "if-match") }
{
    Ok(HeaderName::from_static("if-match"))
}

/// The name of `If-None-Match` (RFC 9110 section 13.1.2).
pub fn if_none_match(_alloc: Global) -> Result<HeaderName, HeaderError>
    ensures { result ≡ Ok (codes "if-none-match") }
{
    Ok(HeaderName::from_static("if-none-match"))
}

/// The name of `X-Update-Range` (of SabreDAV's partial updates, in no RFC).
pub fn x_update_range(_alloc: Global) -> Result<HeaderName, HeaderError>
    ensures { result ≡ Ok (codes "x-update-range") }
{
    Ok(HeaderName::from_static("x-update-range"))
}

/// The name of `If` (RFC 4918 section 10.4).
pub fn if_(_alloc: Global) -> Result<HeaderName, HeaderError>
    ensures { result ≡ Ok (codes "if") }
{
    Ok(HeaderName::from_static("if"))
}

/// The name of `Content-Language` (RFC 9110 section 8.5).
pub fn content_language(_alloc: Global) -> Result<HeaderName, HeaderError>
    ensures { result ≡ Ok (codes "content-language") }
{
    Ok(HeaderName::from_static("content-language"))
}

/// The name of `Content-Type` (RFC 9110 section 8.3).
pub fn content_type(_alloc: Global) -> Result<HeaderName, HeaderError>
    ensures { result ≡ Ok (codes "content-type") }
{
    Ok(HeaderName::from_static("content-type"))
}

/// The name of `Content-Location` (RFC 9110 section 8.7).
pub fn content_location(_alloc: Global) -> Result<HeaderName, HeaderError>
    ensures { result ≡ Ok (codes "content-location") }
{
    Ok(HeaderName::from_static("content-location"))
}

/// The name of `Lock-Token` (RFC 4918 section 10.5).
pub fn lock_token(_alloc: Global) -> Result<HeaderName, HeaderError>
    ensures { result ≡ Ok (codes "lock-token") }
{
    Ok(HeaderName::from_static("lock-token"))
}

/// The name of `X-Litmus` (of the test suite litmus).
pub fn x_litmus(_alloc: Global) -> Result<HeaderName, HeaderError>
    ensures { result ≡ Ok (codes "x-litmus") }
{
    Ok(HeaderName::from_static("x-litmus"))
}
