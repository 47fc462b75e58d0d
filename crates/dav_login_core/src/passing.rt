//! The request that the inner service is asked.
ghost use Rattle.std.specs.Prelude.{◌≡◌, IfOk};
ghost use Rattle.http_header.specs.FieldValue.{plain_value};
ghost use Rattle.http_uri.specs.Uri.{HasParts, uri_authority, uri_data, uri_scheme};
ghost use Rattle.http.specs.Request.{head_of};
ghost use Rattle.dav_login_core.specs.Passing.{AsNobody, AsUser};

use bytes::Bytes;
use http::Request;
use http::request::Parts;
use http_header::{HeaderName, HeaderValue};
use std::alloc::AllocError;

/// The request as this user's. `AllocError` where there is no memory, or no room for one name of a header more.
pub(crate) fn as_user(
    request: &Request<Bytes>,
    header: &HeaderName,
    name: HeaderValue,
) -> Result<Request<Bytes>, AllocError>
    requires { name ≡ plain_value name.bytes }
    ensures { IfOk result (AsUser header.now name.bytes request.now) }
{
    let mut head = copied_head(request)?;
    match head.headers.insert(header, name) {
        Ok(_) => Ok(Request::from_parts(head, request.body().clone()?)),
        Err(_) => Err(AllocError),
    }
}

/// The request as nobody's. `AllocError` where there is no memory.
pub(crate) fn as_nobody(
    request: &Request<Bytes>,
    header: &HeaderName,
) -> Result<Request<Bytes>, AllocError>
    ensures { IfOk result (AsNobody header.now request.now) }
{
    let mut head = copied_head(request)?;
    let _first = head.headers.remove(header);
    Ok(Request::from_parts(head, request.body().clone()?))
}

fn copied_head(request: &Request<Bytes>) -> Result<Parts, AllocError>
    ensures method { IfOk result (λ head. head.method ≡ (head_of request.now).method) }
    ensures uri { IfOk result (λ head. HasParts head.uri (uri_scheme (head_of request.now).uri)
        (uri_authority (head_of request.now).uri) (uri_data (head_of request.now).uri)) }
    ensures version { IfOk result (λ head. head.version ≡ (head_of request.now).version) }
    ensures headers { IfOk result (λ head. head.headers ≡ (head_of request.now).headers) }
{
    Ok(Parts {
        method: request.method().clone()?,
        uri: request.uri().clone()?,
        version: request.version(),
        headers: request.headers().clone()?,
    })
}
