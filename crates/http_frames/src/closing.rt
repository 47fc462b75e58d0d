//! Closing a connection behind the refusal of a long request.
ghost use Rattle.http_frames.specs.Closing.{close_field};
ghost use Rattle.http_server.specs.Response.{fields_of};
ghost use Rattle.std.specs.Prelude.{◌≡◌, ◌++◌, OnOk};

use bytes::Bytes;
use http::Request;
use http_header::{HeaderName, HeaderValue};
use http_server::Response;
use std::alloc::AllocError;

/// A connection keeps the room of its longest request while it lasts. So one whose request had more bytes than this is closed once that is refused (own).
pub const LONG: usize = 512 * 1024;

/// Says that the connection is closed behind this refusal of a request, where the request has a body of more than `LONG` bytes (RFC 9112 section 9.6). `AllocError` where there is no memory for the
/// field.
pub fn close_behind_long(
    request: &Request<Bytes>,
    response: &mut Response,
) -> Result<(), AllocError>
    ensures fields { OnOk result (fields_of response.new ≡ fields_of response.old ++ close_field request.now) }
    ensures status { response.new.status ≡ response.old.status }
    ensures body { response.new.body ≡ response.old.body }
{
    if request.body().len() <= LONG {
        return Ok(());
    }
    response.add_header(
        HeaderName::from_static("connection"),
        HeaderValue::from_static("close"),
    )
}
