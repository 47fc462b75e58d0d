//! How far down a request reaches.
ghost use Rattle.std.specs.Prelude.{◌≡◌, None, Some, IfErr, IfOk, OnOk};
ghost use Rattle.dav_fields_core.specs.Reaches.{ReachesAll, reach_in, depth_in, depth_spelled};
ghost use Rattle.dav_faults_core.specs.declared.faults.Fault.TheVariants as fault;

use crate::senders::value_of;
use dav_faults_core::faults::Fault;
use dav_headers_core::davheaders::Depth;
use http_header::{HeaderMap, HeaderName, HeaderValue};
use std::slice;

// The depth that a value spells: `infinity` in any case of letters, `0` or `1`.
fn depth_spelled(value: &HeaderValue) -> Option<Depth>
    ensures { result ≡ depth_spelled value.now.bytes }
{
    if value.as_bytes().eq_ignore_ascii_case(b"infinity") {
        return Some(Depth::Infinity);
    }
    Depth::decode(slice::from_ref(value)).ok()
}

/// The depth of a request: all the way down where it has no `Depth` (RFC 4918 section 10.2). `BadRequest` where it can't be read, as where it has
/// several values.
pub fn depth_in(headers: &HeaderMap<HeaderValue>) -> Result<Depth, Fault>
    ensures ok { IfOk result (λ depth. depth_in headers.now ≡ Some depth) }
    ensures err { IfErr result (λ e. (e ≡ fault.BadRequest) × (depth_in headers.now ≡ None)) }
{
    let Some(value) = value_of(headers, &HeaderName::from_static("depth"))? else {
        return Ok(Depth::Infinity);
    };
    depth_spelled(value).ok_or(Fault::BadRequest)
}

/// Whether a request reaches all the way down. `BadRequest` where it doesn't, or where its depth can't be read.
pub fn check_whole(headers: &HeaderMap<HeaderValue>) -> Result<(), Fault>
    ensures ok { OnOk result (ReachesAll headers.now) }
    ensures err { IfErr result (λ e. (e ≡ fault.BadRequest) × ¬ ReachesAll headers.now) }
{
    match depth_in(headers)? {
        Depth::Infinity => Ok(()),
        Depth::Default | Depth::Zero | Depth::One => Err(Fault::BadRequest),
    }
}

/// Whether a COPY or a LOCK reaches all the way down, or the one resource alone (RFC 4918 sections 9.8.3 and 9.10.3).
/// `BadRequest` for another depth, or where it can't be read.
pub fn reach_in(headers: &HeaderMap<HeaderValue>) -> Result<bool, Fault>
    ensures ok { IfOk result (λ deep. reach_in headers.now ≡ Some deep) }
    ensures err { IfErr result (λ e. (e ≡ fault.BadRequest) × (reach_in headers.now ≡ None)) }
{
    match depth_in(headers)? {
        Depth::Infinity => Ok(true),
        Depth::Zero => Ok(false),
        Depth::Default | Depth::One => Err(Fault::BadRequest),
    }
}
