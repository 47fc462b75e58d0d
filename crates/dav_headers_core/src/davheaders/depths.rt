//! `Depth`.
ghost use Rattle.std.specs.Prelude.{◌≡◌, ◌≢◌, ◌∷◌, [], Some};
ghost use Rattle.dav_headers_core.specs.declared.davheaders.depths.Depth.TheVariants as Depth;
ghost use Rattle.http_header.specs.FieldValue.{plain_value};
ghost use Rattle.dav_headers_core.specs.HeaderGives.{exactly};
ghost use Rattle.dav_headers_core.specs.Depths.{depth_of, depth_header, depth_text};

use super::HeaderError;
use super::values::one_value;
use http_header::HeaderValue;
use std::alloc::Global;

/// How far down a request reaches (RFC 4918 section 10.2).
#[derive(Debug, Clone, Copy, PartialEq, Eq)]
pub enum Depth {
    /// No depth was asked for. It is never read, and written as the empty text.
    Default,
    /// The resource alone.
    Zero,
    /// The resource and its members.
    One,
    /// The resource and all below it.
    Infinity,
}

fn depth_of(bytes: &[u8]) -> Option<Depth>
    ensures { result ≡ depth_of bytes.now }
{
    if bytes == b"infinity".as_slice() || bytes == b"Infinity".as_slice() {
        return Some(Depth::Infinity);
    }
    match bytes {
        b"0" => Some(Depth::Zero),
        b"1" => Some(Depth::One),
        _ => None,
    }
}

impl Depth {
    /// The depth that the one value spells: `0`, `1`, `infinity` or `Infinity`. Anything else is `Invalid`. It takes no memory.
    pub fn decode(values: &[HeaderValue]) -> Result<Depth, HeaderError>
        ensures { result ≡ exactly (depth_header values.now) }
    {
        one_value(values)
            .and_then(depth_of)
            .ok_or(HeaderError::Invalid)
    }

    /// The value `0`, `1` or `Infinity`, which is read as the same depth, or the empty one for `Default`. It is always Ok, and
    /// takes no memory.
    pub fn encode(&self, _alloc: Global) -> Result<HeaderValue, HeaderError>
        ensures value { result ≡ Ok (plain_value (depth_text self.now)) }
        ensures reads_back { self.now ≢ Depth.Default
            → depth_header (plain_value (depth_text self.now) ∷ []) ≡ Some self.now }
    {
        Ok(HeaderValue::from_static(match self {
            Depth::Default => "",
            Depth::Zero => "0",
            Depth::One => "1",
            Depth::Infinity => "Infinity",
        }))
    }
}
