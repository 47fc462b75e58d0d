//! `Overwrite`.
ghost use Rattle.std.specs.Prelude.{◌≡◌, ◌∷◌, [], Some};
ghost use Rattle.http_header.specs.FieldValue.{plain_value};
ghost use Rattle.dav_headers_core.specs.HeaderGives.{exactly};
ghost use Rattle.dav_headers_core.specs.Overwrites.{overwrite_header, overwrite_text};

use super::HeaderError;
use super::values::one_value;
use http_header::HeaderValue;
use std::alloc::Global;

/// Whether a copy or a move may replace what stands at its target (RFC 4918 section 10.6).
#[derive(Debug, Clone, Copy, PartialEq, Eq)]
pub struct Overwrite(pub bool);

impl Overwrite {
    /// True for the one value `T`, false for `F`. Anything else is `Invalid`. It takes no memory.
    pub fn decode(values: &[HeaderValue]) -> Result<Overwrite, HeaderError>
        ensures { result ≡ exactly (overwrite_header values.now) }
    {
        match one_value(values) {
            Some(b"T") => Ok(Overwrite(true)),
            Some(b"F") => Ok(Overwrite(false)),
            _ => Err(HeaderError::Invalid),
        }
    }

    /// The value `T` or `F`, which is read as the same. It is always Ok, and takes no memory.
    pub fn encode(&self, _alloc: Global) -> Result<HeaderValue, HeaderError>
        ensures value { result ≡ Ok (plain_value (overwrite_text self.now)) }
        ensures reads_back { overwrite_header (plain_value (overwrite_text self.now) ∷ []) ≡ Some self.now }
    {
        Ok(HeaderValue::from_static(if self.0 { "T" } else { "F" }))
    }
}
