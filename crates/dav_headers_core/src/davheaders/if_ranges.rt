//! `If-Range`.
ghost use Rattle.std.specs.Prelude.{◌≡◌, Err, IfOk, IsAscii, MatchResult};
ghost use Rattle.dav_headers_core.specs.HeaderGives.{GivesFirst};
ghost use Rattle.dav_headers_core.specs.Values.{value_of_text};
ghost use Rattle.dav_headers_core.specs.IfRanges.{TextSays, ValuesSay, shown_of, if_range_text, if_range_strong_eq};
ghost use Rattle.dav_headers_core.specs.declared.davheaders.errors.HeaderError.TheVariants as HeaderError;
ghost use Rattle.dav_headers_core.specs.declared.davheaders.if_ranges.IfRange.{IfRange as Range};

use super::values::{one_text, value_of_bytes};
use super::{ETag, HeaderError};
use http_header::HeaderValue;
use httpdate::HttpDate;
use std::alloc::{AllocError, Global};

/// How a client knows the resource of which it wants a part: the part alone is sent where the resource is still the same, and
/// else the whole (RFC 9110 section 13.1.5).
#[derive(Debug, Drop)]
pub enum IfRange {
    /// By its tag.
    ETag(ETag),
    /// By the second of its last change.
    Date(HttpDate),
}

fn range_of(alloc: Global, text: &str) -> Result<IfRange, HeaderError>
    requires { IsAscii text.now }
    ensures ok { IfOk result (λ range. TextSays text.now range) }
    ensures only { (range : Range) → TextSays text.now range
        → MatchResult result (λ r. shown_of r ≡ shown_of range) (λ e. e ≡ HeaderError.OutOfMemory) }
    ensures memory { result ≡ Err HeaderError.OutOfMemory → (range : Range) × TextSays text.now range }
{
    if let Ok(date) = text.parse::<HttpDate>() {
        return Ok(IfRange::Date(date));
    }
    Ok(IfRange::ETag(ETag::from_str(alloc, text)?))
}

impl IfRange {
    /// The date that the one text shows, white space round it aside; else the tag that it spells. Anything else is `Invalid`.
    pub fn decode(alloc: Global, values: &[HeaderValue]) -> Result<IfRange, HeaderError>
        ensures ok { IfOk result (λ range. ValuesSay values.now range) }
        // What the values say is read, unless memory runs out.
        ensures only { (range : Range) → ValuesSay values.now range
            → MatchResult result (λ r. shown_of r ≡ shown_of range) (λ e. e ≡ HeaderError.OutOfMemory) }
        // It may run out of memory only where the values say something; so `Invalid` comes exactly where they say nothing.
        ensures memory { result ≡ Err HeaderError.OutOfMemory → (range : Range) × ValuesSay values.now range }
    {
        let text = one_text(values).ok_or(HeaderError::Invalid)?;
        range_of(alloc, text)
    }

    /// The date as IMF-fixdate, or the tag's spelling. `Invalid` exactly where it holds a byte below 32 but the tab, or 127.
    pub fn encode(&self, alloc: Global) -> Result<HeaderValue, HeaderError>
        ensures { GivesFirst (λ value. value) result (value_of_text (if_range_text self.now)) }
    {
        match self {
            IfRange::ETag(tag) => tag.encode(alloc),
            IfRange::Date(date) => value_of_bytes(alloc, &date.to_bytes()),
        }
    }

    /// Whether both are dates of one second, or both are tags that are `strong_eq`. It takes no memory.
    pub fn strong_eq(&self, other: &IfRange) -> bool
        ensures { result ≡ if_range_strong_eq self.now other.now }
    {
        match (self, other) {
            (IfRange::ETag(tag), IfRange::ETag(other)) => tag.strong_eq(other),
            (IfRange::Date(date), IfRange::Date(other)) => date == other,
            _ => false,
        }
    }
}

/// An equal value, or out of memory.
impl Clone for IfRange {
    ghost is_clone = { λ range copy. copy ≡ range };

    fn clone(&self) -> Result<IfRange, AllocError> {
        match self {
            IfRange::ETag(tag) => Ok(IfRange::ETag(tag.clone()?)),
            IfRange::Date(date) => Ok(IfRange::Date(*date)),
        }
    }
}
