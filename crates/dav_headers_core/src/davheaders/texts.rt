//! Headers that are kept as the text of their one value, with no form asked of it.
ghost use Rattle.std.specs.Prelude.{string_bytes};
ghost use Rattle.dav_headers_core.specs.HeaderGives.{GivesFirst};
ghost use Rattle.dav_headers_core.specs.Values.{one_text, value_of_text};

use super::HeaderError;
use super::values::{copied_value, one_string};
use http_header::HeaderValue;
use std::alloc::Global;

/// The media type of a body, as its text (RFC 9110 section 8.3).
#[derive(Debug, Clone, Drop, PartialEq, Eq)]
pub struct ContentType(pub String);

impl ContentType {
    /// The one text. Anything else is `Invalid`.
    pub fn decode(alloc: Global, values: &[HeaderValue]) -> Result<ContentType, HeaderError>
        ensures { GivesFirst (λ header. string_bytes header.0) result (one_text values.now) }
    {
        Ok(ContentType(one_string(alloc, values)?))
    }

    /// The text as a value. `Invalid` exactly where it holds a byte below 32 but the tab, or 127.
    pub fn encode(&self, alloc: Global) -> Result<HeaderValue, HeaderError>
        ensures { GivesFirst (λ value. value) result (value_of_text (string_bytes self.now.0)) }
    {
        let ContentType(text) = self;
        copied_value(alloc, text)
    }
}

/// The address of the resource that a body shows, as its text (RFC 9110 section 8.7).
#[derive(Debug, Clone, Drop, PartialEq, Eq)]
pub struct ContentLocation(pub String);

impl ContentLocation {
    /// The one text. Anything else is `Invalid`.
    pub fn decode(alloc: Global, values: &[HeaderValue]) -> Result<ContentLocation, HeaderError>
        ensures { GivesFirst (λ header. string_bytes header.0) result (one_text values.now) }
    {
        Ok(ContentLocation(one_string(alloc, values)?))
    }

    /// The text as a value. `Invalid` exactly where it holds a byte below 32 but the tab, or 127.
    pub fn encode(&self, alloc: Global) -> Result<HeaderValue, HeaderError>
        ensures { GivesFirst (λ value. value) result (value_of_text (string_bytes self.now.0)) }
    {
        let ContentLocation(text) = self;
        copied_value(alloc, text)
    }
}

/// The token of a lock, as the header spells it: with its angle brackets (RFC 4918 section 10.5).
#[derive(Debug, Clone, Drop, PartialEq, Eq)]
pub struct LockToken(pub String);

impl LockToken {
    /// The one text. Anything else is `Invalid`.
    pub fn decode(alloc: Global, values: &[HeaderValue]) -> Result<LockToken, HeaderError>
        ensures { GivesFirst (λ header. string_bytes header.0) result (one_text values.now) }
    {
        Ok(LockToken(one_string(alloc, values)?))
    }

    /// The text as a value. `Invalid` exactly where it holds a byte below 32 but the tab, or 127.
    pub fn encode(&self, alloc: Global) -> Result<HeaderValue, HeaderError>
        ensures { GivesFirst (λ value. value) result (value_of_text (string_bytes self.now.0)) }
    {
        let LockToken(text) = self;
        copied_value(alloc, text)
    }
}

/// The name of the test that sends the request, in the test suite litmus.
#[derive(Debug, Clone, Drop, PartialEq, Eq)]
pub struct XLitmus(pub String);

impl XLitmus {
    /// The one text. Anything else is `Invalid`.
    pub fn decode(alloc: Global, values: &[HeaderValue]) -> Result<XLitmus, HeaderError>
        ensures { GivesFirst (λ header. string_bytes header.0) result (one_text values.now) }
    {
        Ok(XLitmus(one_string(alloc, values)?))
    }

    /// The text as a value. `Invalid` exactly where it holds a byte below 32 but the tab, or 127.
    pub fn encode(&self, alloc: Global) -> Result<HeaderValue, HeaderError>
        ensures { GivesFirst (λ value. value) result (value_of_text (string_bytes self.now.0)) }
    {
        let XLitmus(text) = self;
        copied_value(alloc, text)
    }
}
