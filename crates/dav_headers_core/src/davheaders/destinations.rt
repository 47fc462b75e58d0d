//! `Destination`.
ghost use Rattle.std.specs.Prelude.{◌≡◌, None, Err, string_bytes};
ghost use Rattle.dav_headers_core.specs.HeaderGives.{Gives, GivesFirst};
ghost use Rattle.dav_headers_core.specs.Values.{one_text, value_of_text};
ghost use Rattle.dav_headers_core.specs.Destinations.{destination_header};
ghost use Rattle.dav_headers_core.specs.declared.davheaders.errors.HeaderError.TheVariants as HeaderError;

use super::HeaderError;
use super::urls::url_of;
use super::values::{copied_value, one_text};
use http_header::HeaderValue;
use std::alloc::Global;

/// Where a copy or a move leads, as the text of a path (RFC 4918 section 10.3).
#[derive(Debug, Clone, Drop, PartialEq, Eq)]
pub struct Destination(pub String);

impl Destination {
    /// The one text where it begins with `/`, kept as it is; else the path of the URL that it spells. Anything else is
    /// `Invalid`; a URL past the size limit of `url` is `OutOfMemory`.
    pub fn decode(alloc: Global, values: &[HeaderValue]) -> Result<Destination, HeaderError>
        ensures value { Gives (λ destination. string_bytes destination.0) result (destination_header values.now) }
        // Whether there is one text is looked at before memory is taken.
        ensures one_text { one_text values.now ≡ None → result ≡ Err HeaderError.Invalid }
    {
        let text = one_text(values).ok_or(HeaderError::Invalid)?;
        if text.as_bytes().first() == Some(&b'/') {
            return Ok(Destination(String::from_str(alloc, text)?));
        }
        let url = url_of(alloc, text)?;
        Ok(Destination(String::from_str(alloc, url.path())?))
    }

    /// The text as a value. `Invalid` exactly where it holds a byte below 32 but the tab, or 127.
    pub fn encode(&self, alloc: Global) -> Result<HeaderValue, HeaderError>
        ensures { GivesFirst (λ value. value) result (value_of_text (string_bytes self.now.0)) }
    {
        copied_value(alloc, &self.0)
    }
}
