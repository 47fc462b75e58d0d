//! Texts that spell a URL.
ghost use Rattle.dav_headers_core.specs.HeaderGives.{Gives};
ghost use Rattle.dav_headers_core.specs.Urls.{url_of};

use super::HeaderError;
use std::alloc::Global;
use url::{ParseError, Url};

/// The URL that the text spells. `Invalid` exactly where it spells none; a text past the size limit of `url` is `OutOfMemory`.
pub(super) fn url_of(alloc: Global, text: &str) -> Result<Url, HeaderError>
    ensures { Gives (λ url. url) result (url_of text.now) }
{
    match Url::parse(alloc, text) {
        Ok(url) => Ok(url),
        Err(ParseError::OutOfMemory) | Err(ParseError::Overflow) => Err(HeaderError::OutOfMemory),
        Err(_) => Err(HeaderError::Invalid),
    }
}
