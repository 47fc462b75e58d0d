//! What a header says, in a readable form, and what is written for it.
mod conditions;

use crate::refusals::Refusal;
use crate::words::Word;
pub use conditions::if_value;
use dav_headers_core::davheaders::{
    self, ContentLanguage, ContentLocation, ContentType, Depth, Destination, ETag, ETagList,
    HeaderError, IfMatch, IfNoneMatch, IfRange, LockToken, Overwrite, Timeout, XLitmus,
    XUpdateRange,
};
use http_header::{HeaderName, HeaderValue};
use std::alloc::{AllocError, Global};

// `SHOWN; NAME: WRITTEN`, or `SHOWN; REFUSAL` where no value can hold what would be written.
fn told(
    alloc: Global,
    shown: &str,
    name: Result<HeaderName, HeaderError>,
    written: Result<HeaderValue, HeaderError>,
) -> Result<String, Refusal> {
    let name = name?;
    told_as(alloc, shown, name.as_str(), &written)
}

fn told_as(
    alloc: Global,
    shown: &str,
    name: &str,
    written: &Result<HeaderValue, HeaderError>,
) -> Result<String, Refusal> {
    match written {
        Ok(value) => Ok(format!(in alloc; "{shown}; {name}: {}", Word(value.as_bytes()))?),
        Err(HeaderError::OutOfMemory) => Err(Refusal::Header(HeaderError::OutOfMemory)),
        Err(error) => Ok(format!(in alloc; "{shown}; {error}")?),
    }
}

/// Of `Depth`.
pub fn depth(alloc: Global, depth: Depth) -> Result<String, Refusal> {
    let shown = format!(in alloc; "{depth:?}")?;
    told(alloc, &shown, davheaders::depth(alloc), depth.encode(alloc))
}

/// Of `Overwrite`.
pub fn overwrite(alloc: Global, overwrite: Overwrite) -> Result<String, Refusal> {
    let shown = format!(in alloc; "{}", overwrite.0)?;
    told(
        alloc,
        &shown,
        davheaders::overwrite(alloc),
        overwrite.encode(alloc),
    )
}

/// Of `X-Update-Range`.
pub fn update_range(alloc: Global, range: XUpdateRange) -> Result<String, Refusal> {
    let shown = format!(in alloc; "{range:?}")?;
    told(
        alloc,
        &shown,
        davheaders::x_update_range(alloc),
        range.encode(alloc),
    )
}

/// Of `Destination`.
pub fn destination(alloc: Global, header: &Destination) -> Result<String, Refusal> {
    let shown = text_shown(alloc, &header.0)?;
    told(
        alloc,
        &shown,
        davheaders::destination(alloc),
        header.encode(alloc),
    )
}

/// Of `Content-Type`.
pub fn content_type(alloc: Global, header: &ContentType) -> Result<String, Refusal> {
    let shown = text_shown(alloc, &header.0)?;
    told(
        alloc,
        &shown,
        davheaders::content_type(alloc),
        header.encode(alloc),
    )
}

/// Of `Content-Location`.
pub fn content_location(alloc: Global, header: &ContentLocation) -> Result<String, Refusal> {
    let shown = text_shown(alloc, &header.0)?;
    told(
        alloc,
        &shown,
        davheaders::content_location(alloc),
        header.encode(alloc),
    )
}

/// Of `Lock-Token`.
pub fn lock_token(alloc: Global, header: &LockToken) -> Result<String, Refusal> {
    let shown = text_shown(alloc, &header.0)?;
    told(
        alloc,
        &shown,
        davheaders::lock_token(alloc),
        header.encode(alloc),
    )
}

/// Of `X-Litmus`.
pub fn litmus(alloc: Global, header: &XLitmus) -> Result<String, Refusal> {
    let shown = text_shown(alloc, &header.0)?;
    told(
        alloc,
        &shown,
        davheaders::x_litmus(alloc),
        header.encode(alloc),
    )
}

fn text_shown(alloc: Global, text: &str) -> Result<String, AllocError> {
    format!(in alloc; "{}", Word(text.as_bytes()))
}

/// Of `ETag`.
pub fn tag(alloc: Global, tag: &ETag) -> Result<String, Refusal> {
    let shown = tag_shown(alloc, tag)?;
    told(alloc, &shown, davheaders::etag(alloc), tag.encode(alloc))
}

fn tag_shown(alloc: Global, tag: &ETag) -> Result<String, AllocError> {
    let strength = if tag.is_weak() { "weak" } else { "strong" };
    let spelling = tag.to_string(alloc)?;
    format!(in alloc; "{strength} {}", Word(spelling.as_bytes()))
}

/// Of `If-Range`.
pub fn if_range(alloc: Global, range: &IfRange) -> Result<String, Refusal> {
    let shown = match range {
        IfRange::ETag(tag) => tag_shown(alloc, tag)?,
        IfRange::Date(date) => format!(in alloc; "date {}", date.unix_secs())?,
    };
    told(
        alloc,
        &shown,
        davheaders::if_range(alloc),
        range.encode(alloc),
    )
}

/// Of `If-Match`.
pub fn if_match(alloc: Global, header: &IfMatch) -> Result<String, Refusal> {
    let shown = tags_shown(alloc, &header.0)?;
    told(
        alloc,
        &shown,
        davheaders::if_match(alloc),
        header.encode(alloc),
    )
}

/// Of `If-None-Match`.
pub fn if_none_match(alloc: Global, header: &IfNoneMatch) -> Result<String, Refusal> {
    let shown = tags_shown(alloc, &header.0)?;
    told(
        alloc,
        &shown,
        davheaders::if_none_match(alloc),
        header.encode(alloc),
    )
}

fn tags_shown(alloc: Global, list: &ETagList) -> Result<String, AllocError> {
    match list {
        ETagList::Star => String::from_str(alloc, "Star"),
        ETagList::Tags(tags) => {
            let mut shown = Vec::new(alloc);
            for tag in tags {
                shown.push(tag_shown(alloc, tag)?)?;
            }
            items_shown(alloc, &shown)
        }
    }
}

/// Of `Timeout`.
pub fn timeout(alloc: Global, timeout: &Timeout) -> Result<String, Refusal> {
    let mut shown = Vec::new(alloc);
    for wanted in &timeout.0 {
        shown.push(format!(in alloc; "{wanted:?}")?)?;
    }
    let shown = items_shown(alloc, &shown)?;
    told(
        alloc,
        &shown,
        davheaders::timeout(alloc),
        timeout.encode(alloc),
    )
}

/// Of `Content-Language`.
pub fn languages(alloc: Global, languages: &ContentLanguage) -> Result<String, Refusal> {
    let mut shown = Vec::new(alloc);
    for language in languages.iter_langs() {
        shown.push(text_shown(alloc, language)?)?;
    }
    let shown = items_shown(alloc, &shown)?;
    told(
        alloc,
        &shown,
        davheaders::content_language(alloc),
        languages.encode(alloc),
    )
}

fn items_shown(alloc: Global, items: &[String]) -> Result<String, AllocError> {
    if items.is_empty() {
        return String::from_str(alloc, "none");
    }
    items.join(alloc, " ")
}
