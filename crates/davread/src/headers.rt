//! Headers by their names: read from values, read from a text, and written.
use crate::refusals::Refusal;
use crate::telling;
use crate::words::{bytes_of, text_of};
use dav_headers_core::davheaders::*;
use http_header::{HeaderValue, HeaderValueError};
use std::alloc::{AllocError, Global};

/// A header that can be read.
#[derive(Clone, Copy)]
pub enum Header {
    Depth,
    Overwrite,
    Timeout,
    Destination,
    ContentType,
    ContentLocation,
    LockToken,
    XLitmus,
    ETag,
    IfRange,
    IfMatch,
    IfNoneMatch,
    XUpdateRange,
    ContentLanguage,
    If,
}

impl Header {
    /// The header of this name in lower case.
    pub fn named(name: &[u8]) -> Result<Header, Refusal> {
        let Ok(name) = str::from_utf8(name) else {
            return Err(Refusal::Malformed);
        };
        match name {
            "depth" => Ok(Header::Depth),
            "overwrite" => Ok(Header::Overwrite),
            "timeout" => Ok(Header::Timeout),
            "destination" => Ok(Header::Destination),
            "content-type" => Ok(Header::ContentType),
            "content-location" => Ok(Header::ContentLocation),
            "lock-token" => Ok(Header::LockToken),
            "x-litmus" => Ok(Header::XLitmus),
            "etag" => Ok(Header::ETag),
            "if-range" => Ok(Header::IfRange),
            "if-match" => Ok(Header::IfMatch),
            "if-none-match" => Ok(Header::IfNoneMatch),
            "x-update-range" => Ok(Header::XUpdateRange),
            "content-language" => Ok(Header::ContentLanguage),
            "if" => Ok(Header::If),
            _ => Err(Refusal::Malformed),
        }
    }
}

/// The value of the bytes of a word.
pub fn value_of(alloc: Global, word: &[u8]) -> Result<HeaderValue, Refusal> {
    match HeaderValue::from_bytes(alloc, &bytes_of(alloc, word)?) {
        Ok(value) => Ok(value),
        Err(HeaderValueError::Invalid) => Err(Refusal::Value),
        Err(HeaderValueError::OutOfMemory) => Err(Refusal::OutOfMemory(AllocError)),
    }
}

fn values_of(alloc: Global, words: &[&[u8]]) -> Result<Vec<HeaderValue>, Refusal> {
    let mut values = Vec::new(alloc);
    for word in words {
        values.push(value_of(alloc, word)?)?;
    }
    Ok(values)
}

/// What the values of a header say, each the bytes of a word, and what is written for that.
pub fn read(alloc: Global, header: Header, words: &[&[u8]]) -> Result<String, Refusal> {
    let values = values_of(alloc, words)?;
    said(alloc, header, &values)
}

// What the values of a header say, and what is written for that.
fn said(alloc: Global, header: Header, values: &[HeaderValue]) -> Result<String, Refusal> {
    match header {
        Header::Depth => telling::depth(alloc, Depth::decode(values)?),
        Header::Overwrite => telling::overwrite(alloc, Overwrite::decode(values)?),
        Header::Timeout => telling::timeout(alloc, &Timeout::decode(alloc, values)?),
        Header::Destination => telling::destination(alloc, &Destination::decode(alloc, values)?),
        Header::ContentType => telling::content_type(alloc, &ContentType::decode(alloc, values)?),
        Header::ContentLocation => telling::content_location(
            alloc,
            &ContentLocation::decode(alloc, values)?,
        ),
        Header::LockToken => telling::lock_token(alloc, &LockToken::decode(alloc, values)?),
        Header::XLitmus => telling::litmus(alloc, &XLitmus::decode(alloc, values)?),
        Header::ETag => telling::tag(alloc, &ETag::decode(alloc, values)?),
        Header::IfRange => telling::if_range(alloc, &IfRange::decode(alloc, values)?),
        Header::IfMatch => telling::if_match(alloc, &IfMatch::decode(alloc, values)?),
        Header::IfNoneMatch => telling::if_none_match(alloc, &IfNoneMatch::decode(alloc, values)?),
        Header::XUpdateRange => telling::update_range(alloc, XUpdateRange::decode(values)?),
        Header::ContentLanguage => telling::languages(
            alloc,
            &ContentLanguage::decode(alloc, values)?,
        ),
        Header::If => telling::if_value(alloc, &If::decode(alloc, values)?),
    }
}

/// What the text of a word says, and what is written for that.
pub fn of_text(alloc: Global, header: Header, word: &[u8]) -> Result<String, Refusal> {
    match header {
        Header::ETag => {
            let text = text_of(bytes_of(alloc, word)?)?;
            telling::tag(alloc, &ETag::from_str(alloc, &text)?)
        }
        Header::ContentLanguage => {
            let text = text_of(bytes_of(alloc, word)?)?;
            telling::languages(alloc, &ContentLanguage::from_str(alloc, &text)?)
        }
        _ => Err(Refusal::Malformed),
    }
}

/// What one value says as a tag, and what is written for that.
pub fn tag_of_value(alloc: Global, word: &[u8]) -> Result<String, Refusal> {
    let value = value_of(alloc, word)?;
    telling::tag(alloc, &ETag::from_value(alloc, &value)?)
}

/// What is written for a header that is made from these words, not read.
pub fn written(alloc: Global, header: Header, words: &[&[u8]]) -> Result<String, Refusal> {
    match (header, words) {
        (Header::Depth, [b"default"]) => telling::depth(alloc, Depth::Default),
        (Header::Timeout, []) => telling::timeout(alloc, &Timeout(Vec::new(alloc))),
        (Header::ETag, [b"strong", word]) => written_tag(alloc, false, word),
        (Header::ETag, [b"weak", word]) => written_tag(alloc, true, word),
        (header, [word]) => written_text(alloc, header, word),
        _ => Err(Refusal::Malformed),
    }
}

fn written_tag(alloc: Global, weak: bool, word: &[u8]) -> Result<String, Refusal> {
    let text = text_of(bytes_of(alloc, word)?)?;
    telling::tag(alloc, &ETag::new(alloc, weak, &text)?)
}

fn written_text(alloc: Global, header: Header, word: &[u8]) -> Result<String, Refusal> {
    let text = text_of(bytes_of(alloc, word)?)?;
    match header {
        Header::Destination => telling::destination(alloc, &Destination(text)),
        Header::ContentType => telling::content_type(alloc, &ContentType(text)),
        Header::ContentLocation => telling::content_location(alloc, &ContentLocation(text)),
        Header::LockToken => telling::lock_token(alloc, &LockToken(text)),
        Header::XLitmus => telling::litmus(alloc, &XLitmus(text)),
        _ => Err(Refusal::Malformed),
    }
}
