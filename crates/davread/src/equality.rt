//! Whether values of a header say the same.
use crate::headers::{Header, value_of};
use crate::refusals::Refusal;
use dav_headers_core::davheaders::*;
use std::alloc::Global;

/// `equal` or `different`: by `strong_eq`, and for `Content-Language` by `==`.
pub fn equal(alloc: Global, header: Header, word: &[u8], other: &[u8]) -> Result<String, Refusal> {
    let is_equal = match header {
        Header::ETag => equal_tag(alloc, word, other)?,
        Header::IfRange => equal_range(alloc, word, other)?,
        Header::IfMatch => equal_tags(alloc, word, other)?,
        Header::IfNoneMatch => equal_no_tags(alloc, word, other)?,
        Header::If => equal_conditions(alloc, word, other)?,
        Header::ContentLanguage => equal_languages(alloc, word, other)?,
        _ => return Err(Refusal::Malformed),
    };
    compared(alloc, is_equal)
}

/// The answer to a comparison.
pub fn compared(alloc: Global, is_equal: bool) -> Result<String, Refusal> {
    let answer = if is_equal { "equal" } else { "different" };
    Ok(String::from_str(alloc, answer)?)
}

fn tag(alloc: Global, word: &[u8]) -> Result<ETag, Refusal> {
    Ok(ETag::decode(alloc, &[value_of(alloc, word)?])?)
}

fn range(alloc: Global, word: &[u8]) -> Result<IfRange, Refusal> {
    Ok(IfRange::decode(alloc, &[value_of(alloc, word)?])?)
}

fn tags(alloc: Global, word: &[u8]) -> Result<IfMatch, Refusal> {
    Ok(IfMatch::decode(alloc, &[value_of(alloc, word)?])?)
}

fn no_tags(alloc: Global, word: &[u8]) -> Result<IfNoneMatch, Refusal> {
    Ok(IfNoneMatch::decode(alloc, &[value_of(alloc, word)?])?)
}

fn conditions(alloc: Global, word: &[u8]) -> Result<If, Refusal> {
    Ok(If::decode(alloc, &[value_of(alloc, word)?])?)
}

fn languages(alloc: Global, word: &[u8]) -> Result<ContentLanguage, Refusal> {
    Ok(ContentLanguage::decode(alloc, &[value_of(alloc, word)?])?)
}

fn equal_tag(alloc: Global, word: &[u8], other: &[u8]) -> Result<bool, Refusal> {
    let one = tag(alloc, word)?;
    let two = tag(alloc, other)?;
    Ok(one.strong_eq(&two))
}

fn equal_range(alloc: Global, word: &[u8], other: &[u8]) -> Result<bool, Refusal> {
    let one = range(alloc, word)?;
    let two = range(alloc, other)?;
    Ok(one.strong_eq(&two))
}

fn equal_tags(alloc: Global, word: &[u8], other: &[u8]) -> Result<bool, Refusal> {
    let one = tags(alloc, word)?;
    let two = tags(alloc, other)?;
    Ok(one.strong_eq(&two))
}

fn equal_no_tags(alloc: Global, word: &[u8], other: &[u8]) -> Result<bool, Refusal> {
    let one = no_tags(alloc, word)?;
    let two = no_tags(alloc, other)?;
    Ok(one.strong_eq(&two))
}

fn equal_conditions(alloc: Global, word: &[u8], other: &[u8]) -> Result<bool, Refusal> {
    let one = conditions(alloc, word)?;
    let two = conditions(alloc, other)?;
    Ok(one.strong_eq(&two))
}

fn equal_languages(alloc: Global, word: &[u8], other: &[u8]) -> Result<bool, Refusal> {
    let one = languages(alloc, word)?;
    let two = languages(alloc, other)?;
    Ok(one == two)
}
