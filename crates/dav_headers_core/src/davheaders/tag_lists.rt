//! `If-Match` and `If-None-Match`.
ghost use Rattle.std.specs.Prelude.{◌≡◌, ◌++◌, filter, map, IfOk};
ghost use Rattle.std.specs.List.{flat_map, list_any};
ghost use Rattle.http_header.specs.FieldValue.{IsVisibleAscii};
ghost use Rattle.dav_headers_core.specs.HeaderGives.{GivesFirst};
ghost use Rattle.dav_headers_core.specs.Values.{is_control, value_of_text};
ghost use Rattle.dav_headers_core.specs.CommaPieces.{joined_by_commas};
ghost use Rattle.dav_headers_core.specs.Tags.{is_tag};
ghost use Rattle.dav_headers_core.specs.TagLists.{tag_list, tags_in, tag_list_header, tag_list_text, tags_strong_eq, tag_list_strong_eq};
ghost use Rattle.dav_headers_core.specs.Private.TagReading as reading;

use super::values::{copied_value, holds_control, pieces, text_of, trimmed_text, value_of};
use super::{ETag, HeaderError};
use http_header::HeaderValue;
use std::alloc::{AllocError, Global};
use std::convert::AsStr;

/// The tags that a condition names: each of these, or any that there is.
#[derive(Debug, Drop)]
pub enum ETagList {
    /// These tags, in the order of the values.
    Tags(Vec<ETag>),
    /// Any tag: `*`.
    Star,
}

/// The request is to be done only where the resource has one of these tags (RFC 9110 section 13.1.1).
#[derive(Debug, Drop)]
pub struct IfMatch(pub ETagList);

/// The request is to be done only where the resource has none of these tags (RFC 9110 section 13.1.2).
#[derive(Debug, Drop)]
pub struct IfNoneMatch(pub ETagList);

/// The tags among the pieces, in order; other pieces are skipped.
fn tags_among(alloc: Global, pieces: &[&str]) -> Result<Vec<ETag>, AllocError>
    ensures { IfOk result (λ tags. tags.items ≡ filter is_tag (map (λ piece. piece.now) pieces.now)) }
{
    let mut tags = Vec::new(alloc);
    for piece in pieces {
        match ETag::from_str(alloc, piece) {
            Ok(tag) => tags.push(tag)?,
            Err(HeaderError::Invalid) => {}
            Err(HeaderError::OutOfMemory) => return Err(AllocError),
        }
    }
    Ok(tags)
}

fn tags_in(alloc: Global, text: &str) -> Result<Vec<ETag>, AllocError>
    requires { IsVisibleAscii text.now }
    ensures { IfOk result (λ tags. tags.items ≡ tags_in text.now) }
{
    tags_among(alloc, &pieces(alloc, text)?)
}

/// Whether a value is `*`; none where one before it is no text.
fn star_among(values: &[HeaderValue]) -> Option<bool>
    ensures { result ≡ reading.star_among values.now }
{
    for value in values {
        if trimmed_text(text_of(value)?) == "*" {
            return Some(true);
        }
    }
    Some(false)
}

/// The tags of the values that are texts, in order.
fn tags_of(alloc: Global, values: &[HeaderValue]) -> Result<Vec<ETag>, AllocError>
    ensures { IfOk result (λ tags. tags.items ≡ flat_map reading.tags_of values.now) }
{
    let mut tags = Vec::new(alloc);
    for value in values {
        if let Some(text) = text_of(value) {
            let mut more = tags_in(alloc, text)?;
            tags.append(&mut more)?;
        }
    }
    Ok(tags)
}

/// What the values say. Whether they say anything is looked at before memory is taken.
fn list_of(alloc: Global, values: &[HeaderValue]) -> Result<ETagList, HeaderError>
    ensures { GivesFirst tag_list result (tag_list_header values.now) }
{
    if values.is_empty() {
        return Err(HeaderError::Invalid);
    }
    match star_among(values) {
        Some(true) => Ok(ETagList::Star),
        Some(false) => Ok(ETagList::Tags(tags_of(alloc, values)?)),
        None => Err(HeaderError::Invalid),
    }
}

/// Whether a spelling holds a byte that no value may hold.
fn hold_control(tags: &[ETag]) -> bool
    ensures { result ≡ list_any is_control (joined_by_commas tags.now) }
{
    tags.iter()
        .any(|tag| holds_control(tag.as_str().as_bytes()))
}

fn joined_tags(alloc: Global, tags: &[ETag]) -> Result<HeaderValue, HeaderError>
    ensures { GivesFirst (λ value. value) result (value_of_text (joined_by_commas tags.now)) }
{
    if hold_control(tags) {
        return Err(HeaderError::Invalid);
    }
    value_of(tags.join(alloc, ", ")?)
}

fn value_of_list(alloc: Global, list: &ETagList) -> Result<HeaderValue, HeaderError>
    ensures { GivesFirst (λ value. value) result (value_of_text (tag_list_text (tag_list list.now))) }
{
    match list {
        ETagList::Tags(tags) => joined_tags(alloc, tags),
        ETagList::Star => copied_value(alloc, "*"),
    }
}

fn tags_strong_eq(tags: &[ETag], others: &[ETag]) -> bool
    ensures { result ≡ tags_strong_eq tags.now others.now }
{
    tags.len() == others.len()
        && tags
            .iter()
            .zip(others)
            .all(|(tag, other)| tag.strong_eq(other))
}

impl ETagList {
    /// Whether both are `Star`, or both are tags, as many, each `strong_eq` to the one at its place. It takes no memory.
    pub fn strong_eq(&self, other: &ETagList) -> bool
        ensures { result ≡ tag_list_strong_eq (tag_list self.now) (tag_list other.now) }
    {
        match (self, other) {
            (ETagList::Tags(tags), ETagList::Tags(others)) => tags_strong_eq(tags, others),
            (ETagList::Star, ETagList::Star) => true,
            _ => false,
        }
    }
}

impl IfMatch {
    /// What one or more values say, in order. One that is no text is `Invalid`; one that is `*` between spaces and tabs gives
    /// `Star` at once, whatever follows; of another, what stands between its commas, without spaces and tabs at the ends, is
    /// kept where it spells a tag. No values are `Invalid`.
    pub fn decode(alloc: Global, values: &[HeaderValue]) -> Result<IfMatch, HeaderError>
        ensures { GivesFirst (λ header. tag_list header.0) result (tag_list_header values.now) }
    {
        Ok(IfMatch(list_of(alloc, values)?))
    }

    /// The value `*`, or the spellings joined by `, `. `Invalid` exactly where it would hold a byte below 32 but the tab, or 127.
    pub fn encode(&self, alloc: Global) -> Result<HeaderValue, HeaderError>
        ensures { GivesFirst (λ value. value) result (value_of_text (tag_list_text (tag_list self.now.0))) }
    {
        let IfMatch(list) = self;
        value_of_list(alloc, list)
    }

    /// Whether the lists are `strong_eq`. It takes no memory.
    pub fn strong_eq(&self, other: &IfMatch) -> bool
        ensures { result ≡ tag_list_strong_eq (tag_list self.now.0) (tag_list other.now.0) }
    {
        let (IfMatch(list), IfMatch(others)) = (self, other);
        list.strong_eq(others)
    }
}

impl IfNoneMatch {
    /// What one or more values say, read as `IfMatch` reads them.
    pub fn decode(alloc: Global, values: &[HeaderValue]) -> Result<IfNoneMatch, HeaderError>
        ensures { GivesFirst (λ header. tag_list header.0) result (tag_list_header values.now) }
    {
        Ok(IfNoneMatch(list_of(alloc, values)?))
    }

    /// The value `*`, or the spellings joined by `, `. `Invalid` exactly where it would hold a byte below 32 but the tab, or 127.
    pub fn encode(&self, alloc: Global) -> Result<HeaderValue, HeaderError>
        ensures { GivesFirst (λ value. value) result (value_of_text (tag_list_text (tag_list self.now.0))) }
    {
        let IfNoneMatch(list) = self;
        value_of_list(alloc, list)
    }

    /// Whether the lists are `strong_eq`. It takes no memory.
    pub fn strong_eq(&self, other: &IfNoneMatch) -> bool
        ensures { result ≡ tag_list_strong_eq (tag_list self.now.0) (tag_list other.now.0) }
    {
        let (IfNoneMatch(list), IfNoneMatch(others)) = (self, other);
        list.strong_eq(others)
    }
}

/// The same list, or out of memory.
impl Clone for ETagList {
    ghost use Rattle.std.specs.Prelude.{◌≡◌};
    ghost use Rattle.dav_headers_core.specs.TagLists.{tag_list};

    ghost is_clone = { λ list copy. tag_list copy ≡ tag_list list };

    fn clone(&self) -> Result<ETagList, AllocError> {
        match self {
            ETagList::Tags(tags) => Ok(ETagList::Tags(tags.clone()?)),
            ETagList::Star => Ok(ETagList::Star),
        }
    }
}

/// The same list, or out of memory.
impl Clone for IfMatch {
    ghost use Rattle.std.specs.Prelude.{◌≡◌};
    ghost use Rattle.dav_headers_core.specs.TagLists.{tag_list};

    ghost is_clone = { λ header copy. tag_list copy.0 ≡ tag_list header.0 };

    fn clone(&self) -> Result<IfMatch, AllocError> {
        Ok(IfMatch(self.0.clone()?))
    }
}

/// The same list, or out of memory.
impl Clone for IfNoneMatch {
    ghost use Rattle.std.specs.Prelude.{◌≡◌};
    ghost use Rattle.dav_headers_core.specs.TagLists.{tag_list};

    ghost is_clone = { λ header copy. tag_list copy.0 ≡ tag_list header.0 };

    fn clone(&self) -> Result<IfNoneMatch, AllocError> {
        Ok(IfNoneMatch(self.0.clone()?))
    }
}
