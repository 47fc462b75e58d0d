//! State tokens and entity tags in an `If` value.
ghost use Rattle.std.specs.Prelude.{◌≡◌};
ghost use Rattle.dav_headers_core.specs.HeaderGives.{GivesFirst};
ghost use Rattle.dav_headers_core.specs.Private.IfReading as reading;
ghost use Rattle.dav_headers_core.specs.IfValues.{item_of};
ghost use Rattle.dav_headers_core.specs.IfStrongEq.{item_strong_eq};

use super::scan::{holds_colon, text_at, word_at};
use crate::davheaders::{ETag, HeaderError};
use std::alloc::{AllocError, Global};

/// What a condition of an `If` value asks for (RFC 4918 section 10.4.3).
#[derive(Debug, Drop)]
pub enum IfItem {
    /// A state token, such as a lock's: a text with a `:`.
    StateToken(String),
    /// An entity tag of the resource.
    ETag(ETag),
}

#[tactic(auto, unfolding(crate::specs::Private::IfReading::pointed_at))]
fn pointed_at(alloc: Global, bytes: &[u8]) -> Result<(IfItem, &[u8]), HeaderError>
    ensures { GivesFirst (λ x. (item_of x.0, x.1.now)) result (reading.pointed_at bytes.now) }
{
    let (text, rest) = text_at(bytes, b'>').ok_or(HeaderError::Invalid)?;
    if !holds_colon(text.as_bytes()) {
        return Err(HeaderError::Invalid);
    }
    Ok((IfItem::StateToken(String::from_str(alloc, text)?), rest))
}

#[tactic(auto, unfolding(crate::specs::Private::IfReading::bracketed_at))]
fn bracketed_at(alloc: Global, bytes: &[u8]) -> Result<(IfItem, &[u8]), HeaderError>
    ensures { GivesFirst (λ x. (item_of x.0, x.1.now)) result (reading.bracketed_at bytes.now) }
{
    let (text, rest) = text_at(bytes, b']').ok_or(HeaderError::Invalid)?;
    let tag = ETag::from_str(alloc, text)?;
    Ok((IfItem::ETag(tag), rest))
}

#[tactic(auto, unfolding(crate::specs::Private::IfReading::worded_at))]
fn worded_at(alloc: Global, bytes: &[u8]) -> Result<(IfItem, &[u8]), HeaderError>
    ensures { GivesFirst (λ x. (item_of x.0, x.1.now)) result (reading.worded_at bytes.now) }
{
    let (text, rest) = word_at(bytes).ok_or(HeaderError::Invalid)?;
    Ok((IfItem::StateToken(String::from_str(alloc, text)?), rest))
}

/// The item at the front, and what follows it.
pub(super) fn item_at(alloc: Global, bytes: &[u8]) -> Result<(IfItem, &[u8]), HeaderError>
    ensures { GivesFirst (λ x. (item_of x.0, x.1.now)) result (reading.item_at bytes.now) }
{
    match bytes {
        [] => Err(HeaderError::Invalid),
        [b'<', rest @ ..] => pointed_at(alloc, rest),
        [b'[', rest @ ..] => bracketed_at(alloc, rest),
        _ => worded_at(alloc, bytes),
    }
}

impl IfItem {
    /// Whether both are the same token, or both are tags and these are `strong_eq`. It takes no memory. It isn't `==`, as no
    /// weak tag equals itself by it.
    pub fn strong_eq(&self, other: &IfItem) -> bool
        ensures { result ≡ item_strong_eq (item_of self.now) (item_of other.now) }
    {
        match (self, other) {
            (IfItem::StateToken(token), IfItem::StateToken(another)) => token == another,
            (IfItem::ETag(tag), IfItem::ETag(another)) => tag.strong_eq(another),
            _ => false,
        }
    }
}

/// The same item, or out of memory.
impl Clone for IfItem {
    ghost use Rattle.dav_headers_core.specs.IfValues.{item_of};

    ghost is_clone = { λ item copy. item_of copy ≡ item_of item };

    fn clone(&self) -> Result<IfItem, AllocError> {
        match self {
            IfItem::StateToken(token) => Ok(IfItem::StateToken(token.clone()?)),
            IfItem::ETag(tag) => Ok(IfItem::ETag(tag.clone()?)),
        }
    }
}
