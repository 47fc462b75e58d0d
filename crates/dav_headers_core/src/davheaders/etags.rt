//! Entity tags.
ghost use Rattle.std.specs.Prelude.{◌≡◌, ◌↔◌, ◌==◌, ℕ, List, IfOk, IsTrue, string_bytes};
ghost use Rattle.std.specs.List.{list_any};
ghost use Rattle.dav_headers_core.specs.HeaderGives.{GivesFirst};
ghost use Rattle.dav_headers_core.specs.Optional.{when};
ghost use Rattle.dav_headers_core.specs.Values.{value_of_text};
ghost use Rattle.dav_headers_core.specs.Tags.{IsTag, quote, spelled_tag, is_quoted, is_tag, is_weak, tag_in, tag_of_value, tag_header, new_tag, strong_eq};

use super::HeaderError;
use super::values::{copied_value, one_text, text_of};
use http_header::HeaderValue;
use std::alloc::{AllocError, Global};
use std::convert::AsStr;
use std::fmt;
use std::marker::Model;

/// An entity tag (RFC 9110 section 8.8.3). A contract sees it as the bytes of its spelling.
#[derive(Debug, Drop)]
pub struct ETag {
    tag: String,
    weak: bool,
}

impl Model for ETag {
    ghost use Rattle.std.specs.Prelude.{◌≡◌, ℕ, true, List, string_bytes};
    ghost use Rattle.dav_headers_core.specs.Tags.{is_tag, is_weak};

    ghost Value = { List ℕ };

    ghost view = { λ e. string_bytes e.tag };

    ghost invariant = { λ e. (is_tag (string_bytes e.tag) ≡ true) × (e.weak ≡ is_weak (string_bytes e.tag)) };
}

fn holds_quote(text: &str) -> bool
    ensures { result ≡ list_any (λ b. b == quote) text.now }
{
    text.contains('"')
}

fn is_quoted(text: &str) -> bool
    ensures { result ≡ is_quoted text.now }
{
    let Some(rest) = text.strip_prefix('"') else {
        return false;
    };
    match rest.strip_suffix('"') {
        Some(opaque_tag) => !holds_quote(opaque_tag),
        None => false,
    }
}

fn is_tag(text: &str) -> bool
    ensures { result ≡ is_tag text.now }
{
    match text.strip_prefix("W/") {
        Some(quoted) => is_quoted(quoted),
        None => is_quoted(text),
    }
}

fn spelled(alloc: Global, weak: bool, t: &str) -> Result<String, AllocError>
    ensures { IfOk result (λ text. string_bytes text ≡ spelled_tag weak t.now) }
{
    if weak {
        format!(in alloc; "W/\"{t}\"")
    } else {
        format!(in alloc; "\"{t}\"")
    }
}

impl ETag {
    /// The tag with this text between its quotes. `Invalid` exactly where the text holds a quote.
    pub fn new(alloc: Global, weak: bool, t: &str) -> Result<ETag, HeaderError>
        ensures { GivesFirst (λ tag. tag) result (new_tag weak t.now) }
    {
        if holds_quote(t) {
            return Err(HeaderError::Invalid);
        }
        Ok(ETag {
            tag: spelled(alloc, weak, t)?,
            weak,
        })
    }

    /// The tag that the text spells: `W/` or nothing, a quote, any characters but a quote, a quote, and nothing round it.
    /// Anything else is `Invalid`.
    pub fn from_str(alloc: Global, t: &str) -> Result<ETag, HeaderError>
        ensures { GivesFirst (λ tag. tag) result (tag_in t.now) }
    {
        if !is_tag(t) {
            return Err(HeaderError::Invalid);
        }
        Ok(ETag {
            tag: String::from_str(alloc, t)?,
            weak: t.as_bytes()[0] == b'W',
        })
    }

    /// The tag that the value spells. `Invalid` exactly where it is no text or spells none.
    pub fn from_value(alloc: Global, value: &HeaderValue) -> Result<ETag, HeaderError>
        ensures { GivesFirst (λ tag. tag) result (tag_of_value value.now) }
    {
        let text = text_of(value).ok_or(HeaderError::Invalid)?;
        ETag::from_str(alloc, text)
    }

    /// Whether it is spelled with `W/`. It takes no memory.
    pub fn is_weak(&self) -> bool
        ensures weak { result ≡ is_weak self.now }
        // Of every tag a caller may know that it is spelled as one.
        ensures spelling { IsTag self.now }
    {
        self.weak
    }

    /// Whether neither tag is weak and their spellings are equal (RFC 9110 section 8.8.3.2). It takes no memory. It isn't `==`,
    /// as no weak tag equals itself by it.
    pub fn strong_eq(&self, other: &ETag) -> bool
        ensures { result ≡ strong_eq self.now other.now }
    {
        !self.weak && !other.weak && self.tag == other.tag
    }

    /// The tag that the one text spells. Anything else is `Invalid`.
    pub fn decode(alloc: Global, values: &[HeaderValue]) -> Result<ETag, HeaderError>
        ensures { GivesFirst (λ tag. tag) result (tag_header values.now) }
    {
        let text = one_text(values).ok_or(HeaderError::Invalid)?;
        ETag::from_str(alloc, text)
    }

    /// The spelling as a value. `Invalid` exactly where it holds a byte below 32 but the tab, or 127.
    pub fn encode(&self, alloc: Global) -> Result<HeaderValue, HeaderError>
        ensures { GivesFirst (λ value. value) result (value_of_text self.now) }
    {
        copied_value(alloc, self.as_str())
    }
}

/// The spelling.
impl AsStr for ETag {
    ghost text = { λ tag. tag };

    fn as_str(&self) -> &str {
        self.tag.as_str()
    }
}

/// An equal tag, or out of memory.
impl Clone for ETag {
    ghost is_clone = { λ tag copy. copy ≡ tag };

    fn clone(&self) -> Result<ETag, AllocError> {
        Ok(ETag {
            tag: self.tag.clone()?,
            weak: self.weak,
        })
    }
}

/// The spelling (own: the crate puts quotes round it once more).
impl fmt::Display for ETag {
    ghost use Rattle.std.specs.Prelude.{Some};

    ghost output = { λ tag. Some tag };

    fn fmt<W: fmt::Write>(&self, f: &mut fmt::Formatter<W>) -> fmt::Result {
        fmt::Display::fmt(&self.as_str(), f)
    }
}

/// The law that `is_tag` tells spellings of tags from other texts.
pub fn spellings_are_told()
    ensures { (text : List ℕ) → IsTrue (is_tag text) ↔ IsTag text }
{}
