//! Entity tags as HTTP's conditions list them, over the bytes of field values (RFC 9110 sections 5.6.1 and 8.8.3). The readers of `dav_headers_core`
//! part such a list at every comma, and skip what spells no tag; here a comma inside of quotes parts nothing, and nothing is skipped. It takes no memory.
ghost use Rattle.std.specs.Prelude.{◌≡◌, ◌+◌, ◌<◌, [], ◌∷◌, false, take, drop, length, MatchOption, option_copied, option_map};
ghost use Rattle.std.specs.Iterator.{YieldsFirstRef, item_count};
ghost use Rattle.std.specs.List.{list_all};
ghost use Rattle.dav_headers_core.specs.Tags as tags;
ghost use Rattle.dav_headers_core.specs.Values.{one_value};
ghost use Rattle.dav_fields_core.specs.ListedTags as spec;
ghost use Rattle.dav_fields_core.specs.Private.ListElements.{elements_left};

use http_header::{GetAll, HeaderValue};

// ---- one tag

fn is_visible(b: u8) -> bool
    ensures { result ≡ spec.is_visible b }
{
    b > 32 && b != 127
}

// Whether the first quote is the last byte.
fn ends_in_quote(bytes: &[u8]) -> bool
    ensures { result ≡ tags.ends_in_quote bytes.now }
{
    for (i, b) in bytes.iter().enumerate() {
        if *b == b'"' {
            return i + 1 == bytes.len();
        }
    }
    false
}

fn is_quoted(bytes: &[u8]) -> bool
    ensures { result ≡ tags.is_quoted bytes.now }
{
    match bytes {
        [b'"', rest @ ..] => ends_in_quote(rest),
        _ => false,
    }
}

fn is_tag(text: &[u8]) -> bool
    ensures { result ≡ tags.is_tag text.now }
{
    match text {
        [b'W', b'/', quoted @ ..] => is_quoted(quoted),
        _ => is_quoted(text),
    }
}

fn are_visible(text: &[u8]) -> bool
    ensures { result ≡ list_all spec.is_visible text.now }
{
    text.iter().all(|b| is_visible(*b))
}

/// Whether the text spells a tag of visible bytes (RFC 9110 section 8.8.3).
pub fn is_entity_tag(text: &[u8]) -> bool
    ensures { result ≡ spec.is_entity_tag text.now }
{
    is_tag(text) && are_visible(text)
}

// A tag without the mark of a weak one.
fn opaque_tag(tag: &[u8]) -> &[u8]
    ensures { result.now ≡ spec.opaque_tag tag.now }
{
    match tag {
        [b'W', b'/', opaque @ ..] => opaque,
        _ => tag,
    }
}

fn is_weak(tag: &[u8]) -> bool
    ensures { result ≡ tags.is_weak tag.now }
{
    match tag {
        [b'W', ..] => true,
        _ => false,
    }
}

/// How tags are compared (RFC 9110 section 8.8.3.2).
#[derive(Clone, Copy)]
pub enum Comparison {
    /// They are spelled alike, and none is weak.
    Strong,
    /// They are spelled alike but for the mark of a weak one.
    Weak,
}

impl Comparison {
    /// Whether the tags are equal by it.
    pub fn same(self, tag: &[u8], other: &[u8]) -> bool
        ensures { result ≡ spec.same_by self tag.now other.now }
    {
        match self {
            Comparison::Strong => !is_weak(tag) && !is_weak(other) && tag == other,
            Comparison::Weak => opaque_tag(tag) == opaque_tag(other),
        }
    }
}

// ---- elements of a value

/// The bytes without the white space at their ends.
pub fn trim(bytes: &[u8]) -> &[u8]
    ensures { result.now ≡ spec.trim bytes.now }
{
    bytes.trim_ascii()
}

// The first comma that is not inside of quotes.
fn comma_in(bytes: &[u8]) -> Option<usize>
    ensures { MatchOption result (spec.parted_elements false bytes.now ≡ bytes.now ∷ []) (λ i. (i < length bytes.now)
        × (spec.parted_elements false bytes.now ≡ take i bytes.now ∷ spec.parted_elements false (drop (i + 1) bytes.now))) }
{
    let mut inside = false;
    for (i, b) in bytes.iter().enumerate() {
        if *b == b',' && !inside {
            return Some(i);
        }
        if *b == b'"' {
            inside = !inside;
        }
    }
    None
}

/// The elements that are left of a value.
#[derive(Drop)]
pub struct Elements<'a> {
    rest: Option<&'a [u8]>,
}

impl<'a> Iterator for Elements<'a> {
    type Item = &'a [u8];

    ghost next_gives = { YieldsFirstRef elements_left };

    ghost remaining = { item_count elements_left };

    fn next(&mut self) -> Option<&'a [u8]> {
        let rest = self.rest?;
        match comma_in(rest) {
            Some(comma) => {
                self.rest = Some(&rest[comma + 1..]);
                Some(trim(&rest[..comma]))
            }
            None => {
                self.rest = None;
                Some(trim(rest))
            }
        }
    }
}

/// The elements of a value, between the commas that are not inside of quotes, without the white space around each.
pub fn elements_of(value: &[u8]) -> Elements<'_>
    ensures { elements_left result ≡ spec.elements value.now }
{
    Elements { rest: Some(value) }
}

// Whether it is missing or a tag.
fn is_element(element: &[u8]) -> bool
    ensures { result ≡ spec.is_listed_element element.now }
{
    element.is_empty() || is_entity_tag(element)
}

fn is_tag_list(value: &[u8]) -> bool
    ensures { result ≡ list_all spec.is_listed_element (spec.elements value.now) }
{
    elements_of(value).all(|element| is_element(element))
}

/// Whether each value is a list of tags, of which some may be missing (RFC 9110 section 5.6.1).
pub fn are_tag_lists(values: &GetAll<'_, HeaderValue>) -> bool
    ensures { result ≡ spec.are_tag_lists values.now }
{
    values.iter().all(|value| is_tag_list(value.as_bytes()))
}

/// The bytes of the one value, where there is one and no other.
pub fn one_value<'a>(values: &GetAll<'a, HeaderValue>) -> Option<&'a [u8]>
    ensures { option_copied result ≡ one_value values.now }
{
    let mut values = values.iter();
    let value = values.next()?;
    match values.next() {
        Some(_) => None,
        None => Some(value.as_bytes()),
    }
}

/// Whether the one value is `*`.
pub fn is_star(values: &GetAll<'_, HeaderValue>) -> bool
    ensures { result ≡ spec.is_star values.now }
{
    match one_value(values) {
        Some(value) => trim(value) == b"*".as_slice(),
        None => false,
    }
}
