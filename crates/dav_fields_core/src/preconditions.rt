//! The conditions of HTTP (RFC 9110 section 13). What they ask for is told from the headers and from what stands at the path. It takes no memory.
ghost use Rattle.std.specs.Prelude.{◌≡◌, ◌*◌, Some, nat_le, not, true};
ghost use Rattle.dav_path_core.specs.declared.util.DavMethod.{DavMethod};
ghost use Rattle.dav_fields_core.specs.declared.etags.Standing.{Standing};
ghost use Rattle.std.specs.List.{list_any};
ghost use Rattle.httpdate.specs.Date.{parse_secs};
ghost use Rattle.dav_fields_core.specs.ListedTags as listed;
ghost use Rattle.dav_fields_core.specs.Preconditions.{or_bad_request};
ghost use Rattle.dav_fields_core.specs.Preconditions as spec;

mod laws;

use crate::etags::Standing;
use crate::listed_tags::{
    Comparison, are_tag_lists, elements_of, is_entity_tag, is_star, one_value, trim,
};
use dav_faults_core::faults::Fault;
use dav_path_core::util::DavMethod;
use http_header::{GetAll, HeaderMap, HeaderValue};
use httpdate::HttpDate;
pub use laws::{
    nothing_asked_goes_on, parts_alone_become_whole, reads_alone_are_not_modified,
    tags_are_read_by_their_grammar,
};
use std::convert::AsStr;

/// What follows from the conditions of a request.
#[derive(Clone, Copy, PartialEq, Eq)]
pub enum Course {
    /// The request is done.
    Proceed,
    /// It is done, but the whole file is sent in place of a part (RFC 9110 section 13.1.5).
    Whole,
    /// 304: the client has what it asks for already (RFC 9110 section 15.4.5).
    NotModified,
    /// 412: a condition doesn't hold (RFC 9110 section 15.5.13).
    PreconditionFailed,
}

// ---- what stands at the path

fn stands(standing: &Standing) -> bool
    ensures { result ≡ spec.stands standing.now }
{
    match standing {
        Standing::Nothing => false,
        Standing::Folder | Standing::File { .. } => true,
    }
}

/// Whether it is a file whose tag is equal to this one by the comparison.
pub fn has_tag(comparison: Comparison, standing: &Standing, other: &[u8]) -> bool
    ensures { result ≡ spec.has_tag comparison standing.now other.now }
{
    match standing {
        Standing::File { tag, .. } => comparison.same(tag.as_str().as_bytes(), other),
        Standing::Nothing | Standing::Folder => false,
    }
}

// Whether a date in seconds tells a file as it is.
fn is_told_by(standing: &Standing, second: u64) -> Option<bool>
    ensures { result ≡ spec.is_told_by standing.now second }
{
    match standing {
        Standing::File {
            modified,
            latest,
            ..
        } => Some(second == modified.0 / 1_000_000_000 || is_before_none(second, latest.0)),
        Standing::Nothing | Standing::Folder => None,
    }
}

// Whether the latest of some moments is not after a second.
fn is_before_none(second: u64, latest: u64) -> bool
    ensures { result ≡ nat_le latest (second * 1_000_000_000) }
{
    u128::from(latest) <= u128::from(second) * 1_000_000_000
}

// ---- each condition

fn lists_its_tag(comparison: Comparison, standing: &Standing, value: &[u8]) -> bool
    ensures { result ≡ list_any (spec.has_tag comparison standing.now) (listed.elements value.now) }
{
    elements_of(value).any(|element| has_tag(comparison, standing, element))
}

fn list_its_tag(
    comparison: Comparison,
    standing: &Standing,
    values: &GetAll<'_, HeaderValue>,
) -> bool
    ensures { result ≡ listed.list_some (spec.has_tag comparison standing.now) values.now }
{
    values.iter().any(|value| lists_its_tag(comparison, standing, value.as_bytes()))
}

fn if_match(standing: &Standing, values: &GetAll<'_, HeaderValue>) -> Option<bool>
    ensures { result ≡ spec.if_match standing.now values.now }
{
    if is_star(values) {
        return Some(stands(standing));
    }
    if !are_tag_lists(values) {
        return None;
    }
    Some(list_its_tag(Comparison::Strong, standing, values))
}

fn if_none_match(standing: &Standing, values: &GetAll<'_, HeaderValue>) -> Option<bool>
    ensures { result ≡ spec.if_none_match standing.now values.now }
{
    if is_star(values) {
        return Some(!stands(standing));
    }
    if !are_tag_lists(values) {
        return None;
    }
    Some(!list_its_tag(Comparison::Weak, standing, values))
}

// The second that a text shows.
fn second_shown(text: &[u8]) -> Option<u64>
    ensures { result ≡ parse_secs text.now }
{
    match HttpDate::parse_ascii(text) {
        Ok(date) => Some(date.unix_secs()),
        Err(_) => None,
    }
}

fn second_in(values: &GetAll<'_, HeaderValue>) -> Option<u64>
    ensures { result ≡ spec.second_in values.now }
{
    second_shown(trim(one_value(values)?))
}

fn unchanged_since(standing: &Standing, values: &GetAll<'_, HeaderValue>) -> Option<bool>
    ensures { result ≡ spec.unchanged_since standing.now values.now }
{
    is_told_by(standing, second_in(values)?)
}

fn if_range(standing: &Standing, values: &GetAll<'_, HeaderValue>) -> Option<bool>
    ensures { result ≡ spec.if_range standing.now values.now }
{
    let text = trim(one_value(values)?);
    if is_entity_tag(text) {
        return Some(has_tag(Comparison::Strong, standing, text));
    }
    second_shown(text)?;
    Some(false)
}

// ---- the order

fn is_missing(values: &GetAll<'_, HeaderValue>) -> bool
    ensures { result ≡ spec.is_missing values.now }
{
    values.iter().next().is_none()
}

fn is_wanted(standing: &Standing, headers: &HeaderMap<HeaderValue>) -> Option<bool>
    ensures { result ≡ spec.is_wanted standing.now headers.now }
{
    let tags = headers.get_all("if-match");
    if !is_missing(&tags) {
        return if_match(standing, &tags);
    }
    let dates = headers.get_all("if-unmodified-since");
    Some(unchanged_since(standing, &dates).unwrap_or(true))
}

fn is_get_or_head(method: DavMethod) -> bool
    ensures { result ≡ spec.is_get_or_head method }
{
    matches!(method, DavMethod::Get | DavMethod::Head)
}

fn is_new(method: DavMethod, standing: &Standing, headers: &HeaderMap<HeaderValue>) -> Option<bool>
    ensures { result ≡ spec.is_new method standing.now headers.now }
{
    let tags = headers.get_all("if-none-match");
    if !is_missing(&tags) {
        return if_none_match(standing, &tags);
    }
    if !is_get_or_head(method) {
        return Some(true);
    }
    let dates = headers.get_all("if-modified-since");
    Some(!unchanged_since(standing, &dates).unwrap_or(false))
}

fn is_part_wanted(
    method: DavMethod,
    standing: &Standing,
    headers: &HeaderMap<HeaderValue>,
) -> Option<bool>
    ensures { result ≡ spec.is_part_wanted method standing.now headers.now }
{
    let validators = headers.get_all("if-range");
    let ranges = headers.get_all("range");
    if is_missing(&validators) || is_missing(&ranges) || !matches!(method, DavMethod::Get) {
        return Some(true);
    }
    if_range(standing, &validators)
}

// What follows where the first conditions hold.
fn course_of_wanted(
    method: DavMethod,
    standing: &Standing,
    headers: &HeaderMap<HeaderValue>,
) -> Option<Course>
    ensures { result ≡ spec.course_of_wanted method standing.now headers.now }
{
    if !is_new(method, standing, headers)? {
        if is_get_or_head(method) {
            return Some(Course::NotModified);
        }
        return Some(Course::PreconditionFailed);
    }
    if is_part_wanted(method, standing, headers)? {
        Some(Course::Proceed)
    } else {
        Some(Course::Whole)
    }
}

/// Whether none of the conditions stands in the headers (own): then a request goes on, whatever stands at its path.
pub fn asks_nothing(headers: &HeaderMap<HeaderValue>) -> bool
    ensures exact { result ≡ spec.asks_nothing headers.now }
    ensures goes_on { result ≡ true → (m : DavMethod) (standing : Standing)
        → spec.course_of m standing headers.now ≡ Some Course.Proceed }
{
    if !is_missing(&headers.get_all("if-match")) {
        return false;
    }
    if !is_missing(&headers.get_all("if-unmodified-since")) {
        return false;
    }
    if !is_missing(&headers.get_all("if-none-match")) {
        return false;
    }
    if !is_missing(&headers.get_all("if-modified-since")) {
        return false;
    }
    is_missing(&headers.get_all("if-range"))
}

/// What follows from the conditions, as `course_of` tells it, with nothing where one that is looked at can't be read.
pub fn read_course(
    method: DavMethod,
    standing: &Standing,
    headers: &HeaderMap<HeaderValue>,
) -> Option<Course>
    ensures { result ≡ spec.course_of method standing.now headers.now }
{
    if is_wanted(standing, headers)? {
        course_of_wanted(method, standing, headers)
    } else {
        Some(Course::PreconditionFailed)
    }
}

/// What follows from the conditions of HTTP that the headers state, of what stands at the path, in the order of RFC 9110 section 13.2.2: `If-Match`, or
/// without it `If-Unmodified-Since`; `If-None-Match`, or without it, of GET and HEAD, `If-Modified-Since`; of a GET with `Range`, `If-Range`. It takes no
/// memory.
///
/// A list of tags is read by the grammar of RFC 9110 alone, so that a comma inside of quotes parts nothing. `BadRequest` exactly where a condition that is
/// looked at can't be read; but a date that can't be read is as if it weren't there (RFC 9110 sections 13.1.3 and 13.1.4).
pub fn course_of(
    method: DavMethod,
    standing: &Standing,
    headers: &HeaderMap<HeaderValue>,
) -> Result<Course, Fault>
    ensures { result ≡ or_bad_request (spec.course_of method standing.now headers.now) }
{
    read_course(method, standing, headers).ok_or(Fault::BadRequest)
}
