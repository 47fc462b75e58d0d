//! Ranges of bytes (RFC 9110 section 14). They take no memory.
ghost use Rattle.std.specs.Prelude.{◌≡◌, option_map};
ghost use Rattle.std.specs.List.{slice_split};
ghost use Rattle.dav_headers_core.specs.Numbers.{number};
ghost use Rattle.dav_headers_core.specs.UpdateRanges.{is_hyphen, range_between, two};
ghost use Rattle.dav_fields_core.specs.Ranges as spec;

use crate::words::{behind_word, text_of};
use dav_headers_core::davheaders::XUpdateRange;
use http_header::{GetAll, HeaderValue};

/// Which bytes of a file are asked for.
#[derive(Clone, Copy, PartialEq, Eq)]
pub enum Extent {
    /// All of them.
    Whole,
    /// Those from the first place up to the end.
    Part {
        /// The place of the first byte; the first byte of a file has place 0.
        first: u64,
        /// The place behind the last byte.
        end: u64,
    },
    /// Bytes that the file hasn't (RFC 9110 section 15.5.17).
    Unsatisfiable,
}

// A sign is read in `X-Update-Range`, but is no part of a range of HTTP.
fn has_sign(text: &[u8]) -> bool
    ensures { result ≡ spec.has_sign text.now }
{
    text.iter().any(|b| *b == b'+')
}

fn number_of(text: &str) -> Option<u64>
    ensures { result ≡ number 64 text.now }
{
    text.parse::<u64>().ok()
}

#[tactic(auto, unfolding(dav_headers_core::specs::UpdateRanges::range_between))]
fn range_between(first: &str, last: &str) -> Option<XUpdateRange>
    ensures { result ≡ range_between first.now last.now }
{
    match (first.is_empty(), last.is_empty()) {
        (true, true) => None,
        (true, false) => Some(XUpdateRange::Last(number_of(last)?)),
        (false, true) => Some(XUpdateRange::AllFrom(number_of(first)?)),
        (false, false) => Some(XUpdateRange::FromTo(number_of(first)?, number_of(last)?)),
    }
}

// What stands around the one dash.
fn around_dash(range: &str) -> Option<(&str, &str)>
    ensures { option_map (λ ends. (ends.0.now, ends.1.now)) result
        ≡ two (slice_split is_hyphen range.now) }
{
    let (first, last) = range.split_once('-')?;
    if last.contains('-') {
        None
    } else {
        Some((first, last))
    }
}

fn range_around_dash(range: &str) -> Option<XUpdateRange>
    ensures { result ≡ spec.range_around_dash range.now }
{
    let (first, last) = around_dash(range)?;
    range_between(first, last)
}

fn range_of(value: &HeaderValue) -> Option<XUpdateRange>
    ensures { result ≡ spec.range_spelled value.now.bytes }
{
    if has_sign(value.as_bytes()) {
        return None;
    }
    let text = text_of(value)?;
    range_around_dash(behind_word(text, "bytes", '=')?)
}

fn range_in(values: &GetAll<'_, HeaderValue>) -> Option<XUpdateRange>
    ensures { result ≡ spec.range_in values.now }
{
    let mut values = values.iter();
    let value = values.next()?;
    match values.next() {
        Some(_) => None,
        None => range_of(value),
    }
}

fn part_of(size: u64, first: u64, last: u64) -> Extent
    ensures { result ≡ spec.part_of size first last }
{
    if first >= size {
        return Extent::Unsatisfiable;
    }
    let end = if last < size { last + 1 } else { size };
    Extent::Part { first, end }
}

fn last_of(size: u64, count: u64) -> Extent
    ensures { result ≡ spec.last_bytes size count }
{
    if count == 0 {
        return Extent::Unsatisfiable;
    }
    if size == 0 {
        return Extent::Whole;
    }
    Extent::Part {
        first: size.saturating_sub(count),
        end: size,
    }
}

fn extent_by(size: u64, range: XUpdateRange) -> Extent
    ensures { result ≡ spec.extent_by size range }
{
    match range {
        XUpdateRange::Append => Extent::Whole,
        XUpdateRange::FromTo(first, last) => if last < first {
            Extent::Whole
        } else {
            part_of(size, first, last)
        },
        XUpdateRange::AllFrom(first) => part_of(size, first, size),
        XUpdateRange::Last(count) => last_of(size, count),
    }
}

/// Which bytes of a file of this size, in bytes, the values of a `Range` ask for: those of its one
/// range, `bytes=A-B`, `bytes=A-` or `bytes=-N`, with the unit in any case of letters and numbers
/// below 2 ^ 64. What is no such range asks for all bytes, as several ranges do, another unit, and
/// ends that are turned round (RFC 9110 sections 14.1 and 14.2).
pub fn extent_of(size: u64, values: &GetAll<'_, HeaderValue>) -> Extent
    ensures { result ≡ spec.extent_of size values.now }
{
    match range_in(values) {
        Some(range) => extent_by(size, range),
        None => Extent::Whole,
    }
}
