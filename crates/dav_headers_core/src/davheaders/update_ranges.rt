//! `X-Update-Range`.
ghost use Rattle.std.specs.Prelude.{◌≡◌, ◌∷◌, [], Some, IfOk, IfErr, option_map, string_bytes};
ghost use Rattle.std.specs.List.{slice_split};
ghost use Rattle.http_header.specs.FieldValue.{plain_value};
ghost use Rattle.dav_headers_core.specs.HeaderGives.{GivesFirst, exactly};
ghost use Rattle.dav_headers_core.specs.Values.{value_of_text};
ghost use Rattle.dav_headers_core.specs.Numbers.{number};
ghost use Rattle.dav_headers_core.specs.UpdateRanges.{is_hyphen, two, range_between, range_of, range_header, range_text, IsRangeWithin};
ghost use Rattle.dav_headers_core.specs.declared.davheaders.errors.HeaderError.TheVariants as HeaderError;
ghost use Rattle.dav_headers_core.specs.declared.davheaders.update_ranges.XUpdateRange.{XUpdateRange as Range};

use super::HeaderError;
use super::values::{one_text, value_of};
use http_header::HeaderValue;
use std::alloc::{AllocError, Global};

/// Which bytes of a file a request writes over (of SabreDAV's partial updates, in no RFC).
#[derive(Debug, Clone, Copy, PartialEq, Eq)]
pub enum XUpdateRange {
    /// The bytes from the first place to the second.
    FromTo(u64, u64),
    /// The bytes from this place on.
    AllFrom(u64),
    /// The last bytes, this many.
    Last(u64),
    /// No bytes that are there: what is sent is appended.
    Append,
}

fn number_of(text: &str) -> Option<u64>
    ensures { result ≡ number 64 text.now }
{
    text.parse::<u64>().ok()
}

#[tactic(auto, unfolding(crate::specs::UpdateRanges::range_between))]
fn range_between(first: &str, last: &str) -> Option<XUpdateRange>
    ensures { result ≡ range_between first.now last.now }
{
    match (first.is_empty(), last.is_empty()) {
        (true, true) => None,
        (true, false) => Some(XUpdateRange::Last(number_of(last)?)),
        (false, true) => Some(XUpdateRange::AllFrom(number_of(first)?)),
        (false, false) => Some(XUpdateRange::FromTo(number_of(first)?, number_of(last)?)),
    }
}

/// What stands around the one dash.
fn around_dash(range: &str) -> Option<(&str, &str)>
    ensures { option_map (λ ends. (ends.0.now, ends.1.now)) result ≡ two (slice_split is_hyphen range.now) }
{
    let (first, last) = range.split_once('-')?;
    if last.contains('-') {
        None
    } else {
        Some((first, last))
    }
}

fn range_of(text: &str) -> Option<XUpdateRange>
    ensures { result ≡ range_of text.now }
{
    if text == "append" {
        return Some(XUpdateRange::Append);
    }
    let range = text.strip_prefix("bytes=")?;
    let (first, last) = around_dash(range)?;
    range_between(first, last)
}

fn text_of(alloc: Global, range: XUpdateRange) -> Result<String, AllocError>
    ensures text { IfOk result (λ text. string_bytes text ≡ range_text range) }
    ensures within { IsRangeWithin range }
{
    match range {
        XUpdateRange::FromTo(first, last) => format!(in alloc; "bytes={first}-{last}"),
        XUpdateRange::AllFrom(first) => format!(in alloc; "bytes={first}-"),
        XUpdateRange::Last(count) => format!(in alloc; "bytes=-{count}"),
        XUpdateRange::Append => String::from_str(alloc, "append"),
    }
}

impl XUpdateRange {
    /// The range that the one text spells: `append`, or `bytes=` and two texts around one `-`, not both empty and each a
    /// number within u64 where it isn't. Anything else is `Invalid`. It takes no memory.
    pub fn decode(values: &[HeaderValue]) -> Result<XUpdateRange, HeaderError>
        ensures { result ≡ exactly (range_header values.now) }
    {
        one_text(values)
            .and_then(range_of)
            .ok_or(HeaderError::Invalid)
    }

    /// The value `append`, `bytes=A-B`, `bytes=A-` or `bytes=-B`, which is read as the same. `OutOfMemory` alone.
    pub fn encode(&self, alloc: Global) -> Result<HeaderValue, HeaderError>
        ensures value { GivesFirst (λ value. value) result (value_of_text (range_text self.now)) }
        ensures reads_back { IfOk result (λ value. range_header (value ∷ []) ≡ Some self.now) }
        ensures err { IfErr result (λ e. e ≡ HeaderError.OutOfMemory) }
    {
        value_of(text_of(alloc, *self)?)
    }
}

/// The law that every range whose numbers are within u64 is read as it is written.
pub fn ranges_round_trip()
    ensures { (range : Range) → IsRangeWithin range → range_header (plain_value (range_text range) ∷ []) ≡ Some range }
{}
