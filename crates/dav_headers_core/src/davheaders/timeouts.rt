//! `Timeout`.
ghost use Rattle.std.specs.Prelude.{◌≡◌, ◌≢◌, List, ◌∷◌, [], Some, None, Err, IfOk, IfErr, All, map, string_bytes};
ghost use Rattle.http_header.specs.FieldValue.{plain_value};
ghost use Rattle.dav_headers_core.specs.HeaderGives.{Gives};
ghost use Rattle.dav_headers_core.specs.Optional.{every};
ghost use Rattle.dav_headers_core.specs.Values.{one_text, value_of_text};
ghost use Rattle.dav_headers_core.specs.Numbers.{number};
ghost use Rattle.dav_headers_core.specs.Timeouts.{timeout_of, timeout_header, timeout_text, timeouts_text, IsTimeoutWithin};
ghost use Rattle.dav_headers_core.specs.declared.davheaders.errors.HeaderError.TheVariants as HeaderError;
ghost use Rattle.dav_headers_core.specs.declared.davheaders.timeouts.DavTimeout.{DavTimeout as Wanted};

use super::HeaderError;
use super::values::{one_text, pieces, value_of};
use http_header::HeaderValue;
use std::alloc::{AllocError, Global};

/// How long a lock is to stand.
#[derive(Debug, Clone, Copy, PartialEq, Eq)]
pub enum DavTimeout {
    /// So many seconds.
    Seconds(u32),
    /// Without an end.
    Infinite,
}

/// The timeouts that a request asks for, the wanted one first (RFC 4918 section 10.7).
#[derive(Debug, Drop)]
pub struct Timeout(pub Vec<DavTimeout>);

fn number_of(text: &str) -> Option<u32>
    ensures { result ≡ number 32 text.now }
{
    text.parse::<u32>().ok()
}

#[tactic(auto, unfolding(crate::specs::Timeouts::timeout_of))]
fn timeout_of(piece: &str) -> Option<DavTimeout>
    ensures { result ≡ timeout_of piece.now }
{
    if piece == "Infinite" {
        return Some(DavTimeout::Infinite);
    }
    let digits = piece.strip_prefix("Second-")?;
    Some(DavTimeout::Seconds(number_of(digits)?))
}

fn timeouts_of(alloc: Global, pieces: &[&str]) -> Result<Vec<DavTimeout>, HeaderError>
    ensures { Gives (λ timeouts. timeouts.items) result (every timeout_of (map (λ piece. piece.now) pieces.now)) }
{
    let mut timeouts = Vec::new(alloc);
    for piece in pieces {
        match timeout_of(piece) {
            Some(timeout) => timeouts.push(timeout)?,
            None => return Err(HeaderError::Invalid),
        }
    }
    Ok(timeouts)
}

fn text_of(alloc: Global, timeout: DavTimeout) -> Result<String, AllocError>
    ensures text { IfOk result (λ text. string_bytes text ≡ timeout_text timeout) }
    ensures within { IsTimeoutWithin timeout }
{
    match timeout {
        DavTimeout::Seconds(count) => format!(in alloc; "Second-{count}"),
        DavTimeout::Infinite => String::from_str(alloc, "Infinite"),
    }
}

fn texts_of(alloc: Global, timeouts: &[DavTimeout]) -> Result<Vec<String>, AllocError>
    ensures texts { IfOk result (λ texts. map string_bytes texts.items ≡ map timeout_text timeouts.now) }
    ensures within { IfOk result (λ _. All IsTimeoutWithin timeouts.now) }
{
    let mut texts = Vec::new(alloc);
    for timeout in timeouts {
        texts.push(text_of(alloc, *timeout)?)?;
    }
    Ok(texts)
}

impl Timeout {
    /// The timeouts of the one text: what stands between its commas, without spaces and tabs at the ends, is `Infinite`, or
    /// `Second-` and a number within u32. Anything else is `Invalid`.
    pub fn decode(alloc: Global, values: &[HeaderValue]) -> Result<Timeout, HeaderError>
        ensures value { Gives (λ timeout. timeout.0.items) result (timeout_header values.now) }
        // Whether there is one text is looked at before memory is taken.
        ensures one_text { one_text values.now ≡ None → result ≡ Err HeaderError.Invalid }
    {
        let text = one_text(values).ok_or(HeaderError::Invalid)?;
        let pieces = pieces(alloc, text)?;
        Ok(Timeout(timeouts_of(alloc, &pieces)?))
    }

    /// The timeouts, joined by `, `: with at least one, the value is read as the same timeouts. `OutOfMemory` alone.
    pub fn encode(&self, alloc: Global) -> Result<HeaderValue, HeaderError>
        ensures value { Gives (λ value. value) result (value_of_text (timeouts_text self.now.0.items)) }
        ensures reads_back { IfOk result (λ value. self.now.0.items ≢ []
            → timeout_header (value ∷ []) ≡ Some self.now.0.items) }
        ensures err { IfErr result (λ e. e ≡ HeaderError.OutOfMemory) }
    {
        let texts = texts_of(alloc, &self.0)?;
        value_of(texts.join(alloc, ", ")?)
    }
}

/// The same timeouts, or out of memory.
impl Clone for Timeout {
    ghost is_clone = { λ timeout copy. copy.0.items ≡ timeout.0.items };

    fn clone(&self) -> Result<Timeout, AllocError> {
        Ok(Timeout(self.0.clone()?))
    }
}

/// The law that timeouts whose numbers are within u32 are read as they are written, where there is at least one.
pub fn timeouts_round_trip()
    ensures { (timeouts : List Wanted) → timeouts ≢ [] → All IsTimeoutWithin timeouts
        → timeout_header (plain_value (timeouts_text timeouts) ∷ []) ≡ Some timeouts }
{}
