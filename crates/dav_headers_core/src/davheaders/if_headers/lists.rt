//! Lists of conditions with the resource tags before them.
ghost use Rattle.std.specs.Prelude.{◌≡◌, length, map, suc};
ghost use Rattle.dav_headers_core.specs.HeaderGives.{Gives};
ghost use Rattle.dav_headers_core.specs.Pairwise.{pairwise};
ghost use Rattle.dav_headers_core.specs.Private.IfReading as reading;
ghost use Rattle.dav_headers_core.specs.IfValues.{located_list};
ghost use Rattle.dav_headers_core.specs.IfStrongEq.{list_strong_eq};
ghost use Rattle.dav_headers_core.specs.Urls.{url_of};

use super::conditions::{IfCondition, conditions_strong_eq, list_at};
use super::scan::{behind, text_at, trim_blanks};
use crate::davheaders::HeaderError;
use crate::davheaders::urls::url_of;
use std::alloc::{AllocError, Global};
use url::Url;

/// Conditions that are all to hold of one resource (RFC 4918 section 10.4.2).
#[derive(Debug, Drop)]
pub struct IfList {
    /// The resource, where the list names one; else the one that the request is for.
    pub resource_tag: Option<Url>,
    /// One or more conditions, in order.
    pub conditions: Vec<IfCondition>,
}

#[tactic(auto, unfolding(crate::specs::Private::IfReading::group_at))]
fn located_at(alloc: Global, bytes: &[u8]) -> Result<(IfList, &[u8]), HeaderError>
    ensures { Gives (λ x. (located_list x.0, x.1.now)) result (reading.group_at url_of bytes.now) }
{
    let (resource_tag, rest) = match behind(bytes, b'<') {
        Some(after) => {
            let (text, rest) = text_at(after, b'>').ok_or(HeaderError::Invalid)?;
            (Some(url_of(alloc, text)?), rest)
        }
        None => (None, bytes),
    };
    let (conditions, rest) = list_at(alloc, trim_blanks(rest))?;
    Ok((
        IfList {
            resource_tag,
            conditions,
        },
        rest,
    ))
}

/// All lists of the bytes. Each takes a byte, so there are no more than bytes.
pub(super) fn lists_at(alloc: Global, bytes: &[u8]) -> Result<Vec<IfList>, HeaderError>
    ensures { Gives (λ lists. map located_list lists.items) result
        (reading.groups_at url_of (suc (length bytes.now)) bytes.now) }
{
    let mut lists = Vec::new(alloc);
    let mut rest = bytes;
    for _ in 0..bytes.len() + 1 {
        let at = trim_blanks(rest);
        if at.is_empty() {
            return Ok(lists);
        }
        let (list, after) = located_at(alloc, at)?;
        lists.push(list)?;
        rest = after;
    }
    Err(HeaderError::Invalid)
}

/// Whether there are as many lists, each `strong_eq` to the one at its place.
pub(super) fn lists_strong_eq(lists: &[IfList], others: &[IfList]) -> bool
    ensures { result ≡ pairwise list_strong_eq (map located_list lists.now) (map located_list others.now) }
{
    lists.len() == others.len()
        && lists
            .iter()
            .zip(others)
            .all(|(list, other)| list.strong_eq(other))
}

impl IfList {
    /// Whether the resource tags are equal URLs or both missing, and there are as many conditions, each `strong_eq` to the one
    /// at its place. It takes no memory.
    pub fn strong_eq(&self, other: &IfList) -> bool
        ensures { result ≡ list_strong_eq (located_list self.now) (located_list other.now) }
    {
        self.resource_tag == other.resource_tag
            && conditions_strong_eq(&self.conditions, &other.conditions)
    }
}

/// The same list, or out of memory.
impl Clone for IfList {
    ghost use Rattle.dav_headers_core.specs.IfValues.{located_list};

    ghost is_clone = { λ list copy. located_list copy ≡ located_list list };

    fn clone(&self) -> Result<IfList, AllocError> {
        Ok(IfList {
            resource_tag: self.resource_tag.clone()?,
            conditions: self.conditions.clone()?,
        })
    }
}
