//! Conditions of an `If` value, and lists of them.
ghost use Rattle.std.specs.Prelude.{◌≡◌, length};
ghost use Rattle.dav_headers_core.specs.HeaderGives.{Gives, GivesFirst};
ghost use Rattle.dav_headers_core.specs.Pairwise.{pairwise};
ghost use Rattle.dav_headers_core.specs.Private.IfReading as reading;
ghost use Rattle.dav_headers_core.specs.IfValues.{condition_of, conditions_of};
ghost use Rattle.dav_headers_core.specs.IfStrongEq.{condition_strong_eq};

use super::items::{IfItem, item_at};
use super::scan::{behind, behind_not, trim_blanks};
use crate::davheaders::HeaderError;
use std::alloc::{AllocError, Global};

/// An item that a resource is to have, or that it is not to have (RFC 4918 section 10.4.3).
#[derive(Debug, Drop)]
pub struct IfCondition {
    /// Whether it stands after `Not`: the resource is not to have the item.
    pub not: bool,
    /// The item.
    pub item: IfItem,
}

fn condition_at(alloc: Global, bytes: &[u8]) -> Result<(IfCondition, &[u8]), HeaderError>
    ensures { GivesFirst (λ x. (condition_of x.0, x.1.now)) result (reading.condition_at bytes.now) }
{
    let (not, bytes) = match behind_not(bytes) {
        Some(after) => (true, trim_blanks(after)),
        None => (false, bytes),
    };
    let (item, rest) = item_at(alloc, bytes)?;
    Ok((IfCondition { not, item }, rest))
}

/// The conditions up to `)`, and what follows it. Each takes a byte, so there are fewer than bytes.
fn conditions_at(alloc: Global, bytes: &[u8]) -> Result<(Vec<IfCondition>, &[u8]), HeaderError>
    ensures { Gives (λ x. (conditions_of x.0.items, x.1.now)) result
        (reading.conditions_at (length bytes.now) bytes.now) }
{
    let mut conditions = Vec::new(alloc);
    let mut rest = bytes;
    for _ in 0..bytes.len() {
        let at = trim_blanks(rest);
        if let Some(after) = behind(at, b')') {
            return Ok((conditions, after));
        }
        let (condition, after) = condition_at(alloc, at)?;
        conditions.push(condition)?;
        rest = after;
    }
    Err(HeaderError::Invalid)
}

/// The list at the front, and what follows it.
pub(super) fn list_at(alloc: Global, bytes: &[u8]) -> Result<(Vec<IfCondition>, &[u8]), HeaderError>
    ensures { Gives (λ x. (conditions_of x.0.items, x.1.now)) result (reading.list_at bytes.now) }
{
    let Some(inner) = behind(bytes, b'(') else {
        return Err(HeaderError::Invalid);
    };
    let (conditions, rest) = conditions_at(alloc, inner)?;
    if conditions.is_empty() {
        return Err(HeaderError::Invalid);
    }
    Ok((conditions, rest))
}

/// Whether there are as many conditions, each `strong_eq` to the one at its place.
pub(super) fn conditions_strong_eq(conditions: &[IfCondition], others: &[IfCondition]) -> bool
    ensures { result ≡ pairwise condition_strong_eq (conditions_of conditions.now) (conditions_of others.now) }
{
    conditions.len() == others.len()
        && conditions
            .iter()
            .zip(others)
            .all(|(condition, other)| condition.strong_eq(other))
}

impl IfCondition {
    /// Whether both or neither stand after `Not`, and the items are `strong_eq`. It takes no memory.
    pub fn strong_eq(&self, other: &IfCondition) -> bool
        ensures { result ≡ condition_strong_eq (condition_of self.now) (condition_of other.now) }
    {
        self.not == other.not && self.item.strong_eq(&other.item)
    }
}

/// The same condition, or out of memory.
impl Clone for IfCondition {
    ghost use Rattle.dav_headers_core.specs.IfValues.{condition_of};

    ghost is_clone = { λ condition copy. condition_of copy ≡ condition_of condition };

    fn clone(&self) -> Result<IfCondition, AllocError> {
        Ok(IfCondition {
            not: self.not,
            item: self.item.clone()?,
        })
    }
}
