//! Where locks stand, by their grant numbers, and when they end.
ghost use Rattle.std.specs.Prelude.{◌≡◌, ◌<◌, ℕ, T, Option, Some, None, option_map, IfSome, IfNone, length, OnOk, OnErr, MatchOption};
ghost use Rattle.std.specs.BTreeMap.{btree_map_len};
ghost use Rattle.std.specs.FinMap.{is_sorted};
ghost use Rattle.std.specs.Ordering.{nat_cmp};
ghost use Rattle.dav_path_core.specs.Keyed.{IsKnown, Under, parent_number};
ghost use Rattle.dav_locks_core.specs.Private.LockTree.{locks_at};
ghost use Rattle.dav_locks_core.specs.Private.NotedEnds.{AreEndsNoted, ForgetsEnds, ForgetsFirst, IsKeyOf, NoneEnds, Notes, NotesEnd, Renotes, SameEnds, TakesEnded, noted_node, same_end};

use super::NodeLocks;
use super::way::locks_at;
use crate::ls::DavLock;
use bytes::Bytes;
use dav_path_core::tree::Tree;
use dav_path_core::util::Moment;
use std::alloc::{AllocError, Global};
use std::collections::BTreeMap;

/// Where the locks stand, and when they end.
#[derive(Debug, Drop)]
pub(super) struct Ends {
    // The node at which a lock stands, by its grant number.
    pub(super) nodes: BTreeMap<u64, u64>,
    // The same of the locks that end, by end and grant number: in the order of their ends.
    pub(super) by_end: BTreeMap<(u64, u64), u64>,
}

impl Ends {
    pub(super) fn new(alloc: Global) -> Ends
        ensures { (k : Option ℕ) (g : ℕ) → noted_node result k g ≡ None }
    {
        Ends {
            nodes: BTreeMap::new(alloc),
            by_end: BTreeMap::new(alloc),
        }
    }
}

// Notes at which node a lock stands, and when it ends, if it does.
pub(super) fn note(
    ends: &mut Ends,
    end: Option<Moment>,
    number: u64,
    node: u64,
) -> Result<(), AllocError>
    requires { (k : Option ℕ) (n : ℕ) → noted_node ends.old k number ≡ Some n → ⊥ }
    ensures noted { OnOk result (Notes ends.old ends.new (option_map (λ m. m.0) end) number (Some node)) }
    ensures left { OnErr result (SameEnds ends.old ends.new) }
{
    note_end(ends, end, number, node)?;
    if let Err(error) = ends.nodes.insert(number, node) {
        forget_end(ends, end, number);
        return Err(AllocError::from(error));
    }
    Ok(())
}

// Notes when a lock ends, if it does.
fn note_end(ends: &mut Ends, end: Option<Moment>, number: u64, node: u64) -> Result<(), AllocError>
    ensures noted { OnOk result (NotesEnd ends.old ends.new (option_map (λ m. m.0) end) number (Some node)) }
    ensures left { OnErr result (SameEnds ends.old ends.new) }
{
    if let Some(end) = end {
        ends.by_end.insert((end.0, number), node)?;
    }
    Ok(())
}

// Forgets a lock, and when it ends.
pub(super) fn forget(ends: &mut Ends, end: Option<Moment>, number: u64)
    ensures { Notes ends.old ends.new (option_map (λ m. m.0) end) number None }
{
    forget_end(ends, end, number);
    let _node = ends.nodes.remove(&number);
}

// Forgets when a lock ends.
fn forget_end(ends: &mut Ends, end: Option<Moment>, number: u64)
    ensures { NotesEnd ends.old ends.new (option_map (λ m. m.0) end) number None }
{
    if let Some(end) = end {
        let _node = ends.by_end.remove(&(end.0, number));
    }
}

// Notes another end of a lock, or the same, in place of the one that it had.
pub(super) fn renote(
    ends: &mut Ends,
    was: Option<Moment>,
    end: Option<Moment>,
    number: u64,
    node: u64,
) -> Result<(), AllocError>
    requires stands { noted_node ends.old None number ≡ Some node }
    requires only { (k : Option ℕ) (n : ℕ) → noted_node ends.old k number ≡ Some n
        → IsKeyOf (option_map (λ m. m.0) was) k }
    ensures noted { OnOk result (Renotes ends.old ends.new number (IsKeyOf (option_map (λ m. m.0) end)) node) }
    ensures left { OnErr result (SameEnds ends.old ends.new) }
{
    note_end(ends, end, number, node)?;
    if !same_end(was, end) {
        forget_end(ends, was, number);
    }
    Ok(())
}

// Whether both are ends at one moment.
fn same_end(was: Option<Moment>, end: Option<Moment>) -> bool
    ensures { result ≡ same_end (option_map (λ m. m.0) was) (option_map (λ m. m.0) end) }
{
    match (was, end) {
        (Some(was), Some(end)) => was.0 == end.0,
        _ => false,
    }
}

// Forgets the first lock whose end has come, and gives its number and its node.
pub(super) fn take_ended(ends: &mut Ends, now: Moment) -> Option<(u64, u64)>
    ensures taken { MatchOption result (NoneEnds ends.new now.0) (λ r. TakesEnded ends.old ends.new now.0 r.0 r.1) }
    ensures left { IfNone result (SameEnds ends.old ends.new) }
    ensures fewer { IfSome result (λ _. btree_map_len ends.new.by_end < btree_map_len ends.old.by_end) }
{
    match ends.by_end.first_key_value() {
        Some((key, _)) if key.0 <= now.0 => {}
        _ => return None,
    }
    match ends.by_end.pop_first() {
        Some((key, node)) => {
            let _node = ends.nodes.remove(&key.1);
            Some((key.1, node))
        }
        None => None,
    }
}

// Forgets the locks at a node and below it.
pub(super) fn forget_below(tree: &Tree<Bytes, NodeLocks>, ends: &mut Ends, top: u64)
    requires known { IsKnown tree.now.keyed top }
    requires ends { AreEndsNoted tree.now.keyed ends.old }
    requires in_order { (n : ℕ) → T (is_sorted nat_cmp (locks_at tree.now.keyed n)) }
    ensures { ForgetsEnds tree.now.keyed ends.old ends.new (Under (parent_number tree.now.keyed) top) }
{
    let mut node = top;
    // No walk is longer, since it meets each node once.
    for _turn in 0..tree.node_count() {
        forget_all(locks_at(tree, node), ends);
        match tree.next_below(top, node) {
            Some(next) => node = next,
            None => return,
        }
    }
    unreachable!()
}

// Forgets these locks.
fn forget_all(locks: &[(u64, DavLock)], ends: &mut Ends)
    ensures { ForgetsFirst locks.now (length locks.now) ends.old ends.new }
{
    for (number, lock) in locks {
        forget(ends, lock.timeout_at, *number);
    }
}
