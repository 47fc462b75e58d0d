//! Locks that end by time.
ghost use Rattle.std.specs.Prelude.{◌≡◌, ℕ, T, not, is_some, filter};
ghost use Rattle.std.specs.Ordering.{nat_cmp};
ghost use Rattle.std.specs.FinMap.{find, is_sorted};
ghost use Rattle.dav_path_core.specs.ChildIndex.{Index, IsIndex};
ghost use Rattle.dav_path_core.specs.Keyed.{IsKnown, with_item};
ghost use Rattle.dav_locks_core.specs.Stale.{is_stale, without_stale};
ghost use Rattle.dav_locks_core.specs.Private.LockTree as spec;
ghost use Rattle.dav_locks_core.specs.Private.NotedEnds.{IsNotedTree};
ghost use Rattle.dav_locks_core.specs.Private.Expiring.{Expires};

use super::NodeLocks;
use super::ends::{Ends, take_ended};
use super::pruning::prune;
use super::way::lock_at;
use crate::ls::DavLock;
use bytes::Bytes;
use dav_path_core::child_index::ChildIndex;
use dav_path_core::tree::Tree;
use dav_path_core::util::Moment;

// Ends each lock whose end has come, and takes out the nodes that no other lock needs.
pub(super) fn end_stale(
    tree: &mut Tree<Bytes, NodeLocks>,
    index: &mut ChildIndex,
    ends: &mut Ends,
    now: Moment,
)
    requires kept { (next : ℕ) × IsNotedTree tree.old.keyed next ends.old }
    requires indexed { IsIndex tree.old.keyed index.old }
    ensures expires { Expires tree.old.keyed tree.new.keyed ends.old ends.new now.0 }
    ensures indexed { IsIndex tree.new.keyed index.new }
{
    while let Some((number, node)) = take_ended(ends, now) {
        // The stale locks at a node go together.
        if stands_at(tree, node, number) {
            drop_stale(tree, node, now);
            prune(tree, index, node);
        }
    }
}

// Whether the lock with that number stands at a node.
fn stands_at(tree: &Tree<Bytes, NodeLocks>, node: u64, number: u64) -> bool
    requires { T (is_sorted nat_cmp (spec.locks_at tree.now.keyed node)) }
    ensures { result ≡ is_some (find nat_cmp number (spec.locks_at tree.now.keyed node)) }
{
    lock_at(tree, node, number).is_some()
}

// Ends the locks at a node whose end has come.
fn drop_stale(tree: &mut Tree<Bytes, NodeLocks>, node: u64, now: Moment)
    requires { IsKnown tree.old.keyed node }
    ensures set { tree.new.keyed ≡ with_item tree.old.keyed node
        (filter (λ g. not (is_stale now.0 g.1)) (spec.locks_at tree.old.keyed node)) }
    ensures indexed { (ix : Index) → IsIndex tree.old.keyed ix → IsIndex tree.new.keyed ix }
{
    match tree.get_node_mut(node) {
        Ok(node_locks) => drop_stale_in(&mut node_locks.locks, now),
        Err(_) => unreachable!(),
    }
}

fn drop_stale_in(locks: &mut Vec<(u64, DavLock)>, now: Moment)
    ensures { locks.new.items ≡ filter (λ g. not (is_stale now.0 g.1)) locks.old.items }
{
    locks.retain(|granted| !is_stale(&granted.1, now));
}

// Drops the copies of locks whose end has come.
pub(super) fn drop_stale_copies(locks: &mut Vec<DavLock>, now: Moment)
    ensures { locks.new.items ≡ without_stale now.0 locks.old.items }
{
    locks.retain(|lock| !is_stale(lock, now));
}

// Whether the lock's end has come.
fn is_stale(lock: &DavLock, now: Moment) -> bool
    ensures { result ≡ is_stale now.0 lock.now }
{
    match lock.timeout_at {
        Some(end) => end.0 <= now.0,
        None => false,
    }
}
