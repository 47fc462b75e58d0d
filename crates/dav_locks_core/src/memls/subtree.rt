//! What stands at a node of the tree of locks and below it.
ghost use Rattle.std.specs.Prelude.{◌≡◌, true, MatchOption, OnOk, IfErr};
ghost use Rattle.dav_path_core.specs.Segments.{segments};
ghost use Rattle.dav_path_core.specs.ChildIndex.{IsIndex};
ghost use Rattle.dav_path_core.specs.Keyed.{IsKnown, IsTree, parent_number};
ghost use Rattle.dav_path_core.specs.TreeValue.{IsTreeValue, first};
ghost use Rattle.dav_locks_core.specs.Private.LockTree.{is_segment};
ghost use Rattle.dav_locks_core.specs.Private.SubtreeWalks.{NoneUnder, StandsUnder, NoneBelow, ShowsBelow};

use super::NodeLocks;
use super::holding::LockTest;
use super::way::{copy_at, first_at, lookup_node_ref};
use crate::ls::LockError;
use bytes::Bytes;
use dav_path_core::child_index::ChildIndex;
use dav_path_core::davpath::{DavPath, DavPathRef};
use dav_path_core::tree::Tree;

// The first child of a node.
pub(super) fn first_child(tree: &Tree<Bytes, NodeLocks>, node: u64) -> Option<u64>
    requires { IsKnown tree.now.keyed node }
    ensures child { result ≡ first tree.now node }
    ensures shape { IsTreeValue is_segment tree.now }
{
    match tree.first_child(node) {
        Ok(child) => child,
        Err(_) => unreachable!(),
    }
}

// The parent of a node.
pub(super) fn parent_of(tree: &Tree<Bytes, NodeLocks>, node: u64) -> Option<u64>
    requires { IsKnown tree.now.keyed node }
    ensures parent { result ≡ parent_number tree.now.keyed node }
    ensures shape { IsTreeValue is_segment tree.now }
{
    match tree.parent_of(node) {
        Ok(parent) => parent,
        Err(_) => unreachable!(),
    }
}

// The node, and the place there, of a lock that passes at `top` or below it.
pub(super) fn find_below<T: LockTest>(
    tree: &Tree<Bytes, NodeLocks>,
    top: u64,
    test: &T,
) -> Option<(u64, usize)>
    requires { IsKnown tree.now.keyed top }
    ensures { MatchOption result (NoneUnder (T.test test.now true) tree.now.keyed top)
        (λ f. StandsUnder (T.test test.now true) tree.now.keyed top f) }
{
    let mut node = top;
    // No walk is longer, since it meets each node once.
    for _turn in 0..tree.node_count() {
        if let Some(place) = first_at(tree, node, test, true) {
            return Some((node, place));
        }
        match tree.next_below(top, node) {
            Some(next) => node = next,
            None => return None,
        }
    }
    unreachable!()
}

// Refused where a lock at a path or below it passes the test. The first that is met is shown.
pub(super) fn check_locks_from_path<T: LockTest>(
    tree: &Tree<Bytes, NodeLocks>,
    index: &ChildIndex,
    path: &DavPath,
    test: &T,
) -> Result<(), LockError>
    requires shape { IsTree is_segment tree.now.keyed }
    requires indexed { IsIndex tree.now.keyed index.now }
    ensures free { OnOk result (NoneBelow (T.test test.now true) tree.now.keyed (segments path.now.bytes)) }
    ensures shown { IfErr result (λ e. ShowsBelow (T.test test.now true) tree.now.keyed (segments path.now.bytes) e) }
{
    check_locks_from_path_ref(tree, index, &path.behind_prefix(), test)
}

// The same of a lent path.
pub(super) fn check_locks_from_path_ref<T: LockTest>(
    tree: &Tree<Bytes, NodeLocks>,
    index: &ChildIndex,
    path: &DavPathRef<'_>,
    test: &T,
) -> Result<(), LockError>
    requires shape { IsTree is_segment tree.now.keyed }
    requires indexed { IsIndex tree.now.keyed index.now }
    ensures free { OnOk result (NoneBelow (T.test test.now true) tree.now.keyed (segments path.now)) }
    ensures shown { IfErr result (λ e. ShowsBelow (T.test test.now true) tree.now.keyed (segments path.now) e) }
{
    let Some(top) = lookup_node_ref(tree, index, path) else {
        return Ok(());
    };
    match find_below(tree, top, test) {
        None => Ok(()),
        Some((node, place)) => Err(LockError::Conflict(copy_at(tree, node, place)?)),
    }
}
