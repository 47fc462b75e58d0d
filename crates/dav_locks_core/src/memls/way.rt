//! The way down a path in the tree of locks.
ghost use Rattle.std.specs.Prelude.{◌≡◌, ◌≢◌, ◌⊎◌, ◌<◌, ◌++◌, ◌||◌, ℕ, T, Some, None, length, [], filter, option_map, IfOk, IfErr, OnOk, OnErr, MatchResult, slice_index_or};
ghost use Rattle.std.specs.FinMap.{find, is_sorted};
ghost use Rattle.std.specs.Ordering.{nat_cmp};
ghost use Rattle.dav_path_core.specs.Segments.{segments};
ghost use Rattle.dav_path_core.specs.ChildIndex.{IsIndex};
ghost use Rattle.dav_path_core.specs.Keyed.{IsKnown, IsTree};
ghost use Rattle.dav_locks_core.specs.Private.LockTree.{NumberedLock, child_at, node_below, is_segment, ShowsAt, Grown};
ghost use Rattle.dav_locks_core.specs.Private.LockTree as spec;
ghost use Rattle.dav_locks_core.specs.Private.Pruning.{AllNeeded, NeededBut, SameLocks};

use super::NodeLocks;
use super::holding::LockTest;
use super::pruning::prune;
use crate::ls::{DavLock, LockError};
use bytes::Bytes;
use dav_path_core::child_index::ChildIndex;
use dav_path_core::davpath::{DavPath, DavPathRef};
use dav_path_core::tree::{ROOT_ID, Tree};
use std::alloc::{AllocError, Global};

// The child of a node, by its segment.
pub(super) fn child_of(
    tree: &Tree<Bytes, NodeLocks>,
    index: &ChildIndex,
    node: u64,
    segment: &[u8],
) -> Option<u64>
    requires { IsIndex tree.now.keyed index.now }
    ensures { result ≡ child_at tree.now.keyed node segment.now }
{
    match index.find_child(tree, node, segment) {
        Ok(child) => Some(child),
        Err(_) => None,
    }
}

// The locks that stand at a node.
pub(super) fn locks_at(tree: &Tree<Bytes, NodeLocks>, node: u64) -> &[(u64, DavLock)]
    ensures { result.now ≡ spec.locks_at tree.now.keyed node }
{
    match tree.get_node(node) {
        Ok(node_locks) => &node_locks.locks,
        Err(_) => &[],
    }
}

// The lock with that number at a node.
pub(super) fn lock_at(tree: &Tree<Bytes, NodeLocks>, node: u64, number: u64) -> Option<&DavLock>
    requires { T (is_sorted nat_cmp (spec.locks_at tree.now.keyed node)) }
    ensures { option_map (λ l. l.now) result ≡ find nat_cmp number (spec.locks_at tree.now.keyed node) }
{
    let granted = locks_at(tree, node);
    match granted.binary_search_by_key(&number, |granted| granted.0) {
        Ok(place) => Some(&granted[place].1),
        Err(_) => None,
    }
}

// The place among the locks at a node of the first that passes.
pub(super) fn first_at<T: LockTest>(
    tree: &Tree<Bytes, NodeLocks>,
    node: u64,
    test: &T,
    at_path: bool,
) -> Option<usize>
    ensures { result ≡ spec.first_at (T.test test.now at_path) tree.now.keyed node }
{
    locks_at(tree, node)
        .iter()
        .position(|(_, lock)| test.passes(at_path, lock))
}

// The node at a path.
pub(super) fn lookup_node(
    tree: &Tree<Bytes, NodeLocks>,
    index: &ChildIndex,
    path: &DavPath,
) -> Option<u64>
    requires { IsIndex tree.now.keyed index.now }
    ensures { result ≡ node_below tree.now.keyed 1 (segments path.now.bytes) }
{
    lookup_node_ref(tree, index, &path.behind_prefix())
}

// The node at a lent path.
pub(super) fn lookup_node_ref(
    tree: &Tree<Bytes, NodeLocks>,
    index: &ChildIndex,
    path: &DavPathRef<'_>,
) -> Option<u64>
    requires { IsIndex tree.now.keyed index.now }
    ensures { result ≡ node_below tree.now.keyed 1 (segments path.now) }
{
    let mut node = ROOT_ID;
    for segment in path.segments() {
        match child_of(tree, index, node, segment) {
            Some(child) => node = child,
            None => return None,
        }
    }
    Some(node)
}

// The node, and the place there, of the first lock that passes on the way down to a path.
pub(super) fn lookup_lock<T: LockTest>(
    tree: &Tree<Bytes, NodeLocks>,
    index: &ChildIndex,
    path: &DavPath,
    test: &T,
) -> Option<(u64, usize)>
    requires { IsIndex tree.now.keyed index.now }
    ensures { result ≡ spec.lookup_lock (T.test test.now) tree.now.keyed 1 (segments path.now.bytes) }
{
    lookup_lock_ref(tree, index, &path.behind_prefix(), test)
}

// The same of a lent path.
pub(super) fn lookup_lock_ref<T: LockTest>(
    tree: &Tree<Bytes, NodeLocks>,
    index: &ChildIndex,
    path: &DavPathRef<'_>,
    test: &T,
) -> Option<(u64, usize)>
    requires { IsIndex tree.now.keyed index.now }
    ensures { result ≡ spec.lookup_lock (T.test test.now) tree.now.keyed 1 (segments path.now) }
{
    let mut node = ROOT_ID;
    for segment in path.segments() {
        if let Some(place) = first_at(tree, node, test, false) {
            return Some((node, place));
        }
        match child_of(tree, index, node, segment) {
            Some(child) => node = child,
            None => return None,
        }
    }
    match first_at(tree, node, test, true) {
        Some(place) => Some((node, place)),
        None => None,
    }
}

// A copy of a lock, to show it.
pub(super) fn copy_at(
    tree: &Tree<Bytes, NodeLocks>,
    node: u64,
    place: usize,
) -> Result<DavLock, AllocError>
    requires { place < length (spec.locks_at tree.now.keyed node) }
    ensures { IfOk result (λ copy. (d : NumberedLock) → copy ≡
        (slice_index_or (spec.locks_at tree.now.keyed node) place d).1) }
{
    let granted = &locks_at(tree, node)[place];
    copy_of(&granted.1)
}

fn copy_of(lock: &DavLock) -> Result<DavLock, AllocError>
    ensures { IfOk result (λ copy. copy ≡ lock.now) }
{
    lock.clone()
}

// Refused where a lock on the way down to a path passes the test. The first is shown.
pub(super) fn check_locks_to_path<T: LockTest>(
    tree: &Tree<Bytes, NodeLocks>,
    index: &ChildIndex,
    path: &DavPath,
    test: &T,
) -> Result<(), LockError>
    requires { IsIndex tree.now.keyed index.now }
    ensures free { OnOk result (spec.lookup_lock (T.test test.now) tree.now.keyed 1 (segments path.now.bytes) ≡ None) }
    ensures shown { IfErr result (λ e. ShowsAt tree.now.keyed
        (spec.lookup_lock (T.test test.now) tree.now.keyed 1 (segments path.now.bytes)) e) }
{
    check_locks_to_path_ref(tree, index, &path.behind_prefix(), test)
}

// The same of a lent path.
pub(super) fn check_locks_to_path_ref<T: LockTest>(
    tree: &Tree<Bytes, NodeLocks>,
    index: &ChildIndex,
    path: &DavPathRef<'_>,
    test: &T,
) -> Result<(), LockError>
    requires { IsIndex tree.now.keyed index.now }
    ensures free { OnOk result (spec.lookup_lock (T.test test.now) tree.now.keyed 1 (segments path.now) ≡ None) }
    ensures shown { IfErr result (λ e. ShowsAt tree.now.keyed
        (spec.lookup_lock (T.test test.now) tree.now.keyed 1 (segments path.now)) e) }
{
    match lookup_lock_ref(tree, index, path, test) {
        None => Ok(()),
        Some((node, place)) => Err(LockError::Conflict(copy_at(tree, node, place)?)),
    }
}

// Copies of the locks that cover a path, from the root down.
pub(super) fn covering_locks(
    tree: &Tree<Bytes, NodeLocks>,
    index: &ChildIndex,
    alloc: Global,
    path: &DavPath,
) -> Result<Vec<DavLock>, AllocError>
    requires { IsIndex tree.now.keyed index.now }
    ensures copies { IfOk result (λ v. v.items ≡ spec.covering_down tree.now.keyed 1 (segments path.now.bytes)) }
    ensures refused { OnErr result (spec.covering_down tree.now.keyed 1 (segments path.now.bytes) ≢ []) }
{
    let mut covering = Vec::new(alloc);
    let mut node = ROOT_ID;
    for segment in path.segments() {
        add_copies(&mut covering, locks_at(tree, node), false)?;
        match child_of(tree, index, node, segment) {
            Some(child) => node = child,
            None => return Ok(covering),
        }
    }
    add_copies(&mut covering, locks_at(tree, node), true)?;
    Ok(covering)
}

// Adds copies of the locks at a node to a list, of the deep ones alone where the path goes on.
fn add_copies(
    covering: &mut Vec<DavLock>,
    granted: &[(u64, DavLock)],
    at_path: bool,
) -> Result<(), AllocError>
    ensures added { OnOk result (covering.new.items
        ≡ covering.old.items ++ filter (λ l. at_path || l.deep) (spec.locks_of granted.now)) }
    ensures refused { OnErr result (filter (λ l. at_path || l.deep) (spec.locks_of granted.now) ≢ []) }
{
    for (_, lock) in granted {
        if at_path || lock.deep {
            covering.push(copy_of(lock)?)?;
        }
    }
    Ok(())
}

// The child of a node under a segment, which is added where it isn't there.
fn get_or_create_child(
    tree: &mut Tree<Bytes, NodeLocks>,
    index: &mut ChildIndex,
    alloc: Global,
    node: u64,
    segment: &[u8],
) -> Result<u64, LockError>
    requires shape { IsTree is_segment tree.old.keyed }
    requires known { IsKnown tree.old.keyed node }
    requires indexed { IsIndex tree.old.keyed index.old }
    ensures grown { Grown tree.old.keyed tree.new.keyed }
    ensures shape { IsTree is_segment tree.new.keyed }
    ensures child { IfOk result (λ n. (child_at tree.new.keyed node segment.now ≡ Some n) × IsKnown tree.new.keyed n) }
    ensures alone { IfOk result (λ n. (k : ℕ) → IsKnown tree.new.keyed k → IsKnown tree.old.keyed k ⊎ (k ≡ n)) }
    ensures error { IfErr result (λ e. e ≡ LockError.OutOfMemory) }
    ensures unchanged { OnErr result (tree.new.keyed ≡ tree.old.keyed) }
    ensures indexed { IsIndex tree.new.keyed index.new }
{
    if let Some(child) = child_of(tree, index, node, segment) {
        return Ok(child);
    }
    let key = Bytes::copy_from_slice(alloc, segment)?;
    let node_locks = NodeLocks {
        locks: Vec::new(alloc),
    };
    match index.add_new_child(tree, node, key, node_locks) {
        Ok(child) => Ok(child),
        Err(_) => Err(LockError::OutOfMemory),
    }
}

// The node at a path. The nodes on the way that aren't there are added; refused, they are taken away again.
pub(super) fn get_or_create_path_node(
    tree: &mut Tree<Bytes, NodeLocks>,
    index: &mut ChildIndex,
    alloc: Global,
    path: &DavPath,
) -> Result<u64, LockError>
    requires shape { IsTree is_segment tree.old.keyed }
    requires needed { AllNeeded tree.old.keyed }
    requires indexed { IsIndex tree.old.keyed index.old }
    ensures same { SameLocks tree.old.keyed tree.new.keyed }
    ensures node { IfOk result (λ n. (node_below tree.new.keyed 1 (segments path.now.bytes) ≡ Some n)
        × IsKnown tree.new.keyed n) }
    ensures needed { MatchResult result (λ n. NeededBut tree.new.keyed n) (λ _. AllNeeded tree.new.keyed) }
    ensures error { IfErr result (λ e. e ≡ LockError.OutOfMemory) }
    ensures indexed { IsIndex tree.new.keyed index.new }
{
    let mut node = ROOT_ID;
    for segment in path.segments() {
        match get_or_create_child(tree, index, alloc, node, segment) {
            Ok(child) => node = child,
            Err(error) => {
                prune(tree, index, node);
                return Err(error);
            }
        }
    }
    Ok(node)
}
