//! Taking nodes that no lock needs out of the tree of locks.
ghost use Rattle.std.specs.Prelude.{◌≡◌, ◌⊎◌, ◌≢◌, ℕ, [], true, false, Some, None, MatchOption};
ghost use Rattle.dav_path_core.specs.ChildIndex.{Index, IsIndex};
ghost use Rattle.dav_path_core.specs.Keyed.{IsKnown, IsTree, IsCut, parent_number, has_child, without_node, with_item};
ghost use Rattle.dav_locks_core.specs.Private.LockTree.{is_segment};
ghost use Rattle.dav_locks_core.specs.Private.LockTree as spec;
ghost use Rattle.dav_locks_core.specs.Private.Pruning.{AllNeeded, NeededBut, SameLocks, Cleared};

use super::NodeLocks;
use super::subtree::{first_child, parent_of};
use super::way::locks_at;
use bytes::Bytes;
use dav_path_core::child_index::ChildIndex;
use dav_path_core::tree::Tree;

// Takes a node out where no lock needs it, and then those above it.
pub(super) fn prune(tree: &mut Tree<Bytes, NodeLocks>, index: &mut ChildIndex, from: u64)
    requires shape { IsTree is_segment tree.old.keyed }
    requires known { IsKnown tree.old.keyed from }
    requires needed { NeededBut tree.old.keyed from }
    requires indexed { IsIndex tree.old.keyed index.old }
    ensures same { SameLocks tree.old.keyed tree.new.keyed }
    ensures needed { AllNeeded tree.new.keyed }
    ensures indexed { IsIndex tree.new.keyed index.new }
{
    let mut node = from;
    while let Some(parent) = take_out(tree, index, node) {
        node = parent;
    }
}

// Takes out a node that has neither locks nor children, and gives its parent. Any other stays, and so does the root.
fn take_out(tree: &mut Tree<Bytes, NodeLocks>, index: &mut ChildIndex, node: u64) -> Option<u64>
    requires known { IsKnown tree.old.keyed node }
    requires indexed { IsIndex tree.old.keyed index.old }
    ensures taken { MatchOption result
        ((tree.new.keyed ≡ tree.old.keyed)
        × ((node ≡ 1) ⊎ ((spec.locks_at tree.old.keyed node ≢ []) ⊎ (has_child tree.old.keyed node ≡ true))))
        (λ p. (parent_number tree.old.keyed node ≡ Some p) × (spec.locks_at tree.old.keyed node ≡ [])
        × (has_child tree.old.keyed node ≡ false) × (tree.new.keyed ≡ without_node tree.old.keyed node)) }
    ensures indexed { IsIndex tree.new.keyed index.new }
{
    if !locks_at(tree, node).is_empty() {
        return None;
    }
    let Some(parent) = parent_of(tree, node) else {
        return None;
    };
    match index.delete_node(tree, node) {
        Ok(_) => Some(parent),
        Err(_) => None,
    }
}

// Takes out all that stands below a node, and the locks at it.
pub(super) fn clear(tree: &mut Tree<Bytes, NodeLocks>, index: &mut ChildIndex, top: u64)
    requires shape { IsTree is_segment tree.old.keyed }
    requires known { IsKnown tree.old.keyed top }
    requires indexed { IsIndex tree.old.keyed index.old }
    ensures cleared { Cleared tree.old.keyed tree.new.keyed top }
    ensures indexed { IsIndex tree.new.keyed index.new }
{
    while let Some(child) = first_child(tree, top) {
        take_out_below(tree, index, child);
    }
    drop_locks(tree, top);
}

// Takes out a node, which isn't the root, with all below it.
fn take_out_below(tree: &mut Tree<Bytes, NodeLocks>, index: &mut ChildIndex, node: u64)
    requires known { IsKnown tree.old.keyed node }
    requires not_root { node ≢ 1 }
    requires indexed { IsIndex tree.old.keyed index.old }
    ensures shape { IsTree is_segment tree.new.keyed }
    ensures gone { IsCut tree.old.keyed tree.new.keyed node }
    ensures indexed { IsIndex tree.new.keyed index.new }
{
    match index.delete_subtree(tree, node) {
        Ok(()) => {}
        Err(_) => unreachable!(),
    }
}

fn drop_locks(tree: &mut Tree<Bytes, NodeLocks>, node: u64)
    requires { IsKnown tree.old.keyed node }
    ensures set { tree.new.keyed ≡ with_item tree.old.keyed node [] }
    ensures indexed { (ix : Index) → IsIndex tree.old.keyed ix → IsIndex tree.new.keyed ix }
{
    match tree.get_node_mut(node) {
        Ok(node_locks) => node_locks.locks.clear(),
        Err(_) => unreachable!(),
    }
}
