//! The place at which a lock comes to stand.
ghost use Rattle.std.specs.Prelude.{◌≡◌, ◌<◌, ℕ, Option, Some, None, option_map, IfOk, IfErr, OnOk, OnErr};
ghost use Rattle.dav_path_core.specs.Segments.{segments};
ghost use Rattle.dav_path_core.specs.ChildIndex.{IsIndex};
ghost use Rattle.dav_path_core.specs.Keyed.{IsKnown, IsTree};
ghost use Rattle.dav_locks_core.specs.Private.NotedEnds.{Notes, noted_node};
ghost use Rattle.dav_locks_core.specs.Private.LockTree.{is_segment};
ghost use Rattle.dav_locks_core.specs.Private.LockPlaces.{IsPlace, IsPruned};
ghost use Rattle.dav_locks_core.specs.Private.Pruning.{AllNeeded, NeededBut, SameLocks};

use super::NodeLocks;
use super::ends::{Ends, forget, note};
use super::pruning::prune;
use super::way::get_or_create_path_node;
use crate::ls::LockError;
use bytes::Bytes;
use dav_path_core::child_index::ChildIndex;
use dav_path_core::davpath::DavPath;
use dav_path_core::tree::Tree;
use dav_path_core::util::Moment;
use std::alloc::Global;

// The node at a path, where the lock with that number is to stand: its end is noted. `OutOfMemory` also where all grant
// numbers are used up; refused, it changes nothing.
pub(super) fn open_place(
    tree: &mut Tree<Bytes, NodeLocks>,
    index: &mut ChildIndex,
    ends: &mut Ends,
    alloc: Global,
    path: &DavPath,
    end: Option<Moment>,
    number: u64,
) -> Result<u64, LockError>
    requires shape { IsTree is_segment tree.old.keyed }
    requires needed { AllNeeded tree.old.keyed }
    requires indexed { IsIndex tree.old.keyed index.old }
    requires fresh { (k : Option ℕ) (n : ℕ) → noted_node ends.old k number ≡ Some n → ⊥ }
    ensures open { IfOk result (λ n. IsPlace tree.old.keyed tree.new.keyed ends.old ends.new
        (segments path.now.bytes) (option_map (λ m. m.0) end) number n) }
    ensures number { OnOk result (number < 18446744073709551615) }
    ensures left { OnErr result (IsPruned tree.old.keyed tree.new.keyed ends.old ends.new) }
    ensures error { IfErr result (λ e. e ≡ LockError.OutOfMemory) }
    ensures indexed { IsIndex tree.new.keyed index.new }
{
    if number == u64::MAX {
        return Err(LockError::OutOfMemory);
    }
    let node = get_or_create_path_node(tree, index, alloc, path)?;
    if let Err(error) = note(ends, end, number, node) {
        prune(tree, index, node);
        return Err(LockError::from(error));
    }
    Ok(node)
}

// Gives up the place of a lock that doesn't come to stand there.
pub(super) fn give_up_place(
    tree: &mut Tree<Bytes, NodeLocks>,
    index: &mut ChildIndex,
    ends: &mut Ends,
    node: u64,
    end: Option<Moment>,
    number: u64,
)
    requires shape { IsTree is_segment tree.old.keyed }
    requires known { IsKnown tree.old.keyed node }
    requires needed { NeededBut tree.old.keyed node }
    requires indexed { IsIndex tree.old.keyed index.old }
    ensures same { SameLocks tree.old.keyed tree.new.keyed }
    ensures needed { AllNeeded tree.new.keyed }
    ensures forgotten { Notes ends.old ends.new (option_map (λ m. m.0) end) number None }
    ensures indexed { IsIndex tree.new.keyed index.new }
{
    forget(ends, end, number);
    prune(tree, index, node);
}
