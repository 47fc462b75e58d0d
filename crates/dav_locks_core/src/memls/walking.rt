//! The locks, one after another.
ghost use Rattle.std.specs.Prelude.{◌≡◌};
ghost use Rattle.dav_locks_core.specs.Private.LockWalking.{AllThere, locks_by};

use super::NodeLocks;
use super::way::lock_at;
use crate::ls::DavLock;
use bytes::Bytes;
use dav_path_core::tree::Tree;
use std::collections::btree_map;
use std::marker::Model;

/// The locks of a `MemLs`, in the order of granting.
#[derive(Debug, Drop)]
pub struct MemLsLocks<'a> {
    tree: &'a Tree<Bytes, NodeLocks>,
    // By grant number, the node at which the lock stands.
    nodes: btree_map::Iter<'a, u64, u64>,
}

impl<'a> Model for MemLsLocks<'a> {
    ghost use Rattle.std.specs.Prelude.{List};
    ghost use Rattle.dav_locks_core.specs.Lock.{Lock};

    ghost Value = { List Lock };

    ghost use Rattle.dav_locks_core.specs.Private.LockWalking.{AllThere, locks_by};

    ghost view = { λ w. locks_by w.tree.now.keyed w.nodes };

    ghost invariant = { λ w. AllThere w.tree.now.keyed w.nodes };
}

impl<'a> MemLsLocks<'a> {
    pub(super) fn new(
        tree: &'a Tree<Bytes, NodeLocks>,
        nodes: btree_map::Iter<'a, u64, u64>,
    ) -> Self
        requires { AllThere tree.now.keyed nodes }
        ensures { result ≡ locks_by tree.now.keyed nodes.entry }
    {
        MemLsLocks { tree, nodes }
    }
}

impl<'a> Iterator for MemLsLocks<'a> {
    ghost use Rattle.std.specs.Iterator.{YieldsFirstRef, item_count};

    type Item = &'a DavLock;

    ghost next_gives = { YieldsFirstRef (λ w. w) };

    ghost remaining = { item_count (λ w. w) };

    fn next(&mut self) -> Option<&'a DavLock> {
        let (number, node) = self.nodes.next()?;
        match lock_at(self.tree, *node, *number) {
            Some(lock) => Some(lock),
            None => unreachable!(),
        }
    }
}
