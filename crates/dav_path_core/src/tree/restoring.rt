//! Nodes that had their numbers already, as a tree that was written down has.
ghost use Rattle.std.specs.Prelude.{◌≡◌, None, IfErr};
ghost use Rattle.dav_path_core.specs.StoreAnswers.{AnswersUnlessRefused};
ghost use Rattle.dav_path_core.specs.Keyed.{child, with_next_at_least, with_restored_node, restore_refusal};
ghost use Rattle.dav_path_core.specs.TreeValue.{IsTreeValue};

use super::Tree;
use crate::errors::{FsError, FsResult};
use std::hash::Hash;

impl<K: Eq + Hash + Clone, D: Drop> Tree<K, D> {
    /// The number that the next new node is given (own).
    pub fn next_number(&self) -> u64
        ensures next { result ≡ self.now.keyed.next }
        ensures shape { IsTreeValue K.eq self.now }
    {
        self.next
    }

    /// Gives no number below that one to a new node any more. Nothing else changes (own).
    pub fn raise_next_number(&mut self, next: u64)
        ensures raised { self.new ≡ record self.old { keyed = with_next_at_least self.old.keyed next } }
        ensures shape { IsTreeValue K.eq self.new }
    {
        self.next = self.next.max(next);
    }

    /// Adds a child to a node, under a key that no child of it has, and under the number that it has already. From then on
    /// new nodes have numbers above that one (own).
    ///
    /// `NotFound` for an unknown parent, `Exists` where another node has that number, `Forbidden` for a number that no node
    /// is given: 0 and 2^64 - 1. Where nothing of that refuses, `InsufficientStorage` where it is out of memory.
    pub fn restore_child(&mut self, parent: u64, key: K, item: D, number: u64) -> FsResult<()>
        requires free { child (K.eq key) self.old.keyed parent ≡ None }
        ensures answer { AnswersUnlessRefused (restore_refusal self.old.keyed parent number) result
            (λ _. self.new.keyed ≡ with_restored_node self.old.keyed parent key item number)
            (self.new ≡ self.old) }
        // It is refused for memory only where nothing else refuses.
        ensures room { IfErr result (λ e. e ≡ FsError.InsufficientStorage
            → restore_refusal self.old.keyed parent number ≡ None) }
        // Before the call, and after it.
        ensures shape_before { IsTreeValue K.eq self.old }
        ensures shape { IsTreeValue K.eq self.new }
    {
        if !self.is_known(parent) {
            return Err(FsError::NotFound);
        }
        if self.is_known(number) {
            return Err(FsError::Exists);
        }
        if number == 0 || number == u64::MAX {
            return Err(FsError::Forbidden);
        }
        let next = self.next.max(number + 1);
        self.add_as(number, next, parent, key, item)
    }
}
