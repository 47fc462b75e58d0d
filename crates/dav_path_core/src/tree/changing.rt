//! The calls of a tree that may drop data: a new tree, added children, cut subtrees and moves.
ghost use Rattle.std.specs.Prelude.{◌≡◌, ◌≢◌, ◌<◌, ◌≤◌, ℕ, Some, None, false, IfOk, IfErr, MatchResult};
ghost use Rattle.dav_path_core.specs.StoreAnswers.{AnswersUnlessRefused};
ghost use Rattle.dav_path_core.specs.Keyed.{parent_number, child, lone, entry, add, add_as, add_refusal, without_key, without_node, has_child as has_child_of, move_refusal, with_moved, Under, without_subtree, cut_refusal, IsCut, IsKnown};
ghost use Rattle.dav_path_core.specs.TreeValue.{IsTreeValue};

use super::{Node, ROOT_ID, Tree, links};
use crate::errors::{FsError, FsResult};
use std::alloc::Global;
use std::collections::HashMap;
use std::hash::Hash;

impl<K: Eq + Hash + Clone, D: Drop> Tree<K, D> {
    /// A root alone, with number 1. `InsufficientStorage` where it is out of memory.
    pub fn new(alloc: Global, item: D) -> FsResult<Tree<K, D>>
        ensures answer { AnswersUnlessRefused None result (λ t. t.keyed ≡ lone item) (Unit {0}) }
        ensures shape { IfOk result (IsTreeValue K.eq) }
    {
        let mut nodes = HashMap::new(alloc);
        let root = Node {
            item,
            parent_and_key: None,
            first_child: None,
            next_sibling: None,
            previous_sibling: None,
        };
        match nodes.insert(ROOT_ID, root) {
            Ok(_) => Ok(Tree {
                nodes,
                next: 2,
                alloc,
            }),
            Err(_) => Err(FsError::InsufficientStorage),
        }
    }

    /// Adds a child to a node, under a key, and gives its number, which is the next one.
    ///
    /// `NotFound` for an unknown parent, `Exists` where the key is there and `overwrite` is false,
    /// `InsufficientStorage` where all numbers to 2^64 - 2 are used up and where it is out of memory. With `overwrite`
    /// the whole old subtree goes.
    pub fn add_child(&mut self, parent: u64, key: K, item: D, overwrite: bool) -> FsResult<u64>
        ensures answer { AnswersUnlessRefused (add_refusal K.eq self.old.keyed parent key overwrite) result
            (λ n. (n ≡ self.old.keyed.next)
            × (self.new.keyed ≡ add (without_key K.eq self.old.keyed parent key) parent key item))
            (self.new ≡ self.old) }
        // It is refused for memory or numbers only where nothing else refuses.
        ensures room { IfErr result (λ e. e ≡ FsError.InsufficientStorage
            → add_refusal K.eq self.old.keyed parent key overwrite ≡ None) }
        // With `overwrite`, what goes is exactly the old child and the numbers whose parents lead to it.
        ensures replaced { IfOk result (λ _. (old : ℕ) → child (K.eq key) self.old.keyed parent ≡ Some old
            → IsCut self.old.keyed (without_key K.eq self.old.keyed parent key) old) }
        // No number above 2^64 - 2 is given, so a next number of 2^64 - 1 is always refused.
        ensures number { IfOk result (λ n. n < 18446744073709551615) }
        ensures next { self.new.keyed.next ≤ 18446744073709551615 }
        ensures shape { IsTreeValue K.eq self.new }
    {
        if !self.is_known(parent) {
            return Err(FsError::NotFound);
        }
        let taken = self.get_child(parent, &key).ok();
        if taken.is_some() && !overwrite {
            return Err(FsError::Exists);
        }
        if self.next == u64::MAX {
            return Err(FsError::InsufficientStorage);
        }
        match taken {
            None => return self.add_new(parent, key, item),
            Some(old) => return self.add_over(parent, key, item, old),
        }
    }

    /// Adds a child to a node, under a key that no child of it has, and gives its number, which is the next one. It does not
    /// look for the key, so its time does not grow with the number of children (own).
    ///
    /// `NotFound` for an unknown parent, `InsufficientStorage` where all numbers to 2^64 - 2 are used up and where it is
    /// out of memory.
    pub fn add_new_child(&mut self, parent: u64, key: K, item: D) -> FsResult<u64>
        requires free { child (K.eq key) self.old.keyed parent ≡ None }
        ensures answer { AnswersUnlessRefused (add_refusal K.eq self.old.keyed parent key false) result
            (λ n. (n ≡ self.old.keyed.next) × (self.new.keyed ≡ add self.old.keyed parent key item))
            (self.new ≡ self.old) }
        // It is refused for memory or numbers only where nothing else refuses.
        ensures room { IfErr result (λ e. e ≡ FsError.InsufficientStorage
            → add_refusal K.eq self.old.keyed parent key false ≡ None) }
        // No number above 2^64 - 2 is given, so a next number of 2^64 - 1 is always refused.
        ensures number { IfOk result (λ n. n < 18446744073709551615) }
        ensures next { self.new.keyed.next ≤ 18446744073709551615 }
        // Before the call, and after it.
        ensures shape_before { IsTreeValue K.eq self.old }
        ensures shape { IsTreeValue K.eq self.new }
    {
        if !self.is_known(parent) {
            return Err(FsError::NotFound);
        }
        if self.next == u64::MAX {
            return Err(FsError::InsufficientStorage);
        }
        self.add_new(parent, key, item)
    }

    // Adds a child at a free key.
    fn add_new(&mut self, parent: u64, key: K, item: D) -> FsResult<u64>
        requires known { IsKnown self.old.keyed parent }
        requires free { child (K.eq key) self.old.keyed parent ≡ None }
        requires room { self.old.keyed.next ≢ 18446744073709551615 }
        ensures answer { AnswersUnlessRefused None result
            (λ n. (n ≡ self.old.keyed.next) × (self.new.keyed ≡ add self.old.keyed parent key item))
            (self.new ≡ self.old) }
        ensures shape { IsTreeValue K.eq self.new }
    {
        let id = self.next;
        self.add_as(id, id + 1, parent, key, item)?;
        Ok(id)
    }

    // Adds a child at a free key, under a number that is free, and makes the next number that given.
    pub(super) fn add_as(
        &mut self,
        id: u64,
        next: u64,
        parent: u64,
        key: K,
        item: D,
    ) -> FsResult<()>
        requires known { IsKnown self.old.keyed parent }
        requires free { child (K.eq key) self.old.keyed parent ≡ None }
        requires unused { entry self.old.keyed id ≡ None }
        requires positive { 0 < id }
        requires below_next { id < next }
        requires grows { self.old.keyed.next ≤ next }
        ensures answer { AnswersUnlessRefused None result
            (λ _. self.new.keyed ≡ add_as self.old.keyed id next parent key item)
            (self.new ≡ self.old) }
        ensures shape { IsTreeValue K.eq self.new }
    {
        links::put_new(&mut self.nodes, id, parent, key, item)?;
        self.next = next;
        Ok(())
    }

    // Adds a child instead of another, which hangs below it until it is taken out.
    fn add_over(&mut self, parent: u64, key: K, item: D, old: u64) -> FsResult<u64>
        requires known { IsKnown self.old.keyed parent }
        requires taken { child (K.eq key) self.old.keyed parent ≡ Some old }
        requires room { self.old.keyed.next ≢ 18446744073709551615 }
        ensures answer { AnswersUnlessRefused None result
            (λ n. (n ≡ self.old.keyed.next) × (self.new.keyed ≡ add (without_subtree self.old.keyed old) parent key item))
            (self.new ≡ self.old) }
        ensures shape { IsTreeValue K.eq self.new }
    {
        let new = self.next;
        links::put_new(&mut self.nodes, new, parent, key, item)?;
        self.next = new + 1;
        links::hang(&mut self.nodes, old, parent, new);
        self.cut_out(old);
        Ok(new)
    }

    /// Takes a node out with all below it: exactly the numbers whose parents lead to it. `NotFound` for an unknown
    /// number, `Forbidden` for the root.
    pub fn delete_subtree(&mut self, id: u64) -> FsResult<()>
        ensures answer { MatchResult result
            (λ _. (cut_refusal self.old.keyed id ≡ None) × (self.new.keyed ≡ without_subtree self.old.keyed id))
            (λ e. (cut_refusal self.old.keyed id ≡ Some e) × (self.new ≡ self.old)) }
        ensures gone { IfOk result (λ _. IsCut self.old.keyed self.new.keyed id) }
        ensures shape { IsTreeValue K.eq self.new }
    {
        if !self.is_known(id) {
            return Err(FsError::NotFound);
        }
        if id == ROOT_ID {
            return Err(FsError::Forbidden);
        }
        self.cut_out(id);
        Ok(())
    }

    // Takes a node out with all below it, a node without children at a time.
    fn cut_out(&mut self, id: u64)
        requires known { IsKnown self.old.keyed id }
        requires not_root { id ≢ 1 }
        ensures cut { self.new.keyed ≡ without_subtree self.old.keyed id }
        ensures shape { IsTreeValue K.eq self.new }
    {
        // Shows the tree's shape.
        let _ = &self.nodes;
        let mut at = id;
        while self.is_known(id) {
            let leaf = self.leaf_below(at);
            at = self.drop_leaf(leaf);
        }
    }

    // Takes out a node that has no child, and gives its parent.
    fn drop_leaf(&mut self, id: u64) -> u64
        requires known { IsKnown self.old.keyed id }
        requires not_root { id ≢ 1 }
        requires leaf { has_child_of self.old.keyed id ≡ false }
        ensures parent { parent_number self.old.keyed id ≡ Some result }
        ensures dropped { self.new.keyed ≡ without_node self.old.keyed id }
        ensures shape { IsTreeValue K.eq self.new }
    {
        let Some(parent) = self.above(id) else {
            unreachable!()
        };
        let Ok(_taken) = self.delete_node(id) else {
            unreachable!()
        };
        parent
    }

    /// Moves a node, and with it all below it, below another under a key. With `overwrite` a node without children that
    /// stands there goes. Where the node stands there itself, nothing changes.
    ///
    /// `NotFound` for an unknown number, `Exists` where a node stands there and `overwrite` is false or that node has
    /// children, `Forbidden` for the root and for a new parent in the node's own subtree.
    pub fn move_node(
        &mut self,
        id: u64,
        new_parent: u64,
        new_name: K,
        overwrite: bool,
    ) -> FsResult<()>
        ensures answer { MatchResult result
            (λ _. (move_refusal K.eq self.old.keyed id new_parent new_name overwrite ≡ None)
            × (self.new.keyed ≡ with_moved K.eq self.old.keyed id new_parent new_name))
            (λ e. (move_refusal K.eq self.old.keyed id new_parent new_name overwrite ≡ Some e)
            × (self.new ≡ self.old)) }
        // So a move is allowed only to a parent outside the node's own subtree, and forbidden only to one within it.
        ensures outside { IfOk result (λ _. ¬ Under (parent_number self.old.keyed) id new_parent) }
        ensures below { IfErr result (λ e. e ≡ FsError.Forbidden → Under (parent_number self.old.keyed) id new_parent) }
        ensures stays { child (K.eq new_name) self.old.keyed new_parent ≡ Some id → self.new ≡ self.old }
        ensures shape { IsTreeValue K.eq self.new }
    {
        match self.check_move(id, new_parent, &new_name, overwrite) {
            Err(error) => return Err(error),
            Ok(None) => {
                self.put_below(id, new_parent, new_name);
                return Ok(());
            }
            Ok(Some(other)) => {
                if other == id {
                    return Ok(());
                }
                match self.delete_node(other) {
                    Ok(_) => {
                        self.put_below(id, new_parent, new_name);
                        return Ok(());
                    }
                    Err(_) => unreachable!(),
                }
            }
        }
    }
}
