//! A tree of numbered nodes, each with a key among its siblings. What a clause sees of a tree is its keyed tree, a finite map from
//! numbers to parents, keys and data, with each node's first child and next sibling (`TreeValue`).
//! Read `add_child` and `find_child` first; the calls that may drop data stand in the module `changing`.
ghost use Rattle.std.specs.Prelude.{◌≡◌, ◌≢◌, ◌<◌, ◌≤◌, ℕ, IsSome, is_some, Some, None, MatchOption, IfOk, IfErr, OnErr, MatchResult, Bool, true, false};
ghost use Rattle.std.specs.Fn.{FnReturnsAt};
ghost use Rattle.std.specs.Option.{ok_or, option_map};
ghost use Rattle.std.specs.Borrow.{sem};
ghost use Rattle.std.specs.Map.{IsKeyTest};
ghost use Rattle.std.specs.FinMap.{len};
ghost use Rattle.dav_path_core.specs.StoreAnswers.{AnswersUnlessRefused};
ghost use Rattle.dav_path_core.specs.Keyed.{item, parent_number, parent_and_key, IsChild, child, lone, add, add_refusal, without_key, with_item, delete_refusal, without_node, entry, has_child as has_child_of, is_kept as is_kept_in, is_under, move_refusal, with_new_place, with_moved, Under, without_subtree, cut_refusal, IsCut, IsKnown};
ghost use Rattle.dav_path_core.specs.TreeValue.{IsTreeValue, first, after, if_known};

mod changing;
mod links;
mod listing;
mod restoring;
mod walking;

use crate::errors::{FsError, FsResult};
pub use listing::Children;
use std::alloc::Global;
use std::collections::HashMap;
use std::hash::Hash;
use std::marker::Model;
pub use walking::Walk;

/// The number of the root.
pub const ROOT_ID: u64 = 1;

/// A node, with its data.
#[derive(Debug, Drop)]
pub struct Node<K, D> {
    /// The data.
    pub item: D,
    parent_and_key: Option<(u64, K)>,
    first_child: Option<u64>,
    next_sibling: Option<u64>,
    previous_sibling: Option<u64>,
}

/// A tree of nodes. Each has a number, given from 1 upwards and never again, and each but the root is the child of one
/// node under one key.
#[derive(Debug, Drop)]
pub struct Tree<K: Eq + Hash, D> {
    nodes: HashMap<u64, Node<K, D>>,
    next: u64,
    alloc: Global,
}

impl<K: Eq + Hash, D> Model for Tree<K, D> {
    ghost use Rattle.dav_path_core.specs.TreeValue.{TreeValue, tree_value_code};

    ghost Value = { TreeValue K D };

    ghost coded = { tree_value_code K.code D.code };

    ghost use Rattle.dav_path_core.specs.View.{tree_value_of};
    ghost use Rattle.dav_path_core.specs.Private.Nodes.{IsLinked};

    ghost view = { λ a. tree_value_of a.nodes.entries a.next };

    ghost invariant = { λ a. IsLinked K.eq a.nodes.entries a.next };
}

impl<K: Eq + Hash + Clone, D> Tree<K, D> {
    ghost use Rattle.dav_path_core.specs.Lends.{lends_item};

    /// The number of a node's child under a key. `NotFound` where there is none.
    pub fn get_child(&self, parent: u64, key: &K) -> FsResult<u64>
        ensures answer { result ≡ ok_or (child (K.eq key.now) self.now.keyed parent) FsError.NotFound }
        ensures shape { IsTreeValue K.eq self.now }
    {
        self.find_child(parent, |name| key == name)
    }

    /// The number of a child whose key passes the test; where several do, any of them. So a caller can look a key up by
    /// what it compares with, a `Vec<u8>` by a `&[u8]`, without making a key. `NotFound` where no key passes, and for
    /// an unknown number.
    pub fn find_child<F: Fn(&K) -> bool>(&self, parent: u64, same: F) -> FsResult<u64>
        requires { F.IsAlwaysCallable same }
        ensures found { IfOk result (λ n. (k : K)
            × IsChild self.now.keyed parent k n × FnReturnsAt F.Fn same k true) }
        ensures none { OnErr result ((n : ℕ) (k : K)
            → IsChild self.now.keyed parent k n → FnReturnsAt F.Fn same k false) }
        ensures error { IfErr result (λ e. e ≡ FsError.NotFound) }
        ensures shape { IsTreeValue K.eq self.now }
        // Where the test tells one key from all others, it is a look-up.
        ensures by_test { (test : K → Bool) → IsKeyTest K.eq test
            → ((k : K) (b : Bool) → FnReturnsAt F.Fn same k b → b ≡ test k)
            → result ≡ ok_or (child test self.now.keyed parent) FsError.NotFound }
    {
        let Some(top) = self.nodes.get(&parent) else {
            return Err(FsError::NotFound);
        };
        let mut at = top.first_child;
        while let Some(id) = at {
            let (name, after) = self.child_at(id);
            if same(name) {
                return Ok(id);
            }
            at = after;
        }
        Err(FsError::NotFound)
    }

    // The key of a child, and the sibling after it.
    pub(crate) fn child_at(&self, id: u64) -> (&K, Option<u64>)
        requires { IsSome (parent_number self.now.keyed id) }
        ensures key { (p : ℕ) → parent_number self.now.keyed id ≡ Some p → IsChild self.now.keyed p result.0.now id }
        ensures after { result.1 ≡ after self.now id }
    {
        let Some(node) = self.nodes.get(&id) else {
            unreachable!()
        };
        let Some((_above, name)) = &node.parent_and_key else {
            unreachable!()
        };
        (name, node.next_sibling)
    }

    /// How many nodes there are. Takes no memory.
    pub fn node_count(&self) -> usize
        ensures count { result ≡ len self.now.keyed.nodes }
        ensures shape { IsTreeValue K.eq self.now }
    {
        self.nodes.len()
    }

    /// The number of a node's parent, `None` for the root. `NotFound` for an unknown number.
    pub fn parent_of(&self, id: u64) -> FsResult<Option<u64>>
        ensures answer { result ≡ ok_or (if_known self.now id (parent_number self.now.keyed id)) FsError.NotFound }
        ensures root { id ≡ 1 → result ≡ Ok None }
        ensures shape { IsTreeValue K.eq self.now }
    {
        if self.is_known(id) {
            Ok(self.above(id))
        } else {
            Err(FsError::NotFound)
        }
    }

    /// The number of a node's parent and the node's key there. `None` for the root and for an unknown number.
    pub fn place_of(&self, id: u64) -> Option<(u64, &K)>
        ensures { option_map (λ q. (q.0, q.1.now)) result ≡ parent_and_key self.now.keyed id }
    {
        match &self.nodes.get(&id)?.parent_and_key {
            Some((parent, key)) => Some((*parent, key)),
            None => None,
        }
    }

    /// The number of a node's first child, `None` where it has no child. `NotFound` for an unknown number.
    pub fn first_child(&self, id: u64) -> FsResult<Option<u64>>
        ensures answer { result ≡ ok_or (if_known self.now id (first self.now id)) FsError.NotFound }
        ensures shape { IsTreeValue K.eq self.now }
    {
        match self.nodes.get(&id) {
            Some(node) => Ok(node.first_child),
            None => Err(FsError::NotFound),
        }
    }

    /// The number of the sibling after a node, `None` for the last one and for the root. `NotFound` for an unknown
    /// number.
    pub fn next_sibling(&self, id: u64) -> FsResult<Option<u64>>
        ensures answer { result ≡ ok_or (if_known self.now id (after self.now id)) FsError.NotFound }
        ensures root { id ≡ 1 → result ≡ Ok None }
        ensures shape { IsTreeValue K.eq self.now }
    {
        match self.nodes.get(&id) {
            Some(node) => Ok(node.next_sibling),
            None => Err(FsError::NotFound),
        }
    }

    /// The data of a node. `NotFound` for an unknown number.
    pub fn get_node(&self, id: u64) -> FsResult<&D>
        ensures answer { MatchResult result (λ d. item self.now.keyed id ≡ Some d.now)
            (λ e. (e ≡ FsError.NotFound) × (item self.now.keyed id ≡ None)) }
        ensures shape { IsTreeValue K.eq self.now }
    {
        match self.nodes.get(&id) {
            Some(node) => Ok(&node.item),
            None => Err(FsError::NotFound),
        }
    }

    /// The data of a node, to be written. `NotFound` for an unknown number.
    pub fn get_node_mut(&mut self, id: u64) -> FsResult<&mut D>
        ensures* writes_back { sem 𝓛 (lends_item K.row D.row K.Hash self.entry id result) }
        ensures value { MatchResult result (λ d. item self.old.keyed id ≡ Some d.now)
            (λ e. (e ≡ FsError.NotFound) × (item self.old.keyed id ≡ None)) }
        // Before the call, and whatever is written through the answer.
        ensures shape { IsTreeValue K.eq self.old }
        ensures shape_after { (d : D) → IsTreeValue K.eq (record self.old { keyed = with_item self.old.keyed id d }) }
    {
        match self.nodes.get_mut(&id) {
            Some(node) => Ok(&mut node.item),
            None => Err(FsError::NotFound),
        }
    }

    /// Takes a node out that has no child, and gives it. `NotFound` for an unknown number, `Forbidden` for the root and
    /// for a node with children.
    pub fn delete_node(&mut self, id: u64) -> FsResult<Node<K, D>>
        ensures answer { MatchResult result
            (λ x. (delete_refusal self.old.keyed id ≡ None) × (item self.old.keyed id ≡ Some x.item)
            × (self.new.keyed ≡ without_node self.old.keyed id))
            (λ e. (delete_refusal self.old.keyed id ≡ Some e) × (self.new ≡ self.old)) }
        ensures shape { IsTreeValue K.eq self.new }
    {
        let Some(node) = self.nodes.get(&id) else {
            return Err(FsError::NotFound);
        };
        let Some((above, _name)) = &node.parent_and_key else {
            return Err(FsError::Forbidden);
        };
        if node.first_child.is_some() {
            return Err(FsError::Forbidden);
        }
        let (parent, before, after) = (*above, node.previous_sibling, node.next_sibling);
        links::close_up(&mut self.nodes, parent, before, after);
        let Some(taken) = self.nodes.remove(&id) else {
            unreachable!()
        };
        Ok(taken)
    }

    pub(crate) fn is_known(&self, id: u64) -> bool
        ensures known { result ≡ is_some (entry self.now.keyed id) }
        ensures shape { IsTreeValue K.eq self.now }
    {
        self.nodes.contains_key(&id)
    }

    fn has_child(&self, id: u64) -> bool
        ensures { result ≡ has_child_of self.now.keyed id }
    {
        self.first_below(id).is_some()
    }

    // Whether what stands at a place may not be replaced.
    fn is_kept(&self, overwrite: bool, taken: Option<u64>) -> bool
        ensures { result ≡ is_kept_in self.now.keyed overwrite taken }
    {
        match taken {
            Some(other) => !overwrite || self.has_child(other),
            None => false,
        }
    }

    // Whether `from` is `id` or lies below it.
    fn is_below(&self, id: u64, from: u64) -> bool
        requires { IsKnown self.now.keyed from }
        ensures { result ≡ is_under self.now.keyed id from }
    {
        let mut at = from;
        // No way is longer.
        for _turn in 0..self.next {
            if at == id {
                return true;
            }
            match self.above(at) {
                Some(parent) => at = parent,
                None => return false,
            }
        }
        unreachable!()
    }

    pub(crate) fn above(&self, id: u64) -> Option<u64>
        ensures parent { result ≡ parent_number self.now.keyed id }
        ensures shape { IsTreeValue K.eq self.now }
    {
        match self.nodes.get(&id) {
            Some(node) => match &node.parent_and_key {
                Some((parent, _name)) => Some(*parent),
                None => None,
            },
            None => None,
        }
    }

    // The number that stands where a node is to be moved, or why it can't be moved there.
    fn check_move(
        &self,
        id: u64,
        new_parent: u64,
        new_name: &K,
        overwrite: bool,
    ) -> FsResult<Option<u64>>
        ensures answer { MatchResult result
            (λ o. (move_refusal K.eq self.now.keyed id new_parent new_name.now overwrite ≡ None)
            × (o ≡ child (K.eq new_name.now) self.now.keyed new_parent))
            (λ e. move_refusal K.eq self.now.keyed id new_parent new_name.now overwrite ≡ Some e) }
        ensures shape { IsTreeValue K.eq self.now }
    {
        let taken = self.get_child(new_parent, new_name).ok();
        self.check_move_over(id, new_parent, new_name, taken, overwrite)?;
        Ok(taken)
    }

    // Why a node can't be moved to a place where that node stands, if one does.
    pub(crate) fn check_move_over(
        &self,
        id: u64,
        new_parent: u64,
        new_name: &K,
        taken: Option<u64>,
        overwrite: bool,
    ) -> FsResult<()>
        requires taken { taken ≡ child (K.eq new_name.now) self.now.keyed new_parent }
        ensures answer { MatchResult result
            (λ _. move_refusal K.eq self.now.keyed id new_parent new_name.now overwrite ≡ None)
            (λ e. move_refusal K.eq self.now.keyed id new_parent new_name.now overwrite ≡ Some e) }
        ensures shape { IsTreeValue K.eq self.now }
    {
        if !self.is_known(id) {
            return Err(FsError::NotFound);
        }
        if !self.is_known(new_parent) {
            return Err(FsError::NotFound);
        }
        if self.is_kept(overwrite, taken) {
            return Err(FsError::Exists);
        }
        if id == ROOT_ID {
            return Err(FsError::Forbidden);
        }
        if self.is_below(id, new_parent) {
            return Err(FsError::Forbidden);
        }
        Ok(())
    }

    // The parent and the key of a node that may be deleted.
    pub(crate) fn leaf_at(&self, id: u64) -> FsResult<(u64, &K)>
        ensures answer { MatchResult result
            (λ q. (delete_refusal self.now.keyed id ≡ None) × IsChild self.now.keyed q.0 q.1.now id)
            (λ e. delete_refusal self.now.keyed id ≡ Some e) }
        ensures shape { IsTreeValue K.eq self.now }
    {
        let Some(parent) = self.parent_of(id)? else {
            return Err(FsError::Forbidden);
        };
        if self.has_child(id) {
            return Err(FsError::Forbidden);
        }
        let (key, _after) = self.child_at(id);
        Ok((parent, key))
    }

    /// Moves a node, and with it all below it, below another under a key that no child there has. It does not look for the
    /// key, so its time does not grow with the number of children (own).
    ///
    /// `NotFound` for an unknown number, `Forbidden` for the root and for a new parent in the node's own subtree.
    pub fn move_to_free(&mut self, id: u64, new_parent: u64, new_name: K) -> FsResult<()>
        requires free { child (K.eq new_name) self.old.keyed new_parent ≡ None }
        ensures answer { MatchResult result
            (λ _. (move_refusal K.eq self.old.keyed id new_parent new_name false ≡ None)
            × (self.new.keyed ≡ with_new_place self.old.keyed id new_parent new_name))
            (λ e. (move_refusal K.eq self.old.keyed id new_parent new_name false ≡ Some e)
            × (self.new ≡ self.old)) }
        ensures shape { IsTreeValue K.eq self.new }
    {
        self.check_move_over(id, new_parent, &new_name, None, false)?;
        self.put_below(id, new_parent, new_name);
        Ok(())
    }

    // Puts a node below another, under a key that is free there.
    pub(crate) fn put_below(&mut self, id: u64, new_parent: u64, new_name: K)
        requires known { IsKnown self.old.keyed id }
        requires known_parent { IsKnown self.old.keyed new_parent }
        requires not_root { id ≢ 1 }
        requires outside { is_under self.old.keyed id new_parent ≡ false }
        requires free { child (K.eq new_name) self.old.keyed new_parent ≡ None }
        ensures placed { self.new.keyed ≡ with_new_place self.old.keyed id new_parent new_name }
        ensures shape { IsTreeValue K.eq self.new }
    {
        let Some(node) = self.nodes.get(&id) else {
            unreachable!()
        };
        let Some((above, _name)) = &node.parent_and_key else {
            unreachable!()
        };
        let (parent, before, after) = (*above, node.previous_sibling, node.next_sibling);
        links::close_up(&mut self.nodes, parent, before, after);
        let first = links::first_of(&self.nodes, new_parent);
        links::set_parent_and_key(&mut self.nodes, id, new_parent, new_name, first);
        links::put_before(&mut self.nodes, new_parent, id, first);
    }

    // The first child of a node, if it has a child.
    fn first_below(&self, id: u64) -> Option<u64>
        ensures { MatchOption result (has_child_of self.now.keyed id ≡ false)
            (λ n. parent_number self.now.keyed n ≡ Some id) }
    {
        match self.nodes.get(&id) {
            Some(node) => node.first_child,
            None => None,
        }
    }

    // A node without children, at or below a node.
    pub(crate) fn leaf_below(&self, id: u64) -> u64
        requires { IsKnown self.now.keyed id }
        ensures known { IsKnown self.now.keyed result }
        ensures under { Under (parent_number self.now.keyed) id result }
        ensures leaf { has_child_of self.now.keyed result ≡ false }
    {
        let mut at = id;
        // No way is longer.
        for _turn in 0..self.next {
            match self.first_below(at) {
                Some(child) => at = child,
                None => return at,
            }
        }
        unreachable!()
    }
}
