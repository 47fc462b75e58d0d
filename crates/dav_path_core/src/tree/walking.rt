//! Walks through a tree along the links of its nodes. They take no memory.
ghost use Rattle.std.specs.Prelude.{◌≡◌, MatchOption};
ghost use Rattle.std.specs.FinMap.{len};
ghost use Rattle.dav_path_core.specs.Keyed.{IsKnown, Under, parent_number};
ghost use Rattle.dav_path_core.specs.TreeValue.{IsTreeValue, after};
ghost use Rattle.dav_path_core.specs.Walking.{WalkGoesOn, IsWalkOver, IsTreeWalk, climbs, following};

use super::{ROOT_ID, Tree, links};
use std::hash::Hash;
use std::marker::Model;

/// The numbers of all nodes of a tree, one after another, each behind its parent. It takes no memory.
#[derive(Debug, Drop)]
pub struct Walk<'a, K: Eq + Hash, D> {
    tree: &'a Tree<K, D>,
    at: Option<u64>,
    // How many are still to come.
    left: usize,
}

impl<'a, K: Eq + Hash, D> Model for Walk<'a, K, D> {
    ghost use Rattle.std.specs.Prelude.{List, ℕ};
    ghost use Rattle.dav_path_core.specs.Walking.{numbers_from};
    ghost use Rattle.dav_path_core.specs.Private.Walked.{IsWalkedTo};

    ghost Value = { List ℕ };

    ghost view = { λ w. numbers_from w.tree.now w.left w.at };

    ghost invariant = { λ w. IsWalkedTo w.tree.now w.at };
}

impl<'a, K: Eq + Hash + Clone, D> Iterator for Walk<'a, K, D> {
    ghost use Rattle.std.specs.Iterator.{YieldsFirst, item_count};

    type Item = u64;

    ghost next_gives = { YieldsFirst (λ w. w) };

    ghost remaining = { item_count (λ w. w) };

    fn next(&mut self) -> Option<u64> {
        if self.left == 0 {
            return None;
        }
        let id = self.at?;
        self.at = self.tree.next_below(ROOT_ID, id);
        self.left -= 1;
        Some(id)
    }
}

impl<K: Eq + Hash + Clone, D> Tree<K, D> {
    /// The numbers of all nodes, each once, and each behind its parent. It takes no memory.
    pub fn walk(&self) -> Walk<'_, K, D>
        ensures { IsTreeWalk self.now.keyed result }
    {
        Walk {
            tree: self,
            at: Some(ROOT_ID),
            left: self.node_count(),
        }
    }

    /// The node after one in the walk of what stands at `top` and below it: first a node, and then what is below it. `None`
    /// behind the last. It takes no memory.
    pub fn next_below(&self, top: u64, id: u64) -> Option<u64>
        requires known { IsKnown self.now.keyed id }
        requires under { Under (parent_number self.now.keyed) top id }
        ensures value { result ≡ following self.now top id }
        ensures step { MatchOption result (IsWalkOver self.now top id) (λ n. WalkGoesOn self.now top id n) }
        ensures shape { IsTreeValue K.eq self.now }
    {
        if let Some(child) = links::first_of(&self.nodes, id) {
            return Some(child);
        }
        self.next_beside(top, id)
    }

    // The next sibling of a node, or of the nearest above it that has one. None from `top` on.
    fn next_beside(&self, top: u64, id: u64) -> Option<u64>
        ensures { result ≡ climbs self.now top (len self.now.keyed.nodes) id }
    {
        let mut at = id;
        // No way up is longer.
        for _turn in 0..self.node_count() {
            if at == top {
                return None;
            }
            if let Some(sibling) = self.after(at) {
                return Some(sibling);
            }
            at = self.above(at)?;
        }
        None
    }

    // The sibling after a node.
    fn after(&self, id: u64) -> Option<u64>
        ensures { result ≡ after self.now id }
    {
        match self.nodes.get(&id) {
            Some(node) => node.next_sibling,
            None => None,
        }
    }
}
