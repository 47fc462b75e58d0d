//! The children of a node, with their keys.
ghost use Rattle.std.specs.Prelude.{◌≡◌, None, true, IfOk, IfErr};
ghost use Rattle.dav_path_core.specs.Keyed.{entry, IsKnown};
ghost use Rattle.dav_path_core.specs.TreeValue.{IsTreeValue};
ghost use Rattle.dav_path_core.specs.Children.{ListsChildren};

use super::Tree;
use crate::errors::{FsError, FsResult};
use std::hash::Hash;
use std::marker::Model;

/// The children of a node, one after another: of each a key equal to its own, and its number.
#[derive(Debug, Drop)]
pub struct Children<K> {
    pairs: std::vec::IntoIter<(K, u64)>,
}

impl<K> Model for Children<K> {
    ghost use Rattle.std.specs.Prelude.{List, ℕ};
    ghost use Rattle.std.specs.Vec.Iter.{into_iter_items};

    ghost Value = { List (K × ℕ) };

    ghost view = { λ c. into_iter_items c.pairs };
}

impl<K: Drop> Iterator for Children<K> {
    ghost use Rattle.std.specs.Iterator.{YieldsFirst, item_count};

    type Item = (K, u64);

    ghost next_gives = { YieldsFirst (λ c. c) };

    ghost remaining = { item_count (λ c. c) };

    fn next(&mut self) -> Option<(K, u64)> {
        self.pairs.next()
    }
}

impl<K: Eq + Hash + Clone, D> Tree<K, D> {
    /// The children of a node, each once, in an open order, with clones of their keys. A clone has to equal its key.
    ///
    /// `NotFound` for an unknown number, and else `InsufficientStorage` where it is out of memory.
    pub fn get_children(&self, parent: u64) -> FsResult<Children<K>>
        requires clones_equal { (k l : K) → K.is_clone k l → K.eq k l ≡ true }
        ensures children { IfOk result (ListsChildren K.eq self.now parent) }
        ensures unknown { entry self.now.keyed parent ≡ None → result ≡ Err FsError.NotFound }
        ensures known { IsKnown self.now.keyed parent → IfErr result (λ e. e ≡ FsError.InsufficientStorage) }
        ensures shape { IsTreeValue K.eq self.now }
    {
        let Some(top) = self.nodes.get(&parent) else {
            return Err(FsError::NotFound);
        };
        let mut pairs = Vec::new(self.alloc);
        let mut at = top.first_child;
        while let Some(id) = at {
            let (name, after) = self.child_at(id);
            pairs.push((name.clone()?, id))?;
            at = after;
        }
        Ok(Children {
            pairs: pairs.into_iter(),
        })
    }
}
