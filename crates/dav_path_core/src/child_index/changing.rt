//! Moves over another node, and subtrees that are cut.
ghost use Rattle.std.specs.Prelude.{◌≡◌, ◌≢◌, Some, None, false, nat_eq, IfOk, IfErr, MatchResult};
ghost use Rattle.std.specs.Cmp.Lexicographic.{pointwise};
ghost use Rattle.dav_path_core.specs.ChildIndex.{IsIndex};
ghost use Rattle.dav_path_core.specs.Keyed.{IsCut, IsKnown, Under, without_subtree, cut_refusal, has_child, move_refusal, with_moved, parent_number, without_node};
ghost use Rattle.dav_path_core.specs.TreeValue.{IsTreeValue};

use super::ChildIndex;
use crate::errors::{FsError, FsResult};
use crate::tree::{ROOT_ID, Tree};
use bytes::Bytes;

impl ChildIndex {
    /// As `move_node` of the tree, with no walk in a folder that the index knows; and the index has the child under its new
    /// name alone.
    pub fn move_node<D: Drop>(
        &mut self,
        tree: &mut Tree<Bytes, D>,
        id: u64,
        folder: u64,
        name: Bytes,
        overwrite: bool,
    ) -> FsResult<()>
        requires indexed { IsIndex tree.old.keyed self.old }
        ensures answer { MatchResult result
            (λ _. (move_refusal (pointwise nat_eq) tree.old.keyed id folder name overwrite ≡ None)
            × (tree.new.keyed ≡ with_moved (pointwise nat_eq) tree.old.keyed id folder name))
            (λ e. (move_refusal (pointwise nat_eq) tree.old.keyed id folder name overwrite ≡ Some e)
            × (tree.new ≡ tree.old)) }
        ensures outside { IfOk result (λ _. ¬ Under (parent_number tree.old.keyed) id folder) }
        ensures below { IfErr result (λ e. e ≡ FsError.Forbidden → Under (parent_number tree.old.keyed) id folder) }
        ensures shape { IsTreeValue (pointwise nat_eq) tree.new }
        ensures indexed { IsIndex tree.new.keyed self.new }
    {
        let taken = self.find_child(tree, folder, name.as_slice()).ok();
        match tree.check_move_over(id, folder, &name, taken, overwrite) {
            Err(error) => return Err(error),
            Ok(()) => match taken {
                None => {
                    self.move_below(tree, id, folder, name);
                    return Ok(());
                }
                Some(other) => {
                    if other == id {
                        return Ok(());
                    }
                    match self.delete_node(tree, other) {
                        Ok(_) => {
                            self.move_below(tree, id, folder, name);
                            return Ok(());
                        }
                        Err(_) => unreachable!(),
                    }
                }
            },
        }
    }

    /// As `delete_subtree` of the tree; and the index forgets all that goes. Takes no memory.
    pub fn delete_subtree<D: Drop>(&mut self, tree: &mut Tree<Bytes, D>, id: u64) -> FsResult<()>
        requires indexed { IsIndex tree.old.keyed self.old }
        ensures answer { MatchResult result
            (λ _. (cut_refusal tree.old.keyed id ≡ None) × (tree.new.keyed ≡ without_subtree tree.old.keyed id))
            (λ e. (cut_refusal tree.old.keyed id ≡ Some e) × (tree.new ≡ tree.old)) }
        ensures gone { IfOk result (λ _. IsCut tree.old.keyed tree.new.keyed id) }
        ensures shape { IsTreeValue (pointwise nat_eq) tree.new }
        ensures indexed { IsIndex tree.new.keyed self.new }
    {
        if !tree.is_known(id) {
            return Err(FsError::NotFound);
        }
        if id == ROOT_ID {
            return Err(FsError::Forbidden);
        }
        self.cut_out(tree, id);
        Ok(())
    }

    // Takes a node out with all below it, a node without children at a time.
    fn cut_out<D: Drop>(&mut self, tree: &mut Tree<Bytes, D>, id: u64)
        requires indexed { IsIndex tree.old.keyed self.old }
        requires known { IsKnown tree.old.keyed id }
        requires not_root { id ≢ 1 }
        ensures cut { tree.new.keyed ≡ without_subtree tree.old.keyed id }
        ensures shape { IsTreeValue (pointwise nat_eq) tree.new }
        ensures indexed { IsIndex tree.new.keyed self.new }
    {
        let mut at = id;
        while tree.is_known(id) {
            let leaf = tree.leaf_below(at);
            at = self.drop_leaf(tree, leaf);
        }
    }

    // Takes out a node that has no child, and gives its parent.
    fn drop_leaf<D: Drop>(&mut self, tree: &mut Tree<Bytes, D>, id: u64) -> u64
        requires indexed { IsIndex tree.old.keyed self.old }
        requires known { IsKnown tree.old.keyed id }
        requires not_root { id ≢ 1 }
        requires leaf { has_child tree.old.keyed id ≡ false }
        ensures parent { parent_number tree.old.keyed id ≡ Some result }
        ensures dropped { tree.new.keyed ≡ without_node tree.old.keyed id }
        ensures shape { IsTreeValue (pointwise nat_eq) tree.new }
        ensures indexed { IsIndex tree.new.keyed self.new }
    {
        let Some(parent) = tree.above(id) else {
            unreachable!()
        };
        let Ok(_taken) = self.delete_node(tree, id) else {
            unreachable!()
        };
        parent
    }
}
