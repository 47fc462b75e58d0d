//! The children of wide folders by their names, beside a tree of names, so that a name is found in one of them without a walk
//! (own). A folder that the index does not know is walked. Read `find_child` and `add_new_child` first.
ghost use Rattle.std.specs.Prelude.{◌≡◌, ◌≢◌, ◌⊎◌, true, false, Option, Some, None, ℕ, nat_eq, IsSome, IfErr, IfSome, MatchResult};
ghost use Rattle.std.specs.Option.{ok_or};
ghost use Rattle.std.specs.Cmp.Lexicographic.{pointwise};
ghost use Rattle.std.specs.FinMap.{empty, get, insert, remove};
ghost use Rattle.dav_path_core.specs.StoreAnswers.{AnswersUnlessRefused};
ghost use Rattle.dav_path_core.specs.ChildIndex.{IsIndex, index_answer, is_key_named, with_noted, without_noted};
ghost use Rattle.dav_path_core.specs.Fronts.{Segment};
ghost use Rattle.dav_path_core.specs.Keyed.{IsChild, IsKnown, item, parent_number, child, is_under, add, add_refusal, with_restored_node, restore_refusal, delete_refusal, without_node, move_refusal, with_new_place};
ghost use Rattle.dav_path_core.specs.TreeValue.{IsTreeValue};
ghost use Rattle.dav_path_core.specs.Private.ChildNames.{index_of};

mod changing;
mod names;

use crate::errors::{FsError, FsResult};
use crate::tree::{Node, Tree};
use bytes::Bytes;
use names::Names;
use std::alloc::Global;
use std::collections::HashMap;
use std::marker::Model;

/// The names of the children of some folders of a tree, with their numbers.
#[derive(Debug, Drop)]
pub struct ChildIndex {
    alloc: Global,
    folders: HashMap<u64, Names>,
}

impl Model for ChildIndex {
    ghost use Rattle.dav_path_core.specs.ChildIndex.{Index, index_code};
    ghost use Rattle.dav_path_core.specs.Private.ChildNames.{index_of};

    ghost Value = { Index };

    ghost coded = { index_code };

    ghost view = { λ a. index_of a.folders.entries };
}

impl ChildIndex {
    /// It knows no folder. Takes no memory.
    pub fn new(alloc: Global) -> ChildIndex
        ensures { result ≡ empty }
    {
        ChildIndex {
            alloc,
            folders: HashMap::new(alloc),
        }
    }

    /// The number of a folder's child with a name, by the index where it knows the folder, and else by a walk. `NotFound`
    /// where there is none, and for an unknown number. Takes no memory.
    pub fn find_child<D>(&self, tree: &Tree<Bytes, D>, folder: u64, name: &[u8]) -> FsResult<u64>
        requires indexed { IsIndex tree.now.keyed self.now }
        ensures { result ≡ ok_or (child (is_key_named name.now) tree.now.keyed folder) FsError.NotFound }
    {
        match self.look_up(folder, name) {
            Some(Some(id)) => Ok(id),
            Some(None) => Err(FsError::NotFound),
            None => tree.find_child(folder, |key| key.as_slice() == name),
        }
    }

    /// As `add_new_child` of the tree; and the index notes the child.
    pub fn add_new_child<D: Drop>(
        &mut self,
        tree: &mut Tree<Bytes, D>,
        folder: u64,
        name: Bytes,
        item: D,
    ) -> FsResult<u64>
        requires indexed { IsIndex tree.old.keyed self.old }
        requires free { child (pointwise nat_eq name) tree.old.keyed folder ≡ None }
        ensures answer { AnswersUnlessRefused (add_refusal (pointwise nat_eq) tree.old.keyed folder name false) result
            (λ n. (n ≡ tree.old.keyed.next) × (tree.new.keyed ≡ add tree.old.keyed folder name item))
            (tree.new ≡ tree.old) }
        // It is refused for memory or numbers only where nothing else refuses.
        ensures room { IfErr result (λ e. e ≡ FsError.InsufficientStorage
            → add_refusal (pointwise nat_eq) tree.old.keyed folder name false ≡ None) }
        ensures shape { IsTreeValue (pointwise nat_eq) tree.new }
        ensures indexed { IsIndex tree.new.keyed self.new }
    {
        let id = tree.add_new_child(folder, name, item)?;
        self.note_child(tree, folder, id);
        self.keep_if_wide(tree, folder);
        Ok(id)
    }

    /// As `restore_child` of the tree; and the index notes the child.
    pub fn restore_child<D: Drop>(
        &mut self,
        tree: &mut Tree<Bytes, D>,
        folder: u64,
        name: Bytes,
        item: D,
        number: u64,
    ) -> FsResult<()>
        requires indexed { IsIndex tree.old.keyed self.old }
        requires free { child (pointwise nat_eq name) tree.old.keyed folder ≡ None }
        ensures answer { AnswersUnlessRefused (restore_refusal tree.old.keyed folder number) result
            (λ _. tree.new.keyed ≡ with_restored_node tree.old.keyed folder name item number)
            (tree.new ≡ tree.old) }
        // It is refused for memory only where nothing else refuses.
        ensures room { IfErr result (λ e. e ≡ FsError.InsufficientStorage
            → restore_refusal tree.old.keyed folder number ≡ None) }
        ensures shape { IsTreeValue (pointwise nat_eq) tree.new }
        ensures indexed { IsIndex tree.new.keyed self.new }
    {
        tree.restore_child(folder, name, item, number)?;
        self.note_child(tree, folder, number);
        self.keep_if_wide(tree, folder);
        Ok(())
    }

    /// As `delete_node` of the tree; and the index forgets the child. Takes no memory.
    pub fn delete_node<D>(&mut self, tree: &mut Tree<Bytes, D>, id: u64) -> FsResult<Node<Bytes, D>>
        requires indexed { IsIndex tree.old.keyed self.old }
        ensures answer { MatchResult result
            (λ x. (delete_refusal tree.old.keyed id ≡ None) × (item tree.old.keyed id ≡ Some x.item)
            × (tree.new.keyed ≡ without_node tree.old.keyed id))
            (λ e. (delete_refusal tree.old.keyed id ≡ Some e) × (tree.new ≡ tree.old)) }
        ensures shape { IsTreeValue (pointwise nat_eq) tree.new }
        ensures indexed { IsIndex tree.new.keyed self.new }
    {
        let (folder, name) = tree.leaf_at(id)?;
        self.forget(folder, name.as_slice());
        self.drop_folder(id);
        tree.delete_node(id)
    }

    /// As `move_to_free` of the tree; and the index has the child under its new name alone.
    pub fn move_to_free<D>(
        &mut self,
        tree: &mut Tree<Bytes, D>,
        id: u64,
        folder: u64,
        name: Bytes,
    ) -> FsResult<()>
        requires indexed { IsIndex tree.old.keyed self.old }
        requires free { child (pointwise nat_eq name) tree.old.keyed folder ≡ None }
        ensures answer { MatchResult result
            (λ _. (move_refusal (pointwise nat_eq) tree.old.keyed id folder name false ≡ None)
            × (tree.new.keyed ≡ with_new_place tree.old.keyed id folder name))
            (λ e. (move_refusal (pointwise nat_eq) tree.old.keyed id folder name false ≡ Some e)
            × (tree.new ≡ tree.old)) }
        ensures shape { IsTreeValue (pointwise nat_eq) tree.new }
        ensures indexed { IsIndex tree.new.keyed self.new }
    {
        tree.check_move_over(id, folder, &name, None, false)?;
        self.move_below(tree, id, folder, name);
        Ok(())
    }

    // Puts a node below another, under a name that is free there.
    fn move_below<D>(&mut self, tree: &mut Tree<Bytes, D>, id: u64, folder: u64, name: Bytes)
        requires indexed { IsIndex tree.old.keyed self.old }
        requires known { IsKnown tree.old.keyed id }
        requires known_parent { IsKnown tree.old.keyed folder }
        requires not_root { id ≢ 1 }
        requires outside { is_under tree.old.keyed id folder ≡ false }
        requires free { child (pointwise nat_eq name) tree.old.keyed folder ≡ None }
        ensures placed { tree.new.keyed ≡ with_new_place tree.old.keyed id folder name }
        ensures shape { IsTreeValue (pointwise nat_eq) tree.new }
        ensures indexed { IsIndex tree.new.keyed self.new }
    {
        self.forget_child(tree, id);
        self.note(folder, name.as_slice(), id);
        tree.put_below(id, folder, name);
        self.keep_if_wide(tree, folder);
    }

    // Notes a new child of a folder under the name that it has.
    fn note_child<D>(&mut self, tree: &Tree<Bytes, D>, folder: u64, id: u64)
        requires { IsSome (parent_number tree.now.keyed id) }
        ensures { (k : Segment) → IsChild tree.now.keyed folder k id
            → (self.new ≡ with_noted self.old folder k id) ⊎ (self.new ≡ remove self.old folder) }
    {
        let (name, _after) = tree.child_at(id);
        self.note(folder, name.as_slice(), id);
    }

    // Forgets the name of a node that has a parent.
    fn forget_child<D>(&mut self, tree: &Tree<Bytes, D>, id: u64)
        ensures forgotten { (p : ℕ) (k : Segment) → IsChild tree.now.keyed p k id → self.new ≡ without_noted self.old p k }
        ensures shape { IsTreeValue (pointwise nat_eq) tree.now }
    {
        if let Some(folder) = tree.above(id) {
            let (name, _after) = tree.child_at(id);
            self.forget(folder, name.as_slice());
        }
    }

    // Knows the names of a folder that has just become wide from then on, where there is memory.
    fn keep_if_wide<D>(&mut self, tree: &Tree<Bytes, D>, folder: u64)
        requires indexed { IsIndex tree.now.keyed self.old }
        ensures indexed { IsIndex tree.now.keyed self.new }
    {
        if !is_wide(tree, folder) {
            return;
        }
        match names_in(tree, self.alloc, folder) {
            Some(names) => {
                self.keep(folder, names);
                return;
            }
            None => return,
        }
    }

    // What it says of a name in a folder, if it knows the folder.
    fn look_up(&self, folder: u64, name: &[u8]) -> Option<Option<u64>>
        ensures { result ≡ index_answer self.now folder name.now }
    {
        match self.folders.get(&folder) {
            Some(names) => Some(names.number_of(name)),
            None => None,
        }
    }

    // Notes a new child of a folder that it knows. Out of memory, it does not know the folder from then on.
    fn note(&mut self, folder: u64, name: &[u8], id: u64)
        ensures { (self.new ≡ with_noted self.old folder name.now id) ⊎ (self.new ≡ remove self.old folder) }
    {
        if !note_in(&mut self.folders, self.alloc, folder, name, id) {
            self.drop_folder(folder);
        }
    }

    // Forgets a name in a folder.
    fn forget(&mut self, folder: u64, name: &[u8])
        ensures { self.new ≡ without_noted self.old folder name.now }
    {
        forget_in(&mut self.folders, folder, name);
    }

    // Forgets all names in a folder, and does not know it from then on.
    fn drop_folder(&mut self, folder: u64)
        ensures { self.new ≡ remove self.old folder }
    {
        self.folders.remove(&folder);
    }

    // Knows the names of a folder from then on, where there is memory.
    fn keep(&mut self, folder: u64, names: Names)
        ensures { (self.new ≡ insert self.old folder names) ⊎ (self.new ≡ self.old) }
    {
        match self.folders.insert(folder, names) {
            Ok(_) => return,
            Err(_) => return,
        }
    }
}

/// A folder is known to the index from when it has so many children.
const WIDE: usize = 16;

// Whether a folder has as many children as make it wide.
fn is_wide<D>(tree: &Tree<Bytes, D>, folder: u64) -> bool {
    let mut at = tree.first_child(folder);
    for _child in 0..WIDE {
        match at {
            Ok(Some(id)) => at = tree.next_sibling(id),
            _ => return false,
        }
    }
    at == Ok(None)
}

// The names of a folder's children; `None` where it is out of memory.
fn names_in<D>(tree: &Tree<Bytes, D>, alloc: Global, folder: u64) -> Option<Names>
    ensures { IfSome result (λ names. (s : Segment) → get names s ≡ child (is_key_named s) tree.now.keyed folder) }
{
    let mut names = Names::new(alloc);
    let mut at = tree.first_child(folder).ok()?;
    while let Some(id) = at {
        let (name, after) = tree.child_at(id);
        if !names.add(alloc, name.as_slice(), id) {
            return None;
        }
        at = after;
    }
    Some(names)
}

// Notes a new child of a folder that is there, or answers false where it is out of memory.
fn note_in(
    folders: &mut HashMap<u64, Names>,
    alloc: Global,
    folder: u64,
    name: &[u8],
    id: u64,
) -> bool
    ensures added { result ≡ true → index_of folders.new.entries ≡ with_noted (index_of folders.old.entries) folder name.now id }
    ensures left { result ≡ false → index_of folders.new.entries ≡ index_of folders.old.entries }
{
    match folders.get_mut(&folder) {
        Some(names) => names.add(alloc, name, id),
        None => true,
    }
}

// Forgets a name in a folder that is there.
fn forget_in(folders: &mut HashMap<u64, Names>, folder: u64, name: &[u8])
    ensures { index_of folders.new.entries ≡ without_noted (index_of folders.old.entries) folder name.now }
{
    match folders.get_mut(&folder) {
        Some(names) => {
            names.take_out(name);
            return;
        }
        None => return,
    }
}
