//! Single changes of the map of files, by the number of an entry.
ghost use Rattle.std.specs.Prelude.{◌≡◌, ◌∷◌, ◌++◌, ◌+◌, ◌<◌, ◌^◌, [], length, map, Some, None, Ok, OnOk, OnErr};
ghost use Rattle.dav_path_core.specs.StoreAnswers.{AnswersAs, AnswersWithRoom};
ghost use Rattle.dav_path_core.specs.Fronts.{Path};
ghost use Rattle.dav_files_core.specs.Exactly.{AnswersExactly};
ghost use Rattle.dav_files_core.specs.OpenFiles.{overwritten_at, with_number};
ghost use Rattle.dav_files_core.specs.Outcomes.{with_new_entry, with_other_node, with_modified_time};
ghost use Rattle.dav_files_core.specs.Properties.{patch_answer, patch_update, patch_answers, patched_properties};
ghost use Rattle.dav_files_core.specs.Resources.{Node, Resource, IsResourceMap, at_path};
ghost use Rattle.dav_files_core.specs.Restoring.{with_restored_entry};
ghost use Rattle.dav_files_core.specs.Private.TreeCalls.{IsMissing};
ghost use Rattle.dav_files_core.specs.Private.Entries.{HasNumber, HasFileNumbered, HasFolderNumbered, StandsIn, IsBare, taken_out, put_there};

use super::contents::Content;
use super::nodes::{
    Node, add_node, delete_node, move_node, node_of, overwrite, patch_props, restore_node,
    set_modified, set_node, write_file,
};
use super::{Kind, MemFs};
use crate::fs::{DavProp, Moment};
use bytes::{Buf, Bytes};
use dav_path_core::errors::{FsError, FsResult};
use http::StatusCode;

impl MemFs {
    // The node of the entry with a number.
    pub(super) fn node_at(&self, id: u64) -> &Node
        requires { HasNumber self.now id }
        ensures { (p : Path) (r : Resource) → at_path self.now p ≡ Some r → r.number ≡ id → result.now ≡ r.node }
    {
        match node_of(&self.tree, id) {
            Ok(node) => node,
            Err(_) => unreachable!(),
        }
    }

    // The number of the folder in which an entry stands; the root stands in none.
    pub(super) fn folder_of(&self, id: u64) -> Option<u64>
        requires { HasNumber self.now id }
        ensures { (p : Path) (r : Resource) → at_path self.now p ≡ Some r → r.number ≡ id → StandsIn self.now p result }
    {
        match self.tree.parent_of(id) {
            Ok(parent) => parent,
            Err(_) => unreachable!(),
        }
    }

    // Adds a node where a path leads to no entry yet.
    pub(super) fn add_entry(&mut self, folder: u64, name: &[u8], node: Node) -> FsResult<u64>
        requires free { (p : Path) × IsMissing self.old p folder name.now }
        requires bare { IsBare node }
        ensures answer { (p : Path) → IsMissing self.old p folder name.now
            → AnswersAs (λ id. id) result (Ok (self.old.next, with_new_entry self.old p node)) self.old self.new }
        ensures shape { IsResourceMap self.new }
    {
        let name = Bytes::copy_from_slice(self.alloc, name)?;
        let id = add_node(&mut self.tree, &mut self.index, folder, name, node)?;
        Ok(id)
    }

    // Restores a node where a path leads to no entry yet, under a number that no entry has.
    pub(super) fn restore_entry(
        &mut self,
        folder: u64,
        name: &[u8],
        node: Node,
        number: u64,
    ) -> FsResult<()>
        requires free { (p : Path) × IsMissing self.old p folder name.now }
        requires unused { with_number self.old number ≡ None }
        requires positive { 0 < number }
        requires given { number < 18446744073709551615 }
        requires bare { IsBare node }
        ensures answer { (p : Path) → IsMissing self.old p folder name.now
            → AnswersAs (λ x. x) result (Ok (tt, with_restored_entry self.old p (record { number = number; node = node }))) self.old self.new }
        ensures shape { IsResourceMap self.new }
    {
        let name = Bytes::copy_from_slice(self.alloc, name)?;
        restore_node(&mut self.tree, &mut self.index, folder, name, node, number)?;
        Ok(())
    }

    // Sets the modified time of an entry.
    pub(super) fn touch(&mut self, id: u64, now: Moment)
        requires { HasNumber self.old id }
        ensures change { (p : Path) (r : Resource) → at_path self.old p ≡ Some r → r.number ≡ id → self.new ≡ with_modified_time self.old p now.0 }
        ensures shape { IsResourceMap self.new }
    {
        match set_modified(&mut self.tree, id, now) {
            Ok(()) => {}
            Err(_) => unreachable!(),
        }
    }

    // Writes the bytes of a file and its modified time.
    pub(super) fn write(&mut self, id: u64, content: Content, now: Moment)
        requires { HasFileNumbered self.old id }
        ensures change { (p : Path) (r : Resource) → at_path self.old p ≡ Some r → r.number ≡ id
            → self.new ≡ with_other_node self.old p r (record r.node { bytes = content; modified = now.0 }) }
        ensures shape { IsResourceMap self.new }
    {
        match write_file(&mut self.tree, id, content, now) {
            Ok(()) => {}
            Err(_) => unreachable!(),
        }
    }

    // Puts another node in place of an entry's; a folder stays one.
    pub(super) fn replace(&mut self, id: u64, node: Node)
        requires known { HasNumber self.old id }
        requires still { (p : Path) (r : Resource) → at_path self.old p ≡ Some r → r.number ≡ id → r.node.kind ≡ Kind.Folder → node.kind ≡ Kind.Folder }
        requires bare { IsBare node }
        ensures change { (p : Path) (r : Resource) → at_path self.old p ≡ Some r → r.number ≡ id → self.new ≡ with_other_node self.old p r node }
        ensures shape { IsResourceMap self.new }
    {
        match set_node(&mut self.tree, id, node) {
            Ok(()) => {}
            Err(_) => unreachable!(),
        }
    }

    // Sets and removes properties of an entry, all or none, and answers for each.
    pub(super) fn patch(
        &mut self,
        id: u64,
        patch: Vec<(bool, DavProp)>,
    ) -> FsResult<Vec<(StatusCode, DavProp)>>
        requires { HasNumber self.old id }
        ensures answer { (p : Path) (r : Resource) → at_path self.old p ≡ Some r → r.number ≡ id
            → AnswersAs (λ v. map patch_answer v.items) result (Ok (patch_answers (map patch_update patch.items), with_other_node self.old p r (record r.node { props = patched_properties r.node.props (map patch_update patch.items) }))) self.old self.new }
        ensures shape { IsResourceMap self.new }
    {
        patch_props(&mut self.tree, self.alloc, id, patch)
    }

    // Puts bytes over those of a file from a place on, with zeros in a gap; the times stay.
    pub(super) fn overwrite<B: Buf>(&mut self, id: u64, start: usize, buf: &mut B) -> FsResult<()>
        requires file { HasFileNumbered self.old id }
        requires fits { start + length (B.unread buf.old) < 2 ^ 64 }
        ensures answer { (p : Path) (r : Resource) → at_path self.old p ≡ Some r → r.number ≡ id
            → AnswersAs (λ x. x) result (Ok (tt, with_other_node self.old p r (record r.node { bytes = overwritten_at r.node.bytes start (B.unread buf.old) }))) self.old self.new }
        ensures spent { OnOk result (B.unread buf.new ≡ []) }
        ensures unread { OnErr result (buf.new ≡ buf.old) }
        ensures kept { B.kept buf.new ≡ B.kept buf.old }
        ensures shape { IsResourceMap self.new }
    {
        overwrite(&mut self.tree, self.alloc, id, start, buf)
    }

    // Takes out an entry without members.
    pub(super) fn take_out(&mut self, id: u64) -> FsResult<()>
        requires { HasNumber self.old id }
        ensures answer { (p : Path) (r : Resource) → at_path self.old p ≡ Some r → r.number ≡ id
            → AnswersExactly (λ _. tt) result (taken_out self.old p) self.old self.new }
        ensures shape { IsResourceMap self.new }
    {
        delete_node(&mut self.tree, &mut self.index, id)
    }

    // Puts an entry, with all below it, into a folder under a name.
    pub(super) fn relocate(&mut self, id: u64, folder: u64, name: &[u8]) -> FsResult<()>
        requires known { HasNumber self.old id }
        requires folder { HasFolderNumbered self.old folder }
        ensures answer { (p q : Path) (r f : Resource) → at_path self.old p ≡ Some r → r.number ≡ id → at_path self.old q ≡ Some f → f.number ≡ folder
            → AnswersWithRoom (λ _. tt) result (put_there self.old p (q ++ (name.now ∷ []))) self.old self.new }
        ensures shape { IsResourceMap self.new }
    {
        let name = Bytes::copy_from_slice(self.alloc, name)?;
        move_node(&mut self.tree, &mut self.index, id, folder, name)
    }
}
