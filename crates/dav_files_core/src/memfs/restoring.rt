//! Entries that stood before, as a store that was written down has them.
ghost use Rattle.std.specs.Prelude.{◌≡◌, ◌==◌, ◌&&◌, ◌<◌, ◌^◌, ℕ, true, List, map, Some, None, MatchResult};
ghost use Rattle.dav_path_core.specs.StoreAnswers.{AnswersAs};
ghost use Rattle.dav_path_core.specs.Segments.{segments};
ghost use Rattle.dav_path_core.specs.Fronts.{Path};
ghost use Rattle.dav_files_core.specs.Resources.{Resource, ResourceMap, IsResourceMap, at_path, is_folder};
ghost use Rattle.dav_files_core.specs.Restoring.{IsRestoredFrom, resource_of, can_stand, with_later_next, restore, restore_at};
ghost use Rattle.dav_files_core.specs.Walks.{Stored, stored_entry, IsMapWalk};
ghost use Rattle.dav_files_core.specs.Private.Entries.{HasNumber};
ghost use Rattle.dav_files_core.specs.Private.TreeCalls.{IsMissing};

use super::contents::Content;
use super::nodes::Node;
use super::properties::Props;
use super::{Kind, MemFs, Target};
use crate::fs::{DavProp, Moment};
use bytes::Bytes;
use dav_path_core::davpath::DavPath;
use dav_path_core::errors::{FsError, FsResult};
use dav_path_core::tree::ROOT_ID;
use std::alloc::Global;

/// An entry as it stood, to be made anew.
#[derive(Debug, Drop)]
pub struct MemFsRestored {
    /// Its number, from 1 to 2^64 - 2, by which open files know it. The root has 1.
    pub number: u64,
    /// A folder or a file.
    pub kind: Kind,
    /// When it was made.
    pub created: Moment,
    /// When its bytes last changed, or it was made.
    pub modified: Moment,
    /// The bytes of a file, which are shared and not copied. A folder has none.
    pub content: Bytes,
    /// Its properties. Of some with one name and namespace the last stays.
    pub props: Vec<DavProp>,
}

impl MemFsRestored {
    // Whether there can be such an entry.
    fn can_stand(&self) -> bool
        ensures { result ≡ can_stand (resource_of self.now) }
    {
        if self.number == 0 || self.number == u64::MAX {
            return false;
        }
        match self.kind {
            Kind::Folder => self.content.is_empty(),
            Kind::File => true,
        }
    }

    // Whether it is the root, to be restored where that number stands.
    fn is_root_at(&self, id: u64) -> bool
        ensures { result ≡ ((id == 1) && ((self.now.number == 1) && is_folder self.now.kind)) }
    {
        id == ROOT_ID && self.number == ROOT_ID && matches!(self.kind, Kind::Folder)
    }

    // Its node.
    fn into_node(self, alloc: Global) -> FsResult<Node>
        ensures { MatchResult result (λ node. node ≡ (resource_of self).node) (λ e. e ≡ FsError.InsufficientStorage) }
    {
        let props = Props::from_list(alloc, self.props)?;
        Ok(Node {
            kind: self.kind,
            content: Content::from(self.content),
            created: self.created,
            modified: self.modified,
            props,
        })
    }
}

impl MemFs {
    /// Makes an entry at a path anew as it stood, with its number, times, contents and properties; the next number is above
    /// its own from then on. The root is there always, and is given the times and properties (own).
    ///
    /// `Forbidden` for an entry that can't stand: a number 0 or 2^64 - 1, or a folder with bytes. Then `Exists` where
    /// something stands at the path, but for the root. Its folder is found as by `put`: `NotFound` or `Forbidden`. `Exists`
    /// where another entry has its number. Where nothing of that refuses, `InsufficientStorage` where it is out of memory.
    pub fn restore(&mut self, path: &DavPath, entry: MemFsRestored) -> FsResult<()>
        ensures answer { AnswersAs (λ x. x) result (restore self.old (segments path.now.bytes) (resource_of entry)) self.old self.new }
        ensures shape { IsResourceMap self.new }
    {
        // Shows the map's shape.
        let _ = &self.tree;
        if !entry.can_stand() {
            return Err(FsError::Forbidden);
        }
        match self.target_of(path)? {
            Target::Entry(id) => self.restore_root(id, entry),
            Target::Missing { folder, name } => self.restore_missing(folder, name, entry),
        }
    }

    /// The number that the next new entry is given (own).
    pub fn next_number(&self) -> u64
        ensures next { result ≡ self.now.next }
        ensures shape { IsResourceMap self.now }
    {
        self.tree.next_number()
    }

    /// Gives no number below that one to a new entry any more. Nothing else changes (own).
    pub fn raise_next_number(&mut self, next: u64)
        ensures raised { self.new ≡ with_later_next self.old next }
        ensures shape { IsResourceMap self.new }
    {
        self.tree.raise_next_number(next);
    }

    // Restores the root, which has that number. Anything else stands there already.
    fn restore_root(&mut self, id: u64, entry: MemFsRestored) -> FsResult<()>
        requires known { HasNumber self.old id }
        requires can_stand { can_stand (resource_of entry) ≡ true }
        ensures answer { (p : Path) (x : Resource) → at_path self.old p ≡ Some x → x.number ≡ id
            → AnswersAs (λ x. x) result (restore_at self.old p (resource_of entry) (Some x)) self.old self.new }
        ensures shape { IsResourceMap self.new }
    {
        // Shows the map's shape.
        let _ = &self.tree;
        if !entry.is_root_at(id) {
            return Err(FsError::Exists);
        }
        let node = entry.into_node(self.alloc)?;
        self.replace(id, node);
        Ok(())
    }

    // Restores an entry where nothing stands yet.
    fn restore_missing(&mut self, folder: u64, name: &[u8], entry: MemFsRestored) -> FsResult<()>
        requires free { (p : Path) × IsMissing self.old p folder name.now }
        requires can_stand { can_stand (resource_of entry) ≡ true }
        ensures answer { (p : Path) → IsMissing self.old p folder name.now
            → AnswersAs (λ x. x) result (restore_at self.old p (resource_of entry) None) self.old self.new }
        ensures shape { IsResourceMap self.new }
    {
        let number = entry.number;
        if self.node_with(number).is_ok() {
            return Err(FsError::Exists);
        }
        let node = entry.into_node(self.alloc)?;
        self.restore_entry(folder, name, node, number)
    }
}

/// A law for callers: the entries of files in memory, restored in the order of a walk into files that are new, and with the
/// next number, make files that are equal, numbers and times included. It does nothing (own).
pub fn walked_files_are_restored()
    ensures { (m : ResourceMap) (ss : List Stored) (now : ℕ) → IsResourceMap m → m.next < 2 ^ 64 → IsMapWalk m ss
        → IsRestoredFrom m (map stored_entry ss) now }
{}
