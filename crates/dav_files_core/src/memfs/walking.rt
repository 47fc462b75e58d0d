//! A walk of all that stands in a `MemFs`, each entry once, and each behind the folder that it stands in. All is lent,
//! so a walk takes no memory.
ghost use Rattle.std.specs.Prelude.{◌≡◌, [], None, unwrap_or, MatchResult};
ghost use Rattle.std.specs.FinMap.{values};
ghost use Rattle.std.specs.List.{last_or};
ghost use Rattle.dav_files_core.specs.Meta.{meta_of, meta_at};
ghost use Rattle.dav_files_core.specs.Restoring.{properties_from};
ghost use Rattle.dav_files_core.specs.Walks.{IsMapWalk};

use super::nodes::{Node, node_of};
use super::properties::MemFsProps;
use super::{MemFs, MemFsMeta};
use bytes::Bytes;
use dav_path_core::errors::{FsError, FsResult};
use dav_path_core::tree::{Tree, Walk};
use std::alloc::Global;
use std::marker::Model;

/// A folder or a file as it stands in a `MemFs`.
#[derive(Debug, Drop)]
pub struct MemFsStored<'a> {
    tree: &'a Tree<Bytes, Node>,
    number: u64,
    node: &'a Node,
}

impl<'a> Model for MemFsStored<'a> {
    ghost use Rattle.dav_files_core.specs.Walks.{Stored};
    ghost use Rattle.dav_files_core.specs.Private.Stored.{stored_with, IsNodeOf};
    ghost use Rattle.dav_files_core.specs.ResourceCodes.{coded_stored};

    ghost Value = { Stored };

    ghost coded = { coded_stored };

    ghost view = { λ s. stored_with s.tree.now.keyed s.number s.node.now };

    ghost invariant = { λ s. IsNodeOf s.tree.now.keyed s.number s.node.now };
}

impl<'a> MemFsStored<'a> {
    /// Its number.
    pub fn number(&self) -> u64
        ensures { result ≡ self.now.resource.number }
    {
        self.number
    }

    /// The last segment of its path, empty at the root.
    pub fn name(&self) -> &'a [u8]
        ensures { result.now ≡ unwrap_or (last_or None self.now.path) [] }
    {
        match self.tree.place_of(self.number) {
            Some((_folder, name)) => name.as_slice(),
            None => b"",
        }
    }

    /// The number of the folder that it stands in. `None` at the root.
    pub fn folder(&self) -> Option<u64>
        ensures { result ≡ self.now.folder }
    {
        let (folder, _name) = self.tree.place_of(self.number)?;
        Some(folder)
    }

    /// What is known of it.
    pub fn meta(&self) -> MemFsMeta
        ensures { meta_of result ≡ meta_at self.now.resource.node }
    {
        self.node.meta()
    }

    /// The bytes of a file, none of a folder.
    pub fn bytes(&self) -> &'a [u8]
        ensures { result.now ≡ self.now.resource.node.bytes }
    {
        let node = self.node;
        node.content.as_slice()
    }

    /// The same bytes, shared and not copied where they can be shared. `InsufficientStorage` where memory for that is
    /// refused.
    pub fn content(&self, alloc: Global) -> FsResult<Bytes>
        ensures { MatchResult result (λ b. b ≡ self.now.resource.node.bytes) (λ e. e ≡ FsError.InsufficientStorage) }
    {
        let node = self.node;
        node.content.shared(alloc)
    }

    /// Its properties, by the bytes of namespace and name. An entry that is restored with these has the same.
    pub fn props(&self) -> MemFsProps<'a>
        ensures props { result ≡ values self.now.resource.node.props }
        ensures whole { properties_from result ≡ self.now.resource.node.props }
    {
        let node = self.node;
        node.props.lent()
    }
}

/// All that stands in a `MemFs`, one after another.
#[derive(Debug, Drop)]
pub struct MemFsWalk<'a> {
    tree: &'a Tree<Bytes, Node>,
    numbers: Walk<'a, Bytes, Node>,
}

impl<'a> Model for MemFsWalk<'a> {
    ghost use Rattle.std.specs.Prelude.{List, map};
    ghost use Rattle.dav_files_core.specs.Walks.{Stored};
    ghost use Rattle.dav_files_core.specs.Private.Stored.{stored_at, AreKnown};
    ghost use Rattle.dav_files_core.specs.ResourceCodes.{coded_walk};

    ghost Value = { List Stored };

    ghost coded = { coded_walk };

    ghost view = { λ w. map (stored_at w.tree.now.keyed) w.numbers };

    ghost invariant = { λ w. AreKnown w.tree.now.keyed w.numbers };
}

impl<'a> Iterator for MemFsWalk<'a> {
    ghost use Rattle.std.specs.Iterator.{YieldsFirst, item_count};

    type Item = MemFsStored<'a>;

    ghost next_gives = { YieldsFirst (λ w. w) };

    ghost remaining = { item_count (λ w. w) };

    fn next(&mut self) -> Option<MemFsStored<'a>> {
        let tree = self.tree;
        let number = self.numbers.next()?;
        match node_of(tree, number) {
            Ok(node) => Some(MemFsStored { tree, number, node }),
            Err(_) => unreachable!(),
        }
    }
}

impl MemFs {
    /// All that stands here: each folder and file once, and each behind the folder that it stands in. It takes no
    /// memory.
    pub fn walk(&self) -> MemFsWalk<'_>
        ensures { IsMapWalk self.now result }
    {
        MemFsWalk {
            tree: &self.tree,
            numbers: self.tree.walk(),
        }
    }
}
