//! The nodes of the tree of files, and the calls by which files meet the tree.
ghost use Rattle.std.specs.Prelude.{◌≡◌, ◌↔◌, ◌+◌, ◌<◌, ◌^◌, IsTrue, true, map, Some, None, Ok, [], length, IfOk, IfErr, OnOk, OnErr, MatchResult, nat_eq};
ghost use Rattle.std.specs.FinMap.{get};
ghost use Rattle.std.specs.Option.{ok_or};
ghost use Rattle.std.specs.Cmp.Lexicographic.{pointwise};
ghost use Rattle.dav_path_core.specs.ChildIndex.{Index, IsIndex};
ghost use Rattle.dav_path_core.specs.Keyed.{child, add, with_restored_node, delete_refusal, without_node, move_refusal, with_moved, parent_number, Under};
ghost use Rattle.dav_files_core.specs.Outcomes.{new_file, new_folder};
ghost use Rattle.dav_files_core.specs.Meta.{meta_of, meta_at};
ghost use Rattle.dav_files_core.specs.OpenFiles.{overwritten_at};
ghost use Rattle.dav_files_core.specs.Properties.{patch_answer, patch_update, patch_answers, patched_properties};
ghost use Rattle.dav_files_core.specs.Private.TreeCalls.{FindsMember, FindsNode, WritesFile, SetsNode, IsThere};

use super::contents::Content;
use super::properties::Props;
use super::{Kind, MemFsMeta};
use crate::fs::{DavProp, Moment};
use bytes::{Buf, Bytes};
use dav_path_core::child_index::ChildIndex;
use dav_path_core::errors::{FsError, FsResult};
use dav_path_core::tree::Tree;
use http::StatusCode;
use std::alloc::Global;
use std::marker::Model;

/// A folder or a file.
#[derive(Debug, Drop)]
pub(super) struct Node {
    pub(super) kind: Kind,
    pub(super) content: Content,
    pub(super) created: Moment,
    pub(super) modified: Moment,
    pub(super) props: Props,
}

impl Model for Node {
    ghost use Rattle.dav_files_core.specs.Resources.{Node};
    ghost use Rattle.dav_files_core.specs.ResourceCodes.{coded_node};

    ghost Value = { Node };

    ghost coded = { coded_node };

    ghost view = { λ n. record { kind = n.kind; bytes = n.content; props = n.props; created = n.created.0; modified = n.modified.0 } };
}

impl Node {
    pub(super) fn new_folder(alloc: Global, now: Moment) -> Node
        ensures { result ≡ new_folder now.0 }
    {
        Node {
            kind: Kind::Folder,
            content: Content::new(),
            created: now,
            modified: now,
            props: Props::new(alloc),
        }
    }

    pub(super) fn new_file(alloc: Global, content: Content, now: Moment) -> Node
        ensures { result ≡ new_file content now.0 }
    {
        Node {
            kind: Kind::File,
            content,
            created: now,
            modified: now,
            props: Props::new(alloc),
        }
    }

    pub(super) fn meta(&self) -> MemFsMeta
        ensures { meta_of result ≡ meta_at self.now }
    {
        MemFsMeta {
            kind: self.kind,
            length: self.content.len() as u64,
            modified: self.modified,
            created: self.created,
        }
    }

    pub(super) fn is_file(&self) -> bool
        ensures { IsTrue result ↔ (self.now.kind ≡ Kind.File) }
    {
        matches!(self.kind, Kind::File)
    }

    // The same, made at another moment.
    pub(super) fn made_at(&self, alloc: Global, now: Moment) -> FsResult<Node>
        ensures { MatchResult result (λ n. n ≡ record self.now { created = now.0 }) (λ e. e ≡ FsError.InsufficientStorage) }
    {
        Ok(Node {
            kind: self.kind,
            content: self.content.again(alloc)?,
            created: now,
            modified: self.modified,
            props: self.props.clone()?,
        })
    }

    // Puts bytes over its own from a place on, with zeros in a gap.
    fn overwrite<B: Buf>(&mut self, alloc: Global, start: usize, buf: &mut B) -> FsResult<()>
        requires { start + length (B.unread buf.old) < 2 ^ 64 }
        ensures ok { OnOk result (self.new ≡ record self.old { bytes = overwritten_at self.old.bytes start (B.unread buf.old) }) }
        ensures err { IfErr result (λ e. (e ≡ FsError.InsufficientStorage) × (self.new ≡ self.old)) }
        ensures spent { OnOk result (B.unread buf.new ≡ []) }
        ensures unread { OnErr result (buf.new ≡ buf.old) }
        ensures kept { B.kept buf.new ≡ B.kept buf.old }
    {
        self.content.overwrite(alloc, start, buf)
    }
}

/// The number of a folder's member with a name. `NotFound` where there is none.
pub(super) fn member_of(
    tree: &Tree<Bytes, Node>,
    index: &ChildIndex,
    folder: u64,
    name: &[u8],
) -> FsResult<u64>
    requires { IsIndex tree.now.keyed index.now }
    ensures { FindsMember tree.now.keyed folder name.now result }
{
    index.find_child(tree, folder, name)
}

/// The node with a number. `NotFound` where there is none.
pub(super) fn node_of(tree: &Tree<Bytes, Node>, id: u64) -> FsResult<&Node>
    ensures ok { IfOk result (λ node. FindsNode tree.now.keyed id (Ok node.now)) }
    ensures err { IfErr result (λ e. FindsNode tree.now.keyed id (Err e)) }
{
    tree.get_node(id)
}

/// Makes the bytes of a node those given, at a moment. `NotFound` where there is no such node.
pub(super) fn write_file(
    tree: &mut Tree<Bytes, Node>,
    id: u64,
    content: Content,
    now: Moment,
) -> FsResult<()>
    ensures set { WritesFile tree.old.keyed id content now.0 result tree.new.keyed }
    ensures indexed { (ix : Index) → IsIndex tree.old.keyed ix → IsIndex tree.new.keyed ix }
{
    let node = tree.get_node_mut(id)?;
    node.content = content;
    node.modified = now;
    Ok(())
}

/// Adds a member to a folder that has none of that name. `InsufficientStorage` where it is out of memory or numbers.
pub(super) fn add_node(
    tree: &mut Tree<Bytes, Node>,
    index: &mut ChildIndex,
    folder: u64,
    name: Bytes,
    node: Node,
) -> FsResult<u64>
    requires known { IsThere tree.old.keyed folder }
    requires free { FindsMember tree.old.keyed folder name (Err FsError.NotFound) }
    requires indexed { IsIndex tree.old.keyed index.old }
    ensures ok { IfOk result (λ id. (id ≡ tree.old.keyed.next) × (tree.new.keyed ≡ add tree.old.keyed folder name node)) }
    ensures err { IfErr result (λ e. (e ≡ FsError.InsufficientStorage) × (tree.new.keyed ≡ tree.old.keyed)) }
    ensures indexed { IsIndex tree.new.keyed index.new }
{
    index.add_new_child(tree, folder, name, node)
}

/// Adds a member that stood before, with its number, to a folder that has none of that name. `InsufficientStorage` where it
/// is out of memory.
pub(super) fn restore_node(
    tree: &mut Tree<Bytes, Node>,
    index: &mut ChildIndex,
    folder: u64,
    name: Bytes,
    node: Node,
    number: u64,
) -> FsResult<()>
    requires known { IsThere tree.old.keyed folder }
    requires free { FindsMember tree.old.keyed folder name (Err FsError.NotFound) }
    requires unused { get tree.old.keyed.nodes number ≡ None }
    requires positive { 0 < number }
    requires given { number < 18446744073709551615 }
    requires indexed { IsIndex tree.old.keyed index.old }
    ensures ok { OnOk result (tree.new.keyed ≡ with_restored_node tree.old.keyed folder name node number) }
    ensures err { IfErr result (λ e. (e ≡ FsError.InsufficientStorage) × (tree.new.keyed ≡ tree.old.keyed)) }
    ensures indexed { IsIndex tree.new.keyed index.new }
{
    index.restore_child(tree, folder, name, node, number)
}

/// Makes the modified time of a node that given. `NotFound` where there is no such node.
pub(super) fn set_modified(tree: &mut Tree<Bytes, Node>, id: u64, now: Moment) -> FsResult<()>
    ensures set { SetsNode tree.old.keyed id (λ n. record n { modified = now.0 }) result tree.new.keyed }
    ensures indexed { (ix : Index) → IsIndex tree.old.keyed ix → IsIndex tree.new.keyed ix }
{
    let node = tree.get_node_mut(id)?;
    node.modified = now;
    Ok(())
}

/// Puts another node in place of one. `NotFound` where there is no such node.
pub(super) fn set_node(tree: &mut Tree<Bytes, Node>, id: u64, node: Node) -> FsResult<()>
    ensures set { SetsNode tree.old.keyed id (λ _. node) result tree.new.keyed }
    ensures indexed { (ix : Index) → IsIndex tree.old.keyed ix → IsIndex tree.new.keyed ix }
{
    let old = tree.get_node_mut(id)?;
    *old = node;
    Ok(())
}

/// Sets and removes properties of a node, all or none, and answers for each. `InsufficientStorage` where it is out of memory.
pub(super) fn patch_props(
    tree: &mut Tree<Bytes, Node>,
    alloc: Global,
    id: u64,
    patch: Vec<(bool, DavProp)>,
) -> FsResult<Vec<(StatusCode, DavProp)>>
    requires { IsThere tree.old.keyed id }
    ensures answer { IfOk result (λ v. map patch_answer v.items ≡ patch_answers (map patch_update patch.items)) }
    ensures ok { OnOk result (SetsNode tree.old.keyed id (λ n. record n { props = patched_properties n.props (map patch_update patch.items) }) (Ok tt) tree.new.keyed) }
    ensures err { IfErr result (λ e. (e ≡ FsError.InsufficientStorage) × (tree.new.keyed ≡ tree.old.keyed)) }
    ensures indexed { (ix : Index) → IsIndex tree.old.keyed ix → IsIndex tree.new.keyed ix }
{
    let node = tree.get_node_mut(id)?;
    node.props.patch(alloc, patch)
}

/// Puts bytes over those of a node from a place on, with zeros in a gap. `InsufficientStorage` where it is out of memory.
pub(super) fn overwrite<B: Buf>(
    tree: &mut Tree<Bytes, Node>,
    alloc: Global,
    id: u64,
    start: usize,
    buf: &mut B,
) -> FsResult<()>
    requires known { IsThere tree.old.keyed id }
    requires fits { start + length (B.unread buf.old) < 2 ^ 64 }
    ensures ok { OnOk result (SetsNode tree.old.keyed id (λ n. record n { bytes = overwritten_at n.bytes start (B.unread buf.old) }) (Ok tt) tree.new.keyed) }
    ensures err { IfErr result (λ e. (e ≡ FsError.InsufficientStorage) × (tree.new.keyed ≡ tree.old.keyed)) }
    ensures indexed { (ix : Index) → IsIndex tree.old.keyed ix → IsIndex tree.new.keyed ix }
    ensures spent { OnOk result (B.unread buf.new ≡ []) }
    ensures unread { OnErr result (buf.new ≡ buf.old) }
    ensures kept { B.kept buf.new ≡ B.kept buf.old }
{
    let node = tree.get_node_mut(id)?;
    node.overwrite(alloc, start, buf)
}

/// Takes a node out that has no child. `NotFound` where there is no such node, `Forbidden` for the root and for a node
/// with children.
pub(super) fn delete_node(
    tree: &mut Tree<Bytes, Node>,
    index: &mut ChildIndex,
    id: u64,
) -> FsResult<()>
    requires { IsIndex tree.old.keyed index.old }
    ensures answer { MatchResult result
        (λ _. (delete_refusal tree.old.keyed id ≡ None) × (tree.new.keyed ≡ without_node tree.old.keyed id))
        (λ e. (delete_refusal tree.old.keyed id ≡ Some e) × (tree.new.keyed ≡ tree.old.keyed)) }
    ensures indexed { IsIndex tree.new.keyed index.new }
{
    index.delete_node(tree, id)?;
    Ok(())
}

/// Puts a node, with all below it, below another under a name, in place of a node without children that stands there.
pub(super) fn move_node(
    tree: &mut Tree<Bytes, Node>,
    index: &mut ChildIndex,
    id: u64,
    folder: u64,
    name: Bytes,
) -> FsResult<()>
    requires { IsIndex tree.old.keyed index.old }
    ensures answer { MatchResult result
        (λ _. (move_refusal (pointwise nat_eq) tree.old.keyed id folder name true ≡ None)
        × (tree.new.keyed ≡ with_moved (pointwise nat_eq) tree.old.keyed id folder name))
        (λ e. (move_refusal (pointwise nat_eq) tree.old.keyed id folder name true ≡ Some e) × (tree.new.keyed ≡ tree.old.keyed)) }
    ensures outside { IfOk result (λ _. ¬ Under (parent_number tree.old.keyed) id folder) }
    ensures below { IfErr result (λ e. e ≡ FsError.Forbidden → Under (parent_number tree.old.keyed) id folder) }
    ensures indexed { IsIndex tree.new.keyed index.new }
{
    index.move_node(tree, id, folder, name, true)
}
