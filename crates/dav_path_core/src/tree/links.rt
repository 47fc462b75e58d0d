//! Writes of the links between nodes.
ghost use Rattle.std.specs.Prelude.{◌≡◌, ℕ, Some, OnOk, OnErr, IfErr};
ghost use Rattle.dav_path_core.specs.Private.Nodes.{node_numbered, first_in, next_in, previous_in, new_node, with_node_at, with_first_child, with_next, with_previous, put_before, with_parent_and_key, with_parent, closed_up};

use super::Node;
use crate::errors::{FsError, FsResult};
use std::collections::HashMap;

/// Puts a new node at a number, the first child of its parent. `InsufficientStorage` where it is out of memory.
pub(super) fn put_new<K: Drop, D: Drop>(
    nodes: &mut HashMap<u64, Node<K, D>>,
    id: u64,
    parent: u64,
    key: K,
    item: D,
) -> FsResult<()>
    ensures ok { OnOk result (node_numbered nodes.new.entries ≡ put_before
        (with_node_at (node_numbered nodes.old.entries) id
        (Some (new_node parent key item (first_in (node_numbered nodes.old.entries) parent))))
        parent id (first_in (node_numbered nodes.old.entries) parent)) }
    ensures err { OnErr result (nodes.new.entries ≡ nodes.old.entries) }
    ensures error { IfErr result (λ e. e ≡ FsError.InsufficientStorage) }
{
    let first = first_of(nodes, parent);
    let node = Node {
        item,
        parent_and_key: Some((parent, key)),
        first_child: None,
        next_sibling: first,
        previous_sibling: None,
    };
    put_in(nodes, id, node)?;
    put_before(nodes, parent, id, first);
    Ok(())
}

/// Puts a node at a number. `InsufficientStorage` where it is out of memory.
fn put_in<K: Drop, D: Drop>(
    nodes: &mut HashMap<u64, Node<K, D>>,
    id: u64,
    node: Node<K, D>,
) -> FsResult<()>
    ensures ok { OnOk result (node_numbered nodes.new.entries ≡ with_node_at (node_numbered nodes.old.entries) id (Some node)) }
    ensures err { OnErr result (nodes.new.entries ≡ nodes.old.entries) }
    ensures error { IfErr result (λ e. e ≡ FsError.InsufficientStorage) }
{
    match nodes.insert(id, node) {
        Ok(_) => Ok(()),
        Err(_) => Err(FsError::InsufficientStorage),
    }
}

/// The first child of a node, `None` for an unknown number too.
pub(super) fn first_of<K, D>(nodes: &HashMap<u64, Node<K, D>>, id: u64) -> Option<u64>
    ensures { result ≡ first_in (node_numbered nodes.now.entries) id }
{
    match nodes.get(&id) {
        Some(node) => node.first_child,
        None => None,
    }
}

fn set_first<K, D>(nodes: &mut HashMap<u64, Node<K, D>>, id: u64, to: Option<u64>)
    ensures { node_numbered nodes.new.entries ≡ with_first_child (node_numbered nodes.old.entries) id to }
{
    if let Some(node) = nodes.get_mut(&id) {
        node.first_child = to;
    }
}

fn set_next<K, D>(nodes: &mut HashMap<u64, Node<K, D>>, id: u64, to: Option<u64>)
    ensures { node_numbered nodes.new.entries ≡ with_next (node_numbered nodes.old.entries) id to }
{
    if let Some(node) = nodes.get_mut(&id) {
        node.next_sibling = to;
    }
}

fn set_previous<K, D>(nodes: &mut HashMap<u64, Node<K, D>>, id: u64, to: Option<u64>)
    ensures { node_numbered nodes.new.entries ≡ with_previous (node_numbered nodes.old.entries) id to }
{
    if let Some(node) = nodes.get_mut(&id) {
        node.previous_sibling = to;
    }
}

/// Puts a node before the first child of its parent.
pub(super) fn put_before<K, D>(
    nodes: &mut HashMap<u64, Node<K, D>>,
    parent: u64,
    id: u64,
    first: Option<u64>,
)
    ensures { node_numbered nodes.new.entries ≡ put_before (node_numbered nodes.old.entries) parent id first }
{
    set_first(nodes, parent, Some(id));
    if let Some(old) = first {
        set_previous(nodes, old, Some(id));
    }
}

/// Leads the neighbours of a child of `parent` to each other.
pub(super) fn close_up<K, D>(
    nodes: &mut HashMap<u64, Node<K, D>>,
    parent: u64,
    before: Option<u64>,
    after: Option<u64>,
)
    ensures { node_numbered nodes.new.entries ≡ closed_up (node_numbered nodes.old.entries) parent before after }
{
    match before {
        Some(id) => set_next(nodes, id, after),
        None => set_first(nodes, parent, after),
    }
    if let Some(id) = after {
        set_previous(nodes, id, before);
    }
}

/// Gives a node a parent and a key there, before the sibling `first`.
pub(super) fn set_parent_and_key<K: Drop, D>(
    nodes: &mut HashMap<u64, Node<K, D>>,
    id: u64,
    parent: u64,
    key: K,
    first: Option<u64>,
)
    ensures { node_numbered nodes.new.entries ≡ with_parent_and_key (node_numbered nodes.old.entries) id parent key first }
{
    if let Some(node) = nodes.get_mut(&id) {
        node.parent_and_key = Some((parent, key));
        node.next_sibling = first;
        node.previous_sibling = None;
    }
}

/// Hangs a child of `above` below another node, first there, under the key that it has.
pub(super) fn hang<K, D>(nodes: &mut HashMap<u64, Node<K, D>>, id: u64, above: u64, parent: u64)
    ensures { (x : Node K D) (r : ℕ) (k : K) → Some x ≡ node_numbered nodes.old.entries id → x.parent_and_key ≡ Some (r, k)
        → node_numbered nodes.new.entries ≡ put_before
        (with_parent_and_key (closed_up (node_numbered nodes.old.entries) above x.previous_sibling x.next_sibling) id parent k
        (first_in (closed_up (node_numbered nodes.old.entries) above x.previous_sibling x.next_sibling) parent)) parent id
        (first_in (closed_up (node_numbered nodes.old.entries) above x.previous_sibling x.next_sibling) parent) }
{
    let (before, after) = neighbours(nodes, id);
    close_up(nodes, above, before, after);
    let first = first_of(nodes, parent);
    set_parent(nodes, id, parent, first);
    put_before(nodes, parent, id, first);
}

fn neighbours<K, D>(nodes: &HashMap<u64, Node<K, D>>, id: u64) -> (Option<u64>, Option<u64>)
    ensures { result ≡ (previous_in (node_numbered nodes.now.entries) id, next_in (node_numbered nodes.now.entries) id) }
{
    match nodes.get(&id) {
        Some(node) => (node.previous_sibling, node.next_sibling),
        None => (None, None),
    }
}

fn set_parent<K, D>(nodes: &mut HashMap<u64, Node<K, D>>, id: u64, parent: u64, first: Option<u64>)
    ensures { node_numbered nodes.new.entries ≡ with_parent (node_numbered nodes.old.entries) id parent first }
{
    if let Some(node) = nodes.get_mut(&id) {
        if let Some(above) = &mut node.parent_and_key {
            above.0 = parent;
        }
        node.next_sibling = first;
        node.previous_sibling = None;
    }
}
