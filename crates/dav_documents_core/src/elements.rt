//! The elements in a document, each as a slice of its nodes.
ghost use Rattle.std.specs.Prelude.{◌≡◌, ◌<◌, [], map, option_map, string_bytes, IfErr, IfOk, None, Some};
ghost use Rattle.dav_xml_core.specs.ReadableDocuments.{CouldBeRead};
ghost use Rattle.dav_xml_core.specs.Views.{name_of, node_of};
ghost use Rattle.dav_xml_core.specs.Writing.{written_alone};
ghost use Rattle.dav_documents_core.specs.Elements as spec;
ghost use Rattle.dav_documents_core.specs.Private.Nesting.{depth_behind};
ghost use Rattle.dav_faults_core.specs.declared.faults.Fault.TheVariants as fault;

use dav_faults_core::faults::Fault;
use dav_xml_core::davxml::{Name, Node, write_element};
use std::alloc::{AllocError, Global};

/// The elements right inside an element, in order, each with its nodes from its start to its end (own). Texts between them are left out. Nodes that begin
/// with no start have none.
pub fn children<'a>(alloc: Global, element: &'a [Node]) -> Result<Vec<&'a [Node]>, AllocError>
    ensures { IfOk result (λ found. map spec.element_nodes found.items ≡ spec.children (map node_of element.now)) }
{
    match element {
        [Node::Start(..), inside @ ..] => elements(alloc, inside),
        _ => Ok(Vec::new(alloc)),
    }
}

// The elements among nodes.
fn elements<'a>(alloc: Global, nodes: &'a [Node]) -> Result<Vec<&'a [Node]>, AllocError>
    ensures { IfOk result (λ found. map spec.element_nodes found.items ≡ spec.elements_from 0 [] (map node_of nodes.now)) }
{
    let mut found = Vec::new(alloc);
    let mut depth = 0;
    let mut first = 0;
    for (at, node) in nodes.iter().enumerate() {
        let behind = depth_behind(depth, node);
        if depth == 0 {
            first = at;
        } else if behind == 0 {
            found.push(&nodes[first..at + 1])?;
        }
        depth = behind;
    }
    Ok(found)
}

// How many elements have begun and not ended behind a node.
fn depth_behind(depth: usize, node: &Node) -> usize
    requires { depth < usize.MAX }
    ensures { result ≡ depth_behind depth (node_of node.now) }
{
    match node {
        Node::Start(..) => depth + 1,
        Node::Text(_) => depth,
        Node::End => depth.saturating_sub(1),
    }
}

/// The name of an element.
pub fn element_name(element: &[Node]) -> Option<&Name>
    ensures { option_map (λ name. name_of name.now) result ≡ spec.name_of_element (map node_of element.now) }
{
    match element {
        [Node::Start(name, _), ..] => Some(name),
        _ => None,
    }
}

/// Whether an element is the one of `DAV:` with this local name (RFC 4918 section 14).
pub fn is_dav(element: &[Node], local: &str) -> bool
    ensures { result ≡ spec.is_dav local.now (map node_of element.now) }
{
    match element_name(element) {
        Some(name) => is_dav_name(name, local),
        None => false,
    }
}

// Whether a name is the one of `DAV:` with this local name.
fn is_dav_name(name: &Name, local: &str) -> bool
    ensures { result ≡ spec.is_dav_name local.now (name_of name.now) }
{
    matches!(name.namespace.as_bytes(), [b'D', b'A', b'V', b':']) && name.local.as_str() == local
}

/// The only one of the elements that is the one of `DAV:` with this local name, or none. `BadRequest` where there are several.
pub fn at_most_one<'a>(elements: &[&'a [Node]], local: &str) -> Result<Option<&'a [Node]>, Fault>
    ensures ok { IfOk result (λ found. spec.at_most_one (spec.elements_named local.now (map spec.element_nodes elements.now)) ≡ Some (option_map spec.element_nodes found)) }
    ensures err { IfErr result (λ e. (e ≡ fault.BadRequest) × (spec.at_most_one (spec.elements_named local.now (map spec.element_nodes elements.now)) ≡ None)) }
{
    let mut found = None;
    for element in elements {
        if is_dav(element, local) {
            if found.is_some() {
                return Err(Fault::BadRequest);
            }
            found = Some(*element);
        }
    }
    Ok(found)
}

/// The only one of the elements that is the one of `DAV:` with this local name. `BadRequest` where there is none, or several.
pub fn the_one<'a>(elements: &[&'a [Node]], local: &str) -> Result<&'a [Node], Fault>
    ensures ok { IfOk result (λ found. spec.the_one (spec.elements_named local.now (map spec.element_nodes elements.now)) ≡ Some (spec.element_nodes found)) }
    ensures err { IfErr result (λ e. (e ≡ fault.BadRequest) × (spec.the_one (spec.elements_named local.now (map spec.element_nodes elements.now)) ≡ None)) }
{
    at_most_one(elements, local)?.ok_or(Fault::BadRequest)
}
