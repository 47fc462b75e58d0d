//! Documents, node by node.
use crate::refusals::Refusal;
use crate::words::{Word, bytes_of};
use dav_xml_core::davxml::{self, Attribute, Name, Node, XmlError};
use std::alloc::{AllocError, Global};

/// The nodes of a document in order, or the place where it isn't well-formed.
pub fn document(alloc: Global, word: &[u8]) -> Result<String, Refusal> {
    let bytes = bytes_of(alloc, word)?;
    match davxml::read(alloc, &bytes) {
        Ok(document) => Ok(nodes_shown(alloc, &document.nodes)?),
        Err(XmlError::NotWellFormed { at }) => Ok(format!(in alloc; "NotWellFormed {at}")?),
        Err(error) => Err(Refusal::Xml(error)),
    }
}

/// What is written of a document that is read, and whether that is read as the same nodes.
pub fn written(alloc: Global, word: &[u8]) -> Result<String, Refusal> {
    let bytes = bytes_of(alloc, word)?;
    let document = davxml::read(alloc, &bytes)?;
    let written = davxml::write(alloc, &document)?;
    let again = davxml::read(alloc, &written)?;
    let shown = nodes_shown(alloc, &document.nodes)?;
    let same = shown == nodes_shown(alloc, &again.nodes)?;
    let verdict = if same { "same" } else { "different" };
    Ok(format!(in alloc; "{}; {verdict}", Word(&written))?)
}

/// The nodes of a document whose element is written so that it stands alone, and then put into another that binds its prefixes
/// and the default namespace otherwise.
pub fn alone(alloc: Global, word: &[u8]) -> Result<String, Refusal> {
    let bytes = bytes_of(alloc, word)?;
    let document = davxml::read(alloc, &bytes)?;
    let mut whole = Vec::new(alloc);
    whole.extend_from_slice(b"<a xmlns='u:a' xmlns:D='u:b' xmlns:n='u:c' xmlns:n0='u:d'>")?;
    whole.extend_from_slice(&davxml::write_element(alloc, &document.nodes)?)?;
    whole.extend_from_slice(b"</a>")?;
    Ok(nodes_shown(alloc, &davxml::read(alloc, &whole)?.nodes)?)
}

fn nodes_shown(alloc: Global, nodes: &[Node]) -> Result<String, AllocError> {
    let mut answer = String::new(alloc);
    for node in nodes {
        if !answer.is_empty() {
            answer.push_str("; ")?;
        }
        push_node(&mut answer, node)?;
    }
    Ok(answer)
}

fn push_node(answer: &mut String, node: &Node) -> Result<(), AllocError> {
    match node {
        Node::Start(name, attributes) => {
            answer.push_str("start")?;
            push_name(answer, name)?;
            push_attributes(answer, attributes)
        }
        Node::Text(text) => write!(answer, "text {}", Word(text.as_bytes())),
        Node::End => answer.push_str("end"),
    }
}

fn push_attributes(answer: &mut String, attributes: &[Attribute]) -> Result<(), AllocError> {
    for attribute in attributes {
        push_name(answer, &attribute.name)?;
        write!(answer, " {}", Word(attribute.value.as_bytes()))?;
    }
    Ok(())
}

fn push_name(answer: &mut String, name: &Name) -> Result<(), AllocError> {
    write!(
        answer,
        " {} {}",
        Word(name.namespace.as_bytes()),
        Word(name.local.as_bytes())
    )
}
