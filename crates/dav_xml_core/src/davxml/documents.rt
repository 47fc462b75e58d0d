//! Documents, without how they are written.
use std::rc::RcStr;

/// The name of an element or an attribute (Namespaces in XML 1.0 section 2.1).
#[derive(Drop)]
pub struct Name {
    /// The name of its namespace, which many names share. Without a namespace it is empty.
    pub namespace: RcStr,
    /// The local name.
    pub local: String,
}

/// An attribute with its value, in which references are replaced (XML 1.0 section 3.3.3).
#[derive(Drop)]
pub struct Attribute {
    /// Its name.
    pub name: Name,
    /// Its value.
    pub value: String,
}

/// A part of a document, in the order of its text (own).
#[derive(Drop)]
pub enum Node {
    /// An element begins. Declarations of namespaces are no attributes of it.
    Start(Name, Vec<Attribute>),
    /// Text, with references and CDATA sections replaced. It isn't empty, and no other text stands right before or behind it.
    Text(String),
    /// The element that began last, and hasn't ended, ends.
    End,
}

/// A document (own): the nodes of one element, in the order of its text. Each element that begins ends, and an empty one
/// begins and ends. Comments, processing instructions and what stands outside the element are no part of it.
#[derive(Drop)]
pub struct Document {
    /// The nodes.
    pub nodes: Vec<Node>,
}
