//! Documents written as bytes.
ghost use Rattle.std.specs.Prelude.{◌≡◌, ◌<◌, ◌^◌, ◌++◌, ◌∷◌, [], bytes_eq, codes, encode_utf8_all, flat_map, if◌then◌else◌, length, map, option_map, unwrap_or, ℕ, List, Some, true, false, not, IfOk, OnOk};
ghost use Rattle.std.specs.Fmt.{decimal};
ghost use Rattle.std.specs.List.{list_all};
ghost use Rattle.dav_xml_core.specs.Characters.{characters, is_char};
ghost use Rattle.dav_xml_core.specs.Documents as plain;
ghost use Rattle.dav_xml_core.specs.Markup.{piece_at, Characters};
ghost use Rattle.dav_xml_core.specs.Namespaces.{Binding, always_bound, bound_namespace, xml_namespace, xmlns_namespace};
ghost use Rattle.dav_xml_core.specs.Parts.{Part, PartsCouldBeRead, nodes_in, with_raw, written_parts};
ghost use Rattle.dav_xml_core.specs.Places.{front_at, may_begin, read_from_front, with_element};
ghost use Rattle.dav_xml_core.specs.Readable.{is_start, name_bytes, attribute_bytes, HoldWritten, IsReadBack};
ghost use Rattle.dav_xml_core.specs.ReadableDocuments.{CouldBeRead, has_room, is_readable, node_bytes};
ghost use Rattle.dav_xml_core.specs.Reading.{Front, content_of, document_of, is_empty, text_in, value_in};
ghost use Rattle.dav_xml_core.specs.References.{value_of};
ghost use Rattle.dav_xml_core.specs.Scanning.{is_nil};
ghost use Rattle.dav_xml_core.specs.Writing as spec;
ghost use Rattle.dav_xml_core.specs.Writing.{dav_name};
ghost use Rattle.dav_xml_core.specs.Views.{attribute_of, name_of, node_of, writing_of};

use super::documents::{Attribute, Document, Name, Node};
use std::alloc::{AllocError, Global};

const XML_NAMESPACE: &str = "http://www.w3.org/XML/1998/namespace";

/// A document that is written as it is made: what is written so far, and the names of the elements that have begun and not
/// ended. After an error it is of no use.
#[derive(Drop)]
pub struct Writer {
    alloc: Global,
    first: &'static [u8],
    bytes: Vec<u8>,
    begun: Vec<Vec<u8>>,
}

/// What stands for a byte that would be read as something else.
fn reference_of(in_value: bool, b: u8) -> Option<&'static [u8]>
    ensures { unwrap_or (option_map (λ x. x.now) result) (b ∷ []) ≡ spec.escaped_character in_value b }
{
    match b {
        b'&' => Some(b"&amp;"),
        b'<' => Some(b"&lt;"),
        b'>' => Some(b"&gt;"),
        b'\r' => Some(b"&#13;"),
        b'"' if in_value => Some(b"&quot;"),
        b'\t' if in_value => Some(b"&#9;"),
        b'\n' if in_value => Some(b"&#10;"),
        _ => None,
    }
}

fn push(out: &mut Vec<u8>, bytes: &[u8]) -> Result<(), AllocError>
    ensures { OnOk result (out.new.items ≡ out.old.items ++ bytes.now) }
{
    out.extend_from_slice(bytes)
}

fn push_byte(out: &mut Vec<u8>, in_value: bool, b: u8) -> Result<(), AllocError>
    ensures { OnOk result (out.new.items ≡ out.old.items ++ spec.escaped_character in_value b) }
{
    match reference_of(in_value, b) {
        Some(reference) => push(out, reference),
        None => push(out, &[b]),
    }
}

/// Whether each byte stands for itself. Most texts are such, and are written at once.
fn is_plain(in_value: bool, text: &[u8]) -> bool
    ensures { result ≡ true → flat_map (spec.escaped_character in_value) text.now ≡ text.now }
{
    for b in text {
        if reference_of(in_value, *b).is_some() {
            return false;
        }
    }
    true
}

fn push_escaped(out: &mut Vec<u8>, in_value: bool, text: &[u8]) -> Result<(), AllocError>
    ensures { OnOk result (out.new.items ≡ out.old.items ++ flat_map (spec.escaped_character in_value) text.now) }
{
    if is_plain(in_value, text) {
        return push(out, text);
    }
    for b in text {
        push_byte(out, in_value, *b)?;
    }
    Ok(())
}

fn is_dav(namespace: &str) -> bool
    ensures { result ≡ bytes_eq namespace.now spec.dav_namespace }
{
    namespace == "DAV:"
}

fn is_xml(namespace: &str) -> bool
    ensures { result ≡ bytes_eq namespace.now xml_namespace }
{
    namespace == XML_NAMESPACE
}

fn is_other(namespace: &str) -> bool
    ensures { result ≡ spec.is_other namespace.now }
{
    !(namespace.is_empty() || is_dav(namespace) || is_xml(namespace))
}

#[tactic(auto, using(std::proofs::lemmas::List::append_assoc), unfolding(crate::specs::Writing::tag_name))]
fn push_name(out: &mut Vec<u8>, prefix: &[u8], name: &Name) -> Result<(), AllocError>
    ensures { OnOk result (out.new.items ≡ out.old.items ++ spec.tag_name prefix.now (name_of name.now)) }
{
    if name.namespace.is_empty() {
        return push(out, name.local.as_bytes());
    }
    if is_dav(&name.namespace) {
        push(out, b"D:")?;
        return push(out, name.local.as_bytes());
    }
    if is_xml(&name.namespace) {
        push(out, b"xml:")?;
        return push(out, name.local.as_bytes());
    }
    push(out, prefix)?;
    push(out, b":")?;
    push(out, name.local.as_bytes())
}

#[tactic(auto, using(std::proofs::lemmas::List::append_assoc), unfolding(crate::specs::Writing::declaration_bytes))]
fn push_declaration(out: &mut Vec<u8>, prefix: &[u8], name: &Name) -> Result<(), AllocError>
    ensures { OnOk result (out.new.items ≡ out.old.items ++ spec.declaration_bytes prefix.now (name_of name.now)) }
{
    if !is_other(&name.namespace) {
        return Ok(());
    }
    push(out, b" xmlns:")?;
    push(out, prefix)?;
    push(out, b"=\"")?;
    push_escaped(out, true, name.namespace.as_bytes())?;
    push(out, b"\"")
}

#[tactic(auto, using(std::proofs::lemmas::List::append_assoc), unfolding(crate::specs::Writing::attribute_text))]
fn push_attribute(out: &mut Vec<u8>, prefix: &[u8], attribute: &Attribute) -> Result<(), AllocError>
    ensures { OnOk result (out.new.items ≡ out.old.items ++ spec.attribute_text prefix.now (attribute_of attribute.now)) }
{
    push(out, b" ")?;
    push_name(out, prefix, &attribute.name)?;
    push(out, b"=\"")?;
    push_escaped(out, true, attribute.value.as_bytes())?;
    push(out, b"\"")?;
    push_declaration(out, prefix, &attribute.name)
}

fn numbered_prefix(alloc: Global, number: usize) -> Result<Vec<u8>, AllocError>
    ensures { IfOk result (λ x. x.items ≡ codes "n" ++ decimal number) }
{
    let text = format!(in alloc; "n{number}")?;
    Ok(text.into_bytes())
}

fn push_attributes(
    alloc: Global,
    out: &mut Vec<u8>,
    attributes: &[Attribute],
) -> Result<(), AllocError>
    ensures { OnOk result (out.new.items ≡ out.old.items ++ spec.attributes_text 0 (map attribute_of attributes.now)) }
{
    for (number, attribute) in attributes.iter().enumerate() {
        let prefix = numbered_prefix(alloc, number)?;
        push_attribute(out, &prefix, attribute)?;
    }
    Ok(())
}

#[tactic(auto, using(std::proofs::lemmas::List::append_assoc), unfolding(crate::specs::Writing::start_text))]
fn push_start(
    alloc: Global,
    out: &mut Vec<u8>,
    first: &[u8],
    name: &Name,
    attributes: &[Attribute],
) -> Result<(), AllocError>
    ensures { OnOk result (out.new.items ≡ out.old.items ++ spec.start_text first.now (name_of name.now) (map attribute_of attributes.now)) }
{
    push(out, b"<")?;
    push_name(out, b"n", name)?;
    push(out, first)?;
    push_declaration(out, b"n", name)?;
    push_attributes(alloc, out, attributes)?;
    push(out, b">")
}

fn tag_name(alloc: Global, name: &Name) -> Result<Vec<u8>, AllocError>
    ensures { IfOk result (λ x. x.items ≡ spec.tag_name spec.element_prefix (name_of name.now)) }
{
    let mut out = Vec::new(alloc);
    push_name(&mut out, b"n", name)?;
    Ok(out)
}

// The name of an element of `DAV:`, with its prefix.
#[tactic(auto, unfolding(crate::specs::Writing::tag_name))]
fn dav_tag(alloc: Global, local: &str) -> Result<Vec<u8>, AllocError>
    ensures { IfOk result (λ x. x.items ≡ spec.tag_name spec.element_prefix (dav_name local.now)) }
{
    let mut out = Vec::with_capacity(alloc, local.len().saturating_add(2))?;
    push(&mut out, b"D:")?;
    push(&mut out, local.as_bytes())?;
    Ok(out)
}

// The start of an element of `DAV:` without attributes, by its name with the prefix.
#[tactic(auto, using(std::proofs::lemmas::List::append_assoc), unfolding(crate::specs::Writing::start_text, crate::specs::Writing::declaration_bytes))]
fn push_dav_start(
    out: &mut Vec<u8>,
    first: &[u8],
    tag: &[u8],
    local: &str,
) -> Result<(), AllocError>
    requires { tag.now ≡ spec.tag_name spec.element_prefix (dav_name local.now) }
    ensures { OnOk result (out.new.items ≡ out.old.items ++ spec.start_text first.now (dav_name local.now) []) }
{
    push(out, b"<")?;
    push(out, tag)?;
    if !first.is_empty() {
        push(out, first)?;
    }
    push(out, b">")
}

impl Writer {
    /// Nothing is written yet.
    pub fn new(alloc: Global) -> Writer
        ensures { writing_of result ≡ spec.new_writing spec.in_document }
    {
        Writer {
            alloc,
            first: b" xmlns:D=\"DAV:\"",
            bytes: Vec::new(alloc),
            begun: Vec::new(alloc),
        }
    }

    /// Nothing is written yet of an element that is to mean the same in any document.
    pub fn alone(alloc: Global) -> Writer
        ensures { writing_of result ≡ spec.new_writing spec.alone }
    {
        Writer {
            alloc,
            first: b" xmlns:D=\"DAV:\" xmlns=\"\"",
            bytes: Vec::new(alloc),
            begun: Vec::new(alloc),
        }
    }

    /// What the next element declares beside its own name.
    fn declarations(&self) -> &'static [u8]
        ensures { result.now ≡ (if is_empty (writing_of self.now).begun then (writing_of self.now).first else []) }
    {
        if self.begun.is_empty() {
            self.first
        } else {
            &[]
        }
    }

    /// Whether an element has begun and hasn't ended.
    pub fn is_inside(&self) -> bool
        ensures { result ≡ not (is_empty (writing_of self.now).begun) }
    {
        !self.begun.is_empty()
    }

    /// An element begins. It is inside the one that began last and hasn't ended.
    #[tactic(auto, unfolding(crate::specs::Writing::with_start))]
    pub fn start(&mut self, name: &Name, attributes: &[Attribute]) -> Result<(), AllocError>
        ensures { OnOk result (writing_of self.new ≡ spec.with_start (writing_of self.old) (name_of name.now) (map attribute_of attributes.now)) }
    {
        let begun = tag_name(self.alloc, name)?;
        let first = self.declarations();
        push_start(self.alloc, &mut self.bytes, first, name, attributes)?;
        self.begun.push(begun)?;
        Ok(())
    }

    /// An element of `DAV:` without attributes begins, as `start` begins it, without a `Name` for it (own).
    #[tactic(auto, unfolding(crate::specs::Writing::with_start))]
    pub fn start_dav(&mut self, local: &str) -> Result<(), AllocError>
        ensures { OnOk result (writing_of self.new ≡ spec.with_start (writing_of self.old) (dav_name local.now) []) }
    {
        let begun = dav_tag(self.alloc, local)?;
        let first = self.declarations();
        push_dav_start(&mut self.bytes, first, &begun, local)?;
        self.begun.push(begun)?;
        Ok(())
    }

    /// Text inside the element that began last and hasn't ended.
    #[tactic(auto, unfolding(crate::specs::Writing::with_text))]
    pub fn text(&mut self, text: &str) -> Result<(), AllocError>
        ensures { OnOk result (writing_of self.new ≡ spec.with_text (writing_of self.old) text.now) }
    {
        push_escaped(&mut self.bytes, false, text.as_bytes())
    }

    /// The element that began last and hasn't ended ends. Where there is none, nothing is written.
    #[tactic(auto, unfolding(crate::specs::Writing::with_end))]
    pub fn end(&mut self) -> Result<(), AllocError>
        ensures { OnOk result (writing_of self.new ≡ spec.with_end (writing_of self.old)) }
    {
        let Some(name) = self.begun.pop() else {
            return Ok(());
        };
        push(&mut self.bytes, b"</")?;
        push(&mut self.bytes, &name)?;
        push(&mut self.bytes, b">")
    }

    /// An element that was written before to stand alone (own): its bytes as they are. It is inside the element that began last and hasn't ended.
    pub fn kept(&mut self, element: &[u8]) -> Result<(), AllocError>
        ensures { OnOk result (writing_of self.new ≡ with_raw (writing_of self.old) element.now) }
    {
        push(&mut self.bytes, element)
    }

    /// The bytes that are written.
    pub fn into_bytes(self) -> Vec<u8>
        ensures { result.items ≡ (writing_of self).bytes }
    {
        self.bytes
    }

    /// The nodes in turn.
    pub fn nodes(&mut self, nodes: &[Node]) -> Result<(), AllocError>
        ensures { OnOk result (writing_of self.new ≡ spec.with_nodes (writing_of self.old) (map node_of nodes.now)) }
    {
        for node in nodes {
            self.node(node)?;
        }
        Ok(())
    }

    fn node(&mut self, node: &Node) -> Result<(), AllocError>
        ensures { OnOk result (writing_of self.new ≡ spec.with_node (writing_of self.old) (node_of node.now)) }
    {
        match node {
            Node::Start(name, attributes) => self.start(name, attributes),
            Node::Text(text) => self.text(text),
            Node::End => self.end(),
        }
    }
}

/// The bytes of a document: each element has an end tag, `DAV:` has the prefix `D`, which the first element declares, and any
/// other namespace a prefix of its own, which its element declares (own). Refused for memory alone.
#[tactic(auto, unfolding(crate::specs::Writing::document_bytes))]
pub fn write(alloc: Global, document: &Document) -> Result<Vec<u8>, AllocError>
    ensures bytes { IfOk result (λ x. x.items ≡ spec.document_bytes (map node_of document.now.nodes.items)) }
    // A document that could have been read is read again as it is.
    ensures again { IfOk result (λ x. CouldBeRead (map node_of document.now.nodes.items) → document_of x.items ≡ Some (map node_of document.now.nodes.items)) }
{
    let mut writer = Writer::new(alloc);
    writer.nodes(&document.nodes)?;
    Ok(writer.into_bytes())
}

/// The bytes of an element, given by its nodes, that mean the same wherever they stand in another document (own): as `write`, and
/// the first element declares that there is no default namespace, either. Refused for memory alone.
#[tactic(auto, unfolding(crate::specs::Writing::written_alone))]
pub fn write_element(alloc: Global, nodes: &[Node]) -> Result<Vec<u8>, AllocError>
    ensures bytes { IfOk result (λ x. x.items ≡ spec.written_alone (map node_of nodes.now)) }
    // Nodes that could have been read are read again as they are.
    ensures again { IfOk result (λ x. CouldBeRead (map node_of nodes.now) → document_of x.items ≡ Some (map node_of nodes.now)) }
{
    let mut writer = Writer::alone(alloc);
    writer.nodes(nodes)?;
    Ok(writer.into_bytes())
}

/// A law: what is written for a text or a value is read as the same. In `texts` and `values` it is about lists of characters, in
/// `text_bytes` and `value_bytes` about the bytes that are written for the characters, and by `pieces` a text is read up to the tag behind it
/// (XML 1.0 sections 2.2, 2.4 and 3.3.3).
pub fn texts_round_trip()
    ensures texts { (text : List ℕ) → content_of (flat_map (spec.escaped_character false) text) ≡ Some text }
    ensures values { (text : List ℕ) → value_of (flat_map (spec.escaped_character true) text) ≡ Some text }
    ensures text_bytes { (text : List ℕ) → list_all is_char text ≡ true
        → text_in (flat_map (spec.escaped_character false) (encode_utf8_all text)) ≡ Some text }
    ensures value_bytes { (text : List ℕ) → list_all is_char text ≡ true
        → value_in (flat_map (spec.escaped_character true) (encode_utf8_all text)) ≡ Some text }
    ensures pieces { (text rest : List ℕ) → is_nil text ≡ false
        → piece_at (flat_map (spec.escaped_character false) text ++ codes "<" ++ rest) ≡ Some (Characters (flat_map (spec.escaped_character false) text), codes "<" ++ rest) }
{}

/// A law (XML 1.0 section 3.1, Namespaces 1.0 sections 3 to 6): the characters that are written for an element's start and its end are read
/// as a start tag and its end tag, with the element's name and its attributes. That is so of the first element of a document
/// (`first`), of the first element that `write_element` writes, whatever holds around it (`alone`), and of any inside these (`inside`).
/// The bytes that are written for the start are read as these characters (XML 1.0 section 2.2).
pub fn elements_round_trip()
    ensures first { (name : plain.Name) (attributes : List plain.Attribute) → is_start name attributes ≡ true → IsReadBack always_bound spec.in_document name attributes }
    ensures alone { (around : List Binding) (name : plain.Name) (attributes : List plain.Attribute) → bound_namespace (codes "xml") around ≡ Some xml_namespace
        → bound_namespace (codes "xmlns") around ≡ Some xmlns_namespace → is_start name attributes ≡ true → IsReadBack around spec.alone name attributes }
    ensures inside { (around : List Binding) (name : plain.Name) (attributes : List plain.Attribute) → HoldWritten around → is_start name attributes ≡ true
        → IsReadBack around [] name attributes }
    ensures first_bytes { (name : plain.Name) (attributes : List plain.Attribute) → is_start name attributes ≡ true
        → characters (spec.start_text spec.in_document (name_bytes name) (map attribute_bytes attributes)) ≡ Some (spec.start_text spec.in_document name attributes) }
    ensures alone_bytes { (name : plain.Name) (attributes : List plain.Attribute) → is_start name attributes ≡ true
        → characters (spec.start_text spec.alone (name_bytes name) (map attribute_bytes attributes)) ≡ Some (spec.start_text spec.alone name attributes) }
    ensures inside_bytes { (name : plain.Name) (attributes : List plain.Attribute) → is_start name attributes ≡ true
        → characters (spec.start_text [] (name_bytes name) (map attribute_bytes attributes)) ≡ Some (spec.start_text [] name attributes) }
{}

/// A law (XML 1.0 sections 2.1 and 3, Namespaces 1.0 section 6): the bytes that `write` writes for a document that could have been read are read as
/// its nodes (`whole`), those that `write_element` writes for it, too (`element`), and each document that is read is such, if its bytes fit memory
/// (`read`); memory then holds one more attribute of each of its elements (`room`). Where the bytes of `write_element` stand inside a document that `write` writes, this is read as if the nodes of each had been written there
/// (`kept`). Wherever an element may begin between other bytes, they are read as its nodes: the whole is read as what stands behind them, after a front that
/// has the nodes, too (`placed`), and so it is in characters, whatever the prefixes are bound to there (`alone`).
pub fn documents_round_trip()
    ensures whole { (nodes : List plain.Node) → CouldBeRead nodes → document_of (spec.document_bytes nodes) ≡ Some nodes }
    ensures element { (nodes : List plain.Node) → CouldBeRead nodes → document_of (spec.written_alone nodes) ≡ Some nodes }
    ensures read { (bytes : List ℕ) (nodes : List plain.Node) → length bytes < 2 ^ 64 → document_of bytes ≡ Some nodes → CouldBeRead nodes }
    ensures room { (bytes : List ℕ) (nodes : List plain.Node) → length bytes < 2 ^ 64 → document_of bytes ≡ Some nodes → list_all has_room nodes ≡ true }
    ensures kept { (parts : List Part) → PartsCouldBeRead parts → document_of (written_parts parts) ≡ Some (nodes_in parts) }
    ensures placed { (before behind rest : List ℕ) (front : Front) (nodes : List plain.Node) → front_at before ≡ Some front → may_begin front ≡ true
        → characters behind ≡ Some rest → is_readable nodes ≡ true
        → document_of (before ++ spec.written_alone (map node_bytes nodes) ++ behind) ≡ read_from_front (with_element front (map node_bytes nodes)) rest }
    ensures alone { (front : Front) (nodes : List plain.Node) (rest : List ℕ) → may_begin front ≡ true → bound_namespace (codes "xml") front.bindings ≡ Some xml_namespace
        → bound_namespace (codes "xmlns") front.bindings ≡ Some xmlns_namespace → is_readable nodes ≡ true
        → read_from_front front (spec.written_alone nodes ++ rest) ≡ read_from_front (with_element front (map node_bytes nodes)) rest }
{}
