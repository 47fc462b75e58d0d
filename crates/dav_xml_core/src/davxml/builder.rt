//! The nodes of a document, made piece by piece.
ghost use Rattle.std.specs.Prelude.{◌≡◌, ◌++◌, [], IfErr, IfOk, OnOk, map, option_map};
ghost use Rattle.std.specs.List.{list_all};
ghost use Rattle.dav_xml_core.specs.Characters.{is_white};
ghost use Rattle.dav_xml_core.specs.Gives.{Gives};
ghost use Rattle.dav_xml_core.specs.declared.davxml.errors.Fault.TheVariants.{Memory};
ghost use Rattle.dav_xml_core.specs.Reading as spec;
ghost use Rattle.dav_xml_core.specs.Views.{front_of, node_of, piece_of, qname_of, raw_attribute_of};

use super::characters::{is_white, text_of};
use super::documents::Node;
use super::errors::Fault;
use super::markup::{Piece, RawAttribute};
use super::names::QName;
use super::namespaces::{always_bound, start_of};
use super::references::expanded;
use super::scan::until;
use super::scope::Scope;
use std::alloc::{AllocError, Global};

/// An element that has begun.
#[derive(Drop)]
pub(super) struct Element<'a> {
    pub(super) name: QName<'a>,
    /// How many of the bindings hold around it.
    pub(super) around: usize,
}

/// What a front of a document says.
#[derive(Drop)]
pub(super) struct Builder<'a> {
    pub(super) nodes: Vec<Node>,
    /// The text since the last node.
    pub(super) text: Vec<char>,
    /// The elements that have begun and not ended.
    pub(super) elements: Vec<Element<'a>>,
    /// The bindings that hold.
    pub(super) scope: Scope<'a>,
}

pub(super) fn new_builder<'a>(alloc: Global) -> Result<Builder<'a>, AllocError>
    ensures { IfOk result (λ x. front_of x ≡ spec.nothing) }
{
    let scope = always_bound(alloc)?;
    Ok(Builder {
        nodes: Vec::new(alloc),
        text: Vec::new(alloc),
        elements: Vec::new(alloc),
        scope,
    })
}

/// Makes a node of the text.
fn end_text(alloc: Global, nodes: &mut Vec<Node>, text: &mut Vec<char>) -> Result<(), Fault>
    ensures nodes { OnOk result (map node_of nodes.new.items ≡ map node_of nodes.old.items ++ spec.text_nodes text.old.items) }
    ensures text { OnOk result (text.new.items ≡ []) }
    ensures refused { IfErr result (λ e. e ≡ Memory) }
{
    if text.is_empty() {
        return Ok(());
    }
    let node = text_of(alloc, text)?;
    nodes.push(Node::Text(node))?;
    text.clear();
    Ok(())
}

fn same_qname(a: QName, b: QName) -> bool
    ensures { result ≡ spec.same_qname (qname_of a.entry) (qname_of b.entry) }
{
    a.prefix == b.prefix && a.local == b.local
}

#[tactic(auto, unfolding(crate::specs::Reading::content_of))]
fn content_of(alloc: Global, raw: &[char]) -> Result<Vec<char>, Fault>
    ensures { Gives (λ x. x.items) result (spec.content_of raw.now) }
{
    if until(raw, &[']', ']', '>']).is_some() {
        return Err(Fault::Malformed);
    }
    expanded(alloc, raw)
}

fn all_white(raw: &[char]) -> bool
    ensures { result ≡ list_all is_white raw.now }
{
    raw.iter().all(|c| is_white(*c))
}

impl<'a> Builder<'a> {
    #[tactic(auto, unfolding(crate::specs::Reading::with_start_tag))]
    fn start(
        &mut self,
        alloc: Global,
        name: QName<'a>,
        attributes: &[RawAttribute<'a>],
    ) -> Result<(), Fault>
        ensures { Gives (λ _. front_of self.new) result
            (spec.with_start_tag (front_of self.old) (qname_of name.entry) (map raw_attribute_of attributes.now)) }
    {
        if self.elements.is_empty() && !self.nodes.is_empty() {
            return Err(Fault::Malformed);
        }
        let around = self.scope.len();
        let (expanded, attributes) = start_of(alloc, &mut self.scope, name, attributes)?;
        end_text(alloc, &mut self.nodes, &mut self.text)?;
        self.nodes.push(Node::Start(expanded, attributes))?;
        self.elements.push(Element { name, around })?;
        Ok(())
    }

    #[tactic(auto, unfolding(crate::specs::Reading::with_end_tag))]
    fn end(&mut self, alloc: Global, name: QName<'a>) -> Result<(), Fault>
        ensures { Gives (λ _. front_of self.new) result (spec.with_end_tag (front_of self.old) (qname_of name.entry)) }
    {
        let Some(element) = self.elements.pop() else {
            return Err(Fault::Malformed);
        };
        if !same_qname(element.name, name) {
            return Err(Fault::Malformed);
        }
        end_text(alloc, &mut self.nodes, &mut self.text)?;
        self.nodes.push(Node::End)?;
        self.scope.end_to(element.around);
        Ok(())
    }

    #[tactic(auto, unfolding(crate::specs::Reading::with_tag))]
    fn tag(
        &mut self,
        alloc: Global,
        name: QName<'a>,
        attributes: &[RawAttribute<'a>],
        empty: bool,
    ) -> Result<(), Fault>
        ensures { Gives (λ _. front_of self.new) result
            (spec.with_tag (front_of self.old) (qname_of name.entry) (map raw_attribute_of attributes.now) empty) }
    {
        self.start(alloc, name, attributes)?;
        if empty {
            return self.end(alloc, name);
        }
        Ok(())
    }

    #[tactic(auto, unfolding(crate::specs::Reading::with_characters))]
    fn characters(&mut self, alloc: Global, raw: &[char]) -> Result<(), Fault>
        ensures { Gives (λ _. front_of self.new) result (spec.with_characters (front_of self.old) raw.now) }
    {
        if self.elements.is_empty() {
            if all_white(raw) {
                return Ok(());
            }
            return Err(Fault::Malformed);
        }
        let text = content_of(alloc, raw)?;
        self.text.extend_from_slice(&text)?;
        Ok(())
    }

    #[tactic(auto, unfolding(crate::specs::Reading::with_cdata))]
    fn cdata(&mut self, raw: &[char]) -> Result<(), Fault>
        ensures { Gives (λ _. front_of self.new) result (spec.with_cdata (front_of self.old) raw.now) }
    {
        if self.elements.is_empty() {
            return Err(Fault::Malformed);
        }
        self.text.extend_from_slice(raw)?;
        Ok(())
    }

    /// Goes on with one more piece.
    pub(super) fn piece(&mut self, alloc: Global, piece: Piece<'a>) -> Result<(), Fault>
        ensures { Gives (λ _. front_of self.new) result (spec.with_piece (front_of self.old) (piece_of piece.entry)) }
    {
        match piece {
            Piece::Tag(name, attributes, empty) => self.tag(alloc, name, &attributes, empty),
            Piece::EndTag(name) => self.end(alloc, name),
            Piece::Characters(raw) => self.characters(alloc, raw),
            Piece::CData(raw) => self.cdata(raw),
            Piece::Aside => Ok(()),
        }
    }
}
