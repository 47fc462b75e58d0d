//! Documents read from bytes.
ghost use Rattle.std.specs.Prelude.{◌≡◌, chars, false, length, map, option_map, true, IfOk, Err};
ghost use Rattle.dav_xml_core.specs.Characters.{lines_from};
ghost use Rattle.dav_xml_core.specs.Documents.{is_element};
ghost use Rattle.dav_xml_core.specs.Gives.{Gives, AnswersWithReason, IsReadAs, error_refusal, fault_refusal, halt_refusal};
ghost use Rattle.dav_xml_core.specs.Reading as spec;
ghost use Rattle.dav_xml_core.specs.ReadableDocuments.{CouldBeRead};
ghost use Rattle.dav_xml_core.specs.Refusals as refusals;
ghost use Rattle.dav_xml_core.specs.Views.{front_of, node_of};

use super::builder::{Builder, new_builder};
use super::characters::{byte_at, lines_of, no_char_at};
use super::declarations::{are_fields, declaration_at, fields_at, names_another_encoding};
use super::documents::{Document, Node};
use super::errors::{Fault, Halt, XmlError};
use super::markup::piece_at;
use super::scan::after_mark;
use std::alloc::Global;

/// Why reading stops where this text is left.
fn halt(fault: Fault, rest: &[char]) -> Halt
    ensures { halt_refusal result ≡ fault_refusal fault (refusals.refusal_of_text rest.now) }
{
    match fault {
        Fault::Memory => Halt::Memory,
        Fault::Malformed => {
            if after_mark(rest, &['<', '!', 'D', 'O', 'C', 'T', 'Y', 'P', 'E']).is_some() {
                Halt::DocumentType
            } else {
                Halt::Malformed { left: rest.len() }
            }
        }
    }
}

/// Goes on with the piece at the front, and gives what follows it.
#[tactic(auto, unfolding(crate::specs::Reading::step))]
fn step<'a>(alloc: Global, builder: &mut Builder<'a>, rest: &'a [char]) -> Result<&'a [char], Fault>
    ensures { Gives (λ after. (front_of builder.new, after.now)) result (spec.step (front_of builder.old) rest.now) }
{
    let (piece, after) = piece_at(alloc, rest)?;
    builder.piece(alloc, piece)?;
    Ok(after)
}

/// The nodes, if the element has ended.
fn finished(builder: Builder) -> Option<Vec<Node>>
    ensures { option_map (λ x. map node_of x.items) result ≡ spec.finished_nodes (front_of builder.entry) }
{
    let Builder {
        nodes,
        elements,
        ..
    } = builder;
    if elements.is_empty() && !nodes.is_empty() {
        Some(nodes)
    } else {
        None
    }
}

/// The nodes of a text behind its declaration. Each piece takes a character, so there are no more than characters.
fn nodes_of(alloc: Global, text: &[char]) -> Result<Vec<Node>, Halt>
    ensures { AnswersWithReason (λ x. map node_of x.items) halt_refusal result (refusals.nodes_answer text.now) }
{
    let mut builder = new_builder(alloc)?;
    let mut rest = text;
    for _ in 0..text.len() + 1 {
        if rest.is_empty() {
            return finished(builder).ok_or(Halt::Malformed { left: 0 });
        }
        match step(alloc, &mut builder, rest) {
            Ok(after) => {
                rest = after;
            }
            Err(fault) => {
                return Err(halt(fault, rest));
            }
        }
    }
    Err(Halt::Malformed { left: 0 })
}

/// What follows the declaration, where there is one.
#[tactic(auto, unfolding(crate::specs::Refusals::declaration_answer))]
fn after_declaration(alloc: Global, text: &[char]) -> Result<&[char], Halt>
    ensures { AnswersWithReason (λ x. x.now) halt_refusal result (refusals.declaration_answer text.now) }
{
    let Some(rest) = declaration_at(text) else {
        return Ok(text);
    };
    match fields_at(alloc, rest) {
        Err(fault) => Err(halt(fault, text)),
        Ok((fields, after)) => {
            if are_fields(&fields) {
                return Ok(after);
            }
            if names_another_encoding(&fields) {
                return Err(Halt::Encoding);
            }
            Err(halt(Fault::Malformed, text))
        }
    }
}

fn without_mark(text: &[char]) -> &[char]
    ensures { result.now ≡ spec.without_mark text.now }
{
    match text {
        ['\u{FEFF}', rest @ ..] => rest,
        _ => text,
    }
}

#[tactic(auto, unfolding(crate::specs::Refusals::content_answer))]
fn content_nodes(alloc: Global, text: &[char]) -> Result<Vec<Node>, Halt>
    ensures { AnswersWithReason (λ x. map node_of x.items) halt_refusal result (refusals.content_answer text.now) }
{
    let rest = after_declaration(alloc, without_mark(text))?;
    nodes_of(alloc, rest)
}

/// Whether a byte order mark of UTF-16 stands at the front.
fn has_utf16_mark(bytes: &[u8]) -> bool
    ensures { result ≡ refusals.has_utf16_mark bytes.now }
{
    matches!(bytes, [0xFE, 0xFF, ..] | [0xFF, 0xFE, ..])
}

/// The bytes as a text, of which a document may hold each character.
#[tactic(auto, using(crate::proofs::Utf8Lemmas::utf8_test, crate::proofs::Utf8Lemmas::utf8_fails), unfolding(crate::specs::Refusals::characters_answer))]
fn text_in(bytes: &[u8]) -> Result<&str, XmlError>
    ensures { AnswersWithReason (λ x. chars x.now) error_refusal result (refusals.characters_answer bytes.now) }
{
    match std::str::from_utf8(bytes) {
        Ok(text) => match no_char_at(text) {
            Some(at) => Err(XmlError::NotWellFormed { at }),
            None => Ok(text),
        },
        Err(_) if has_utf16_mark(bytes) => Err(XmlError::Encoding),
        Err(e) => Err(XmlError::NotWellFormed {
            at: e.valid_up_to(),
        }),
    }
}

/// Why a text isn't read whose lines have so many characters.
fn error_of(halt: Halt, text: &str, characters: usize) -> XmlError
    requires { characters ≡ length (lines_from false (chars text.now)) }
    ensures { error_refusal result ≡ option_map (refusals.in_bytes (chars text.now)) (halt_refusal halt) }
{
    match halt {
        Halt::Malformed { left } => XmlError::NotWellFormed {
            at: byte_at(text, characters.saturating_sub(left)),
        },
        Halt::DocumentType => XmlError::DocumentType,
        Halt::Encoding => XmlError::Encoding,
        Halt::Memory => XmlError::OutOfMemory,
    }
}

/// The nodes of the document that the bytes spell.
#[tactic(auto, unfolding(crate::specs::Refusals::reading_answer))]
fn nodes_in(alloc: Global, bytes: &[u8]) -> Result<Vec<Node>, XmlError>
    ensures { AnswersWithReason (λ x. map node_of x.items) error_refusal result (refusals.reading_answer bytes.now) }
{
    let text = text_in(bytes)?;
    let lines = lines_of(alloc, text)?;
    match content_nodes(alloc, &lines) {
        Ok(nodes) => Ok(nodes),
        Err(halt) => Err(error_of(halt, text, lines.len())),
    }
}

/// The document that the bytes spell: well-formed XML 1.0 (fifth edition) in UTF-8, with Namespaces in XML 1.0 (third edition)
/// and without a document type declaration. `NotWellFormed` has the place of the tag, the text, the comment or the like that is
/// wrong, or the length where the bytes end too early; `DocumentType` comes where `<!DOCTYPE` stands in such a place, and
/// `Encoding` where a declaration names another encoding than UTF-8, or a byte order mark says UTF-16. It takes time in
/// proportion to the bytes, and at each name to the logarithm of how many prefixes are bound. Two attributes with one local
/// name are told apart by the texts of their namespaces.
pub fn read(alloc: Global, bytes: &[u8]) -> Result<Document, XmlError>
    ensures document { IsReadAs (λ x. map node_of x.nodes.items) result (spec.document_of bytes.now) }
    // Each refusal exactly where it is due, and with its place.
    ensures answer { AnswersWithReason (λ x. map node_of x.nodes.items) error_refusal result (refusals.reading_answer bytes.now) }
    // Each element that begins ends, and they are all inside the first.
    ensures element { IfOk result (λ x. is_element (map node_of x.nodes.items) ≡ true) }
    // So what is written for it is read again as it is.
    ensures readable { IfOk result (λ x. CouldBeRead (map node_of x.nodes.items)) }
{
    let nodes = nodes_in(alloc, bytes)?;
    Ok(Document { nodes })
}
