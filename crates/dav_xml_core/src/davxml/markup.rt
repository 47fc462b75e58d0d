//! Tags, text between them, and what stands aside.
ghost use Rattle.std.specs.Prelude.{◌≡◌, ◌≤◌, Some, length, map, option_map};
ghost use Rattle.std.specs.List.{prefix_len};
ghost use Rattle.dav_xml_core.specs.Gives.{Gives};
ghost use Rattle.dav_xml_core.specs.Markup as spec;
ghost use Rattle.dav_xml_core.specs.Scanning.{skip_white};
ghost use Rattle.dav_xml_core.specs.Sequences.{sequence};
ghost use Rattle.dav_xml_core.specs.Views.{raw_attribute_of, piece_of};

use super::errors::Fault;
use super::names::{QName, ncname_at, qname_at};
use super::scan::{after_char, after_mark, begins_white, skip_white, until};
use std::alloc::Global;

/// An attribute as it is written.
#[derive(Drop)]
pub(super) struct RawAttribute<'a> {
    pub(super) name: QName<'a>,
    /// What stands between the quotes.
    pub(super) raw: &'a [char],
}

/// A part of a document's text.
#[derive(Drop)]
pub(super) enum Piece<'a> {
    /// A start tag, or an empty one.
    Tag(QName<'a>, Vec<RawAttribute<'a>>, bool),
    EndTag(QName<'a>),
    /// Text up to the next tag, with its references.
    Characters(&'a [char]),
    /// The text of a CDATA section.
    CData(&'a [char]),
    /// A comment or a processing instruction.
    Aside,
}

fn eq_at(text: &[char]) -> Option<&[char]>
    ensures { option_map (λ x. x.now) result ≡ spec.eq_at text.now }
{
    let rest = after_char(skip_white(text), '=')?;
    Some(skip_white(rest))
}

fn quoted_at(text: &[char]) -> Option<(&[char], &[char])>
    ensures { option_map (λ x. (x.0.now, x.1.now)) result ≡ spec.quoted_at text.now }
{
    match text {
        ['"', rest @ ..] => until(rest, &['"']),
        ['\'', rest @ ..] => until(rest, &['\'']),
        _ => None,
    }
}

#[tactic(auto, unfolding(crate::specs::Markup::attribute_at))]
pub(super) fn attribute_at(text: &[char]) -> Option<(RawAttribute, &[char])>
    ensures { option_map (λ x. (raw_attribute_of x.0, x.1.now)) result ≡ spec.attribute_at text.now }
{
    if !begins_white(text) {
        return None;
    }
    let (name, rest) = qname_at(skip_white(text))?;
    let (raw, rest) = quoted_at(eq_at(rest)?)?;
    Some((RawAttribute { name, raw }, rest))
}

fn tag_end(text: &[char]) -> Option<(bool, &[char])>
    ensures { option_map (λ x. (x.0, x.1.now)) result ≡ spec.tag_end text.now }
{
    match text {
        ['>', rest @ ..] => Some((false, rest)),
        ['/', '>', rest @ ..] => Some((true, rest)),
        _ => None,
    }
}

/// The attributes up to the end of the tag, whether that is `/>`, and what follows it.
fn attributes_at(alloc: Global, text: &[char]) -> Result<(Vec<RawAttribute>, bool, &[char]), Fault>
    ensures { Gives (λ x. (map raw_attribute_of x.0.items, (x.1, x.2.now))) result
        (sequence (λ rest. spec.tag_end (skip_white rest)) spec.attribute_at text.now) }
{
    let mut attributes = Vec::new(alloc);
    let mut rest = text;
    for _ in 0..text.len() + 1 {
        if let Some((empty, after)) = tag_end(skip_white(rest)) {
            return Ok((attributes, empty, after));
        }
        let Some((attribute, after)) = attribute_at(rest) else {
            return Err(Fault::Malformed);
        };
        attributes.push(attribute)?;
        rest = after;
    }
    Err(Fault::Malformed)
}

#[tactic(auto, unfolding(crate::specs::Markup::start_tag_at))]
fn start_tag_at(alloc: Global, text: &[char]) -> Result<(Piece, &[char]), Fault>
    ensures { Gives (λ x. (piece_of x.0, x.1.now)) result (spec.start_tag_at text.now) }
{
    let (name, rest) = qname_at(text).ok_or(Fault::Malformed)?;
    let (attributes, empty, rest) = attributes_at(alloc, rest)?;
    Ok((Piece::Tag(name, attributes, empty), rest))
}

#[tactic(auto, unfolding(crate::specs::Markup::end_tag_at))]
fn end_tag_at(text: &[char]) -> Option<(Piece, &[char])>
    ensures { option_map (λ x. (piece_of x.0, x.1.now)) result ≡ spec.end_tag_at text.now }
{
    let (name, rest) = qname_at(text)?;
    let rest = after_char(skip_white(rest), '>')?;
    Some((Piece::EndTag(name), rest))
}

#[tactic(auto, unfolding(crate::specs::Markup::comment_at))]
fn comment_at(text: &[char]) -> Option<(Piece, &[char])>
    ensures { option_map (λ x. (piece_of x.0, x.1.now)) result ≡ spec.comment_at text.now }
{
    let (_, rest) = until(text, &['-', '-'])?;
    let rest = after_char(rest, '>')?;
    Some((Piece::Aside, rest))
}

#[tactic(auto, unfolding(crate::specs::Markup::cdata_at))]
fn cdata_at(text: &[char]) -> Option<(Piece, &[char])>
    ensures { option_map (λ x. (piece_of x.0, x.1.now)) result ≡ spec.cdata_at text.now }
{
    let (raw, rest) = until(text, &[']', ']', '>'])?;
    Some((Piece::CData(raw), rest))
}

fn is_xml(target: &[char]) -> bool
    ensures { result ≡ spec.is_xml target.now }
{
    match target {
        [a, b, c] => (*a == 'x' || *a == 'X')
            && (*b == 'm' || *b == 'M')
            && (*c == 'l' || *c == 'L'),
        _ => false,
    }
}

#[tactic(auto, unfolding(crate::specs::Markup::instruction_at))]
fn instruction_at(text: &[char]) -> Option<(Piece, &[char])>
    ensures { option_map (λ x. (piece_of x.0, x.1.now)) result ≡ spec.instruction_at text.now }
{
    let (target, rest) = ncname_at(text)?;
    if is_xml(target) {
        return None;
    }
    let (inside, rest) = until(rest, &['?', '>'])?;
    if inside.is_empty() || begins_white(inside) {
        return Some((Piece::Aside, rest));
    }
    None
}

#[tactic(auto, unfolding(crate::specs::Markup::declared_at))]
fn declared_at(text: &[char]) -> Option<(Piece, &[char])>
    ensures { option_map (λ x. (piece_of x.0, x.1.now)) result ≡ spec.declared_at text.now }
{
    if let Some(rest) = after_mark(text, &['-', '-']) {
        return comment_at(rest);
    }
    let rest = after_mark(text, &['[', 'C', 'D', 'A', 'T', 'A', '['])?;
    cdata_at(rest)
}

#[tactic(auto, unfolding(crate::specs::Markup::markup_at))]
fn markup_at(alloc: Global, text: &[char]) -> Result<(Piece, &[char]), Fault>
    ensures { Gives (λ x. (piece_of x.0, x.1.now)) result (spec.markup_at text.now) }
{
    match text {
        [] => Err(Fault::Malformed),
        ['/', rest @ ..] => end_tag_at(rest).ok_or(Fault::Malformed),
        ['?', rest @ ..] => instruction_at(rest).ok_or(Fault::Malformed),
        ['!', rest @ ..] => declared_at(rest).ok_or(Fault::Malformed),
        _ => start_tag_at(alloc, text),
    }
}

/// How many characters stand before the next tag.
fn text_len(text: &[char]) -> usize
    ensures len { result ≡ prefix_len spec.is_text text.now }
    ensures within { result ≤ length text.now }
{
    for (i, c) in text.iter().enumerate() {
        if *c == '<' {
            return i;
        }
    }
    text.len()
}

#[tactic(auto, unfolding(crate::specs::Markup::characters_at))]
fn characters_at(text: &[char]) -> (Piece, &[char])
    ensures { Some (piece_of result.0, result.1.now) ≡ spec.characters_at text.now }
{
    let len = text_len(text);
    (Piece::Characters(&text[..len]), &text[len..])
}

/// The piece at the front, and what follows it.
#[tactic(auto, unfolding(crate::specs::Markup::piece_at))]
pub(super) fn piece_at(alloc: Global, text: &[char]) -> Result<(Piece, &[char]), Fault>
    ensures { Gives (λ x. (piece_of x.0, x.1.now)) result (spec.piece_at text.now) }
{
    match text {
        [] => Err(Fault::Malformed),
        ['<', rest @ ..] => markup_at(alloc, rest),
        _ => Ok(characters_at(text)),
    }
}
