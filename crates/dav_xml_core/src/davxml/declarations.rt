//! The declaration at the front.
ghost use Rattle.std.specs.Prelude.{◌≡◌, ◌≤◌, length, map, option_map, codes};
ghost use Rattle.std.specs.List.{list_all};
ghost use Rattle.dav_xml_core.specs.Declarations as spec;
ghost use Rattle.dav_xml_core.specs.Gives.{Gives};
ghost use Rattle.dav_xml_core.specs.Refusals.{names_another_encoding};
ghost use Rattle.dav_xml_core.specs.Views.{raw_attribute_of};

use super::errors::Fault;
use super::markup::{RawAttribute, attribute_at};
use super::scan::{after_mark, begins_white, skip_white};
use std::alloc::Global;

fn is_digit(c: char) -> bool
    ensures { result ≡ spec.is_digit c }
{
    '0' <= c && c <= '9'
}

fn are_digits(text: &[char]) -> bool
    ensures { result ≡ list_all spec.is_digit text.now }
{
    text.iter().all(|c| is_digit(*c))
}

#[tactic(auto, unfolding(crate::specs::Declarations::is_version))]
fn is_version(text: &[char]) -> bool
    ensures { result ≡ spec.is_version text.now }
{
    match text {
        [a, b, c, digits @ ..] => *a == '1' && *b == '.' && is_digit(*c) && are_digits(digits),
        _ => false,
    }
}

fn is_called(field: &RawAttribute, name: &[char]) -> bool
    ensures { result ≡ spec.is_called name.now (raw_attribute_of field.now) }
{
    field.name.prefix.is_empty() && field.name.local == name
}

#[tactic(auto, unfolding(crate::specs::Declarations::is_version_info))]
fn is_version_info(field: &RawAttribute) -> bool
    ensures { result ≡ spec.is_version_info (raw_attribute_of field.now) }
{
    is_called(field, &['v', 'e', 'r', 's', 'i', 'o', 'n']) && is_version(field.raw)
}

fn is_encoding(field: &RawAttribute) -> bool
    ensures { result ≡ spec.is_called (codes "encoding") (raw_attribute_of field.now) }
{
    is_called(field, &['e', 'n', 'c', 'o', 'd', 'i', 'n', 'g'])
}

fn is_utf8(text: &[char]) -> bool
    ensures { result ≡ spec.is_utf8_name text.now }
{
    match text {
        [u, t, f, '-', '8'] => {
            (*u == 'u' || *u == 'U') && (*t == 't' || *t == 'T') && (*f == 'f' || *f == 'F')
        }
        _ => false,
    }
}

#[tactic(auto, unfolding(crate::specs::Declarations::is_utf8_declaration))]
fn is_utf8_declaration(field: &RawAttribute) -> bool
    ensures { result ≡ spec.is_utf8_declaration (raw_attribute_of field.now) }
{
    is_encoding(field) && is_utf8(field.raw)
}

fn is_yes_or_no(text: &[char]) -> bool
    ensures { result ≡ spec.is_yes_or_no text.now }
{
    matches!(text, ['y', 'e', 's'] | ['n', 'o'])
}

#[tactic(auto, unfolding(crate::specs::Declarations::is_standalone))]
fn is_standalone(field: &RawAttribute) -> bool
    ensures { result ≡ spec.is_standalone (raw_attribute_of field.now) }
{
    is_called(field, &['s', 't', 'a', 'n', 'd', 'a', 'l', 'o', 'n', 'e']) && is_yes_or_no(field.raw)
}

#[tactic(auto, unfolding(crate::specs::Declarations::are_fields))]
pub(super) fn are_fields(fields: &[RawAttribute]) -> bool
    ensures { result ≡ spec.are_fields (map raw_attribute_of fields.now) }
{
    match fields {
        [a] => is_version_info(a),
        [a, b] => is_version_info(a) && (is_utf8_declaration(b) || is_standalone(b)),
        [a, b, c] => is_version_info(a) && is_utf8_declaration(b) && is_standalone(c),
        _ => false,
    }
}

/// Whether the second field is of another encoding.
pub(super) fn names_another_encoding(fields: &[RawAttribute]) -> bool
    ensures { result ≡ names_another_encoding (map raw_attribute_of fields.now) }
{
    match fields {
        [_, field, ..] => is_encoding(field) && !is_utf8(field.raw),
        _ => false,
    }
}

/// The fields up to `?>`, and what follows it.
#[tactic(auto, unfolding(crate::specs::Declarations::fields_at))]
pub(super) fn fields_at(alloc: Global, text: &[char]) -> Result<(Vec<RawAttribute>, &[char]), Fault>
    ensures { Gives (λ x. (map raw_attribute_of x.0.items, x.1.now)) result (spec.fields_at text.now) }
{
    let mut fields = Vec::new(alloc);
    let mut rest = text;
    for _ in 0..text.len() + 1 {
        if let Some(after) = after_mark(skip_white(rest), &['?', '>']) {
            return Ok((fields, after));
        }
        let Some((field, after)) = attribute_at(rest) else {
            return Err(Fault::Malformed);
        };
        fields.push(field)?;
        rest = after;
    }
    Err(Fault::Malformed)
}

/// What follows `<?xml` at the front of a text that has a declaration.
#[tactic(auto, unfolding(crate::specs::Declarations::declaration_at))]
pub(super) fn declaration_at(text: &[char]) -> Option<&[char]>
    ensures { option_map (λ x. x.now) result ≡ spec.declaration_at text.now }
{
    let rest = after_mark(text, &['<', '?', 'x', 'm', 'l'])?;
    if begins_white(rest) { Some(rest) } else { None }
}
