//! References, and the values of attributes.
ghost use Rattle.std.specs.Prelude.{◌≡◌, ◌≤◌, Some, map, not, ◌==◌};
ghost use Rattle.std.specs.List.{list_any};
ghost use Rattle.dav_xml_core.specs.Gives.{Gives};
ghost use Rattle.dav_xml_core.specs.References as spec;
ghost use Rattle.dav_xml_core.specs.Characters.{is_char};
ghost use Rattle.dav_xml_core.specs.Optional.{when};
ghost use Rattle.std.specs.Prelude.{option_map, IfOk, IfSome};

use super::characters::{is_char, is_white};
use super::errors::Fault;
use super::scan::until;
use std::alloc::{AllocError, Global};

fn named(name: &[char]) -> Option<char>
    ensures { result ≡ spec.named_entity name.now }
{
    match name {
        ['l', 't'] => Some('<'),
        ['g', 't'] => Some('>'),
        ['a', 'm', 'p'] => Some('&'),
        ['a', 'p', 'o', 's'] => Some('\''),
        ['q', 'u', 'o', 't'] => Some('"'),
        _ => None,
    }
}

fn digit_of(hex: bool, c: char) -> Option<u32>
    ensures value { result ≡ spec.digit_of hex c }
    ensures within { IfSome result (λ d. d ≤ 15) }
{
    let c = c as u32;
    if 48 <= c && c <= 57 {
        return Some(c - 48);
    }
    if hex && 97 <= c && c <= 102 {
        return Some(c - 87);
    }
    if hex && 65 <= c && c <= 70 {
        return Some(c - 55);
    }
    None
}

/// The number, up to the last code of a character.
fn number_of(hex: bool, digits: &[char]) -> Option<u32>
    ensures { result ≡ spec.character_number hex digits.now }
{
    if digits.is_empty() {
        return None;
    }
    let base = if hex { 16 } else { 10 };
    let mut number = 0;
    for c in digits {
        let digit = digit_of(hex, *c)?;
        number = number * base + digit;
        if number > 0x10FFFF {
            return None;
        }
    }
    Some(number)
}

fn digits_of(digits: &[char]) -> Option<u32>
    ensures { result ≡ spec.digits_of digits.now }
{
    match digits {
        [] => None,
        ['x', digits @ ..] => number_of(true, digits),
        _ => number_of(false, digits),
    }
}

fn char_of(number: u32) -> Option<char>
    ensures { result ≡ when (is_char number) number }
{
    let c = char::from_u32(number)?;
    if is_char(c) { Some(c) } else { None }
}

/// The character that a reference stands for, by what is between `&` and `;`.
#[tactic(auto, unfolding(crate::specs::References::referenced_character))]
fn referenced(name: &[char]) -> Option<char>
    ensures { result ≡ spec.referenced_character name.now }
{
    match name {
        [] => None,
        ['#', digits @ ..] => char_of(digits_of(digits)?),
        _ => named(name),
    }
}

/// The reference or the character at the front.
#[tactic(auto, unfolding(crate::specs::References::expanded_at))]
fn expanded_at(text: &[char]) -> Option<(char, &[char])>
    ensures { option_map (λ x. (x.0, x.1.now)) result ≡ spec.expanded_at text.now }
{
    match text {
        [] => None,
        ['&', rest @ ..] => {
            let (name, rest) = until(rest, &[';'])?;
            Some((referenced(name)?, rest))
        }
        [c, rest @ ..] => Some((*c, rest)),
    }
}

/// The text with each reference replaced.
pub(super) fn expanded(alloc: Global, text: &[char]) -> Result<Vec<char>, Fault>
    ensures { Gives (λ x. x.items) result (spec.expanded_text text.now) }
{
    let mut all = Vec::new(alloc);
    let mut rest = text;
    for _ in 0..text.len() + 1 {
        if rest.is_empty() {
            return Ok(all);
        }
        let Some((c, after)) = expanded_at(rest) else {
            return Err(Fault::Malformed);
        };
        all.push(c)?;
        rest = after;
    }
    Err(Fault::Malformed)
}

fn as_blank(c: char) -> char
    ensures { result ≡ spec.as_blank c }
{
    if is_white(c) { ' ' } else { c }
}

fn blanked(alloc: Global, raw: &[char]) -> Result<Vec<char>, AllocError>
    ensures { IfOk result (λ x. x.items ≡ map spec.as_blank raw.now) }
{
    raw.iter().map(|c| as_blank(*c)).collect(alloc)
}

fn holds_less_than(raw: &[char]) -> bool
    ensures { result ≡ list_any (λ c. c == 60) raw.now }
{
    raw.iter().any(|c| *c == '<')
}

/// The value of an attribute, by what is between its quotes.
pub(super) fn value_of(alloc: Global, raw: &[char]) -> Result<Vec<char>, Fault>
    ensures { Gives (λ x. x.items) result (spec.value_of raw.now) }
{
    if holds_less_than(raw) {
        return Err(Fault::Malformed);
    }
    let blanked = blanked(alloc, raw)?;
    expanded(alloc, &blanked)
}
