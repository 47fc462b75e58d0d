//! Names.
ghost use Rattle.std.specs.Prelude.{◌≡◌, ◌≤◌, length, option_map};
ghost use Rattle.std.specs.List.{prefix_len};
ghost use Rattle.dav_xml_core.specs.Names as spec;
ghost use Rattle.dav_xml_core.specs.Scanning as scanning;
ghost use Rattle.dav_xml_core.specs.Views as views;

use super::scan::after_char;

/// A name as it is written. Without a prefix, the prefix is empty.
#[derive(Clone, Copy)]
pub(super) struct QName<'a> {
    pub(super) prefix: &'a [char],
    pub(super) local: &'a [char],
}

fn is_name_start(c: char) -> bool
    ensures { result ≡ spec.is_name_start c }
{
    let c = c as u32;
    (65 <= c && c <= 90)
        || c == 95
        || (97 <= c && c <= 122)
        || (0xC0 <= c && c <= 0xD6)
        || (0xD8 <= c && c <= 0xF6)
        || (0xF8 <= c && c <= 0x2FF)
        || (0x370 <= c && c <= 0x37D)
        || (0x37F <= c && c <= 0x1FFF)
        || (0x200C <= c && c <= 0x200D)
        || (0x2070 <= c && c <= 0x218F)
        || (0x2C00 <= c && c <= 0x2FEF)
        || (0x3001 <= c && c <= 0xD7FF)
        || (0xF900 <= c && c <= 0xFDCF)
        || (0xFDF0 <= c && c <= 0xFFFD)
        || (0x10000 <= c && c <= 0xEFFFF)
}

fn is_name_char(c: char) -> bool
    ensures { result ≡ spec.is_name_char c }
{
    if is_name_start(c) {
        return true;
    }
    let c = c as u32;
    c == 45
        || c == 46
        || (48 <= c && c <= 57)
        || c == 0xB7
        || (0x300 <= c && c <= 0x36F)
        || (0x203F <= c && c <= 0x2040)
}

/// How many characters of a name stand at the front.
fn name_len(text: &[char]) -> usize
    ensures len { result ≡ prefix_len spec.is_name_char text.now }
    ensures within { result ≤ length text.now }
{
    for (i, c) in text.iter().enumerate() {
        if !is_name_char(*c) {
            return i;
        }
    }
    text.len()
}

fn begins_name(text: &[char]) -> bool
    ensures { result ≡ scanning.begins spec.is_name_start text.now }
{
    match text {
        [c, ..] => is_name_start(*c),
        [] => false,
    }
}

#[tactic(auto, unfolding(crate::specs::Names::ncname_at))]
pub(super) fn ncname_at(text: &[char]) -> Option<(&[char], &[char])>
    ensures { option_map (λ x. (x.0.now, x.1.now)) result ≡ spec.ncname_at text.now }
{
    if !begins_name(text) {
        return None;
    }
    let len = name_len(text);
    Some((&text[..len], &text[len..]))
}

#[tactic(auto, unfolding(crate::specs::Names::qname_at))]
pub(super) fn qname_at(text: &[char]) -> Option<(QName, &[char])>
    ensures { option_map (λ x. (views.qname_of x.0, x.1.now)) result ≡ spec.qname_at text.now }
{
    let (first, rest) = ncname_at(text)?;
    match after_char(rest, ':') {
        Some(rest) => {
            let (local, rest) = ncname_at(rest)?;
            Some((
                QName {
                    prefix: first,
                    local,
                },
                rest,
            ))
        }
        None => Some((
            QName {
                prefix: &[],
                local: first,
            },
            rest,
        )),
    }
}
