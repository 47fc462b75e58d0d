//! Parts of a text. Each character of it is read a fixed number of times.
ghost use Rattle.std.specs.Prelude.{◌≡◌, ◌<◌, length, option_map};
ghost use Rattle.dav_xml_core.specs.Scanning as spec;
ghost use Rattle.dav_xml_core.specs.Characters.{is_white};

use super::characters::is_white;

/// What follows this character, where the text begins with it.
pub(super) fn after_char(text: &[char], char: char) -> Option<&[char]>
    ensures { option_map (λ x. x.now) result ≡ spec.after_char char text.now }
{
    match text {
        [first, rest @ ..] if *first == char => Some(rest),
        _ => None,
    }
}

/// What follows the white space at the front.
pub(super) fn skip_white(text: &[char]) -> &[char]
    ensures { result.now ≡ spec.skip_white text.now }
{
    for (i, c) in text.iter().enumerate() {
        if !is_white(*c) {
            return &text[i..];
        }
    }
    &[]
}

/// What stands before the first place of a mark, and after it.
pub(super) fn until<'a>(text: &'a [char], mark: &[char]) -> Option<(&'a [char], &'a [char])>
    ensures { option_map (λ x. (x.0.now, x.1.now)) result ≡ spec.until mark.now text.now }
{
    for i in 0..text.len() {
        if text[i..].starts_with(mark) {
            return Some((&text[..i], &text[i + mark.len()..]));
        }
    }
    None
}

/// What follows a mark, where the text begins with it.
pub(super) fn after_mark<'a>(text: &'a [char], mark: &[char]) -> Option<&'a [char]>
    ensures { option_map (λ x. x.now) result ≡ spec.after_mark mark.now text.now }
{
    if text.starts_with(mark) {
        return Some(&text[mark.len()..]);
    }
    None
}

/// Whether white space stands at the front.
pub(super) fn begins_white(text: &[char]) -> bool
    ensures { result ≡ spec.begins is_white text.now }
{
    match text {
        [c, ..] => is_white(*c),
        [] => false,
    }
}
