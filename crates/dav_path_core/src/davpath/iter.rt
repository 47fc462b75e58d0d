//! The segments of a path, one after another.
ghost use Rattle.std.specs.Prelude.{◌≡◌, ◌≤◌, not, length, drop, option_map};
ghost use Rattle.std.specs.List.{position_or_len};
ghost use Rattle.dav_path_core.specs.Segments.{segments, is_slash};
ghost use Rattle.dav_path_core.specs.Fronts.{behind as behind_front};

use std::marker::Model;

/// The segments of a path, in order: the non-empty pieces between slashes (RFC 3986 section 3.3). Each is a slice of
/// the path's own bytes.
#[derive(Drop, Clone)]
pub struct Segments<'a> {
    rest: &'a [u8],
}

impl<'a> Model for Segments<'a> {
    ghost use Rattle.std.specs.Prelude.{List, ℕ};

    ghost Value = { List ℕ };

    ghost view = { λ s. s.rest.now };
}

impl<'a> Segments<'a> {
    pub(crate) fn new(bytes: &'a [u8]) -> Self
        ensures value { result ≡ bytes.now }
        ensures few { length (segments result) ≤ length result }
    {
        Segments { rest: bytes }
    }

    /// The segments behind those of `front`. None where these don't stand in front.
    pub(super) fn behind(self, front: Segments<'_>) -> Option<Segments<'a>>
        ensures { option_map segments result ≡ behind_front (segments front.entry) (segments self.entry) }
    {
        let mut rest = self;
        for segment in front {
            if rest.next()? != segment {
                return None;
            }
        }
        Some(rest)
    }
}

impl<'a> Iterator for Segments<'a> {
    ghost use Rattle.std.specs.Iterator.{YieldsFirstRef, item_count};

    type Item = &'a [u8];

    ghost next_gives = { YieldsFirstRef segments };

    ghost remaining = { item_count segments };

    fn next(&mut self) -> Option<&'a [u8]> {
        let rest = skip_slashes(self.rest);
        let (segment, rest) = rest.split_at(segment_len(rest));
        self.rest = rest;
        if segment.is_empty() {
            None
        } else {
            Some(segment)
        }
    }
}

// How many bytes stand before the first slash.
fn segment_len(bytes: &[u8]) -> usize
    ensures { result ≡ position_or_len is_slash bytes.now }
{
    bytes.iter().position(|b| *b == b'/').unwrap_or(bytes.len())
}

// The bytes from the first that is no slash on.
fn skip_slashes(bytes: &[u8]) -> &[u8]
    ensures { result.now ≡ drop (position_or_len (λ b. not (is_slash b)) bytes.now) bytes.now }
{
    let slashes = bytes.iter().position(|b| *b != b'/').unwrap_or(bytes.len());
    &bytes[slashes..]
}
