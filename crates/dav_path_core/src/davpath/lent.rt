//! A borrowed path: it reads the bytes of another value, as a `&str` reads those of a `String`.
ghost use Rattle.std.specs.Prelude.{◌≡◌, ◌≤◌, ◌<◌, ◌^◌, ◌↔◌, length, string_bytes, true, false, IsSome, IfSome, MatchOption, IfOk, IfErr};
ghost use Rattle.std.specs.List.{before_last, list_any};
ghost use Rattle.std.specs.Str.{IsUtf8};
ghost use Rattle.dav_path_core.specs.Segments.{segments, is_slash};
ghost use Rattle.dav_path_core.specs.Fronts.{parent, is_front};
ghost use Rattle.dav_path_core.specs.Private.Trimming.{EndsInName};
ghost use Rattle.dav_path_core.specs.PathReading.{ends_in_slash};
ghost use Rattle.dav_path_core.specs.Url.{url};
ghost use Rattle.dav_path_core.specs.Respelling.{KeepsPath};
ghost use Rattle.dav_path_core.specs.Trimmed.{without_last_slash};
ghost use Rattle.dav_path_core.specs.PathNames.{file_name as name_of, lent_parent, relative};

use super::url::url_text;
use super::{ParseError, Segments};
use std::alloc::Global;
use std::marker::Model;

/// A borrowed path. All its bytes are path: it has no prefix.
#[derive(Drop, Clone)]
pub struct DavPathRef<'a> {
    bytes: &'a [u8],
}

impl<'a> Model for DavPathRef<'a> {
    ghost use Rattle.std.specs.Prelude.{List, ℕ};

    ghost Value = { List ℕ };

    ghost view = { λ p. p.bytes.now };
}

impl<'a> DavPathRef<'a> {
    pub(super) fn new(bytes: &'a [u8]) -> Self
        ensures { result ≡ bytes.now }
    {
        DavPathRef { bytes }
    }

    /// The bytes.
    pub fn as_bytes(&self) -> &'a [u8]
        ensures { result.now ≡ self.now }
    {
        self.bytes
    }

    /// The segments, in order: the non-empty pieces between slashes (RFC 3986 section 3.3).
    pub fn segments(&self) -> Segments<'a>
        ensures value { result ≡ self.now }
        ensures few { length (segments result) ≤ length result }
        ensures room { length result < 2 ^ 64 }
    {
        Segments::new(self.bytes)
    }

    /// Whether it ends in `/`, as the path of a collection does (RFC 4918 section 5.2).
    pub fn is_collection(&self) -> bool
        ensures { result ≡ ends_in_slash self.now }
    {
        self.bytes.ends_with(b"/")
    }

    /// Whether it is the other path or stands below it, by segments: so `/ab` isn't below `/a`, and a slash at the end
    /// plays no part. Takes no memory (own).
    pub fn is_at_or_below(&self, other: DavPathRef<'_>) -> bool
        ensures below { result ≡ is_front (segments other.entry) (segments self.now) }
    {
        self.segments().behind(other.segments()).is_some()
    }

    /// What stands before the last slash, but at least one byte. Without a slash it is empty.
    pub fn parent(&self) -> DavPathRef<'a>
        ensures { result ≡ lent_parent self.now }
    {
        match before_last_slash(self.bytes) {
            Some(above) => DavPathRef::new(&self.bytes[..above.len().max(1)]),
            None => DavPathRef::new(&[]),
        }
    }

    /// The last segment, or nothing where there is none.
    pub fn file_name_bytes(&self) -> &'a [u8]
        ensures { result.now ≡ name_of self.now }
    {
        self.segments().last().unwrap_or(&[])
    }

    /// The last segment as a text. None where there is none, and where it is no UTF-8.
    pub fn file_name(&self) -> Option<&'a str>
        ensures variant { IsSome result ↔ ((0 < length (name_of self.now)) × IsUtf8 (name_of self.now)) }
        ensures value { IfSome result (λ name. name.now ≡ name_of self.now) }
    {
        let name = self.file_name_bytes();
        if name.is_empty() {
            None
        } else {
            str::from_utf8(name).ok()
        }
    }

    /// The URL text (RFC 3986 section 2.1): ASCII letters and digits, `-`, `_`, `.`, `~` and `/` as they are, any other
    /// byte as `%` and two upper-case hexadecimal digits. `OutOfMemory` alone.
    pub fn as_url_string(&self, alloc: Global) -> Result<String, ParseError>
        ensures ok { IfOk result (λ text. string_bytes text ≡ url self.now) }
        ensures law { IfOk result (λ text. KeepsPath (string_bytes text) self.now) }
        ensures err { IfErr result (λ e. e ≡ ParseError.OutOfMemory) }
    {
        Ok(url_text(alloc, self.bytes)?)
    }

    /// The bytes as a text, without one slash at the end where there are more bytes. None where that is no UTF-8.
    /// `OutOfMemory` alone.
    pub fn as_pathbuf(&self, alloc: Global) -> Result<Option<String>, ParseError>
        ensures ok { IfOk result (λ found. (IsSome found ↔ IsUtf8 (without_last_slash self.now))
            × IfSome found (λ text. string_bytes text ≡ without_last_slash self.now)) }
        ensures err { IfErr result (λ e. e ≡ ParseError.OutOfMemory) }
    {
        match str::from_utf8(trim_slash(self.bytes)) {
            Ok(text) => Ok(Some(String::from_str(alloc, text)?)),
            Err(_) => Ok(None),
        }
    }

    /// The bytes as a text that can be put behind a folder's: without the first byte, and then without one slash at the
    /// end. None where that is no UTF-8.
    pub fn as_rel_ospath(&self) -> Option<&'a str>
        ensures variant { IsSome result ↔ IsUtf8 (relative self.now) }
        ensures value { IfSome result (λ text. text.now ≡ relative self.now) }
    {
        let rest = self.bytes.get(1..).unwrap_or(&[]);
        str::from_utf8(rest.strip_suffix(b"/").unwrap_or(rest)).ok()
    }
}

// What stands before the last slash, where there is one.
fn before_last_slash(bytes: &[u8]) -> Option<&[u8]>
    ensures { MatchOption result (list_any is_slash bytes.now ≡ false)
        (λ above. (list_any is_slash bytes.now ≡ true) × (above.now ≡ before_last is_slash bytes.now)) }
{
    let mut end = bytes.len();
    while end > 0 {
        end -= 1;
        if bytes[end] == b'/' {
            return Some(&bytes[..end]);
        }
    }
    None
}

/// The bytes without one slash at the end, where there are more bytes.
pub(super) fn trim_slash(bytes: &[u8]) -> &[u8]
    ensures { result.now ≡ without_last_slash bytes.now }
{
    if bytes.ends_with(b"/") && bytes.len() > 1 {
        &bytes[..bytes.len() - 1]
    } else {
        bytes
    }
}

// The bytes without all slashes at the end.
pub(super) fn trim_slashes(bytes: &[u8]) -> &[u8]
    ensures same { segments result.now ≡ segments bytes.now }
    ensures end { EndsInName result.now }
{
    let mut end = bytes.len();
    while end > 0 && bytes[end - 1] == b'/' {
        end -= 1;
    }
    &bytes[..end]
}

// What stands before the last segment, where the bytes end in one.
pub(super) fn above_name(bytes: &[u8]) -> &[u8]
    requires { EndsInName bytes.now }
    ensures { segments result.now ≡ parent (segments bytes.now) }
{
    let mut end = bytes.len();
    while end > 0 && bytes[end - 1] != b'/' {
        end -= 1;
    }
    &bytes[..end]
}
