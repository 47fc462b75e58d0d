//! Paths of resources.
ghost use Rattle.std.specs.Prelude.{◌++◌, if◌then◌else◌, take, false, ◌≡◌, ◌≤◌, ◌<◌, ◌^◌, ◌⊎◌, ◌↔◌, ℕ, List, [], ◌∷◌, length, string_bytes, IfOk, IfErr, OnOk, OnErr, IsSome, IfSome, MatchResult, option_map, true};
ghost use Rattle.std.specs.Str.{IsUtf8};
ghost use Rattle.http_uri.specs.Uri.{uri_path};
ghost use Rattle.dav_path_core.specs.PathReading.{CanBeSegment, Read, ends_in_slash, path_of};
ghost use Rattle.dav_path_core.specs.Fault.{Fault};
ghost use Rattle.dav_path_core.specs.Segments.{segments};
ghost use Rattle.dav_path_core.specs.Fronts.{parent, rebased as rebased_path, is_front};
ghost use Rattle.dav_path_core.specs.PathText.{full, folder_bytes};
ghost use Rattle.dav_path_core.specs.Prefix.{SetsPrefix, NeedsSlash};
ghost use Rattle.dav_path_core.specs.Trimmed.{without_last_slash};
ghost use Rattle.dav_path_core.specs.Url.{url};
ghost use Rattle.dav_path_core.specs.Respelling.{KeepsPath, IsReadAsItself};
ghost use Rattle.dav_path_core.specs.Normal.{IsNormal};
ghost use Rattle.dav_path_core.specs.PathNames.{file_name as name_of, relative};
ghost use Rattle.dav_path_core.specs.Private.Keeping.{behind_slashes};

mod iter;
mod lent;
mod reading;
mod shown;
mod url;

use http_uri::Uri;
pub use iter::Segments;
pub use lent::DavPathRef;
use lent::{above_name, trim_slash, trim_slashes};
use reading::{can_be_segment, end_in_slash, kept_pieces, raw_path};
use std::alloc::{AllocError, AllocFailed, Global};
use std::marker::Model;
use thiserror::Error;
pub use url::escaped;

/// Why a text is no path, or can't be had as one. It displays as the case's name (own).
#[derive(Debug, Drop, Error, Clone, Copy, PartialEq, Eq)]
pub enum ParseError {
    /// The text is no URL path, or a segment would hold byte 0 or a slash.
    #[error("InvalidPath")]
    InvalidPath,
    /// The path doesn't begin with the prefix.
    #[error("PrefixMismatch")]
    PrefixMismatch,
    /// A `..` leads out of the root.
    #[error("ForbiddenPath")]
    ForbiddenPath,
    /// There is no memory for it.
    #[error("OutOfMemory")]
    OutOfMemory,
}

impl From<AllocError> for ParseError {
    ghost use Rattle.dav_path_core.specs.declared.davpath.ParseError.TheVariants.{OutOfMemory};

    ghost from_gives = { λ _ e. e ≡ OutOfMemory };

    fn from(_: AllocError) -> Self {
        ParseError::OutOfMemory
    }
}

impl<T: Drop> From<AllocFailed<T>> for ParseError {
    ghost use Rattle.dav_path_core.specs.declared.davpath.ParseError.TheVariants.{OutOfMemory};

    ghost from_gives = { λ _ e. e ≡ OutOfMemory };

    fn from(_: AllocFailed<T>) -> Self {
        ParseError::OutOfMemory
    }
}

/// The path of a resource: its bytes, of which the first may be a prefix that `set_prefix` has set. `new` decodes and
/// resolves them, `from_uri` takes them as they stand.
#[derive(Clone, Drop)]
pub struct DavPath {
    fullpath: Vec<u8>,
    prefix_length: usize,
}

impl Model for DavPath {
    ghost use Rattle.std.specs.Prelude.{◌≤◌, length, take, drop};
    ghost use Rattle.std.specs.Str.{IsUtf8};
    ghost use Rattle.dav_path_core.specs.PathText.{PathText};

    ghost Value = { PathText };

    ghost view = { λ p. record {
      prefix = take p.prefix_length p.fullpath.items;
      bytes = drop p.prefix_length p.fullpath.items;
    } };

    ghost invariant = { λ p. (p.prefix_length ≤ length p.fullpath.items)
        × IsUtf8 (take p.prefix_length p.fullpath.items) };
}

impl DavPath {
    /// Reads a URL path (RFC 3986 sections 2.1, 3.3 and 5.2.4): what stands before the query, its pieces decoded and
    /// its dot segments resolved. The prefix is empty.
    ///
    /// `InvalidPath` for a byte outside 32 to 126, a `#` before the first `?`, no `/` at the front, and a piece that
    /// holds byte 0 or `/`; `ForbiddenPath` for a `..` that leads out of the root; the first faulty piece decides.
    pub fn new(alloc: Global, src: &str) -> Result<DavPath, ParseError>
        ensures ok { IfOk result (λ path. (path.prefix ≡ []) × Read src.now path.bytes) }
        // What can be read is read, unless memory runs out.
        ensures only { (bytes : List ℕ) → Read src.now bytes
            → MatchResult result (λ path. path.bytes ≡ bytes) (λ e. e ≡ ParseError.OutOfMemory) }
        ensures readable { IfOk result (λ path. IsReadAsItself path.bytes) }
        ensures err { IfErr result (λ e. (e ≡ ParseError.OutOfMemory) ⊎ Fault src.now e) }
    {
        let raw = raw_path(src.as_bytes())?;
        let mut fullpath = kept_pieces(alloc, raw)?;
        end_in_slash(&mut fullpath, raw.ends_with(b"/"))?;
        Ok(DavPath {
            fullpath,
            prefix_length: 0,
        })
    }

    /// The path of a request target as it stands there, neither decoded nor resolved (RFC 9110 section 7.1). The prefix
    /// is empty. `OutOfMemory` alone.
    pub fn from_uri(alloc: Global, uri: &Uri) -> Result<DavPath, ParseError>
        ensures ok { IfOk result (λ path. (path.prefix ≡ []) × (path.bytes ≡ uri_path uri.now)) }
        ensures err { IfErr result (λ e. e ≡ ParseError.OutOfMemory) }
    {
        let fullpath = uri.path().as_bytes().to_vec(alloc)?;
        Ok(DavPath {
            fullpath,
            prefix_length: 0,
        })
    }

    /// The path that has that prefix and those bytes behind it, as another path had them: they are neither decoded nor
    /// resolved (own). `OutOfMemory` alone.
    pub fn from_parts(alloc: Global, prefix: &str, bytes: &[u8]) -> Result<DavPath, ParseError>
        ensures ok { IfOk result (λ path. (path.prefix ≡ prefix.now) × (path.bytes ≡ bytes.now)) }
        ensures err { IfErr result (λ e. e ≡ ParseError.OutOfMemory) }
    {
        let mut fullpath = prefix.as_bytes().to_vec(alloc)?;
        fullpath.extend_from_slice(bytes)?;
        Ok(DavPath {
            fullpath,
            prefix_length: prefix.len(),
        })
    }

    /// Sets another prefix, which has to be a front of the whole path and end at a slash. A slash at its end is left
    /// out; where the whole path is the prefix, a slash is put behind it.
    ///
    /// `PrefixMismatch` where the path has no such front; `OutOfMemory` where there is no room for that slash. Refused,
    /// the path stays as it was.
    pub fn set_prefix(&mut self, prefix: &str) -> Result<(), ParseError>
        ensures ok { OnOk result (SetsPrefix (full self.old) prefix.now (full self.new) self.new.prefix) }
        ensures begins { OnOk result ((rest : List ℕ) × (self.new.bytes ≡ 47 ∷ rest)) }
        ensures readable { OnOk result (IsReadAsItself (full self.old) → IsReadAsItself self.new.bytes) }
        ensures err { IfErr result (λ e. ((e ≡ ParseError.OutOfMemory) × NeedsSlash (full self.old) prefix.now)
            ⊎ ((e ≡ ParseError.PrefixMismatch)
            × ((after q : List ℕ) → ¬ SetsPrefix (full self.old) prefix.now after q))) }
        ensures unchanged { OnErr result (self.new ≡ self.old) }
    {
        let prefix = prefix.as_bytes();
        let Some(rest) = self.fullpath.strip_prefix(prefix) else {
            return Err(ParseError::PrefixMismatch);
        };
        if prefix.ends_with(b"/") {
            self.prefix_length = prefix.len() - 1;
            return Ok(());
        }
        if rest.is_empty() {
            self.fullpath.push(b'/')?;
        } else if !rest.starts_with(b"/") {
            return Err(ParseError::PrefixMismatch);
        }
        self.prefix_length = prefix.len();
        Ok(())
    }

    /// The prefix, which is empty until one is set.
    pub fn prefix(&self) -> &str
        ensures { result.now ≡ self.now.prefix }
    {
        str::from_utf8(&self.fullpath[..self.prefix_length]).unwrap()
    }

    /// The whole path, prefix and all.
    pub fn with_prefix(&self) -> DavPathRef<'_>
        ensures { result ≡ full self.now }
    {
        DavPathRef::new(&self.fullpath)
    }

    /// The path behind the prefix, lent. Takes no memory (own).
    pub fn behind_prefix(&self) -> DavPathRef<'_>
        ensures { result ≡ self.now.bytes }
    {
        DavPathRef::new(self.as_bytes())
    }

    /// The bytes behind the prefix.
    pub fn as_bytes(&self) -> &[u8]
        ensures { result.now ≡ self.now.bytes }
    {
        &self.fullpath[self.prefix_length..]
    }

    /// The segments behind the prefix, in order: the non-empty pieces between slashes (RFC 3986 section 3.3).
    pub fn segments(&self) -> Segments<'_>
        ensures value { result ≡ self.now.bytes }
        ensures few { length (segments result) ≤ length result }
        ensures room { length result < 2 ^ 64 }
    {
        Segments::new(self.as_bytes())
    }

    /// Whether the path behind the prefix ends in `/`, as that of a collection does (RFC 4918 section 5.2).
    pub fn is_collection(&self) -> bool
        ensures { result ≡ ends_in_slash self.now.bytes }
    {
        self.behind_prefix().is_collection()
    }

    /// The last segment behind the prefix, or nothing where there is none.
    pub fn file_name_bytes(&self) -> &[u8]
        ensures { result.now ≡ name_of self.now.bytes }
    {
        self.behind_prefix().file_name_bytes()
    }

    /// As `DavPathRef::file_name`, of the path behind the prefix.
    pub fn file_name(&self) -> Option<&str>
        ensures variant { IsSome result ↔ ((0 < length (name_of self.now.bytes)) × IsUtf8 (name_of self.now.bytes)) }
        ensures value { IfSome result (λ name. name.now ≡ name_of self.now.bytes) }
    {
        self.behind_prefix().file_name()
    }

    /// As `DavPathRef::as_url_string`, of the path behind the prefix.
    pub fn as_url_string(&self, alloc: Global) -> Result<String, ParseError>
        ensures ok { IfOk result (λ text. string_bytes text ≡ url self.now.bytes) }
        ensures law { IfOk result (λ text. KeepsPath (string_bytes text) self.now.bytes) }
        ensures err { IfErr result (λ e. e ≡ ParseError.OutOfMemory) }
    {
        self.behind_prefix().as_url_string(alloc)
    }

    /// As `DavPathRef::as_pathbuf`, of the path behind the prefix.
    pub fn as_pathbuf(&self, alloc: Global) -> Result<Option<String>, ParseError>
        ensures ok { IfOk result (λ found. (IsSome found ↔ IsUtf8 (without_last_slash self.now.bytes))
            × IfSome found (λ text. string_bytes text ≡ without_last_slash self.now.bytes)) }
        ensures err { IfErr result (λ e. e ≡ ParseError.OutOfMemory) }
    {
        self.behind_prefix().as_pathbuf(alloc)
    }

    /// As `DavPathRef::as_rel_ospath`, of the path behind the prefix.
    pub fn as_rel_ospath(&self) -> Option<&str>
        ensures variant { IsSome result ↔ IsUtf8 (relative self.now.bytes) }
        ensures value { IfSome result (λ text. text.now ≡ relative self.now.bytes) }
    {
        self.behind_prefix().as_rel_ospath()
    }

    /// The path of the parent, lent: its segments are those behind the prefix without the last. The root is its own
    /// parent. Takes no memory (own).
    pub fn parent_ref(&self) -> DavPathRef<'_>
        ensures { segments result ≡ parent (segments self.now.bytes) }
    {
        DavPathRef::new(above_name(trim_slashes(self.as_bytes())))
    }

    // How many segments there are.
    fn depth(&self) -> usize
        ensures { result ≡ length (segments self.now.bytes) }
    {
        self.segments().count()
    }

    /// The parent, with the same prefix: a slash, and each segment but the last followed by a slash. The root behind
    /// the prefix is its own parent (own). `OutOfMemory` alone.
    pub fn parent(&self) -> Result<DavPath, ParseError>
        ensures ok { IfOk result (λ path. (path.prefix ≡ self.now.prefix)
            × (path.bytes ≡ folder_bytes (parent (segments self.now.bytes)))) }
        // So its segments are those of the path without the last.
        ensures above { IfOk result (λ path. segments path.bytes ≡ parent (segments self.now.bytes)) }
        ensures readable { IfOk result (λ path. IsReadAsItself self.now.bytes → IsReadAsItself path.bytes) }
        ensures err { IfErr result (λ e. e ≡ ParseError.OutOfMemory) }
    {
        let above = self.depth().saturating_sub(1);
        let prefix = &self.fullpath[..self.prefix_length];
        let fullpath = folder_of(*self.fullpath.allocator(), prefix, self.segments(), above)?;
        Ok(DavPath {
            fullpath,
            prefix_length: self.prefix_length,
        })
    }

    /// The path of the member of that name in the folder here, with the same prefix and no slash at its end (own).
    ///
    /// `InvalidPath` for a name that no segment can have: an empty one, `.`, `..`, and one that holds byte 0 or a slash.
    /// `OutOfMemory` else alone.
    pub fn child(&self, name: &[u8]) -> Result<DavPath, ParseError>
        ensures ok { IfOk result (λ path. segments path.bytes ≡ segments self.now.bytes ++ (name.now ∷ [])) }
        ensures prefix { IfOk result (λ path. path.prefix ≡ self.now.prefix) }
        ensures no_slash { IfOk result (λ path. ends_in_slash path.bytes ≡ false) }
        ensures readable { IfOk result (λ path. IsReadAsItself self.now.bytes → IsReadAsItself path.bytes) }
        ensures only { IfOk result (λ path. CanBeSegment name.now) }
        ensures err { IfErr result (λ e. ((e ≡ ParseError.InvalidPath) × ¬ CanBeSegment name.now)
            ⊎ ((e ≡ ParseError.OutOfMemory) × CanBeSegment name.now)) }
    {
        if !can_be_segment(name) {
            return Err(ParseError::InvalidPath);
        }
        let alloc = *self.fullpath.allocator();
        let fullpath = name_behind(alloc, &self.fullpath, self.is_collection(), name)?;
        Ok(DavPath {
            fullpath,
            prefix_length: self.prefix_length,
        })
    }

    /// The path that stands to `to` as this one to `from`, with the same prefix: so a member of a folder that is copied
    /// has its place in the copy. It ends in `/` where this one does, or where it is the root. None where this one
    /// isn't at or below `from` (own). `OutOfMemory` alone.
    pub fn rebased(
        &self,
        from: DavPathRef<'_>,
        to: DavPathRef<'_>,
    ) -> Result<Option<DavPath>, ParseError>
        ensures ok { IfOk result (λ found. option_map (λ path. segments path.bytes) found
            ≡ rebased_path (segments from.entry) (segments to.entry) (segments self.now.bytes)) }
        ensures prefix { IfOk result (λ found. IfSome found (λ path. path.prefix ≡ self.now.prefix)) }
        ensures bytes { IfOk result (λ found. IfSome found (λ path.
            path.bytes ≡ path_of (segments path.bytes) (ends_in_slash self.now.bytes))) }
        ensures readable { IfOk result (λ found. IfSome found (λ path.
            IsReadAsItself self.now.bytes → IsReadAsItself to.entry → IsReadAsItself path.bytes)) }
        ensures err { IfErr result (λ e. (e ≡ ParseError.OutOfMemory)
            × (is_front (segments from.entry) (segments self.now.bytes) ≡ true)) }
    {
        let Some(rest) = self.segments().behind(from.segments()) else {
            return Ok(None);
        };
        let alloc = *self.fullpath.allocator();
        let prefix = &self.fullpath[..self.prefix_length];
        let fullpath = joined(alloc, prefix, to.segments(), rest, self.is_collection())?;
        Ok(Some(DavPath {
            fullpath,
            prefix_length: self.prefix_length,
        }))
    }
}

/// A law for callers: a path that path reading gives begins with `/`, holds no `//`, and has no segment that is `.` or
/// `..` or holds byte 0. It does nothing.
pub fn read_paths_are_normal()
    ensures { (text bytes : List ℕ) → Read text bytes → IsNormal bytes }
{}

/// A law for callers: a text is read as one path at most. It does nothing.
pub fn one_path_is_read()
    ensures { (text p q : List ℕ) → Read text p → Read text q → p ≡ q }
{}

/// A law for callers: a text has one first fault at most. It does nothing.
pub fn one_fault_is_first()
    ensures { (text : List ℕ) (d e : ParseError) → Fault text d → Fault text e → d ≡ e }
{}

// The bytes of a folder behind a prefix, by the first so many of its segments.
fn folder_of(
    alloc: Global,
    prefix: &[u8],
    names: Segments<'_>,
    count: usize,
) -> Result<Vec<u8>, AllocError>
    ensures { IfOk result (λ path. path.items ≡ prefix.now ++ folder_bytes (take count (segments names.entry))) }
{
    let mut path = prefix.to_vec(alloc)?;
    path.push(b'/')?;
    for segment in names.take(count) {
        path.extend_from_slice(segment)?;
        path.push(b'/')?;
    }
    Ok(path)
}

// A path with a name behind it, and a slash between them where the path has none at its end.
fn name_behind(
    alloc: Global,
    folder: &[u8],
    ends_in_slash: bool,
    name: &[u8],
) -> Result<Vec<u8>, AllocError>
    ensures { IfOk result (λ path. path.items
        ≡ folder.now ++ ((if ends_in_slash then [] else 47 ∷ []) ++ name.now)) }
{
    let mut path = folder.to_vec(alloc)?;
    if !ends_in_slash {
        path.push(b'/')?;
    }
    path.extend_from_slice(name)?;
    Ok(path)
}

// The bytes of a path behind a prefix, by the segments of two others, one after the other.
fn joined(
    alloc: Global,
    prefix: &[u8],
    front: Segments<'_>,
    back: Segments<'_>,
    slash: bool,
) -> Result<Vec<u8>, AllocError>
    ensures { IfOk result (λ path. path.items
        ≡ prefix.now ++ path_of (segments front.entry ++ segments back.entry) slash) }
{
    let mut path = prefix.to_vec(alloc)?;
    push_segments(&mut path, front)?;
    push_segments(&mut path, back)?;
    if slash || path.len() == prefix.len() {
        path.push(b'/')?;
    }
    Ok(path)
}

// Each of the segments behind a slash.
fn push_segments(path: &mut Vec<u8>, names: Segments<'_>) -> Result<(), AllocError>
    ensures { OnOk result (path.new.items ≡ path.old.items ++ behind_slashes (segments names.entry)) }
{
    for segment in names {
        path.push(b'/')?;
        path.extend_from_slice(segment)?;
    }
    Ok(())
}

/// Two paths are equal where their whole bytes are, each without one slash at its end where there are more bytes. Their
/// prefixes play no part.
impl PartialEq for DavPath {
    ghost use Rattle.dav_path_core.specs.Trimmed.{is_equal, is_equal-partial_equiv};

    ghost eq = { is_equal };

    ghost laws = { is_equal-partial_equiv };

    fn eq(&self, other: &Self) -> bool {
        trim_slash(&self.fullpath) == trim_slash(&other.fullpath)
    }
}

impl Eq for DavPath {
    ghost use Rattle.dav_path_core.specs.Trimmed.{is_equal-equiv};

    ghost laws = { is_equal-equiv };
}
