//! The methods of HTTP and WebDAV requests, sets of methods, and moments.
ghost use Rattle.std.specs.Prelude.{◌≡◌, map, MatchResult};
ghost use Rattle.std.specs.Borrow.{sem};
ghost use Rattle.dav_path_core.specs.MethodSets.{bits, with_method, without_method, has_method, method_words, bits_in, bits_of_words};
ghost use Rattle.dav_path_core.specs.Private.Tables.{table_entry};

use http::Method;
use thiserror::Error;

/// A moment, in nanoseconds since 1970 (own).
#[derive(Clone, Copy, PartialEq, Eq, Debug)]
pub struct Moment(pub u64);

/// A method of a request. Its number is the bit that stands for it in a `DavMethodSet`.
#[derive(Debug, Clone, Copy, PartialEq, Eq, Hash)]
pub enum DavMethod {
    Head = 0x1,
    Get = 0x2,
    Put = 0x4,
    Patch = 0x8,
    Options = 0x10,
    PropFind = 0x20,
    PropPatch = 0x40,
    MkCol = 0x80,
    Copy = 0x100,
    Move = 0x200,
    Delete = 0x400,
    Lock = 0x800,
    Unlock = 0x1000,
    Report = 0x2000,
    MkCalendar = 0x4000,
    MkAddressbook = 0x8000,
}

/// The error where a word names no method.
#[derive(Debug, Drop, Clone, Copy, PartialEq, Eq, Error)]
#[error("InvalidMethod")]
pub struct InvalidMethod;

/// The method whose name, in upper case, is exactly that of the `http` crate's method.
impl TryFrom<&Method> for DavMethod {
    ghost use Rattle.std.specs.Prelude.{◌≡◌, ◌≢◌, MatchResult};
    ghost use Rattle.dav_path_core.specs.declared.util.DavMethod.{DavMethod};
    ghost use Rattle.dav_path_core.specs.Methods.{word};

    type Error = InvalidMethod;

    ghost try_from_gives = { λ method r. MatchResult r (λ m. word m ≡ method.now)
        (λ _. (m : DavMethod) → word m ≢ method.now) };

    fn try_from(method: &Method) -> Result<DavMethod, InvalidMethod> {
        match method.as_str() {
            "HEAD" => Ok(DavMethod::Head),
            "GET" => Ok(DavMethod::Get),
            "PUT" => Ok(DavMethod::Put),
            "PATCH" => Ok(DavMethod::Patch),
            "OPTIONS" => Ok(DavMethod::Options),
            "PROPFIND" => Ok(DavMethod::PropFind),
            "PROPPATCH" => Ok(DavMethod::PropPatch),
            "MKCOL" => Ok(DavMethod::MkCol),
            "COPY" => Ok(DavMethod::Copy),
            "MOVE" => Ok(DavMethod::Move),
            "DELETE" => Ok(DavMethod::Delete),
            "LOCK" => Ok(DavMethod::Lock),
            "UNLOCK" => Ok(DavMethod::Unlock),
            "REPORT" => Ok(DavMethod::Report),
            "MKCALENDAR" => Ok(DavMethod::MkCalendar),
            "MKADDRESSBOOK" => Ok(DavMethod::MkAddressbook),
            _ => Err(InvalidMethod),
        }
    }
}

/// A set of methods: a number that has the bit of each of them.
#[derive(Debug, Clone, Copy)]
pub struct DavMethodSet(u32);

impl DavMethodSet {
    ghost use Rattle.dav_path_core.specs.EndsAs.{EndsAs};

    /// Reading by HTTP alone: Get, Head and Options.
    pub const HTTP_RO: DavMethodSet = DavMethodSet(0x13);

    /// Reading and writing by HTTP alone: Put too.
    pub const HTTP_RW: DavMethodSet = DavMethodSet(0x17);

    /// Reading by WebDAV: Get, Head, Options and PropFind.
    pub const WEBDAV_RO: DavMethodSet = DavMethodSet(0x33);

    /// Every method.
    pub const WEBDAV_RW: DavMethodSet = DavMethodSet(0xffffffff);

    /// A law for callers: the bits of the constants. It does nothing.
    pub fn constants_have_these_bits()
        ensures http_ro { bits Self.HTTP_RO ≡ 0x13 }
        ensures http_rw { bits Self.HTTP_RW ≡ 0x17 }
        ensures webdav_ro { bits Self.WEBDAV_RO ≡ 0x33 }
        ensures webdav_rw { bits Self.WEBDAV_RW ≡ 0xffffffff }
    {}

    /// Every method.
    pub fn all() -> DavMethodSet
        ensures { bits result ≡ 0xffffffff }
    {
        Self::WEBDAV_RW
    }

    /// No method.
    pub fn none() -> DavMethodSet
        ensures { bits result ≡ 0 }
    {
        DavMethodSet(0)
    }

    /// Puts a method in, and answers a reference to the set.
    pub fn add(&mut self, method: DavMethod) -> &Self
        ensures* after { sem 𝓛 (EndsAs self.entry (with_method (bits self.old) method)) }
        ensures shown { bits result.now ≡ with_method (bits self.old) method }
    {
        self.0 |= method as u32;
        self
    }

    /// Takes a method out, and answers a reference to the set.
    pub fn remove(&mut self, method: DavMethod) -> &Self
        ensures* after { sem 𝓛 (EndsAs self.entry (without_method (bits self.old) method)) }
        ensures shown { bits result.now ≡ without_method (bits self.old) method }
    {
        self.0 &= !(method as u32);
        self
    }

    /// Whether a method is in the set.
    pub fn contains(&self, method: DavMethod) -> bool
        ensures { result ≡ has_method (bits self.now) method }
    {
        self.0 & (method as u32) != 0
    }

    /// The set of all methods that the words name: `get`, `put` and so on for one method, and `http-ro`, `http-rw`,
    /// `webdav-ro` and `webdav-rw` for the constants of these names. Upper and lower case are the same.
    /// `InvalidMethod` where a word is none of these.
    pub fn from_vec(words: &[&str]) -> Result<DavMethodSet, InvalidMethod>
        ensures { MatchResult result (λ set. bits_of_words (map (λ w. w.now) words.now) ≡ Some (bits set))
            (λ _. bits_of_words (map (λ w. w.now) words.now) ≡ None) }
    {
        let mut set = 0;
        for word in words {
            match word_bits(word) {
                Some(bits) => set |= bits,
                None => return Err(InvalidMethod),
            }
        }
        Ok(DavMethodSet(set))
    }
}

// The words for sets of methods, with their bits.
const WORDS: [(&str, u32); 20] = [
    ("head", DavMethod::Head as u32),
    ("get", DavMethod::Get as u32),
    ("put", DavMethod::Put as u32),
    ("patch", DavMethod::Patch as u32),
    ("options", DavMethod::Options as u32),
    ("propfind", DavMethod::PropFind as u32),
    ("proppatch", DavMethod::PropPatch as u32),
    ("mkcol", DavMethod::MkCol as u32),
    ("copy", DavMethod::Copy as u32),
    ("move", DavMethod::Move as u32),
    ("delete", DavMethod::Delete as u32),
    ("lock", DavMethod::Lock as u32),
    ("unlock", DavMethod::Unlock as u32),
    ("report", DavMethod::Report as u32),
    ("mkcalendar", DavMethod::MkCalendar as u32),
    ("mkaddressbook", DavMethod::MkAddressbook as u32),
    ("http-ro", DavMethodSet::HTTP_RO.0),
    ("http-rw", DavMethodSet::HTTP_RW.0),
    ("webdav-ro", DavMethodSet::WEBDAV_RO.0),
    ("webdav-rw", DavMethodSet::WEBDAV_RW.0),
];

// The bits of a word, if it is one.
fn word_bits(word: &str) -> Option<u32>
    ensures { result ≡ bits_in method_words word.now }
{
    bits_beside(&WORDS, word)
}

// The bits beside a word in a table.
fn bits_beside(table: &[(&str, u32)], word: &str) -> Option<u32>
    ensures { result ≡ bits_in (map table_entry table.now) word.now }
{
    for (name, bits) in table {
        if word.eq_ignore_ascii_case(name) {
            return Some(*bits);
        }
    }
    None
}
