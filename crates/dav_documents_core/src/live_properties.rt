//! The properties that the server makes itself (RFC 4918 section 15).
ghost use Rattle.std.specs.Prelude.{◌≡◌};
ghost use Rattle.dav_xml_core.specs.Views.{name_of};
ghost use Rattle.dav_documents_core.specs.LiveProperties as spec;

use dav_xml_core::davxml::Name;

/// A property that the server makes itself, which no client sets.
#[derive(Clone, Copy)]
pub enum Live {
    /// When the resource was made (RFC 4918 section 15.1).
    CreationDate,
    /// How many bytes a file has (RFC 4918 section 15.4).
    ContentLength,
    /// The type of a file (RFC 4918 section 15.5).
    ContentType,
    /// The tag of a file (RFC 4918 section 15.6).
    Tag,
    /// When the resource was changed last (RFC 4918 section 15.7).
    LastModified,
    /// The locks that cover the resource (RFC 4918 section 15.8).
    Locks,
    /// Whether it is a folder (RFC 4918 section 15.9).
    ResourceType,
    /// The kinds of locks that it takes (RFC 4918 section 15.10).
    SupportedLocks,
}

/// All of them.
pub const LIVE: [Live; 8] = [
    Live::CreationDate,
    Live::ContentLength,
    Live::ContentType,
    Live::Tag,
    Live::LastModified,
    Live::Locks,
    Live::ResourceType,
    Live::SupportedLocks,
];

/// The local name of one, in `DAV:`.
pub fn live_word(live: Live) -> &'static str
    ensures { result.now ≡ spec.live_word live }
{
    match live {
        Live::CreationDate => "creationdate",
        Live::ContentLength => "getcontentlength",
        Live::ContentType => "getcontenttype",
        Live::Tag => "getetag",
        Live::LastModified => "getlastmodified",
        Live::Locks => "lockdiscovery",
        Live::ResourceType => "resourcetype",
        Live::SupportedLocks => "supportedlock",
    }
}

/// The one that has the name, where one has.
pub fn live_named(name: &Name) -> Option<Live>
    ensures { result ≡ spec.live_named (name_of name.now) }
{
    LIVE.iter().copied().find(|live| is_live_by(name, *live))
}

/// Whether it is the local name of one.
pub fn is_live_word(word: &str) -> bool
    ensures { result ≡ spec.is_live_word word.now }
{
    LIVE.iter().any(|live| live_word(*live) == word)
}

fn is_live_by(name: &Name, live: Live) -> bool
    ensures { result ≡ spec.is_live_by (name_of name.now) live }
{
    name.namespace.as_str() == "DAV:" && name.local.as_str() == live_word(live)
}

/// Whether a folder, or a file, has one.
pub fn has_live(folder: bool, live: Live) -> bool
    ensures { result ≡ spec.has_live folder live }
{
    match live {
        Live::ContentLength | Live::ContentType | Live::Tag => !folder,
        _ => true,
    }
}
