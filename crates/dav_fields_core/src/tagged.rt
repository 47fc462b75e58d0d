//! Which resource a list of an `If` speaks of.
ghost use Rattle.std.specs.Prelude.{◌≡◌, ◌≢◌, ◌↔◌, IsTrue, IfOk, IfErr, MatchOption, MatchResult, None, Option};
ghost use Rattle.std.specs.Option.{option_or};
ghost use Rattle.url.specs.Parts.{Parts};
ghost use Rattle.dav_path_core.specs.declared.davpath.ParseError.TheVariants as parse;
ghost use Rattle.dav_path_core.specs.Fronts.{Path};
ghost use Rattle.dav_path_core.specs.PathText.{PathText};
ghost use Rattle.dav_fields_core.specs.Targets.{IsPathOf};
ghost use Rattle.dav_fields_core.specs.TaggedLists.{IsSameServer, NamesByUrl, SpeaksOf, base_of, spoken_path};
ghost use Rattle.dav_faults_core.specs.declared.faults.Fault.TheVariants as fault;

use crate::targets::path_behind;
use dav_faults_core::faults::Fault;
use dav_path_core::davpath::{DavPath, ParseError};
use std::alloc::Global;
use url::Url;

/// Whether the scheme, the host and the port are the same.
pub fn is_same_server(url: &Url, other: &Url) -> bool
    ensures { IsTrue result ↔ IsSameServer url.now other.now }
{
    url.scheme() == other.scheme()
        && url.host_str() == other.host_str()
        && url.port() == other.port()
}

// What is answered where a path is refused: that there is none, or no memory for it.
fn no_path(error: ParseError) -> Result<Option<DavPath>, Fault>
    ensures { MatchResult result (λ found. (found ≡ None) × (error ≢ parse.OutOfMemory)) (λ e. e ≡ fault.InsufficientStorage) }
{
    match error {
        ParseError::OutOfMemory => Err(Fault::from(error)),
        ParseError::InvalidPath => Ok(None),
        ParseError::PrefixMismatch => Ok(None),
        ParseError::ForbiddenPath => Ok(None),
    }
}

// The path that a text is read as, behind the prefix; none where it is read as none, or doesn't stand behind it.
fn path_of(alloc: Global, text: &str, prefix: &str) -> Result<Option<DavPath>, Fault>
    ensures ok { IfOk result (λ found. MatchOption found ((path : PathText) → ¬ IsPathOf prefix.now text.now path)
        (λ path. IsPathOf prefix.now text.now path)) }
    ensures err { IfErr result (λ e. e ≡ fault.InsufficientStorage) }
{
    match path_behind(alloc, text, prefix) {
        Ok(path) => Ok(Some(path)),
        Err(error) => no_path(error),
    }
}

// The path that a URL names on the server, where it names one.
fn named(alloc: Global, url: &Url, base: &Url, here: &DavPath) -> Result<Option<DavPath>, Fault>
    ensures ok { IfOk result (λ at. NamesByUrl (base_of base.now here.now) url.now (spoken_path at)) }
    ensures err { IfErr result (λ e. e ≡ fault.InsufficientStorage) }
{
    if !is_same_server(url, base) {
        return Ok(None);
    }
    path_of(alloc, url.path(), here.prefix())
}

/// The path that a list speaks of, if it is one of the server: that of its tag, and without one the path that the list before it speaks of.
pub fn spoken_of(
    alloc: Global,
    tag: &Option<Url>,
    before: Option<DavPath>,
    base: &Url,
    here: &DavPath,
) -> Result<Option<DavPath>, Fault>
    ensures ok { IfOk result (λ at. (p : Path) (last : Option Parts) → SpeaksOf (base_of base.now here.now) p last (spoken_path before)
        → SpeaksOf (base_of base.now here.now) p (option_or tag.now last) (spoken_path at)) }
    ensures err { IfErr result (λ e. e ≡ fault.InsufficientStorage) }
{
    match tag {
        Some(url) => named(alloc, url, base, here),
        None => Ok(before),
    }
}
