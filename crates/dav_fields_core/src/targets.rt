//! The path that the target of a request names.
ghost use Rattle.std.specs.Prelude.{◌≡◌, ◌⊎◌, IfErr, IfOk};
ghost use Rattle.dav_path_core.specs.declared.davpath.ParseError.TheVariants as parse;
ghost use Rattle.dav_path_core.specs.PathText.{PathText};
ghost use Rattle.dav_fields_core.specs.RequestRefusals.{RefusesTarget};
ghost use Rattle.dav_fields_core.specs.Targets.{IsPathOf, IsTargetOf, RefusesPath};
ghost use Rattle.dav_faults_core.specs.declared.faults.Fault.TheVariants as fault;

use dav_faults_core::faults::Fault;
use dav_path_core::davpath::{DavPath, ParseError};
use http::Uri;
use std::alloc::Global;

/// The path, decoded, resolved, and behind the prefix (RFC 9110 section 7.1).
///
/// `BadRequest` where it is no path, `Forbidden` where it leads out of the root, `NotFound` where it isn't behind the prefix.
pub fn target_of(alloc: Global, uri: &Uri, prefix: &str) -> Result<DavPath, Fault>
    ensures ok { IfOk result (λ path. IsTargetOf prefix.now uri.now path) }
    ensures err { IfErr result (λ e. (e ≡ fault.InsufficientStorage) ⊎ RefusesTarget prefix.now uri.now e) }
{
    Ok(path_behind(alloc, uri.path(), prefix)?)
}

/// The path that a text is read as, behind the prefix.
pub fn path_behind(alloc: Global, text: &str, prefix: &str) -> Result<DavPath, ParseError>
    ensures ok { IfOk result (λ path. IsPathOf prefix.now text.now path) }
    // A text that has such a path is refused for memory alone.
    ensures only { (path : PathText) → IsPathOf prefix.now text.now path → IfErr result (λ e. e ≡ parse.OutOfMemory) }
    ensures err { IfErr result (λ e. RefusesPath prefix.now text.now e) }
{
    let mut path = DavPath::new(alloc, text)?;
    match path.set_prefix(prefix) {
        Ok(()) => Ok(path),
        Err(error) => Err(error),
    }
}
