//! The path of a resource as it is told: that of a folder ends with a slash (RFC 4918 section 5.2).
ghost use Rattle.std.specs.Prelude.{◌≡◌, IfErr, IfOk};
ghost use Rattle.dav_methods_core.specs.ToldPaths.{with_slash, told_path};
ghost use Rattle.dav_session_core.specs.Sessions.{Looks, state};
ghost use Rattle.dav_faults_core.specs.declared.faults.Fault.TheVariants as fault;

use dav_faults_core::faults::Fault;
use dav_guarded_core::davpath::DavPath;
use dav_safe_methods_core::describing::is_folder;
use dav_session_core::session::{Session, copy_of};
use rand_core::Rng;
use std::alloc::Global;

/// The path with a slash at its end where a folder stands there, else the path as it is.
/// `InsufficientStorage` alone.
pub(super) fn told_path<R: Rng>(
    alloc: Global,
    session: &mut Session<R>,
    path: DavPath,
) -> Result<DavPath, Fault>
    ensures ok { IfOk result (λ told. told ≡ told_path (state R.stream session.old).map path) }
    ensures err { IfErr result (λ e. e ≡ fault.InsufficientStorage) }
    ensures looks { Looks R.stream session.old session.new }
{
    match session.meta(copy_of(&path)?) {
        Some(known) => if is_folder(&known) {
            with_slash(alloc, path)
        } else {
            Ok(path)
        },
        None => Ok(path),
    }
}

// The path with a slash at its end.
fn with_slash(alloc: Global, path: DavPath) -> Result<DavPath, Fault>
    ensures ok { IfOk result (λ folder. folder ≡ with_slash path) }
    ensures err { IfErr result (λ e. e ≡ fault.InsufficientStorage) }
{
    if path.is_collection() {
        return Ok(path);
    }
    let mut bytes = path.as_bytes().to_vec(alloc)?;
    bytes.push(b'/')?;
    Ok(DavPath::from_parts(alloc, path.prefix(), &bytes)?)
}
