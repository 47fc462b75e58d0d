//! How far a request reaches: its `Depth` is looked at where a folder stands (RFC 4918 sections
//! 9.6.1, 9.8.3 and 9.9.2).
ghost use Rattle.std.specs.Prelude.{◌≡◌, ◌⊎◌, None, Some, IfErr, IfOk, OnOk};
ghost use Rattle.dav_path_core.specs.Segments.{segments};
ghost use Rattle.dav_methods_core.specs.Reaching.{ReachesDown, folder_stands, reach_from};
ghost use Rattle.dav_session_core.specs.Sessions.{Looks, state};
ghost use Rattle.dav_faults_core.specs.declared.faults.Fault.TheVariants as fault;

use dav_faults_core::faults::Fault;
use dav_fields_core::depths::{check_whole, reach_in};
use dav_guarded_core::davpath::DavPath;
use dav_safe_methods_core::describing::is_folder;
use dav_session_core::session::{Session, copy_of};
use http_header::{HeaderMap, HeaderValue};
use rand_core::Rng;

/// Whether a DELETE or a MOVE reaches all that stands at a path. `BadRequest` where a folder stands
/// there and the depth is another, or can't be read; `InsufficientStorage` where there is no memory
/// to look.
pub(super) fn check_reach<R: Rng>(
    session: &mut Session<R>,
    headers: &HeaderMap<HeaderValue>,
    path: &DavPath,
) -> Result<(), Fault>
    ensures ok { OnOk result (ReachesDown (state R.stream session.old).map
        (segments path.now.bytes) headers.now) }
    ensures err { IfErr result (λ e. (e ≡ fault.InsufficientStorage) ⊎ ((e ≡ fault.BadRequest)
        × ¬ ReachesDown (state R.stream session.old).map (segments path.now.bytes) headers.now)) }
    ensures looks { Looks R.stream session.old session.new }
{
    if folder_stands(session, path)? {
        return check_whole(headers);
    }
    Ok(())
}

/// Whether a COPY reaches all that stands at a path, or the resource there alone. It is refused as
/// `check_reach` says.
pub(super) fn reach_from<R: Rng>(
    session: &mut Session<R>,
    headers: &HeaderMap<HeaderValue>,
    path: &DavPath,
) -> Result<bool, Fault>
    ensures ok { IfOk result (λ deep. reach_from (state R.stream session.old).map
        (segments path.now.bytes) headers.now ≡ Some deep) }
    ensures err { IfErr result (λ e. (e ≡ fault.InsufficientStorage) ⊎ ((e ≡ fault.BadRequest)
        × (reach_from (state R.stream session.old).map (segments path.now.bytes) headers.now
        ≡ None))) }
    ensures looks { Looks R.stream session.old session.new }
{
    if folder_stands(session, path)? {
        return reach_in(headers);
    }
    Ok(true)
}

fn folder_stands<R: Rng>(session: &mut Session<R>, path: &DavPath) -> Result<bool, Fault>
    ensures ok { IfOk result (λ is. is ≡ folder_stands (state R.stream session.old).map
        (segments path.now.bytes)) }
    ensures err { IfErr result (λ e. e ≡ fault.InsufficientStorage) }
    ensures looks { Looks R.stream session.old session.new }
{
    match session.meta(copy_of(path)?) {
        Some(known) => Ok(is_folder(&known)),
        None => Ok(false),
    }
}
