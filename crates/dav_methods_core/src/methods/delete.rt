//! DELETE.
ghost use Rattle.std.specs.Prelude.{◌≡◌, IfErr, IfOk, OnErr};
ghost use Rattle.dav_path_core.specs.Segments.{segments};
ghost use Rattle.dav_files_core.specs.Folders.{is_root};
ghost use Rattle.dav_methods_core.specs.DeleteMethod.{CanRemove, CantRemove};
ghost use Rattle.dav_methods_core.specs.DeleteMethod.{FailsToRemove, Removes};
ghost use Rattle.dav_session_core.specs.Sessions.{Acts, Looks, Stays, caller, live_of, state};
ghost use Rattle.dav_session_core.specs.Unhindered.{paths_of};

use super::changes::by_place;
use super::preconditions::check_conditions;
use super::reaching::check_reach;
use dav_faults_core::faults::Fault;
use dav_guarded_core::davpath::DavPath;
use dav_guarded_core::util::DavMethod;
use dav_session_core::session::{Session, copy_of};
use http::StatusCode;
use http_header::{HeaderMap, HeaderValue};
use rand_core::Rng;
use std::alloc::Global;

/// Takes away what stands at a path, with all below it, and answers 204 (RFC 4918 section 9.6).
///
/// `BadRequest` for a depth of a folder that doesn't reach all the way down; `Forbidden` for the root;
/// `NotFound` where nothing stands there; `BadRequest` where a name below it is one that no path
/// has which is read; `Locked` where a lock at the path or above it refuses that any of it goes,
/// and `MemberLocked` where one below it does, with the path of that lock; and then, by the
/// conditions of HTTP, `BadRequest` where one can't be read, and `PreconditionFailed` where one
/// doesn't hold.
#[tactic(auto, using(dav_safe_methods_core::proofs::Acting::long_requests))]
pub fn delete<R: Rng>(
    alloc: Global,
    session: &mut Session<R>,
    headers: &HeaderMap<HeaderValue>,
    path: DavPath,
) -> Result<StatusCode, Fault>
    ensures done { IfOk result (λ code. Removes headers.now (live_of R.stream session.old)
        (caller session.old) (segments path.bytes) code (state R.stream session.new)) }
    ensures err { IfErr result (λ e. FailsToRemove headers.now (live_of R.stream session.old)
        (caller session.old) (segments path.bytes) e) }
    ensures refused { OnErr result (Stays R.stream session.old session.new) }
    ensures acts { Acts R.stream session.old session.new }
{
    let places = removable(alloc, session, headers, &path)?;
    check_conditions(alloc, session, DavMethod::Delete, headers, &path)?;
    session.remove_all(places)?;
    Ok(StatusCode::NO_CONTENT)
}

// The places of all that goes, where it can go but for the conditions.
#[tactic(auto, using(dav_safe_methods_core::proofs::Acting::long_requests))]
fn removable<R: Rng>(
    alloc: Global,
    session: &mut Session<R>,
    headers: &HeaderMap<HeaderValue>,
    path: &DavPath,
) -> Result<Vec<DavPath>, Fault>
    ensures ok { IfOk result (λ places. CanRemove headers.now (live_of R.stream session.old)
        (caller session.old) (segments path.now.bytes) (paths_of places.items)) }
    ensures err { IfErr result (λ e. CantRemove headers.now (live_of R.stream session.old)
        (caller session.old) (segments path.now.bytes) e) }
    ensures looks { Looks R.stream session.old session.new }
{
    check_reach(session, headers, path)?;
    if is_root(path) {
        return Err(Fault::Forbidden);
    }
    let places = session.walk(alloc, copy_of(path)?)?;
    match session.check_removal(&places) {
        Ok(()) => Ok(places),
        Err(fault) => Err(by_place(path, fault)),
    }
}

// Whether the path is that of the root.
fn is_root(path: &DavPath) -> bool
    ensures { result ≡ is_root (segments path.now.bytes) }
{
    path.segments().next().is_none()
}
