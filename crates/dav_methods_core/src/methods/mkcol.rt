//! MKCOL.
ghost use Rattle.std.specs.Prelude.{IfErr, IfOk, OnErr, OnOk};
ghost use Rattle.dav_path_core.specs.Segments.{segments};
ghost use Rattle.dav_methods_core.specs.MkcolMethod.{CanMake, CantMake, FailsToMake, Makes};
ghost use Rattle.dav_session_core.specs.Sessions.{Acts, Looks, Stays, caller, live_of, state};

use super::changes::{check_above, check_locks};
use super::preconditions::check_conditions;
use dav_faults_core::faults::Fault;
use dav_guarded_core::davpath::DavPath;
use dav_guarded_core::guarded::Command;
use dav_guarded_core::util::DavMethod;
use dav_safe_methods_core::describing::is_folder;
use dav_session_core::session::{Session, copy_of, refused};
use http::StatusCode;
use http_header::{HeaderMap, HeaderValue};
use rand_core::Rng;
use std::alloc::Global;

/// Makes a folder, and answers 201 (RFC 4918 section 9.3).
///
/// `Locked` where a lock stands in the way; else `MethodNotAllowed` where something stands, and
/// `Conflict` where there is no folder in which the folder could stand; and then, by the conditions
/// of HTTP, `BadRequest` where one can't be read, and `PreconditionFailed` where one doesn't hold.
#[tactic(auto, using(dav_safe_methods_core::proofs::Acting::long_requests))]
pub fn mkcol<R: Rng>(
    alloc: Global,
    session: &mut Session<R>,
    headers: &HeaderMap<HeaderValue>,
    path: DavPath,
) -> Result<StatusCode, Fault>
    ensures done { IfOk result (λ code. Makes headers.now (live_of R.stream session.old)
        (caller session.old) (segments path.bytes) code (state R.stream session.new)) }
    ensures err { IfErr result (λ e. FailsToMake headers.now (live_of R.stream session.old)
        (caller session.old) (segments path.bytes) e) }
    ensures refused { OnErr result (Stays R.stream session.old session.new) }
    ensures acts { Acts R.stream session.old session.new }
{
    check_making(session, &path)?;
    check_conditions(alloc, session, DavMethod::MkCol, headers, &path)?;
    match session.change(Command::MkCol { path }) {
        Ok(_) => Ok(StatusCode::CREATED),
        Err(refusal) => Err(refused(&None, refusal)),
    }
}

// Whether a folder can be made but for the conditions: the locks let it, nothing stands there, and
// a folder stands above.
#[tactic(auto, using(dav_safe_methods_core::proofs::Acting::long_requests))]
fn check_making<R: Rng>(session: &mut Session<R>, path: &DavPath) -> Result<(), Fault>
    ensures ok { OnOk result (CanMake (live_of R.stream session.old) (caller session.old)
        (segments path.now.bytes)) }
    ensures err { IfErr result (λ e. CantMake (live_of R.stream session.old) (caller session.old)
        (segments path.now.bytes) e) }
    ensures looks { Looks R.stream session.old session.new }
{
    check_locks(session, path, false)?;
    match session.meta(copy_of(path)?) {
        Some(known) => {
            let folder = is_folder(&known);
            Err(Fault::MethodNotAllowed { folder })
        },
        None => check_above(session, path),
    }
}
