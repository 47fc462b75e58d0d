//! MOVE.
ghost use Rattle.std.specs.Prelude.{◌≡◌, [], IfErr, IfOk, OnOk};
ghost use Rattle.dav_path_core.specs.Segments.{segments};
ghost use Rattle.dav_files_core.specs.Resources.{IsResourceMap};
ghost use Rattle.dav_fields_core.specs.Fields.{SendsMore};
ghost use Rattle.dav_session_core.specs.LocksInTheWay.{IsRefusedBy};
ghost use Rattle.dav_methods_core.specs.CreatedPlaces.{TellsPlace};
ghost use Rattle.dav_methods_core.specs.MoveMethod.{FailsToMove, MoveLeaves, Moves};
ghost use Rattle.dav_methods_core.specs.Reaching.{ReachesDown};
ghost use Rattle.dav_session_core.specs.Moving.{refusing_move};
ghost use Rattle.dav_session_core.specs.Unhindered.{paths_of};
ghost use Rattle.dav_session_core.specs.Sessions.{Acts, Looks, caller, live_of, state};

use super::changes::{by_place, done, say_place};
use super::ends::{Ends, ends_of};
use super::preconditions::check_conditions;
use super::reaching::check_reach;
use dav_faults_core::faults::Fault;
use dav_fields_core::bases::Site;
use dav_guarded_core::davpath::DavPath;
use dav_guarded_core::util::DavMethod;
use dav_session_core::session::Session;
use http::StatusCode;
use http_header::{HeaderMap, HeaderValue};
use http_server::Response;
use rand_core::Rng;
use std::alloc::Global;

/// Moves what stands at a path, with all below it, to where the request leads, and answers 201 with
/// the URL of what was made, or 204 where something stood there (RFC 4918 section 9.9).
///
/// `BadRequest` for a depth of a folder that doesn't reach all the way down; then what `ends_of`
/// gives; `Locked` where a lock stands in the way, and `MemberLocked` where one below the path or
/// below the target does, with the path of that lock; and then, by the conditions of HTTP, which are
/// of the source, `BadRequest` where one can't be read, and `PreconditionFailed` where one doesn't
/// hold. `InsufficientStorage` may come once a folder at the target is gone.
#[tactic(auto, using(dav_safe_methods_core::proofs::Acting::long_requests))]
pub fn relocate<R: Rng>(
    alloc: Global,
    session: &mut Session<R>,
    site: &Site<'_>,
    prefix: &str,
    headers: &HeaderMap<HeaderValue>,
    path: DavPath,
    response: &mut Response,
) -> Result<StatusCode, Fault>
    requires { response.old.body.items ≡ [] }
    ensures done { IfOk result (λ code. Moves site.now prefix.now headers.now
        (live_of R.stream session.old) (caller session.old) (segments path.bytes) code
        (state R.stream session.new)) }
    ensures sent { IfOk result (λ code. SendsMore response.old response.new
        (TellsPlace site.now prefix.now headers.now code)) }
    ensures err { IfErr result (λ e. FailsToMove site.now prefix.now headers.now
        (live_of R.stream session.old) (caller session.old) (segments path.bytes) e) }
    ensures left { IfErr result (λ e. MoveLeaves site.now prefix.now headers.now
        (state R.stream session.old) (caller session.old) (segments path.bytes) e
        (state R.stream session.new)) }
    ensures acts { Acts R.stream session.old session.new }
{
    check_reach(session, headers, &path)?;
    relocate_all(alloc, session, site, prefix, headers, path, response)
}

// The same of a request that reaches all that stands there.
#[tactic(auto, using(dav_safe_methods_core::proofs::Acting::long_requests))]
fn relocate_all<R: Rng>(
    alloc: Global,
    session: &mut Session<R>,
    site: &Site<'_>,
    prefix: &str,
    headers: &HeaderMap<HeaderValue>,
    path: DavPath,
    response: &mut Response,
) -> Result<StatusCode, Fault>
    requires empty { response.old.body.items ≡ [] }
    requires reaches { ReachesDown (state R.stream session.old).map (segments path.bytes)
        headers.now }
    ensures done { IfOk result (λ code. Moves site.now prefix.now headers.now
        (live_of R.stream session.old) (caller session.old) (segments path.bytes) code
        (state R.stream session.new)) }
    ensures sent { IfOk result (λ code. SendsMore response.old response.new
        (TellsPlace site.now prefix.now headers.now code)) }
    ensures err { IfErr result (λ e. FailsToMove site.now prefix.now headers.now
        (live_of R.stream session.old) (caller session.old) (segments path.bytes) e) }
    ensures left { IfErr result (λ e. MoveLeaves site.now prefix.now headers.now
        (state R.stream session.old) (caller session.old) (segments path.bytes) e
        (state R.stream session.new)) }
    ensures acts { Acts R.stream session.old session.new }
{
    let Ends {
        target,
        known,
        gone,
    } = ends_of(alloc, session, site, prefix, headers, &path, false)?;
    match check_move(session, &path, &target, &gone) {
        Ok(()) => (),
        Err(fault) => return Err(by_place(&path, by_place(&target, fault))),
    }
    check_conditions(alloc, session, DavMethod::Move, headers, &path)?;
    say_place(alloc, response, prefix, &target, &known)?;
    let beside = session.move_cost(&path, &target);
    session.clear(gone, beside)?;
    session.relocate(path, target)?;
    Ok(done(&known))
}

// Whether the locks let the caller take away the source, clear the target, and stand the source
// there.
fn check_move<R: Rng>(
    session: &mut Session<R>,
    from: &DavPath,
    to: &DavPath,
    gone: &[DavPath],
) -> Result<(), Fault>
    ensures ok { OnOk result (refusing_move (live_of R.stream session.old) (caller session.old)
        (segments from.now.bytes) (segments to.now.bytes) (paths_of gone.now) ≡ []) }
    ensures err { IfErr result (λ e. IsRefusedBy
        (refusing_move (live_of R.stream session.old) (caller session.old)
        (segments from.now.bytes) (segments to.now.bytes) (paths_of gone.now)) e) }
    ensures looks { Looks R.stream session.old session.new }
    ensures shape { OnOk result (IsResourceMap (state R.stream session.new).map) }
{
    session.check_one(from)?;
    if gone.is_empty() {
        return session.check_one(to);
    }
    session.check_clearing(to, gone)
}
