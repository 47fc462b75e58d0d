//! PROPPATCH.
ghost use Rattle.std.specs.Prelude.{◌≡◌, [], Some, map, IfErr, IfOk, IsSome, OnErr, OnOk};
ghost use Rattle.dav_documents_core.specs.PropertyUpdates.{updates_in};
ghost use Rattle.dav_files_core.specs.Properties.{patch_update};
ghost use Rattle.dav_path_core.specs.Segments.{segments};
ghost use Rattle.dav_files_core.specs.Resources.{at_path};
ghost use Rattle.dav_session_core.specs.Callers.{refusing_at};
ghost use Rattle.dav_fields_core.specs.Fields.{SendsMore};
ghost use Rattle.dav_methods_core.specs.ProppatchMethod.{CanPatch, CantPatch, FailsToPatch};
ghost use Rattle.dav_methods_core.specs.ProppatchMethod.{LacksStanding, Patches};
ghost use Rattle.dav_session_core.specs.Sessions.{Acts, Looks, Stays, caller, live_of, state};

use super::preconditions::check_conditions;
use super::told_paths::told_path;
use dav_documents_core::patch_bodies::{any_protected, patch_document};
use dav_documents_core::property_updates::property_updates;
use dav_faults_core::faults::Fault;
use dav_guarded_core::davpath::DavPath;
use dav_guarded_core::fs::DavProp;
use dav_guarded_core::util::DavMethod;
use dav_safe_methods_core::refusals::say_document;
use dav_session_core::session::{Session, copy_of};
use http::StatusCode;
use http_header::{HeaderMap, HeaderValue};
use http_server::Response;
use rand_core::Rng;
use std::alloc::Global;

/// Sets and removes properties in the order of the body, all or none, and answers 207 with what
/// became of each (RFC 4918 section 9.2). The path of a folder is told with a slash at its end
/// (section 5.2).
///
/// `BadRequest` for a body that asks for no such thing; else `NotFound` where nothing stands at the
/// path; else `Locked` where a lock stands in the way, with its path; and then, by the conditions of
/// HTTP, `BadRequest` where one can't be read, and `PreconditionFailed` where one doesn't hold.
#[tactic(auto, using(dav_safe_methods_core::proofs::Acting::long_requests))]
pub fn proppatch<R: Rng>(
    alloc: Global,
    session: &mut Session<R>,
    prefix: &str,
    headers: &HeaderMap<HeaderValue>,
    path: DavPath,
    body: &[u8],
    response: &mut Response,
) -> Result<StatusCode, Fault>
    requires { response.old.body.items ≡ [] }
    ensures done { IfOk result (λ code. SendsMore response.old response.new
        (λ sent. Patches prefix.now headers.now body.now (live_of R.stream session.old)
        (caller session.old) path code sent (state R.stream session.new))) }
    ensures err { IfErr result (λ e. FailsToPatch headers.now body.now
        (live_of R.stream session.old) (caller session.old) (segments path.bytes) e) }
    ensures refused { OnErr result (Stays R.stream session.old session.new) }
    ensures acts { Acts R.stream session.old session.new }
{
    let updates = updates_for(alloc, session, &path, body)?;
    check_conditions(alloc, session, DavMethod::PropPatch, headers, &path)?;
    let told = told_path(alloc, session, copy_of(&path)?)?;
    say_document(response, patch_document(alloc, prefix, &told, &updates)?)?;
    if any_protected(&updates) {
        return Ok(StatusCode::MULTI_STATUS);
    }
    session.patch(path, updates)?;
    Ok(StatusCode::MULTI_STATUS)
}

// The updates that the body asks for, where they can be made but for the conditions.
#[tactic(auto, using(dav_safe_methods_core::proofs::Acting::long_requests))]
fn updates_for<R: Rng>(
    alloc: Global,
    session: &mut Session<R>,
    path: &DavPath,
    body: &[u8],
) -> Result<Vec<(bool, DavProp)>, Fault>
    ensures asked { IfOk result (λ updates. updates_in body.now
        ≡ Some (map patch_update updates.items)) }
    ensures can { OnOk result (CanPatch body.now (live_of R.stream session.old)
        (caller session.old) (segments path.now.bytes)) }
    ensures err { IfErr result (λ e. CantPatch body.now (live_of R.stream session.old)
        (caller session.old) (segments path.now.bytes) e) }
    ensures looks { Looks R.stream session.old session.new }
{
    let updates = property_updates(alloc, body)?;
    check_standing(session, path)?;
    Ok(updates)
}

// Whether something stands at a path, and the locks let the caller change it.
fn check_standing<R: Rng>(session: &mut Session<R>, path: &DavPath) -> Result<(), Fault>
    ensures ok { OnOk result (
        IsSome (at_path (state R.stream session.old).map (segments path.now.bytes))
        × (refusing_at (live_of R.stream session.old) (caller session.old)
        (segments path.now.bytes) ≡ [])) }
    ensures err { IfErr result (λ e. LacksStanding (live_of R.stream session.old)
        (caller session.old) (segments path.now.bytes) e) }
    ensures looks { Looks R.stream session.old session.new }
{
    let known = session.meta(copy_of(path)?);
    if known.is_none() {
        return Err(Fault::NotFound);
    }
    session.check(copy_of(path)?)
}
