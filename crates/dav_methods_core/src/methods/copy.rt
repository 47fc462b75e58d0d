//! COPY.
ghost use Rattle.std.specs.Prelude.{◌≡◌, ◌∷◌, ◌++◌, [], Ok, Some, option_map, IfErr, IfOk, OnOk};
ghost use Rattle.dav_path_core.specs.declared.util.DavMethod.TheVariants as method;
ghost use Rattle.dav_path_core.specs.Segments.{segments};
ghost use Rattle.dav_files_core.specs.Meta.{meta_of};
ghost use Rattle.dav_files_core.specs.Resources.{IsResourceMap};
ghost use Rattle.dav_guarded_core.specs.Checks.{refusing};
ghost use Rattle.dav_session_core.specs.Callers.{as_caller};
ghost use Rattle.dav_fields_core.specs.Fields.{SendsMore};
ghost use Rattle.dav_fields_core.specs.TransferDestinations.{IsDestination};
ghost use Rattle.dav_methods_core.specs.ChangeConditions.{change_course};
ghost use Rattle.dav_methods_core.specs.CreatedPlaces.{TellsPlace};
ghost use Rattle.dav_methods_core.specs.Reaching.{reach_from};
ghost use Rattle.dav_methods_core.specs.CopyMethod.{CantCopy, Copies, CopyLeaves, FailsToCopy};
ghost use Rattle.dav_session_core.specs.LocksInTheWay.{IsRefusedBy};
ghost use Rattle.dav_methods_core.specs.TransferEnds.{ArePlaces, LacksPlaces};
ghost use Rattle.dav_methods_core.specs.CopyMethod.{IsPlanned};
ghost use Rattle.dav_methods_core.specs.TransferEnds.{copies_of, copy_target};
ghost use Rattle.dav_methods_core.specs.Private.Transfers.{checks_of};
ghost use Rattle.dav_session_core.specs.Unhindered.{ends_of, paths_of};
ghost use Rattle.dav_methods_core.specs.Private.Transfers.{refusing_transfers};
ghost use Rattle.dav_session_core.specs.Sessions.{Acts, Looks, caller, live_of, state};
ghost use Rattle.dav_faults_core.specs.declared.faults.Fault.TheVariants as fault;

use super::changes::{by_place, check_locks, done, say_place};
use super::ends::{Ends, ends_of};
use super::preconditions::check_conditions;
use super::reaching::reach_from;
use dav_faults_core::faults::Fault;
use dav_fields_core::bases::Site;
use dav_guarded_core::davpath::DavPath;
use dav_guarded_core::memfs::MemFsMeta;
use dav_guarded_core::util::DavMethod;
use dav_session_core::session::{Session, Transfer, copy_of};
use http::StatusCode;
use http_header::{HeaderMap, HeaderValue};
use http_server::Response;
use rand_core::Rng;
use std::alloc::Global;

/// Copies what stands at a path, with all below it or alone, to where the request leads, and
/// answers 201 with the URL of what was made, or 204 where something stood there (RFC 4918 section
/// 9.8).
///
/// `BadRequest` for a depth of a folder that it can't have; then what `ends_of` gives; `BadRequest`
/// where a name below the path is one that no path has which is read; `Locked` where a lock stands
/// in the way, and `MemberLocked` where one below the target does, with the path of that lock; and
/// then, by the conditions of HTTP, which are of the source, `BadRequest` where one can't be read,
/// and `PreconditionFailed` where one doesn't hold. `InsufficientStorage` may come once some
/// resources are copied.
#[tactic(auto, using(dav_safe_methods_core::proofs::Acting::long_requests))]
pub fn copy<R: Rng>(
    alloc: Global,
    session: &mut Session<R>,
    site: &Site<'_>,
    prefix: &str,
    headers: &HeaderMap<HeaderValue>,
    path: &DavPath,
    response: &mut Response,
) -> Result<StatusCode, Fault>
    requires { response.old.body.items ≡ [] }
    ensures done { IfOk result (λ code. Copies site.now prefix.now headers.now
        (live_of R.stream session.old) (caller session.old) (segments path.now.bytes) code
        (state R.stream session.new)) }
    ensures sent { IfOk result (λ code. SendsMore response.old response.new
        (TellsPlace site.now prefix.now headers.now code)) }
    ensures err { IfErr result (λ e. FailsToCopy site.now prefix.now headers.now
        (live_of R.stream session.old) (caller session.old) (segments path.now.bytes) e) }
    ensures left { IfErr result (λ e. CopyLeaves site.now prefix.now headers.now
        (state R.stream session.old) (caller session.old) (segments path.now.bytes) e
        (state R.stream session.new)) }
    ensures acts { Acts R.stream session.old session.new }
{
    let Plan {
        target,
        known,
        gone,
        transfers,
    } = admitted_plan(alloc, session, site, prefix, headers, path)?;
    say_place(alloc, response, prefix, &target, &known)?;
    let beside = session.copy_cost(&transfers);
    session.clear(gone, beside)?;
    session.copy_all(&transfers)?;
    Ok(done(&known))
}

// What a COPY does once nothing refuses it: its target, what stands there, what goes from there, and
// what is copied.
#[derive(Drop)]
struct Plan {
    target: DavPath,
    known: Option<MemFsMeta>,
    gone: Vec<DavPath>,
    transfers: Vec<Transfer>,
}

// A plan that the conditions of HTTP let be done.
fn admitted_plan<R: Rng>(
    alloc: Global,
    session: &mut Session<R>,
    site: &Site<'_>,
    prefix: &str,
    headers: &HeaderMap<HeaderValue>,
    path: &DavPath,
) -> Result<Plan, Fault>
    ensures ok { IfOk result (λ plan. IsPlanned site.now prefix.now headers.now
        (live_of R.stream session.old) (caller session.old) (segments path.now.bytes)
        (option_map meta_of plan.known) (paths_of plan.gone.items)
        (ends_of plan.transfers.items)) }
    ensures leads { IfOk result (λ plan. IsDestination site.now prefix.now headers.now
        plan.target) }
    ensures course { OnOk result (change_course method.Copy (state R.stream session.old).map
        (segments path.now.bytes) headers.now ≡ Ok tt) }
    ensures err { IfErr result (λ e. FailsToCopy site.now prefix.now headers.now
        (live_of R.stream session.old) (caller session.old) (segments path.now.bytes) e) }
    ensures looks { Looks R.stream session.old session.new }
{
    let deep = reach_from(session, headers, path)?;
    let plan = planned(alloc, session, site, prefix, headers, path, deep)?;
    check_conditions(alloc, session, DavMethod::Copy, headers, path)?;
    Ok(plan)
}

// The plan, but for the conditions.
#[tactic(auto, using(dav_safe_methods_core::proofs::Acting::long_requests))]
fn planned<R: Rng>(
    alloc: Global,
    session: &mut Session<R>,
    site: &Site<'_>,
    prefix: &str,
    headers: &HeaderMap<HeaderValue>,
    path: &DavPath,
    deep: bool,
) -> Result<Plan, Fault>
    requires { reach_from (state R.stream session.old).map (segments path.now.bytes) headers.now
        ≡ Some deep }
    ensures ok { IfOk result (λ plan. IsPlanned site.now prefix.now headers.now
        (live_of R.stream session.old) (caller session.old) (segments path.now.bytes)
        (option_map meta_of plan.known) (paths_of plan.gone.items)
        (ends_of plan.transfers.items)) }
    ensures leads { IfOk result (λ plan. IsDestination site.now prefix.now headers.now
        plan.target) }
    ensures err { IfErr result (λ e. CantCopy site.now prefix.now headers.now
        (live_of R.stream session.old) (caller session.old) (segments path.now.bytes) e) }
    ensures looks { Looks R.stream session.old session.new }
{
    let Ends {
        target,
        known,
        gone,
    } = ends_of(alloc, session, site, prefix, headers, path, true)?;
    let places = places_of(alloc, session, path, deep)?;
    let transfers = transfers_of(alloc, &places, path, &target)?;
    match check_copy(session, &target, known.is_some(), &gone, &transfers) {
        Ok(()) => Ok(Plan {
            target,
            known,
            gone,
            transfers,
        }),
        Err(fault) => Err(by_place(&target, fault)),
    }
}

// The paths of all that stands at a path and below it, each folder before its members, or the path
// alone.
fn places_of<R: Rng>(
    alloc: Global,
    session: &mut Session<R>,
    path: &DavPath,
    deep: bool,
) -> Result<Vec<DavPath>, Fault>
    ensures ok { IfOk result (λ places. ArePlaces (state R.stream session.old).map deep
        (segments path.now.bytes) (paths_of places.items)) }
    ensures err { IfErr result (λ e. LacksPlaces (state R.stream session.old).map deep
        (segments path.now.bytes) e) }
    ensures looks { Looks R.stream session.old session.new }
{
    if deep {
        return session.walk(alloc, copy_of(path)?);
    }
    let mut places = Vec::new(alloc);
    places.push(copy_of(path)?)?;
    Ok(places)
}

// Each place that isn't at or below the target, with its place there.
fn transfers_of(
    alloc: Global,
    places: &[DavPath],
    from: &DavPath,
    to: &DavPath,
) -> Result<Vec<Transfer>, Fault>
    ensures ok { IfOk result (λ transfers. ends_of transfers.items
        ≡ copies_of (segments from.now.bytes) (segments to.now.bytes) (paths_of places.now)) }
    ensures err { IfErr result (λ e. e ≡ fault.InsufficientStorage) }
{
    let mut transfers = Vec::new(alloc);
    for place in places {
        add_transfer(&mut transfers, place, from, to)?;
    }
    Ok(transfers)
}

// Adds a place with where it is copied to; nothing where it is at or below the target.
fn add_transfer(
    transfers: &mut Vec<Transfer>,
    place: &DavPath,
    from: &DavPath,
    to: &DavPath,
) -> Result<(), Fault>
    ensures ok { OnOk result (ends_of transfers.new.items ≡ ends_of transfers.old.items
        ++ copies_of (segments from.now.bytes) (segments to.now.bytes)
        (segments place.now.bytes ∷ [])) }
    ensures err { IfErr result (λ e. e ≡ fault.InsufficientStorage) }
{
    let Some(target) = target_of(place, from, to)? else {
        return Ok(());
    };
    let from = copy_of(place)?;
    transfers.push(Transfer { from, to: target })?;
    Ok(())
}

// Where a place is copied to; nowhere where it is at or below the target.
fn target_of(place: &DavPath, from: &DavPath, to: &DavPath) -> Result<Option<DavPath>, Fault>
    ensures ok { IfOk result (λ target. option_map (λ p. segments p.bytes) target
        ≡ copy_target (segments from.now.bytes) (segments to.now.bytes)
        (segments place.now.bytes)) }
    ensures err { IfErr result (λ e. e ≡ fault.InsufficientStorage) }
{
    if place.behind_prefix().is_at_or_below(to.behind_prefix()) {
        return Ok(None);
    }
    Ok(place.rebased(from.behind_prefix(), to.behind_prefix())?)
}

// Whether the locks let the caller clear the target and write each copy.
#[tactic(auto, using(dav_safe_methods_core::proofs::Acting::long_requests))]
fn check_copy<R: Rng>(
    session: &mut Session<R>,
    to: &DavPath,
    there: bool,
    gone: &[DavPath],
    transfers: &[Transfer],
) -> Result<(), Fault>
    ensures ok { OnOk result (refusing_transfers (live_of R.stream session.old) (caller session.old)
        (segments to.now.bytes) there (paths_of gone.now) transfers.now ≡ []) }
    ensures err { IfErr result (λ e. IsRefusedBy (refusing_transfers (live_of R.stream session.old)
        (caller session.old) (segments to.now.bytes) there (paths_of gone.now) transfers.now) e) }
    ensures looks { Looks R.stream session.old session.new }
    ensures shape { OnOk result (IsResourceMap (state R.stream session.new).map) }
{
    session.check_clearing(to, gone)?;
    check_locks(session, to, there)?;
    check_each(session, transfers)
}

// Whether they let the caller write each copy.
fn check_each<R: Rng>(session: &mut Session<R>, transfers: &[Transfer]) -> Result<(), Fault>
    ensures ok { OnOk result (refusing (live_of R.stream session.old).locks
        (as_caller (caller session.old)) (checks_of transfers.now) ≡ []) }
    ensures err { IfErr result (λ e. IsRefusedBy (refusing (live_of R.stream session.old).locks
        (as_caller (caller session.old)) (checks_of transfers.now)) e) }
    ensures looks { Looks R.stream session.old session.new }
{
    for transfer in transfers {
        session.check(copy_of(&transfer.to)?)?;
    }
    Ok(())
}
