//! The two ends of a COPY or a MOVE.
ghost use Rattle.std.specs.Prelude.{◌≡◌, option_map, IfErr, IfOk};
ghost use Rattle.dav_path_core.specs.Segments.{segments};
ghost use Rattle.dav_files_core.specs.Meta.{meta_of};
ghost use Rattle.dav_methods_core.specs.TransferEnds.{FailsAtEnds, LeadsOn};
ghost use Rattle.dav_session_core.specs.Ends.{is_related};
ghost use Rattle.dav_methods_core.specs.TransferEnds.{AreEnds, FailsToFit, FailsToLead};
ghost use Rattle.dav_methods_core.specs.TransferEnds.{Fits};
ghost use Rattle.dav_session_core.specs.Unhindered.{paths_of};
ghost use Rattle.dav_session_core.specs.Sessions.{Looks, state};
ghost use Rattle.dav_faults_core.specs.declared.faults.Fault.TheVariants as fault;

use super::changes::check_above;
use dav_faults_core::faults::Fault;
use dav_fields_core::bases::Site;
use dav_fields_core::destinations::{destination_in, overwrites};
use dav_guarded_core::davpath::DavPath;
use dav_guarded_core::memfs::MemFsMeta;
use dav_session_core::session::{Session, copy_of};
use http_header::{HeaderMap, HeaderValue};
use rand_core::Rng;
use std::alloc::Global;

/// Where a request leads, what stands there, and all that goes from there before anything is
/// written.
#[derive(Drop)]
pub(super) struct Ends {
    pub(super) target: DavPath,
    pub(super) known: Option<MemFsMeta>,
    pub(super) gone: Vec<DavPath>,
}

/// The ends of a request for a path. Where `within` is false the target may not lie below that
/// path.
///
/// `BadRequest` where `Overwrite` can't be read; the fault of a `Destination` that leads nowhere;
/// `Forbidden` for a target at the path or above it, and below it where it may not lie there;
/// `NotFound` where nothing stands at the path; `PreconditionFailed` where something stands at the
/// target that may not be replaced; `Conflict` where no folder stands above the target;
/// `BadRequest` where a name below the target is one that no path has which is read.
pub(super) fn ends_of<R: Rng>(
    alloc: Global,
    session: &mut Session<R>,
    site: &Site<'_>,
    prefix: &str,
    headers: &HeaderMap<HeaderValue>,
    path: &DavPath,
    within: bool,
) -> Result<Ends, Fault>
    ensures ok { IfOk result (λ ends. AreEnds site.now prefix.now headers.now
        (state R.stream session.old).map (segments path.now.bytes) within ends.target
        (option_map meta_of ends.known) (paths_of ends.gone.items)) }
    ensures err { IfErr result (λ e. FailsAtEnds site.now prefix.now headers.now
        (state R.stream session.old).map (segments path.now.bytes) within e) }
    ensures looks { Looks R.stream session.old session.new }
{
    let Target {
        path: target,
        replaces,
    } = target_in(alloc, site, prefix, headers, path, within)?;
    let known = check_fit(session, path, &target, replaces)?;
    let gone = session.folder_at(alloc, &target)?;
    Ok(Ends {
        target,
        known,
        gone,
    })
}

// Where a request leads, and whether it may replace what stands there.
#[derive(Drop)]
struct Target {
    path: DavPath,
    replaces: bool,
}

fn target_in(
    alloc: Global,
    site: &Site<'_>,
    prefix: &str,
    headers: &HeaderMap<HeaderValue>,
    from: &DavPath,
    within: bool,
) -> Result<Target, Fault>
    ensures ok { IfOk result (λ target. LeadsOn site.now prefix.now headers.now
        (segments from.now.bytes) within target.path target.replaces) }
    ensures err { IfErr result (λ e. FailsToLead site.now prefix.now headers.now
        (segments from.now.bytes) within e) }
{
    let replaces = overwrites(headers)?;
    let path = destination_in(alloc, site, prefix, headers)?;
    if is_related(from, &path, within) {
        return Err(Fault::Forbidden);
    }
    Ok(Target { path, replaces })
}

// Whether the target is at the source or above it, or below it where it may not lie there.
fn is_related(from: &DavPath, to: &DavPath, within: bool) -> bool
    ensures { result ≡ is_related within (segments from.now.bytes) (segments to.now.bytes) }
{
    from.behind_prefix().is_at_or_below(to.behind_prefix())
        || (!within && to.behind_prefix().is_at_or_below(from.behind_prefix()))
}

// What is known of the target; whether something stands at the source, what stands at the target
// may be replaced, and a folder stands above it.
#[tactic(auto, using(dav_safe_methods_core::proofs::Acting::long_requests))]
fn check_fit<R: Rng>(
    session: &mut Session<R>,
    from: &DavPath,
    to: &DavPath,
    replaces: bool,
) -> Result<Option<MemFsMeta>, Fault>
    ensures ok { IfOk result (λ known. Fits (state R.stream session.old).map
        (segments from.now.bytes) (segments to.now.bytes) replaces (option_map meta_of known)) }
    ensures err { IfErr result (λ e. FailsToFit (state R.stream session.old).map
        (segments from.now.bytes) (segments to.now.bytes) replaces e) }
    ensures looks { Looks R.stream session.old session.new }
{
    if session.meta(copy_of(from)?).is_none() {
        return Err(Fault::NotFound);
    }
    let known = session.meta(copy_of(to)?);
    if known.is_some() && !replaces {
        return Err(Fault::PreconditionFailed);
    }
    check_above(session, to)?;
    Ok(known)
}
