//! What methods that make something share.
ghost use Rattle.std.specs.Prelude.{◌≡◌, ◌⊎◌, ◌++◌, [], IfErr, IfOk, OnOk, is_some, if◌then◌else◌};
ghost use Rattle.http_server.specs.Response.{fields_of};
ghost use Rattle.dav_path_core.specs.Fronts.{parent};
ghost use Rattle.dav_path_core.specs.Segments.{segments};
ghost use Rattle.dav_files_core.specs.declared.memfs.Kind.TheVariants.{Folder};
ghost use Rattle.dav_files_core.specs.Resources.{IsResourceMap};
ghost use Rattle.dav_session_core.specs.Callers.{as_caller};
ghost use Rattle.dav_session_core.specs.Ends.{HasFolder};
ghost use Rattle.dav_session_core.specs.LocksInTheWay.{IsRefusedBy, by_place, is_lock_below};
ghost use Rattle.dav_fields_core.specs.Marking.{IsNone};
ghost use Rattle.dav_methods_core.specs.CreatedPlaces.{place_fields};
ghost use Rattle.dav_methods_core.specs.Placing.{target_by};
ghost use Rattle.dav_session_core.specs.Sessions.{Looks, caller, live_of, state};
ghost use Rattle.dav_faults_core.specs.declared.faults.Fault.TheVariants as fault;
ghost use Rattle.dav_guarded_core.specs.Checks.{refusing};

use dav_documents_core::documents::url_text;
use dav_faults_core::faults::Fault;
use dav_fields_core::fields::add_location;
use dav_guarded_core::davpath::DavPath;
use dav_guarded_core::fs::DavMetaData;
use dav_guarded_core::memfs::MemFsMeta;
use dav_session_core::session::{Session, copy_of};
use http::StatusCode;
use http_server::Response;
use rand_core::Rng;
use std::alloc::Global;

/// Whether the locks let the caller put a file there: what is made changes its parent, too.
pub(super) fn check_locks<R: Rng>(
    session: &mut Session<R>,
    path: &DavPath,
    there: bool,
) -> Result<(), Fault>
    ensures ok { OnOk result (refusing (live_of R.stream session.old).locks
        (as_caller (caller session.old)) (target_by there (segments path.now.bytes)) ≡ []) }
    ensures err { IfErr result (λ e. IsRefusedBy (refusing (live_of R.stream session.old).locks
        (as_caller (caller session.old)) (target_by there (segments path.now.bytes))) e) }
    ensures looks { Looks R.stream session.old session.new }
    ensures shape { OnOk result (IsResourceMap (state R.stream session.new).map) }
{
    session.check(copy_of(path)?)?;
    if there {
        return Ok(());
    }
    session.check(parent_of(path)?)
}

/// Whether a folder stands above. `Conflict` where none does.
pub(super) fn check_above<R: Rng>(session: &mut Session<R>, path: &DavPath) -> Result<(), Fault>
    ensures ok { OnOk result (HasFolder (state R.stream session.old).map
        (parent (segments path.now.bytes))) }
    ensures err { IfErr result (λ e. (e ≡ fault.InsufficientStorage) ⊎ ((e ≡ fault.Conflict)
        × IsNone (state R.stream session.old).map (parent (segments path.now.bytes)) Folder)) }
    ensures looks { Looks R.stream session.old session.new }
{
    match session.meta(parent_of(path)?) {
        Some(above) => if above.is_dir() {
            Ok(())
        } else {
            Err(Fault::Conflict)
        },
        None => Err(Fault::Conflict),
    }
}

// The path above.
fn parent_of(path: &DavPath) -> Result<DavPath, Fault>
    ensures ok { IfOk result (λ above. segments above.bytes ≡ parent (segments path.now.bytes)) }
    ensures err { IfErr result (λ e. e ≡ fault.InsufficientStorage) }
{
    Ok(path.parent()?)
}

/// The status, by what stood there before.
pub(super) fn done(known: &Option<MemFsMeta>) -> StatusCode
    ensures { result ≡ (if is_some known.now then 204 else 201) }
{
    match known {
        Some(_) => StatusCode::NO_CONTENT,
        None => StatusCode::CREATED,
    }
}

/// Says at which URL something is made, where nothing stood (RFC 9110 section 15.3.2).
pub(super) fn say_place(
    alloc: Global,
    response: &mut Response,
    prefix: &str,
    path: &DavPath,
    known: &Option<MemFsMeta>,
) -> Result<(), Fault>
    ensures fields { OnOk result (fields_of response.new ≡ fields_of response.old
        ++ place_fields prefix.now path.now (if is_some known.now then 204 else 201)) }
    ensures body { response.new.body ≡ response.old.body }
    ensures err { IfErr result (λ e. e ≡ fault.InsufficientStorage) }
{
    if known.is_some() {
        return Ok(());
    }
    let url = url_text(alloc, prefix, path)?;
    add_location(alloc, response, &url)
}

/// A lock that stands below the path is told as a member's.
pub(super) fn by_place(path: &DavPath, fault: Fault) -> Fault
    ensures { result ≡ by_place (segments path.now.bytes) fault }
{
    match fault {
        Fault::Locked(at) => if is_below(path, &at) {
            Fault::MemberLocked(at)
        } else {
            Fault::Locked(at)
        },
        fault => fault,
    }
}

// Whether the second path stands below the first.
pub(super) fn is_below(path: &DavPath, other: &DavPath) -> bool
    ensures { result ≡ is_lock_below (segments path.now.bytes) other.now }
{
    other.behind_prefix().is_at_or_below(path.behind_prefix())
        && !path.behind_prefix().is_at_or_below(other.behind_prefix())
}
