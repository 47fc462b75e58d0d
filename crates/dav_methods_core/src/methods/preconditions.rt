//! Whether the conditions of HTTP let a change be done (RFC 9110 section 13.2.1).
ghost use Rattle.std.specs.Prelude.{◌≡◌, ◌⊎◌, Err, Ok, IfErr, OnOk};
ghost use Rattle.dav_path_core.specs.Segments.{segments};
ghost use Rattle.dav_fields_core.specs.Preconditions.{course_of};
ghost use Rattle.dav_methods_core.specs.ChangeConditions.{change_course, changes_by};
ghost use Rattle.dav_session_core.specs.Sessions.{Looks, state};
ghost use Rattle.dav_faults_core.specs.declared.faults.Fault.TheVariants as fault;

use dav_faults_core::faults::Fault;
use dav_fields_core::etags::Standing;
use dav_fields_core::preconditions::{Course, asks_nothing, read_course};
use dav_guarded_core::davpath::DavPath;
use dav_guarded_core::util::DavMethod;
use dav_session_core::session::Session;
use http_header::{HeaderMap, HeaderValue};
use rand_core::Rng;
use std::alloc::Global;

/// Whether the conditions let a method be done, by what stands at its path.
///
/// `BadRequest` where a condition that is looked at can't be read; `PreconditionFailed` where one
/// doesn't hold; `InsufficientStorage` where there is no memory to look.
pub(super) fn check_conditions<R: Rng>(
    alloc: Global,
    session: &mut Session<R>,
    method: DavMethod,
    headers: &HeaderMap<HeaderValue>,
    path: &DavPath,
) -> Result<(), Fault>
    ensures ok { OnOk result (change_course method (state R.stream session.old).map
        (segments path.now.bytes) headers.now ≡ Ok tt) }
    ensures err { IfErr result (λ e. (e ≡ fault.InsufficientStorage)
        ⊎ (change_course method (state R.stream session.old).map (segments path.now.bytes)
        headers.now ≡ Err e)) }
    ensures looks { Looks R.stream session.old session.new }
{
    if asks_nothing(headers) {
        return Ok(());
    }
    let standing = session.standing(alloc, path)?;
    course_lets(method, headers, &standing)
}

/// The same, of what is known to stand there. It takes no memory.
pub(super) fn course_lets(
    method: DavMethod,
    headers: &HeaderMap<HeaderValue>,
    standing: &Standing,
) -> Result<(), Fault>
    ensures { result ≡ changes_by (course_of method standing.now headers.now) }
{
    match read_course(method, standing, headers) {
        None => Err(Fault::BadRequest),
        Some(Course::Proceed) | Some(Course::Whole) => Ok(()),
        Some(Course::NotModified) | Some(Course::PreconditionFailed) => Err(
            Fault::PreconditionFailed,
        ),
    }
}
