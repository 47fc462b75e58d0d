//! PUT.
ghost use Rattle.std.specs.Prelude.{◌≡◌, ◌⊎◌, ◌++◌, ◌∷◌, [], Ok, Err, IfOk, IfErr, OnOk, OnErr, length};
ghost use Rattle.std.specs.Prelude.{option_map};
ghost use Rattle.dav_path_core.specs.Segments.{segments};
ghost use Rattle.dav_files_core.specs.Meta.{meta_of};
ghost use Rattle.http_server.specs.Response.{fields_of};
ghost use Rattle.dav_fields_core.specs.AnswerFields.{tag_field};
ghost use Rattle.dav_fields_core.specs.Fields.{sent_behind, sent_of};
ghost use Rattle.dav_fields_core.specs.FileTags.{file_tag};
ghost use Rattle.dav_methods_core.specs.PutMethod.{FailsToPut, Writes};
ghost use Rattle.dav_methods_core.specs.Placing.{HasPlace, LacksPlace};
ghost use Rattle.dav_session_core.specs.Sessions.{Acts, Looks, Stays, caller, state};
ghost use Rattle.dav_faults_core.specs.declared.faults.Fault.TheVariants as fault;

use super::changes::{check_above, check_locks, done};
use super::preconditions::check_conditions;
use bytes::Bytes;
use dav_faults_core::faults::Fault;
use dav_fields_core::etags::file_tag;
use dav_fields_core::fields::add_file_tag;
use dav_guarded_core::davpath::DavPath;
use dav_guarded_core::fs::{DavMetaData, Moment};
use dav_guarded_core::guarded::Command;
use dav_guarded_core::memfs::MemFsMeta;
use dav_guarded_core::util::DavMethod;
use dav_session_core::session::{Session, copy_of, refused};
use http::StatusCode;
use http_header::{HeaderMap, HeaderValue};
use http_server::Response;
use rand_core::Rng;
use std::alloc::Global;

/// Makes the bytes of a file those of a request, and answers the status: 201 for a file that is
/// made, 204 for one that was there. The answer gets the tag of the file.
///
/// `Locked` where a lock stands in the way; else `MethodNotAllowed` on a folder, and `Conflict`
/// where there is no folder in which the file could stand; else `BadRequest` where a condition of
/// HTTP can't be read, and `PreconditionFailed` where one doesn't hold.
#[tactic(auto, using(dav_safe_methods_core::proofs::Acting::long_requests))]
pub fn put<R: Rng>(
    alloc: Global,
    session: &mut Session<R>,
    headers: &HeaderMap<HeaderValue>,
    path: DavPath,
    bytes: Bytes,
    response: &mut Response,
) -> Result<StatusCode, Fault>
    requires { response.old.body.items ≡ [] }
    ensures done { IfOk result (λ code. Writes headers.now (state R.stream session.old)
        (caller session.old) (segments path.bytes) bytes code (state R.stream session.new)) }
    ensures sent { OnOk result (sent_of response.new ≡ sent_behind (fields_of response.old)
        (record {
          fields = tag_field (file_tag (caller session.old).now (length bytes)) ∷ [];
          body = [];
        })) }
    ensures err { IfErr result (λ e. FailsToPut (state R.stream session.old) (caller session.old)
        (segments path.bytes) bytes headers.now e) }
    ensures refused { OnErr result (Stays R.stream session.old session.new) }
    ensures acts { Acts R.stream session.old session.new }
{
    let known = session.meta(copy_of(&path)?);
    check_locks(session, &path, known.is_some())?;
    check_place(session, &path, &known)?;
    check_conditions(alloc, session, DavMethod::Put, headers, &path)?;
    say_tag(alloc, response, session.now(), bytes.len() as u64)?;
    match session.change(Command::Put { path, bytes }) {
        Ok(_) => Ok(done(&known)),
        Err(refusal) => Err(refused(&known, refusal)),
    }
}

// Whether a file can stand there: not in a folder's place, and not without a folder above.
fn check_place<R: Rng>(
    session: &mut Session<R>,
    path: &DavPath,
    known: &Option<MemFsMeta>,
) -> Result<(), Fault>
    ensures ok { OnOk result (HasPlace (state R.stream session.old).map (segments path.now.bytes)
        (option_map meta_of known.now)) }
    ensures err { IfErr result (λ e. (e ≡ fault.InsufficientStorage)
        ⊎ LacksPlace (state R.stream session.old).map (segments path.now.bytes)
        (option_map meta_of known.now) e) }
    ensures looks { Looks R.stream session.old session.new }
{
    match known {
        Some(meta) => if meta.is_dir() {
            Err(Fault::MethodNotAllowed { folder: true })
        } else {
            Ok(())
        },
        None => check_above(session, path),
    }
}

// Says the tag of a file that is changed at the moment and has such a length.
fn say_tag(
    alloc: Global,
    response: &mut Response,
    modified: Moment,
    length: u64,
) -> Result<(), Fault>
    ensures fields { OnOk result (fields_of response.new
        ≡ fields_of response.old ++ tag_field (file_tag modified.0 length) ∷ []) }
    ensures body { response.new.body ≡ response.old.body }
    ensures err { IfErr result (λ e. e ≡ fault.InsufficientStorage) }
{
    let tag = file_tag(alloc, modified, length)?;
    add_file_tag(alloc, response, &tag)
}
