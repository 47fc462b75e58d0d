//! GET, and HEAD, whose body the connection leaves out.
#![tactic(auto, using(crate::proofs::Acting::requests))]

ghost use Rattle.std.specs.Prelude.{◌≡◌, ◌⊎◌, ◌-◌, ◌++◌, ◌∷◌, [], IfOk, IfErr, OnOk};
ghost use Rattle.dav_path_core.specs.Segments.{segments};
ghost use Rattle.dav_files_core.specs.declared.memfs.Kind.TheVariants.{File, Folder};
ghost use Rattle.dav_files_core.specs.Meta.{meta_of};
ghost use Rattle.http_server.specs.Response.{fields_of};
ghost use Rattle.dav_fields_core.specs.AnswerFields.{part_field, tag_fields};
ghost use Rattle.dav_fields_core.specs.Fields.{SendsMore};
ghost use Rattle.dav_safe_methods_core.specs.FolderPages.{IsPage};
ghost use Rattle.dav_safe_methods_core.specs.GetMethod.{FailsToGet, Gets, extent_in, get_outcome};
ghost use Rattle.dav_safe_methods_core.specs.Private.KnownFields.{HasKnownFields};
ghost use Rattle.dav_fields_core.specs.Getting.{tags_by};
ghost use Rattle.dav_fields_core.specs.Marking.{HasShownTag, IsNone, IsRead};
ghost use Rattle.dav_fields_core.specs.Ranges.{part_text, unsatisfied_text};
ghost use Rattle.dav_session_core.specs.Sessions.{Looks, state};
ghost use Rattle.dav_faults_core.specs.declared.faults.Fault.TheVariants as fault;

use crate::describing::modified_of;
use crate::pages::page_of;
use bytes::Bytes;
use dav_faults_core::faults::Fault;
use dav_fields_core::content_types::content_type;
use dav_fields_core::etags::Standing;
use dav_fields_core::fields::{
    add_accept_ranges, add_content_type, add_last_modified, add_part, add_tag, add_unsatisfied,
};
use dav_fields_core::preconditions::{Course, read_course};
use dav_fields_core::ranges::{Extent, extent_of};
use dav_guarded_core::davpath::DavPath;
use dav_guarded_core::fs::DavMetaData;
use dav_guarded_core::memfs::MemFsMeta;
use dav_guarded_core::util::DavMethod;
use dav_session_core::session::{Session, copy_of};
use http::StatusCode;
use http_header::{HeaderMap, HeaderValue};
use http_server::Response;
use rand_core::Rng;
use std::alloc::Global;

/// Answers the bytes of a file, or the part of them that is asked for, or a page of links for a
/// folder; or what the conditions of HTTP ask for in their place. It answers the status.
///
/// `NotFound` where nothing stands there; else `BadRequest` where a condition can't be read, and
/// `PreconditionFailed` where one doesn't hold.
pub fn get<R: Rng>(
    alloc: Global,
    session: &mut Session<R>,
    method: DavMethod,
    headers: &HeaderMap<HeaderValue>,
    path: &DavPath,
    response: &mut Response,
) -> Result<StatusCode, Fault>
    requires { response.old.body.items ≡ [] }
    ensures ok { IfOk result (λ status. SendsMore response.old response.new
        (Gets method (state R.stream session.old).map path.now headers.now status)) }
    ensures err { IfErr result (λ e. FailsToGet method (state R.stream session.old).map
        (segments path.now.bytes) headers.now e) }
    ensures looks { Looks R.stream session.old session.new }
{
    let Some(meta) = session.meta(copy_of(path)?) else {
        return Err(Fault::NotFound);
    };
    let standing = session.standing_known(alloc, path, &meta)?;
    match told(method, &standing, meta.len(), headers)? {
        None => not_modified(alloc, &standing, response),
        Some(Extent::Whole) => tell_whole(alloc, session, path, &meta, &standing, response),
        Some(Extent::Part { first, end }) => tell_part(
            alloc, session, path, &meta, &standing, first, end, response,
        ),
        Some(Extent::Unsatisfiable) => unsatisfied(alloc, meta.len(), response),
    }
}

fn extent_in(
    method: DavMethod,
    standing: &Standing,
    size: u64,
    headers: &HeaderMap<HeaderValue>,
) -> Extent
    ensures { result ≡ extent_in method standing.now size headers.now }
{
    match (method, standing) {
        (DavMethod::Get, Standing::File { .. }) => extent_of(size, &headers.get_all("range")),
        _ => Extent::Whole,
    }
}

// What is told of what stands there, with so many bytes; none where the client has it already.
fn told(
    method: DavMethod,
    standing: &Standing,
    size: u64,
    headers: &HeaderMap<HeaderValue>,
) -> Result<Option<Extent>, Fault>
    ensures { result ≡ get_outcome method standing.now size headers.now }
{
    match read_course(method, standing, headers) {
        None => Err(Fault::BadRequest),
        Some(Course::PreconditionFailed) => Err(Fault::PreconditionFailed),
        Some(Course::NotModified) => Ok(None),
        Some(Course::Whole) => Ok(Some(Extent::Whole)),
        Some(Course::Proceed) => Ok(Some(extent_in(method, standing, size, headers))),
    }
}

// 304, with the tag (RFC 9110 section 15.4.5).
fn not_modified(
    alloc: Global,
    standing: &Standing,
    response: &mut Response,
) -> Result<StatusCode, Fault>
    requires { HasShownTag standing.now }
    ensures ok { IfOk result (λ status. (status ≡ 304) × (fields_of response.new
        ≡ fields_of response.old ++ tag_fields (tags_by standing.now))) }
    ensures body { response.new.body ≡ response.old.body }
    ensures err { IfErr result (λ e. e ≡ fault.InsufficientStorage) }
{
    add_tag(alloc, response, standing)?;
    Ok(StatusCode::NOT_MODIFIED)
}

// 416, with the size (RFC 9110 section 15.5.17).
fn unsatisfied(alloc: Global, size: u64, response: &mut Response) -> Result<StatusCode, Fault>
    ensures ok { IfOk result (λ status. (status ≡ 416) × (fields_of response.new
        ≡ fields_of response.old ++ part_field (unsatisfied_text size) ∷ [])) }
    ensures body { response.new.body ≡ response.old.body }
    ensures err { IfErr result (λ e. e ≡ fault.InsufficientStorage) }
{
    add_unsatisfied(alloc, response, size)?;
    Ok(StatusCode::RANGE_NOT_SATISFIABLE)
}

// 200, with all bytes of a file, or the page of a folder.
fn tell_whole<R: Rng>(
    alloc: Global,
    session: &mut Session<R>,
    path: &DavPath,
    meta: &MemFsMeta,
    standing: &Standing,
    response: &mut Response,
) -> Result<StatusCode, Fault>
    requires shown { HasShownTag standing.now }
    requires empty { response.old.body.items ≡ [] }
    ensures ok { IfOk result (λ status. (status ≡ 200) × HasKnownFields (fields_of response.old)
        (segments path.now.bytes) (meta_of meta.now) (tags_by standing.now)
        (fields_of response.new)) }
    ensures bytes { OnOk result ((meta_of meta.now).kind ≡ File
        → IsRead (state R.stream session.old).map (segments path.now.bytes) 0
        (meta_of meta.now).length response.new.body.items) }
    ensures page { OnOk result ((meta_of meta.now).kind ≡ Folder
        → IsPage (state R.stream session.old).map path.now response.new.body.items) }
    ensures err { IfErr result (λ e. (e ≡ fault.InsufficientStorage) ⊎ ((e ≡ fault.NotFound)
        × IsNone (state R.stream session.old).map (segments path.now.bytes)
        (meta_of meta.now).kind)) }
    ensures looks { Looks R.stream session.old session.new }
{
    if meta.is_dir() {
        return tell_folder(alloc, session, path, meta, response);
    }
    let count = meta.len() as usize;
    tell_bytes(
        alloc,
        session,
        path,
        meta,
        standing,
        StatusCode::OK,
        0,
        count,
        response,
    )
}

// 206, with the bytes of a file from the first place up to the end.
fn tell_part<R: Rng>(
    alloc: Global,
    session: &mut Session<R>,
    path: &DavPath,
    meta: &MemFsMeta,
    standing: &Standing,
    first: u64,
    end: u64,
    response: &mut Response,
) -> Result<StatusCode, Fault>
    requires shown { HasShownTag standing.now }
    requires file { (meta_of meta.now).kind ≡ File }
    requires empty { response.old.body.items ≡ [] }
    ensures ok { IfOk result (λ status. (status ≡ 206) × HasKnownFields (fields_of response.old
        ++ part_field (part_text first end (meta_of meta.now).length) ∷ [])
        (segments path.now.bytes) (meta_of meta.now) (tags_by standing.now)
        (fields_of response.new)) }
    ensures bytes { OnOk result (IsRead (state R.stream session.old).map (segments path.now.bytes)
        first (end - first) response.new.body.items) }
    ensures err { IfErr result (λ e. (e ≡ fault.InsufficientStorage) ⊎ ((e ≡ fault.NotFound)
        × IsNone (state R.stream session.old).map (segments path.now.bytes) File)) }
    ensures looks { Looks R.stream session.old session.new }
{
    add_part(alloc, response, first, end, meta.len())?;
    let status = StatusCode::PARTIAL_CONTENT;
    let count = end.saturating_sub(first) as usize;
    tell_bytes(
        alloc,
        session,
        path,
        meta,
        standing,
        status,
        first as usize,
        count,
        response,
    )
}

// With this status, the bytes of a file from a place on, so many at most.
fn tell_bytes<R: Rng>(
    alloc: Global,
    session: &mut Session<R>,
    path: &DavPath,
    meta: &MemFsMeta,
    standing: &Standing,
    status: StatusCode,
    at: usize,
    count: usize,
    response: &mut Response,
) -> Result<StatusCode, Fault>
    requires shown { HasShownTag standing.now }
    requires file { (meta_of meta.now).kind ≡ File }
    requires empty { response.old.body.items ≡ [] }
    ensures ok { IfOk result (λ s. (s ≡ status) × HasKnownFields (fields_of response.old)
        (segments path.now.bytes) (meta_of meta.now) (tags_by standing.now)
        (fields_of response.new)) }
    ensures bytes { OnOk result (IsRead (state R.stream session.old).map (segments path.now.bytes)
        at count response.new.body.items) }
    ensures err { IfErr result (λ e. (e ≡ fault.InsufficientStorage) ⊎ ((e ≡ fault.NotFound)
        × IsNone (state R.stream session.old).map (segments path.now.bytes) File)) }
    ensures looks { Looks R.stream session.old session.new }
{
    let bytes = session.read(copy_of(path)?, at, count)?;
    add_file_fields(alloc, response, path, meta, standing)?;
    response.body.push(bytes)?;
    Ok(status)
}

// The fields of a file.
fn add_file_fields(
    alloc: Global,
    response: &mut Response,
    path: &DavPath,
    meta: &MemFsMeta,
    standing: &Standing,
) -> Result<(), Fault>
    requires shown { HasShownTag standing.now }
    requires file { (meta_of meta.now).kind ≡ File }
    ensures fields { OnOk result (HasKnownFields (fields_of response.old) (segments path.now.bytes)
        (meta_of meta.now) (tags_by standing.now) (fields_of response.new)) }
    ensures body { response.new.body ≡ response.old.body }
    ensures err { IfErr result (λ e. e ≡ fault.InsufficientStorage) }
{
    add_tag(alloc, response, standing)?;
    add_last_modified(alloc, response, modified_of(meta))?;
    add_content_type(alloc, response, content_type(path.file_name_bytes()))?;
    add_accept_ranges(response)
}

// 200, with the page of a folder.
fn tell_folder<R: Rng>(
    alloc: Global,
    session: &mut Session<R>,
    path: &DavPath,
    meta: &MemFsMeta,
    response: &mut Response,
) -> Result<StatusCode, Fault>
    requires folder { (meta_of meta.now).kind ≡ Folder }
    requires empty { response.old.body.items ≡ [] }
    ensures page { OnOk result (IsPage (state R.stream session.old).map path.now
        response.new.body.items) }
    ensures ok { IfOk result (λ status. (status ≡ 200) × HasKnownFields (fields_of response.old)
        (segments path.now.bytes) (meta_of meta.now) [] (fields_of response.new)) }
    ensures err { IfErr result (λ e. (e ≡ fault.InsufficientStorage) ⊎ ((e ≡ fault.NotFound)
        × IsNone (state R.stream session.old).map (segments path.now.bytes) Folder)) }
    ensures looks { Looks R.stream session.old session.new }
{
    let entries = session.list(copy_of(path)?)?;
    let page = page_of(alloc, path, &entries)?;
    add_last_modified(alloc, response, modified_of(meta))?;
    add_content_type(alloc, response, "text/html; charset=utf-8")?;
    response.body.push(Bytes::from_vec(page)?)?;
    Ok(StatusCode::OK)
}
