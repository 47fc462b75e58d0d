//! What may be told of what stands at a path.
ghost use Rattle.std.specs.Prelude.{◌≡◌, ◌⊎◌, ◌++◌, [], codes, if◌then◌else◌, map, None};
ghost use Rattle.std.specs.Prelude.{string_bytes, IfErr, IfOk, OnOk};
ghost use Rattle.dav_path_core.specs.Segments.{segments};
ghost use Rattle.dav_files_core.specs.Meta.{meta_of};
ghost use Rattle.dav_files_core.specs.Properties.{property_of};
ghost use Rattle.dav_files_core.specs.Resources.{at_path, is_folder};
ghost use Rattle.dav_fields_core.specs.FileTags.{file_tag};
ghost use Rattle.dav_safe_methods_core.specs.PropertyAnswers as spec_of;
ghost use Rattle.dav_documents_core.specs.DescriptionViews.{description_of};
ghost use Rattle.dav_session_core.specs.Sessions.{live_of, state};
ghost use Rattle.dav_faults_core.specs.declared.faults.Fault.TheVariants as fault;

use dav_documents_core::documents::front_of;
use dav_documents_core::property_documents::Description;
use dav_faults_core::faults::Fault;
use dav_fields_core::content_types::content_type;
use dav_fields_core::dates::{http_date, internet_date};
use dav_fields_core::etags::file_tag;
use dav_guarded_core::davpath::{DavPath, escaped};
use dav_guarded_core::fs::{DavMetaData, Moment};
use dav_guarded_core::guarded::Inspection;
use dav_guarded_core::memfs::MemFsMeta;
use dav_session_core::session::Session;
use rand_core::Rng;
use std::alloc::{AllocError, Global};
use std::convert::AsStr;

/// What may be told of what stands at a path, behind the prefix (RFC 4918 section 15). `NotFound`
/// where nothing stands there.
pub fn describe<R: Rng>(
    alloc: Global,
    session: &Session<R>,
    prefix: &str,
    place: &DavPath,
) -> Result<Description, Fault>
    ensures ok { IfOk result (λ d. spec_of.Describes prefix.now (live_of R.stream session.now)
        (segments place.now.bytes) (description_of d)) }
    ensures err { IfErr result (λ e. (e ≡ fault.InsufficientStorage) ⊎ ((e ≡ fault.NotFound)
        × (at_path (state R.stream session.now).map (segments place.now.bytes) ≡ None))) }
{
    let found = session.inspect(place)?;
    described(alloc, prefix, place, found)
}

fn described(
    alloc: Global,
    prefix: &str,
    place: &DavPath,
    found: Inspection,
) -> Result<Description, Fault>
    ensures ok { IfOk result (λ d. spec_of.IsDescribed prefix.now (segments place.now.bytes)
        (meta_of found.meta) (map property_of found.props.items) found.locks.items
        (description_of d)) }
    ensures err { IfErr result (λ e. e ≡ fault.InsufficientStorage) }
{
    let meta = &found.meta;
    let folder = is_folder(meta);
    Ok(Description {
        url: place_url(alloc, prefix, place, folder)?,
        folder,
        size: meta.len(),
        content_type: content_type(last_segment(place)),
        tag: tag_of(alloc, modified_of(meta), meta.len())?,
        created: internet_date(alloc, created_of(meta))?,
        modified: http_date(alloc, modified_of(meta))?,
        props: found.props,
        locks: found.locks,
    })
}

/// Whether it is a folder.
pub fn is_folder(meta: &MemFsMeta) -> bool
    ensures { result ≡ is_folder (meta_of meta.now).kind }
{
    meta.is_dir()
}

/// The moment of its last change.
pub(crate) fn modified_of(meta: &MemFsMeta) -> Moment
    ensures { result.0 ≡ (meta_of meta.now).modified }
{
    meta.modified().unwrap()
}

fn created_of(meta: &MemFsMeta) -> Moment
    ensures { result.0 ≡ (meta_of meta.now).created }
{
    meta.created().unwrap()
}

fn tag_of(alloc: Global, modified: Moment, size: u64) -> Result<String, Fault>
    ensures ok { IfOk result (λ text. string_bytes text ≡ file_tag modified.0 size) }
    ensures err { IfErr result (λ e. e ≡ fault.InsufficientStorage) }
{
    let tag = file_tag(alloc, modified, size)?;
    Ok(String::from_str(alloc, tag.as_str())?)
}

// The last segment of a path; empty for the root.
fn last_segment(path: &DavPath) -> &[u8]
    ensures { result.now ≡ spec_of.last_or [] (segments path.now.bytes) }
{
    let mut name: &[u8] = &[];
    for segment in path.segments() {
        name = segment;
    }
    name
}

// The URL of a place behind the prefix, with a slash at the end where it is a folder.
fn place_url(
    alloc: Global,
    prefix: &str,
    path: &DavPath,
    folder: bool,
) -> Result<String, AllocError>
    ensures { IfOk result (λ text. string_bytes text ≡ spec_of.place_url prefix.now
        (segments path.now.bytes) folder) }
{
    let mut text = String::new(alloc);
    escaped(front_of(prefix)).append_to(&mut text)?;
    push_segments(&mut text, path)?;
    push_slash(&mut text, folder)?;
    Ok(text)
}

fn push_segments(text: &mut String, path: &DavPath) -> Result<(), AllocError>
    ensures { OnOk result (string_bytes text.new ≡ string_bytes text.old
        ++ spec_of.segments_url (segments path.now.bytes)) }
{
    for segment in path.segments() {
        text.push_str("/")?;
        escaped(segment).append_to(text)?;
    }
    Ok(())
}

fn push_slash(text: &mut String, folder: bool) -> Result<(), AllocError>
    ensures { OnOk result (string_bytes text.new ≡ string_bytes text.old
        ++ (if folder then codes "/" else [])) }
{
    if folder {
        text.push_str("/")?;
    }
    Ok(())
}
