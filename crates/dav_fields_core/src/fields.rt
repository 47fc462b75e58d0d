//! The header fields of answers.
ghost use Rattle.std.specs.Prelude.{◌≡◌, ◌++◌, ◌∷◌, [], IfErr, OnOk};
ghost use Rattle.http_header.specs.FieldValue.{IsFieldValue};
ghost use Rattle.http_server.specs.Response.{fields_of};
ghost use Rattle.dav_fields_core.specs.AnswerFields.{AddsModified, date_field, location_field};
ghost use Rattle.dav_fields_core.specs.AnswerFields.{options_fields, part_field, ranges_field};
ghost use Rattle.dav_fields_core.specs.AnswerFields.{tag_field, tag_fields, token_field, type_field};
ghost use Rattle.dav_fields_core.specs.Fields.{AddsFields, in_brackets};
ghost use Rattle.dav_fields_core.specs.Getting.{tags_by};
ghost use Rattle.dav_fields_core.specs.Marking.{HasShownTag};
ghost use Rattle.dav_fields_core.specs.Ranges.{part_text, unsatisfied_text};
ghost use Rattle.dav_faults_core.specs.declared.faults.Fault.TheVariants as fault;

use crate::dates::date_bytes;
use crate::etags::Standing;
use dav_faults_core::faults::Fault;
use dav_files_core::fs::Moment;
use dav_headers_core::davheaders::ETag;
use http_header::{HeaderName, HeaderValue, HeaderValueError};
use http_server::Response;
use std::alloc::Global;
use std::convert::AsStr;

// Adds a field.
fn add_field(
    alloc: Global,
    response: &mut Response,
    name: HeaderName,
    bytes: &[u8],
) -> Result<(), Fault>
    requires { IsFieldValue bytes.now }
    ensures fields { OnOk result (AddsFields ((name, bytes.now) ∷ [])
        response.old response.new) }
    ensures status { response.new.status ≡ response.old.status }
    ensures body { response.new.body ≡ response.old.body }
    ensures err { IfErr result (λ e. e ≡ fault.InsufficientStorage) }
{
    match HeaderValue::from_bytes(alloc, bytes) {
        Ok(value) => Ok(response.add_header(name, value)?),
        Err(HeaderValueError::OutOfMemory) => Err(Fault::InsufficientStorage),
        Err(HeaderValueError::Invalid) => unreachable!(),
    }
}

/// Says when the answer is made, by the bytes of a date (RFC 9110 section 6.6.1).
/// `InsufficientStorage` where it is out of memory, as of each field.
pub fn add_date(alloc: Global, response: &mut Response, date: &[u8]) -> Result<(), Fault>
    requires { IsFieldValue date.now }
    ensures fields { OnOk result (AddsFields (date_field date.now ∷ [])
        response.old response.new) }
    ensures status { response.new.status ≡ response.old.status }
    ensures body { response.new.body ≡ response.old.body }
    ensures err { IfErr result (λ e. e ≡ fault.InsufficientStorage) }
{
    add_field(alloc, response, HeaderName::from_static("date"), date)
}

/// Says the type of the body (RFC 9110 section 8.3).
pub fn add_content_type(
    alloc: Global,
    response: &mut Response,
    content_type: &str,
) -> Result<(), Fault>
    requires { IsFieldValue content_type.now }
    ensures fields { OnOk result (AddsFields (type_field content_type.now ∷ [])
        response.old response.new) }
    ensures body { response.new.body ≡ response.old.body }
    ensures err { IfErr result (λ e. e ≡ fault.InsufficientStorage) }
{
    let name = HeaderName::from_static("content-type");
    add_field(alloc, response, name, content_type.as_bytes())
}

/// Says when a file or a folder was changed last, in whole seconds (RFC 9110 section 8.8.2).
pub fn add_last_modified(
    alloc: Global,
    response: &mut Response,
    modified: Moment,
) -> Result<(), Fault>
    ensures fields { OnOk result (AddsModified modified.0 (fields_of response.old)
        (fields_of response.new)) }
    ensures body { response.new.body ≡ response.old.body }
    ensures err { IfErr result (λ e. e ≡ fault.InsufficientStorage) }
{
    let name = HeaderName::from_static("last-modified");
    add_field(alloc, response, name, &date_bytes(modified))
}

/// Says that ranges of bytes are served (RFC 9110 section 14.3).
pub fn add_accept_ranges(response: &mut Response) -> Result<(), Fault>
    ensures fields { OnOk result (AddsFields (ranges_field ∷ [])
        response.old response.new) }
    ensures body { response.new.body ≡ response.old.body }
    ensures err { IfErr result (λ e. e ≡ fault.InsufficientStorage) }
{
    Ok(response.add_header(
        HeaderName::from_static("accept-ranges"),
        HeaderValue::from_static("bytes"),
    )?)
}

/// Says the tag of what stands at the path, where it is a file (RFC 9110 section 8.8.3).
pub fn add_tag(alloc: Global, response: &mut Response, standing: &Standing) -> Result<(), Fault>
    requires { HasShownTag standing.now }
    ensures fields { OnOk result (AddsFields (tag_fields (tags_by standing.now))
        response.old response.new) }
    ensures body { response.new.body ≡ response.old.body }
    ensures err { IfErr result (λ e. e ≡ fault.InsufficientStorage) }
{
    match standing {
        Standing::File { tag, .. } => add_file_tag(alloc, response, tag),
        Standing::Nothing | Standing::Folder => Ok(()),
    }
}

/// Says the tag of a file (RFC 9110 section 8.8.3).
pub fn add_file_tag(alloc: Global, response: &mut Response, tag: &ETag) -> Result<(), Fault>
    requires { IsFieldValue tag.now }
    ensures fields { OnOk result (AddsFields (tag_field tag.now ∷ [])
        response.old response.new) }
    ensures body { response.new.body ≡ response.old.body }
    ensures err { IfErr result (λ e. e ≡ fault.InsufficientStorage) }
{
    let name = HeaderName::from_static("etag");
    add_field(alloc, response, name, tag.as_str().as_bytes())
}

/// Says the token of a lock that is granted (RFC 4918 section 10.5).
pub fn add_lock_token(alloc: Global, response: &mut Response, token: &str) -> Result<(), Fault>
    requires { IsFieldValue (in_brackets token.now) }
    ensures fields { OnOk result (AddsFields (token_field token.now ∷ [])
        response.old response.new) }
    ensures body { response.new.body ≡ response.old.body }
    ensures err { IfErr result (λ e. e ≡ fault.InsufficientStorage) }
{
    let text = format!(in alloc; "<{token}>")?;
    let name = HeaderName::from_static("lock-token");
    add_field(alloc, response, name, text.as_bytes())
}

/// Says at which URL something was made (RFC 9110 section 10.2.2).
pub fn add_location(alloc: Global, response: &mut Response, url: &str) -> Result<(), Fault>
    requires { IsFieldValue url.now }
    ensures fields { OnOk result (AddsFields (location_field url.now ∷ [])
        response.old response.new) }
    ensures body { response.new.body ≡ response.old.body }
    ensures err { IfErr result (λ e. e ≡ fault.InsufficientStorage) }
{
    let name = HeaderName::from_static("location");
    add_field(alloc, response, name, url.as_bytes())
}

/// Says which part of a file of that size the body is (RFC 9110 section 14.4).
pub fn add_part(
    alloc: Global,
    response: &mut Response,
    first: u64,
    end: u64,
    size: u64,
) -> Result<(), Fault>
    ensures fields { OnOk result (AddsFields (part_field (part_text first end size) ∷ [])
        response.old response.new) }
    ensures body { response.new.body ≡ response.old.body }
    ensures err { IfErr result (λ e. e ≡ fault.InsufficientStorage) }
{
    let last = end.saturating_sub(1);
    let text = format!(in alloc; "bytes {first}-{last}/{size}")?;
    let name = HeaderName::from_static("content-range");
    add_field(alloc, response, name, text.as_bytes())
}

/// Says that a file of that size has none of the bytes that are asked for (RFC 9110 section 14.4).
pub fn add_unsatisfied(alloc: Global, response: &mut Response, size: u64) -> Result<(), Fault>
    ensures fields { OnOk result (AddsFields (part_field (unsatisfied_text size) ∷ [])
        response.old response.new) }
    ensures body { response.new.body ≡ response.old.body }
    ensures err { IfErr result (λ e. e ≡ fault.InsufficientStorage) }
{
    let text = format!(in alloc; "bytes */{size}")?;
    let name = HeaderName::from_static("content-range");
    add_field(alloc, response, name, text.as_bytes())
}

/// Says what the server can do, and lists the methods that are served (RFC 9110 section 10.2.1, RFC
/// 4918 section 10.1).
pub fn add_options(response: &mut Response) -> Result<(), Fault>
    ensures fields { OnOk result (AddsFields options_fields
        response.old response.new) }
    ensures body { response.new.body ≡ response.old.body }
    ensures err { IfErr result (λ e. e ≡ fault.InsufficientStorage) }
{
    response.add_header(
        HeaderName::from_static("dav"),
        HeaderValue::from_static("1, 2"),
    )?;
    response.add_header(
        HeaderName::from_static("allow"),
        HeaderValue::from_static(
            "OPTIONS, GET, HEAD, PUT, DELETE, COPY, MOVE, MKCOL, PROPFIND, PROPPATCH, LOCK, UNLOCK",
        ),
    )?;
    Ok(response.add_header(
        HeaderName::from_static("ms-author-via"),
        HeaderValue::from_static("DAV"),
    )?)
}
