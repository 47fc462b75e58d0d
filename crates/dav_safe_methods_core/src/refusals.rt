//! What is told of a refusal: its status, and a document that says why (RFC 4918 section 16).
ghost use Rattle.std.specs.Prelude.{◌≡◌, ◌++◌, ◌∷◌, [], OnOk};
ghost use Rattle.http_header.specs.FieldValue.{IsFieldValue};
ghost use Rattle.http_server.specs.Response.{IsResponse, fields_of};
ghost use Rattle.dav_faults_core.specs.Faults.{fault_status};
ghost use Rattle.dav_fields_core.specs.AnswerFields.{allow_field, first_fields};
ghost use Rattle.dav_fields_core.specs.Fields.{sent_behind, sent_of};
ghost use Rattle.dav_safe_methods_core.specs.RefusalAnswers.{IsToldOf, methods_of, refusal_sent};
ghost use Rattle.dav_safe_methods_core.specs.RefusalAnswers.{status_alone};
ghost use Rattle.dav_safe_methods_core.specs.SentDocuments.{document_sent};

use bytes::Bytes;
use dav_documents_core::refusal_documents::document_of;
use dav_faults_core::faults::Fault;
use dav_fields_core::fields::add_date;
use http::StatusCode;
use http_header::{HeaderName, HeaderValue};
use http_server::Response;
use std::alloc::{AllocError, Global};

/// Tells a fault by its status, the answer's date, and why: by a document, or, of a 405, by the
/// methods that what stands there takes (RFC 9110 section 15.5.6). Paths stand behind the prefix in
/// a document. Where there is no memory for that, nothing is told beside the status: a 207 and a
/// 405, which are not told by their status alone (RFC 4918 section 13), become 507, and any other
/// fault keeps its status.
pub fn refuse(alloc: Global, response: &mut Response, date: &[u8], prefix: &str, fault: &Fault)
    requires { IsFieldValue date.now }
    ensures { IsToldOf (first_fields date.now) prefix.now fault.now response.new }
{
    match say_all(alloc, response, date, prefix, fault) {
        Ok(()) => (),
        Err(_) => say_status(response, status_alone(fault)),
    }
}

// The status alone.
fn say_status(response: &mut Response, status: StatusCode)
    ensures { IsResponse status [] [] response.new }
{
    response.clear();
    response.status = status;
}

// The status of a fault that is told by nothing else.
fn status_alone(fault: &Fault) -> StatusCode
    ensures { result ≡ status_alone fault.now }
{
    match fault {
        Fault::MemberLocked(_) | Fault::ConflictingMember(_, _) | Fault::MethodNotAllowed { .. } =>
            StatusCode::INSUFFICIENT_STORAGE,
        fault => fault.status(),
    }
}

// The status, the date, and why.
fn say_all(
    alloc: Global,
    response: &mut Response,
    date: &[u8],
    prefix: &str,
    fault: &Fault,
) -> Result<(), Fault>
    requires { IsFieldValue date.now }
    ensures status { OnOk result (response.new.status ≡ fault_status fault.now) }
    ensures sent { OnOk result (sent_of response.new
        ≡ sent_behind (first_fields date.now) (refusal_sent prefix.now fault.now)) }
{
    say_status(response, fault.status());
    add_date(alloc, response, date)?;
    say_why(alloc, response, prefix, fault)?;
    Ok(())
}

// By the methods, or by a document, where the fault has one.
fn say_why(
    alloc: Global,
    response: &mut Response,
    prefix: &str,
    fault: &Fault,
) -> Result<(), AllocError>
    requires { response.old.body.items ≡ [] }
    ensures status { response.new.status ≡ response.old.status }
    ensures sent { OnOk result (sent_of response.new
        ≡ sent_behind (fields_of response.old) (refusal_sent prefix.now fault.now)) }
{
    if let Fault::MethodNotAllowed { folder } = fault {
        return allow(response, *folder);
    }
    match document_of(alloc, prefix, fault)? {
        Some(document) => say_document(response, document),
        None => Ok(()),
    }
}

// Lists the methods that a folder takes, or a file.
fn allow(response: &mut Response, folder: bool) -> Result<(), AllocError>
    ensures status { response.new.status ≡ response.old.status }
    ensures fields { OnOk result (fields_of response.new
        ≡ fields_of response.old ++ allow_field (methods_of folder) ∷ []) }
    ensures body { response.new.body ≡ response.old.body }
{
    response.add_header(HeaderName::from_static("allow"), methods_of(folder))?;
    Ok(())
}

fn methods_of(folder: bool) -> HeaderValue
    ensures { result.bytes ≡ methods_of folder }
{
    if folder {
        HeaderValue::from_static(
            "OPTIONS, GET, HEAD, DELETE, COPY, MOVE, PROPFIND, PROPPATCH, LOCK, UNLOCK",
        )
    } else {
        HeaderValue::from_static(
            "OPTIONS, GET, HEAD, PUT, DELETE, COPY, MOVE, PROPFIND, PROPPATCH, LOCK, UNLOCK",
        )
    }
}

/// A document for a body, and that it is XML.
pub fn say_document(response: &mut Response, document: Vec<u8>) -> Result<(), AllocError>
    requires { response.old.body.items ≡ [] }
    ensures status { response.new.status ≡ response.old.status }
    ensures sent { OnOk result (sent_of response.new
        ≡ sent_behind (fields_of response.old) (document_sent document.items)) }
{
    response.add_header(
        HeaderName::from_static("content-type"),
        HeaderValue::from_static("application/xml; charset=utf-8"),
    )?;
    response.body.push(Bytes::from_vec(document)?)?;
    Ok(())
}
