//! The documents that say why a request is refused (RFC 4918 section 16).
ghost use Rattle.std.specs.Prelude.{◌≡◌, ◌++◌, ◌∷◌, [], codes, option_map, IfOk, OnOk};
ghost use Rattle.dav_xml_core.specs.Writing.{with_nodes, document_bytes};
ghost use Rattle.dav_xml_core.specs.Views.{writing_of};
ghost use Rattle.dav_documents_core.specs.RefusalBodies.{conflict_below_nodes, conflict_nodes, element, lock_nodes, member_nodes, refusal_nodes, told_response};

use crate::documents::{begin, write_empty, write_href, write_text};
use dav_faults_core::faults::Fault;
use dav_path_core::davpath::DavPath;
use dav_xml_core::davxml::Writer;
use std::alloc::{AllocError, Global};

/// The document of a fault, where it has one (RFC 4918 section 16). Paths stand behind the prefix in it.
pub fn document_of(
    alloc: Global,
    prefix: &str,
    fault: &Fault,
) -> Result<Option<Vec<u8>>, AllocError>
    ensures { IfOk result (λ found. option_map (λ document. document.items) found ≡ option_map document_bytes (refusal_nodes prefix.now fault.now)) }
{
    match fault {
        Fault::Locked(path) => Ok(Some(locked(alloc, prefix, path)?)),
        Fault::ConflictingLock(path) => Ok(Some(conflicting(alloc, prefix, path)?)),
        Fault::MemberLocked(path) => Ok(Some(member_locked(alloc, prefix, path)?)),
        Fault::ConflictingMember(at, path) => Ok(Some(conflicting_below(alloc, prefix, at, path)?)),
        Fault::NoSuchLock => Ok(Some(failed_condition(alloc, "lock-token-matches-request-uri")?)),
        Fault::InfiniteDepth => Ok(Some(failed_condition(alloc, "propfind-finite-depth")?)),
        _ => Ok(None),
    }
}

// A lock stands in the way, at the path.
fn locked(alloc: Global, prefix: &str, path: &DavPath) -> Result<Vec<u8>, AllocError>
    ensures { IfOk result (λ document. document.items ≡ document_bytes (lock_nodes prefix.now path.now)) }
{
    let mut writer = Writer::new(alloc);
    begin(&mut writer, "error")?;
    begin(&mut writer, "lock-token-submitted")?;
    write_href(alloc, &mut writer, prefix, path)?;
    writer.end()?;
    writer.end()?;
    Ok(writer.into_bytes())
}

// Another lock lets this one not be granted, at the path.
fn conflicting(alloc: Global, prefix: &str, path: &DavPath) -> Result<Vec<u8>, AllocError>
    ensures { IfOk result (λ document. document.items ≡ document_bytes (conflict_nodes prefix.now path.now)) }
{
    let mut writer = Writer::new(alloc);
    begin(&mut writer, "error")?;
    begin(&mut writer, "no-conflicting-lock")?;
    write_href(alloc, &mut writer, prefix, path)?;
    writer.end()?;
    writer.end()?;
    Ok(writer.into_bytes())
}

// A lock of a member stands in the way, at the path.
fn member_locked(alloc: Global, prefix: &str, path: &DavPath) -> Result<Vec<u8>, AllocError>
    ensures { IfOk result (λ document. document.items ≡ document_bytes (member_nodes prefix.now path.now)) }
{
    let mut writer = Writer::new(alloc);
    begin(&mut writer, "multistatus")?;
    begin(&mut writer, "response")?;
    write_href(alloc, &mut writer, prefix, path)?;
    write_text(&mut writer, "status", "HTTP/1.1 423 Locked")?;
    begin(&mut writer, "error")?;
    write_empty(&mut writer, "lock-token-submitted")?;
    writer.end()?;
    writer.end()?;
    writer.end()?;
    Ok(writer.into_bytes())
}

// A lock of a member, at the first path, lets none be granted at the second.
fn conflicting_below(
    alloc: Global,
    prefix: &str,
    at: &DavPath,
    path: &DavPath,
) -> Result<Vec<u8>, AllocError>
    ensures { IfOk result (λ document. document.items ≡ document_bytes (conflict_below_nodes prefix.now at.now path.now)) }
{
    let mut writer = Writer::new(alloc);
    begin(&mut writer, "multistatus")?;
    write_conflict(alloc, &mut writer, prefix, at)?;
    write_dependent(alloc, &mut writer, prefix, path)?;
    writer.end()?;
    Ok(writer.into_bytes())
}

fn write_conflict(
    alloc: Global,
    writer: &mut Writer,
    prefix: &str,
    path: &DavPath,
) -> Result<(), AllocError>
    ensures { OnOk result (writing_of writer.new ≡ with_nodes (writing_of writer.old)
        (told_response prefix.now path.now (codes "HTTP/1.1 423 Locked") (element (codes "error") (element (codes "no-conflicting-lock") [])))) }
{
    begin(writer, "response")?;
    write_href(alloc, writer, prefix, path)?;
    write_text(writer, "status", "HTTP/1.1 423 Locked")?;
    begin(writer, "error")?;
    write_empty(writer, "no-conflicting-lock")?;
    writer.end()?;
    writer.end()
}

fn write_dependent(
    alloc: Global,
    writer: &mut Writer,
    prefix: &str,
    path: &DavPath,
) -> Result<(), AllocError>
    ensures { OnOk result (writing_of writer.new ≡ with_nodes (writing_of writer.old)
        (told_response prefix.now path.now (codes "HTTP/1.1 424 Failed Dependency") [])) }
{
    begin(writer, "response")?;
    write_href(alloc, writer, prefix, path)?;
    write_text(writer, "status", "HTTP/1.1 424 Failed Dependency")?;
    writer.end()
}

// A condition that doesn't hold, by its name (RFC 4918 section 16).
fn failed_condition(alloc: Global, condition: &str) -> Result<Vec<u8>, AllocError>
    ensures { IfOk result (λ document. document.items ≡ document_bytes (element (codes "error") (element condition.now []))) }
{
    let mut writer = Writer::new(alloc);
    begin(&mut writer, "error")?;
    write_empty(&mut writer, condition)?;
    writer.end()?;
    Ok(writer.into_bytes())
}
