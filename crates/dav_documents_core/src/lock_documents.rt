//! How locks are told in the documents of answers.
ghost use Rattle.std.specs.Prelude.{◌≡◌, ◌∷◌, [], codes, false, true, option_map, string_bytes, IfOk, OnOk};
ghost use Rattle.dav_xml_core.specs.Documents.{Text};
ghost use Rattle.dav_xml_core.specs.Views.{writing_of};
ghost use Rattle.dav_xml_core.specs.Writing.{with_nodes};
ghost use Rattle.dav_locks_core.specs.Locks.{same_text};
ghost use Rattle.dav_documents_core.specs.LockDocuments as spec;
ghost use Rattle.dav_documents_core.specs.Pieces.{and_pieces, written_pieces};
ghost use Rattle.dav_documents_core.specs.RefusalBodies.{element, href};

use crate::documents::{begin, write_href, write_text, write_within};
use dav_locks_core::ls::DavLock;
use dav_path_core::davpath::DavPath;
use dav_path_core::util::Moment;
use dav_xml_core::davxml::Writer;
use std::alloc::{AllocError, Global};

// What `write_supported` writes inside an element: the same for each resource.
const SUPPORTED_LOCKS: &[u8] =
    b"<D:supportedlock><D:lockentry><D:lockscope><D:exclusive></D:exclusive></D:lockscope><D:locktype><D:write></D:write></D:locktype></D:lockentry><D:lockentry><D:lockscope><D:shared></D:shared></D:lockscope><D:locktype><D:write></D:write></D:locktype></D:lockentry></D:supportedlock>";

/// The body of the answer to a LOCK: the locks in order, as a principal sees them at a moment (RFC 4918 section 9.10.1).
pub fn discovery_document(
    alloc: Global,
    prefix: &str,
    principal: &Option<String>,
    now: Moment,
    locks: &[DavLock],
) -> Result<Vec<u8>, AllocError>
    ensures { IfOk result (λ document. document.items
        ≡ written_pieces (spec.discovery_pieces prefix.now (option_map string_bytes principal.now) now.0 locks.now)) }
{
    let mut writer = Writer::new(alloc);
    begin(&mut writer, "prop")?;
    write_discovery(alloc, &mut writer, prefix, principal, now, locks)?;
    writer.end()?;
    Ok(writer.into_bytes())
}

/// Locks in order, as a principal sees them at a moment (RFC 4918 section 15.8).
pub fn write_discovery(
    alloc: Global,
    writer: &mut Writer,
    prefix: &str,
    principal: &Option<String>,
    now: Moment,
    locks: &[DavLock],
) -> Result<(), AllocError>
    ensures { OnOk result (writing_of writer.new
        ≡ and_pieces (writing_of writer.old) (spec.lock_discovery prefix.now (option_map string_bytes principal.now) now.0 locks.now)) }
{
    begin(writer, "lockdiscovery")?;
    for lock in locks {
        write_active(alloc, writer, prefix, principal, now, lock)?;
    }
    writer.end()
}

/// The kinds of locks that can be asked for (RFC 4918 section 15.10).
pub fn write_supported(writer: &mut Writer) -> Result<(), AllocError>
    ensures { OnOk result (writing_of writer.new ≡ with_nodes (writing_of writer.old) spec.supported_locks) }
{
    if writer.is_inside() {
        return writer.kept(SUPPORTED_LOCKS);
    }
    begin(writer, "supportedlock")?;
    write_entry(writer, false)?;
    write_entry(writer, true)?;
    writer.end()
}

// One of the kinds.
fn write_entry(writer: &mut Writer, shared: bool) -> Result<(), AllocError>
    ensures { OnOk result (writing_of writer.new
        ≡ with_nodes (writing_of writer.old) (element (codes "lockentry") (spec.kind_nodes shared))) }
{
    begin(writer, "lockentry")?;
    write_kind(writer, shared)?;
    writer.end()
}

// A lock as a principal sees it.
fn write_active(
    alloc: Global,
    writer: &mut Writer,
    prefix: &str,
    principal: &Option<String>,
    now: Moment,
    lock: &DavLock,
) -> Result<(), AllocError>
    ensures { OnOk result (writing_of writer.new
        ≡ and_pieces (writing_of writer.old) (spec.active_lock prefix.now (option_map string_bytes principal.now) now.0 lock.now)) }
{
    begin(writer, "activelock")?;
    write_terms(writer, lock)?;
    write_names(alloc, writer, prefix, principal, now, lock)?;
    writer.end()
}

// What was asked for.
fn write_terms(writer: &mut Writer, lock: &DavLock) -> Result<(), AllocError>
    ensures { OnOk result (writing_of writer.new ≡ and_pieces (writing_of writer.old) (spec.terms lock.now)) }
{
    write_kind(writer, lock.shared)?;
    write_text(writer, "depth", depth_word(lock.deep))?;
    write_owner(writer, &lock.owner)
}

// How long it stands, how it is named, and where it stands.
fn write_names(
    alloc: Global,
    writer: &mut Writer,
    prefix: &str,
    principal: &Option<String>,
    now: Moment,
    lock: &DavLock,
) -> Result<(), AllocError>
    ensures { OnOk result (writing_of writer.new
        ≡ with_nodes (writing_of writer.old) (spec.lock_name_nodes prefix.now (option_map string_bytes principal.now) now.0 lock.now)) }
{
    write_timeout(alloc, writer, now, lock)?;
    write_token(writer, principal, lock)?;
    write_root(alloc, writer, prefix, &lock.path)
}

// The scope and the type of a lock.
fn write_kind(writer: &mut Writer, shared: bool) -> Result<(), AllocError>
    ensures { OnOk result (writing_of writer.new ≡ with_nodes (writing_of writer.old) (spec.kind_nodes shared)) }
{
    write_within(writer, "lockscope", scope_word(shared))?;
    write_within(writer, "locktype", "write")
}

fn scope_word(shared: bool) -> &'static str
    ensures { result.now ≡ spec.scope_word shared }
{
    if shared { "shared" } else { "exclusive" }
}

fn depth_word(deep: bool) -> &'static str
    ensures { result.now ≡ spec.depth_word deep }
{
    if deep { "infinity" } else { "0" }
}

// The owner's element, where there is one.
fn write_owner(writer: &mut Writer, owner: &Option<String>) -> Result<(), AllocError>
    ensures { OnOk result (writing_of writer.new
        ≡ and_pieces (writing_of writer.old) (spec.owner_pieces (option_map string_bytes owner.now))) }
{
    match owner {
        Some(owner) => writer.kept(owner.as_bytes()),
        None => Ok(()),
    }
}

// How long the lock stands from a moment on.
fn write_timeout(
    alloc: Global,
    writer: &mut Writer,
    now: Moment,
    lock: &DavLock,
) -> Result<(), AllocError>
    ensures { OnOk result (writing_of writer.new
        ≡ with_nodes (writing_of writer.old) (element (codes "timeout") (Text (spec.lock_timeout_text now.0 lock.now) ∷ []))) }
{
    match lock.timeout_at {
        Some(end) => {
            let seconds = seconds_between(now, end);
            let text = format!(in alloc; "Second-{seconds}")?;
            write_text(writer, "timeout", &text)
        },
        None => write_text(writer, "timeout", "Infinite"),
    }
}

// The whole seconds from a moment to another; none where that has passed.
fn seconds_between(now: Moment, end: Moment) -> u64
    ensures { result ≡ spec.seconds_between now.0 end.0 }
{
    end.0.saturating_sub(now.0) / 1_000_000_000
}

// The token, for the lock's principal.
fn write_token(
    writer: &mut Writer,
    principal: &Option<String>,
    lock: &DavLock,
) -> Result<(), AllocError>
    ensures { OnOk result (writing_of writer.new
        ≡ with_nodes (writing_of writer.old) (spec.token_nodes (option_map string_bytes principal.now) lock.now)) }
{
    if is_principal(lock, principal) {
        return write_named(writer, &lock.token);
    }
    Ok(())
}

// A token.
fn write_named(writer: &mut Writer, token: &str) -> Result<(), AllocError>
    ensures { OnOk result (writing_of writer.new
        ≡ with_nodes (writing_of writer.old) (element (codes "locktoken") (element (codes "href") (Text token.now ∷ [])))) }
{
    begin(writer, "locktoken")?;
    write_text(writer, "href", token)?;
    writer.end()
}

// The path that the lock stands at.
fn write_root(
    alloc: Global,
    writer: &mut Writer,
    prefix: &str,
    path: &DavPath,
) -> Result<(), AllocError>
    ensures { OnOk result (writing_of writer.new
        ≡ with_nodes (writing_of writer.old) (element (codes "lockroot") (href prefix.now path.now))) }
{
    begin(writer, "lockroot")?;
    write_href(alloc, writer, prefix, path)?;
    writer.end()
}

/// Whether the lock is of this principal.
pub fn is_principal(lock: &DavLock, principal: &Option<String>) -> bool
    ensures { result ≡ same_text lock.now.principal (option_map string_bytes principal.now) }
{
    match (&lock.principal, principal) {
        (None, None) => true,
        (None, Some(_)) => false,
        (Some(_), None) => false,
        (Some(a), Some(b)) => a.as_str() == b.as_str(),
    }
}
