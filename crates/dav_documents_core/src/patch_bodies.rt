//! What is told of a PROPPATCH that is served.
ghost use Rattle.std.specs.Prelude.{◌≡◌, codes, map, unwrap_or, IfOk, OnOk};
ghost use Rattle.dav_files_core.specs.Properties.{patch_update, property_of};
ghost use Rattle.dav_xml_core.specs.Views.{writing_of};
ghost use Rattle.dav_xml_core.specs.Writing.{with_nodes, document_bytes};
ghost use Rattle.dav_documents_core.specs.PatchBodies as spec;

use crate::documents::{begin, write_empty, write_href, write_text};
use crate::live_properties::is_live_word;
use dav_files_core::fs::DavProp;
use dav_path_core::davpath::DavPath;
use dav_xml_core::davxml::{Name, Writer};
use std::alloc::{AllocError, Global};
use std::rc::RcStr;

/// The document that tells of a PROPPATCH at a path (RFC 4918 section 9.2.1): that all is changed; or that some properties are protected, and so nothing is.
#[tactic(auto, unfolding(dav_xml_core::specs::Writing::document_bytes))]
pub fn patch_document(
    alloc: Global,
    prefix: &str,
    path: &DavPath,
    updates: &[(bool, DavProp)],
) -> Result<Vec<u8>, AllocError>
    ensures { IfOk result (λ document. document.items ≡ document_bytes (spec.patch_nodes prefix.now path.now (map patch_update updates.now))) }
{
    let mut writer = Writer::new(alloc);
    begin(&mut writer, "multistatus")?;
    begin(&mut writer, "response")?;
    write_href(alloc, &mut writer, prefix, path)?;
    write_propstats(alloc, &mut writer, updates)?;
    writer.end()?;
    writer.end()?;
    Ok(writer.into_bytes())
}

fn write_propstats(
    alloc: Global,
    writer: &mut Writer,
    updates: &[(bool, DavProp)],
) -> Result<(), AllocError>
    ensures { OnOk result (writing_of writer.new ≡ with_nodes (writing_of writer.old) (spec.propstats (map patch_update updates.now))) }
{
    if !any_protected(updates) {
        return write_others(alloc, writer, "HTTP/1.1 200 OK", updates);
    }
    write_protected(alloc, writer, updates)?;
    if all_protected(updates) {
        return Ok(());
    }
    write_others(alloc, writer, "HTTP/1.1 424 Failed Dependency", updates)
}

// The properties that aren't protected, with a status.
fn write_others(
    alloc: Global,
    writer: &mut Writer,
    status: &str,
    updates: &[(bool, DavProp)],
) -> Result<(), AllocError>
    ensures { OnOk result (writing_of writer.new ≡ with_nodes (writing_of writer.old) (spec.others_nodes status.now (map patch_update updates.now))) }
{
    begin(writer, "propstat")?;
    write_prop(alloc, writer, false, updates)?;
    write_text(writer, "status", status)?;
    writer.end()
}

// The protected properties, and why they don't change.
fn write_protected(
    alloc: Global,
    writer: &mut Writer,
    updates: &[(bool, DavProp)],
) -> Result<(), AllocError>
    ensures { OnOk result (writing_of writer.new ≡ with_nodes (writing_of writer.old) (spec.protected_nodes (map patch_update updates.now))) }
{
    begin(writer, "propstat")?;
    write_prop(alloc, writer, true, updates)?;
    write_text(writer, "status", "HTTP/1.1 403 Forbidden")?;
    begin(writer, "error")?;
    write_empty(writer, "cannot-modify-protected-property")?;
    writer.end()?;
    writer.end()
}

// The names of the properties that are protected, or of those that aren't.
fn write_prop(
    alloc: Global,
    writer: &mut Writer,
    protected: bool,
    updates: &[(bool, DavProp)],
) -> Result<(), AllocError>
    ensures { OnOk result (writing_of writer.new ≡ with_nodes (writing_of writer.old) (spec.prop_nodes protected (map patch_update updates.now))) }
{
    begin(writer, "prop")?;
    write_names(alloc, writer, protected, updates)?;
    writer.end()
}

fn write_names(
    alloc: Global,
    writer: &mut Writer,
    protected: bool,
    updates: &[(bool, DavProp)],
) -> Result<(), AllocError>
    ensures { OnOk result (writing_of writer.new ≡ with_nodes (writing_of writer.old) (spec.names_nodes protected (map patch_update updates.now))) }
{
    for update in updates {
        if is_chosen(protected, update) {
            write_name(alloc, writer, &update.1)?;
        }
    }
    Ok(())
}

// An empty element with the name of a property.
fn write_name(alloc: Global, writer: &mut Writer, prop: &DavProp) -> Result<(), AllocError>
    ensures { OnOk result (writing_of writer.new ≡ with_nodes (writing_of writer.old) (spec.property_name_nodes (property_of prop.now))) }
{
    let name = Name {
        namespace: RcStr::from_str(alloc, namespace_of(prop))?,
        local: prop.name.clone()?,
    };
    writer.start(&name, &[])?;
    writer.end()
}

// ---- which properties no request changes

/// Whether one of the properties is protected (RFC 4918 section 15).
pub fn any_protected(updates: &[(bool, DavProp)]) -> bool
    ensures { result ≡ spec.any_protected (map patch_update updates.now) }
{
    for update in updates {
        if is_protected(update) {
            return true;
        }
    }
    false
}

fn all_protected(updates: &[(bool, DavProp)]) -> bool
    ensures { result ≡ spec.all_protected (map patch_update updates.now) }
{
    for update in updates {
        if !is_protected(update) {
            return false;
        }
    }
    true
}

fn is_chosen(protected: bool, update: &(bool, DavProp)) -> bool
    ensures { result ≡ spec.is_chosen protected (patch_update update.now) }
{
    if protected {
        is_protected(update)
    } else {
        !is_protected(update)
    }
}

fn is_protected(update: &(bool, DavProp)) -> bool
    ensures { result ≡ spec.is_protected (patch_update update.now) }
{
    is_live(&update.1)
}

fn is_live(prop: &DavProp) -> bool
    ensures { result ≡ spec.is_live (property_of prop.now) }
{
    namespace_of(prop) == "DAV:" && is_live_word(prop.name.as_str())
}

fn namespace_of(prop: &DavProp) -> &str
    ensures { result.now ≡ spec.namespace_of (property_of prop.now) }
{
    match &prop.namespace {
        Some(namespace) => namespace.as_str(),
        None => "",
    }
}
