//! Properties with their values.
ghost use Rattle.std.specs.Prelude.{◌≡◌, true, codes, decimal, map, option_copied, option_map, string_bytes, OnOk};
ghost use Rattle.std.specs.List.{flat_map};
ghost use Rattle.dav_xml_core.specs.Views.{name_of, writing_of};
ghost use Rattle.dav_xml_core.specs.Writing.{with_nodes};
ghost use Rattle.dav_files_core.specs.Properties.{property_of};
ghost use Rattle.dav_documents_core.specs.Pieces.{and_pieces};
ghost use Rattle.dav_documents_core.specs.DescriptionViews.{description_of};
ghost use Rattle.dav_documents_core.specs.Private.Rising.{Rise};
ghost use Rattle.dav_documents_core.specs.LiveProperties.{live_properties};
ghost use Rattle.dav_documents_core.specs.PropertyDocuments as spec;

use super::Description;
use super::names::{dead_value, is_dead};
use crate::documents::{write_empty, write_text, write_within};
use crate::live_properties::{LIVE, Live, has_live, live_named};
use crate::lock_documents::{write_discovery, write_supported};
use dav_files_core::fs::DavProp;
use dav_path_core::util::Moment;
use dav_xml_core::davxml::{Name, Writer};
use std::alloc::{AllocError, Global};

/// The properties with these names that a resource has, as a principal sees them.
#[tactic(auto, using(crate::proofs::PieceLemmas::in_turn))]
pub(super) fn write_listed(
    alloc: Global,
    writer: &mut Writer,
    prefix: &str,
    principal: &Option<String>,
    now: Moment,
    description: &Description,
    risen: bool,
    names: &[Name],
) -> Result<(), AllocError>
    requires { risen ≡ true → Rise description.now.props.items }
    ensures { OnOk result (writing_of writer.new ≡ and_pieces (writing_of writer.old)
        (flat_map (spec.value_pieces prefix.now (option_map string_bytes principal.now) now.0 (description_of description.now)) (map name_of names.now))) }
{
    for name in names {
        write_value(
            alloc,
            writer,
            prefix,
            principal,
            now,
            description,
            risen,
            name,
        )?;
    }
    Ok(())
}

// The one with the name, where the resource has it.
fn write_value(
    alloc: Global,
    writer: &mut Writer,
    prefix: &str,
    principal: &Option<String>,
    now: Moment,
    description: &Description,
    risen: bool,
    name: &Name,
) -> Result<(), AllocError>
    requires { risen ≡ true → Rise description.now.props.items }
    ensures { OnOk result (writing_of writer.new ≡ and_pieces (writing_of writer.old)
        (spec.value_pieces prefix.now (option_map string_bytes principal.now) now.0 (description_of description.now) (name_of name.now))) }
{
    match live_named(name) {
        Some(live) => return write_own(alloc, writer, prefix, principal, now, description, live),
        None => return write_kept(writer, dead_value(&description.props, risen, name)),
    }
}

/// What the server makes of a resource, as a principal sees it.
#[tactic(auto, using(crate::proofs::PieceLemmas::in_turn))]
pub(super) fn write_all_own(
    alloc: Global,
    writer: &mut Writer,
    prefix: &str,
    principal: &Option<String>,
    now: Moment,
    description: &Description,
) -> Result<(), AllocError>
    ensures { OnOk result (writing_of writer.new ≡ and_pieces (writing_of writer.old)
        (flat_map (spec.own_pieces prefix.now (option_map string_bytes principal.now) now.0 (description_of description.now)) live_properties)) }
{
    for live in &LIVE {
        write_own(alloc, writer, prefix, principal, now, description, *live)?;
    }
    Ok(())
}

// Where the resource has it.
fn write_own(
    alloc: Global,
    writer: &mut Writer,
    prefix: &str,
    principal: &Option<String>,
    now: Moment,
    description: &Description,
    live: Live,
) -> Result<(), AllocError>
    ensures { OnOk result (writing_of writer.new ≡ and_pieces (writing_of writer.old)
        (spec.own_pieces prefix.now (option_map string_bytes principal.now) now.0 (description_of description.now) live)) }
{
    if has_live(description.folder, live) {
        return write_live(alloc, writer, prefix, principal, now, description, live);
    }
    Ok(())
}

fn write_live(
    alloc: Global,
    writer: &mut Writer,
    prefix: &str,
    principal: &Option<String>,
    now: Moment,
    description: &Description,
    live: Live,
) -> Result<(), AllocError>
    ensures { OnOk result (writing_of writer.new ≡ and_pieces (writing_of writer.old)
        (spec.live_pieces prefix.now (option_map string_bytes principal.now) now.0 (description_of description.now) live)) }
{
    match live {
        Live::CreationDate => return write_text(writer, "creationdate", &description.created),
        Live::ContentLength => return write_size(alloc, writer, description.size),
        Live::ContentType => return write_text(writer, "getcontenttype", description.content_type),
        Live::Tag => return write_text(writer, "getetag", &description.tag),
        Live::LastModified => return write_text(writer, "getlastmodified", &description.modified),
        Live::Locks => return write_discovery(
            alloc,
            writer,
            prefix,
            principal,
            now,
            &description.locks,
        ),
        Live::ResourceType => return write_type(writer, description.folder),
        Live::SupportedLocks => return write_supported(writer),
    }
}

// How many bytes a file has.
fn write_size(alloc: Global, writer: &mut Writer, size: u64) -> Result<(), AllocError>
    ensures { OnOk result (writing_of writer.new
        ≡ with_nodes (writing_of writer.old) (spec.text_element (codes "getcontentlength") (decimal size))) }
{
    let text = format!(in alloc; "{size}")?;
    write_text(writer, "getcontentlength", &text)
}

// Whether it is a folder.
fn write_type(writer: &mut Writer, folder: bool) -> Result<(), AllocError>
    ensures { OnOk result (writing_of writer.new ≡ with_nodes (writing_of writer.old) (spec.type_nodes folder)) }
{
    if folder {
        return write_within(writer, "resourcetype", "collection");
    }
    write_empty(writer, "resourcetype")
}

/// The properties that clients set.
#[tactic(auto, using(crate::proofs::PieceLemmas::in_turn))]
pub(super) fn write_all_dead(
    alloc: Global,
    writer: &mut Writer,
    props: &[DavProp],
) -> Result<(), AllocError>
    ensures { OnOk result (writing_of writer.new ≡ and_pieces (writing_of writer.old)
        (flat_map spec.dead_pieces (map property_of props.now))) }
{
    for prop in props {
        write_dead(alloc, writer, prop)?;
    }
    Ok(())
}

fn write_dead(alloc: Global, writer: &mut Writer, prop: &DavProp) -> Result<(), AllocError>
    ensures { OnOk result (writing_of writer.new ≡ and_pieces (writing_of writer.old) (spec.dead_pieces (property_of prop.now))) }
{
    if is_dead(alloc, prop)? {
        return write_kept(writer, prop.xml.as_ref());
    }
    Ok(())
}

// An element that was kept, where there is one.
fn write_kept(writer: &mut Writer, xml: Option<&Vec<u8>>) -> Result<(), AllocError>
    ensures { OnOk result (writing_of writer.new ≡ and_pieces (writing_of writer.old)
        (spec.kept_pieces (option_map (λ bytes. bytes.items) (option_copied xml.entry)))) }
{
    match xml {
        Some(bytes) => writer.kept(bytes.as_slice()),
        None => Ok(()),
    }
}
