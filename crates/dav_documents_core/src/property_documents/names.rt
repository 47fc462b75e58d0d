//! Names of properties, and which of them a resource has.
ghost use Rattle.std.specs.Prelude.{◌≡◌, true, ◌∷◌, [], map, option_copied, option_map, unwrap_or, string_bytes, IfOk, OnOk};
ghost use Rattle.std.specs.List.{flat_map};
ghost use Rattle.std.specs.Ordering.{is_lt};
ghost use Rattle.dav_xml_core.specs.Views.{name_of, writing_of};
ghost use Rattle.dav_xml_core.specs.Writing.{with_nodes};
ghost use Rattle.dav_files_core.specs.Properties.{property_of};
ghost use Rattle.dav_documents_core.specs.DescriptionViews.{description_of};
ghost use Rattle.dav_documents_core.specs.Private.Rising.{Rise, order, property_key};
ghost use Rattle.dav_documents_core.specs.LiveProperties.{live_properties};
ghost use Rattle.dav_documents_core.specs.PropertyDocuments as spec;
ghost use Rattle.dav_documents_core.specs.RefusalBodies.{dav_name, element};

use super::Description;
use crate::documents::write_empty;
use crate::live_properties::{LIVE, Live, has_live, live_named, live_word};
use dav_files_core::fs::DavProp;
use dav_xml_core::davxml::{Name, Writer};
use std::alloc::{AllocError, Global};
use std::cmp::Ordering;
use std::rc::RcStr;

/// Whether a resource has a property with the name.
pub(super) fn has_value(description: &Description, risen: bool, name: &Name) -> bool
    requires { risen ≡ true → Rise description.now.props.items }
    ensures { result ≡ spec.has_value (description_of description.now) (name_of name.now) }
{
    match live_named(name) {
        Some(live) => has_live(description.folder, live),
        None => dead_value(&description.props, risen, name).is_some(),
    }
}

/// Whether the keys of properties rise, as a file system gives them (own).
pub(super) fn rise(props: &[DavProp]) -> bool
    ensures { result ≡ true → Rise props.now }
{
    for place in 1..props.len() {
        if !is_before(&props[place - 1], &props[place]) {
            return false;
        }
    }
    true
}

// Whether one property has a lower key than another.
fn is_before(one: &DavProp, other: &DavProp) -> bool
    ensures { result ≡ is_lt (order one.now (property_key other.now)) }
{
    compared(one, namespace_of(other), other.name.as_str()).is_lt()
}

// How the key of a property stands to that of a namespace and a name.
fn compared(prop: &DavProp, namespace: &str, name: &str) -> Ordering
    ensures { result ≡ order prop.now (namespace.now, name.now) }
{
    match namespace_of(prop).cmp(namespace) {
        Ordering::Equal => prop.name.as_str().cmp(name),
        unequal => unequal,
    }
}

/// The element that a client set, with this name: by a search in halves where the keys are known to rise, else one after another.
pub(super) fn dead_value<'a>(props: &'a [DavProp], risen: bool, name: &Name) -> Option<&'a Vec<u8>>
    requires { risen ≡ true → Rise props.now }
    ensures { option_map (λ xml. xml.items) (option_copied result) ≡ spec.dead_value (map property_of props.now) (name_of name.now) }
{
    if risen {
        return searched(props, name);
    }
    walked(props, name)
}

fn searched<'a>(props: &'a [DavProp], name: &Name) -> Option<&'a Vec<u8>>
    requires { Rise props.now }
    ensures { option_map (λ xml. xml.items) (option_copied result) ≡ spec.dead_value (map property_of props.now) (name_of name.now) }
{
    let (namespace, local) = (name.namespace.as_str(), name.local.as_str());
    match props.binary_search_by(|prop| compared(prop, namespace, local)) {
        Ok(place) => return props[place].xml.as_ref(),
        Err(_) => return None,
    }
}

fn walked<'a>(props: &'a [DavProp], name: &Name) -> Option<&'a Vec<u8>>
    ensures { option_map (λ xml. xml.items) (option_copied result) ≡ spec.dead_value (map property_of props.now) (name_of name.now) }
{
    for prop in props {
        if is_named(name, prop) {
            return prop.xml.as_ref();
        }
    }
    None
}

fn is_named(name: &Name, prop: &DavProp) -> bool
    ensures { result ≡ spec.is_named (name_of name.now) (property_of prop.now) }
{
    namespace_of(prop) == name.namespace.as_str() && prop.name.as_str() == name.local.as_str()
}

// The namespace of a property; empty where it has none.
fn namespace_of(prop: &DavProp) -> &str
    ensures { result.now ≡ unwrap_or (property_of prop.now).namespace [] }
{
    match &prop.namespace {
        Some(namespace) => namespace.as_str(),
        None => "",
    }
}

/// Whether a property is one that a client set, as no property that the server makes has its name.
pub(super) fn is_dead(alloc: Global, prop: &DavProp) -> Result<bool, AllocError>
    ensures { IfOk result (λ dead. dead ≡ spec.is_dead (property_of prop.now)) }
{
    let name = name_in(alloc, prop)?;
    Ok(live_named(&name).is_none() && prop.xml.is_some())
}

// The name of a property.
fn name_in(alloc: Global, prop: &DavProp) -> Result<Name, AllocError>
    ensures { IfOk result (λ name. name_of name ≡ spec.name_of_property (property_of prop.now)) }
{
    Ok(Name {
        namespace: RcStr::from_str(alloc, namespace_of(prop))?,
        local: prop.name.clone()?,
    })
}

/// Of these names, those of properties that the resource doesn't have.
#[tactic(auto, using(crate::proofs::PieceLemmas::nodes_in_turn))]
pub(super) fn write_missing(
    writer: &mut Writer,
    names: &[Name],
    description: &Description,
    risen: bool,
) -> Result<(), AllocError>
    requires { risen ≡ true → Rise description.now.props.items }
    ensures { OnOk result (writing_of writer.new ≡ with_nodes (writing_of writer.old)
        (flat_map (spec.missing_nodes (description_of description.now)) (map name_of names.now))) }
{
    for name in names {
        write_if_missing(writer, name, description, risen)?;
    }
    Ok(())
}

fn write_if_missing(
    writer: &mut Writer,
    name: &Name,
    description: &Description,
    risen: bool,
) -> Result<(), AllocError>
    requires { risen ≡ true → Rise description.now.props.items }
    ensures { OnOk result (writing_of writer.new ≡ with_nodes (writing_of writer.old)
        (spec.missing_nodes (description_of description.now) (name_of name.now))) }
{
    if has_value(description, risen, name) {
        return Ok(());
    }
    write_name(writer, name)
}

// An empty element with the name.
fn write_name(writer: &mut Writer, name: &Name) -> Result<(), AllocError>
    ensures { OnOk result (writing_of writer.new ≡ with_nodes (writing_of writer.old) (spec.name_nodes (name_of name.now))) }
{
    writer.start(name, &[])?;
    writer.end()
}

/// The names of the properties that the server makes of a resource.
#[tactic(auto, using(crate::proofs::PieceLemmas::nodes_in_turn))]
pub(super) fn write_live_names(
    writer: &mut Writer,
    description: &Description,
) -> Result<(), AllocError>
    ensures { OnOk result (writing_of writer.new ≡ with_nodes (writing_of writer.old)
        (flat_map (spec.own_name_nodes (description_of description.now)) live_properties)) }
{
    for live in &LIVE {
        write_live_name(writer, description, *live)?;
    }
    Ok(())
}

fn write_live_name(
    writer: &mut Writer,
    description: &Description,
    live: Live,
) -> Result<(), AllocError>
    ensures { OnOk result (writing_of writer.new ≡ with_nodes (writing_of writer.old)
        (spec.own_name_nodes (description_of description.now) live)) }
{
    if has_live(description.folder, live) {
        return write_empty(writer, live_word(live));
    }
    Ok(())
}

/// The names of the properties that clients set.
#[tactic(auto, using(crate::proofs::PieceLemmas::nodes_in_turn))]
pub(super) fn write_dead_names(
    alloc: Global,
    writer: &mut Writer,
    props: &[DavProp],
) -> Result<(), AllocError>
    ensures { OnOk result (writing_of writer.new ≡ with_nodes (writing_of writer.old)
        (flat_map spec.dead_name_nodes (map property_of props.now))) }
{
    for prop in props {
        write_dead_name(alloc, writer, prop)?;
    }
    Ok(())
}

fn write_dead_name(alloc: Global, writer: &mut Writer, prop: &DavProp) -> Result<(), AllocError>
    ensures { OnOk result (writing_of writer.new ≡ with_nodes (writing_of writer.old) (spec.dead_name_nodes (property_of prop.now))) }
{
    if is_dead(alloc, prop)? {
        return write_name(writer, &name_in(alloc, prop)?);
    }
    Ok(())
}
