//! What the body of a PROPPATCH asks for.
ghost use Rattle.std.specs.Prelude.{◌≡◌, ◌++◌, ◌∷◌, [], map, option_map, IfOk, OnOk, Some};
ghost use Rattle.std.specs.List.{flat_map};
ghost use Rattle.std.specs.Option.{option_copied};
ghost use Rattle.dav_files_core.specs.Properties.{patch_update, property_of};
ghost use Rattle.dav_xml_core.specs.Documents as plain;
ghost use Rattle.dav_xml_core.specs.Views.{attribute_of, name_of, node_of};
ghost use Rattle.dav_xml_core.specs.Writing.{written_alone};
ghost use Rattle.dav_documents_core.specs.Bodies.{IsReadAs};
ghost use Rattle.dav_documents_core.specs.Elements.{element_nodes};
ghost use Rattle.dav_documents_core.specs.PropertyUpdates as spec;

use crate::bodies::document_in;
use crate::elements::{children, element_name, is_dav, the_one};
use dav_faults_core::faults::Fault;
use dav_files_core::fs::DavProp;
use dav_xml_core::davxml::{Attribute, Name, Node, Writer, write_element};
use std::alloc::{AllocError, Global};
use std::rc::RcStr;

const XML_NAMESPACE: &str = "http://www.w3.org/XML/1998/namespace";

/// What the body of a PROPPATCH asks for, in the order of the document: `true` sets a property, `false` removes it (RFC 4918 sections 9.2 and 14.19).
/// `BadRequest` where the body spells no `propertyupdate`, or a `set` or `remove` in it hasn't one `prop`.
pub fn property_updates(alloc: Global, body: &[u8]) -> Result<Vec<(bool, DavProp)>, Fault>
    ensures { IsReadAs (λ updates. map patch_update updates.items) result (spec.updates_in body.now) }
{
    let document = document_in(alloc, body)?;
    if !is_dav(&document.nodes, "propertyupdate") {
        return Err(Fault::BadRequest);
    }
    let instructions = children(alloc, &document.nodes)?;
    updates_by(alloc, own_lang(&document.nodes), &instructions)
}

// What the elements of a `propertyupdate` ask for.
fn updates_by(
    alloc: Global,
    lang: Option<&str>,
    instructions: &[&[Node]],
) -> Result<Vec<(bool, DavProp)>, Fault>
    ensures { IsReadAs (λ updates. map patch_update updates.items) result (spec.updates_by (option_copied lang.entry) (map element_nodes instructions.now)) }
{
    let mut updates = Vec::new(alloc);
    for instruction in instructions {
        push_instructed(alloc, &mut updates, lang, instruction)?;
    }
    Ok(updates)
}

// What one of them asks for.
#[tactic(auto, unfolding(crate::specs::PropertyUpdates::instructed_updates))]
fn push_instructed(
    alloc: Global,
    updates: &mut Vec<(bool, DavProp)>,
    lang: Option<&str>,
    instruction: &[Node],
) -> Result<(), Fault>
    ensures { IsReadAs (λ _. map patch_update updates.new.items) result
        (option_map (λ more. map patch_update updates.old.items ++ more) (spec.instructed_updates (option_copied lang.entry) (map node_of instruction.now))) }
{
    let Some(set) = sets(instruction) else {
        return Ok(());
    };
    let inside = children(alloc, instruction)?;
    let prop = the_one(&inside, "prop")?;
    let properties = children(alloc, prop)?;
    let lang = lang_in(lang_in(lang, instruction), prop);
    push_updates(alloc, updates, set, lang, &properties)?;
    Ok(())
}

// Whether an element sets or removes; none where it does neither.
fn sets(element: &[Node]) -> Option<bool>
    ensures { result ≡ spec.sets (map node_of element.now) }
{
    if is_dav(element, "set") {
        return Some(true);
    }
    if is_dav(element, "remove") {
        return Some(false);
    }
    None
}

// The same for each of the properties.
fn push_updates(
    alloc: Global,
    updates: &mut Vec<(bool, DavProp)>,
    set: bool,
    lang: Option<&str>,
    properties: &[&[Node]],
) -> Result<(), AllocError>
    ensures { OnOk result (map patch_update updates.new.items
        ≡ map patch_update updates.old.items ++ flat_map (spec.update_of set (option_copied lang.entry)) (map element_nodes properties.now)) }
{
    for property in properties {
        push_update(alloc, updates, set, lang, property)?;
    }
    Ok(())
}

fn push_update(
    alloc: Global,
    updates: &mut Vec<(bool, DavProp)>,
    set: bool,
    lang: Option<&str>,
    property: &[Node],
) -> Result<(), AllocError>
    ensures { OnOk result (map patch_update updates.new.items
        ≡ map patch_update updates.old.items ++ spec.update_of set (option_copied lang.entry) (map node_of property.now)) }
{
    let Some(name) = element_name(property) else {
        return Ok(());
    };
    let prop = kept(alloc, set, lang, name, property)?;
    updates.push((set, prop))?;
    Ok(())
}

// What is kept of a property that is set, or names one that is removed.
fn kept(
    alloc: Global,
    set: bool,
    lang: Option<&str>,
    name: &Name,
    property: &[Node],
) -> Result<DavProp, AllocError>
    ensures { IfOk result (λ prop. property_of prop ≡ spec.kept_property set (option_copied lang.entry) (name_of name.now) (map node_of property.now)) }
{
    let xml = if set {
        Some(kept_xml(alloc, lang, property)?)
    } else {
        None
    };
    Ok(DavProp {
        name: name.local.clone()?,
        prefix: None,
        namespace: Some(String::from_str(alloc, name.namespace.as_str())?),
        xml,
    })
}

// ---- the language

// The `xml:lang` among attributes.
fn first_lang(attributes: &[Attribute]) -> Option<&str>
    ensures { option_copied result ≡ spec.first_lang (map attribute_of attributes.now) }
{
    for attribute in attributes {
        if is_lang(attribute) {
            return Some(attribute.value.as_str());
        }
    }
    None
}

fn is_lang(attribute: &Attribute) -> bool
    ensures { result ≡ spec.is_lang (attribute_of attribute.now) }
{
    attribute.name.namespace.as_str() == XML_NAMESPACE && attribute.name.local.as_str() == "lang"
}

/// The language that an element says of itself, where it says one (XML 1.0 section 2.12).
pub fn own_lang(element: &[Node]) -> Option<&str>
    ensures { option_copied result ≡ spec.own_lang (map node_of element.now) }
{
    match element {
        [Node::Start(_, attributes), ..] => first_lang(attributes),
        _ => None,
    }
}

// The language of an element, or else of the elements around it.
fn lang_in<'a>(around: Option<&'a str>, element: &'a [Node]) -> Option<&'a str>
    ensures { option_copied result ≡ spec.lang_in (option_copied around.entry) (map node_of element.now) }
{
    match own_lang(element) {
        Some(lang) => Some(lang),
        None => around,
    }
}

/// The XML of a property that means the same in any document, in the language around it (RFC 4918 section 4.3).
pub fn kept_xml(alloc: Global, lang: Option<&str>, property: &[Node]) -> Result<Vec<u8>, AllocError>
    ensures { IfOk result (λ xml. xml.items ≡ written_alone (spec.with_lang (option_copied lang.entry) (map node_of property.now))) }
{
    let Some(lang) = lang else {
        return write_element(alloc, property);
    };
    match property {
        [Node::Start(name, attributes), inside @ ..] => write_told(
            alloc, lang, name, attributes, inside,
        ),
        _ => write_element(alloc, property),
    }
}

// The XML of the element with this start and these nodes behind it, told in a language where it has none of its own.
#[tactic(auto, unfolding(dav_xml_core::specs::Writing::written_alone))]
fn write_told(
    alloc: Global,
    lang: &str,
    name: &Name,
    attributes: &[Attribute],
    inside: &[Node],
) -> Result<Vec<u8>, AllocError>
    ensures { IfOk result (λ xml. xml.items
        ≡ written_alone (plain.Start (name_of name.now) (spec.and_lang lang.now (map attribute_of attributes.now)) ∷ map node_of inside.now)) }
{
    let mut writer = Writer::alone(alloc);
    if first_lang(attributes).is_some() {
        writer.start(name, attributes)?;
    } else {
        writer.start(name, &and_lang(alloc, lang, attributes)?)?;
    }
    writer.nodes(inside)?;
    Ok(writer.into_bytes())
}

// The attributes, and the language behind them.
fn and_lang(
    alloc: Global,
    lang: &str,
    attributes: &[Attribute],
) -> Result<Vec<Attribute>, AllocError>
    ensures { IfOk result (λ all. map attribute_of all.items ≡ map attribute_of attributes.now ++ spec.lang_attribute lang.now ∷ []) }
{
    let mut all = Vec::new(alloc);
    for attribute in attributes {
        all.push(copied(attribute)?)?;
    }
    all.push(lang_attribute(alloc, lang)?)?;
    Ok(all)
}

// An attribute once more.
fn copied(attribute: &Attribute) -> Result<Attribute, AllocError>
    ensures { IfOk result (λ copy. attribute_of copy ≡ attribute_of attribute.now) }
{
    Ok(Attribute {
        name: Name {
            namespace: attribute.name.namespace.clone()?,
            local: attribute.name.local.clone()?,
        },
        value: attribute.value.clone()?,
    })
}

fn lang_attribute(alloc: Global, lang: &str) -> Result<Attribute, AllocError>
    ensures { IfOk result (λ attribute. attribute_of attribute ≡ spec.lang_attribute lang.now) }
{
    Ok(Attribute {
        name: Name {
            namespace: RcStr::from_str(alloc, XML_NAMESPACE)?,
            local: String::from_str(alloc, "lang")?,
        },
        value: String::from_str(alloc, lang)?,
    })
}
