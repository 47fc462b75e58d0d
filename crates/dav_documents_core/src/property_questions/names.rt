//! The names of properties that a body gives, each once.
ghost use Rattle.std.specs.Prelude.{◌≡◌, [], map, IfOk, OnOk};
ghost use Rattle.dav_xml_core.specs.Views.{name_of, node_of};
ghost use Rattle.dav_documents_core.specs.Elements.{children, name_of_element};
ghost use Rattle.dav_documents_core.specs.Private.LentKeys.{AreSeen, name_at};
ghost use Rattle.dav_documents_core.specs.PropertyQuestions as spec;

use crate::elements::{children, element_name, is_dav};
use dav_xml_core::davxml::{Name, Node};
use std::alloc::{AllocError, Global};
use std::collections::BTreeSet;

/// The names that were found so far, each once.
#[derive(Drop)]
struct Found<'a> {
    names: Vec<Name>,
    /// Of each its local name and its namespace, in this order, since the local names of most differ.
    seen: BTreeSet<(&'a str, &'a str)>,
}

/// The names of the elements inside those of `DAV:` with this local name.
pub(super) fn names_within(
    alloc: Global,
    parts: &[&[Node]],
    local: &str,
) -> Result<Vec<Name>, AllocError>
    ensures { IfOk result (λ names. map name_of names.items ≡ spec.names_within local.now [] (map (λ part. map node_of part.now) parts.now)) }
{
    let mut found = none_found(alloc);
    for part in parts {
        add_within(alloc, &mut found, part, local)?;
    }
    let Found { names, seen: _ } = found;
    Ok(names)
}

fn none_found<'a>(alloc: Global) -> Found<'a>
    ensures names { map name_of result.names.items ≡ [] }
    ensures seen { AreSeen result }
{
    Found {
        names: Vec::new(alloc),
        seen: BTreeSet::new(alloc),
    }
}

fn add_within<'a>(
    alloc: Global,
    found: &mut Found<'a>,
    part: &'a [Node],
    local: &str,
) -> Result<(), AllocError>
    requires { AreSeen found.old }
    ensures names { OnOk result (map name_of found.new.names.items ≡ spec.and_within local.now (map name_of found.old.names.items) (map node_of part.now)) }
    ensures seen { OnOk result (AreSeen found.new) }
{
    if is_dav(part, local) {
        return add_children(alloc, found, part);
    }
    Ok(())
}

fn add_children<'a>(
    alloc: Global,
    found: &mut Found<'a>,
    part: &'a [Node],
) -> Result<(), AllocError>
    requires { AreSeen found.old }
    ensures names { OnOk result (map name_of found.new.names.items ≡ spec.and_names (map name_of found.old.names.items) (children (map node_of part.now))) }
    ensures seen { OnOk result (AreSeen found.new) }
{
    let elements = children(alloc, part)?;
    add_names(found, &elements)
}

fn add_names<'a>(found: &mut Found<'a>, elements: &[&'a [Node]]) -> Result<(), AllocError>
    requires { AreSeen found.old }
    ensures names { OnOk result (map name_of found.new.names.items
        ≡ spec.and_names (map name_of found.old.names.items) (map (λ element. map node_of element.now) elements.now)) }
    ensures seen { OnOk result (AreSeen found.new) }
{
    for element in elements {
        add_name(found, element)?;
    }
    Ok(())
}

fn add_name<'a>(found: &mut Found<'a>, element: &'a [Node]) -> Result<(), AllocError>
    requires { AreSeen found.old }
    ensures names { OnOk result (map name_of found.new.names.items ≡ spec.and_name (map name_of found.old.names.items) (name_of_element (map node_of element.now))) }
    ensures seen { OnOk result (AreSeen found.new) }
{
    match element_name(element) {
        Some(name) => return add_new(found, name),
        None => return Ok(()),
    }
}

fn add_new<'a>(found: &mut Found<'a>, name: &'a Name) -> Result<(), AllocError>
    requires { AreSeen found.old }
    ensures names { OnOk result (map name_of found.new.names.items ≡ spec.and_new (map name_of found.old.names.items) (name_of name.now)) }
    ensures seen { OnOk result (AreSeen found.new) }
{
    let is_new = found.seen.insert(texts_of(name))?;
    if is_new {
        let copy = copy_of(name)?;
        found.names.push(copy)?;
    }
    Ok(())
}

fn texts_of<'a>(name: &'a Name) -> (&'a str, &'a str)
    ensures { name_at result ≡ name_of name.now }
{
    (name.local.as_str(), name.namespace.as_str())
}

fn copy_of(name: &Name) -> Result<Name, AllocError>
    ensures { IfOk result (λ copy. name_of copy ≡ name_of name.now) }
{
    Ok(Name {
        namespace: name.namespace.clone()?,
        local: name.local.clone()?,
    })
}
