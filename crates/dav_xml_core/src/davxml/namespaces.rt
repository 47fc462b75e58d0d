//! Names by their namespaces.
ghost use Rattle.std.specs.Prelude.{◌≡◌, bytes_eq, codes, map, option_map, [], IfErr, IfOk, unwrap_or};
ghost use Rattle.std.specs.Rc.{rc_str_bytes};
ghost use Rattle.dav_xml_core.specs.Gives.{Gives};
ghost use Rattle.dav_xml_core.specs.declared.davxml.errors.Fault.TheVariants.{Memory};
ghost use Rattle.dav_xml_core.specs.Namespaces as spec;
ghost use Rattle.dav_xml_core.specs.Scopes.{binding, distinct_keys, numbered_name};
ghost use Rattle.dav_xml_core.specs.Views.{attribute_key_of, qname_of, raw_attribute_of, name_of};
ghost use Rattle.dav_xml_core.specs.Views as view;

use super::characters::text_of;
use super::documents::{Attribute, Name};
use super::errors::Fault;
use super::markup::RawAttribute;
use super::names::QName;
use super::references::value_of;
use super::scope::Scope;
use std::alloc::{AllocError, Global};
use std::collections::BTreeSet;
use std::rc::RcStr;

const XML_NAMESPACE: &str = "http://www.w3.org/XML/1998/namespace";

const XMLNS_NAMESPACE: &str = "http://www.w3.org/2000/xmlns/";

fn is_xmlns(name: &[char]) -> bool
    ensures { result ≡ bytes_eq name.now (codes "xmlns") }
{
    matches!(name, ['x', 'm', 'l', 'n', 's'])
}

fn is_xml(name: &[char]) -> bool
    ensures { result ≡ bytes_eq name.now (codes "xml") }
{
    matches!(name, ['x', 'm', 'l'])
}

/// The prefix that an attribute of this name binds.
#[tactic(auto, unfolding(crate::specs::Namespaces::declares))]
fn declares<'a>(name: QName<'a>) -> Option<&'a [char]>
    ensures { option_map (λ x. x.now) result ≡ spec.declares (qname_of name.entry) }
{
    if name.prefix.is_empty() {
        if is_xmlns(name.local) {
            return Some(&[]);
        }
        return None;
    }
    if is_xmlns(name.prefix) {
        return Some(name.local);
    }
    None
}

#[tactic(auto, unfolding(crate::specs::Namespaces::may_bind))]
fn may_bind(prefix: &[char], namespace: &str) -> bool
    ensures { result ≡ spec.may_bind prefix.now namespace.now }
{
    if is_xml(prefix) {
        return namespace == XML_NAMESPACE;
    }
    if is_xmlns(prefix) || namespace == XML_NAMESPACE || namespace == XMLNS_NAMESPACE {
        return false;
    }
    prefix.is_empty() || !namespace.is_empty()
}

/// The namespace that a declaration with this value binds a prefix to.
#[tactic(auto, unfolding(crate::specs::Namespaces::declared_binding))]
fn declared_namespace(alloc: Global, prefix: &[char], raw: &[char]) -> Result<RcStr, Fault>
    ensures { Gives (λ x. binding prefix.now (rc_str_bytes x)) result (spec.declared_binding prefix.now raw.now) }
{
    let value = value_of(alloc, raw)?;
    let namespace = text_of(alloc, &value)?;
    if !may_bind(prefix, namespace.as_str()) {
        return Err(Fault::Malformed);
    }
    let namespace = RcStr::from_string(namespace)?;
    Ok(namespace)
}

/// Adds the binding that an attribute declares, if it declares one.
#[tactic(auto, unfolding(crate::specs::Namespaces::with_binding))]
fn bind<'a>(alloc: Global, scope: &mut Scope<'a>, attribute: &RawAttribute<'a>) -> Result<(), Fault>
    ensures { Gives (λ _. scope.new) result (spec.with_binding scope.old (raw_attribute_of attribute.now)) }
{
    if let Some(prefix) = declares(attribute.name) {
        let namespace = declared_namespace(alloc, prefix, attribute.raw)?;
        scope.bind(prefix, namespace)?;
    }
    Ok(())
}

/// Adds the bindings that the attributes of an element declare.
fn bind_all<'a>(
    alloc: Global,
    scope: &mut Scope<'a>,
    attributes: &[RawAttribute<'a>],
) -> Result<(), Fault>
    ensures { Gives (λ _. scope.new) result
        (spec.with_bindings (scope.old) (map raw_attribute_of attributes.now)) }
{
    for attribute in attributes {
        bind(alloc, scope, attribute)?;
    }
    Ok(())
}

#[tactic(auto, unfolding(crate::specs::Namespaces::prefixed_name))]
fn prefixed_name(alloc: Global, scope: &Scope, name: QName) -> Result<Name, Fault>
    ensures { Gives name_of result (spec.prefixed_name scope.now (qname_of name.entry)) }
{
    let Some(binding) = scope.bound(name.prefix) else {
        return Err(Fault::Malformed);
    };
    let namespace = binding.namespace.clone()?;
    let local = text_of(alloc, name.local)?;
    Ok(Name { namespace, local })
}

fn default_namespace(scope: &Scope) -> Result<RcStr, AllocError>
    ensures { IfOk result (λ x. rc_str_bytes x ≡ unwrap_or (spec.bound_namespace [] scope.now) []) }
{
    match scope.bound(&[]) {
        Some(binding) => binding.namespace.clone(),
        None => scope.no_namespace().clone(),
    }
}

#[tactic(auto, unfolding(crate::specs::Namespaces::element_name))]
fn element_name(alloc: Global, scope: &Scope, name: QName) -> Result<Name, Fault>
    ensures { Gives name_of result (spec.element_name scope.now (qname_of name.entry)) }
{
    if name.prefix.is_empty() {
        let namespace = default_namespace(scope)?;
        let local = text_of(alloc, name.local)?;
        return Ok(Name { namespace, local });
    }
    if is_xmlns(name.prefix) {
        return Err(Fault::Malformed);
    }
    prefixed_name(alloc, scope, name)
}

#[tactic(auto, unfolding(crate::specs::Namespaces::attribute_name))]
fn attribute_name(alloc: Global, scope: &Scope, name: QName) -> Result<Name, Fault>
    ensures { Gives name_of result (spec.attribute_name scope.now (qname_of name.entry)) }
{
    if name.prefix.is_empty() {
        let namespace = scope.no_namespace().clone()?;
        let local = text_of(alloc, name.local)?;
        return Ok(Name { namespace, local });
    }
    prefixed_name(alloc, scope, name)
}

#[tactic(auto, unfolding(crate::specs::Namespaces::bound_attribute))]
fn attribute_of(alloc: Global, scope: &Scope, attribute: &RawAttribute) -> Result<Attribute, Fault>
    ensures { Gives view.attribute_of result (spec.bound_attribute scope.now (raw_attribute_of attribute.now)) }
{
    let name = attribute_name(alloc, scope, attribute.name)?;
    let value = value_of(alloc, attribute.raw)?;
    let value = text_of(alloc, &value)?;
    Ok(Attribute { name, value })
}

/// The attributes that declare nothing.
fn attributes_of(
    alloc: Global,
    scope: &Scope,
    attributes: &[RawAttribute],
) -> Result<Vec<Attribute>, Fault>
    ensures { Gives (λ x. map view.attribute_of x.items) result
        (spec.attributes_of scope.now (map raw_attribute_of attributes.now)) }
{
    let mut all = Vec::new(alloc);
    for attribute in attributes {
        if declares(attribute.name).is_none() {
            let one = attribute_of(alloc, scope, attribute)?;
            all.push(one)?;
        }
    }
    Ok(all)
}

/// The name of an attribute, by the number of its namespace, so that comparing two of them doesn't go over namespaces.
#[tactic(auto, unfolding(crate::specs::Namespaces::attribute_name, crate::specs::Namespaces::prefixed_name))]
fn attribute_key<'a>(scope: &Scope, name: QName<'a>) -> Option<(usize, &'a [char])>
    ensures { option_map attribute_key_of result ≡ option_map (numbered_name scope.now) (spec.attribute_name scope.now (qname_of name.entry)) }
{
    if name.prefix.is_empty() {
        return Some((scope.number(""), name.local));
    }
    let binding = scope.bound(name.prefix)?;
    Some((binding.number, name.local))
}

fn keys_of<'a>(
    alloc: Global,
    scope: &Scope,
    attributes: &[RawAttribute<'a>],
) -> Result<Vec<(usize, &'a [char])>, Fault>
    ensures { Gives (λ x. map attribute_key_of x.items) result
        (option_map (map (numbered_name scope.now)) (spec.attribute_names scope.now (map raw_attribute_of attributes.now))) }
{
    let mut keys = Vec::new(alloc);
    for attribute in attributes {
        let Some(key) = attribute_key(scope, attribute.name) else {
            return Err(Fault::Malformed);
        };
        keys.push(key)?;
    }
    Ok(keys)
}

/// Whether no two of the names are the same.
fn are_distinct(alloc: Global, keys: &[(usize, &[char])]) -> Result<bool, Fault>
    ensures value { IfOk result (λ x. x ≡ distinct_keys [] (map attribute_key_of keys.now)) }
    ensures refused { IfErr result (λ e. e ≡ Memory) }
{
    let mut seen = BTreeSet::new(alloc);
    for key in keys {
        if !seen.insert(*key)? {
            return Ok(false);
        }
    }
    Ok(true)
}

fn have_distinct_names(
    alloc: Global,
    scope: &Scope,
    attributes: &[RawAttribute],
) -> Result<bool, Fault>
    ensures { Gives (λ x. x) result
        (option_map spec.are_distinct (spec.attribute_names scope.now (map raw_attribute_of attributes.now))) }
{
    let keys = keys_of(alloc, scope, attributes)?;
    are_distinct(alloc, &keys)
}

/// The name and the attributes of an element, whose bindings are added.
#[tactic(auto, unfolding(crate::specs::Namespaces::started_of))]
pub(super) fn start_of<'a>(
    alloc: Global,
    scope: &mut Scope<'a>,
    name: QName<'a>,
    attributes: &[RawAttribute<'a>],
) -> Result<(Name, Vec<Attribute>), Fault>
    ensures { Gives (λ x. view.started_view scope.new x.0 x.1) result
        (spec.started_of (scope.old) (qname_of name.entry) (map raw_attribute_of attributes.now)) }
{
    bind_all(alloc, scope, attributes)?;
    let expanded = element_name(alloc, scope, name)?;
    if !have_distinct_names(alloc, scope, attributes)? {
        return Err(Fault::Malformed);
    }
    let attributes = attributes_of(alloc, scope, attributes)?;
    Ok((expanded, attributes))
}

/// The bindings that hold everywhere.
pub(super) fn always_bound<'a>(alloc: Global) -> Result<Scope<'a>, AllocError>
    ensures { IfOk result (λ x. x ≡ spec.always_bound) }
{
    let mut scope = Scope::new(alloc)?;
    scope.bind(&['x', 'm', 'l'], RcStr::from_str(alloc, XML_NAMESPACE)?)?;
    scope.bind(
        &['x', 'm', 'l', 'n', 's'],
        RcStr::from_str(alloc, XMLNS_NAMESPACE)?,
    )?;
    Ok(scope)
}
