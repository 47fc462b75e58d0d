//! What the body of a LOCK asks for.
ghost use Rattle.std.specs.Prelude.{◌≡◌, map, option_copied, option_map, string_bytes, IfOk};
ghost use Rattle.std.specs.List.{AllByRecursion};
ghost use Rattle.std.specs.Option.{ForSome};
ghost use Rattle.dav_xml_core.specs.Views.{node_of};
ghost use Rattle.dav_xml_core.specs.Writing.{written_alone};
ghost use Rattle.dav_documents_core.specs.Bodies.{IsReadAs};
ghost use Rattle.dav_documents_core.specs.Elements.{element_nodes};
ghost use Rattle.dav_documents_core.specs.KeptReading.{IsLang, WasRead};
ghost use Rattle.dav_documents_core.specs.LockInfos as spec;
ghost use Rattle.dav_documents_core.specs.LockInfoViews.{info_of};
ghost use Rattle.dav_documents_core.specs.PropertyUpdates.{with_lang};

use crate::bodies::document_in;
use crate::elements::{at_most_one, children, is_dav, the_one};
use crate::property_updates::{kept_xml, own_lang};
use dav_faults_core::faults::Fault;
use dav_xml_core::davxml::Node;
use std::alloc::{AllocError, Global};

/// What a LOCK asks for (RFC 4918 section 14.11).
#[derive(Drop)]
pub struct LockInfo {
    /// Others may hold a lock there, too.
    pub shared: bool,
    /// The owner's element, as XML that means the same in any document; none where no owner is told.
    pub owner: Option<String>,
}

/// What the body of a LOCK asks for (RFC 4918 section 9.10.1): one `lockscope` with `exclusive` or `shared` in it, one `locktype` with `write` in it, and at most
/// one `owner`. `BadRequest` where the body spells no such document.
pub fn lock_info(alloc: Global, body: &[u8]) -> Result<LockInfo, Fault>
    ensures { IsReadAs info_of result (spec.lock_info_in body.now) }
{
    let document = document_in(alloc, body)?;
    if !is_dav(&document.nodes, "lockinfo") {
        return Err(Fault::BadRequest);
    }
    let inside = children(alloc, &document.nodes)?;
    lock_info_by(alloc, own_lang(&document.nodes), &inside)
}

// By the elements inside of a `lockinfo` in a language.
#[tactic(auto, unfolding(crate::specs::LockInfos::lock_info_by))]
fn lock_info_by(alloc: Global, lang: Option<&str>, inside: &[&[Node]]) -> Result<LockInfo, Fault>
    requires lang { IsLang (option_copied lang) }
    requires read { AllByRecursion WasRead (map element_nodes inside.now) }
    ensures { IsReadAs info_of result (spec.lock_info_by (option_copied lang.entry) (map element_nodes inside.now)) }
{
    let scope = the_one(inside, "lockscope")?;
    let shared = is_shared(alloc, scope)?;
    let kind = the_one(inside, "locktype")?;
    if !is_write(alloc, kind)? {
        return Err(Fault::BadRequest);
    }
    let owner = at_most_one(inside, "owner")?;
    let owner = owner_text(alloc, lang, owner)?;
    Ok(LockInfo { shared, owner })
}

// Whether a scope is `shared`, and not `exclusive`. `BadRequest` where it is not one of these.
#[tactic(auto, unfolding(crate::specs::LockInfos::is_shared))]
fn is_shared(alloc: Global, scope: &[Node]) -> Result<bool, Fault>
    ensures { IsReadAs (λ shared. shared) result (spec.is_shared (map node_of scope.now)) }
{
    let scopes = children(alloc, scope)?;
    let exclusive = at_most_one(&scopes, "exclusive")?;
    let shared = at_most_one(&scopes, "shared")?;
    one_scope(exclusive, shared).ok_or(Fault::BadRequest)
}

// Whether it is `shared`, of two that may be there.
fn one_scope(exclusive: Option<&[Node]>, shared: Option<&[Node]>) -> Option<bool>
    ensures { result ≡ spec.one_scope (option_map element_nodes exclusive.entry) (option_map element_nodes shared.entry) }
{
    match (exclusive, shared) {
        (Some(_), None) => Some(false),
        (None, Some(_)) => Some(true),
        _ => None,
    }
}

// Whether the type of a lock is `write`.
#[tactic(auto, unfolding(crate::specs::LockInfos::is_write))]
fn is_write(alloc: Global, kind: &[Node]) -> Result<bool, AllocError>
    ensures { IfOk result (λ write. write ≡ spec.is_write (map node_of kind.now)) }
{
    let types = children(alloc, kind)?;
    Ok(the_one(&types, "write").is_ok())
}

// The owner's element as XML that means the same in any document, in the language around it.
fn owner_text(
    alloc: Global,
    lang: Option<&str>,
    owner: Option<&[Node]>,
) -> Result<Option<String>, AllocError>
    requires lang { IsLang (option_copied lang) }
    requires read { ForSome owner (λ owner. WasRead (element_nodes owner)) }
    ensures { IfOk result (λ text. option_map string_bytes text ≡ spec.owner_text (option_copied lang.entry) (option_map element_nodes owner.entry)) }
{
    match owner {
        Some(owner) => Ok(Some(text_in(alloc, lang, owner)?)),
        None => Ok(None),
    }
}

fn text_in(alloc: Global, lang: Option<&str>, owner: &[Node]) -> Result<String, AllocError>
    requires lang { IsLang (option_copied lang) }
    requires read { WasRead (map node_of owner.now) }
    ensures { IfOk result (λ text. string_bytes text ≡ written_alone (with_lang (option_copied lang.entry) (map node_of owner.now))) }
{
    match String::from_utf8(kept_xml(alloc, lang, owner)?) {
        Ok(text) => Ok(text),
        Err(_) => unreachable!(),
    }
}
