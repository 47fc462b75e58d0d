//! What the body of a PROPFIND asks for.
ghost use Rattle.std.specs.Prelude.{◌≡◌, ◌⊎◌, None, Some, [], map, option_map, IfErr, IfOk, OnOk};
ghost use Rattle.std.specs.List.{list_any};
ghost use Rattle.dav_xml_core.specs.Views.{name_of, node_of};
ghost use Rattle.dav_documents_core.specs.QuestionViews.{question_of};
ghost use Rattle.dav_documents_core.specs.PropertyQuestions as spec;
ghost use Rattle.dav_faults_core.specs.declared.faults.Fault.TheVariants as fault;

mod names;

use crate::bodies::document_in;
use crate::elements::{children, is_dav};
use dav_faults_core::faults::Fault;
use dav_xml_core::davxml::{Name, Node};
use names::names_within;
use std::alloc::Global;

/// What a PROPFIND asks for (RFC 4918 section 9.1).
#[derive(Drop)]
pub enum Question {
    /// All that stands there, with its value; and of these names whether they stand there.
    All(Vec<Name>),
    /// The names of what stands there.
    Names,
    /// The properties with these names.
    Listed(Vec<Name>),
}

/// What a body asks for: all, where it is empty (RFC 4918 section 9.1). `BadRequest` where it isn't the document of a question.
pub fn question_in(alloc: Global, body: &[u8]) -> Result<Question, Fault>
    ensures ok { IfOk result (λ question. spec.question_in body.now ≡ Some (question_of question)) }
    ensures err { IfErr result (λ e. (e ≡ fault.InsufficientStorage) ⊎ ((e ≡ fault.BadRequest) × (spec.question_in body.now ≡ None))) }
{
    if body.is_empty() {
        return Ok(Question::All(Vec::new(alloc)));
    }
    let document = document_in(alloc, body)?;
    asked_in(alloc, &document.nodes)
}

// By the nodes of a document.
fn asked_in(alloc: Global, nodes: &[Node]) -> Result<Question, Fault>
    ensures ok { IfOk result (λ question. spec.asked_in (map node_of nodes.now) ≡ Some (question_of question)) }
    ensures err { IfErr result (λ e. (e ≡ fault.InsufficientStorage)
        ⊎ ((e ≡ fault.BadRequest) × (spec.asked_in (map node_of nodes.now) ≡ None))) }
{
    if !is_dav(nodes, "propfind") {
        return Err(Fault::BadRequest);
    }
    let parts = children(alloc, nodes)?;
    asked_by(alloc, &parts)
}

// By the elements in a `propfind`.
fn asked_by(alloc: Global, parts: &[&[Node]]) -> Result<Question, Fault>
    ensures ok { IfOk result (λ question. spec.asked_by (map (λ part. map node_of part.now) parts.now) ≡ Some (question_of question)) }
    ensures err { IfErr result (λ e. (e ≡ fault.InsufficientStorage)
        ⊎ ((e ≡ fault.BadRequest) × (spec.asked_by (map (λ part. map node_of part.now) parts.now) ≡ None))) }
{
    let included = names_within(alloc, parts, "include")?;
    let listed = names_within(alloc, parts, "prop")?;
    let names = has_part(parts, "propname");
    let all = has_part(parts, "allprop");
    let some = has_part(parts, "prop");
    match asked(names, all, some, included, listed) {
        Some(question) => Ok(question),
        None => Err(Fault::BadRequest),
    }
}

// Exactly one of the three has to stand there.
fn asked(
    names: bool,
    all: bool,
    some: bool,
    included: Vec<Name>,
    listed: Vec<Name>,
) -> Option<Question>
    ensures { option_map question_of result ≡ spec.question_asked names all some (map name_of included.items) (map name_of listed.items) }
{
    match (names, all, some) {
        (true, false, false) => Some(Question::Names),
        (false, true, false) => Some(Question::All(included)),
        (false, false, true) => Some(Question::Listed(listed)),
        _ => None,
    }
}

// Whether one of the elements is of `DAV:` with this local name.
fn has_part(parts: &[&[Node]], local: &str) -> bool
    ensures { result ≡ spec.has_part local.now (map (λ part. map node_of part.now) parts.now) }
{
    for part in parts {
        if is_dav(part, local) {
            return true;
        }
    }
    false
}
