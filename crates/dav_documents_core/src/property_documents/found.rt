//! What there is of what is asked for.
ghost use Rattle.std.specs.Prelude.{◌≡◌, ◌++◌, true, map, option_map, string_bytes, OnOk};
ghost use Rattle.std.specs.List.{flat_map, list_any};
ghost use Rattle.dav_xml_core.specs.Views.{name_of, writing_of};
ghost use Rattle.dav_xml_core.specs.Writing.{with_nodes};
ghost use Rattle.dav_documents_core.specs.Pieces.{and_pieces};
ghost use Rattle.dav_documents_core.specs.QuestionViews.{question_of};
ghost use Rattle.dav_documents_core.specs.DescriptionViews.{description_of};
ghost use Rattle.dav_documents_core.specs.Private.Rising.{Rise};
ghost use Rattle.dav_documents_core.specs.LiveProperties.{live_properties};
ghost use Rattle.dav_documents_core.specs.PropertyDocuments as spec;

use super::Description;
use super::names::{has_value, write_dead_names, write_live_names};
use super::values::{write_all_dead, write_all_own, write_listed};
use crate::property_questions::Question;
use dav_path_core::util::Moment;
use dav_xml_core::davxml::{Name, Writer};
use std::alloc::{AllocError, Global};

/// Whether a question finds something, or asks for nothing.
pub(super) fn finds(description: &Description, risen: bool, question: &Question) -> bool
    requires { risen ≡ true → Rise description.now.props.items }
    ensures { result ≡ spec.finds (description_of description.now) (question_of question.now) }
{
    match question {
        Question::All(_) => true,
        Question::Names => true,
        Question::Listed(names) => names.is_empty() || has_one(description, risen, names),
    }
}

// Whether the resource has one of these.
fn has_one(description: &Description, risen: bool, names: &[Name]) -> bool
    requires { risen ≡ true → Rise description.now.props.items }
    ensures { result ≡ list_any (spec.has_value (description_of description.now)) (map name_of names.now) }
{
    for name in names {
        if has_value(description, risen, name) {
            return true;
        }
    }
    false
}

/// What a question finds of a resource, as a principal sees it.
pub(super) fn write_found(
    alloc: Global,
    writer: &mut Writer,
    prefix: &str,
    principal: &Option<String>,
    now: Moment,
    question: &Question,
    description: &Description,
    risen: bool,
) -> Result<(), AllocError>
    requires { risen ≡ true → Rise description.now.props.items }
    ensures { OnOk result (writing_of writer.new ≡ and_pieces (writing_of writer.old)
        (spec.found_pieces prefix.now (option_map string_bytes principal.now) now.0 (description_of description.now) (question_of question.now))) }
{
    match question {
        Question::All(_) => return write_all(alloc, writer, prefix, principal, now, description),
        Question::Names => return write_names(alloc, writer, description),
        Question::Listed(names) => return write_listed(
            alloc,
            writer,
            prefix,
            principal,
            now,
            description,
            risen,
            names,
        ),
    }
}

// All that stands there.
#[tactic(auto, using(crate::proofs::PieceLemmas::in_turn))]
fn write_all(
    alloc: Global,
    writer: &mut Writer,
    prefix: &str,
    principal: &Option<String>,
    now: Moment,
    description: &Description,
) -> Result<(), AllocError>
    ensures { OnOk result (writing_of writer.new ≡ and_pieces (writing_of writer.old)
        (flat_map (spec.own_pieces prefix.now (option_map string_bytes principal.now) now.0 (description_of description.now)) live_properties
        ++ flat_map spec.dead_pieces (description_of description.now).props)) }
{
    write_all_own(alloc, writer, prefix, principal, now, description)?;
    write_all_dead(alloc, writer, &description.props)
}

// The names of what stands there.
#[tactic(auto, using(crate::proofs::PieceLemmas::nodes_in_turn))]
fn write_names(
    alloc: Global,
    writer: &mut Writer,
    description: &Description,
) -> Result<(), AllocError>
    ensures { OnOk result (writing_of writer.new ≡ with_nodes (writing_of writer.old)
        (flat_map (spec.own_name_nodes (description_of description.now)) live_properties
        ++ flat_map spec.dead_name_nodes (description_of description.now).props)) }
{
    write_live_names(writer, description)?;
    write_dead_names(alloc, writer, &description.props)
}
