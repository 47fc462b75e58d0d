//! What the answer to a PROPFIND tells of resources, one after another.
ghost use Rattle.std.specs.Prelude.{◌≡◌, true, ◌∷◌, [], codes, map, option_map, string_bytes, OnOk};
ghost use Rattle.std.specs.List.{flat_map};
ghost use Rattle.dav_xml_core.specs.Views.{name_of, writing_of};
ghost use Rattle.dav_xml_core.specs.Writing.{with_end, with_nodes, with_start};
ghost use Rattle.dav_files_core.specs.Properties.{property_of};
ghost use Rattle.dav_documents_core.specs.Pieces.{made_pieces, and_pieces};
ghost use Rattle.dav_documents_core.specs.QuestionViews.{question_of};
ghost use Rattle.dav_documents_core.specs.DescriptionViews.{description_of};
ghost use Rattle.dav_documents_core.specs.Private.Rising.{Rise};
ghost use Rattle.dav_documents_core.specs.PropertyDocuments as spec;
ghost use Rattle.dav_documents_core.specs.PropertyQuestions.{asked_names};
ghost use Rattle.dav_documents_core.specs.RefusalBodies.{dav_name};

mod found;
mod names;
mod values;

use crate::documents::{begin, write_text};
use crate::property_questions::Question;
use dav_files_core::fs::DavProp;
use dav_locks_core::ls::DavLock;
use dav_path_core::util::Moment;
use dav_xml_core::davxml::{Name, Writer};
use found::{finds, write_found};
use names::{has_value, rise, write_missing};
use std::alloc::{AllocError, Global};

/// What may be told of a resource (own).
#[derive(Drop)]
pub struct Description {
    /// Its URL. That of a folder ends in a slash.
    pub url: String,
    /// Whether it is a folder.
    pub folder: bool,
    /// How many bytes a file has.
    pub size: u64,
    /// The type of a file.
    pub content_type: &'static str,
    /// The tag of a file.
    pub tag: String,
    /// When it was made.
    pub created: String,
    /// When it was changed last.
    pub modified: String,
    /// What clients set.
    pub props: Vec<DavProp>,
    /// The locks that cover it.
    pub locks: Vec<DavLock>,
}

/// The answer to a question about a resource, as a principal sees it at a moment (RFC 4918 section 14.24).
pub fn write_response(
    alloc: Global,
    writer: &mut Writer,
    prefix: &str,
    principal: &Option<String>,
    now: Moment,
    question: &Question,
    description: &Description,
) -> Result<(), AllocError>
    ensures { OnOk result (writing_of writer.new ≡ and_pieces (writing_of writer.old)
        (spec.response_pieces prefix.now (option_map string_bytes principal.now) now.0 (question_of question.now) (description_of description.now))) }
{
    begin(writer, "response")?;
    write_text(writer, "href", &description.url)?;
    let risen = rise(&description.props);
    write_found_stat(
        alloc,
        writer,
        prefix,
        principal,
        now,
        question,
        description,
        risen,
    )?;
    write_missing_stat(writer, names_asked(question), description, risen)?;
    writer.end()
}

// What there is of what is asked for.
fn write_found_stat(
    alloc: Global,
    writer: &mut Writer,
    prefix: &str,
    principal: &Option<String>,
    now: Moment,
    question: &Question,
    description: &Description,
    risen: bool,
) -> Result<(), AllocError>
    requires { risen ≡ true → Rise description.now.props.items }
    ensures { OnOk result (writing_of writer.new ≡ and_pieces (writing_of writer.old)
        (spec.found_stat prefix.now (option_map string_bytes principal.now) now.0 (question_of question.now) (description_of description.now))) }
{
    if finds(description, risen, question) {
        return write_found_props(
            alloc,
            writer,
            prefix,
            principal,
            now,
            question,
            description,
            risen,
        );
    }
    Ok(())
}

fn write_found_props(
    alloc: Global,
    writer: &mut Writer,
    prefix: &str,
    principal: &Option<String>,
    now: Moment,
    question: &Question,
    description: &Description,
    risen: bool,
) -> Result<(), AllocError>
    requires { risen ≡ true → Rise description.now.props.items }
    ensures { OnOk result (writing_of writer.new ≡ and_pieces (writing_of writer.old) (spec.propstat (codes "HTTP/1.1 200 OK")
        (spec.found_pieces prefix.now (option_map string_bytes principal.now) now.0 (description_of description.now) (question_of question.now)))) }
{
    begin_stat(writer)?;
    write_found(
        alloc,
        writer,
        prefix,
        principal,
        now,
        question,
        description,
        risen,
    )?;
    end_stat(writer, "HTTP/1.1 200 OK")
}

// Which of these names the resource lacks.
fn write_missing_stat(
    writer: &mut Writer,
    names: &[Name],
    description: &Description,
    risen: bool,
) -> Result<(), AllocError>
    requires { risen ≡ true → Rise description.now.props.items }
    ensures { OnOk result (writing_of writer.new ≡ and_pieces (writing_of writer.old)
        (spec.missing_of (map name_of names.now) (description_of description.now))) }
{
    if lacks(description, risen, names) {
        return write_missing_props(writer, names, description, risen);
    }
    Ok(())
}

fn write_missing_props(
    writer: &mut Writer,
    names: &[Name],
    description: &Description,
    risen: bool,
) -> Result<(), AllocError>
    requires { risen ≡ true → Rise description.now.props.items }
    ensures { OnOk result (writing_of writer.new ≡ and_pieces (writing_of writer.old) (spec.propstat (codes "HTTP/1.1 404 Not Found")
        (made_pieces (flat_map (spec.missing_nodes (description_of description.now)) (map name_of names.now))))) }
{
    begin_stat(writer)?;
    write_missing(writer, names, description, risen)?;
    end_stat(writer, "HTTP/1.1 404 Not Found")
}

// The names that a question gives.
fn names_asked(question: &Question) -> &[Name]
    ensures { map name_of result.now ≡ asked_names (question_of question.now) }
{
    match question {
        Question::All(included) => included.as_slice(),
        Question::Names => &[],
        Question::Listed(names) => names.as_slice(),
    }
}

// Whether the resource lacks one of these.
fn lacks(description: &Description, risen: bool, names: &[Name]) -> bool
    requires { risen ≡ true → Rise description.now.props.items }
    ensures { result ≡ spec.lacks (description_of description.now) (map name_of names.now) }
{
    for name in names {
        if !has_value(description, risen, name) {
            return true;
        }
    }
    false
}

// Properties with one status begin (RFC 4918 section 14.22).
fn begin_stat(writer: &mut Writer) -> Result<(), AllocError>
    ensures { OnOk result (writing_of writer.new ≡ with_start (with_start (writing_of writer.old) (dav_name (codes "propstat")) []) (dav_name (codes "prop")) []) }
{
    begin(writer, "propstat")?;
    begin(writer, "prop")
}

// They end, with their status.
fn end_stat(writer: &mut Writer, status: &str) -> Result<(), AllocError>
    ensures { OnOk result (writing_of writer.new ≡ with_end (with_nodes (with_end (writing_of writer.old)) (spec.text_element (codes "status") status.now))) }
{
    writer.end()?;
    write_text(writer, "status", status)?;
    writer.end()
}
