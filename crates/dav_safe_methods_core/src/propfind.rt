//! PROPFIND.
#![tactic(auto, using(crate::proofs::Acting::requests))]

ghost use Rattle.std.specs.Prelude.{◌≡◌, ◌≢◌, ◌⊎◌, true, None, Some, List, [], IfErr};
ghost use Rattle.std.specs.Prelude.{IfOk, IsSome, OnOk};
ghost use Rattle.http_server.specs.Response.{fields_of};
ghost use Rattle.dav_path_core.specs.Segments.{segments};
ghost use Rattle.dav_headers_core.specs.declared.davheaders.depths.Depth.TheVariants as reach;
ghost use Rattle.dav_files_core.specs.Resources.{at_path};
ghost use Rattle.dav_xml_core.specs.Views.{writing_of};
ghost use Rattle.dav_fields_core.specs.Reaches.{depth_in};
ghost use Rattle.dav_fields_core.specs.Fields.{sent_behind, sent_of};
ghost use Rattle.dav_safe_methods_core.specs.PropfindMethod.{DescribesEach, FailsToFind, Finds};
ghost use Rattle.dav_safe_methods_core.specs.PropfindMethod.{ReachesTo};
ghost use Rattle.dav_documents_core.specs.Pieces.{written_pieces};
ghost use Rattle.dav_documents_core.specs.QuestionViews.{question_of};
ghost use Rattle.dav_safe_methods_core.specs.Private.Telling.{TellsEach, TellsOne};
ghost use Rattle.dav_session_core.specs.Placed.{AllStand};
ghost use Rattle.dav_documents_core.specs.PropertyDocuments.{Description, multistatus};
ghost use Rattle.dav_safe_methods_core.specs.SentDocuments.{document_sent};
ghost use Rattle.dav_session_core.specs.Unhindered.{paths_of};
ghost use Rattle.dav_session_core.specs.Sessions.{Looks, caller, live_of, state};
ghost use Rattle.dav_faults_core.specs.declared.faults.Fault.TheVariants as fault;

use crate::describing::describe;
use crate::refusals::say_document;
use dav_documents_core::documents::begin;
use dav_documents_core::property_documents::write_response;
use dav_documents_core::property_questions::{Question, question_in};
use dav_faults_core::faults::Fault;
use dav_fields_core::depths::depth_in;
use dav_guarded_core::davheaders::Depth;
use dav_guarded_core::davpath::DavPath;
use dav_session_core::session::Session;
use dav_xml_core::davxml::Writer;
use http::StatusCode;
use http_header::{HeaderMap, HeaderValue};
use http_server::Response;
use rand_core::Rng;
use std::alloc::Global;

/// Tells of what stands at a path, and within the depth below it, and answers 207 (RFC 4918 section
/// 9.1).
///
/// `BadRequest` for a depth or a body that can't be read, or where a name within the depth is one
/// that no path has which is read; `InfiniteDepth` for all the way down, where the server refuses
/// that; `NotFound` where nothing stands there.
pub fn propfind<R: Rng>(
    alloc: Global,
    session: &mut Session<R>,
    prefix: &str,
    finite: bool,
    headers: &HeaderMap<HeaderValue>,
    body: &[u8],
    path: DavPath,
    response: &mut Response,
) -> Result<StatusCode, Fault>
    requires { response.old.body.items ≡ [] }
    ensures done { IfOk result (λ status. (status ≡ 207)
        × Finds finite prefix.now headers.now body.now (live_of R.stream session.old)
        (caller session.old) (segments path.bytes) response.new.body.items) }
    ensures sent { OnOk result (sent_of response.new
        ≡ sent_behind (fields_of response.old) (document_sent response.new.body.items)) }
    ensures err { IfErr result (λ e. FailsToFind finite headers.now body.now
        (state R.stream session.old).map (segments path.bytes) e) }
    ensures looks { Looks R.stream session.old session.new }
{
    let depth = depth_of(finite, headers)?;
    let question = question_in(alloc, body)?;
    let places = session.places_within(alloc, path, depth)?;
    let document = tell(alloc, session, prefix, &question, &places)?;
    say_document(response, document)?;
    Ok(StatusCode::MULTI_STATUS)
}

// The depth of a PROPFIND. `InfiniteDepth` for all the way down, where that is refused.
fn depth_of(finite: bool, headers: &HeaderMap<HeaderValue>) -> Result<Depth, Fault>
    ensures ok { IfOk result (λ depth. ReachesTo finite headers.now depth) }
    ensures err { IfErr result (λ e. ((e ≡ fault.BadRequest) × (depth_in headers.now ≡ None))
        ⊎ ((e ≡ fault.InfiniteDepth) × (finite ≡ true)
        × (depth_in headers.now ≡ Some reach.Infinity))) }
{
    match depth_in(headers)? {
        Depth::Infinity => if finite {
            Err(Fault::InfiniteDepth)
        } else {
            Ok(Depth::Infinity)
        },
        depth => Ok(depth),
    }
}

// The document that tells of each of the places, where something stands.
fn tell<R: Rng>(
    alloc: Global,
    session: &Session<R>,
    prefix: &str,
    question: &Question,
    places: &[DavPath],
) -> Result<Vec<u8>, Fault>
    requires { AllStand (state R.stream session.now).map (paths_of places.now) }
    ensures ok { IfOk result (λ document. (resources : List Description)
        × DescribesEach prefix.now (live_of R.stream session.now) (paths_of places.now) resources
        × (document.items ≡ written_pieces (multistatus prefix.now (caller session.now).principal
        (caller session.now).now (question_of question.now) resources))) }
    ensures err { IfErr result (λ e. e ≡ fault.InsufficientStorage) }
{
    let mut writer = Writer::new(alloc);
    begin(&mut writer, "multistatus")?;
    tell_each(alloc, session, &mut writer, prefix, question, places)?;
    writer.end()?;
    Ok(writer.into_bytes())
}

fn tell_each<R: Rng>(
    alloc: Global,
    session: &Session<R>,
    writer: &mut Writer,
    prefix: &str,
    question: &Question,
    places: &[DavPath],
) -> Result<(), Fault>
    requires { AllStand (state R.stream session.now).map (paths_of places.now) }
    ensures ok { OnOk result (TellsEach prefix.now (live_of R.stream session.now)
        (caller session.now) (question_of question.now) (paths_of places.now)
        (writing_of writer.old) (writing_of writer.new)) }
    ensures err { IfErr result (λ e. e ≡ fault.InsufficientStorage) }
{
    for place in places {
        tell_one(alloc, session, writer, prefix, question, place)?;
    }
    Ok(())
}

fn tell_one<R: Rng>(
    alloc: Global,
    session: &Session<R>,
    writer: &mut Writer,
    prefix: &str,
    question: &Question,
    place: &DavPath,
) -> Result<(), Fault>
    requires { IsSome (at_path (state R.stream session.now).map (segments place.now.bytes)) }
    ensures ok { OnOk result (TellsOne prefix.now (live_of R.stream session.now)
        (caller session.now) (question_of question.now) (segments place.now.bytes)
        (writing_of writer.old) (writing_of writer.new)) }
    ensures err { IfErr result (λ e. e ≡ fault.InsufficientStorage) }
{
    let description = describe(alloc, session, prefix, place)?;
    write_response(
        alloc,
        writer,
        prefix,
        session.principal(),
        session.now(),
        question,
        &description,
    )?;
    Ok(())
}
