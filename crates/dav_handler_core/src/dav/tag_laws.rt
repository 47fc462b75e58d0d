//! The laws of entity tags, and of moments, over a server's run. They do nothing.
ghost use Rattle.std.specs.Prelude.{◌≡◌, ℕ, List, true};
ghost use Rattle.http.specs.declared.request.Request.{Request};
ghost use Rattle.http.specs.Request.{head_of};
ghost use Rattle.http_server.specs.declared.response.Response.{Response};
ghost use Rattle.http_server.specs.Exchange.{Call, Chain};
ghost use Rattle.dav_files_core.specs.Outcomes.{start};
ghost use Rattle.dav_handler_core.specs.Answers.{Answers};
ghost use Rattle.dav_handler_core.specs.DateConditions.{AsksModifiedSince, AsksUnmodifiedSince};
ghost use Rattle.dav_handler_core.specs.DateConditions.{FindsSame};
ghost use Rattle.dav_handler_core.specs.Deciding.{SaysDone, looks};
ghost use Rattle.dav_handler_core.specs.KeptDocuments.{IsNew};
ghost use Rattle.dav_handler_core.specs.PathMoments.{DatesTellFiles, MomentsTellFiles};
ghost use Rattle.dav_handler_core.specs.Server.{Server};
ghost use Rattle.dav_handler_core.specs.TagHistories.{Becomes, HasNoFiles, MomentsTell, TagsTell};

/// The law of tags over a run (RFC 9110 section 8.8.1): from stores without files, a file at one
/// moment of a server's run and a file at the same or a later moment that have equal tags have
/// equal bytes, where their moments and lengths are below 2 ^ 64. The invariant is that no file was
/// changed after the last moment, and that files that were changed last at one moment have the same
/// bytes: stores without files have it, and each answer keeps it. It does nothing.
pub fn tags_tell_bytes()
    ensures tags { (begun s s' : Server) → HasNoFiles begun.state.map → Becomes begun s
        → Becomes s s' → TagsTell s s' }
    ensures begins { (s : Server) → HasNoFiles s.state.map → MomentsTell s }
    ensures goes_on { (s s' : Server) → MomentsTell s → Becomes s s' → MomentsTell s' }
{}

/// The law of moments along a path over a run from new stores (own). Those are the moment at which
/// what stands at the path was made, that of its last change, and those of the last change of each
/// folder above. It does nothing.
///
/// - Where a file stood at a path at one moment of the run, and a file stands there later, they have
///   the same bytes, or a moment along the path is later than all were then.
/// - So they have the same bytes where a date, in whole seconds, is not after the last change of the
///   one, and no moment along the path of the other is after that date.
pub fn moments_tell_files()
    ensures moments { (begun s s' : Server) → IsNew begun → Becomes begun s → Becomes s s'
        → MomentsTellFiles s s' }
    ensures dates { (begun s s' : Server) → IsNew begun → Becomes begun s → Becomes s s'
        → DatesTellFiles s s' }
{}

/// The law of conditions by date over a run from new stores (RFC 9110 sections 13.1.3 and 13.1.4,
/// own). It does nothing.
///
/// - A file was told with a date at a path of the run. Where a request for the path is done later
///   that states the date in its `If-Unmodified-Since`, and no `If-Match`, the file that it finds
///   has the same bytes; or both files were changed last in one second.
/// - So it is where a request is answered 304 that states the date in its `If-Modified-Since`, and
///   no `If-None-Match`.
pub fn dates_tell_bytes()
    ensures lets { (begun earlier before after : Server) (request : Request (List ℕ))
        (response : Response) → IsNew begun → Becomes begun earlier → Becomes earlier before
        → (h : Answers before request response after) → looks h.method ≡ true
        → SaysDone h.method response.status
        → FindsSame (AsksUnmodifiedSince (head_of request).headers) earlier before request after }
    ensures not_modified { (begun earlier before after : Server) (request : Request (List ℕ))
        (response : Response) → IsNew begun → Becomes begun earlier → Becomes earlier before
        → Answers before request response after → response.status ≡ 304
        → FindsSame (AsksModifiedSince (head_of request).headers) earlier before request after }
{}

/// The law that `tags_tell_bytes` is of this server: new stores have no files, and what the calls
/// of a connection lead to is a run; so is what frames lead to (`frames_make_runs`). Calls leave the
/// clock and the options. It does nothing.
pub fn calls_make_runs()
    ensures new_stores { (now : ℕ) → HasNoFiles (start now) }
    ensures calls { (s s' : Server) (calls : List Call) → Chain Answers s calls s' → Becomes s s' }
    ensures stays { (s s' : Server) (calls : List Call) → Chain Answers s calls s'
        → (s'.clock ≡ s.clock) × (s'.options ≡ s.options) }
{}
