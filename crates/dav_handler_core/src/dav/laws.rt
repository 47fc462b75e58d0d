//! The laws of conditions, of locks and of documents over the answers of the server. They do
//! nothing.
ghost use Rattle.std.specs.Prelude.{◌≡◌, ◌<◌, ◌⊎◌, ◌^◌, ℕ, Bool, true, length, List, Some, Ok, IfOk};
ghost use Rattle.http.specs.declared.request.Request.{Request};
ghost use Rattle.http_server.specs.declared.response.Response.{Response};
ghost use Rattle.http.specs.Request.{body_of};
ghost use Rattle.dav_xml_core.specs.Reading.{document_of};
ghost use Rattle.dav_handler_core.specs.Answers.{Answers};
ghost use Rattle.dav_handler_core.specs.LockTimes.{FindsNoneBehind, StandsItsTime};
ghost use Rattle.dav_handler_core.specs.MethodAnswers.{IsGotten, IsPropPatched, IsPut, as_found};
ghost use Rattle.dav_handler_core.specs.PathFrames.{IsAlike, LeavesPath, Touches};
ghost use Rattle.dav_files_core.specs.Resources.{IsResourceMap, at_path};
ghost use Rattle.dav_path_core.specs.Fronts.{Path};
ghost use Rattle.dav_path_core.specs.Segments.{segments};
ghost use Rattle.dav_path_core.specs.declared.util.DavMethod.TheVariants as method;
ghost use Rattle.dav_handler_core.specs.RequestMoments.{Comes, ComesAt};
ghost use Rattle.dav_handler_core.specs.Server.{Server};
ghost use Rattle.dav_session_core.specs.Callers.{SameLive};
ghost use Rattle.dav_handler_core.specs.Deciding.{HeldOff, SaysDone, SendsPart, SendsTag, WentOn};
ghost use Rattle.dav_handler_core.specs.Deciding.{looks, tells_tag};
ghost use Rattle.dav_fields_core.specs.Fields.{Sent, sent_of, sent_tags};
ghost use Rattle.dav_handler_core.specs.Holding.{IsKeptUnderAny, IsKeptUnlessHeld};
ghost use Rattle.dav_handler_core.specs.Holding.{StandsUnlessEnded};
ghost use Rattle.dav_handler_core.specs.KeptDocuments.{IsNew, KeepsElements, TellsXml};
ghost use Rattle.dav_handler_core.specs.KeptDocuments.{is_told_in_xml};
ghost use Rattle.dav_documents_core.specs.PatchBodies.{patch_nodes};
ghost use Rattle.dav_methods_core.specs.ToldPaths.{told_path};
ghost use Rattle.dav_handler_core.specs.TagHistories.{Becomes};
ghost use Rattle.dav_locks_core.specs.Exclusive.{Exclusive};

/// The law of conditions (RFC 4918 section 10.4, RFC 9110 sections 13 and 14) over every answer of
/// the server. It does nothing.
///
/// - A request is done only where its `If` holds, and the conditions of HTTP let it, which are of
///   what stands at its own path. A PROPFIND and an OPTIONS look at none of these.
/// - 304 and 412 come only where one of them doesn't, and then nothing has changed, but that locks
///   that have expired may be gone.
/// - 206 comes with exactly the part of the file that is asked for, and `Content-Range` says which.
/// - An answer below 400 to a GET, a HEAD or a PUT has the tag of the file that stands at its path
///   behind it, and no tag where none does.
pub fn conditions_decide()
    ensures went_on { (before after : Server) (request : Request (List ℕ)) (response : Response)
        → (h : Answers before request response after) → looks h.method ≡ true
        → SaysDone h.method response.status → WentOn h.method before request after }
    ensures held_off { (before after : Server) (request : Request (List ℕ)) (response : Response)
        → (h : Answers before request response after) → (response.status ≡ 304)
        ⊎ (response.status ≡ 412) → HeldOff h.method before request after
        × SameLive after.last before.state after.state }
    ensures part { (before after : Server) (request : Request (List ℕ)) (response : Response)
        → Answers before request response after → response.status ≡ 206
        → SendsPart before request (sent_of response) after }
    ensures tag { (before after : Server) (request : Request (List ℕ)) (response : Response)
        → (h : Answers before request response after) → tells_tag h.method ≡ true
        → response.status < 400 → SendsTag before request (sent_of response) after }
{}

/// The law of locks (RFC 4918 sections 6 and 7) over every answer of the server. It does nothing.
///
/// - A lock ends only where its moment has come, or by a request of its principal that names its
///   token.
/// - A path under an exclusive lock changes only by such a request.
/// - A path under any lock, shared or not, changes only by such a request of one that covers the
///   path, or one above it.
pub fn locks_are_their_holders()
    ensures ended { (before after : Server) (request : Request (List ℕ)) (response : Response)
        → Answers before request response after → Exclusive before.state.locks
        → StandsUnlessEnded before request after }
    ensures changed { (before after : Server) (request : Request (List ℕ)) (response : Response)
        → Answers before request response after → Exclusive before.state.locks
        → IsKeptUnlessHeld before request after }
    ensures any_changed { (before after : Server) (request : Request (List ℕ)) (response : Response)
        → Answers before request response after → IsKeptUnderAny before request after }
{}

/// The law of time (RFC 4918 section 6.6). It does nothing.
///
/// - A request that begins comes at the later of the clock and the last moment, or, where it may
///   change something, at the later of the clock and one nanosecond behind the last moment. One that
///   does not begin leaves the last moment.
/// - Over a run, a lock whose end has not come stands, unless a request of its principal that names
///   its token ended or changed it.
/// - A request that is done finds no lock whose end the clock had come to.
pub fn locks_stand_their_time()
    ensures moment { (before after : Server) (request : Request (List ℕ)) (response : Response)
        → (h : Answers before request response after)
        → Comes h.method before request h.result after }
    ensures stands { (s s' : Server) → Exclusive s.state.locks → Becomes s s'
        → StandsItsTime s s' }
    ensures expires { (changes : Bool) (before after : Server) (request : Request (List ℕ))
        (status : ℕ) → ComesAt changes before request (Ok status) after
        → FindsNoneBehind before after }
{}

/// The law of what stays (RFC 9110 section 9.3, RFC 4918 section 9). It does nothing.
///
/// - What stands at a path, or that nothing does, stays by every answer, but for one to a request
///   that touches the path: that names it, or one above it, or a target there.
/// - So it stays over every run of answers that don't touch it.
/// - What a PUT left at a path is what a later GET of it is told with 200, with its tag, where no
///   answer between them touches the path.
pub fn paths_stay_untouched()
    ensures stays { (before after : Server) (request : Request (List ℕ)) (response : Response)
        → (h : Answers before request response after) → IsResourceMap before.state.map
        → (p : Path) → IsAlike (at_path before.state.map p) (at_path after.state.map p)
        ⊎ Touches before request p h.method h.result }
    ensures runs { (p : Path) (s s' : Server) → Exclusive s.state.locks
        → IsResourceMap s.state.map → LeavesPath p s s'
        → IsAlike (at_path s.state.map p) (at_path s'.state.map p) }
    ensures gets { (before s s' after : Server) (put get : Request (List ℕ)) (status : ℕ)
        (sent got : Sent) → (h : IsPut before put status sent s) → Exclusive s.state.locks
        → IsResourceMap s.state.map → LeavesPath (segments h.path.bytes) s s'
        → (g : IsGotten method.Get s' get 200 got after)
        → segments g.path.bytes ≡ segments h.path.bytes
        → (got.body ≡ body_of put) × (sent_tags got.fields ≡ sent_tags sent.fields) }
{}

/// The law of documents (XML 1.0 section 2.1, RFC 4918 section 8.2) over a run from new stores. It
/// does nothing.
///
/// - What a PROPFIND, a PROPPATCH or a LOCK has done is told by bytes that are read as one
///   document, and told to be XML, whatever any client has set before.
/// - What is told of a PROPPATCH is read as it was told.
/// - What the stores keep of properties and locks are elements that could have been read.
pub fn answers_are_documents()
    ensures told { (begun before after : Server) (request : Request (List ℕ)) (response : Response)
        → IsNew begun → Becomes begun before → (h : Answers before request response after)
        → is_told_in_xml h.method ≡ true → IfOk h.result (λ status. TellsXml (sent_of response)) }
    ensures patched { (before after : Server) (request : Request (List ℕ)) (status : ℕ)
        (sent : Sent) → length (body_of request) < 2 ^ 64
        → (h : IsPropPatched before request status sent after) → document_of sent.body
        ≡ Some (patch_nodes before.options.prefix (told_path (as_found before after).map h.path)
        h.patches.updates) }
    ensures kept { (begun s : Server) → IsNew begun → Becomes begun s → KeepsElements s }
{}
