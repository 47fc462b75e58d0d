//! The laws of methods, of an `If` and of whole answers: a request is answered in one way, but for
//! want of memory and for which of several locks a refusal shows. They do nothing.
ghost use Rattle.std.specs.Prelude.{◌≡◌, ℕ, Bool, List, Option};
ghost use Rattle.http.specs.declared.request.Request.{Request};
ghost use Rattle.http_server.specs.declared.response.Response.{Response};
ghost use Rattle.http_header.specs.FieldValue.{FieldValue};
ghost use Rattle.http_header.specs.HeaderMap.{Entries};
ghost use Rattle.dav_path_core.specs.declared.util.DavMethod.{DavMethod};
ghost use Rattle.dav_path_core.specs.Fronts.{Path};
ghost use Rattle.dav_path_core.specs.PathText.{PathText};
ghost use Rattle.dav_path_core.specs.Segments.{segments};
ghost use Rattle.dav_files_core.specs.Resources.{IsResourceMap, ResourceMap};
ghost use Rattle.dav_guarded_core.specs.Step.{State};
ghost use Rattle.dav_fields_core.specs.Bases.{Site};
ghost use Rattle.dav_fields_core.specs.Fields.{Sent};
ghost use Rattle.dav_faults_core.specs.declared.faults.Fault.{Fault};
ghost use Rattle.dav_faults_core.specs.declared.faults.Fault.TheVariants as fault;
ghost use Rattle.dav_session_core.specs.Callers.{Caller, live};
ghost use Rattle.dav_methods_core.specs.Admitting.{IsAdmitted, IsHeldOff};
ghost use Rattle.dav_methods_core.specs.CopyMethod.{Copies, FailsToCopy};
ghost use Rattle.dav_methods_core.specs.DeleteMethod.{FailsToRemove, Removes};
ghost use Rattle.dav_safe_methods_core.specs.GetMethod.{FailsToGet, Gets};
ghost use Rattle.dav_methods_core.specs.LockMethod.{FailsToLock, IsGranted};
ghost use Rattle.dav_methods_core.specs.MkcolMethod.{FailsToMake, Makes};
ghost use Rattle.dav_methods_core.specs.MoveMethod.{FailsToMove, Moves};
ghost use Rattle.dav_safe_methods_core.specs.PropfindMethod.{FailsToFind, Finds};
ghost use Rattle.dav_methods_core.specs.ProppatchMethod.{FailsToPatch, Patches};
ghost use Rattle.dav_methods_core.specs.PutMethod.{FailsToPut, Writes};
ghost use Rattle.dav_methods_core.specs.RefreshMethod.{FailsToRefresh, Refreshes};
ghost use Rattle.dav_methods_core.specs.SameFaults.{AreAlike, IsDetermined};
ghost use Rattle.dav_methods_core.specs.SameFaults.{LeavesLive};
ghost use Rattle.dav_methods_core.specs.UnlockMethod.{FailsToUnlock, Unlocks};
ghost use Rattle.dav_handler_core.specs.Answers.{Answers};
ghost use Rattle.dav_handler_core.specs.SameAnswers.{AreOneAnswer, LacksMemory, as_left};
ghost use Rattle.dav_handler_core.specs.Server.{Server};

/// The law that the `If` of a request lets it go on or holds it off, but for want of memory, and
/// that it holds it off for one reason (RFC 4918 section 10.4). It does nothing.
pub fn conditions_are_weighed_once()
    ensures either { (site : Site) (s : State) (headers : Entries FieldValue) (here : PathText)
        (e : Fault) → IsAdmitted site s headers here → IsHeldOff site s headers here e
        → e ≡ fault.InsufficientStorage }
    ensures refused { (site : Site) (s : State) (headers : Entries FieldValue) (here : PathText)
        (e f : Fault) → IsHeldOff site s headers here e → IsHeldOff site s headers here f
        → AreAlike e f }
{}

/// The law of a GET and a HEAD (RFC 9110 sections 9.3.1 and 9.3.2): each is answered in one way. It
/// does nothing.
pub fn gets_are_determined()
    ensures told { (m : DavMethod) (map : ResourceMap) (path : PathText)
        (headers : Entries FieldValue) (status other : ℕ) (sent also : Sent)
        → Gets m map path headers status sent → Gets m map path headers other also
        → (status ≡ other) × (sent ≡ also) }
    ensures either { (m : DavMethod) (map : ResourceMap) (path : PathText)
        (headers : Entries FieldValue) (status : ℕ) (sent : Sent) (e : Fault)
        → Gets m map path headers status sent → FailsToGet m map (segments path.bytes) headers e
        → e ≡ fault.InsufficientStorage }
    ensures refused { (m : DavMethod) (map : ResourceMap) (p : Path) (headers : Entries FieldValue)
        (e f : Fault) → FailsToGet m map p headers e → FailsToGet m map p headers f
        → AreAlike e f }
{}

/// The law of a PUT (RFC 9110 section 9.3.4): it is answered in one way. It does nothing.
pub fn puts_are_determined()
    ensures { (headers : Entries FieldValue) (s : State) (who : Caller) (p : Path)
        (bytes : List ℕ)
        → IsDetermined (Writes headers s who p bytes) (FailsToPut s who p bytes headers) }
{}

/// The law of a MKCOL (RFC 4918 section 9.3): it is answered in one way. It does nothing.
pub fn makings_are_determined()
    ensures { (headers : Entries FieldValue) (s : State) (who : Caller) (p : Path)
        → IsDetermined (Makes headers s who p) (FailsToMake headers s who p) }
{}

/// The law of an UNLOCK (RFC 4918 section 9.11): it is answered in one way. It does nothing.
pub fn unlocks_are_determined()
    ensures { (headers : Entries FieldValue) (s : State) (who : Caller) (p : Path)
        → IsDetermined (Unlocks headers s who p) (FailsToUnlock headers s who p) }
{}

/// The law of a PROPFIND (RFC 4918 section 9.1): it is answered in one way. It does nothing.
pub fn questions_are_determined()
    ensures told { (finite : Bool) (prefix : List ℕ) (headers : Entries FieldValue)
        (body : List ℕ) (s : State) (who : Caller) (p : Path) (told also : List ℕ)
        → Finds finite prefix headers body s who p told
        → Finds finite prefix headers body s who p also → told ≡ also }
    ensures either { (finite : Bool) (prefix : List ℕ) (headers : Entries FieldValue)
        (body : List ℕ) (s : State) (who : Caller) (p : Path) (told : List ℕ) (e : Fault)
        → Finds finite prefix headers body s who p told
        → FailsToFind finite headers body s.map p e → e ≡ fault.InsufficientStorage }
    ensures refused { (finite : Bool) (headers : Entries FieldValue) (body : List ℕ)
        (m : ResourceMap) (p : Path) (e f : Fault) → IsResourceMap m
        → FailsToFind finite headers body m p e → FailsToFind finite headers body m p f
        → AreAlike e f }
{}

/// The law of a DELETE (RFC 4918 section 9.6): it is answered in one way. It does nothing.
pub fn removals_are_determined()
    ensures { (headers : Entries FieldValue) (s : State) (who : Caller) (p : Path)
        → IsResourceMap s.map → IsDetermined (Removes headers s who p) (FailsToRemove headers s who p) }
{}

/// The law of a LOCK with a body (RFC 4918 section 9.10): it is answered in one way, and leaves one
/// state but for locks that have expired. It does nothing.
pub fn grants_are_determined()
    ensures told { (most : Option ℕ) (prefix : List ℕ) (headers : Entries FieldValue)
        (body : List ℕ) (s : State) (who : Caller) (path : PathText) (status other : ℕ)
        (sent also : Sent) (s' s'' : State)
        → IsGranted most prefix headers body s who path status sent s'
        → IsGranted most prefix headers body s who path other also s''
        → (status ≡ other) × (sent ≡ also) × (live who.now s' ≡ live who.now s'') }
    ensures either { (most : Option ℕ) (prefix : List ℕ) (headers : Entries FieldValue)
        (body : List ℕ) (s : State) (who : Caller) (path : PathText) (status : ℕ) (sent : Sent)
        (s' : State) (e : Fault) → IsGranted most prefix headers body s who path status sent s'
        → FailsToLock most headers body s who path e → e ≡ fault.InsufficientStorage }
    ensures refused { (most : Option ℕ) (headers : Entries FieldValue) (body : List ℕ) (s : State)
        (who : Caller) (path : PathText) (e f : Fault)
        → FailsToLock most headers body s who path e → FailsToLock most headers body s who path f
        → AreAlike e f }
{}

/// The law of a LOCK without a body (RFC 4918 section 9.10.2): it is answered in one way. It does
/// nothing.
pub fn refreshes_are_determined()
    ensures told { (most : Option ℕ) (prefix : List ℕ) (headers : Entries FieldValue) (s : State)
        (who : Caller) (p : Path) (status other : ℕ) (sent also : Sent) (s' s'' : State)
        → Refreshes most prefix headers s who p status sent s'
        → Refreshes most prefix headers s who p other also s''
        → (status ≡ other) × (sent ≡ also) × (s' ≡ s'') }
    ensures either { (most : Option ℕ) (prefix : List ℕ) (headers : Entries FieldValue)
        (s : State) (who : Caller) (p : Path) (status : ℕ) (sent : Sent) (s' : State) (e : Fault)
        → Refreshes most prefix headers s who p status sent s'
        → FailsToRefresh headers s who p e → e ≡ fault.InsufficientStorage }
    ensures refused { (headers : Entries FieldValue) (s : State) (who : Caller) (p : Path)
        (e f : Fault) → FailsToRefresh headers s who p e → FailsToRefresh headers s who p f
        → AreAlike e f }
{}

/// The law of a MOVE (RFC 4918 section 9.9): it is answered in one way. It does nothing.
pub fn moves_are_determined()
    ensures { (site : Site) (prefix : List ℕ) (headers : Entries FieldValue) (s : State)
        (who : Caller) (from : Path)
        → IsResourceMap s.map → IsDetermined (Moves site prefix headers s who from)
        (FailsToMove site prefix headers s who from) }
{}

/// The law of a COPY (RFC 4918 section 9.8): it is answered in one way, and leaves one state but
/// for locks that have expired. It does nothing.
pub fn copies_are_determined()
    ensures { (site : Site) (prefix : List ℕ) (headers : Entries FieldValue) (s : State)
        (who : Caller) (from : Path)
        → IsResourceMap s.map
        → IsDetermined (λ status t. LeavesLive who.now (λ sent s'. Copies site prefix headers s who
        from status s') t) (FailsToCopy site prefix headers s who from) }
{}

/// The law of a PROPPATCH (RFC 4918 section 9.2): it is answered in one way, and leaves one state but
/// for locks that have expired. It does nothing.
pub fn patches_are_determined()
    ensures { (prefix : List ℕ) (headers : Entries FieldValue) (body : List ℕ) (s : State)
        (who : Caller) (path : PathText)
        → IsDetermined (λ status t. LeavesLive who.now (λ sent s'. Patches prefix headers body s who
        path status sent s') t) (FailsToPatch headers body s who (segments path.bytes)) }
{}

/// The law of answers (own): one request to one server is answered in one way. It does nothing.
///
/// Two answers of one server to one request, neither of them for want of memory, have one status,
/// the same fields and one body, and leave one server, but for locks that have expired. What they
/// may differ in is which of several locks a refusal shows. The clock is the server's, and so is
/// the generator that the token of a lock is drawn from.
pub fn answers_are_determined()
    ensures { (before after other : Server) (request : Request (List ℕ))
        (response answer : Response) → IsResourceMap before.state.map
        → Answers before request response after → Answers before request answer other
        → ¬ LacksMemory response → ¬ LacksMemory answer
        → AreOneAnswer before.options.prefix response answer
        × (as_left after ≡ as_left other) }
{}
