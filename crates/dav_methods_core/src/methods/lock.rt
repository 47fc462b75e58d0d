//! LOCK with a body, which asks for a new lock.
ghost use Rattle.std.specs.Prelude.{◌≡◌, ◌⊎◌, ◌-◌, ◌^◌, ◌<◌, ◌∷◌, [], map};
ghost use Rattle.std.specs.Prelude.{string_bytes, IfErr, IfOk, OnErr, OnOk, if◌then◌else◌};
ghost use Rattle.http_header.specs.FieldValue.{IsFieldValue};
ghost use Rattle.http_server.specs.Response.{fields_of};
ghost use Rattle.dav_path_core.specs.Segments.{segments};
ghost use Rattle.dav_locks_core.specs.Lock.{Lock};
ghost use Rattle.dav_locks_core.specs.Locks.{discovered_locks, lock_conflicts};
ghost use Rattle.dav_fields_core.specs.Fields.{SendsMore, sent_behind, in_brackets, sent_of};
ghost use Rattle.dav_session_core.specs.Granting.{granted_lock, with_lock};
ghost use Rattle.dav_documents_core.specs.LockDocuments.{discovery_pieces};
ghost use Rattle.dav_methods_core.specs.LockMethod as locking;
ghost use Rattle.dav_documents_core.specs.Pieces.{written_pieces};
ghost use Rattle.dav_methods_core.specs.Rooms.{FoundRoom, IsConflictAt, IsGrantedNow};
ghost use Rattle.dav_methods_core.specs.Rooms.{Forgets};
ghost use Rattle.dav_methods_core.specs.Rooms.{IsMadeUnder, IsReadyToLock, IsUnmade, LacksRoom};
ghost use Rattle.dav_methods_core.specs.Rooms.{LeavesLock, conflict_at, wanted_of};
ghost use Rattle.dav_fields_core.specs.RequestRefusals.{IsLastMoment};
ghost use Rattle.dav_guarded_core.specs.Requests.{Command as command};
ghost use Rattle.dav_session_core.specs.Sessions.{HasRoomFor, KeepsRoom, Ran, Requests};
ghost use Rattle.dav_session_core.specs.Sessions.{Looks, Stays, caller, live_of, state};
ghost use Rattle.dav_faults_core.specs.declared.faults.Fault.TheVariants as fault;

use super::changes::{check_above, check_locks, is_below};
use super::preconditions::check_conditions;
use super::told_paths::told_path;
use dav_documents_core::lock_documents::discovery_document;
use dav_documents_core::lock_infos::{LockInfo, lock_info};
use dav_faults_core::faults::Fault;
use dav_fields_core::depths::reach_in;
use dav_fields_core::fields::add_lock_token;
use dav_fields_core::lock_timeouts::{given_of, timeouts_in};
use dav_fields_core::state_tokens::is_among;
use dav_guarded_core::davpath::DavPath;
use dav_guarded_core::fs::Moment;
use dav_guarded_core::ls::DavLock;
use dav_guarded_core::util::DavMethod;
use dav_safe_methods_core::refusals::say_document;
use dav_session_core::session::{Session, copy_of};
use http::StatusCode;
use http_header::{HeaderMap, HeaderValue};
use http_server::Response;
use rand_core::Rng;
use std::alloc::{AllocError, Global};

/// What a LOCK asks for.
#[derive(Drop)]
pub struct Wanted {
    /// The owner's element, as it is kept.
    pub owner: Option<String>,
    /// In seconds; none without an end.
    pub timeout: Option<u64>,
    /// Others may hold it too.
    pub shared: bool,
    /// It covers every path below, too.
    pub deep: bool,
}

/// Grants a lock of a path, makes an empty file there where nothing stands, and answers 200, or 201
/// for a new file, with the lock's token and all locks that cover the path (RFC 4918 sections 7.3
/// and 9.10). The lock of a folder has a path that ends with a slash (section 5.2).
///
/// `BadRequest` where what is asked for can't be read; `ServiceUnavailable` at the last moment;
/// where nothing stands, `Locked` where a lock lets the caller put no file there, with its path, and
/// `Conflict` where no folder stands above; `BadRequest` where a condition of HTTP can't be read,
/// and `PreconditionFailed` where one doesn't hold; `ConflictingLock` where another lock lets this
/// one not be granted, with its path, and `ConflictingMember` where that is a member's. Where there
/// is no memory for the answer, the lock is taken back.
#[tactic(auto, using(dav_safe_methods_core::proofs::Acting::all_requests))]
pub fn lock<R: Rng>(
    alloc: Global,
    session: &mut Session<R>,
    prefix: &str,
    longest: Option<u32>,
    headers: &HeaderMap<HeaderValue>,
    body: &[u8],
    path: DavPath,
    response: &mut Response,
) -> Result<StatusCode, Fault>
    requires { response.old.body.items ≡ [] }
    ensures done { IfOk result (λ code. SendsMore response.old response.new
        (λ sent. locking.IsGranted longest prefix.now headers.now body.now
        (live_of R.stream session.old) (caller session.old) path code sent
        (state R.stream session.new))) }
    ensures err { IfErr result (λ e. locking.FailsToLock longest headers.now body.now
        (live_of R.stream session.old) (caller session.old) path e) }
    ensures left { IfErr result (λ e. LeavesLock
        (locking.IsAskedBy body.now (live_of R.stream session.old) (caller session.old) path)
        (caller session.old) (segments path.bytes) e (state R.stream session.old)
        (state R.stream session.new)) }
    ensures ran { Ran R.stream session.old session.new }
{
    let wanted = wanted_in(alloc, longest, headers, body)?;
    check_moment(session.now())?;
    let missing = find_room(session, &path)?;
    check_conditions(alloc, session, DavMethod::Lock, headers, &path)?;
    let place = told_path(alloc, session, path)?;
    let above = session.tokens_above(alloc, &place)?;
    grant(
        alloc, session, prefix, place, wanted, missing, &above, response,
    )
}

// What is asked for. `BadRequest` where it can't be read.
fn wanted_in(
    alloc: Global,
    longest: Option<u32>,
    headers: &HeaderMap<HeaderValue>,
    body: &[u8],
) -> Result<Wanted, Fault>
    ensures ok { IfOk result (λ wanted. locking.Wants longest headers.now body.now
        (wanted_of wanted)) }
    ensures err { IfErr result (λ e. (e ≡ fault.InsufficientStorage)
        ⊎ ((e ≡ fault.BadRequest) × locking.CantBeRead headers.now body.now)) }
{
    let deep = reach_in(headers)?;
    let timeouts = timeouts_in(alloc, headers)?;
    let LockInfo { shared, owner } = lock_info(alloc, body)?;
    Ok(Wanted {
        owner,
        timeout: given_of(longest, &timeouts),
        shared,
        deep,
    })
}

// A lock of the last moment would end at once.
fn check_moment(now: Moment) -> Result<(), Fault>
    ensures ok { OnOk result (now.0 < 2 ^ 64 - 1) }
    ensures err { IfErr result (λ e. (e ≡ fault.ServiceUnavailable) × IsLastMoment now.0) }
{
    if now.0 == u64::MAX {
        return Err(Fault::ServiceUnavailable);
    }
    Ok(())
}

// Whether nothing stands there; then a file can be made.
#[tactic(auto, using(dav_safe_methods_core::proofs::Acting::long_requests))]
fn find_room<R: Rng>(session: &mut Session<R>, path: &DavPath) -> Result<bool, Fault>
    ensures ok { IfOk result (λ missing. FoundRoom (live_of R.stream session.old)
        (caller session.old) (segments path.now.bytes) missing) }
    ensures err { IfErr result (λ e. LacksRoom (live_of R.stream session.old) (caller session.old)
        (segments path.now.bytes) e) }
    ensures looks { Looks R.stream session.old session.new }
{
    let known = session.meta(copy_of(path)?);
    if known.is_some() {
        return Ok(false);
    }
    check_locks(session, path, false)?;
    check_above(session, path)?;
    Ok(true)
}

// Grants the lock, and tells of it; where that lacks memory, the lock is taken back.
#[tactic(auto, using(dav_safe_methods_core::proofs::Acting::all_requests))]
fn grant<R: Rng>(
    alloc: Global,
    session: &mut Session<R>,
    prefix: &str,
    path: DavPath,
    wanted: Wanted,
    missing: bool,
    above: &[String],
    response: &mut Response,
) -> Result<StatusCode, Fault>
    requires empty { response.old.body.items ≡ [] }
    requires ready { IsReadyToLock (live_of R.stream session.old) (caller session.old) path
        (wanted_of wanted) missing (map string_bytes above.now) }
    ensures done { IfOk result (λ code. SendsMore response.old response.new (λ sent. (lock : Lock)
        × IsGrantedNow prefix.now (live_of R.stream session.old) (caller session.old) path
        (wanted_of wanted) missing lock code sent (state R.stream session.new))) }
    ensures err { IfErr result (λ e. IsConflictAt
        (lock_conflicts (live_of R.stream session.old).locks (segments path.bytes) wanted.shared
        wanted.deep) path e) }
    ensures left { IfErr result (λ e. LeavesLock
        (λ l. l ≡ granted_lock (live_of R.stream session.old) (caller session.old) path
        (wanted_of wanted).owner wanted.timeout wanted.shared wanted.deep) (caller session.old)
        (segments path.bytes) e (state R.stream session.old) (state R.stream session.new)) }
    ensures ran { Ran R.stream session.old session.new }
{
    let lock = granted(session, &path, wanted)?;
    match finish(
        alloc,
        session,
        prefix,
        &path,
        missing,
        &lock.token,
        response,
    ) {
        Ok(status) => Ok(status),
        Err(fault) => {
            forget(session, path, lock.token, above);
            Err(fault)
        },
    }
}

// Grants the lock. `ConflictingLock` where another one stands in the way at the path or above, and
// `ConflictingMember` where it stands below. Room is made for the note of it, and for that of taking
// it back.
fn granted<R: Rng>(
    session: &mut Session<R>,
    path: &DavPath,
    wanted: Wanted,
) -> Result<DavLock, Fault>
    ensures ok { IfOk result (λ lock. lock ≡ granted_lock (live_of R.stream session.old)
        (caller session.old) path.now (wanted_of wanted).owner wanted.timeout wanted.shared
        wanted.deep) }
    ensures left { IfOk result (λ lock. state R.stream session.new
        ≡ with_lock (live_of R.stream session.old) lock) }
    ensures free { OnOk result (lock_conflicts (live_of R.stream session.old).locks
        (segments path.now.bytes) wanted.shared wanted.deep ≡ []) }
    ensures err { IfErr result (λ e. IsConflictAt
        (lock_conflicts (live_of R.stream session.old).locks (segments path.now.bytes)
        wanted.shared wanted.deep) path.now e) }
    ensures refused { OnErr result (Looks R.stream session.old session.new) }
    ensures requests { Requests R.stream session.old session.new }
    ensures room { IfOk result (λ lock. HasRoomFor
        (command.Unlock (segments path.now.bytes) lock.token) session.new) }
{
    session.make_room_to_lock(path, &wanted.owner)?;
    let place = copy_of(path)?;
    match session.grant(
        place,
        wanted.owner,
        wanted.timeout,
        wanted.shared,
        wanted.deep,
    ) {
        Ok(lock) => Ok(lock),
        Err(fault) => Err(by_place(path, fault)?),
    }
}

// A lock that stands below the path is told as a member's.
fn by_place(path: &DavPath, fault: Fault) -> Result<Fault, AllocError>
    ensures { IfOk result (λ told. told ≡ conflict_at path.now fault) }
{
    match fault {
        Fault::ConflictingLock(at) => if is_below(path, &at) {
            Ok(Fault::ConflictingMember(at, copy_of(path)?))
        } else {
            Ok(Fault::ConflictingLock(at))
        },
        fault => Ok(fault),
    }
}

// Tells of the lock with the token, and makes an empty file under it where nothing stands.
#[tactic(auto, using(dav_safe_methods_core::proofs::Acting::all_requests))]
fn finish<R: Rng>(
    alloc: Global,
    session: &mut Session<R>,
    prefix: &str,
    path: &DavPath,
    missing: bool,
    token: &str,
    response: &mut Response,
) -> Result<StatusCode, Fault>
    requires empty { response.old.body.items ≡ [] }
    requires value { IsFieldValue (in_brackets token.now) }
    ensures ok { IfOk result (λ status. status ≡ (if missing then 201 else 200)) }
    ensures sent { OnOk result (sent_of response.new ≡ sent_behind (fields_of response.old)
        (locking.lock_sent token.now (written_pieces (discovery_pieces prefix.now
        (caller session.old).principal (caller session.old).now
        (discovered_locks (live_of R.stream session.old).locks (segments path.now.bytes)))))) }
    ensures made { OnOk result (IsMadeUnder (state R.stream session.old) (caller session.old)
        token.now (segments path.now.bytes) missing (state R.stream session.new)) }
    ensures err { IfErr result (λ e. IsUnmade (state R.stream session.old) (caller session.old)
        token.now (segments path.now.bytes) missing e (state R.stream session.new)) }
    ensures refused { OnErr result (Stays R.stream session.old session.new) }
    ensures ran { Ran R.stream session.old session.new }
    ensures room { KeepsRoom session.old session.new }
{
    let locks = session.locks_at(copy_of(path)?)?;
    let document = discovery_document(alloc, prefix, session.principal(), session.now(), &locks)?;
    tell(alloc, response, document, token)?;
    if !missing {
        return Ok(StatusCode::OK);
    }
    session.make_under(copy_of(path)?, String::from_str(alloc, token)?)?;
    Ok(StatusCode::CREATED)
}

// Tells of a lock: its token in a header field, and a document.
fn tell(alloc: Global, response: &mut Response, document: Vec<u8>, token: &str) -> Result<(), Fault>
    requires empty { response.old.body.items ≡ [] }
    requires value { IsFieldValue (in_brackets token.now) }
    ensures sent { OnOk result (sent_of response.new
        ≡ sent_behind (fields_of response.old) (locking.lock_sent token.now document.items)) }
    ensures err { IfErr result (λ e. e ≡ fault.InsufficientStorage) }
{
    add_lock_token(alloc, response, token)?;
    say_document(response, document)?;
    Ok(())
}

// Takes the lock back that was granted right before; but not where another lock at the path or
// above has its token, as that one would end in its place.
#[tactic(auto, using(dav_safe_methods_core::proofs::Acting::all_requests))]
fn forget<R: Rng>(session: &mut Session<R>, path: DavPath, token: String, above: &[String])
    requires room { HasRoomFor (command.Unlock (segments path.bytes) (string_bytes token))
        session.old }
    ensures left { Forgets (caller session.old) (segments path.bytes) (string_bytes token)
        (map string_bytes above.now) (state R.stream session.old) (state R.stream session.new) }
    ensures asks { Requests R.stream session.old session.new }
{
    if !is_among(above, &token) {
        session.take_back(path, token);
    }
}
