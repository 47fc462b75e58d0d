//! LOCK without a body, which gives a lock another end.
ghost use Rattle.std.specs.Prelude.{◌≡◌, ◌∷◌, [], List, Ok, Some, filter, map, option_map};
ghost use Rattle.std.specs.Prelude.{string_bytes, IfErr, IfOk, OnErr, OnOk};
ghost use Rattle.dav_path_core.specs.declared.util.DavMethod.TheVariants as method;
ghost use Rattle.dav_path_core.specs.Segments.{segments};
ghost use Rattle.dav_headers_core.specs.declared.davheaders.timeouts.DavTimeout.{DavTimeout as timeout};
ghost use Rattle.dav_locks_core.specs.Locks.{end_of, refreshed_lock};
ghost use Rattle.dav_fields_core.specs.Fields.{SendsMore};
ghost use Rattle.dav_fields_core.specs.LockTimeouts.{timeouts_in};
ghost use Rattle.dav_documents_core.specs.LockDocuments.{discovery_pieces};
ghost use Rattle.dav_documents_core.specs.Pieces.{written_pieces};
ghost use Rattle.dav_methods_core.specs.ChangeConditions.{change_course};
ghost use Rattle.dav_methods_core.specs.RefreshMethod as spec_of;
ghost use Rattle.dav_methods_core.specs.RefreshMethod.{NotOne, is_token_of_one};
ghost use Rattle.dav_session_core.specs.Sessions.{Requests};
ghost use Rattle.dav_session_core.specs.Unlocking.{IsAnothers};
ghost use Rattle.dav_session_core.specs.Sessions.{Looks, caller, live_of, state};

use super::preconditions::check_conditions;
use dav_documents_core::lock_documents::discovery_document;
use dav_faults_core::faults::Fault;
use dav_fields_core::lock_timeouts::{given_of, timeouts_in};
use dav_guarded_core::davheaders::DavTimeout;
use dav_guarded_core::davpath::DavPath;
use dav_guarded_core::fs::Moment;
use dav_guarded_core::ls::DavLock;
use dav_guarded_core::util::DavMethod;
use dav_safe_methods_core::refusals::say_document;
use dav_session_core::session::{Session, any_has, copy_of};
use http::StatusCode;
use http_header::{HeaderMap, HeaderValue};
use http_server::Response;
use rand_core::Rng;
use std::alloc::{AllocError, Global};

/// Gives the lock another end whose token is named and which covers the path, and answers 200 with
/// the locks that cover it (RFC 4918 section 9.10.2). The timeout is the first that is asked for
/// and that can be given; else it is the one that the lock has.
///
/// `BadRequest` for a `Timeout` that can't be read; `PreconditionFailed` where no named token is
/// that of such a lock, and `BadRequest` where several are; `Forbidden` where a lock with the token
/// at the path or above has another principal; then `BadRequest` where a condition of HTTP can't
/// be read, and `PreconditionFailed` where one doesn't hold.
#[tactic(auto, using(dav_safe_methods_core::proofs::Acting::all_requests))]
pub fn refresh<R: Rng>(
    alloc: Global,
    session: &mut Session<R>,
    prefix: &str,
    longest: Option<u32>,
    headers: &HeaderMap<HeaderValue>,
    path: DavPath,
    response: &mut Response,
) -> Result<StatusCode, Fault>
    requires { response.old.body.items ≡ [] }
    ensures done { IfOk result (λ code. SendsMore response.old response.new
        (λ sent. spec_of.Refreshes longest prefix.now headers.now (live_of R.stream session.old)
        (caller session.old) (segments path.bytes) code sent (state R.stream session.new))) }
    ensures err { IfErr result (λ e. spec_of.FailsToRefresh headers.now
        (live_of R.stream session.old) (caller session.old) (segments path.bytes) e) }
    ensures looks { OnErr result (Looks R.stream session.old session.new) }
    ensures asks { Requests R.stream session.old session.new }
{
    let timeouts = timeouts_in(alloc, headers)?;
    let token = own_token(alloc, session, headers, &path)?;
    let locks = session.locks_at(copy_of(&path)?)?;
    let timeout = next_timeout(longest, &timeouts, &token, &locks);
    let now = session.now();
    let document = retimed_document(
        alloc,
        prefix,
        session.principal(),
        now,
        locks,
        &token,
        timeout,
    )?;
    say_document(response, document)?;
    session.refresh(path, token, timeout)?;
    Ok(StatusCode::OK)
}

// The one token that the caller names and that a lock of its own has which covers the path, where
// the conditions of HTTP let that be refreshed.
#[tactic(auto, using(dav_safe_methods_core::proofs::Acting::long_requests))]
fn own_token<R: Rng>(
    alloc: Global,
    session: &mut Session<R>,
    headers: &HeaderMap<HeaderValue>,
    path: &DavPath,
) -> Result<String, Fault>
    ensures named { IfOk result (λ token. spec_of.named_there (live_of R.stream session.old)
        (caller session.old) (segments path.now.bytes) ≡ string_bytes token ∷ []) }
    ensures own { IfOk result (λ token. ¬ IsAnothers (live_of R.stream session.old)
        (caller session.old) (segments path.now.bytes) (string_bytes token)) }
    ensures course { OnOk result (change_course method.Lock (state R.stream session.old).map
        (segments path.now.bytes) headers.now ≡ Ok tt) }
    ensures err { (timeouts : List timeout) → timeouts_in headers.now ≡ Some timeouts
        → IfErr result (λ e. spec_of.FailsToRefresh headers.now (live_of R.stream session.old)
        (caller session.old) (segments path.now.bytes) e) }
    ensures looks { Looks R.stream session.old session.new }
{
    let token = token_named(alloc, session, path)?;
    session.check_refresh(path, &token)?;
    check_conditions(alloc, session, DavMethod::Lock, headers, path)?;
    Ok(token)
}

// The one token that the caller names and that a lock has which covers the path.
fn token_named<R: Rng>(
    alloc: Global,
    session: &mut Session<R>,
    path: &DavPath,
) -> Result<String, Fault>
    ensures ok { IfOk result (λ token. spec_of.named_there (live_of R.stream session.old)
        (caller session.old) (segments path.now.bytes) ≡ string_bytes token ∷ []) }
    ensures err { IfErr result (λ e. NotOne (spec_of.named_there (live_of R.stream session.old)
        (caller session.old) (segments path.now.bytes)) e) }
    ensures looks { Looks R.stream session.old session.new }
{
    let locks = session.locks_at(copy_of(path)?)?;
    one_of(alloc, session.tokens(), &locks)
}

// Of some tokens the one that a lock has. `PreconditionFailed` where none is, `BadRequest` where
// several are.
fn one_of(alloc: Global, tokens: &[String], locks: &[DavLock]) -> Result<String, Fault>
    ensures ok { IfOk result (λ token. filter (is_token_of_one locks.now)
        (map string_bytes tokens.now) ≡ string_bytes token ∷ []) }
    ensures err { IfErr result (λ e. NotOne (filter (is_token_of_one locks.now)
        (map string_bytes tokens.now)) e) }
{
    let mut named = tokens.iter().filter(|token| any_has(locks, token));
    let Some(token) = named.next() else {
        return Err(Fault::PreconditionFailed);
    };
    if named.next().is_some() {
        return Err(Fault::BadRequest);
    }
    Ok(String::from_str(alloc, token)?)
}

// What is asked for as a new lock would get it, else the timeout of the lock with the token.
fn next_timeout(
    longest: Option<u32>,
    wanted: &[DavTimeout],
    token: &str,
    locks: &[DavLock],
) -> Option<u64>
    ensures { result ≡ spec_of.next_timeout longest wanted.now token.now locks.now }
{
    if wanted.is_empty() {
        return timeout_among(token, locks);
    }
    given_of(longest, wanted)
}

fn timeout_among(token: &str, locks: &[DavLock]) -> Option<u64>
    ensures { result ≡ spec_of.timeout_among token.now locks.now }
{
    for lock in locks {
        if lock.token.as_str() == token {
            return lock.timeout;
        }
    }
    None
}

// The document of some locks, once the one with the token has another timeout.
fn retimed_document(
    alloc: Global,
    prefix: &str,
    principal: &Option<String>,
    now: Moment,
    mut locks: Vec<DavLock>,
    token: &str,
    timeout: Option<u64>,
) -> Result<Vec<u8>, AllocError>
    ensures { IfOk result (λ document. document.items ≡ written_pieces
        (discovery_pieces prefix.now (option_map string_bytes principal.now) now.0
        (spec_of.retimed_locks now.0 token.now timeout locks.items))) }
{
    retime(&mut locks, now, token, timeout);
    discovery_document(alloc, prefix, principal, now, &locks)
}

// Some locks as they are told once the one with the token has another timeout, counted from now.
fn retime(locks: &mut [DavLock], now: Moment, token: &str, timeout: Option<u64>)
    ensures { locks.new ≡ spec_of.retimed_locks now.0 token.now timeout locks.old }
{
    for lock in locks {
        if lock.token.as_str() == token {
            give_end(lock, now, timeout);
        }
    }
}

// Gives a lock the timeout, counted from now.
fn give_end(lock: &mut DavLock, now: Moment, timeout: Option<u64>)
    ensures { lock.new ≡ refreshed_lock now.0 timeout lock.old }
{
    lock.timeout = timeout;
    lock.timeout_at = end_of(now, timeout);
}

// When a timeout of so many seconds ends that is counted from now.
fn end_of(now: Moment, timeout: Option<u64>) -> Option<Moment>
    ensures { option_map (λ end. end.0) result ≡ end_of now.0 timeout }
{
    match timeout {
        Some(seconds) => Some(Moment(now.0.saturating_add(seconds.saturating_mul(1_000_000_000)))),
        None => None,
    }
}
