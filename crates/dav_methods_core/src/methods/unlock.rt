//! UNLOCK.
ghost use Rattle.std.specs.Prelude.{◌≡◌, ◌⊎◌, ℕ, List, IfErr, IfOk, MatchOption, OnErr};
ghost use Rattle.std.specs.Prelude.{string_bytes};
ghost use Rattle.dav_path_core.specs.Segments.{segments};
ghost use Rattle.dav_session_core.specs.Sessions.{Requests};
ghost use Rattle.dav_session_core.specs.Sessions.{Looks, caller, live_of, state};
ghost use Rattle.dav_methods_core.specs.UnlockMethod.{FailsToUnlock, IsBracketed, NamesToken, Unlocks};
ghost use Rattle.dav_faults_core.specs.declared.faults.Fault.TheVariants as fault;

use super::preconditions::check_conditions;
use dav_faults_core::faults::Fault;
use dav_fields_core::senders::value_of;
use dav_guarded_core::davpath::DavPath;
use dav_guarded_core::util::DavMethod;
use dav_session_core::session::Session;
use http::StatusCode;
use http_header::{HeaderMap, HeaderName, HeaderValue};
use rand_core::Rng;
use std::alloc::Global;

/// Ends the lock that `Lock-Token` names, and answers 204 (RFC 4918 section 9.11).
///
/// `BadRequest` without such a token; `NoSuchLock` where no lock with it covers the path;
/// `Forbidden` where one with it at the path or above has another principal; and then, by the
/// conditions of HTTP, `BadRequest` where one can't be read, and `PreconditionFailed` where one
/// doesn't hold.
#[tactic(auto, using(dav_safe_methods_core::proofs::Acting::all_requests))]
pub fn unlock<R: Rng>(
    alloc: Global,
    session: &mut Session<R>,
    headers: &HeaderMap<HeaderValue>,
    path: DavPath,
) -> Result<StatusCode, Fault>
    ensures done { IfOk result (λ code. Unlocks headers.now (live_of R.stream session.old)
        (caller session.old) (segments path.bytes) code (state R.stream session.new)) }
    ensures err { IfErr result (λ e. FailsToUnlock headers.now (live_of R.stream session.old)
        (caller session.old) (segments path.bytes) e) }
    ensures looks { OnErr result (Looks R.stream session.old session.new) }
    ensures asks { Requests R.stream session.old session.new }
{
    let token = token_named(alloc, headers)?;
    session.check_unlock(&path, &token)?;
    check_conditions(alloc, session, DavMethod::Unlock, headers, &path)?;
    session.unlock(path, token)?;
    Ok(StatusCode::NO_CONTENT)
}

// The token that `Lock-Token` names. `BadRequest` where it names none.
fn token_named(alloc: Global, headers: &HeaderMap<HeaderValue>) -> Result<String, Fault>
    ensures ok { IfOk result (λ token. NamesToken headers.now (string_bytes token)) }
    ensures err { IfErr result (λ e. (e ≡ fault.InsufficientStorage)
        ⊎ ((e ≡ fault.BadRequest) × ((token : List ℕ) → ¬ NamesToken headers.now token))) }
{
    let Some(value) = value_of(headers, &HeaderName::from_static("lock-token"))? else {
        return Err(Fault::BadRequest);
    };
    let Some(token) = token_in(value) else {
        return Err(Fault::BadRequest);
    };
    Ok(String::from_str(alloc, token)?)
}

// The token between the angle brackets of a value, where it has them.
fn token_in(value: &HeaderValue) -> Option<&str>
    ensures { MatchOption result ((token : List ℕ) → ¬ IsBracketed value.now.bytes token)
        (λ token. IsBracketed value.now.bytes token.now) }
{
    let Ok(text) = str::from_utf8(value.as_bytes()) else {
        return None;
    };
    let Some(rest) = text.strip_prefix('<') else {
        return None;
    };
    rest.strip_suffix('>')
}
