//! A PUT, as a first handler of requests.
#![tactic(auto)]

ghost use Rattle.std.specs.Prelude.{◌≡◌};
ghost use Rattle.http.specs.StatusCode.{IsInClass};

use dav_resource_core::guarded::{Guarded, Refusal, Request};
use http::StatusCode;
use rand_core::Rng;

/// Puts a file (RFC 4918 section 9.7), and gives the status of the reply. A refusal leaves all files as they were.
pub fn put<R: Rng>(stores: &mut Guarded, request: &Request, rng: &mut R) -> StatusCode
    ensures { (¬ IsInClass 200 result) → stores.new.map ≡ stores.old.map }
{
    match stores.apply(request, rng) {
        Ok(_reply) => StatusCode::NO_CONTENT,
        Err(Refusal::Fs(error)) => error.status(),
        Err(Refusal::Locked(_lock)) => StatusCode::LOCKED,
        Err(Refusal::NoLock | Refusal::OutOfMemory) => StatusCode::INSUFFICIENT_STORAGE,
    }
}
