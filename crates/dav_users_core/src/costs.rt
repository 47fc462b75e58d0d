//! What a guess of a password costs: as much for each name, whoever has it.
ghost use Rattle.std.specs.Prelude.{◌≡◌, ◌≤◌};
ghost use Rattle.dav_users_core.specs.GuessCosts.{FillUp, cost, dearer, rounds_of};
ghost use Rattle.dav_users_core.specs.Hashes.{hash_text_of};

use crate::hashes::{PasswordHash, Scheme};

/// So many rounds of a scheme.
#[derive(Clone, Copy)]
pub(crate) struct Rounds {
    pub(crate) scheme: Scheme,
    pub(crate) count: u32,
}

/// The rounds of a hash.
pub(crate) fn rounds_of(hash: &PasswordHash) -> Rounds
    ensures { result ≡ rounds_of (hash_text_of hash.now) }
{
    Rounds {
        scheme: hash.scheme,
        count: hash.rounds,
    }
}

/// What they cost, in thirds of a round of SHA-512.
pub(crate) fn cost(rounds: Rounds) -> u64
    ensures { result ≡ cost rounds }
{
    match rounds.scheme {
        Scheme::Sha256 => rounds.count as u64 * 4,
        Scheme::Sha512 => rounds.count as u64 * 3,
    }
}

/// The second, where they cost more than the first.
pub(crate) fn dearer(one: Rounds, other: Rounds) -> Rounds
    ensures { result ≡ dearer one other }
{
    if cost(one) < cost(other) { other } else { one }
}

/// Rounds that cost what is missing, where so much is spent of what the dearest cost.
pub(crate) fn fill_up(spent: u64, dearest: Rounds) -> Rounds
    requires { spent ≤ cost dearest }
    ensures { FillUp spent result dearest }
{
    let missing = cost(dearest) - spent;
    let count = match dearest.scheme {
        Scheme::Sha256 => (missing / 4) as u32,
        Scheme::Sha512 => (missing / 3) as u32,
    };
    Rounds {
        scheme: dearest.scheme,
        count,
    }
}
