//! A password is checked within the limits of guesses.
ghost use Rattle.std.specs.Prelude.{string_bytes};
ghost use Rattle.dav_users_core.specs.Users.{is_password, users_in};
ghost use Rattle.dav_login_core.specs.Guessing.{guessing};
ghost use Rattle.dav_login_core.specs.Checking.{Checks, payer_of_client};

use crate::addresses::Addresses;
use crate::digests::Accepted;
use crate::friends::Friends;
use crate::guesses::Guesses;
use crate::networks::network_of;
use bytes::Bytes;
use dav_users_core::Credentials;
use http::Request;

/// What is said of a name and a password.
#[derive(Clone, Copy)]
pub(crate) enum Verdict {
    /// They are a user's.
    Right,
    /// They are no user's.
    Wrong,
    /// Too many were wrong: these are not looked at.
    TooMany,
}

/// Whether it is the password of the user with that name, where the client of the request may guess at this moment: it is known by the network of its address, and by the name, too, where that was let in from there within a day. Otherwise nothing is hashed.
pub(crate) fn check(
    guesses: &mut Guesses,
    friends: &Friends,
    addresses: &Addresses,
    now: u64,
    accepted: &Accepted,
    request: &Request<Bytes>,
    given: &Credentials,
) -> Verdict
    ensures { Checks now (payer_of_client accepted.now.key friends.now.let_in.items addresses.now request.now (string_bytes given.now.name) now) (is_password (users_in accepted.now.users) (string_bytes given.now.name) (string_bytes given.now.password)) result (guessing guesses.old) (guessing guesses.new) }
{
    let network = network_of(addresses.of(request));
    let payer = friends.payer_of(&accepted.key, network, given.name.as_str(), now);
    if !guesses.take(payer, now) {
        return Verdict::TooMany;
    }
    let users = &accepted.users;
    if users.check(given.name.as_str(), given.password.as_bytes()) {
        return Verdict::Right;
    }
    guesses.count_wrong(payer);
    Verdict::Wrong
}
