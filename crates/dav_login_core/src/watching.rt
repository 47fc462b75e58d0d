//! Who guesses, and when.
ghost use Rattle.std.specs.Prelude.{◌≡◌, true, false, [], string_bytes};
ghost use Rattle.dav_users_core.specs.declared.error.UsersError as users_errors;
ghost use Rattle.dav_login_core.specs.ClientAddresses.{address_of_request, kept_address};
ghost use Rattle.dav_login_core.specs.Watching.{Watched};
ghost use Rattle.dav_users_core.specs.Users.{is_password, users_in};
ghost use Rattle.dav_login_core.specs.declared.checking.Verdict.TheVariants.{Right, Wrong};

use crate::addresses::Addresses;
use crate::checking::{Verdict, check};
use crate::digests::Accepted;
use crate::friends::Friends;
use crate::guesses::Guesses;
use crate::labels::label_of_name;
use crate::networks::network_of;
use bytes::Bytes;
use dav_users_core::{Credentials, UsersError};
use http::Request;
use http_header::HeaderName;
use std::alloc::Global;
use std::marker::Model;

/// What a login knows of the world.
pub trait Host {
    // From the first state, the word that a file of users was not read, for this reason, leaves the second.
    ghost told: { Self → users_errors.UsersError → Self → Type 0 };

    /// The moment, in nanoseconds of a clock. It does not go back, but where the clock is set.
    fn now(&self) -> u64;

    /// Takes word that a file of users was not read, so that those stay that were in force.
    fn tell(&mut self, error: &UsersError)
        ensures { told self.old error.now self.new };
}

/// The limits of guesses, who was let in from where, and by what clients are known. The limits decide how soon a password is checked, and never whether it is right: so contracts see nothing of them here. That
/// they are those of the client's address is said by `check`.
#[derive(Drop)]
pub(crate) struct Watch<H> {
    host: H,
    guesses: Guesses,
    friends: Friends,
    addresses: Addresses,
}

impl<H> Model for Watch<H> {
    ghost Value = { Watched H };

    ghost view = { λ w. record { addresses = w.addresses; host = w.host } };
}

impl<H: Host> Watch<H> {
    /// Nobody has guessed. Clients are known by this field, where one is chosen.
    pub(crate) fn new(alloc: Global, host: H, address_field: Option<HeaderName>) -> Watch<H>
        ensures host { result.host ≡ host }
        ensures field { result.addresses.field ≡ address_field }
        ensures connection { result.addresses.connection.items ≡ [] }
    {
        Watch {
            host,
            guesses: Guesses::new(alloc),
            friends: Friends::new(alloc),
            addresses: Addresses::new(address_field),
        }
    }

    /// Takes word that a turn of a connection comes whose client has the address. One that is longer than 64 bytes counts as none.
    pub(crate) fn turn(&mut self, address: &[u8])
        ensures host { self.new.host ≡ self.old.host }
        ensures field { self.new.addresses.field ≡ self.old.addresses.field }
        ensures connection { self.new.addresses.connection.items ≡ kept_address address.now }
    {
        self.addresses.turn(address);
    }

    /// The address of a request of the connection whose turn it is.
    pub(crate) fn address_of<'a>(&'a self, request: &'a Request<Bytes>) -> &'a [u8]
        ensures { result.now ≡ address_of_request self.now.addresses request.now }
    {
        self.addresses.of(request)
    }

    /// Whether it is the password of the user with that name, as `check` says, at this moment.
    pub(crate) fn check(
        &mut self,
        accepted: &Accepted,
        request: &Request<Bytes>,
        given: &Credentials,
    ) -> Verdict
        ensures right { result ≡ Right
            → is_password (users_in accepted.now.users) (string_bytes given.now.name) (string_bytes given.now.password) ≡ true }
        ensures wrong { result ≡ Wrong
            → is_password (users_in accepted.now.users) (string_bytes given.now.name) (string_bytes given.now.password) ≡ false }
        ensures same { self.new ≡ self.old }
    {
        let now = self.host.now();
        check(
            &mut self.guesses,
            &self.friends,
            &self.addresses,
            now,
            accepted,
            request,
            given,
        )
    }

    /// Takes word that the user with this name is let in by the request.
    pub(crate) fn let_in(&mut self, accepted: &Accepted, request: &Request<Bytes>, name: &str)
        ensures { self.new ≡ self.old }
    {
        let now = self.host.now();
        let network = network_of(self.addresses.of(request));
        self.friends
            .note(label_of_name(&accepted.key, network, name), now);
    }

    /// Takes word that a file of users was not read.
    pub(crate) fn tell(&mut self, error: &UsersError)
        ensures told { H.told self.old.host error.now self.new.host }
        ensures addresses { self.new.addresses ≡ self.old.addresses }
    {
        self.host.tell(error);
    }
}
