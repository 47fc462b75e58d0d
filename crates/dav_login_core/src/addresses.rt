//! By what the address of a request is known.
ghost use Rattle.std.specs.Prelude.{◌≡◌, []};
ghost use Rattle.dav_login_core.specs.ClientAddresses.{address_of_request, kept_address};

use crate::telling::{is_address, told_in};
use arrayvec::ArrayVec;
use bytes::Bytes;
use http::Request;
use http_header::HeaderName;

/// An address has no more bytes.
pub(crate) const LONGEST: usize = 64;

/// By what the address of a request is known (own).
#[derive(Drop)]
pub struct Addresses {
    /// The field by which a proxy tells it, where one is chosen.
    pub field: Option<HeaderName>,
    /// That of the connection whose turn it is; empty where none was told.
    pub connection: ArrayVec<u8, LONGEST>,
}

impl Addresses {
    /// By this field, where one is chosen. No connection has had a turn.
    pub fn new(field: Option<HeaderName>) -> Addresses
        ensures field { result.field ≡ field }
        ensures connection { result.connection.items ≡ [] }
    {
        Addresses {
            field,
            connection: ArrayVec::new(),
        }
    }

    /// Takes word that a turn comes of a connection whose client has this address. One that is longer than 64 bytes counts as none.
    pub fn turn(&mut self, address: &[u8])
        ensures field { self.new.field ≡ self.old.field }
        ensures connection { self.new.connection.items ≡ kept_address address.now }
    {
        self.connection.clear();
        let _fits = self.connection.try_extend_from_slice(address);
    }

    /// The address of a request of that connection: the one that its field tells, or else the connection's.
    pub fn of<'a>(&'a self, request: &'a Request<Bytes>) -> &'a [u8]
        ensures { result.now ≡ address_of_request self.now request.now }
    {
        let told = told_in(&self.field, request.headers());
        if is_address(told) {
            told
        } else {
            self.connection.as_slice()
        }
    }
}
