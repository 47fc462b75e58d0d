//! A service that tells whose requests it is asked, and a clock that stands still.
ghost use Rattle.std.specs.Prelude.{⊤, []};

use bytes::Bytes;
use dav_login_core::Host;
use dav_users_core::UsersError;
use http::Request;
use http_frames::gate::TurnService;
use http_header::HeaderName;
use http_server::{Response, Service};
use std::alloc::{AllocError, Global};
use std::cell::Cell;

/// It answers with the method, the values under the header, and the body.
#[derive(Drop)]
pub(crate) struct Telling {
    pub(crate) alloc: Global,
    pub(crate) header: HeaderName,
}

impl Service for Telling {
    ghost answers = { λ _ _ _ _. ⊤ };

    fn call(
        &mut self,
        request: &Request<Bytes>,
        response: &mut Response,
    ) -> Result<(), AllocError> {
        let alloc = self.alloc;
        response.body.push(Bytes::copy_from_slice(alloc, request.method().as_str().as_bytes())?)?;
        for value in request.headers().get_all(&self.header).iter() {
            response.body.push(Bytes::from_static(b" "))?;
            response
                .body
                .push(Bytes::copy_from_slice(alloc, value.as_bytes())?)?;
        }
        response.body.push(Bytes::from_static(b" "))?;
        response.body.push(request.body().clone()?)
    }
}

impl TurnService for Telling {
    ghost begins = { λ _ _ _. ⊤ };

    ghost clocked = { λ _ _ _. ⊤ };

    ghost listed = { λ _ _ _. ⊤ };

    ghost room = { λ _. 0 };

    ghost user = { λ _. [] };

    fn begin_turn(&mut self, _number: u64, _address: &[u8], _bytes: u64) {}

    fn user(&self) -> &[u8] {
        &[]
    }

    fn own_len(&self, _request: &Request<Bytes>, _response: &Response) -> u64 {
        0
    }

    fn most_room(&self, _bytes: u64) -> u64 {
        0
    }

    fn set_clock(&mut self, _moment: u64) {}

    fn set_users(&mut self, _file: &[u8]) {}
}

/// It is the moment that is set, and it counts the files that were not read.
#[derive(Drop)]
pub(crate) struct Still<'a> {
    pub(crate) now: &'a Cell<u64>,
    pub(crate) told: &'a Cell<u64>,
}

impl Host for Still<'_> {
    ghost told = { λ _ _ _. ⊤ };

    fn now(&self) -> u64 {
        self.now.get()
    }

    fn tell(&mut self, _error: &UsersError) {
        self.told.set(self.told.get().wrapping_add(1));
    }
}
