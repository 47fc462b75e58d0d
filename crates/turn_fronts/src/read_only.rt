//! A service of which only what looks is asked.
ghost use Rattle.std.specs.Prelude.{◌≡◌, [], OnOk};
ghost use Rattle.http_frames.specs.Closing.{close_field};
ghost use Rattle.http_server.specs.Response.{IsBlank, IsResponse};
ghost use Rattle.turn_fronts.specs.Looking.{LetsLook};

use crate::looking::asks_to_look;
use bytes::Bytes;
use http::{Request, StatusCode};
use http_frames::closing::close_behind_long;
use http_server::{Response, Service};
use std::alloc::AllocError;

/// A service of which only those requests are asked that ask for no change (own).
#[derive(Drop)]
pub struct ReadOnly<S> {
    /// The service.
    pub service: S,
}

impl<S> ReadOnly<S> {
    /// The service, of which nothing is asked that may change it.
    pub fn new(service: S) -> ReadOnly<S>
        ensures { result.service ≡ service }
    {
        ReadOnly { service }
    }
}

/// A request that asks for no change is answered by the service. Any other is answered 403 (RFC 9110 section 15.5.4), and the service is not asked. `AllocError` where there is no memory.
impl<S: Service> Service for ReadOnly<S> {
    ghost answers = { λ old request response new. LetsLook S.answers old.service request response new.service };

    fn call(
        &mut self,
        request: &Request<Bytes>,
        response: &mut Response,
    ) -> Result<(), AllocError> {
        if !asks_to_look(request) {
            return forbid(request, response);
        }
        self.service.call(request, response)
    }
}

/// Says that the request is refused whoever asks.
pub(crate) fn forbid(request: &Request<Bytes>, response: &mut Response) -> Result<(), AllocError>
    requires { IsBlank response.old }
    ensures { OnOk result (IsResponse 403 (close_field request.now) [] response.new) }
{
    response.status = StatusCode::FORBIDDEN;
    close_behind_long(request, response)
}
