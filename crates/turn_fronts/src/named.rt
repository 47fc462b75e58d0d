//! A service that tells as whose its last call was answered.
ghost use Rattle.std.specs.Prelude.{◌≡◌, [], IfOk};
ghost use Rattle.http.specs.Request.{head_of};
ghost use Rattle.turn_fronts.specs.NamedUsers.{AnswersNamed, naming_header, named_user, user_let_in};

use bytes::Bytes;
use http::Request;
use http_header::HeaderName;
use http_server::{Response, Service};
use std::alloc::{AllocError, Global};

/// A service that tells as whose the last call of the turn was answered: the user whom a header names, as a login in front of it or a proxy sets it (own).
#[derive(Drop)]
pub struct Named<S> {
    /// The service.
    pub service: S,
    pub(crate) alloc: Global,
    pub(crate) header: Option<HeaderName>,
    pub(crate) user: Vec<u8>,
}

impl<S> Named<S> {
    /// The service, whose users this header names, where one is chosen. Nobody was let in.
    pub fn new(alloc: Global, service: S, header: Option<HeaderName>) -> Named<S>
        ensures service { result.service ≡ service }
        ensures header { naming_header result ≡ header }
        ensures user { user_let_in result ≡ [] }
    {
        Named {
            service,
            alloc,
            header,
            user: Vec::new(alloc),
        }
    }
}

/// The service answers, and the user is remembered. `AllocError` where the service has no memory, or there is none for the name.
impl<S: Service> Service for Named<S> {
    ghost answers = { λ old request response new. AnswersNamed S.answers old request response new };

    fn call(
        &mut self,
        request: &Request<Bytes>,
        response: &mut Response,
    ) -> Result<(), AllocError> {
        let user = Vec::from_slice(self.alloc, named_in(&self.header, request))?;
        self.service.call(request, response)?;
        self.user = user;
        Ok(())
    }
}

// Whom the header names; no bytes where it names nobody.
fn named_in<'a>(header: &Option<HeaderName>, request: &'a Request<Bytes>) -> &'a [u8]
    ensures { result.now ≡ named_user header.now (head_of request.now).headers }
{
    let Some(name) = header else {
        return &[];
    };
    match request.headers().get(name) {
        Some(value) => value.as_bytes(),
        None => &[],
    }
}
