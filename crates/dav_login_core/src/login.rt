//! A service behind a login.
ghost use Rattle.std.specs.Prelude.{◌≡◌, ◌↔◌, false, [], IfOk, IsErrOf};
ghost use Rattle.dav_users_core.specs.Users.{users_in};
ghost use Rattle.dav_login_core.specs.Admissions.{LearnsBy, MayLearn};
ghost use Rattle.dav_login_core.specs.Challenges.{challenge, is_realm};
ghost use Rattle.dav_login_core.specs.LoggedIn.{Lists, LoggedIn};
ghost use Rattle.dav_login_core.specs.LoginViews.{login};

use crate::challenges::{LoginError, challenge};
use crate::digests::Accepted;
use crate::known::Lesson;
use crate::watching::{Host, Watch};
use bytes::Bytes;
use dav_users_core::Users;
use http::Request;
use http_header::{HeaderName, HeaderValue};
use http_server::{Response, Service};
use std::alloc::{AllocError, Global};

/// A service behind a login by names and passwords (RFC 7617), which is told by a header whose request it is asked.
#[derive(Drop)]
pub struct Login<S, H> {
    pub(crate) alloc: Global,
    pub(crate) service: S,
    pub(crate) header: HeaderName,
    pub(crate) challenge: HeaderValue,
    pub(crate) accepted: Accepted,
    pub(crate) watch: Watch<H>,
}

/// The fields by which a login tells and is told of clients.
#[derive(Drop)]
pub struct Fields {
    /// It names the principal to the service.
    pub user: HeaderName,
    /// It tells the address of a request's client, where a proxy in front sets it or adds to it. A client may send it, too: it has to be chosen only where such a proxy is the only one who reaches the
    /// service. Without one it is the address of the connection.
    pub address: Option<HeaderName>,
}

impl<S: Service + Drop, H: Host + Drop> Login<S, H> {
    /// The service behind a login of these users. The realm stands in the challenge (RFC 9110 section 11.5). Under the key the digests of what was accepted are kept, and addresses are told apart: it
    /// has to be random, and known to nobody else. The host tells the time, by which guesses are limited.
    ///
    /// - `Realm`: the realm has a control character other than a tab, or a `"` or `\`.
    /// - `OutOfMemory`: there is no memory.
    pub fn new(
        alloc: Global,
        service: S,
        host: H,
        users: Users,
        realm: &str,
        fields: Fields,
        key: [u8; 32],
    ) -> Result<Login<S, H>, LoginError>
        ensures ok { IfOk result (λ l. login l ≡ record { door = record { users = users_in users; challenge = challenge realm.now; header = fields.user; address_field = fields.address; key = key }; known = []; service = service; host = host }) }
        ensures realm { IsErrOf result LoginError.Realm ↔ (is_realm realm.now ≡ false) }
    {
        let challenge = challenge(alloc, realm)?;
        Ok(Login {
            alloc,
            service,
            header: fields.user,
            challenge,
            accepted: Accepted::new(alloc, users, key),
            watch: Watch::new(alloc, host, fields.address),
        })
    }
}

/// A request with a user's name and password is passed on as that user's, and an OPTIONS without `Authorization` as nobody's. Any other is answered 401, or 429 where too many guesses were wrong,
/// and the service is not asked; where its body is long its connection is closed behind that. `AllocError` where there is no memory for the changed request or the answer.
impl<S: Service, H: Host> Service for Login<S, H> {
    ghost answers = { λ old request response new. LoggedIn S.answers (login old) request response (login new) };

    fn call(
        &mut self,
        request: &Request<Bytes>,
        response: &mut Response,
    ) -> Result<(), AllocError> {
        match self.admit(request, response)? {
            Some(admitted) => {
                self.service.call(&admitted.inner, response)?;
                self.learn(admitted.lesson);
            }
            None => {}
        }
        Ok(())
    }
}

impl<S: Service, H: Host> Login<S, H> {
    // Remembers what was let in.
    pub(crate) fn learn(&mut self, lesson: Lesson)
        requires { MayLearn (login self.old).door lesson }
        ensures door { (login self.new).door ≡ (login self.old).door }
        ensures service { (login self.new).service ≡ (login self.old).service }
        ensures known { LearnsBy lesson (login self.old).known (login self.new).known }
        ensures host { (login self.new).host ≡ (login self.old).host }
    {
        match lesson {
            Lesson::Nothing => {}
            Lesson::Used(digest) => self.accepted.use_again(&digest),
            Lesson::New(known) => self.accepted.keep(known),
        }
    }
}

impl<S, H: Host> Login<S, H> {
    // The users are those of the file from now on, or it is told why not.
    pub(crate) fn list_users(&mut self, file: &[u8])
        ensures lists { Lists H.told (login self.old) file.now (login self.new) }
        ensures service { self.new.service ≡ self.old.service }
    {
        match Users::read(self.alloc, file) {
            Ok(users) => self.accepted.list(self.alloc, users),
            Err(error) => self.watch.tell(&error),
        }
    }
}
