//! Which requests are let in.
ghost use Rattle.std.specs.Prelude.{◌≡◌, ◌∷◌, [], ℕ, Some, None, Ok, OnOk, OnErr, codes, IfSome, string_bytes};
ghost use Rattle.http.specs.Request.{head_of};
ghost use Rattle.http_frames.specs.Closing.{close_field};
ghost use Rattle.http_server.specs.Response.{IsBlank, IsResponse};
ghost use Rattle.dav_users_core.specs.Basic.{name_and_password_of};
ghost use Rattle.dav_login_core.specs.Admissions.{IsFoundToBe, WeighsUp};
ghost use Rattle.dav_login_core.specs.Checking.{label_of_client};
ghost use Rattle.dav_login_core.specs.LoggedIn.{TurnsAway};
ghost use Rattle.dav_login_core.specs.LoginViews.{login};
ghost use Rattle.dav_login_core.specs.Sending.{name_and_password_sent};
ghost use Rattle.dav_login_core.specs.Digests.{digest};
ghost use Rattle.dav_login_core.specs.declared.admitting.Admitted.{Admitted};

use crate::checking::Verdict;
use crate::known::{Known, Lesson};
use crate::labels::label_of;
use crate::login::Login;
use crate::networks::network_of;
use crate::passing::{as_nobody, as_user};
use crate::sending::{asks_options, credentials_of};
use crate::watching::Host;
use crate::weighing::Standing;
use bytes::Bytes;
use dav_users_core::Credentials;
use http::{Request, StatusCode};
use http_frames::closing::close_behind_long;
use http_header::{HeaderName, HeaderValue, HeaderValueError};
use http_server::Response;
use std::alloc::AllocError;

/// The request that the service is asked, and what was found right for it.
#[derive(Drop)]
pub(crate) struct Admitted {
    pub(crate) inner: Request<Bytes>,
    pub(crate) lesson: Lesson,
}

impl<S, H: Host> Login<S, H> {
    /// The request that the service is to be asked; or none, and the request is answered.
    pub(crate) fn admit(
        &mut self,
        request: &Request<Bytes>,
        response: &mut Response,
    ) -> Result<Option<Admitted>, AllocError>
        requires { IsBlank response.old }
        ensures some { (admitted : Admitted) → result ≡ Ok (Some admitted) → IsFoundToBe (login self.old).door (login self.old).known request.now admitted }
        ensures same { (admitted : Admitted) → result ≡ Ok (Some admitted) → self.new ≡ self.old }
        ensures blank { (admitted : Admitted) → result ≡ Ok (Some admitted) → IsBlank response.new }
        ensures none { result ≡ Ok None → TurnsAway (login self.old) request.now response.new (login self.new) }
        ensures err { OnErr result (self.new ≡ self.old) }
    {
        match credentials_of(self.alloc, request.headers())? {
            Some(given) => self.admit_sent(given, request, response),
            None => self.admit_unsigned(request, response),
        }
    }

    // The same of a request that sends no name and no password.
    fn admit_unsigned(
        &self,
        request: &Request<Bytes>,
        response: &mut Response,
    ) -> Result<Option<Admitted>, AllocError>
        requires blank { IsBlank response.old }
        requires unsigned { name_and_password_sent (head_of request.now).headers ≡ None }
        ensures some { (admitted : Admitted) → result ≡ Ok (Some admitted) → IsFoundToBe (login self.now).door (login self.now).known request.now admitted }
        ensures blank { (admitted : Admitted) → result ≡ Ok (Some admitted) → IsBlank response.new }
        ensures none { result ≡ Ok None → TurnsAway (login self.now) request.now response.new (login self.now) }
    {
        if !asks_options(request) {
            self.refuse(request, response)?;
            return Ok(None);
        }
        let inner = as_nobody(request, &self.header)?;
        Ok(Some(Admitted {
            inner,
            lesson: Lesson::Nothing,
        }))
    }

    // The same of a request that sends a name and a password.
    fn admit_sent(
        &mut self,
        given: Credentials,
        request: &Request<Bytes>,
        response: &mut Response,
    ) -> Result<Option<Admitted>, AllocError>
        requires blank { IsBlank response.old }
        requires is_sent { name_and_password_sent (head_of request.now).headers ≡ Some (name_and_password_of given) }
        ensures some { (admitted : Admitted) → result ≡ Ok (Some admitted) → IsFoundToBe (login self.old).door (login self.old).known request.now admitted }
        ensures same { (admitted : Admitted) → result ≡ Ok (Some admitted) → self.new ≡ self.old }
        ensures blank { (admitted : Admitted) → result ≡ Ok (Some admitted) → IsBlank response.new }
        ensures none { result ≡ Ok None → TurnsAway (login self.old) request.now response.new (login self.new) }
        ensures err { OnErr result (self.new ≡ self.old) }
    {
        let value = match HeaderValue::from_str(self.alloc, given.name.as_str()) {
            Ok(value) => value,
            Err(HeaderValueError::OutOfMemory) => return Err(AllocError),
            Err(HeaderValueError::Invalid) => {
                self.refuse(request, response)?;
                return Ok(None);
            }
        };
        let digest = self
            .accepted
            .digest(given.name.as_str(), given.password.as_str());
        let label = self.label_of(request);
        match self.weigh(request, &given, digest, label) {
            Standing::Accepted => {
                let inner = as_user(request, &self.header, value)?;
                Ok(Some(Admitted {
                    inner,
                    lesson: Lesson::Used(digest),
                }))
            }
            Standing::Right => {
                let inner = as_user(request, &self.header, value)?;
                Ok(Some(Admitted {
                    inner,
                    lesson: Lesson::New(Known {
                        name: given.name,
                        digest,
                    }),
                }))
            }
            Standing::Wrong => {
                self.refuse(request, response)?;
                self.accepted.note_refused(label, digest);
                Ok(None)
            }
            Standing::Again => {
                self.refuse(request, response)?;
                Ok(None)
            }
            Standing::TooMany => {
                hold_back(request, response)?;
                Ok(None)
            }
        }
    }

    // What is said of a name and a password with this digest, from this label. The password is hashed only where the digest is neither kept of what was accepted nor of what was sent in vain from
    // the label, and no limit of guesses is reached.
    fn weigh(
        &mut self,
        request: &Request<Bytes>,
        given: &Credentials,
        sent: [u8; 32],
        label: u64,
    ) -> Standing
        requires { sent ≡ digest self.old.accepted.key (string_bytes given.now.name) (string_bytes given.now.password) }
        ensures weighs { WeighsUp (login self.old).door (login self.old).known self.old.accepted.refused.items label (string_bytes given.now.name) (string_bytes given.now.password) result }
        ensures same { self.new ≡ self.old }
    {
        let name = given.name.as_str();
        if self.accepted.knows(&sent) {
            self.note_let_in(request, name);
            return Standing::Accepted;
        }
        if self.accepted.was_refused(label, sent) {
            return Standing::Again;
        }
        match self.watch.check(&self.accepted, request, given) {
            Verdict::Right => {
                self.note_let_in(request, name);
                Standing::Right
            }
            Verdict::Wrong => Standing::Wrong,
            Verdict::TooMany => Standing::TooMany,
        }
    }

    // Takes word that the user with this name is let in by the request.
    fn note_let_in(&mut self, request: &Request<Bytes>, name: &str)
        ensures { self.new ≡ self.old }
    {
        self.watch.let_in(&self.accepted, request, name);
    }

    // The label by which the guesses of the request's client count.
    fn label_of(&self, request: &Request<Bytes>) -> u64
        ensures { result ≡ label_of_client self.now.accepted.key self.now.watch.addresses request.now }
    {
        label_of(
            &self.accepted.key,
            network_of(self.watch.address_of(request)),
        )
    }

    // Asks for a name and a password (RFC 9110 section 15.5.2), and closes the connection of a long request.
    fn refuse(&self, request: &Request<Bytes>, response: &mut Response) -> Result<(), AllocError>
        requires { IsBlank response.old }
        ensures { OnOk result (IsResponse 401 ((codes "www-authenticate", self.now.challenge.bytes) ∷ close_field request.now) [] response.new) }
    {
        response.status = StatusCode::UNAUTHORIZED;
        let name = HeaderName::from_static("www-authenticate");
        response.add_header(name, self.challenge.clone()?)?;
        close_behind_long(request, response)
    }
}

// Says that too many guesses were wrong, and when the next may be right (RFC 6585 section 4), and closes the connection of a long request.
fn hold_back(request: &Request<Bytes>, response: &mut Response) -> Result<(), AllocError>
    requires { IsBlank response.old }
    ensures { OnOk result (IsResponse 429 ((codes "retry-after", codes "1") ∷ close_field request.now) [] response.new) }
{
    response.status = StatusCode::TOO_MANY_REQUESTS;
    response.add_header(
        HeaderName::from_static("retry-after"),
        HeaderValue::from_static("1"),
    )?;
    close_behind_long(request, response)
}
