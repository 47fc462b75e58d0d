//! How a request begins: its moment, its caller, its path, and its `If`.
ghost use Rattle.std.specs.Prelude.{◌≡◌, ◌<◌, ◌≤◌, ◌⊎◌, [], true, IfOk, IfErr, OnErr, OnOk, Err};
ghost use Rattle.http.specs.Request.{body_of};
ghost use Rattle.http_header.specs.FieldValue.{IsFieldValue};
ghost use Rattle.http_server.specs.Response.{IsBlank};
ghost use Rattle.dav_faults_core.specs.declared.faults.Fault.TheVariants as fault;
ghost use Rattle.dav_fields_core.specs.RequestRefusals.{IsLastMoment};
ghost use Rattle.dav_session_core.specs.Callers.{RunBy};
ghost use Rattle.dav_session_core.specs.Sessions.{caller};
ghost use Rattle.dav_handler_core.specs.Answers.{MayDo};
ghost use Rattle.dav_handler_core.specs.MethodAnswers.{Admits, Unread};
ghost use Rattle.dav_handler_core.specs.Private.Begun.{IsBegun, IsHeld, IsOverladen};
ghost use Rattle.dav_handler_core.specs.RequestMoments.{ComesAt, IsMoment, answer_moment};
ghost use Rattle.dav_handler_core.specs.RequestMoments.{moment_of};
ghost use Rattle.dav_handler_core.specs.Server.{IsFrom, Names};
ghost use Rattle.dav_handler_core.specs.ServerViews.{IsDated, Unchanged, server};

use super::Dav;
use super::room::withheld_from;
use bytes::Bytes;
use dav_faults_core::faults::Fault;
use dav_fields_core::bases::Site;
use dav_fields_core::fields::add_date;
use dav_fields_core::senders::{principal_of, tokens_of};
use dav_fields_core::targets::target_of;
use dav_guarded_core::davpath::DavPath;
use dav_guarded_core::fs::Moment;
use dav_methods_core::conditions::admit;
use http::Request;
use http_server::Response;
use rand_core::Rng;

impl<R: Rng> Dav<R> {
    // The moment that an answer is dated by: the clock's, but not before the last one's, and behind
    // it for a change.
    pub(super) fn answer_moment(&self, changes: bool) -> Moment
        ensures capped { result.0 ≡ answer_moment changes (server R.stream self.now) }
        ensures exact { (changes ≡ true → ¬ IsLastMoment (server R.stream self.now).last)
            → result.0 ≡ moment_of changes (server R.stream self.now) }
    {
        let last = self.session.now().0;
        if changes {
            return Moment(last.saturating_add(1).max(self.clock.0));
        }
        Moment(last.max(self.clock.0))
    }

    // The moment of a request. `ServiceUnavailable` where none is left for a change.
    fn moment(&self, changes: bool) -> Result<Moment, Fault>
        ensures ok { IfOk result (λ moment. IsMoment changes (server R.stream self.now) moment.0) }
        ensures err { IfErr result (λ e. (e ≡ fault.ServiceUnavailable) × (changes ≡ true)
            × IsLastMoment (server R.stream self.now).last) }
    {
        if changes && self.session.now().0 == u64::MAX {
            return Err(Fault::ServiceUnavailable);
        }
        Ok(self.answer_moment(changes))
    }

    // Names the caller of a request, says the answer's date, and answers the path of its target.
    fn begin(
        &mut self,
        request: &Request<Bytes>,
        changes: bool,
        date: &[u8],
        response: &mut Response,
    ) -> Result<DavPath, Fault>
        requires held { IsFieldValue date.now }
        requires blank { IsBlank response.old }
        ensures dated { OnOk result (IsDated date.now response.new) }
        ensures ok { IfOk result (λ path. Names (server R.stream self.old).options request.now path
            × IsFrom (server R.stream self.old).options request.now (caller self.new.session)
            × (changes ≡ true
            → (server R.stream self.old).last < (server R.stream self.new).last)) }
        ensures err { IfErr result (λ e. Unread (server R.stream self.old).options request.now
            (server R.stream self.old).last changes e) }
        ensures moment { OnOk result (IsMoment changes (server R.stream self.old)
            (server R.stream self.new).last) }
        ensures left { OnErr result ((server R.stream self.new).last
            ≡ (server R.stream self.old).last) }
        ensures state { (server R.stream self.new).state ≡ (server R.stream self.old).state }
        ensures moments { (server R.stream self.old).last ≤ (server R.stream self.new).last }
        ensures options { (server R.stream self.new).options ≡ (server R.stream self.old).options }
        ensures clock { (server R.stream self.new).clock ≡ (server R.stream self.old).clock }
        ensures noting { (server R.stream self.new).noting ≡ (server R.stream self.old).noting }
    {
        let path = target_of(self.alloc, request.uri(), &self.settings.prefix)?;
        let principal = principal_of(self.alloc, request.headers(), &self.settings.user_header)?;
        let site = Site::of(self.settings.scheme, request.uri());
        let tokens = tokens_of(self.alloc, &site, request.headers())?;
        let now = self.moment(changes)?;
        add_date(self.alloc, response, date)?;
        self.session
            .begin(principal, tokens, now, withheld_from(request));
        Ok(path)
    }

    // Begins a request, and looks at its `If`.
    pub(super) fn begin_admitted(
        &mut self,
        request: &Request<Bytes>,
        changes: bool,
        date: &[u8],
        response: &mut Response,
    ) -> Result<DavPath, Fault>
        requires held { IsFieldValue date.now }
        requires blank { IsBlank response.old }
        ensures dated { OnOk result (IsDated date.now response.new) }
        ensures ok { IfOk result (λ path. IsBegun (server R.stream self.old) request.now changes
            (server R.stream self.new) path (caller self.new.session)
            × Admits (server R.stream self.old) request.now (server R.stream self.new) path) }
        ensures err { IfErr result (λ e. Unread (server R.stream self.old).options request.now
            (server R.stream self.old).last changes e
            ⊎ IsHeld (server R.stream self.old) request.now (server R.stream self.new) e) }
        ensures moment { OnOk result (IsMoment changes (server R.stream self.old)
            (server R.stream self.new).last) }
        ensures comes { IfErr result (λ e. ComesAt changes (server R.stream self.old) request.now
            (Err e) (server R.stream self.new)) }
        ensures run { RunBy (caller self.new.session) (server R.stream self.old).state
            (server R.stream self.new).state }
        ensures live { Unchanged R.stream self.old self.new }
        ensures moves { MayDo (server R.stream self.old) request.now (server R.stream self.new) }
    {
        let path = self.begin(request, changes, date, response)?;
        let site = Site::of(self.settings.scheme, request.uri());
        admit(
            self.alloc,
            &mut self.session,
            &site,
            request.headers(),
            &path,
        )?;
        Ok(path)
    }

    // Begins a request whose method takes no body, and looks at its `If`. `UnsupportedMediaType`
    // where it has one (RFC 4918 section 8.4).
    pub(super) fn begin_bare(
        &mut self,
        request: &Request<Bytes>,
        changes: bool,
        date: &[u8],
        response: &mut Response,
    ) -> Result<DavPath, Fault>
        requires held { IsFieldValue date.now }
        requires blank { IsBlank response.old }
        ensures dated { OnOk result (IsDated date.now response.new) }
        ensures ok { IfOk result (λ path. IsBegun (server R.stream self.old) request.now changes
            (server R.stream self.new) path (caller self.new.session)
            × Admits (server R.stream self.old) request.now (server R.stream self.new) path
            × (body_of request.now ≡ [])) }
        ensures err { IfErr result (λ e. Unread (server R.stream self.old).options request.now
            (server R.stream self.old).last changes e
            ⊎ (IsHeld (server R.stream self.old) request.now (server R.stream self.new) e
            ⊎ IsOverladen (server R.stream self.old) request.now (server R.stream self.new) e)) }
        ensures moment { OnOk result (IsMoment changes (server R.stream self.old)
            (server R.stream self.new).last) }
        ensures comes { IfErr result (λ e. ComesAt changes (server R.stream self.old) request.now
            (Err e) (server R.stream self.new)) }
        ensures run { RunBy (caller self.new.session) (server R.stream self.old).state
            (server R.stream self.new).state }
        ensures live { Unchanged R.stream self.old self.new }
        ensures moves { MayDo (server R.stream self.old) request.now (server R.stream self.new) }
    {
        let path = self.begin_admitted(request, changes, date, response)?;
        if !request.body().is_empty() {
            return Err(Fault::UnsupportedMediaType);
        }
        Ok(path)
    }
}
