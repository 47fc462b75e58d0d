//! The server: an HTTP service over the stores (RFC 4918 section 9, RFC 9110 section 9).
ghost use Rattle.std.specs.Prelude.{◌≡◌, ◌<◌, ◌≤◌, ◌-◌, ◌^◌, [], ◌∷◌, true, IfErr, OnErr, Err, Option, Some};
ghost use Rattle.std.specs.Prelude.{IfOk, false, map};
ghost use Rattle.http.specs.Request.{body_of, head_of};
ghost use Rattle.http_header.specs.FieldValue.{IsFieldValue};
ghost use Rattle.http_server.specs.Response.{IsBlank};
ghost use Rattle.dav_fields_core.specs.AnswerFields.{first_fields, options_fields};
ghost use Rattle.dav_fields_core.specs.Fields.{sent_behind, sent_of};
ghost use Rattle.dav_path_core.specs.declared.util.DavMethod.{DavMethod};
ghost use Rattle.dav_path_core.specs.declared.util.DavMethod.TheVariants as method;
ghost use Rattle.dav_notes_core.specs.Ahead.{ahead};
ghost use Rattle.dav_notes_core.specs.Costs.{notes_cost};
ghost use Rattle.dav_notes_core.specs.Noting.{AreChanges, note_of};
ghost use Rattle.dav_notes_core.specs.Seen.{KeptNotes};
ghost use Rattle.dav_guarded_core.specs.Stores.{state_of};
ghost use Rattle.rand_core.specs.Stream.{fill_bytes};
ghost use Rattle.dav_handler_core.specs.Answers.{Answers};
ghost use Rattle.dav_handler_core.specs.Answers.{IsMethod, MayDo};
ghost use Rattle.dav_handler_core.specs.RequestMoments.{Comes, ComesAt};
ghost use Rattle.dav_handler_core.specs.RequestMoments.{may_change};
ghost use Rattle.dav_handler_core.specs.MethodAnswers.{has_body};
ghost use Rattle.dav_handler_core.specs.ServerViews.{IsAnswered, IsGotBy, LeftBy};
ghost use Rattle.dav_handler_core.specs.ServerViews.{Unchanged};
ghost use Rattle.dav_handler_core.specs.ServerViews.{options_of, server, stores_of_server};
ghost use Rattle.dav_faults_core.specs.declared.faults.Fault.TheVariants as fault;

mod beginning;
mod laws;
mod room;
mod tag_laws;

use bytes::Bytes;
use dav_documents_core::bodies::fits;
pub use dav_documents_core::laws::{
    kept_owners_are_read, kept_properties_are_read, refusals_are_read,
};
use dav_faults_core::faults::Fault;
use dav_fields_core::bases::{Scheme, Site};
use dav_fields_core::dates::date_bytes;
use dav_fields_core::fields::add_date;
use dav_guarded_core::fs::Moment;
use dav_guarded_core::guarded::Guarded;
use dav_guarded_core::util::DavMethod;
use dav_methods_core::methods::{
    copy, delete, get, lock, mkcol, moving, options, propfind, proppatch, put, refresh, unlock,
};
use dav_methods_core::refusals::refuse;
use dav_notes_core::notes::Note;
use dav_session_core::session::Session;
use http::{Request, StatusCode};
use http_header::HeaderName;
use http_server::{Response, Service};
pub use laws::{
    answers_are_documents, conditions_decide, locks_are_their_holders, locks_stand_their_time,
    paths_stay_untouched,
};
use rand_core::Rng;
pub use room::LAST_ROOM;
use std::alloc::{AllocError, Global};
pub use tag_laws::{calls_make_runs, dates_tell_bytes, moments_tell_files, tags_tell_bytes};

/// What whoever runs a server chooses.
#[derive(Drop)]
pub struct Settings {
    /// The scheme of its URLs, with which the resource tags of an `If` are compared (own).
    pub scheme: Scheme,
    /// The path that its URLs stand behind; empty for none (own).
    pub prefix: String,
    /// The header by which a proxy in front names the principal; none where nobody is named (own).
    pub user_header: Option<HeaderName>,
    /// The greatest timeout that a lock gets, in seconds; none where it may stand without an end
    /// (RFC 4918 section 6.6).
    pub longest_timeout: Option<u32>,
    /// Whether a PROPFIND all the way down is refused (RFC 4918 section 9.1).
    pub finite_depth: bool,
}

/// A WebDAV server over stores of its own.
#[derive(Drop)]
pub struct Dav<R> {
    alloc: Global,
    settings: Settings,
    session: Session<R>,
    clock: Moment,
}

impl<R: Rng + Drop> Dav<R> {
    /// A server over stores, at the moment (own). Notes of what changes are kept from now on, or
    /// never. The bytes of the first lock's token are drawn ahead.
    pub fn new(
        alloc: Global,
        settings: Settings,
        stores: Guarded,
        rng: R,
        now: Moment,
        keeps: bool,
    ) -> Dav<R>
        ensures { server R.stream result ≡ record {
          options = options_of settings;
          state = state_of stores (ahead (fill_bytes 16 (R.stream rng)));
          last = now.0;
          clock = now.0;
          noting = record {
            keeps = keeps;
            base = (stores, now.0) ∷ [];
            given = 2 ^ 64 - 2;
          };
        } }
    {
        Dav {
            alloc,
            settings,
            session: Session::new(alloc, stores, rng, now, keeps),
            clock: now,
        }
    }
}

impl<R: Rng> Dav<R> {
    /// Sets the clock. Each request comes at the clock's moment, or at the last request's where
    /// that is later; a PUT, a DELETE, a COPY, a MOVE, a MKCOL or a LOCK with a body at a later one
    /// than that.
    pub fn set_clock(&mut self, now: Moment)
        ensures { server R.stream self.new ≡ record (server R.stream self.old) { clock = now.0 } }
    {
        self.clock = now;
    }

    /// The notes of what has changed since they were taken last, and none where none are kept
    /// (own). Taken behind each call, they are those of one request.
    pub fn take_notes(&mut self) -> Vec<Note>
        ensures notes { KeptNotes (server R.stream self.old).noting.keeps
            (server R.stream self.old).noting.base (map note_of result.items)
            (server R.stream self.new).last (stores_of_server self.new) }
        // Each is of a command that changes something.
        ensures changes { AreChanges (map note_of result.items) }
        // They cost no more bytes than were given.
        ensures cost { notes_cost (map note_of result.items)
            ≤ (server R.stream self.old).noting.given }
        // The next notes begin here, and nothing else is changed.
        ensures server { server R.stream self.new ≡ record (server R.stream self.old) {
          noting = record {
            keeps = (server R.stream self.old).noting.keeps;
            base = (stores_of_server self.new, (server R.stream self.new).last) ∷ [];
            given = (server R.stream self.old).noting.given;
          };
        } }
    {
        self.session.take()
    }

    /// The stores.
    pub fn stores(&self) -> &Guarded
        ensures { result.now ≡ stores_of_server self.now }
    {
        self.session.stores()
    }

    // GET and HEAD.
    fn serve_get(
        &mut self,
        method: DavMethod,
        request: &Request<Bytes>,
        date: &[u8],
        response: &mut Response,
    ) -> Result<StatusCode, Fault>
        requires held { IsFieldValue date.now }
        requires blank { IsBlank response.old }
        ensures answers { IsGotBy R.stream method self.old request.now result date.now
            response.new self.new }
        ensures live { Unchanged R.stream self.old self.new }
        ensures comes { ComesAt false (server R.stream self.old) request.now result
            (server R.stream self.new) }
        ensures moves { MayDo (server R.stream self.old) request.now (server R.stream self.new) }
    {
        let path = self.begin_admitted(request, false, date, response)?;
        get::get(
            self.alloc,
            &mut self.session,
            method,
            request.headers(),
            &path,
            response,
        )
    }

    // PROPFIND.
    fn serve_propfind(
        &mut self,
        request: &Request<Bytes>,
        date: &[u8],
        response: &mut Response,
    ) -> Result<StatusCode, Fault>
        requires held { IsFieldValue date.now }
        requires blank { IsBlank response.old }
        ensures answers { IsAnswered R.stream (Some method.PropFind) self.old request.now result
            date.now response.new self.new }
        ensures live { Unchanged R.stream self.old self.new }
        ensures comes { ComesAt false (server R.stream self.old) request.now result
            (server R.stream self.new) }
        ensures moves { MayDo (server R.stream self.old) request.now (server R.stream self.new) }
    {
        let path = self.begin_admitted(request, false, date, response)?;
        propfind::propfind(
            self.alloc,
            &mut self.session,
            &self.settings.prefix,
            self.settings.finite_depth,
            request.headers(),
            request.body(),
            path,
            response,
        )
    }

    // PUT. `BadRequest` for a part of a file (RFC 9110 section 14.5).
    fn serve_put(
        &mut self,
        request: &Request<Bytes>,
        date: &[u8],
        response: &mut Response,
    ) -> Result<StatusCode, Fault>
        requires held { IsFieldValue date.now }
        requires blank { IsBlank response.old }
        ensures answers { IsAnswered R.stream (Some method.Put) self.old request.now result
            date.now response.new self.new }
        ensures refused { OnErr result (Unchanged R.stream self.old self.new) }
        ensures comes { Comes (Some method.Put) (server R.stream self.old) request.now result
            (server R.stream self.new) }
        ensures moves { MayDo (server R.stream self.old) request.now (server R.stream self.new) }
    {
        if request.headers().contains_key("content-range") {
            return Err(Fault::BadRequest);
        }
        let path = self.begin_admitted(request, true, date, response)?;
        put::put(
            self.alloc,
            &mut self.session,
            request.headers(),
            path,
            request.body().clone()?,
            response,
        )
    }

    // DELETE.
    fn serve_delete(
        &mut self,
        request: &Request<Bytes>,
        date: &[u8],
        response: &mut Response,
    ) -> Result<StatusCode, Fault>
        requires held { IsFieldValue date.now }
        requires blank { IsBlank response.old }
        ensures answers { IsAnswered R.stream (Some method.Delete) self.old request.now result
            date.now response.new self.new }
        ensures refused { OnErr result (Unchanged R.stream self.old self.new) }
        ensures comes { ComesAt true (server R.stream self.old) request.now result
            (server R.stream self.new) }
        ensures moves { MayDo (server R.stream self.old) request.now (server R.stream self.new) }
    {
        let path = self.begin_bare(request, true, date, response)?;
        delete::delete(self.alloc, &mut self.session, request.headers(), path)
    }

    // COPY.
    fn serve_copy(
        &mut self,
        request: &Request<Bytes>,
        date: &[u8],
        response: &mut Response,
    ) -> Result<StatusCode, Fault>
        requires held { IsFieldValue date.now }
        requires blank { IsBlank response.old }
        ensures answers { IsAnswered R.stream (Some method.Copy) self.old request.now result
            date.now response.new self.new }
        ensures refused { IfErr result (LeftBy R.stream (Some method.Copy) self.old request.now
            self.new) }
        ensures comes { ComesAt true (server R.stream self.old) request.now result
            (server R.stream self.new) }
        ensures moves { MayDo (server R.stream self.old) request.now (server R.stream self.new) }
    {
        let path = self.begin_bare(request, true, date, response)?;
        let site = Site::of(self.settings.scheme, request.uri());
        copy::copy(
            self.alloc,
            &mut self.session,
            &site,
            &self.settings.prefix,
            request.headers(),
            &path,
            response,
        )
    }

    // MOVE.
    fn serve_move(
        &mut self,
        request: &Request<Bytes>,
        date: &[u8],
        response: &mut Response,
    ) -> Result<StatusCode, Fault>
        requires held { IsFieldValue date.now }
        requires blank { IsBlank response.old }
        ensures answers { IsAnswered R.stream (Some method.Move) self.old request.now result
            date.now response.new self.new }
        ensures refused { IfErr result (LeftBy R.stream (Some method.Move) self.old request.now
            self.new) }
        ensures comes { ComesAt true (server R.stream self.old) request.now result
            (server R.stream self.new) }
        ensures moves { MayDo (server R.stream self.old) request.now (server R.stream self.new) }
    {
        let path = self.begin_bare(request, true, date, response)?;
        let site = Site::of(self.settings.scheme, request.uri());
        moving::relocate(
            self.alloc,
            &mut self.session,
            &site,
            &self.settings.prefix,
            request.headers(),
            path,
            response,
        )
    }

    // MKCOL.
    fn serve_mkcol(
        &mut self,
        request: &Request<Bytes>,
        date: &[u8],
        response: &mut Response,
    ) -> Result<StatusCode, Fault>
        requires held { IsFieldValue date.now }
        requires blank { IsBlank response.old }
        ensures answers { IsAnswered R.stream (Some method.MkCol) self.old request.now result
            date.now response.new self.new }
        ensures refused { OnErr result (Unchanged R.stream self.old self.new) }
        ensures comes { ComesAt true (server R.stream self.old) request.now result
            (server R.stream self.new) }
        ensures moves { MayDo (server R.stream self.old) request.now (server R.stream self.new) }
    {
        let path = self.begin_bare(request, true, date, response)?;
        mkcol::mkcol(self.alloc, &mut self.session, request.headers(), path)
    }

    // PROPPATCH.
    fn serve_proppatch(
        &mut self,
        request: &Request<Bytes>,
        date: &[u8],
        response: &mut Response,
    ) -> Result<StatusCode, Fault>
        requires held { IsFieldValue date.now }
        requires blank { IsBlank response.old }
        ensures answers { IsAnswered R.stream (Some method.PropPatch) self.old request.now result
            date.now response.new self.new }
        ensures refused { OnErr result (Unchanged R.stream self.old self.new) }
        ensures comes { ComesAt false (server R.stream self.old) request.now result
            (server R.stream self.new) }
        ensures moves { MayDo (server R.stream self.old) request.now (server R.stream self.new) }
    {
        let path = self.begin_admitted(request, false, date, response)?;
        proppatch::proppatch(
            self.alloc,
            &mut self.session,
            &self.settings.prefix,
            request.headers(),
            path,
            request.body(),
            response,
        )
    }

    // UNLOCK.
    fn serve_unlock(
        &mut self,
        request: &Request<Bytes>,
        date: &[u8],
        response: &mut Response,
    ) -> Result<StatusCode, Fault>
        requires held { IsFieldValue date.now }
        requires blank { IsBlank response.old }
        ensures answers { IsAnswered R.stream (Some method.Unlock) self.old request.now result
            date.now response.new self.new }
        ensures refused { OnErr result (Unchanged R.stream self.old self.new) }
        ensures comes { ComesAt false (server R.stream self.old) request.now result
            (server R.stream self.new) }
        ensures moves { MayDo (server R.stream self.old) request.now (server R.stream self.new) }
    {
        let path = self.begin_bare(request, false, date, response)?;
        unlock::unlock(self.alloc, &mut self.session, request.headers(), path)
    }

    // LOCK: with a body for a new lock, without one for another end of a lock.
    fn serve_lock(
        &mut self,
        request: &Request<Bytes>,
        date: &[u8],
        response: &mut Response,
    ) -> Result<StatusCode, Fault>
        requires held { IsFieldValue date.now }
        requires blank { IsBlank response.old }
        ensures answers { IsAnswered R.stream (Some method.Lock) self.old request.now result
            date.now response.new self.new }
        ensures refused { IfErr result (LeftBy R.stream (Some method.Lock) self.old request.now
            self.new) }
        ensures comes { ComesAt (has_body request.now) (server R.stream self.old) request.now result
            (server R.stream self.new) }
        ensures moves { MayDo (server R.stream self.old) request.now (server R.stream self.new) }
    {
        if request.body().is_empty() {
            return self.serve_refresh(request, date, response);
        }
        let path = self.begin_admitted(request, true, date, response)?;
        lock::lock(
            self.alloc,
            &mut self.session,
            &self.settings.prefix,
            self.settings.longest_timeout,
            request.headers(),
            request.body(),
            path,
            response,
        )
    }

    // LOCK without a body.
    fn serve_refresh(
        &mut self,
        request: &Request<Bytes>,
        date: &[u8],
        response: &mut Response,
    ) -> Result<StatusCode, Fault>
        requires held { IsFieldValue date.now }
        requires blank { IsBlank response.old }
        requires no_body { body_of request.now ≡ [] }
        ensures answers { IsAnswered R.stream (Some method.Lock) self.old request.now result
            date.now response.new self.new }
        ensures refused { OnErr result (Unchanged R.stream self.old self.new) }
        ensures comes { ComesAt false (server R.stream self.old) request.now result
            (server R.stream self.new) }
        ensures moves { MayDo (server R.stream self.old) request.now (server R.stream self.new) }
    {
        let path = self.begin_admitted(request, false, date, response)?;
        refresh::refresh(
            self.alloc,
            &mut self.session,
            &self.settings.prefix,
            self.settings.longest_timeout,
            request.headers(),
            path,
            response,
        )
    }

    // OPTIONS.
    fn serve_options(&self, date: &[u8], response: &mut Response) -> Result<StatusCode, Fault>
        requires held { IsFieldValue date.now }
        requires blank { IsBlank response.old }
        ensures done { IfOk result (λ status. (status ≡ 200) × (sent_of response.new
            ≡ sent_behind (first_fields date.now) (record { fields = options_fields; body = [] }))) }
        ensures err { IfErr result (λ e. e ≡ fault.InsufficientStorage) }
    {
        add_date(self.alloc, response, date)?;
        options::options(response)
    }

    // By the method; any other than these is `NotImplemented`.
    fn answer_to(
        &mut self,
        method: DavMethod,
        request: &Request<Bytes>,
        date: &[u8],
        response: &mut Response,
    ) -> Result<StatusCode, Fault>
        requires held { IsFieldValue date.now }
        requires blank { IsBlank response.old }
        ensures done { IsAnswered R.stream (Some method) self.old request.now result date.now
            response.new self.new }
        ensures refused { IfErr result (LeftBy R.stream (Some method) self.old request.now
            self.new) }
        ensures comes { Comes (Some method) (server R.stream self.old) request.now result
            (server R.stream self.new) }
        ensures moves { MayDo (server R.stream self.old) request.now (server R.stream self.new) }
    {
        match method {
            DavMethod::Options => return self.serve_options(date, response),
            DavMethod::Get => return self.serve_get(DavMethod::Get, request, date, response),
            DavMethod::Head => return self.serve_get(DavMethod::Head, request, date, response),
            DavMethod::PropFind => return self.serve_propfind(request, date, response),
            DavMethod::Put => return self.serve_put(request, date, response),
            DavMethod::Delete => return self.serve_delete(request, date, response),
            DavMethod::Copy => return self.serve_copy(request, date, response),
            DavMethod::Move => return self.serve_move(request, date, response),
            DavMethod::MkCol => return self.serve_mkcol(request, date, response),
            DavMethod::PropPatch => return self.serve_proppatch(request, date, response),
            DavMethod::Lock => return self.serve_lock(request, date, response),
            DavMethod::Unlock => return self.serve_unlock(request, date, response),
            _ => return Err(Fault::NotImplemented),
        }
    }

    // By the method, where the request's word names one.
    fn answer(
        &mut self,
        method: Option<DavMethod>,
        request: &Request<Bytes>,
        date: &[u8],
        response: &mut Response,
    ) -> Result<StatusCode, Fault>
        requires held { IsFieldValue date.now }
        requires blank { IsBlank response.old }
        ensures done { IsAnswered R.stream method self.old request.now result date.now response.new
            self.new }
        ensures refused { IfErr result (LeftBy R.stream method self.old request.now self.new) }
        ensures comes { Comes method (server R.stream self.old) request.now result
            (server R.stream self.new) }
        ensures moves { MayDo (server R.stream self.old) request.now (server R.stream self.new) }
    {
        let Some(method) = method else {
            return Err(Fault::NotImplemented);
        };
        self.answer_to(method, request, date, response)
    }
}

// The method that the request's word names.
fn method_of(request: &Request<Bytes>) -> Option<DavMethod>
    ensures { IsMethod result (head_of request.now).method }
{
    match DavMethod::try_from(request.method()) {
        Ok(method) => Some(method),
        Err(_) => None,
    }
}

// Whether a request may change something: a LOCK with a body, for one, may make a file.
fn may_change(method: Option<DavMethod>, request: &Request<Bytes>) -> bool
    ensures { result ≡ may_change method request.now }
{
    match method {
        Some(DavMethod::Put | DavMethod::Delete | DavMethod::Copy) => true,
        Some(DavMethod::Move | DavMethod::MkCol) => true,
        Some(DavMethod::Lock) => !request.body().is_empty(),
        _ => false,
    }
}

impl<R: Rng> Service for Dav<R> {
    ghost answers = { λ before request response after.
        Answers (server R.stream before) request response (server R.stream after) };

    fn call(
        &mut self,
        request: &Request<Bytes>,
        response: &mut Response,
    ) -> Result<(), AllocError> {
        fits(request.body());
        let method = method_of(request);
        let date = date_bytes(self.answer_moment(may_change(method, request)));
        match self.answer(method, request, &date, response) {
            Ok(status) => response.status = status,
            Err(fault) => refuse(self.alloc, response, &date, &self.settings.prefix, &fault),
        }
        Ok(())
    }
}
