//! The log of a service, and the lines that are written in it.
ghost use Rattle.std.specs.Prelude.{◌≡◌, ◌++◌, ℕ, List, [], codes, IfOk, OnErr};
ghost use Rattle.http.specs.Request.{head_of};
ghost use Rattle.dav_login_core.specs.declared.addresses.Addresses.{Addresses};
ghost use Rattle.dav_login_core.specs.ClientAddresses.{address_of_request};
ghost use Rattle.turn_fronts.specs.LineViews.{told_of};
ghost use Rattle.turn_fronts.specs.LogLines.{shown_word};
ghost use Rattle.turn_fronts.specs.NamedUsers.{value_bytes};
ghost use Rattle.turn_fronts.specs.LogTaking.{LogsAnswer, BeginsAt, IsLineApart, IsLineOf, LogState, LogsLoss, LogsRefusal, StaysBeside, LogsLate, LogsTurnedAway};
ghost use Rattle.turn_fronts.specs.LogTaking.{sent_length, shown_field, target_of};

use crate::lines::{Entry, Format, Told, line_of};
use bytes::Bytes;
use dav_login_core::Addresses;
use http::Request;
use http_frames::gate::AccessLog;
use http_header::{HeaderName, HeaderValue};
use http_server::Response;
use httpdate::HttpDate;
use std::alloc::{AllocError, Global};
use std::marker::Model;

/// What takes the lines of a log, and tells the time.
pub trait Log {
    // From the first state, a line that is taken leaves the second.
    ghost takes: { Self → List ℕ → Self → Type 0 };

    // From the first state, the word that there was no memory for a line leaves the second.
    ghost loses: { Self → Self → Type 0 };

    /// The moment, in nanoseconds since 1970.
    fn moment(&self) -> u64;

    /// Nanoseconds of a clock that does not go back.
    fn now(&self) -> u64;

    /// Takes a line, with its end.
    fn line(&mut self, line: &[u8])
        ensures { takes self.old line.now self.new };

    /// Takes word that there was no memory for a line, or for a connection whose requests may lack theirs.
    fn lost(&mut self)
        ensures { loses self.old self.new };
}

/// A log of requests, with a line for each, in the form that is chosen (own). Contracts see the log, the form, and by what the address of a request is known.
#[derive(Drop)]
pub struct Notes<L> {
    alloc: Global,
    log: L,
    format: Format,
    addresses: Addresses,
    began: u64,
}

impl<L> Model for Notes<L> {
    ghost Value = { LogState L };

    ghost view = { λ n. record { log = n.log; format = n.format; addresses = n.addresses } };
}

impl<L: Log> Notes<L> {
    /// A log of which nobody has had a turn. The header tells the address of the client, where a proxy sets it or adds to it; without one it is the connection's.
    pub fn new(
        alloc: Global,
        log: L,
        format: Format,
        address_header: Option<HeaderName>,
    ) -> Notes<L>
        ensures log { result.log ≡ log }
        ensures format { result.format ≡ format }
        ensures field { result.addresses.field ≡ address_header }
        ensures connection { result.addresses.connection.items ≡ [] }
    {
        Notes {
            alloc,
            log,
            format,
            addresses: Addresses::new(address_header),
            began: 0,
        }
    }

    // Has the log take a line, or tells it that there was no memory for one.
    fn take(&mut self, line: Result<Vec<u8>, AllocError>)
        ensures ok { IfOk line (λ line. L.takes self.old.log line.items self.new.log) }
        ensures err { OnErr line (L.loses self.old.log self.new.log) }
        ensures beside { StaysBeside self.old self.new }
    {
        match line {
            Ok(line) => self.log.line(&line),
            Err(_) => self.log.lost(),
        }
    }

    // The line of a request that was answered as this user's. `AllocError` where there is no memory.
    fn line(
        &self,
        request: &Request<Bytes>,
        response: &Response,
        user: &[u8],
    ) -> Result<Vec<u8>, AllocError>
        ensures { IfOk result (λ line. IsLineOf self.now.format self.now.addresses request.now response.now user.now line.items) }
    {
        let target = target_of(self.alloc, request)?;
        let seconds = self.log.moment() / 1_000_000_000;
        self.line_at(request, response, user, &target, seconds, &date_of(seconds))
    }

    // The same, of a request for this target, at this moment.
    fn line_at<'a>(
        &'a self,
        request: &'a Request<Bytes>,
        response: &Response,
        user: &'a [u8],
        target: &'a [u8],
        seconds: u64,
        date: &'a [u8; 29],
    ) -> Result<Vec<u8>, AllocError>
        ensures { target.now ≡ target_of request.now → IfOk result (λ line. IsLineOf self.now.format self.now.addresses request.now response.now user.now line.items) }
    {
        let entry = Entry {
            address: self.from(request),
            user: shown_word(user),
            seconds,
            date,
            told: Told::Request {
                method: request.method().as_str().as_bytes(),
                target,
            },
            status: response.status.as_u16() as u64,
            bytes: sent_length(request, response),
            took: self.took(),
            referer: shown_field(&HeaderName::from_static("referer"), request),
            agent: shown_field(&HeaderName::from_static("user-agent"), request),
        };
        line_of(self.alloc, self.format, &entry)
    }

    // The line of a client at this address that is of no request. `AllocError` where there is no memory.
    fn line_apart<'a>(
        &self,
        address: &'a [u8],
        told: &Told<'a>,
        status: u16,
        took: u64,
    ) -> Result<Vec<u8>, AllocError>
        ensures { IfOk result (λ line. IsLineApart self.now.format address.now (told_of told.now) status line.items) }
    {
        let seconds = self.log.moment() / 1_000_000_000;
        let date = date_of(seconds);
        let entry = Entry {
            address: shown_word(address),
            user: b"-",
            seconds,
            date: &date,
            told: *told,
            status: status as u64,
            bytes: 0,
            took,
            referer: b"-",
            agent: b"-",
        };
        line_of(self.alloc, self.format, &entry)
    }

    // Where the client of a request is, as it stands in a line.
    fn from<'a>(&'a self, request: &'a Request<Bytes>) -> &'a [u8]
        ensures { result.now ≡ shown_word (address_of_request self.now.addresses request.now) }
    {
        shown_word(self.addresses.of(request))
    }

    // How many microseconds the turn has taken.
    fn took(&self) -> u64 {
        self.log.now().saturating_sub(self.began) / 1000
    }
}

/// Each word has one line, or the log is told that there was no memory for it.
impl<L: Log> AccessLog for Notes<L> {
    ghost begins = { λ old address new. BeginsAt old address new };

    ghost answered = { λ old request response user new. LogsAnswer L.takes L.loses old request response user new };

    ghost refused = { λ old status new. LogsRefusal L.takes L.loses old status new };

    ghost lost = { λ old new. LogsLoss L.takes L.loses old new };

    ghost late = { λ old address new. LogsLate L.takes L.loses old address new };

    ghost turned = { λ old address count new. LogsTurnedAway L.takes L.loses old address count new };

    fn begin(&mut self, address: &[u8]) {
        self.addresses.turn(address);
        self.began = self.log.now();
    }

    fn answered(&mut self, request: &Request<Bytes>, response: &Response, user: &[u8]) {
        let line = self.line(request, response, user);
        self.take(line);
    }

    fn refused(&mut self, status: u16) {
        let took = self.took();
        let line = self.line_apart(
            self.addresses.connection.as_slice(),
            &Told::Nothing,
            status,
            took,
        );
        self.take(line);
    }

    fn lost(&mut self) {
        self.log.lost();
    }

    fn late(&mut self, address: &[u8]) {
        let line = self.line_apart(address, &Told::Nothing, 408, 0);
        self.take(line);
    }

    fn turned(&mut self, address: &[u8], count: u64) {
        let line = self.line_apart(address, &Told::Connections(count), 503, 0);
        self.take(line);
    }
}

// A word as it stands in a line: `-` where there is none.
fn shown_word(word: &[u8]) -> &[u8]
    ensures { result.now ≡ shown_word word.now }
{
    if word.is_empty() {
        return b"-";
    }
    word
}

// The first value of a field, as it stands in a line.
fn shown_field<'a>(name: &HeaderName, request: &'a Request<Bytes>) -> &'a [u8]
    ensures { result.now ≡ shown_field name.now (head_of request.now).headers }
{
    match request.headers().get(name) {
        Some(value) => shown_word(value.as_bytes()),
        None => b"-",
    }
}

// How many bytes go out as the body of an answer: none of one to HEAD.
fn sent_length(request: &Request<Bytes>, response: &Response) -> u64
    ensures { result ≡ sent_length request.now response.now }
{
    if request.method().as_str() == "HEAD" {
        return 0;
    }
    response.body.len() as u64
}

// The second of a moment, as HTTP writes it.
fn date_of(seconds: u64) -> [u8; 29] {
    match HttpDate::from_unix_secs(seconds) {
        Ok(date) => date.to_bytes(),
        Err(_) => [b'0'; 29],
    }
}

// The path that a request asks for, and its query behind a `?`.
fn target_of(alloc: Global, request: &Request<Bytes>) -> Result<Vec<u8>, AllocError>
    ensures { IfOk result (λ target. target.items ≡ target_of request.now) }
{
    let uri = request.uri();
    let mut target = Vec::from_slice(alloc, uri.path().as_bytes())?;
    if let Some(query) = uri.query() {
        target.push(b'?')?;
        target.extend_from_slice(query.as_bytes())?;
    }
    Ok(target)
}
