//! The connections of a server.
ghost use Rattle.std.specs.Prelude.{◌≡◌, ℕ, List, [], ◌++◌, IsTrue, Option, Result, option_map};
ghost use Rattle.std.specs.Io.KnownBytes.{Appends, Consumes};
ghost use Rattle.http_server.specs.Connection.{config_of, history};
ghost use Rattle.http_server.specs.Exchange.{Calls};
ghost use Rattle.line_streams.specs.declared.Fault as spec_fault;
ghost use Rattle.http_frames.specs.declared.clients.Clients as held;
ghost use Rattle.http_frames.specs.declared.serving.End as spec_end;
ghost use Rattle.http_frames.specs.Clients.{Has};
ghost use Rattle.http_frames.specs.ConnectionEvents.{Event};
ghost use Rattle.http_frames.specs.Frames.{unread};
ghost use Rattle.dav_path_core.specs.Fronts.{Path};
ghost use Rattle.dav_handler_core.specs.Answers.{Answers};
ghost use Rattle.dav_handler_core.specs.Server.{Server};
ghost use Rattle.dav_handler_core.specs.KeptDocuments.{IsNew};
ghost use Rattle.dav_handler_core.specs.Promises.{EachAnswer, IsLeft, KeepsTo, StandsAt};
ghost use Rattle.dav_handler_core.specs.ServerViews.{server};
ghost use Rattle.dav_handler_core.specs.Serving.{AreServed, BeginsTurn, Clocked, IsLongRefusal};
ghost use Rattle.dav_handler_core.specs.Serving.{IsSent, Leads, Listed, Replies, Timing, timing};
ghost use Rattle.dav_handler_core.specs.TagHistories.{Becomes};

use crate::dav::Dav;
use bytes::Bytes;
use dav_guarded_core::fs::Moment;
use http::Request;
use http_frames::clients::Clients;
use http_frames::closing::LONG;
use http_frames::frames::Frames;
use http_frames::gate::{AccessLog, OneCall, TurnService};
use http_frames::serving::{End, serve as serve_turns};
use http_header::{HeaderName, HeaderValue};
use http_server::{Connection, Response, Service, serve};
use line_streams::Fault;
use rand_core::Rng;
use std::alloc::AllocError;
use std::io::{self, Read, Write};

/// What tells the moment.
pub trait Clock {
    // As the first, the clock tells this, a moment or none, and is left as the second.
    ghost tells: { Self → Option ℕ → Self → Type 0 };

    /// The moment, or none where frames tell it.
    fn moment(&mut self) -> Option<Moment>
        ensures { tells self.old (option_map (λ moment. moment.0) result) self.new };
}

// The bytes of a file go out as they stand in the stores, where they are so many at least; fewer
// are copied.
const SHARED: u64 = 96 * 1024;

/// A server with the clock that tells it the moment of each turn.
#[derive(Drop)]
pub struct Timed<R, C> {
    /// The server.
    pub dav: Dav<R>,
    /// Its clock.
    pub clock: C,
}

impl<R: Rng, C: Clock> Service for Timed<R, C> {
    ghost answers = { λ old request response new. Replies (timing R.stream old) request response (timing R.stream new) };

    fn call(
        &mut self,
        request: &Request<Bytes>,
        response: &mut Response,
    ) -> Result<(), AllocError> {
        self.dav.call(request, response)?;
        close_behind_refused(request, response);
        Ok(())
    }
}

// Says that the connection is closed behind the refusal of a request with a long body, where there is
// memory for the field: the room that its bytes took is given back so.
fn close_behind_refused(request: &Request<Bytes>, response: &mut Response)
    ensures { IsSent request.now response.old response.new }
{
    if !is_long_refusal(request, response) {
        return;
    }
    let name = HeaderName::from_static("connection");
    let _added = response.add_header(name, HeaderValue::from_static("close"));
}

fn is_long_refusal(request: &Request<Bytes>, response: &Response) -> bool
    ensures { IsTrue result → IsLongRefusal request.now response.now }
{
    request.body().len() > LONG && !response.status.is_success()
}

/// The clock is asked once before each turn. The moment that it or a frame told last is the server's
/// clock at the turn.
impl<R: Rng, C: Clock> TurnService for Timed<R, C> {
    ghost begins = { λ old number new. BeginsTurn C.tells (timing R.stream old) number (timing R.stream new) };

    ghost clocked = { λ old moment new. Clocked (timing R.stream old) moment (timing R.stream new) };

    ghost listed = { λ old file new. Listed (timing R.stream old) file (timing R.stream new) };

    ghost room = { λ _. 0 };

    ghost user = { λ _. [] };

    fn begin_turn(&mut self, _number: u64, _address: &[u8], _bytes: u64) {
        if let Some(now) = self.clock.moment() {
            self.dav.set_clock(now);
        }
    }

    /// A server knows nobody who was let in.
    fn user(&self) -> &[u8] {
        &[]
    }

    /// A long answer whose ranges are served is a file's, and shares its bytes with the stores.
    fn own_len(&self, _request: &Request<Bytes>, response: &Response) -> u64 {
        let length = response.body.len() as u64;
        if length >= SHARED && serves_ranges(response) {
            0
        } else {
            length
        }
    }

    /// Nothing is kept.
    fn most_room(&self, _bytes: u64) -> u64 {
        0
    }

    fn set_clock(&mut self, moment: u64) {
        self.dav.set_clock(Moment(moment));
    }

    /// A server knows no users.
    fn set_users(&mut self, _file: &[u8]) {}
}

// Whether a field says that ranges of the answer are served.
fn serves_ranges(response: &Response) -> bool {
    for (name, _) in &response.headers {
        if name.as_str() == "accept-ranges" {
            return true;
        }
    }
    false
}

/// Serves the connections that the frames of the input are of, and writes their answers as frames,
/// as `serve` of `http_frames` does. `Io` where a stream fails, `OutOfMemory` where there is no
/// memory outside a connection.
pub fn serve_frames<R: Rng, C: Clock, L: AccessLog, I: Read, O: Write>(
    clients: &mut Clients,
    server: &mut OneCall<Timed<R, C>, L>,
    frames: &mut Frames<I>,
    output: &mut O,
) -> Result<End, Fault>
    ensures served { Has clients.old [] → AreServed C.tells result clients.old clients.new
        (timing R.stream server.old.service) (timing R.stream server.new.service)
        (unread I.remaining frames.old) (unread I.remaining frames.new) (O.contents output.old)
        (O.contents output.new) }
{
    serve_turns(clients, server, frames, output)
}

/// The law of a whole run (RFC 4918 sections 6 and 7, RFC 9110 section 9.3): whatever bytes any
/// number of clients send, in whatever pieces, from new stores on, each answer keeps to this,
/// however the run ends. It does nothing.
///
/// - A path under an exclusive lock changes only by a request that names its token under its
///   principal.
/// - A path under any lock, shared or not, changes only by a request that names, under its
///   principal, the token of a lock that covers the path, or one above it.
/// - A lock is ended, or given another timeout, by its holder alone, and else ended by time alone.
/// - A 200 to a GET of a file has the bytes that the last PUT, COPY or MOVE left there; a LOCK of a
///   path where nothing stands leaves an empty file.
/// - A refusal changes nothing, but that locks that have expired may be gone; a COPY, a MOVE or a
///   LOCK that lacked memory may have begun.
pub fn served_frames_keep_promises<C: Clock>()
    ensures each { (result : Result spec_end.End spec_fault.Fault) (c c' : held.Clients)
        (begun after : Timing C) (input input' output output' : Option (List ℕ))
        → IsNew begun.server
        → (h : AreServed C.tells result c c' begun after input input' output output')
        → EachAnswer C.tells (KeepsTo begun.server) begun h.done after h.leads }
    // So it is of a later life: from whatever new stores became, over any number of restarts.
    ensures lives { (result : Result spec_end.End spec_fault.Fault) (c c' : held.Clients)
        (begun : Server) (before after : Timing C) (input input' output output' : Option (List ℕ))
        → IsNew begun → Becomes begun before.server
        → (h : AreServed C.tells result c c' before after input input' output output')
        → EachAnswer C.tells (KeepsTo begun) before h.done after h.leads }
    // The bytes that were left at a path are those that stand there.
    ensures exact { (begun s : Server) (p : Path) (bytes : List ℕ) → IsLeft begun s p bytes
        → StandsAt s.state.map p bytes }
{}

/// The law that what frames lead to is a run, as the laws of runs speak of it. It does nothing.
pub fn frames_make_runs<C: Clock>()
    ensures { (s s' : Timing C) (events : List Event) → Leads C.tells s events s'
        → Becomes s.server s'.server }
{}

/// Reads, answers and writes until the connection is done. The bytes that are written are the
/// answers, in order, to the requests that the bytes spell that were read (`always_served` of
/// `http_server`), and each call is answered as `Answers` says, from the state that the call before
/// it left. The clock stands all the while where `set_clock` set it.
pub fn serve_one<R: Rng, I: Read, O: Write>(
    connection: &mut Connection,
    dav: &mut Dav<R>,
    input: &mut I,
    output: &mut O,
) -> io::Result<()>
    ensures calls { Calls (λ before request response after. Answers (server R.stream before) request
        response (server R.stream after)) dav.old dav.new (history connection.old).calls
        (history connection.new).calls }
    ensures read { (more : List ℕ) × Consumes (I.remaining input.old) (I.remaining input.new) more
        × ((history connection.new).received ≡ (history connection.old).received ++ more) }
    ensures written { (more : List ℕ) × Appends (O.contents output.old) (O.contents output.new) more
        × ((history connection.new).sent ≡ (history connection.old).sent ++ more) }
    ensures config { config_of connection.new ≡ config_of connection.old }
    ensures clock { (server R.stream dav.new).clock ≡ (server R.stream dav.old).clock }
{
    serve(connection, dav, input, output)
}
