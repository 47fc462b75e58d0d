//! Serving with stores that are empty at first, and in memory alone.
use crate::clock::first_moment;
use crate::fronts::Fronts;
use crate::stopped::Stopped;
use crate::streams::Streams;
use crate::turns::serve_behind;
use dav_guarded_core::guarded::Guarded;
use dav_handler_core::dav::{Dav, Settings};
use dav_handler_core::serving::{Clock, Timed, serve_frames, serve_one};
use http_frames::gate::{AccessLog, OneCall};
use http_frames::serving::End;
use http_server::{Config, Connection};
use line_streams::Fault;
use rand_core::Rng;
use std::alloc::AllocError;
use std::hash::RandomState;
use std::io::{Read, Write};
use turn_fronts::ReadOnly;

/// Serves the connections that the frames are of, behind what stands in front of the server (own). It begins at the moment that is chosen, or else at the system's.
///
/// - `WrongRealm`: the realm can't stand between quotes. `Stream`: a stream failed, or there is no memory, or the system does not tell the moment.
pub(crate) fn serve_in_memory<R: Rng + Drop, C: Clock + Drop, I: Read, O: Write>(
    rt: &HostRuntime,
    began: Option<u64>,
    fronts: &mut Fronts<'_>,
    streams: &mut Streams<I, O>,
    settings: Settings,
    rng: R,
    clock: C,
) -> Result<End, Stopped> {
    let dav = server(rt, began, settings, rng)?;
    let server = Timed { dav, clock };
    if fronts.is_none() {
        return Ok(serve_all(streams, server, fronts.take_log())?);
    }
    if fronts.read_only {
        return serve_behind(rt, fronts, streams, ReadOnly::new(server));
    }
    serve_behind(rt, fronts, streams, server)
}

/// Serves the one connection that the input and the output are, without frames (own). It begins at the moment that is chosen, or else at the system's. An error where a stream fails, there is no
/// memory, or the system does not tell the moment or gives no random keys.
pub(crate) fn serve_single<R: Rng + Drop, I: Read, O: Write>(
    rt: &HostRuntime,
    began: Option<u64>,
    config: Config,
    settings: Settings,
    rng: R,
    input: &mut I,
    output: &mut O,
) -> Result<End, Fault> {
    let keys = RandomState::new(rt)?;
    let mut dav = server(rt, began, settings, rng)?;
    let mut connection = Connection::new(rt.alloc(), keys, config);
    serve_alone(&mut connection, &mut dav, input, output)
}

// Serves one connection. What is proved of it stands on `serve_one`.
fn serve_alone<R: Rng, I: Read, O: Write>(
    connection: &mut Connection,
    dav: &mut Dav<R>,
    input: &mut I,
    output: &mut O,
) -> Result<End, Fault> {
    serve_one(connection, dav, input, output)?;
    Ok(End::Whole)
}

// A server over stores that are empty.
fn server<R: Rng + Drop>(
    rt: &HostRuntime,
    began: Option<u64>,
    settings: Settings,
    rng: R,
) -> Result<Dav<R>, Fault> {
    let now = first_moment(rt, began)?;
    let stores = Guarded::new(rt.alloc(), now).map_err(|_| AllocError)?;
    Ok(Dav::new(rt.alloc(), settings, stores, rng, now, false))
}

// Serves the connections that the frames are of. What is proved of it stands on `serve_frames`.
fn serve_all<R: Rng + Drop, C: Clock + Drop, L: AccessLog + Drop, I: Read, O: Write>(
    streams: &mut Streams<I, O>,
    server: Timed<R, C>,
    log: L,
) -> Result<End, Fault> {
    let mut server = OneCall::new(server, log);
    streams.tell_ready()?;
    let Streams {
        clients,
        frames,
        output,
    } = streams;
    serve_frames(clients, &mut server, frames, output)
}
