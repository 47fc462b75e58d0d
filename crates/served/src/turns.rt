//! Serving any service in turns, behind what stands in front of it.
use crate::fronts::Fronts;
use crate::logins::login_over;
use crate::stopped::Stopped;
use crate::streams::Streams;
use http_frames::gate::{AccessLog, OneCall, TurnService};
use http_frames::serving::{End, serve};
use line_streams::Fault;
use std::io::{Read, Write};
use turn_fronts::Named;

/// Serves with the service, behind a login where there are users, and with a log where there is one (own), which it takes from what stands in front. Whether nothing may be changed is the service's own.
///
/// - `WrongRealm`: the realm can't stand between quotes. `Stream`: a stream failed, or there is no memory.
pub(crate) fn serve_behind<S: TurnService + Drop, I: Read, O: Write>(
    rt: &HostRuntime,
    fronts: &mut Fronts<'_>,
    streams: &mut Streams<I, O>,
    service: S,
) -> Result<End, Stopped> {
    let log = fronts.take_log();
    let named = Named::new(rt.alloc(), service, fronts.user_header.take());
    match fronts.users.take() {
        Some(users) => {
            let login = login_over(rt, users, fronts, named)?;
            Ok(serve_turned(streams, login, log)?)
        }
        None => Ok(serve_turned(streams, named, log)?),
    }
}

// Serves with any service. What is proved of it stands on `serve` of `http_frames`.
fn serve_turned<S: TurnService + Drop, L: AccessLog + Drop, I: Read, O: Write>(
    streams: &mut Streams<I, O>,
    service: S,
    log: L,
) -> Result<End, Fault> {
    let mut server = OneCall::new(service, log);
    streams.tell_ready()?;
    let Streams {
        clients,
        frames,
        output,
    } = streams;
    serve(clients, &mut server, frames, output)
}
