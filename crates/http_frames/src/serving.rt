//! A server of the connections whose frames come on one stream: all frames that have come are taken, then those who wait have their turns, one after another, and each is handed what its window lets go.
ghost use Rattle.std.specs.Prelude.{◌≡◌, [], true, false, Ok, IfOk, OnOk, OnErr};
ghost use Rattle.http_frames.specs.Clients.{Has, count_begun};
ghost use Rattle.http_frames.specs.Frames.{IsPart, bytes_at_hand, unread};
ghost use Rattle.http_frames.specs.TurnRuns.{RunsInTurns, Breaks, BreaksTold, TellsAll, WritesAnswers};
ghost use Rattle.http_frames.specs.Gate.{free_behind};
ghost use Rattle.http_frames.specs.Logging.{LogsFrame};
ghost use Rattle.http_frames.specs.FrameSteps.{BreaksUnturned, GoesOn, ReadsOn, TakesFrame};

use crate::clients::Clients;
use crate::frames::{Frames, Head, write_touched};
use crate::gate::{AccessLog, OneCall, TurnService};
use line_streams::Fault;
use std::io::{Read, Write};

// The answers of so many turns are written at once.
const TOGETHER: u64 = 4;

/// Where no more frames are served.
#[derive(Clone, Copy, PartialEq, Eq)]
pub enum End {
    /// At the end of the input.
    Whole,
    /// At a frame that is wrong: its first line is no head; its number is neither that of a connection that has begun nor, where bytes come, the next; it tells an address, and its number is
    /// not the next; more was taken than was handed out; or it answers what nobody asked, as `go` does here.
    Wrong,
    /// The input ended within a frame.
    Cut,
}

/// Serves the connections that the frames of the input are of, until the input ends or a frame is wrong; then it answers all that came before, and hands it out as far as the windows
/// go, which the end of the input opens. What is written is written out before it waits for the input. `Io` where a stream fails; `OutOfMemory` where there is no memory outside a connection.
pub fn serve<S: TurnService, L: AccessLog, I: Read, O: Write>(
    clients: &mut Clients,
    service: &mut OneCall<S, L>,
    frames: &mut Frames<I>,
    output: &mut O,
) -> Result<End, Fault>
    ensures { Has clients.old [] → RunsInTurns S.begins S.answers S.clocked S.listed result clients.old clients.new service.old.service service.new.service
        (unread I.remaining frames.old) (unread I.remaining frames.new) (O.contents output.old) (O.contents output.new) }
{
    // A loop is proved to end, so this one counts its turns.
    for _step in 0..u64::MAX {
        let ended = go_on(clients, service, frames, output)?;
        if let Some(end) = ended {
            finish(clients, service, output)?;
            return Ok(end);
        }
    }
    Err(Fault::Io)
}

// Takes a frame that is at hand; or gives a turn; or asks what else has come, and reads on. Whether that is the end.
fn go_on<S: TurnService, L: AccessLog, I: Read, O: Write>(
    clients: &mut Clients,
    service: &mut OneCall<S, L>,
    frames: &mut Frames<I>,
    output: &mut O,
) -> Result<Option<End>, Fault>
    ensures ok { IfOk result (λ end. GoesOn S.begins S.answers S.clocked S.listed end clients.old clients.new service.old.service service.new.service
        (unread I.remaining frames.old) (unread I.remaining frames.new) (O.contents output.old) (O.contents output.new)) }
    ensures err { OnErr result (Breaks S.begins S.answers S.clocked S.listed clients.old clients.new service.old.service service.new.service (O.contents output.old) (O.contents output.new)) }
{
    if let Some(frame) = frames.next() {
        let length = frame.length;
        if !take_frame(clients, service, frame.head, frame.bytes, output)? {
            return Ok(Some(End::Wrong));
        }
        frames.skip(length);
        return Ok(None);
    }
    if turn_or_ask(clients, service, output)? {
        return Ok(None);
    }
    output.flush()?;
    read_on(clients, frames)
}

// Gives a turn, where one may be given; or asks what else has come, unless that was asked. Whether a turn was given.
fn turn_or_ask<S: TurnService, L: AccessLog, O: Write>(
    clients: &mut Clients,
    service: &mut OneCall<S, L>,
    output: &mut O,
) -> Result<bool, Fault>
    ensures ok { OnOk result (WritesAnswers S.begins S.answers S.clocked S.listed clients.old clients.new service.old.service service.new.service (O.contents output.old) (O.contents output.new)) }
    ensures err { OnErr result (Breaks S.begins S.answers S.clocked S.listed clients.old clients.new service.old.service service.new.service (O.contents output.old) (O.contents output.new)) }
{
    if clients.may_answer() {
        return give_turn_on(clients, service, output);
    }
    if !clients.is_asked() {
        clients.ask(output)?;
    }
    Ok(false)
}

// Gives one turn, and writes out what was made where enough of it waits, so that clients go on while others have their turns. Whether somebody waited for one.
fn give_turn_on<S: TurnService, L: AccessLog, O: Write>(
    clients: &mut Clients,
    service: &mut OneCall<S, L>,
    output: &mut O,
) -> Result<bool, Fault>
    ensures ok { OnOk result (WritesAnswers S.begins S.answers S.clocked S.listed clients.old clients.new service.old.service service.new.service (O.contents output.old) (O.contents output.new)) }
    ensures err { OnErr result (Breaks S.begins S.answers S.clocked S.listed clients.old clients.new service.old.service service.new.service (O.contents output.old) (O.contents output.new)) }
{
    let given = give_turn(clients, service, output)?;
    if clients.turns().is_multiple_of(TOGETHER) {
        output.flush()?;
    }
    Ok(given)
}

/// Takes what a frame says; false, and nothing is done, where it is wrong. `Io` where the output fails (own).
pub fn take_frame<S: TurnService, L: AccessLog, O: Write>(
    clients: &mut Clients,
    service: &mut OneCall<S, L>,
    head: Option<Head>,
    bytes: &[u8],
    output: &mut O,
) -> Result<bool, Fault>
    ensures ok { IfOk result (λ right. TakesFrame S.begins S.answers S.clocked S.listed right head bytes.now clients.old clients.new service.old.service service.new.service (O.contents output.old) (O.contents output.new)) }
    ensures err { OnErr result (BreaksUnturned S.begins S.answers S.clocked S.listed clients.old clients.new service.old.service service.new.service (O.contents output.old) (O.contents output.new)) }
    ensures free { service.new.free ≡ free_behind head service.old.free }
    ensures log { IfOk result (λ right. LogsFrame L.late L.turned clients.old right head bytes.now service.old.log service.new.log) }
    ensures unlogged { OnErr result (service.new.log ≡ service.old.log) }
{
    match head {
        None => Ok(false),
        Some(Head::Piece { number, .. }) => clients.take(number, bytes, output),
        Some(Head::Gone(number)) => Ok(clients.gone(number)),
        Some(Head::Nothing) => Ok(clients.nothing()),
        Some(Head::Go) => Ok(false),
        Some(Head::Touch) => {
            write_touched(output)?;
            Ok(true)
        }
        Some(Head::From(number)) => Ok(clients.name_next(number, bytes)),
        Some(Head::Users { .. }) => {
            service.service.set_users(bytes);
            Ok(true)
        }
        Some(Head::Clock(moment)) => {
            service.service.set_clock(moment);
            Ok(true)
        }
        Some(Head::Free(bytes)) => {
            service.free = Some(bytes);
            Ok(true)
        }
        Some(Head::Late(number)) => {
            let Some(address) = clients.address_of(number) else {
                return Ok(false);
            };
            service.log.late(address);
            Ok(true)
        }
        Some(Head::Turned(count)) => {
            service.log.turned(bytes, count);
            Ok(true)
        }
        Some(Head::Taken { number, count }) => {
            if !clients.taken(number, count) {
                return Ok(false);
            }
            tell(clients, number, output)?;
            Ok(true)
        }
    }
}

// Gives one turn, and hands out what it made; whether somebody waited for one.
fn give_turn<S: TurnService, L: AccessLog, O: Write>(
    clients: &mut Clients,
    service: &mut OneCall<S, L>,
    output: &mut O,
) -> Result<bool, Fault>
    ensures ok { OnOk result (WritesAnswers S.begins S.answers S.clocked S.listed clients.old clients.new service.old.service service.new.service (O.contents output.old) (O.contents output.new)) }
    ensures err { OnErr result (Breaks S.begins S.answers S.clocked S.listed clients.old clients.new service.old.service service.new.service (O.contents output.old) (O.contents output.new)) }
    ensures begun { count_begun clients.new ≡ count_begun clients.old }
{
    let Some(number) = clients.answer(service) else {
        return Ok(false);
    };
    tell(clients, number, output)?;
    Ok(true)
}

/// Reads on, and tells the clients so; or tells the end. `Io` where the input fails, `OutOfMemory` where there is no memory for what comes (own).
pub fn read_on<I: Read>(clients: &mut Clients, frames: &mut Frames<I>) -> Result<Option<End>, Fault>
    ensures ok { IsPart (bytes_at_hand frames.old) → IfOk result (λ end. ReadsOn end clients.old clients.new (unread I.remaining frames.old) (unread I.remaining frames.new)) }
    ensures err { OnErr result (clients.new ≡ clients.old) }
{
    if frames.read()? {
        clients.begin_round();
        return Ok(None);
    }
    clients.close();
    Ok(Some(if frames.is_empty() {
        End::Whole
    } else {
        End::Cut
    }))
}

// Hands out what waits, and gives turns until nobody waits for one.
fn finish<S: TurnService, L: AccessLog, O: Write>(
    clients: &mut Clients,
    service: &mut OneCall<S, L>,
    output: &mut O,
) -> Result<(), Fault>
    ensures ok { OnOk result (WritesAnswers S.begins S.answers S.clocked S.listed clients.old clients.new service.old.service service.new.service (O.contents output.old) (O.contents output.new)) }
    ensures err { OnErr result (Breaks S.begins S.answers S.clocked S.listed clients.old clients.new service.old.service service.new.service (O.contents output.old) (O.contents output.new)) }
    ensures begun { count_begun clients.new ≡ count_begun clients.old }
{
    tell_all(clients, output)?;
    for _turn in 0..u64::MAX {
        if !give_turn(clients, service, output)? {
            output.flush()?;
            return Ok(());
        }
    }
    Err(Fault::Io)
}

/// Hands out what waits, to each connection. `Io` where the output fails (own).
pub fn tell_all<O: Write>(clients: &mut Clients, output: &mut O) -> Result<(), Fault>
    ensures ok { OnOk result (TellsAll clients.old clients.new (O.contents output.old) (O.contents output.new)) }
    ensures err { OnErr result (BreaksTold clients.old clients.new (O.contents output.old) (O.contents output.new)) }
    ensures begun { count_begun clients.new ≡ count_begun clients.old }
{
    for before in 0..clients.count() {
        tell(clients, before + 1, output)?;
    }
    Ok(())
}

/// Ends connections until all fits within the bounds, and hands out what waits for one, as far as its window goes. `Io` where the output fails (own).
pub fn tell<O: Write>(clients: &mut Clients, number: u64, output: &mut O) -> Result<(), Fault>
    ensures ok { OnOk result (TellsAll clients.old clients.new (O.contents output.old) (O.contents output.new)) }
    ensures err { OnErr result (BreaksTold clients.old clients.new (O.contents output.old) (O.contents output.new)) }
    ensures begun { count_begun clients.new ≡ count_begun clients.old }
{
    make_room(clients, number, output)?;
    tell_pieces(clients, number, output)
}

// Ends connections until all fits within the bounds.
fn make_room<O: Write>(clients: &mut Clients, number: u64, output: &mut O) -> Result<(), Fault>
    ensures ok { OnOk result (TellsAll clients.old clients.new (O.contents output.old) (O.contents output.new)) }
    ensures err { OnErr result (BreaksTold clients.old clients.new (O.contents output.old) (O.contents output.new)) }
    ensures begun { count_begun clients.new ≡ count_begun clients.old }
{
    for _other in 0..u64::MAX {
        let Some(other) = clients.excess(number) else {
            return Ok(());
        };
        if !clients.end(other, output)? {
            return Ok(());
        }
    }
    Err(Fault::Io)
}

// Hands out what waits for a connection, as far as its window goes.
fn tell_pieces<O: Write>(clients: &mut Clients, number: u64, output: &mut O) -> Result<(), Fault>
    ensures ok { OnOk result (TellsAll clients.old clients.new (O.contents output.old) (O.contents output.new)) }
    ensures err { OnErr result (BreaksTold clients.old clients.new (O.contents output.old) (O.contents output.new)) }
    ensures begun { count_begun clients.new ≡ count_begun clients.old }
{
    for _piece in 0..u64::MAX {
        if !clients.hand_out(number, output)? {
            return Ok(());
        }
    }
    Err(Fault::Io)
}
