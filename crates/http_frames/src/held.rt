//! One connection that goes on: what it takes, its turn, and what is written to it.
ghost use Rattle.std.specs.Prelude.{◌≡◌, ◌≢◌, ◌<◌, ◌≤◌, ◌+◌, ◌^◌, ◌↔◌, ◌⊎◌, [], None, true, false, Ok, IfOk, OnOk, OnErr, IfSome, IsTrue, IsFalse, length};
ghost use Rattle.http_server.specs.Connection.{history};
ghost use Rattle.http_server.specs.History.{IsDone};
ghost use Rattle.http_frames.specs.Clients.{HearsMore, IsFull, IsHeldBack, Joins, history_of};
ghost use Rattle.http_frames.specs.Frames.{BreaksOff};
ghost use Rattle.http_frames.specs.Gate.{BeginsWithin};
ghost use Rattle.http_frames.specs.Logging.{LearnsUser, LogsTurn};
ghost use Rattle.http_frames.specs.Private.Steps.{GrantsMore, Hears, IsDeaf, LearnsByCall, StandsInQueue, JoinsFresh, Reads, Speaks, Sends, Settles, Steps, TellsKnown, TellsWait, Waits, WritesOutput};

use crate::clients::Windows;
use crate::closing::LONG;
use crate::frames::{LONGEST_ADDRESS, write_grant, write_known, write_piece, write_wait};
use crate::gate::{AccessLog, OneCall, TurnService};
use crate::logging::log_end;
use crate::waiting::has_unread;
use arrayvec::ArrayVec;
use http_server::{Connection, State};
use line_streams::Fault;
use std::collections::VecDeque;
use std::io::Write;

/// A connection that goes on.
#[derive(Drop)]
pub(crate) struct Held {
    pub(crate) connection: Connection,
    /// The address of its client, and no bytes where none was told.
    pub(crate) address: ArrayVec<u8, LONGEST_ADDRESS>,
    /// How many bytes were handed out that its client has not taken.
    pub(crate) ahead: u64,
    /// How many bytes were received, how many of them since the last grant, and how many of those may be granted.
    pub(crate) heard: u64,
    pub(crate) behind: u64,
    pub(crate) due: u64,
    /// Whether its client sends no more.
    pub(crate) ended: bool,
    /// Whether it stands in the queue.
    pub(crate) queued: bool,
    /// Whether a part of a request has come, behind the last that was answered.
    pub(crate) part: bool,
    /// Whether it waits for its client, and that is to be told.
    pub(crate) news: bool,
    /// Whether a user was let in on it, and whether that was told.
    pub(crate) known: bool,
    pub(crate) told: bool,
    /// How often the input had been read at its last turn.
    pub(crate) round: u64,
    /// How many bytes had been received at its last call, and which of all frames brought the last of them.
    pub(crate) called: u64,
    pub(crate) last: u64,
    /// How many bytes its longest request had, of those that were called, at most.
    pub(crate) longest: u64,
    /// How many bytes that nobody shares wait of its answer, at most.
    pub(crate) waiting: u64,
}

/// Gives the bytes to the connection, which joins the queue; what comes behind its end, or once it is closed, is dropped. Whether they were taken: not where they are more than its client may
/// send, or there is no memory for them.
pub(crate) fn hear(
    held: &mut Held,
    queue: &mut VecDeque<u64>,
    number: u64,
    into: u64,
    frame: u64,
    bytes: &[u8],
) -> bool
    ensures hears { result ≡ true → ((IsDeaf held.old × (held.new ≡ held.old) × (queue.new.items ≡ queue.old.items)) ⊎ Hears into number bytes.now held.old held.new queue.old.items queue.new.items) }
    ensures fails { result ≡ false → HearsMore held.old }
    ensures queue { Joins number queue.old.items queue.new.items }
    ensures fresh { JoinsFresh number held.old queue.old.items queue.new.items }
{
    if is_deaf(held) {
        return true;
    }
    if !fits(held, into, bytes) || !wait(held, queue, number) {
        return false;
    }
    let mut rest = bytes;
    if read_all(&mut held.connection, &mut rest).is_err() {
        return false;
    }
    held.heard += bytes.len() as u64;
    held.behind += bytes.len() as u64;
    held.ended = bytes.is_empty();
    held.part = held.part || !bytes.is_empty();
    held.last = frame;
    true
}

// Whether its client may send so many bytes.
fn fits(held: &Held, into: u64, bytes: &[u8]) -> bool
    ensures fits { IsTrue result → held.now.behind + length bytes.now ≤ into }
    ensures counted { IsTrue result → held.now.heard + length bytes.now < 2 ^ 64 }
{
    held.behind <= into
        && bytes.len() as u64 <= into - held.behind
        && bytes.len() as u64 <= u64::MAX - held.heard
}

// Whether what comes is dropped: its input has ended, or it is closed.
fn is_deaf(held: &Held) -> bool
    ensures deaf { IsTrue result → IsDeaf held.now }
    ensures hears { IsFalse result → HearsMore held.now }
{
    held.ended || held.connection.state() != State::Open
}

// The connection joins the queue, unless it stands there; whether it stands there, and not where there is no memory for its place.
fn wait(held: &mut Held, queue: &mut VecDeque<u64>, number: u64) -> bool
    ensures waits { Waits number held.old held.new queue.old.items queue.new.items }
    ensures is_in { result ≡ true → StandsInQueue number held.old queue.old.items queue.new.items }
    ensures queued { result ≡ true → IsTrue held.new.queued }
    ensures joins { Joins number queue.old.items queue.new.items }
    ensures fails { result ≡ false → (held.new ≡ held.old) × (queue.new.items ≡ queue.old.items) }
{
    if !held.queued {
        if queue.push_back(number).is_err() {
            return false;
        }
        held.queued = true;
    }
    true
}

// Gives the bytes to the connection, as much at a time as it takes. `OutOfMemory` where there is no memory for all of them.
fn read_all(connection: &mut Connection, rest: &mut &[u8]) -> Result<(), Fault>
    ensures { OnOk result (Reads rest.old.now connection.old connection.new) }
{
    // A loop is proved to end, so this one counts its turns.
    for _turn in 0..u64::MAX {
        connection.read_from(rest)?;
        if rest.is_empty() {
            return Ok(());
        }
    }
    Err(Fault::Io)
}

/// One step of a connection, unless an answer of it waits. How many bytes that nobody shares it made.
pub(crate) fn step<S: TurnService, L: AccessLog>(
    held: &mut Held,
    number: u64,
    service: &mut OneCall<S, L>,
) -> u64
    ensures steps { Steps (BeginsWithin S.begins S.room service.old.room) S.answers number held.old held.new service.old.service service.new.service }
    ensures user { LearnsUser (S.user service.new.service) held.old held.new }
    ensures log { LogsTurn L.begins L.answered L.refused L.lost (S.user service.new.service) held.old held.new service.old.log service.new.log }
{
    held.queued = false;
    if held.connection.wants_write() {
        return 0;
    }
    let before = held.connection.state();
    service.open(number, held.address.as_slice());
    held.connection.advance(service);
    log_end(before, held.connection.state(), &mut service.log);
    settle(held, service.spent, service.own);
    learn_user(held, service.spent, service.service.user());
    service.own
}

// A user was let in, where a call was answered as one's.
fn learn_user(held: &mut Held, called: bool, user: &[u8])
    ensures { LearnsByCall called user.now held.old held.new }
{
    if called && !user.is_empty() {
        held.known = true;
    }
}

// What a turn leaves to be told and granted, and whether a part of the next request has come.
fn settle(held: &mut Held, called: bool, own: u64)
    ensures { Settles held.old held.new }
{
    if called {
        held.part = has_unread(&held.connection);
        held.longest = held.longest.max(held.heard.saturating_sub(held.called));
        held.called = held.heard;
        held.waiting = own;
    }
    if waits_for_input(&held.connection) {
        held.due = held.behind;
        held.news = true;
    }
}

/// How many bytes of requests the connection holds, or keeps room for, once so many more have come. The room of its longest request is kept while it lasts.
pub(crate) fn room_for_requests(held: &Held, more: u64) -> u64 {
    let unanswered = held.heard.saturating_sub(held.called).saturating_add(more);
    if held.longest > LONG as u64 {
        unanswered.max(held.longest)
    } else {
        unanswered
    }
}

/// Whether it waits for its client, with no part of a request, and keeps the room of a long one.
pub(crate) fn rests_with_room(held: &Held) -> bool {
    held.longest > LONG as u64
        && held.heard == held.called
        && !held.queued
        && waits_for_input(&held.connection)
}

// Whether the connection goes on, and no answer of it waits.
fn waits_for_input(connection: &Connection) -> bool
    ensures { IsTrue result ↔ (((history connection.now).state ≡ State.Open) × ((history connection.now).pending ≡ [])) }
{
    !connection.wants_write() && connection.state() == State::Open
}

/// What was written to a connection.
pub(crate) enum Said {
    /// Nothing is to be said.
    Nothing,
    Something,
    /// It is done, and that is to be told.
    Over,
    /// There is no memory for its place in the queue.
    NoRoom,
}

/// Writes the next frame to a connection, but not its end.
pub(crate) fn speak<O: Write>(
    held: &mut Held,
    queue: &mut VecDeque<u64>,
    number: u64,
    windows: Windows,
    output: &mut O,
) -> Result<Said, Fault>
    ensures says { result ≡ Ok Said.Something → Speaks number windows held.old held.new queue.old.items queue.new.items (O.contents output.old) (O.contents output.new) }
    ensures other { result ≢ Ok Said.Something → Waits number held.old held.new queue.old.items queue.new.items }
    ensures quiet { IfOk result (λ said. said ≢ Said.Something → output.new ≡ output.old) }
    ensures nothing { result ≡ Ok Said.Nothing → IsHeldBack windows held.old }
    ensures over { result ≡ Ok Said.Over → (held.new ≡ held.old) × (queue.new.items ≡ queue.old.items) × IsDone (history_of held.old) }
    ensures breaks { OnErr result (BreaksOff (O.contents output.old) (O.contents output.new)) }
    ensures queue { Joins number queue.old.items queue.new.items }
{
    if held.connection.wants_write() {
        return send(held, queue, number, windows, output);
    }
    if held.connection.state() != State::Open {
        return Ok(Said::Over);
    }
    if !windows.closed && held.due > windows.into / 2 {
        grant(held, number, output)?;
        return Ok(Said::Something);
    }
    if held.known && !held.told {
        tell_known(held, number, output)?;
        return Ok(Said::Something);
    }
    if held.news {
        tell_wait(held, number, output)?;
        return Ok(Said::Something);
    }
    Ok(Said::Nothing)
}

// Writes that its client may send so much more.
fn grant<O: Write>(held: &mut Held, number: u64, output: &mut O) -> Result<(), Fault>
    ensures grants { OnOk result (GrantsMore number held.old held.new (O.contents output.old) (O.contents output.new)) }
    ensures stays { OnErr result (held.new ≡ held.old) }
    ensures breaks { OnErr result (BreaksOff (O.contents output.old) (O.contents output.new)) }
{
    write_grant(number, held.due, output)?;
    held.behind = held.behind.saturating_sub(held.due);
    held.due = 0;
    Ok(())
}

// Writes that a user was let in on the connection.
fn tell_known<O: Write>(held: &mut Held, number: u64, output: &mut O) -> Result<(), Fault>
    requires { IsTrue held.old.known × IsFalse held.old.told }
    ensures tells { OnOk result (TellsKnown number held.old held.new (O.contents output.old) (O.contents output.new)) }
    ensures stays { OnErr result (held.new ≡ held.old) }
    ensures breaks { OnErr result (BreaksOff (O.contents output.old) (O.contents output.new)) }
{
    write_known(number, output)?;
    held.told = true;
    Ok(())
}

// Writes that the connection waits for its client.
fn tell_wait<O: Write>(held: &mut Held, number: u64, output: &mut O) -> Result<(), Fault>
    ensures tells { OnOk result (TellsWait number held.old held.new (O.contents output.old) (O.contents output.new)) }
    ensures stays { OnErr result (held.new ≡ held.old) }
    ensures breaks { OnErr result (BreaksOff (O.contents output.old) (O.contents output.new)) }
{
    write_wait(number, held.part, held.heard, output)?;
    held.news = false;
    Ok(())
}

// Writes the next piece of the answers that wait, as far as the window goes. The connection joins the queue, since it may go on behind it.
fn send<O: Write>(
    held: &mut Held,
    queue: &mut VecDeque<u64>,
    number: u64,
    windows: Windows,
    output: &mut O,
) -> Result<Said, Fault>
    requires { 0 < length (history_of held.old).pending }
    ensures sends { result ≡ Ok Said.Something → Sends number windows held.old held.new queue.old.items queue.new.items (O.contents output.old) (O.contents output.new) }
    ensures other { result ≢ Ok Said.Something → Waits number held.old held.new queue.old.items queue.new.items }
    ensures quiet { IfOk result (λ said. (said ≢ Said.Over) × (said ≢ Said.Something → output.new ≡ output.old)) }
    ensures nothing { result ≡ Ok Said.Nothing → IsFull windows held.old }
    ensures breaks { OnErr result (BreaksOff (O.contents output.old) (O.contents output.new)) }
    ensures queue { Joins number queue.old.items queue.new.items }
{
    let Some(room) = room(held, windows) else {
        return Ok(Said::Nothing);
    };
    if !wait(held, queue, number) {
        return Ok(Said::NoRoom);
    }
    let count = write_output(&held.connection, number, room, output)?;
    held.connection.sent(count);
    held.ahead += count as u64;
    held.waiting = if held.connection.wants_write() {
        held.waiting.saturating_sub(count as u64)
    } else {
        0
    };
    Ok(Said::Something)
}

// How many bytes may be handed out; none where the window is full.
fn room(held: &Held, windows: Windows) -> Option<u64>
    ensures some { IfSome result (λ room. (0 < room) × (held.now.ahead + room < 2 ^ 64) × (IsFalse windows.closed → held.now.ahead + room ≤ windows.out)) }
    ensures none { result ≡ None → IsFull windows held.now }
{
    let end = if windows.closed {
        u64::MAX
    } else {
        windows.out
    };
    match end.checked_sub(held.ahead) {
        Some(room) if room > 0 => Some(room),
        _ => None,
    }
}

// Writes the next bytes that wait as a piece, no more than there is room for, and tells how many.
fn write_output<O: Write>(
    connection: &Connection,
    number: u64,
    room: u64,
    output: &mut O,
) -> Result<usize, Fault>
    ensures writes { IfOk result (λ count. WritesOutput number room connection.now count (O.contents output.old) (O.contents output.new)) }
    ensures breaks { OnErr result (BreaksOff (O.contents output.old) (O.contents output.new)) }
{
    let bytes = connection.output();
    let count = bytes.len().min(room as usize);
    write_piece(number, &bytes[..count], output)?;
    Ok(count)
}
