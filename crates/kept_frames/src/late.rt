//! A server whose changes are kept at ticks: answers are handed out at once, and before each tick what was changed since the last one is appended to the journal as one round.
ghost use Rattle.std.specs.Prelude.{◌≡◌, ◌↔◌, ℕ, List, [], IfOk, IsTrue, OnErr, OnOk};
ghost use Rattle.http_frames.specs.Clients.{Has, count_begun};
ghost use Rattle.http_frames.specs.Frames.{unread};
ghost use Rattle.http_frames.specs.FrameSteps.{TellsMoment};
ghost use Rattle.journal_core.specs.Resting.{Carries, IsSettled, disk_behind};
ghost use Rattle.sqlite_disk.specs.Disk.{Only};
ghost use Rattle.kept_frames.specs.Touches.{AsksTouch};
ghost use Rattle.kept_frames.specs.Giving.{KeepsEither, SettlesWith};
ghost use Rattle.kept_frames.specs.LateRuns.{RunsLate};
ghost use Rattle.kept_frames.specs.LateSteps.{FailsLate, GoesOnLate, SettlesLate, TakesLate, WritesLate};

use crate::error::KeptError;
use crate::recording::Recording;
use crate::rounds::{BYTES, give_turn, set_room};
use crate::touching::touch_for;
use http_frames::clients::Clients;
use http_frames::frames::{Frames, Head};
use http_frames::gate::{AccessLog, OneCall};
use http_frames::serving::{End, read_on, take_frame, tell, tell_all};
use journal_core::{Journal, JournalError, Round};
use line_streams::Fault;
use sqlite_disk::Disk;
use std::alloc::Global;
use std::io::{Read, Write};

/// Serves the connections that the frames of the input are of, as `serve_kept` does, but that an answer is handed out at once: what turns changed waits in memory, and is appended to the journal as
/// one round before a frame that tells the moment is taken, which so is a tick, before it grows beyond 1 MiB or beyond the room in the file, and at the end. A crash takes at most what happened
/// since the last tick (own).
///
/// - `Stream`: the input or the output failed, or there is no memory outside a connection. What waits is lost, as at a crash.
/// - `Journal`: what was changed could not be kept.
pub fn serve_late<S: Recording, L: AccessLog, D: Disk, I: Read, O: Write>(
    alloc: Global,
    clients: &mut Clients,
    service: &mut OneCall<S, L>,
    frames: &mut Frames<I>,
    journal: &mut Journal<D, O>,
    output: &mut O,
) -> Result<End, KeptError>
    requires usable { IsTrue (D.Disk.is_usable (disk_behind journal.old)) }
    ensures kept { (records : List (List ℕ)) → Has clients.old [] → IsSettled D.Disk.seen D.Disk.may_leave D.Disk.is_clean journal.old records → S.stands records service.old.service
        → RunsLate S.begins S.answers S.clocked S.listed S.stands D.Disk.seen D.Disk.may_leave D.Disk.is_clean O.contents result clients.old clients.new service.old.service service.new.service
        journal.old journal.new (unread I.remaining frames.old) (unread I.remaining frames.new) output.old output.new }
{
    let mut waiting = Round::new(alloc);
    // A loop is proved to end, so this one counts its turns.
    for _step in 0..u64::MAX {
        let ended = go_on(
            alloc,
            clients,
            service,
            frames,
            journal,
            &mut waiting,
            output,
        )?;
        if let Some(end) = ended {
            finish(alloc, clients, service, journal, &mut waiting, output)?;
            return Ok(end);
        }
    }
    Err(KeptError::Stream(Fault::Io))
}

// Takes a frame that is at hand; or gives a turn; or asks what else has come, and reads on. Whether that is the end.
fn go_on<S: Recording, L: AccessLog, D: Disk, I: Read, O: Write>(
    alloc: Global,
    clients: &mut Clients,
    service: &mut OneCall<S, L>,
    frames: &mut Frames<I>,
    journal: &mut Journal<D, O>,
    waiting: &mut Round,
    output: &mut O,
) -> Result<Option<End>, KeptError>
    requires usable { IsTrue (D.Disk.is_usable (disk_behind journal.old)) }
    ensures ok { IfOk result (λ end. GoesOnLate S.begins S.answers S.clocked S.listed S.stands D.Disk.seen D.Disk.may_leave D.Disk.is_clean O.contents waiting.old waiting.new end clients.old
        clients.new service.old.service service.new.service journal.old journal.new output.old output.new (unread I.remaining frames.old) (unread I.remaining frames.new)) }
    ensures err { OnErr result (FailsLate S.begins S.answers S.clocked S.listed S.stands D.Disk.seen D.Disk.may_leave D.Disk.is_clean O.contents waiting.old clients.old clients.new
        service.old.service service.new.service journal.old journal.new output.old output.new) }
    ensures usable { OnOk result (IsTrue (D.Disk.is_usable (disk_behind journal.new))) }
{
    if let Some(frame) = frames.next() {
        let length = frame.length;
        if !take_or_tick(
            alloc,
            clients,
            service,
            frame.head,
            frame.bytes,
            journal,
            waiting,
            output,
        )? {
            return Ok(Some(End::Wrong));
        }
        frames.skip(length);
        return Ok(None);
    }
    if turn_or_ask(alloc, clients, service, journal, waiting, output)? {
        return Ok(None);
    }
    output.flush()?;
    Ok(read_on(clients, frames)?)
}

// Takes what a frame says; before a tick, what waits is kept, and before a touch is told the file is touched. False where the frame is wrong.
fn take_or_tick<S: Recording, L: AccessLog, D: Disk, O: Write>(
    alloc: Global,
    clients: &mut Clients,
    service: &mut OneCall<S, L>,
    head: Option<Head>,
    bytes: &[u8],
    journal: &mut Journal<D, O>,
    waiting: &mut Round,
    output: &mut O,
) -> Result<bool, KeptError>
    requires usable { IsTrue (D.Disk.is_usable (disk_behind journal.old)) }
    ensures ok { IfOk result (λ right. TakesLate S.begins S.answers S.clocked S.listed S.stands D.Disk.seen D.Disk.may_leave D.Disk.is_clean O.contents waiting.old waiting.new right head bytes.now
        clients.old clients.new service.old.service service.new.service journal.old journal.new output.old output.new) }
    ensures err { OnErr result (FailsLate S.begins S.answers S.clocked S.listed S.stands D.Disk.seen D.Disk.may_leave D.Disk.is_clean O.contents waiting.old clients.old clients.new
        service.old.service service.new.service journal.old journal.new output.old output.new) }
    // Where it asks for a touch, all that is seen of the file is on the disk.
    ensures synced { OnOk result (AsksTouch head → Only (D.Disk.seen (disk_behind journal.new)) (D.Disk.may_leave (disk_behind journal.new))) }
    ensures usable { OnOk result (IsTrue (D.Disk.is_usable (disk_behind journal.new))) }
{
    if is_tick(head) {
        keep(alloc, journal, waiting, output)?;
        let right = take_frame(clients, service, head, bytes, output)?;
        journal.note(output);
        return Ok(right);
    }
    touch_for(head, journal, output)?;
    let right = take_frame(clients, service, head, bytes, output)?;
    journal.note(output);
    Ok(right)
}

// Whether a frame tells the moment.
fn is_tick(head: Option<Head>) -> bool
    ensures { IsTrue result ↔ TellsMoment head }
{
    matches!(head, Some(Head::Clock(_)))
}

// Appends what waits to the journal as one round, and begins the next one.
fn keep<D: Disk, O>(
    alloc: Global,
    journal: &mut Journal<D, O>,
    waiting: &mut Round,
    output: &O,
) -> Result<(), JournalError>
    requires usable { IsTrue (D.Disk.is_usable (disk_behind journal.old)) }
    ensures keeps { KeepsEither D.Disk.seen D.Disk.may_leave D.Disk.is_clean (Carries waiting.old) journal.old journal.new output.now }
    ensures settles { OnOk result (SettlesWith D.Disk.seen D.Disk.may_leave D.Disk.is_clean (Carries waiting.old) journal.old journal.new) }
    ensures begins { OnOk result (Carries waiting.new []) }
    ensures usable { OnOk result (IsTrue (D.Disk.is_usable (disk_behind journal.new))) }
{
    journal.append(output, waiting)?;
    *waiting = Round::new(alloc);
    Ok(())
}

// Gives a turn, where one may be given; or asks what else has come, unless that was asked. Whether a turn was given.
fn turn_or_ask<S: Recording, L: AccessLog, D: Disk, O: Write>(
    alloc: Global,
    clients: &mut Clients,
    service: &mut OneCall<S, L>,
    journal: &mut Journal<D, O>,
    waiting: &mut Round,
    output: &mut O,
) -> Result<bool, KeptError>
    requires usable { IsTrue (D.Disk.is_usable (disk_behind journal.old)) }
    ensures ok { OnOk result (WritesLate S.begins S.answers S.clocked S.listed S.stands D.Disk.seen D.Disk.may_leave D.Disk.is_clean O.contents waiting.old waiting.new clients.old clients.new
        service.old.service service.new.service journal.old journal.new output.old output.new) }
    ensures err { OnErr result (FailsLate S.begins S.answers S.clocked S.listed S.stands D.Disk.seen D.Disk.may_leave D.Disk.is_clean O.contents waiting.old clients.old clients.new
        service.old.service service.new.service journal.old journal.new output.old output.new) }
    ensures usable { OnOk result (IsTrue (D.Disk.is_usable (disk_behind journal.new))) }
{
    if clients.may_answer() {
        return answer_next(alloc, clients, service, journal, waiting, output);
    }
    if !clients.is_asked() {
        clients.ask(output)?;
        journal.note(output);
    }
    Ok(false)
}

// Gives a turn to the first who waits for one, and hands out its answer; what it changed waits. Whether a turn was given.
fn answer_next<S: Recording, L: AccessLog, D: Disk, O: Write>(
    alloc: Global,
    clients: &mut Clients,
    service: &mut OneCall<S, L>,
    journal: &mut Journal<D, O>,
    waiting: &mut Round,
    output: &mut O,
) -> Result<bool, KeptError>
    requires usable { IsTrue (D.Disk.is_usable (disk_behind journal.old)) }
    ensures ok { OnOk result (WritesLate S.begins S.answers S.clocked S.listed S.stands D.Disk.seen D.Disk.may_leave D.Disk.is_clean O.contents waiting.old waiting.new clients.old clients.new
        service.old.service service.new.service journal.old journal.new output.old output.new) }
    ensures err { OnErr result (FailsLate S.begins S.answers S.clocked S.listed S.stands D.Disk.seen D.Disk.may_leave D.Disk.is_clean O.contents waiting.old clients.old clients.new
        service.old.service service.new.service journal.old journal.new output.old output.new) }
    ensures begun { count_begun clients.new ≡ count_begun clients.old }
    ensures usable { OnOk result (IsTrue (D.Disk.is_usable (disk_behind journal.new))) }
{
    make_way(alloc, clients, service, journal, waiting, output)?;
    let Some(number) = give_turn(clients, service, waiting)? else {
        return Ok(false);
    };
    tell(clients, number, output)?;
    journal.note(output);
    Ok(true)
}

// Makes room in the journal's file for what waits and for what the next turn may change. Where what waits is long, or the disk is too full for both, what waits is kept first.
fn make_way<S: Recording, L: AccessLog, D: Disk, O: Write>(
    alloc: Global,
    clients: &Clients,
    service: &mut OneCall<S, L>,
    journal: &mut Journal<D, O>,
    waiting: &mut Round,
    output: &O,
) -> Result<(), JournalError>
    requires usable { IsTrue (D.Disk.is_usable (disk_behind journal.old)) }
    ensures ok { OnOk result (WritesLate S.begins S.answers S.clocked S.listed S.stands D.Disk.seen D.Disk.may_leave D.Disk.is_clean O.contents waiting.old waiting.new clients.now clients.now
        service.old.service service.new.service journal.old journal.new output.now output.now) }
    ensures err { OnErr result (FailsLate S.begins S.answers S.clocked S.listed S.stands D.Disk.seen D.Disk.may_leave D.Disk.is_clean O.contents waiting.old clients.now clients.now
        service.old.service service.new.service journal.old journal.new output.now output.now) }
    ensures usable { OnOk result (IsTrue (D.Disk.is_usable (disk_behind journal.new))) }
{
    if waiting.len() >= BYTES {
        return keep_first(alloc, clients, service, journal, waiting, output);
    }
    let full = set_room(clients, service, journal, output, waiting.len(), false)?;
    if full {
        return keep_first(alloc, clients, service, journal, waiting, output);
    }
    Ok(())
}

// Keeps what waits, and then makes room for what the next turn may change.
fn keep_first<S: Recording, L: AccessLog, D: Disk, O: Write>(
    alloc: Global,
    clients: &Clients,
    service: &mut OneCall<S, L>,
    journal: &mut Journal<D, O>,
    waiting: &mut Round,
    output: &O,
) -> Result<(), JournalError>
    requires usable { IsTrue (D.Disk.is_usable (disk_behind journal.old)) }
    ensures ok { OnOk result (WritesLate S.begins S.answers S.clocked S.listed S.stands D.Disk.seen D.Disk.may_leave D.Disk.is_clean O.contents waiting.old waiting.new clients.now clients.now
        service.old.service service.new.service journal.old journal.new output.now output.now) }
    ensures err { OnErr result (FailsLate S.begins S.answers S.clocked S.listed S.stands D.Disk.seen D.Disk.may_leave D.Disk.is_clean O.contents waiting.old clients.now clients.now
        service.old.service service.new.service journal.old journal.new output.now output.now) }
    ensures usable { OnOk result (IsTrue (D.Disk.is_usable (disk_behind journal.new))) }
{
    keep(alloc, journal, waiting, output)?;
    set_room(clients, service, journal, output, 0, false)?;
    Ok(())
}

// Keeps what waits, hands out what the clients wait for, gives turns until nobody waits for one, and keeps what these changed.
fn finish<S: Recording, L: AccessLog, D: Disk, O: Write>(
    alloc: Global,
    clients: &mut Clients,
    service: &mut OneCall<S, L>,
    journal: &mut Journal<D, O>,
    waiting: &mut Round,
    output: &mut O,
) -> Result<(), KeptError>
    requires usable { IsTrue (D.Disk.is_usable (disk_behind journal.old)) }
    ensures ok { OnOk result (SettlesLate S.begins S.answers S.clocked S.listed S.stands D.Disk.seen D.Disk.may_leave D.Disk.is_clean O.contents waiting.old clients.old clients.new
        service.old.service service.new.service journal.old journal.new output.old output.new) }
    ensures err { OnErr result (FailsLate S.begins S.answers S.clocked S.listed S.stands D.Disk.seen D.Disk.may_leave D.Disk.is_clean O.contents waiting.old clients.old clients.new
        service.old.service service.new.service journal.old journal.new output.old output.new) }
    ensures begun { count_begun clients.new ≡ count_begun clients.old }
{
    keep(alloc, journal, waiting, output)?;
    tell_all(clients, output)?;
    journal.note(output);
    for _turn in 0..u64::MAX {
        if !answer_next(alloc, clients, service, journal, waiting, output)? {
            keep(alloc, journal, waiting, output)?;
            output.flush()?;
            return Ok(());
        }
    }
    Err(KeptError::Stream(Fault::Io))
}
