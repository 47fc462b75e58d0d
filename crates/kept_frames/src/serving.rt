//! A server whose answers are handed out once what they tell of is kept: frames are taken, a round of turns is given and kept, and then its answers go out.
ghost use Rattle.std.specs.Prelude.{◌≡◌, ℕ, List, [], IfOk, IsTrue, OnErr, OnOk};
ghost use Rattle.sqlite_disk.specs.Disk.{Only};
ghost use Rattle.http_frames.specs.Clients.{Has, count_begun};
ghost use Rattle.http_frames.specs.Frames.{unread};
ghost use Rattle.journal_core.specs.Resting.{IsSettled, disk_behind};
ghost use Rattle.kept_frames.specs.KeptRuns.{RunsKept};
ghost use Rattle.kept_frames.specs.Rounds.{FailsKept, GoesOnKept, TakesKept, WritesKept};
ghost use Rattle.kept_frames.specs.Touches.{AsksTouch};

use crate::error::KeptError;
use crate::recording::Recording;
use crate::rounds::give_round;
use crate::touching::touch_for;
use http_frames::clients::Clients;
use http_frames::frames::{Frames, Head};
use http_frames::gate::{AccessLog, OneCall};
use http_frames::serving::{End, read_on, take_frame, tell_all};
use journal_core::Journal;
use line_streams::Fault;
use sqlite_disk::Disk;
use std::alloc::Global;
use std::io::{Read, Write};

/// Serves the connections that the frames of the input are of, as `serve` of `http_frames` does, but that an answer is handed out only once the journal keeps what it may tell of: turns are
/// given, what they changed is appended as one round, and then their answers go out. At an error the journal's file stands for what was handed out, and who opens it again finds it there (own).
///
/// - `Stream`: the input or the output failed, or there is no memory outside a connection.
/// - `Journal`: what was changed could not be kept; nothing that tells of it was handed out.
pub fn serve_kept<S: Recording, L: AccessLog, D: Disk, I: Read, O: Write>(
    alloc: Global,
    clients: &mut Clients,
    service: &mut OneCall<S, L>,
    frames: &mut Frames<I>,
    journal: &mut Journal<D, O>,
    output: &mut O,
) -> Result<End, KeptError>
    requires usable { IsTrue (D.Disk.is_usable (disk_behind journal.old)) }
    ensures kept { (records : List (List ℕ)) → Has clients.old [] → IsSettled D.Disk.seen D.Disk.may_leave D.Disk.is_clean journal.old records → S.stands records service.old.service
        → RunsKept S.begins S.answers S.clocked S.listed S.stands D.Disk.seen D.Disk.may_leave D.Disk.is_clean O.contents result clients.old clients.new service.old.service service.new.service
        journal.old journal.new (unread I.remaining frames.old) (unread I.remaining frames.new) output.old output.new }
{
    // A loop is proved to end, so this one counts its turns.
    for _step in 0..u64::MAX {
        let ended = go_on(alloc, clients, service, frames, journal, output)?;
        if let Some(end) = ended {
            finish(alloc, clients, service, journal, output)?;
            return Ok(end);
        }
    }
    Err(KeptError::Stream(Fault::Io))
}

// Takes a frame that is at hand; or gives a round of turns; or asks what else has come, and reads on. Whether that is the end.
fn go_on<S: Recording, L: AccessLog, D: Disk, I: Read, O: Write>(
    alloc: Global,
    clients: &mut Clients,
    service: &mut OneCall<S, L>,
    frames: &mut Frames<I>,
    journal: &mut Journal<D, O>,
    output: &mut O,
) -> Result<Option<End>, KeptError>
    requires usable { IsTrue (D.Disk.is_usable (disk_behind journal.old)) }
    ensures ok { IfOk result (λ end. GoesOnKept S.begins S.answers S.clocked S.listed S.stands D.Disk.seen D.Disk.may_leave D.Disk.is_clean O.contents end clients.old clients.new service.old.service
        service.new.service journal.old journal.new output.old output.new (unread I.remaining frames.old) (unread I.remaining frames.new)) }
    ensures err { OnErr result (FailsKept S.begins S.answers S.clocked S.listed S.stands D.Disk.seen D.Disk.may_leave D.Disk.is_clean O.contents clients.old clients.new service.old.service
        service.new.service journal.old journal.new output.old output.new) }
    ensures usable { OnOk result (IsTrue (D.Disk.is_usable (disk_behind journal.new))) }
{
    if let Some(frame) = frames.next() {
        let length = frame.length;
        if !take_next(clients, service, frame.head, frame.bytes, journal, output)? {
            return Ok(Some(End::Wrong));
        }
        frames.skip(length);
        return Ok(None);
    }
    if round_or_ask(alloc, clients, service, journal, output)? {
        return Ok(None);
    }
    output.flush()?;
    Ok(read_on(clients, frames)?)
}

// Takes what a frame says; before a touch is told the file is touched. False where the frame is wrong.
fn take_next<S: Recording, L: AccessLog, D: Disk, O: Write>(
    clients: &mut Clients,
    service: &mut OneCall<S, L>,
    head: Option<Head>,
    bytes: &[u8],
    journal: &mut Journal<D, O>,
    output: &mut O,
) -> Result<bool, KeptError>
    requires usable { IsTrue (D.Disk.is_usable (disk_behind journal.old)) }
    ensures ok { IfOk result (λ right. TakesKept S.begins S.answers S.clocked S.listed S.stands D.Disk.seen D.Disk.may_leave D.Disk.is_clean O.contents right head bytes.now clients.old clients.new
        service.old.service service.new.service journal.old journal.new output.old output.new) }
    ensures err { OnErr result (FailsKept S.begins S.answers S.clocked S.listed S.stands D.Disk.seen D.Disk.may_leave D.Disk.is_clean O.contents clients.old clients.new service.old.service
        service.new.service journal.old journal.new output.old output.new) }
    // Where it asks for a touch, all that is seen of the file is on the disk.
    ensures synced { OnOk result (AsksTouch head → Only (D.Disk.seen (disk_behind journal.new)) (D.Disk.may_leave (disk_behind journal.new))) }
    ensures usable { OnOk result (IsTrue (D.Disk.is_usable (disk_behind journal.new))) }
{
    touch_for(head, journal, output)?;
    let right = take_frame(clients, service, head, bytes, output)?;
    journal.note(output);
    Ok(right)
}

// Gives a round of turns, where one may be given; or asks what else has come, unless that was asked. Whether a turn was given.
fn round_or_ask<S: Recording, L: AccessLog, D: Disk, O: Write>(
    alloc: Global,
    clients: &mut Clients,
    service: &mut OneCall<S, L>,
    journal: &mut Journal<D, O>,
    output: &mut O,
) -> Result<bool, KeptError>
    requires usable { IsTrue (D.Disk.is_usable (disk_behind journal.old)) }
    ensures ok { OnOk result (WritesKept S.begins S.answers S.clocked S.listed S.stands D.Disk.seen D.Disk.may_leave D.Disk.is_clean O.contents clients.old clients.new service.old.service
        service.new.service journal.old journal.new output.old output.new) }
    ensures err { OnErr result (FailsKept S.begins S.answers S.clocked S.listed S.stands D.Disk.seen D.Disk.may_leave D.Disk.is_clean O.contents clients.old clients.new service.old.service
        service.new.service journal.old journal.new output.old output.new) }
    ensures usable { OnOk result (IsTrue (D.Disk.is_usable (disk_behind journal.new))) }
{
    if clients.may_answer() {
        return give_round(alloc, clients, service, journal, output);
    }
    if !clients.is_asked() {
        clients.ask(output)?;
        journal.note(output);
    }
    Ok(false)
}

// Hands out what waits, and gives rounds of turns until nobody waits for one.
fn finish<S: Recording, L: AccessLog, D: Disk, O: Write>(
    alloc: Global,
    clients: &mut Clients,
    service: &mut OneCall<S, L>,
    journal: &mut Journal<D, O>,
    output: &mut O,
) -> Result<(), KeptError>
    requires usable { IsTrue (D.Disk.is_usable (disk_behind journal.old)) }
    ensures ok { OnOk result (WritesKept S.begins S.answers S.clocked S.listed S.stands D.Disk.seen D.Disk.may_leave D.Disk.is_clean O.contents clients.old clients.new service.old.service
        service.new.service journal.old journal.new output.old output.new) }
    ensures err { OnErr result (FailsKept S.begins S.answers S.clocked S.listed S.stands D.Disk.seen D.Disk.may_leave D.Disk.is_clean O.contents clients.old clients.new service.old.service
        service.new.service journal.old journal.new output.old output.new) }
    ensures begun { count_begun clients.new ≡ count_begun clients.old }
{
    tell_all(clients, output)?;
    journal.note(output);
    for _round in 0..u64::MAX {
        if !give_round(alloc, clients, service, journal, output)? {
            output.flush()?;
            return Ok(());
        }
    }
    Err(KeptError::Stream(Fault::Io))
}
