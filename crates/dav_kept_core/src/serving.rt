//! Serving the connections of frames, with stores that a journal keeps.
ghost use Rattle.std.specs.Prelude.{◌≡◌, ℕ, List, [], IsTrue};
ghost use Rattle.http_frames.specs.Clients.{Has};
ghost use Rattle.http_frames.specs.Frames.{unread};
ghost use Rattle.journal_core.specs.Resting.{IsSettled, disk_behind};
ghost use Rattle.dav_kept_core.specs.KeptServers.{AreServedKept, AreServedLate};
ghost use Rattle.dav_kept_core.specs.KeptServers.{StandsForServer, kept_server};

use crate::recorded::Recorded;
use dav_handler_core::serving::Clock;
use http_frames::clients::Clients;
use http_frames::frames::Frames;
use http_frames::gate::{AccessLog, OneCall};
use http_frames::serving::End;
use journal_core::Journal;
use kept_frames::{KeptError, serve_kept, serve_late};
use rand_core::Rng;
use sqlite_disk::Disk;
use std::alloc::Global;
use std::io::{Read, Write};

/// Serves the connections that the frames of the input are of, as `serve_frames` of
/// `dav_handler_core` does, and keeps what they change: an answer is handed out once the journal has
/// the changes that it may tell of (own).
///
/// - `Stream`: the input or the output failed, or there is no memory outside a connection.
/// - `Journal`: what was changed could not be kept, and nothing that tells of it was handed out.
pub fn serve_store<R: Rng, C: Clock, L: AccessLog, D: Disk, I: Read, O: Write>(
    alloc: Global,
    clients: &mut Clients,
    server: &mut OneCall<Recorded<R, C>, L>,
    frames: &mut Frames<I>,
    journal: &mut Journal<D, O>,
    output: &mut O,
) -> Result<End, KeptError>
    requires usable { IsTrue (D.Disk.is_usable (disk_behind journal.old)) }
    // At each moment, and whatever a crash then leaves of the file, it stands for the server as it
    // was after some first of what happened by then, behind which nothing was handed out.
    ensures kept { (records : List (List ℕ)) → Has clients.old []
        → IsSettled D.Disk.seen D.Disk.may_leave D.Disk.is_clean journal.old records
        → StandsForServer records (kept_server R.stream server.old.service)
        → AreServedKept C.tells D.Disk.seen D.Disk.may_leave D.Disk.is_clean O.contents result clients.old
        clients.new (kept_server R.stream server.old.service) (kept_server R.stream server.new.service)
        journal.old journal.new (unread I.remaining frames.old) (unread I.remaining frames.new)
        output.old output.new }
{
    serve_kept(alloc, clients, server, frames, journal, output)
}

/// Serves as `serve_store` does, but that an answer is handed out at once: what was changed is
/// appended to the journal before each frame that tells the moment, and at the end. A crash takes at
/// most what was changed since the last such frame (own).
///
/// - `Stream`: the input or the output failed, or there is no memory outside a connection. What was
///   changed since the last such frame is lost.
/// - `Journal`: what was changed could not be kept.
pub fn serve_store_late<R: Rng, C: Clock, L: AccessLog, D: Disk, I: Read, O: Write>(
    alloc: Global,
    clients: &mut Clients,
    server: &mut OneCall<Recorded<R, C>, L>,
    frames: &mut Frames<I>,
    journal: &mut Journal<D, O>,
    output: &mut O,
) -> Result<End, KeptError>
    requires usable { IsTrue (D.Disk.is_usable (disk_behind journal.old)) }
    // At each moment, and whatever a crash then leaves of the file, it stands for the server as it
    // was after some first of what happened by then, behind which no frame told the moment.
    ensures kept { (records : List (List ℕ)) → Has clients.old []
        → IsSettled D.Disk.seen D.Disk.may_leave D.Disk.is_clean journal.old records
        → StandsForServer records (kept_server R.stream server.old.service)
        → AreServedLate C.tells D.Disk.seen D.Disk.may_leave D.Disk.is_clean O.contents result clients.old
        clients.new (kept_server R.stream server.old.service) (kept_server R.stream server.new.service)
        journal.old journal.new (unread I.remaining frames.old) (unread I.remaining frames.new)
        output.old output.new }
{
    serve_late(alloc, clients, server, frames, journal, output)
}
