//! The law of kept runs, over plain data. It does nothing.
ghost use Rattle.std.specs.Prelude.{ℕ, List, Option, Result};
ghost use Rattle.line_streams.specs.declared.Fault.{Fault};
ghost use Rattle.http_frames.specs.declared.clients.Clients.{Clients};
ghost use Rattle.http_frames.specs.declared.serving.End.{End};
ghost use Rattle.journal_core.specs.declared.journal.Journal.{Journal};
ghost use Rattle.kept_frames.specs.declared.error.KeptError.{KeptError};
ghost use Rattle.http_frames.specs.ConnectionEvents.{Event};
ghost use Rattle.http_frames.specs.TurnRuns.{EventsLead};
ghost use Rattle.dav_handler_core.specs.Server.{Server};
ghost use Rattle.dav_handler_core.specs.Serving.{AreServed};
ghost use Rattle.dav_handler_core.specs.TagHistories.{Becomes};
ghost use Rattle.dav_kept_core.specs.BareServers.{as_served, bare, with_fault};
ghost use Rattle.dav_kept_core.specs.KeptServers.{AreServedKept, AreServedLate};
ghost use Rattle.dav_kept_core.specs.KeptServers.{BeginsKept, ClockedKept};
ghost use Rattle.dav_kept_core.specs.KeptServers.{KeptServer, ListedKept, RepliesKept};
ghost use Rattle.dav_kept_core.specs.KeptServers.{StandsForServer};
ghost use Rattle.dav_kept_core.specs.Lives.{Opens};

use dav_handler_core::serving::Clock;
use sqlite_disk::Disk;
use std::io::Write;

/// The law that a kept run is a run of a server (own): the notes that are kept of what changes are
/// told to no client. So what `served_frames_keep_promises` and the other laws say of served frames
/// holds of kept ones, too. It does nothing.
pub fn kept_runs_are_served<C: Clock, D: Disk, O: Write>()
    ensures served { (result : Result End KeptError) (c c' : Clients) (s s' : KeptServer C)
        (j j' : Journal D O) (input input' : Option (List ℕ)) (o o' : O)
        → AreServedKept C.tells D.Disk.seen D.Disk.may_leave D.Disk.is_clean O.contents result c c'
        s s' j j' input input' o o'
        → AreServed C.tells result c c' (as_served s) (as_served s') input input' (O.contents o)
        (O.contents o') }
    // Those laws know the faults of streams alone: any of these may stand for what failed.
    ensures failed { (fault : Fault) (result : Result End KeptError) (c c' : Clients)
        (s s' : KeptServer C) (j j' : Journal D O) (input input' : Option (List ℕ)) (o o' : O)
        → AreServedKept C.tells D.Disk.seen D.Disk.may_leave D.Disk.is_clean O.contents result c c'
        s s' j j' input input' o o'
        → AreServed C.tells (with_fault fault result) c c' (as_served s) (as_served s') input input'
        (O.contents o) (O.contents o') }
    // The same of runs whose changes are kept at ticks.
    ensures late { (result : Result End KeptError) (c c' : Clients) (s s' : KeptServer C)
        (j j' : Journal D O) (input input' : Option (List ℕ)) (o o' : O)
        → AreServedLate C.tells D.Disk.seen D.Disk.may_leave D.Disk.is_clean O.contents result c c'
        s s' j j' input input' o o'
        → AreServed C.tells result c c' (as_served s) (as_served s') input input' (O.contents o)
        (O.contents o') }
    ensures late_failed { (fault : Fault) (result : Result End KeptError) (c c' : Clients)
        (s s' : KeptServer C) (j j' : Journal D O) (input input' : Option (List ℕ)) (o o' : O)
        → AreServedLate C.tells D.Disk.seen D.Disk.may_leave D.Disk.is_clean O.contents result c c'
        s s' j j' input input' o o'
        → AreServed C.tells (with_fault fault result) c c' (as_served s) (as_served s') input input'
        (O.contents o) (O.contents o') }
{}

/// The law of lives (own): a life begins with what the events of the life before led to, as far as
/// its file stands for them, and so with what new stores became. So the laws of runs, which speak of
/// whatever new stores became, hold over any number of lives: `served_frames_keep_promises`,
/// `tags_tell_bytes`, `dates_tell_bytes`, `locks_stand_their_time` and the others. It does nothing.
pub fn lives_go_on<C: Clock>()
    ensures { (begun : Server) (s left : KeptServer C) (events : List Event)
        (records : List (List ℕ)) (opened : Server)
        → Becomes begun (as_served s).server
        → EventsLead (BeginsKept C.tells) RepliesKept ClockedKept ListedKept s events left
        → StandsForServer records left → Opens records left opened
        → Becomes begun (bare opened) }
{}
