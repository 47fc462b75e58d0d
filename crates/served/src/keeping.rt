//! Serving any service of which records are kept, behind what stands in front of it.
ghost use Rattle.std.specs.Prelude.{IsTrue};
ghost use Rattle.journal_core.specs.Resting.{disk_behind};

use crate::fronts::Fronts;
use crate::logins::login_over;
use crate::stopped::Stopped;
use crate::streams::Streams;
use http_frames::gate::{AccessLog, OneCall};
use http_frames::serving::End;
use journal_core::Journal;
use kept_frames::{Recording, serve_kept, serve_late};
use server_choices::Sync;
use sqlite_disk::Disk;
use std::alloc::Global;
use std::io::{Read, Write};
use turn_fronts::Named;

/// Serves with the service, of which the journal has records, behind a login where there are users, and with a log where there is one (own), which it takes from what stands in front. Whether nothing may be changed is the service's own.
///
/// - `WrongRealm`: the realm can't stand between quotes. `Stream`: a stream failed, or there is no memory. `Unkept`: what was changed could not be kept.
pub(crate) fn serve_kept_behind<S: Recording + Drop, D: Disk, I: Read, O: Write>(
    rt: &HostRuntime,
    fronts: &mut Fronts<'_>,
    sync: Sync,
    streams: &mut Streams<I, O>,
    service: S,
    journal: &mut Journal<D, O>,
) -> Result<End, Stopped>
    requires usable { IsTrue (D.Disk.is_usable (disk_behind journal.old)) }
{
    let log = fronts.take_log();
    let named = Named::new(rt.alloc(), service, fronts.user_header.take());
    match fronts.users.take() {
        Some(users) => {
            let login = login_over(rt, users, fronts, named)?;
            serve_recorded(rt.alloc(), sync, streams, login, log, journal)
        }
        None => serve_recorded(rt.alloc(), sync, streams, named, log, journal),
    }
}

// Serves with any service of which records are kept. What is proved of it stands on `serve_kept` and `serve_late`.
fn serve_recorded<S: Recording + Drop, L: AccessLog + Drop, D: Disk, I: Read, O: Write>(
    alloc: Global,
    sync: Sync,
    streams: &mut Streams<I, O>,
    service: S,
    log: L,
    journal: &mut Journal<D, O>,
) -> Result<End, Stopped>
    requires usable { IsTrue (D.Disk.is_usable (disk_behind journal.old)) }
{
    let mut server = OneCall::new(service, log);
    streams.tell_ready()?;
    let Streams {
        clients,
        frames,
        output,
    } = streams;
    let end = match sync {
        Sync::Always => serve_kept(alloc, clients, &mut server, frames, journal, output)?,
        Sync::Second => serve_late(alloc, clients, &mut server, frames, journal, output)?,
    };
    Ok(end)
}
