//! Serving with stores that a file keeps.
ghost use Rattle.std.specs.Prelude.{◌≡◌, ◌≢◌, if◌then◌else◌, None, Some, Ok, IsErr, IsSome, IsTrue, IfOk, IfSome, OnErr, OnOk};
ghost use Rattle.sqlite_std_file.specs.File.{file_is_usable};
ghost use Rattle.journal_core.specs.JournalReading.{header_of};
ghost use Rattle.journal_core.specs.Resting.{disk_behind, is_ready};
ghost use Rattle.store_files.specs.FoundStores.{MayBeOpened};

use crate::clock::first_moment;
use crate::fronts::Fronts;
use crate::keeping::serve_kept_behind;
use crate::lease::{touch_first, wait_for};
use crate::place::Place;
use crate::stopped::Stopped;
use crate::streams::Streams;
use dav_guarded_core::fs::Moment;
use dav_handler_core::dav::{Dav, Settings};
use dav_handler_core::serving::{Clock, Timed};
use dav_kept_core::{Recorded, Tree, serve_store, serve_store_late};
use dav_store_core::{Opened, StoreError, Watch, load};
use http_frames::gate::{AccessLog, OneCall};
use http_frames::serving::End;
use journal_core::{Header, Journal, JournalError, Reader};
use journal_file::open;
use rand_core::Rng;
use server_choices::{Compacting, Sync};
use sqlite_disk::Disk;
use sqlite_std_file::{FileFrom, Start, Wary};
use std::alloc::{AllocError, Global};
use std::io::{Read, Write};
use store_files::{
    Anew, Compacted, Naming, Opening, Stood, Uncompacted, clear_draft, compact_opened,
    find_or_make, header_of, is_due, length_of, version_of,
};
use turn_fronts::ReadOnly;

// Where the last change lies so many nanoseconds ahead of the clock, that is told at the start.
const AHEAD: u64 = 60 * 1_000_000_000;

/// How the stores of a file are kept and served (own).
#[derive(Drop)]
pub(crate) struct Keeping<'a> {
    /// What the server tells of them, and to whom.
    pub(crate) settings: Settings,
    /// When the file has what is changed.
    pub(crate) sync: Sync,
    /// When the file is compacted at the start.
    pub(crate) compacting: Compacting,
    /// Whether the file has to be there: none is made then.
    pub(crate) existing: bool,
    /// When what the file keeps has to have begun, in nanoseconds since 1970, where that is chosen. The file has to be there then.
    pub(crate) began: Option<u64>,
    /// For how many seconds nobody else may serve the file behind the last touch, where machines share it.
    pub(crate) lease: Option<u64>,
    /// The path of the file.
    pub(crate) path: &'a str,
    /// Where the file is, once it is open.
    pub(crate) place: &'a Place,
}

// With what a server begins.
#[derive(Drop)]
struct Beginning<R, C> {
    now: Moment,
    rng: R,
    clock: C,
}

/// Serves the connections that the frames are of, with the stores of a file, which keeps what they change (own). It begins at the moment that is chosen, or else at the system's. Where there is no file it is made, at this moment, unless it has to be there; where too much of it is of no use any more
/// it is compacted first.
///
/// - `Refused`: the file is refused, or could not be made, opened or read. `InTheWay`: beside it stands one that is no store, and has the name of the new file of a compaction. `Missing`: there is none, and it has to be there. `Other`: it keeps a store that began at another moment than the one that is chosen. `Empty`: it has no whole header. `Taken`: another one came there as it was made.
/// - `Lost`: another file has its name before it is served. `Ended`: with a lease, the input ended before the file was served, or a frame was wrong.
/// - `Unkept`: what was changed could not be kept. `WrongRealm`: the realm can't stand between quotes. `Stream`: a stream failed, or there is no memory, or the system does not tell the moment.
pub(crate) fn serve_stored<R: Rng + Drop, C: Clock + Drop, I: Read, O: Write>(
    rt: &HostRuntime,
    began: Option<u64>,
    fronts: &mut Fronts<'_>,
    streams: &mut Streams<I, O>,
    keeping: Keeping<'_>,
    rng: R,
    clock: C,
) -> Result<End, Stopped> {
    let path = keeping.path;
    let now = first_moment(rt, began)?;
    let must_stand = keeping.existing || keeping.began.is_some();
    stand(rt, path, must_stand, now)?;
    let found = find(rt, path, now, &keeping, streams, Wary);
    if let Err(Stopped::Refused(StoreError::Journal(JournalError::Unsupported))) = &found {
        tell_version(rt, path);
    }
    let found = found?;
    tell_ahead(rt, found.opened.last, now);
    let made = compacted(rt, path, &found, keeping.compacting, &streams.output, Anew)?;
    let beginning = Beginning { now, rng, clock };
    serve_either(rt, fronts, keeping, streams, found, made, beginning)
}

// The file stands there. It is made where nothing does, unless it has to be there; that is told.
fn stand(rt: &HostRuntime, path: &str, existing: bool, now: Moment) -> Result<(), Stopped> {
    let stood = find_or_make(rt, path, moment_of(existing, now)).map_err(unmade)?;
    stand_with(rt, path, stood)
}

// When a store begins that is made where nothing stands; none where it has to be there.
fn moment_of(existing: bool, now: Moment) -> Option<u64>
    ensures { result ≡ (if existing then None else Some now.0) }
{
    if existing { None } else { Some(now.0) }
}

// Whether what came of it may be opened. That a store was made is told.
fn stand_with(rt: &HostRuntime, path: &str, stood: Stood) -> Result<(), Stopped>
    ensures stands { IfOk result (λ _. MayBeOpened stood) }
{
    match stood {
        Stood::There => Ok(()),
        Stood::Made(naming) => {
            tell_new(rt, path, naming);
            Ok(())
        }
        Stood::Missing => Err(Stopped::Missing(String::from_str(rt.alloc(), path)?)),
        Stood::Empty => Err(Stopped::Empty(String::from_str(rt.alloc(), path)?)),
        Stood::Taken(taken) => Err(Stopped::Taken(taken)),
    }
}

// Tells on standard error that a store was made.
fn tell_new(rt: &HostRuntime, path: &str, naming: Naming) {
    let how = match naming {
        Naming::Linked => "",
        Naming::Direct =>
            ", without a link, which can't be had there: a crash as it was made would have left an empty file",
    };
    let _told = writeln!(rt.stderr(), "a new store was made: {path}{how}");
}

// Why the file can't be found or made.
fn unmade(error: Uncompacted) -> Stopped {
    match error {
        Uncompacted::InTheWay(path) => Stopped::Taken(path),
        Uncompacted::Store(error) => Stopped::from(error),
        Uncompacted::Failed(error) | Uncompacted::Unsynced(error) => {
            Stopped::from(JournalError::Failed(error))
        }
        Uncompacted::New | Uncompacted::Replaced => Stopped::Lost,
    }
}

// Serves with the file that was compacted, where one was, and else with the one that was found.
fn serve_either<R: Rng + Drop, C: Clock + Drop, D: Disk + Drop, S: Start + Drop, I: Read, O: Write>(
    rt: &HostRuntime,
    fronts: &mut Fronts<'_>,
    keeping: Keeping<'_>,
    streams: &mut Streams<I, O>,
    found: Found<D, O>,
    made: Option<Compacted<S, O>>,
    beginning: Beginning<R, C>,
) -> Result<End, Stopped>
    requires found { IsTrue (D.Disk.is_usable (disk_behind found.journal)) }
    requires made { IfSome made (λ made. IsTrue (file_is_usable S.Start (disk_behind made.journal))) }
{
    match made {
        Some(
            Compacted {
                journal,
                header,
                ..
            },
        ) => {
            // The old file was locked up to here.
            drop(found.journal);
            let anew = Found {
                journal,
                header,
                opened: found.opened,
                used: found.used,
            };
            serve_found(rt, fronts, keeping, streams, anew, beginning)
        }
        None => serve_found(rt, fronts, keeping, streams, found, beginning),
    }
}

// A file that is open, and the stores that it keeps.
#[derive(Drop)]
struct Found<D: Disk, B> {
    journal: Journal<D, B>,
    header: Header,
    opened: Opened,
    // How many bytes of the file are used.
    used: u64,
}

// Opens the file at this path and reads it, with a lease once whoever had it before has stopped. `Other` where another store is chosen, and `Empty` where it has no whole header.
fn find<S: Start, I: Read, O: Write>(
    rt: &HostRuntime,
    path: &str,
    now: Moment,
    keeping: &Keeping<'_>,
    streams: &mut Streams<I, O>,
    start: S,
) -> Result<Found<FileFrom<S>, O>, Stopped>
    ensures usable { IfOk result (λ found. IsTrue (file_is_usable S.Start (disk_behind found.journal))) }
{
    let new = header_of(rt, 0, now.0)?;
    let (mut journal, reader) = open(rt, path, new, &streams.output, start)?;
    check_began(rt.alloc(), path, &reader, keeping.began)?;
    if let Some(seconds) = keeping.lease {
        wait_for(rt, path, seconds, streams)?;
    }
    let output = &streams.output;
    let mut opening = Opening::of(rt, path);
    let (header, opened, used) = read_all(rt, path, &mut journal, reader, output, &mut opening)?;
    opening.end();
    Ok(Found {
        journal,
        header,
        opened,
        used,
    })
}

// What the file keeps began at this moment, where one is chosen. A file without a header is refused later.
fn check_began(
    alloc: Global,
    path: &str,
    reader: &Option<Reader>,
    began: Option<u64>,
) -> Result<(), Stopped>
    ensures began { OnOk result (IfSome began (λ moment. IfSome reader.now (λ r. (header_of r).began ≡ moment))) }
    ensures any { began ≡ None → result ≡ Ok tt }
    ensures other { OnErr result (IsSome began × IsSome reader.now × IfSome began (λ moment. IfSome reader.now (λ r. (header_of r).began ≢ moment))) }
{
    let (Some(reader), Some(moment)) = (reader, began) else {
        return Ok(());
    };
    let found = reader.header().began;
    if found == moment {
        return Ok(());
    }
    Err(Stopped::Other(String::from_str(alloc, path)?, found))
}

// The file that was compacted, where too much of it was of no use any more. That is told, and so is where it could not be done, and the old one is used on.
fn compacted<S: Start + Drop, D: Disk, B>(
    rt: &HostRuntime,
    path: &str,
    found: &Found<D, B>,
    compacting: Compacting,
    output: &B,
    start: S,
) -> Result<Option<Compacted<S, B>>, Stopped>
    ensures usable { IfOk result (λ some. IfSome some (λ made. IsTrue (file_is_usable S.Start (disk_behind made.journal)))) }
{
    if !is_useless(rt.alloc(), found, compacting) {
        return Ok(None);
    }
    match compact_opened(rt, path, found.header, &found.opened, output, start) {
        Ok(made) => {
            let _told = writeln!(
                rt.stderr(),
                "the store was compacted: {} bytes before, {} bytes now",
                made.before,
                made.now
            );
            Ok(Some(made))
        }
        Err(Uncompacted::InTheWay(draft)) => Err(Stopped::InTheWay(draft)),
        Err(Uncompacted::Replaced) => Err(Stopped::Lost),
        Err(Uncompacted::Unsynced(error)) => Err(Stopped::from(JournalError::Failed(error))),
        Err(error) => {
            let _told = writeln!(rt.stderr(), "the store is not compacted: {error}");
            Ok(None)
        }
    }
}

// Whether too much of a file is of no use any more. Where there is no memory to find out, it isn't.
fn is_useless<D: Disk, B>(alloc: Global, found: &Found<D, B>, compacting: Compacting) -> bool {
    let Compacting { over, useless } = compacting;
    if found.used <= over {
        return false;
    }
    match length_of(alloc, &found.opened) {
        Ok(left) => is_due(found.used, left, over, useless),
        Err(AllocError) => false,
    }
}

// Serves with the stores of a file that is open. It is told here of no disk in particular, so that its check is short.
fn serve_found<R: Rng + Drop, C: Clock + Drop, D: Disk + Drop, I: Read, O: Write>(
    rt: &HostRuntime,
    fronts: &mut Fronts<'_>,
    keeping: Keeping<'_>,
    streams: &mut Streams<I, O>,
    found: Found<D, O>,
    beginning: Beginning<R, C>,
) -> Result<End, Stopped>
    requires usable { IsTrue (D.Disk.is_usable (disk_behind found.journal)) }
{
    let Keeping {
        settings,
        sync,
        lease,
        path,
        place,
        ..
    } = keeping;
    settle(rt, path, place, found.header)?;
    let Found {
        mut journal,
        header,
        opened,
        ..
    } = found;
    let service = server_over(rt.alloc(), settings, opened, header, beginning)?;
    if lease.is_some() {
        touch_first(streams, &mut journal)?;
    }
    serve_recorded(rt, fronts, sync, streams, service, &mut journal)
}

// From now on the name of the file is looked for before each round.
fn settle(rt: &HostRuntime, path: &str, place: &Place, header: Header) -> Result<(), Stopped> {
    match place.settle(rt, path, header) {
        Ok(()) => Ok(()),
        Err(_) if place.is_lost() => Err(Stopped::Lost),
        Err(error) => Err(Stopped::from(JournalError::Failed(error))),
    }
}

// Serves with the server, behind what stands in front of it.
fn serve_recorded<R: Rng + Drop, C: Clock + Drop, D: Disk, I: Read, O: Write>(
    rt: &HostRuntime,
    fronts: &mut Fronts<'_>,
    sync: Sync,
    streams: &mut Streams<I, O>,
    service: Recorded<R, C>,
    journal: &mut Journal<D, O>,
) -> Result<End, Stopped>
    requires usable { IsTrue (D.Disk.is_usable (disk_behind journal.old)) }
{
    if fronts.is_none() {
        let mut server = OneCall::new(service, fronts.take_log());
        return serve_on(rt.alloc(), sync, streams, &mut server, journal);
    }
    if fronts.read_only {
        let service = ReadOnly::new(service);
        return serve_kept_behind(rt, fronts, sync, streams, service, journal);
    }
    serve_kept_behind(rt, fronts, sync, streams, service, journal)
}

// A server over these stores, whose changes a journal with this header keeps.
fn server_over<R: Rng + Drop, C: Clock + Drop>(
    alloc: Global,
    settings: Settings,
    opened: Opened,
    header: Header,
    beginning: Beginning<R, C>,
) -> Result<Recorded<R, C>, AllocError> {
    let Beginning { now, rng, clock } = beginning;
    let first = Moment(now.0.max(opened.last.0));
    let tree = Tree::of(alloc, &opened.stores)?;
    let dav = Dav::new(alloc, settings, opened.stores, rng, first, true);
    Ok(Recorded::new(alloc, Timed { dav, clock }, header, tree))
}

// Serves on any disk. What is proved of it stands on `serve_store` and `serve_store_late`.
fn serve_on<R: Rng, C: Clock, L: AccessLog, D: Disk, I: Read, O: Write>(
    alloc: Global,
    sync: Sync,
    streams: &mut Streams<I, O>,
    server: &mut OneCall<Recorded<R, C>, L>,
    journal: &mut Journal<D, O>,
) -> Result<End, Stopped>
    requires usable { IsTrue (D.Disk.is_usable (disk_behind journal.old)) }
{
    streams.tell_ready()?;
    let Streams {
        clients,
        frames,
        output,
    } = streams;
    let end = match sync {
        Sync::Always => serve_store(alloc, clients, server, frames, journal, output)?,
        Sync::Second => serve_store_late(alloc, clients, server, frames, journal, output)?,
    };
    Ok(end)
}

// The header of the file, the stores that the journal keeps, and how many bytes of the file are used. `Empty` where it had no header. What a compaction has left beside the file is removed, once that was read.
fn read_all<D: Disk, B, W: Watch>(
    rt: &HostRuntime,
    path: &str,
    journal: &mut Journal<D, B>,
    found: Option<Reader>,
    note: &B,
    watch: &mut W,
) -> Result<(Header, Opened, u64), Stopped>
    requires usable { IsTrue (D.Disk.is_usable (disk_behind journal.old)) }
    ensures usable { IsTrue (D.Disk.is_usable (disk_behind journal.new)) }
    // A file that had no whole header is not taken for a store.
    ensures empty { found ≡ None → IsErr result }
{
    let Some(mut reader) = found else {
        return Err(Stopped::Empty(String::from_str(rt.alloc(), path)?));
    };
    let opened = load(rt.alloc(), journal, &mut reader, note, watch)?;
    clear_left(rt, path, journal, reader.header())?;
    Ok((reader.header(), opened, reader.place() as u64))
}

// Removes the draft that a compaction of the file has left. `InTheWay` alone: where another call fails, one is left, and the next compaction tells it.
fn clear_left<D: Disk, B>(
    rt: &HostRuntime,
    path: &str,
    journal: &Journal<D, B>,
    header: Header,
) -> Result<(), Stopped>
    requires read { IsTrue (is_ready journal.now) }
{
    match clear_draft(rt, path, journal, header) {
        Err(Uncompacted::InTheWay(draft)) => Err(Stopped::InTheWay(draft)),
        _ => Ok(()),
    }
}

// Tells on standard error which version the file is of.
fn tell_version(rt: &HostRuntime, path: &str) {
    if let Some(version) = version_of(rt, path) {
        let _told = writeln!(
            rt.stderr(),
            "{path} is a store of version {version}, and this program knows version 1"
        );
    }
}

// Tells on standard error where the last change lies over a minute ahead of the clock.
fn tell_ahead(rt: &HostRuntime, last: Moment, now: Moment) {
    let ahead = last.0.saturating_sub(now.0);
    if ahead > AHEAD {
        let seconds = ahead / 1_000_000_000;
        let _told = writeln!(
            rt.stderr(),
            "the last change of the store is of {}, {seconds} seconds ahead of the clock, which tells {}: no lock expires and no time goes on until then; davstore FILE settle {} sets it back",
            last.0,
            now.0,
            now.0
        );
    }
}
