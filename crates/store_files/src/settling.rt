//! Setting back the clock of a store: its file is written anew, with moments that are too late set back, and takes the place of the old one.
ghost use Rattle.std.specs.Prelude.{◌≡◌, ◌<◌, ◌-◌, ◌^◌, ◌⊎◌, ℕ, None, Ok, IsTrue, IfOk, IfSome};
ghost use Rattle.sqlite_std_file.specs.File.{file_is_usable};
ghost use Rattle.journal_core.specs.Resting.{disk_behind};
ghost use Rattle.journal_file.specs.JournalFiles.{file_is_clean, file_may_leave, file_seen};
ghost use Rattle.dav_guarded_core.specs.Stores.{Stores};
ghost use Rattle.dav_snapshots_core.specs.SetBack.{IsSetBack};
ghost use Rattle.dav_snapshots_core.specs.WrittenSnapshots.{HasPaths};
ghost use Rattle.store_files.specs.SetBackStores.{IsSetBackOnDisk};
ghost use Rattle.store_files.specs.WrittenStores.{IsReadAs};

use crate::compacting::{Compacted, Unwatched, compact_opened, header_of};
use crate::error::Uncompacted;
use crate::placing::is_new;
use dav_guarded_core::fs::Moment;
use dav_snapshots_core::set_back;
use dav_store_core::{Opened, load};
use journal_core::{Header, Journal, Reader};
use journal_file::open;
use sqlite_disk::Disk;
use sqlite_std_file::{Start, Wary};
use std::alloc::{AllocError, Global};
use std::fs;

/// Sets the clock of the stores in the file at this path back to a moment, as `settle_opened` does, while no
/// server runs, and gives the new file (own). The file is locked meanwhile. Where a link stands at the path,
/// that is done where it leads. `None` where nothing was changed at that moment or behind it: the file stays
/// as it is.
///
/// - `Store`: the old file is refused, as `load` says, or another program has it open.
/// - `New`: it has no record yet.
/// - And as `settle_opened` says.
pub fn settle_file<S: Start>(
    rt: &HostRuntime,
    path: &str,
    from: Moment,
    start: S,
) -> Result<Option<Compacted<S, ()>>, Uncompacted> {
    let real = fs::canonicalize(rt, path)?;
    if is_new(rt, real.as_str())? {
        return Err(Uncompacted::New);
    }
    let header = header_of(rt, 0, 0)?;
    let (mut old, found) = open(rt, real.as_str(), header, &(), Wary)?;
    match found {
        Some(mut reader) => settle_journal(rt, real.as_str(), &mut old, &mut reader, from, start),
        None => Err(Uncompacted::New),
    }
}

// Sets back the clock of the stores that the journal keeps, which is at this path.
fn settle_journal<D: Disk, S: Start>(
    rt: &HostRuntime,
    path: &str,
    journal: &mut Journal<D, ()>,
    reader: &mut Reader,
    from: Moment,
    start: S,
) -> Result<Option<Compacted<S, ()>>, Uncompacted>
    requires usable { IsTrue (D.Disk.is_usable (disk_behind journal.old)) }
    // What the old file stands for is what the new one stands for, with its clock set back, on the disk.
    ensures settled { IfOk result (λ found. IfSome found (λ made. (s : Stores) × (last : ℕ)
        × IsReadAs D.Disk.seen D.Disk.may_leave D.Disk.is_clean journal.old journal.new reader.old s last
        × (HasPaths s.map → IsSetBackOnDisk (file_seen S.Start) (file_may_leave S.Start)
        (file_is_clean S.Start) made.journal made.header from.0 s last))) }
    // Where nothing is done no moment was late.
    ensures none { result ≡ Ok None → (s : Stores) × (last : ℕ)
        × IsReadAs D.Disk.seen D.Disk.may_leave D.Disk.is_clean journal.old journal.new reader.old s last
        × (last < from.0) }
{
    let header = reader.header();
    let opened = load(rt.alloc(), journal, reader, &(), &mut Unwatched)?;
    if opened.last.0 < from.0 {
        return Ok(None);
    }
    let made = settle_opened(rt, path, header, &opened, from, start)?;
    Ok(Some(made))
}

/// Writes what stands in the file at this path, which whoever calls it has open and read, into a draft beside
/// it, with the clock set back to that moment (`dav_snapshots_core::set_back`), and gives that the name of the
/// old one, once it is on the disk (own). It fails as `compact_opened` does.
///
/// As `journal_file::open` says, a value of each `S` is taken once, and `S` says that the file has no byte.
pub fn settle_opened<S: Start>(
    rt: &HostRuntime,
    path: &str,
    header: Header,
    opened: &Opened,
    from: Moment,
    start: S,
) -> Result<Compacted<S, ()>, Uncompacted>
    ensures usable { IfOk result (λ made. IsTrue (file_is_usable S.Start (disk_behind made.journal))) }
    // What stood in the old file stands in the new one, with its clock set back, and is on the disk.
    ensures settled { HasPaths opened.now.stores.map → IfOk result (λ made. IsSetBackOnDisk
        (file_seen S.Start) (file_may_leave S.Start) (file_is_clean S.Start)
        made.journal made.header from.0 opened.now.stores opened.now.last.0) }
    ensures next { IfOk result (λ made. header.generation < made.header.generation
        ⊎ made.header.generation ≡ 2 ^ 64 - 1) }
    ensures began { IfOk result (λ made. made.header.began ≡ header.began) }
{
    let back = opened_back(rt.alloc(), opened, from)?;
    compact_opened(rt, path, header, &back, &(), start)
}

// The stores and their last moment, set back.
fn opened_back(alloc: Global, opened: &Opened, from: Moment) -> Result<Opened, AllocError>
    ensures back { HasPaths opened.now.stores.map → IfOk result (λ back.
        IsSetBack from.0 opened.now.stores opened.now.last.0 back.stores back.last.0) }
    ensures paths { HasPaths opened.now.stores.map → IfOk result (λ back. HasPaths back.stores.map) }
{
    match set_back(alloc, &opened.stores, opened.last, from) {
        Ok((stores, last)) => Ok(Opened { stores, last }),
        Err(_) => Err(AllocError),
    }
}
