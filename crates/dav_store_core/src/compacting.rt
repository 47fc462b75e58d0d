//! How a store is compacted: what stands in it is written into a new journal, as a snapshot.
ghost use Rattle.std.specs.Prelude.{◌≡◌, ◌+◌, ◌^◌, ◌≤◌, ℕ, List, [], ◌∷◌, Err, IsTrue};
ghost use Rattle.std.specs.Prelude.{IfErr, IfOk, OnOk, length};
ghost use Rattle.journal_core.specs.declared.error.JournalError.TheVariants.{OutOfMemory};
ghost use Rattle.journal_core.specs.Clocked.{EachLeaves};
ghost use Rattle.journal_core.specs.Resting.{Carries, clocked_of, disk_behind, gate_of};
ghost use Rattle.journal_core.specs.Resting.{header_in, is_ready};
ghost use Rattle.dav_snapshots_core.specs.WrittenSnapshots.{HasPaths, IsSnapshot};
ghost use Rattle.dav_store_core.specs.Compacting.{HasCompactingCause, IsCompactedOrEmpty};
ghost use Rattle.dav_store_core.specs.Compacting.{IsMadeAnew};
ghost use Rattle.dav_store_core.specs.Loading.{IsLoaded};

use crate::error::StoreError;
use crate::rounds::add_record;
use dav_guarded_core::fs::Moment;
use dav_guarded_core::guarded::Guarded;
use dav_snapshots_core::write;
use journal_core::{Journal, JournalError, Round};
use sqlite_disk::Disk;
use std::alloc::Global;

/// Writes what stands in the stores, with their last moment, into a journal that was just made, as
/// the snapshot that a compacted store has in front (own). The journal has a generation above 0.
///
/// - `Journal`: the snapshot is not appended, as `Journal::append` says; or there is no memory.
pub fn compact<D: Disk, B>(
    alloc: Global,
    journal: &mut Journal<D, B>,
    stores: &Guarded,
    last: Moment,
    note: &B,
) -> Result<(), StoreError>
    requires usable { IsTrue (D.Disk.is_usable (disk_behind journal.old)) }
    // Stores whose paths are made of segments, as all have that records stand for, are what the
    // new journal stands for: with each number, each time and each lock.
    ensures compacted { OnOk result (
        IsMadeAnew D.Disk.seen D.Disk.may_leave D.Disk.is_clean journal.old → HasPaths stores.now.map
        → IsLoaded D.Disk.seen D.Disk.may_leave D.Disk.is_clean journal.new (header_in journal.old)
        stores.now last.0) }
    // A crash at any moment leaves a file that stands for no records yet, or for these stores,
    ensures any_moment { IsMadeAnew D.Disk.seen D.Disk.may_leave D.Disk.is_clean journal.old
        → HasPaths stores.now.map
        → EachLeaves D.Disk.may_leave note.now
        (IsCompactedOrEmpty (header_in journal.old) stores.now last.0) (clocked_of journal.old)
        (clocked_of journal.new) }
    // and so does one behind it, whatever it answers.
    ensures crash { IsMadeAnew D.Disk.seen D.Disk.may_leave D.Disk.is_clean journal.old
        → HasPaths stores.now.map → (c : List ℕ) → D.Disk.may_leave (disk_behind journal.new) c
        → IsCompactedOrEmpty (header_in journal.old) stores.now last.0 c }
    ensures header { header_in journal.new ≡ header_in journal.old }
    ensures ready { OnOk result (IsTrue (is_ready journal.new)) }
    ensures cause { IfErr result (λ e. HasCompactingCause e (is_ready journal.old)
        (D.Disk.faults (disk_behind journal.old)) (D.Disk.faults (disk_behind journal.new))
        (D.Disk.tally_of (disk_behind journal.old)).refused
        (D.Disk.tally_of (disk_behind journal.new)).refused) }
    ensures large { result ≡ Err (StoreError.Journal JournalError.TooLarge)
        → (bytes : List ℕ) × IsSnapshot stores.now last.0 bytes
        × (2 ^ 62 ≤ gate_of journal.old + (40 + length bytes)) }
    ensures clean { D.Disk.is_clean (disk_behind journal.new)
        ≡ D.Disk.is_clean (disk_behind journal.old) }
    ensures usable { OnOk result (IsTrue (D.Disk.is_usable (disk_behind journal.new))) }
{
    let round = snapshot_round(alloc, stores, last)?;
    journal.append(note, &round)?;
    Ok(())
}

// A round with the snapshot alone.
fn snapshot_round(alloc: Global, stores: &Guarded, last: Moment) -> Result<Round, JournalError>
    ensures ok { IfOk result (λ round. (bytes : List ℕ) × IsSnapshot stores.now last.0 bytes
        × Carries round (bytes ∷ [])) }
    ensures err { IfErr result (λ e. e ≡ OutOfMemory) }
{
    let Ok(pieces) = write(alloc, stores, last) else {
        return Err(JournalError::OutOfMemory);
    };
    let mut round = Round::new(alloc);
    add_record(&mut round, pieces)?;
    Ok(round)
}
