//! Rounds that were read are appended to another journal.
ghost use Rattle.std.specs.Prelude.{◌≡◌, ◌≢◌, ◌⊎◌, ◌++◌, ◌∷◌, [], ℕ, List, Ok, None, true, false, drop, IsTrue, IfErr, IfOk, IfSome, OnOk};
ghost use Rattle.journal_core.specs.Format.{StandsFor, records_text};
ghost use Rattle.journal_core.specs.Batches.{FitsBehind, Gathers, place_for};
ghost use Rattle.journal_core.specs.LiveCopies.{GoesBySteps};
ghost use Rattle.journal_core.specs.Resting.{HasDiskCause, IsSettled, clocked_of, disk_behind, header_in};
ghost use Rattle.journal_core.specs.declared.error.JournalError.TheVariants.{OutOfMemory, TooLarge};
ghost use Rattle.journal_copies.specs.ReadRounds.{HoldRecords, bytes_of_each, records_of_all};

use journal_core::{Batch, Journal, JournalError, are_records};
use sqlite_disk::Disk;
use std::alloc::Global;

/// The bytes of the records of a round that was read: what stands behind its length and its sum (own).
pub fn records_of(round: &[u8]) -> &[u8]
    ensures { result.now ≡ drop 16 round.now }
{
    if round.len() < 16 {
        return &[];
    }
    &round[16..]
}

/// Appends to a journal a round that was read, and those behind it, at once, as `Journal::append_all` does; false where one of them has other bytes than records, and then nothing is done (own). Its
/// errors are those of `Journal::append_all`, and `OutOfMemory` and `TooLarge`, where the rounds have no room in memory or in a file, and nothing is done.
pub fn append_rounds<D: Disk, B>(
    alloc: Global,
    journal: &mut Journal<D, B>,
    note: &B,
    first: &[u8],
    more: &[Vec<u8>],
) -> Result<bool, JournalError>
    requires usable { IsTrue (D.Disk.is_usable (disk_behind journal.old)) }
    ensures acknowledged { result ≡ Ok true → (records : List (List ℕ)) (new : List (List (List ℕ))) → IsSettled D.Disk.seen D.Disk.may_leave D.Disk.is_clean journal.old records
        → HoldRecords (first.now ∷ bytes_of_each more.now) new → IsSettled D.Disk.seen D.Disk.may_leave D.Disk.is_clean journal.new (records ++ records_of_all new) }
    // A crash at any moment of the call leaves the records from before it, with those of all rounds or of none.
    ensures crash { (records : List (List ℕ)) (new : List (List (List ℕ))) → IsSettled D.Disk.seen D.Disk.may_leave D.Disk.is_clean journal.old records → HoldRecords (first.now ∷ bytes_of_each more.now) new
        → (c : List ℕ) → D.Disk.may_leave (disk_behind journal.new) c → StandsFor (header_in journal.old) c records ⊎ StandsFor (header_in journal.old) c (records ++ records_of_all new) }
    // It is false where a round has other bytes than records, and nothing is done then.
    ensures refused { result ≡ Ok false → (journal.new ≡ journal.old) × ((new : List (List (List ℕ))) → ¬ (HoldRecords (first.now ∷ bytes_of_each more.now) new)) }
    // It fails where there is no room for the rounds, and then nothing is done; or as `Journal::append_all` does.
    ensures cause { IfErr result (λ e. (((e ≡ OutOfMemory) ⊎ (e ≡ TooLarge)) × (journal.new ≡ journal.old))
        ⊎ HasDiskCause e (D.Disk.faults (disk_behind journal.old)) (D.Disk.faults (disk_behind journal.new)) (D.Disk.tally_of (disk_behind journal.old)).refused (D.Disk.tally_of (disk_behind journal.new)).refused) }
    // What is seen goes by steps whose copies are whole.
    ensures steps { result ≡ Ok true → (records : List (List ℕ)) (new : List (List (List ℕ))) → IsSettled D.Disk.seen D.Disk.may_leave D.Disk.is_clean journal.old records
        → HoldRecords (first.now ∷ bytes_of_each more.now) new → GoesBySteps D.Disk.seen (header_in journal.old) (clocked_of journal.old) (clocked_of journal.new) }
    ensures header { header_in journal.new ≡ header_in journal.old }
    ensures clean { D.Disk.is_clean (disk_behind journal.new) ≡ D.Disk.is_clean (disk_behind journal.old) }
    ensures usable { OnOk result (IsTrue (D.Disk.is_usable (disk_behind journal.new))) }
{
    let Some(batch) = batch_of(alloc, journal, first, more)? else {
        return Ok(false);
    };
    journal.append_all(note, &batch)?;
    Ok(true)
}

// The rounds, which are to stand behind the gate of the journal; none where one of them has other bytes than records.
fn batch_of<D: Disk, B>(
    alloc: Global,
    journal: &Journal<D, B>,
    first: &[u8],
    more: &[Vec<u8>],
) -> Result<Option<Batch>, JournalError>
    ensures some { IfOk result (λ some. IfSome some (λ batch. FitsBehind batch journal.now
        × ((new : List (List (List ℕ))) → HoldRecords (first.now ∷ bytes_of_each more.now) new → Gathers batch (records_of_all new)))) }
    ensures none { result ≡ Ok None → (new : List (List (List ℕ))) → ¬ (HoldRecords (first.now ∷ bytes_of_each more.now) new) }
    ensures cause { IfErr result (λ e. (e ≡ OutOfMemory) ⊎ (e ≡ TooLarge)) }
{
    let mut batch = Batch::behind(alloc, journal);
    if !add_to(&mut batch, first)? {
        return Ok(None);
    }
    'adding: for round in more {
        if !add_to(&mut batch, round)? {
            return Ok(None);
        }
    }
    Ok(Some(batch))
}

// Adds a round that was read; false where it has other bytes than records.
fn add_to(batch: &mut Batch, round: &[u8]) -> Result<bool, JournalError>
    ensures adds { result ≡ Ok true → (done new : List (List ℕ)) → Gathers batch.old done → drop 16 round.now ≡ records_text new → Gathers batch.new (done ++ new) }
    ensures other { result ≡ Ok false → (new : List (List ℕ)) → drop 16 round.now ≢ records_text new }
    ensures place { place_for batch.new ≡ place_for batch.old }
    ensures cause { IfErr result (λ e. (e ≡ OutOfMemory) ⊎ (e ≡ TooLarge)) }
{
    let records = records_of(round);
    if !are_records(records) {
        return Ok(false);
    }
    batch.add(records)?;
    Ok(true)
}
