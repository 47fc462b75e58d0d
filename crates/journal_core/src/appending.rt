//! Appending a round. The gate behind the last round stands shut on the disk before anything is written behind it, and is opened by a write of its own, once the round is on the disk.
ghost use Rattle.std.specs.Prelude.{◌≡◌, ◌≢◌, ◌⊎◌, ◌+◌, ◌-◌, Some, ◌<◌, ◌≤◌, ◌^◌, ◌++◌, [], ℕ, List, true, false, Ok, Err, Option, length, max, IsTrue, IsFalse, IfErr, IfOk, IfSome, IsSome, OnErr, OnOk};
ghost use Rattle.sqlite_disk.specs.Disk.{MoreFaults, Only};
ghost use Rattle.journal_core.specs.Clocked.{EachLeaves};
ghost use Rattle.journal_core.specs.Format.{StandsFor, records_text};
ghost use Rattle.journal_core.specs.Batches.{FitsBehind, Gathers, bytes_gathered};
ghost use Rattle.journal_core.specs.LiveCopies.{GoesBySteps};
ghost use Rattle.journal_core.specs.MadeRoom.{made_room, spare_room};
ghost use Rattle.journal_core.specs.Resting.{Carries, HasDiskCause, HasRoomCause, HasTouchCause, IsSettled, KnowsLength, clocked_of, disk_behind, gate_of, header_in, len_of, is_ready};
ghost use Rattle.journal_core.specs.Private.Looks.{Grows};
ghost use Rattle.journal_core.specs.declared.error.JournalError.TheVariants.{NotOpen, TooLarge};

use crate::batch::Batch;
use crate::error::JournalError;
use crate::journal::{Journal, LARGEST};
use crate::round::Round;
use crate::writing::{lengthen, put, write_behind, write_error, write_round};
use sqlite_disk::Disk;

/// How much room is made behind the last round at least, where the disk has four times as much free, in bytes.
const ROOM: usize = 4 << 20;

/// How much is made at most, where no more is asked for: so a large file leaves its disk room for others.
const MOST: usize = 64 << 20;

impl<D: Disk, B> Journal<D, B> {
    /// Appends a round. At `Ok` it is acknowledged: from then on each crash leaves a file in which its records stand. Where it has no record, nothing is done.
    ///
    /// - `NotOpen`: an earlier call failed, or the journal was not read to its end. Nothing is done.
    /// - `TooLarge`: the file would have 2^62 bytes or more. Nothing is done.
    /// - `Failed`, `Full`: a call of the disk failed. The journal is not open any more. Its file stands for the records with the round or without it.
    pub fn append(&mut self, note: &B, round: &Round) -> Result<(), JournalError>
        requires usable { IsTrue (D.Disk.is_usable (disk_behind self.old)) }
        ensures acknowledged { OnOk result ((records new : List (List ℕ)) → IsSettled D.Disk.seen D.Disk.may_leave D.Disk.is_clean self.old records → Carries round.now new → IsSettled D.Disk.seen D.Disk.may_leave D.Disk.is_clean self.new (records ++ new)) }
        // A crash at any moment of the call leaves the records from before it, with those of the round or without,
        ensures any_moment { (records new : List (List ℕ)) → IsSettled D.Disk.seen D.Disk.may_leave D.Disk.is_clean self.old records → Carries round.now new
            → EachLeaves D.Disk.may_leave note.now (λ c. StandsFor (header_in self.old) c records ⊎ StandsFor (header_in self.old) c (records ++ new)) (clocked_of self.old) (clocked_of self.new) }
        // and so does one behind it, whatever it answers.
        ensures crash { (records new : List (List ℕ)) → IsSettled D.Disk.seen D.Disk.may_leave D.Disk.is_clean self.old records → Carries round.now new
            → (c : List ℕ) → D.Disk.may_leave (disk_behind self.new) c → StandsFor (header_in self.old) c records ⊎ StandsFor (header_in self.old) c (records ++ new) }
        ensures not_open { IsFalse (is_ready self.old) → (self.new ≡ self.old) × (result ≡ Err NotOpen) }
        ensures nothing { IsTrue (is_ready self.old) → Carries round.now [] → (self.new ≡ self.old) × (result ≡ Ok tt) }
        ensures large { result ≡ Err TooLarge → (self.new ≡ self.old) × ((new : List (List ℕ)) → Carries round.now new → 2 ^ 62 ≤ gate_of self.old + (32 + length (records_text new))) }
        ensures opens { OnOk result (is_ready self.new ≡ is_ready self.old) }
        ensures closes { IfErr result (λ e. e ≢ TooLarge → IsFalse (is_ready self.new)) }
        ensures header { header_in self.new ≡ header_in self.old }
        ensures cause { IfErr result (λ e. HasDiskCause e (D.Disk.faults (disk_behind self.old)) (D.Disk.faults (disk_behind self.new)) (D.Disk.tally_of (disk_behind self.old)).refused (D.Disk.tally_of (disk_behind self.new)).refused
            × (e ≡ NotOpen → IsFalse (is_ready self.old))) }
        ensures room { OnOk result ((records new : List (List ℕ)) → IsSettled D.Disk.seen D.Disk.may_leave D.Disk.is_clean self.old records → Carries round.now new
            → gate_of self.old + (32 + length (records_text new)) ≤ length (D.Disk.seen (disk_behind self.old)) → length (D.Disk.seen (disk_behind self.new)) ≡ length (D.Disk.seen (disk_behind self.old))) }
        ensures known { OnOk result (IsSome (len_of self.old) → IsSome (len_of self.new)) }
        // What is seen goes by steps whose copies are whole.
        ensures steps { OnOk result ((records new : List (List ℕ)) → IsSettled D.Disk.seen D.Disk.may_leave D.Disk.is_clean self.old records → Carries round.now new
            → GoesBySteps D.Disk.seen (header_in self.old) (clocked_of self.old) (clocked_of self.new)) }
        ensures clean { D.Disk.is_clean (disk_behind self.new) ≡ D.Disk.is_clean (disk_behind self.old) }
        ensures usable { OnOk result (IsTrue (D.Disk.is_usable (disk_behind self.new))) }
    {
        if !self.is_open {
            return Err(JournalError::NotOpen);
        }
        let len = round.len();
        if len == 0 {
            return Ok(());
        }
        if self.is_too_large(len) {
            return Err(JournalError::TooLarge);
        }
        self.is_open = false;
        let end = write_round(&mut self.disk, note, self.header.key, self.at, round, len).map_err(
            write_error,
        )?;
        put(&mut self.disk, note, self.at, b"opengate").map_err(write_error)?;
        self.len = match self.len {
            Some(len) => Some(len.max(end + 8)),
            None => None,
        };
        self.at = end;
        self.is_open = true;
        Ok(())
    }

    /// Appends rounds at once, by two syncs for all of them. At `Ok` they are acknowledged: from then on each crash leaves a file in which their records stand; and each crash before leaves all of them or none. Where there is no round, nothing is done (own).
    ///
    /// - `NotOpen`: an earlier call failed, or the journal was not read to its end. Nothing is done.
    /// - `TooLarge`: the file would have nearly 2^62 bytes or more. Nothing is done.
    /// - `Failed`, `Full`: a call of the disk failed. The journal is not open any more. Its file stands for the records with the rounds or without them.
    pub fn append_all(&mut self, note: &B, batch: &Batch) -> Result<(), JournalError>
        requires usable { IsTrue (D.Disk.is_usable (disk_behind self.old)) }
        requires fits { FitsBehind batch.now self.old }
        ensures acknowledged { OnOk result ((records new : List (List ℕ)) → IsSettled D.Disk.seen D.Disk.may_leave D.Disk.is_clean self.old records → Gathers batch.now new → IsSettled D.Disk.seen D.Disk.may_leave D.Disk.is_clean self.new (records ++ new)) }
        ensures any_moment { (records new : List (List ℕ)) → IsSettled D.Disk.seen D.Disk.may_leave D.Disk.is_clean self.old records → Gathers batch.now new
            → EachLeaves D.Disk.may_leave note.now (λ c. StandsFor (header_in self.old) c records ⊎ StandsFor (header_in self.old) c (records ++ new)) (clocked_of self.old) (clocked_of self.new) }
        ensures crash { (records new : List (List ℕ)) → IsSettled D.Disk.seen D.Disk.may_leave D.Disk.is_clean self.old records → Gathers batch.now new
            → (c : List ℕ) → D.Disk.may_leave (disk_behind self.new) c → StandsFor (header_in self.old) c records ⊎ StandsFor (header_in self.old) c (records ++ new) }
        ensures not_open { IsFalse (is_ready self.old) → (self.new ≡ self.old) × (result ≡ Err NotOpen) }
        ensures nothing { IsTrue (is_ready self.old) → Gathers batch.now [] → (self.new ≡ self.old) × (result ≡ Ok tt) }
        ensures large { result ≡ Err TooLarge → (self.new ≡ self.old) × (2 ^ 62 ≤ gate_of self.old + (32 + bytes_gathered batch.now)) }
        ensures opens { OnOk result (is_ready self.new ≡ is_ready self.old) }
        ensures closes { IfErr result (λ e. e ≢ TooLarge → IsFalse (is_ready self.new)) }
        ensures header { header_in self.new ≡ header_in self.old }
        ensures cause { IfErr result (λ e. HasDiskCause e (D.Disk.faults (disk_behind self.old)) (D.Disk.faults (disk_behind self.new)) (D.Disk.tally_of (disk_behind self.old)).refused (D.Disk.tally_of (disk_behind self.new)).refused
            × (e ≡ NotOpen → IsFalse (is_ready self.old))) }
        ensures known { OnOk result (IsSome (len_of self.old) → IsSome (len_of self.new)) }
        ensures steps { OnOk result ((records new : List (List ℕ)) → IsSettled D.Disk.seen D.Disk.may_leave D.Disk.is_clean self.old records → Gathers batch.now new
            → GoesBySteps D.Disk.seen (header_in self.old) (clocked_of self.old) (clocked_of self.new)) }
        ensures clean { D.Disk.is_clean (disk_behind self.new) ≡ D.Disk.is_clean (disk_behind self.old) }
        ensures usable { OnOk result (IsTrue (D.Disk.is_usable (disk_behind self.new))) }
    {
        if !self.is_open {
            return Err(JournalError::NotOpen);
        }
        let len = batch.text.len();
        if len == 0 {
            return Ok(());
        }
        if self.is_too_large(len) {
            return Err(JournalError::TooLarge);
        }
        self.is_open = false;
        let end = self.at + 8 + len;
        write_behind(&mut self.disk, note, self.at + 8, &batch.text).map_err(write_error)?;
        put(&mut self.disk, note, self.at, b"opengate").map_err(write_error)?;
        self.len = match self.len {
            Some(len) => Some(len.max(end + 8)),
            None => None,
        };
        self.at = end;
        self.is_open = true;
        Ok(())
    }

    // Whether the file would grow too long by a round of so many bytes.
    fn is_too_large(&self, len: usize) -> bool
        ensures large { IsTrue result → 2 ^ 62 ≤ self.now.at + (32 + len) }
        ensures fits { IsFalse result → self.now.at + (32 + len) < 2 ^ 62 }
    {
        self.at >= LARGEST || len >= LARGEST || self.at + 32 + len >= LARGEST
    }

    /// How many bytes the next round may have, as `Round::len` counts them, so that the file does not grow; 0 where the length of the file is not known (own).
    pub fn room(&self) -> usize
        ensures known { IfSome (len_of self.now) (λ n. result ≡ n - (gate_of self.now + 32)) }
        ensures room { 0 < result → (records : List (List ℕ)) → IsSettled D.Disk.seen D.Disk.may_leave D.Disk.is_clean self.now records → IsTrue (D.Disk.is_clean (disk_behind self.now))
            → gate_of self.now + (32 + result) ≤ length (D.Disk.seen (disk_behind self.now)) }
    {
        match self.len {
            Some(len) => len.saturating_sub(self.at).saturating_sub(32),
            None => 0,
        }
    }

    /// Makes room behind the last round for one of so many bytes, as `Round::len` counts them, and tells whether it is there. Where the file is too short it is made longer, or as long as
    /// the disk has room. What is made is written with zeros, and on the disk at `Ok` (own). There is room for what is asked then, and beyond that:
    ///
    /// - where it is known how many bytes are free on the disk, for an eighth of the file, from 4 to 64 MiB, but for no more than a quarter of what is free;
    /// - where that isn't known, for 4 MiB.
    ///
    /// False where the disk is full, or no file of this length can stand there, or it would have 2^62 bytes or more; the journal stays open.
    ///
    /// - `NotOpen`: an earlier call failed, or the journal was not read to its end. Nothing is done.
    /// - `Failed`, `Full`: another call of the disk failed. The journal is not open any more. Its file stands for the same records.
    pub fn make_room_for(
        &mut self,
        note: &B,
        bytes: usize,
        free: Option<u64>,
    ) -> Result<bool, JournalError>
        requires usable { IsTrue (D.Disk.is_usable (disk_behind self.old)) }
        ensures stays { OnOk result ((records : List (List ℕ)) → IsSettled D.Disk.seen D.Disk.may_leave D.Disk.is_clean self.old records → IsSettled D.Disk.seen D.Disk.may_leave D.Disk.is_clean self.new records) }
        ensures any_moment { (records : List (List ℕ)) → IsSettled D.Disk.seen D.Disk.may_leave D.Disk.is_clean self.old records
            → EachLeaves D.Disk.may_leave note.now (λ c. StandsFor (header_in self.old) c records) (clocked_of self.old) (clocked_of self.new) }
        ensures crash { (records : List (List ℕ)) → IsSettled D.Disk.seen D.Disk.may_leave D.Disk.is_clean self.old records → (c : List ℕ) → D.Disk.may_leave (disk_behind self.new) c → StandsFor (header_in self.old) c records }
        ensures not_open { IsFalse (is_ready self.old) → (self.new ≡ self.old) × (result ≡ Err NotOpen) }
        ensures opens { OnOk result (is_ready self.new ≡ is_ready self.old) }
        ensures closes { OnErr result (IsFalse (is_ready self.new)) }
        ensures cause { IfErr result (λ e. HasRoomCause e (D.Disk.faults (disk_behind self.old)) (D.Disk.faults (disk_behind self.new))
            × (e ≡ NotOpen → IsFalse (is_ready self.old))) }
        // There is room, or the disk has none.
        ensures room { result ≡ Ok true → (records : List (List ℕ)) → IsSettled D.Disk.seen D.Disk.may_leave D.Disk.is_clean self.old records → IsTrue (D.Disk.is_clean (disk_behind self.new))
            → gate_of self.new + (32 + bytes) ≤ length (D.Disk.seen (disk_behind self.new)) }
        ensures full { result ≡ Ok false → (records : List (List ℕ)) → IsSettled D.Disk.seen D.Disk.may_leave D.Disk.is_clean self.old records → IsTrue (D.Disk.is_clean (disk_behind self.new))
            → (2 ^ 62 ≤ gate_of self.old + (32 + bytes)) ⊎ MoreFaults (D.Disk.faults (disk_behind self.old)) (D.Disk.faults (disk_behind self.new)) }
        ensures known { result ≡ Ok true → IsSome (len_of self.new) }
        ensures steps { (records : List (List ℕ)) → IsSettled D.Disk.seen D.Disk.may_leave D.Disk.is_clean self.old records → GoesBySteps D.Disk.seen (header_in self.old) (clocked_of self.old) (clocked_of self.new) }
        ensures end { gate_of self.new ≡ gate_of self.old }
        // No more is made than this.
        ensures most { length (D.Disk.seen (disk_behind self.new)) ≤ max (length (D.Disk.seen (disk_behind self.old))) (gate_of self.old + (32 + made_room (gate_of self.old) free bytes)) }
        // No room is lost.
        ensures longer { OnOk result (length (D.Disk.seen (disk_behind self.old)) ≤ length (D.Disk.seen (disk_behind self.new))) }
        ensures header { header_in self.new ≡ header_in self.old }
        ensures clean { IsTrue (D.Disk.is_clean (disk_behind self.new)) → IsTrue (D.Disk.is_clean (disk_behind self.old)) }
        ensures usable { OnOk result (IsTrue (D.Disk.is_usable (disk_behind self.new))) }
    {
        if !self.is_open {
            return Err(JournalError::NotOpen);
        }
        if self.is_too_large(bytes) {
            return Ok(false);
        }
        let wanted = self.at + 32 + bytes;
        self.is_open = false;
        let mut len = self.measure(note).map_err(JournalError::Failed)?;
        if len < wanted {
            let room = bytes.max(spare_room(self.at, free));
            len = self.grow(note, len, self.at + 32 + room)?;
        }
        self.is_open = true;
        Ok(len >= wanted)
    }

    /// Writes a zero byte behind the gate that is shut, or none where the disk is full, and has all on the disk at `Ok`: so it tells whether the file may still be written. It changes no
    /// record, since nothing behind that gate is read (own).
    ///
    /// - `NotOpen`: an earlier call failed, or the journal was not read to its end. Nothing is done.
    /// - `TooLarge`: the file would have 2^62 bytes or more. Nothing is done.
    /// - `Failed`, `Full`: a call of the disk failed. The journal is not open any more. Its file stands for the same records.
    pub fn touch(&mut self, note: &B) -> Result<(), JournalError>
        requires usable { IsTrue (D.Disk.is_usable (disk_behind self.old)) }
        ensures stays { OnOk result ((records : List (List ℕ)) → IsSettled D.Disk.seen D.Disk.may_leave D.Disk.is_clean self.old records → IsSettled D.Disk.seen D.Disk.may_leave D.Disk.is_clean self.new records) }
        ensures any_moment { (records : List (List ℕ)) → IsSettled D.Disk.seen D.Disk.may_leave D.Disk.is_clean self.old records
            → EachLeaves D.Disk.may_leave note.now (λ c. StandsFor (header_in self.old) c records) (clocked_of self.old) (clocked_of self.new) }
        ensures crash { (records : List (List ℕ)) → IsSettled D.Disk.seen D.Disk.may_leave D.Disk.is_clean self.old records → (c : List ℕ) → D.Disk.may_leave (disk_behind self.new) c → StandsFor (header_in self.old) c records }
        // Whatever stood there before, all that is seen is on the disk.
        ensures synced { OnOk result (Only (D.Disk.seen (disk_behind self.new)) (D.Disk.may_leave (disk_behind self.new))) }
        ensures not_open { IsFalse (is_ready self.old) → (self.new ≡ self.old) × (result ≡ Err NotOpen) }
        ensures large { result ≡ Err TooLarge → (self.new ≡ self.old) × (2 ^ 62 ≤ gate_of self.old + 33) }
        ensures opens { OnOk result (is_ready self.new ≡ is_ready self.old) }
        ensures closes { IfErr result (λ e. e ≢ TooLarge → IsFalse (is_ready self.new)) }
        ensures cause { IfErr result (λ e. HasTouchCause e (D.Disk.faults (disk_behind self.old)) (D.Disk.faults (disk_behind self.new))
            × (e ≡ NotOpen → IsFalse (is_ready self.old))) }
        ensures steps { (records : List (List ℕ)) → IsSettled D.Disk.seen D.Disk.may_leave D.Disk.is_clean self.old records → GoesBySteps D.Disk.seen (header_in self.old) (clocked_of self.old) (clocked_of self.new) }
        ensures end { gate_of self.new ≡ gate_of self.old }
        ensures header { header_in self.new ≡ header_in self.old }
        ensures clean { IsTrue (D.Disk.is_clean (disk_behind self.new)) → IsTrue (D.Disk.is_clean (disk_behind self.old)) }
        ensures usable { OnOk result (IsTrue (D.Disk.is_usable (disk_behind self.new))) }
    {
        if !self.is_open {
            return Err(JournalError::NotOpen);
        }
        if self.is_too_large(1) {
            return Err(JournalError::TooLarge);
        }
        self.is_open = false;
        let _len = self.grow(note, 0, self.at + 9)?;
        self.is_open = true;
        Ok(())
    }

    // Makes the file so long, or as long as the disk has room. How long it is.
    fn grow(&mut self, note: &B, len: usize, to: usize) -> Result<usize, JournalError>
        requires usable { IsTrue (D.Disk.is_usable (disk_behind self.old)) }
        requires longer { (len < to) × (gate_of self.old + 8 < to) × (to < 2 ^ 64) }
        ensures grows { Grows D.Disk.seen D.Disk.may_leave note.now self.old self.new }
        ensures durable { OnOk result (Only (D.Disk.seen (disk_behind self.new)) (D.Disk.may_leave (disk_behind self.new))) }
        ensures knows { IfOk result (λ n. (self.new.len ≡ Some n) × KnowsLength D.Disk.seen D.Disk.is_clean self.new) }
        ensures full { IfOk result (λ n. IsTrue (D.Disk.is_clean (disk_behind self.new)) → (to ≤ n)
            ⊎ MoreFaults (D.Disk.faults (disk_behind self.old)) (D.Disk.faults (disk_behind self.new))) }
        ensures most { length (D.Disk.seen (disk_behind self.new)) ≤ max (length (D.Disk.seen (disk_behind self.old))) to }
        ensures fails { IfErr result (λ e. HasRoomCause e (D.Disk.faults (disk_behind self.old)) (D.Disk.faults (disk_behind self.new)) × (e ≢ NotOpen)) }
        ensures clean { IsTrue (D.Disk.is_clean (disk_behind self.new)) → IsTrue (D.Disk.is_clean (disk_behind self.old)) }
        ensures usable { OnOk result (IsTrue (D.Disk.is_usable (disk_behind self.new))) }
    {
        let from = len.max(self.at + 8);
        self.len = None;
        lengthen(&mut self.disk, note, from, to).map_err(write_error)?;
        self.measure(note).map_err(JournalError::Failed)
    }
}

// How much room is made where no more is asked for, in a file whose last round ends there, on a disk that has so many bytes free.
fn spare_room(gate: usize, free: Option<u64>) -> usize
    ensures { result ≡ spare_room gate free }
{
    match free {
        Some(free) => ((free / 4) as usize).min(MOST.min(gate / 8).max(ROOM)),
        None => ROOM,
    }
}
