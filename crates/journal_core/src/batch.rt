//! Rounds one behind another, before they are appended at once.
ghost use Rattle.std.specs.Prelude.{◌≡◌, ◌⊎◌, ◌+◌, ◌≤◌, ◌<◌, ◌^◌, ◌++◌, [], List, ℕ, None, OnErr, OnOk, IfErr, IfSome, length, take};
ghost use Rattle.journal_core.specs.Format.{records_text};
ghost use Rattle.journal_core.specs.Batches.{FitsBehind, Gathers, IsNextGate, bytes_gathered, place_for};
ghost use Rattle.journal_core.specs.Private.Stages.{JoinsRound};
ghost use Rattle.journal_core.specs.declared.error.JournalError.TheVariants.{OutOfMemory, TooLarge};

use crate::error::JournalError;
use crate::journal::{Journal, LARGEST};
use crate::sum::sum_at;
use sqlite_disk::Disk;
use std::alloc::{AllocError, Global};

/// Rounds one behind another, which a journal appends at once (own). They are in memory, with their sums, as they are to stand behind one gate.
#[derive(Drop)]
pub struct Batch {
    pub(crate) key: u64,
    pub(crate) gate: usize,
    pub(crate) text: Vec<u8>,
}

impl Batch {
    /// No round yet, behind the gate of a journal that is shut (own).
    pub fn behind<D: Disk, B>(alloc: Global, journal: &Journal<D, B>) -> Batch
        ensures none { Gathers result [] }
        ensures fits { FitsBehind result journal.now }
    {
        Batch {
            key: journal.header.key,
            gate: journal.at,
            text: Vec::new(alloc),
        }
    }

    /// Adds a round of the records whose bytes these are, one behind another; none where there is no byte (own). At `Err` the rounds are those from before.
    ///
    /// - `TooLarge`: the file would have 2^62 bytes or more.
    /// - `OutOfMemory`: there is no memory for it.
    pub fn add(&mut self, records: &[u8]) -> Result<(), JournalError>
        ensures adds { OnOk result ((done new : List (List ℕ)) → Gathers self.old done → records.now ≡ records_text new → Gathers self.new (done ++ new)) }
        ensures stays { OnErr result ((done : List (List ℕ)) → Gathers self.old done → Gathers self.new done) }
        ensures place { place_for self.new ≡ place_for self.old }
        ensures cause { IfErr result (λ e. ((e ≡ TooLarge) × (2 ^ 62 ≤ (place_for self.old).1 + (bytes_gathered self.old + (40 + length records.now)))) ⊎ (e ≡ OutOfMemory)) }
    {
        if records.is_empty() {
            return Ok(());
        }
        let Some(place) = self.next_gate(records.len()) else {
            return Err(JournalError::TooLarge);
        };
        let before = self.text.len();
        if let Err(error) = self.join(place, records) {
            self.text.truncate(before);
            return Err(JournalError::from(error));
        }
        Ok(())
    }

    // Where the gate of one more round is, of so many bytes; none where the file would have 2^62 bytes or more.
    fn next_gate(&self, len: usize) -> Option<usize>
        ensures some { IfSome result (λ place. IsNextGate self.now place × (place + (32 + len) < 2 ^ 62)) }
        ensures none { result ≡ None → 2 ^ 62 ≤ (place_for self.now).1 + (bytes_gathered self.now + (40 + len)) }
    {
        let own = match self.text.len() {
            0 => 0,
            len => len.saturating_add(8),
        };
        let place = self.gate.saturating_add(own);
        if place.saturating_add(len).saturating_add(32) >= LARGEST {
            return None;
        }
        Some(place)
    }

    // Adds the text of a round, whose gate is at this place; at `Err` some of it may stand at the end.
    fn join(&mut self, place: usize, records: &[u8]) -> Result<(), AllocError>
        ensures joins { OnOk result (JoinsRound place records.now self.old self.new) }
        ensures fails { OnErr result (take (length self.old.text.items) self.new.text.items ≡ self.old.text.items) }
        ensures place { place_for self.new ≡ place_for self.old }
    {
        let sum = sum_at(self.key, place, records);
        if !self.text.is_empty() {
            self.text.extend_from_slice(b"opengate")?;
        }
        self.text
            .extend_from_slice(&(records.len() as u64).to_le_bytes())?;
        self.text.extend_from_slice(&sum.to_le_bytes())?;
        self.text.extend_from_slice(records)
    }
}
