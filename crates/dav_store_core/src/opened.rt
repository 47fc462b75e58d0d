//! Stores that records stand for, one record after another, and those of the snapshot in front.
ghost use Rattle.std.specs.Prelude.{◌≡◌, ◌≢◌, ℕ, None, Ok, Err, map, IfErr, IfOk, IfSome, OnOk};
ghost use Rattle.journal_core.specs.declared.error.JournalError.TheVariants.{OutOfMemory};
ghost use Rattle.dav_notes_core.specs.Noting.{note_of};
ghost use Rattle.dav_guarded_core.specs.Stores.{Stores, start_stores};
ghost use Rattle.dav_snapshots_core.specs.SnapshotReading.{snapshot_at};
ghost use Rattle.dav_store_core.specs.declared.error.StoreError.TheVariants.{Journal};
ghost use Rattle.dav_store_core.specs.StandingFor.{Keeps, NeverBack, last_moment_of};

use crate::error::StoreError;
use dav_effects_core::{RecordError, read};
use dav_guarded_core::fs::Moment;
use dav_guarded_core::guarded::Guarded;
use dav_notes_core::notes::Note;
use dav_notes_core::playing::{PlayError, play_again};
use dav_snapshots_core::read as read_snapshot;
use journal_core::JournalError;
use std::alloc::Global;

/// Stores that a journal keeps (own).
#[derive(Drop)]
pub struct Opened {
    /// The stores as they were behind the last record.
    pub stores: Guarded,
    /// The moment of the last change; where there is none, that at which they began.
    pub last: Moment,
}

/// Why a record is not taken.
#[derive(Drop)]
pub(crate) enum Setback {
    Memory,
    Damage,
}

/// A root folder alone, made at that moment.
pub(crate) fn new_stores(alloc: Global, began: Moment) -> Result<Opened, StoreError>
    ensures stores { IfOk result (λ o. o.stores ≡ start_stores began.0) }
    ensures last { IfOk result (λ o. o.last ≡ began) }
    ensures err { IfErr result (λ e. e ≡ Journal OutOfMemory) }
{
    let Ok(stores) = Guarded::new(alloc, began) else {
        return Err(StoreError::Journal(JournalError::OutOfMemory));
    };
    Ok(Opened {
        stores,
        last: began,
    })
}

/// The stores of a snapshot, at its moment.
pub(crate) fn take_snapshot(alloc: Global, bytes: &[u8]) -> Result<Opened, Setback>
    ensures ok { IfOk result (λ o. snapshot_at bytes.now ≡ Ok (o.stores, o.last.0)) }
    ensures damaged { result ≡ Err Setback.Damage → (s : Stores) (last : ℕ)
        → snapshot_at bytes.now ≢ Ok (s, last) }
{
    match read_snapshot(alloc, bytes) {
        Ok((stores, last)) => Ok(Opened { stores, last }),
        Err(RecordError::OutOfMemory) => Err(Setback::Memory),
        Err(RecordError::Damaged { .. }) => Err(Setback::Damage),
    }
}

/// Plays what a record notes behind the records before.
pub(crate) fn take_record(alloc: Global, opened: &mut Opened, bytes: &[u8]) -> Result<(), Setback>
    ensures ok { OnOk result (Keeps opened.old.stores opened.old.last.0 bytes.now opened.new.stores
        opened.new.last.0) }
    ensures damaged { result ≡ Err Setback.Damage → (s : Stores) (last : ℕ)
        → ¬ (Keeps opened.old.stores opened.old.last.0 bytes.now s last) }
{
    let notes = match read(alloc, bytes) {
        Ok(notes) => notes,
        Err(RecordError::OutOfMemory) => return Err(Setback::Memory),
        Err(RecordError::Damaged { .. }) => return Err(Setback::Damage),
    };
    let Some(last) = last_moment(&notes, opened.last) else {
        return Err(Setback::Damage);
    };
    match play_again(&mut opened.stores, &notes) {
        Ok(()) => {}
        Err(PlayError::OutOfMemory) => return Err(Setback::Memory),
        Err(PlayError::Damaged(_)) => return Err(Setback::Damage),
    }
    opened.last = last;
    Ok(())
}

// The moment of the last note; none where one is of a moment before that in front of it.
fn last_moment(notes: &[Note], before: Moment) -> Option<Moment>
    ensures some { IfSome result (λ last. NeverBack before.0 (map note_of notes.now)
        × (last.0 ≡ last_moment_of before.0 (map note_of notes.now))) }
    ensures none { result ≡ None → ¬ (NeverBack before.0 (map note_of notes.now)) }
{
    let mut last = before;
    'looking: for note in notes {
        if note.request.now.0 < last.0 {
            return None;
        }
        last = note.request.now;
    }
    Some(last)
}
