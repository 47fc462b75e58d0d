//! Notes that are played again, in order.
ghost use Rattle.std.specs.Prelude.{◌≡◌, ℕ, ◌≤◌, List, map, IfErr, IfNone, IfSome, MatchResult, OnOk, Some};
ghost use Rattle.rand_core.specs.Stream.{Stream};
ghost use Rattle.dav_guarded_core.specs.Served.{answer_of, command_of, refusal_of};
ghost use Rattle.dav_guarded_core.specs.Stores.{Stores};
ghost use Rattle.dav_notes_core.specs.Changes.{lacks_memory};
ghost use Rattle.dav_notes_core.specs.Drawing.{stream_giving};
ghost use Rattle.dav_notes_core.specs.Noting.{note_of};
ghost use Rattle.dav_notes_core.specs.PlayedNotes.{NotesLead, NotesPlayed, NotePlayed, StopsBy};
ghost use Rattle.dav_notes_core.specs.Private.Setbacks.{HoldsUp, setback_by};
ghost use Rattle.dav_notes_core.specs.Stepping.{Draws, SameLiveStores};

use crate::notes::{Note, apply_given, is_grant};
use dav_guarded_core::errors::FsError;
use dav_guarded_core::guarded::{Guarded, Refusal};

/// Why notes were not played to their end (own).
#[derive(Drop)]
pub enum PlayError {
    /// There was no memory for one of them. Those before it are done.
    OutOfMemory,
    /// The note with that number, counted from 0, cannot be done, with any memory. Those before it
    /// are done.
    Damaged(usize),
}

// Why one note was not played.
#[derive(Drop)]
enum Setback {
    Memory,
    Damage,
}

/// Plays notes, in order (own). The stores that they lead to are those that the notes were taken
/// of, but for locks that have expired.
///
/// - `OutOfMemory`: there was no memory for one of them.
/// - `Damaged`: one cannot be done, with any memory.
pub fn play_again(stores: &mut Guarded, notes: &[Note]) -> Result<(), PlayError>
    // Each note is answered Ok.
    ensures played { OnOk result (NotesPlayed stores.old (map note_of notes.now) stores.new) }
    // The notes in front of the one that it stops at are. For that one there was no memory, or it
    // cannot be answered Ok.
    ensures stops { IfErr result (StopsBy stores.old (map note_of notes.now) stores.new) }
    // Where each can be answered Ok, they are, or there is no memory.
    ensures sure { (s' : Stores) → NotesPlayed stores.old (map note_of notes.now) s'
        → MatchResult result (λ _. stores.new ≡ s') (λ e. e ≡ PlayError.OutOfMemory) }
    // Notes that lead from one to another lead there again from what is the same but for locks that
    // have expired.
    ensures again { (from now : ℕ) (s t : Stores) → SameLiveStores from s stores.old
        → NotesLead from s (map note_of notes.now) now t
        → MatchResult result (λ _. SameLiveStores now t stores.new)
        (λ e. e ≡ PlayError.OutOfMemory) }
{
    play_all(stores, notes)
}

// The loop of `play_again`.
fn play_all(stores: &mut Guarded, notes: &[Note]) -> Result<(), PlayError>
    ensures played { OnOk result (NotesPlayed stores.old (map note_of notes.now) stores.new) }
    ensures stops { IfErr result (StopsBy stores.old (map note_of notes.now) stores.new) }
{
    let mut number: usize = 0;
    for note in notes {
        match play_one(stores, note) {
            Ok(()) => {}
            Err(Setback::Memory) => return Err(PlayError::OutOfMemory),
            Err(Setback::Damage) => return Err(PlayError::Damaged(number)),
        }
        number += 1;
    }
    Ok(())
}

// Plays one note.
fn play_one(stores: &mut Guarded, note: &Note) -> Result<(), Setback>
    ensures played { OnOk result (NotePlayed stores.old (note_of note.now) stores.new) }
    ensures held_up { IfErr result (HoldsUp stores.old (note_of note.now) stores.new) }
{
    let Some(bytes) = bytes_for(note) else {
        return Err(Setback::Damage);
    };
    match apply_given(stores, &note.request, bytes) {
        Ok(_reply) => Ok(()),
        Err(refusal) => Err(setback_of(&refusal)),
    }
}

// What a generator is to give for the note; none where a granted lock lacks its bytes.
fn bytes_for(note: &Note) -> Option<[u8; 16]>
    ensures some { IfSome result (λ bytes. Draws (command_of note.now.request.command)
        note.now.drawn (stream_giving bytes)) }
    ensures none { IfNone result ((stream : Stream)
        → ¬ Draws (command_of note.now.request.command) note.now.drawn stream) }
{
    match note.drawn {
        Some(bytes) => Some(bytes),
        None => {
            if is_grant(&note.request.command) {
                return None;
            }
            Some([0; 16])
        }
    }
}

// Whether another try may succeed.
fn setback_of(refusal: &Refusal) -> Setback
    ensures { result ≡ setback_by (lacks_memory (refusal_of refusal.now)) }
{
    match refusal {
        Refusal::OutOfMemory | Refusal::Fs(FsError::InsufficientStorage) => Setback::Memory,
        _ => Setback::Damage,
    }
}
