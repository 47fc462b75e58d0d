//! The notes of what the last call changed.
ghost use Rattle.std.specs.Prelude.{◌≡◌, [], map};
ghost use Rattle.dav_notes_core.specs.Noting.{AreChanges, note_of};
ghost use Rattle.dav_kept_core.specs.ChangeProps.{changes_prop};

use dav_notes_core::notes::Note;
use std::alloc::Global;

/// Notes, each of a change.
#[derive(Drop)]
pub(crate) struct LastNotes {
    pub(crate) notes: Vec<Note>,
    ghost changes: { AreChanges (map note_of notes.items) } by { changes_prop (map note_of notes.items) },
}

impl LastNotes {
    /// None.
    pub(crate) fn none(alloc: Global) -> LastNotes
        ensures { result.notes.items ≡ [] }
    {
        LastNotes {
            notes: Vec::new(alloc),
        }
    }

    /// These.
    pub(crate) fn of(notes: Vec<Note>) -> LastNotes
        requires changes { AreChanges (map note_of notes.items) }
        ensures notes { result.notes ≡ notes }
    {
        LastNotes { notes }
    }
}
