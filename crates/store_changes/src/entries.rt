//! A file or a folder that is imported, and what is noted of it.
ghost use Rattle.std.specs.Prelude.{◌≡◌, map, IfOk};
ghost use Rattle.dav_path_core.specs.Segments.{segments};
ghost use Rattle.dav_files_core.specs.Properties.{property_of};
ghost use Rattle.dav_guarded_core.specs.Served.{command_of};
ghost use Rattle.dav_notes_core.specs.Noting.{note_of};
ghost use Rattle.store_changes.specs.ImportedEntries.{dating, making, notes_for, source_of, unnamed_note};

use crate::properties::time_property;
use bytes::Bytes;
use dav_guarded_core::fs::Moment;
use dav_guarded_core::guarded::{Command, Request};
use dav_notes_core::notes::Note;
use dav_path_core::davpath::DavPath;
use std::alloc::{AllocError, Global};

/// A file or a folder that is imported (own).
#[derive(Drop)]
pub struct Entry {
    /// Where it is to stand.
    pub path: DavPath,
    /// The bytes of a file; none for a folder.
    pub content: Option<Bytes>,
    /// Its time in the source, where there is one.
    pub modified: Option<Moment>,
}

/// What is noted of an entry that is made at this moment. `AllocError` where there is no memory for it.
pub(crate) fn notes_of(alloc: Global, entry: &Entry, now: Moment) -> Result<Vec<Note>, AllocError>
    ensures { IfOk result (λ notes. map note_of notes.items ≡ notes_for now.0 (source_of entry.now)) }
{
    let mut notes = Vec::new(alloc);
    notes.push(unnamed_note(alloc, now, made(entry)?))?;
    if let Some(modified) = entry.modified {
        let patch = vec![in alloc; (true, time_property(alloc, modified)?)]?;
        let path = entry.path.clone()?;
        notes.push(unnamed_note(alloc, now, Command::PatchProps { path, patch }))?;
    }
    Ok(notes)
}

// What makes it.
fn made(entry: &Entry) -> Result<Command, AllocError>
    ensures { IfOk result (λ command. command_of command ≡ making (segments entry.now.path.bytes) entry.now.content) }
{
    let path = entry.path.clone()?;
    match &entry.content {
        Some(bytes) => Ok(Command::Put {
            path,
            bytes: bytes.clone()?,
        }),
        None => Ok(Command::MkCol { path }),
    }
}

// The note of nobody's request.
fn unnamed_note(alloc: Global, now: Moment, command: Command) -> Note
    ensures { note_of result ≡ unnamed_note now.0 (command_of command) }
{
    let request = Request {
        principal: None,
        tokens: Vec::new(alloc),
        now,
        command,
    };
    Note {
        request,
        drawn: None,
    }
}
