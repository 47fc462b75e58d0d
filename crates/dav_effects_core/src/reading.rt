//! Records that are read.
ghost use Rattle.std.specs.Prelude.{◌≡◌, ◌≤◌, List, drop, length, map, IfErr, IfOk, MatchResult};
ghost use Rattle.dav_guarded_core.specs.Served.{command_of};
ghost use Rattle.dav_notes_core.specs.Noting.{AreChanges, Noted, note_of};
ghost use Rattle.dav_effects_core.specs.Reads.{ReadsField};
ghost use Rattle.dav_effects_core.specs.RecordFaults.{IsFault, ReadsRecord};
ghost use Rattle.dav_effects_core.specs.RecordReading.{behind_of, head_at, note_at, notes_at, record_at, start_behind};
ghost use Rattle.dav_effects_core.specs.RecordText.{asker, body_of, caller_text, path_behind};
ghost use Rattle.dav_effects_core.specs.Records.{IsRecord};

use crate::callers::read_sender;
use crate::commands::read_command;
use crate::error::{ReadError, RecordError, record_error};
use crate::fields::{counted_of, drawn_of, number_of};
use dav_guarded_core::guarded::Command;
use dav_notes_core::notes::Note;
use dav_notes_core::senders::request_by;
use std::alloc::Global;

/// Reads a record (own). What is read could have been written so, and what is written is read as the same.
///
/// `OutOfMemory` where there is no memory; `Damaged` with the byte at which the first field stands that is none.
pub fn read(alloc: Global, bytes: &[u8]) -> Result<Vec<Note>, RecordError>
    // What is read is a record of it.
    ensures found { IfOk result (λ notes. IsRecord (map note_of notes.items) bytes.now) }
    // Each note that is read is of a change.
    ensures changes { IfOk result (λ notes. AreChanges (map note_of notes.items)) }
    // A record is read as what it is of, unless memory runs out.
    ensures only { (ns : List Noted) → IsRecord ns bytes.now
        → MatchResult result (λ notes. map note_of notes.items ≡ ns) (λ e. e ≡ RecordError.OutOfMemory) }
    // Which fault it is.
    ensures fault { IfErr result (λ e. IsFault e (record_at bytes.now)) }
{
    read_all(alloc, bytes)
}

#[tactic(auto, unfolding(crate::specs::RecordReading::record_at))]
fn read_all(alloc: Global, bytes: &[u8]) -> Result<Vec<Note>, RecordError>
    ensures { ReadsRecord result (record_at bytes.now) }
{
    let (head, bodies) = match counted_of(bytes) {
        Ok(parts) => parts,
        Err(error) => return Err(record_error(error, bytes.len())),
    };
    let end = bytes.len().saturating_sub(bodies.len());
    let (notes, left) = match read_head(alloc, bodies, head) {
        Ok(found) => found,
        Err(error) => return Err(record_error(error, end)),
    };
    if !left.is_empty() {
        let at = bytes.len().saturating_sub(left.len());
        return Err(RecordError::Damaged { at });
    }
    Ok(notes)
}

// The notes of a head, and the bodies that are left.
#[tactic(auto, unfolding(crate::specs::RecordReading::head_at))]
fn read_head<'a>(
    alloc: Global,
    bodies: &'a [u8],
    head: &[u8],
) -> Result<(Vec<Note>, &'a [u8]), ReadError>
    ensures { ReadsField (λ x. (map note_of x.0.items, x.1.now)) result (head_at bodies.now head.now) }
{
    let (count, rest) = number_of(head)?;
    let (notes, bodies, rest) = read_notes(alloc, count, bodies, rest)?;
    if !rest.is_empty() {
        return Err(ReadError::Fault(rest.len()));
    }
    Ok((notes, bodies))
}

// So many notes, the bodies that are left, and the bytes behind the notes.
fn read_notes<'a, 'b>(
    alloc: Global,
    count: u64,
    bodies: &'a [u8],
    bytes: &'b [u8],
) -> Result<(Vec<Note>, &'a [u8], &'b [u8]), ReadError>
    ensures { ReadsField (λ x. ((map note_of x.0.items, x.1.now), x.2.now)) result
        (notes_at count (start_behind bodies.now) bytes.now) }
{
    let mut notes = Vec::new(alloc);
    let mut caller = Vec::new(alloc);
    let mut path = Vec::new(alloc);
    let mut bodies = bodies;
    let mut rest = bytes;
    'reading: for _ in 0..count {
        let (note, behind) = read_note(alloc, &mut caller, &mut path, bodies, rest)?;
        bodies = without_body(bodies, &note.request.command);
        notes.push(note)?;
        rest = behind;
    }
    Ok((notes, bodies, rest))
}

// How many bytes the body of the command has.
fn body_len(command: &Command) -> usize
    ensures { result ≡ length (body_of (command_of command.now)) }
{
    match command {
        Command::Put { bytes, .. } => return bytes.len(),
        Command::Write { bytes, .. } => return bytes.len(),
        _ => return 0,
    }
}

// The bodies that are left behind that of the command.
fn without_body<'a>(bodies: &'a [u8], command: &Command) -> &'a [u8]
    requires { length (body_of (command_of command.now)) ≤ length bodies.now }
    ensures { result.now ≡ drop (length (body_of (command_of command.now))) bodies.now }
{
    let (_body, left) = bodies.split_at(body_len(command));
    left
}

// A note, whose caller and path take the places of those before.
#[tactic(auto, unfolding(crate::specs::RecordReading::note_at))]
fn read_note<'a>(
    alloc: Global,
    caller: &mut Vec<u8>,
    path: &mut Vec<u8>,
    bodies: &[u8],
    bytes: &'a [u8],
) -> Result<(Note, &'a [u8]), ReadError>
    ensures reads { ReadsField (λ x. (note_of x.0, x.1.now)) result
        (note_at (behind_of caller.old.items path.old.items bodies.now) bytes.now) }
    ensures caller { IfOk result (λ x. caller.new.items ≡ caller_text (asker (note_of x.0).request)) }
    ensures path { IfOk result (λ x. path.new.items ≡ path_behind path.old.items (note_of x.0).request.command) }
    ensures within { IfOk result (λ x. length (body_of (note_of x.0).request.command) ≤ length bodies.now) }
{
    let (who, rest) = read_sender(alloc, caller, bytes)?;
    let (drawn, rest) = drawn_of(rest)?;
    let (command, rest) = read_command(alloc, path, bodies, rest)?;
    let request = request_by(who, command);
    Ok((Note { request, drawn }, rest))
}
