//! A record in pieces, as it is written.
ghost use Rattle.std.specs.Prelude.{◌≡◌, ◌≤◌, ◌+◌, ◌++◌, [], false, length, map, IfOk, OnOk};
ghost use Rattle.std.specs.List.{AllByRecursion, flat_map};
ghost use Rattle.dav_guarded_core.specs.Served.{command_of, request_of};
ghost use Rattle.dav_notes_core.specs.Changes.{is_look};
ghost use Rattle.dav_notes_core.specs.Costs.{notes_cost};
ghost use Rattle.dav_notes_core.specs.Noting.{AreChanges, note_of};
ghost use Rattle.dav_effects_core.specs.ByteForms.{FitsInEight, HasCount, counted_text};
ghost use Rattle.dav_effects_core.specs.RecordText.{asker, bodies_text, body_of, caller_text, head_text, note_text, notes_text, path_behind};
ghost use Rattle.dav_effects_core.specs.Records.{IsNoted, IsRecord, bytes_of_pieces};

use crate::callers::put_caller;
use crate::changes::put_command;
use crate::putting::{put_counted, put_drawn, put_number};
use bytes::Bytes;
use dav_guarded_core::guarded::Command;
use dav_notes_core::notes::Note;
use std::alloc::{AllocError, Global};

/// A record, in the order in which its bytes stand (own).
#[derive(Drop)]
pub struct Pieces {
    /// All of it but the bodies.
    pub head: Vec<u8>,
    /// The bodies, shared with the notes that have them.
    pub bodies: Vec<Bytes>,
}

/// Writes the record of notes, each of a change (own). It has at most 16 bytes more than the notes cost. Bodies are shared and not copied. `AllocError` where there is no memory for it.
pub fn write(alloc: Global, notes: &[Note]) -> Result<Pieces, AllocError>
    requires changes { AreChanges (map note_of notes.now) }
    ensures record { IfOk result (λ pieces. IsRecord (map note_of notes.now) (bytes_of_pieces pieces)) }
    ensures within { IfOk result (λ pieces. length (bytes_of_pieces pieces) ≤ notes_cost (map note_of notes.now) + 16) }
{
    let head = head_of(alloc, notes)?;
    let bodies = bodies_of(alloc, notes)?;
    Ok(Pieces { head, bodies })
}

// How long the head is, and the head.
fn head_of(alloc: Global, notes: &[Note]) -> Result<Vec<u8>, AllocError>
    requires changes { AreChanges (map note_of notes.now) }
    ensures text { IfOk result (λ head. head.items ≡ counted_text (head_text (map note_of notes.now))) }
    ensures few { OnOk result (FitsInEight (length (map note_of notes.now))) }
    ensures short { OnOk result (HasCount (head_text (map note_of notes.now))) }
    ensures fits { OnOk result (AllByRecursion IsNoted (map note_of notes.now)) }
{
    let mut text = Vec::new(alloc);
    put_number(&mut text, notes.len() as u64)?;
    put_notes(alloc, &mut text, notes)?;
    let mut head = Vec::new(alloc);
    put_counted(&mut head, &text)?;
    Ok(head)
}

// Each note behind the one before.
fn put_notes(alloc: Global, out: &mut Vec<u8>, notes: &[Note]) -> Result<(), AllocError>
    requires changes { AreChanges (map note_of notes.now) }
    ensures text { OnOk result (out.new.items ≡ out.old.items ++ notes_text [] [] (map note_of notes.now)) }
    ensures fits { OnOk result (AllByRecursion IsNoted (map note_of notes.now)) }
{
    let mut caller = Vec::new(alloc);
    let mut path = Vec::new(alloc);
    'putting: for note in notes {
        put_note(alloc, out, &mut caller, &mut path, note)?;
    }
    Ok(())
}

// A note, whose caller and path take the places of those before.
#[tactic(auto, unfolding(crate::specs::RecordText::note_text))]
fn put_note(
    alloc: Global,
    out: &mut Vec<u8>,
    caller: &mut Vec<u8>,
    path: &mut Vec<u8>,
    note: &Note,
) -> Result<(), AllocError>
    requires change { is_look (note_of note.now).request.command ≡ false }
    ensures text { OnOk result (out.new.items
        ≡ out.old.items ++ note_text caller.old.items path.old.items (note_of note.now)) }
    ensures caller { OnOk result (caller.new.items ≡ caller_text (asker (note_of note.now).request)) }
    ensures path { OnOk result (path.new.items ≡ path_behind path.old.items (note_of note.now).request.command) }
    ensures fits { OnOk result (IsNoted (note_of note.now)) }
{
    put_caller(alloc, out, caller, &note.request)?;
    put_drawn(out, note.drawn)?;
    put_command(alloc, out, path, &note.request.command)
}

// The bodies, in order.
fn bodies_of(alloc: Global, notes: &[Note]) -> Result<Vec<Bytes>, AllocError>
    ensures { IfOk result (λ bodies. flat_map (λ b. b) bodies.items ≡ bodies_text (map note_of notes.now)) }
{
    let mut bodies = Vec::new(alloc);
    'adding: for note in notes {
        add_body(&mut bodies, &note.request.command)?;
    }
    Ok(bodies)
}

// The body of the command, where it has one.
fn add_body(bodies: &mut Vec<Bytes>, command: &Command) -> Result<(), AllocError>
    ensures { OnOk result (flat_map (λ b. b) bodies.new.items
        ≡ flat_map (λ b. b) bodies.old.items ++ body_of (command_of command.now)) }
{
    match command {
        Command::Put { bytes, .. } => return push_body(bodies, bytes),
        Command::Write { bytes, .. } => return push_body(bodies, bytes),
        _ => return Ok(()),
    }
}

fn push_body(bodies: &mut Vec<Bytes>, body: &Bytes) -> Result<(), AllocError>
    ensures { OnOk result (flat_map (λ b. b) bodies.new.items ≡ flat_map (λ b. b) bodies.old.items ++ body.now) }
{
    let body = body.clone()?;
    bodies.push(body)?;
    Ok(())
}
