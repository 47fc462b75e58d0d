//! A lock is ended by whoever may write the file of the stores.
ghost use Rattle.std.specs.Prelude.{◌≡◌, [], ◌∷◌, ◌++◌, ℕ, List, false, true, map, IfOk, MatchOption, OnErr, OnOk};
ghost use Rattle.dav_path_core.specs.Segments.{segments};
ghost use Rattle.journal_core.specs.Resting.{Carries};
ghost use Rattle.dav_locks_core.specs.Locks.{lock_path};
ghost use Rattle.dav_locks_core.specs.Stale.{is_stale};
ghost use Rattle.rand_core.specs.Stream.{Stream};
ghost use Rattle.dav_guarded_core.specs.Served.{command_of};
ghost use Rattle.dav_notes_core.specs.Noting.{note_of};
ghost use Rattle.dav_notes_core.specs.Stepping.{Draws};
ghost use Rattle.dav_notes_core.specs.PlayedNotes.{NotePlayed};
ghost use Rattle.store_changes.specs.EndedLocks.{AnswersEnding, EndsStanding, IsEnded, ending_note};
ghost use Rattle.store_changes.specs.EndedLocks.{is_found_at, is_live_with, stands_with};
ghost use Rattle.store_changes.specs.ImportedEntries.{moment_behind};
ghost use Rattle.store_changes.specs.declared.ending.Unended.TheVariants as why;

use crate::adding::{make, moment_behind};
use dav_effects_core::write;
use dav_guarded_core::fs::Moment;
use dav_guarded_core::guarded::{Command, Guarded, Request};
use dav_locks_core::ls::DavLock;
use dav_notes_core::notes::Note;
use dav_store_core::{Opened, add_record};
use journal_core::Round;
use std::alloc::{AllocError, Global};

// It stands beside the lock's own token, and tells that no client has asked for it.
const OPERATOR: &str = "urn:dav-resource-core:operator";

/// Why a lock is not ended (own).
#[derive(Clone, Copy)]
pub enum Unended {
    /// There is no lock with the token, or its moment has come.
    NoLock,
    /// No moment comes behind the last one.
    NoMoment,
    /// There is no memory for it. The stores may have lost the lock, and have no record of that: they are to be let go.
    OutOfMemory,
}

impl From<AllocError> for Unended {
    ghost from_gives = { λ _ e. e ≡ why.OutOfMemory };

    fn from(_error: AllocError) -> Unended {
        Unended::OutOfMemory
    }
}

/// Ends the lock with this token, and adds its record to the round (own). The request is that of the lock's principal, and names a token of its own beside the lock's, by which the record is told from a client's.
///
/// - `NoMoment`: the last moment is the greatest.
/// - `NoLock`: there is none, or it has expired at the moment that comes behind.
/// - `OutOfMemory`: there is one, and no memory for it.
pub fn end_lock(
    alloc: Global,
    opened: &mut Opened,
    round: &mut Round,
    token: &str,
    clock: Moment,
) -> Result<(), Unended>
    ensures ended { OnOk result (IsEnded opened.old.stores opened.old.last.0 clock.0 token.now opened.new.stores opened.new.last.0
        (λ bytes. (records : List (List ℕ)) → Carries round.old records → Carries round.new (records ++ bytes ∷ []))) }
    // At an error the round is as it was.
    ensures round { OnErr result ((records : List (List ℕ)) → Carries round.old records → Carries round.new records) }
    ensures answer { AnswersEnding opened.old.stores opened.old.last.0 (moment_behind opened.old.last.0 clock.0) token.now result }
{
    let Ok(now) = moment_behind(opened.last, clock) else {
        return Err(Unended::NoMoment);
    };
    let Some(lock) = lock_with(&opened.stores, token, now) else {
        return Err(Unended::NoLock);
    };
    let notes = notes_ending(alloc, lock, token, now)?;
    let pieces = write(alloc, &notes)?;
    let Some(note) = notes.first() else {
        unreachable!();
    };
    opened.last = now;
    play(&mut opened.stores, note);
    Ok(add_record(round, pieces)?)
}

// The lock with this token that stands at this moment.
fn lock_with<'a>(stores: &'a Guarded, token: &str, now: Moment) -> Option<&'a DavLock>
    ensures { MatchOption result (stands_with token.now now.0 stores.now.locks ≡ false)
        (λ lock. is_found_at (lock_path lock.now) token.now now.0 stores.now.locks ≡ true) }
{
    'looking: for lock in stores.locks() {
        if is_named(lock, token, now) {
            return Some(lock);
        }
    }
    None
}

// Whether the lock has this token, and has not expired at this moment.
fn is_named(lock: &DavLock, token: &str, now: Moment) -> bool
    ensures { result ≡ is_live_with token.now now.0 lock.now }
{
    lock.token.as_str() == token && !is_stale(lock, now)
}

// Whether its end has come.
fn is_stale(lock: &DavLock, now: Moment) -> bool
    ensures { result ≡ is_stale now.0 lock.now }
{
    match lock.timeout_at {
        Some(end) => end.0 <= now.0,
        None => false,
    }
}

// What is noted of the ending of a lock, at this moment.
fn notes_ending(
    alloc: Global,
    lock: &DavLock,
    token: &str,
    now: Moment,
) -> Result<Vec<Note>, AllocError>
    ensures { IfOk result (λ notes. map note_of notes.items ≡ ending_note now.0 lock.now.principal (segments lock.now.path.bytes) token.now ∷ []) }
{
    let mut notes = Vec::new(alloc);
    notes.push(note_ending(alloc, lock, token, now)?)?;
    Ok(notes)
}

// The request that ends the lock.
fn note_ending(alloc: Global, lock: &DavLock, token: &str, now: Moment) -> Result<Note, AllocError>
    ensures { IfOk result (λ note. note_of note ≡ ending_note now.0 lock.now.principal (segments lock.now.path.bytes) token.now) }
{
    let principal = match &lock.principal {
        Some(name) => Some(name.clone()?),
        None => None,
    };
    let tokens = vec![in alloc;
        String::from_str(alloc, token)?,
        String::from_str(alloc, OPERATOR)?,
    ]?;
    let command = Command::Unlock {
        path: lock.path.clone()?,
        token: String::from_str(alloc, token)?,
    };
    let request = Request {
        principal,
        tokens,
        now,
        command,
    };
    Ok(Note {
        request,
        drawn: None,
    })
}

// Ends the lock, which stands.
fn play(stores: &mut Guarded, note: &Note)
    requires draws { (s : Stream) → Draws (command_of note.now.request.command) note.now.drawn s }
    requires stands { EndsStanding stores.old (note_of note.now) }
    ensures played { NotePlayed stores.old (note_of note.now) stores.new }
{
    match make(stores, note) {
        Ok(()) => {}
        Err(_why) => unreachable!(),
    }
}
