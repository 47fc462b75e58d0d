//! One file or folder is added to kept stores.
ghost use Rattle.std.specs.Prelude.{◌≡◌, ◌<◌, ◌≤◌, ◌+◌, ◌^◌, [], ◌∷◌, ◌++◌, ℕ, List, Some, None, Ok, map, IfErr, IfOk, IfSome, OnOk, OnErr};
ghost use Rattle.dav_path_core.specs.Segments.{segments};
ghost use Rattle.dav_files_core.specs.Describing.{metadata};
ghost use Rattle.rand_core.specs.Stream.{Stream};
ghost use Rattle.journal_core.specs.Resting.{Carries};
ghost use Rattle.dav_guarded_core.specs.Served.{command_of, refusal_of};
ghost use Rattle.dav_notes_core.specs.Noting.{note_of};
ghost use Rattle.dav_notes_core.specs.PlayedNotes.{NotePlayed};
ghost use Rattle.dav_notes_core.specs.Stepping.{Draws, SameLiveStores};
ghost use Rattle.store_changes.specs.Adding.{IsAdded, LeavesAll, StaysLive, Refuses, RefusesBy, FindsEntry, reason_by};
ghost use Rattle.store_changes.specs.ImportedEntries.{moment_behind, notes_for, source_of};
ghost use Rattle.store_changes.specs.declared.adding.Unimported.TheVariants as why;

use crate::entries::{Entry, notes_of};
use dav_effects_core::write;
use dav_files_core::fs::DavMetaData;
use dav_guarded_core::fs::Moment;
use dav_guarded_core::guarded::{Guarded, Refusal};
use dav_notes_core::notes::{Note, apply_given};
use dav_notes_core::playing::play_again;
use dav_path_core::davpath::DavPath;
use dav_path_core::errors::FsError;
use dav_store_core::{Opened, add_record};
use journal_core::Round;
use std::alloc::{AllocError, Global};

/// Why a file or a folder is not added (own).
#[derive(Clone, Copy)]
pub enum Unimported {
    /// A file stands at its path.
    File,
    /// A folder stands at its path.
    Folder,
    /// The folder that it is to stand in isn't there, or is a file.
    NoFolder,
    /// A lock stands in the way.
    Locked,
    /// No moment comes behind the last one.
    NoMoment,
    /// There is no memory for it.
    OutOfMemory,
    /// There was no memory for the rest of it, once a part was done: the stores have no record of that part, and are to be let go.
    Unfinished,
}

impl From<AllocError> for Unimported {
    ghost from_gives = { λ _ e. e ≡ why.OutOfMemory };

    fn from(_error: AllocError) -> Unimported {
        Unimported::OutOfMemory
    }
}

/// Adds a file or a folder to stores, and its record to the round (own). It is made, and its time is set as a property, at one moment, which is the clock's where that is later than the last one, and
/// else the nanosecond behind that.
///
/// - `File`, `Folder`: something stands at its path.
/// - `NoFolder`, `Locked`: the stores refuse it.
/// - `NoMoment`: the last moment is the greatest.
/// - `OutOfMemory`: there is no memory for it. `Unfinished`: the same, once a part of it was done.
pub fn add(
    alloc: Global,
    opened: &mut Opened,
    round: &mut Round,
    entry: &Entry,
    clock: Moment,
) -> Result<(), Unimported>
    // The stores are those behind its requests, where nothing stood at its path, and the record that the round has more is theirs.
    ensures added { OnOk result (IsAdded opened.old.stores opened.old.last.0 clock.0 (source_of entry.now) opened.new.stores opened.new.last.0
        (λ bytes. (records : List (List ℕ)) → Carries round.old records → Carries round.new (records ++ bytes ∷ []))) }
    // Each has a moment of its own.
    ensures later { OnOk result (opened.old.last.0 < opened.new.last.0) }
    // A refusal leaves the stores, but for locks that have expired by the moment that is the last one then,
    ensures left { IfErr result (λ e. LeavesAll e → StaysLive opened.old.stores opened.old.last.0 opened.new.stores opened.new.last.0) }
    // and the round, whatever the error.
    ensures round { OnErr result ((records : List (List ℕ)) → Carries round.old records → Carries round.new records) }
    ensures cause { IfErr result (λ e. Refuses opened.old.stores opened.old.last.0 (moment_behind opened.old.last.0 clock.0) (source_of entry.now) e) }
{
    let now = moment_behind(opened.last, clock)?;
    check_free(&opened.stores, &entry.path, now)?;
    let notes = notes_of(alloc, entry, now)?;
    let pieces = write(alloc, &notes)?;
    let Some((first, rest)) = notes.split_first() else {
        unreachable!();
    };
    opened.last = now;
    make(&mut opened.stores, first)?;
    match play_again(&mut opened.stores, rest) {
        Ok(()) => {}
        Err(_error) => return Err(Unimported::Unfinished),
    }
    match add_record(round, pieces) {
        Ok(()) => Ok(()),
        Err(_error) => Err(Unimported::Unfinished),
    }
}

/// The moment of what comes next: the clock's where that is later than the last one, and else the nanosecond behind that. `NoMoment` where none is.
pub(crate) fn moment_behind(last: Moment, clock: Moment) -> Result<Moment, Unimported>
    ensures ok { IfOk result (λ now. now.0 ≡ moment_behind last.0 clock.0) }
    ensures comes { OnOk result (last.0 + 1 < 2 ^ 64) }
    ensures err { IfErr result (λ e. (e ≡ why.NoMoment) × (last.0 ≡ u64.MAX)) }
{
    match last.0.checked_add(1) {
        Some(next) => Ok(Moment(next.max(clock.0))),
        None => Err(Unimported::NoMoment),
    }
}

/// Looks whether something stands at a path at a moment (own): nothing has changed then.
///
/// - `File`, `Folder`: such a one stands there. `OutOfMemory`: something does, and there is no memory to tell which.
pub fn check_free(stores: &Guarded, path: &DavPath, now: Moment) -> Result<(), Unimported>
    ensures { FindsEntry (metadata stores.now.map (segments path.now.bytes)) result }
{
    match stores.inspect(path, now) {
        Ok(found) if found.meta.is_dir() => Err(Unimported::Folder),
        Ok(_) => Err(Unimported::File),
        Err(FsError::InsufficientStorage) => Err(Unimported::OutOfMemory),
        Err(_) => Ok(()),
    }
}

/// Does what a note asks for: a file or a folder is made, or a lock is ended.
pub(crate) fn make(stores: &mut Guarded, note: &Note) -> Result<(), Unimported>
    requires { (s : Stream) → Draws (command_of note.now.request.command) note.now.drawn s }
    ensures played { OnOk result (NotePlayed stores.old (note_of note.now) stores.new) }
    ensures left { IfErr result (λ e. LeavesAll e × SameLiveStores note.now.request.now.0 stores.old stores.new) }
    ensures cause { IfErr result (λ e. RefusesBy stores.old (note_of note.now) stores.new e) }
{
    match apply_given(stores, &note.request, [0; 16]) {
        Ok(_reply) => Ok(()),
        Err(refusal) => Err(reason_of(&refusal)),
    }
}

// Why the stores refuse an entry.
fn reason_of(refusal: &Refusal) -> Unimported
    ensures { result ≡ reason_by (refusal_of refusal.now) }
{
    match refusal {
        Refusal::OutOfMemory | Refusal::Fs(FsError::InsufficientStorage) => Unimported::OutOfMemory,
        Refusal::Locked(_lock) => Unimported::Locked,
        _ => Unimported::NoFolder,
    }
}
