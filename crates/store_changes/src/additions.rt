//! What an import has added to the stores of a journal, and what of it is not appended yet.
ghost use Rattle.std.specs.Prelude.{◌≡◌, ◌==◌, ◌∷◌, ◌++◌, [], ℕ, List, IfErr, IfOk, IsTrue, OnOk};
ghost use Rattle.journal_core.specs.Resting.{Carries, disk_behind};
ghost use Rattle.store_changes.specs.Adding.{IsAdded, LeavesAll, Refuses};
ghost use Rattle.store_changes.specs.ImportedEntries.{moment_behind, source_of};
ghost use Rattle.store_changes.specs.KeptImports.{AddsOn, ImportsOn, EndsImport, HasAdded, left_out_of};

use crate::adding::{Unimported, add};
use crate::entries::Entry;
use dav_guarded_core::fs::Moment;
use dav_store_core::Opened;
use journal_core::{Journal, JournalError, Round};
use sqlite_disk::Disk;
use std::alloc::Global;
use std::io::{self, BufWriter, Write};

/// So many records stand in a round, at most.
const RECORDS: usize = 64;

/// From so many bytes on a round is appended. A file that has as many is in a round of its own.
pub const BYTES: usize = 4 * 1024 * 1024;

/// What was added to stores, and what of it is not appended yet.
#[derive(Drop)]
pub struct Additions {
    /// The stores as they are, and their last moment.
    pub opened: Opened,
    /// The records that are not appended yet, and how many.
    pub round: Round,
    pub records: usize,
    /// How many files were added, and how many folders.
    pub files: u64,
    pub folders: u64,
}

/// How much was imported, all of which is on the disk, and how much was left out. It is had of `Additions::finish` alone.
#[derive(Clone, Copy)]
pub struct Counts {
    files: u64,
    folders: u64,
    left_out: u64,
}

impl Additions {
    /// Nothing yet, to these stores.
    pub fn over(alloc: Global, opened: Opened) -> Additions
        ensures opened { result.opened ≡ opened }
        ensures empty { Carries result.round [] }
        ensures none { (result.files ≡ 0) × (result.folders ≡ 0) }
        ensures begins { HasAdded opened.stores opened.last.0 [] result }
    {
        Additions {
            opened,
            round: Round::new(alloc),
            records: 0,
            files: 0,
            folders: 0,
        }
    }

    /// Whether the round is to be appended before more is added.
    pub fn is_full(&self) -> bool {
        self.records >= RECORDS || self.round.len() >= BYTES
    }

    /// Adds a file or a folder to the stores, its record to the round, and one to the count. Its errors are those of `add`.
    pub fn add(&mut self, alloc: Global, entry: &Entry, clock: Moment) -> Result<(), Unimported>
        ensures added { OnOk result (IsAdded self.old.opened.stores self.old.opened.last.0 clock.0 (source_of entry.now) self.new.opened.stores self.new.opened.last.0
            (λ bytes. (records : List (List ℕ)) → Carries self.old.round records → Carries self.new.round (records ++ bytes ∷ []))) }
        ensures goes_on { OnOk result (AddsOn self.old self.new) }
        ensures left { IfErr result (λ e. LeavesAll e → AddsOn self.old self.new) }
        ensures cause { IfErr result (λ e. Refuses self.old.opened.stores self.old.opened.last.0 (moment_behind self.old.opened.last.0 clock.0) (source_of entry.now) e) }
    {
        add(alloc, &mut self.opened, &mut self.round, entry, clock)?;
        self.records = self.records.saturating_add(1);
        match entry.content {
            Some(_) => self.files = self.files.saturating_add(1),
            None => self.folders = self.folders.saturating_add(1),
        }
        Ok(())
    }

    /// Appends the round, which is on the disk at `Ok`, and begins the next. Its errors are those of `Journal::append`.
    pub fn append<D: Disk>(
        &mut self,
        alloc: Global,
        journal: &mut Journal<D, ()>,
    ) -> Result<(), JournalError>
        requires usable { IsTrue (D.Disk.is_usable (disk_behind journal.old)) }
        ensures keeps { OnOk result (ImportsOn D.Disk.seen D.Disk.may_leave D.Disk.is_clean journal.old self.old journal.new self.new) }
        ensures empty { OnOk result (Carries self.new.round []) }
        ensures stays { self.new.opened ≡ self.old.opened }
        ensures clean { D.Disk.is_clean (disk_behind journal.new) ≡ D.Disk.is_clean (disk_behind journal.old) }
        ensures usable { OnOk result (IsTrue (D.Disk.is_usable (disk_behind journal.new))) }
    {
        journal.append(&(), &self.round)?;
        self.round = Round::new(alloc);
        self.records = 0;
        Ok(())
    }

    /// Appends the last round, as `append` does, and counts what was added; so much was left out.
    pub fn finish<D: Disk>(
        &mut self,
        alloc: Global,
        journal: &mut Journal<D, ()>,
        left_out: u64,
    ) -> Result<Counts, JournalError>
        requires usable { IsTrue (D.Disk.is_usable (disk_behind journal.old)) }
        // The round has no record any more, and the journal stands for the stores.
        ensures imported { IfOk result (EndsImport D.Disk.seen D.Disk.may_leave D.Disk.is_clean journal.old self.old journal.new self.new) }
        ensures told { IfOk result (λ counts. left_out_of counts ≡ left_out) }
        ensures clean { D.Disk.is_clean (disk_behind journal.new) ≡ D.Disk.is_clean (disk_behind journal.old) }
    {
        self.append(alloc, journal)?;
        Ok(Counts {
            files: self.files,
            folders: self.folders,
            left_out,
        })
    }
}

impl Counts {
    /// Tells how much was imported. Whether nothing was left out.
    pub fn tell<O: Write + Drop>(self, output: &mut BufWriter<O>) -> io::Result<bool>
        ensures { IfOk result (λ all. all ≡ (left_out_of self == 0)) }
    {
        let Counts {
            files,
            folders,
            left_out,
        } = self;
        writeln!(
            output,
            "imported: {files} files, {folders} folders, {left_out} left out"
        )?;
        Ok(left_out == 0)
    }
}
