//! Importing: what stands in a folder of the system is put into the stores of a file.
ghost use Rattle.std.specs.Prelude.{◌≡◌, [], Ok, true, IfOk, IsTrue, MatchOption, OnOk, vec_len};
ghost use Rattle.sqlite_disk.specs.Disk.{Only};
ghost use Rattle.dav_path_core.specs.Segments.{segments};
ghost use Rattle.journal_core.specs.JournalReading.{header_of};
ghost use Rattle.journal_core.specs.Resting.{Carries, IsBeingRead, disk_behind, header_in};
ghost use Rattle.dav_store_core.specs.Loading.{IsLoaded};
ghost use Rattle.store_files.specs.FoundStores.{MayBeOpened};
ghost use Rattle.store_changes.specs.Adding.{LeavesAll};
ghost use Rattle.store_changes.specs.FoundEntries.{CameOf, IsDealtWith, LeavesOne};
ghost use Rattle.store_changes.specs.ImportedEntries.{source_of};
ghost use Rattle.store_changes.specs.KeptImports.{AddsOn, EndsImport, HasAdded, HoldsImport};
ghost use Rattle.store_changes.specs.KeptImports.{ImportsOn, count_of, left_out_of};

use crate::adding::{Unimported, check_free};
use crate::additions::{Additions, BYTES, Counts};
use crate::entries::Entry;
use crate::sources::{Found, bytes_of, member_of, names_of, source_of, time_of};
use bytes::Bytes;
use dav_path_core::davpath::ParseError;
use dav_store_core::{Opened, StoreError, load};
use journal_core::{Journal, JournalError, Reader};
use journal_file::open;
use sqlite_disk::Disk;
use sqlite_std_file::Wary;
use std::alloc::{AllocError, Global};
use std::fs::{self, Metadata};
use std::io::{self, BufWriter, ErrorKind, Write};
use store_copies::Failure;
use store_files::{Opening, Progress, Stood, find_or_make, header_of, is_one_file, now};
use store_views::{told_member, told_path};

const MEGABYTE: u64 = 1_000_000;

// An import in work.
#[derive(Drop)]
struct Importer<'a> {
    rt: &'a HostRuntime,
    progress: Progress<'a>,
    // What stands at the path of the stores' own file.
    own: Metadata,
    // What was added to the stores.
    added: Additions,
    // What is still to be imported; the next is the last.
    waiting: Vec<Found>,
    // How many bytes the files have that were added.
    bytes: u64,
    left_out: u64,
}

/// Puts what stands in a folder of the system into the stores of the file at this path (own), which is made where it isn't there, and tells what is left out, and how much was imported. Whether nothing was left
/// out; false, too, where nothing is done since the file is empty, or another one came there as it was made, which is told.
///
/// - `Refused`: the file of stores is broken, or is none, or another program has it open.
/// - `Unkept`: a round could not be appended. `Changed`: a file changed while it was read. `At`, `Failed`: a call of the system failed, or there is no memory. What was appended stays.
pub fn import<O: Write + Drop>(
    rt: &HostRuntime,
    path: &str,
    folder: &str,
    output: &mut BufWriter<O>,
) -> Result<bool, Failure> {
    let source = source_of(rt, folder)?;
    if !stand(rt, path, Some(now(rt)?.0), output)? {
        return Ok(false);
    }
    let header = header_of(rt, 0, now(rt)?.0)?;
    let (mut journal, found) = open(rt, path, header, &(), Wary)?;
    let Some(mut reader) = found else {
        tell_empty(path, output)?;
        return Ok(false);
    };
    let own = fs::metadata(rt, path)?;
    let counts = import_into(rt, path, &mut journal, &mut reader, &source, output)?;
    let is_there = is_still(rt, path, &own, output)?;
    Ok(counts.tell(output)? && is_there)
}

/// Whether a file stands there that may be opened; else why not is told. Where nothing stands there one is made that begins at this moment, if one is given, and else that is an error.
pub(crate) fn stand<O: Write + Drop>(
    rt: &HostRuntime,
    path: &str,
    began: Option<u64>,
    output: &mut BufWriter<O>,
) -> Result<bool, Failure> {
    let stood = find_or_make(rt, path, began)?;
    tell_stood(path, &stood, output)
}

// Whether what came of it may be opened.
fn tell_stood<O: Write + Drop>(
    path: &str,
    stood: &Stood,
    output: &mut BufWriter<O>,
) -> Result<bool, Failure>
    ensures stands { result ≡ Ok true → MayBeOpened stood.now }
{
    match stood {
        Stood::There => Ok(true),
        Stood::Made(_) => Ok(true),
        Stood::Empty => {
            tell_empty(path, output)?;
            Ok(false)
        }
        Stood::Taken(found) => {
            writeln!(output, "something stands there: {found}")?;
            Ok(false)
        }
        Stood::Missing => Err(Failure::from(io::Error::from(ErrorKind::NotFound))),
    }
}

/// Tells that a crash has left the file as it was made.
pub(crate) fn tell_empty<O: Write + Drop>(path: &str, output: &mut BufWriter<O>) -> io::Result<()> {
    writeln!(
        output,
        "{path} is empty: nothing was ever kept in it, so remove it to have a new one"
    )
}

// Puts what stands in the folder into the stores that the journal keeps. At `Ok` all of it is on the disk.
fn import_into<D: Disk, O: Write + Drop>(
    rt: &HostRuntime,
    path: &str,
    journal: &mut Journal<D, ()>,
    reader: &mut Reader,
    source: &Found,
    output: &mut BufWriter<O>,
) -> Result<Counts, Failure>
    requires usable { IsTrue (D.Disk.is_usable (disk_behind journal.old)) }
    // What stood in the file is what `load` read, unless a read of the disk lied.
    ensures imported { IfOk result (λ counts.
        IsBeingRead D.Disk.seen D.Disk.is_clean journal.old reader.old []
        → IsTrue (D.Disk.is_clean (disk_behind journal.new))
        → Only (D.Disk.seen (disk_behind journal.old)) (D.Disk.may_leave (disk_behind journal.old))
        → HoldsImport D.Disk.seen D.Disk.may_leave D.Disk.is_clean
        (D.Disk.seen (disk_behind journal.old)) (header_of reader.old) journal.new
        (count_of counts)) }
{
    let own = fs::metadata(rt, path)?;
    let opened = read_all(rt, path, journal, reader)?;
    let mut importer = Importer::over(rt, opened, own);
    import_from(&mut importer, journal, source, output)
}

// Whether the name still leads to the file, which is told where it does not.
fn is_still<O: Write + Drop>(
    rt: &HostRuntime,
    path: &str,
    own: &Metadata,
    output: &mut BufWriter<O>,
) -> io::Result<bool> {
    match fs::metadata(rt, path) {
        Ok(now) if is_one_file(own, &now) => Ok(true),
        _ => {
            writeln!(
                output,
                "{path} was removed or replaced meanwhile: what was imported stands in the file that was there"
            )?;
            Ok(false)
        }
    }
}

// Puts what stands in the folder into the stores.
fn import_from<D: Disk, O: Write + Drop>(
    importer: &mut Importer<'_>,
    journal: &mut Journal<D, ()>,
    source: &Found,
    output: &mut BufWriter<O>,
) -> Result<Counts, Failure>
    requires usable { IsTrue (D.Disk.is_usable (disk_behind journal.old)) }
    ensures imported { IfOk result (EndsImport D.Disk.seen D.Disk.may_leave D.Disk.is_clean
        journal.old importer.old.added journal.new importer.new.added) }
    ensures told { IfOk result (λ counts. left_out_of counts ≡ importer.new.left_out) }
    ensures all { OnOk result (vec_len importer.new.waiting ≡ 0) }
    ensures clean { D.Disk.is_clean (disk_behind journal.new)
        ≡ D.Disk.is_clean (disk_behind journal.old) }
{
    importer.enter(source, output)?;
    let imported = import_all(importer, journal, output);
    importer.progress.end();
    imported
}

/// The stores that the journal keeps. How far the file was read is told.
pub(crate) fn read_all<D: Disk>(
    rt: &HostRuntime,
    path: &str,
    journal: &mut Journal<D, ()>,
    reader: &mut Reader,
) -> Result<Opened, StoreError>
    requires usable { IsTrue (D.Disk.is_usable (disk_behind journal.old)) }
    // As `load` says it.
    ensures usable { IsTrue (D.Disk.is_usable (disk_behind journal.new)) }
    ensures stands { IfOk result (λ o.
        IsBeingRead D.Disk.seen D.Disk.is_clean journal.old reader.old []
        → IsTrue (D.Disk.is_clean (disk_behind journal.new))
        → Only (D.Disk.seen (disk_behind journal.old)) (D.Disk.may_leave (disk_behind journal.old))
        → IsLoaded D.Disk.seen D.Disk.may_leave D.Disk.is_clean journal.new
        (header_of reader.old) o.stores o.last.0) }
    ensures header { OnOk result (IsBeingRead D.Disk.seen D.Disk.is_clean journal.old reader.old []
        → header_in journal.new ≡ header_of reader.old) }
    ensures seen { D.Disk.seen (disk_behind journal.new) ≡ D.Disk.seen (disk_behind journal.old) }
{
    let mut opening = Opening::of(rt, path);
    let opened = load(rt.alloc(), journal, reader, &(), &mut opening);
    opening.end();
    opened
}

// Imports all that waits. At `Ok` all of it is on the disk.
fn import_all<D: Disk, O: Write + Drop>(
    import: &mut Importer<'_>,
    journal: &mut Journal<D, ()>,
    output: &mut BufWriter<O>,
) -> Result<Counts, Failure>
    requires usable { IsTrue (D.Disk.is_usable (disk_behind journal.old)) }
    ensures imported { IfOk result (EndsImport D.Disk.seen D.Disk.may_leave D.Disk.is_clean
        journal.old import.old.added journal.new import.new.added) }
    ensures told { IfOk result (λ counts. left_out_of counts ≡ import.new.left_out) }
    ensures all { OnOk result (vec_len import.new.waiting ≡ 0) }
    ensures clean { D.Disk.is_clean (disk_behind journal.new)
        ≡ D.Disk.is_clean (disk_behind journal.old) }
{
    // A loop is proved to end, so this one counts its turns.
    'importing: for _ in 0..u64::MAX {
        let Some(found) = import.waiting.pop() else {
            let alloc = import.rt.alloc();
            return finish(alloc, &mut import.added, journal, import.left_out);
        };
        import_one(import, journal, &found, output)?;
        import.tell_progress();
    }
    Err(Failure::Unkept(JournalError::TooLarge))
}

// Imports what was found, and what stands in it, if it is a folder, waits.
fn import_one<D: Disk, O: Write + Drop>(
    import: &mut Importer<'_>,
    journal: &mut Journal<D, ()>,
    found: &Found,
    output: &mut BufWriter<O>,
) -> Result<(), Failure>
    requires usable { IsTrue (D.Disk.is_usable (disk_behind journal.old)) }
    ensures usable { OnOk result (IsTrue (D.Disk.is_usable (disk_behind journal.new))) }
    ensures keeps { OnOk result (ImportsOn D.Disk.seen D.Disk.may_leave D.Disk.is_clean
        journal.old import.old.added journal.new import.new.added) }
    ensures dealt { OnOk result (IsDealtWith (segments found.now.path.bytes)
        import.old.added.opened import.old.left_out import.new.added.opened import.new.left_out) }
    ensures clean { D.Disk.is_clean (disk_behind journal.new)
        ≡ D.Disk.is_clean (disk_behind journal.old) }
{
    let Some(meta) = import.look_at(found, output)? else {
        return Ok(());
    };
    import_found(import, journal, found, &meta, output)?;
    if !import.added.is_full() {
        return Ok(());
    }
    append(import.rt.alloc(), &mut import.added, journal)
}

// Imports a folder or a file, of which so much is known. A long file is in a round of its own.
fn import_found<D: Disk, O: Write + Drop>(
    import: &mut Importer<'_>,
    journal: &mut Journal<D, ()>,
    found: &Found,
    meta: &Metadata,
    output: &mut BufWriter<O>,
) -> Result<(), Failure>
    requires usable { IsTrue (D.Disk.is_usable (disk_behind journal.old)) }
    ensures usable { OnOk result (IsTrue (D.Disk.is_usable (disk_behind journal.new))) }
    ensures keeps { OnOk result (ImportsOn D.Disk.seen D.Disk.may_leave D.Disk.is_clean
        journal.old import.old.added journal.new import.new.added) }
    ensures dealt { OnOk result (IsDealtWith (segments found.now.path.bytes)
        import.old.added.opened import.old.left_out import.new.added.opened import.new.left_out) }
    ensures clean { D.Disk.is_clean (disk_behind journal.new)
        ≡ D.Disk.is_clean (disk_behind journal.old) }
{
    if meta.is_dir() {
        return import.add_folder(found, meta, output);
    }
    if meta.len() < BYTES as u64 {
        return import.add_file(found, meta, output);
    }
    append(import.rt.alloc(), &mut import.added, journal)?;
    import.add_file(found, meta, output)
}

// Appends the round, which is on the disk at `Ok`, and begins the next.
fn append<D: Disk>(
    alloc: Global,
    added: &mut Additions,
    journal: &mut Journal<D, ()>,
) -> Result<(), Failure>
    requires usable { IsTrue (D.Disk.is_usable (disk_behind journal.old)) }
    ensures usable { OnOk result (IsTrue (D.Disk.is_usable (disk_behind journal.new))) }
    ensures keeps { OnOk result (ImportsOn D.Disk.seen D.Disk.may_leave D.Disk.is_clean
        journal.old added.old journal.new added.new) }
    ensures empty { OnOk result (Carries added.new.round []) }
    ensures stays { added.new.opened ≡ added.old.opened }
    ensures clean { D.Disk.is_clean (disk_behind journal.new)
        ≡ D.Disk.is_clean (disk_behind journal.old) }
{
    match added.append(alloc, journal) {
        Ok(()) => Ok(()),
        Err(error) => Err(Failure::Unkept(error)),
    }
}

// Appends the last round, and counts.
fn finish<D: Disk>(
    alloc: Global,
    added: &mut Additions,
    journal: &mut Journal<D, ()>,
    left_out: u64,
) -> Result<Counts, Failure>
    requires usable { IsTrue (D.Disk.is_usable (disk_behind journal.old)) }
    ensures imported { IfOk result (EndsImport D.Disk.seen D.Disk.may_leave D.Disk.is_clean
        journal.old added.old journal.new added.new) }
    ensures told { IfOk result (λ counts. left_out_of counts ≡ left_out) }
    ensures clean { D.Disk.is_clean (disk_behind journal.new)
        ≡ D.Disk.is_clean (disk_behind journal.old) }
{
    match added.finish(alloc, journal, left_out) {
        Ok(counts) => Ok(counts),
        Err(error) => Err(Failure::Unkept(error)),
    }
}

// What was found, as an entry with this content.
fn entry_of(found: &Found, content: Option<Bytes>, meta: &Metadata) -> Result<Entry, AllocError>
    ensures { IfOk result (λ e. (source_of e).path ≡ segments found.now.path.bytes) }
{
    let path = found.path.clone()?;
    Ok(Entry {
        path,
        content,
        modified: time_of(meta),
    })
}

// Why an entry is left out. Want of memory is an error, since a part of the entry may be done then.
fn refusal_of(why: Unimported) -> Result<Unimported, Failure>
    ensures { IfOk result (λ e. (e ≡ why) × LeavesAll why) }
{
    match why {
        Unimported::OutOfMemory | Unimported::Unfinished => Err(AllocError.into()),
        _ => Ok(why),
    }
}

impl<'a> Importer<'a> {
    // Of nothing yet, into stores whose file is this one.
    fn over(rt: &'a HostRuntime, opened: Opened, own: Metadata) -> Importer<'a>
        ensures { HasAdded opened.stores opened.last.0 [] result.added }
    {
        Importer {
            rt,
            progress: Progress::new(rt),
            own,
            added: Additions::over(rt.alloc(), opened),
            waiting: Vec::new(rt.alloc()),
            bytes: 0,
            left_out: 0,
        }
    }

    // What is known of a file or a folder. None where it is left out: a link, a special file, and the stores' own file.
    fn look_at<O: Write + Drop>(
        &mut self,
        found: &Found,
        output: &mut BufWriter<O>,
    ) -> Result<Option<Metadata>, Failure>
        ensures added { self.new.added ≡ self.old.added }
        ensures left { IfOk result (λ known. MatchOption known
            (LeavesOne self.old.left_out self.new.left_out)
            (λ _. self.new.left_out ≡ self.old.left_out)) }
    {
        let meta = match fs::symlink_metadata(self.rt, found.place.as_str()) {
            Ok(meta) => meta,
            Err(error) if error.kind() == ErrorKind::InvalidFilename => {
                self.leave_out(found, "its path is too long", output)?;
                return Ok(None);
            }
            Err(error) => return Err(Failure::At(found.place.clone()?, error)),
        };
        let why = if meta.is_symlink() {
            "a link"
        } else if !meta.is_dir() && !meta.is_file() {
            "a special file"
        } else if is_one_file(&meta, &self.own) {
            "the file of the stores"
        } else {
            return Ok(Some(meta));
        };
        self.leave_out(found, why, output)?;
        Ok(None)
    }

    fn add_folder<O: Write + Drop>(
        &mut self,
        found: &Found,
        meta: &Metadata,
        output: &mut BufWriter<O>,
    ) -> Result<(), Failure>
        ensures goes_on { OnOk result (AddsOn self.old.added self.new.added) }
        ensures dealt { OnOk result (IsDealtWith (segments found.now.path.bytes)
            self.old.added.opened self.old.left_out self.new.added.opened self.new.left_out) }
    {
        match self.add(found, None, meta)? {
            Ok(()) | Err(Unimported::Folder) => self.enter(found, output),
            Err(why) => self.refuse(found, why, output),
        }
    }

    fn add_file<O: Write + Drop>(
        &mut self,
        found: &Found,
        meta: &Metadata,
        output: &mut BufWriter<O>,
    ) -> Result<(), Failure>
        ensures goes_on { OnOk result (AddsOn self.old.added self.new.added) }
        ensures dealt { OnOk result (IsDealtWith (segments found.now.path.bytes)
            self.old.added.opened self.old.left_out self.new.added.opened self.new.left_out) }
    {
        // So that what stands there already is not read in vain.
        if let Err(why) = check_free(
            &self.added.opened.stores,
            &found.path,
            self.added.opened.last,
        ) {
            return self.refuse(found, why, output);
        }
        let bytes = bytes_of(self.rt, found.place.as_str(), meta)?;
        match self.add(found, Some(bytes), meta)? {
            Ok(()) => {}
            Err(why) => return self.refuse(found, why, output),
        }
        self.bytes = self.bytes.saturating_add(meta.len());
        Ok(())
    }

    // Adds it to the stores and to the round, or answers why it is left out.
    fn add(
        &mut self,
        found: &Found,
        content: Option<Bytes>,
        meta: &Metadata,
    ) -> Result<Result<(), Unimported>, Failure>
        ensures goes_on { OnOk result (AddsOn self.old.added self.new.added) }
        ensures came { IfOk result (λ answer. CameOf (segments found.now.path.bytes)
            self.old.added.opened answer self.new.added.opened) }
        ensures left { self.new.left_out ≡ self.old.left_out }
    {
        let entry = entry_of(found, content, meta)?;
        let clock = now(self.rt)?;
        match self.added.add(self.rt.alloc(), &entry, clock) {
            Ok(()) => Ok(Ok(())),
            Err(why) => Ok(Err(refusal_of(why)?)),
        }
    }

    // What stands in the folder waits. Names that are no text are left out.
    fn enter<O: Write + Drop>(
        &mut self,
        folder: &Found,
        output: &mut BufWriter<O>,
    ) -> Result<(), Failure>
        ensures { self.new.added ≡ self.old.added }
    {
        let names = names_of(self.rt, folder.place.as_str())?;
        for name in &names {
            self.wait_for(folder, name, output)?;
        }
        Ok(())
    }

    fn wait_for<O: Write + Drop>(
        &mut self,
        folder: &Found,
        name: &[u8],
        output: &mut BufWriter<O>,
    ) -> Result<(), Failure>
        ensures { self.new.added ≡ self.old.added }
    {
        let alloc = self.rt.alloc();
        let child = folder.path.child(name);
        if let Err(ParseError::OutOfMemory) = child {
            return Err(AllocError.into());
        }
        let (Ok(text), Ok(path)) = (std::str::from_utf8(name), child) else {
            let told = told_member(alloc, &folder.path, name)?;
            return self.tell(told.as_str(), "its name is no text", output);
        };
        let place = member_of(alloc, folder.place.as_str(), text)?;
        self.waiting
            .push(Found { place, path })
            .map_err(|_| AllocError)?;
        Ok(())
    }

    // Why the stores do not take it.
    fn refuse<O: Write + Drop>(
        &mut self,
        found: &Found,
        why: Unimported,
        output: &mut BufWriter<O>,
    ) -> Result<(), Failure>
        ensures added { self.new.added ≡ self.old.added }
        ensures left { OnOk result (LeavesOne self.old.left_out self.new.left_out) }
    {
        let text = match why {
            Unimported::File => "a file stands there",
            Unimported::Folder => "a folder stands there",
            Unimported::NoFolder => "there is no folder for it",
            Unimported::Locked => "locked",
            Unimported::NoMoment => "no moment comes behind the last one",
            Unimported::OutOfMemory | Unimported::Unfinished => return Err(AllocError.into()),
        };
        self.leave_out(found, text, output)
    }

    fn leave_out<O: Write + Drop>(
        &mut self,
        found: &Found,
        why: &str,
        output: &mut BufWriter<O>,
    ) -> Result<(), Failure>
        ensures added { self.new.added ≡ self.old.added }
        ensures left { OnOk result (LeavesOne self.old.left_out self.new.left_out) }
    {
        let told = told_path(self.rt.alloc(), &found.path)?;
        self.tell(told.as_str(), why, output)
    }

    fn tell<O: Write + Drop>(
        &mut self,
        told: &str,
        why: &str,
        output: &mut BufWriter<O>,
    ) -> Result<(), Failure>
        ensures added { self.new.added ≡ self.old.added }
        ensures left { LeavesOne self.old.left_out self.new.left_out }
    {
        self.left_out = self.left_out.saturating_add(1);
        writeln!(output, "{told}: {why}")?;
        Ok(())
    }

    fn tell_progress(&mut self)
        ensures added { self.new.added ≡ self.old.added }
        ensures left { self.new.left_out ≡ self.old.left_out }
    {
        if !self.progress.is_due() {
            return;
        }
        let files = self.added.files;
        let read = self.bytes / MEGABYTE;
        if let Ok(text) = format!(in self.rt.alloc(); "importing: {files} files, {read} MB") {
            self.progress.tell(text.as_str());
        }
    }
}
