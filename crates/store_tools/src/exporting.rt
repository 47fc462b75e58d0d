//! Exporting: what stands in stores is put into a folder of the system.
ghost use Rattle.std.specs.Prelude.{◌≡◌, ◌++◌, ◌∷◌, [], IfErr, IfOk, IsTrue, OnOk, false, is_ok, not, reverse, string_bytes};
ghost use Rattle.std.specs.List.{flat_map};
ghost use Rattle.dav_files_core.specs.Resources.{is_folder};
ghost use Rattle.store_tools.specs.Exports.{DoesCalls, Exports, calls_done, ends, file_calls, folder_calls, sets_time, syncs, writes};
ghost use Rattle.store_tools.specs.Private.ExportWork.{ExportsEach, ExportsOne, MakesEntry, folders_of, is_left_out, work_of};

use crate::calls::{Calls, Host};
use dav_files_core::fs::DavMetaData;
use dav_files_core::memfs::{Kind, MemFsStored, MemFsWalk};
use dav_guarded_core::fs::Moment;
use dav_guarded_core::guarded::Guarded;
use std::alloc::{AllocError, Global};
use std::collections::BTreeMap;
use std::fs;
use std::io::{self, BufWriter, ErrorKind, Write};
use store_changes::{at, member_of, names_of, time_of};
use store_copies::Failure;
use store_files::{Progress, sync_folder};
use store_views::Paths;

// An export in work.
#[derive(Drop)]
struct Exporter<'a> {
    alloc: Global,
    progress: Progress<'a>,
    paths: Paths,
    // The folders that were made, in order, with their times.
    folders: Vec<(String, Moment)>,
    // Where each of them stands there, by its number.
    places: BTreeMap<u64, usize>,
    count: u64,
    // Nothing was left out.
    is_whole: bool,
}

// Why something is left out.
#[derive(Clone, Copy, Drop)]
enum Reason {
    NoName,
    LongName,
    TakenName,
    BelowLeftOut,
}

impl Reason {
    fn text(&self) -> &'static str {
        match self {
            Reason::NoName => "its name can't be had",
            Reason::LongName => "its name or its path is too long",
            Reason::TakenName => "its name is taken",
            Reason::BelowLeftOut => "below what is not exported",
        }
    }
}

// Why something is not made in the system.
#[derive(Drop)]
enum Unmade {
    // It is left out, and all else goes on.
    LeftOut(Reason),
    // A call of the system failed, or there is no memory.
    Failed(Failure),
}

impl From<AllocError> for Unmade {
    #[tactic(auto, unfolding(crate::specs::Private::ExportWork::is_left_out))]
    fn from(error: AllocError) -> Unmade
        ensures { is_left_out result ≡ false }
    {
        Unmade::Failed(error.into())
    }
}

/// Makes each folder and file of the stores below a folder of the system (own), and tells what can't be had there. Whether nothing was left out. At `Ok` all that was made is synced.
///
/// - `NotEmpty`: something stands there that is no empty folder, and nothing is done.
/// - `At`, `Failed`: a call of the system failed, or there is no memory.
pub fn export<O: Write + Drop>(
    rt: &HostRuntime,
    stores: &Guarded,
    folder: &str,
    output: &mut BufWriter<O>,
) -> Result<bool, Failure> {
    begin_folder(rt, folder)?;
    let mut host = Host::new(rt);
    export_with(rt, &mut host, stores, folder, output)
}

// Makes the folder, whose name is synced then, or finds an empty one.
fn begin_folder(rt: &HostRuntime, folder: &str) -> Result<(), Failure> {
    let alloc = rt.alloc();
    match fs::symlink_metadata(rt, folder) {
        Ok(found) if found.is_dir() && names_of(rt, folder)?.is_empty() => Ok(()),
        Ok(_) => Err(Failure::NotEmpty(String::from_str(alloc, folder)?)),
        Err(error) if error.kind() == ErrorKind::NotFound => {
            at(alloc, folder, fs::create_dir(rt, folder))?;
            at(alloc, folder, sync_folder(rt, folder))
        }
        Err(error) => Err(Failure::At(String::from_str(alloc, folder)?, error)),
    }
}

// Makes each by calls that are recorded.
fn export_with<'s, C: Calls<'s>, O: Write + Drop>(
    rt: &HostRuntime,
    calls: &mut C,
    stores: &'s Guarded,
    root: &str,
    output: &mut BufWriter<O>,
) -> Result<bool, Failure>
    ensures exported { IfOk result (λ whole. Exports stores.now.map whole
        (C.Calls.history calls.old) (C.Calls.history calls.new)) }
{
    let mut export = Exporter {
        alloc: rt.alloc(),
        progress: Progress::new(rt),
        paths: Paths::new(rt.alloc()),
        folders: Vec::new(rt.alloc()),
        places: BTreeMap::new(rt.alloc()),
        count: 0,
        is_whole: true,
    };
    export.export_each(calls, stores.walk(), root, output)?;
    export.progress.end();
    export.end_folders(calls)?;
    Ok(export.is_whole)
}

impl Exporter<'_> {
    // Makes each, or tells why it is left out.
    fn export_each<'s, C: Calls<'s>, O: Write + Drop>(
        &mut self,
        calls: &mut C,
        walk: MemFsWalk<'s>,
        root: &str,
        output: &mut BufWriter<O>,
    ) -> Result<(), Failure>
        ensures exported { OnOk result (ExportsEach walk.entry
            (work_of self.old (C.Calls.history calls.old))
            (work_of self.new (C.Calls.history calls.new))) }
    {
        'exporting: for stored in walk {
            self.export_one(calls, &stored, root, output)?;
            self.tell_progress();
        }
        Ok(())
    }

    // Makes it, or tells why it is left out.
    fn export_one<'s, C: Calls<'s>, O: Write + Drop>(
        &mut self,
        calls: &mut C,
        stored: &MemFsStored<'s>,
        root: &str,
        output: &mut BufWriter<O>,
    ) -> Result<(), Failure>
        ensures exported { OnOk result (ExportsOne stored.now
            (work_of self.old (C.Calls.history calls.old))
            (work_of self.new (C.Calls.history calls.new))) }
    {
        let told = self.paths.path_of(stored)?;
        match self.make(calls, stored, root) {
            Ok(()) => {
                self.count = self.count.saturating_add(1);
                Ok(())
            }
            Err(Unmade::LeftOut(reason)) => {
                self.is_whole = false;
                let why = reason.text();
                writeln!(output, "{told}: {why}")?;
                Ok(())
            }
            Err(Unmade::Failed(failure)) => Err(failure),
        }
    }

    fn tell_progress(&mut self)
        ensures folders { folders_of self.new ≡ folders_of self.old }
        ensures whole { self.new.is_whole ≡ self.old.is_whole }
    {
        if !self.progress.is_due() {
            return;
        }
        let count = self.count;
        if let Ok(text) = format!(in self.alloc; "exporting: {count} files and folders") {
            self.progress.tell(text.as_str());
        }
    }

    // Ends the folders, from the last to the first: what is made in a folder changes its time.
    fn end_folders<'s, C: Calls<'s>>(&mut self, calls: &mut C) -> Result<(), Failure>
        ensures ended { OnOk result (DoesCalls (C.Calls.history calls.old) (C.Calls.history calls.new)
            (flat_map ends (reverse (folders_of self.old)))) }
        ensures whole { self.new.is_whole ≡ self.old.is_whole }
    {
        'ending: while let Some((place, time)) = self.folders.pop() {
            let ended = end_folder(calls, &place, time);
            done_at(self.alloc, place.as_str(), ended)?;
        }
        Ok(())
    }

    // Makes a folder or a file below the root.
    fn make<'s, C: Calls<'s>>(
        &mut self,
        calls: &mut C,
        stored: &MemFsStored<'s>,
        root: &str,
    ) -> Result<(), Unmade>
        ensures made { OnOk result (MakesEntry stored.now
            (work_of self.old (C.Calls.history calls.old))
            (work_of self.new (C.Calls.history calls.new))) }
        ensures left { IfErr result (λ e. IsTrue (is_left_out e)
            → work_of self.new (C.Calls.history calls.new)
            ≡ work_of self.old (C.Calls.history calls.old)) }
    {
        let place = self.place_of(stored, root)?;
        let time = time_for(stored);
        if !is_dir(stored) {
            return make_file(self.alloc, calls, &place, stored.bytes(), time);
        }
        make_folder(self.alloc, calls, &place, stored.folder())?;
        match self.keep_folder(stored.number(), place, time) {
            Ok(()) => Ok(()),
            Err(error) => Err(Unmade::Failed(error.into())),
        }
    }

    // Keeps where a folder was made.
    fn keep_folder(&mut self, number: u64, place: String, time: Moment) -> Result<(), AllocError>
        ensures kept { OnOk result (folders_of self.new
            ≡ folders_of self.old ++ (string_bytes place, time.0) ∷ []) }
        ensures whole { self.new.is_whole ≡ self.old.is_whole }
    {
        let count = self.folders.len();
        self.folders.push((place, time)).map_err(|_| AllocError)?;
        match self.places.insert(number, count) {
            Ok(_) => Ok(()),
            Err(_) => Err(AllocError),
        }
    }

    // Its path in the system: the root's, or that of a name in a folder that was made.
    fn place_of(&self, stored: &MemFsStored<'_>, root: &str) -> Result<String, Unmade> {
        let Some(folder) = stored.folder() else {
            return Ok(String::from_str(self.alloc, root)?);
        };
        let Some(above) = self.path_of_folder(folder) else {
            return Err(Unmade::LeftOut(Reason::BelowLeftOut));
        };
        let Some(name) = name_of(stored.name()) else {
            return Err(Unmade::LeftOut(Reason::NoName));
        };
        Ok(member_of(self.alloc, above, name)?)
    }

    // Where the folder with this number was made.
    fn path_of_folder(&self, folder: u64) -> Option<&str> {
        let (place, _) = self.folders.get(*self.places.get(&folder)?)?;
        Some(place.as_str())
    }
}

// The name as a text, where it is a name in a folder of the system.
fn name_of(name: &[u8]) -> Option<&str> {
    if name.is_empty() || name == b".".as_slice() || name == b"..".as_slice() {
        return None;
    }
    if name.contains(&0) || name.contains(&b'/') {
        return None;
    }
    std::str::from_utf8(name).ok()
}

// The time that an import kept, unless it is that of a file which has changed since it was made; else that of the last change.
fn time_for(stored: &MemFsStored<'_>) -> Moment {
    let meta = stored.meta();
    let (Ok(created), Ok(modified)) = (meta.created(), meta.modified()) else {
        return Moment(0);
    };
    if !meta.is_dir() && created.0 != modified.0 {
        return modified;
    }
    for prop in stored.props() {
        if let Some(time) = time_of(prop) {
            return time;
        }
    }
    modified
}

fn is_dir(stored: &MemFsStored<'_>) -> bool
    ensures { result ≡ is_folder stored.now.resource.node.kind }
{
    matches!(stored.meta().kind, Kind::Folder)
}

// Makes a file, where nothing has its name.
fn make_file<'s, C: Calls<'s>>(
    alloc: Global,
    calls: &mut C,
    place: &String,
    bytes: &'s [u8],
    time: Moment,
) -> Result<(), Unmade>
    ensures made { OnOk result (DoesCalls (C.Calls.history calls.old) (C.Calls.history calls.new)
        (file_calls (string_bytes place.now) bytes.now time.0)) }
    ensures left { IfErr result (λ e. IsTrue (is_left_out e)
        → calls_done (C.Calls.history calls.new) ≡ calls_done (C.Calls.history calls.old)) }
{
    let made = calls.make_file(place);
    made_at(alloc, place.as_str(), made)?;
    let filled = fill(calls, place, bytes, time);
    match done_at(alloc, place.as_str(), filled) {
        Ok(()) => Ok(()),
        Err(failure) => Err(Unmade::Failed(failure)),
    }
}

// Writes a file that was made, gives it its time, and syncs it.
fn fill<'s, C: Calls<'s>>(
    calls: &mut C,
    place: &String,
    bytes: &'s [u8],
    time: Moment,
) -> io::Result<()>
    ensures filled { OnOk result (DoesCalls (C.Calls.history calls.old) (C.Calls.history calls.new)
        (writes (string_bytes place.now) bytes.now ∷ sets_time (string_bytes place.now) time.0
        ∷ syncs (string_bytes place.now) ∷ [])) }
{
    calls.write(place, bytes)?;
    calls.set_time(place, time)?;
    calls.sync(place)
}

// Makes a folder, where nothing has its name; the root is there.
fn make_folder<'s, C: Calls<'s>>(
    alloc: Global,
    calls: &mut C,
    place: &String,
    above: Option<u64>,
) -> Result<(), Unmade>
    ensures made { OnOk result (DoesCalls (C.Calls.history calls.old) (C.Calls.history calls.new)
        (folder_calls above (string_bytes place.now))) }
    ensures left { IfErr result (λ e. IsTrue (is_left_out e)
        → calls_done (C.Calls.history calls.new) ≡ calls_done (C.Calls.history calls.old)) }
{
    if above.is_none() {
        return Ok(());
    }
    let made = calls.make_folder(place);
    made_at(alloc, place.as_str(), made)
}

// Ends a folder, in which all is made.
fn end_folder<'s, C: Calls<'s>>(calls: &mut C, place: &String, time: Moment) -> io::Result<()>
    ensures ended { OnOk result (DoesCalls (C.Calls.history calls.old) (C.Calls.history calls.new)
        (ends (string_bytes place.now, time.0))) }
{
    calls.open_folder(place)?;
    calls.set_time(place, time)?;
    calls.sync(place)
}

// What was made, or why it was not. What has a name that can't be had is told.
fn made_at(alloc: Global, place: &str, made: io::Result<()>) -> Result<(), Unmade>
    ensures made { OnOk result (IsTrue (is_ok made)) }
    ensures told { IfErr result (λ _. IsTrue (not (is_ok made))) }
{
    let Err(error) = made else {
        return Ok(());
    };
    match error.kind() {
        ErrorKind::InvalidFilename => Err(Unmade::LeftOut(Reason::LongName)),
        ErrorKind::AlreadyExists => Err(Unmade::LeftOut(Reason::TakenName)),
        _ => Err(Unmade::Failed(Failure::At(String::from_str(alloc, place)?, error))),
    }
}

// What a call at this place answers. Any error ends the export.
fn done_at(alloc: Global, place: &str, answer: io::Result<()>) -> Result<(), Failure>
    ensures done { OnOk result (IsTrue (is_ok answer)) }
{
    match answer {
        Ok(()) => Ok(()),
        Err(error) => Err(Failure::At(String::from_str(alloc, place)?, error)),
    }
}
