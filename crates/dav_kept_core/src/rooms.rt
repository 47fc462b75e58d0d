//! How much room in the file a request may need for the record of what it changes. No clause speaks of
//! it: a request is told what room there is, and is refused where its notes would cost more.
use dav_guarded_core::davpath::DavPath;
use dav_guarded_core::fs::DavMetaData;
use dav_guarded_core::guarded::{Command, Guarded};
use dav_handler_core::dav::LAST_ROOM;
use dav_notes_core::notes::Note;
use http::StatusCode;
use std::alloc::{AllocError, Global};
use std::collections::HashMap;

/// What a record has beside what the request sent, at most: who asks, and what is the same in each
/// (own).
const LEAST: u64 = 4096;

/// So many bytes of a request are counted sixteen times: a property, a short one above all, has more
/// bytes in a record than in its request (own).
const SPREAD: u64 = 64 * 1024;

/// What a note costs beside its texts (own).
const ENTRY: u64 = 104;

/// So many bytes of a COPY's target, and of who asks, are counted for each path that is copied (own).
const BASE: u64 = 160;

/// What stands in the stores, as far as it tells how much room a request may need: how many folders
/// and files, and how many bytes their paths have together, or more (own).
#[derive(Drop)]
pub struct Tree {
    count: u64,
    paths: u64,
    // How many bytes the paths had when they were counted last.
    counted: u64,
}

impl Tree {
    /// That of the stores. `AllocError` where there is no memory to count it.
    pub fn of(alloc: Global, stores: &Guarded) -> Result<Tree, AllocError> {
        let mut folders = HashMap::new(alloc);
        let mut count = 0u64;
        let mut paths = 0u64;
        for stored in stores.walk() {
            let above = match stored.folder() {
                Some(folder) => folders.get(&folder).copied().unwrap_or(0),
                None => 0,
            };
            let path = name_len(stored.name()).saturating_add(above);
            if stored.meta().is_dir() {
                folders.insert(stored.number(), path)?;
            }
            count = count.saturating_add(1);
            paths = paths.saturating_add(path);
        }
        Ok(Tree {
            count,
            paths,
            counted: paths,
        })
    }

    /// Notes what a request that was answered with this status changed.
    pub(crate) fn note(&mut self, notes: &[Note], status: StatusCode) {
        let created = status == StatusCode::CREATED;
        for note in notes {
            self.note_command(&note.request.command, created);
        }
    }

    /// Whether the paths may have grown so far from what was counted that they are to be counted again.
    pub(crate) fn is_stale(&self) -> bool {
        self.paths > self.counted.saturating_mul(2).saturating_add(LAST_ROOM)
    }

    /// How much room a request of so many bytes may need; so much more is left for a DELETE and an
    /// UNLOCK. A COPY needs most: it takes away what stands at its target, and names each path that is
    /// copied as it is and as it will be.
    pub(crate) fn most_room(&self, bytes: u64) -> u64 {
        let base = bytes.min(BASE).saturating_mul(3);
        let each = ENTRY.saturating_mul(2).saturating_add(base);
        sent_room(bytes)
            .saturating_add(self.paths.saturating_mul(3))
            .saturating_add(self.count.saturating_mul(each))
            .saturating_add(LAST_ROOM)
    }

    fn note_command(&mut self, command: &Command, created: bool) {
        match command {
            Command::Put { path, .. } if created => self.add(path),
            Command::MkCol { path } => self.add(path),
            Command::Copy { to, .. } => self.add(to),
            Command::Move { from, to } => self.rename(from, to),
            Command::Remove { path } => self.remove(path),
            _ => {}
        }
    }

    fn add(&mut self, path: &DavPath) {
        self.count = self.count.saturating_add(1);
        self.paths = self.paths.saturating_add(path_len(path));
    }

    fn remove(&mut self, path: &DavPath) {
        self.count = self.count.saturating_sub(1);
        self.paths = self.paths.saturating_sub(path_len(path));
    }

    // All that stands may stand below the path.
    fn rename(&mut self, from: &DavPath, to: &DavPath) {
        let longer = path_len(to).saturating_sub(path_len(from));
        self.paths = self.paths.saturating_add(self.count.saturating_mul(longer));
    }
}

// With the slash behind it.
fn name_len(name: &[u8]) -> u64 {
    (name.len() as u64).saturating_add(1)
}

fn path_len(path: &DavPath) -> u64 {
    (path.as_bytes().len() as u64).saturating_add(1)
}

// Of a request of so many bytes that names no path but those that it sends.
fn sent_room(length: u64) -> u64 {
    let spread = length.min(SPREAD).saturating_mul(15);
    length.saturating_add(spread).saturating_add(LEAST)
}
