//! Whether the name of the store still leads to its file, which is looked for before each round.
use journal_core::{Header, Reader, Stream};
use std::alloc::Global;
use std::cell::{Cell, OnceCell};
use std::fs::{self, File, Metadata};
use std::io::{self, ErrorKind, Read};
use std::os::unix::fs::FileExt;
use store_files::{HEADER, is_one_file};

// A file that was found by its name.
#[derive(Drop)]
struct Known {
    path: String,
    file: File,
    found: Metadata,
    front: [u8; HEADER],
}

/// Where the file of the stores is (own). Nothing is known of it before `settle`.
#[derive(Drop)]
pub(crate) struct Place {
    known: OnceCell<Known>,
    // How long the file was when it was looked for last: it never gets shorter.
    length: Cell<u64>,
    is_lost: Cell<bool>,
    // Why it could not be looked for.
    failure: OnceCell<io::Error>,
}

impl Place {
    /// Of no file yet (own).
    pub(crate) fn new() -> Place {
        Place {
            known: OnceCell::new(),
            length: Cell::new(0),
            is_lost: Cell::new(false),
            failure: OnceCell::new(),
        }
    }

    /// From now on it is the file at this path, which has this header, and is open (own). `Err` where a call of the system failed, there is no memory, or another file has the name already.
    pub(crate) fn settle(&self, rt: &HostRuntime, path: &str, header: Header) -> io::Result<()> {
        let known = match known_at(rt, path) {
            Err(error) if error.kind() == ErrorKind::NotFound => return Err(self.lose()),
            known => known?,
        };
        if !begins_with(rt.alloc(), &known.front, header) {
            return Err(self.lose());
        }
        self.length.set(known.found.len());
        match self.known.set(known) {
            Ok(()) => Ok(()),
            Err(_) => Err(io::Error::from(ErrorKind::AlreadyExists)),
        }
    }

    /// Whether the name was seen to lead elsewhere (own).
    pub(crate) fn is_lost(&self) -> bool {
        self.is_lost.get()
    }

    /// Why the file could not be looked for, where a call of the system failed for that (own).
    pub(crate) fn into_failure(self) -> Option<io::Error> {
        self.failure.into_inner()
    }

    // Looks whether the name still leads to the file, which begins as it did, and has lost no byte. `Err` where it does not, or that can't be told.
    fn look(&self, rt: &HostRuntime) -> io::Result<()> {
        let Some(known) = self.known.get() else {
            return Ok(());
        };
        match length_of(rt, known) {
            Ok(Some(length)) if length >= self.length.get() => {
                self.length.set(length);
                Ok(())
            }
            Ok(_) => Err(self.lose()),
            Err(error) if error.kind() == ErrorKind::OutOfMemory => Err(error),
            Err(error) => Err(self.fail(error)),
        }
    }

    // Keeps why it could not be looked for.
    fn fail(&self, error: io::Error) -> io::Error {
        let kind = error.kind();
        let _kept = self.failure.set(error);
        io::Error::from(kind)
    }

    // Notes that the name leads elsewhere.
    fn lose(&self) -> io::Error {
        self.is_lost.set(true);
        io::Error::from(ErrorKind::NotFound)
    }
}

/// An input, behind each read of which the place is looked at (own): so before each round that what was read leads to.
#[derive(Drop)]
pub(crate) struct Placed<'a, I> {
    /// What asks the system.
    pub(crate) rt: &'a HostRuntime,
    /// Where the file is.
    pub(crate) place: &'a Place,
    /// The input.
    pub(crate) input: I,
}

impl<I: Read> Read for Placed<'_, I> {
    fn read(&mut self, buf: &mut [u8]) -> io::Result<usize> {
        let count = self.input.read(buf)?;
        self.place.look(self.rt)?;
        Ok(count)
    }
}

// The file that has this name now.
fn known_at(rt: &HostRuntime, path: &str) -> io::Result<Known> {
    let file = File::open(rt, path)?;
    let found = file.metadata()?;
    let mut front = [0u8; HEADER];
    file.read_exact_at(&mut front, 0)?;
    Ok(Known {
        path: String::from_str(rt.alloc(), path)?,
        file,
        found,
        front,
    })
}

// Whether these bytes are this header.
fn begins_with(alloc: Global, front: &[u8; HEADER], header: Header) -> bool {
    let mut source = Stream::new(front.as_slice());
    match Reader::begin(alloc, &mut source, &()) {
        Ok(Some(reader)) => reader.header() == header,
        _ => false,
    }
}

// How long the file is, where its name still leads to it and it begins as it did. `Err` where a call of the system failed, or there is no memory to find out.
fn length_of(rt: &HostRuntime, known: &Known) -> io::Result<Option<u64>> {
    let now = match fs::metadata(rt, known.path.as_str()) {
        Ok(now) => now,
        Err(error) if error.kind() == ErrorKind::NotFound => return Ok(None),
        Err(error) if error.kind() == ErrorKind::NotADirectory => return Ok(None),
        Err(error) => return Err(error),
    };
    if !is_one_file(&known.found, &now) {
        return Ok(None);
    }
    let mut front = [0u8; HEADER];
    match known.file.read_exact_at(&mut front, 0) {
        Ok(()) if front == known.front => Ok(Some(now.len())),
        Ok(()) => Ok(None),
        Err(error) if error.kind() == ErrorKind::UnexpectedEof => Ok(None),
        Err(error) => Err(error),
    }
}
