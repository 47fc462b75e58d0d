//! What stood in a file of stores at an earlier moment, as far as its records go back.
use dav_effects_core::{RecordError, read};
use dav_guarded_core::fs::Moment;
use dav_snapshots_core::read as read_snapshot;
use dav_store_core::StoreError;
use journal_core::{Header, JournalError, Reader, Stream};
use std::alloc::{AllocError, Global};
use std::io::{self, BufReader, Read};
use store_views::Broken;

/// How many records of a file are of a moment, or of earlier ones (own).
#[derive(Drop)]
pub enum Reach {
    /// The file is still being made, and has no record.
    New,
    /// So many, from its front on; and its header.
    Records(u64, Header),
    /// None: what it has goes back to this moment.
    From(Moment),
    /// It is broken before the first of a later moment, or it is none.
    Broken(Broken),
}

/// Why the moment of a record is not known.
enum Unknown {
    Memory,
    Damage,
}

impl From<RecordError> for Unknown {
    fn from(error: RecordError) -> Unknown {
        match error {
            RecordError::OutOfMemory => Unknown::Memory,
            RecordError::Damaged { .. } => Unknown::Damage,
        }
    }
}

/// Reads a file up to the first record that is of a later moment than this one (own). The records are not played. An error where there is no memory, or a read fails.
pub fn look_until<I: Read + Drop>(
    alloc: Global,
    input: BufReader<I>,
    moment: Moment,
) -> io::Result<Reach> {
    let mut source = Stream::new(input);
    match Reader::begin(alloc, &mut source, &()) {
        Ok(Some(mut reader)) => {
            let header = reader.header();
            if header.generation == 0 && moment.0 < header.began {
                return Ok(Reach::From(Moment(header.began)));
            }
            look_on_until(alloc, &mut source, &mut reader, moment)
        }
        Ok(None) => Ok(Reach::New),
        Err(error) => stopped(StoreError::Journal(error), 0, 0),
    }
}

// Reads what stands behind the header.
fn look_on_until<I: Read + Drop>(
    alloc: Global,
    source: &mut Stream<BufReader<I>>,
    reader: &mut Reader,
    moment: Moment,
) -> io::Result<Reach> {
    for number in 0..u64::MAX {
        let is_front = number == 0 && reader.header().generation > 0;
        match reader.next(source, &()) {
            Ok(true) => {}
            Ok(false) if is_front => return stopped(StoreError::Damaged(0), 0, reader.place()),
            Ok(false) => return Ok(Reach::Records(number, reader.header())),
            Err(error) => return stopped(StoreError::Journal(error), number, reader.place()),
        }
        match moment_of(alloc, reader.record(), is_front) {
            Ok(last) if last.0 <= moment.0 => {}
            Ok(last) if is_front => return Ok(Reach::From(last)),
            Ok(_) => return Ok(Reach::Records(number, reader.header())),
            Err(Unknown::Memory) => return Err(AllocError.into()),
            Err(Unknown::Damage) => {
                return stopped(StoreError::Damaged(number), number, reader.place());
            }
        }
    }
    stopped(StoreError::Journal(JournalError::TooLarge), 0, 0)
}

// Where the file is broken. Want of memory, and a read that fails, tell nothing of the file.
fn stopped(error: StoreError, records: u64, place: usize) -> io::Result<Reach> {
    match error {
        StoreError::Journal(JournalError::OutOfMemory) => Err(AllocError.into()),
        StoreError::Journal(JournalError::Failed(error)) => Err(error),
        error => Ok(Reach::Broken(Broken {
            error,
            records,
            bytes: place as u64,
        })),
    }
}

// The last moment of a record, or of the snapshot in front; the first one of all for a record without a note.
fn moment_of(alloc: Global, record: &[u8], is_front: bool) -> Result<Moment, Unknown> {
    if is_front {
        let (_stores, last) = read_snapshot(alloc, record)?;
        return Ok(last);
    }
    let notes = read(alloc, record)?;
    match notes.last() {
        Some(note) => Ok(note.request.now),
        None => Ok(Moment(0)),
    }
}
