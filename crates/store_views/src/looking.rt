//! Reading a file of stores to its end, or to where it is broken.
use crate::playing::play;
use dav_store_core::{Opened, StoreError, Watch};
use journal_core::{Header, JournalError, Reader, Stream};
use std::alloc::{AllocError, Global};
use std::io::{self, BufReader, Read};

/// What stands in the file (own).
#[derive(Drop)]
pub enum Seen {
    /// The file is still being made, and has no record.
    New,
    /// It is whole.
    Whole(Whole),
    /// It is broken, or it is none.
    Broken(Broken),
}

/// A file that is whole (own).
#[derive(Drop)]
pub struct Whole {
    /// The stores.
    pub opened: Opened,
    /// The header.
    pub header: Header,
    /// How many records it has.
    pub records: u64,
    /// How many bytes stand before the gate that is shut.
    pub bytes: u64,
}

/// Where a file is broken (own).
#[derive(Drop)]
pub struct Broken {
    /// Why.
    pub error: StoreError,
    /// How many records stand before it.
    pub records: u64,
    /// How many bytes the header and the whole rounds have that were read; the round of a record that can't be done is one of these.
    pub bytes: u64,
}

/// Reads all of a file (own); before each record the watch is told how far. An error where there is no memory; all else that is wrong is told as `Broken`.
pub fn look<I: Read + Drop, W: Watch>(
    alloc: Global,
    input: BufReader<I>,
    watch: &mut W,
) -> io::Result<Seen> {
    let mut source = Stream::new(input);
    match Reader::begin(alloc, &mut source, &()) {
        Ok(Some(mut reader)) => look_on(alloc, &mut source, &mut reader, watch),
        Ok(None) => Ok(Seen::New),
        Err(error) => seen_broken(StoreError::Journal(error), 0, 0),
    }
}

// Reads what stands behind the header.
fn look_on<I: Read + Drop, W: Watch>(
    alloc: Global,
    source: &mut Stream<BufReader<I>>,
    reader: &mut Reader,
    watch: &mut W,
) -> io::Result<Seen> {
    let (mut opened, first) = match Opened::begin(alloc, source, reader, &()) {
        Ok(begun) => begun,
        Err(error) => return seen_broken(error, 0, reader.place() as u64),
    };
    match play(alloc, source, reader, &mut opened, first..u64::MAX, watch) {
        Ok(Some(records)) => Ok(Seen::Whole(Whole {
            opened,
            header: reader.header(),
            records,
            bytes: reader.place() as u64,
        })),
        Ok(None) => seen_broken(StoreError::Journal(JournalError::TooLarge), 0, 0),
        Err(stop) => seen_broken(stop.error, stop.number, reader.place() as u64),
    }
}

fn seen_broken(error: StoreError, records: u64, bytes: u64) -> io::Result<Seen> {
    Ok(Seen::Broken(break_of(error, records, bytes)?))
}

/// Where the file is broken. Want of memory, and a read that fails, tell nothing of the file.
pub(crate) fn break_of(error: StoreError, records: u64, bytes: u64) -> io::Result<Broken> {
    match error {
        StoreError::Journal(JournalError::OutOfMemory) => Err(AllocError.into()),
        StoreError::Journal(JournalError::Failed(error)) => Err(error),
        error => Ok(Broken {
            error,
            records,
            bytes,
        }),
    }
}
