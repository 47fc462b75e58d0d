//! Salvaging: what stood in a file of stores before it is broken is put into a new one.
use crate::playing::play;
use dav_store_core::{Opened, StoreError};
use journal_core::{Header, Reader, Stream};
use std::alloc::Global;
use std::io::{BufReader, Read};
use store_files::Unwatched;

/// What stood in a file behind so many of its records, and its header (own).
#[derive(Drop)]
pub struct Front {
    /// The stores.
    pub opened: Opened,
    /// The header.
    pub header: Header,
}

/// Reads so many records of a file once more (own). What is wrong is told as `Opened::read_next` tells it; the file has changed where it has fewer.
pub fn read_front<I: Read + Drop>(
    alloc: Global,
    input: BufReader<I>,
    records: u64,
) -> Result<Front, StoreError> {
    let mut source = Stream::new(input);
    let Some(mut reader) = Reader::begin(alloc, &mut source, &())? else {
        return Err(StoreError::Damaged(0));
    };
    let (mut opened, first) = Opened::begin(alloc, &mut source, &mut reader, &())?;
    let numbers = first..records;
    match play(
        alloc,
        &mut source,
        &mut reader,
        &mut opened,
        numbers,
        &mut Unwatched,
    ) {
        Ok(None) => Ok(Front {
            opened,
            header: reader.header(),
        }),
        Ok(Some(number)) => Err(StoreError::Damaged(number)),
        Err(stop) => Err(stop.error),
    }
}
