//! Records are read and played, one behind another.
use dav_store_core::{Opened, StoreError, Watch};
use journal_core::{Reader, Stream};
use std::alloc::Global;
use std::io::{BufReader, Read};
use std::ops::Range;

/// Why a record is not played.
#[derive(Drop)]
pub struct Stop {
    /// Why.
    pub error: StoreError,
    /// The number of the record.
    pub number: u64,
}

/// Plays the records that have these numbers; before each the watch is told how far. How many the file has, where it ends before them.
pub fn play<I: Read + Drop, W: Watch>(
    alloc: Global,
    source: &mut Stream<BufReader<I>>,
    reader: &mut Reader,
    opened: &mut Opened,
    numbers: Range<u64>,
    watch: &mut W,
) -> Result<Option<u64>, Stop> {
    for number in numbers {
        watch.has_read(reader.place());
        match opened.read_next(alloc, source, reader, &(), number) {
            Ok(true) => {}
            Ok(false) => return Ok(Some(number)),
            Err(error) => return Err(Stop { error, number }),
        }
    }
    Ok(None)
}
