//! Reading a journal from a stream, and telling its records.
use crate::stopped::Stopped;
use journal_core::{Reader, Stream};
use std::alloc::Global;
use std::io::{BufReader, BufWriter, Read, Write};

/// Reads a journal from the input and tells each record, and then where its last gate is; or that it is new.
pub fn read_stream<I: Read + Drop, O: Write + Drop>(
    alloc: Global,
    input: BufReader<I>,
    output: &mut BufWriter<O>,
) -> Result<(), Stopped> {
    let mut source = Stream::new(input);
    let Some(mut reader) = Reader::begin(alloc, &mut source, &())? else {
        writeln!(output, "new")?;
        return Ok(());
    };
    for _ in 0..u64::MAX {
        if !reader.next(&mut source, &())? {
            break;
        }
        write_record(alloc, reader.record(), output)?;
    }
    writeln!(output, "whole {}", reader.place())?;
    Ok(())
}

/// Tells a record in hexadecimal.
pub fn write_record<O: Write + Drop>(
    alloc: Global,
    record: &[u8],
    output: &mut BufWriter<O>,
) -> Result<(), Stopped> {
    if record.is_empty() {
        writeln!(output, "record -")?;
        return Ok(());
    }
    let text = hex::encode(alloc, record)?;
    writeln!(output, "record {text}")?;
    Ok(())
}
