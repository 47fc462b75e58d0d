//! What requests changed, a line for each change.
use crate::change_lines::{change_line, property_line};
use crate::looking::{Broken, break_of};
use dav_effects_core::{RecordError, read};
use dav_files_core::fs::DavProp;
use dav_guarded_core::fs::Moment;
use dav_guarded_core::guarded::{Command, Request};
use dav_notes_core::notes::Note;
use dav_path_core::davpath::DavPath;
use dav_snapshots_core::read as read_snapshot;
use dav_store_core::StoreError;
use journal_core::{JournalError, Reader, Stream};
use std::alloc::{AllocError, Global};
use std::io::{self, BufReader, BufWriter, Read, Write};

/// How far the changes of a file were told (own).
#[derive(Drop)]
pub enum Logged {
    /// All of them.
    All,
    /// The file is still being made, and has no record.
    New,
    /// Those before the place where it is broken; or it is none.
    Broken(Broken),
}

/// Writes a line for each change, record after record, up to the end or to where the file is broken, which is told (own). The records are read, and not played. Of the snapshot that a compacted file has in
/// front it writes a line, too.
pub fn log<I: Read + Drop, O: Write + Drop>(
    alloc: Global,
    input: BufReader<I>,
    bodies: bool,
    output: &mut BufWriter<O>,
) -> io::Result<Logged> {
    let mut source = Stream::new(input);
    match Reader::begin(alloc, &mut source, &()) {
        Ok(Some(mut reader)) => log_all(alloc, &mut source, &mut reader, bodies, output),
        Ok(None) => Ok(Logged::New),
        Err(error) => stopped(StoreError::Journal(error), 0, 0),
    }
}

// Writes the lines of what stands behind the header.
fn log_all<I: Read + Drop, O: Write + Drop>(
    alloc: Global,
    source: &mut Stream<BufReader<I>>,
    reader: &mut Reader,
    bodies: bool,
    output: &mut BufWriter<O>,
) -> io::Result<Logged> {
    for number in 0..u64::MAX {
        let is_front = number == 0 && reader.header().generation > 0;
        match reader.next(source, &()) {
            Ok(true) => {}
            Ok(false) if is_front => return stopped(StoreError::Damaged(0), 0, reader.place()),
            Ok(false) => return Ok(Logged::All),
            Err(error) => return stopped(StoreError::Journal(error), number, reader.place()),
        }
        let told = if is_front {
            log_snapshot(alloc, reader.record(), output)?
        } else {
            log_record(alloc, reader.record(), bodies, output)?
        };
        if !told {
            return stopped(StoreError::Damaged(number), number, reader.place());
        }
    }
    stopped(StoreError::Journal(JournalError::TooLarge), 0, 0)
}

// Where the file is broken.
fn stopped(error: StoreError, number: u64, place: usize) -> io::Result<Logged> {
    Ok(Logged::Broken(break_of(error, number, place as u64)?))
}

// Writes the lines of a record; false where it is none.
fn log_record<O: Write + Drop>(
    alloc: Global,
    record: &[u8],
    bodies: bool,
    output: &mut BufWriter<O>,
) -> io::Result<bool> {
    match read(alloc, record) {
        Ok(notes) => {
            write_notes(alloc, &notes, bodies, output)?;
            Ok(true)
        }
        Err(RecordError::OutOfMemory) => Err(AllocError.into()),
        Err(_) => Ok(false),
    }
}

// Writes a line for a snapshot, its last moment and how many bytes it has; false where it is none.
fn log_snapshot<O: Write + Drop>(
    alloc: Global,
    record: &[u8],
    output: &mut BufWriter<O>,
) -> io::Result<bool> {
    match last_moment(alloc, record) {
        Ok(last) => {
            writeln!(output, "{} - - snapshot {}", last.0, record.len())?;
            Ok(true)
        }
        Err(RecordError::OutOfMemory) => Err(AllocError.into()),
        Err(_) => Ok(false),
    }
}

// The last moment of a snapshot.
fn last_moment(alloc: Global, record: &[u8]) -> Result<Moment, RecordError> {
    let (_stores, last) = read_snapshot(alloc, record)?;
    Ok(last)
}

fn write_notes<O: Write + Drop>(
    alloc: Global,
    notes: &[Note],
    bodies: bool,
    output: &mut BufWriter<O>,
) -> io::Result<()> {
    for note in notes {
        write_change(alloc, &note.request, bodies, output)?;
        output.write_all(b"\n")?;
    }
    Ok(())
}

fn write_change<O: Write + Drop>(
    alloc: Global,
    request: &Request,
    bodies: bool,
    output: &mut BufWriter<O>,
) -> io::Result<()> {
    write_text(change_line(alloc, request), output)?;
    match &request.command {
        Command::Put { bytes, .. } | Command::Write { bytes, .. } => {
            write_body(alloc, bytes.as_slice(), bodies, output)
        }
        Command::PatchProps { path, patch } => write_patch(alloc, path, patch, bodies, output),
        _ => Ok(()),
    }
}

// One after another, each as davreplay has it, with a comma between them.
fn write_patch<O: Write + Drop>(
    alloc: Global,
    path: &DavPath,
    patch: &[(bool, DavProp)],
    bodies: bool,
    output: &mut BufWriter<O>,
) -> io::Result<()> {
    for (place, (is_set, prop)) in patch.iter().enumerate() {
        if place > 0 {
            output.write_all(b", ")?;
        }
        write_text(property_line(alloc, path, *is_set, prop), output)?;
        if *is_set {
            write_xml(alloc, prop, bodies, output)?;
        }
    }
    Ok(())
}

fn write_xml<O: Write + Drop>(
    alloc: Global,
    prop: &DavProp,
    bodies: bool,
    output: &mut BufWriter<O>,
) -> io::Result<()> {
    match &prop.xml {
        Some(xml) => write_body(alloc, xml, bodies, output),
        None => output.write_all(b" -"),
    }
}

// The bytes in hexadecimal, or how many there are.
fn write_body<O: Write + Drop>(
    alloc: Global,
    bytes: &[u8],
    bodies: bool,
    output: &mut BufWriter<O>,
) -> io::Result<()> {
    if !bodies {
        return write!(output, " {}", bytes.len());
    }
    if bytes.is_empty() {
        return output.write_all(b" -");
    }
    output.write_all(b" ")?;
    write_text(hex::encode(alloc, bytes), output)
}

fn write_text<O: Write + Drop>(
    text: Result<String, AllocError>,
    output: &mut BufWriter<O>,
) -> io::Result<()> {
    output.write_all(text?.as_str().as_bytes())
}
