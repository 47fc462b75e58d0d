//! What whole rounds behind a place where a file is broken name.
use crate::paths::told_path;
use dav_effects_core::{RecordError, read};
use dav_guarded_core::guarded::Command;
use dav_path_core::davpath::DavPath;
use journal_core::split_record;
use std::alloc::{AllocError, Global};
use std::io::{self, BufWriter, Write};
use store_copies::Tail;

/// What whole rounds have (own).
#[derive(Drop)]
pub struct Later {
    rounds: u64,
    records: u64,
    // The paths that they name, sorted.
    paths: Vec<String>,
}

/// What the whole rounds in these bytes name (own).
pub fn later_in(alloc: Global, tail: &mut Tail) -> io::Result<Later> {
    let mut later = Later {
        rounds: 0,
        records: 0,
        paths: Vec::new(alloc),
    };
    for _ in 0..u64::MAX {
        let Some(text) = tail.next_round()? else {
            break;
        };
        later.rounds = later.rounds.saturating_add(1);
        add_records(alloc, text, &mut later)?;
    }
    later
        .paths
        .sort_by(|one, other| one.as_str().cmp(other.as_str()))?;
    Ok(later)
}

// Adds what the records of a round name.
fn add_records(alloc: Global, text: &[u8], later: &mut Later) -> Result<(), AllocError> {
    let mut rest = text;
    for _ in 0..u64::MAX {
        let Some((record, behind)) = split_record(rest) else {
            break;
        };
        later.records = later.records.saturating_add(1);
        add_paths(alloc, record, &mut later.paths)?;
        rest = behind;
    }
    Ok(())
}

// Adds the paths that a record names; a snapshot names none here.
fn add_paths(alloc: Global, record: &[u8], paths: &mut Vec<String>) -> Result<(), AllocError> {
    match read(alloc, record) {
        Ok(notes) => {
            for note in &notes {
                add_command(alloc, &note.request.command, paths)?;
            }
            Ok(())
        }
        Err(RecordError::OutOfMemory) => Err(AllocError),
        Err(_) => Ok(()),
    }
}

fn add_command(
    alloc: Global,
    command: &Command,
    paths: &mut Vec<String>,
) -> Result<(), AllocError> {
    match command {
        Command::Put { path, .. }
        | Command::Write { path, .. }
        | Command::MkCol { path }
        | Command::Remove { path }
        | Command::PatchProps { path, .. }
        | Command::Lock { path, .. }
        | Command::Unlock { path, .. }
        | Command::Refresh { path, .. } => add_path(alloc, path, paths),
        Command::Move { from, to } | Command::Copy { from, to } => {
            add_path(alloc, from, paths)?;
            add_path(alloc, to, paths)
        }
        _ => Ok(()),
    }
}

fn add_path(alloc: Global, path: &DavPath, paths: &mut Vec<String>) -> Result<(), AllocError> {
    let told = told_path(alloc, path)?;
    paths.push(told).map_err(|_| AllocError)
}

/// Tells of whole rounds that were found (own): how many, and a line for each path that they name. Nothing, where there is none.
pub fn tell_later<O: Write + Drop>(later: &Later, output: &mut BufWriter<O>) -> io::Result<()> {
    if later.rounds == 0 {
        return Ok(());
    }
    writeln!(
        output,
        "behind it stand {} whole rounds with {} records",
        later.rounds, later.records
    )?;
    let mut last: Option<&str> = None;
    for path in &later.paths {
        let path = path.as_str();
        if last != Some(path) {
            writeln!(output, "named there: {path}")?;
        }
        last = Some(path);
    }
    Ok(())
}
