//! What is told of a file that was read to its end, and done with it.
use crate::choices::Purpose;
use crate::earlier::{Reach, look_until};
use crate::exporting::export;
use crate::inputs::input;
use dav_guarded_core::fs::Moment;
use std::io::{self, BufWriter, Write};
use store_copies::{Failure, Found, Tail, round_behind};
use store_files::{Anew, Opening, Uncompacted, Unwatched, make_store};
use store_views::{
    Broken, Front, Seen, Whole, adopt, end_of, header_of, is_wanted, later_in, list, list_locks,
    look, read_front, tell_later,
};

/// Reads the file to its end, and does what is asked. Whether it is whole, and something is there to tell, and all was done.
pub fn look_at<O: Write + Drop>(
    rt: &HostRuntime,
    path: &str,
    asked: Purpose<'_>,
    output: &mut BufWriter<O>,
) -> Result<bool, Failure> {
    let seen = see(rt, path, asked)?;
    do_with(rt, path, &seen, asked, output)
}

/// Exports what stood in the file at a moment, or tells why that is not to be had. Whether nothing was left out.
pub fn export_at<O: Write + Drop>(
    rt: &HostRuntime,
    path: &str,
    folder: &str,
    moment: Moment,
    output: &mut BufWriter<O>,
) -> Result<bool, Failure> {
    match look_until(rt.alloc(), input(rt, path)?, moment)? {
        Reach::New => {
            tell_new(output)?;
            Ok(true)
        }
        Reach::Records(records, header) => {
            let front = read_front(rt.alloc(), input(rt, path)?, records)?;
            if front.header != header {
                return Err(Failure::Changed(String::from_str(rt.alloc(), path)?));
            }
            export(rt, &front.opened.stores, folder, output)
        }
        Reach::From(first) => {
            let first = first.0;
            writeln!(output, "its records go back to moment {first}")?;
            Ok(false)
        }
        Reach::Broken(broken) => {
            tell_broken(&broken, output)?;
            Ok(false)
        }
    }
}

// What stands in the file. Before an export it is told how much of it was read.
fn see(rt: &HostRuntime, path: &str, asked: Purpose<'_>) -> io::Result<Seen> {
    let input = input(rt, path)?;
    let Purpose::Export(_) = asked else {
        return look(rt.alloc(), input, &mut Unwatched);
    };
    let mut opening = Opening::of(rt, path);
    let seen = look(rt.alloc(), input, &mut opening);
    opening.end();
    seen
}

fn do_with<O: Write + Drop>(
    rt: &HostRuntime,
    path: &str,
    seen: &Seen,
    asked: Purpose<'_>,
    output: &mut BufWriter<O>,
) -> Result<bool, Failure> {
    match seen {
        Seen::New => {
            tell_new(output)?;
            Ok(tell_unbroken(asked, output)?)
        }
        Seen::Whole(whole) => do_whole(rt, path, whole, asked, output),
        Seen::Broken(broken) => do_broken(rt, path, broken, asked, output),
    }
}

/// Tells that the file is still being made.
pub fn tell_new<O: Write + Drop>(output: &mut BufWriter<O>) -> io::Result<()> {
    writeln!(output, "new")
}

// A file that isn't broken is not adopted. Whether all was done.
fn tell_unbroken<O: Write + Drop>(
    asked: Purpose<'_>,
    output: &mut BufWriter<O>,
) -> io::Result<bool> {
    let Purpose::Adopt(_) = asked else {
        return Ok(true);
    };
    writeln!(output, "nothing is to be adopted")?;
    Ok(false)
}

fn do_whole<O: Write + Drop>(
    rt: &HostRuntime,
    path: &str,
    whole: &Whole,
    asked: Purpose<'_>,
    output: &mut BufWriter<O>,
) -> Result<bool, Failure> {
    match asked {
        Purpose::Check => check(rt, path, whole, output),
        Purpose::List(folder) if !folder.starts_with('/') => {
            writeln!(output, "a path begins with a slash: /{folder}")?;
            Ok(false)
        }
        Purpose::List(folder) => Ok(list(rt.alloc(), &whole.opened.stores, folder, output)?),
        Purpose::Locks => Ok(list_locks(rt.alloc(), &whole.opened.stores, output)?),
        Purpose::Export(folder) => export(rt, &whole.opened.stores, folder, output),
        Purpose::Salvage(_) | Purpose::Adopt(_) => {
            tell_whole(whole, output)?;
            Ok(tell_unbroken(asked, output)?)
        }
    }
}

// Tells what stands in the file, and whether a whole round stands behind it.
fn check<O: Write + Drop>(
    rt: &HostRuntime,
    path: &str,
    whole: &Whole,
    output: &mut BufWriter<O>,
) -> Result<bool, Failure> {
    tell_whole(whole, output)?;
    if let Some(found) = round_behind(rt, path, whole.header.key, whole.bytes)? {
        let Found { records, bytes } = found;
        writeln!(
            output,
            "behind it a whole round, whose gate is shut: {records} records, {bytes} bytes"
        )?;
    }
    Ok(true)
}

fn tell_whole<O: Write + Drop>(whole: &Whole, output: &mut BufWriter<O>) -> io::Result<()> {
    let (records, bytes) = (whole.records, whole.bytes);
    let (last, began) = (whole.opened.last.0, whole.header.began);
    writeln!(
        output,
        "whole: {records} records, {bytes} bytes, last moment {last}, began {began}"
    )
}

fn do_broken<O: Write + Drop>(
    rt: &HostRuntime,
    path: &str,
    broken: &Broken,
    asked: Purpose<'_>,
    output: &mut BufWriter<O>,
) -> Result<bool, Failure> {
    tell_broken(broken, output)?;
    match asked {
        Purpose::Salvage(to) => salvage(rt, path, to, broken, output),
        Purpose::Adopt(is_sure) => adopt_copy(rt, path, is_sure, broken, output),
        _ => Ok(false),
    }
}

/// Tells where the file is broken.
pub fn tell_broken<O: Write + Drop>(broken: &Broken, output: &mut BufWriter<O>) -> io::Result<()> {
    let Broken {
        error,
        records,
        bytes,
    } = broken;
    writeln!(
        output,
        "{error}: {records} records stand before it, {bytes} bytes"
    )
}

// Shuts the gate at which a copy is broken, once that is wanted; else why not is told.
fn adopt_copy<O: Write + Drop>(
    rt: &HostRuntime,
    path: &str,
    is_sure: bool,
    broken: &Broken,
    output: &mut BufWriter<O>,
) -> Result<bool, Failure> {
    let Some(end) = end_of(rt, path, broken, output)? else {
        return Ok(false);
    };
    output.flush()?;
    if !is_sure && !is_wanted(rt, path, &end)? {
        writeln!(output, "not adopted")?;
        return Ok(false);
    }
    adopt(rt, path, &end, output)
}

// Tells what stands behind the broken place, and puts what stood before it into a new file, where that is a record.
fn salvage<O: Write + Drop>(
    rt: &HostRuntime,
    path: &str,
    to: &str,
    broken: &Broken,
    output: &mut BufWriter<O>,
) -> Result<bool, Failure> {
    tell_rounds_behind(rt, path, broken.bytes, output)?;
    if broken.records == 0 {
        return Ok(false);
    }
    let front = read_front(rt.alloc(), input(rt, path)?, broken.records)?;
    make_of(rt, to, &front, broken.records, output)
}

// Tells what the whole rounds name that stand behind this byte.
fn tell_rounds_behind<O: Write + Drop>(
    rt: &HostRuntime,
    path: &str,
    bytes: u64,
    output: &mut BufWriter<O>,
) -> Result<(), Failure> {
    let Some(header) = header_of(rt, path)? else {
        return Ok(());
    };
    let mut tail = Tail::of(rt, path, header.key, bytes)?;
    let later = later_in(rt.alloc(), &mut tail)?;
    Ok(tell_later(&later, output)?)
}

// Makes a store of what stood in another file, and tells so.
fn make_of<O: Write + Drop>(
    rt: &HostRuntime,
    to: &str,
    front: &Front,
    records: u64,
    output: &mut BufWriter<O>,
) -> Result<bool, Failure> {
    match make_store(rt, to, front.header, &front.opened, Anew) {
        Ok(_store) => {
            let last = front.opened.last.0;
            writeln!(output, "salvaged: {records} records, last moment {last}")?;
            Ok(true)
        }
        Err(Uncompacted::InTheWay(_) | Uncompacted::New | Uncompacted::Replaced) => {
            writeln!(output, "something stands there: {to}")?;
            Ok(false)
        }
        Err(Uncompacted::Store(error)) => Err(Failure::from(error)),
        Err(Uncompacted::Failed(error) | Uncompacted::Unsynced(error)) => {
            Err(Failure::At(String::from_str(rt.alloc(), to)?, error))
        }
    }
}
