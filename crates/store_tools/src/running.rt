//! The program: it takes the words, does what they choose, and tells how that ended.
use crate::choices::{Choices, What};
use crate::inputs::{BUFFER, input};
use crate::looks::{export_at, look_at, tell_broken, tell_new};
use dav_guarded_core::fs::Moment;
use std::alloc::AllocError;
use std::env;
use std::io::{self, BufWriter, ErrorKind, Write};
use store_changes::{import, unlock};
use store_copies::{Failure, follow, take};
use store_files::{Anew, Naming, Uncompacted, compact_file, make_new, now, settle_file};
use store_views::{Logged, log};

// The words that the program takes.
const USAGE: &str =
    "usage: davstore PATH new\n       davstore PATH check\n       davstore PATH list [FOLDER]\n       davstore PATH locks\n       davstore PATH unlock TOKEN\n       davstore PATH log [--bodies]\n       davstore PATH compact\n       davstore PATH settle MOMENT\n       davstore PATH import DIR\n       davstore PATH export DIR [--at MOMENT]\n       davstore PATH salvage OUT\n       davstore COPY adopt [--yes]\n       davstore PATH follow [BYTE] [--to-end]\n       davstore COPY take\n";

/// Does what the words behind the program's name choose, and tells it (own). The status: 0, or 1 where the file isn't whole, or nothing was there to tell, or not all was done, 2 where the words are not of the program's form, and 3 where a call of the system failed, or there was no memory.
pub fn run(rt: &HostRuntime) -> u8 {
    match words(rt) {
        Ok(words) => run_words(rt, &words),
        Err(error) if error.kind() == ErrorKind::OutOfMemory => ended(rt, "out of memory\n", 3),
        Err(_) => ended(rt, USAGE, 2),
    }
}

// The words behind the program's name; an error where one is no text.
fn words(rt: &HostRuntime) -> io::Result<Vec<String>> {
    let mut words = Vec::new(rt.alloc());
    for word in env::args(rt)?.skip(1) {
        if words.push(word).is_err() {
            return Err(io::Error::from(AllocError));
        }
    }
    Ok(words)
}

fn run_words(rt: &HostRuntime, words: &[String]) -> u8 {
    if let [word] = words
        && word.as_str() == "--help"
    {
        return help(rt);
    }
    let Some(choices) = Choices::of(words) else {
        return ended(rt, USAGE, 2);
    };
    match run_choices(rt, choices) {
        Ok(true) => 0,
        Ok(false) => 1,
        Err(failure) => failed(rt, choices.path, &failure),
    }
}

// Tells the usage on standard output; 3 where that fails.
fn help(rt: &HostRuntime) -> u8 {
    match rt.stdout().write_all(USAGE.as_bytes()) {
        Ok(()) => 0,
        Err(_) => 3,
    }
}

// Does and tells what was asked for. Whether the file is whole, and something is there to tell.
fn run_choices(rt: &HostRuntime, choices: Choices<'_>) -> Result<bool, Failure> {
    let mut output = BufWriter::with_capacity(rt.alloc(), BUFFER, rt.stdout())?;
    let told = do_what(rt, choices, &mut output);
    output.flush()?;
    told
}

fn do_what<O: Write + Drop>(
    rt: &HostRuntime,
    choices: Choices<'_>,
    output: &mut BufWriter<O>,
) -> Result<bool, Failure> {
    let path = choices.path;
    match choices.what {
        What::Read(asked) => look_at(rt, path, asked, output),
        What::Log(bodies) => log_changes(rt, path, bodies, output),
        What::Compact => Ok(compact(rt, path, output)?),
        What::Settle(from) => Ok(settle(rt, path, Moment(from), output)?),
        What::New => make(rt, path, output),
        What::Import(folder) => import(rt, path, folder, output),
        What::Unlock(token) => unlock(rt, path, token, output),
        What::ExportAt(folder, moment) => export_at(rt, path, folder, Moment(moment), output),
        What::Follow(from, to_end) => {
            follow(rt, path, from, to_end, output)?;
            Ok(true)
        }
        What::Take => take(rt, path, output),
    }
}

fn log_changes<O: Write + Drop>(
    rt: &HostRuntime,
    path: &str,
    bodies: bool,
    output: &mut BufWriter<O>,
) -> Result<bool, Failure> {
    match log(rt.alloc(), input(rt, path)?, bodies, output)? {
        Logged::All => Ok(true),
        Logged::New => {
            tell_new(output)?;
            Ok(true)
        }
        Logged::Broken(broken) => {
            tell_broken(&broken, output)?;
            Ok(false)
        }
    }
}

// Makes a store where nothing stands, and tells so, or what stands there.
fn make<O: Write + Drop>(
    rt: &HostRuntime,
    path: &str,
    output: &mut BufWriter<O>,
) -> Result<bool, Failure> {
    match make_new(rt, path, now(rt)?.0) {
        Ok(Naming::Linked) => writeln!(output, "made")?,
        Ok(Naming::Direct) => writeln!(output, "made, without a link, which can't be had there")?,
        Err(Uncompacted::InTheWay(found)) => {
            writeln!(output, "something stands there: {found}")?;
            return Ok(false);
        }
        Err(error) => return Err(Failure::from(error)),
    }
    Ok(true)
}

// Compacts the file, and tells how long it was and is, or why it stays as it was.
fn compact<O: Write + Drop>(
    rt: &HostRuntime,
    path: &str,
    output: &mut BufWriter<O>,
) -> io::Result<bool> {
    match compact_file(rt, path, Anew) {
        Ok(made) => {
            let (before, now) = (made.before, made.now);
            writeln!(output, "compacted: {before} bytes before, {now} bytes now")?;
            Ok(true)
        }
        Err(error) => tell_unmade(path, error, output),
    }
}

// Sets the clock of the stores back, and tells how long the file was and is, or why it stays as it was.
fn settle<O: Write + Drop>(
    rt: &HostRuntime,
    path: &str,
    from: Moment,
    output: &mut BufWriter<O>,
) -> io::Result<bool> {
    match settle_file(rt, path, from, Anew) {
        Ok(Some(made)) => {
            let (before, now) = (made.before, made.now);
            writeln!(output, "settled: {before} bytes before, {now} bytes now")?;
            Ok(true)
        }
        Ok(None) => {
            writeln!(output, "nothing was changed at that moment or later")?;
            Ok(true)
        }
        Err(error) => tell_unmade(path, error, output),
    }
}

// Tells why no file takes the place of the old one, which stays. Whether that is well: where it has no record yet.
fn tell_unmade<O: Write + Drop>(
    path: &str,
    error: Uncompacted,
    output: &mut BufWriter<O>,
) -> io::Result<bool> {
    match error {
        Uncompacted::New => {
            tell_new(output)?;
            Ok(true)
        }
        Uncompacted::InTheWay(draft) => {
            writeln!(output, "in the way: {draft}")?;
            Ok(false)
        }
        Uncompacted::Replaced => {
            writeln!(
                output,
                "another file has come to {path} meanwhile, and stays"
            )?;
            Ok(false)
        }
        Uncompacted::Store(error) => {
            writeln!(output, "{error}")?;
            Ok(false)
        }
        Uncompacted::Failed(error) | Uncompacted::Unsynced(error) => Err(error),
    }
}

// Tells why it has ended before its end. A failed write changes no status.
fn failed(rt: &HostRuntime, path: &str, failure: &Failure) -> u8 {
    if failure.is_for_memory() {
        return ended(rt, "out of memory\n", 3);
    }
    let _written = match failure {
        Failure::Refused(error) => {
            let _told = writeln!(rt.stdout(), "{error}");
            return 1;
        }
        Failure::NotEmpty(folder) => {
            let _told = writeln!(rt.stdout(), "no empty folder: {folder}");
            return 1;
        }
        Failure::Unkept(error) => writeln!(rt.stderr(), "{path}: {error}"),
        Failure::Changed(place) => writeln!(rt.stderr(), "{place}: changed while it was read"),
        Failure::At(place, error) => writeln!(rt.stderr(), "{place}: {error}"),
        Failure::Failed(error) => writeln!(rt.stderr(), "{path}: {error}"),
    };
    3
}

// A failed write changes no status.
fn ended(rt: &HostRuntime, text: &str, status: u8) -> u8 {
    let _written = rt.stderr().write_all(text.as_bytes());
    status
}
