//! Opening a journal, and a command a line.
ghost use Rattle.std.specs.Prelude.{IsTrue, OnOk};
ghost use Rattle.journal_core.specs.Resting.{disk_behind};

use crate::commands::{Command, Filler, command_of};
use crate::reading::write_record;
use crate::stopped::Stopped;
use journal_core::{Header, Journal, Reader};
use journal_file::open;
use line_streams::read_line;
use sqlite_disk::Disk;
use sqlite_std_file::Wary;
use std::alloc::Global;
use std::io::{BufReader, BufWriter, Read, Write};

// Room is made for a round of so many bytes.
const ROOM: usize = 2 << 20;

/// Opens the file at a path, tells what it has, and answers each line of the input until it ends, or an error of the journal comes.
pub fn play<I: Read + Drop, O: Write + Drop>(
    rt: &HostRuntime,
    path: &str,
    header: Header,
    list: bool,
    input: &mut BufReader<I>,
    output: &mut BufWriter<O>,
) -> Result<(), Stopped> {
    let (mut journal, found) = open(rt, path, header, &(), Wary)?;
    let count = match found {
        Some(reader) => read_all(rt.alloc(), &mut journal, reader, list, output)?,
        None => 0,
    };
    writeln!(output, "open {count} {}", journal.room())?;
    output.flush()?;
    answer_all(rt.alloc(), &mut journal, input, output)
}

// Reads the records that the file has, and tells each where they are to be listed; how many they are.
fn read_all<D: Disk, O: Write + Drop>(
    alloc: Global,
    journal: &mut Journal<D, ()>,
    mut reader: Reader,
    list: bool,
    output: &mut BufWriter<O>,
) -> Result<u64, Stopped>
    requires { IsTrue (D.Disk.is_usable (disk_behind journal.old)) }
    ensures { OnOk result (IsTrue (D.Disk.is_usable (disk_behind journal.new))) }
{
    let mut count = 0;
    for number in 0..u64::MAX {
        count = number;
        if !journal.read(&mut reader, &())? {
            break;
        }
        if list {
            write_record(alloc, reader.record(), output)?;
        }
    }
    Ok(count)
}

// Answers each line.
fn answer_all<D: Disk, I: Read + Drop, O: Write + Drop>(
    alloc: Global,
    journal: &mut Journal<D, ()>,
    input: &mut BufReader<I>,
    output: &mut BufWriter<O>,
) -> Result<(), Stopped>
    requires { IsTrue (D.Disk.is_usable (disk_behind journal.old)) }
{
    let mut filler = Filler::new();
    let mut line = Vec::new(alloc);
    for _ in 0..u64::MAX {
        if !read_line(input, &mut line, output)? {
            break;
        }
        answer(alloc, journal, &line, &mut filler, output)?;
        output.flush()?;
    }
    Ok(())
}

// Answers a line.
fn answer<D: Disk, O: Write + Drop>(
    alloc: Global,
    journal: &mut Journal<D, ()>,
    line: &[u8],
    filler: &mut Filler,
    output: &mut BufWriter<O>,
) -> Result<(), Stopped>
    requires { IsTrue (D.Disk.is_usable (disk_behind journal.old)) }
    ensures { OnOk result (IsTrue (D.Disk.is_usable (disk_behind journal.new))) }
{
    match command_of(alloc, line, filler)? {
        Command::Append(round) => {
            journal.append(&(), &round)?;
            writeln!(output, "ok")?;
        }
        Command::Room => {
            let _roomy = journal.make_room_for(&(), ROOM, None)?;
            writeln!(output, "ok {}", journal.room())?;
        }
        Command::Wrong => writeln!(output, "wrong")?,
    }
    Ok(())
}
