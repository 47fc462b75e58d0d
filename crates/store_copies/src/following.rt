//! Following: the rounds of a store are written to a stream as they come.
use crate::failures::Failure;
use crate::placed::{FIRST_GATE, Placed, read_word};
use journal_copies::read_round;
use journal_core::{Header, JournalError, Reader, Stream};
use journal_file::open as open_locked;
use sqlite_std_file::Wary;
use std::alloc::Global;
use std::fs::{self, File, Metadata};
use std::io::{self, BufWriter, ErrorKind, Read, Write};
use std::thread::sleep;
use std::time::Duration;
use store_files::is_one_file;

// How long it rests where nothing has come, in milliseconds.
const PAUSE: u64 = 50;

// So many rests lie between two looks whether anybody has the file open to write.
const LOOKS: u64 = 20;

// A file that is followed.
#[derive(Drop)]
struct Followed {
    file: File,
    found: Metadata,
    front: Vec<u8>,
    header: Header,
    // Where the gate is of the round that comes next.
    place: u64,
}

// What stands at a gate.
#[derive(Drop)]
enum AtGate {
    // It is shut.
    Shut,
    // A round.
    Round(Vec<u8>),
}

/// Writes the rounds of the store at this path to the output, each once its gate is open (own), from the round that ends at byte `from` on, or where none does, or none is named, from the first one. It ends where the
/// output or a read fails, or the file is damaged; and, where `to_end` says so, once nobody has the file open to write, and all is written. Where another file has come to the path, that is told in the stream, and all begins anew with it.
pub fn follow<O: Write + Drop>(
    rt: &HostRuntime,
    path: &str,
    from: Option<u64>,
    to_end: bool,
    output: &mut BufWriter<O>,
) -> Result<(), Failure> {
    let mut from = from;
    for _ in 0..u64::MAX {
        let mut followed = begin(rt, path)?;
        if followed.write_all(rt, path, from.take(), to_end, output)? {
            return Ok(output.flush()?);
        }
    }
    Ok(())
}

// The file at the path, once it has a header.
fn begin(rt: &HostRuntime, path: &str) -> Result<Followed, Failure> {
    for _ in 0..u64::MAX {
        if let Some(followed) = open(rt, path)? {
            return Ok(followed);
        }
        sleep(rt, Duration::from_millis(PAUSE));
    }
    Err(Failure::from(JournalError::TooLarge))
}

// The file at the path; none where it is still being made.
fn open(rt: &HostRuntime, path: &str) -> Result<Option<Followed>, Failure> {
    let file = File::open(rt, path)?;
    let found = file.metadata()?;
    let front = read_front(rt.alloc(), &file)?;
    let mut source = Stream::new(front.as_slice());
    match Reader::begin(rt.alloc(), &mut source, &())? {
        Some(reader) => Ok(Some(Followed {
            file,
            found,
            header: reader.header(),
            front,
            place: FIRST_GATE,
        })),
        None => Ok(None),
    }
}

// The first bytes of a file, up to the end of a header.
fn read_front(alloc: Global, file: &File) -> io::Result<Vec<u8>> {
    let mut front = Vec::new(alloc);
    Placed::new(file, 0)
        .take(FIRST_GATE)
        .read_to_end(&mut front)?;
    Ok(front)
}

impl Followed {
    // Writes the header and the rounds, until another file stands at the path, or, where that is asked for, until nobody writes any more. Whether it is that.
    fn write_all<O: Write + Drop>(
        &mut self,
        rt: &HostRuntime,
        path: &str,
        from: Option<u64>,
        to_end: bool,
        output: &mut BufWriter<O>,
    ) -> Result<bool, Failure> {
        if let Some(byte) = from
            && !self.go_to(byte)?
        {
            writeln!(
                rt.stderr(),
                "{path}: no round ends at byte {byte}: from the first one"
            )?;
        }
        output.write_all(&self.front)?;
        output.write_all(&self.place.to_le_bytes())?;
        let is_end = self.pass(rt, path, to_end, output)?;
        output.write_all(b"shutgate")?;
        Ok(is_end)
    }

    // Goes to the gate of the round that ends at this byte; whether one does.
    fn go_to(&mut self, byte: u64) -> io::Result<bool> {
        let mut gate = FIRST_GATE;
        for _ in 0..u64::MAX {
            let Some(next) = self.behind(gate)? else {
                return Ok(false);
            };
            if next == byte {
                self.place = gate;
                return Ok(true);
            }
            if next > byte {
                return Ok(false);
            }
            gate = next;
        }
        Ok(false)
    }

    // Where the round at this gate ends; none where the gate is shut, or the file ends.
    fn behind(&self, gate: u64) -> io::Result<Option<u64>> {
        let mut input = Placed::new(&self.file, gate);
        let Some(word) = read_word(&mut input)? else {
            return Ok(None);
        };
        let Some(len) = read_word(&mut input)? else {
            return Ok(None);
        };
        if word == *b"shutgate" {
            return Ok(None);
        }
        let Some(round) = u64::from_le_bytes(len).checked_add(24) else {
            return Ok(None);
        };
        Ok(gate.checked_add(round))
    }

    // Writes each round that comes, until another file stands at the path, or nobody writes any more, where that is asked for. What came into this one before is written then, too. Whether nobody writes.
    fn pass<O: Write + Drop>(
        &mut self,
        rt: &HostRuntime,
        path: &str,
        to_end: bool,
        output: &mut BufWriter<O>,
    ) -> Result<bool, Failure> {
        for turn in 0..u64::MAX {
            self.write_rounds(rt.alloc(), output)?;
            if is_another(rt, path, &self.found)? {
                self.write_rounds(rt.alloc(), output)?;
                return Ok(false);
            }
            if to_end && turn.is_multiple_of(LOOKS) && self.write_last(rt, path, output)? {
                return Ok(true);
            }
            sleep(rt, Duration::from_millis(PAUSE));
        }
        Ok(false)
    }

    // Writes what is left, where nobody has the file open to write. Whether nobody has. It is locked meanwhile.
    fn write_last<O: Write + Drop>(
        &mut self,
        rt: &HostRuntime,
        path: &str,
        output: &mut BufWriter<O>,
    ) -> Result<bool, Failure> {
        match open_locked(rt, path, self.header, &(), Wary) {
            Ok(locked) => {
                let is_this = !is_another(rt, path, &self.found)?;
                if is_this {
                    self.write_rounds(rt.alloc(), output)?;
                }
                drop(locked);
                Ok(is_this)
            }
            Err(JournalError::Busy) => Ok(false),
            Err(error) => Err(Failure::from(error)),
        }
    }

    // Writes the rounds up to the gate that is shut.
    fn write_rounds<O: Write + Drop>(
        &mut self,
        alloc: Global,
        output: &mut BufWriter<O>,
    ) -> Result<(), Failure> {
        for _ in 0..u64::MAX {
            match self.next(alloc)? {
                AtGate::Round(round) => {
                    output.write_all(b"opengate")?;
                    output.write_all(&round)?;
                    let size = (round.len() as u64).saturating_add(8);
                    self.place = self.place.saturating_add(size);
                }
                AtGate::Shut => return Ok(output.flush()?),
            }
        }
        Ok(())
    }

    // What stands at the next gate; an error where the file is damaged there.
    fn next(&self, alloc: Global) -> Result<AtGate, Failure> {
        let mut input = Placed::new(&self.file, self.place);
        match read_word(&mut input)? {
            Some(word) if word == *b"shutgate" => return Ok(AtGate::Shut),
            Some(_) => {}
            None => return Err(Failure::from(JournalError::Damaged(self.place))),
        }
        match read_round(alloc, &mut input, self.header.key, self.place as usize)? {
            Some(round) => Ok(AtGate::Round(round)),
            None => Err(Failure::from(JournalError::Damaged(self.place))),
        }
    }
}

// Whether another file stands at the path than this one. Where none stands there, one may come.
fn is_another(rt: &HostRuntime, path: &str, found: &Metadata) -> io::Result<bool> {
    match fs::metadata(rt, path) {
        Ok(now) => Ok(!is_one_file(&now, found)),
        Err(error) if error.kind() == ErrorKind::NotFound => Ok(false),
        Err(error) => Err(error),
    }
}
