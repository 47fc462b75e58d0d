//! Taking: what `follow` writes is added to a copy.
ghost use Rattle.std.specs.Prelude.{◌≡◌, ◌++◌, [], ◌∷◌, drop, ℕ, List, Ok, None, true, IsTrue, OnOk};
ghost use Rattle.std.specs.Io.Buffered.{reader_remaining};
ghost use Rattle.std.specs.Io.KnownBytes.{Consumes};
ghost use Rattle.journal_core.specs.Resting.{IsSettled, disk_behind};
ghost use Rattle.journal_copies.specs.ReadRounds.{HoldRecords, records_of_all};
ghost use Rattle.store_copies.specs.TakenRounds.{AddsRounds, Came, HasInFront};

use crate::coming::{Next, come_by_now, end_of, read_next};
use crate::failures::Failure;
use crate::naming::{open_copy, real_path, standing_header, take_turn, turn_at_own};
use crate::placed::{FIRST_GATE, read_word};
use crate::putting::{append_read, put_file};
use journal_copies::{next_round, records_in, records_of};
use journal_core::{Header, Journal, JournalError, Reader, Stream};
use sqlite_disk::Disk;
use sqlite_std_file::{FileFrom, Wary};
use std::alloc::{AllocError, Global};
use std::fs::File;
use std::io::{self, BufReader, BufWriter, ErrorKind, Read, Write};
use store_files::{Anew, HEADER, Progress};

// What is told where another store comes.
const OTHER: &str = "another store comes, and not a later generation of this one";

// What stands in front of the rounds of one file in the stream.
#[derive(Clone, Copy)]
struct Front {
    header: Header,
    // Where the gate is of the first round that comes.
    place: u64,
}

// Why the rounds of a file come to an end.
#[derive(Drop)]
enum End {
    // The stream has ended.
    Stream,
    // Another file was followed from here on.
    Anew(Front),
    // What came does not fit; this is told of it.
    Refused(String),
}

// What was taken.
#[derive(Drop)]
struct Taken<'a> {
    rt: &'a HostRuntime,
    // Where the copy is.
    path: &'a str,
    progress: Progress<'a>,
    // The turn at the file that has the name of the copy.
    turn: Option<File>,
    // How many rounds and records were appended.
    rounds: u64,
    records: u64,
    // How many rounds the copy had already.
    had: u64,
    // Up to which byte it has what came.
    place: u64,
}

/// Adds to the store at this path what comes (own); it is made where it isn't there. Whether all that came fitted behind what it had.
pub fn take<O: Write + Drop>(
    rt: &HostRuntime,
    path: &str,
    output: &mut BufWriter<O>,
) -> Result<bool, Failure> {
    let mut taken = Taken {
        rt,
        path,
        progress: Progress::new(rt),
        turn: None,
        rounds: 0,
        records: 0,
        had: 0,
        place: FIRST_GATE,
    };
    let ended = take_all(&mut taken)?;
    taken.progress.end();
    Ok(taken.tell_end(&ended, output)?)
}

// Takes what comes on standard input.
fn take_all(taken: &mut Taken<'_>) -> Result<End, Failure> {
    let rt = taken.rt;
    let mut input = BufReader::with_capacity(rt.alloc(), 64 * 1024, rt.stdin())?;
    match read_front(rt.alloc(), &mut input)? {
        Some(front) => begin(front, &mut input, taken),
        None => refused(rt, "no stream of a store"),
    }
}

fn refused(rt: &HostRuntime, why: &str) -> Result<End, Failure> {
    Ok(End::Refused(String::from_str(rt.alloc(), why)?))
}

// What stands in front of the rounds of a file; none where the stream has ended, or no header comes.
fn read_front<I: Read>(alloc: Global, input: &mut I) -> Result<Option<Front>, Failure> {
    let mut bytes = [0u8; HEADER];
    match input.read_exact(&mut bytes) {
        Ok(()) => {}
        Err(error) if error.kind() == ErrorKind::UnexpectedEof => return Ok(None),
        Err(error) => return Err(Failure::from(error)),
    }
    let Some(place) = read_word(input)? else {
        return Ok(None);
    };
    let mut source = Stream::new(bytes.as_slice());
    match Reader::begin(alloc, &mut source, &()) {
        Ok(Some(reader)) => Ok(Some(Front {
            header: reader.header(),
            place: u64::from_le_bytes(place),
        })),
        Ok(None) | Err(JournalError::Foreign | JournalError::Damaged(_)) => Ok(None),
        Err(error) => Err(Failure::from(error)),
    }
}

// Begins with the first file of the stream.
fn begin<I: Read>(
    front: Front,
    input: &mut BufReader<I>,
    taken: &mut Taken<'_>,
) -> Result<End, Failure> {
    let rt = taken.rt;
    let real = real_path(rt, taken.path)?;
    let Some(header) = standing_header(rt, real.as_str())? else {
        return take_anew(real.as_str(), None, front, input, taken);
    };
    taken.turn = Some(take_turn(rt, real.as_str())?);
    let (mut journal, found) = open_copy(rt, real.as_str(), header, Wary)?;
    let Some(reader) = found else {
        return refused(rt, "the copy has changed");
    };
    let copy = &mut Some(reader);
    begin_behind(
        &mut journal,
        copy,
        real.as_str(),
        header,
        front,
        input,
        taken,
    )
}

// Begins behind what the copy has, which has this header.
fn begin_behind<D: Disk, I: Read>(
    journal: &mut Journal<D, ()>,
    copy: &mut Option<Reader>,
    real: &str,
    header: Header,
    front: Front,
    input: &mut BufReader<I>,
    taken: &mut Taken<'_>,
) -> Result<End, Failure>
    requires usable { IsTrue (D.Disk.is_usable (disk_behind journal.old)) }
{
    if header != front.header {
        return begin_later(journal, copy, real, header, front, input, taken);
    }
    match go_on(journal, copy, front, input, taken)? {
        End::Anew(later) => begin_later(journal, copy, real, header, later, input, taken),
        end => Ok(end),
    }
}

// Replaces the copy, which has this header, where the stream goes on with a later generation of it. The copy is read to its end first: a draft of it is removed then.
fn begin_later<D: Disk, I: Read>(
    journal: &mut Journal<D, ()>,
    copy: &mut Option<Reader>,
    real: &str,
    header: Header,
    front: Front,
    input: &mut BufReader<I>,
    taken: &mut Taken<'_>,
) -> Result<End, Failure>
    requires usable { IsTrue (D.Disk.is_usable (disk_behind journal.old)) }
{
    if !is_later(&header, &front.header) {
        return refused(taken.rt, OTHER);
    }
    passes_to(taken.rt.alloc(), journal, copy, u64::MAX)?;
    take_anew(real, Some(header), front, input, taken)
}

// Whether a header is that of a later generation of the same store.
fn is_later(header: &Header, other: &Header) -> bool {
    other.began == header.began && other.generation > header.generation
}

// Puts a new file at the path, in place of the one that has this header, or where there is none, and adds to it what comes; and so on, where the store is compacted again.
fn take_anew<I: Read>(
    real: &str,
    had: Option<Header>,
    front: Front,
    input: &mut BufReader<I>,
    taken: &mut Taken<'_>,
) -> Result<End, Failure> {
    let mut held = None;
    take_files(real, &mut held, had, front, input, taken)
}

// Takes one file after another; the last one is held.
fn take_files<I: Read>(
    real: &str,
    held: &mut Option<Journal<FileFrom<Anew>, ()>>,
    had: Option<Header>,
    front: Front,
    input: &mut BufReader<I>,
    taken: &mut Taken<'_>,
) -> Result<End, Failure> {
    let (mut had, mut front) = (had, front);
    for _ in 0..u64::MAX {
        let round = match first_round(taken.rt, front, input)? {
            First::Round(round) => round,
            First::Ended(end) => return Ok(end),
        };
        match take_file(real, held, had, front, &round, input, taken)? {
            End::Anew(later) if is_later(&front.header, &later.header) => {
                had = Some(front.header);
                front = later;
            }
            End::Anew(_) => return refused(taken.rt, OTHER),
            end => return Ok(end),
        }
    }
    Ok(End::Stream)
}

// Takes one file, of which this is the first round, in place of the one that has this header. The one that is held is locked until the new one has the name, which is held then.
fn take_file<I: Read>(
    real: &str,
    held: &mut Option<Journal<FileFrom<Anew>, ()>>,
    had: Option<Header>,
    front: Front,
    round: &[u8],
    input: &mut BufReader<I>,
    taken: &mut Taken<'_>,
) -> Result<End, Failure> {
    let mut journal = put_file(taken.rt, real, had, front.header, round, Anew)?;
    *held = None;
    taken.turn = Some(turn_at_own(taken.rt, real)?);
    taken.place = FIRST_GATE;
    taken.add(round);
    let ended = go_on(&mut journal, &mut None, taken.behind(front), input, taken);
    *held = Some(journal);
    ended
}

// The first round of a file.
#[derive(Drop)]
enum First {
    Round(Vec<u8>),
    // None came.
    Ended(End),
}

// Reads the first round of a store.
fn first_round<I: Read>(rt: &HostRuntime, front: Front, input: &mut I) -> Result<First, Failure> {
    if front.place != FIRST_GATE {
        let why = "it does not begin with the first round of a store";
        return Ok(First::Ended(refused(rt, why)?));
    }
    match read_next(rt.alloc(), input, front.header.key, FIRST_GATE)? {
        Next::Round(round) => Ok(First::Round(round)),
        Next::Shut => match read_front(rt.alloc(), input)? {
            Some(later) => Ok(First::Ended(End::Anew(later))),
            None => Ok(First::Ended(End::Stream)),
        },
        Next::Ended => Ok(First::Ended(End::Stream)),
        Next::Cut => {
            let why = "the stream has no whole round";
            Ok(First::Ended(refused_at(rt, why, FIRST_GATE)?))
        }
    }
}

// Adds the rounds that come, behind those that the copy has, which are passed first.
fn go_on<D: Disk, I: Read>(
    journal: &mut Journal<D, ()>,
    copy: &mut Option<Reader>,
    front: Front,
    input: &mut BufReader<I>,
    taken: &mut Taken<'_>,
) -> Result<End, Failure>
    requires usable { IsTrue (D.Disk.is_usable (disk_behind journal.old)) }
    ensures usable { OnOk result (IsTrue (D.Disk.is_usable (disk_behind journal.new))) }
{
    let rt = taken.rt;
    taken.place = front.place;
    if !passes_to(rt.alloc(), journal, copy, front.place)? {
        return refused(
            rt,
            "a gap: no round of the copy ends where what comes begins",
        );
    }
    'taking: for _ in 0..u64::MAX {
        if let Some(end) = taken.take_next(journal, copy, front.header.key, input)? {
            return Ok(end);
        }
    }
    Ok(End::Stream)
}

// What does not fit at this byte.
fn refused_at(rt: &HostRuntime, why: &str, place: u64) -> Result<End, Failure> {
    let told = format!(in rt.alloc(); "{why} at byte {place}")?;
    Ok(End::Refused(told))
}

// Behind the end of a file in the stream.
fn begin_next<I: Read>(alloc: Global, input: &mut I) -> Result<End, Failure> {
    match read_front(alloc, input)? {
        Some(later) => Ok(End::Anew(later)),
        None => Ok(End::Stream),
    }
}

// Reads the rounds of a copy up to this gate, where there is one; whether one ends there.
fn passes_to<D: Disk>(
    alloc: Global,
    journal: &mut Journal<D, ()>,
    copy: &mut Option<Reader>,
    gate: u64,
) -> Result<bool, Failure>
    requires usable { IsTrue (D.Disk.is_usable (disk_behind journal.old)) }
    ensures usable { IsTrue (D.Disk.is_usable (disk_behind journal.new)) }
{
    match copy {
        Some(reader) => pass_to(alloc, journal, reader, gate),
        None => Ok(true),
    }
}

// Reads the rounds of the copy up to this gate; whether one ends there.
fn pass_to<D: Disk>(
    alloc: Global,
    journal: &mut Journal<D, ()>,
    reader: &mut Reader,
    gate: u64,
) -> Result<bool, Failure>
    requires usable { IsTrue (D.Disk.is_usable (disk_behind journal.old)) }
    ensures usable { IsTrue (D.Disk.is_usable (disk_behind journal.new)) }
{
    'passing: for _ in 0..u64::MAX {
        let place = reader.place();
        if place as u64 >= gate {
            return Ok(place as u64 == gate);
        }
        if next_round(alloc, journal, reader, &(), place)?.is_none() {
            return Ok(false);
        }
    }
    Ok(false)
}

// What the copy has at a gate.
#[derive(Drop)]
enum There {
    Same,
    Other,
    None,
}

// Whether the copy has this round at this gate. Where it has none it was read to its end, and is open; from then on it has no reader.
fn look_there<D: Disk>(
    alloc: Global,
    journal: &mut Journal<D, ()>,
    copy: &mut Option<Reader>,
    place: u64,
    round: &[u8],
) -> Result<There, Failure>
    requires usable { IsTrue (D.Disk.is_usable (disk_behind journal.old)) }
    ensures same { result ≡ Ok There.Same → AddsRounds D.Disk.seen D.Disk.may_leave D.Disk.is_clean journal.old copy.old journal.new copy.new (round.now ∷ []) }
    ensures none { result ≡ Ok There.None → (copy.new ≡ None) × ((records : List (List ℕ)) → HasInFront D.Disk.seen D.Disk.may_leave D.Disk.is_clean journal.old copy.old records
        → IsTrue (D.Disk.is_clean (disk_behind journal.new)) → IsSettled D.Disk.seen D.Disk.may_leave D.Disk.is_clean journal.new records) }
    ensures usable { IsTrue (D.Disk.is_usable (disk_behind journal.new)) }
{
    let Some(reader) = copy else {
        return Ok(There::None);
    };
    match next_round(alloc, journal, reader, &(), place as usize)? {
        Some(text) if is_of(text.as_slice(), round) => Ok(There::Same),
        Some(_) => Ok(There::Other),
        None => {
            *copy = None;
            Ok(There::None)
        }
    }
}

// Whether these are the bytes of the records of a round.
fn is_of(text: &[u8], round: &[u8]) -> bool
    ensures { result ≡ true → text.now ≡ drop 16 round.now }
{
    text == records_of(round)
}

impl Taken<'_> {
    // Takes the next round, with those that have come behind it. Why the rounds come to an end, where they do.
    fn take_next<D: Disk, I: Read>(
        &mut self,
        journal: &mut Journal<D, ()>,
        copy: &mut Option<Reader>,
        key: u64,
        input: &mut BufReader<I>,
    ) -> Result<Option<End>, Failure>
        requires usable { IsTrue (D.Disk.is_usable (disk_behind journal.old)) }
        ensures taken { result ≡ Ok None → (came : List (List ℕ)) × (bytes : List ℕ) × Came came bytes × Consumes (reader_remaining I.Read.remaining input.old) (reader_remaining I.Read.remaining input.new) bytes
            × AddsRounds D.Disk.seen D.Disk.may_leave D.Disk.is_clean journal.old copy.old journal.new copy.new came }
        ensures usable { OnOk result (IsTrue (D.Disk.is_usable (disk_behind journal.new))) }
    {
        let rt = self.rt;
        match read_next(rt.alloc(), input, key, self.place)? {
            Next::Round(round) => self.take_round(journal, copy, key, &round, input),
            Next::Ended => Ok(Some(End::Stream)),
            Next::Cut => Ok(Some(self.refused_cut()?)),
            Next::Shut => Ok(Some(begin_next(rt.alloc(), input)?)),
        }
    }

    // Takes a round that was read. Where the copy does not have it, it is added with those that have come behind it; then the copy has them, on its disk.
    fn take_round<D: Disk, I: Read>(
        &mut self,
        journal: &mut Journal<D, ()>,
        copy: &mut Option<Reader>,
        key: u64,
        round: &[u8],
        input: &mut BufReader<I>,
    ) -> Result<Option<End>, Failure>
        requires usable { IsTrue (D.Disk.is_usable (disk_behind journal.old)) }
        ensures taken { result ≡ Ok None → (more : List (List ℕ)) × (bytes : List ℕ) × Came more bytes × Consumes (reader_remaining I.Read.remaining input.old) (reader_remaining I.Read.remaining input.new) bytes
            × AddsRounds D.Disk.seen D.Disk.may_leave D.Disk.is_clean journal.old copy.old journal.new copy.new (round.now ∷ more) }
        ensures usable { OnOk result (IsTrue (D.Disk.is_usable (disk_behind journal.new))) }
    {
        match look_there(self.rt.alloc(), journal, copy, self.place, round)? {
            There::Other => Ok(Some(refused_at(
                self.rt,
                "the copy has another round",
                self.place,
            )?)),
            There::Same => {
                self.pass(round);
                Ok(None)
            }
            There::None => self.add_all(journal, key, round, input),
        }
    }

    // Adds a round, and with it those that have come behind it.
    fn add_all<D: Disk, I: Read>(
        &mut self,
        journal: &mut Journal<D, ()>,
        key: u64,
        round: &[u8],
        input: &mut BufReader<I>,
    ) -> Result<Option<End>, Failure>
        requires usable { IsTrue (D.Disk.is_usable (disk_behind journal.old)) }
        ensures taken { result ≡ Ok None → (more : List (List ℕ)) × (bytes : List ℕ) × Came more bytes × Consumes (reader_remaining I.Read.remaining input.old) (reader_remaining I.Read.remaining input.new) bytes
            × ((records : List (List ℕ)) (new : List (List (List ℕ))) → IsSettled D.Disk.seen D.Disk.may_leave D.Disk.is_clean journal.old records → HoldRecords (round.now ∷ more) new
            → IsSettled D.Disk.seen D.Disk.may_leave D.Disk.is_clean journal.new (records ++ records_of_all new)) }
        ensures clean { D.Disk.is_clean (disk_behind journal.new) ≡ D.Disk.is_clean (disk_behind journal.old) }
        ensures usable { OnOk result (IsTrue (D.Disk.is_usable (disk_behind journal.new))) }
    {
        let alloc = self.rt.alloc();
        let come = come_by_now(alloc, input, key, end_of(self.place, round))?;
        append_read(alloc, journal, round, &come.rounds)?;
        self.add(round);
        self.add_each(&come.rounds);
        if come.is_cut {
            return Ok(Some(self.refused_cut()?));
        }
        Ok(None)
    }

    // Counts rounds that were appended.
    fn add_each(&mut self, rounds: &[Vec<u8>]) {
        for round in rounds {
            self.add(round);
        }
    }

    fn refused_cut(&self) -> Result<End, Failure> {
        refused_at(self.rt, "the stream has no whole round", self.place)
    }

    // In front of what comes behind that which was taken of a file.
    fn behind(&self, front: Front) -> Front {
        Front {
            header: front.header,
            place: self.place,
        }
    }

    // Tells how much was taken, and what did not fit. Whether all did.
    fn tell_end<O: Write + Drop>(
        &self,
        ended: &End,
        output: &mut BufWriter<O>,
    ) -> io::Result<bool> {
        let told = self.told()?;
        writeln!(output, "taken: {told}")?;
        let End::Refused(why) = ended else {
            return Ok(true);
        };
        writeln!(output, "{why}")?;
        Ok(false)
    }

    // How much was taken, and of what the copy had already.
    fn told(&self) -> Result<String, AllocError> {
        let (rounds, records, place) = (self.rounds, self.records, self.place);
        let mut told = format!(in self.rt.alloc();
            "{rounds} rounds, {records} records, up to byte {place}"
        )?;
        if self.had > 0 {
            let had = format!(in self.rt.alloc(); " ({} rounds it had already)", self.had)?;
            told.push_str(had.as_str())?;
        }
        Ok(told)
    }

    // Counts a round that was appended.
    fn add(&mut self, round: &[u8]) {
        self.rounds = self.rounds.saturating_add(1);
        self.records = self.records.saturating_add(records_in(records_of(round)));
        self.go_behind(round);
    }

    // Counts a round that the copy had already.
    fn pass(&mut self, round: &[u8]) {
        self.had = self.had.saturating_add(1);
        self.go_behind(round);
    }

    // Goes behind a round, and tells how far it is, now and then.
    fn go_behind(&mut self, round: &[u8]) {
        self.place = end_of(self.place, round);
        if !self.progress.is_due() {
            return;
        }
        if let Ok(told) = self.told() {
            self.progress.tell(told.as_str());
        }
    }
}
