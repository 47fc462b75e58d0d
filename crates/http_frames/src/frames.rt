//! Frames: the bytes of many connections on one stream.
ghost use Rattle.std.specs.Prelude.{◌≡◌, ◌≢◌, ◌==◌, ◌≤◌, All, Option, codes, ℕ, List, length, take, false, Ok, IfOk, IfSome, None, OnOk, OnErr};
ghost use Rattle.std.specs.Io.KnownBytes.{Appends, Consumes, IsAtEnd, Keeps};
ghost use Rattle.http_frames.specs.Frames.{AppendsFront, BreaksOff, IsFrame, IsPart, bytes_at_hand, unread};
ghost use Rattle.http_frames.specs.Frames.{address_in, clock_in, free_in, from_in, frame_bytes, gone_in, head, head_of, is_address, is_address_byte, one_word};
ghost use Rattle.http_frames.specs.Frames.{is_single_space, late_in, more_in, piece_in, second_word, taken_in, told_head_of, turned_in, users_head};
ghost use Rattle.http_frames.specs.Frames.{grant_text, known_text, piece_text, wait_text};
ghost use Rattle.std.specs.List.{after_first, before_first, list_all};
ghost use Rattle.line_streams.specs.Numerals.{numeral};

use arrayvec::ArrayString;
use bytes::BytesMut;
use line_streams::Fault;
use line_streams::numbers::{number, number as number_of};
use memchr::memchr;
use std::alloc::{AllocError, Global};
use std::fmt::Write as _;
use std::io::{Read, Write};
use std::mem;

/// A frame that comes in has so many bytes at most.
pub const LARGEST: u64 = 1024 * 1024;

/// The address of a client has so many bytes at most (own).
pub const LONGEST_ADDRESS: usize = 64;

/// The first line of a frame has fewer bytes (own).
pub const LONGEST_LINE: usize = 4096;

// A line that goes out has fewer bytes: three words, of which two are numbers.
const LINE: usize = 64;

// So much each of the two buffers holds, but for a frame that is longer.
const ROOM: usize = 256 * 1024;

// A read has room for so many bytes at least.
const LEAST: usize = 64 * 1024;

/// What the first line of a frame says (own).
#[derive(Clone, Copy, PartialEq, Eq)]
pub enum Head {
    /// So many bytes of a connection follow.
    Piece {
        /// The connection.
        number: u64,
        /// How many bytes.
        length: u64,
    },
    /// The client of a connection has taken so many bytes more.
    Taken {
        /// The connection.
        number: u64,
        /// How many bytes.
        count: u64,
    },
    /// The client of a connection is gone.
    Gone(u64),
    /// It is this moment now, in nanoseconds since 1970.
    Clock(u64),
    /// So many bytes are free on the disk.
    Free(u64),
    /// The line tells the address of the client of this connection, the next to begin.
    From(u64),
    /// So many bytes of a file of users follow: they are the users now.
    Users {
        /// How many bytes.
        length: u64,
    },
    /// The client of a connection was closed since it was too slow.
    Late(u64),
    /// So many connections from the address that the line tells had no place.
    Turned(u64),
    /// Nothing more has come.
    Nothing,
    /// May the file of the store still be written?
    Touch,
    /// The lease of whoever had the file before is over.
    Go,
}

/// A frame that stands whole at the front of what was read.
#[derive(Clone, Copy)]
pub struct Frame<'a> {
    /// What its first line says; none where that is no head.
    pub head: Option<Head>,
    /// Its bytes, behind the first line; of `From` and `Turned` the address, which stands in that line.
    pub bytes: &'a [u8],
    /// How many bytes it has, its first line and the line feed too.
    pub length: usize,
}

/// A stream of frames, and what was read of it and is still to be taken.
#[derive(Drop)]
pub struct Frames<I> {
    input: I,
    buffer: BytesMut,
    // Nothing is kept in it: what is at hand goes there where the buffer has no room for more behind it.
    other: BytesMut,
}

impl Head {
    /// What a line says, without its end: words with one blank between them, `NUMBER LENGTH`, `taken NUMBER BYTES`, `gone NUMBER`, `clock MOMENT`,
    /// `free BYTES`, `from NUMBER ADDRESS`, `users LENGTH`, `late NUMBER`, `turned ADDRESS COUNT`, `none`, `touch` or `go`, with numbers in decimal digits. None for any other line, for a length beyond `LARGEST`, and for an address that has not 1 to
    /// `LONGEST_ADDRESS` bytes of 33 to 126.
    pub fn of(line: &[u8]) -> Option<Head>
        ensures { result ≡ head line.now }
    {
        if let Some(head) = one_word(line) {
            return Some(head);
        }
        let (word, rest) = str::from_utf8(line).ok()?.split_once(' ')?;
        by_word(word, rest)
    }
}

// What a line says that is one word.
fn one_word(line: &[u8]) -> Option<Head>
    ensures { result ≡ one_word line.now }
{
    if line == b"none".as_slice() {
        return Some(Head::Nothing);
    }
    if line == b"touch".as_slice() {
        return Some(Head::Touch);
    }
    if line == b"go".as_slice() {
        return Some(Head::Go);
    }
    None
}

// What a line says, by its first word and what stands behind it.
fn by_word(word: &str, rest: &str) -> Option<Head>
    ensures { result ≡ head_of word.now rest.now }
{
    if word == "gone" {
        return gone_of(rest);
    }
    if word == "taken" {
        return taken_of(rest);
    }
    if word == "clock" {
        return clock_of(rest);
    }
    if word == "free" {
        return free_of(rest);
    }
    if word == "from" {
        return from_of(rest);
    }
    told_of(word, rest)
}

// What a line says of clients that were sent away, or of bytes, by its first word and what stands behind it.
fn told_of(word: &str, rest: &str) -> Option<Head>
    ensures { result ≡ told_head_of word.now rest.now }
{
    if word == "users" {
        return users_of(rest);
    }
    if word == "late" {
        return late_of(rest);
    }
    if word == "turned" {
        return turned_of(rest);
    }
    piece_of(word, rest)
}

// What `gone NUMBER` says, by what stands behind its first word.
fn gone_of(rest: &str) -> Option<Head>
    ensures { result ≡ gone_in (numeral rest.now) }
{
    Some(Head::Gone(number(rest)?))
}

// What `clock MOMENT` says, by what stands behind its first word.
fn clock_of(rest: &str) -> Option<Head>
    ensures { result ≡ clock_in (numeral rest.now) }
{
    Some(Head::Clock(number(rest)?))
}

// What `free BYTES` says, by what stands behind its first word.
fn free_of(rest: &str) -> Option<Head>
    ensures { result ≡ free_in (numeral rest.now) }
{
    Some(Head::Free(number(rest)?))
}

// What `taken NUMBER BYTES` says, by what stands behind its first word.
fn taken_of(rest: &str) -> Option<Head>
    ensures { result ≡ taken_in rest.now }
{
    let (word, count) = rest.split_once(' ')?;
    let number = number(word)?;
    let count = number_of(count)?;
    Some(Head::Taken { number, count })
}

// What `from NUMBER ADDRESS` says, by what stands behind its first word.
fn from_of(rest: &str) -> Option<Head>
    ensures { result ≡ from_in rest.now }
{
    let (word, address) = rest.split_once(' ')?;
    let number = number(word)?;
    if !is_address(address.as_bytes()) {
        return None;
    }
    Some(Head::From(number))
}

fn is_address(address: &[u8]) -> bool
    ensures { result ≡ is_address address.now }
{
    !address.is_empty() && address.len() <= LONGEST_ADDRESS && are_address_bytes(address)
}

fn are_address_bytes(address: &[u8]) -> bool
    ensures { result ≡ list_all is_address_byte address.now }
{
    address.iter().all(|b| is_address_byte(*b))
}

fn is_address_byte(b: u8) -> bool
    ensures { result ≡ is_address_byte b }
{
    b > 32 && b < 127
}

// What `users LENGTH` says, by what stands behind its first word.
fn users_of(rest: &str) -> Option<Head>
    ensures { result ≡ users_head (numeral rest.now) }
{
    let length = number(rest)?;
    if length > LARGEST {
        return None;
    }
    Some(Head::Users { length })
}

// What `late NUMBER` says, by what stands behind its first word.
fn late_of(rest: &str) -> Option<Head>
    ensures { result ≡ late_in (numeral rest.now) }
{
    Some(Head::Late(number(rest)?))
}

// What `turned ADDRESS COUNT` says, by what stands behind its first word.
fn turned_of(rest: &str) -> Option<Head>
    ensures { result ≡ turned_in rest.now }
{
    let (address, word) = rest.split_once(' ')?;
    let count = number(word)?;
    if !is_address(address.as_bytes()) {
        return None;
    }
    Some(Head::Turned(count))
}

// What `NUMBER LENGTH` says.
fn piece_of(word: &str, rest: &str) -> Option<Head>
    ensures { result ≡ piece_in (numeral word.now) (numeral rest.now) }
{
    let number = number(word)?;
    let length = number_of(rest)?;
    if length > LARGEST {
        return None;
    }
    Some(Head::Piece { number, length })
}

/// The frame at the front of the bytes, where it is whole. A line that is too long stands for one that is no head.
pub fn first_frame(bytes: &[u8]) -> Option<Frame<'_>>
    ensures some { IfSome result (λ frame. (frame.length ≤ length bytes.now) × IsFrame frame.head frame.bytes.now (take frame.length bytes.now)) }
    ensures none { result ≡ None → IsPart bytes.now }
{
    let Some(end) = memchr(b'\n', bytes) else {
        return no_line(bytes);
    };
    if end >= LONGEST_LINE {
        return Some(Frame {
            head: None,
            bytes: &bytes[..0],
            length: LONGEST_LINE,
        });
    }
    let head = Head::of(&bytes[..end]);
    let more = more_of(head);
    let start = end + 1;
    if more > (bytes.len() - start) as u64 {
        return None;
    }
    let length = start + more as usize;
    Some(Frame {
        head,
        bytes: given_of(head, &bytes[..end], &bytes[start..length]),
        length,
    })
}

// What the frame gives: the address in its line, or the bytes behind it.
fn given_of<'a>(head: Option<Head>, line: &'a [u8], behind: &'a [u8]) -> &'a [u8]
    ensures { result.now ≡ frame_bytes head line.now behind.now }
{
    match head {
        Some(Head::From(_)) => address_of(line),
        Some(Head::Turned(_)) => second_of(line),
        _ => behind,
    }
}

// What stands behind the second blank.
fn address_of(line: &[u8]) -> &[u8]
    ensures { result.now ≡ address_in line.now }
{
    behind_blank(behind_blank(line))
}

// What stands between the first two blanks.
fn second_of(line: &[u8]) -> &[u8]
    ensures { result.now ≡ second_word line.now }
{
    before_blank(behind_blank(line))
}

// What stands before the first blank.
fn before_blank(line: &[u8]) -> &[u8]
    ensures { result.now ≡ before_first is_single_space line.now }
{
    match memchr(b' ', line) {
        Some(at) => &line[..at],
        None => line,
    }
}

// What stands behind the first blank.
fn behind_blank(line: &[u8]) -> &[u8]
    ensures { result.now ≡ after_first is_single_space line.now }
{
    match memchr(b' ', line) {
        Some(at) => &line[at + 1..],
        None => &line[line.len()..],
    }
}

// How many bytes follow the line.
fn more_of(head: Option<Head>) -> u64
    ensures { result ≡ more_in head }
{
    match head {
        Some(Head::Piece { length, .. }) => length,
        Some(Head::Users { length }) => length,
        _ => 0,
    }
}

// Where no line has come whole.
fn no_line(bytes: &[u8]) -> Option<Frame<'_>>
    ensures some { All (λ b. b ≢ 10) bytes.now → IfSome result (λ frame. (frame.length ≤ length bytes.now) × IsFrame frame.head frame.bytes.now (take frame.length bytes.now)) }
    ensures none { All (λ b. b ≢ 10) bytes.now → result ≡ None → IsPart bytes.now }
{
    if bytes.len() < LONGEST_LINE {
        return None;
    }
    Some(Frame {
        head: None,
        bytes: &bytes[..0],
        length: bytes.len(),
    })
}

impl<I: Read> Frames<I> {
    /// The frames of a stream, of which nothing was read. `AllocError` where there is no memory for what is read at once (own).
    pub fn new(alloc: Global, input: I) -> Result<Frames<I>, AllocError>
    where
        I: Drop,
        ensures { IfOk result (λ frames. unread I.remaining frames ≡ I.remaining input) }
    {
        let buffer = BytesMut::with_capacity(alloc, ROOM)?;
        let other = BytesMut::with_capacity(alloc, ROOM)?;
        Ok(Frames {
            input,
            buffer,
            other,
        })
    }

    /// The next frame, where it is whole in what was read.
    pub fn next(&self) -> Option<Frame<'_>>
        ensures some { IfSome result (λ frame. (frame.length ≤ length (bytes_at_hand self.now)) × IsFrame frame.head frame.bytes.now (take frame.length (bytes_at_hand self.now))) }
        ensures none { result ≡ None → IsPart (bytes_at_hand self.now) }
    {
        first_frame(self.buffer.as_slice())
    }

    /// Goes behind so many bytes of what was read.
    pub fn skip(&mut self, count: usize)
        requires { count ≤ length (bytes_at_hand self.old) }
        ensures { Consumes (unread I.remaining self.old) (unread I.remaining self.new) (take count (bytes_at_hand self.old)) }
    {
        self.buffer.advance(count);
    }

    /// Reads once; whether something came, and not the end of the stream. `Io` where the stream fails, `OutOfMemory` where there is no memory for what is read at once (own).
    pub fn read(&mut self) -> Result<bool, Fault>
        ensures keeps { Keeps (unread I.remaining self.old) (unread I.remaining self.new) }
        ensures end { result ≡ Ok false → (bytes_at_hand self.new ≡ bytes_at_hand self.old) × ((part : Option (List ℕ)) × Consumes (unread I.remaining self.new) part (bytes_at_hand self.new) × IsAtEnd part) }
    {
        self.make_room_behind()?;
        let count = self.buffer.read_from(&mut self.input)?;
        Ok(count > 0)
    }

    // Makes room for a read behind what is at hand. A part of a frame is copied into the other buffer, where it fits: `reserve` of the kit would move it within its own, byte by byte.
    fn make_room_behind(&mut self) -> Result<(), AllocError>
        ensures at_hand { bytes_at_hand self.new ≡ bytes_at_hand self.old }
        ensures input { self.new.input ≡ self.old.input }
        ensures room { OnOk result (LEAST ≤ self.new.buffer.spare) }
    {
        if self.buffer.is_empty() {
            self.buffer.clear();
        }
        if spare(&self.buffer) >= LEAST {
            return Ok(());
        }
        self.other.clear();
        if spare(&self.other).saturating_sub(self.buffer.len()) < LEAST {
            return self.buffer.reserve(LEAST);
        }
        self.other.extend_reserved(self.buffer.as_slice());
        mem::swap(&mut self.buffer, &mut self.other);
        Ok(())
    }

    /// Whether all that was read was taken.
    pub fn is_empty(&self) -> bool
        ensures { result ≡ (length (bytes_at_hand self.now) == 0) }
    {
        self.buffer.is_empty()
    }
}

// How many bytes go behind those of the buffer, where it is.
fn spare(buffer: &BytesMut) -> usize
    ensures { result ≡ buffer.now.spare }
{
    buffer.capacity() - buffer.len()
}

/// Writes bytes of a connection as a frame; none say that the connection is over. `Io` where the output fails; a front of the frame was written then (own).
pub fn write_piece<O: Write>(number: u64, bytes: &[u8], output: &mut O) -> Result<(), Fault>
    ensures ok { OnOk result (Appends (O.contents output.old) (O.contents output.new) (piece_text number bytes.now)) }
    ensures err { OnErr result (BreaksOff (O.contents output.old) (O.contents output.new)) }
{
    let mut line = ArrayString::<LINE>::new();
    if write!(line, "{} {}\n", number, bytes.len()).is_err() {
        return Err(Fault::Io);
    }
    write_front(line.as_str().as_bytes(), output)?;
    write_front(bytes, output)
}

/// Writes that the client of a connection may send so many bytes more, as `write_piece` writes.
pub fn write_grant<O: Write>(number: u64, count: u64, output: &mut O) -> Result<(), Fault>
    ensures ok { OnOk result (Appends (O.contents output.old) (O.contents output.new) (grant_text number count)) }
    ensures err { OnErr result (BreaksOff (O.contents output.old) (O.contents output.new)) }
{
    let mut line = ArrayString::<LINE>::new();
    if write!(line, "grant {} {}\n", number, count).is_err() {
        return Err(Fault::Io);
    }
    write_front(line.as_str().as_bytes(), output)
}

/// Writes that a connection waits for its client, of which so many bytes were taken: for the rest of a request (`owes`), or for the next one (`rests`). As `write_piece` writes.
pub fn write_wait<O: Write>(
    number: u64,
    part: bool,
    count: u64,
    output: &mut O,
) -> Result<(), Fault>
    ensures ok { OnOk result (Appends (O.contents output.old) (O.contents output.new) (wait_text number part count)) }
    ensures err { OnErr result (BreaksOff (O.contents output.old) (O.contents output.new)) }
{
    let word = if part { "owes" } else { "rests" };
    let mut line = ArrayString::<LINE>::new();
    if write!(line, "{} {} {}\n", word, number, count).is_err() {
        return Err(Fault::Io);
    }
    write_front(line.as_str().as_bytes(), output)
}

/// Writes that a user was let in on a connection, as `write_piece` writes.
pub fn write_known<O: Write>(number: u64, output: &mut O) -> Result<(), Fault>
    ensures ok { OnOk result (Appends (O.contents output.old) (O.contents output.new) (known_text number)) }
    ensures err { OnErr result (BreaksOff (O.contents output.old) (O.contents output.new)) }
{
    let mut line = ArrayString::<LINE>::new();
    if write!(line, "known {}\n", number).is_err() {
        return Err(Fault::Io);
    }
    write_front(line.as_str().as_bytes(), output)
}

/// Writes that the program asks what else has come, as `write_piece` writes.
pub fn write_more<O: Write>(output: &mut O) -> Result<(), Fault>
    ensures ok { OnOk result (Appends (O.contents output.old) (O.contents output.new) (codes "more\n")) }
    ensures err { OnErr result (BreaksOff (O.contents output.old) (O.contents output.new)) }
{
    write_front(b"more\n", output)
}

/// Writes that the file of the store may still be written, as `write_piece` writes.
pub fn write_touched<O: Write>(output: &mut O) -> Result<(), Fault>
    ensures ok { OnOk result (Appends (O.contents output.old) (O.contents output.new) (codes "touched\n")) }
    ensures err { OnErr result (BreaksOff (O.contents output.old) (O.contents output.new)) }
{
    write_front(b"touched\n", output)
}

// Writes the bytes, and where the output fails a front of them.
fn write_front<O: Write>(bytes: &[u8], output: &mut O) -> Result<(), Fault>
    ensures ok { OnOk result (Appends (O.contents output.old) (O.contents output.new) bytes.now) }
    ensures err { OnErr result (AppendsFront bytes.now (O.contents output.old) (O.contents output.new)) }
{
    let mut at = 0;
    // A loop is proved to end, so this one counts its turns.
    for _turn in 0..u64::MAX {
        if at == bytes.len() {
            return Ok(());
        }
        let count = output.write(&bytes[at..])?;
        if count == 0 {
            return Err(Fault::Io);
        }
        at += count;
    }
    Err(Fault::Io)
}
