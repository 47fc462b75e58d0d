//! Reading a journal: its header, and then one record after another.
ghost use Rattle.std.specs.Prelude.{◌≡◌, ◌≢◌, ◌+◌, ◌-◌, ◌<◌, ◌≤◌, ◌^◌, ◌++◌, [], ◌∷◌, ℕ, List, None, Some, true, false, Ok, Err, IsTrue, length, take, drop, vec_len, IfOk, IfErr, IfSome, OnOk};
ghost use Rattle.journal_core.specs.Format.{IsNewFile, records_text, sum_of, word_of};
ghost use Rattle.journal_core.specs.JournalReading.{EndsThere, HasReadCause, HasEnded, HasNoHeader, IsNoHeader, IsReading, IsRefusal, header_of, place_of, record_of};
ghost use Rattle.journal_core.specs.Private.RoundSteps.{BodyRead, GoesBehind, IsShutAt, NoRecord, NoRound, RoundRead, StepsTo};
ghost use Rattle.journal_core.specs.declared.error.JournalError.TheVariants.{Damaged, Foreign, TooLarge};

use crate::error::JournalError;
use crate::header::{HEADER, Header, read_header};
use crate::parsing::{are_records, is_shut, number_of, split_record};
use crate::source::Source;
use crate::sum::sum_at;
use std::alloc::Global;

/// How many bytes are read at a time, of a file whose length is not known.
const PIECE: usize = 1 << 20;

/// How far a journal was read (own). It holds one round.
#[derive(Drop)]
pub struct Reader {
    header: Header,
    // Where the gate is behind the rounds that were read.
    place: usize,
    // The records of the last round, and which of them was handed out last.
    round: Vec<u8>,
    from: usize,
    to: usize,
    ended: bool,
}

impl Reader {
    /// Reads the header of a file, from its front. None where the file is still being made: then it has no record (own).
    ///
    /// - `Foreign`, `Unsupported`, `Damaged`: it is neither new nor begins as a journal.
    /// - `Failed`: a read failed. `OutOfMemory`: there is no memory for the header.
    pub fn begin<N, S: Source<N>>(
        alloc: Global,
        source: &mut S,
        note: &N,
    ) -> Result<Option<Reader>, JournalError>
        requires { S.is_usable source.old }
        ensures new { result ≡ Ok None → (file : List ℕ) → S.is_at source.old file 0 → S.is_honest source.new → IsNewFile file }
        ensures begins { IfOk result (λ some. IfSome some (λ r. (file : List ℕ) → S.is_at source.old file 0 → (S.is_honest source.new → ¬ (IsNewFile file)) × IsReading S.is_at S.is_honest source.new r file [])) }
        ensures refused { IfErr result (λ e. IsRefusal e → (file : List ℕ) → S.is_at source.old file 0 → S.is_honest source.new → ¬ (IsNewFile file) × HasNoHeader file × IsNoHeader e file) }
        ensures small { IfErr result (λ e. e ≢ TooLarge) }
        ensures cause { IfErr result (λ e. (file : List ℕ) → S.is_at source.old file 0 → HasReadCause (S.fails source.old source.new) e) }
        ensures honest { S.is_honest source.new → S.is_honest source.old }
        ensures looks { S.looks note.now source.old source.new }
        ensures usable { S.is_usable source.new }
    {
        let mut front = [0u8; HEADER];
        let count = fill(source, note, &mut front)?;
        if count <= 1 {
            return Ok(None);
        }
        if front[0] == 0 {
            begin_zero(source, note, count)?;
            return Ok(None);
        }
        let header = read_header(alloc, &front[..count])?;
        Ok(Some(Reader {
            header,
            place: HEADER,
            round: Vec::new(alloc),
            from: 0,
            to: 0,
            ended: false,
        }))
    }

    /// What the header says.
    pub fn header(&self) -> Header
        ensures { result ≡ header_of self.now }
    {
        self.header
    }

    /// At which byte the next gate is.
    pub fn place(&self) -> usize
        ensures { result ≡ place_of self.now }
    {
        self.place
    }

    /// The record that was read last.
    pub fn record(&self) -> &[u8]
        ensures { result.now ≡ record_of self.now }
    {
        let to = self.to.min(self.round.len());
        if self.from >= to {
            return &[];
        }
        &self.round[self.from..to]
    }

    /// Reads the next record, which `record` shows from then on. False where a gate is shut: then the journal has no more. A record is read once the sum of its whole round was found
    /// right (own).
    ///
    /// - `Damaged`: behind what was read stands neither a whole round nor a gate that is shut.
    /// - `Failed`: a read failed. `OutOfMemory`: there is no memory for the round. `TooLarge`: the file is longer than 2^64 bytes.
    pub fn next<N, S: Source<N>>(&mut self, source: &mut S, note: &N) -> Result<bool, JournalError>
        requires { S.is_usable source.old }
        ensures reads { result ≡ Ok true → (file : List ℕ) (done : List (List ℕ)) → IsReading S.is_at S.is_honest source.old self.old file done
            → IsReading S.is_at S.is_honest source.new self.new file (done ++ record_of self.new ∷ []) }
        ensures ends { result ≡ Ok false → (file : List ℕ) (done : List (List ℕ)) → IsReading S.is_at S.is_honest source.old self.old file done → S.is_honest source.new → HasEnded self.new file done }
        ensures refused { IfErr result (λ e. IsRefusal e → (file : List ℕ) (done : List (List ℕ)) → IsReading S.is_at S.is_honest source.old self.old file done → S.is_honest source.new
            → EndsThere e (header_of self.old).key (place_of self.old) file) }
        ensures large { result ≡ Err TooLarge → (file : List ℕ) (done : List (List ℕ)) → IsReading S.is_at S.is_honest source.old self.old file done → S.is_honest source.new → 2 ^ 64 ≤ length file }
        ensures cause { IfErr result (λ e. (file : List ℕ) (done : List (List ℕ)) → IsReading S.is_at S.is_honest source.old self.old file done → HasReadCause (S.fails source.old source.new) e) }
        ensures header { header_of self.new ≡ header_of self.old }
        ensures honest { S.is_honest source.new → S.is_honest source.old }
        ensures looks { S.looks note.now source.old source.new }
        ensures usable { S.is_usable source.new }
    {
        if self.ended {
            return Ok(false);
        }
        if self.to < self.round.len() {
            return self.step();
        }
        if !self.read_round(source, note)? {
            self.ended = true;
            return Ok(false);
        }
        self.step()
    }

    // Goes on to the next record of the round; whether one stands there.
    fn step(&mut self) -> Result<bool, JournalError>
        requires { self.old.to ≤ vec_len self.old.round }
        ensures reads { result ≡ Ok true → (left : List (List ℕ)) → drop self.old.to self.old.round.items ≡ records_text left → StepsTo self.old left self.new }
        ensures some { result ≢ Ok false }
        ensures refused { IfErr result (λ e. (e ≡ Damaged self.old.place) × (self.new ≡ self.old) × NoRecord (drop self.old.to self.old.round.items)) }
        ensures header { self.new.header ≡ self.old.header }
        ensures place { self.new.place ≡ self.old.place }
    {
        let rest = &self.round[self.to..];
        let Some((record, _behind)) = split_record(rest) else {
            return Err(JournalError::Damaged(self.place as u64));
        };
        let len = record.len();
        self.from = self.to + 8;
        self.to = self.from + len;
        Ok(true)
    }

    // Reads the round at the next gate; false where the gate is shut.
    fn read_round<N, S: Source<N>>(
        &mut self,
        source: &mut S,
        note: &N,
    ) -> Result<bool, JournalError>
        requires { S.is_usable source.old }
        ensures reads { result ≡ Ok true → (file : List ℕ) → S.is_at source.old file self.old.place → S.is_at source.new file self.new.place × (S.is_honest source.new → RoundRead self.old file self.new) }
        ensures shut { result ≡ Ok false → (self.new ≡ self.old) × ((file : List ℕ) → S.is_at source.old file self.old.place → S.is_honest source.new → IsShutAt self.old.place file) }
        ensures to { result ≡ Ok true → self.new.to ≤ vec_len self.new.round }
        ensures refused { IfErr result (λ e. IsRefusal e → (file : List ℕ) → S.is_at source.old file self.old.place → S.is_honest source.new → EndsThere e self.old.header.key self.old.place file) }
        ensures large { result ≡ Err TooLarge → (file : List ℕ) → S.is_at source.old file self.old.place → S.is_honest source.new → 2 ^ 64 ≤ length file }
        ensures cause { IfErr result (λ e. (file : List ℕ) → S.is_at source.old file self.old.place → HasReadCause (S.fails source.old source.new) e) }
        ensures header { self.new.header ≡ self.old.header }
        ensures honest { S.is_honest source.new → S.is_honest source.old }
        ensures looks { S.looks note.now source.old source.new }
        ensures usable { S.is_usable source.new }
    {
        let Some(gate) = read_word(source, note)? else {
            return Err(self.damaged());
        };
        if is_shut(&gate) {
            return Ok(false);
        }
        self.read_open(source, note)
    }

    // Reads the round behind a gate that is open, which the source has passed.
    fn read_open<N, S: Source<N>>(&mut self, source: &mut S, note: &N) -> Result<bool, JournalError>
        requires { S.is_usable source.old }
        ensures reads { result ≡ Ok true → (file : List ℕ) → S.is_at source.old file (self.old.place + 8) → S.is_at source.new file self.new.place × (S.is_honest source.new → BodyRead self.old file self.new) }
        ensures some { result ≢ Ok false }
        ensures to { result ≡ Ok true → self.new.to ≤ vec_len self.new.round }
        ensures refused { IfErr result (λ e. IsRefusal e → (e ≡ Damaged self.old.place) × ((file : List ℕ) → S.is_at source.old file (self.old.place + 8) → S.is_honest source.new
            → NoRound self.old.header.key self.old.place (drop (self.old.place + 8) file))) }
        ensures large { result ≡ Err TooLarge → (file : List ℕ) → S.is_at source.old file (self.old.place + 8) → S.is_honest source.new → 2 ^ 64 ≤ length file }
        ensures cause { IfErr result (λ e. (file : List ℕ) (at : ℕ) → S.is_at source.old file at → HasReadCause (S.fails source.old source.new) e) }
        ensures header { self.new.header ≡ self.old.header }
        ensures honest { S.is_honest source.new → S.is_honest source.old }
        ensures looks { S.looks note.now source.old source.new }
        ensures usable { S.is_usable source.new }
    {
        let Some((len, sum)) = read_head(source, note)? else {
            return Err(self.damaged());
        };
        if !read_body(source, note, len, &mut self.round)? {
            return Err(self.damaged());
        }
        if !self.is_whole(sum) {
            return Err(self.damaged());
        }
        self.go_on()
    }

    // What is told where no whole round stands at the next gate.
    fn damaged(&self) -> JournalError
        ensures { result ≡ Damaged self.now.place }
    {
        JournalError::Damaged(self.place as u64)
    }

    // Whether the bytes of the round are records, one at least, and have this sum.
    fn is_whole(&self, sum_read: u64) -> bool
        ensures whole { IsTrue result → (records : List (List ℕ)) × (0 < length self.now.round.items) × (self.now.round.items ≡ records_text records) × (sum_read ≡ sum_of self.now.header.key self.now.place self.now.round.items) }
        ensures other { result ≡ false → (records : List (List ℕ)) → 0 < length (records_text records) → self.now.round.items ≡ records_text records → word_of sum_read ≢ word_of (sum_of self.now.header.key self.now.place self.now.round.items) }
    {
        if self.round.is_empty() {
            return false;
        }
        if sum_at(self.header.key, self.place, &self.round) != sum_read {
            return false;
        }
        are_records(&self.round)
    }

    // Behind the round that was read. Its first record comes next.
    fn go_on(&mut self) -> Result<bool, JournalError>
        ensures goes { result ≡ Ok true → GoesBehind self.old self.new }
        ensures some { result ≢ Ok false }
        ensures large { IfErr result (λ e. (e ≡ TooLarge) × (self.new ≡ self.old) × (2 ^ 64 ≤ self.old.place + (24 + vec_len self.old.round))) }
    {
        let Some(behind) = self.round.len().checked_add(24) else {
            return Err(JournalError::TooLarge);
        };
        let Some(place) = self.place.checked_add(behind) else {
            return Err(JournalError::TooLarge);
        };
        self.place = place;
        self.from = 0;
        self.to = 0;
        Ok(true)
    }
}

// Reads as many bytes as there is room for, or up to the end.
fn fill<N, S: Source<N>>(source: &mut S, note: &N, buf: &mut [u8]) -> Result<usize, JournalError>
    requires { S.is_usable source.old }
    ensures bound { IfOk result (λ n. n ≤ length buf.new) }
    ensures fills { IfOk result (λ n. (file : List ℕ) (at : ℕ) → S.is_at source.old file at → S.is_at source.new file (at + n) × (S.is_honest source.new → take n buf.new ≡ take n (drop at file))) }
    ensures ends { IfOk result (λ n. (file : List ℕ) (at : ℕ) → S.is_at source.old file at → S.is_honest source.new → n < length buf.old → length file ≡ at + n) }
    ensures cause { IfErr result (λ e. ¬ (IsRefusal e) × (e ≢ TooLarge) × ((file : List ℕ) (at : ℕ) → S.is_at source.old file at → HasReadCause (S.fails source.old source.new) e)) }
    ensures honest { S.is_honest source.new → S.is_honest source.old }
    ensures looks { S.looks note.now source.old source.new }
    ensures usable { S.is_usable source.new }
{
    match source.fill(note, buf) {
        Ok(count) => Ok(count),
        Err(error) => Err(JournalError::Failed(error)),
    }
}

// Whether a file that begins with a zero byte, of which so many bytes were read, is still being made; else it is refused.
fn begin_zero<N, S: Source<N>>(source: &mut S, note: &N, count: usize) -> Result<(), JournalError>
    requires { S.is_usable source.old }
    ensures new { OnOk result ((file : List ℕ) → S.is_at source.old file count → S.is_honest source.new → (count < 56 → length file ≡ count) → count ≤ 56 → length file ≤ 64) }
    ensures refused { IfErr result (λ e. IsRefusal e → (e ≡ Foreign) × ((file : List ℕ) → S.is_at source.old file count → S.is_honest source.new → count ≤ 56 → 64 < length file)) }
    ensures cause { IfErr result (λ e. (e ≢ TooLarge) × ((file : List ℕ) (at : ℕ) → S.is_at source.old file at → HasReadCause (S.fails source.old source.new) e)) }
    ensures honest { S.is_honest source.new → S.is_honest source.old }
    ensures looks { S.looks note.now source.old source.new }
    ensures usable { S.is_usable source.new }
{
    if count < HEADER {
        return Ok(());
    }
    let mut more = [0u8; 9];
    if fill(source, note, &mut more)? == 9 {
        return Err(JournalError::Foreign);
    }
    Ok(())
}

// The next eight bytes; none where fewer are left.
fn read_word<N, S: Source<N>>(source: &mut S, note: &N) -> Result<Option<[u8; 8]>, JournalError>
    requires { S.is_usable source.old }
    ensures reads { IfOk result (λ some. IfSome some (λ word. (length word ≡ 8) × ((file : List ℕ) (at : ℕ) → S.is_at source.old file at → S.is_at source.new file (at + 8) × (S.is_honest source.new → (word ≡ take 8 (drop at file)) × (at + 8 ≤ length file))))) }
    ensures none { result ≡ Ok None → (file : List ℕ) (at : ℕ) → S.is_at source.old file at → S.is_honest source.new → length file < at + 8 }
    ensures cause { IfErr result (λ e. ¬ (IsRefusal e) × (e ≢ TooLarge) × ((file : List ℕ) (at : ℕ) → S.is_at source.old file at → HasReadCause (S.fails source.old source.new) e)) }
    ensures honest { S.is_honest source.new → S.is_honest source.old }
    ensures looks { S.looks note.now source.old source.new }
    ensures usable { S.is_usable source.new }
{
    let mut word = [0u8; 8];
    if fill(source, note, &mut word)? < 8 {
        return Ok(None);
    }
    Ok(Some(word))
}

// The length and the sum of a round; none where the file ends before.
fn read_head<N, S: Source<N>>(source: &mut S, note: &N) -> Result<Option<(u64, u64)>, JournalError>
    requires { S.is_usable source.old }
    ensures reads { IfOk result (λ some. IfSome some (λ r. (file : List ℕ) (at : ℕ) → S.is_at source.old file at
        → S.is_at source.new file (at + 16) × (S.is_honest source.new → (word_of r.0 ≡ take 8 (drop at file)) × (word_of r.1 ≡ take 8 (drop (at + 8) file)) × (at + 16 ≤ length file)))) }
    ensures none { result ≡ Ok None → (file : List ℕ) (at : ℕ) → S.is_at source.old file at → S.is_honest source.new → length file < at + 16 }
    ensures cause { IfErr result (λ e. ¬ (IsRefusal e) × (e ≢ TooLarge) × ((file : List ℕ) (at : ℕ) → S.is_at source.old file at → HasReadCause (S.fails source.old source.new) e)) }
    ensures honest { S.is_honest source.new → S.is_honest source.old }
    ensures looks { S.looks note.now source.old source.new }
    ensures usable { S.is_usable source.new }
{
    let Some(len) = read_word(source, note)? else {
        return Ok(None);
    };
    let Some(sum) = read_word(source, note)? else {
        return Ok(None);
    };
    Ok(Some((number_of(&len), number_of(&sum))))
}

// Reads so many bytes; false where fewer are left. No more memory is taken than for these, nor any for bytes that the file is known not to have.
fn read_body<N, S: Source<N>>(
    source: &mut S,
    note: &N,
    len: u64,
    round: &mut Vec<u8>,
) -> Result<bool, JournalError>
    requires { S.is_usable source.old }
    ensures reads { result ≡ Ok true → (length round.new.items ≡ len) × ((file : List ℕ) (at : ℕ) → S.is_at source.old file at
        → S.is_at source.new file (at + len) × (S.is_honest source.new → round.new.items ≡ take len (drop at file))) }
    ensures short { result ≡ Ok false → (file : List ℕ) (at : ℕ) → S.is_at source.old file at → S.is_honest source.new → length file < at + len }
    ensures cause { IfErr result (λ e. ¬ (IsRefusal e) × (e ≢ TooLarge) × ((file : List ℕ) (at : ℕ) → S.is_at source.old file at → HasReadCause (S.fails source.old source.new) e)) }
    ensures honest { S.is_honest source.new → S.is_honest source.old }
    ensures looks { S.looks note.now source.old source.new }
    ensures usable { S.is_usable source.new }
{
    round.clear();
    let Some(left) = source.left() else {
        return read_rest(source, note, len as usize, round);
    };
    if len > left as u64 {
        return Ok(false);
    }
    round.reserve_exact(len as usize)?;
    read_rest(source, note, len as usize, round)
}

// Reads so many bytes, piece by piece.
fn read_rest<N, S: Source<N>>(
    source: &mut S,
    note: &N,
    len: usize,
    round: &mut Vec<u8>,
) -> Result<bool, JournalError>
    requires usable { S.is_usable source.old }
    requires none { round.old.items ≡ [] }
    ensures reads { result ≡ Ok true → (length round.new.items ≡ len) × ((file : List ℕ) (at : ℕ) → S.is_at source.old file at
        → S.is_at source.new file (at + len) × (S.is_honest source.new → round.new.items ≡ take len (drop at file))) }
    ensures short { result ≡ Ok false → (file : List ℕ) (at : ℕ) → S.is_at source.old file at → S.is_honest source.new → length file < at + len }
    ensures cause { IfErr result (λ e. ¬ (IsRefusal e) × (e ≢ TooLarge) × ((file : List ℕ) (at : ℕ) → S.is_at source.old file at → HasReadCause (S.fails source.old source.new) e)) }
    ensures honest { S.is_honest source.new → S.is_honest source.old }
    ensures looks { S.looks note.now source.old source.new }
    ensures usable { S.is_usable source.new }
{
    'reading: while round.len() < len {
        if !read_piece(source, note, len - round.len(), round)? {
            return Ok(false);
        }
    }
    Ok(true)
}

// Reads the next piece of so many bytes behind those that are there; false where fewer are left.
fn read_piece<N, S: Source<N>>(
    source: &mut S,
    note: &N,
    missing: usize,
    round: &mut Vec<u8>,
) -> Result<bool, JournalError>
    requires usable { S.is_usable source.old }
    requires some { 0 < missing }
    ensures reads { result ≡ Ok true → (length round.old.items < length round.new.items) × (length round.new.items ≤ length round.old.items + missing)
        × ((file : List ℕ) (at : ℕ) → S.is_at source.old file at → S.is_at source.new file (at + (length round.new.items - length round.old.items))
        × (S.is_honest source.new → (at + (length round.new.items - length round.old.items) ≤ length file)
        × (round.new.items ≡ round.old.items ++ take (length round.new.items - length round.old.items) (drop at file)))) }
    ensures short { result ≡ Ok false → (file : List ℕ) (at : ℕ) → S.is_at source.old file at → S.is_honest source.new → length file < at + missing }
    ensures cause { IfErr result (λ e. ¬ (IsRefusal e) × (e ≢ TooLarge) × ((file : List ℕ) (at : ℕ) → S.is_at source.old file at → HasReadCause (S.fails source.old source.new) e)) }
    ensures honest { S.is_honest source.new → S.is_honest source.old }
    ensures looks { S.looks note.now source.old source.new }
    ensures usable { S.is_usable source.new }
{
    let have = round.len();
    let piece = missing.min(have.max(PIECE));
    round.reserve_exact(piece)?;
    round.resize(have + piece, 0)?;
    Ok(fill(source, note, &mut round[have..])? == piece)
}
