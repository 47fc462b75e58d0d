//! What a line commands.
use bytes::Bytes;
use hex::FromHexError;
use journal_core::Round;
use line_streams::numbers::number;
use std::alloc::{AllocError, Global};

/// The byte of which a record is whose size alone is told.
const FILLER: u8 = 0x5a;

/// What a line commands.
#[derive(Drop)]
pub enum Command {
    /// To append a round.
    Append(Round),
    /// To make room.
    Room,
    /// Nothing: it is of no form.
    Wrong,
}

/// A body that is kept from one line to the next, so that rounds of one size are made quickly.
#[derive(Drop)]
pub struct Filler {
    body: Bytes,
}

impl Filler {
    pub fn new() -> Filler {
        Filler { body: Bytes::new() }
    }

    // A round of so many records of so many bytes.
    fn round(&mut self, alloc: Global, count: u64, size: usize) -> Result<Round, AllocError> {
        if self.body.len() != size {
            let mut body = Vec::new(alloc);
            body.resize(size, FILLER)?;
            self.body = Bytes::from_vec(body)?;
        }
        let mut round = Round::new(alloc);
        for _ in 0..count {
            round.add(&[], &self.body)?;
        }
        Ok(round)
    }
}

/// What a line commands: `append` with records, `sized` with their count and their size, or `room`.
pub fn command_of(alloc: Global, line: &[u8], filler: &mut Filler) -> Result<Command, AllocError> {
    let Ok(text) = str::from_utf8(line) else {
        return Ok(Command::Wrong);
    };
    let words: Vec<&str> = text.split(' ').collect(alloc)?;
    match words.as_slice() {
        ["append", first, rest @ ..] => append(alloc, first, rest),
        ["sized", count, size] => sized(alloc, count, size, filler),
        ["room"] => Ok(Command::Room),
        _ => Ok(Command::Wrong),
    }
}

// A round of these records.
fn append(alloc: Global, first: &str, rest: &[&str]) -> Result<Command, AllocError> {
    let mut round = Round::new(alloc);
    if !add(alloc, &mut round, first)? {
        return Ok(Command::Wrong);
    }
    for word in rest {
        if !add(alloc, &mut round, word)? {
            return Ok(Command::Wrong);
        }
    }
    Ok(Command::Append(round))
}

// Adds the record that a word writes; false where it writes none.
fn add(alloc: Global, round: &mut Round, word: &str) -> Result<bool, AllocError> {
    if word == "-" {
        round.add(&[], &Bytes::new())?;
        return Ok(true);
    }
    if word.is_empty() {
        return Ok(false);
    }
    match hex::decode(alloc, word) {
        Ok(record) => {
            round.add(&[], &Bytes::from_vec(record)?)?;
            Ok(true)
        }
        Err(FromHexError::OutOfMemory) => Err(AllocError),
        Err(_) => Ok(false),
    }
}

// A round of so many records of so many bytes.
fn sized(
    alloc: Global,
    count: &str,
    size: &str,
    filler: &mut Filler,
) -> Result<Command, AllocError> {
    let (Some(count), Some(size)) = (number(count), number(size)) else {
        return Ok(Command::Wrong);
    };
    Ok(Command::Append(filler.round(alloc, count, size as usize)?))
}
