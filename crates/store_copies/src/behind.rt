//! What stands behind the gate that is shut, or behind the place where a file is broken.

use crate::placed::{Placed, read_word};
use journal_copies::{find_round, read_round, records_in, records_of, whole_round};
use std::fs::File;
use std::io::{self, Read};

// How many bytes are held at a time, where no round needs more.
const PIECE: usize = 1 << 20;

// How many bytes a round begins with, up to the end of the length of its first record: its gate, its length, its sum, and that.
const FRONT: usize = 32;

/// A round (own).
pub struct Found {
    /// How many records it has.
    pub records: u64,
    /// How many bytes it has, with its gate.
    pub bytes: u64,
}

/// The whole round behind a gate that is shut, which is at this place of a journal with this key (own); none where the gate is open by now, or no whole round stands there.
pub fn round_behind(
    rt: &HostRuntime,
    path: &str,
    key: u64,
    place: u64,
) -> io::Result<Option<Found>> {
    let file = File::open(rt, path)?;
    let mut input = Placed::new(&file, place);
    if read_word(&mut input)? != Some(*b"shutgate") {
        return Ok(None);
    }
    match read_round(rt.alloc(), &mut input, key, place as usize)? {
        Some(round) => Ok(Some(Found {
            records: records_in(records_of(&round)),
            bytes: (round.len() as u64).saturating_add(8),
        })),
        None => Ok(None),
    }
}

/// The bytes of a file from one byte on, of which a piece at a time is held (own).
#[derive(Drop)]
pub struct Tail {
    file: File,
    key: u64,
    // From which byte on, and up to which.
    begin: u64,
    end: u64,
    // Where the piece begins, its bytes, and how many of them were passed.
    base: u64,
    bytes: Vec<u8>,
    at: usize,
}

impl Tail {
    /// The bytes of a journal with this key from this byte on (own).
    pub fn of(rt: &HostRuntime, path: &str, key: u64, begin: u64) -> io::Result<Tail> {
        let file = File::open(rt, path)?;
        let end = file.metadata()?.len();
        Ok(Tail {
            file,
            key,
            begin,
            end,
            base: begin,
            bytes: Vec::new(rt.alloc()),
            at: 0,
        })
    }

    /// How many bytes these are (own).
    pub fn len(&self) -> u64 {
        self.end.saturating_sub(self.begin)
    }

    /// The bytes of the records of the next whole round (own); none where no more is found.
    pub fn next_round(&mut self) -> io::Result<Option<&[u8]>> {
        match self.seek()? {
            Some(at) => Ok(self.round_at(at)),
            None => Ok(None),
        }
    }

    // Goes on to the piece that has the next whole round; at which of its bytes the gate of that is.
    fn seek(&mut self) -> io::Result<Option<usize>> {
        for _ in 0..u64::MAX {
            let whole = self.find();
            match self.find_cut(whole.unwrap_or(self.bytes.len()))? {
                Some((at, size)) => self.read_on(at, size)?,
                None if whole.is_some() || self.is_last() => return Ok(whole),
                None => {
                    let left = self.bytes.len().saturating_sub(FRONT - 1);
                    self.read_on(left.max(self.at), PIECE)?;
                }
            }
        }
        Ok(None)
    }

    // The round whose gate is at this byte of the piece: the bytes of its records.
    fn round_at(&mut self, at: usize) -> Option<&[u8]> {
        let place = (self.base as usize).saturating_add(at);
        let behind = self.bytes.get(at.saturating_add(8)..)?;
        let text = whole_round(self.key, place, behind)?;
        self.at = at.saturating_add(24).saturating_add(text.len());
        Some(text)
    }

    // At which byte of the piece the gate is of the next round that is whole in it.
    fn find(&self) -> Option<usize> {
        if self.base >= 1 << 62 || self.bytes.len() >= 1 << 62 {
            return None;
        }
        find_round(self.key, self.base as usize, &self.bytes, self.at)
    }

    // At which byte before this one the gate is of the first round that goes on behind the piece, as far as its lengths tell, and how many bytes it has.
    fn find_cut(&self, before: usize) -> io::Result<Option<(usize, usize)>> {
        for at in self.at..before {
            let Some(len) = self.cut_at(at) else {
                continue;
            };
            let place = self.base.saturating_add(at as u64).saturating_add(24);
            if self.has_records(place, len)? {
                return Ok(Some((at, (len as usize).saturating_add(24))));
            }
        }
        Ok(None)
    }

    // How many bytes of records a round has whose gate is at this byte of the piece, where it goes on behind that, and the file has as many.
    fn cut_at(&self, at: usize) -> Option<u64> {
        let len = number_at(&self.bytes, at.checked_add(8)?)?;
        let first = number_at(&self.bytes, at.checked_add(24)?)?;
        let behind = (at as u64).checked_add(24)?.checked_add(len)?;
        if behind <= self.bytes.len() as u64 || first > len.checked_sub(8)? {
            return None;
        }
        if self.base.checked_add(behind)? > self.end {
            return None;
        }
        Some(len)
    }

    // Whether so many bytes from this byte of the file on are records, by their lengths.
    fn has_records(&self, from: u64, len: u64) -> io::Result<bool> {
        let (mut at, end) = (from, from.saturating_add(len));
        for _ in 0..u64::MAX {
            if at >= end {
                return Ok(at == end);
            }
            let Some(word) = read_word(&mut Placed::new(&self.file, at))? else {
                return Ok(false);
            };
            at = at
                .saturating_add(8)
                .saturating_add(u64::from_le_bytes(word));
        }
        Ok(false)
    }

    // Whether the file has nothing behind the piece.
    fn is_last(&self) -> bool {
        self.base.saturating_add(self.bytes.len() as u64) >= self.end
    }

    // Goes on to the piece that begins at this byte of it, and has so many bytes.
    fn read_on(&mut self, at: usize, size: usize) -> io::Result<()> {
        let at = at.min(self.bytes.len());
        self.bytes.drain(..at);
        self.base = self.base.saturating_add(at as u64);
        self.at = 0;
        let had = self.bytes.len() as u64;
        let more = (size as u64).saturating_sub(had);
        let place = self.base.saturating_add(had);
        Placed::new(&self.file, place)
            .take(more)
            .read_to_end(&mut self.bytes)?;
        if (self.bytes.len() as u64) < had.saturating_add(more) {
            self.end = self.base.saturating_add(self.bytes.len() as u64);
        }
        Ok(())
    }
}

// The number in the eight bytes from this one on.
fn number_at(bytes: &[u8], at: usize) -> Option<u64> {
    let (word, _rest) = bytes.get(at..)?.split_first_chunk::<8>()?;
    Some(u64::from_le_bytes(*word))
}
