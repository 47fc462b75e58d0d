//! A round that is read from an input.
ghost use Rattle.std.specs.Prelude.{◌≡◌, ◌≤◌, ◌<◌, ◌+◌, ◌-◌, ◌++◌, ℕ, List, Ok, true, false, length, IfOk, IfSome, OnOk};
ghost use Rattle.std.specs.Io.KnownBytes.{Consumes};
ghost use Rattle.journal_copies.specs.WholeRounds.{IsRound};

use crate::rounds::whole_round;
use journal_core::number_of;
use std::alloc::Global;
use std::io::{self, ErrorKind, Read};

// How many bytes are read at a time at least, so that a length that is wrong takes little memory.
const PIECE: usize = 1 << 20;

/// Reads the round behind a gate, which is at this place of a journal with this key: its length, its sum, and its records, as they stand there (own). None where the input ends before its end, or has no whole
/// round there. `Err` where a read failed, or there is no memory.
pub fn read_round<R: Read>(
    alloc: Global,
    input: &mut R,
    key: u64,
    place: usize,
) -> io::Result<Option<Vec<u8>>>
    ensures reads { IfOk result (λ some. IfSome some (λ round. IsRound key place round.items × Consumes (R.Read.remaining input.old) (R.Read.remaining input.new) round.items)) }
{
    let mut round = Vec::new(alloc);
    if !read_more(input, 16, &mut round)? {
        return Ok(None);
    }
    let Some(len) = first_number(&round) else {
        return Ok(None);
    };
    if !read_more(input, len, &mut round)? {
        return Ok(None);
    }
    if !is_round(key, place, &round) {
        return Ok(None);
    }
    Ok(Some(round))
}

// The number in the first eight bytes.
fn first_number(bytes: &[u8]) -> Option<usize> {
    let (word, _rest) = bytes.split_first_chunk::<8>()?;
    Some(number_of(word) as usize)
}

// Whether the bytes are a whole round, and nothing stands behind it.
fn is_round(key: u64, place: usize, bytes: &[u8]) -> bool
    ensures { result ≡ true → IsRound key place bytes.now }
{
    let Some(text) = whole_round(key, place, bytes) else {
        return false;
    };
    if bytes.len() != text.len() + 16 {
        return false;
    }
    true
}

// Reads so many bytes more; false where fewer are left.
fn read_more<R: Read>(input: &mut R, count: usize, bytes: &mut Vec<u8>) -> io::Result<bool>
    ensures { result ≡ Ok true → (more : List ℕ) × (bytes.new.items ≡ bytes.old.items ++ more) × Consumes (R.Read.remaining input.old) (R.Read.remaining input.new) more }
{
    let mut left = count;
    'reading: while left > 0 {
        let piece = left.min(bytes.len().max(PIECE));
        if !read_piece(input, piece, bytes)? {
            return Ok(false);
        }
        left -= piece;
    }
    Ok(true)
}

// Reads a piece of so many bytes; false where fewer are left.
fn read_piece<R: Read>(input: &mut R, piece: usize, bytes: &mut Vec<u8>) -> io::Result<bool>
    ensures { result ≡ Ok true → (more : List ℕ) × (bytes.new.items ≡ bytes.old.items ++ more) × Consumes (R.Read.remaining input.old) (R.Read.remaining input.new) more }
{
    let have = bytes.len();
    let Some(all) = have.checked_add(piece) else {
        return Ok(false);
    };
    bytes.resize(all, 0)?;
    match input.read_exact(&mut bytes[have..]) {
        Ok(()) => Ok(true),
        Err(error) if error.kind() == ErrorKind::UnexpectedEof => Ok(false),
        Err(error) => Err(error),
    }
}
