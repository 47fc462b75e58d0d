//! What comes in the stream that `follow` writes: rounds, one behind another.
ghost use Rattle.std.specs.Prelude.{◌≡◌, [], ◌∷◌, ℕ, List, false, IfOk};
ghost use Rattle.std.specs.Global.{Vec as VecValue};
ghost use Rattle.std.specs.Io.Buffered.{reader_remaining};
ghost use Rattle.std.specs.Io.KnownBytes.{Consumes};
ghost use Rattle.journal_copies.specs.ReadRounds.{bytes_of_each};
ghost use Rattle.store_copies.specs.TakenRounds.{Came};
ghost use Rattle.store_copies.specs.declared.coming.Next.TheVariants.{Round as RoundNext};

use crate::failures::Failure;
use crate::placed::read_word;
use journal_copies::read_round;
use std::alloc::{AllocError, Global};
use std::io::{BufReader, Read};

/// What comes next in the stream.
#[derive(Drop)]
pub(crate) enum Next {
    Round(Vec<u8>),
    // The file that was followed is no more.
    Shut,
    Ended,
    // No whole round comes.
    Cut,
}

/// Reads what comes next: a round whose gate is at this place of a file with this key, or what ends them.
pub(crate) fn read_next<I: Read>(
    alloc: Global,
    input: &mut I,
    key: u64,
    place: u64,
) -> Result<Next, Failure>
    ensures { IfOk result (λ next. (round : VecValue ℕ) → next ≡ RoundNext round → (bytes : List ℕ) × Came (round.items ∷ []) bytes × Consumes (I.Read.remaining input.old) (I.Read.remaining input.new) bytes) }
{
    let Some(word) = read_word(input)? else {
        return Ok(Next::Ended);
    };
    if word == *b"shutgate" {
        return Ok(Next::Shut);
    }
    match read_round(alloc, input, key, place as usize)? {
        Some(round) => Ok(Next::Round(round)),
        None => Ok(Next::Cut),
    }
}

/// Rounds that have come.
#[derive(Drop)]
pub(crate) struct Come {
    pub(crate) rounds: Vec<Vec<u8>>,
    /// Whether what came behind them is no whole round.
    pub(crate) is_cut: bool,
}

/// The rounds that have come by now, and of which the next one stands at this place: nothing is waited for.
pub(crate) fn come_by_now<I: Read>(
    alloc: Global,
    input: &mut BufReader<I>,
    key: u64,
    place: u64,
) -> Result<Come, Failure>
    ensures { IfOk result (λ come. come.is_cut ≡ false → (bytes : List ℕ) × Came (bytes_of_each come.rounds.items) bytes × Consumes (reader_remaining I.Read.remaining input.old) (reader_remaining I.Read.remaining input.new) bytes) }
{
    let mut rounds = Vec::new(alloc);
    let mut at = place;
    'coming: for _ in 0..u64::MAX {
        if !has_round(input.buffer()) {
            break;
        }
        match read_next(alloc, input, key, at)? {
            Next::Round(round) => {
                at = end_of(at, &round);
                rounds.push(round).map_err(AllocError::from)?;
            }
            _ => return Ok(Come {
                rounds,
                is_cut: true,
            }),
        }
    }
    Ok(Come {
        rounds,
        is_cut: false,
    })
}

// Whether a round has come in these bytes, as far as its length tells.
fn has_round(bytes: &[u8]) -> bool {
    let Some((word, rest)) = bytes.split_first_chunk::<8>() else {
        return false;
    };
    let Some((len, rest)) = rest.split_first_chunk::<8>() else {
        return false;
    };
    *word != *b"shutgate" && rest.len() as u64 >= u64::from_le_bytes(*len).saturating_add(8)
}

/// Where the gate is behind a round whose gate is at this place.
pub(crate) fn end_of(place: u64, round: &[u8]) -> u64 {
    place.saturating_add(round.len() as u64).saturating_add(8)
}
