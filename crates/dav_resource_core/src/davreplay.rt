//! A player of scenarios: one request a line, one answer a line.
ghost use Rattle.std.specs.Prelude.{◌≡◌, ◌≤◌, ◌⊎◌, ℕ, List, length, map, take, string_bytes, IfOk, OnErr, OnOk};
ghost use Rattle.std.specs.Io.Buffered.{reader_remaining, writer_contents};
ghost use Rattle.std.specs.Io.KnownBytes.{Appends, Keeps};
ghost use Rattle.std.specs.List.{concat};
ghost use Rattle.dav_resource_core.specs.Private.Playing.{PlaysLine, LinePlayed, LineStopped, SaidStopped, InputPlayed, PlayedPart};
ghost use Rattle.dav_resource_core.specs.Replaying.{Replayed, ReplayedPart, ReplayedTo};
ghost use Rattle.dav_guarded_core.specs.Stores.{state_of};
ghost use Rattle.dav_resource_core.specs.Seeds.{seed};

mod answers;
mod labels;
mod lines;
mod names;
mod playing;

use dav_files_core::fs::Moment;
use dav_guarded_core::guarded::{Guarded, Request};
use labels::Labels;
use line_streams::numbers::number;
use line_streams::{Fault, read_line};
use lines::{Unread, request_of};
use names::path_error;
use playing::Player;
use rand_core::{Rng, SeedableRng};
use rand_pcg::Pcg64;
use std::alloc::Global;
use std::io::{BufReader, BufWriter, ErrorKind, Read, Write};

/// The answer to a line for which there is no memory.
const OUT_OF_MEMORY: &[u8] = b"out of memory\n";

/// How many bytes are read at once, and written.
const BUFFER: usize = 64 * 1024;

/// The seed that the words behind the program's name give: one word of one or more decimal digits, within u64.
pub fn seed_of(args: &[String]) -> Option<u64>
    ensures { result ≡ seed (map string_bytes args.now) }
{
    match args {
        [word] => number(word.as_str()),
        _ => None,
    }
}

/// Plays a scenario: runs the requests of `input`, one a line, in stores that begin with a root folder at moment 0, and
/// writes an answer a line to `output`. The generator of lock tokens begins with the seed. Answers are written out whenever the next line
/// isn't at hand yet.
///
/// Answers the status to end with. 0 at the end of the input. 2 after a line of a wrong form, which `faults` names by its
/// number; later lines aren't run. 3 where the input or the output fails, after 2^64 - 2 lines, or where there is no memory
/// outside a line. A failed write to `faults` changes no status.
pub fn replay<I: Read + Drop, O: Write + Drop, E: Write + Drop>(
    alloc: Global,
    seed: u64,
    input: I,
    output: O,
    mut faults: E,
) -> u8
    ensures status { (result ≡ 0) ⊎ (result ≡ 2) ⊎ (result ≡ 3) }
    ensures whole { result ≡ 0 → Replayed seed (I.remaining input) None }
    ensures malformed { result ≡ 2 → (number : ℕ) × Replayed seed (I.remaining input) (Some number) }
{
    match BufWriter::with_capacity(alloc, BUFFER, output) {
        Ok(mut output) => replay_to(alloc, seed, input, &mut output, faults),
        Err(error) => {
            let _written = faults.write_all(Fault::from(error).text());
            3
        }
    }
}

/// The same to an output that the caller keeps. Where the status is 0 or 2, the texts of the answers were appended to it, in order,
/// each with the labels of its locks, and all of them are written out. Where it is 3, the lines in front of some one were played, and their
/// texts were appended, and behind them at most a front of that line's (own).
pub fn replay_to<I: Read + Drop, O: Write + Drop, E: Write + Drop>(
    alloc: Global,
    seed: u64,
    input: I,
    output: &mut BufWriter<O>,
    mut faults: E,
) -> u8
    ensures status { (result ≡ 0) ⊎ (result ≡ 2) ⊎ (result ≡ 3) }
    ensures whole { result ≡ 0 → ReplayedTo seed (I.remaining input) None
        (writer_contents O.contents output.old) (writer_contents O.contents output.new) }
    ensures malformed { result ≡ 2 → (number : ℕ) × ReplayedTo seed (I.remaining input) (Some number)
        (writer_contents O.contents output.old) (writer_contents O.contents output.new) }
    ensures stopped { result ≡ 3 → ReplayedPart seed (I.remaining input)
        (writer_contents O.contents output.old) (writer_contents O.contents output.new) }
{
    match play(alloc, seed, input, output) {
        Ok(None) => 0,
        Ok(Some(line)) => {
            let _written = writeln!(faults, "line {line}: malformed");
            2
        }
        Err(fault) => {
            let _written = faults.write_all(fault.text());
            3
        }
    }
}

// The number of a line of a wrong form, where there is one, from 1. What was answered before it, and before a fault, is written first.
fn play<I: Read + Drop, O: Write + Drop>(
    alloc: Global,
    seed: u64,
    input: I,
    output: &mut BufWriter<O>,
) -> Result<Option<u64>, Fault>
    ensures ok { IfOk result (λ end. ReplayedTo seed (I.remaining input) end
        (writer_contents O.contents output.old) (writer_contents O.contents output.new)) }
    ensures err { OnErr result (ReplayedPart seed (I.remaining input)
        (writer_contents O.contents output.old) (writer_contents O.contents output.new)) }
{
    let mut input = BufReader::with_capacity(alloc, BUFFER, input)?;
    let Ok(stores) = Guarded::new(alloc, Moment(0)) else {
        return Err(Fault::OutOfMemory);
    };
    let mut player = Player {
        stores,
        rng: Pcg64::seed_from_u64(seed),
        labels: Labels::new(alloc),
    };
    play_all(alloc, &mut player, &mut input, output)
}

// Plays all lines, and writes out what was answered, also before a fault.
fn play_all<R: Rng + Drop, I: Read + Drop, O: Write + Drop>(
    alloc: Global,
    player: &mut Player<R>,
    input: &mut BufReader<I>,
    output: &mut BufWriter<O>,
) -> Result<Option<u64>, Fault>
    ensures ok { IfOk result (λ end. (texts : List (List ℕ)) × InputPlayed (state_of player.old.stores (R.stream player.old.rng), player.old.labels)
        (reader_remaining I.remaining input.old) end texts (state_of player.new.stores (R.stream player.new.rng), player.new.labels)
        × Appends (writer_contents O.contents output.old) (writer_contents O.contents output.new) (concat texts)) }
    ensures err { OnErr result (PlayedPart (state_of player.old.stores (R.stream player.old.rng), player.old.labels)
        (reader_remaining I.remaining input.old) (writer_contents O.contents output.old) (writer_contents O.contents output.new)) }
{
    let played = play_lines(alloc, player, input, output);
    output.flush()?;
    played
}

// One line at a time, in one buffer, up to one of a wrong form. `Io` after 2^64 - 2 lines.
fn play_lines<R: Rng + Drop, I: Read + Drop, O: Write + Drop>(
    alloc: Global,
    player: &mut Player<R>,
    input: &mut BufReader<I>,
    output: &mut BufWriter<O>,
) -> Result<Option<u64>, Fault>
    ensures ok { IfOk result (λ end. (texts : List (List ℕ)) × InputPlayed (state_of player.old.stores (R.stream player.old.rng), player.old.labels)
        (reader_remaining I.remaining input.old) end texts (state_of player.new.stores (R.stream player.new.rng), player.new.labels)
        × Appends (writer_contents O.contents output.old) (writer_contents O.contents output.new) (concat texts)) }
    ensures err { OnErr result (PlayedPart (state_of player.old.stores (R.stream player.old.rng), player.old.labels)
        (reader_remaining I.remaining input.old) (writer_contents O.contents output.old) (writer_contents O.contents output.new)) }
{
    let (mut line, mut text) = (Vec::new(alloc), Vec::new(alloc));
    for number in 1..u64::MAX {
        if !read_line(input, &mut line, output)? {
            return Ok(None);
        }
        if !play_line(alloc, player, &line, &mut text, output)? {
            return Ok(Some(number));
        }
    }
    Err(Fault::Io)
}

// Answers a line, and tells whether it has a right form. What is to be written is made whole in `text` first.
fn play_line<R: Rng + Drop, O: Write + Drop>(
    alloc: Global,
    player: &mut Player<R>,
    line: &[u8],
    text: &mut Vec<u8>,
    output: &mut BufWriter<O>,
) -> Result<bool, Fault>
    ensures ok { IfOk result (λ right. (written : List ℕ) × LinePlayed (state_of player.old.stores (R.stream player.old.rng), player.old.labels) line.now right
        (state_of player.new.stores (R.stream player.new.rng), player.new.labels) written
        × Appends (writer_contents O.contents output.old) (writer_contents O.contents output.new) written) }
    ensures err { OnErr result (LineStopped (state_of player.old.stores (R.stream player.old.rng), player.old.labels) line.now
        (writer_contents O.contents output.old) (writer_contents O.contents output.new)) }
{
    let said = request_of(alloc, &player.labels, line);
    play_said(player, &said, text, output)
}

// The same of what a line says.
fn play_said<R: Rng + Drop, O: Write + Drop>(
    player: &mut Player<R>,
    said: &Result<Option<Request>, Unread>,
    text: &mut Vec<u8>,
    output: &mut BufWriter<O>,
) -> Result<bool, Fault>
    ensures ok { IfOk result (λ right. (written : List ℕ) × PlaysLine (state_of player.old.stores (R.stream player.old.rng), player.old.labels) said.now right
        (state_of player.new.stores (R.stream player.new.rng), player.new.labels) written
        × Appends (writer_contents O.contents output.old) (writer_contents O.contents output.new) written) }
    ensures err { OnErr result (SaidStopped (state_of player.old.stores (R.stream player.old.rng), player.old.labels) said.now
        (writer_contents O.contents output.old) (writer_contents O.contents output.new)) }
{
    text.clear();
    let right = follow(player, said, text)?;
    write_text(text, output)?;
    Ok(right)
}

// Writes a text, or a front of it where the output fails.
fn write_text<O: Write>(text: &[u8], output: &mut O) -> Result<(), Fault>
    ensures ok { OnOk result (Appends (O.contents output.old) (O.contents output.new) text.now) }
    ensures err { OnErr result ((count : ℕ) × Appends (O.contents output.old) (O.contents output.new) (take count text.now)) }
{
    let mut rest = text;
    for _turn in 0..u64::MAX {
        if rest.is_empty() {
            return Ok(());
        }
        let count = write_piece(rest, output)?;
        rest = &rest[count..];
    }
    Err(Fault::Io)
}

// Writes a front of a text that is not empty, and tells how long it is: no byte where the write was interrupted. `Io` where no more is taken.
fn write_piece<O: Write>(text: &[u8], output: &mut O) -> Result<usize, Fault>
    ensures bound { IfOk result (λ count. count ≤ length text.now) }
    ensures ok { IfOk result (λ count. Appends (O.contents output.old) (O.contents output.new) (take count text.now)) }
    ensures err { OnErr result (Keeps (O.contents output.old) (O.contents output.new)) }
{
    match output.write(text) {
        Ok(0) => return Err(Fault::Io),
        Ok(count) => return Ok(count),
        Err(error) => {
            if error.kind() == ErrorKind::Interrupted {
                return Ok(0);
            }
            return Err(Fault::from(error));
        }
    }
}

// What follows what a line says, and what is written for it.
fn follow<R: Rng + Drop, O: Write>(
    player: &mut Player<R>,
    said: &Result<Option<Request>, Unread>,
    output: &mut O,
) -> Result<bool, Fault>
    ensures { IfOk result (λ right. (written : List ℕ) × PlaysLine (state_of player.old.stores (R.stream player.old.rng), player.old.labels) said.now right
        (state_of player.new.stores (R.stream player.new.rng), player.new.labels) written
        × Appends (O.contents output.old) (O.contents output.new) written) }
{
    match said {
        Ok(Some(request)) => {
            player.answer(request, output)?;
            Ok(true)
        }
        Ok(None) => Ok(true),
        Err(Unread::Malformed) => Ok(false),
        Err(Unread::BadPath(error)) => {
            writeln!(output, "bad path {}", path_error(*error))?;
            Ok(true)
        }
        Err(Unread::OutOfMemory) => {
            output.write_all(OUT_OF_MEMORY)?;
            Ok(true)
        }
    }
}
