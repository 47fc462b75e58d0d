//! Writing behind a gate that is shut, and a write with a sync.
ghost use Rattle.std.specs.Prelude.{◌≡◌, ◌⊎◌, ◌+◌, ◌<◌, ◌≤◌, ◌^◌, ◌++◌, ℕ, List, MatchBool, length, max, IsTrue, IfOk, OnOk, OnErr};
ghost use Rattle.sqlite_disk.specs.Disk.{Holds, MoreFaults, Torn, Only};
ghost use Rattle.journal_core.specs.Clocked.{disk_of, EachLeaves, GoesAs};
ghost use Rattle.journal_core.specs.Format.{round_text, shut_word};
ghost use Rattle.sqlite_disk.specs.Refusal.{is_no_room};
ghost use Rattle.journal_core.specs.declared.error.JournalError.TheVariants.{Failed, Full};
ghost use Rattle.journal_core.specs.Private.Stages.{BeginsWith, ChangesOnce, IsCounted, Wrote, WritesBehind, parts_text, round_bytes};

use crate::clocked::Clocked;
use crate::error::JournalError;
use crate::round::Round;
use sqlite_disk::{Disk, is_no_room};
use std::io::{self, ErrorKind};

// So many zeros are written by one call: on a network's file system each call takes a while.
static ZEROS: [[u8; 1024]; 1024] = [[0; 1024]; 1024];

/// Writes bytes, and has them on the disk at `Ok`.
pub(crate) fn put<D: Disk, B>(
    disk: &mut Clocked<D, B>,
    note: &B,
    at: usize,
    bytes: &[u8],
) -> io::Result<()>
    requires usable { IsTrue (D.Disk.is_usable (disk_of disk.old)) }
    requires some { 0 < length bytes.now }
    ensures holds { OnOk result (Holds (D.Disk.seen (disk_of disk.new)) at bytes.now) }
    ensures others { Torn at (length bytes.now) (D.Disk.seen (disk_of disk.old)) (D.Disk.seen (disk_of disk.new)) }
    ensures durable { OnOk result (Only (D.Disk.seen (disk_of disk.new)) (D.Disk.may_leave (disk_of disk.new))) }
    ensures any_moment { EachLeaves D.Disk.may_leave note.now (Wrote at (length bytes.now) (D.Disk.may_leave (disk_of disk.old))) disk.old disk.new }
    ensures crash { (c : List ℕ) → D.Disk.may_leave (disk_of disk.new) c → Wrote at (length bytes.now) (D.Disk.may_leave (disk_of disk.old)) c }
    ensures moments { OnOk result (GoesAs (ChangesOnce (D.Disk.seen (disk_of disk.old)) (D.Disk.seen (disk_of disk.new))) D.Disk.seen disk.old disk.new) }
    ensures counts { IsCounted result (D.Disk.faults (disk_of disk.old)) (D.Disk.faults (disk_of disk.new)) (D.Disk.tally_of (disk_of disk.old)) (D.Disk.tally_of (disk_of disk.new)) }
    ensures clean { D.Disk.is_clean (disk_of disk.new) ≡ D.Disk.is_clean (disk_of disk.old) }
    ensures usable { OnOk result (IsTrue (D.Disk.is_usable (disk_of disk.new))) }
{
    disk.write_at(note, at, bytes)?;
    disk.sync(note)?;
    Ok(())
}

/// Writes a piece, and tells where it ends.
pub(crate) fn write_piece<D: Disk, B>(
    disk: &mut Clocked<D, B>,
    note: &B,
    at: usize,
    bytes: &[u8],
) -> io::Result<usize>
    requires usable { IsTrue (D.Disk.is_usable (disk_of disk.old)) }
    requires fits { at + length bytes.now < 2 ^ 64 }
    ensures next { IfOk result (λ next. next ≡ at + length bytes.now) }
    ensures writes { OnOk result ((front : List ℕ) → length front ≡ at → BeginsWith front (D.Disk.seen (disk_of disk.old)) → BeginsWith (front ++ bytes.now) (D.Disk.seen (disk_of disk.new))) }
    ensures len { OnOk result ((0 < length bytes.now) ⊎ (at ≤ length (D.Disk.seen (disk_of disk.old))) → length (D.Disk.seen (disk_of disk.new)) ≡ max (length (D.Disk.seen (disk_of disk.old))) (at + length bytes.now)) }
    ensures most { length (D.Disk.seen (disk_of disk.new)) ≤ max (length (D.Disk.seen (disk_of disk.old))) (at + length bytes.now) }
    ensures seen { (front : List ℕ) → length front ≤ at → BeginsWith front (D.Disk.seen (disk_of disk.old)) → BeginsWith front (D.Disk.seen (disk_of disk.new)) }
    ensures behind { WritesBehind D.Disk.seen D.Disk.may_leave note.now at disk.old disk.new }
    ensures counts { IsCounted result (D.Disk.faults (disk_of disk.old)) (D.Disk.faults (disk_of disk.new)) (D.Disk.tally_of (disk_of disk.old)) (D.Disk.tally_of (disk_of disk.new)) }
    ensures clean { D.Disk.is_clean (disk_of disk.new) ≡ D.Disk.is_clean (disk_of disk.old) }
    ensures usable { IsTrue (D.Disk.is_usable (disk_of disk.new)) }
{
    if bytes.is_empty() {
        return Ok(at);
    }
    disk.write_at(note, at, bytes)?;
    Ok(at + bytes.len())
}

/// Writes a round behind its gate, and then a gate that is shut, and has them on the disk at `Ok`. Where the next gate is.
pub(crate) fn write_round<D: Disk, B>(
    disk: &mut Clocked<D, B>,
    note: &B,
    key: u64,
    gate: usize,
    round: &Round,
    len: usize,
) -> io::Result<usize>
    requires usable { IsTrue (D.Disk.is_usable (disk_of disk.old)) }
    requires len { len ≡ length (round_bytes round.now) }
    requires fits { gate + (32 + length (round_bytes round.now)) < 2 ^ 64 }
    ensures next { IfOk result (λ next. next ≡ gate + (24 + length (round_bytes round.now))) }
    ensures writes { OnOk result ((front : List ℕ) → length front ≡ gate + 8 → BeginsWith front (D.Disk.seen (disk_of disk.old))
        → BeginsWith (front ++ (round_text key gate (round_bytes round.now) ++ shut_word)) (D.Disk.seen (disk_of disk.new))) }
    ensures len { OnOk result (length (D.Disk.seen (disk_of disk.new)) ≡ max (length (D.Disk.seen (disk_of disk.old))) (gate + (32 + length (round_bytes round.now)))) }
    ensures durable { OnOk result (Only (D.Disk.seen (disk_of disk.new)) (D.Disk.may_leave (disk_of disk.new))) }
    ensures behind { WritesBehind D.Disk.seen D.Disk.may_leave note.now (gate + 8) disk.old disk.new }
    ensures counts { IsCounted result (D.Disk.faults (disk_of disk.old)) (D.Disk.faults (disk_of disk.new)) (D.Disk.tally_of (disk_of disk.old)) (D.Disk.tally_of (disk_of disk.new)) }
    ensures clean { D.Disk.is_clean (disk_of disk.new) ≡ D.Disk.is_clean (disk_of disk.old) }
    ensures usable { OnOk result (IsTrue (D.Disk.is_usable (disk_of disk.new))) }
{
    let sum = round.sum(key, gate, len);
    let at = write_piece(disk, note, gate + 8, &(len as u64).to_le_bytes())?;
    let at = write_piece(disk, note, at, &sum.to_le_bytes())?;
    let at = write_parts(disk, note, at, round)?;
    let at = write_piece(disk, note, at, &round.tail)?;
    let _end = write_piece(disk, note, at, b"shutgate")?;
    disk.sync(note)?;
    Ok(at)
}

/// Writes the text of rounds behind a gate that is shut, which ends at this place, and then another gate that is shut, and has them on the disk at `Ok`.
pub(crate) fn write_behind<D: Disk, B>(
    disk: &mut Clocked<D, B>,
    note: &B,
    at: usize,
    text: &[u8],
) -> io::Result<()>
    requires usable { IsTrue (D.Disk.is_usable (disk_of disk.old)) }
    requires some { 0 < length text.now }
    requires fits { at + (8 + length text.now) < 2 ^ 64 }
    ensures writes { OnOk result ((front : List ℕ) → length front ≡ at → BeginsWith front (D.Disk.seen (disk_of disk.old)) → BeginsWith (front ++ (text.now ++ shut_word)) (D.Disk.seen (disk_of disk.new))) }
    ensures len { OnOk result (length (D.Disk.seen (disk_of disk.new)) ≡ max (length (D.Disk.seen (disk_of disk.old))) (at + (8 + length text.now))) }
    ensures durable { OnOk result (Only (D.Disk.seen (disk_of disk.new)) (D.Disk.may_leave (disk_of disk.new))) }
    ensures behind { WritesBehind D.Disk.seen D.Disk.may_leave note.now at disk.old disk.new }
    ensures counts { IsCounted result (D.Disk.faults (disk_of disk.old)) (D.Disk.faults (disk_of disk.new)) (D.Disk.tally_of (disk_of disk.old)) (D.Disk.tally_of (disk_of disk.new)) }
    ensures clean { D.Disk.is_clean (disk_of disk.new) ≡ D.Disk.is_clean (disk_of disk.old) }
    ensures usable { OnOk result (IsTrue (D.Disk.is_usable (disk_of disk.new))) }
{
    let next = write_piece(disk, note, at, text)?;
    let _end = write_piece(disk, note, next, b"shutgate")?;
    disk.sync(note)?;
    Ok(())
}

// Writes the parts of a round, one behind another.
fn write_parts<D: Disk, B>(
    disk: &mut Clocked<D, B>,
    note: &B,
    from: usize,
    round: &Round,
) -> io::Result<usize>
    requires usable { IsTrue (D.Disk.is_usable (disk_of disk.old)) }
    requires fits { from + length (parts_text round.now.parts.items) < 2 ^ 64 }
    ensures next { IfOk result (λ next. next ≡ from + length (parts_text round.now.parts.items)) }
    ensures writes { OnOk result ((front : List ℕ) → length front ≡ from → BeginsWith front (D.Disk.seen (disk_of disk.old)) → BeginsWith (front ++ parts_text round.now.parts.items) (D.Disk.seen (disk_of disk.new))) }
    ensures len { OnOk result (from ≤ length (D.Disk.seen (disk_of disk.old)) → length (D.Disk.seen (disk_of disk.new)) ≡ max (length (D.Disk.seen (disk_of disk.old))) (from + length (parts_text round.now.parts.items))) }
    ensures behind { WritesBehind D.Disk.seen D.Disk.may_leave note.now from disk.old disk.new }
    ensures counts { IsCounted result (D.Disk.faults (disk_of disk.old)) (D.Disk.faults (disk_of disk.new)) (D.Disk.tally_of (disk_of disk.old)) (D.Disk.tally_of (disk_of disk.new)) }
    ensures clean { D.Disk.is_clean (disk_of disk.new) ≡ D.Disk.is_clean (disk_of disk.old) }
    ensures usable { IsTrue (D.Disk.is_usable (disk_of disk.new)) }
{
    let mut at = from;
    'writing: for part in &round.parts {
        at = write_piece(disk, note, at, &part.own)?;
        at = write_piece(disk, note, at, &part.body)?;
    }
    Ok(at)
}

/// Writes zeros from one place up to another, or up to where the disk has no more room, or the file may be no longer, and has them on the disk at `Ok`.
pub(crate) fn lengthen<D: Disk, B>(
    disk: &mut Clocked<D, B>,
    note: &B,
    from: usize,
    to: usize,
) -> io::Result<()>
    requires usable { IsTrue (D.Disk.is_usable (disk_of disk.old)) }
    requires some { from < to }
    ensures len { OnOk result ((length (D.Disk.seen (disk_of disk.new)) ≡ max (length (D.Disk.seen (disk_of disk.old))) to)
        ⊎ MoreFaults (D.Disk.faults (disk_of disk.old)) (D.Disk.faults (disk_of disk.new))) }
    ensures most { length (D.Disk.seen (disk_of disk.new)) ≤ max (length (D.Disk.seen (disk_of disk.old))) to }
    ensures seen { (front : List ℕ) → length front ≤ from → BeginsWith front (D.Disk.seen (disk_of disk.old)) → BeginsWith front (D.Disk.seen (disk_of disk.new)) }
    ensures durable { OnOk result (Only (D.Disk.seen (disk_of disk.new)) (D.Disk.may_leave (disk_of disk.new))) }
    ensures behind { WritesBehind D.Disk.seen D.Disk.may_leave note.now from disk.old disk.new }
    ensures fails { OnErr result (MoreFaults (D.Disk.faults (disk_of disk.old)) (D.Disk.faults (disk_of disk.new))) }
    ensures faults { D.Disk.faults (disk_of disk.old) ≤ D.Disk.faults (disk_of disk.new) }
    ensures clean { D.Disk.is_clean (disk_of disk.new) ≡ D.Disk.is_clean (disk_of disk.old) }
    ensures usable { OnOk result (IsTrue (D.Disk.is_usable (disk_of disk.new))) }
{
    let zeros = zeros();
    let mut at = from;
    'writing: while at < to {
        let count = (to - at).min(zeros.len());
        match write_piece(disk, note, at, &zeros[..count]) {
            Ok(next) => at = next,
            Err(error) => {
                if is_no_room(&error) || is_too_long(&error) {
                    return disk.sync(note);
                }
                return Err(error);
            }
        }
    }
    disk.sync(note)
}

// What one call writes of them at most.
fn zeros() -> &'static [u8]
    ensures { 0 < length result.now }
{
    ZEROS.as_flattened()
}

// Whether no file may be as long as it would be, by a limit of its file system or of the process.
fn is_too_long(error: &io::Error) -> bool {
    match error.kind() {
        ErrorKind::FileTooLarge => true,
        _ => false,
    }
}

/// What a call of the disk that failed is told as.
pub(crate) fn write_error(error: io::Error) -> JournalError
    ensures { MatchBool (is_no_room error) (result ≡ Full) (result ≡ Failed error) }
{
    if is_no_room(&error) {
        return JournalError::Full;
    }
    JournalError::Failed(error)
}
