//! Rounds of turns: turns are given, what they changed is kept in one round of the journal, and then their answers are handed out.
ghost use Rattle.std.specs.Prelude.{◌≡◌, ◌+◌, ◌<◌, ◌≤◌, ◌^◌, ◌++◌, ◌∷◌, [], ℕ, List, IfOk, IsTrue, OnErr, OnOk, length, option_to_list};
ghost use Rattle.http_frames.specs.Clients.{count_begun};
ghost use Rattle.http_frames.specs.TurnRuns.{BreaksTold, TellsAll};
ghost use Rattle.journal_core.specs.Resting.{Carries, IsSettled, disk_behind, gate_of};
ghost use Rattle.kept_frames.specs.Giving.{AddsWithin, BreaksTurns, GrowsFirst, EndsWithin, KeepsRecords, LosesNoRoom, NotesMore, NotesTurns, StaysSettled};
ghost use Rattle.kept_frames.specs.Rounds.{FailsKept, WritesKept};

use crate::error::KeptError;
use crate::recording::Recording;
use http_frames::clients::Clients;
use http_frames::gate::{AccessLog, OneCall};
use http_frames::serving::tell;
use journal_core::{Journal, JournalError, Round};
use line_streams::Fault;
use sqlite_disk::Disk;
use std::alloc::{AllocError, Global};
use std::io::Write;

/// One round keeps the changes of so many turns at most (own).
const TURNS: usize = 64;

/// No turn follows in a round that has so many bytes, or whose answers have (own).
pub(crate) const BYTES: usize = 1024 * 1024;

/// Turns that were given, and whose answers wait: what they changed, and whose they were.
#[derive(Drop)]
pub(crate) struct Turned {
    pub(crate) round: Round,
    pub(crate) numbers: Vec<u64>,
}

/// Gives turns, keeps what they changed, and then hands out what they made. Whether a turn was given.
pub(crate) fn give_round<S: Recording, L: AccessLog, D: Disk, O: Write>(
    alloc: Global,
    clients: &mut Clients,
    service: &mut OneCall<S, L>,
    journal: &mut Journal<D, O>,
    output: &mut O,
) -> Result<bool, KeptError>
    requires usable { IsTrue (D.Disk.is_usable (disk_behind journal.old)) }
    ensures ok { OnOk result (WritesKept S.begins S.answers S.clocked S.listed S.stands D.Disk.seen D.Disk.may_leave D.Disk.is_clean O.contents clients.old clients.new service.old.service
        service.new.service journal.old journal.new output.old output.new) }
    ensures err { OnErr result (FailsKept S.begins S.answers S.clocked S.listed S.stands D.Disk.seen D.Disk.may_leave D.Disk.is_clean O.contents clients.old clients.new service.old.service
        service.new.service journal.old journal.new output.old output.new) }
    // What is appended stands in the room that was made.
    ensures grows { OnOk result ((records : List (List ℕ)) → IsSettled D.Disk.seen D.Disk.may_leave D.Disk.is_clean journal.old records → GrowsFirst D.Disk.seen D.Disk.may_leave D.Disk.is_clean journal.old journal.new output.old) }
    ensures begun { count_begun clients.new ≡ count_begun clients.old }
    ensures usable { OnOk result (IsTrue (D.Disk.is_usable (disk_behind journal.new))) }
{
    let turned = give_turns(alloc, clients, service, journal, output)?;
    if turned.numbers.is_empty() {
        return Ok(false);
    }
    journal.append(output, &turned.round)?;
    tell_each(clients, &turned.numbers, output)?;
    journal.note(output);
    Ok(true)
}

// Gives turns to those who wait, as long as it may, and notes what each changed. Before each turn, room is made in the journal's file for what it may change.
fn give_turns<S: Recording, L: AccessLog, D: Disk, O: Write>(
    alloc: Global,
    clients: &mut Clients,
    service: &mut OneCall<S, L>,
    journal: &mut Journal<D, O>,
    output: &O,
) -> Result<Turned, KeptError>
    requires usable { IsTrue (D.Disk.is_usable (disk_behind journal.old)) }
    ensures ok { IfOk result (λ turned. NotesTurns S.begins S.answers S.clocked S.listed S.stands turned.numbers.items clients.old clients.new service.old.service service.new.service turned.round) }
    ensures err { OnErr result (BreaksTurns S.begins S.answers S.clocked S.listed clients.old clients.new service.old.service service.new.service) }
    ensures begun { count_begun clients.new ≡ count_begun clients.old }
    ensures keeps { KeepsRecords D.Disk.seen D.Disk.may_leave D.Disk.is_clean journal.old journal.new output.now }
    ensures stays { OnOk result (StaysSettled D.Disk.seen D.Disk.may_leave D.Disk.is_clean journal.old journal.new) }
    ensures room { IfOk result (λ turned. (records new : List (List ℕ)) → IsSettled D.Disk.seen D.Disk.may_leave D.Disk.is_clean journal.old records → Carries turned.round new
        → EndsWithin D.Disk.seen D.Disk.is_clean journal.new new) }
    ensures usable { OnOk result (IsTrue (D.Disk.is_usable (disk_behind journal.new))) }
{
    let mut turned = Turned {
        round: Round::new(alloc),
        numbers: Vec::new(alloc),
    };
    let mut made = 0u64;
    let mut full = false;
    'turns: for _turn in 0..TURNS {
        if !clients.may_answer() || is_full(&turned.round, made) {
            return Ok(turned);
        }
        full = set_room(clients, service, journal, output, turned.round.len(), full)?;
        let Some(number) = give_turn(clients, service, &mut turned.round)? else {
            return Ok(turned);
        };
        made = made.saturating_add(service.own);
        add_number(&mut turned.numbers, number)?;
    }
    Ok(turned)
}

// Adds the number of a connection that had a turn.
fn add_number(numbers: &mut Vec<u64>, number: u64) -> Result<(), AllocError>
    ensures { OnOk result (numbers.new.items ≡ numbers.old.items ++ number ∷ []) }
{
    numbers.push(number)?;
    Ok(())
}

// Makes room in the journal's file for the record of the next turn behind so many bytes of the round, unless the disk was full; and tells the service how much there is. Whether the disk is full.
pub(crate) fn set_room<S: Recording, L: AccessLog, D: Disk, O: Write>(
    clients: &Clients,
    service: &mut OneCall<S, L>,
    journal: &mut Journal<D, O>,
    output: &O,
    held: usize,
    full: bool,
) -> Result<bool, JournalError>
    requires usable { IsTrue (D.Disk.is_usable (disk_behind journal.old)) }
    ensures same { service.new.service ≡ service.old.service }
    ensures keeps { KeepsRecords D.Disk.seen D.Disk.may_leave D.Disk.is_clean journal.old journal.new output.now }
    ensures stays { OnOk result (StaysSettled D.Disk.seen D.Disk.may_leave D.Disk.is_clean journal.old journal.new) }
    ensures loses { OnOk result (LosesNoRoom D.Disk.seen D.Disk.is_clean journal.old journal.new) }
    // What the service is told of stands behind what the round holds.
    ensures room { OnOk result (0 < service.new.room → (records : List (List ℕ)) → IsSettled D.Disk.seen D.Disk.may_leave D.Disk.is_clean journal.new records → IsTrue (D.Disk.is_clean (disk_behind journal.new))
        → gate_of journal.new + (32 + (held + service.new.room)) ≤ length (D.Disk.seen (disk_behind journal.new))) }
    ensures counted { OnOk result (0 < service.new.room → held + service.new.room < 2 ^ 64) }
    ensures usable { OnOk result (IsTrue (D.Disk.is_usable (disk_behind journal.new))) }
{
    let most = service.service.most_room(clients.unanswered());
    let wanted = most.saturating_add(held as u64);
    let full = make_room(journal, output, wanted, service.free, full)?;
    service.room = (journal.room() as u64).saturating_sub(held as u64);
    Ok(full)
}

// Makes room for a round of so many bytes, on a disk that has so many free where that was told, unless there is room, or the disk was full. Whether the disk is full.
fn make_room<D: Disk, O>(
    journal: &mut Journal<D, O>,
    output: &O,
    wanted: u64,
    free: Option<u64>,
    full: bool,
) -> Result<bool, JournalError>
    requires usable { IsTrue (D.Disk.is_usable (disk_behind journal.old)) }
    ensures keeps { KeepsRecords D.Disk.seen D.Disk.may_leave D.Disk.is_clean journal.old journal.new output.now }
    ensures stays { OnOk result (StaysSettled D.Disk.seen D.Disk.may_leave D.Disk.is_clean journal.old journal.new) }
    ensures loses { OnOk result (LosesNoRoom D.Disk.seen D.Disk.is_clean journal.old journal.new) }
    ensures usable { OnOk result (IsTrue (D.Disk.is_usable (disk_behind journal.new))) }
{
    if full || journal.room() as u64 >= wanted {
        return Ok(full);
    }
    let there = journal.make_room_for(output, wanted as usize, free)?;
    Ok(!there)
}

// Whether no turn follows in the round, whose answers have so many bytes.
fn is_full(round: &Round, made: u64) -> bool {
    round.len() >= BYTES || made >= BYTES as u64
}

// Gives a turn to the first who waits for one, and notes what it changed; none where nobody waits.
pub(crate) fn give_turn<S: Recording, L: AccessLog>(
    clients: &mut Clients,
    service: &mut OneCall<S, L>,
    round: &mut Round,
) -> Result<Option<u64>, AllocError>
    ensures ok { IfOk result (λ number. NotesMore S.begins S.answers S.clocked S.listed S.stands (option_to_list number) clients.old clients.new service.old.service service.new.service round.old round.new) }
    ensures fits { OnOk result (AddsWithin service.old.room round.old round.new) }
    ensures err { OnErr result (BreaksTurns S.begins S.answers S.clocked S.listed clients.old clients.new service.old.service service.new.service) }
    ensures begun { count_begun clients.new ≡ count_begun clients.old }
{
    let before = service.service.turn();
    let Some(number) = clients.answer(service) else {
        return Ok(None);
    };
    if service.service.turn() != before {
        service.service.record(round)?;
    }
    Ok(Some(number))
}

// Hands out what waits, to each of these connections.
fn tell_each<O: Write>(clients: &mut Clients, numbers: &[u64], output: &mut O) -> Result<(), Fault>
    ensures ok { OnOk result (TellsAll clients.old clients.new (O.contents output.old) (O.contents output.new)) }
    ensures err { OnErr result (BreaksTold clients.old clients.new (O.contents output.old) (O.contents output.new)) }
    ensures begun { count_begun clients.new ≡ count_begun clients.old }
{
    for number in numbers {
        tell(clients, *number, output)?;
    }
    Ok(())
}
