//! Where a file is broken, and how the gate there is shut.
ghost use Rattle.std.specs.Prelude.{◌≡◌, ℕ, List, Ok, None, IsTrue, IfOk, IfSome, OnErr, OnOk};
ghost use Rattle.sqlite_disk.specs.Disk.{MoreFaults, Only, Torn};
ghost use Rattle.journal_core.specs.Clocked.{EachLeaves};
ghost use Rattle.journal_core.specs.Format.{Laid, Lies, StandsFor};
ghost use Rattle.journal_core.specs.JournalReading.{IsReading, header_of};
ghost use Rattle.journal_core.specs.LiveCopies.{gate_behind};
ghost use Rattle.journal_core.specs.declared.header.Header.{Header as HeaderValue};
ghost use Rattle.journal_copies.specs.Broken.{IsAdopting, IsBroken};
ghost use Rattle.journal_copies.specs.DiskLooks.{LooksAt, LooksOnDisk, disk_in, disk_looked_at};

use crate::looking::Looking;
use journal_core::{Header, JournalError, Reader};
use sqlite_disk::Disk;
use std::alloc::Global;
use std::io;

/// Where a file is broken (own).
#[derive(Clone, Copy)]
pub struct Break {
    /// The header.
    pub header: Header,
    /// At which byte the gate is behind the rounds that stand whole.
    pub place: usize,
    /// How many records these rounds have.
    pub records: u64,
}

// What comes next in a file that is read.
#[derive(Drop)]
enum Turn {
    // A record.
    More,
    // A gate that is shut.
    End,
    // Neither a whole round nor a gate that is shut, at this place.
    Broken(u64),
}

/// Reads a file to where it is broken; none where it is whole, or still being made (own).
///
/// - `Foreign`, `Unsupported`, `Damaged`: it is neither new nor begins as a journal.
/// - `Failed`: a read failed. `OutOfMemory`: there is no memory. `TooLarge`: it is longer than 2^64 bytes.
pub fn find_break<D: Disk, B>(
    alloc: Global,
    file: &mut Looking<D, B>,
    note: &B,
) -> Result<Option<Break>, JournalError>
    requires usable { IsTrue (D.Disk.is_usable (disk_in file.old)) }
    ensures broken { IfOk result (λ some. IfSome some (λ b. LooksAt D.Disk.seen D.Disk.is_clean file.old (D.Disk.seen (disk_in file.old)) 0 → IsTrue (D.Disk.is_clean (disk_in file.new))
        → (rounds : List Laid) × IsBroken b.header (D.Disk.seen (disk_in file.old)) rounds × (b.place ≡ gate_behind b.header rounds))) }
    ensures whole { result ≡ Ok None → LooksAt D.Disk.seen D.Disk.is_clean file.old (D.Disk.seen (disk_in file.old)) 0 → IsTrue (D.Disk.is_clean (disk_in file.new))
        → (h : HeaderValue) × (records : List (List ℕ)) × StandsFor h (D.Disk.seen (disk_in file.old)) records }
    ensures looks { LooksOnDisk D.Disk.seen D.Disk.may_leave D.Disk.is_clean D.Disk.faults note.now file.old file.new }
    ensures usable { IsTrue (D.Disk.is_usable (disk_in file.new)) }
{
    let Some(mut reader) = Reader::begin(alloc, file, note)? else {
        return Ok(None);
    };
    'reading: for records in 0..u64::MAX {
        match take_turn(&mut reader, file, note)? {
            Turn::More => {}
            Turn::End => return Ok(None),
            Turn::Broken(place) => return Ok(Some(Break {
                header: reader.header(),
                place: place as usize,
                records,
            })),
        }
    }
    Err(JournalError::TooLarge)
}

// Reads the next record.
fn take_turn<D: Disk, B>(
    reader: &mut Reader,
    file: &mut Looking<D, B>,
    note: &B,
) -> Result<Turn, JournalError>
    requires usable { IsTrue (D.Disk.is_usable (disk_in file.old)) }
    ensures on { result ≡ Ok Turn.More → (f : List ℕ) (done : List (List ℕ)) → IsReading (LooksAt D.Disk.seen D.Disk.is_clean) (λ l. IsTrue (D.Disk.is_clean (disk_in l))) file.old reader.old f done
        → (more : List (List ℕ)) × IsReading (LooksAt D.Disk.seen D.Disk.is_clean) (λ l. IsTrue (D.Disk.is_clean (disk_in l))) file.new reader.new f more }
    ensures ends { result ≡ Ok Turn.End → (f : List ℕ) (done : List (List ℕ)) → IsReading (LooksAt D.Disk.seen D.Disk.is_clean) (λ l. IsTrue (D.Disk.is_clean (disk_in l))) file.old reader.old f done
        → IsTrue (D.Disk.is_clean (disk_in file.new)) → (h : HeaderValue) × (records : List (List ℕ)) × StandsFor h f records }
    ensures broken { IfOk result (λ turn. (place : ℕ) → turn ≡ Turn.Broken place → (f : List ℕ) (done : List (List ℕ))
        → IsReading (LooksAt D.Disk.seen D.Disk.is_clean) (λ l. IsTrue (D.Disk.is_clean (disk_in l))) file.old reader.old f done
        → IsTrue (D.Disk.is_clean (disk_in file.new)) → (rounds : List Laid) × IsBroken (header_of reader.old) f rounds × (place ≡ gate_behind (header_of reader.old) rounds)) }
    ensures header { header_of reader.new ≡ header_of reader.old }
    ensures looks { LooksOnDisk D.Disk.seen D.Disk.may_leave D.Disk.is_clean D.Disk.faults note.now file.old file.new }
    ensures usable { IsTrue (D.Disk.is_usable (disk_in file.new)) }
{
    match reader.next(file, note) {
        Ok(true) => Ok(Turn::More),
        Ok(false) => Ok(Turn::End),
        Err(JournalError::Damaged(place)) => Ok(Turn::Broken(place)),
        Err(error) => Err(error),
    }
}

/// Shuts the gate at which the file is broken, by one write of eight bytes and a sync (own). Nothing is cut off. `Err` where a call of the disk failed: then the file may be as it was, or adopted.
pub fn shut<D: Disk, B>(file: &mut Looking<D, B>, note: &B, broken: &Break) -> io::Result<()>
    requires usable { IsTrue (D.Disk.is_usable (disk_in file.old)) }
    // The file has the rounds before that gate, and that is on the disk.
    ensures adopts { OnOk result ((rounds : List Laid) → IsBroken broken.now.header (D.Disk.seen (disk_in file.old)) rounds → broken.now.place ≡ gate_behind broken.now.header rounds
        → Lies broken.now.header (D.Disk.seen (disk_in file.new)) rounds × Only (D.Disk.seen (disk_in file.new)) (D.Disk.may_leave (disk_in file.new))) }
    // All other bytes stay, but for those behind the end of the file.
    ensures others { OnOk result (Torn broken.now.place 8 (D.Disk.seen (disk_in file.old)) (D.Disk.seen (disk_in file.new))) }
    ensures cause { OnErr result (MoreFaults (D.Disk.faults (disk_in file.old)) (D.Disk.faults (disk_in file.new))) }
    // What a crash leaves at any moment of the call is as it was but for these eight bytes, and has these rounds, or is broken there as it was,
    ensures any_moment { (rounds : List Laid) → IsBroken broken.now.header (D.Disk.seen (disk_in file.old)) rounds → broken.now.place ≡ gate_behind broken.now.header rounds
        → Only (D.Disk.seen (disk_in file.old)) (D.Disk.may_leave (disk_in file.old))
        → EachLeaves D.Disk.may_leave note.now (IsAdopting broken.now.header rounds (D.Disk.seen (disk_in file.old))) (disk_looked_at file.old) (disk_looked_at file.new) }
    // and so is what one behind it leaves, whatever it answered.
    ensures crash { (rounds : List Laid) → IsBroken broken.now.header (D.Disk.seen (disk_in file.old)) rounds → broken.now.place ≡ gate_behind broken.now.header rounds
        → Only (D.Disk.seen (disk_in file.old)) (D.Disk.may_leave (disk_in file.old))
        → (c : List ℕ) → D.Disk.may_leave (disk_in file.new) c → IsAdopting broken.now.header rounds (D.Disk.seen (disk_in file.old)) c }
    ensures clean { D.Disk.is_clean (disk_in file.new) ≡ D.Disk.is_clean (disk_in file.old) }
{
    file.disk.write_at(note, broken.place, b"shutgate")?;
    file.disk.sync(note)
}
