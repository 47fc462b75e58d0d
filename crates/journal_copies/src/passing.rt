//! A journal that is read round by round.
ghost use Rattle.std.specs.Prelude.{◌≡◌, ◌++◌, ℕ, List, Ok, None, IsTrue, IfOk, IfSome, OnOk};
ghost use Rattle.sqlite_disk.specs.Disk.{Only};
ghost use Rattle.journal_core.specs.Format.{record_text, records_text};
ghost use Rattle.journal_core.specs.Resting.{IsBeingRead, IsSettled, disk_behind, is_ready};

use journal_core::{Journal, JournalError, Reader};
use sqlite_disk::Disk;
use std::alloc::{AllocError, Global};

/// Reads the next round of a journal whose gate is at this place: the bytes of its records (own). None where the journal has no more: then it is open. Nothing is written.
///
/// Its errors are those of `Journal::read`; and `Damaged`, where the journal ends before a round that is begun, since its gate is at another place.
pub fn next_round<D: Disk, B>(
    alloc: Global,
    journal: &mut Journal<D, B>,
    reader: &mut Reader,
    note: &B,
    gate: usize,
) -> Result<Option<Vec<u8>>, JournalError>
    requires usable { IsTrue (D.Disk.is_usable (disk_behind journal.old)) }
    ensures reads { IfOk result (λ some. IfSome some (λ text. (done : List (List ℕ)) → IsBeingRead D.Disk.seen D.Disk.is_clean journal.old reader.old done
        → (more : List (List ℕ)) × (text.items ≡ records_text more) × IsBeingRead D.Disk.seen D.Disk.is_clean journal.new reader.new (done ++ more))) }
    // Where there is none the file stands for the records that were read before, and it is on the disk, if it was.
    ensures ends { result ≡ Ok None → (done : List (List ℕ)) → IsBeingRead D.Disk.seen D.Disk.is_clean journal.old reader.old done → IsTrue (D.Disk.is_clean (disk_behind journal.new))
        → Only (D.Disk.seen (disk_behind journal.old)) (D.Disk.may_leave (disk_behind journal.old)) → IsSettled D.Disk.seen D.Disk.may_leave D.Disk.is_clean journal.new done }
    ensures ready { result ≡ Ok None → IsTrue (is_ready journal.new) }
    ensures seen { D.Disk.seen (disk_behind journal.new) ≡ D.Disk.seen (disk_behind journal.old) }
    ensures crash { (c : List ℕ) → D.Disk.may_leave (disk_behind journal.new) c → D.Disk.may_leave (disk_behind journal.old) c }
    ensures clean { IsTrue (D.Disk.is_clean (disk_behind journal.new)) → IsTrue (D.Disk.is_clean (disk_behind journal.old)) }
    ensures usable { IsTrue (D.Disk.is_usable (disk_behind journal.new)) }
{
    let mut text = Vec::new(alloc);
    'reading: for _ in 0..u64::MAX {
        if !journal.read(reader, note)? {
            if text.is_empty() {
                return Ok(None);
            }
            return Err(JournalError::Damaged(gate as u64));
        }
        add_record(&mut text, reader.record())?;
        if is_passed(gate, text.len(), reader.place()) {
            return Ok(Some(text));
        }
    }
    Err(JournalError::TooLarge)
}

// Whether the round at this gate ends behind so many bytes of its records, where the next gate is at that place.
fn is_passed(gate: usize, len: usize, next: usize) -> bool {
    gate.saturating_add(24).saturating_add(len) >= next
}

// Adds the bytes of a record in a round.
fn add_record(text: &mut Vec<u8>, bytes: &[u8]) -> Result<(), AllocError>
    ensures { OnOk result (text.new.items ≡ text.old.items ++ record_text bytes.now) }
{
    text.extend_from_slice(&(bytes.len() as u64).to_le_bytes())?;
    text.extend_from_slice(bytes)?;
    Ok(())
}
