//! How a new file is made: a zero byte, then the header behind it with its gate, and then the first byte, each on the disk before the next.
ghost use Rattle.std.specs.Prelude.{◌≡◌, ◌<◌, ◌++◌, [], ℕ, List, length, IsTrue, IfOk, IfErr, OnOk};
ghost use Rattle.sqlite_disk.specs.Disk.{Only};
ghost use Rattle.journal_core.specs.Clocked.{disk_of, EachLeaves};
ghost use Rattle.journal_core.specs.Format.{IsNewFile, IsOf64Bits, StandsFor, header_text, shut_word};
ghost use Rattle.journal_core.specs.declared.header.Header.{Header as HeaderValue};
ghost use Rattle.journal_core.specs.declared.error.JournalError.TheVariants.{OutOfMemory};
ghost use Rattle.journal_core.specs.Private.Stages.{HasZeroFirst, IsCounted, IsMade};

use crate::clocked::Clocked;
use crate::error::JournalError;
use crate::header::{Header, header_bytes};
use crate::writing::put;
use sqlite_disk::Disk;
use std::alloc::Global;
use std::io;

/// Makes a new file, of which so many bytes are there.
pub(crate) fn make<D: Disk, B>(
    disk: &mut Clocked<D, B>,
    note: &B,
    len: usize,
    text: &[u8],
) -> io::Result<()>
    requires usable { IsTrue (D.Disk.is_usable (disk_of disk.old)) }
    requires some { 0 < length text.now }
    ensures made { (h : HeaderValue) → IsOf64Bits h → text.now ≡ header_text h ++ shut_word → len ≡ length (D.Disk.seen (disk_of disk.old)) → IsNewFile (D.Disk.seen (disk_of disk.old)) → OnOk result (IsMade D.Disk.seen D.Disk.may_leave h (disk_of disk.new)) }
    ensures any_moment { (h : HeaderValue) → IsOf64Bits h → text.now ≡ header_text h ++ shut_word → len ≡ length (D.Disk.seen (disk_of disk.old)) → IsNewFile (D.Disk.seen (disk_of disk.old)) → Only (D.Disk.seen (disk_of disk.old)) (D.Disk.may_leave (disk_of disk.old))
        → EachLeaves D.Disk.may_leave note.now (λ c. StandsFor h c []) disk.old disk.new }
    ensures crash { (h : HeaderValue) → IsOf64Bits h → text.now ≡ header_text h ++ shut_word → len ≡ length (D.Disk.seen (disk_of disk.old)) → IsNewFile (D.Disk.seen (disk_of disk.old)) → Only (D.Disk.seen (disk_of disk.old)) (D.Disk.may_leave (disk_of disk.old))
        → (c : List ℕ) → D.Disk.may_leave (disk_of disk.new) c → StandsFor h c [] }
    ensures counts { IsCounted result (D.Disk.faults (disk_of disk.old)) (D.Disk.faults (disk_of disk.new)) (D.Disk.tally_of (disk_of disk.old)) (D.Disk.tally_of (disk_of disk.new)) }
    ensures clean { D.Disk.is_clean (disk_of disk.new) ≡ D.Disk.is_clean (disk_of disk.old) }
    ensures usable { OnOk result (IsTrue (D.Disk.is_usable (disk_of disk.new))) }
{
    if len > 1 {
        return finish(disk, note, text);
    }
    put(disk, note, 0, &[0])?;
    finish(disk, note, text)
}

// Makes a file whose zero byte is on the disk.
fn finish<D: Disk, B>(disk: &mut Clocked<D, B>, note: &B, text: &[u8]) -> io::Result<()>
    requires usable { IsTrue (D.Disk.is_usable (disk_of disk.old)) }
    requires some { 0 < length text.now }
    ensures made { (h : HeaderValue) → IsOf64Bits h → text.now ≡ header_text h ++ shut_word → HasZeroFirst (D.Disk.seen (disk_of disk.old)) → OnOk result (IsMade D.Disk.seen D.Disk.may_leave h (disk_of disk.new)) }
    ensures any_moment { (h : HeaderValue) → IsOf64Bits h → text.now ≡ header_text h ++ shut_word → HasZeroFirst (D.Disk.seen (disk_of disk.old)) → Only (D.Disk.seen (disk_of disk.old)) (D.Disk.may_leave (disk_of disk.old))
        → EachLeaves D.Disk.may_leave note.now (λ c. StandsFor h c []) disk.old disk.new }
    ensures crash { (h : HeaderValue) → IsOf64Bits h → text.now ≡ header_text h ++ shut_word → HasZeroFirst (D.Disk.seen (disk_of disk.old)) → Only (D.Disk.seen (disk_of disk.old)) (D.Disk.may_leave (disk_of disk.old))
        → (c : List ℕ) → D.Disk.may_leave (disk_of disk.new) c → StandsFor h c [] }
    ensures counts { IsCounted result (D.Disk.faults (disk_of disk.old)) (D.Disk.faults (disk_of disk.new)) (D.Disk.tally_of (disk_of disk.old)) (D.Disk.tally_of (disk_of disk.new)) }
    ensures clean { D.Disk.is_clean (disk_of disk.new) ≡ D.Disk.is_clean (disk_of disk.old) }
    ensures usable { OnOk result (IsTrue (D.Disk.is_usable (disk_of disk.new))) }
{
    put(disk, note, 1, text)?;
    put(disk, note, 0, b"J")?;
    Ok(())
}

/// What stands behind the first byte of a new file: the header, and a gate that is shut.
pub(crate) fn new_text(alloc: Global, header: &Header) -> Result<Vec<u8>, JournalError>
    ensures text { IfOk result (λ text. text.items ≡ header_text header.now ++ shut_word) }
    ensures cause { IfErr result (λ e. e ≡ OutOfMemory) }
{
    let mut text = header_bytes(alloc, header)?;
    text.extend_from_slice(b"shutgate")?;
    Ok(text)
}
