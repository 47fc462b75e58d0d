//! Each call of the disk is noted as it begins and as it ends.
ghost use Rattle.std.specs.Prelude.{◌≡◌, ◌+◌, ◌<◌, ◌≤◌, ◌++◌, [], ◌∷◌, ℕ, List, length, is_ok, IsTrue, IfOk, OnOk};
ghost use Rattle.sqlite_disk.specs.Disk.{Holds, Torn, Follows, Only, CountsFault, CountsFaultIf};
ghost use Rattle.sqlite_disk.specs.Tally.{CountsRefusal};
ghost use Rattle.journal_core.specs.Clocked.{disk_of, past_of};

use http_server::Log as Past;
use sqlite_disk::Disk;
use std::io;

/// A disk that nothing takes out again, and its state before and after each call since it came into this type, each beside what the caller noted then.
#[derive(Drop)]
pub struct Clocked<D: Disk, B> {
    disk: D,
    past: Past<D, B>,
}

impl<D: Disk, B> Clocked<D, B> {
    /// This disk, of which nothing is noted yet (own).
    pub fn new(disk: D) -> Clocked<D, B>
        ensures disk { disk_of result ≡ disk }
        ensures past { past_of result ≡ [] }
    {
        Clocked {
            disk,
            past: Past::new(),
        }
    }

    /// Notes a moment with no call of the disk (own).
    pub fn note(&mut self, note: &B)
        ensures noted { past_of self.new ≡ past_of self.old ++ (disk_of self.new, note.now) ∷ [] }
        ensures disk { disk_of self.new ≡ disk_of self.old }
    {
        self.past = self.past.and(&self.disk, note);
    }

    /// How long the file is, in bytes. `Err` where the call failed (own).
    pub fn len(&mut self, note: &B) -> io::Result<usize>
        requires { IsTrue (D.Disk.is_usable (disk_of self.old)) }
        ensures noted { past_of self.new ≡ past_of self.old ++ (disk_of self.old, note.now) ∷ (disk_of self.new, note.now) ∷ [] }
        ensures len { IfOk result (λ n. IsTrue (D.Disk.is_clean (disk_of self.new)) → n ≡ length (D.Disk.seen (disk_of self.old))) }
        ensures seen { D.Disk.seen (disk_of self.new) ≡ D.Disk.seen (disk_of self.old) }
        ensures crash { (c : List ℕ) → D.Disk.may_leave (disk_of self.new) c → D.Disk.may_leave (disk_of self.old) c }
        ensures clean { IsTrue (D.Disk.is_clean (disk_of self.new)) → IsTrue (D.Disk.is_clean (disk_of self.old)) }
        ensures faults { CountsFault result (D.Disk.faults (disk_of self.old)) (D.Disk.faults (disk_of self.new)) }
        ensures tally { D.Disk.tally_of (disk_of self.new) ≡ D.Disk.tally_of (disk_of self.old) }
        ensures usable { IsTrue (D.Disk.is_usable (disk_of self.new)) }
    {
        self.past = self.past.and(&self.disk, note);
        let answer = self.disk.len();
        self.past = self.past.and(&self.disk, note);
        answer
    }

    /// Reads as many bytes as there is room for, from this byte on. `Err` where the call failed, or the file ends before (own).
    pub fn read_at(&mut self, note: &B, at: usize, buf: &mut [u8]) -> io::Result<()>
        requires { IsTrue (D.Disk.is_usable (disk_of self.old)) }
        ensures noted { past_of self.new ≡ past_of self.old ++ (disk_of self.old, note.now) ∷ (disk_of self.new, note.now) ∷ [] }
        ensures read { OnOk result (IsTrue (D.Disk.is_clean (disk_of self.new)) → 0 < length buf.old → Holds (D.Disk.seen (disk_of self.old)) at buf.new) }
        ensures seen { D.Disk.seen (disk_of self.new) ≡ D.Disk.seen (disk_of self.old) }
        ensures crash { (c : List ℕ) → D.Disk.may_leave (disk_of self.new) c → D.Disk.may_leave (disk_of self.old) c }
        ensures clean { IsTrue (D.Disk.is_clean (disk_of self.new)) → IsTrue (D.Disk.is_clean (disk_of self.old)) }
        // A read past the end of the file has to fail, so that it is no fault of the disk.
        ensures faults { CountsFaultIf (IsTrue (D.Disk.is_clean (disk_of self.old)) → at + length buf.old ≤ length (D.Disk.seen (disk_of self.old))) result
            (D.Disk.faults (disk_of self.old)) (D.Disk.faults (disk_of self.new)) }
        ensures tally { D.Disk.tally_of (disk_of self.new) ≡ D.Disk.tally_of (disk_of self.old) }
        ensures usable { IsTrue (D.Disk.is_usable (disk_of self.new)) }
    {
        self.past = self.past.and(&self.disk, note);
        let answer = self.disk.read_at(at, buf);
        self.past = self.past.and(&self.disk, note);
        answer
    }

    /// Writes the bytes, from this byte on; the file grows where it ends before. At `Err` any part of them may be written, and the disk may be full (own).
    pub fn write_at(&mut self, note: &B, at: usize, bytes: &[u8]) -> io::Result<()>
        requires { IsTrue (D.Disk.is_usable (disk_of self.old)) }
        ensures noted { past_of self.new ≡ past_of self.old ++ (disk_of self.old, note.now) ∷ (disk_of self.new, note.now) ∷ [] }
        ensures written { OnOk result (0 < length bytes.now → Holds (D.Disk.seen (disk_of self.new)) at bytes.now) }
        ensures others { Torn at (length bytes.now) (D.Disk.seen (disk_of self.old)) (D.Disk.seen (disk_of self.new)) }
        ensures crash { Follows (Torn at (length bytes.now)) (D.Disk.may_leave (disk_of self.old)) (D.Disk.may_leave (disk_of self.new)) }
        ensures clean { D.Disk.is_clean (disk_of self.new) ≡ D.Disk.is_clean (disk_of self.old) }
        ensures faults { CountsFault result (D.Disk.faults (disk_of self.old)) (D.Disk.faults (disk_of self.new)) }
        ensures tally { CountsRefusal result (D.Disk.tally_of (disk_of self.old)) (D.Disk.tally_of (disk_of self.new)) }
        ensures usable { IsTrue (D.Disk.is_usable (disk_of self.new)) }
    {
        self.past = self.past.and(&self.disk, note);
        let answer = self.disk.write_at(at, bytes);
        self.past = self.past.and(&self.disk, note);
        answer
    }

    /// Puts on the disk all that was written. At `Err` it may not be there, and the disk may not be used any more (own).
    pub fn sync(&mut self, note: &B) -> io::Result<()>
        requires { IsTrue (D.Disk.is_usable (disk_of self.old)) }
        ensures noted { past_of self.new ≡ past_of self.old ++ (disk_of self.old, note.now) ∷ (disk_of self.new, note.now) ∷ [] }
        ensures durable { OnOk result (Only (D.Disk.seen (disk_of self.old)) (D.Disk.may_leave (disk_of self.new))) }
        ensures seen { D.Disk.seen (disk_of self.new) ≡ D.Disk.seen (disk_of self.old) }
        ensures crash { (c : List ℕ) → D.Disk.may_leave (disk_of self.new) c → D.Disk.may_leave (disk_of self.old) c }
        ensures clean { D.Disk.is_clean (disk_of self.new) ≡ D.Disk.is_clean (disk_of self.old) }
        ensures faults { CountsFault result (D.Disk.faults (disk_of self.old)) (D.Disk.faults (disk_of self.new)) }
        ensures tally { CountsRefusal result (D.Disk.tally_of (disk_of self.old)) (D.Disk.tally_of (disk_of self.new)) }
        ensures usable { D.Disk.is_usable (disk_of self.new) ≡ is_ok result }
    {
        self.past = self.past.and(&self.disk, note);
        let answer = self.disk.sync();
        self.past = self.past.and(&self.disk, note);
        answer
    }
}
