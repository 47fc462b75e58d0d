//! A file on a disk that is read as a source.
ghost use Rattle.std.specs.Prelude.{◌≡◌, ◌≤◌, ℕ, List, length, IsTrue};
ghost use Rattle.sqlite_disk.specs.Disk.{MoreFaults};
ghost use Rattle.journal_copies.specs.DiskLooks.{LooksAt, LooksOnDisk, disk_in, disk_looked_at};
ghost use Rattle.journal_copies.specs.DiskLookLaws.{looks_not, looks_on, fails_later};

use journal_core::{Clocked, Source};
use sqlite_disk::Disk;
use std::io;

/// A file on a disk, which is read from its front (own).
#[derive(Drop)]
pub struct Looking<D: Disk, B> {
    pub(crate) disk: Clocked<D, B>,
    // How far it was read.
    at: usize,
}

impl<D: Disk, B> Looking<D, B> {
    /// The file on this disk, of which nothing was read yet.
    pub fn new(disk: Clocked<D, B>) -> Looking<D, B>
        ensures disk { disk_looked_at result ≡ disk }
        ensures front { LooksAt D.Disk.seen D.Disk.is_clean result (D.Disk.seen (disk_in result)) 0 }
    {
        Looking { disk, at: 0 }
    }
}

impl<D: Disk, B> Source<B> for Looking<D, B> {
    ghost is_at = { LooksAt D.Disk.seen D.Disk.is_clean };

    ghost is_honest = { λ l. IsTrue (D.Disk.is_clean (disk_in l)) };

    ghost is_usable = { λ l. IsTrue (D.Disk.is_usable (disk_in l)) };

    ghost looks = { LooksOnDisk D.Disk.seen D.Disk.may_leave D.Disk.is_clean D.Disk.faults };

    ghost fails = { λ a b. MoreFaults (D.Disk.faults (disk_in a)) (D.Disk.faults (disk_in b)) };

    ghost looks_not = { looks_not D.Disk.seen D.Disk.may_leave D.Disk.is_clean D.Disk.faults };

    ghost looks_on = { looks_on D.Disk.seen D.Disk.may_leave D.Disk.is_clean D.Disk.faults };

    ghost fails_later = { fails_later D.Disk.seen D.Disk.may_leave D.Disk.is_clean D.Disk.faults };

    fn fill(&mut self, note: &B, buf: &mut [u8]) -> io::Result<usize> {
        let len = self.disk.len(note)?;
        let count = buf.len().min(len.saturating_sub(self.at));
        if count == 0 {
            return Ok(0);
        }
        self.disk.read_at(note, self.at, &mut buf[..count])?;
        self.at += count;
        Ok(count)
    }

    fn left(&self) -> Option<usize> {
        None
    }
}
