//! A journal in a file: it is opened, read to its end, and from then on rounds are appended.
ghost use Rattle.std.specs.Prelude.{◌≡◌, ◌≢◌, ◌⊎◌, ◌+◌, ◌<◌, ◌≤◌, ◌^◌, ◌++◌, [], ◌∷◌, ℕ, List, None, Some, true, false, Ok, Err, length, IsTrue, IsFalse, IfOk, IfErr, IfSome, OnOk, OnErr};
ghost use Rattle.sqlite_disk.specs.Disk.{MoreFaults, Only};
ghost use Rattle.journal_core.specs.Clocked.{EachLeaves, GoesAs, SeesSame, past_of};
ghost use Rattle.journal_core.specs.Format.{IsNewFile, StandsFor};
ghost use Rattle.journal_core.specs.JournalReading.{HasCause, HasReadCause, HasNoHeader, IsNoHeader, IsRefusal, header_of, record_of};
ghost use Rattle.journal_core.specs.Resting.{IsBeingRead, IsSettled, StandsAtPlace, clocked_of, disk_behind, header_in, is_ready};
ghost use Rattle.journal_core.specs.Private.Looks.{LooksOn, SameButDisk};
ghost use Rattle.journal_core.specs.Private.LookLaws.{looks_not, looks_on, fails_later};
ghost use Rattle.journal_core.specs.declared.error.JournalError.TheVariants.{TooLarge};
ghost use Rattle.journal_core.specs.declared.header.Header.{Header as HeaderValue};

use crate::clocked::Clocked;
use crate::error::JournalError;
use crate::header::{HEADER, Header};
use crate::making::{make, new_text};
use crate::reader::Reader;
use crate::source::Source;
use crate::writing::write_error;
use sqlite_disk::Disk;
use std::alloc::Global;
use std::io;

/// So long no file grows, in bytes.
pub(crate) const LARGEST: usize = 1 << 62;

/// A journal in a file (own). It is opened by `start`, read to its end by `read`, and then written by `append`. After an error nothing more is written through it; who opens the file again finds
/// all that was acknowledged.
#[derive(Drop)]
pub struct Journal<D: Disk, B> {
    pub(crate) disk: Clocked<D, B>,
    pub(crate) header: Header,
    /// How far it was read; once it is open, where the gate is that is shut.
    pub(crate) at: usize,
    /// How long the file is, where that is known.
    pub(crate) len: Option<usize>,
    pub(crate) is_open: bool,
}

impl<D: Disk, B> Journal<D, B> {
    /// A journal in this file, which is not opened yet.
    pub fn new(disk: Clocked<D, B>) -> Journal<D, B>
        ensures disk { clocked_of result ≡ disk }
        ensures closed { IsFalse (is_ready result) }
    {
        Journal {
            disk,
            header: Header {
                generation: 0,
                key: 0,
                began: 0,
            },
            at: 0,
            len: None,
            is_open: false,
        }
    }

    /// Notes a moment with no call of the disk (own).
    pub fn note(&mut self, note: &B)
        ensures noted { past_of (clocked_of self.new) ≡ past_of (clocked_of self.old) ++ (disk_behind self.new, note.now) ∷ [] }
        ensures disk { disk_behind self.new ≡ disk_behind self.old }
        ensures settled { (records : List (List ℕ)) → IsSettled D.Disk.seen D.Disk.may_leave D.Disk.is_clean self.old records → IsSettled D.Disk.seen D.Disk.may_leave D.Disk.is_clean self.new records }
        ensures ready { is_ready self.new ≡ is_ready self.old }
        ensures header { header_in self.new ≡ header_in self.old }
    {
        self.disk.note(note);
    }

    /// Opens the file. Where it is new it is made, with this header, and the journal is open: `None`. Else its header is read, and the reader is to be read to its end.
    ///
    /// - `Foreign`, `Unsupported`, `Damaged`: the file is neither new nor begins as a journal. It stays as it was.
    /// - `Failed`, `Full`: a call of the disk failed. `OutOfMemory`: there is no memory for the header.
    pub fn start(
        &mut self,
        alloc: Global,
        note: &B,
        header: Header,
    ) -> Result<Option<Reader>, JournalError>
        requires usable { IsTrue (D.Disk.is_usable (disk_behind self.old)) }
        ensures made { result ≡ Ok None → IsTrue (D.Disk.is_clean (disk_behind self.new)) → IsSettled D.Disk.seen D.Disk.may_leave D.Disk.is_clean self.new [] × IsNewFile (D.Disk.seen (disk_behind self.old)) × (header_in self.new ≡ header) }
        ensures ready { result ≡ Ok None → IsTrue (is_ready self.new) }
        ensures begins { IfOk result (λ some. IfSome some (λ r. (D.Disk.seen (disk_behind self.new) ≡ D.Disk.seen (disk_behind self.old)) × IsBeingRead D.Disk.seen D.Disk.is_clean self.new r [])) }
        // To read leaves no more than was left before.
        ensures left { IfOk result (λ some. IfSome some (λ _. (c : List ℕ) → D.Disk.may_leave (disk_behind self.new) c → D.Disk.may_leave (disk_behind self.old) c)) }
        ensures kept { IfErr result (λ e. IsRefusal e → (c : List ℕ) → D.Disk.may_leave (disk_behind self.new) c → D.Disk.may_leave (disk_behind self.old) c) }
        ensures closes { OnErr result (IsFalse (is_ready self.new)) }
        ensures refused { IfErr result (λ e. IsRefusal e → (D.Disk.seen (disk_behind self.new) ≡ D.Disk.seen (disk_behind self.old))
            × (IsTrue (D.Disk.is_clean (disk_behind self.new)) → ¬ (IsNewFile (D.Disk.seen (disk_behind self.old))) × HasNoHeader (D.Disk.seen (disk_behind self.old)) × IsNoHeader e (D.Disk.seen (disk_behind self.old)))) }
        ensures any_moment { IsTrue (D.Disk.is_clean (disk_behind self.new)) → Only (D.Disk.seen (disk_behind self.old)) (D.Disk.may_leave (disk_behind self.old))
            → (h : HeaderValue) (records : List (List ℕ)) → StandsFor h (D.Disk.seen (disk_behind self.old)) records
            → EachLeaves D.Disk.may_leave note.now (λ c. StandsFor h c records ⊎ StandsFor header c records) (clocked_of self.old) (clocked_of self.new) }
        ensures crash { IsTrue (D.Disk.is_clean (disk_behind self.new)) → Only (D.Disk.seen (disk_behind self.old)) (D.Disk.may_leave (disk_behind self.old))
            → (h : HeaderValue) (records : List (List ℕ)) → StandsFor h (D.Disk.seen (disk_behind self.old)) records
            → (c : List ℕ) → D.Disk.may_leave (disk_behind self.new) c → StandsFor h c records ⊎ StandsFor header c records }
        ensures small { IfErr result (λ e. e ≢ TooLarge) }
        ensures cause { IfErr result (λ e. HasCause (MoreFaults (D.Disk.faults (disk_behind self.old)) (D.Disk.faults (disk_behind self.new))) e) }
        ensures clean { IsTrue (D.Disk.is_clean (disk_behind self.new)) → IsTrue (D.Disk.is_clean (disk_behind self.old)) }
        ensures usable { OnOk result (IsTrue (D.Disk.is_usable (disk_behind self.new))) }
    {
        self.is_open = false;
        self.at = 0;
        self.len = None;
        let Some(reader) = Reader::begin(alloc, self, note)? else {
            self.create(alloc, note, header)?;
            return Ok(None);
        };
        Ok(Some(reader))
    }

    // Makes the file, which is new.
    fn create(&mut self, alloc: Global, note: &B, header: Header) -> Result<(), JournalError>
        requires usable { IsTrue (D.Disk.is_usable (disk_behind self.old)) }
        ensures made { OnOk result (IsNewFile (D.Disk.seen (disk_behind self.old)) → IsTrue (D.Disk.is_clean (disk_behind self.new)) → IsSettled D.Disk.seen D.Disk.may_leave D.Disk.is_clean self.new []) }
        ensures ready { OnOk result (IsTrue (is_ready self.new) × (header_in self.new ≡ header)) }
        ensures closes { OnErr result (is_ready self.new ≡ is_ready self.old) }
        ensures refused { IfErr result (λ e. ¬ (IsRefusal e)) }
        ensures any_moment { IsNewFile (D.Disk.seen (disk_behind self.old)) → IsTrue (D.Disk.is_clean (disk_behind self.new)) → Only (D.Disk.seen (disk_behind self.old)) (D.Disk.may_leave (disk_behind self.old))
            → EachLeaves D.Disk.may_leave note.now (λ c. StandsFor header c []) (clocked_of self.old) (clocked_of self.new) }
        ensures crash { IsNewFile (D.Disk.seen (disk_behind self.old)) → IsTrue (D.Disk.is_clean (disk_behind self.new)) → Only (D.Disk.seen (disk_behind self.old)) (D.Disk.may_leave (disk_behind self.old))
            → (c : List ℕ) → D.Disk.may_leave (disk_behind self.new) c → StandsFor header c [] }
        ensures small { IfErr result (λ e. e ≢ TooLarge) }
        ensures cause { IfErr result (λ e. HasCause (MoreFaults (D.Disk.faults (disk_behind self.old)) (D.Disk.faults (disk_behind self.new))) e) }
        ensures clean { IsTrue (D.Disk.is_clean (disk_behind self.new)) → IsTrue (D.Disk.is_clean (disk_behind self.old)) }
        ensures usable { OnOk result (IsTrue (D.Disk.is_usable (disk_behind self.new))) }
    {
        let text = new_text(alloc, &header)?;
        let len = match self.disk.len(note) {
            Ok(len) => len,
            Err(error) => return Err(JournalError::Failed(error)),
        };
        self.len = None;
        if let Err(error) = make(&mut self.disk, note, len, &text) {
            return Err(write_error(error));
        }
        self.header = header;
        self.at = HEADER;
        self.is_open = true;
        Ok(())
    }

    /// Reads the next record, which `reader.record` shows from then on. False where the journal has no more: then it is open, and rounds may be appended.
    ///
    /// - `Damaged`: behind what was read stands neither a whole round nor a gate that is shut, so that the file stands for no records.
    /// - `Failed`: a call of the disk failed. `OutOfMemory`: there is no memory for the round. `TooLarge`: the file is longer than 2^64 bytes.
    pub fn read(&mut self, reader: &mut Reader, note: &B) -> Result<bool, JournalError>
        requires usable { IsTrue (D.Disk.is_usable (disk_behind self.old)) }
        ensures reads { result ≡ Ok true → (done : List (List ℕ)) → IsBeingRead D.Disk.seen D.Disk.is_clean self.old reader.old done → IsBeingRead D.Disk.seen D.Disk.is_clean self.new reader.new (done ++ record_of reader.new ∷ []) }
        ensures ends { result ≡ Ok false → (done : List (List ℕ)) → IsBeingRead D.Disk.seen D.Disk.is_clean self.old reader.old done → IsTrue (D.Disk.is_clean (disk_behind self.new))
            → Only (D.Disk.seen (disk_behind self.old)) (D.Disk.may_leave (disk_behind self.old)) → IsSettled D.Disk.seen D.Disk.may_leave D.Disk.is_clean self.new done }
        ensures header { result ≡ Ok false → IsFalse (is_ready self.old) → header_in self.new ≡ header_of reader.old }
        ensures begun { header_of reader.new ≡ header_of reader.old }
        ensures ready { result ≡ Ok false → IsTrue (is_ready self.new) }
        ensures again { IsTrue (is_ready self.old) → (result ≡ Ok false) × (self.new ≡ self.old) × (reader.new ≡ reader.old) }
        ensures not_yet { result ≢ Ok false → is_ready self.new ≡ is_ready self.old }
        ensures refused { IfErr result (λ e. IsRefusal e → (done : List (List ℕ)) → IsBeingRead D.Disk.seen D.Disk.is_clean self.old reader.old done → IsTrue (D.Disk.is_clean (disk_behind self.new))
            → (h : HeaderValue) (records : List (List ℕ)) → ¬ (StandsFor h (D.Disk.seen (disk_behind self.old)) records)) }
        ensures large { result ≡ Err TooLarge → (done : List (List ℕ)) → IsBeingRead D.Disk.seen D.Disk.is_clean self.old reader.old done → IsTrue (D.Disk.is_clean (disk_behind self.new)) → 2 ^ 64 ≤ length (D.Disk.seen (disk_behind self.old)) }
        ensures seen { D.Disk.seen (disk_behind self.new) ≡ D.Disk.seen (disk_behind self.old) }
        // What is seen stays the same at each moment.
        ensures moments { GoesAs SeesSame D.Disk.seen (clocked_of self.old) (clocked_of self.new) }
        ensures any_moment { EachLeaves D.Disk.may_leave note.now (D.Disk.may_leave (disk_behind self.old)) (clocked_of self.old) (clocked_of self.new) }
        ensures crash { (c : List ℕ) → D.Disk.may_leave (disk_behind self.new) c → D.Disk.may_leave (disk_behind self.old) c }
        ensures cause { IfErr result (λ e. (done : List (List ℕ)) → IsBeingRead D.Disk.seen D.Disk.is_clean self.old reader.old done → HasReadCause (MoreFaults (D.Disk.faults (disk_behind self.old)) (D.Disk.faults (disk_behind self.new))) e) }
        ensures faults { D.Disk.faults (disk_behind self.old) ≤ D.Disk.faults (disk_behind self.new) }
        ensures clean { IsTrue (D.Disk.is_clean (disk_behind self.new)) → IsTrue (D.Disk.is_clean (disk_behind self.old)) }
        ensures usable { IsTrue (D.Disk.is_usable (disk_behind self.new)) }
    {
        if self.is_open {
            return Ok(false);
        }
        if reader.next(self, note)? {
            return Ok(true);
        }
        self.header = reader.header();
        self.at = reader.place();
        self.is_open = true;
        Ok(false)
    }
}

impl<D: Disk, B> Source<B> for Journal<D, B> {
    ghost is_at = { StandsAtPlace D.Disk.seen D.Disk.is_clean };

    ghost is_honest = { λ j. IsTrue (D.Disk.is_clean (disk_behind j)) };

    ghost is_usable = { λ j. IsTrue (D.Disk.is_usable (disk_behind j)) };

    ghost looks = { LooksOn D.Disk.seen D.Disk.may_leave D.Disk.is_clean D.Disk.faults };

    ghost fails = { λ a b. MoreFaults (D.Disk.faults (disk_behind a)) (D.Disk.faults (disk_behind b)) };

    ghost looks_not = { looks_not D.Disk.seen D.Disk.may_leave D.Disk.is_clean D.Disk.faults };

    ghost looks_on = { looks_on D.Disk.seen D.Disk.may_leave D.Disk.is_clean D.Disk.faults };

    ghost fails_later = { fails_later D.Disk.seen D.Disk.may_leave D.Disk.is_clean D.Disk.faults };

    fn fill(&mut self, note: &B, buf: &mut [u8]) -> io::Result<usize> {
        let len = self.measure(note)?;
        let count = buf.len().min(len.saturating_sub(self.at));
        if count == 0 {
            return Ok(0);
        }
        self.disk.read_at(note, self.at, &mut buf[..count])?;
        self.at += count;
        Ok(count)
    }

    fn left(&self) -> Option<usize> {
        let len = self.len?;
        Some(len.saturating_sub(self.at))
    }
}

impl<D: Disk, B> Journal<D, B> {
    // How long the file is.
    pub(crate) fn measure(&mut self, note: &B) -> io::Result<usize>
        requires usable { IsTrue (D.Disk.is_usable (disk_behind self.old)) }
        ensures len { IfOk result (λ n. self.new.len ≡ Some n) }
        ensures same { SameButDisk self.old self.new }
        ensures fails { OnErr result (MoreFaults (D.Disk.faults (disk_behind self.old)) (D.Disk.faults (disk_behind self.new))) }
        ensures counts { OnOk result (D.Disk.faults (disk_behind self.new) ≡ D.Disk.faults (disk_behind self.old)) }
        ensures tally { D.Disk.tally_of (disk_behind self.new) ≡ D.Disk.tally_of (disk_behind self.old) }
        ensures looks { LooksOn D.Disk.seen D.Disk.may_leave D.Disk.is_clean D.Disk.faults note.now self.old self.new }
        ensures usable { IsTrue (D.Disk.is_usable (disk_behind self.new)) }
    {
        if let Some(len) = self.len {
            return Ok(len);
        }
        let len = self.disk.len(note)?;
        self.len = Some(len);
        Ok(len)
    }
}
