//! How the stores of a journal are read from any source, which needs no lock and writes nothing.
ghost use Rattle.std.specs.Prelude.{◌≡◌, ◌+◌, ◌^◌, ◌≤◌, ℕ, List, [], Ok, Err, true, false};
ghost use Rattle.std.specs.Prelude.{IfErr, IfOk, length};
ghost use Rattle.journal_core.specs.declared.header.Header.{Header};
ghost use Rattle.journal_core.specs.JournalReading.{HasEnded, IsReading, header_of};
ghost use Rattle.dav_store_core.specs.Loading.{HasLoadCause, IsDamage, IsPlayed};
ghost use Rattle.dav_store_core.specs.Loading.{LacksSnapshot, StandsForNone, StopsThere};

use crate::error::StoreError;
use crate::opened::{Opened, Setback, new_stores, take_record, take_snapshot};
use dav_guarded_core::fs::Moment;
use journal_core::{JournalError, Reader, Source};
use std::alloc::Global;

impl Opened {
    /// The stores that the records of a journal go on from, and how many of its records were read
    /// for that (own): a root folder alone at the moment that the header names, and none; of a
    /// compacted store, whose generation is above 0, those of its first record, which is a snapshot.
    ///
    /// - `Damaged`: a compacted store has no snapshot in front.
    /// - `Journal`: the snapshot is not read, as `Reader::next` says; or there is no memory.
    pub fn begin<N, S: Source<N>>(
        alloc: Global,
        source: &mut S,
        reader: &mut Reader,
        note: &N,
    ) -> Result<(Opened, u64), StoreError>
        requires usable { S.is_usable source.old }
        ensures begins { IfOk result (λ x. (file : List ℕ)
            → IsReading S.is_at S.is_honest source.old reader.old file []
            → IsPlayed (IsReading S.is_at S.is_honest source.new reader.new file)
            (header_of reader.old) x.1 x.0.stores x.0.last.0) }
        // A file that stands for stores is never refused for what it holds.
        ensures damaged { IfErr result (λ e. IsDamage e → (file : List ℕ)
            → IsReading S.is_at S.is_honest source.old reader.old file []
            → S.is_honest source.new → StandsForNone (header_of reader.old) file) }
        ensures cause { IfErr result (λ e. (file : List ℕ)
            → IsReading S.is_at S.is_honest source.old reader.old file []
            → HasLoadCause (S.fails source.old source.new) (LacksSnapshot
            (IsReading S.is_at S.is_honest source.new reader.new file)
            (S.is_honest source.new → HasEnded reader.new file []) (header_of reader.old)) e) }
        ensures large { result ≡ Err (StoreError.Journal JournalError.TooLarge)
            → (file : List ℕ) → IsReading S.is_at S.is_honest source.old reader.old file []
            → S.is_honest source.new → 2 ^ 64 ≤ length file }
        ensures begun { header_of reader.new ≡ header_of reader.old }
        ensures honest { S.is_honest source.new → S.is_honest source.old }
        ensures looks { S.looks note.now source.old source.new }
        ensures usable { S.is_usable source.new }
    {
        let header = reader.header();
        if header.generation == 0 {
            let opened = new_stores(alloc, Moment(header.began))?;
            return Ok((opened, 0));
        }
        if !reader.next(source, note)? {
            return Err(StoreError::Damaged(0));
        }
        match take_snapshot(alloc, reader.record()) {
            Ok(opened) => Ok((opened, 1)),
            Err(Setback::Memory) => Err(StoreError::Journal(JournalError::OutOfMemory)),
            Err(Setback::Damage) => Err(StoreError::Damaged(0)),
        }
    }

    /// Reads the next record from a source, and plays it behind those before, of which there were so
    /// many (own). False at the end of the journal. After an error the stores are of no use: a part of
    /// the record may have been played.
    ///
    /// - `Damaged`: the record with that number, counted from 0, is none; or a note of it is of a
    ///   moment before the last one, or cannot be done, with any memory.
    /// - `Journal`: the record is not read, as `Reader::next` says; or there is no memory.
    pub fn read_next<N, S: Source<N>>(
        &mut self,
        alloc: Global,
        source: &mut S,
        reader: &mut Reader,
        note: &N,
        number: u64,
    ) -> Result<bool, StoreError>
        requires usable { S.is_usable source.old }
        ensures on { result ≡ Ok true → (file : List ℕ) (h : Header)
            → IsPlayed (IsReading S.is_at S.is_honest source.old reader.old file) h number
            self.old.stores self.old.last.0
            → IsPlayed (IsReading S.is_at S.is_honest source.new reader.new file) h
            (number + 1) self.new.stores self.new.last.0 }
        // At the end the stores are those that the file stands for, unless a read lied.
        ensures ends { result ≡ Ok false → (file : List ℕ) (h : Header)
            → IsPlayed (IsReading S.is_at S.is_honest source.old reader.old file) h number
            self.old.stores self.old.last.0
            → S.is_honest source.new
            → IsPlayed (HasEnded reader.new file) h number self.new.stores
            self.new.last.0 }
        // A file that stands for stores is never refused for what it holds.
        ensures damaged { IfErr result (λ e. IsDamage e → (file : List ℕ) (h : Header)
            → IsPlayed (IsReading S.is_at S.is_honest source.old reader.old file) h number
            self.old.stores self.old.last.0
            → S.is_honest source.new → StandsForNone h file) }
        ensures cause { IfErr result (λ e. (file : List ℕ) (h : Header)
            → IsPlayed (IsReading S.is_at S.is_honest source.old reader.old file) h number
            self.old.stores self.old.last.0
            → HasLoadCause (S.fails source.old source.new) (StopsThere
            (IsReading S.is_at S.is_honest source.new reader.new file) h) e) }
        ensures large { result ≡ Err (StoreError.Journal JournalError.TooLarge)
            → (file : List ℕ) (h : Header)
            → IsPlayed (IsReading S.is_at S.is_honest source.old reader.old file) h number
            self.old.stores self.old.last.0
            → S.is_honest source.new → 2 ^ 64 ≤ length file }
        ensures begun { header_of reader.new ≡ header_of reader.old }
        ensures honest { S.is_honest source.new → S.is_honest source.old }
        ensures looks { S.looks note.now source.old source.new }
        ensures usable { S.is_usable source.new }
    {
        if !reader.next(source, note)? {
            return Ok(false);
        }
        match take_record(alloc, self, reader.record()) {
            Ok(()) => Ok(true),
            Err(Setback::Memory) => Err(StoreError::Journal(JournalError::OutOfMemory)),
            Err(Setback::Damage) => Err(StoreError::Damaged(number)),
        }
    }
}
