//! Stores whose changes are noted, where notes are kept.
ghost use Rattle.std.specs.Prelude.{◌≡◌, ◌≤◌, ◌<◌, ◌+◌, ◌-◌, ◌^◌, ◌⊎◌, ◌++◌, ◌&&◌, [], ◌∷◌, ℕ, true, false, not};
ghost use Rattle.std.specs.Prelude.{length, map, vec_len, vec_capacity, string_bytes, IfOk, IsOk, OnOk};
ghost use Rattle.std.specs.Prelude.{IfErr, OnErr, is_ok, ◌||◌, nat_le};
ghost use Rattle.rand_core.specs.Stream.{fill_bytes};
ghost use Rattle.dav_files_core.specs.Resources.{IsResourceMap};
ghost use Rattle.dav_guarded_core.specs.Served.{command_of, answer_of};
ghost use Rattle.dav_notes_core.specs.Ahead.{drawn_on, was_granted};
ghost use Rattle.dav_notes_core.specs.Asking.{also_naming, asking, sender_of};
ghost use Rattle.dav_notes_core.specs.Changes.{is_look};
ghost use Rattle.dav_notes_core.specs.Costs.{in_eight_bytes, cost_for, budget_of, notes_cost};
ghost use Rattle.dav_notes_core.specs.declared.error.NoteError.TheVariants.{NoRoom};
ghost use Rattle.dav_notes_core.specs.Noting.{AreChanges, drawn_for, note_for, note_of};
ghost use Rattle.dav_notes_core.specs.Seen.{AreCopies, KeptNotes, HasNoteRoom, spent_on};
ghost use Rattle.dav_notes_core.specs.Stepping.{AnsweredBy, SameLiveStores};

use crate::budget::Budget;
use crate::costs::cost_for;
use crate::drawn::Drawn;
use crate::error::NoteError;
use crate::notes::{Note, apply_given, is_grant, is_look};
use crate::senders::{Sender, add_token, drop_token, request_by, swap_asker, unasked};
use dav_guarded_core::guarded::{Command, Guarded, Refusal, Reply};
use http_server::Log;
use rand_core::Rng;
use std::alloc::{AllocError, Global};
use std::marker::Model;
use std::mem;

/// Stores, the bytes of the next token, who asks, and, where notes are kept, those of what changed
/// the stores since the last taking.
#[derive(Drop)]
pub struct NotedStores {
    alloc: Global,
    stores: Guarded,
    next: [u8; 16],
    who: Sender,
    keeps: bool,
    // The caller once more for each note that there is room for.
    spares: Vec<Sender>,
    notes: Vec<Note>,
    // How many bytes the notes may have in a record.
    budget: Budget,
    // The stores and the moment at the last taking, for proofs alone.
    base: Log<Guarded, u64>,
}

impl Model for NotedStores {
    ghost use Rattle.std.specs.Prelude.{length, vec_len, vec_capacity};
    ghost use Rattle.dav_notes_core.specs.Asking.{sender_of};
    ghost use Rattle.dav_notes_core.specs.Seen.{Seen, StaysWithin, coded_seen, NotesHold};

    ghost Value = { Seen };

    ghost coded = { coded_seen };

    ghost view = { λ s. record {
      stores = s.stores;
      next = s.next;
      who = sender_of s.who;
      keeps = s.keeps;
      room = length s.spares.items;
      held = s.budget.held;
      given = s.budget.given;
      left = s.budget.left;
      base = s.base.items;
    } };

    ghost invariant = { λ s. NotesHold s.keeps s.base.items s.notes.items (vec_len s.notes)
        (vec_capacity s.notes) s.who s.spares.items s.stores
        × StaysWithin s.notes.items s.budget.held s.budget.left s.budget.given };
}

impl NotedStores {
    /// Stores without notes, of which notes are kept from now on or never. The bytes of the first
    /// token are drawn (own). Until `set_room` the notes may have as many bytes as they need.
    pub fn new<R: Rng>(
        alloc: Global,
        stores: Guarded,
        who: Sender,
        keeps: bool,
        rng: &mut R,
    ) -> NotedStores
        ensures stores { result.stores ≡ stores }
        ensures drawn { (result.next, R.stream rng.new) ≡ fill_bytes 16 (R.stream rng.old) }
        ensures who { result.who ≡ sender_of who }
        ensures keeps { result.keeps ≡ keeps }
        ensures base { result.base ≡ (stores, (sender_of who).now) ∷ [] }
        ensures given { result.given ≡ 2 ^ 64 - 2 }
        ensures left { result.left ≡ 2 ^ 64 - 2 }
    {
        let now = who.now.0;
        let base = Log::new().and(&stores, &now);
        let mut next = [0; 16];
        draw_next(&mut next, rng, true);
        NotedStores {
            alloc,
            stores,
            next,
            who,
            keeps,
            spares: Vec::new(alloc),
            notes: Vec::new(alloc),
            budget: Budget::of(u64::MAX),
            base,
        }
    }

    /// Begins the notes anew, which may have so many bytes in a record from now on, though less than
    /// `u64::MAX` (own). Those that weren't taken are dropped, and the room that was made is gone.
    pub fn set_room(&mut self, bytes: u64)
        ensures base { self.new.base ≡ (self.new.stores, self.new.who.now) ∷ [] }
        ensures same { self.new ≡ record self.old {
          room = self.new.room;
          held = self.new.held;
          given = budget_of bytes;
          left = budget_of bytes;
          base = self.new.base;
        } }
    {
        let base = Log::new().and(&self.stores, &self.who.now.0);
        self.notes = Vec::new(self.alloc);
        self.spares = Vec::new(self.alloc);
        self.budget = Budget::of(bytes);
        self.base = base;
    }

    /// So many bytes fewer are left for notes, or none, until the notes are taken or begun anew (own).
    pub fn withhold(&mut self, bytes: u64)
        ensures { self.new ≡ record self.old {
          held = self.new.held;
          left = self.old.left - bytes;
        } }
    {
        self.budget.withhold(bytes);
    }

    /// Names who asks from now on (own): where notes are kept, at a moment that is not before the
    /// last caller's. The room that was made is gone then.
    pub fn begin(&mut self, who: Sender)
        requires later { self.old.keeps ≡ true → self.old.who.now ≤ (sender_of who).now }
        ensures same { self.new ≡ record self.old {
          who = sender_of who;
          room = self.new.room;
          held = self.new.held;
        } }
    {
        self.spares = Vec::new(self.alloc);
        self.budget.release();
        self.who = who;
    }

    /// Makes room for so many notes of the caller's, which cost so many bytes together, where notes
    /// are kept, so that as many changes lack no room for theirs (own). Where the bytes are too many
    /// for a number, they are given as `u64::MAX`.
    ///
    /// - `OutOfMemory`: there is no memory for them.
    /// - `NoRoom`: not so many bytes are left.
    pub fn make_room(&mut self, count: usize, bytes: u64) -> Result<(), NoteError>
        ensures ok { OnOk result ((n : ℕ) → bytes ≡ in_eight_bytes n → HasNoteRoom count n self.new) }
        ensures same { self.new ≡ record self.old {
          room = self.new.room;
          held = self.new.held;
        } }
        ensures sure { self.old.keeps ≡ false → IsOk result }
        ensures no_room { IfErr result (λ e. e ≡ NoRoom → self.old.left < bytes) }
    {
        if !self.keeps {
            return Ok(());
        }
        if bytes > self.budget.left {
            return Err(NoteError::NoRoom);
        }
        self.notes.reserve(count)?;
        add_spares(&self.who, &mut self.spares, count)?;
        self.budget.hold(bytes);
        Ok(())
    }

    /// Makes one request of the caller (own). It is answered as by `Guarded::apply`, and where it is
    /// done and may have changed something, it is noted, if notes are kept. Room for the note is
    /// taken first; where there is none, nothing is done.
    ///
    /// - `OutOfMemory`: there is no memory for the note.
    /// - `NoRoom`: it costs more bytes than are left.
    #[inline]
    pub fn ask<R: Rng>(
        &mut self,
        command: Command,
        rng: &mut R,
    ) -> Result<Result<Reply, Refusal>, NoteError>
        ensures step { IfOk result (λ answer.
            AnsweredBy (drawn_for (command_of command) self.old.next) self.old.stores
            (asking self.old.who (command_of command)) (answer_of answer) self.new.stores) }
        // A granted lock uses the bytes that were drawn, and the next are drawn.
        ensures drawn { IfOk result (λ answer. (self.new.next, R.stream rng.new)
            ≡ drawn_on (was_granted (command_of command) (answer_of answer))
            (self.old.next, R.stream rng.old)) }
        // Where there is no room for the note, nothing is done.
        ensures untried { OnErr result (self.new ≡ self.old) }
        ensures undrawn { OnErr result (R.stream rng.new ≡ R.stream rng.old) }
        // There is room where it was made, for who keeps no notes, and for what changes nothing.
        ensures sure { HasNoteRoom 1 (cost_for self.old.who (command_of command)) self.old
            → IsOk result }
        ensures no_room { IfErr result (λ e. e ≡ NoRoom
            → self.old.left < cost_for self.old.who (command_of command)) }
        ensures looks { is_look (command_of command) ≡ true → IsOk result
            × SameLiveStores self.old.who.now self.old.stores self.new.stores }
        // A change takes the room of one note, and a look none.
        ensures room { (count bytes : ℕ)
            → HasNoteRoom (count + 1) (bytes + cost_for self.old.who (command_of command)) self.old
            → HasNoteRoom count bytes self.new }
        ensures spared { is_look (command_of command) ≡ true
            → (self.new.room ≡ self.old.room) × (self.new.held ≡ self.old.held) }
        // What is noted takes away what it costs.
        ensures spent { IfOk result (λ answer. self.new.left + spent_on self.old.keeps self.old.who
            (command_of command) (answer_of answer) ≡ self.old.left) }
        ensures given { self.new.given ≡ self.old.given }
        ensures base { self.new.base ≡ self.old.base }
        ensures who { self.new.who ≡ self.old.who }
        ensures keeps { self.new.keeps ≡ self.old.keeps }
        ensures shape { OnOk result (IsResourceMap self.new.stores.map) }
    {
        let grants = is_grant(&command);
        if !is_noted(self.keeps, &command) {
            let mut request = unasked(command, self.alloc);
            let mut drawn = Drawn { bytes: self.next };
            swap_asker(&mut self.who, &mut request);
            let alone = self.stores.apply(&request, &mut drawn);
            swap_asker(&mut self.who, &mut request);
            draw_next(&mut self.next, rng, is_granted(grants, &alone));
            return Ok(alone);
        }
        let cost = cost_for(&self.who, &command);
        let left = self.budget.left;
        let spare = match spare_of(&self.who, &mut self.spares, &mut self.notes, cost, left) {
            Ok(spare) => spare,
            Err(error) => {
                drop(command);
                return Err(error);
            }
        };
        let asker = mem::replace(&mut self.who, spare);
        let answer = change(&mut self.stores, &mut self.notes, self.next, asker, command);
        let made = answer.is_ok();
        self.budget.spend(cost, made);
        draw_next(&mut self.next, rng, is_granted(grants, &answer));
        Ok(answer)
    }

    /// Asks one question of the caller, which changes nothing (own). It is answered as by
    /// `Guarded::apply`.
    #[inline]
    pub fn look(&mut self, command: Command) -> Result<Reply, Refusal>
        requires { is_look (command_of command) ≡ true }
        ensures step { AnsweredBy (drawn_for (command_of command) self.old.next) self.old.stores
            (asking self.old.who (command_of command)) (answer_of result) self.new.stores }
        ensures looks { SameLiveStores self.old.who.now self.old.stores self.new.stores }
        ensures same { self.new ≡ record self.old { stores = self.new.stores } }
        ensures shape { IsResourceMap self.new.stores.map }
    {
        let mut request = unasked(command, self.alloc);
        let mut drawn = Drawn { bytes: self.next };
        swap_asker(&mut self.who, &mut request);
        let answer = self.stores.apply(&request, &mut drawn);
        swap_asker(&mut self.who, &mut request);
        answer
    }

    /// Makes one request of the caller, who submits one token more for this request alone (own). It
    /// is answered and noted as by `ask`, but for the room: room for this note is taken beside that
    /// which was made. Where there is none, or no memory for the token, nothing is done.
    ///
    /// - `OutOfMemory`: there is no memory for the note or the token.
    /// - `NoRoom`: the note costs more bytes than are left beside those that were set aside.
    pub fn ask_naming<R: Rng>(
        &mut self,
        token: String,
        command: Command,
        rng: &mut R,
    ) -> Result<Result<Reply, Refusal>, NoteError>
        ensures step { IfOk result (λ answer.
            AnsweredBy (drawn_for (command_of command) self.old.next) self.old.stores
            (asking (also_naming self.old.who (string_bytes token)) (command_of command))
            (answer_of answer) self.new.stores) }
        ensures drawn { IfOk result (λ answer. (self.new.next, R.stream rng.new)
            ≡ drawn_on (was_granted (command_of command) (answer_of answer))
            (self.old.next, R.stream rng.old)) }
        ensures untried { OnErr result (self.new ≡ self.old) }
        ensures undrawn { OnErr result (R.stream rng.new ≡ R.stream rng.old) }
        ensures room { self.new.room ≡ self.old.room }
        ensures held { self.new.held ≡ self.old.held }
        ensures no_room { IfErr result (λ e. e ≡ NoRoom → self.old.left < self.old.held
            + cost_for (also_naming self.old.who (string_bytes token)) (command_of command)) }
        ensures spent { IfOk result (λ answer. self.new.left + spent_on self.old.keeps
            (also_naming self.old.who (string_bytes token)) (command_of command)
            (answer_of answer) ≡ self.old.left) }
        ensures given { self.new.given ≡ self.old.given }
        ensures base { self.new.base ≡ self.old.base }
        ensures who { self.new.who ≡ self.old.who }
        ensures keeps { self.new.keeps ≡ self.old.keeps }
    {
        let grants = is_grant(&command);
        if !is_noted(self.keeps, &command) {
            match answer_naming(
                &mut self.stores,
                self.next,
                &mut self.who,
                token,
                command,
                self.alloc,
            ) {
                Ok(alone) => {
                    draw_next(&mut self.next, rng, is_granted(grants, &alone));
                    return Ok(alone);
                }
                Err(error) => return Err(NoteError::from(error)),
            }
        }
        let beside = self.budget.left - self.budget.held;
        let named = naming(
            &self.who,
            token,
            &self.spares,
            &mut self.notes,
            &command,
            beside,
        );
        let (asker, cost) = match named {
            Ok(named) => named,
            Err(error) => {
                drop(command);
                return Err(error);
            }
        };
        let answer = change(&mut self.stores, &mut self.notes, self.next, asker, command);
        let made = answer.is_ok();
        self.budget.spend_beside(cost, made);
        draw_next(&mut self.next, rng, is_granted(grants, &answer));
        Ok(answer)
    }

    /// What changed the stores since the last taking, and nothing where no notes are kept (own).
    /// The room that was made is gone then, and the next notes may have as many bytes as these.
    pub fn take(&mut self) -> Vec<Note>
        ensures notes { KeptNotes self.old.keeps self.old.base (map note_of result.items)
            self.new.who.now self.new.stores }
        // Each is of a command that changes something.
        ensures changes { AreChanges (map note_of result.items) }
        // They cost no more bytes than were given.
        ensures cost { notes_cost (map note_of result.items) ≤ self.old.given }
        // The next notes begin here.
        ensures base { self.new.base ≡ (self.new.stores, self.new.who.now) ∷ [] }
        ensures same { self.new ≡ record self.old {
          room = self.new.room;
          held = self.new.held;
          left = self.old.given;
          base = self.new.base;
        } }
    {
        let base = Log::new().and(&self.stores, &self.who.now.0);
        let notes = mem::replace(&mut self.notes, Vec::new(self.alloc));
        self.spares = Vec::new(self.alloc);
        self.budget.renew();
        self.base = base;
        notes
    }

    /// Whether notes that cost so many bytes together may still be made (own); of any who keeps none.
    /// Where the bytes are too many for a number, they are given as `u64::MAX`.
    pub fn has_left(&self, bytes: u64) -> bool
        ensures { (n : ℕ) → bytes ≡ in_eight_bytes n
            → result ≡ (not self.now.keeps || nat_le n self.now.left) }
    {
        !self.keeps || bytes <= self.budget.left
    }

    /// Whether notes are kept.
    pub fn keeps(&self) -> bool
        ensures { result ≡ self.now.keeps }
    {
        self.keeps
    }

    /// The stores.
    pub fn stores(&self) -> &Guarded
        ensures { result.now ≡ self.now.stores }
    {
        &self.stores
    }

    /// Who asks.
    pub fn who(&self) -> &Sender
        ensures { sender_of result.now ≡ self.now.who }
    {
        &self.who
    }
}

// Whether the command is noted where it is done.
#[inline]
fn is_noted(keeps: bool, command: &Command) -> bool
    ensures { result ≡ (keeps && not (is_look (command_of command.now))) }
{
    keeps && !is_look(command)
}

// A request that is not noted, of the caller with one token more; where there is no memory for that,
// nothing is done.
fn answer_naming(
    stores: &mut Guarded,
    next: [u8; 16],
    who: &mut Sender,
    token: String,
    command: Command,
    alloc: Global,
) -> Result<Result<Reply, Refusal>, AllocError>
    ensures step { IfOk result (λ answer. AnsweredBy (drawn_for (command_of command) next)
        stores.old (asking (also_naming (sender_of who.old) (string_bytes token))
        (command_of command)) (answer_of answer) stores.new) }
    ensures untried { OnErr result (stores.new ≡ stores.old) }
    ensures who { sender_of who.new ≡ sender_of who.old }
{
    match add_token(who, token) {
        Ok(()) => {
            let mut request = unasked(command, alloc);
            swap_asker(who, &mut request);
            let answer = apply_given(stores, &request, next);
            swap_asker(who, &mut request);
            drop_token(who);
            return Ok(answer);
        }
        Err(error) => {
            drop(command);
            return Err(error);
        }
    }
}

// A request that may change something, with room for its note.
fn change(
    stores: &mut Guarded,
    notes: &mut Vec<Note>,
    next: [u8; 16],
    asker: Sender,
    command: Command,
) -> Result<Reply, Refusal>
    requires room { vec_len notes.old < vec_capacity notes.old }
    ensures step { AnsweredBy (drawn_for (command_of command) next) stores.old
        (asking (sender_of asker) (command_of command)) (answer_of result) stores.new }
    ensures ok { OnOk result (map note_of notes.new.items ≡ map note_of notes.old.items
        ++ note_for (sender_of asker) (command_of command) next ∷ []) }
    ensures err { OnErr result (notes.new.items ≡ notes.old.items) }
    ensures used { vec_len notes.new ≤ vec_len notes.old + 1 }
    ensures capacity { vec_capacity notes.new ≡ vec_capacity notes.old }
    ensures shape { IsResourceMap stores.new.map }
{
    let drawn = bytes_of(&command, next);
    let note = Note {
        request: request_by(asker, command),
        drawn,
    };
    match apply_given(stores, &note.request, next) {
        Ok(reply) => {
            notes.push_reserved(note);
            Ok(reply)
        }
        Err(refusal) => {
            drop(note);
            Err(refusal)
        }
    }
}

// The caller once more, and room for a note that costs so much, where so much is left.
fn spare_of(
    who: &Sender,
    spares: &mut Vec<Sender>,
    notes: &mut Vec<Note>,
    cost: u64,
    left: u64,
) -> Result<Sender, NoteError>
    requires copies { AreCopies who.now spares.old.items }
    requires room { length spares.old.items + vec_len notes.old ≤ vec_capacity notes.old }
    ensures ok { IfOk result (λ spare. sender_of spare ≡ sender_of who.entry.now) }
    ensures fits { OnOk result (cost ≤ left) }
    ensures sure { 0 < length spares.old.items → cost ≤ left → IsOk result }
    ensures no_room { IfErr result (λ e. e ≡ NoRoom → left < cost) }
    ensures copies { AreCopies who.entry.now spares.new.items }
    ensures room { OnOk result
        (length spares.new.items + vec_len notes.new < vec_capacity notes.new) }
    ensures kept { length spares.old.items ≤ length spares.new.items + 1 }
    ensures stay { OnErr result (length spares.new.items ≡ length spares.old.items) }
    ensures room_kept { OnErr result
        (length spares.new.items + vec_len notes.new ≤ vec_capacity notes.new) }
    ensures notes { notes.new.items ≡ notes.old.items }
{
    if cost > left {
        return Err(NoteError::NoRoom);
    }
    match spares.pop() {
        Some(spare) => Ok(spare),
        None => {
            notes.reserve(1)?;
            Ok(who.copy()?)
        }
    }
}

// The caller with one token more, what the note costs, and room for it beside the spare callers',
// where so much is left.
fn naming(
    who: &Sender,
    token: String,
    spares: &Vec<Sender>,
    notes: &mut Vec<Note>,
    command: &Command,
    left: u64,
) -> Result<(Sender, u64), NoteError>
    requires room { length spares.now.items + vec_len notes.old ≤ vec_capacity notes.old }
    ensures ok { IfOk result (λ named. sender_of named.0
        ≡ also_naming (sender_of who.entry.now) (string_bytes token)) }
    ensures cost { IfOk result (λ named. named.1
        ≡ in_eight_bytes (cost_for (sender_of named.0) (command_of command.entry.now))) }
    ensures fits { IfOk result (λ named. named.1 ≤ left) }
    ensures no_room { IfErr result (λ e. e ≡ NoRoom → left < cost_for
        (also_naming (sender_of who.entry.now) (string_bytes token)) (command_of command.entry.now)) }
    ensures room { OnOk result
        (length spares.entry.now.items + vec_len notes.new < vec_capacity notes.new) }
    ensures room_kept { OnErr result
        (length spares.entry.now.items + vec_len notes.new ≤ vec_capacity notes.new) }
    ensures notes { notes.new.items ≡ notes.old.items }
{
    let mut asker = who.copy()?;
    add_token(&mut asker, token)?;
    let cost = cost_for(&asker, command);
    if cost > left {
        return Err(NoteError::NoRoom);
    }
    notes.reserve(spares.len() + 1)?;
    Ok((asker, cost))
}

// Copies of the caller, up to so many.
fn add_spares(who: &Sender, spares: &mut Vec<Sender>, count: usize) -> Result<(), AllocError>
    requires { AreCopies who.now spares.old.items }
    ensures ok { OnOk result (count ≤ length spares.new.items) }
    ensures copies { AreCopies who.entry.now spares.new.items }
    ensures most { (length spares.new.items ≡ length spares.old.items)
        ⊎ (length spares.new.items ≤ count) }
{
    for _ in spares.len()..count {
        let spare = who.copy()?;
        spares.push(spare)?;
    }
    Ok(())
}

// Of a lock that is to be granted, the bytes that its token is drawn from.
fn bytes_of(command: &Command, next: [u8; 16]) -> Option<[u8; 16]>
    ensures { result ≡ drawn_for (command_of command.now) next }
{
    if is_grant(command) { Some(next) } else { None }
}

// Whether an answer to a command that grants has granted.
fn is_granted(grants: bool, answer: &Result<Reply, Refusal>) -> bool
    ensures { result ≡ (grants && is_ok (answer_of answer.now)) }
{
    grants && answer.is_ok()
}

// The bytes of the next token, anew where those were used.
#[inline]
fn draw_next<R: Rng>(next: &mut [u8; 16], rng: &mut R, used: bool)
    ensures { (next.new, R.stream rng.new) ≡ drawn_on used (next.old, R.stream rng.old) }
{
    if used {
        rng.fill_bytes(next);
    }
}
