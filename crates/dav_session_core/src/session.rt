//! Who asks, and the stores behind it. All requests of one HTTP request are made by `ask`, so they
//! are a run of one caller's requests.
#![tactic(auto, using(crate::proofs::Looking::looks_follow))]

ghost use Rattle.std.specs.Prelude.{◌≡◌, ◌≤◌, ◌<◌, ◌⊎◌, ◌-◌, ◌^◌, ℕ, IfErr, true, false, None, [], ◌∷◌, IsOk, OnErr, OnOk};
ghost use Rattle.std.specs.Prelude.{option_map, string_bytes, map};
ghost use Rattle.rand_core.specs.Stream.{fill_bytes};
ghost use Rattle.dav_locks_core.specs.Exclusive.{Exclusive};
ghost use Rattle.dav_files_core.specs.Resources.{IsResourceMap};
ghost use Rattle.dav_guarded_core.specs.Step.{State, Step};
ghost use Rattle.dav_guarded_core.specs.Served.{command_of, answer_of};
ghost use Rattle.dav_guarded_core.specs.Stores.{state_of};
ghost use Rattle.dav_notes_core.specs.Ahead.{ahead};
ghost use Rattle.dav_notes_core.specs.Costs.{budget_of, in_eight_bytes, notes_cost};
ghost use Rattle.dav_notes_core.specs.Noting.{AreChanges, note_of};
ghost use Rattle.dav_notes_core.specs.Seen.{KeptNotes};
ghost use Rattle.dav_session_core.specs.Callers.{Asked, AskedNaming, Caller, RunBy, KeepsApart};
ghost use Rattle.dav_session_core.specs.Callers.{asking, changes_locks, is_look};
ghost use Rattle.dav_session_core.specs.Sessions.{Acts, HasRoomFor, HasRoomForNotes, IsAsBefore};
ghost use Rattle.dav_session_core.specs.Sessions.{Looks, bytes_left, caller};
ghost use Rattle.dav_session_core.specs.declared.session.rooms.RoomError.TheVariants as room_error;
ghost use Rattle.dav_session_core.specs.Sessions.{KeepsRoom, Requests, TakesRoom, noting, state};
ghost use Rattle.dav_session_core.specs.Sessions.{stores_behind};

mod clearing;
mod copying;
mod granting;
mod lookups;
mod moving;
mod patching;
mod places;
mod questions;
mod refreshing;
mod removing;
mod rooms;
mod standings;
mod subtrees;
mod tokens_above;
mod unlocking;

pub use copying::Transfer;
use dav_guarded_core::fs::Moment;
use dav_guarded_core::guarded::{Command, Guarded, Refusal, Reply};
use dav_notes_core::error::NoteError;
use dav_notes_core::noted::NotedStores;
use dav_notes_core::notes::Note;
use dav_notes_core::senders::Sender;
pub use lookups::{any_has, has_token};
pub use questions::{copy_of, refused};
use rand_core::Rng;
pub use rooms::RoomError;
use std::alloc::Global;
pub use subtrees::{last_place_is_bare, walk_without_its_last};

/// The stores and who asks, and a generator for the tokens of locks. Requests reach the stores by
/// `ask`, `look`, `change` and `ask_naming` alone; where notes are kept, each that changed something
/// leaves one.
#[derive(Drop)]
pub struct Session<R> {
    stores: NotedStores,
    rng: R,
}

impl<R: Rng + Drop> Session<R> {
    /// A session over stores, of nobody, at the moment (own). Notes of what changes are kept from
    /// now on, or never. The bytes of the first token are drawn ahead.
    pub fn new(alloc: Global, stores: Guarded, rng: R, now: Moment, keeps: bool) -> Session<R>
        ensures state { state R.stream result
            ≡ state_of stores (ahead (fill_bytes 16 (R.stream rng))) }
        ensures caller { caller result ≡ record { principal = None; tokens = []; now = now.0 } }
        ensures noting { noting result ≡ record {
          keeps = keeps;
          base = (stores, now.0) ∷ [];
          given = 2 ^ 64 - 2;
        } }
    {
        let mut rng = rng;
        let nobody = Sender {
            principal: None,
            tokens: Vec::new(alloc),
            now,
        };
        let stores = NotedStores::new(alloc, stores, nobody, keeps, &mut rng);
        Session { stores, rng }
    }
}

impl<R: Rng> Session<R> {
    /// Makes one request of the caller (own). It is answered as by `Guarded::apply`, but for
    /// `OutOfMemory` of a change that lacks room for its note: then nothing is done.
    pub fn ask(&mut self, command: Command) -> Result<Reply, Refusal>
        ensures asked { Asked (state R.stream self.old) (caller self.old) (command_of command)
            (answer_of result) (state R.stream self.new) }
        // With room for its note it is made.
        ensures step { HasRoomFor (command_of command) self.old → Step (state R.stream self.old)
            (asking (caller self.old) (command_of command)) (answer_of result)
            (state R.stream self.new) }
        ensures room { TakesRoom (command_of command) self.old self.new }
        ensures acts { changes_locks (command_of command) ≡ false
            → Acts R.stream self.old self.new }
        // A question changes nothing, and neither does a refusal.
        ensures looks { is_look (command_of command) ≡ true → Looks R.stream self.old self.new }
        ensures refused { OnErr result (Looks R.stream self.old self.new) }
        ensures requests { Requests R.stream self.old self.new }
        ensures shape { HasRoomFor (command_of command) self.old
            → IsResourceMap (state R.stream self.new).map }
    {
        self.ask_stores(command)
    }

    /// Asks one question of the caller, which changes nothing (own). It is answered as by
    /// `Guarded::apply`.
    pub fn look(&mut self, command: Command) -> Result<Reply, Refusal>
        requires { is_look (command_of command) ≡ true }
        ensures step { Step (state R.stream self.old)
            (asking (caller self.old) (command_of command)) (answer_of result)
            (state R.stream self.new) }
        ensures looks { Looks R.stream self.old self.new }
        ensures room { KeepsRoom self.old self.new }
        ensures shape { IsResourceMap (state R.stream self.new).map }
    {
        self.stores.look(command)
    }

    // Makes one request. All that it leaves follows of what is said here.
    #[inline(always)]
    fn ask_stores(&mut self, command: Command) -> Result<Reply, Refusal>
        ensures asked { Asked (state R.stream self.old) (caller self.old) (command_of command)
            (answer_of result) (state R.stream self.new) }
        ensures step { HasRoomFor (command_of command) self.old → Step (state R.stream self.old)
            (asking (caller self.old) (command_of command)) (answer_of result)
            (state R.stream self.new) }
        ensures caller { caller self.new ≡ caller self.old }
        ensures noting { noting self.new ≡ noting self.old }
        ensures room { TakesRoom (command_of command) self.old self.new }
        ensures spared { is_look (command_of command) ≡ true → KeepsRoom self.old self.new }
        ensures shape { (is_look (command_of command) ≡ true) ⊎ HasRoomFor (command_of command) self.old
            → IsResourceMap (state R.stream self.new).map }
    {
        self.stores.ask(command, &mut self.rng)?
    }

    /// Makes one request of the caller that grants, ends and refreshes no lock (own). It is answered
    /// as by `ask`.
    pub fn change(&mut self, command: Command) -> Result<Reply, Refusal>
        requires keeps { changes_locks (command_of command) ≡ false }
        ensures asked { Asked (state R.stream self.old) (caller self.old) (command_of command)
            (answer_of result) (state R.stream self.new) }
        ensures step { HasRoomFor (command_of command) self.old → Step (state R.stream self.old)
            (asking (caller self.old) (command_of command)) (answer_of result)
            (state R.stream self.new) }
        ensures room { TakesRoom (command_of command) self.old self.new }
        ensures acts { Acts R.stream self.old self.new }
        ensures refused { OnErr result (Looks R.stream self.old self.new) }
        ensures shape { HasRoomFor (command_of command) self.old
            → IsResourceMap (state R.stream self.new).map }
    {
        self.ask(command)
    }

    /// Makes one request of the caller, who submits one token more for this request alone (own). It
    /// is answered as by `ask`; `OutOfMemory`, and nothing is done, also where there is no memory for
    /// the token. The room that was made stays.
    pub fn ask_naming(&mut self, token: String, command: Command) -> Result<Reply, Refusal>
        ensures asked { AskedNaming (state R.stream self.old) (caller self.old) (string_bytes token)
            (command_of command) (answer_of result) (state R.stream self.new) }
        ensures room { KeepsRoom self.old self.new }
        ensures caller { caller self.new ≡ caller self.old }
        ensures noting { noting self.new ≡ noting self.old }
    {
        self.stores.ask_naming(token, command, &mut self.rng)?
    }

    /// Makes room for the notes of so many changes of the caller's, which cost so many bytes together,
    /// where notes are kept, so that none of them lacks room for its note (own). Where the bytes are
    /// too many for a number, they are given as `u64::MAX`.
    ///
    /// - `OutOfMemory`: there is no memory for them.
    /// - `NoRoom`: not so many bytes are left.
    pub fn make_room(&mut self, count: usize, bytes: u64) -> Result<(), RoomError>
        ensures ok { OnOk result ((n : ℕ) → bytes ≡ in_eight_bytes n
            → HasRoomForNotes count n self.new) }
        ensures no_room { IfErr result (λ e. e ≡ room_error.NoRoom
            → bytes_left self.old < bytes) }
        ensures same { IsAsBefore R.stream self.old self.new }
        ensures sure { (noting self.old).keeps ≡ false → IsOk result }
    {
        match self.stores.make_room(count, bytes) {
            Ok(()) => Ok(()),
            Err(NoteError::OutOfMemory) => Err(RoomError::OutOfMemory),
            Err(NoteError::NoRoom) => Err(RoomError::NoRoom),
        }
    }

    /// Names who asks from now on: the principal, the tokens that are submitted, and the moment
    /// (own). Where notes are kept, moments don't go back. The room that was made is gone then, and
    /// so many bytes fewer are left for notes, or none, until they are taken or begun anew.
    pub fn begin(
        &mut self,
        principal: Option<String>,
        tokens: Vec<String>,
        now: Moment,
        withheld: u64,
    )
        requires later { (noting self.old).keeps ≡ true → (caller self.old).now ≤ now.0 }
        ensures caller { caller self.new ≡ record {
          principal = option_map string_bytes principal;
          tokens = map string_bytes tokens.items;
          now = now.0;
        } }
        ensures state { state R.stream self.new ≡ state R.stream self.old }
        ensures noting { noting self.new ≡ noting self.old }
        ensures left { bytes_left self.new ≡ bytes_left self.old - withheld }
    {
        self.stores.begin(Sender {
            principal,
            tokens,
            now,
        });
        self.stores.withhold(withheld);
    }

    /// Begins the notes anew, which may have so many bytes in a record from now on, though less than
    /// `u64::MAX` (own). Those that weren't taken are dropped, and the room that was made is gone.
    pub fn set_room(&mut self, bytes: u64)
        ensures noting { noting self.new ≡ record {
          keeps = (noting self.old).keeps;
          base = (stores_behind self.new, (caller self.new).now) ∷ [];
          given = budget_of bytes;
        } }
        ensures left { bytes_left self.new ≡ budget_of bytes }
        ensures caller { caller self.new ≡ caller self.old }
        ensures state { state R.stream self.new ≡ state R.stream self.old }
    {
        self.stores.set_room(bytes);
    }

    /// The notes of what has changed since they were taken last, and none where none are kept (own).
    /// The room that was made is gone then, and the next notes may have as many bytes as these.
    pub fn take(&mut self) -> Vec<Note>
        ensures notes { KeptNotes (noting self.old).keeps (noting self.old).base
            (map note_of result.items) (caller self.new).now (stores_behind self.new) }
        // Each is of a command that changes something.
        ensures changes { AreChanges (map note_of result.items) }
        // They cost no more bytes than were given.
        ensures cost { notes_cost (map note_of result.items) ≤ (noting self.old).given }
        // The next notes begin here.
        ensures noting { noting self.new ≡ record {
          keeps = (noting self.old).keeps;
          base = (stores_behind self.new, (caller self.new).now) ∷ [];
          given = (noting self.old).given;
        } }
        ensures caller { caller self.new ≡ caller self.old }
        ensures state { state R.stream self.new ≡ state R.stream self.old }
    {
        self.stores.take()
    }

    /// The stores.
    pub fn stores(&self) -> &Guarded
        ensures { result.now ≡ stores_behind self.now }
    {
        self.stores.stores()
    }

    /// The principal of the caller.
    pub fn principal(&self) -> &Option<String>
        ensures { option_map string_bytes result.now ≡ (caller self.now).principal }
    {
        &self.stores.who().principal
    }

    /// The tokens that the caller submits.
    pub fn tokens(&self) -> &[String]
        ensures { map string_bytes result.now ≡ (caller self.now).tokens }
    {
        &self.stores.who().tokens
    }

    /// The moment of the caller.
    pub fn now(&self) -> Moment
        ensures { result.0 ≡ (caller self.now).now }
    {
        self.stores.who().now
    }
}

/// The law of a session (RFC 4918 sections 6 and 7): through every run of one caller's requests,
/// none of which grants, ends or refreshes a lock, two locks that cover one path are both shared; a
/// path under an exclusive lock that lasts changes only where the caller is its principal and named
/// its token; a path under any lock that lasts changes only where the caller so holds one that
/// covers it, or a path above it; and the locks that last, and that the caller does not hold so,
/// stand as they were.
pub fn runs_by_one_caller()
    ensures { (who : Caller) (s s' : State) → Exclusive s.locks → RunBy who s s'
        → KeepsApart who s s' }
{}
