//! A server that has the record of what its last call changed at hand.
ghost use Rattle.std.specs.Prelude.{◌≡◌, ◌≤◌, ℕ, List, []};
ghost use Rattle.dav_store_core.specs.StandingFor.{StandFor};
ghost use Rattle.dav_handler_core.specs.ServerViews.{server};
ghost use Rattle.dav_kept_core.specs.Private.StandLaws.{clocked_stands, listed_stands, turn_told};
ghost use Rattle.dav_kept_core.specs.KeptServers.{BeginsKept, ClockedKept, IsFresh, ListedKept, RepliesKept, StandsForServer, kept_server, record_room, stores_in};

use crate::last_notes::LastNotes;
use crate::rooms::Tree;
use bytes::Bytes;
use dav_effects_core::write;
use dav_handler_core::serving::{Clock, Timed};
use dav_notes_core::notes::Note;
use dav_store_core::add_record;
use http::Request;
use http_frames::gate::TurnService;
use http_server::{Response, Service};
use journal_core::{Header, Round};
use kept_frames::Recording;
use rand_core::Rng;
use std::alloc::{AllocError, Global};

/// A server with its clock, and the notes of what its last call changed (own).
#[derive(Drop)]
pub struct Recorded<R, C> {
    alloc: Global,
    timed: Timed<R, C>,
    last: LastNotes,
    turn: bool,
    header: Header,
    tree: Tree,
}

/// What a record has beside what its notes cost, and the round beside the record, at most (own).
const BESIDE: u64 = 24;

impl<R: Rng, C: Clock> Recorded<R, C> {
    /// This server, whose stores a journal with this header keeps (own). Records that stand for its
    /// stores stand for it, where it keeps notes and none was made. The tree is that of its stores.
    pub fn new(alloc: Global, timed: Timed<R, C>, header: Header, tree: Tree) -> Recorded<R, C>
        ensures { (records : List (List ℕ)) (last : ℕ)
            → StandFor header records (stores_in (server R.stream timed.dav)) last
            → last ≤ (server R.stream timed.dav).last → IsFresh (server R.stream timed.dav)
            → StandsForServer records (kept_server R.stream result) }
    {
        Recorded {
            alloc,
            timed,
            last: LastNotes::none(alloc),
            turn: false,
            header,
            tree,
        }
    }
}

impl<R: Rng, C: Clock> Recorded<R, C> {
    // Counts the tree again where what is known of it may be far too much. Where there is no memory for
    // that, it stays.
    fn count_again(&mut self)
        ensures { kept_server R.stream self.new ≡ kept_server R.stream self.old }
    {
        if !self.tree.is_stale() {
            return;
        }
        if let Ok(tree) = Tree::of(self.alloc, self.timed.dav.stores()) {
            self.tree = tree;
        }
    }
}

impl<R: Rng, C: Clock> Service for Recorded<R, C> {
    ghost answers = { λ old request response new. RepliesKept (kept_server R.stream old) request response (kept_server R.stream new) };

    fn call(
        &mut self,
        request: &Request<Bytes>,
        response: &mut Response,
    ) -> Result<(), AllocError> {
        self.timed.call(request, response)?;
        self.last = LastNotes::of(self.timed.dav.take_notes());
        self.tree.note(&self.last.notes, response.status);
        self.count_again();
        Ok(())
    }
}

impl<R: Rng, C: Clock> TurnService for Recorded<R, C> {
    ghost begins = { λ old number new. BeginsKept C.tells (kept_server R.stream old) number (kept_server R.stream new) };

    ghost clocked = { λ old moment new. ClockedKept (kept_server R.stream old) moment (kept_server R.stream new) };

    ghost listed = { λ old file new. ListedKept (kept_server R.stream old) file (kept_server R.stream new) };

    ghost room = { λ s. record_room (kept_server R.stream s) };

    ghost user = { λ _. [] };

    fn begin_turn(&mut self, number: u64, address: &[u8], bytes: u64) {
        self.last = LastNotes::none(self.alloc);
        self.turn = !self.turn;
        self.timed.dav.set_room(bytes.saturating_sub(BESIDE));
        self.timed.begin_turn(number, address, bytes);
    }

    /// A server knows nobody who was let in.
    fn user(&self) -> &[u8] {
        &[]
    }

    fn own_len(&self, request: &Request<Bytes>, response: &Response) -> u64 {
        self.timed.own_len(request, response)
    }

    fn most_room(&self, bytes: u64) -> u64 {
        self.tree.most_room(bytes)
    }

    fn set_clock(&mut self, moment: u64) {
        self.timed.set_clock(moment);
    }

    /// A server knows no users.
    fn set_users(&mut self, _file: &[u8]) {}
}

impl<R: Rng, C: Clock> Recording for Recorded<R, C> {
    ghost stands = { λ records s. StandsForServer records (kept_server R.stream s) };

    ghost turn = { λ s. (kept_server R.stream s).turn };

    fn turn(&self) -> bool {
        self.turn
    }

    fn record(&self, round: &mut Round) -> Result<(), AllocError> {
        let notes: &[Note] = &self.last.notes;
        if notes.is_empty() {
            return Ok(());
        }
        let pieces = write(self.alloc, notes)?;
        add_record(round, pieces)
    }

    ghost turns = { turn_told (kept_server R.stream) C.tells };

    ghost clocks = { λ records old moment new. clocked_stands records (kept_server R.stream old) (kept_server R.stream new) moment };

    ghost lists = { λ records old file new. listed_stands records (kept_server R.stream old) (kept_server R.stream new) file };
}
