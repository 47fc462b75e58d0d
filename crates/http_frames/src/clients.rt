//! The connections of many clients, one service behind them all. Bytes are taken, requests are answered one a turn, and answers are handed out, each by a call of its own.
ghost use Rattle.std.specs.Prelude.{◌≡◌, ◌≢◌, ◌<◌, ◌≤◌, ◌+◌, ◌↔◌, ◌⊎◌, [], ◌∷◌, None, true, false, Ok, IfOk, OnOk, OnErr, IfSome, IsNone, IsSome, IsTrue, IsFalse, codes, max};
ghost use Rattle.std.specs.Io.KnownBytes.{Appends};
ghost use Rattle.http_frames.specs.ConnectionEvents.{Asked, Closed, Ended, From, Gone, IsNumber, Nothing, Took};
ghost use Rattle.http_frames.specs.Clients.{Adds, GivesTurn, Has, IsStill, Joins, SameSettings, StaysSo, Takes, TellsNext, asked_of, count_begun, closed_window, config_of, held_at, queue_of, window_of};
ghost use Rattle.http_frames.specs.Frames.{BreaksOff, piece_text};
ghost use Rattle.http_frames.specs.Gate.{BeginsWithin};
ghost use Rattle.http_frames.specs.Logging.{LearnsUserOf, LogsTurnOf, address_at};
ghost use Rattle.http_frames.specs.Private.Steps.{LooksAlike, BeginsFresh, HearsAt, QuitsAt};

use crate::frames::{LONGEST_ADDRESS, write_more, write_piece};
use crate::gate::{AccessLog, OneCall, TurnService};
use crate::held::{Held, Said, hear, rests_with_room, room_for_requests, speak, step};
use crate::table::{forget, place};
use arrayvec::ArrayVec;
use http_server::{Config, Connection};
use line_streams::Fault;
use std::alloc::Global;
use std::collections::{HashMap, VecDeque};
use std::hash::RandomState;
use std::io::Write;

/// Once so many turns were given since the input was read, no connection has a second one before it is asked what else has come (own).
pub const TURNS: u64 = 16;

/// And none once so many bytes were handed out since then (own).
pub const TOLD: u64 = 64 * 1024;

/// Once turns have made so many bytes that nobody shares since the input was read, it is asked what else has come before the next one: clients may have taken some of them by then (own).
pub const MADE: u64 = 256 * 1024;

/// The clients of a server: their connections, numbered from 1 in the order in which they begin, and the queue of those that wait for a turn. A connection that is over, or whose client
/// is gone, is forgotten, but for its number.
#[derive(Drop)]
pub struct Clients {
    alloc: Global,
    keys: RandomState,
    config: Config,
    windows: Windows,
    begun: u64,
    // The address of the client of the next connection, and no bytes where none was told.
    next_address: ArrayVec<u8, LONGEST_ADDRESS>,
    connections: HashMap<u64, Held>,
    queue: VecDeque<u64>,
    // Whether `more` was written, and its answer is to come.
    asked: bool,
    // How often the input was read, and since then how many turns were given, bytes handed out, and bytes made that nobody shares.
    round: u64,
    turns: u64,
    told: u64,
    made: u64,
    // How many frames with bytes came.
    frames: u64,
    // No fewer bytes wait that nobody shares, of all connections together.
    waiting: u64,
    bounds: Bounds,
}

/// How much all connections together may hold, in bytes.
#[derive(Clone, Copy, PartialEq, Eq)]
pub struct Bounds {
    /// So much of answers that wait, beside what the service shares, and beside one answer.
    pub waiting: u64,
    /// So much of requests that have not come whole, beside a window for each connection; and of the room that is kept of long ones.
    pub unfinished: u64,
}

/// How far answers go ahead of what was taken, and input ahead of what was granted, in bytes, and whether the input ended; then answers go as far as they are long, and nothing is granted.
#[derive(Clone, Copy, PartialEq, Eq)]
pub struct Windows {
    /// So many bytes beyond what was taken.
    pub out: u64,
    /// So many bytes beyond what was granted.
    pub into: u64,
    /// Whether the input ended.
    pub closed: bool,
}

impl Clients {
    /// No client yet. Each connection will have the configuration, but for its `max_pending`, which is 0: no request is answered while an answer waits. Answers are
    /// handed out, and bytes taken in, as far as the windows go. The keys are for maps whose keys strangers choose.
    pub fn new(
        alloc: Global,
        keys: RandomState,
        mut config: Config,
        windows: Windows,
        bounds: Bounds,
    ) -> Clients
        ensures has { Has result [] }
        ensures begun { count_begun result ≡ 0 }
        ensures config { config_of result ≡ record config { max_pending = 0 } }
        ensures window { window_of result ≡ windows }
    {
        config.max_pending = 0;
        Clients {
            alloc,
            keys,
            config,
            windows,
            begun: 0,
            next_address: ArrayVec::new(),
            connections: HashMap::new(alloc),
            queue: VecDeque::new(alloc),
            asked: false,
            round: 1,
            turns: 0,
            told: 0,
            made: 0,
            frames: 0,
            waiting: 0,
            bounds,
        }
    }

    /// Takes bytes that a connection sent; none say that its client sends no more. Nothing is answered: the connection joins the queue. What comes behind its end, or for one that goes
    /// on no more, is dropped. Where the bytes are more than its client may send, or there is no memory for the connection or for what it sent, they are not taken, and the connection is
    /// ended: what waits of it is dropped, and a frame without bytes is written.
    ///
    /// False, and nothing is done, where the number is neither one of those that have begun nor the next. `Io` where the output fails (own).
    pub fn take<O: Write>(
        &mut self,
        number: u64,
        bytes: &[u8],
        output: &mut O,
    ) -> Result<bool, Fault>
        ensures order { IfOk result (λ taken. IsTrue taken ↔ ((0 < number) × (number ≤ count_begun self.old + 1))) }
        ensures takes { result ≡ Ok true → Takes number bytes.now self.old self.new (O.contents output.old) (O.contents output.new) }
        ensures refused { result ≡ Ok false → (self.new ≡ self.old) × (output.new ≡ output.old) }
        ensures fails { OnErr result (StaysSo self.old self.new ⊎ Adds self.old self.new (Gone number)) }
        ensures breaks { OnErr result (BreaksOff (O.contents output.old) (O.contents output.new)) }
        ensures queue { Joins number (queue_of self.old) (queue_of self.new) }
        ensures begun { result ≡ Ok true → count_begun self.new ≡ max (count_begun self.old) number }
        ensures config { config_of self.new ≡ config_of self.old }
        ensures window { window_of self.new ≡ window_of self.old }
    {
        let Some(before) = number.checked_sub(1) else {
            return Ok(false);
        };
        if before > self.begun {
            return Ok(false);
        }
        if before < self.begun {
            self.take_some(number, bytes, output)?;
            return Ok(true);
        }
        if self.add(number) {
            self.take_some(number, bytes, output)?;
            return Ok(true);
        }
        write_piece(number, &[], output)?;
        self.begun = number;
        Ok(true)
    }

    /// Takes word of the address of the client of the connection that begins next; where it comes again before that, the last one counts. False, and nothing is done, where the number is
    /// not that of the next connection. An address of more than `LONGEST_ADDRESS` bytes is not kept.
    pub fn name_next(&mut self, number: u64, address: &[u8]) -> bool
        ensures order { IsTrue result ↔ (number ≡ count_begun self.old + 1) }
        ensures takes { result ≡ true → Adds self.old self.new (From number address.now) }
        ensures refused { result ≡ false → self.new ≡ self.old }
        ensures queue { queue_of self.new ≡ queue_of self.old }
        ensures settings { SameSettings self.old self.new }
    {
        if number == 0 || number - 1 != self.begun {
            return false;
        }
        self.next_address.clear();
        let _kept = self.next_address.try_extend_from_slice(address);
        true
    }

    /// Takes word that the client of a connection has taken so many bytes more. False, and nothing is done, where the connection has not begun, or these are more than were handed out and
    /// not yet taken; where it goes on no more, nothing is done either.
    pub fn taken(&mut self, number: u64, count: u64) -> bool
        ensures order { IsTrue result ↔ (IsNumber (count_begun self.old) number × IfSome (held_at self.old number) (λ held. count ≤ held.ahead)) }
        ensures takes { result ≡ true → Adds self.old self.new (Took number count) }
        ensures refused { result ≡ false → self.new ≡ self.old }
        ensures queue { queue_of self.new ≡ queue_of self.old }
        ensures settings { SameSettings self.old self.new }
    {
        if !self.has_begun(number) || !self.may_take(number, count) {
            return false;
        }
        if let Some(held) = self.connections.get_mut(&number) {
            held.ahead = held.ahead.saturating_sub(count);
        }
        true
    }

    /// Takes word that the client of a connection is gone: what waits for it is dropped, and what it asked and was not answered is not done. False, and nothing is done, where the
    /// connection has not begun.
    pub fn gone(&mut self, number: u64) -> bool
        ensures order { IsTrue result ↔ IsNumber (count_begun self.old) number }
        ensures takes { result ≡ true → Adds self.old self.new (Gone number) }
        ensures refused { result ≡ false → self.new ≡ self.old }
        ensures queue { queue_of self.new ≡ queue_of self.old }
        ensures settings { SameSettings self.old self.new }
    {
        if !self.has_begun(number) {
            return false;
        }
        forget(&mut self.connections, number);
        true
    }

    /// Gives one turn, to the first of the queue, and tells whose it was; none where nobody waits for one. The service is told whose turn comes, and one call of it is made at most; where an
    /// answer waits, neither is. The answer waits until it is handed out.
    pub fn answer<S: TurnService, L: AccessLog>(
        &mut self,
        service: &mut OneCall<S, L>,
    ) -> Option<u64>
        ensures first { IfSome result (λ number. queue_of self.old ≡ number ∷ queue_of self.new) }
        ensures none { result ≡ None → (queue_of self.old ≡ []) × (queue_of self.new ≡ []) × (service.new ≡ service.old) × StaysSo self.old self.new }
        ensures turn { IfSome result (λ number. GivesTurn (BeginsWithin S.begins S.room service.old.room) S.answers number self.old self.new service.old.service service.new.service) }
        ensures settings { SameSettings self.old self.new }
        ensures user { IfSome result (λ number. LearnsUserOf (S.user service.new.service) (held_at self.old number) (held_at self.new number)) }
        ensures log { IfSome result (λ number. LogsTurnOf L.begins L.answered L.refused L.lost (S.user service.new.service) (held_at self.old number) (held_at self.new number) service.old.log service.new.log) }
    {
        let number = self.queue.pop_front()?;
        self.turns = self.turns.saturating_add(1);
        let round = self.round;
        if let Some(held) = self.connections.get_mut(&number) {
            held.round = round;
            let own = step(held, number, service);
            self.waiting = self.waiting.saturating_add(own);
            self.made = self.made.saturating_add(own);
            return Some(number);
        }
        Some(number)
    }

    /// Writes the next frame to a connection: the next piece of its answers that wait, as far as its window goes; or a frame without bytes, where it is done and nothing waits, and forgets
    /// it; or how much more its client may send, where less than half of that is left; or that a user was let in, or that it waits for its client, where that is new. It is ended where there is no memory for its place
    /// in the queue. False, and nothing is written, where nothing is to be said. `Io` where the output fails (own).
    pub fn hand_out<O: Write>(&mut self, number: u64, output: &mut O) -> Result<bool, Fault>
        ensures told { result ≡ Ok true → TellsNext number self.old self.new (O.contents output.old) (O.contents output.new) }
        ensures nothing { result ≡ Ok false → (IsNumber (count_begun self.old) number → IsStill number self.old) × (output.new ≡ output.old) }
        ensures stays { result ≢ Ok true → StaysSo self.old self.new }
        ensures breaks { OnErr result (BreaksOff (O.contents output.old) (O.contents output.new)) }
        ensures queue { Joins number (queue_of self.old) (queue_of self.new) }
        ensures settings { SameSettings self.old self.new }
    {
        if !self.has_begun(number) {
            return Ok(false);
        }
        let windows = self.windows;
        let Some(held) = self.connections.get_mut(&number) else {
            return Ok(false);
        };
        let (before, waited) = (held.ahead, held.waiting);
        match speak(held, &mut self.queue, number, windows, output)? {
            Said::Nothing => Ok(false),
            Said::Something => {
                let more = held.ahead.saturating_sub(before);
                let freed = waited.saturating_sub(held.waiting);
                self.told = self.told.saturating_add(more);
                self.waiting = self.waiting.saturating_sub(freed);
                Ok(true)
            }
            Said::Over => {
                write_piece(number, &[], output)?;
                forget(&mut self.connections, number);
                Ok(true)
            }
            Said::NoRoom => self.end(number, output),
        }
    }

    /// Ends a connection that goes on: what waits of it is dropped, and a frame without bytes is written. False, and nothing is done, where it goes on no more. `Io` where the output fails (own).
    pub fn end<O: Write>(&mut self, number: u64, output: &mut O) -> Result<bool, Fault>
        ensures told { result ≡ Ok true → Adds self.old self.new (Ended number) × Appends (O.contents output.old) (O.contents output.new) (piece_text number []) }
        ensures nothing { result ≡ Ok false → (IsNumber (count_begun self.old) number → IsNone (held_at self.old number)) × (output.new ≡ output.old) }
        ensures stays { result ≢ Ok true → self.new ≡ self.old }
        ensures breaks { OnErr result (BreaksOff (O.contents output.old) (O.contents output.new)) }
        ensures queue { queue_of self.new ≡ queue_of self.old }
        ensures settings { SameSettings self.old self.new }
    {
        if !self.goes_on(number) {
            return Ok(false);
        }
        write_piece(number, &[], output)?;
        forget(&mut self.connections, number);
        Ok(true)
    }

    /// Writes the line `more`, which asks what else has come. `Io` where the output fails (own).
    pub fn ask<O: Write>(&mut self, output: &mut O) -> Result<(), Fault>
        ensures asks { OnOk result (Adds self.old self.new Asked × Appends (O.contents output.old) (O.contents output.new) (codes "more\n")) }
        ensures fails { OnErr result ((self.new ≡ self.old) × BreaksOff (O.contents output.old) (O.contents output.new)) }
        ensures queue { queue_of self.new ≡ queue_of self.old }
        ensures settings { SameSettings self.old self.new }
    {
        write_more(output)?;
        self.asked = true;
        Ok(())
    }

    /// Takes the answer to `more`, that nothing else has come. False, and nothing is done, where nobody asked.
    pub fn nothing(&mut self) -> bool
        ensures order { result ≡ asked_of self.old }
        ensures takes { result ≡ true → Adds self.old self.new Nothing }
        ensures refused { result ≡ false → self.new ≡ self.old }
        ensures queue { queue_of self.new ≡ queue_of self.old }
        ensures settings { SameSettings self.old self.new }
    {
        let asked = self.asked;
        self.asked = false;
        asked
    }

    /// Takes word that the input ended: from now on nothing is granted, and answers are handed out whatever was taken.
    pub fn close(&mut self)
        ensures closes { Adds self.old self.new Closed }
        ensures queue { queue_of self.new ≡ queue_of self.old }
        ensures begun { count_begun self.new ≡ count_begun self.old }
        ensures config { config_of self.new ≡ config_of self.old }
        ensures window { window_of self.new ≡ closed_window (window_of self.old) }
    {
        self.windows.closed = true;
    }

    /// Takes word that the input was read: who has a turn from now on has it for the first time since then.
    pub fn begin_round(&mut self)
        ensures stays { StaysSo self.old self.new }
        ensures queue { queue_of self.new ≡ queue_of self.old }
        ensures settings { SameSettings self.old self.new }
    {
        self.round = self.round.wrapping_add(1);
        self.turns = 0;
        self.told = 0;
        self.made = 0;
    }

    /// Whether a turn may be given. Not while the answer to `more` is to come; nor where turns have made `MADE` bytes since the input was read; nor where the first of the queue had a turn
    /// since then, and `TURNS` turns were given or `TOLD` bytes handed out. Once the input has ended, always.
    pub fn may_answer(&self) -> bool
        ensures closed { IsTrue (window_of self.now).closed → IsTrue result }
        ensures asked { IsFalse (window_of self.now).closed → IsTrue (asked_of self.now) → IsFalse result }
    {
        if self.windows.closed {
            return true;
        }
        !self.asked && !self.is_full() && !(self.is_long() && self.comes_again())
    }

    /// The connection that is to be ended before the next frame is written to this one, and all fits within the bounds; none where it does. What one connection waits to be told is beside
    /// the bound.
    pub fn excess(&mut self, number: u64) -> Option<u64>
        ensures stays { StaysSo self.old self.new }
        ensures queue { queue_of self.new ≡ queue_of self.old }
        ensures settings { SameSettings self.old self.new }
    {
        let held = self.connections.get(&number)?;
        let (own, due) = (held.waiting, held.due);
        if !self.windows.closed && due > self.windows.into / 2 {
            if self.room_for_requests(number, due) > self.bounds.unfinished {
                if let Some(other) = self.resting(number) {
                    return Some(other);
                }
                return self.oldest();
            }
        }
        if self.waiting.saturating_sub(own) > self.bounds.waiting {
            self.waiting = self.count_waiting();
            if self.waiting.saturating_sub(own) > self.bounds.waiting {
                return self.fullest(number);
            }
        }
        None
    }

    // How many bytes of requests all connections hold, or keep room for, once so many more of this one have come.
    fn room_for_requests(&self, number: u64, due: u64) -> u64 {
        let mut sum = 0u64;
        for (other, held) in &self.connections {
            let more = if *other == number { due } else { 0 };
            sum = sum.saturating_add(room_for_requests(held, more));
        }
        sum
    }

    // The other connection that rests, keeps the room of a long request, and has been silent for longest.
    fn resting(&self, number: u64) -> Option<u64> {
        let mut resting = None;
        let mut last = u64::MAX;
        for (other, held) in &self.connections {
            if *other != number && rests_with_room(held) && held.last < last {
                resting = Some(*other);
                last = held.last;
            }
        }
        resting
    }

    // The connection within a request of which no byte has come for longest.
    fn oldest(&self) -> Option<u64> {
        let mut oldest = None;
        let mut last = u64::MAX;
        for (number, held) in &self.connections {
            if held.heard > held.called && held.last < last {
                oldest = Some(*number);
                last = held.last;
            }
        }
        oldest
    }

    // How many bytes wait that nobody shares, of all connections together.
    fn count_waiting(&self) -> u64 {
        let mut sum = 0u64;
        for (_, held) in &self.connections {
            sum = sum.saturating_add(held.waiting);
        }
        sum
    }

    // The other connection of which most waits that nobody shares.
    fn fullest(&self, number: u64) -> Option<u64> {
        let mut fullest = None;
        let mut most = 0;
        for (other, held) in &self.connections {
            if *other != number && held.waiting > most {
                fullest = Some(*other);
                most = held.waiting;
            }
        }
        fullest
    }

    /// How many bytes of requests the first of the queue has sent that were not called yet; 0 where nobody waits for a turn.
    pub fn unanswered(&self) -> u64 {
        let Some(number) = self.queue.front() else {
            return 0;
        };
        match self.connections.get(number) {
            Some(held) => held.heard.saturating_sub(held.called),
            None => 0,
        }
    }

    /// The address of the client of a connection; no bytes where none was told, or the connection goes on no more. None where it has not begun.
    pub fn address_of(&self, number: u64) -> Option<&[u8]>
        ensures order { IsSome result ↔ IsNumber (count_begun self.now) number }
        ensures address { IfSome result (λ address. address.now ≡ address_at self.now number) }
    {
        if !self.has_begun(number) {
            return None;
        }
        match self.connections.get(&number) {
            Some(held) => Some(held.address.as_slice()),
            None => Some(&[]),
        }
    }

    /// Whether the answer to `more` is to come.
    pub fn is_asked(&self) -> bool
        ensures { result ≡ asked_of self.now }
    {
        self.asked
    }

    /// How many turns were given since the input was read.
    pub fn turns(&self) -> u64 {
        self.turns
    }

    /// How many connections have begun.
    pub fn count(&self) -> u64
        ensures { result ≡ count_begun self.now }
    {
        self.begun
    }

    // Whether somebody waits for a turn, and turns have made enough since the input was read.
    fn is_full(&self) -> bool {
        self.made >= MADE && !self.queue.is_empty()
    }

    // Whether enough was done since the input was read.
    fn is_long(&self) -> bool {
        self.turns >= TURNS || self.told >= TOLD
    }

    // Whether the first of the queue had a turn since the input was read.
    fn comes_again(&self) -> bool {
        let Some(number) = self.queue.front() else {
            return false;
        };
        match self.connections.get(number) {
            Some(held) => held.round == self.round,
            None => false,
        }
    }

    // Whether the connection has begun.
    fn has_begun(&self, number: u64) -> bool
        ensures { IsTrue result ↔ IsNumber (count_begun self.now) number }
    {
        number > 0 && number <= self.begun
    }

    // Whether the connection has begun and goes on.
    fn goes_on(&self, number: u64) -> bool
        ensures { IsTrue result ↔ (IsNumber (count_begun self.now) number × IsSome (held_at self.now number)) }
    {
        self.has_begun(number) && self.connections.get(&number).is_some()
    }

    // Whether so many bytes were handed out to the connection and not yet taken, where it goes on.
    fn may_take(&self, number: u64, count: u64) -> bool
        ensures { IsTrue result ↔ IfSome (held_at self.now number) (λ held. count ≤ held.ahead) }
    {
        match self.connections.get(&number) {
            Some(held) => count <= held.ahead,
            None => true,
        }
    }

    // A new connection, under the number; whether there is memory for it.
    fn add(&mut self, number: u64) -> bool
        ensures adds { result ≡ true → BeginsFresh number self.old self.new }
        ensures fails { result ≡ false → LooksAlike self.old self.new }
        ensures queue { queue_of self.new ≡ queue_of self.old }
        ensures config { config_of self.new ≡ config_of self.old }
        ensures window { window_of self.new ≡ window_of self.old }
    {
        let held = Held {
            connection: Connection::new(self.alloc, self.keys, self.config),
            address: self.next_address.take(),
            ahead: 0,
            heard: 0,
            behind: 0,
            due: 0,
            ended: false,
            queued: false,
            part: false,
            news: false,
            known: false,
            told: false,
            round: 0,
            called: 0,
            last: self.frames,
            longest: 0,
            waiting: 0,
        };
        if !place(&mut self.connections, number, held) {
            return false;
        }
        self.begun = number;
        true
    }

    // Takes bytes of a connection that has begun. Where they are not taken, and it is not told so, the connection is gone.
    fn take_some<O: Write>(
        &mut self,
        number: u64,
        bytes: &[u8],
        output: &mut O,
    ) -> Result<(), Fault>
        ensures takes { IsNumber (count_begun self.old) number → OnOk result (Takes number bytes.now self.old self.new (O.contents output.old) (O.contents output.new)) }
        ensures fails { IsNumber (count_begun self.old) number → OnErr result (Adds self.old self.new (Gone number)) }
        ensures breaks { OnErr result (BreaksOff (O.contents output.old) (O.contents output.new)) }
        ensures queue { Joins number (queue_of self.old) (queue_of self.new) }
        ensures settings { SameSettings self.old self.new }
    {
        if self.pass(number, bytes) {
            return Ok(());
        }
        write_piece(number, &[], output)
    }

    // Passes the bytes on to the connection, where it goes on; where they are not taken, it goes on no more. Whether they were taken.
    fn pass(&mut self, number: u64, bytes: &[u8]) -> bool
        ensures hears { result ≡ true → HearsAt (held_at self.old number) number bytes.now self.old self.new }
        ensures fails { result ≡ false → QuitsAt number self.old self.new }
        ensures queue { Joins number (queue_of self.old) (queue_of self.new) }
        ensures settings { SameSettings self.old self.new }
    {
        let (into, frame) = (self.windows.into, self.frames.wrapping_add(1));
        let Some(held) = self.connections.get_mut(&number) else {
            return true;
        };
        self.frames = frame;
        if hear(held, &mut self.queue, number, into, frame, bytes) {
            return true;
        }
        forget(&mut self.connections, number);
        false
    }
}
