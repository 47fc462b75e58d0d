//! A service that is told whose turn it is, and answers one request a turn.
ghost use Rattle.std.specs.Prelude.{◌≡◌, ◌≤◌, ℕ, List, None, IsTrue, IsFalse};
ghost use Rattle.http.specs.declared.request.Request as requests;
ghost use Rattle.http_server.specs.declared.response.Response as responses;

use bytes::Bytes;
use http::Request;
use http_server::{Response, Service};
use std::alloc::AllocError;

/// A service that is told before each turn whose it is, and what frames told: which moment it is, and who the users are (own).
pub trait TurnService: Service {
    // From the first state, the word that a turn of this connection comes leaves the second.
    ghost begins: { Self → ℕ → Self → Type 0 };

    // From the first state, the word that it is this moment leaves the second.
    ghost clocked: { Self → ℕ → Self → Type 0 };

    // From the first state, the word that the users are those of this file leaves the second.
    ghost listed: { Self → List ℕ → Self → Type 0 };

    // How many bytes the record of what the next call changes has at most.
    ghost room: { Self → ℕ };

    // The name of the user as whom the last call was answered; no bytes where nobody was let in.
    ghost user: { Self → List ℕ };

    /// Takes word that a turn of the connection comes: a request of it may be answered next. There is room for so many bytes in the record of what the turn changes: a request that may need
    /// more is answered 507, Insufficient Storage (RFC 4918 section 11.5), and changes nothing. A service of which nothing is kept has `room = { λ _. 0 }`. The address is that of the
    /// connection's client, and empty where none was told. No clause speaks of the address: it is passed on, and a test looks at it.
    fn begin_turn(&mut self, number: u64, address: &[u8], bytes: u64)
        ensures begins { begins self.old number self.new }
        ensures room { room self.new ≤ bytes };

    /// The user as whom the last call of this turn was answered; no bytes where nobody was let in (own).
    fn user(&self) -> &[u8]
        ensures { result.now ≡ user self.now };

    /// How many bytes of an answer that it made are its own, and not shared with what it keeps.
    fn own_len(&self, request: &Request<Bytes>, response: &Response) -> u64;

    /// How many bytes of room a request that has so many bytes, head and body together, may need, as far as that can be told before it is read; 0 where nothing is kept. It is a guess that no
    /// clause speaks of: where it is too small, a request may be answered 507 though the disk has room.
    fn most_room(&self, bytes: u64) -> u64;

    /// Takes word that it is this moment now, in nanoseconds since 1970.
    fn set_clock(&mut self, moment: u64)
        ensures { clocked self.old moment self.new };

    /// Takes word that these are the users now, as the text of a file.
    fn set_users(&mut self, file: &[u8])
        ensures { listed self.old file.now self.new };
}

/// What keeps a log of requests. It is told of each turn, of each request that was answered in it, of what the connection refused by itself, and of clients that were sent away (own).
pub trait AccessLog {
    // From the first state, the word that a turn comes of a client at this address leaves the second.
    ghost begins: { Self → List ℕ → Self → Type 0 };

    // From the first state, the word that this request was answered so, as this user's, leaves the second.
    ghost answered: { Self → requests.Request (List ℕ) → responses.Response → List ℕ → Self → Type 0 };

    // From the first state, the word that what came was refused with this status leaves the second.
    ghost refused: { Self → ℕ → Self → Type 0 };

    // From the first state, the word that memory ran out for a connection leaves the second.
    ghost lost: { Self → Self → Type 0 };

    // From the first state, the word that a client at this address was too slow leaves the second.
    ghost late: { Self → List ℕ → Self → Type 0 };

    // From the first state, the word that so many connections from this address had no place leaves the second.
    ghost turned: { Self → List ℕ → ℕ → Self → Type 0 };

    /// Takes word that a turn comes of a client at this address, which is empty where none was told.
    fn begin(&mut self, address: &[u8])
        ensures { begins self.old address.now self.new };

    /// Takes word that a request of this turn was answered so, as this user's; no bytes are nobody.
    fn answered(&mut self, request: &Request<Bytes>, response: &Response, user: &[u8])
        ensures { answered self.old request.now response.now user.now self.new };

    /// Takes word that what came in this turn was no request that a service is asked, and that the connection answered this status by itself.
    fn refused(&mut self, status: u16)
        ensures { refused self.old status self.new };

    /// Takes word that the connection ended in this turn, since memory ran out for it: what it asked may have no line.
    fn lost(&mut self)
        ensures { lost self.old self.new };

    /// Takes word that a client at this address was closed since it was too slow.
    fn late(&mut self, address: &[u8])
        ensures { late self.old address.now self.new };

    /// Takes word that so many connections from this address were closed unheard, since there was no place for them.
    fn turned(&mut self, address: &[u8], count: u64)
        ensures { turned self.old address.now count self.new };
}

/// A service behind a gate, and the log of what it answers. The gate lets one request through and then stays shut until it is opened. A request that comes while it is shut ends its connection, as one does for
/// which there is no memory; a connection whose configuration lets no byte wait (`max_pending`) makes none.
#[derive(Drop)]
pub struct OneCall<S, L> {
    /// The service.
    pub service: S,
    /// The log.
    pub log: L,
    /// Whether the gate is shut.
    pub spent: bool,
    /// How many bytes of the last answer are the service's own, and not shared with what it keeps.
    pub own: u64,
    /// How many bytes there is room for in the record of what the next turn changes.
    pub room: u64,
    /// How many bytes are free on the disk, as a frame told last; none where none told it.
    pub free: Option<u64>,
}

impl<S: TurnService, L: AccessLog> OneCall<S, L> {
    /// The service behind a gate, with room for any record, and the log of what it answers.
    pub fn new(service: S, log: L) -> OneCall<S, L>
        ensures service { result.service ≡ service }
        ensures log { result.log ≡ log }
        ensures free { result.free ≡ None }
    {
        OneCall {
            service,
            log,
            spent: false,
            own: 0,
            room: u64::MAX,
            free: None,
        }
    }

    /// Tells the service whose turn comes, the address of that connection's client, and how much room there is; tells the log of the turn; and opens the gate.
    pub fn open(&mut self, number: u64, address: &[u8])
        ensures begins { S.begins self.old.service number self.new.service }
        ensures room { S.room self.new.service ≤ self.old.room }
        ensures opens { IsFalse self.new.spent }
        ensures log { L.begins self.old.log address.now self.new.log }
    {
        self.service.begin_turn(number, address, self.room);
        self.log.begin(address);
        self.spent = false;
        self.own = 0;
    }
}

/// A request that is answered has one line in the log.
impl<S: TurnService, L: AccessLog> Service for OneCall<S, L> {
    ghost answers = { λ old request response new. IsFalse old.spent × IsTrue new.spent × S.answers old.service request response new.service
        × L.answered old.log request response (S.user new.service) new.log };

    fn call(
        &mut self,
        request: &Request<Bytes>,
        response: &mut Response,
    ) -> Result<(), AllocError> {
        if self.spent {
            return Err(AllocError);
        }
        self.service.call(request, response)?;
        self.spent = true;
        self.own = self.service.own_len(request, response);
        self.log.answered(request, response, self.service.user());
        Ok(())
    }
}
