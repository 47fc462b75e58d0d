//! What the service is told between its calls.
ghost use Rattle.turn_fronts.specs.NamedUsers.{BeginsUnnamed, HandsOnAs, user_let_in};

use crate::named::Named;
use crate::read_only::ReadOnly;
use bytes::Bytes;
use http::Request;
use http_frames::gate::TurnService;
use http_server::Response;

/// The service is told each word. At the begin of a turn nobody was let in.
impl<S: TurnService> TurnService for Named<S> {
    ghost begins = { λ old number new. BeginsUnnamed S.begins old number new };

    ghost clocked = { λ old moment new. HandsOnAs S.clocked old moment new };

    ghost listed = { λ old file new. HandsOnAs S.listed old file new };

    ghost room = { λ n. S.room n.service };

    ghost user = { λ n. user_let_in n };

    fn begin_turn(&mut self, number: u64, address: &[u8], bytes: u64) {
        self.user.clear();
        self.service.begin_turn(number, address, bytes);
    }

    fn user(&self) -> &[u8] {
        &self.user
    }

    fn own_len(&self, request: &Request<Bytes>, response: &Response) -> u64 {
        self.service.own_len(request, response)
    }

    fn most_room(&self, bytes: u64) -> u64 {
        self.service.most_room(bytes)
    }

    fn set_clock(&mut self, moment: u64) {
        self.service.set_clock(moment);
    }

    fn set_users(&mut self, file: &[u8]) {
        self.service.set_users(file);
    }
}

/// The service is told each word.
impl<S: TurnService> TurnService for ReadOnly<S> {
    ghost begins = { λ old number new. S.begins old.service number new.service };

    ghost clocked = { λ old moment new. S.clocked old.service moment new.service };

    ghost listed = { λ old file new. S.listed old.service file new.service };

    ghost room = { λ r. S.room r.service };

    ghost user = { λ r. S.user r.service };

    fn begin_turn(&mut self, number: u64, address: &[u8], bytes: u64) {
        self.service.begin_turn(number, address, bytes);
    }

    fn user(&self) -> &[u8] {
        self.service.user()
    }

    fn own_len(&self, request: &Request<Bytes>, response: &Response) -> u64 {
        self.service.own_len(request, response)
    }

    /// Nothing is changed, so nothing is kept.
    fn most_room(&self, _bytes: u64) -> u64 {
        0
    }

    fn set_clock(&mut self, moment: u64) {
        self.service.set_clock(moment);
    }

    fn set_users(&mut self, file: &[u8]) {
        self.service.set_users(file);
    }
}
