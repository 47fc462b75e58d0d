//! What a login does between calls: turns, the clock, and the users.
ghost use Rattle.dav_login_core.specs.LoggedIn.{HandsOn, ListsUsers};
ghost use Rattle.dav_login_core.specs.LoginViews.{login};

use crate::login::Login;
use crate::watching::Host;
use bytes::Bytes;
use dav_users_core::Users;
use http::Request;
use http_frames::gate::TurnService;
use http_server::Response;

/// The service is told each word. A file of users that has a wrong line, or for which there is no memory, is told to the host, and those stay that were in force. Else its users are in force from
/// now on; of what was found right there stays what is of users with the same line as before.
impl<S: TurnService, H: Host> TurnService for Login<S, H> {
    ghost begins = { λ old number new. HandsOn S.begins (login old) number (login new) };

    ghost clocked = { λ old moment new. HandsOn S.clocked (login old) moment (login new) };

    ghost listed = { λ old file new. ListsUsers S.listed H.told (login old) file (login new) };

    ghost room = { λ l. S.room (login l).service };

    ghost user = { λ l. S.user (login l).service };

    fn begin_turn(&mut self, number: u64, address: &[u8], bytes: u64) {
        self.watch.turn(address);
        self.service.begin_turn(number, address, bytes);
    }

    fn user(&self) -> &[u8] {
        self.service.user()
    }

    fn own_len(&self, request: &Request<Bytes>, response: &Response) -> u64 {
        self.service.own_len(request, response)
    }

    fn most_room(&self, bytes: u64) -> u64 {
        self.service.most_room(bytes)
    }

    fn set_clock(&mut self, moment: u64) {
        self.service.set_clock(moment);
    }

    fn set_users(&mut self, file: &[u8]) {
        self.list_users(file);
        self.service.set_users(file);
    }
}
