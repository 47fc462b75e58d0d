//! The room for the record of what a request changes.
ghost use Rattle.std.specs.Prelude.{◌≡◌, [], ◌∷◌};
ghost use Rattle.dav_handler_core.specs.ServerViews.{server, stores_of_server};
ghost use Rattle.dav_notes_core.specs.Costs.{budget_of};

use super::Dav;
use bytes::Bytes;
use http::Request;
use rand_core::Rng;

/// The last bytes of the room, which a DELETE and an UNLOCK alone may use, so that a full disk can
/// be emptied (own).
pub const LAST_ROOM: u64 = 1024 * 1024;

impl<R: Rng> Dav<R> {
    /// Begins the notes anew, which may have so many bytes in a record from now on, though less than
    /// `u64::MAX` (own). A request is answered 507, Insufficient Storage (RFC 4918 section 11.5),
    /// where the notes of what it would change may have more; the last MiB is for DELETE and UNLOCK.
    pub fn set_room(&mut self, bytes: u64)
        ensures { server R.stream self.new ≡ record (server R.stream self.old) {
          noting = record {
            keeps = (server R.stream self.old).noting.keeps;
            base = (stores_of_server self.new, (server R.stream self.new).last) ∷ [];
            given = budget_of bytes;
          };
        } }
    {
        self.session.set_room(bytes);
    }
}

// How many bytes of the room a request leaves to others.
pub(super) fn withheld_from(request: &Request<Bytes>) -> u64 {
    match request.method().as_str() {
        "DELETE" | "UNLOCK" => 0,
        _ => LAST_ROOM,
    }
}
