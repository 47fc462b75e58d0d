//! Whether a part of a request has come, behind the last that was answered.
use http_server::Connection;
use std::fmt;

// What the connection's `Debug` tells, piece by piece, as far as it has come.
#[derive(Clone, Copy, PartialEq, Eq)]
enum Place {
    Before,
    Name,
    Value,
    None,
    Some,
}

#[derive(Drop)]
struct Unread {
    place: Place,
}

impl fmt::Write for Unread {
    fn write_str(&mut self, piece: &str) -> fmt::Result {
        self.place = match self.place {
            Place::Before if piece == "unread" => Place::Name,
            Place::Name if piece == ": " => Place::Value,
            Place::Name => Place::Some,
            Place::Value if piece == "0" => Place::None,
            Place::Value => Place::Some,
            place => place,
        };
        // What comes behind that is not asked for.
        match self.place {
            Place::None | Place::Some => Err(fmt::Error),
            _ => Ok(()),
        }
    }
}

/// Whether bytes were received behind the request that was called last. The kit has no call that tells how many bytes it has not used, so this reads what its `Debug` says of them; no clause
/// speaks of that, and a test does (own).
pub fn has_unread(connection: &Connection) -> bool {
    let mut unread = Unread {
        place: Place::Before,
    };
    let _written = fmt::Write::write_fmt(&mut unread, format_args!("{:?}", connection));
    unread.place != Place::None
}
