//! What stands in front of the server.
use crate::log::LogFile;
use dav_users_core::Users;
use http_header::HeaderName;
use turn_fronts::{MayLog, Notes};

/// What stands in front of the server, from inside out (own): it lets nothing be changed, tells as whose each request was answered, and users log in. Beside it stands the log.
#[derive(Drop)]
pub(crate) struct Fronts<'a> {
    /// Whether nothing may be changed.
    pub(crate) read_only: bool,
    /// The users who may log in, where they do.
    pub(crate) users: Option<Users>,
    /// The realm that they are told to log in to.
    pub(crate) realm: String,
    /// The header by which the server is told whose a request is, by the login or by a proxy.
    pub(crate) user_header: Option<HeaderName>,
    /// The header by which a proxy tells the login where a client is.
    pub(crate) address_header: Option<HeaderName>,
    /// The log, where there is one.
    pub(crate) log: Option<Notes<LogFile<'a>>>,
}

impl<'a> Fronts<'a> {
    /// Whether nothing stands there, beside the log (own).
    pub(crate) fn is_none(&self) -> bool {
        !self.read_only && self.users.is_none() && self.user_header.is_none()
    }

    /// Takes the log, where there is one (own).
    pub(crate) fn take_log(&mut self) -> MayLog<Notes<LogFile<'a>>> {
        MayLog {
            notes: self.log.take(),
        }
    }
}
