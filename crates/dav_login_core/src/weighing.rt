//! What a login says of a name and a password.

/// What is said of them.
#[derive(Clone, Copy)]
pub(crate) enum Standing {
    /// They are known as accepted.
    Accepted,
    /// They are a user's, and were not known.
    Right,
    /// They are no user's.
    Wrong,
    /// They were refused from this network.
    Again,
    /// Too many were wrong: these are not looked at.
    TooMany,
}
