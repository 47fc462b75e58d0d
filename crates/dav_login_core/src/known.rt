//! What is kept of a name and a password that were accepted.

/// A name that was accepted, and the digest of it with its password.
#[derive(Drop)]
pub(crate) struct Known {
    pub(crate) name: String,
    pub(crate) digest: [u8; 32],
}

/// What is learned of a request that is let in.
#[derive(Drop)]
pub(crate) enum Lesson {
    /// It sends nothing.
    Nothing,
    /// What it sends was known, by this digest.
    Used([u8; 32]),
    /// What it sends is a user's, and was not known.
    New(Known),
}
