//! Why a file of users is not read.
ghost use Rattle.std.specs.Prelude.{◌≡◌};
ghost use Rattle.dav_users_core.specs.declared.error.UsersError.TheVariants.{OutOfMemory};

use std::alloc::AllocError;
use std::fmt;

/// What is wrong with a line of a file of users (own).
#[derive(Debug, Clone, Copy, PartialEq, Eq)]
pub enum LineFault {
    /// It is not UTF-8.
    Text,
    /// No name stands in front of a colon, or it has a control character.
    Name,
    /// Behind the colon stands neither `$5$` nor `$6$`, and no bcrypt.
    Scheme,
    /// Behind the colon stands `$2a$`, `$2b$` or `$2y$`: a hash by bcrypt, which is not read.
    Bcrypt,
    /// Behind `rounds=` stands no number of 1,000 to 20,000.
    Rounds,
    /// What stands behind that is no salt of at most 16 letters, a `$` and as many letters as the sum has.
    Hash,
    /// A line above it has the same name.
    Twice,
}

/// Why a file of users is not read (own).
#[derive(Debug, Drop)]
pub enum UsersError {
    /// There is no memory.
    OutOfMemory,
    /// A line is wrong: its number, from 1, and what is wrong with it.
    Line(u64, LineFault),
}

impl From<AllocError> for UsersError {
    ghost from_gives = { λ _ e. e ≡ OutOfMemory };

    fn from(_error: AllocError) -> UsersError {
        UsersError::OutOfMemory
    }
}

impl fmt::Display for LineFault {
    fn fmt<W: fmt::Write>(&self, f: &mut fmt::Formatter<W>) -> fmt::Result {
        f.write_str(match self {
            LineFault::Text => "not UTF-8",
            LineFault::Name => "no name",
            LineFault::Scheme => "neither $5$ nor $6$",
            LineFault::Bcrypt => "bcrypt is not read; htpasswd -n5 NAME makes a line that is",
            LineFault::Rounds => "rounds are neither left out nor 1000 to 20000",
            LineFault::Hash => "no hash",
            LineFault::Twice => "a name that stands above",
        })
    }
}

impl fmt::Display for UsersError {
    fn fmt<W: fmt::Write>(&self, f: &mut fmt::Formatter<W>) -> fmt::Result {
        match self {
            UsersError::OutOfMemory => f.write_str("out of memory"),
            UsersError::Line(number, fault) => write!(f, "line {number}: {fault}"),
        }
    }
}

impl std::error::Error for UsersError {}
