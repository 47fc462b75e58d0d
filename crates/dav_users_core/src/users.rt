//! A file of users and their passwords, as htpasswd and mkpasswd write it.
ghost use Rattle.std.specs.Prelude.{◌≡◌, ◌<◌, ◌↔◌, IsTrue, ◌∷◌, [], true, false, List, Result, length, option_map, IfErr, IfSome, None, Ok, OnOk, MatchResult};
ghost use Rattle.std.specs.List.{after_first, before_first, list_all, list_any};
ghost use Rattle.line_streams.specs.Lines.{lines};
ghost use Rattle.dav_users_core.specs.GuessCosts.{FillUp, cost_of_guess, cost_of_hash, dearest};
ghost use Rattle.dav_users_core.specs.Hashes.{hash_text_of};
ghost use Rattle.dav_users_core.specs.Private.LineStops.{StopsLine};
ghost use Rattle.dav_users_core.specs.Users.{IsUsersFault, ReadsUsers, UserLine, at_number, hash_named, has_no_user, is_colon, is_user_name, has_user_name, is_password, is_no_control, user_in, user_of, user_of_text, users_in, users_of, with_line};
ghost use Rattle.dav_users_core.specs.declared.error.LineFault.{LineFault};
ghost use Rattle.dav_users_core.specs.declared.users.Setback.TheVariants.{Memory};

use crate::costs::{Rounds, cost, dearer, fill_up, rounds_of};
use crate::crypting::LONGEST;
use crate::error::{LineFault, UsersError};
use crate::hashes::{PasswordHash, Scheme, hash_in_vain, nobodys_hash};
use memchr::memchr;
use std::alloc::{AllocError, AllocFailed, Global};
use std::hint::black_box;

/// A user, and the hash of its password.
#[derive(Drop)]
pub(crate) struct User {
    pub(crate) name: String,
    pub(crate) hash: PasswordHash,
}

/// Users and the hashes of their passwords, each name once (own).
#[derive(Drop)]
pub struct Users {
    pub(crate) users: Vec<User>,
}

/// Why a line adds no user.
#[derive(Drop)]
pub(crate) enum Setback {
    Memory,
    Fault(LineFault),
}

impl From<AllocError> for Setback {
    ghost from_gives = { λ _ e. e ≡ Memory };

    fn from(_error: AllocError) -> Setback {
        Setback::Memory
    }
}

impl<T: Drop> From<AllocFailed<T>> for Setback {
    ghost from_gives = { λ _ e. e ≡ Memory };

    fn from(_error: AllocFailed<T>) -> Setback {
        Setback::Memory
    }
}

impl Users {
    /// Reads a file: on each line a name, a colon, and the hash of a password, as `PasswordHash::read` takes it. An empty line, and one that begins with `#`, has no user.
    ///
    /// - `Line`: the number of the first line that is wrong, and why, as `LineFault` says.
    /// - `OutOfMemory`: there is no memory.
    pub fn read(alloc: Global, file: &[u8]) -> Result<Users, UsersError>
        ensures { ReadsUsers result (users_of file.now) }
    {
        let mut users = Users {
            users: Vec::new(alloc),
        };
        let mut rest = file;
        let mut number: u64 = 0;
        'reading: while !rest.is_empty() {
            let (line, behind) = first_line(rest);
            number += 1;
            if let Err(setback) = users.add_line(alloc, line) {
                return Err(at_line(setback, number));
            }
            rest = behind;
        }
        Ok(users)
    }

    /// Whether it is the password of the user with that name.
    ///
    /// A guess costs about as much for each name: behind the hash of a cheaper line, and for a name that nobody has, a password is hashed in vain, until that costs what the dearest line does. For one
    /// of more than 128 bytes, which is wrong, nothing is hashed.
    pub fn check(&self, name: &str, password: &[u8]) -> bool
        ensures { result ≡ is_password (users_in self.now) name.now password.now }
    {
        if password.len() > LONGEST {
            return false;
        }
        let rest = self.missing_rounds(name);
        let is_right = match self.hash_named(name) {
            Some(hash) => hash.accepts(password),
            None => {
                let _hashed = black_box(nobodys_hash(rest.scheme).accepts(password));
                false
            }
        };
        let _hashed = black_box(hash_in_vain(rest, password));
        is_right
    }

    /// What each guess costs: so many rounds of SHA-512, rounded up, cost as much as the dearest line. A round of SHA-256 is reckoned as four thirds of one of SHA-512. Without a user it is 5,000.
    pub fn cost(&self) -> u64
        ensures { result ≡ cost_of_guess (users_in self.now) }
    {
        (cost(self.dearest()) + 2) / 3
    }

    /// Whether there is no user.
    pub fn is_empty(&self) -> bool
        ensures { IsTrue result ↔ (users_in self.now ≡ []) }
    {
        self.users.is_empty()
    }

    /// Whether the user with the name has the same line in both: one hash, or none in either.
    pub fn has_same(&self, other: &Users, name: &str) -> bool
        ensures { IsTrue result
            ↔ (hash_named (users_in self.now) name.now ≡ hash_named (users_in other.now) name.now) }
    {
        match (self.hash_named(name), other.hash_named(name)) {
            (Some(here), Some(there)) => here.is_same(there),
            (None, None) => true,
            _ => false,
        }
    }

    // The rounds that are hashed in vain for the name. With those of its own hash they cost what the dearest line does.
    #[tactic(auto, using(crate::proofs::CostLemmas::no_dearer))]
    fn missing_rounds(&self, name: &str) -> Rounds
        ensures { FillUp (cost_of_hash (hash_named (users_in self.now) name.now)) result (dearest (users_in self.now)) }
    {
        fill_up(self.cost_of_hash(name), self.dearest())
    }

    // What the hash of the user with the name costs, if there is one.
    fn cost_of_hash(&self, name: &str) -> u64
        ensures { result ≡ cost_of_hash (hash_named (users_in self.now) name.now) }
    {
        match self.hash_named(name) {
            Some(hash) => cost(rounds_of(hash)),
            None => 0,
        }
    }

    // The dearest rounds of the users.
    fn dearest(&self) -> Rounds
        ensures { result ≡ dearest (users_in self.now) }
    {
        let Some((first, others)) = self.users.split_first() else {
            return Rounds {
                scheme: Scheme::Sha512,
                count: 5000,
            };
        };
        let mut so_far = rounds_of(&first.hash);
        'looking: for user in others {
            so_far = dearer(so_far, rounds_of(&user.hash));
        }
        so_far
    }

    // The hash of the user with the name.
    fn hash_named(&self, name: &str) -> Option<&PasswordHash>
        ensures { option_map (λ h. hash_text_of h.now) result
            ≡ hash_named (users_in self.now) name.now }
    {
        'looking: for user in &self.users {
            if user.name.as_str() == name {
                return Some(&user.hash);
            }
        }
        None
    }

    // Adds the user of a line, unless it has none.
    fn add_line(&mut self, alloc: Global, line: &[u8]) -> Result<(), Setback>
        ensures ok { OnOk result (with_line (users_in self.old) line.now ≡ Ok (users_in self.new)) }
        ensures wrong { IfErr result
            (λ e. StopsLine e (with_line (users_in self.old) line.now)) }
    {
        if has_no_user(line) {
            return Ok(());
        }
        let user = user_of(alloc, line)?;
        if self.hash_named(user.name.as_str()).is_some() {
            return Err(Setback::Fault(LineFault::Twice));
        }
        self.users.push(user)?;
        Ok(())
    }
}

// What is told of the line with this number.
fn at_line(setback: Setback, number: u64) -> UsersError
    ensures { (line : Result (List UserLine) LineFault) → StopsLine setback line
        → IsUsersFault result (at_number number line) }
{
    match setback {
        Setback::Memory => UsersError::OutOfMemory,
        Setback::Fault(fault) => UsersError::Line(number, fault),
    }
}

// The user of a line.
#[tactic(auto, using(crate::proofs::Texts::utf8_tests))]
fn user_of(alloc: Global, line: &[u8]) -> Result<User, Setback>
    ensures { MatchResult result (λ user. user_of line.now ≡ Ok (user_in user))
        (λ e. StopsLine e (user_of line.now)) }
{
    let Ok(text) = str::from_utf8(line) else {
        return Err(Setback::Fault(LineFault::Text));
    };
    user_of_text(alloc, text)
}

// The user of a line that is UTF-8.
fn user_of_text(alloc: Global, text: &str) -> Result<User, Setback>
    ensures { MatchResult result (λ user. user_of_text text.now ≡ Ok (user_in user))
        (λ e. StopsLine e (user_of_text text.now)) }
{
    let Some((name, hash)) = named_parts(text) else {
        return Err(Setback::Fault(LineFault::Name));
    };
    let hash = match PasswordHash::read(hash) {
        Ok(hash) => hash,
        Err(fault) => return Err(Setback::Fault(fault)),
    };
    let name = String::from_str(alloc, name)?;
    Ok(User { name, hash })
}

// The name in front of the first colon, and what stands behind it.
fn named_parts(text: &str) -> Option<(&str, &str)>
    ensures some { IfSome result (λ parts. (has_user_name text.now ≡ true)
        × (parts.0.now ≡ before_first is_colon text.now)
        × (parts.1.now ≡ after_first is_colon text.now)) }
    ensures none { result ≡ None → has_user_name text.now ≡ false }
{
    let Some((name, hash)) = at_colon(text) else {
        return None;
    };
    if !is_user_name(name.as_bytes()) {
        return None;
    }
    Some((name, hash))
}

/// What stands before the first colon, and behind it.
pub(crate) fn at_colon(text: &str) -> Option<(&str, &str)>
    ensures some { IfSome result (λ parts. (list_any is_colon text.now ≡ true)
        × (parts.0.now ≡ before_first is_colon text.now)
        × (parts.1.now ≡ after_first is_colon text.now)) }
    ensures none { result ≡ None → list_any is_colon text.now ≡ false }
{
    let (name, hash) = text.split_once(':')?;
    Some((name, hash))
}

fn is_user_name(name: &[u8]) -> bool
    ensures { result ≡ is_user_name name.now }
{
    !name.is_empty() && are_plain(name)
}

// Whether none is a control character.
fn are_plain(name: &[u8]) -> bool
    ensures { result ≡ list_all is_no_control name.now }
{
    name.iter().all(|b| !b.is_ascii_control())
}

// Whether the line has no user.
fn has_no_user(line: &[u8]) -> bool
    ensures { result ≡ has_no_user line.now }
{
    line.is_empty() || line.starts_with(b"#")
}

// The first line of some bytes, without its end, and what stands behind it.
fn first_line(bytes: &[u8]) -> (&[u8], &[u8])
    requires some { 0 < length bytes.now }
    ensures lines { lines bytes.now ≡ result.0.now ∷ lines result.1.now }
    ensures shorter { length result.1.now < length bytes.now }
{
    match memchr(b'\n', bytes) {
        Some(end) => (&bytes[..end], &bytes[end + 1..]),
        None => (bytes, &[]),
    }
}
