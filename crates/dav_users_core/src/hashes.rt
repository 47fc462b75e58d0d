//! The hash of a password, as `htpasswd -5` and `mkpasswd -m sha-512` write it.
ghost use Rattle.std.specs.Prelude.{◌≡◌, ◌≤◌, ◌↔◌, IsTrue, true, false, None, IfSome, length};
ghost use Rattle.std.specs.List.{after_first, before_first, list_all};
ghost use Rattle.line_streams.specs.Numerals.{numeral};
ghost use Rattle.dav_users_core.specs.GuessCosts.{sum_in_vain};
ghost use Rattle.dav_users_core.specs.Hashes.{accepts, behind_dollar, behind_scheme, crypt_text, hash_of, is_dollar, is_equals, is_letter, is_rounds, is_salt, is_sum, letters_in, rounds_in, salt_and_sum, scheme_of, unread_scheme, hash_text_of, hash_texts_of};

use crate::costs::Rounds;
use crate::crypting::{LONGEST, crypt, rounds_in_vain};
use crate::error::LineFault;
use crate::hashing::{Sum, kept};
use crate::letters::{Letters, text_256, text_512};
use arrayvec::ArrayVec;
use line_streams::numbers::number;
use sha2::{Sha256, Sha512};

// So many rounds a line may name.
const LEAST: u64 = 1_000;

const MOST: u64 = 20_000;

/// How a password is hashed.
#[derive(Clone, Copy, PartialEq, Eq)]
pub enum Scheme {
    /// By SHA-256: `$5$`.
    Sha256,
    /// By SHA-512: `$6$`.
    Sha512,
}

/// The hash of a password (own).
#[derive(Drop)]
pub struct PasswordHash {
    pub(crate) scheme: Scheme,
    pub(crate) rounds: u32,
    pub(crate) salt: ArrayVec<u8, 16>,
    pub(crate) sum: Letters,
}

impl PasswordHash {
    /// Reads the text of a hash: `$5$` or `$6$`; then, where it is not 5,000, the number of rounds, as `rounds=NUMBER$`; a salt; a `$`; and the letters of the sum.
    ///
    /// - `Bcrypt`: it begins with `$2a$`, `$2b$` or `$2y$`.
    /// - `Scheme`: it begins otherwise.
    /// - `Rounds`: the number is not of 1,000 to 20,000.
    /// - `Hash`: what follows is no salt and no sum. A salt has 16 letters at most, a sum 43 by SHA-256 and 86 by SHA-512, out of letters, digits, `.` and `/`.
    pub fn read(text: &str) -> Result<PasswordHash, LineFault>
        ensures { hash_texts_of result ≡ hash_of text.now }
    {
        let (before, rest) = at_dollar(text);
        if !before.is_empty() {
            return Err(LineFault::Scheme);
        }
        read_behind_dollar(rest)
    }

    /// Whether it is the hash of the password. A password of more than 128 bytes is none, and nothing is hashed for it.
    pub fn accepts(&self, password: &[u8]) -> bool
        ensures { result ≡ accepts (hash_text_of self.now) password.now }
    {
        if password.len() > LONGEST {
            return false;
        }
        self.letters_of(password).as_slice() == self.sum.as_slice()
    }

    /// Whether it is the same hash: of one scheme, so many rounds, one salt and one sum.
    pub(crate) fn is_same(&self, other: &PasswordHash) -> bool
        ensures { IsTrue result ↔ (hash_text_of self.now ≡ hash_text_of other.now) }
    {
        self.scheme == other.scheme && self.rounds == other.rounds && self.has_same_texts(other)
    }

    // Whether the salt and the sum are the same.
    fn has_same_texts(&self, other: &PasswordHash) -> bool
        ensures { IsTrue result
            ↔ ((self.now.salt.items ≡ other.now.salt.items) × (self.now.sum.items ≡ other.now.sum.items)) }
    {
        self.salt.as_slice() == other.salt.as_slice() && self.sum.as_slice() == other.sum.as_slice()
    }

    // The letters of the password's sum.
    fn letters_of(&self, password: &[u8]) -> Letters
        requires { length password.now ≤ 128 }
        ensures { result.items ≡ crypt_text (hash_text_of self.now) password.now }
    {
        match self.scheme {
            Scheme::Sha256 => {
                let sum = crypt::<Sha256>(self.rounds, password, self.salt.as_slice());
                text_256(sum.as_slice())
            }
            Scheme::Sha512 => {
                let sum = crypt::<Sha512>(self.rounds, password, self.salt.as_slice());
                text_512(sum.as_slice())
            }
        }
    }
}

/// A hash without a round, which is nobody's.
pub(crate) fn nobodys_hash(scheme: Scheme) -> PasswordHash {
    PasswordHash {
        scheme,
        rounds: 0,
        salt: kept(b"................"),
        sum: Letters::new(),
    }
}

/// So many rounds by a password, for nothing.
pub(crate) fn hash_in_vain(rounds: Rounds, password: &[u8]) -> Sum
    requires { length password.now ≤ 128 }
    ensures { result.items ≡ sum_in_vain rounds password.now }
{
    match rounds.scheme {
        Scheme::Sha256 => rounds_in_vain::<Sha256>(rounds.count, password),
        Scheme::Sha512 => rounds_in_vain::<Sha512>(rounds.count, password),
    }
}

// Behind the first `$`: which scheme it is, and the rest.
fn read_behind_dollar(rest: &str) -> Result<PasswordHash, LineFault>
    ensures { hash_texts_of result ≡ behind_dollar rest.now }
{
    let (word, rest) = at_dollar(rest);
    let Some(scheme) = scheme_of(word) else {
        return Err(unread_scheme(word));
    };
    let (field, rest) = at_dollar(rest);
    read_behind_scheme(scheme, field, rest)
}

fn scheme_of(word: &str) -> Option<Scheme>
    ensures { result ≡ scheme_of word.now }
{
    if word == "6" {
        return Some(Scheme::Sha512);
    }
    if word == "5" {
        return Some(Scheme::Sha256);
    }
    None
}

// What is wrong with a word that is no scheme's.
fn unread_scheme(word: &str) -> LineFault
    ensures { result ≡ unread_scheme word.now }
{
    if word == "2a" || word == "2b" || word == "2y" {
        return LineFault::Bcrypt;
    }
    LineFault::Scheme
}

// The number of rounds, where it is told, a salt and a sum.
fn read_behind_scheme(scheme: Scheme, field: &str, rest: &str) -> Result<PasswordHash, LineFault>
    ensures { hash_texts_of result ≡ behind_scheme scheme field.now rest.now }
{
    let Some(digits) = rounds_field(field) else {
        return read_salted(scheme, 5000, field, rest);
    };
    let Some(rounds) = rounds_of(digits) else {
        return Err(LineFault::Rounds);
    };
    let (salt, sum) = at_dollar(rest);
    read_salted(scheme, rounds, salt, sum)
}

// What stands behind `rounds=`.
fn rounds_field(field: &str) -> Option<&str>
    ensures some { IfSome result (λ digits. (is_rounds field.now ≡ true)
        × (digits.now ≡ after_first is_equals field.now)) }
    ensures none { result ≡ None → is_rounds field.now ≡ false }
{
    let (word, digits) = field.split_once('=')?;
    if word == "rounds" { Some(digits) } else { None }
}

fn rounds_of(digits: &str) -> Option<u32>
    ensures { result ≡ rounds_in (numeral digits.now) }
{
    let rounds = number(digits)?;
    if rounds < LEAST || MOST < rounds {
        return None;
    }
    Some(rounds as u32)
}

fn read_salted(
    scheme: Scheme,
    rounds: u32,
    salt: &str,
    sum: &str,
) -> Result<PasswordHash, LineFault>
    ensures { hash_texts_of result ≡ salt_and_sum scheme rounds salt.now sum.now }
{
    if !is_salt(salt.as_bytes()) || !is_sum(scheme, sum.as_bytes()) {
        return Err(LineFault::Hash);
    }
    Ok(PasswordHash {
        scheme,
        rounds,
        salt: kept(salt.as_bytes()),
        sum: kept(sum.as_bytes()),
    })
}

fn is_salt(salt: &[u8]) -> bool
    ensures { result ≡ is_salt salt.now }
{
    salt.len() <= 16 && are_letters(salt)
}

fn is_sum(scheme: Scheme, sum: &[u8]) -> bool
    ensures { result ≡ is_sum scheme sum.now }
{
    sum.len() == letters_in(scheme) && are_letters(sum)
}

fn letters_in(scheme: Scheme) -> usize
    ensures { result ≡ letters_in scheme }
{
    match scheme {
        Scheme::Sha256 => 43,
        Scheme::Sha512 => 86,
    }
}

fn are_letters(text: &[u8]) -> bool
    ensures { result ≡ list_all is_letter text.now }
{
    text.iter().all(|b| b.is_ascii_alphanumeric() || (*b == b'.' || *b == b'/'))
}

// What stands before the first `$`, and behind it.
fn at_dollar(text: &str) -> (&str, &str)
    ensures before { result.0.now ≡ before_first is_dollar text.now }
    ensures behind { result.1.now ≡ after_first is_dollar text.now }
{
    match text.split_once('$') {
        Some(parts) => parts,
        None => (text, ""),
    }
}
