//! The field `Authorization` of the scheme Basic (RFC 7617).
ghost use Rattle.std.specs.Prelude.{◌≡◌, string_bytes, IfOk};
ghost use Rattle.std.specs.List.{after_first, before_first};
ghost use Rattle.base64.specs.Engines.{standard};
ghost use Rattle.base64.specs.GeneralPurpose.{decode_of};
ghost use Rattle.dav_users_core.specs.Basic.{GivesCredentials, behind_blanks, given_by, given_by_text};
ghost use Rattle.dav_users_core.specs.Basic.{given_in, is_basic, is_blank_byte, latin_text, parted_at_colon};

use crate::users::at_colon;
use base64::DecodeAllocError;
use base64::engine::general_purpose::STANDARD;
use std::alloc::{AllocError, Global};

/// A name and a password that somebody sent (RFC 7617 section 2).
#[derive(Drop)]
pub struct Credentials {
    /// The name. It has no colon.
    pub name: String,
    /// The password.
    pub password: String,
}

impl Credentials {
    /// Reads the value of a field `Authorization`: the word `Basic`, in any case, blanks, and in
    /// base64, with its padding, a name, a colon and a password (RFC 7617 section 2). These are in
    /// UTF-8; where they are not, all of them are read as ISO 8859-1 (section 2.1). None for any other
    /// value. `AllocError` where there is no memory.
    #[tactic(auto, using(crate::proofs::Texts::utf8_tests))]
    pub fn read(alloc: Global, value: &[u8]) -> Result<Option<Credentials>, AllocError>
        ensures { GivesCredentials result (given_by value.now) }
    {
        let Ok(text) = str::from_utf8(value) else {
            return Ok(None);
        };
        read_text(alloc, text)
    }
}

// The same of a value that is UTF-8.
fn read_text(alloc: Global, text: &str) -> Result<Option<Credentials>, AllocError>
    ensures { GivesCredentials result (given_by_text text.now) }
{
    let (word, rest) = at_blank(text);
    if !is_basic(word) {
        return Ok(None);
    }
    decoded(alloc, behind_blanks(rest.as_bytes()))
}

// What stands before the first blank, and behind it.
fn at_blank(text: &str) -> (&str, &str)
    ensures before { result.0.now ≡ before_first is_blank_byte text.now }
    ensures behind { result.1.now ≡ after_first is_blank_byte text.now }
{
    match text.split_once(' ') {
        Some(parts) => parts,
        None => (text, ""),
    }
}

fn is_basic(word: &str) -> bool
    ensures { result ≡ is_basic word.now }
{
    word.eq_ignore_ascii_case("basic")
}

// The bytes behind the blanks in front.
fn behind_blanks(bytes: &[u8]) -> &[u8]
    ensures { result.now ≡ behind_blanks bytes.now }
{
    let mut rest = bytes;
    'passing: while let Some((b' ', more)) = rest.split_first() {
        rest = more;
    }
    rest
}

// The name and the password that stand there in base64.
#[tactic(auto, using(crate::proofs::Texts::utf8_tests))]
fn decoded(alloc: Global, token: &[u8]) -> Result<Option<Credentials>, AllocError>
    ensures { GivesCredentials result (given_in (decode_of standard token.now)) }
{
    let bytes = match STANDARD.decode(alloc, token) {
        Ok(bytes) => bytes,
        Err(DecodeAllocError::OutOfMemory) => return Err(AllocError),
        Err(_) => return Ok(None),
    };
    let Ok(text) = str::from_utf8(&bytes) else {
        let text = latin_text(alloc, &bytes)?;
        return parted(alloc, text.as_str());
    };
    parted(alloc, text)
}

// The text of bytes that are ISO 8859-1.
fn latin_text(alloc: Global, bytes: &[u8]) -> Result<String, AllocError>
    ensures { IfOk result (λ text. string_bytes text ≡ latin_text bytes.now) }
{
    let mut text = String::new(alloc);
    'reading: for byte in bytes {
        text.push(char::from(*byte))?;
    }
    Ok(text)
}

fn parted(alloc: Global, text: &str) -> Result<Option<Credentials>, AllocError>
    ensures { GivesCredentials result (parted_at_colon text.now) }
{
    let Some((name, password)) = at_colon(text) else {
        return Ok(None);
    };
    let name = String::from_str(alloc, name)?;
    let password = String::from_str(alloc, password)?;
    Ok(Some(Credentials { name, password }))
}
