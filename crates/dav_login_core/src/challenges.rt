//! The field that asks for a name and a password.
ghost use Rattle.std.specs.Prelude.{◌≡◌, ◌↔◌, IfOk, IsErrOf, false};
ghost use Rattle.http_header.specs.FieldValue.{plain_value};
ghost use Rattle.dav_login_core.specs.Challenges.{challenge, is_realm, is_realm_byte};
ghost use Rattle.dav_login_core.specs.declared.challenges.LoginError.TheVariants as error;

use http_header::{HeaderValue, HeaderValueError};
use std::alloc::{AllocError, Global};
use std::fmt;

/// Why there is no login (own).
#[derive(Debug, Clone, Copy, PartialEq, Eq)]
pub enum LoginError {
    /// There is no memory.
    OutOfMemory,
    /// The realm has a control character other than a tab, or a `"` or `\`.
    Realm,
}

impl From<AllocError> for LoginError {
    ghost from_gives = { λ _ e. e ≡ error.OutOfMemory };

    fn from(_error: AllocError) -> LoginError {
        LoginError::OutOfMemory
    }
}

impl fmt::Display for LoginError {
    fn fmt<W: fmt::Write>(&self, f: &mut fmt::Formatter<W>) -> fmt::Result {
        f.write_str(match self {
            LoginError::OutOfMemory => "out of memory",
            LoginError::Realm => "a control character, a quote or a backslash in the realm",
        })
    }
}

impl std::error::Error for LoginError {}

/// The value of the field `WWW-Authenticate` for a realm (RFC 7617 sections 2 and 2.1).
pub(crate) fn challenge(alloc: Global, realm: &str) -> Result<HeaderValue, LoginError>
    ensures ok { IfOk result (λ value. value ≡ plain_value (challenge realm.now)) }
    ensures realm { IsErrOf result LoginError.Realm ↔ (is_realm realm.now ≡ false) }
{
    if !is_realm(realm.as_bytes()) {
        return Err(LoginError::Realm);
    }
    let text = format!(in alloc; "Basic realm=\"{realm}\", charset=\"UTF-8\"")?;
    match HeaderValue::from_string(text) {
        Ok(value) => Ok(value),
        Err(HeaderValueError::OutOfMemory) => Err(LoginError::OutOfMemory),
        Err(HeaderValueError::Invalid) => unreachable!(),
    }
}

fn is_realm(realm: &[u8]) -> bool
    ensures { result ≡ is_realm realm.now }
{
    realm.iter().all(|b| is_realm_byte(*b))
}

fn is_realm_byte(b: u8) -> bool
    ensures { result ≡ is_realm_byte b }
{
    (b == b'\t' || (b >= 32 && b != 127)) && !(b == b'"' || b == b'\\')
}
