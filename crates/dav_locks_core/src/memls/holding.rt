//! Who holds what, and the tests of the locks on the way down to a path.
ghost use Rattle.std.specs.Prelude.{◌≡◌, Bool, map, string_bytes, bytes_eq};
ghost use Rattle.std.specs.List.{list_any};
ghost use Rattle.dav_locks_core.specs.Lock.{Lock};
ghost use Rattle.dav_locks_core.specs.Locks.{same_text, is_held_by};
ghost use Rattle.dav_locks_core.specs.Calls.{lent_text, lock_caller};

use crate::ls::DavLock;

/// A lock that is wanted at the path.
#[derive(Clone, Copy)]
pub(super) struct Wanted {
    pub(super) shared: bool,
}

/// Who asks for a change.
#[derive(Clone, Copy)]
pub(super) struct Caller<'a> {
    pub(super) principal: Option<&'a str>,
    pub(super) ignore_principal: bool,
    pub(super) tokens: &'a [String],
}

/// What is not held by the one who asks.
#[derive(Clone, Copy)]
pub(super) struct Unheld<'a> {
    pub(super) caller: Caller<'a>,
}

/// A token.
#[derive(Clone, Copy)]
pub(super) struct WithToken<'a> {
    pub(super) token: &'a str,
}

/// A test of the locks on the way to a path.
pub(super) trait LockTest {
    ghost test: { Self → Bool → Lock → Bool };

    /// Whether a lock passes, which stands at the path itself or above it.
    fn passes(&self, at_path: bool, lock: &DavLock) -> bool
        ensures { result ≡ test self.now at_path lock.now };
}

/// The locks that refuse the one that is wanted.
impl LockTest for Wanted {
    ghost use Rattle.dav_locks_core.specs.Private.WayTests.{refuses_wanted};

    ghost test = { λ w. refuses_wanted w.shared };

    fn passes(&self, at_path: bool, lock: &DavLock) -> bool {
        !(lock.shared && self.shared) && (at_path || lock.deep)
    }
}

/// The locks that cover the path and are held.
impl LockTest for Caller<'_> {
    ghost use Rattle.dav_locks_core.specs.Calls.{lock_caller};
    ghost use Rattle.dav_locks_core.specs.Private.WayTests.{is_covering_held};

    ghost test = { λ a. is_covering_held (lock_caller a.principal a.ignore_principal a.tokens.now) };

    fn passes(&self, at_path: bool, lock: &DavLock) -> bool {
        (at_path || lock.deep) && is_held(lock, self)
    }
}

/// The locks that cover the path and aren't held.
impl LockTest for Unheld<'_> {
    ghost use Rattle.dav_locks_core.specs.Calls.{lock_caller};
    ghost use Rattle.dav_locks_core.specs.Private.WayTests.{is_covering_unheld};

    ghost test = { λ c. is_covering_unheld (lock_caller c.caller.principal c.caller.ignore_principal c.caller.tokens.now) };

    fn passes(&self, at_path: bool, lock: &DavLock) -> bool {
        (at_path || lock.deep) && !is_held(lock, &self.caller)
    }
}

/// The locks with a token.
impl LockTest for WithToken<'_> {
    ghost use Rattle.dav_locks_core.specs.Private.WayTests.{has_that_token};

    ghost test = { λ n. has_that_token n.token.now };

    fn passes(&self, _at_path: bool, lock: &DavLock) -> bool {
        lock.token.as_str() == self.token
    }
}

// Whether the lock's token is submitted, under its principal unless principals are ignored.
fn is_held(lock: &DavLock, who: &Caller) -> bool
    ensures { result ≡ is_held_by lock.now (lock_caller who.now.principal who.now.ignore_principal who.now.tokens.now) }
{
    has_token(who.tokens, &lock.token)
        && (who.ignore_principal || is_principal(lock, who.principal))
}

fn is_principal(lock: &DavLock, principal: Option<&str>) -> bool
    ensures { result ≡ same_text lock.now.principal (lent_text principal.entry) }
{
    match (&lock.principal, principal) {
        (None, None) => true,
        (None, Some(_)) => false,
        (Some(_), None) => false,
        (Some(a), Some(b)) => a.as_str() == b,
    }
}

#[tactic(auto, using(dav_path_core::proofs::lists::EachLemmas::any_map))]
fn has_token(tokens: &[String], token: &String) -> bool
    ensures { result ≡ list_any (λ t. bytes_eq t (string_bytes token.now)) (map string_bytes tokens.now) }
{
    any_token(tokens, token)
}

fn any_token(tokens: &[String], token: &str) -> bool
    ensures { result ≡ list_any (λ t. bytes_eq (string_bytes t) token.now) tokens.now }
{
    tokens.iter().any(|other| other.as_str() == token)
}
