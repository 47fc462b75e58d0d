//! What calls on locks share, and the trait of a lock system.
ghost use Rattle.std.specs.Prelude.{◌≡◌, ◌≢◌, ◌++◌, ◌∷◌, [], ℕ, true, Some, None, remove, set, get_or, IfOk, IfErr, OnOk, OnErr};
ghost use Rattle.dav_path_core.specs.Segments.{segments};
ghost use Rattle.dav_locks_core.specs.Locks.{lock_conflicts, check_conflicts, found_token, refreshed_lock, discovered_locks, without_below};
ghost use Rattle.dav_locks_core.specs.Exclusive.{Exclusive};
ghost use Rattle.dav_locks_core.specs.Held.{HoldsExclusive, HoldsBelow};
ghost use Rattle.dav_locks_core.specs.Tokens.{token_from};
ghost use Rattle.dav_locks_core.specs.Calls.{Shows, ShowsOnly, RefusesRefresh, lent_text, lock_caller};
ghost use Rattle.dav_locks_core.specs.NewLock.{new_lock};
ghost use Rattle.dav_locks_core.specs.Stale.{without_stale};

use dav_path_core::davpath::DavPath;
use dav_path_core::util::Moment;
use rand_core::Rng;
use std::alloc::{AllocError, AllocFailed};
use std::marker::Model;
use thiserror::Error;

/// A lock on a path (RFC 4918 section 6).
#[derive(Debug, Clone, Drop)]
pub struct DavLock {
    /// The token that names it, a URN.
    pub token: String,
    /// The path that it stands at.
    pub path: DavPath,
    /// Who asked for it.
    pub principal: Option<String>,
    /// The owner's text, kept as given.
    pub owner: Option<String>,
    /// Its moment and its timeout together, at most the greatest moment; none without a timeout. It ends then.
    pub timeout_at: Option<Moment>,
    /// The timeout that was asked for, in seconds.
    pub timeout: Option<u64>,
    /// Others may hold it too.
    pub shared: bool,
    /// It covers every path below, too.
    pub deep: bool,
}

impl Model for DavLock {
    ghost use Rattle.std.specs.Prelude.{option_map, string_bytes};
    ghost use Rattle.dav_locks_core.specs.Lock.{Lock};

    ghost Value = { Lock };

    ghost view = { λ l. record {
      token = string_bytes l.token;
      path = l.path;
      principal = option_map string_bytes l.principal;
      owner = option_map string_bytes l.owner;
      timeout_at = option_map (λ m. m.0) l.timeout_at;
      timeout = l.timeout;
      shared = l.shared;
      deep = l.deep;
    } };
}

/// Why a call on locks is refused. It displays as its name.
#[derive(Debug, Drop, Error)]
pub enum LockError {
    /// This lock stands in the way.
    #[error("Conflict")]
    Conflict(DavLock),
    /// There is no memory for it.
    #[error("OutOfMemory")]
    OutOfMemory,
}

impl From<AllocError> for LockError {
    ghost use Rattle.std.specs.Prelude.{◌≡◌};
    ghost use Rattle.dav_locks_core.specs.declared.ls.LockError.TheVariants.{OutOfMemory};

    ghost from_gives = { λ _ e. e ≡ OutOfMemory };

    fn from(_: AllocError) -> Self {
        LockError::OutOfMemory
    }
}

impl<T: Drop> From<AllocFailed<T>> for LockError {
    ghost use Rattle.std.specs.Prelude.{◌≡◌};
    ghost use Rattle.dav_locks_core.specs.declared.ls.LockError.TheVariants.{OutOfMemory};

    ghost from_gives = { λ _ e. e ≡ OutOfMemory };

    fn from(_: AllocFailed<T>) -> Self {
        LockError::OutOfMemory
    }
}

/// No lock with that token stands at the path or above it. It displays as its name.
#[derive(Debug, Drop, Error, Clone, Copy, PartialEq, Eq)]
#[error("NoLock")]
pub struct NoLock;

/// Why a refresh is refused. It displays as its name.
#[derive(Debug, Drop, Error, Clone, Copy, PartialEq, Eq)]
pub enum RefreshError {
    /// No lock with that token stands at the path or above it.
    #[error("NoLock")]
    NoLock,
    /// There is no memory for the answer.
    #[error("OutOfMemory")]
    OutOfMemory,
}

impl From<AllocError> for RefreshError {
    ghost use Rattle.std.specs.Prelude.{◌≡◌};
    ghost use Rattle.dav_locks_core.specs.declared.ls.RefreshError.TheVariants.{OutOfMemory};

    ghost from_gives = { λ _ e. e ≡ OutOfMemory };

    fn from(_: AllocError) -> Self {
        RefreshError::OutOfMemory
    }
}

/// A keeper of locks (RFC 4918 sections 6 and 7). Of every implementation, seen as one list of locks in the order of
/// granting: each call first drops the locks that have expired at its moment, also where it is then refused; it answers, and
/// leaves the list, as the definitions say; a refusal leaves the other locks, and the generator, as they were; two locks that
/// cover one path are both shared.
pub trait DavLockSystem {
    ghost use Rattle.std.specs.Prelude.{List};
    ghost use Rattle.dav_locks_core.specs.Lock.{Lock};

    /// The locks, in the order of granting.
    ghost locks: { Self → List Lock };

    /// Drops the locks that have expired at a moment: those with a `timeout_at` that isn't after it (RFC 4918 section 6.6).
    /// Takes no memory.
    fn expire(&mut self, now: Moment)
        ensures left { locks self.new ≡ without_stale now.0 (locks self.old) }
        ensures exclusive { Exclusive (locks self.new) };

    /// Grants a lock of a path, unless one stands in the way, which is shown (RFC 4918 section 9.10). Tokens and principals
    /// play no part. `OutOfMemory` may come first. Refused, it draws nothing.
    fn lock<R: Rng>(
        &mut self,
        path: &DavPath,
        principal: Option<&str>,
        owner: Option<&str>,
        timeout: Option<u64>,
        shared: bool,
        deep: bool,
        now: Moment,
        rng: &mut R,
    ) -> Result<DavLock, LockError>
        ensures free { OnOk result (lock_conflicts (without_stale now.0 (locks self.old)) (segments path.now.bytes) shared deep ≡ []) }
        ensures granted { IfOk result (λ lock. lock ≡ new_lock (token_from (R.stream rng.old)).0 path.now
            (lent_text principal.entry) (lent_text owner.entry) timeout shared deep now.0) }
        ensures added { IfOk result (λ lock. locks self.new ≡ without_stale now.0 (locks self.old) ++ lock ∷ []) }
        ensures drawn { OnOk result (R.stream rng.new ≡ (token_from (R.stream rng.old)).1) }
        ensures shown { IfErr result (λ e. Shows (lock_conflicts (without_stale now.0 (locks self.old)) (segments path.now.bytes) shared deep) e) }
        ensures left { OnErr result (locks self.new ≡ without_stale now.0 (locks self.old)) }
        ensures undrawn { OnErr result (R.stream rng.new ≡ R.stream rng.old) }
        ensures exclusive { Exclusive (locks self.new) };

    /// Ends the lock with that token at the path or above it: the one nearest to the root, of these the first granted
    /// (RFC 4918 section 9.11). The principal isn't looked at. Takes no memory.
    fn unlock(&mut self, path: &DavPath, token: &str, now: Moment) -> Result<(), NoLock>
        ensures done { OnOk result ((k : ℕ) × (found_token (without_stale now.0 (locks self.old)) (segments path.now.bytes) token.now ≡ Some k)
            × (locks self.new ≡ remove (without_stale now.0 (locks self.old)) k)) }
        ensures none { OnErr result ((found_token (without_stale now.0 (locks self.old)) (segments path.now.bytes) token.now ≡ None)
            × (locks self.new ≡ without_stale now.0 (locks self.old))) }
        ensures exclusive { Exclusive (locks self.new) };

    /// Gives the lock that `unlock` would end another timeout, from a moment on, and answers the lock as it is then
    /// (RFC 4918 section 9.10.2). It keeps its place. `OutOfMemory` only where there is such a lock.
    fn refresh(
        &mut self,
        path: &DavPath,
        token: &str,
        timeout: Option<u64>,
        now: Moment,
    ) -> Result<DavLock, RefreshError>
        ensures done { IfOk result (λ lock. (k : ℕ) × (found_token (without_stale now.0 (locks self.old)) (segments path.now.bytes) token.now ≡ Some k)
            × (lock ≡ refreshed_lock now.0 timeout (get_or (without_stale now.0 (locks self.old)) k lock))
            × (locks self.new ≡ set (without_stale now.0 (locks self.old)) k lock)) }
        ensures refused { IfErr result (λ e. RefusesRefresh (found_token (without_stale now.0 (locks self.old)) (segments path.now.bytes) token.now) e) }
        ensures left { OnErr result (locks self.new ≡ without_stale now.0 (locks self.old)) }
        ensures exclusive { Exclusive (locks self.new) };

    /// Whether a change may be made at a path, and where it is deep below it too, by who submits those tokens (RFC 4918
    /// section 7). A lock that refuses it is shown. `OutOfMemory` only where one refuses it.
    fn check(
        &mut self,
        path: &DavPath,
        principal: Option<&str>,
        ignore_principal: bool,
        deep: bool,
        tokens: &[String],
        now: Moment,
    ) -> Result<(), LockError>
        ensures passes { OnOk result (check_conflicts (without_stale now.0 (locks self.old)) (segments path.now.bytes) deep
            (lock_caller principal.entry ignore_principal tokens.now) ≡ []) }
        ensures shown { IfErr result (λ e. ShowsOnly (check_conflicts (without_stale now.0 (locks self.old)) (segments path.now.bytes) deep
            (lock_caller principal.entry ignore_principal tokens.now)) e) }
        // Where it passes, every exclusive lock that covers the path is held, and where it is deep every lock at or below.
        ensures held { OnOk result (HoldsExclusive (without_stale now.0 (locks self.old)) (segments path.now.bytes)
            (lock_caller principal.entry ignore_principal tokens.now)) }
        ensures held_below { OnOk result (deep ≡ true → HoldsBelow (without_stale now.0 (locks self.old)) (segments path.now.bytes)
            (lock_caller principal.entry ignore_principal tokens.now)) }
        ensures left { locks self.new ≡ without_stale now.0 (locks self.old) }
        ensures exclusive { Exclusive (locks self.new) };

    /// The locks that cover a path, from the root down, then in the order of granting. `AllocError` only where there is one.
    fn discover(&mut self, path: &DavPath, now: Moment) -> Result<Vec<DavLock>, AllocError>
        ensures discovered { IfOk result (λ v. v.items ≡ discovered_locks (without_stale now.0 (locks self.old)) (segments path.now.bytes)) }
        ensures refused { OnErr result (discovered_locks (without_stale now.0 (locks self.old)) (segments path.now.bytes) ≢ []) }
        ensures left { locks self.new ≡ without_stale now.0 (locks self.old) }
        ensures exclusive { Exclusive (locks self.new) };

    /// Drops the locks at a path and below it. Takes no memory.
    fn delete(&mut self, path: &DavPath, now: Moment)
        ensures left { locks self.new ≡ without_below (segments path.now.bytes) (without_stale now.0 (locks self.old)) }
        ensures exclusive { Exclusive (locks self.new) };
}
