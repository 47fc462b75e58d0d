//! What conditions ask a session for.
ghost use Rattle.std.specs.Prelude.{◌≡◌, ◌≢◌, [], false, bytes_eq, IfOk, IfErr, OnOk};
ghost use Rattle.std.specs.List.{list_any};
ghost use Rattle.dav_path_core.specs.Segments.{segments};
ghost use Rattle.dav_files_core.specs.Resources.{IsResourceMap};
ghost use Rattle.dav_session_core.specs.Conditions.{has_token};
ghost use Rattle.dav_session_core.specs.LocksInTheWay.{IsRefusedBy};
ghost use Rattle.dav_session_core.specs.Sessions.{KeepsRoom, live_of, Looks, state};
ghost use Rattle.dav_faults_core.specs.declared.faults.Fault.TheVariants as fault;
ghost use Rattle.dav_session_core.specs.Questions.{against_change, covering};

use super::Session;
use super::questions::copy_of;
use dav_faults_core::faults::Fault;
use dav_guarded_core::davpath::DavPath;
use dav_guarded_core::guarded::{Command, Refusal, Reply};
use dav_guarded_core::ls::DavLock;
use rand_core::Rng;
use std::convert::AsStr;

impl<R: Rng> Session<R> {
    /// Whether the locks let the caller change what stands at a path (RFC 4918 section 7). `Locked`
    /// where one stands in the way, with its path.
    pub fn check(&mut self, path: DavPath) -> Result<(), Fault>
        ensures ok { OnOk result (against_change R.stream self.old path false ≡ []) }
        ensures err { IfErr result (λ e. IsRefusedBy (against_change R.stream self.old path false)
            e) }
        ensures looks { Looks R.stream self.old self.new }
        ensures shape { OnOk result (IsResourceMap (state R.stream self.new).map) }
    {
        self.check_reached(path, false)
    }

    /// Whether the locks let the caller change what stands at a path, and where it is deep all
    /// below it (RFC 4918 section 7). `Locked` where one stands in the way, with its path.
    pub fn check_reached(&mut self, path: DavPath, deep: bool) -> Result<(), Fault>
        ensures ok { OnOk result (against_change R.stream self.old path deep ≡ []) }
        ensures err { IfErr result (λ e. IsRefusedBy
            (against_change R.stream self.old path deep) e) }
        ensures looks { Looks R.stream self.old self.new }
        ensures shape { OnOk result (IsResourceMap (state R.stream self.new).map) }
    {
        match self.look(Command::Check { path, deep }) {
            Ok(_) => Ok(()),
            Err(Refusal::Locked(lock)) => Err(Fault::Locked(lock.path)),
            Err(_) => Err(Fault::InsufficientStorage),
        }
    }

    /// The locks that cover a path, from the root down, but those that have expired (RFC 4918
    /// section 6). `InsufficientStorage` where there is no memory to show one.
    pub fn locks_at(&mut self, path: DavPath) -> Result<Vec<DavLock>, Fault>
        ensures ok { IfOk result (λ locks. locks.items ≡ covering R.stream self.old path) }
        ensures err { IfErr result (λ e. (e ≡ fault.InsufficientStorage)
            × (covering R.stream self.old path ≢ [])) }
        ensures looks { Looks R.stream self.old self.new }
        ensures room { KeepsRoom self.old self.new }
    {
        match self.look(Command::Discover { path }) {
            Ok(Reply::Locks(locks)) => Ok(locks),
            _ => Err(Fault::InsufficientStorage),
        }
    }
}

/// Whether a lock of these has the token.
pub fn any_has(locks: &[DavLock], token: &str) -> bool
    ensures { result ≡ list_any (λ l. bytes_eq l.token token.now) locks.now }
{
    locks.iter().any(|lock| lock.token.as_str() == token)
}

/// Whether a lock with the token covers the path. `InsufficientStorage` alone.
pub fn has_token<R: Rng>(
    session: &mut Session<R>,
    path: &DavPath,
    token: &str,
) -> Result<bool, Fault>
    ensures ok { IfOk result (λ has. has ≡ has_token (live_of R.stream session.old)
        (segments path.now.bytes) token.now) }
    ensures err { IfErr result (λ e. e ≡ fault.InsufficientStorage) }
    ensures looks { Looks R.stream session.old session.new }
{
    let locks = session.locks_at(copy_of(path)?)?;
    Ok(any_has(&locks, token))
}
