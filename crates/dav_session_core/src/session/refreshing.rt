//! How a caller gives a lock of its own another end.
ghost use Rattle.std.specs.Prelude.{◌≡◌, ◌⊎◌, true, string_bytes, IfErr, OnErr, OnOk};
ghost use Rattle.dav_path_core.specs.Segments.{segments};
ghost use Rattle.dav_session_core.specs.Conditions.{has_token};
ghost use Rattle.dav_session_core.specs.Refreshing.{RefreshesOwn};
ghost use Rattle.dav_session_core.specs.Sessions.{caller, live_of, Looks, Requests, state};
ghost use Rattle.dav_session_core.specs.Unlocking.{IsAnothers};
ghost use Rattle.dav_faults_core.specs.declared.faults.Fault.TheVariants as fault;

use super::Session;
use dav_faults_core::faults::Fault;
use dav_guarded_core::davpath::DavPath;
use dav_guarded_core::guarded::Command;
use rand_core::Rng;

impl<R: Rng> Session<R> {
    /// Whether the caller may give the lock with a token that covers the path another end (RFC 4918
    /// section 9.10.2).
    ///
    /// `Forbidden` where a lock with the token at the path or above has another principal.
    pub fn check_refresh(&mut self, path: &DavPath, token: &str) -> Result<(), Fault>
        ensures own { OnOk result (¬ IsAnothers (live_of R.stream self.old) (caller self.old)
            (segments path.now.bytes) token.now) }
        ensures err { IfErr result (λ e. (e ≡ fault.InsufficientStorage)
            ⊎ ((e ≡ fault.Forbidden) × IsAnothers (live_of R.stream self.old) (caller self.old)
            (segments path.now.bytes) token.now)) }
        ensures looks { Looks R.stream self.old self.new }
    {
        self.check_own(path, token)
    }

    /// Gives the caller's own lock with a token, which covers the path, another end (RFC 4918
    /// section 9.10.2). The timeout is in seconds; none for no end. `InsufficientStorage` alone.
    #[tactic(auto, using(crate::proofs::Looking::requests_follow))]
    pub fn refresh(
        &mut self,
        path: DavPath,
        token: String,
        timeout: Option<u64>,
    ) -> Result<(), Fault>
        requires covered { has_token (live_of R.stream self.old) (segments path.bytes)
            (string_bytes token) ≡ true }
        requires own { ¬ IsAnothers (live_of R.stream self.old) (caller self.old)
            (segments path.bytes) (string_bytes token) }
        ensures ok { OnOk result (RefreshesOwn (live_of R.stream self.old) (caller self.old)
            (segments path.bytes) (string_bytes token) timeout (state R.stream self.new)) }
        ensures err { IfErr result (λ e. e ≡ fault.InsufficientStorage) }
        ensures refused { OnErr result (Looks R.stream self.old self.new) }
        ensures requests { Requests R.stream self.old self.new }
    {
        match self.ask(Command::Refresh {
            path,
            token,
            timeout,
        }) {
            Ok(_) => Ok(()),
            Err(_) => Err(Fault::InsufficientStorage),
        }
    }
}
