//! The tokens of the locks at a path and above it.
ghost use Rattle.std.specs.Prelude.{◌≡◌, ◌++◌, map, string_bytes, IfErr, IfOk, OnOk};
ghost use Rattle.dav_path_core.specs.Segments.{segments};
ghost use Rattle.dav_session_core.specs.Granting.{AreAbove, HaveTokens};
ghost use Rattle.dav_session_core.specs.Sessions.{live_of, Looks};
ghost use Rattle.dav_faults_core.specs.declared.faults.Fault.TheVariants as fault;
ghost use Rattle.dav_session_core.specs.Questions.{covering};

use super::Session;
use super::questions::copy_of;
use super::unlocking::depth_of;
use dav_faults_core::faults::Fault;
use dav_guarded_core::davpath::DavPath;
use dav_guarded_core::ls::DavLock;
use rand_core::Rng;
use std::alloc::{AllocError, Global};

impl<R: Rng> Session<R> {
    /// The tokens of all locks that stand at a path or above it (RFC 4918 section 6.5).
    /// `InsufficientStorage` alone.
    pub fn tokens_above(&mut self, alloc: Global, path: &DavPath) -> Result<Vec<String>, Fault>
        ensures ok { IfOk result (λ tokens. HaveTokens (live_of R.stream self.old)
            (segments path.now.bytes) (map string_bytes tokens.items)) }
        ensures only { IfOk result (λ tokens. AreAbove (live_of R.stream self.old)
            (segments path.now.bytes) (map string_bytes tokens.items)) }
        ensures err { IfErr result (λ e. e ≡ fault.InsufficientStorage) }
        ensures looks { Looks R.stream self.old self.new }
    {
        let mut tokens = Vec::new(alloc);
        let mut here = copy_of(path)?;
        for _ in 0..depth_of(path) {
            self.add_tokens_at(&here, &mut tokens)?;
            here = here.parent()?;
        }
        self.add_tokens_at(&here, &mut tokens)?;
        Ok(tokens)
    }

    // Adds the tokens of the locks that cover a path.
    fn add_tokens_at(&mut self, path: &DavPath, tokens: &mut Vec<String>) -> Result<(), Fault>
        ensures ok { OnOk result (map string_bytes tokens.new.items
            ≡ map string_bytes tokens.old.items ++ map (λ l. l.token)
            (covering R.stream self.old path.now)) }
        ensures err { IfErr result (λ e. e ≡ fault.InsufficientStorage) }
        ensures looks { Looks R.stream self.old self.new }
    {
        let locks = self.locks_at(copy_of(path)?)?;
        push_tokens(tokens, &locks)?;
        Ok(())
    }
}

fn push_tokens(tokens: &mut Vec<String>, locks: &[DavLock]) -> Result<(), AllocError>
    ensures { OnOk result (map string_bytes tokens.new.items ≡ map string_bytes tokens.old.items
        ++ map (λ l. l.token) locks.now) }
{
    for lock in locks {
        tokens.push(lock.token.clone()?)?;
    }
    Ok(())
}
