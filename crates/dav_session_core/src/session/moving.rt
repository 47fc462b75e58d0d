//! How a resource is moved, so that no lock stops it.
ghost use Rattle.std.specs.Prelude.{◌≡◌, IfErr, OnErr, OnOk};
ghost use Rattle.dav_path_core.specs.Segments.{segments};
ghost use Rattle.dav_session_core.specs.Moving.{CanMove, IsMoved};
ghost use Rattle.dav_session_core.specs.Sessions.{Acts, caller, live_of, state, Stays};
ghost use Rattle.dav_faults_core.specs.declared.faults.Fault.TheVariants as fault;

use super::Session;
use super::questions::refused;
use dav_faults_core::faults::Fault;
use dav_guarded_core::davpath::DavPath;
use dav_guarded_core::guarded::Command;
use rand_core::Rng;

impl<R: Rng> Session<R> {
    /// Moves what stands at a path, with all below it, to another place (RFC 4918 section 9.9).
    /// Where it can be moved, it is refused for memory alone, and then nothing has changed.
    pub fn relocate(&mut self, from: DavPath, to: DavPath) -> Result<(), Fault>
        ensures moved { CanMove (live_of R.stream self.old) (caller self.old) (segments from.bytes)
            (segments to.bytes) → OnOk result (IsMoved (caller self.old).now (segments from.bytes)
            (segments to.bytes) (live_of R.stream self.old) (state R.stream self.new)) }
        ensures err { CanMove (live_of R.stream self.old) (caller self.old) (segments from.bytes)
            (segments to.bytes) → IfErr result (λ e. e ≡ fault.InsufficientStorage) }
        ensures refused { OnErr result (Stays R.stream self.old self.new) }
        ensures acts { Acts R.stream self.old self.new }
    {
        match self.ask(Command::Move { from, to }) {
            Ok(_) => Ok(()),
            Err(refusal) => Err(refused(&None, refusal)),
        }
    }
}
