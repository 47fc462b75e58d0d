//! How resources are copied, so that no lock stops it half-way.
ghost use Rattle.std.specs.Prelude.{◌≡◌, Ok, IfErr, OnErr, OnOk};
ghost use Rattle.dav_path_core.specs.Segments.{segments};
ghost use Rattle.dav_guarded_core.specs.Requests.{Command as command, Reply};
ghost use Rattle.dav_guarded_core.specs.Step.{Step};
ghost use Rattle.dav_session_core.specs.Callers.{asking};
ghost use Rattle.dav_session_core.specs.Copying.{IsCopied, IsPartlyCopied};
ghost use Rattle.dav_session_core.specs.Copying.{NotCopied, copies_made};
ghost use Rattle.dav_session_core.specs.Sessions.{Acts, caller, live_after, live_of, state};
ghost use Rattle.dav_faults_core.specs.declared.faults.Fault.TheVariants as fault;
ghost use Rattle.dav_session_core.specs.Unhindered.{WhereReady, ends_of};

use super::Session;
use super::questions::{copy_of, refused};
use dav_faults_core::faults::Fault;
use dav_guarded_core::davpath::DavPath;
use dav_guarded_core::guarded::Command;
use rand_core::Rng;

/// A resource that is copied, and the place that it is copied to (own).
#[derive(Drop)]
pub struct Transfer {
    /// The path of the resource.
    pub from: DavPath,
    /// The path of the copy.
    pub to: DavPath,
}

impl<R: Rng> Session<R> {
    /// Copies resources one after another (RFC 4918 section 9.8.3). Where these are ready to be
    /// copied, none of the requests is refused but for memory. What is left is what the copies make
    /// of the map, one after another.
    ///
    /// `InsufficientStorage` where there is no memory for one of them; those before it are copied
    /// then.
    pub fn copy_all(&mut self, transfers: &[Transfer]) -> Result<(), Fault>
        ensures copied { WhereReady (live_of R.stream self.old) (caller self.old)
            (ends_of transfers.now) (λ deep from to. OnOk result
            (IsCopied (caller self.old).now deep from to (live_of R.stream self.old)
            (live_after R.stream self.old self.new))) }
        ensures made { OnOk result (copies_made (caller self.old).now (ends_of transfers.now)
            (live_of R.stream self.old).map
            ≡ Ok (tt, (live_after R.stream self.old self.new).map)) }
        ensures begun { WhereReady (live_of R.stream self.old) (caller self.old)
            (ends_of transfers.now) (λ deep from to. OnErr result
            (IsPartlyCopied (caller self.old).now deep from to (live_of R.stream self.old)
            (live_after R.stream self.old self.new))) }
        ensures err { WhereReady (live_of R.stream self.old) (caller self.old)
            (ends_of transfers.now) (λ deep from to. IfErr result
            (λ e. e ≡ fault.InsufficientStorage)) }
        ensures acts { Acts R.stream self.old self.new }
    {
        for transfer in transfers {
            self.copy_one(transfer)?;
        }
        Ok(())
    }

    // Copies one resource.
    fn copy_one(&mut self, transfer: &Transfer) -> Result<(), Fault>
        ensures ok { OnOk result ((reply : Reply)
            × Step (state R.stream self.old) (asking (caller self.old)
            (command.Copy (segments transfer.now.from.bytes) (segments transfer.now.to.bytes)))
            (Ok reply) (state R.stream self.new)) }
        ensures err { IfErr result (λ e. NotCopied (caller self.old) (state R.stream self.old)
            (segments transfer.now.from.bytes) (segments transfer.now.to.bytes) e
            (state R.stream self.new)) }
        ensures acts { Acts R.stream self.old self.new }
    {
        let from = copy_of(&transfer.from)?;
        let to = copy_of(&transfer.to)?;
        match self.ask(Command::Copy { from, to }) {
            Ok(_) => return Ok(()),
            Err(refusal) => return Err(refused(&None, refusal)),
        }
    }
}
