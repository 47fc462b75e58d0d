//! How properties are set and removed.
ghost use Rattle.std.specs.Prelude.{◌≡◌, map, IfErr, OnErr, OnOk};
ghost use Rattle.dav_path_core.specs.Segments.{segments};
ghost use Rattle.dav_files_core.specs.Properties.{patch_update};
ghost use Rattle.dav_session_core.specs.Patching.{IsPatched, KeepsProperties};
ghost use Rattle.dav_session_core.specs.PatchRefusals.{patch_fault};
ghost use Rattle.dav_session_core.specs.Sessions.{Acts, caller, live_of, state, Stays};
ghost use Rattle.dav_guarded_core.specs.Served.{refusal_of};

use super::Session;
use dav_faults_core::faults::Fault;
use dav_guarded_core::davpath::DavPath;
use dav_guarded_core::errors::FsError;
use dav_guarded_core::fs::DavProp;
use dav_guarded_core::guarded::{Command, Refusal};
use rand_core::Rng;

impl<R: Rng> Session<R> {
    /// Sets and removes properties of what stands at a path, one after another, all or none (RFC
    /// 4918 section 9.2).
    ///
    /// `Locked` where a lock stands in the way, with its path; `NotFound` where nothing stands
    /// there.
    pub fn patch(&mut self, path: DavPath, patch: Vec<(bool, DavProp)>) -> Result<(), Fault>
        ensures ok { OnOk result (IsPatched (segments path.bytes) (map patch_update patch.items)
            (live_of R.stream self.old) (state R.stream self.new)) }
        ensures err { IfErr result (λ e. KeepsProperties (live_of R.stream self.old)
            (caller self.old) (segments path.bytes) e) }
        ensures refused { OnErr result (Stays R.stream self.old self.new) }
        ensures acts { Acts R.stream self.old self.new }
    {
        match self.ask(Command::PatchProps { path, patch }) {
            Ok(_) => Ok(()),
            Err(refusal) => Err(unpatched(refusal)),
        }
    }
}

// Why properties aren't changed.
fn unpatched(refusal: Refusal) -> Fault
    ensures { result ≡ patch_fault (refusal_of refusal) }
{
    match refusal {
        Refusal::Locked(lock) => Fault::Locked(lock.path),
        Refusal::OutOfMemory | Refusal::Fs(FsError::InsufficientStorage) =>
            Fault::InsufficientStorage,
        Refusal::Fs(_) | Refusal::NoLock => Fault::NotFound,
    }
}
