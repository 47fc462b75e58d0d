//! Commands on the locks.
ghost use Rattle.std.specs.Prelude.{◌≡◌, false, []};
ghost use Rattle.dav_files_core.specs.Resources.{IsResourceMap};
ghost use Rattle.dav_locks_core.specs.Exclusive.{Exclusive};
ghost use Rattle.dav_locks_core.specs.Stale.{without_stale};
ghost use Rattle.dav_guarded_core.specs.Checks.{caller_of, checks, refusing};
ghost use Rattle.dav_guarded_core.specs.ResourceStep.{is_on_map, locks_left};
ghost use Rattle.dav_guarded_core.specs.Served.{answer_of, command_of, request_of};
ghost use Rattle.dav_guarded_core.specs.Step.{Serves};
ghost use Rattle.dav_guarded_core.specs.Stores.{state_of};

use super::checks::text_of;
use super::{Command, Guarded, Refusal, Reply, Request};
use dav_locks_core::ls::DavLockSystem;
use rand_core::Rng;

impl Guarded {
    // Does a command on the locks, which none refuses.
    pub(super) fn apply_to_locks<R: Rng>(
        &mut self,
        request: &Request,
        rng: &mut R,
    ) -> Result<Reply, Refusal>
        requires fresh { without_stale request.now.now.0 self.old.locks ≡ self.old.locks }
        requires on_locks { is_on_map (command_of request.now.command) ≡ false }
        requires free { refusing self.old.locks (caller_of (request_of request.now))
            (checks self.old.map (command_of request.now.command)) ≡ [] }
        ensures step { Serves (state_of self.old (R.stream rng.old)) (request_of request.entry.now) (answer_of result)
            (state_of self.new (R.stream rng.new)) }
        ensures exclusive { Exclusive self.new.locks }
        ensures shape { IsResourceMap self.new.map }
    {
        match &request.command {
            Command::Lock {
                path,
                owner,
                timeout,
                shared,
                deep,
            } => {
                let principal = text_of(&request.principal);
                let owner = text_of(owner);
                let lock = self.locks.lock(
                    path,
                    principal,
                    owner,
                    *timeout,
                    *shared,
                    *deep,
                    request.now,
                    rng,
                )?;
                return Ok(Reply::Lock(lock));
            }
            Command::Unlock { path, token } => {
                self.locks.unlock(path, token.as_str(), request.now)?;
                return Ok(Reply::Done);
            }
            Command::Refresh {
                path,
                token,
                timeout,
            } => {
                let lock = self
                    .locks
                    .refresh(path, token.as_str(), *timeout, request.now)?;
                return Ok(Reply::Lock(lock));
            }
            Command::Discover { path } => {
                let locks = self.locks.discover(path, request.now)?;
                return Ok(Reply::Locks(locks));
            }
            Command::Check { .. } => return Ok(Reply::Done),
            _ => unreachable!(),
        }
    }

    // Drops the locks that end where a command on the files is done.
    pub(super) fn drop_locks(&mut self, request: &Request)
        requires fresh { without_stale request.now.now.0 self.old.locks ≡ self.old.locks }
        ensures locks { self.new.locks ≡ locks_left (command_of request.entry.now.command) self.old.locks }
        ensures map { self.new.map ≡ self.old.map }
        ensures exclusive { Exclusive self.new.locks }
        ensures shape { IsResourceMap self.new.map }
    {
        match &request.command {
            Command::Remove { path } => self.locks.delete(path, request.now),
            Command::Move { from, .. } => self.locks.delete(from, request.now),
            _ => {}
        }
    }
}
