//! How a lock is granted, and how one that was granted is taken back.
ghost use Rattle.std.specs.Prelude.{◌≡◌, ◌⊎◌, [], false, Err, Ok, option_map, string_bytes};
ghost use Rattle.std.specs.Prelude.{IfErr, IfOk, OnErr, OnOk};
ghost use Rattle.dav_path_core.specs.Segments.{segments};
ghost use Rattle.dav_locks_core.specs.Exclusive.{Exclusive};
ghost use Rattle.dav_locks_core.specs.Lock.{Lock};
ghost use Rattle.dav_locks_core.specs.Locks.{lock_path};
ghost use Rattle.dav_guarded_core.specs.Requests as reply_of;
ghost use Rattle.dav_guarded_core.specs.Requests.{Command as command};
ghost use Rattle.dav_guarded_core.specs.Requests.{Refusal as refusal};
ghost use Rattle.dav_guarded_core.specs.Step.{State};
ghost use Rattle.dav_session_core.specs.Callers.{KeepsApart};
ghost use Rattle.dav_session_core.specs.Granting.{IsConflictOf, granted_lock, stands_above};
ghost use Rattle.dav_session_core.specs.Granting.{with_lock, with_token_drawn, PutsUnder};
ghost use Rattle.dav_session_core.specs.StoreRefusals.{put_fault};
ghost use Rattle.dav_session_core.specs.Sessions.{HasRoomFor, KeepsRoom, Looks, Ran, Requests};
ghost use Rattle.dav_session_core.specs.Sessions.{Stays, TakesRoom, caller, live_of, state};
ghost use Rattle.dav_faults_core.specs.declared.faults.Fault.TheVariants as fault;
ghost use Rattle.dav_session_core.specs.Questions.{against_lock};

use super::Session;
use super::questions::refused;
use bytes::Bytes;
use dav_faults_core::faults::Fault;
use dav_guarded_core::davpath::DavPath;
use dav_guarded_core::guarded::{Command, Refusal, Reply};
use dav_guarded_core::ls::DavLock;
use rand_core::Rng;

impl<R: Rng> Session<R> {
    /// Grants the caller a lock of a path (RFC 4918 section 9.10.1). No resource is made.
    ///
    /// `ConflictingLock` where another lock stands in the way, with its path.
    pub fn grant(
        &mut self,
        path: DavPath,
        owner: Option<String>,
        timeout: Option<u64>,
        shared: bool,
        deep: bool,
    ) -> Result<DavLock, Fault>
        ensures ok { IfOk result (λ lock. lock
            ≡ granted_lock (live_of R.stream self.old) (caller self.old) path
            (option_map string_bytes owner) timeout shared deep) }
        ensures left { IfOk result (λ lock. state R.stream self.new
            ≡ with_lock (live_of R.stream self.old) lock) }
        ensures free { OnOk result (against_lock R.stream self.old path shared deep ≡ []) }
        ensures err { IfErr result (λ e. IsConflictOf
            (against_lock R.stream self.old path shared deep) e) }
        ensures refused { OnErr result (Looks R.stream self.old self.new) }
        ensures requests { Requests R.stream self.old self.new }
        ensures apart { Exclusive (state R.stream self.old).locks → KeepsApart (caller self.old)
            (state R.stream self.old) (state R.stream self.new) }
        ensures room { TakesRoom (command.Lock path (option_map string_bytes owner) timeout shared
            deep) self.old self.new }
    {
        match self.ask(Command::Lock {
            path,
            owner,
            timeout,
            shared,
            deep,
        }) {
            Ok(Reply::Lock(lock)) => return Ok(lock),
            Err(Refusal::Locked(lock)) => return Err(Fault::ConflictingLock(lock.path)),
            _ => return Err(Fault::InsufficientStorage),
        }
    }

    /// Takes a lock back that was granted right before: it is as if it had never been granted, but
    /// that the generator has given a token. The token may be that of no other lock at the path or
    /// above (RFC 4918 section 9.11). There is room for the note of it, so that it isn't refused.
    pub fn take_back(&mut self, path: DavPath, token: String)
        requires room { HasRoomFor (command.Unlock (segments path.bytes) (string_bytes token))
            self.old }
        ensures taken { (s : State) (l : Lock) → live_of R.stream self.old ≡ with_lock s l
            → lock_path l ≡ segments path.bytes → l.token ≡ string_bytes token
            → stands_above s (segments path.bytes) (string_bytes token) ≡ false
            → state R.stream self.new ≡ with_token_drawn s }
        ensures requests { Requests R.stream self.old self.new }
    {
        drop(self.ask(Command::Unlock { path, token }));
    }

    /// Makes an empty file under a lock that the caller was granted, whose token it names here
    /// beside its own (RFC 4918 section 7.3). It answers as a PUT where nothing stands. The room for
    /// notes that was made stays.
    pub fn make_under(&mut self, path: DavPath, token: String) -> Result<(), Fault>
        ensures ok { OnOk result ((reply : reply_of.Reply)
            × PutsUnder (live_of R.stream self.old) (caller self.old) (segments path.bytes)
            (string_bytes token) (Ok reply) (state R.stream self.new)) }
        ensures err { IfErr result (λ e. (e ≡ fault.InsufficientStorage)
            ⊎ ((r : refusal) × (e ≡ put_fault false r)
            × PutsUnder (live_of R.stream self.old) (caller self.old) (segments path.bytes)
            (string_bytes token) (Err r) (state R.stream self.new))) }
        ensures refused { OnErr result (Stays R.stream self.old self.new) }
        ensures ran { Ran R.stream self.old self.new }
        ensures room { KeepsRoom self.old self.new }
    {
        let bytes = Bytes::new();
        match self.ask_naming(token, Command::Put { path, bytes }) {
            Ok(_) => return Ok(()),
            Err(refusal) => return Err(refused(&None, refusal)),
        }
    }
}
