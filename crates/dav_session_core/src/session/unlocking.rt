//! How a caller ends a lock of its own.
ghost use Rattle.std.specs.Prelude.{◌≡◌, ◌⊎◌, true, false, not, ◌&&◌, bytes_eq, length, option_map};
ghost use Rattle.std.specs.Prelude.{string_bytes, IfErr, OnErr, OnOk};
ghost use Rattle.std.specs.List.{list_any};
ghost use Rattle.dav_path_core.specs.Segments.{segments};
ghost use Rattle.dav_locks_core.specs.Locks.{covers, same_text};
ghost use Rattle.dav_session_core.specs.Conditions.{has_token};
ghost use Rattle.dav_guarded_core.specs.Requests.{Command as command};
ghost use Rattle.dav_session_core.specs.Sessions.{HasRoomFor, IsAsBefore, caller, live_of, Looks};
ghost use Rattle.dav_session_core.specs.Sessions.{Requests, state};
ghost use Rattle.dav_session_core.specs.Unlocking.{EndsOwn, IsAnothers, KeepsLock};
ghost use Rattle.dav_session_core.specs.Private.Owning.{AllOwn, is_anothers};
ghost use Rattle.dav_faults_core.specs.declared.faults.Fault.TheVariants as fault;

use super::lookups::has_token;
use super::questions::copy_of;
use super::{RoomError, Session};
use dav_documents_core::lock_documents::is_principal;
use dav_faults_core::faults::Fault;
use dav_guarded_core::davpath::DavPath;
use dav_guarded_core::guarded::Command;
use dav_guarded_core::ls::DavLock;
use dav_notes_core::costs::cost_of_unlock;
use rand_core::Rng;

impl<R: Rng> Session<R> {
    /// Whether the caller may end the lock with a token that covers the path (RFC 4918 section
    /// 9.11).
    ///
    /// `NoSuchLock` where no lock with the token covers the path; `Forbidden` where one with it at
    /// the path or above has another principal.
    pub fn check_unlock(&mut self, path: &DavPath, token: &str) -> Result<(), Fault>
        ensures covered { OnOk result (has_token (live_of R.stream self.old)
            (segments path.now.bytes) token.now ≡ true) }
        ensures own { OnOk result (¬ IsAnothers (live_of R.stream self.old) (caller self.old)
            (segments path.now.bytes) token.now) }
        ensures err { IfErr result (λ e. KeepsLock (live_of R.stream self.old) (caller self.old)
            (segments path.now.bytes) token.now e) }
        ensures looks { Looks R.stream self.old self.new }
    {
        if !has_token(self, path, token)? {
            return Err(Fault::NoSuchLock);
        }
        self.check_own(path, token)?;
        Ok(())
    }

    /// Ends the caller's own lock with a token that covers the path (RFC 4918 section 9.11).
    /// An error, where there is no room for the note of it, has changed nothing.
    pub fn unlock(&mut self, path: DavPath, token: String) -> Result<(), RoomError>
        requires covered { has_token (live_of R.stream self.old) (segments path.bytes)
            (string_bytes token) ≡ true }
        requires own { ¬ IsAnothers (live_of R.stream self.old) (caller self.old)
            (segments path.bytes) (string_bytes token) }
        ensures ends { OnOk result (EndsOwn (live_of R.stream self.old) (caller self.old)
            (segments path.bytes) (string_bytes token) (state R.stream self.new)) }
        ensures refused { OnErr result (IsAsBefore R.stream self.old self.new) }
        ensures requests { Requests R.stream self.old self.new }
    {
        self.make_room_to_unlock(&path, &token)?;
        drop(self.ask(Command::Unlock { path, token }));
        Ok(())
    }

    // Makes room for the note of ending a lock, where notes are kept.
    fn make_room_to_unlock(&mut self, path: &DavPath, token: &str) -> Result<(), RoomError>
        ensures ok { OnOk result (HasRoomFor (command.Unlock (segments path.now.bytes) token.now)
            self.new) }
        ensures same { IsAsBefore R.stream self.old self.new }
    {
        if !self.stores.keeps() {
            return Ok(());
        }
        let bytes = cost_of_unlock(self.stores.who(), path, token.len());
        self.make_room(1, bytes)
    }

    // Whether each lock with the token at the path or above is the caller's own.
    pub(super) fn check_own(&mut self, path: &DavPath, token: &str) -> Result<(), Fault>
        ensures ok { OnOk result (AllOwn (live_of R.stream self.old) (caller self.old)
            (segments path.now.bytes) token.now) }
        ensures err { IfErr result (λ e. (e ≡ fault.InsufficientStorage)
            ⊎ ((e ≡ fault.Forbidden) × IsAnothers (live_of R.stream self.old) (caller self.old)
            (segments path.now.bytes) token.now)) }
        ensures looks { Looks R.stream self.old self.new }
    {
        let mut here = copy_of(path)?;
        for _ in 0..depth_of(path) {
            self.check_own_at(&here, token)?;
            here = here.parent()?;
        }
        self.check_own_at(&here, token)
    }

    // Whether each lock with the token that covers the path is the caller's own.
    fn check_own_at(&mut self, path: &DavPath, token: &str) -> Result<(), Fault>
        ensures ok { OnOk result (list_any (λ l. is_anothers (caller self.old) token.now l
            && covers l (segments path.now.bytes)) (live_of R.stream self.old).locks ≡ false) }
        ensures err { IfErr result (λ e. (e ≡ fault.InsufficientStorage)
            ⊎ ((e ≡ fault.Forbidden) × (list_any
            (λ l. is_anothers (caller self.old) token.now l && covers l (segments path.now.bytes))
            (live_of R.stream self.old).locks ≡ true))) }
        ensures looks { Looks R.stream self.old self.new }
    {
        let locks = self.locks_at(copy_of(path)?)?;
        if any_anothers(&locks, token, self.principal()) {
            return Err(Fault::Forbidden);
        }
        Ok(())
    }
}

// How many segments a path has.
pub(super) fn depth_of(path: &DavPath) -> usize
    ensures { result ≡ length (segments path.now.bytes) }
{
    path.segments().count()
}

// Whether one of the locks has the token, and not the principal.
fn any_anothers(locks: &[DavLock], token: &str, principal: &Option<String>) -> bool
    ensures { result ≡ list_any (λ l. bytes_eq l.token token.now
        && not (same_text l.principal (option_map string_bytes principal.now))) locks.now }
{
    locks.iter().any(|lock| lock.token.as_str() == token && !is_principal(lock, principal))
}
