//! How a folder at the target of a COPY or a MOVE goes, before anything is written there.
ghost use Rattle.std.specs.Prelude.{◌≡◌, ◌≤◌, ◌+◌, ℕ, true, [], map, option_copied, option_map, string_bytes, IfErr};
ghost use Rattle.std.specs.Prelude.{IfOk, OnErr, OnOk};
ghost use Rattle.std.specs.List.{find};
ghost use Rattle.dav_path_core.specs.Segments.{segments};
ghost use Rattle.dav_locks_core.specs.Locks.{is_held_by};
ghost use Rattle.dav_notes_core.specs.Costs.{in_eight_bytes};
ghost use Rattle.dav_session_core.specs.Clearing.{IsCleared};
ghost use Rattle.dav_session_core.specs.Ends.{GoesFrom};
ghost use Rattle.dav_session_core.specs.LocksInTheWay.{IsRefusedBy};
ghost use Rattle.dav_session_core.specs.Private.Anew.{any_leads, leads_to, refuses_anew};
ghost use Rattle.dav_session_core.specs.Private.Anew.{with_tokens};
ghost use Rattle.dav_session_core.specs.Sessions.{Acts, IsAsBefore, caller, live_after, live_of};
ghost use Rattle.dav_session_core.specs.NoteCosts.{removal_cost};
ghost use Rattle.dav_session_core.specs.Sessions.{Looks, bytes_left, noting, state};
ghost use Rattle.dav_session_core.specs.Questions.{FailsToGather, against_anew, against_clearing};
ghost use Rattle.dav_session_core.specs.Unhindered.{WhereClearable, paths_of};

use super::questions::copy_of;
use super::{RoomError, Session};
use dav_documents_core::lock_documents::is_principal;
use dav_faults_core::faults::Fault;
use dav_fields_core::state_tokens::is_among;
use dav_guarded_core::davpath::DavPath;
use dav_guarded_core::fs::DavMetaData;
use dav_guarded_core::ls::DavLock;
use rand_core::Rng;
use std::alloc::Global;

impl<R: Rng> Session<R> {
    /// The paths of a folder and of all that is in it, each folder before its members; none where
    /// no folder stands at the path.
    ///
    /// `BadRequest` where a name below it is one that no path has which is read.
    pub fn folder_at(&mut self, alloc: Global, path: &DavPath) -> Result<Vec<DavPath>, Fault>
        ensures ok { IfOk result (λ places. GoesFrom (state R.stream self.old).map
            (segments path.now.bytes) (paths_of places.items)) }
        ensures err { IfErr result (λ e. FailsToGather (state R.stream self.old).map
            (segments path.now.bytes) e) }
        ensures looks { Looks R.stream self.old self.new }
    {
        match self.meta(copy_of(path)?) {
            Some(known) => if known.is_dir() {
                self.walk(alloc, copy_of(path)?)
            } else {
                Ok(Vec::new(alloc))
            },
            None => Ok(Vec::new(alloc)),
        }
    }

    /// Whether the locks let the caller take away what stands at each of the places, and then make
    /// something at the path. `Locked` where one stands in the way, with its path. Without places
    /// nothing is asked.
    pub fn check_clearing(&mut self, path: &DavPath, places: &[DavPath]) -> Result<(), Fault>
        ensures ok { OnOk result (against_clearing R.stream self.old path.now (paths_of places.now)
            ≡ []) }
        ensures err { IfErr result (λ e. IsRefusedBy
            (against_clearing R.stream self.old path.now (paths_of places.now)) e) }
        ensures looks { Looks R.stream self.old self.new }
    {
        if places.is_empty() {
            return Ok(());
        }
        self.check_removal(places)?;
        self.check_anew(path)
    }

    /// Whether the locks let the caller make something at a path, once what stands there is gone
    /// with its locks: those above it alone decide then (RFC 4918 section 7). `Locked` where one
    /// stands in the way, with its path.
    pub fn check_anew(&mut self, path: &DavPath) -> Result<(), Fault>
        ensures ok { OnOk result (against_anew R.stream self.old path.now ≡ []) }
        ensures err { IfErr result (λ e. IsRefusedBy (against_anew R.stream self.old path.now) e) }
        ensures looks { Looks R.stream self.old self.new }
    {
        let locks = self.locks_at(path.parent()?)?;
        match refusing(&locks, path, self.tokens(), self.principal()) {
            Some(lock) => Err(Fault::Locked(copy_of(&lock.path)?)),
            None => Ok(()),
        }
    }

    /// Takes away a folder with all that is in it, where there are places; they are its walk then
    /// (RFC 4918 sections 9.8.4 and 9.9.3). So many bytes are to be left for the notes of what
    /// follows; where those are too many for a number, they are given as `u64::MAX`. An error, where
    /// there is no room for the notes of all of this, has changed nothing.
    pub fn clear(&mut self, places: Vec<DavPath>, beside: u64) -> Result<(), RoomError>
        ensures cleared { OnOk result (WhereClearable (live_of R.stream self.old)
            (caller self.old) (paths_of places.items) (λ p. IsCleared (caller self.old).now p
            (live_of R.stream self.old) (live_after R.stream self.old self.new))) }
        // So many bytes were left for all of it.
        ensures left { OnOk result ((n : ℕ) → beside ≡ in_eight_bytes n
            → (noting self.old).keeps ≡ true
            → removal_cost (caller self.old) (paths_of places.items) + n ≤ bytes_left self.old) }
        ensures refused { OnErr result (IsAsBefore R.stream self.old self.new) }
        ensures acts { Acts R.stream self.old self.new }
    {
        self.check_left(&places, beside)?;
        if places.is_empty() {
            return Ok(());
        }
        self.remove_all(places)
    }
}

// The first of the locks that refuses to make something at the path; those there and below count as
// gone.
fn refusing<'a>(
    locks: &'a [DavLock],
    path: &DavPath,
    tokens: &[String],
    principal: &Option<String>,
) -> Option<&'a DavLock>
    ensures { let who = with_tokens (option_map string_bytes principal.now)
        (map string_bytes tokens.now) in
        let p = segments path.now.bytes in
        option_copied result ≡ find (refuses_anew p who (any_leads p who locks.now)) locks.now }
{
    let any = any_leads(locks, path, tokens, principal);
    locks
        .iter()
        .find(|lock| refuses_anew(lock, path, tokens, principal, any))
}

// Whether the caller with these tokens and this principal holds one of the locks, and it leads to
// the path.
fn any_leads(
    locks: &[DavLock],
    path: &DavPath,
    tokens: &[String],
    principal: &Option<String>,
) -> bool
    ensures { result ≡ any_leads (segments path.now.bytes)
        (with_tokens (option_map string_bytes principal.now) (map string_bytes tokens.now))
        locks.now }
{
    locks.iter().any(|lock| leads_to(lock, path) && is_held(lock, tokens, principal))
}

// Whether a lock leads to the path and refuses the caller, who may hold another that does.
fn refuses_anew(
    lock: &DavLock,
    path: &DavPath,
    tokens: &[String],
    principal: &Option<String>,
    any: bool,
) -> bool
    ensures { result ≡ refuses_anew (segments path.now.bytes)
        (with_tokens (option_map string_bytes principal.now) (map string_bytes tokens.now)) any
        lock.now }
{
    leads_to(lock, path) && !is_held(lock, tokens, principal) && (!lock.shared || !any)
}

// Whether a lock that covers the folder above the path covers the path, too, and doesn't stand
// there.
fn leads_to(lock: &DavLock, path: &DavPath) -> bool
    ensures { result ≡ leads_to (segments path.now.bytes) lock.now }
{
    lock.deep
        && !lock
            .path
            .behind_prefix()
            .is_at_or_below(path.behind_prefix())
}

// Whether the caller with these tokens and this principal holds a lock.
fn is_held(lock: &DavLock, tokens: &[String], principal: &Option<String>) -> bool
    ensures { result ≡ is_held_by lock.now (with_tokens (option_map string_bytes principal.now)
        (map string_bytes tokens.now)) }
{
    is_among(tokens, &lock.token) && is_principal(lock, principal)
}
