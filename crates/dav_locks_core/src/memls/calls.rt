//! The calls on locks, once those whose end has come are dropped.
ghost use Rattle.std.specs.Prelude.{◌≡◌, ◌≢◌, ◌++◌, ◌∷◌, [], ℕ, true, Some, None, remove, set, get_or, IfOk, IfErr, OnOk, OnErr};
ghost use Rattle.dav_path_core.specs.Segments.{segments};
ghost use Rattle.dav_locks_core.specs.Locks.{lock_conflicts, check_conflicts, found_token, refreshed_lock, discovered_locks, without_below};
ghost use Rattle.dav_locks_core.specs.Exclusive.{Exclusive};
ghost use Rattle.dav_locks_core.specs.Held.{HoldsExclusive, HoldsBelow};
ghost use Rattle.dav_locks_core.specs.Tokens.{token_from};
ghost use Rattle.dav_locks_core.specs.Calls.{Shows, ShowsOnly, RefusesRefresh, lent_text, lock_caller};
ghost use Rattle.dav_locks_core.specs.NewLock.{new_lock};

use super::MemLs;
use super::ends::{forget, forget_below, renote};
use super::granting::{
    LockRequest, end_at, end_lock, end_of_timeout, grant, refresh_lock, refreshed_copy,
};
use super::holding::{Caller, Unheld, Wanted, WithToken};
use super::placing::{give_up_place, open_place};
use super::pruning::{clear, prune};
use super::subtree::{check_locks_from_path, check_locks_from_path_ref};
use super::way::{
    check_locks_to_path, check_locks_to_path_ref, covering_locks, lookup_lock, lookup_lock_ref,
    lookup_node,
};
use crate::ls::{DavLock, LockError, NoLock, RefreshError};
use dav_path_core::davpath::{DavPath, DavPathRef};
use dav_path_core::util::Moment;
use rand_core::Rng;
use std::alloc::AllocError;

impl MemLs {
    // Refused where a lock stands in the way of one at a path, which is shown.
    pub(super) fn check_wanted(
        &self,
        path: &DavPath,
        shared: bool,
        deep: bool,
    ) -> Result<(), LockError>
        ensures free { OnOk result (lock_conflicts self.now (segments path.now.bytes) shared deep ≡ []) }
        ensures shown { IfErr result (λ e. Shows (lock_conflicts self.now (segments path.now.bytes) shared deep) e) }
    {
        let wanted = Wanted { shared };
        check_locks_to_path(&self.tree, &self.index, path, &wanted)?;
        if deep {
            check_locks_from_path(&self.tree, &self.index, path, &wanted)?;
        }
        Ok(())
    }

    // Grants a lock of a path, unless one stands in the way, which is shown.
    pub(super) fn add_lock<R: Rng>(
        &mut self,
        path: &DavPath,
        principal: Option<&str>,
        owner: Option<&str>,
        timeout: Option<u64>,
        shared: bool,
        deep: bool,
        now: Moment,
        rng: &mut R,
    ) -> Result<DavLock, LockError>
        ensures free { OnOk result (lock_conflicts self.old (segments path.now.bytes) shared deep ≡ []) }
        ensures granted { IfOk result (λ lock. lock ≡ new_lock (token_from (R.stream rng.old)).0 path.now
            (lent_text principal.entry) (lent_text owner.entry) timeout shared deep now.0) }
        ensures added { IfOk result (λ lock. self.new ≡ self.old ++ lock ∷ []) }
        ensures drawn { OnOk result (R.stream rng.new ≡ (token_from (R.stream rng.old)).1) }
        ensures shown { IfErr result (λ e. Shows (lock_conflicts self.old (segments path.now.bytes) shared deep) e) }
        ensures unchanged { OnErr result (self.new ≡ self.old) }
        ensures undrawn { OnErr result (R.stream rng.new ≡ R.stream rng.old) }
        ensures exclusive { Exclusive self.new }
    {
        self.check_wanted(path, shared, deep)?;
        let request = LockRequest {
            path,
            principal,
            owner,
            timeout_at: end_of_timeout(now, timeout),
            timeout,
            shared,
            deep,
        };
        let (end, number) = (request.timeout_at, self.next);
        let node = open_place(
            &mut self.tree,
            &mut self.index,
            &mut self.ends,
            self.alloc,
            path,
            end,
            number,
        )?;
        match grant(&mut self.tree, self.alloc, node, number, &request, rng) {
            Ok(lock) => {
                self.next += 1;
                Ok(lock)
            }
            Err(error) => {
                give_up_place(
                    &mut self.tree,
                    &mut self.index,
                    &mut self.ends,
                    node,
                    end,
                    number,
                );
                Err(error)
            }
        }
    }

    // Ends the lock with that token at the path or above it.
    pub(super) fn end_found(&mut self, path: &DavPath, token: &str) -> Result<(), NoLock>
        ensures done { OnOk result ((k : ℕ) × (found_token self.old (segments path.now.bytes) token.now ≡ Some k)
            × (self.new ≡ remove self.old k)) }
        ensures none { OnErr result ((found_token self.old (segments path.now.bytes) token.now ≡ None)
            × (self.new ≡ self.old)) }
        ensures exclusive { Exclusive self.new }
    {
        match lookup_lock(&self.tree, &self.index, path, &WithToken { token }) {
            None => Err(NoLock),
            Some((node, place)) => {
                let (number, end) = end_at(&self.tree, node, place);
                forget(&mut self.ends, end, number);
                end_lock(&mut self.tree, node, place);
                prune(&mut self.tree, &mut self.index, node);
                Ok(())
            }
        }
    }

    // Gives that lock another timeout.
    pub(super) fn refresh_found(
        &mut self,
        path: &DavPath,
        token: &str,
        timeout: Option<u64>,
        now: Moment,
    ) -> Result<DavLock, RefreshError>
        ensures done { IfOk result (λ lock. (k : ℕ) × (found_token self.old (segments path.now.bytes) token.now ≡ Some k)
            × (lock ≡ refreshed_lock now.0 timeout (get_or self.old k lock)) × (self.new ≡ set self.old k lock)) }
        ensures refused { IfErr result (λ e. RefusesRefresh (found_token self.old (segments path.now.bytes) token.now) e) }
        ensures unchanged { OnErr result (self.new ≡ self.old) }
        ensures exclusive { Exclusive self.new }
    {
        match lookup_lock(&self.tree, &self.index, path, &WithToken { token }) {
            None => Err(RefreshError::NoLock),
            Some((node, place)) => {
                let lock = refreshed_copy(&self.tree, node, place, timeout, now)?;
                let (number, end) = end_at(&self.tree, node, place);
                renote(&mut self.ends, end, lock.timeout_at, number, node)?;
                refresh_lock(&mut self.tree, node, place, timeout, now);
                Ok(lock)
            }
        }
    }

    // Whether a change may be made at a lent path; a lock that refuses it is shown.
    pub(super) fn check_change(
        &self,
        path: &DavPathRef<'_>,
        principal: Option<&str>,
        ignore_principal: bool,
        deep: bool,
        tokens: &[String],
    ) -> Result<(), LockError>
        ensures passes { OnOk result (check_conflicts self.now (segments path.now) deep
            (lock_caller principal.entry ignore_principal tokens.now) ≡ []) }
        ensures shown { IfErr result (λ e. ShowsOnly (check_conflicts self.now (segments path.now) deep
            (lock_caller principal.entry ignore_principal tokens.now)) e) }
        ensures held { OnOk result (HoldsExclusive self.now (segments path.now)
            (lock_caller principal.entry ignore_principal tokens.now)) }
        ensures held_below { OnOk result (deep ≡ true → HoldsBelow self.now (segments path.now)
            (lock_caller principal.entry ignore_principal tokens.now)) }
    {
        let caller = Caller {
            principal,
            ignore_principal,
            tokens,
        };
        let unheld = Unheld { caller };
        // Two locks that cover one path are both shared, and beside a shared one it is enough to hold another.
        if lookup_lock_ref(&self.tree, &self.index, path, &caller).is_none() {
            check_locks_to_path_ref(&self.tree, &self.index, path, &unheld)?;
        }
        if deep {
            check_locks_from_path_ref(&self.tree, &self.index, path, &unheld)?;
        }
        Ok(())
    }

    // Copies of the locks that cover a path.
    pub(super) fn covering(&self, path: &DavPath) -> Result<Vec<DavLock>, AllocError>
        ensures copies { IfOk result (λ v. v.items ≡ discovered_locks self.now (segments path.now.bytes)) }
        ensures refused { OnErr result (discovered_locks self.now (segments path.now.bytes) ≢ []) }
    {
        covering_locks(&self.tree, &self.index, self.alloc, path)
    }

    // Drops the locks at a path and below it.
    pub(super) fn delete_below(&mut self, path: &DavPath)
        ensures left { self.new ≡ without_below (segments path.now.bytes) self.old }
        ensures exclusive { Exclusive self.new }
    {
        if let Some(node) = lookup_node(&self.tree, &self.index, path) {
            forget_below(&self.tree, &mut self.ends, node);
            clear(&mut self.tree, &mut self.index, node);
            prune(&mut self.tree, &mut self.index, node);
        }
    }
}
