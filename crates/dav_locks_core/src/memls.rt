//! Locks in memory. A clause sees a `MemLs` as one list: its locks, in the order of granting. How they are kept is private: in
//! a tree of the segments of their paths. Read `lock` first; what each call promises stands with the trait `DavLockSystem`.
ghost use Rattle.std.specs.Prelude.{◌≡◌, ◌≢◌, ◌≤◌, ◌+◌, [], true, sum_by, IfOk, IfErr, OnOk, OnErr};
ghost use Rattle.dav_path_core.specs.Segments.{segments};
ghost use Rattle.dav_locks_core.specs.Calls.{ShowsOnly, lock_caller};
ghost use Rattle.dav_locks_core.specs.Held.{HoldsExclusive, HoldsBelow};
ghost use Rattle.dav_locks_core.specs.Locks.{check_conflicts, discovered_locks, height};
ghost use Rattle.dav_locks_core.specs.Stale.{without_stale};
ghost use Rattle.dav_locks_core.specs.LockFronts.{front_count};
ghost use Rattle.dav_locks_core.specs.Exclusive.{Exclusive};

mod calls;
mod ends;
mod expiring;
mod granting;
mod holding;
mod placing;
mod pruning;
mod restoring;
mod subtree;
#[cfg(test)]
mod tests;
mod walking;
mod way;

use crate::ls::{DavLock, DavLockSystem, LockError, NoLock, RefreshError};
use bytes::Bytes;
use dav_path_core::child_index::ChildIndex;
use dav_path_core::davpath::{DavPath, DavPathRef};
use dav_path_core::errors::{FsError, FsResult};
use dav_path_core::tree::Tree;
use dav_path_core::util::Moment;
use ends::Ends;
use expiring::{drop_stale_copies, end_stale};
use rand_core::Rng;
pub use restoring::walked_locks_are_restored;
use std::alloc::{AllocError, Global};
use std::marker::Model;
pub use walking::MemLsLocks;

/// The locks that stand at one path, each with its grant number, in the order of granting.
#[derive(Debug, Drop)]
struct NodeLocks {
    locks: Vec<(u64, DavLock)>,
}

impl Model for NodeLocks {
    ghost use Rattle.std.specs.Prelude.{ℕ, List};
    ghost use Rattle.dav_locks_core.specs.Lock.{Lock};

    ghost Value = { List (ℕ × Lock) };

    ghost view = { λ s. s.locks.items };
}

/// A list of locks in memory, kept as a tree of the segments of their paths.
#[derive(Debug, Drop)]
pub struct MemLs {
    alloc: Global,
    tree: Tree<Bytes, NodeLocks>,
    // The segments below its wide nodes, beside the tree.
    index: ChildIndex,
    next: u64,
    ends: Ends,
}

impl Model for MemLs {
    ghost use Rattle.std.specs.Prelude.{List};
    ghost use Rattle.dav_locks_core.specs.Lock.{Lock};

    ghost Value = { List Lock };

    ghost use Rattle.dav_locks_core.specs.Private.LockTree.{lock_list};
    ghost use Rattle.dav_locks_core.specs.Private.NotedEnds.{IsStored};

    ghost view = { λ m. lock_list m.tree.keyed };

    ghost invariant = { λ m. IsStored m.tree.keyed m.next m.ends m.index };
}

impl MemLs {
    /// No locks. `InsufficientStorage` where it is out of memory.
    pub fn new(alloc: Global) -> FsResult<MemLs>
        ensures empty { IfOk result (λ locks. locks ≡ []) }
        ensures exclusive { IfOk result Exclusive }
        ensures error { IfErr result (λ e. e ≡ FsError.InsufficientStorage) }
    {
        let root = NodeLocks {
            locks: Vec::new(alloc),
        };
        let tree = Tree::new(alloc, root)?;
        Ok(MemLs {
            alloc,
            tree,
            index: ChildIndex::new(alloc),
            next: 1,
            ends: Ends::new(alloc),
        })
    }

    /// How many nodes its tree has: as many as the paths of its locks have distinct fronts, the root always among them.
    /// Takes no memory.
    pub fn node_count(&self) -> usize
        ensures count { result ≡ front_count self.now }
        // So it is at most 1 and the sum of the numbers of segments of all locks.
        ensures bound { result ≤ 1 + sum_by height self.now }
    {
        self.tree.node_count()
    }

    /// Its locks, in the order of granting, also those whose end has come (own). Takes no memory.
    pub fn iter(&self) -> MemLsLocks<'_>
        ensures { result ≡ self.now }
    {
        MemLsLocks::new(&self.tree, self.ends.nodes.iter())
    }

    /// Copies of the locks that cover a path, as `discover` of `DavLockSystem` answers them; here the expired ones stay in the list
    /// (own). Memory is asked for only where some lock covers the path, expired or not.
    pub fn live_covering(&self, path: &DavPath, now: Moment) -> Result<Vec<DavLock>, AllocError>
        ensures copies { IfOk result (λ v. v.items ≡ discovered_locks (without_stale now.0 self.now) (segments path.now.bytes)) }
        ensures refused { OnErr result (discovered_locks self.now (segments path.now.bytes) ≢ []) }
    {
        let mut locks = self.covering(path)?;
        drop_stale_copies(&mut locks, now);
        Ok(locks)
    }

    /// As `check` of `DavLockSystem`, of a lent path (own).
    pub fn check_ref(
        &mut self,
        path: &DavPathRef<'_>,
        principal: Option<&str>,
        ignore_principal: bool,
        deep: bool,
        tokens: &[String],
        now: Moment,
    ) -> Result<(), LockError>
        ensures passes { OnOk result (check_conflicts (without_stale now.0 self.old) (segments path.now) deep
            (lock_caller principal.entry ignore_principal tokens.now) ≡ []) }
        ensures shown { IfErr result (λ e. ShowsOnly (check_conflicts (without_stale now.0 self.old) (segments path.now) deep
            (lock_caller principal.entry ignore_principal tokens.now)) e) }
        ensures held { OnOk result (HoldsExclusive (without_stale now.0 self.old) (segments path.now)
            (lock_caller principal.entry ignore_principal tokens.now)) }
        ensures held_below { OnOk result (deep ≡ true → HoldsBelow (without_stale now.0 self.old) (segments path.now)
            (lock_caller principal.entry ignore_principal tokens.now)) }
        ensures left { self.new ≡ without_stale now.0 self.old }
        ensures exclusive { Exclusive self.new }
    {
        self.expire(now);
        self.check_change(path, principal, ignore_principal, deep, tokens)
    }
}

impl DavLockSystem for MemLs {
    ghost locks = { λ m. m };

    fn expire(&mut self, now: Moment) {
        end_stale(&mut self.tree, &mut self.index, &mut self.ends, now);
    }

    /// `OutOfMemory` also where all grant numbers to 2^64 - 2 are used up.
    fn lock<R: Rng>(
        &mut self,
        path: &DavPath,
        principal: Option<&str>,
        owner: Option<&str>,
        timeout: Option<u64>,
        shared: bool,
        deep: bool,
        now: Moment,
        rng: &mut R,
    ) -> Result<DavLock, LockError> {
        self.expire(now);
        self.add_lock(path, principal, owner, timeout, shared, deep, now, rng)
    }

    fn unlock(&mut self, path: &DavPath, token: &str, now: Moment) -> Result<(), NoLock> {
        self.expire(now);
        self.end_found(path, token)
    }

    fn refresh(
        &mut self,
        path: &DavPath,
        token: &str,
        timeout: Option<u64>,
        now: Moment,
    ) -> Result<DavLock, RefreshError> {
        self.expire(now);
        self.refresh_found(path, token, timeout, now)
    }

    fn check(
        &mut self,
        path: &DavPath,
        principal: Option<&str>,
        ignore_principal: bool,
        deep: bool,
        tokens: &[String],
        now: Moment,
    ) -> Result<(), LockError> {
        let path = path.behind_prefix();
        self.check_ref(&path, principal, ignore_principal, deep, tokens, now)
    }

    fn discover(&mut self, path: &DavPath, now: Moment) -> Result<Vec<DavLock>, AllocError> {
        self.expire(now);
        self.covering(path)
    }

    fn delete(&mut self, path: &DavPath, now: Moment) {
        self.expire(now);
        self.delete_below(path);
    }
}
