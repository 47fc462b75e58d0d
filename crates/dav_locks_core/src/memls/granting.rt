//! Granting locks, and ending them.
ghost use Rattle.std.specs.Prelude.{◌≡◌, ◌≤◌, ◌<◌, ◌+◌, ◌++◌, ◌∷◌, [], option_map, length, remove, IfOk, IfErr, OnOk, OnErr, string_bytes, string_len, string_capacity, slice_index_or, slice_set};
ghost use Rattle.dav_path_core.specs.ChildIndex.{Index, IsIndex};
ghost use Rattle.dav_path_core.specs.Keyed.{IsKnown, with_item};
ghost use Rattle.dav_locks_core.specs.Locks.{end_of, refreshed_lock};
ghost use Rattle.dav_locks_core.specs.Tokens.{token_from};
ghost use Rattle.dav_locks_core.specs.Calls.{lent_text};
ghost use Rattle.dav_locks_core.specs.Private.LockTree as spec;
ghost use Rattle.dav_locks_core.specs.Private.LockRequests.{lock_for};

use super::NodeLocks;
use super::way::{copy_at, locks_at};
use crate::ls::{DavLock, LockError};
use bytes::Bytes;
use dav_path_core::davpath::DavPath;
use dav_path_core::tree::Tree;
use dav_path_core::util::Moment;
use rand_core::Rng;
use std::alloc::{AllocError, Global};
use uuid::Uuid;
use uuid::fmt::Urn;

/// A lock that is asked for.
#[derive(Clone, Copy)]
pub(super) struct LockRequest<'a> {
    pub(super) path: &'a DavPath,
    pub(super) principal: Option<&'a str>,
    pub(super) owner: Option<&'a str>,
    pub(super) timeout_at: Option<Moment>,
    pub(super) timeout: Option<u64>,
    pub(super) shared: bool,
    pub(super) deep: bool,
}

// Adds a lock to those at a node, and gives one that is equal.
pub(super) fn grant<R: Rng>(
    tree: &mut Tree<Bytes, NodeLocks>,
    alloc: Global,
    node: u64,
    number: u64,
    request: &LockRequest,
    rng: &mut R,
) -> Result<DavLock, LockError>
    requires { IsKnown tree.old.keyed node }
    ensures granted { IfOk result (λ lock. lock ≡ lock_for request.now (token_from (R.stream rng.old)).0) }
    ensures added { IfOk result (λ lock. tree.new.keyed ≡ with_item tree.old.keyed node
        (spec.locks_at tree.old.keyed node ++ (number, lock) ∷ [])) }
    ensures drawn { OnOk result (R.stream rng.new ≡ (token_from (R.stream rng.old)).1) }
    ensures error { IfErr result (λ e. e ≡ LockError.OutOfMemory) }
    ensures unchanged { OnErr result (tree.new.keyed ≡ tree.old.keyed) }
    ensures undrawn { OnErr result (R.stream rng.new ≡ R.stream rng.old) }
    ensures indexed { (ix : Index) → IsIndex tree.old.keyed ix → IsIndex tree.new.keyed ix }
{
    match tree.get_node_mut(node) {
        Ok(node_locks) => grant_in(&mut node_locks.locks, alloc, number, request, rng),
        Err(_) => unreachable!(),
    }
}

// Adds a lock, as it is, to those at a node.
pub(super) fn push_lock(
    tree: &mut Tree<Bytes, NodeLocks>,
    node: u64,
    number: u64,
    lock: DavLock,
) -> Result<(), LockError>
    requires { IsKnown tree.old.keyed node }
    ensures added { OnOk result (tree.new.keyed ≡ with_item tree.old.keyed node
        (spec.locks_at tree.old.keyed node ++ (number, lock) ∷ [])) }
    ensures error { IfErr result (λ e. e ≡ LockError.OutOfMemory) }
    ensures unchanged { OnErr result (tree.new.keyed ≡ tree.old.keyed) }
    ensures indexed { (ix : Index) → IsIndex tree.old.keyed ix → IsIndex tree.new.keyed ix }
{
    match tree.get_node_mut(node) {
        Ok(node_locks) => push_in(&mut node_locks.locks, number, lock),
        Err(_) => unreachable!(),
    }
}

fn push_in(locks: &mut Vec<(u64, DavLock)>, number: u64, lock: DavLock) -> Result<(), LockError>
    ensures added { OnOk result (locks.new.items ≡ locks.old.items ++ (number, lock) ∷ []) }
    ensures error { IfErr result (λ e. e ≡ LockError.OutOfMemory) }
    ensures unchanged { OnErr result (locks.new.items ≡ locks.old.items) }
{
    locks.push((number, lock))?;
    Ok(())
}

// The number, and the end, of the lock at a place among those at a node.
pub(super) fn end_at(
    tree: &Tree<Bytes, NodeLocks>,
    node: u64,
    place: usize,
) -> (u64, Option<Moment>)
    requires { place < length (spec.locks_at tree.now.keyed node) }
    ensures number { (d : spec.NumberedLock) → result.0 ≡ (slice_index_or (spec.locks_at tree.now.keyed node) place d).0 }
    ensures end { (d : spec.NumberedLock) → option_map (λ m. m.0) result.1
        ≡ (slice_index_or (spec.locks_at tree.now.keyed node) place d).1.timeout_at }
{
    let granted = &locks_at(tree, node)[place];
    (granted.0, granted.1.timeout_at)
}

// Ends the lock at a place among those at a node.
pub(super) fn end_lock(tree: &mut Tree<Bytes, NodeLocks>, node: u64, place: usize)
    requires { place < length (spec.locks_at tree.old.keyed node) }
    ensures set { tree.new.keyed ≡ with_item tree.old.keyed node (remove (spec.locks_at tree.old.keyed node) place) }
    ensures indexed { (ix : Index) → IsIndex tree.old.keyed ix → IsIndex tree.new.keyed ix }
{
    match tree.get_node_mut(node) {
        Ok(node_locks) => {
            node_locks.locks.remove(place);
        }
        Err(_) => unreachable!(),
    }
}

// A copy of the lock at a place among those at a node, with another timeout.
pub(super) fn refreshed_copy(
    tree: &Tree<Bytes, NodeLocks>,
    node: u64,
    place: usize,
    timeout: Option<u64>,
    now: Moment,
) -> Result<DavLock, AllocError>
    requires { place < length (spec.locks_at tree.now.keyed node) }
    ensures { IfOk result (λ lock. (d : spec.NumberedLock)
        → lock ≡ refreshed_lock now.0 timeout (slice_index_or (spec.locks_at tree.now.keyed node) place d).1) }
{
    let mut lock = copy_at(tree, node, place)?;
    set_timeout(&mut lock, timeout, end_of_timeout(now, timeout));
    Ok(lock)
}

// Gives the lock at a place among those at a node another timeout.
pub(super) fn refresh_lock(
    tree: &mut Tree<Bytes, NodeLocks>,
    node: u64,
    place: usize,
    timeout: Option<u64>,
    now: Moment,
)
    requires { place < length (spec.locks_at tree.old.keyed node) }
    ensures set { (d : spec.NumberedLock) → tree.new.keyed ≡ with_item tree.old.keyed node
        (slice_set (spec.locks_at tree.old.keyed node) place (
          (slice_index_or (spec.locks_at tree.old.keyed node) place d).0,
          refreshed_lock now.0 timeout (slice_index_or (spec.locks_at tree.old.keyed node) place d).1,
        )) }
    ensures indexed { (ix : Index) → IsIndex tree.old.keyed ix → IsIndex tree.new.keyed ix }
{
    match tree.get_node_mut(node) {
        Ok(node_locks) => refresh_in(&mut node_locks.locks, place, timeout, now),
        Err(_) => unreachable!(),
    }
}

// Gives the lock at a place another timeout.
fn refresh_in(locks: &mut Vec<(u64, DavLock)>, place: usize, timeout: Option<u64>, now: Moment)
    requires { place < length locks.old.items }
    ensures { (d : spec.NumberedLock) → locks.new.items ≡ slice_set locks.old.items place
        ((slice_index_or locks.old.items place d).0, refreshed_lock now.0 timeout (slice_index_or locks.old.items place d).1) }
{
    set_timeout(&mut locks[place].1, timeout, end_of_timeout(now, timeout));
}

fn set_timeout(lock: &mut DavLock, timeout: Option<u64>, timeout_at: Option<Moment>)
    ensures { lock.new ≡ record lock.old { timeout_at = option_map (λ m. m.0) timeout_at; timeout = timeout } }
{
    lock.timeout = timeout;
    lock.timeout_at = timeout_at;
}

// Adds a lock to a list, and gives one that is equal. All memory is taken before the token is drawn.
fn grant_in<R: Rng>(
    locks: &mut Vec<(u64, DavLock)>,
    alloc: Global,
    number: u64,
    request: &LockRequest,
    rng: &mut R,
) -> Result<DavLock, LockError>
    ensures granted { IfOk result (λ lock. lock ≡ lock_for request.now (token_from (R.stream rng.old)).0) }
    ensures added { IfOk result (λ lock. locks.new.items ≡ locks.old.items ++ (number, lock) ∷ []) }
    ensures drawn { OnOk result (R.stream rng.new ≡ (token_from (R.stream rng.old)).1) }
    ensures error { IfErr result (λ e. e ≡ LockError.OutOfMemory) }
    ensures unchanged { OnErr result (locks.new.items ≡ locks.old.items) }
    ensures undrawn { OnErr result (R.stream rng.new ≡ R.stream rng.old) }
{
    locks.reserve(1)?;
    let mut answer = lock_parts(alloc, request)?;
    let mut kept = lock_parts(alloc, request)?;
    draw_token(rng, &mut answer.token, &mut kept.token);
    if locks.push((number, lock_of(kept, request))).is_err() {
        unreachable!();
    }
    Ok(lock_of(answer, request))
}

/// What a lock owns, with room for its token.
#[derive(Drop)]
struct LockParts {
    token: String,
    path: DavPath,
    principal: Option<String>,
    owner: Option<String>,
}

fn lock_parts(alloc: Global, request: &LockRequest) -> Result<LockParts, AllocError>
    ensures empty { IfOk result (λ parts. string_bytes parts.token ≡ []) }
    ensures room { IfOk result (λ parts. string_len parts.token + Urn.LENGTH ≤ string_capacity parts.token) }
    ensures path { IfOk result (λ parts. parts.path ≡ request.now.path.now) }
    ensures principal { IfOk result (λ parts. option_map string_bytes parts.principal
        ≡ lent_text request.now.principal) }
    ensures owner { IfOk result (λ parts. option_map string_bytes parts.owner ≡ lent_text request.now.owner) }
{
    Ok(LockParts {
        token: String::with_capacity(alloc, Urn::LENGTH)?,
        path: request.path.clone()?,
        principal: copy_text(alloc, request.principal)?,
        owner: copy_text(alloc, request.owner)?,
    })
}

// A copy of a text that may be missing.
fn copy_text(alloc: Global, text: Option<&str>) -> Result<Option<String>, AllocError>
    ensures { IfOk result (λ copy. option_map string_bytes copy ≡ lent_text text.entry) }
{
    match text {
        None => Ok(None),
        Some(text) => Ok(Some(text.to_string(alloc)?)),
    }
}

fn lock_of(parts: LockParts, request: &LockRequest) -> DavLock
    requires path { parts.path ≡ request.now.path.now }
    requires principal { option_map string_bytes parts.principal ≡ lent_text request.now.principal }
    requires owner { option_map string_bytes parts.owner ≡ lent_text request.now.owner }
    ensures { result ≡ lock_for request.now (string_bytes parts.token) }
{
    let LockParts {
        token,
        path,
        principal,
        owner,
    } = parts;
    DavLock {
        token,
        path,
        principal,
        owner,
        timeout_at: request.timeout_at,
        timeout: request.timeout,
        shared: request.shared,
        deep: request.deep,
    }
}

// Draws a token, and writes it to two texts that have room for it.
fn draw_token<R: Rng>(rng: &mut R, first: &mut String, second: &mut String)
    requires first_room { string_len first.old + Urn.LENGTH ≤ string_capacity first.old }
    requires second_room { string_len second.old + Urn.LENGTH ≤ string_capacity second.old }
    ensures first { string_bytes first.new ≡ string_bytes first.old ++ (token_from (R.stream rng.old)).0 }
    ensures second { string_bytes second.new ≡ string_bytes second.old ++ (token_from (R.stream rng.old)).0 }
    ensures rest { R.stream rng.new ≡ (token_from (R.stream rng.old)).1 }
{
    let id = Uuid::new_v4(rng);
    let mut buffer = Uuid::encode_buffer();
    let text = id.urn().encode_lower(&mut buffer);
    if first.push_str(text).is_err() {
        unreachable!();
    }
    if second.push_str(text).is_err() {
        unreachable!();
    }
}

// The moment at which a timeout ends, at most the greatest moment.
pub(super) fn end_of_timeout(now: Moment, timeout: Option<u64>) -> Option<Moment>
    ensures { option_map (λ m. m.0) result ≡ end_of now.0 timeout }
{
    match timeout {
        None => None,
        Some(seconds) => Some(Moment(now.0.saturating_add(seconds.saturating_mul(1_000_000_000)))),
    }
}
