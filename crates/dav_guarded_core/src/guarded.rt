//! Requests on the stores. What a clause sees of a `Guarded` is its two stores, a resource map and a list of locks (`Stores`); requests and answers are
//! plain data there (`request_of`, `answer_of`), and `Step` says what one request does.
//! Read `apply` first, and then `run`.
ghost use Rattle.std.specs.Prelude.{◌≡◌, ℕ, List, ◌≤◌, ◌<◌, ◌+◌, ◌++◌, ◌∷◌, [], map, vec_len, vec_capacity, IfOk, OnOk, OnErr, MatchResult};
ghost use Rattle.rand_core.specs.Stream.{Stream};
ghost use Rattle.dav_files_core.specs.Resources.{IsResourceMap};
ghost use Rattle.dav_locks_core.specs.Exclusive.{Exclusive};
ghost use Rattle.dav_locks_core.specs.Stale.{without_stale};
ghost use Rattle.dav_guarded_core.specs.Step.{State, Step, Run, Serves, start_of};
ghost use Rattle.dav_guarded_core.specs.Requests as plain;
ghost use Rattle.dav_guarded_core.specs.Alone.{HoldersAlone};
ghost use Rattle.dav_guarded_core.specs.Isolation.{EndsNamed, NewShown, EachNewShown, UntouchedStand, Isolated, AnyIsolated, EachExclusive, EachShape, EachEndsNamed, EachIsolated, EachAnyIsolated, UntouchedIsolated, KeepsLocks};
ghost use Rattle.dav_guarded_core.specs.Stores.{start_stores, state_of};
ghost use Rattle.dav_guarded_core.specs.Served.{request_of, answer_of};

mod checks;
mod files;
mod inspecting;
mod laws;
mod locks;
mod requests;
mod restoring;
#[cfg(test)]
mod tests;

use dav_files_core::fs::Moment;
use dav_files_core::memfs::MemFs;
use dav_locks_core::ls::DavLockSystem;
use dav_locks_core::memls::MemLs;
use dav_path_core::errors::{FsError, FsResult};
use files::apply_to_files;
pub use inspecting::Inspection;
pub use laws::{commands_keep_to_folders, holders_are_let_in, runs_join, runs_keep_shape};
use rand_core::Rng;
pub use requests::{Command, Refusal, Reply, Request};
use std::alloc::{AllocError, Global};
use std::marker::Model;

/// The stores, which requests alone reach.
#[derive(Debug, Drop)]
pub struct Guarded {
    alloc: Global,
    fs: MemFs,
    locks: MemLs,
}

impl Model for Guarded {
    ghost use Rattle.dav_files_core.specs.Resources.{IsResourceMap};
    ghost use Rattle.dav_locks_core.specs.Exclusive.{Exclusive};
    ghost use Rattle.dav_guarded_core.specs.Stores.{Stores, coded_stores};

    ghost Value = { Stores };

    ghost coded = { coded_stores };

    ghost view = { λ g. record { map = g.fs; locks = g.locks } };

    ghost invariant = { λ g. Exclusive g.locks × IsResourceMap g.fs };
}

impl Guarded {
    /// A root folder alone, with both times `now`, and no lock. `InsufficientStorage` where it is out of memory.
    pub fn new(alloc: Global, now: Moment) -> FsResult<Guarded>
        ensures answer { MatchResult result (λ g. g ≡ start_stores now.0) (λ e. e ≡ FsError.InsufficientStorage) }
        ensures shape { IfOk result (λ g. IsResourceMap g.map) }
    {
        let fs = MemFs::new(alloc, now)?;
        let locks = MemLs::new(alloc)?;
        Ok(Guarded { alloc, fs, locks })
    }

    /// Answers one request. First, and whatever the answer, the locks are dropped that have expired at its moment. Locks in the way
    /// come before any other refusal but out of memory. A granted lock alone draws from the generator; on every other answer it
    /// stays as it was.
    pub fn apply<R: Rng>(&mut self, request: &Request, rng: &mut R) -> Result<Reply, Refusal>
        ensures step { Step (state_of self.old (R.stream rng.old)) (request_of request.entry.now) (answer_of result)
            (state_of self.new (R.stream rng.new)) }

        ensures shape { IsResourceMap self.new.map }

        // Two locks that cover one path are both shared.
        ensures exclusive { Exclusive self.new.locks }
        // A path under an exclusive lock changes only by a request that names its token under its principal.
        ensures isolated { Isolated (start_of (request_of request.entry.now) (state_of self.old (R.stream rng.old))) (request_of request.entry.now)
            (state_of self.new (R.stream rng.new)) }
        // A path under any lock changes only by a request that names, as its holder, a lock that covers it or a front of it.
        ensures any_isolated { AnyIsolated (start_of (request_of request.entry.now) (state_of self.old (R.stream rng.old))) (request_of request.entry.now)
            (state_of self.new (R.stream rng.new)) }
        // A lock ends only where its token is named or its moment has come.
        ensures ends_named { EndsNamed (state_of self.old (R.stream rng.old)) (request_of request.entry.now)
            (state_of self.new (R.stream rng.new)) }
        // A lock that was not there as it is now is the one that the answer shows.
        ensures new_shown { NewShown (state_of self.old (R.stream rng.old)) (answer_of result) (state_of self.new (R.stream rng.new)) }
    {
        self.locks.expire(request.now);
        self.apply_to_live(request, rng)
    }

    // Answers one request in stores without expired locks: refused by its checks, else done on the files or on the locks.
    fn apply_to_live<R: Rng>(&mut self, request: &Request, rng: &mut R) -> Result<Reply, Refusal>
        requires fresh { without_stale request.now.now.0 self.old.locks ≡ self.old.locks }
        requires exclusive { Exclusive self.old.locks }
        requires shape { IsResourceMap self.old.map }
        ensures step { Serves (state_of self.old (R.stream rng.old)) (request_of request.entry.now) (answer_of result)
            (state_of self.new (R.stream rng.new)) }
        ensures exclusive { Exclusive self.new.locks }
        ensures shape { IsResourceMap self.new.map }
    {
        self.check_command(request)?;
        match &request.command {
            Command::Lock { .. }
            | Command::Unlock { .. }
            | Command::Refresh { .. }
            | Command::Discover { .. }
            | Command::Check { .. } => return self.apply_to_locks(request, rng),
            _ => {
                let reply = apply_to_files(&mut self.fs, &request.command, request.now)?;
                self.drop_locks(request);
                return Ok(reply);
            }
        }
    }

    /// Answers requests in order, one answer each; a refusal ends nothing. `AllocError` where there is no room for the
    /// answers: nothing was done.
    ///
    /// Through every run of requests from empty stores, each answer is that of a finite map of paths and a list of locks; two
    /// locks that cover one path are both shared; a path under an exclusive lock changes only by a request that names its token
    /// under its principal; a lock ends only where its token is named or its moment has come. (Accepted paths and `If` values are exactly the written
    /// grammars': `DavPath::new` and `If::decode`.)
    pub fn run<R: Rng>(
        &mut self,
        requests: &[Request],
        rng: &mut R,
    ) -> Result<Vec<Result<Reply, Refusal>>, AllocError>
        ensures run { IfOk result (λ answers. Run (state_of self.old (R.stream rng.old)) (map request_of requests.now)
            (map answer_of answers.items) (state_of self.new (R.stream rng.new))) }
        ensures unchanged { OnErr result (self.new ≡ self.old) }
        ensures undrawn { OnErr result (R.stream rng.new ≡ R.stream rng.old) }

        // Two locks that cover one path are both shared, at the end and after each step.
        ensures exclusive { Exclusive self.old.locks × Exclusive self.new.locks }
        ensures each_exclusive { IfOk result (λ answers. EachExclusive (state_of self.old (R.stream rng.old))
            (map request_of requests.now) (map answer_of answers.items) (state_of self.new (R.stream rng.new))) }
        // The map is a resource map, at the end and after each step.
        ensures shape { IsResourceMap self.old.map × IsResourceMap self.new.map }
        ensures each_shape { IfOk result (λ answers. EachShape (state_of self.old (R.stream rng.old))
            (map request_of requests.now) (map answer_of answers.items) (state_of self.new (R.stream rng.new))) }
        // In each step a path under a lock changes only by a request that names such a lock, and a lock ends only where its
        // token is named or its moment has come.
        ensures each_isolated { IfOk result (λ answers. EachIsolated (state_of self.old (R.stream rng.old))
            (map request_of requests.now) (map answer_of answers.items) (state_of self.new (R.stream rng.new))) }
        ensures each_any_isolated { IfOk result (λ answers. EachAnyIsolated (state_of self.old (R.stream rng.old))
            (map request_of requests.now) (map answer_of answers.items) (state_of self.new (R.stream rng.new))) }
        ensures each_ends_named { IfOk result (λ answers. EachEndsNamed (state_of self.old (R.stream rng.old))
            (map request_of requests.now) (map answer_of answers.items) (state_of self.new (R.stream rng.new))) }
        // In each step a lock that was not there as it is then is the one that the answer shows.
        ensures each_new_shown { IfOk result (λ answers. EachNewShown (state_of self.old (R.stream rng.old))
            (map request_of requests.now) (map answer_of answers.items) (state_of self.new (R.stream rng.new))) }
        // The locks of the start that no request names or refreshes, and that expire at none, stand at the end as they were,
        // and what an exclusive one of them covers is as it was.
        ensures stand { OnOk result (UntouchedStand (state_of self.old (R.stream rng.old)) (map request_of requests.now)
            (state_of self.new (R.stream rng.new))) }
        ensures kept { OnOk result (UntouchedIsolated (state_of self.old (R.stream rng.old))
            (map request_of requests.now) (state_of self.new (R.stream rng.new))) }
        // The requests of the holder of an exclusive deep lock that lasts, where all are below the lock's path, are answered as if no
        // others were there.
        ensures alone { IfOk result (λ answers. HoldersAlone (state_of self.old (R.stream rng.old))
            (map request_of requests.now) (map answer_of answers.items)) }
    {
        self.run_all(requests, rng)
    }

    // The loop of `run`.
    fn run_all<R: Rng>(
        &mut self,
        requests: &[Request],
        rng: &mut R,
    ) -> Result<Vec<Result<Reply, Refusal>>, AllocError>
        ensures run { IfOk result (λ answers. Run (state_of self.old (R.stream rng.old)) (map request_of requests.now)
            (map answer_of answers.items) (state_of self.new (R.stream rng.new))) }
        ensures unchanged { OnErr result (self.new ≡ self.old) }
        ensures undrawn { OnErr result (R.stream rng.new ≡ R.stream rng.old) }
        ensures exclusive { Exclusive self.old.locks × Exclusive self.new.locks }
        ensures shape { IsResourceMap self.old.map × IsResourceMap self.new.map }
    {
        let mut answers = Vec::with_capacity(self.alloc, requests.len())?;
        for request in requests {
            let answer = self.apply(request, rng);
            add_answer(&mut answers, answer);
        }
        Ok(answers)
    }
}

/// The law of every run of requests from stores in which two locks that cover one path are both shared, as they are in the stores of a
/// new `Guarded` and in all that follow (RFC 4918 sections 6 and 7): that stays so; a path under an exclusive lock changes only by a
/// request that names its token under its principal; a lock ends only where its token is named or its moment has come; and what no
/// request touches stands. `Guarded::run` ensures that it is such a run, and `runs_join` that runs are one where they follow one another.
pub fn runs_keep_locks()
    ensures { (start : State) (requests : List plain.Request) (answers : List plain.Answer) (end : State)
        → Exclusive start.locks → Run start requests answers end → KeepsLocks start requests answers end }
{}

// Adds an answer where there is room for it.
fn add_answer(answers: &mut Vec<Result<Reply, Refusal>>, answer: Result<Reply, Refusal>)
    requires { vec_len answers.old < vec_capacity answers.old }
    ensures items { answers.new.items ≡ answers.old.items ++ answer ∷ [] }
    ensures len { vec_len answers.new ≡ vec_len answers.old + 1 }
    ensures room { vec_capacity answers.old ≤ vec_capacity answers.new }
{
    if answers.push(answer).is_err() {
        unreachable!();
    }
}
