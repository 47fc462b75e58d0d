//! Who may guess, and what a guess costs.
ghost use Rattle.std.specs.Prelude.{◌≡◌, ℕ, true, None, nat_eq};
ghost use Rattle.std.specs.HashMap.{get};
ghost use Rattle.dav_login_core.specs.Guessing.{AsksAt, CountsWrong, RefreshesBucket, TakesGuess, fresh, guessing, has_guess, may_guess, payer};

use crate::buckets::{Bucket, common_behind_hash};
use std::alloc::Global;
use std::collections::HashMap;

/// So many labels have a bucket of their own.
const MOST: usize = 65_536;

// It is looked for buckets that have rested so often, in nanoseconds.
const SWEEP: u64 = 1_000_000_000;

/// Limits of guesses (own). Who guesses is told by a label: the label of an address, as a rule.
#[derive(Drop)]
pub struct Guesses {
    pub(crate) buckets: HashMap<u64, Bucket>,
    pub(crate) strangers: Bucket,
    pub(crate) common: u128,
    pub(crate) latest: u64,
    swept: u64,
}

impl Guesses {
    /// Nobody has guessed.
    pub fn new(alloc: Global) -> Guesses
        ensures table { (q : ℕ) → (guessing result).table q ≡ None }
        ensures strangers { (guessing result).strangers ≡ fresh }
        ensures common { (guessing result).common ≡ 0 }
        ensures latest { (guessing result).latest ≡ 0 }
    {
        Guesses {
            buckets: HashMap::new(alloc),
            strangers: Bucket::fresh(),
            common: 0,
            latest: 0,
            swept: 0,
        }
    }

    /// Whether a guess of the label is let through at this moment, in nanoseconds of a clock: then what a hash costs is taken. Where the clock goes back, it is still the last moment.
    pub fn take(&mut self, label: u64, now: u64) -> bool
        ensures { TakesGuess now label result (guessing self.old) (guessing self.new) }
    {
        if !self.ask(label, now) {
            return false;
        }
        self.common = common_behind_hash(self.common, self.latest);
        true
    }

    // Whether a guess of the label is let through at this moment. It costs nothing.
    fn ask(&mut self, label: u64, now: u64) -> bool
        ensures asks { AsksAt now (guessing self.old) (guessing self.new) }
        ensures may { result ≡ may_guess (guessing self.new) label }
    {
        self.latest = self.latest.max(now);
        self.seat(label);
        self.payer(label).may(self.common, self.latest)
    }

    /// Takes word that a guess of the label, which was let through at the last moment, was wrong.
    pub fn count_wrong(&mut self, label: u64)
        requires { has_guess (payer (guessing self.old) label) (guessing self.old).latest ≡ true }
        ensures { CountsWrong label (guessing self.old) (guessing self.new) }
    {
        let behind_guess = self.payer(label).behind_guess(self.latest);
        if self.buckets.contains_key(&label) {
            let _before = self.buckets.insert(label, behind_guess);
        } else {
            self.strangers = behind_guess;
        }
    }

    // The bucket that pays for the label.
    fn payer(&self, label: u64) -> Bucket
        ensures { result ≡ payer (guessing self.now) label }
    {
        match self.buckets.get(&label) {
            Some(bucket) => *bucket,
            None => self.strangers,
        }
    }

    // Gives the label a bucket of its own, where there is room and memory.
    fn seat(&mut self, label: u64)
        ensures table { (q : ℕ) → RefreshesBucket self.old.latest (get nat_eq self.old.buckets q) (get nat_eq self.new.buckets q) }
        ensures strangers { self.new.strangers ≡ self.old.strangers }
        ensures common { self.new.common ≡ self.old.common }
        ensures latest { self.new.latest ≡ self.old.latest }
    {
        if self.buckets.contains_key(&label) {
            return;
        }
        self.make_room();
        if self.buckets.len() < MOST {
            let _seated = self.buckets.insert(label, Bucket::fresh());
        }
    }

    // Forgets the buckets that have rested, where there are too many, and a second after the last time at the earliest.
    fn make_room(&mut self)
        ensures table { (q : ℕ) → RefreshesBucket self.old.latest (get nat_eq self.old.buckets q) (get nat_eq self.new.buckets q) }
        ensures strangers { self.new.strangers ≡ self.old.strangers }
        ensures common { self.new.common ≡ self.old.common }
        ensures latest { self.new.latest ≡ self.old.latest }
    {
        let now = self.latest;
        if self.buckets.len() >= MOST && now.saturating_sub(self.swept) >= SWEEP {
            self.swept = now;
            self.buckets.retain(|_, bucket| !bucket.has_rested(now));
        }
    }
}
