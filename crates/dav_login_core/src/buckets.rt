//! Buckets of guesses.
ghost use Rattle.std.specs.Prelude.{◌≡◌, true};
ghost use Rattle.dav_login_core.specs.Guessing.{behind_guess, common_behind_hash, fresh, has_guess, has_half, has_one, has_rested, has_share, may};

/// A second, in nanoseconds.
const SECOND: u128 = 1_000_000_000;

/// The common bucket gets one in so much time.
const SHARE: u128 = 50_000_000;

/// Five guesses, and one more each second (own).
#[derive(Clone, Copy)]
pub struct Bucket {
    /// When it is full, in nanoseconds of the clock.
    pub full: u128,
    /// When a minute has passed since its last wrong guess.
    pub rested: u128,
}

impl Bucket {
    /// A bucket that is full, and was never used.
    pub(crate) fn fresh() -> Bucket
        ensures { result ≡ fresh }
    {
        Bucket { full: 0, rested: 0 }
    }

    /// Whether one guess is let through at this moment, where the common bucket is full at that one.
    pub(crate) fn may(self, common: u128, now: u64) -> bool
        ensures { result ≡ may self common now }
    {
        if self.has_rested(now) {
            has_share(common, now)
        } else {
            self.has_one(now) && has_half(common, now)
        }
    }

    pub(crate) fn has_rested(self, now: u64) -> bool
        ensures { result ≡ has_rested self now }
    {
        self.rested <= u128::from(now)
    }

    fn has_one(self, now: u64) -> bool
        ensures { result ≡ has_one self now }
    {
        self.full <= u128::from(now) + 4 * SECOND
    }

    /// The bucket behind a wrong guess at this moment.
    pub(crate) fn behind_guess(self, now: u64) -> Bucket
        requires { has_guess self now ≡ true }
        ensures { result ≡ behind_guess self now }
    {
        let now = u128::from(now);
        let full = if self.rested <= now {
            now
        } else {
            self.full.max(now)
        };
        Bucket {
            full: full + SECOND,
            rested: now + 60 * SECOND,
        }
    }
}

fn has_share(common: u128, now: u64) -> bool
    ensures { result ≡ has_share common now }
{
    common <= u128::from(now) + 19 * SHARE
}

fn has_half(common: u128, now: u64) -> bool
    ensures { result ≡ has_half common now }
{
    common <= u128::from(now) + 10 * SHARE
}

/// When the common bucket is full, behind a hash at this moment.
pub(crate) fn common_behind_hash(common: u128, now: u64) -> u128
    requires { has_share common now ≡ true }
    ensures { result ≡ common_behind_hash common now }
{
    common.max(u128::from(now)) + SHARE
}
