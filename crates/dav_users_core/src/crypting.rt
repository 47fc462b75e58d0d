//! The sum of a password (U. Drepper, "Unix crypt using SHA-256 and SHA-512", version 0.6).
ghost use Rattle.std.specs.Prelude.{ℕ, List, ◌≡◌, ◌≤◌, ◌-◌, ◌++◌, [], codes, length, take};
ghost use Rattle.arrayvec.specs.ArrayVec.{array_vec_len};
ghost use Rattle.dav_users_core.specs.Crypt.{by_digit, by_digits, crypt, repeat_up_to, first_sum, mixed_sum, password_bytes, round, rounds, salt_bytes, times};

use crate::hashing::{Hash, Sum, kept};
use arrayvec::ArrayVec;

/// No password has more bytes.
pub(crate) const LONGEST: usize = 128;

type Text = ArrayVec<u8, LONGEST>;

/// The sum of a password under a salt, by so many rounds.
pub(crate) fn crypt<H: Hash>(count: u32, password: &[u8], salt: &[u8]) -> Sum
    requires password { length password.now ≤ 128 }
    requires salt { length salt.now ≤ 16 }
    ensures { result.items ≡ crypt H.digest count password.now salt.now }
{
    let first = first_sum::<H>(password, salt);
    let p = password_bytes::<H>(password);
    let s = salt_bytes::<H>(first.as_slice(), salt);
    rounds::<H>(&p, &s, first, count)
}

/// So many rounds by a password, which begin with no sum and have a salt of 16 letters: the work of such a hash, and the sum of nobody.
pub(crate) fn rounds_in_vain<H: Hash>(count: u32, password: &[u8]) -> Sum
    requires { length password.now ≤ 128 }
    ensures { result.items ≡ rounds H.digest password.now (codes "................") [] count }
{
    rounds::<H>(
        &kept(password),
        &kept(b"................"),
        Sum::new(),
        count,
    )
}

// Steps 1 to 12.
fn first_sum<H: Hash>(password: &[u8], salt: &[u8]) -> Sum
    requires password { length password.now ≤ 128 }
    ensures { result.items ≡ first_sum H.digest password.now salt.now }
{
    let mixed = mixed_sum::<H>(password, salt);
    let filling = repeat_up_to(mixed.as_slice(), password.len());
    let mut hash = H::begin();
    hash.add(password);
    hash.add(salt);
    hash.add(filling.as_slice());
    add_by_digits(&mut hash, password.len(), mixed.as_slice(), password);
    hash.end()
}

// Steps 4 to 8.
fn mixed_sum<H: Hash>(password: &[u8], salt: &[u8]) -> Sum
    ensures { result.items ≡ mixed_sum H.digest password.now salt.now }
{
    let mut hash = H::begin();
    hash.add(password);
    hash.add(salt);
    hash.add(password);
    hash.end()
}

// Steps 11 and 12: for each binary digit of the number, one or the other.
fn add_by_digits<H: Hash>(hash: &mut H, number: usize, one: &[u8], other: &[u8])
    ensures { (m : List ℕ) → H.holds hash.old m
        → H.holds hash.new (m ++ by_digits number number one.now other.now) }
{
    let mut rest = number;
    'digits: for _ in 0..number {
        add_by_digit(hash, rest, one, other);
        rest /= 2;
    }
}

// The same for the lowest digit alone.
fn add_by_digit<H: Hash>(hash: &mut H, number: usize, one: &[u8], other: &[u8])
    ensures { (m : List ℕ) → H.holds hash.old m
        → H.holds hash.new (m ++ by_digit number one.now other.now) }
{
    if number == 0 {
        return;
    }
    if number % 2 == 1 {
        hash.add(one);
        return;
    }
    hash.add(other);
}

// Steps 13 to 16.
fn password_bytes<H: Hash>(password: &[u8]) -> Text
    requires { length password.now ≤ 128 }
    ensures { result.items ≡ password_bytes H.digest password.now }
{
    let sum = times_sum::<H>(password, password.len());
    repeat_up_to(sum.as_slice(), password.len())
}

// Steps 17 to 20.
fn salt_bytes<H: Hash>(first: &[u8], salt: &[u8]) -> Text
    requires { length salt.now ≤ 16 }
    ensures { result.items ≡ salt_bytes H.digest first.now salt.now }
{
    let more = match first.first() {
        Some(byte) => *byte as usize,
        None => 0,
    };
    let sum = times_sum::<H>(salt, 16 + more);
    repeat_up_to(sum.as_slice(), salt.len())
}

// The sum of so many times the bytes.
fn times_sum<H: Hash>(bytes: &[u8], count: usize) -> Sum
    ensures { result.items ≡ H.digest (times count bytes.now) }
{
    let mut hash = H::begin();
    'adding: for _ in 0..count {
        hash.add(bytes);
    }
    hash.end()
}

// Step 21.
fn rounds<H: Hash>(p: &Text, s: &Text, first: Sum, count: u32) -> Sum
    ensures { result.items ≡ rounds H.digest p.now.items s.now.items first.items count }
{
    let mut sum = first;
    'rounds: for number in 0..count {
        sum = round::<H>(p.as_slice(), s.as_slice(), number, sum.as_slice());
    }
    sum
}

// Step 21, once.
fn round<H: Hash>(p: &[u8], s: &[u8], number: u32, sum: &[u8]) -> Sum
    ensures { result.items ≡ round H.digest p.now s.now number sum.now }
{
    let is_odd = number % 2 == 1;
    let mut hash = H::begin();
    hash.add(if is_odd { p } else { sum });
    hash.add(if number % 3 == 0 { &[] } else { s });
    hash.add(if number % 7 == 0 { &[] } else { p });
    hash.add(if is_odd { sum } else { p });
    hash.end()
}

// The first so many of the bytes, repeated as often as is needed.
fn repeat_up_to(bytes: &[u8], count: usize) -> Text
    requires { count ≤ 128 }
    ensures { result.items ≡ repeat_up_to count bytes.now }
{
    let mut text = Text::new();
    'filling: for _ in 0..count {
        fill(&mut text, bytes, count);
    }
    text
}

// The bytes once more, up to so many in all.
fn fill(text: &mut Text, bytes: &[u8], count: usize)
    requires fits { count ≤ 128 }
    requires room { array_vec_len text.old ≤ count }
    ensures items { text.new.items ≡ text.old.items ++ take (count - array_vec_len text.old) bytes.now }
    ensures len { array_vec_len text.new ≤ count }
{
    let part = bytes.len().min(count - text.len());
    if text.try_extend_from_slice(&bytes[..part]).is_err() {
        unreachable!();
    }
}
