//! What a journal is read from.
ghost use Rattle.std.specs.Prelude.{◌≡◌, ◌+◌, ◌<◌, ◌≤◌, ◌++◌, ℕ, List, Ok, length, take, drop, Some, IfOk, IfSome, OnErr};
ghost use Rattle.journal_core.specs.Sources.{GivesFrom};

use std::io::{self, Read};

/// A file that is read from its front to its end, where each call notes the moment beside a note (own).
pub trait Source<N> {
    // It stands at this place of a file that holds these bytes.
    ghost is_at: { Self → List ℕ → ℕ → Type 0 };

    // No wrong answer was taken as true.
    ghost is_honest: { Self → Type 0 };

    // It may be asked for more.
    ghost is_usable: { Self → Type 0 };

    // The second state came from the first by reading alone, and each moment between was noted beside this.
    ghost looks: { N → Self → Self → Type 0 };

    // Between the two a call failed.
    ghost fails: { Self → Self → Type 0 };

    /// Reads as many bytes as there is room for; fewer where the file ends. `Err` where a read failed.
    fn fill(&mut self, note: &N, buf: &mut [u8]) -> io::Result<usize>
        requires { is_usable self.old }
        ensures bound { IfOk result (λ n. n ≤ length buf.new) }
        ensures fills { IfOk result (λ n. (file : List ℕ) (at : ℕ) → is_at self.old file at → is_at self.new file (at + n) × (is_honest self.new → take n buf.new ≡ take n (drop at file))) }
        ensures ends { IfOk result (λ n. (file : List ℕ) (at : ℕ) → is_at self.old file at → is_honest self.new → n < length buf.old → length file ≡ at + n) }
        ensures fails { OnErr result ((file : List ℕ) (at : ℕ) → is_at self.old file at → fails self.old self.new) }
        ensures honest { is_honest self.new → is_honest self.old }
        ensures looks { looks note.now self.old self.new }
        ensures usable { is_usable self.new };

    /// How many bytes are left, where that is known.
    fn left(&self) -> Option<usize>
        ensures { IfSome result (λ n. (file : List ℕ) (at : ℕ) → is_at self.now file at → is_honest self.now → length file ≤ at + n) };

    // To look once more is to look.
    ghost looks_not: { (note : N) (s : Self) → looks note s s };

    ghost looks_on: { (note : N) (a b c : Self) → looks note a b → looks note b c → looks note a c };

    ghost fails_later: { (note : N) (a b c : Self) → looks note a b → fails b c → fails a c };
}

/// What a reader gives, from its front (own).
#[derive(Drop)]
pub struct Stream<R> {
    reader: R,
}

impl<R: Read> Stream<R> {
    /// What this reader gives, of which nothing was read yet (own).
    pub fn new(reader: R) -> Stream<R>
        ensures { (file : List ℕ) → R.Read.remaining reader ≡ Some file → GivesFrom R.Read.remaining result file 0 }
    {
        Stream { reader }
    }

    // Reads behind the bytes that are there, which are so many; none where nothing is left.
    fn read_behind(&mut self, count: usize, buf: &mut [u8]) -> io::Result<usize>
        requires { count < length buf.old }
        ensures bound { IfOk result (λ n. count + n ≤ length buf.new) }
        ensures reads { IfOk result (λ n. (file : List ℕ) (at : ℕ) → GivesFrom R.Read.remaining self.old file at
            → GivesFrom R.Read.remaining self.new file (at + n) × (take (count + n) buf.new ≡ take count buf.old ++ take n (drop at file))) }
        ensures ends { result ≡ Ok 0 → (file : List ℕ) (at : ℕ) → GivesFrom R.Read.remaining self.old file at → length file ≡ at }
    {
        self.reader.read(&mut buf[count..])
    }
}

impl<R: Read> Source<()> for Stream<R> {
    ghost is_at = { GivesFrom R.Read.remaining };

    ghost is_honest = { λ _. Unit {0} };

    ghost is_usable = { λ _. Unit {0} };

    ghost looks = { λ _ _ _. Unit {0} };

    ghost fails = { λ _ _. Unit {0} };

    fn fill(&mut self, _note: &(), buf: &mut [u8]) -> io::Result<usize> {
        let mut count = 0;
        'filling: while count < buf.len() {
            let more = self.read_behind(count, buf)?;
            if more == 0 {
                return Ok(count);
            }
            count += more;
        }
        Ok(count)
    }

    fn left(&self) -> Option<usize> {
        None
    }

    ghost looks_not = { λ _ _. tt };

    ghost looks_on = { λ _ _ _ _ _ _. tt };

    ghost fails_later = { λ _ _ _ _ _ _. tt };
}
