ghost use Rattle.std.specs.Prelude.{◌≡◌, ◌≢◌, ℕ, ◌+◌, ◌/◌, ◌%◌, ◌<◌, ◌≤◌, ◌&&◌, false, true, nat_lt};
ghost use Rattle.std.specs.Int.{bit_at};
ghost use Rattle.replay_set.specs.Ring.{is_marked};

/// How many words a ring has.
const WORDS: usize = 16;

/// How many numbers have bits of their own.
const PLACES: u64 = 1024;

/// Which of the newest 1,024 numbers are marked: the bit of a number stands at its place modulo
/// 1,024, in words of 64 bits (RFC 6479).
#[derive(Drop)]
pub(crate) struct Ring {
    words: [u64; WORDS],
}

impl Ring {
    /// No number is marked.
    pub(crate) fn new() -> Ring
        ensures { (n : ℕ) → is_marked result.words n ≡ false }
    {
        Ring { words: [0; WORDS] }
    }

    /// Whether the mark that stands at the place of a number is set.
    pub(crate) fn has(&self, n: u64) -> bool
        ensures { result ≡ is_marked self.now.words n }
    {
        (self.words[word_of(n)] >> (n % 64)) & 1 == 1
    }

    /// Marks a number.
    pub(crate) fn mark(&mut self, n: u64)
        ensures marked { is_marked self.new.words n ≡ true }
        ensures others { (m : ℕ) → m % 1024 ≢ n % 1024
            → is_marked self.new.words m ≡ is_marked self.old.words m }
    {
        self.words[word_of(n)] |= 1 << (n % 64);
    }

    /// Takes the marks from the numbers from `from` on and below `to`. The others of the 1,024
    /// below `to` keep theirs.
    pub(crate) fn clear(&mut self, from: u64, to: u64)
        requires { from < to }
        ensures { (m : ℕ) → m < to → to ≤ m + 1024
            → is_marked self.new.words m ≡ (nat_lt m from && is_marked self.old.words m) }
    {
        if to - from >= PLACES {
            self.words = [0; WORDS];
            return;
        }
        for block in from / 64..(to - 1) / 64 + 1 {
            let start = block * 64;
            let bits = bits_between(from.saturating_sub(start), (to - start).min(64));
            self.words[(block % 16) as usize] &= !bits;
        }
    }
}

/// The word in which the bit of a number stands.
fn word_of(n: u64) -> usize
    ensures { result ≡ n / 64 % 16 }
{
    (n / 64 % 16) as usize
}

/// The bits from `low` on and below `high`.
fn bits_between(low: u64, high: u64) -> u64
    requires some { low < high }
    requires within { high ≤ 64 }
    ensures inside { (i : ℕ) → low ≤ i → i < high → bit_at result i ≡ 1 }
    ensures below { (i : ℕ) → i < low → bit_at result i ≡ 0 }
    ensures above { (i : ℕ) → high ≤ i → bit_at result i ≡ 0 }
{
    (u64::MAX << low) & (u64::MAX >> (64 - high))
}
