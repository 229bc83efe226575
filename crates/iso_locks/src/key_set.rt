//! Sets of key numbers, as bits in words of 64.
ghost use Rattle.std.specs.Prelude.{◌≡◌, ◌≤◌, ◌<◌, ◌==◌, ℕ, MatchOption, cond, false, true};
ghost use Rattle.iso_desk.specs.Marking.{bit};
ghost use Rattle.iso_locks.specs.KeySets.{holds};

/// How many numbers there are: no plan has more keys.
pub(crate) const NUMBERS: usize = 256;

/// A set of numbers below 256. To make one or copy it takes no memory.
#[derive(Clone, Copy)]
pub(crate) struct KeySet {
    words: [u64; 4],
}

impl KeySet {
    /// The empty set.
    pub fn new() -> KeySet
        ensures { (k : ℕ) → holds result k ≡ false }
    {
        KeySet { words: [0; 4] }
    }

    /// Whether a number is in it.
    pub fn has(&self, number: usize) -> bool
        requires { number < 256 }
        ensures { result ≡ holds self.now number }
    {
        self.words[number / 64] >> (number % 64) as u32 & 1 == 1
    }

    /// Puts a number in, or takes it out.
    pub fn set(&mut self, number: usize, is_in: bool)
        requires { number < 256 }
        ensures { (k : ℕ) → holds self.new k ≡ cond (k == number) is_in (holds self.old k) }
    {
        let at = number / 64;
        self.words[at] = with_bit(self.words[at], (number % 64) as u32, is_in);
    }

    /// The lowest number in it from one on.
    pub fn next(&self, from: usize) -> Option<usize>
        ensures { MatchOption result ((k : ℕ) → from ≤ k → holds self.now k ≡ false)
            (λ n. (from ≤ n) × (n < 256) × (holds self.now n ≡ true)
            × ((k : ℕ) → from ≤ k → k < n → holds self.now k ≡ false)) }
    {
        let mut at = from;
        'words: while at < NUMBERS {
            match lowest_from(self.words[at / 64], (at % 64) as u32) {
                Some(bit) => return Some(at / 64 * 64 + bit as usize),
                None => at = (at / 64 + 1) * 64,
            }
        }
        None
    }
}

/// A word with a bit set or cleared.
fn with_bit(word: u64, at: u32, is_set: bool) -> u64
    requires { at < 64 }
    ensures { (t : ℕ) → t < 64 → bit result t ≡ cond (t == at) is_set (bit word t) }
{
    let one = 1u64 << at;
    if is_set { word | one } else { word & !one }
}

/// The lowest bit of a word that is set, from one on.
fn lowest_from(word: u64, from: u32) -> Option<u32>
    requires { from < 64 }
    ensures { MatchOption result ((t : ℕ) → from ≤ t → bit word t ≡ false)
        (λ b. (from ≤ b) × (b < 64) × (bit word b ≡ true)
        × ((t : ℕ) → from ≤ t → t < b → bit word t ≡ false)) }
{
    let rest = word >> from;
    if rest == 0 {
        return None;
    }
    Some(from + rest.trailing_zeros())
}
