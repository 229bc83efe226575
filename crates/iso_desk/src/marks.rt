//! Sets of numbers, as marks in words of 64 bits.
ghost use Rattle.std.specs.Prelude.{◌≡◌, ◌≤◌, ◌<◌, ◌*◌, ◌==◌, ℕ, IfOk, cond, false};
ghost use Rattle.iso_desk.specs.Marking.{bit, has, room, word_of};

use std::alloc::{AllocError, Global};

/// A set of numbers, for each of which it has room.
pub struct Marks {
    words: Vec<u64>,
}

impl Drop for Marks {
    fn drop(self) {
        let Marks { words: _ } = self;
    }
}

impl Marks {
    /// The empty set, with room for the numbers below `count`. It takes all memory that its calls
    /// need.
    pub fn new(alloc: Global, count: usize) -> Result<Marks, AllocError>
        ensures { IfOk result (λ s. (count ≤ room s) × ((k : ℕ) → has s k ≡ false)) }
    {
        let words = vec![in alloc; 0; count / 64 + 1]?;
        Ok(Marks { words })
    }

    /// Whether a number is in it.
    pub fn has(&self, number: usize) -> bool
        requires { number < room self.now }
        ensures { result ≡ has self.now number }
    {
        has_bit(self.words[number / 64], (number % 64) as u32)
    }

    /// Puts a number in, or takes it out.
    pub fn set(&mut self, number: usize, is_in: bool)
        requires { number < room self.old }
        ensures room { room self.new ≡ room self.old }
        ensures set { (k : ℕ) → has self.new k ≡ cond (k == number) is_in (has self.old k) }
    {
        let at = number / 64;
        self.words[at] = with_bit(self.words[at], (number % 64) as u32, is_in);
    }

    /// A word of 64 marks.
    pub(crate) fn word(&self, at: usize) -> u64
        requires { 64 * at < room self.now }
        ensures { result ≡ word_of self.now at }
    {
        self.words[at]
    }
}

/// Whether a bit of a word is set.
fn has_bit(word: u64, at: u32) -> bool
    requires { at < 64 }
    ensures { result ≡ bit word at }
{
    word >> at & 1 == 1
}

/// A word with a bit set or cleared.
fn with_bit(word: u64, at: u32, is_set: bool) -> u64
    requires { at < 64 }
    ensures { (t : ℕ) → t < 64 → bit result t ≡ cond (t == at) is_set (bit word t) }
{
    let one = 1u64 << at;
    if is_set { word | one } else { word & !one }
}
