//! The lowest key that is on offer, of 64 keys at once.
ghost use Rattle.std.specs.Prelude.{◌≡◌, ◌<◌, ◌≤◌, ◌+◌, ◌*◌, ℕ, MatchOption, false, true};
ghost use Rattle.iso_desk.specs.Marking.{offers, room};
ghost use Rattle.iso_desk.specs.Offers.{offers_key};

use crate::marks::Marks;

/// The lowest key that is on offer to a party, by its number.
pub(crate) fn lowest_key(filled: &Marks, party: usize, held: &Marks, written: &Marks) -> Option<u32>
    requires filled { 576 * party + 576 ≤ room filled.now }
    requires held { 256 ≤ room held.now }
    requires written { 256 ≤ room written.now }
    ensures { MatchOption result ((k : ℕ) → k < 256
        → offers_key filled.now party held.now written.now k ≡ false)
        (λ k. (k < 256) × (offers_key filled.now party held.now written.now k ≡ true)
        × ((j : ℕ) → j < k → offers_key filled.now party held.now written.now j ≡ false)) }
{
    let first = 9 * party;
    'words: for at in 0..4usize {
        let reading = filled.word(first + at);
        let writing = filled.word(first + 4 + at);
        if let Some(bit) = lowest_offered(reading, written.word(at), writing, held.word(at)) {
            return Some(64 * at as u32 + bit);
        }
    }
    None
}

/// The lowest bit that is set in `reading` and not in `written`, or in `writing` and not in `held`.
pub(crate) fn lowest_offered(reading: u64, written: u64, writing: u64, held: u64) -> Option<u32>
    ensures { MatchOption result ((t : ℕ) → t < 64 → offers reading written writing held t ≡ false)
        (λ k. (k < 64) × (offers reading written writing held k ≡ true)
        × ((t : ℕ) → t < k → offers reading written writing held t ≡ false)) }
{
    let open = (reading & !written) | (writing & !held);
    if open == 0 {
        return None;
    }
    Some(open.trailing_zeros())
}
