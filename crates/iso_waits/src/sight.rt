//! Who is in the way at a moment, and for how long.
ghost use Rattle.std.specs.Prelude.{◌≡◌, ◌≤◌, ◌<◌, ℕ};
ghost use Rattle.std.specs.List.Sorted.{IsNonDecreasingBy};
ghost use Rattle.iso_waits.specs.Moments.{begin_of, lower, lowest_at};

use crate::stay::Stay;

/// The lowest node that is entered at a moment, if one is, and a later moment before which none
/// other is.
#[derive(Clone, Copy)]
pub(crate) struct Sight {
    pub holder: Option<u32>,
    pub until: u64,
}

/// What is seen at a moment, at most up to another, of stays in the order of their begins.
pub(crate) fn sight_at(stays: &[Stay], at: u64, until: u64) -> Sight
    requires order { IsNonDecreasingBy begin_of stays.now }
    requires later { at < until }
    ensures later { at < result.until }
    ensures within { result.until ≤ until }
    ensures same { (t : ℕ) → at ≤ t → t < result.until → lowest_at t stays.now ≡ result.holder }
{
    let mut holder = None;
    let mut end = until;
    for stay in stays {
        if at < stay.begin {
            return Sight {
                holder,
                until: end.min(stay.begin),
            };
        }
        if at < stay.end {
            holder = Some(lower(holder, stay.node));
            end = end.min(stay.end);
        }
    }
    Sight { holder, until: end }
}

/// The lower of a node that was found, if one was, and another.
fn lower(found: Option<u32>, node: u32) -> u32
    ensures { result ≡ lower found node }
{
    match found {
        Some(found) => found.min(node),
        None => node,
    }
}
