//! When nodes were entered and hadn't finished.
ghost use Rattle.std.specs.Prelude.{◌≡◌, ◌≤◌, ◌<◌, ℕ};
ghost use Rattle.std.specs.List.Sorted.{IsNonDecreasingBy};
ghost use Rattle.iso_waits.specs.Moments.{begin_of, lowest_at};
ghost use Rattle.iso_waits.specs.Stays.{stayed};

use iso_lifecycle::kind::BodyKind;
use iso_times::times::Times;

/// A node, from the begin of its first body until the end of its last one, in nanoseconds from the
/// first begin of all bodies.
#[derive(Clone, Copy)]
pub struct Stay {
    pub node: u32,
    pub begin: u64,
    pub end: u64,
}

/// When a node was entered and hadn't finished. None where its first body has no time. A class
/// whose `after_all` has none, since a clock failed, counts as finished when its `before_all` had
/// ended.
pub fn stayed(times: &Times, node: u32) -> Option<Stay>
    ensures { result ≡ stayed times.now node }
{
    let first = times.body(node, BodyKind::BeforeAll)?;
    let last = match times.body(node, BodyKind::AfterAll) {
        Some(last) => last,
        None => first,
    };
    Some(Stay {
        node,
        begin: first.begin,
        end: last.end,
    })
}

/// Stays in the order of their begins without the first ones that are over at a moment.
pub(crate) fn unfinished(stays: &[Stay], at: u64) -> &[Stay]
    requires { IsNonDecreasingBy begin_of stays.now }
    ensures order { IsNonDecreasingBy begin_of result.now }
    ensures same { (t : ℕ) → at ≤ t → lowest_at t result.now ≡ lowest_at t stays.now }
{
    for (i, stay) in stays.iter().enumerate() {
        if at < stay.end {
            return &stays[i..];
        }
    }
    &[]
}
