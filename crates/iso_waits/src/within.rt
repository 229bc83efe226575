//! The waits between two moments.
ghost use Rattle.std.specs.Prelude.{◌≡◌, IfOk};
ghost use Rattle.std.specs.List.Sorted.{IsNonDecreasingBy};
ghost use Rattle.iso_waits.specs.Moments.{begin_of, lowest_at, waits_within};

use crate::sight::sight_at;
use crate::stay::{Stay, unfinished};
use crate::told::Told;
use crate::wait::Wait;
use std::alloc::{AllocError, Global};

/// The waits from a moment until another for the lowest of these that is entered, which are in the
/// order of their begins.
pub(crate) fn waits_within(
    alloc: Global,
    stays: &[Stay],
    from: u64,
    until: u64,
) -> Result<Vec<Wait>, AllocError>
    requires { IsNonDecreasingBy begin_of stays.now }
    ensures { IfOk result (λ v. v.items ≡ waits_within (λ t. lowest_at t stays.now) from until) }
{
    let mut told = Told::new(alloc);
    let mut left = stays;
    let mut at = from;
    'moments: while at < until {
        left = unfinished(left, at);
        let sight = sight_at(left, at, until);
        told.goes_on(at, sight.until, sight.holder)?;
        at = sight.until;
    }
    told.into_waits()
}
