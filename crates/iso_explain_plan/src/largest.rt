//! The largest of several classes.
ghost use Rattle.std.specs.Prelude.{◌≡◌, ◌≤◌, IfOk, OnOk, length, nat_le, take};
ghost use Rattle.std.specs.List.{prefix_len};
ghost use Rattle.iso_explain_plan.specs.Largest.{by_size, put_by_size};

use crate::size::Size;
use std::alloc::{AllocError, Global};

/// How many are told.
const TOLD: usize = 3;

/// The three largest, or as many as there are: the largest first, equal ones in their order.
pub(crate) fn largest_three<'a>(
    alloc: Global,
    sizes: &[Size<'a>],
) -> Result<Vec<Size<'a>>, AllocError>
    ensures { IfOk result (λ v. v.items ≡ take 3 (by_size sizes.now)) }
{
    let mut largest = Vec::new(alloc);
    for size in sizes {
        keep(&mut largest, *size)?;
    }
    Ok(largest)
}

/// Keeps a size among the three largest, if it is one of them.
fn keep<'a>(largest: &mut Vec<Size<'a>>, size: Size<'a>) -> Result<(), AllocError>
    ensures { OnOk result (largest.new.items ≡ take 3 (put_by_size largest.old.items size.entry)) }
{
    let place = count_above(largest, size.count);
    largest.insert(place, size)?;
    largest.truncate(TOLD);
    Ok(())
}

/// How many of the first ones are at least of this size.
fn count_above(largest: &[Size<'_>], count: usize) -> usize
    ensures count { result ≡ prefix_len (λ s. nat_le count s.count) largest.now }
    ensures within { result ≤ length largest.now }
{
    largest
        .iter()
        .take_while(|other| other.count >= count)
        .count()
}
