//! Shards: parts of a suite, each for a machine of its own.
ghost use Rattle.std.specs.Prelude.{◌≤◌, IfSome};
ghost use Rattle.iso_arguments.specs.RequestBounds.{IsShard};

use crate::number::read_number;

/// The largest number of shards: a plan has no more top-level classes.
const MOST: u32 = 4095;

/// Every `of`-th of the top-level classes, beginning with the one of this number, counted from 1.
#[derive(Clone, Copy, PartialEq, Eq)]
pub struct Shard {
    pub number: u32,
    pub of: u32,
}

/// Reads a shard, as `2/3`: a number and how many shards there are, both from 1 to 4,095, the first
/// not above the second. Takes no memory.
pub(crate) fn read_shard(word: &str) -> Option<Shard>
    ensures bounds { IsShard result }
{
    let (number, of) = word.split_once('/')?;
    let (number, of) = (read_part(number)?, read_part(of)?);
    if number > of {
        return None;
    }
    Some(Shard { number, of })
}

/// A number from 1 to the largest one, of digits alone.
fn read_part(word: &str) -> Option<u32>
    ensures bounds { IfSome result (λ n. (1 ≤ n) × (n ≤ 4095)) }
{
    let number = read_number(word)?;
    if number == 0 || number > MOST {
        return None;
    }
    Some(number)
}
