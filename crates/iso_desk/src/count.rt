//! How many of some things are of a kind, when one of them changes.
ghost use Rattle.std.specs.Prelude.{◌≡◌, ◌<◌, ◌≤◌, ◌+◌, ◌^◌, cond};

/// How many are of a kind after one of them changed: whether it was of the kind, and whether it is.
pub fn recounted(count: usize, was: bool, is: bool) -> usize
    requires was { cond was 1 0 ≤ count }
    requires room { count + cond is 1 0 < 2 ^ 64 + cond was 1 0 }
    ensures { result + cond was 1 0 ≡ count + cond is 1 0 }
{
    let others = if was { count - 1 } else { count };
    if is { others + 1 } else { others }
}
