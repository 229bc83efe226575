//! Parts of times.
ghost use Rattle.std.specs.Prelude.{◌≡◌, min};
ghost use Rattle.iso_stats.specs.Shares.{at_best, percent};

/// Which part of a time `workers` workers spent in bodies, each of them an equal part of the
/// bodies' time, in percent.
pub(crate) fn percent(busy: u64, workers: u32, span: u64) -> u64
    ensures { result ≡ percent busy workers span }
{
    if workers == 0 || span == 0 {
        return 0;
    }
    let each = busy / u64::from(workers);
    low(u128::from(each) * 100 / u128::from(span))
}

/// How many times as fast as one worker `workers` of them are at best, where one chain takes
/// `chain`, in tenths.
pub(crate) fn at_best(work: u64, workers: u32, chain: u64) -> u64
    ensures { result ≡ at_best work workers chain }
{
    if workers == 0 {
        return 0;
    }
    let each = work / u64::from(workers);
    let least = each.max(chain);
    if least == 0 {
        return 0;
    }
    low(u128::from(work) * 10 / u128::from(least))
}

/// A number, or the largest that there is.
fn low(number: u128) -> u64
    ensures { result ≡ min number 18446744073709551615 }
{
    number.min(u128::from(u64::MAX)) as u64
}
