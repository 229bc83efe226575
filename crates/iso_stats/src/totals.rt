//! What was waited for, by key.

use crate::figures::Waited;
use iso_plan::plan::Plan;
use iso_waits::wait::NodeWait;
use std::alloc::{AllocError, Global};

/// The single waits for a key: how long they were together, how many, and the longest.
#[derive(Clone, Copy)]
struct Total {
    time: u64,
    count: u64,
    node: u32,
    holder: u32,
    longest: u64,
}

impl Total {
    /// Of a key for which nobody waited.
    fn none() -> Total {
        Total {
            time: 0,
            count: 0,
            node: 0,
            holder: 0,
            longest: 0,
        }
    }

    /// As it is told of the key with a number.
    fn told(self, key: usize) -> Option<Waited> {
        match u32::try_from(key) {
            Ok(key) => Some(Waited {
                key,
                time: self.time,
                node: self.node,
                holder: self.holder,
                longest: self.longest,
                more: 1 < self.count,
            }),
            Err(_) => None,
        }
    }

    /// With the single waits of one node more.
    fn with(self, wait: NodeWait) -> Total {
        let longer = self.longest < wait.longest;
        Total {
            time: self.time.saturating_add(wait.time),
            count: self.count.saturating_add(wait.count),
            node: if longer { wait.node } else { self.node },
            holder: if longer { wait.holder } else { self.holder },
            longest: self.longest.max(wait.longest),
        }
    }
}

/// The key for which nodes waited longest together, if one did for a key. Of keys for which they
/// waited as long, the lowest.
pub(crate) fn most_waited(
    alloc: Global,
    plan: &Plan,
    waits: &[NodeWait],
) -> Result<Option<Waited>, AllocError> {
    let mut totals = no_totals(alloc, plan.key_count())?;
    for wait in waits {
        if let Some(total) = totals.get_mut(wait.key as usize) {
            *total = total.with(*wait);
        }
    }
    Ok(most(&totals))
}

/// A total of none for each key.
fn no_totals(alloc: Global, keys: u32) -> Result<Vec<Total>, AllocError> {
    let mut totals = Vec::with_capacity(alloc, keys as usize)?;
    'keys: for _key in 0..keys {
        totals.push(Total::none())?;
    }
    Ok(totals)
}

/// The largest of some totals, if one isn't of none.
fn most(totals: &[Total]) -> Option<Waited> {
    let mut most = None;
    let mut time = 0;
    for (key, total) in totals.iter().enumerate() {
        if time < total.time {
            time = total.time;
            most = total.told(key);
        }
    }
    most
}
