//! Nodes that have to run one after another.

use crate::figures::{Chain, Link};

/// A node, and how long it takes at least.
#[derive(Clone, Copy)]
struct Entry {
    node: u32,
    time: u64,
}

/// How long nodes take one after another, and the three of them that take longest.
#[derive(Clone, Copy)]
pub(crate) struct Tally {
    pub time: u64,
    count: u64,
    first: Option<Entry>,
    second: Option<Entry>,
    third: Option<Entry>,
}

impl Tally {
    /// Of no nodes.
    pub(crate) fn none() -> Tally {
        Tally {
            time: 0,
            count: 0,
            first: None,
            second: None,
            third: None,
        }
    }

    /// With one node more.
    pub(crate) fn add(&mut self, node: u32, time: u64) {
        self.time = self.time.saturating_add(time);
        self.count = self.count.saturating_add(1);
        let entry = Entry { node, time };
        if is_longer(entry, self.first) {
            self.third = self.second;
            self.second = self.first;
            self.first = Some(entry);
        } else if is_longer(entry, self.second) {
            self.third = self.second;
            self.second = Some(entry);
        } else if is_longer(entry, self.third) {
            self.third = Some(entry);
        }
    }

    /// As a chain that this makes; none where it has no node.
    pub(crate) fn chain(&self, link: Link) -> Option<Chain> {
        Some(Chain {
            link,
            time: self.time,
            first: self.first?.node,
            second: node_of(self.second),
            third: node_of(self.third),
            more: 3 < self.count,
        })
    }
}

/// Whether a node takes longer than another, if there is one.
fn is_longer(entry: Entry, other: Option<Entry>) -> bool {
    match other {
        Some(other) => other.time < entry.time,
        None => true,
    }
}

/// The node of an entry, if there is one.
fn node_of(entry: Option<Entry>) -> Option<u32> {
    Some(entry?.node)
}
