//! What is told of a run.

/// The figures of a run. Times are in nanoseconds.
#[derive(Clone, Copy)]
pub struct Figures {
    pub tests: u32,
    /// How many workers were started, of how many.
    pub workers: u32,
    pub of: u32,
    /// From the first begin of a body until the last end.
    pub span: u64,
    /// The part of that which the workers that were started spent in bodies, in percent.
    pub busy: u64,
    pub waited: Option<Waited>,
    pub chain: Option<Chain>,
    pub best: Option<Best>,
}

/// The key that was waited for longest, and the longest single wait for it.
#[derive(Clone, Copy)]
pub struct Waited {
    pub key: u32,
    pub time: u64,
    pub node: u32,
    pub holder: u32,
    pub longest: u64,
    /// Whether there were more single waits for the key.
    pub more: bool,
}

/// What makes a chain: nodes that take a key one after another, or children of a class that run on
/// its worker. Class 0 is the root.
#[derive(Clone, Copy)]
pub enum Link {
    Key(u32),
    Class(u32),
}

/// Nodes that have to run one after another, of which the three that take longest are told.
#[derive(Clone, Copy)]
pub struct Chain {
    pub link: Link,
    pub time: u64,
    pub first: u32,
    pub second: Option<u32>,
    pub third: Option<u32>,
    pub more: bool,
}

/// How many times as fast as one worker a run is at best, in tenths.
#[derive(Clone, Copy)]
pub struct Best {
    pub tenths: u64,
    /// The same without a key.
    pub without: Option<Without>,
}

#[derive(Clone, Copy)]
pub struct Without {
    pub key: u32,
    pub tenths: u64,
}
