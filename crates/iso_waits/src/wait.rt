/// A single wait of a node, in nanoseconds from the first begin: the node that was in its way, and
/// from when to when it was.
#[derive(Clone, Copy)]
pub struct Wait {
    pub holder: u32,
    pub begin: u64,
    pub end: u64,
}

/// A wait of a node for a key: all its single waits that were for this key, from the first one's
/// begin until the last one's end. Times are in nanoseconds, moments from the first begin.
#[derive(Clone, Copy)]
pub struct NodeWait {
    pub node: u32,
    pub key: u32,
    pub begin: u64,
    pub end: u64,
    /// How long the single waits were together, and how many.
    pub time: u64,
    pub count: u64,
    /// How long the longest single wait was, of equal ones the first, and for which node.
    pub longest: u64,
    pub holder: u32,
    /// For which node the last single wait was.
    pub last: u32,
}
