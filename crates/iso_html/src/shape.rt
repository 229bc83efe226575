//! What the picture of a run is made of.

use iso_lifecycle::kind::BodyKind;
use iso_model::access::Access;

/// How a bar looks: of a body of a node that failed or of another, or of a node that took a key for
/// READ or for READ_WRITE.
#[derive(Clone, Copy)]
pub enum Look {
    Well,
    Failed,
    Reading,
    Writing,
}

/// A bar: what a node did, which is critical or not, or that it had a key, from a moment until
/// another, in nanoseconds from the first begin.
#[derive(Clone, Copy)]
pub struct Bar {
    pub node: u32,
    pub look: Look,
    pub critical: bool,
    pub begin: u64,
    pub end: u64,
}

/// What a bar stands for.
#[derive(Clone, Copy)]
pub enum What {
    Body(BodyKind),
    /// That the node had a key, and how it took it.
    Taken(Access),
}

/// A bar with what it stands for.
#[derive(Clone, Copy)]
pub struct Mark {
    pub bar: Bar,
    pub what: What,
}

/// Bars that are drawn as one: how many, the node of the first, whether one is critical, and from
/// the earliest begin until the latest end.
#[derive(Clone, Copy)]
pub struct Group {
    pub count: u64,
    pub first: u32,
    pub look: Look,
    pub critical: bool,
    pub begin: u64,
    pub end: u64,
}

/// A piece of the picture.
#[derive(Clone, Copy)]
pub enum Shape {
    /// The label of a worker.
    Label(u32),
    /// The begin of the lanes of this number of workers.
    Lanes(u32),
    /// The begin of the row of who had a key.
    Key(u32),
    /// A bar in a lane.
    One(u32, Mark),
    /// Bars in a pixel of a lane.
    Several(u32, u32, Group),
    End,
}
