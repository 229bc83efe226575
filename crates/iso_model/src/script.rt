use crate::heads::{ClassHead, TestHead};
use crate::text::Text;
use std::sync::Arc;

/// How a node runs beside its siblings (JUnit 5, parallel execution).
#[derive(Clone, Copy, PartialEq, Eq)]
pub enum Mode {
    SameThread,
    Concurrent,
}

/// A test as it is written. Its head is shared, so that a plan lends it without a copy.
#[derive(Drop)]
pub struct Test {
    pub name: Text,
    pub display: Option<Text>,
    pub mode: Option<Mode>,
    pub head: Arc<TestHead>,
}

/// A class as it is written. Its head is shared with the class chains of the nodes under it.
#[derive(Drop)]
#[cycle(class)]
pub struct Class {
    pub name: Text,
    pub display: Option<Text>,
    pub mode: Option<Mode>,
    pub isolated: bool,
    pub head: Arc<ClassHead>,
    pub members: Vec<Member>,
}

/// A member of a class.
#[derive(Drop)]
#[cycle(class)]
pub enum Member {
    Class(Class),
    Test(Test),
}

/// A script: a team's top-level classes.
#[derive(Drop)]
pub struct Script {
    pub team: Text,
    pub classes: Vec<Class>,
}
