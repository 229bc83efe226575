//! The rows of what is told.

use iso_model::place::Lifecycle;

/// What became of a node.
#[derive(Clone, Copy)]
pub enum Became {
    Changed,
    New,
    Gone,
}

/// A part of a node that differs, besides its blocks and the starting values.
#[derive(Clone, Copy)]
pub enum Part {
    /// It was a class, and is a test.
    NowTest,
    /// It was a test, and is a class.
    NowClass,
    Marks,
    Disabled,
    Static,
    Field,
}

/// A block of a node.
#[derive(Clone, Copy)]
pub enum Block {
    /// The body of a test.
    Test,
    Class(Lifecycle),
}

/// A line of a script.
#[derive(Clone, Copy)]
pub struct Spot<'a> {
    /// The script's number.
    pub script: u32,
    pub file: &'a str,
    /// From 1 on.
    pub line: u64,
    /// Its bytes, without its line end.
    pub source: &'a [u8],
}

/// A row of what is told. What is said of a class names it behind `of`.
#[derive(Clone, Copy)]
pub enum Row<'a> {
    Node {
        became: Became,
        path: &'a str,
    },
    Part {
        part: Part,
        name: Option<&'a str>,
        of: Option<&'a str>,
    },
    /// Where a block differs first.
    Block {
        block: Block,
        of: Option<&'a str>,
        now: Option<Spot<'a>>,
        before: Option<Spot<'a>>,
    },
    /// A key that starts with another value, and the property that does.
    Start {
        key: &'a str,
        of: Option<&'a str>,
        property: Option<&'a str>,
    },
}
