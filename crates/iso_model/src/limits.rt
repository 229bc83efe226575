//! The limits of the test language and of a run.

/// Scripts of one run.
pub const SCRIPTS: u32 = 64;
/// Bytes of an input file.
pub const FILE_BYTES: u32 = 1_048_576;
/// Nodes of a plan, with the root.
pub const NODES: u32 = 4_096;
/// Depth of a class: a top-level one has 1.
pub const CLASS_DEPTH: u32 = 8;
/// Depth of a body: that of a lifecycle block or a test has 1.
pub const BODY_DEPTH: u32 = 32;
/// Nested parentheses.
pub const PARENTHESES: u32 = 32;
/// Operands in a chain.
pub const OPERANDS: u32 = 32;
/// Bytes of a name.
pub const NAME_BYTES: u32 = 64;
/// Bytes of a declared key.
pub const KEY_BYTES: u32 = 255;
/// Different declared keys of a plan.
pub const KEYS: u32 = 255;
/// Bytes of a text.
pub const TEXT_BYTES: u32 = 4_096;
/// A number of a script, which may stand after a minus.
pub const NUMBER: u64 = 9_223_372_036_854_775_808;
/// Bytes of a display text or a reason, which has at least one.
pub const DISPLAY_BYTES: u32 = 200;
/// Steps of a block.
pub const BLOCK_STEPS: u32 = 10_000;
/// Bytes of what a body prints, each line with its line end.
pub const OUTPUT_BYTES: u32 = 65_536;
/// Workers of a run.
pub const WORKERS: u32 = 64;
